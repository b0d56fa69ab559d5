//! What was read, as the rows write it.

use cmd_text::{Command, Script, TextFault, What};
use std::alloc::{AllocError, Global};
use zms_units::Class;

pub fn class_word(class: Class) -> &'static str {
    match class {
        Class::Normal => "normal",
        Class::Log => "log",
        Class::Special => "special",
        Class::Dedup => "dedup",
    }
}

fn what_answer(alloc: Global, what: &What) -> Result<String, AllocError> {
    match what {
        What::Alloc {
            name,
            size,
            class,
            copies,
        } => {
            let name = name.as_str();
            let class = class_word(*class);
            format!(in alloc; "alloc {name} {size} {class} {copies}")
        }
        What::Free { name } => {
            let name = name.as_str();
            format!(in alloc; "free {name}")
        }
        What::FreeSeg { vdev, offset, size } => {
            format!(in alloc; "freeseg {vdev} {offset} {size}")
        }
        What::Sync => format!(in alloc; "sync"),
        What::Load { vdev, index } => format!(in alloc; "load {vdev} {index}"),
        What::Unload { vdev, index } => format!(in alloc; "unload {vdev} {index}"),
        What::Init { vdev } => format!(in alloc; "init {vdev}"),
        What::Trim { vdev } => format!(in alloc; "trim {vdev}"),
        What::AutoTrim { vdev } => format!(in alloc; "autotrim {vdev}"),
    }
}

fn command_answer(alloc: Global, command: &Command) -> Result<String, AllocError> {
    let what = what_answer(alloc, &command.what)?;
    let Command { lane, line, .. } = command;
    format!(in alloc; "{line} {lane} {what}\n")
}

fn script_answer(alloc: Global, script: &Script, is_full: bool) -> Result<String, AllocError> {
    let lanes = script.lanes;
    let count = script.commands.len();
    let mut answer = format!(in alloc; "good {lanes} {count}\n")?;
    if let Some(make) = &script.make {
        let number = make.number;
        let count = make.count;
        let line = make.line;
        let text = format!(in alloc; "make {number} {count} {line}\n")?;
        answer.push_str(&text)?;
    }
    if is_full {
        for command in script.commands.as_slice() {
            let text = command_answer(alloc, command)?;
            answer.push_str(&text)?;
        }
    }
    Ok(answer)
}

/// The answer of a row: in a full one with each command.
pub fn answer_of(
    alloc: Global,
    read: &Result<Script, TextFault>,
    is_full: bool,
) -> Result<String, AllocError> {
    match read {
        Ok(script) => script_answer(alloc, script, is_full),
        Err(TextFault::Bad { line }) => format!(in alloc; "bad {line}\n"),
        Err(TextFault::Memory) => format!(in alloc; "memory\n"),
    }
}
