//! The whole file.

ghost use Rattle.std.specs.Prelude.{◌≡◌, ℕ, ◌⊎◌, Ok, Err, IfOk, IfSome, IfNone, IsErrOf};
ghost use Rattle.cmd_text.specs.declared.script.Script.{Script};
ghost use Rattle.cmd_text.specs.declared.script.TextFault.TheVariants.{Memory};
ghost use Rattle.cmd_text.specs.Files.{IsFile, IsFirstBad, Stops};

use crate::fields::first_line;
use crate::reader::Reader;
use crate::script::{Script, TextFault};
use std::alloc::{AllocError, Global};
use zms_units::MAX_TEXT_BYTES;

/// What the lines of a text say up to its first bad line, and the number of that line, from 1; none where the text is a
/// file.
#[derive(Debug, Drop)]
pub struct Front {
    pub script: Script,
    pub bad: Option<u64>,
}

/// Reads a command file up to its first bad line, for who must know what stands before it.
///
/// Takes time linear in the text, where few names have hashes that meet: the name of each alloc is looked up by its hash,
/// whose seed is fixed. Takes memory for the commands and for the places of their names.
pub fn read_front(alloc: Global, text: &[u8]) -> Result<Front, AllocError>
    ensures file { IfOk result (λ front. IfNone front.bad (IsFile text.now front.script)) }
    ensures bad { IfOk result (λ front. IfSome front.bad (Stops text.now front.script)) }
{
    let mut reader = Reader::new(alloc);
    let mut rest = text;
    let mut number: u64 = 0;
    while !rest.is_empty() {
        let (line, next) = first_line(rest);
        number += 1;
        if text.len() - next.len() > MAX_TEXT_BYTES || !reader.take(alloc, line, number)? {
            return Ok(Front {
                script: reader.into_script(),
                bad: Some(number),
            });
        }
        rest = next;
    }
    Ok(Front {
        script: reader.into_script(),
        bad: None,
    })
}

/// The script of a command file. `Bad` names its first line, from 1, that is outside the grammar or passes a limit; a text
/// of more than 16777216 bytes is bad at the line that holds the byte behind them, if at no earlier one.
///
/// Takes the time and the memory of `read_front`.
pub fn read_commands(alloc: Global, text: &[u8]) -> Result<Script, TextFault>
    ensures file { IfOk result (IsFile text.now) }
    ensures bad { (line : ℕ) → IsErrOf result (TextFault.Bad line) → IsFirstBad text.now line }
    ensures only_file { (script : Script) → IsFile text.now script → (result ≡ Ok script) ⊎ (result ≡ Err Memory) }
    ensures only_bad { (line : ℕ) → IsFirstBad text.now line → (result ≡ Err (TextFault.Bad line)) ⊎ (result ≡ Err Memory) }
{
    let front = read_front(alloc, text)?;
    match front.bad {
        Some(line) => Err(TextFault::Bad { line }),
        None => Ok(front.script),
    }
}
