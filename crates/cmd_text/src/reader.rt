//! What the lines of a file said so far.

ghost use Rattle.std.specs.Prelude.{◌≡◌, ℕ, ◌≤◌, [], not, ◌||◌, ◌&&◌, ◌==◌, List, IsTrue, None, if◌then◌else◌, IfOk, IfSome, IfNone};
ghost use Rattle.std.specs.Bool.{OnTrue, OnFalse};
ghost use Rattle.std.specs.Str.{bytes_eq};
ghost use Rattle.cmd_text.specs.Grammar.Reading.{Asked, Made};
ghost use Rattle.cmd_text.specs.Files.{begins_worker, greatest_lane, lanes_of};
ghost use Rattle.cmd_text.specs.Reading.{what_of, HasNameInText, command_of, has_name, Learns, IsTwice, IsReader, Adds, Takes, Keeps, Bars, Refuses};

use crate::lines::{Asks, Line, read_line};
use crate::script::{Command, MAKE_LANES, MAX_LINE_BYTES, MAX_WORKERS, Make, Script, What};
use std::alloc::{AllocError, Global};
use std::collections::HashSet;
use zms_units::{Items, MAX_COMMANDS, Text};

/// The commands so far, or the make line, with the greatest lane, the number of worker commands, and the lanes' names.
#[derive(Drop)]
pub struct Reader<'a> {
    pub commands: Vec<Command>,
    pub make: Option<Make>,
    pub lanes: u8,
    pub workers: usize,
    pub names: HashSet<(u8, &'a str)>,
}

/// Adds a lane's name, and says whether it is new.
fn add_name<'a>(
    names: &mut HashSet<(u8, &'a str)>,
    lane: u8,
    name: &'a str,
) -> Result<bool, AllocError>
    ensures fresh { IfOk result (λ is_new. is_new ≡ not (has_name names.old lane name.now)) }
    ensures added { IfOk result (λ _. (l : ℕ) (other : List ℕ) → has_name names.new l other ≡ (((l == lane) && bytes_eq other name.now) || has_name names.old l other)) }
{
    Ok(names.insert((lane, name))?)
}

/// A text of its own.
fn text_of(alloc: Global, name: &str) -> Result<Text, AllocError>
    ensures { IfOk result (λ t. t ≡ name.now) }
{
    Ok(Text::from_string(String::from_str(alloc, name)?))
}

/// What a lane asks for, whose name is known from then on; none where the lane knows the name.
fn learn<'a>(
    alloc: Global,
    names: &mut HashSet<(u8, &'a str)>,
    lane: u8,
    asks: Asks<'a>,
) -> Result<Option<What>, AllocError>
    requires { HasNameInText asks }
    ensures what { IfOk result (λ found. IfSome found (λ w. w ≡ what_of asks.entry)) }
    ensures some { IfOk result (λ found. IfSome found (λ w. Learns names.old names.new lane w)) }
    ensures none { IfOk result (λ found. IfNone found (IsTwice names.old lane (what_of asks.entry))) }
{
    match asks {
        Asks::Nameless(what) => Ok(Some(what)),
        Asks::FreeAs { name } => {
            let name = text_of(alloc, name)?;
            Ok(Some(What::Free { name }))
        }
        Asks::AllocAs {
            name,
            size,
            class,
            copies,
        } => {
            if !add_name(names, lane, name)? {
                return Ok(None);
            }
            let name = text_of(alloc, name)?;
            Ok(Some(What::Alloc {
                name,
                size,
                class,
                copies,
            }))
        }
    }
}

/// How many workers this begins: one or none.
fn workers_of(what: &What) -> usize
    ensures { result ≡ (if begins_worker what.now then 1 else 0) }
{
    match what {
        What::Init { .. } | What::Trim { .. } | What::AutoTrim { .. } => 1,
        _ => 0,
    }
}

impl<'a> Reader<'a> {
    /// Nothing was said yet.
    pub fn new(alloc: Global) -> Self
        ensures is { IsReader result }
        ensures commands { result.commands.items ≡ [] }
        ensures make { result.make ≡ None }
    {
        Reader {
            commands: Vec::new(alloc),
            make: None,
            lanes: 1,
            workers: 0,
            names: HashSet::new(alloc),
        }
    }

    /// Takes what a lane asks for, and says whether it may stand here.
    fn ask(
        &mut self,
        alloc: Global,
        lane: u8,
        asks: Asks<'a>,
        line: u64,
    ) -> Result<bool, AllocError>
        requires reader { IsReader self.old }
        requires name { HasNameInText asks }
        requires lane { 1 ≤ lane }
        ensures taken { IfOk result (λ took. OnTrue took (Adds self.old self.new (Asked (command_of lane line (what_of asks.entry))))) }
        ensures keeps { IfOk result (λ took. OnFalse took (Keeps self.old self.new)) }
        ensures refused { IfOk result (λ took. OnFalse took (Bars self.old (Asked (command_of lane line (what_of asks.entry))))) }
    {
        if self.make.is_some() || self.commands.len() == MAX_COMMANDS {
            return Ok(false);
        }
        let Some(what) = learn(alloc, &mut self.names, lane, asks)? else {
            return Ok(false);
        };
        let workers = self.workers + workers_of(&what);
        if workers > MAX_WORKERS {
            return Ok(false);
        }
        self.commands.push(Command { lane, line, what })?;
        self.lanes = self.lanes.max(lane);
        self.workers = workers;
        Ok(true)
    }

    /// Takes a make line, and says whether it may stand here.
    fn make(&mut self, make: Make) -> bool
        requires { IsReader self.old }
        ensures taken { OnTrue result (Adds self.old self.new (Made make)) }
        ensures keeps { OnFalse result (Keeps self.old self.new) }
        ensures refused { OnFalse result (Bars self.old (Made make)) }
    {
        if self.make.is_some() || !self.commands.is_empty() {
            return false;
        }
        self.make = Some(make);
        true
    }

    /// Takes a line, and says whether it is in the grammar and may stand here.
    pub fn take(&mut self, alloc: Global, line: &'a [u8], number: u64) -> Result<bool, AllocError>
        requires { IsReader self.old }
        ensures taken { IfOk result (λ took. OnTrue took (Takes self.old self.new number line.now)) }
        ensures keeps { IfOk result (λ took. OnFalse took (Keeps self.old self.new)) }
        ensures refused { IfOk result (λ took. OnFalse took (Refuses self.old number line.now)) }
    {
        if line.len() > MAX_LINE_BYTES {
            return Ok(false);
        }
        match read_line(line) {
            None => Ok(false),
            Some(Line::PassedLine) => Ok(true),
            Some(Line::LaneLine { lane, asks }) => self.ask(alloc, lane, asks, number),
            Some(
                Line::MakeLine {
                    number: given,
                    count,
                },
            ) => Ok(self.make(Make {
                number: given,
                count,
                line: number,
            })),
        }
    }

    /// The script of what was said.
    pub fn into_script(self) -> Script
        requires { self.lanes ≡ greatest_lane self.commands.items }
        ensures commands { result.commands ≡ self.entry.commands.items }
        ensures make { result.make ≡ self.entry.make }
        ensures lanes { result.lanes ≡ lanes_of self.entry.commands.items self.entry.make }
    {
        let lanes = if self.make.is_some() {
            MAKE_LANES
        } else {
            self.lanes
        };
        Script {
            lanes,
            commands: Items::from_vec(self.commands),
            make: self.make,
        }
    }
}
