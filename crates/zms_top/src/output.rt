//! The text of replies and totals. Nothing here takes memory.

ghost use Rattle.std.specs.Prelude.{◌≡◌, ◌+◌, ◌*◌, ◌^◌, ◌<◌, ◌≤◌, ◌++◌, List, length, codes};
ghost use Rattle.std.specs.List.{flat_map, list_any, sum_by};
ghost use Rattle.zms_dev.specs.Prints.{Prints, HandsOn};
ghost use Rattle.trace_text.specs.Pieces.{text_if};
ghost use Rattle.zms_units.specs.Classes.{class_word};
ghost use Rattle.zms_top.specs.Answers.{paired};
ghost use Rattle.zms_top.specs.Texts.{same_class, is_asked, if_asked, live_bytes, deferred_bytes, vacant_bytes, counts_text, metaslab_text, class_line, totals_text, run_text, created_text, FitInBytes, id_text, first_text, answer_text, head_text, reply_text};

use crate::tally::Tally;
use crate::{Answer, Reply};
use cmd_text::{Command, What};
use trace_text::Piece::{Number, Text};
use trace_text::{Each, Printed};
use zms_dev::{Failed, Sink};
use zms_units::{Class, First, Group, MsId, bytes_of};

/// A metaslab's vdev and index.
#[derive(Clone, Copy)]
struct Place(MsId);

impl Printed for Place {
    ghost text = { λ place. id_text place.0 };

    fn write<S: Sink>(&self, out: &mut S) -> Result<(), Failed> {
        (
            Number(u64::from(self.0.vdev)),
            Text(b" "),
            Number(u64::from(self.0.index)),
        )
            .write(out)
    }
}

/// The first fault or damage, as a suspended pool tells it.
#[derive(Clone, Copy)]
struct Kept(First);

impl Printed for Kept {
    ghost text = { λ kept. first_text kept.0 };

    fn write<S: Sink>(&self, out: &mut S) -> Result<(), Failed> {
        match self.0 {
            First::Device { before, after } => {
                (Number(before), Text(b" "), Number(after)).write(out)
            }
            First::Damaged { id, .. } => Place(id).write(out),
        }
    }
}

impl Printed for Answer {
    ghost text = { answer_text };

    fn write<S: Sink>(&self, out: &mut S) -> Result<(), Failed> {
        match self {
            Answer::Granted { group, copies } => {
                (Text(b"granted "), Number(group.0), copies).write(out)
            }
            Answer::NoSpace { looked } => (Text(b"nospace "), Number(*looked)).write(out),
            Answer::BadSize => Text(b"badsize").write(out),
            Answer::Done { group } => (Text(b"done "), Number(group.0)).write(out),
            Answer::NoName => Text(b"noname").write(out),
            Answer::NotLive { vdev, offset } => (
                Text(b"notlive "),
                Number(u64::from(*vdev)),
                Text(b":"),
                Number(*offset),
            )
                .write(out),
            Answer::Device { before, after } => (
                Text(b"device "),
                Number(*before),
                Text(b" "),
                Number(*after),
            )
                .write(out),
            Answer::Damaged { id, .. } => (Text(b"damaged "), Place(*id)).write(out),
            Answer::Suspended { first } => (Text(b"suspended "), Kept(*first)).write(out),
        }
    }
}

/// The command word and its first argument.
#[derive(Clone, Copy)]
struct Head<'a>(&'a What);

impl<'a> Printed for Head<'a> {
    ghost text = { λ head. head_text head.0.now };

    fn write<S: Sink>(&self, out: &mut S) -> Result<(), Failed> {
        match self.0 {
            What::Alloc { name, .. } => {
                (Text(b"alloc "), Text(name.as_str().as_bytes())).write(out)
            }
            What::Free { name } => (Text(b"free "), Text(name.as_str().as_bytes())).write(out),
            What::FreeSeg { vdev, offset, size } => (
                Text(b"freeseg "),
                Number(u64::from(*vdev)),
                Text(b" "),
                Number(*offset),
                Text(b" "),
                Number(*size),
            )
                .write(out),
            What::Sync => Text(b"sync").write(out),
            What::Load { vdev, index } => (
                Text(b"load "),
                Number(u64::from(*vdev)),
                Text(b" "),
                Number(u64::from(*index)),
            )
                .write(out),
            What::Unload { vdev, index } => (
                Text(b"unload "),
                Number(u64::from(*vdev)),
                Text(b" "),
                Number(u64::from(*index)),
            )
                .write(out),
            What::Init { vdev } => (Text(b"init "), Number(u64::from(*vdev))).write(out),
            What::Trim { vdev } => (Text(b"trim "), Number(u64::from(*vdev))).write(out),
            What::AutoTrim { vdev } => (Text(b"autotrim "), Number(u64::from(*vdev))).write(out),
        }
    }
}

/// One line of out: the lane, the command and the answer.
fn write_reply<S: Sink>(out: &mut S, command: &Command, reply: &Reply) -> Result<(), Failed>
    ensures { Prints (S.state out.old) (S.state out.new) (reply_text (record { command = command.now; reply = reply.now })) result }
{
    let lane = u64::from(reply.lane);
    (
        Number(lane),
        Text(b" "),
        Head(&command.what),
        Text(b" "),
        &reply.answer,
        Text(b"\n"),
    )
        .write(out)
}

fn write_replies<S: Sink>(
    out: &mut S,
    commands: &[Command],
    replies: &[Reply],
) -> Result<(), Failed>
    requires { length commands.now ≡ length replies.now }
    ensures { Prints (S.state out.old) (S.state out.new) (flat_map reply_text (paired commands.now replies.now)) result }
{
    for (at, reply) in replies.iter().enumerate() {
        write_reply(out, &commands[at], reply)?;
    }
    Ok(())
}

fn is_same(one: Class, other: Class) -> bool
    ensures { result ≡ same_class one other }
{
    matches!(
        (one, other),
        (Class::Normal, Class::Normal)
            | (Class::Log, Class::Log)
            | (Class::Special, Class::Special)
            | (Class::Dedup, Class::Dedup)
    )
}

fn is_wanted(asked: Option<Class>, class: Class) -> bool
    ensures { result ≡ is_asked asked class }
{
    match asked {
        None => true,
        Some(asked) => is_same(asked, class),
    }
}

/// Counts that are live, deferred and vacant, in units or in bytes.
#[derive(Clone, Copy)]
struct Sums {
    live: u64,
    deferred: u64,
    vacant: u64,
}

/// The counts at the end of a line.
impl Printed for Sums {
    ghost text = { λ sums. counts_text sums.live sums.deferred sums.vacant };

    fn write<S: Sink>(&self, out: &mut S) -> Result<(), Failed> {
        (
            Text(b" live "),
            Number(self.live),
            Text(b" deferred "),
            Number(self.deferred),
            Text(b" vacant "),
            (Number(self.vacant), Text(b"\n")),
        )
            .write(out)
    }
}

impl Printed for Tally {
    ghost text = { metaslab_text };

    fn write<S: Sink>(&self, out: &mut S) -> Result<(), Failed> {
        let sums = Sums {
            live: u64::from(self.live),
            deferred: u64::from(self.deferred),
            vacant: u64::from(self.vacant),
        };
        (
            Text(b"metaslab "),
            Number(u64::from(self.id.vdev)),
            Text(b" "),
            Number(u64::from(self.id.index)),
            sums,
        )
            .write(out)
    }
}

/// The sums of the metaslabs of a class, or of all. Linear in the metaslabs.
fn sums_of(tallies: &[Tally], asked: Option<Class>) -> Sums
    requires fits { FitInBytes tallies.now }
    ensures live { result.live ≡ sum_by (if_asked asked live_bytes) tallies.now }
    ensures deferred { result.deferred ≡ sum_by (if_asked asked deferred_bytes) tallies.now }
    ensures vacant { result.vacant ≡ sum_by (if_asked asked vacant_bytes) tallies.now }
{
    let mut sums = Sums {
        live: 0,
        deferred: 0,
        vacant: 0,
    };
    for tally in tallies {
        if is_wanted(asked, tally.class) {
            sums = Sums {
                live: sums.live + bytes_of(tally.live, tally.ashift),
                deferred: sums.deferred + bytes_of(tally.deferred, tally.ashift),
                vacant: sums.vacant + bytes_of(tally.vacant, tally.ashift),
            };
        }
    }
    sums
}

/// A class with its sums.
#[derive(Clone, Copy)]
struct ClassSums {
    class: Class,
    sums: Sums,
}

impl Printed for ClassSums {
    ghost text = { λ c. codes "class " ++ (class_word c.class ++ counts_text c.sums.live c.sums.deferred c.sums.vacant) };

    fn write<S: Sink>(&self, out: &mut S) -> Result<(), Failed> {
        (
            Text(b"class "),
            Text(self.class.word().as_bytes()),
            self.sums,
        )
            .write(out)
    }
}

fn has_class(tallies: &[Tally], class: Class) -> bool
    ensures { result ≡ list_any (λ t. same_class class t.class) tallies.now }
{
    tallies.iter().any(|tally| is_same(class, tally.class))
}

/// The sums of a class, where some metaslab is of the class.
fn class_sums(tallies: &[Tally], class: Class) -> Option<ClassSums>
    requires fits { FitInBytes tallies.now }
    ensures { text_if ⟦<ClassSums as Printed>⟧.text result ≡ class_line tallies.now class }
{
    if has_class(tallies, class) {
        let sums = sums_of(tallies, Some(class));
        Some(ClassSums { class, sums })
    } else {
        None
    }
}

/// The totals of a run.
fn write_totals<S: Sink>(out: &mut S, tallies: &[Tally], group: Group) -> Result<(), Failed>
    requires fits { FitInBytes tallies.now }
    ensures { Prints (S.state out.old) (S.state out.new) (totals_text tallies.now group.0) result }
{
    (
        Each(tallies),
        (
            class_sums(tallies, Class::Normal),
            class_sums(tallies, Class::Log),
            class_sums(tallies, Class::Special),
            class_sums(tallies, Class::Dedup),
        ),
        (Text(b"pool"), sums_of(tallies, None)),
        (Text(b"group "), Number(group.0), Text(b"\n")),
    )
        .write(out)
}

fn write_lines<S: Sink>(
    out: &mut S,
    commands: &[Command],
    replies: &[Reply],
    tallies: &[Tally],
    group: Group,
) -> Result<(), Failed>
    requires each { length commands.now ≡ length replies.now }
    requires fits { FitInBytes tallies.now }
    ensures { Prints (S.state out.old) (S.state out.new) (run_text (paired commands.now replies.now) tallies.now group.0) result }
{
    write_replies(out, commands, replies)?;
    write_totals(out, tallies, group)
}

/// All that a run prints, which is handed on at the end: a line for each command, then the totals. Linear in the commands.
pub fn write_run<S: Sink>(
    out: &mut S,
    commands: &[Command],
    replies: &[Reply],
    tallies: &[Tally],
    group: Group,
) -> Result<(), Failed>
    requires each { length commands.now ≡ length replies.now }
    requires fits { FitInBytes tallies.now }
    ensures { HandsOn (S.state out.old) (S.state out.new) (run_text (paired commands.now replies.now) tallies.now group.0) result }
{
    write_lines(out, commands, replies, tallies, group)?;
    out.flush()
}

/// All that `create` prints.
pub fn write_created<S: Sink>(out: &mut S) -> Result<(), Failed>
    ensures { HandsOn (S.state out.old) (S.state out.new) created_text result }
{
    Text(b"created group 4\n").write(out)?;
    out.flush()
}
