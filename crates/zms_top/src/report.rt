//! What a run hands back when its lanes are done.

ghost use Rattle.std.specs.Prelude.{◌≡◌, ℕ, ◌<◌, ◌≤◌, [], ◌∷◌, length, replicate, vec_capacity, vec_len, IfOk, OnOk, OnErr, IsErr};
ghost use Rattle.trace_text.specs.Traces.{metaslab_trace_text};
ghost use Rattle.ms_model.specs.Counts.{live_units, deferred_units, vacant_units};
ghost use Rattle.ms_core.specs.State.{origin_of};
ghost use Rattle.zms_top.specs.Answers.{paired};
ghost use Rattle.zms_dev.specs.Prints.{HandsOn};
ghost use Rattle.zms_top.specs.Ends.{any_device, is_device as names_device, damage_in, first_damage, end_status};
ghost use Rattle.zms_top.specs.Sound.{first_id};
ghost use Rattle.zms_top.specs.Reports.{HandsOver, IsTally, IsPrinted};

use crate::output::write_run;
use crate::pool::{ASHIFT, FIRST_METASLAB, Pool};
use crate::status::{PoolCause, RunLists, Status};
use crate::tally::Tally;
use crate::{Answer, Reply};
use cmd_text::Command;
use meta_store::OpenCause;
use ms_model::{DeviceNote, Journals, MsJournal};
use std::alloc::{AllocError, Global};
use trace_text::write_metaslab_trace;
use zms_dev::{Failed, Sink};
use zms_units::{Class, Items, MAX_DEVICES};

/// The lists that a run hands back, empty, with the room that was taken before its lanes began.
#[derive(Drop)]
pub(crate) struct EmptyLists {
    metaslabs: Vec<MsJournal>,
    device_notes: Vec<Items<DeviceNote>>,
    ghost empty: { metaslabs.items ≡ [] },
    ghost enough: { 0 < vec_capacity metaslabs },
    ghost quiet: { device_notes.items ≡ replicate 16 [] },
}

fn quiet_devices(alloc: Global) -> Result<Vec<Items<DeviceNote>>, AllocError>
    ensures { IfOk result (λ lists. lists.items ≡ replicate 16 []) }
{
    let mut lists = Vec::with_capacity(alloc, MAX_DEVICES)?;
    'filling: while lists.len() < MAX_DEVICES {
        lists.push(Items::new(alloc))?;
    }
    Ok(lists)
}

impl EmptyLists {
    pub(crate) fn take(alloc: Global) -> Result<EmptyLists, AllocError> {
        let metaslabs = Vec::with_capacity(alloc, 1)?;
        let device_notes = quiet_devices(alloc)?;
        Ok(EmptyLists {
            metaslabs,
            device_notes,
        })
    }
}

/// The journals and lists of a run whose lanes are done. Takes no memory.
pub(crate) fn hand_over(
    alloc: Global,
    pool: Pool,
    empty: EmptyLists,
    replies: Items<Reply>,
) -> (Journals, RunLists)
    requires { pool.gate.opened ≡ pool.metaslab.opened }
    ensures { HandsOver pool replies result.0 result.1 }
{
    let opened = pool.gate.opened();
    let mut metaslabs = empty.metaslabs;
    metaslabs.push_reserved(pool.metaslab.into_journal());
    let journals = Journals {
        opened,
        metaslabs: Items::from_vec(metaslabs),
        classes: Items::new(alloc),
        keeper: Items::new(alloc),
    };
    let lists = RunLists {
        replies,
        gate: Items::from_vec(pool.gate.into_notes()),
        device_notes: Items::from_vec(empty.device_notes),
    };
    (journals, lists)
}

/// What the totals need of the pool's metaslab.
fn tally_of(pool: &Pool) -> Tally
    requires shift { pool.now.metaslab.ashift ≡ 12 }
    requires id { pool.now.metaslab.id ≡ first_id }
    ensures { IsTally pool.now result }
{
    let counts = pool.metaslab.counts();
    Tally {
        id: FIRST_METASLAB,
        class: Class::Normal,
        ashift: ASHIFT,
        live: counts.live,
        deferred: counts.deferred,
        vacant: counts.vacant,
    }
}

fn is_device(answer: &Answer) -> bool
    ensures { result ≡ names_device answer.now }
{
    matches!(answer, Answer::Device { .. })
}

fn has_device(replies: &[Reply]) -> bool
    ensures { result ≡ any_device replies.now }
{
    replies.iter().any(|reply| is_device(&reply.answer))
}

/// The damage that an answer names.
fn damage_of(answer: &Answer) -> Option<OpenCause>
    ensures { result ≡ damage_in answer.now }
{
    match answer {
        Answer::Damaged { id, damage } => Some(OpenCause::MapDamaged {
            id: *id,
            damage: *damage,
        }),
        _ => None,
    }
}

/// The damage of the first reply that names any.
fn find_damage(replies: &[Reply]) -> Option<OpenCause>
    ensures { result ≡ first_damage replies.now }
{
    for reply in replies {
        if let Some(cause) = damage_of(&reply.answer) {
            return Some(cause);
        }
    }
    None
}

/// Prints the replies and totals, and hands them on before anything else is written. Takes no memory.
pub(crate) fn print<K: Sink>(
    out: &mut K,
    pool: &Pool,
    commands: &[Command],
    replies: &[Reply],
) -> Result<(), Failed>
    requires shift { pool.now.metaslab.ashift ≡ 12 }
    requires id { pool.now.metaslab.id ≡ first_id }
    requires each { length commands.now ≡ length replies.now }
    ensures { IsPrinted pool.now (paired commands.now replies.now) (K.state out.old) (K.state out.new) result }
{
    let tally = tally_of(pool);
    write_run(out, commands, replies, &[tally], pool.metaslab.settled())
}

/// Writes the trace, where the replies and totals were printed. Takes no memory.
pub(crate) fn trace_journals<T: Sink>(
    trace: &mut T,
    printed: Result<(), Failed>,
    journals: &Journals,
) -> Result<(), Failed>
    ensures traces { OnOk printed (HandsOn (T.state trace.old) (T.state trace.new) (metaslab_trace_text journals.now) result) }
    ensures stops { OnErr printed ((trace.new ≡ trace.old) × IsErr result) }
{
    printed?;
    write_metaslab_trace(trace, journals)?;
    trace.flush()
}

/// How lanes ended that answered this, and whose texts were written or not.
pub(crate) fn status_of(replies: &[Reply], written: Result<(), Failed>) -> Status
    ensures { result ≡ end_status (any_device replies.now) (first_damage replies.now) written }
{
    if has_device(replies) {
        Status::DeviceFault
    } else if let Some(cause) = find_damage(replies) {
        Status::NotAPool {
            cause: PoolCause::Open(cause),
        }
    } else if written.is_err() {
        Status::WriteFault
    } else {
        Status::Done
    }
}
