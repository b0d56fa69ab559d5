//! One lane: its commands in order, each with its reply.

ghost use Rattle.std.specs.Prelude.{◌≡◌, ℕ, ◌+◌, ◌^◌, ◌<◌, ◌≤◌, List, [], ◌∷◌, ◌++◌, length, map, None, IsSome, if◌then◌else◌, IfOk, OnErr};
ghost use Rattle.zms_units.specs.Limits.{IsLane, MAX_COMMANDS};
ghost use Rattle.std.specs.List.{All};
ghost use Rattle.txg_gate.specs.Closings.{closings_of};
ghost use Rattle.ms_core.specs.State.{origin_of, settled_of, StaysButNotes};
ghost use Rattle.zms_dev.specs.Causes.{one_more};
ghost use Rattle.zms_dev.specs.Disk.{Tells};
ghost use Rattle.zms_dev.specs.Runs.{Spares};
ghost use Rattle.meta_store.specs.Rewinds.{Adds};
ghost use Rattle.zms_top.specs.Script.{IsBuilt, IsCommand};
ghost use Rattle.zms_top.specs.Answers.{Replied, first_with, is_failure, synced_after, first_fault, paired};
ghost use Rattle.zms_top.specs.Lines.{WhatLine, AreIntervals};
ghost use Rattle.zms_top.specs.Sound.{shape_of};
ghost use Rattle.zms_top.specs.Names.{AreWithin, Learns, AreNamed};
ghost use Rattle.zms_top.specs.Ends.{damage_in, first_damage};
ghost use Rattle.zms_top.specs.Stored.{IsBeside};
ghost use Rattle.zms_top.specs.Pools.{Acted, IsPool, IsStoreOf, IsRemembered, StaysRemembered, LeavesSettled};
ghost use Rattle.zms_top.specs.Runs.{HasRun, answers_of};

use crate::allocs::alloc;
use crate::blocks::find_block;
use crate::frees::free;
use crate::pool::Pool;
use crate::syncs::sync;
use crate::{Answer, Reply};
use cmd_text::{Command, What};
use meta_store::MetaStore;
use std::alloc::{AllocError, Global};
use std::collections::HashMap;
use zms_dev::{Disk, Meet};
use zms_units::Seg;

/// Runs one command. The lane's blocks are known by their names.
fn run_command<'a, D: Disk>(
    alloc_from: Global,
    pool: &mut Pool,
    store: &mut MetaStore<D>,
    blocks: &mut HashMap<&'a str, Seg>,
    lane: u8,
    what: &'a What,
) -> Result<Answer, AllocError>
    requires pool { IsPool pool.old }
    requires store { IsStoreOf pool.old store.old.layout store.old.table }
    requires lane { IsLane lane }
    requires built { IsBuilt what.now }
    requires few { closings_of lane pool.old.gate.notes < MAX_COMMANDS }
    requires within { AreWithin pool.old.metaslab.units blocks.old }
    ensures acted { (done : List Replied) → first_fault done ≡ pool.old.first → AreNamed (shape_of (origin_of pool.old.metaslab)) done blocks.old → IfOk result (λ answer. Acted pool.old pool.new lane (WhatLine (shape_of (origin_of pool.old.metaslab)) lane done what.now answer)) }
    ensures learns { IfOk result (λ answer. Learns (shape_of (origin_of pool.old.metaslab)) what.now answer blocks.old blocks.new) }
    ensures first { IfOk result (λ answer. pool.new.first ≡ first_with pool.old.first answer) }
    ensures synced { IfOk result (λ answer. settled_of pool.new.metaslab ≡ synced_after (settled_of pool.old.metaslab) what.now answer) }
    ensures intervals { IfOk result (λ answer. AreIntervals (D.faults store.old.disk) (D.faults store.new.disk) (answer ∷ [])) }
    ensures undamaged { IsRemembered pool.old store.old.layout store.old.table (D.state store.old.disk) → IfOk result (λ answer. damage_in answer ≡ None) }
    ensures err { OnErr result ((D.faults store.new.disk ≡ D.faults store.old.disk) × ((pool.new.first ≡ pool.old.first) × LeavesSettled pool.old pool.new)) }
    // Whatever is answered.
    ensures store { IsStoreOf pool.new store.new.layout store.new.table }
    ensures layout { store.new.layout ≡ store.old.layout }
    ensures remembered { IsRemembered pool.old store.old.layout store.old.table (D.state store.old.disk) → StaysRemembered pool.old pool.new store.new.layout store.new.table (D.state store.old.disk) (D.state store.new.disk) }
    ensures spares { Tells (D.state store.old.disk) → Spares (IsBeside store.old.layout) (D.state store.old.disk) (D.state store.new.disk) }
    ensures flushes { Tells (D.state store.old.disk) → Adds (D.state store.old.disk) (D.state store.new.disk) }
    ensures suspended { IsSome pool.old.first → store.new ≡ store.old }
    ensures stays { StaysButNotes pool.old.metaslab pool.new.metaslab }
    ensures gate { pool.new.gate.opened ≡ pool.old.gate.opened }
{
    match what {
        What::Alloc { name, size, .. } => {
            alloc(alloc_from, pool, blocks, lane, name.as_str(), *size)
        }
        What::Free { name } => free(pool, lane, find_block(blocks, name.as_str())),
        What::Sync => sync(alloc_from, pool, store, lane),
        _ => unreachable!(),
    }
}

/// Runs the commands in order, each after a meeting. Linear in them, but for what each does.
pub(crate) fn run_lane<D: Disk, M: Meet>(
    alloc: Global,
    pool: &mut Pool,
    store: &mut MetaStore<D>,
    commands: &[Command],
    meet: &M,
) -> Result<Vec<Reply>, AllocError>
    requires pool { IsPool pool.old }
    requires store { IsStoreOf pool.old store.old.layout store.old.table }
    requires fresh { pool.old.first ≡ None }
    requires commands { All IsCommand commands.now }
    requires few { closings_of 1 pool.old.gate.notes + length commands.now ≤ MAX_COMMANDS }
    ensures each { IfOk result (λ replies. length replies.items ≡ length commands.now) }
    ensures ran { IfOk result (λ replies. HasRun pool.old pool.new (paired commands.now replies.items)) }
    ensures intervals { IfOk result (λ replies. AreIntervals (D.faults store.old.disk) (D.faults store.new.disk) (answers_of replies.items)) }
    ensures undamaged { IsRemembered pool.old store.old.layout store.old.table (D.state store.old.disk) → IfOk result (λ replies. first_damage replies.items ≡ None) }
    // Whatever is answered.
    ensures layout { store.new.layout ≡ store.old.layout }
    ensures remembered { IsRemembered pool.old store.old.layout store.old.table (D.state store.old.disk) → StaysRemembered pool.old pool.new store.new.layout store.new.table (D.state store.old.disk) (D.state store.new.disk) }
    ensures faults { D.faults store.new.disk ≡ (if is_failure pool.new.first then one_more (D.faults store.old.disk) else D.faults store.old.disk) }
    ensures spares { Tells (D.state store.old.disk) → Spares (IsBeside store.old.layout) (D.state store.old.disk) (D.state store.new.disk) }
    ensures flushes { Tells (D.state store.old.disk) → Adds (D.state store.old.disk) (D.state store.new.disk) }
    ensures stays { StaysButNotes pool.old.metaslab pool.new.metaslab }
    ensures gate { pool.new.gate.opened ≡ pool.old.gate.opened }
{
    let mut replies = Vec::with_capacity(alloc, commands.len())?;
    let mut blocks = HashMap::new(alloc);
    for command in commands {
        meet.here(command.lane);
        let answer = run_command(alloc, pool, store, &mut blocks, command.lane, &command.what)?;
        replies.push(Reply {
            lane: command.lane,
            answer,
        })?;
    }
    Ok(replies)
}
