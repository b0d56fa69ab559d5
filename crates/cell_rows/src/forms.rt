//! The calls at the cells, one by one.
ghost use Rattle.std.specs.Prelude.{◌≡◌, ◌+◌, ◌^◌, ◌<◌, ◌≤◌, true, length};
ghost use Rattle.ms_model.specs.Units.{collected_group};
ghost use Rattle.turn_passes.specs.Parts.{IsIdle};
ghost use Rattle.ms_cell.specs.Passes.{Seated, AreIdle, AreFresh, origin_in, seen_in};
ghost use Rattle.cell_rows.specs.Keeper.{HasSettled};

use crate::keeper::{load, load_all};
use crate::lanes::{Piece, ask, give_back, hold, release};
use crate::pool::{OPENED, Passes, Pool, count_of, id_at, is_within, make_pool, units_of};
use ms_cell::{
    CellFault, Look, MsCell, collect_at, look_at, next_cells, try_free_at, try_grant_at,
};
use ms_core::{Counts, Metaslab, MsFault, RunBuf};
use range_tree::RangeTrees;
use row_tables::are_segs;
use std::alloc::{AllocError, Global};
use std::sync::Wait;
use turn_cell::Pass;
use txg_gate::Hold;
use zms_units::{Class, Group, MsId, Seg, VdevRow};

/// The units that the last metaslab has.
const LAST_UNITS: u32 = 2048;

/// The number of the last metaslab.
const LAST: u32 = 7;

/// What a metaslab tells of its units.
fn sight<W: Wait>(
    rt: &W,
    cells: &Pool,
    passes: &mut Passes,
    lane: u8,
    number: u32,
) -> (Counts, bool)
    requires number { number < length cells.now.metaslabs }
    requires seated { Seated lane cells.now passes.old }
    ensures seated { Seated lane cells.now passes.new }
{
    let id = id_at(cells, number);
    let (counts, _, loaded) = look_at(rt, cells, passes, id);
    (counts, loaded)
}

/// A metaslab that was handed wrong runs tells the lowest unit that differs, and is as it was.
fn wrong_runs_load_nothing<W: Wait>(
    rt: &W,
    cells: &Pool,
    keeper: &mut Passes,
    lane: &mut Passes,
) -> bool
    requires keeper { Seated 0 cells.now keeper.old }
    requires settled { HasSettled cells.now cells.now.opened 0 keeper.old }
    requires lane { Seated 1 cells.now lane.old }
    ensures keeper { Seated 0 cells.now keeper.new }
    ensures settled { HasSettled cells.now cells.now.opened 0 keeper.new }
    ensures lane { Seated 1 cells.now lane.new }
{
    if count_of(cells) == 0 {
        return false;
    }
    let wrong = [Seg { start: 3, count: 2 }];
    let empty = Counts {
        live: 0,
        deferred: 0,
        vacant: 64,
    };
    let before = sight(rt, cells, lane, 1, 0);
    let answer = load(rt, cells, keeper, 0, &wrong);
    let after = sight(rt, cells, lane, 1, 0);
    matches!(answer, Ok(Some(3))) && before.0 == empty && !before.1 && after.0 == empty && !after.1
}

/// Of a metaslab that holds unit 0, the runs (1, 1) differ at unit 0, and the runs (0, 1) nowhere.
pub fn runs_differ(alloc: Global) -> Result<bool, AllocError> {
    let row = VdevRow {
        class: Class::Normal,
        ashift: 12,
        units: 256,
        metaslabs: 1,
    };
    let first = [Seg { start: 0, count: 1 }];
    let second = [Seg { start: 1, count: 1 }];
    if !are_segs(256, &first) || !are_segs(256, &second) {
        return Ok(false);
    }
    let base = Vec::from_slice(alloc, &first)?;
    let id = MsId { vdev: 0, index: 0 };
    match Metaslab::<RangeTrees>::new(alloc, id, &row, OPENED, base) {
        Ok(mut metaslab) => {
            let unit = metaslab.differs(&second)?;
            let none = metaslab.differs(&first)?;
            Ok(unit == Some(0) && none.is_none())
        }
        Err(_) => Err(AllocError),
    }
}

/// Three lanes of which none did anything yet.
#[derive(Drop)]
struct Others {
    two: Passes,
    three: Passes,
    four: Passes,
}

/// While a holder has the value of one cell, tries there are busy, and a try at another cell grants.
fn held_is_busy<W: Wait>(
    rt: &W,
    cells: &Pool,
    turn: &MsCell<RangeTrees>,
    pass: &mut Pass<Metaslab<RangeTrees>>,
    others: Others,
    hold: &Hold,
) -> bool
    requires some { 2 ≤ length cells.now.metaslabs }
    requires pass { IsIdle turn.now pass.old }
    requires two { AreFresh 2 cells.now others.two }
    requires three { AreFresh 3 cells.now others.three }
    requires four { AreFresh 4 cells.now others.four }
    requires near { hold.now.group.0 ≤ cells.now.opened + 3 }
{
    let Others {
        mut two,
        mut three,
        mut four,
    } = others;
    let first = id_at(cells, 0);
    let second = id_at(cells, 1);
    let seg = Seg { start: 0, count: 1 };
    if !is_within(units_of(cells, first), seg) {
        return false;
    }
    let group = hold.group;
    let held = turn.take(rt, pass);
    let grant = try_grant_at(cells, &mut two, 2, first, group, 1);
    let free = try_free_at(cells, &mut three, 3, first, hold, seg);
    let other = try_grant_at(cells, &mut four, 4, second, group, 1);
    turn.give(held, pass, None);
    grant == Err(CellFault::Busy) && free == Err(CellFault::Busy) && other == Ok(Look::Granted(seg))
}

/// The same, where the passes that have the value are the rest that no lane has.
fn are_busy<W: Wait>(rt: &W, cells: &Pool, rest: &mut Passes, others: Others, hold: &Hold) -> bool
    requires rest { AreIdle cells.now rest.old }
    requires two { AreFresh 2 cells.now others.two }
    requires three { AreFresh 3 cells.now others.three }
    requires four { AreFresh 4 cells.now others.four }
    requires near { hold.now.group.0 ≤ cells.now.opened + 3 }
{
    if count_of(cells) < 2 {
        return false;
    }
    held_is_busy(
        rt,
        cells,
        &cells.metaslabs[0],
        &mut rest.metaslabs[0],
        others,
        hold,
    )
}

/// The last metaslab is granted whole, and its last unit is freed once.
fn last_unit_is_freed_once<W: Wait>(rt: &W, cells: &Pool, passes: &mut Passes) -> bool
    requires seated { Seated 1 cells.now passes.old }
    ensures seated { Seated 1 cells.now passes.new }
{
    if count_of(cells) <= LAST {
        return false;
    }
    let whole = Seg {
        start: 0,
        count: LAST_UNITS,
    };
    let last = Seg {
        start: LAST_UNITS - 1,
        count: 1,
    };
    let piece = Piece {
        number: LAST,
        seg: last,
    };
    let held = hold(rt, cells, passes, 1);
    let granted = ask(rt, cells, passes, 1, LAST, held.group, LAST_UNITS);
    let missed = ask(rt, cells, passes, 1, LAST, held.group, 1);
    let freed = give_back(rt, cells, passes, 1, &held, piece);
    let again = give_back(rt, cells, passes, 1, &held, piece);
    release(rt, cells, passes, 1, held);
    let not_live = CellFault::Ms(MsFault::NotLive {
        unit: LAST_UNITS - 1,
    });
    granted == Ok(Look::Granted(whole))
        && missed == Ok(Look::Miss)
        && freed == Some(Ok(()))
        && again == Some(Err(not_live))
}

/// Gathers the next group in the metaslab of a number.
fn collect_next<W: Wait>(
    rt: &W,
    alloc: Global,
    cells: &Pool,
    keeper: &mut Passes,
    number: u32,
    collected: u64,
) -> bool
    requires small { collected < 2 ^ 60 }
    requires number { number < length cells.now.metaslabs }
    requires seated { Seated 0 cells.now keeper.old }
    requires collected { collected_group (origin_in keeper.old number) (seen_in keeper.old number) ≡ collected }
    ensures seated { Seated 0 cells.now keeper.new }
    ensures collected { result ≡ true → collected_group (origin_in keeper.new number) (seen_in keeper.new number) ≡ collected + 1 }
{
    let id = id_at(cells, number);
    let mut runs = RunBuf::new(alloc);
    if runs.reserve(16).is_err() {
        return false;
    }
    match collect_at(rt, cells, keeper, 1, id, Group(collected + 1), &mut runs) {
        Ok(()) => true,
        Err(_) => false,
    }
}

/// A grant of a group that was collected, with a higher one after it, is late.
fn collected_group_is_late<W: Wait>(
    rt: &W,
    alloc: Global,
    cells: &Pool,
    keeper: &mut Passes,
    lane: &mut Passes,
) -> bool
    requires keeper { Seated 0 cells.now keeper.old }
    requires settled { HasSettled cells.now cells.now.opened 0 keeper.old }
    requires lane { Seated 1 cells.now lane.old }
    ensures lane { Seated 1 cells.now lane.new }
{
    let opened = cells.opened.0;
    if count_of(cells) == 0 || opened > 1_000_000 {
        return false;
    }
    if !collect_next(rt, alloc, cells, keeper, 0, opened) {
        return false;
    }
    if !collect_next(rt, alloc, cells, keeper, 0, opened + 1) {
        return false;
    }
    let late = CellFault::Ms(MsFault::Late {
        group: Group(opened + 1),
        collected: Group(opened + 2),
    });
    ask(rt, cells, lane, 1, 0, Group(opened + 1), 1) == Err(late)
}

/// What was seen of each call, in order.
#[derive(Clone, Copy)]
pub struct Seen {
    pub wrong_runs: bool,
    pub busy: bool,
    pub last_unit: bool,
    pub late: bool,
}

/// The calls at the cells of one pool.
pub fn call_forms<W: Wait>(rt: &W, alloc: Global) -> Result<Seen, AllocError> {
    let (cells, mut rest) = make_pool(alloc)?;
    let mut keeper = next_cells(alloc, &cells, &mut rest, 0)?;
    let mut lane = next_cells(alloc, &cells, &mut rest, 1)?;
    let others = Others {
        two: next_cells(alloc, &cells, &mut rest, 2)?,
        three: next_cells(alloc, &cells, &mut rest, 3)?,
        four: next_cells(alloc, &cells, &mut rest, 4)?,
    };
    let wrong_runs = wrong_runs_load_nothing(rt, &cells, &mut keeper, &mut lane);
    let loaded = load_all(rt, &cells, &mut keeper);
    let held = hold(rt, &cells, &mut lane, 1);
    let near = held.group.0.saturating_sub(3) <= cells.opened.0;
    let busy = loaded && near && are_busy(rt, &cells, &mut rest, others, &held);
    release(rt, &cells, &mut lane, 1, held);
    let last_unit = last_unit_is_freed_once(rt, &cells, &mut lane);
    let late = collected_group_is_late(rt, alloc, &cells, &mut keeper, &mut lane);
    Ok(Seen {
        wrong_runs,
        busy,
        last_unit,
        late,
    })
}
