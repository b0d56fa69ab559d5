//! The turn and its calls.
ghost use Rattle.std.specs.Prelude.{◌≡◌, ◌≤◌, ℕ, true, false, [], ◌∷◌, ◌++◌, length, replicate, Some, IfOk, IfErr, IfSome, IfNone};
ghost use Rattle.std.specs.List.{All};
ghost use Rattle.std.specs.Option.{option_to_list};
ghost use Rattle.turn_cell.specs.Notes.{IsPrefix, Owns, StandsFor, has, with_notes, without, only, all_rights};

use crate::held::Held;
use crate::kept::{Kept, MAX_RIGHT};
use crate::law::Law;
use crate::pass::Pass;
use crate::plays::{Add, Cut, Glance, Glue, Grab, Learn, Parts, Release, Says, Shut};
use crate::view::View;
use atomic_table::{Refused, Table};
use std::alloc::Global;
use std::marker::{Brand, Model};
use std::snapshot::Snapshot;
use std::sync::Wait;

const LOCK: usize = 0;

const COUNT: usize = 1;

// What the lock word is.
const FREE: u64 = 0;

const TAKEN: u64 = 1;

/// A lock round a value, with the count of its notes. In a clause it is its name, which each of its passes has as `turn`.
#[derive(Drop)]
pub struct Turn<T: Kept> {
    table: Table<Option<T>, View<T::Note, T::Fixed>, Snapshot<T>, Law, Global>,
}

impl<T: Kept> Model for Turn<T> {
    ghost use Rattle.std.specs.Prelude.{◌≡◌};
    ghost use Rattle.turn_cell.specs.Known.{TableId};

    ghost Value = { TableId };

    ghost view = { λ t. t.table.shared.table_id };

    ghost invariant = { λ t. (t.table.shared.table_id.words ≡ 2) × (t.table.shared.table_id.slots ≡ 1) };
}

impl<T: Kept> Turn<T> {
    /// A turn round the value, and its first pass, which has all rights.
    /// The only error is want of memory, and hands the value back.
    pub fn new(alloc: Global, value: T) -> Result<(Turn<T>, Pass<T>), T>
        requires empty { T.journal value ≡ [] }
        requires stands { T.stands (T.fixed value) value }
        ensures ok { IfOk result (λ r. r.1 ≡ record { turn = r.0; fixed = Some (T.fixed value); seen = []; own = all_rights; out = false; tries = []; counts = [] }) }
        ensures err { IfErr result (λ x. x ≡ value) }
    {
        let key = Snapshot::of(&value);
        let mut slots = Vec::new(alloc);
        if let Err(refused) = slots.push(Some(value)) {
            slots.destroy_empty();
            return Err(refused.value.unwrap());
        }
        match Table::new(alloc, &[FREE, 0], slots, &key) {
            Ok((table, seat)) => Ok((Turn { table }, Pass { seat })),
            Err(Refused { mut slots }) => {
                let value = slots.pop().unwrap().unwrap();
                slots.destroy_empty();
                Err(value)
            }
        }
    }

    /// Takes the value, if no pass has it out. Waits for nobody.
    pub fn try_take(&self, pass: &mut Pass<T>) -> Option<Held<T>>
        requires turn { pass.old.turn ≡ self.now }
        requires idle { pass.old.out ≡ false }
        ensures some { IfSome result (λ x. pass.new ≡ record pass.old { seen = T.journal x; out = true; tries = pass.old.tries ++ 0 ∷ [] }) }
        ensures seen { IfSome result (λ x. IsPrefix pass.old.seen (T.journal x)) }
        ensures stands { IfSome result (λ x. StandsFor T.stands pass.old.fixed x) }
        ensures none { IfNone result (pass.new ≡ record pass.old { tries = pass.old.tries ++ 1 ∷ [] }) }
        ensures whole { Owns T.right pass.new.own pass.new.seen }
    {
        let found = self
            .table
            .shared
            .compare_exchange::<Grab>(&mut pass.seat, LOCK, FREE, TAKEN);
        let taken = found == FREE;
        if !taken {
            return None;
        }
        let value = self.table.shared.exchange(&mut pass.seat, 0, None).unwrap();
        Some(Held { value })
    }

    /// Takes the value, as `try_take`, and parks on the lock word between two tries.
    pub fn take<R: Wait>(&self, rt: &R, pass: &mut Pass<T>) -> Held<T>
        requires turn { pass.old.turn ≡ self.now }
        requires idle { pass.old.out ≡ false }
        ensures pass { pass.new ≡ record pass.old { seen = T.journal result; out = true; tries = pass.new.tries } }
        ensures tries { (k : ℕ) × (pass.new.tries ≡ (pass.old.tries ++ replicate k 1) ++ 0 ∷ []) }
        ensures seen { IsPrefix pass.old.seen (T.journal result) }
        ensures stands { StandsFor T.stands pass.old.fixed result }
        ensures whole { Owns T.right pass.new.own pass.new.seen }
    {
        for _ in rt.forever() {
            if let Some(held) = self.try_take(pass) {
                return held;
            }
            self.table.shared.park(rt, LOCK, 1);
        }
        unreachable!()
    }

    /// Gives the value back, with a note or with none, and wakes one thread that waits for it.
    pub fn give(&self, held: Held<T>, pass: &mut Pass<T>, note: Option<T::Note>)
        requires turn { pass.old.turn ≡ self.now }
        requires out { pass.old.out ≡ true }
        requires journal { T.journal held ≡ pass.old.seen ++ option_to_list note }
        requires stands { StandsFor T.stands pass.old.fixed held }
        requires right { IfSome note (λ n. has pass.old.own (T.right n) ≡ true) }
        ensures pass { pass.new ≡ record pass.old { seen = T.journal held; own = with_notes T.right (option_to_list note) pass.old.own; out = false } }
        ensures whole { Owns T.right pass.new.own pass.new.seen }
    {
        let Held { value } = held;
        self.count(pass, note);
        self.put_home(pass, value);
    }

    // Adds the note to the count, or looks at the count where there is none. The value is still out.
    fn count(&self, pass: &mut Pass<T>, note: Option<T::Note>)
        requires turn { pass.old.turn ≡ self.now }
        requires out { pass.old.out ≡ true }
        requires right { IfSome note (λ n. has pass.old.own (T.right n) ≡ true) }
        ensures { pass.new ≡ record pass.old { seen = pass.old.seen ++ option_to_list note; own = with_notes T.right (option_to_list note) pass.old.own } }
    {
        match note {
            Some(note) => self.add::<Brand>(pass, note),
            None => self.glance(pass),
        }
    }

    fn add<W: Says<T::Note>>(&self, pass: &mut Pass<T>, note: T::Note)
        requires turn { pass.old.turn ≡ self.now }
        requires out { pass.old.out ≡ true }
        requires right { has pass.old.own (T.right note) ≡ true }
        requires says { W.notes ≡ note ∷ [] }
        ensures { pass.new ≡ record pass.old { seen = pass.old.seen ++ note ∷ []; own = with_notes T.right (note ∷ []) pass.old.own } }
    {
        let _ = note;
        self.table
            .shared
            .fetch_add::<Add<W>>(&mut pass.seat, COUNT, 1);
    }

    // Looks at the count: the pass then knows the journal so far, which is what it knew if the value is out with it.
    fn glance(&self, pass: &mut Pass<T>)
        requires turn { pass.old.turn ≡ self.now }
        ensures pass { pass.new ≡ record pass.old { seen = pass.new.seen } }
        ensures seen { IsPrefix pass.old.seen pass.new.seen }
        ensures same { pass.old.out ≡ true → pass.new.seen ≡ pass.old.seen }
        ensures whole { Owns T.right pass.new.own pass.new.seen }
    {
        self.table.shared.load::<Glance>(&mut pass.seat, COUNT);
    }

    fn put_home(&self, pass: &mut Pass<T>, value: T)
        requires turn { pass.old.turn ≡ self.now }
        requires out { pass.old.out ≡ true }
        requires journal { T.journal value ≡ pass.old.seen }
        requires stands { StandsFor T.stands pass.old.fixed value }
        ensures pass { pass.new ≡ record pass.old { out = false } }
        ensures whole { Owns T.right pass.new.own pass.new.seen }
    {
        let empty = self.table.shared.exchange(&mut pass.seat, 0, Some(value));
        let None = empty else { unreachable!() };
        self.table
            .shared
            .swap::<Release>(&mut pass.seat, LOCK, FREE);
        self.table.shared.wake_one(LOCK);
    }

    /// Loads the count of notes. The pass then knows a beginning of the journal that is no shorter.
    pub fn learn(&self, pass: &mut Pass<T>)
        requires turn { pass.old.turn ≡ self.now }
        requires idle { pass.old.out ≡ false }
        ensures pass { (n : ℕ) × ((pass.new ≡ record pass.old { seen = pass.new.seen; counts = pass.old.counts ++ n ∷ [] }) × (n ≤ length pass.new.seen)) }
        ensures seen { IsPrefix pass.old.seen pass.new.seen }
        ensures whole { Owns T.right pass.new.own pass.new.seen }
    {
        self.table.shared.load::<Learn>(&mut pass.seat, COUNT);
    }

    /// A new pass that knows as much, and has the right that is named, with its notes. The first keeps the others.
    pub fn split(&self, pass: &mut Pass<T>, right: Option<u8>) -> Pass<T>
        requires turn { pass.old.turn ≡ self.now }
        requires right { IfSome right (λ r. has pass.old.own r ≡ true) }
        ensures kept { pass.new ≡ record pass.old { own = without (option_to_list right) pass.old.own } }
        ensures given { result ≡ record pass.old { own = only (option_to_list right) pass.old.own; out = false; tries = []; counts = [] } }
    {
        self.cut::<Brand>(pass, right)
    }

    fn cut<W: Parts>(&self, pass: &mut Pass<T>, right: Option<u8>) -> Pass<T>
        requires turn { pass.old.turn ≡ self.now }
        requires parts { W.rights ≡ option_to_list right }
        ensures kept { pass.new ≡ record pass.old { own = without (option_to_list right) pass.old.own } }
        ensures given { result ≡ record pass.old { own = only (option_to_list right) pass.old.own; out = false; tries = []; counts = [] } }
    {
        let _ = right;
        let seat = self.table.shared.split_seat::<Cut<W>>(&mut pass.seat);
        Pass { seat }
    }

    /// Spends the second pass: the first has the rights of both, and knows the journal so far.
    pub fn join(&self, first: &mut Pass<T>, second: Pass<T>)
        requires first { (first.old.turn ≡ self.now) × (first.old.out ≡ false) }
        requires second { (second.turn ≡ self.now) × (second.out ≡ false) }
        ensures first { first.new ≡ record first.old { seen = first.new.seen; own = first.old.own ++ second.own } }
        ensures seen { IsPrefix first.old.seen first.new.seen × IsPrefix second.seen first.new.seen }
        ensures whole { Owns T.right first.new.own first.new.seen }
    {
        let Pass { seat } = second;
        self.table.shared.join_seat::<Glue>(&mut first.seat, seat);
        self.table.shared.load::<Glance>(&mut first.seat, COUNT);
    }

    /// Ends the turn and gives the value, unless a pass has it out: then both come back.
    pub fn close(self, mut pass: Pass<T>) -> Result<T, (Turn<T>, Pass<T>)>
        requires turn { pass.turn ≡ self }
        requires idle { pass.out ≡ false }
        ensures seen { IfOk result (λ x. IsPrefix pass.seen (T.journal x) × Owns T.right pass.own (T.journal x)) }
        ensures stands { IfOk result (λ x. StandsFor T.stands pass.fixed x) }
        ensures rights { IfOk result (λ x. All (λ n. T.right n ≤ MAX_RIGHT) (T.journal x)) }
        ensures err { IfErr result (λ r. (r.0 ≡ self) × (r.1 ≡ record pass { tries = pass.tries ++ 1 ∷ [] })) }
    {
        let found = self
            .table
            .shared
            .compare_exchange::<Shut>(&mut pass.seat, LOCK, FREE, TAKEN);
        let shut = found == FREE;
        if !shut {
            return Err((self, pass));
        }
        let Turn { table } = self;
        let Pass { seat } = pass;
        let mut closed = table.close_with(seat);
        let value = closed.take(0).unwrap();
        closed.free();
        Ok(value)
    }
}
