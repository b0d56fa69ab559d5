//! Which metaslabs are marked, by number.
ghost use Rattle.std.specs.Prelude.{◌≡◌, ℕ, ◌<◌, true, false, length, slice_set};
ghost use Rattle.copy_walk.specs.Walks.{is_marked, marked};

use std::marker::Model;

/// A mark for each number below N, and how many there are.
#[derive(Drop)]
pub(crate) struct Marks<const N: usize> {
    marks: [bool; N],
    count: u64,
}

impl<const N: usize> Model for Marks<N> {
    ghost use Rattle.std.specs.Prelude.{◌≡◌, Bool, List};
    ghost use Rattle.std.specs.List.{count_by};

    ghost Value = { List Bool };

    ghost view = { λ m. m.marks };

    ghost invariant = { λ m. m.count ≡ count_by (λ mark. mark) m.marks };
}

impl<const N: usize> Marks<N> {
    pub(crate) fn new() -> Self
        ensures none { (n : ℕ) → is_marked result n ≡ false }
        ensures count { marked result ≡ 0 }
        ensures size { length result ≡ N }
    {
        Marks {
            marks: [false; N],
            count: 0,
        }
    }

    pub(crate) fn has(&self, n: usize) -> bool
        requires { n < length self.now }
        ensures { result ≡ is_marked self.now n }
    {
        self.marks[n]
    }

    /// Marks a number, if it is not marked already.
    pub(crate) fn add(&mut self, n: usize)
        requires { n < length self.old }
        ensures { self.new ≡ slice_set self.old n true }
    {
        if !self.marks[n] {
            self.marks[n] = true;
            self.count += 1;
        }
    }

    pub(crate) fn count(&self) -> u64
        ensures { result ≡ marked self.now }
    {
        self.count
    }
}
