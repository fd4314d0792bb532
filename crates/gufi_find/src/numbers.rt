//! Sets of uids and gids.
ghost use Rattle.std.specs.Prelude.{◌≡◌, ◌==◌, IfOk};
ghost use Rattle.std.specs.List.{list_any};
ghost use Rattle.gufi_base.specs.Basics.{distinct};

use indexmap::IndexSet;
use std::alloc::{AllocError, Global};
use std::marker::Model;

/// A set of numbers, seen as the list of them in which each stands once.
#[derive(Drop)]
pub struct NumberSet {
    numbers: IndexSet<u32>,
}

impl Model for NumberSet {
    ghost use Rattle.std.specs.Prelude.{ℕ, List};

    ghost Value = { List ℕ };

    ghost view = { λ s. s.numbers.keys };
}

impl NumberSet {
    /// The numbers of a list.
    pub(crate) fn of(alloc: Global, numbers: &[u32]) -> Result<NumberSet, AllocError>
        ensures { IfOk result (λ set. set ≡ distinct numbers.now) }
    {
        let mut set = IndexSet::new(alloc);
        'numbers: for number in numbers {
            set.insert(*number)?;
        }
        Ok(NumberSet { numbers: set })
    }

    /// Whether a number is in it. One look-up.
    pub(crate) fn contains(&self, number: u32) -> bool
        ensures { result ≡ list_any (λ other. other == number) self.now }
    {
        self.numbers.contains(&number)
    }
}
