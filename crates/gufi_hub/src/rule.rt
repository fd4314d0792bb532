//! The rule of publication: no seat is ahead of what was published.
//!
//! Five kinds of step keep it: a seat is taken, cut off from another, joined to another, publishes, or looks.
ghost use Rattle.std.specs.Prelude.{max};
ghost use Rattle.gufi_hub.specs.Rule.{Keeps, Sees};

use crate::latest::{Latest, Meaning};
use atomic_table::{Join, Split};
use crossbeam_utils::rule::{Outcome, Protocol};

/// A view is a number that was reached.
pub struct Publications;

impl<T: Drop, M: Meaning<T>> Protocol<Latest<T, M>, u64> for Publications {
    ghost holds = { Keeps (λ s. s.number) };

    ghost first = { 0 };
}

/// A step at which a seat looks: it then knows the number that is published.
pub(crate) struct Sight;

impl<T: Drop, M: Meaning<T>> Outcome<Latest<T, M>, u64> for Sight {
    ghost then = { Sees (λ s. s.number) };
}

/// Notes by which one seat tells another the number that it knows.
pub(crate) struct Notes;

impl Split<u64> for Notes {
    ghost left = { λ v. v };

    ghost right = { λ v. v };
}

impl Join<u64> for Notes {
    ghost both = { max };

    ghost spent = { 0 };
}
