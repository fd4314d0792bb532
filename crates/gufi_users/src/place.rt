//! Where numbers stand first in a list.
ghost use Rattle.std.specs.Prelude.{◌≡◌, ◌∷◌, nat_eq, IfOk};
ghost use Rattle.std.specs.HashMap.{get};
ghost use Rattle.gufi_base.specs.Basics.{distinct};
ghost use Rattle.gufi_users.specs.Places.{AreFirst};

use indexmap::IndexSet;
use std::alloc::{AllocError, Global};
use std::collections::HashMap;

/// The place at which each number first stands.
#[tactic(auto, using(crate::proofs::PlaceLemmas::more_places))]
pub(crate) fn first_places(
    alloc: Global,
    numbers: &[u32],
) -> Result<HashMap<u32, usize>, AllocError>
    ensures { IfOk result (AreFirst numbers.now) }
{
    let mut places = HashMap::new(alloc);
    let mut place = numbers.len();
    'places: while place > 0 {
        place -= 1;
        places.insert(numbers[place], place)?;
    }
    Ok(places)
}

/// The place of a number in such a table.
pub(crate) fn place_in(places: &HashMap<u32, usize>, number: u32) -> Option<usize>
    ensures { result ≡ get nat_eq places.now number }
{
    places.get(&number).copied()
}

/// The numbers behind a first one, each where it first stands.
pub(crate) fn distinct_numbers(
    alloc: Global,
    first: u32,
    others: &[u32],
) -> Result<Vec<u32>, AllocError>
    ensures { IfOk result (λ numbers. numbers.items ≡ distinct (first ∷ others.now)) }
{
    let mut numbers = IndexSet::new(alloc);
    numbers.insert(first)?;
    'others: for number in others {
        numbers.insert(*number)?;
    }
    numbers.into_iter().collect(alloc)
}
