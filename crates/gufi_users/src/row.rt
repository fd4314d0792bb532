//! Rows by name, in the order in which they came.
ghost use Rattle.std.specs.Prelude.{◌≡◌, [], ◌∷◌, ◌++◌, false, true, bytes_eq, IfOk, MatchBool};
ghost use Rattle.std.specs.List.{list_any};

use indexmap::IndexMap;
use std::alloc::AllocError;

/// Adds a row behind the others, and says whether its name is new. Where it isn't, the rows are spoilt.

pub(crate) fn add_row<T: Drop>(
    rows: &mut IndexMap<Vec<u8>, T>,
    name: Vec<u8>,
    row: T,
) -> Result<bool, AllocError>
    ensures { IfOk result (λ is_new. MatchBool is_new
        ((list_any (λ other. bytes_eq name.items other.0.items) rows.old.entries ≡ false) × (rows.new.entries ≡ rows.old.entries ++ (name, row) ∷ []))
        (list_any (λ other. bytes_eq name.items other.0.items) rows.old.entries ≡ true)) }
{
    let replaced = rows.insert(name, row)?;
    Ok(replaced.is_none())
}
