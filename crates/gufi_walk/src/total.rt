//! The sum of all rows of an answer, from the sums that a snapshot keeps.

ghost use Rattle.std.specs.Prelude.{◌≡◌, ◌≢◌, ◌<◌, true, None, Some, length, IfOk, OnOk, IfErr};
ghost use Rattle.gufi_tree.specs.Places.{path_at};
ghost use Rattle.gufi_tree.specs.Resolve.{resolve};
ghost use Rattle.gufi_sums.specs.Total.{total};
ghost use Rattle.gufi_walk.specs.Answer.{answer, refusal_of};
ghost use Rattle.gufi_walk.specs.Walk.{lists_at};

use crate::descent::{list_of, push_kids, sum_of_piece};
use crate::refusal::Refusal;
use crate::start::found_start;
use gufi_access::Principal;
use gufi_base::{Memory, Path};
use gufi_snap::Snapshot;
use gufi_sums::Summary;
use gufi_tree::DirId;
use std::alloc::Global;

/// The sum of all rows that the principal lists from a directory on.
///
/// Cost: one look at a sum for each directory of the front. Where sums are kept it looks at no row.
pub fn total_from(
    alloc: Global,
    snap: &Snapshot,
    who: &Principal,
    start: DirId,
) -> Result<Summary, Memory>
    requires start { start.0 < length snap.now.tree }
    requires listed { lists_at snap.now.tree who.now (path_at snap.now.tree start.0) ≡ true }
    ensures { IfOk result (λ sum. sum ≡ total (answer snap.now.tree who.now (path_at snap.now.tree start.0) (λ _ _. true))) }
{
    // The tree's shape tells that the walk ends, and its count that the sums are in range.
    let _tree = snap.tree();
    let mut sum = Summary::empty();
    let mut todo = list_of(alloc, start)?;
    while let Some(id) = todo.pop() {
        sum.join(&sum_of_piece(snap, id));
        push_kids(&mut todo, snap, who, id)?;
    }
    Ok(sum)
}

/// The sum of all rows that the principal lists from the start, or the refusal of the start.
///
/// Cost: as `total_from`. It needs no walkers.
pub fn answer_total(
    alloc: Global,
    snap: &Snapshot,
    who: &Principal,
    start: &Path,
) -> Result<Summary, Refusal>
    ensures sum { IfOk result (λ sum. sum ≡ total (answer snap.now.tree who.now start.now (λ _ _. true))) }
    ensures found { OnOk result (refusal_of (resolve snap.now.tree who.now start.now) ≡ None) }
    ensures refusal { IfErr result (λ refusal. refusal ≢ Refusal.Memory → refusal_of (resolve snap.now.tree who.now start.now) ≡ Some refusal) }
{
    let id = found_start(snap, who, start)?;
    Ok(total_from(alloc, snap, who, id)?)
}
