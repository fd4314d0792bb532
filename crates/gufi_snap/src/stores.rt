//! The sums of the directories of a tree, each gone over as a store.

ghost use Rattle.std.specs.Prelude.{◌≡◌, ◌+◌, ◌≤◌, ◌<◌, ◌^◌, length, IfOk, OnOk};
ghost use Rattle.std.specs.List.{flat_map};
ghost use Rattle.gufi_tree.specs.Tree.{own_rows};
ghost use Rattle.gufi_snap.specs.SumsByPlace.{AreSumsFrom};
ghost use Rattle.gufi_snap.specs.Kept.{IsContents};

use crate::sums::{add_below, own_sum};
use gufi_base::{Memory, Steps};
use gufi_store::DirStore;
use gufi_sums::SharedSums;
use gufi_tree::{DirId, Tree};
use std::alloc::Global;
use std::marker::Brand;
use std::sync::ledger::{Blank, Ledger};

/// The sum of the rows of each directory's store, in path order, and the same for the rows at and below it.
///
/// One pass over all rows. One step for each directory.
fn sum_stores<L: Ledger>(
    alloc: Global,
    tree: &Tree,
    steps: &mut Steps<L>,
) -> Result<SharedSums, Memory>
    requires { length (flat_map own_rows tree.now) < 2 ^ 32 }
    ensures sums { IfOk result (λ sums. AreSumsFrom tree.now (length tree.now) sums) }
    ensures ticks { OnOk result (steps.new ≡ steps.old + length tree.now) }
    ensures at_most { steps.new ≤ steps.old + length tree.now }
{
    let mut sums = SharedSums::new(alloc);
    for place in 0..tree.dirs() {
        let store = DirStore::of(tree.dir(DirId(place)), steps);
        sums.push(alloc, own_sum(store.dir()))?;
    }
    Ok(sums)
}

/// The sums of a tree. One step for each directory.
pub(crate) fn sums_of<L: Ledger>(
    alloc: Global,
    tree: &Tree,
    steps: &mut Steps<L>,
) -> Result<SharedSums, Memory>
    ensures sums { IfOk result (IsContents tree.now) }
    ensures ticks { OnOk result (steps.new ≡ steps.old + length tree.now) }
    ensures at_most { steps.new ≤ steps.old + length tree.now }
{
    // Its clauses tell that the tree has its shape, and that its rows can be counted.
    let _count = tree.dirs();
    let mut sums = sum_stores(alloc, tree, steps)?;
    add_below(alloc, tree, &mut sums)?;
    Ok(sums)
}

fn sums_with<L: Ledger>(alloc: Global, tree: &Tree, blank: Blank) -> Result<SharedSums, Memory>
    requires name { blank.name ≡ L.name }
    requires parts { blank.parts ≡ L.parts }
    requires one { 0 < blank.parts }
    ensures { IfOk result (IsContents tree.now) }
{
    let mut steps = Steps::<L>::new(blank);
    sums_of(alloc, tree, &mut steps)
}

/// `sums_of`, for callers that count no steps.
pub(crate) fn sums_uncounted(alloc: Global, tree: &Tree) -> Result<SharedSums, Memory>
    ensures { IfOk result (IsContents tree.now) }
{
    sums_with::<Brand>(alloc, tree, Blank::new(1))
}
