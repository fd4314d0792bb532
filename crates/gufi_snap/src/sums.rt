//! The sums of the rows of each directory, and of the rows at and below it.

ghost use Rattle.std.specs.Prelude.{◌≡◌, ℕ, ◌+◌, ◌≤◌, ◌<◌, ◌^◌, List, ◌++◌, map, length, slice_index_or, IfOk, OnOk};
ghost use Rattle.std.specs.List.{flat_map};
ghost use Rattle.gufi_base.specs.declared.record.Row.{Row};
ghost use Rattle.gufi_tree.specs.Tree.{Directory, own_rows, entry_row, HasTreeShape};
ghost use Rattle.gufi_tree.specs.Places.{path_at, child_ids};
ghost use Rattle.gufi_sums.specs.declared.summary.Summary.{Summary as Sum};
ghost use Rattle.gufi_sums.specs.Total.{rows_in, IsBounded, IsTotal};
ghost use Rattle.gufi_tree.proofs.Kids.{rows_under};
ghost use Rattle.gufi_snap.specs.SumsByPlace.{AreOwn, AreUnderFrom, AreSumsFrom, AreSumsBut};

use gufi_sums::{SharedSums, Summary};
use gufi_tree::{DirId, DirRef, EntriesRef, Tree};
use std::alloc::{AllocError, Global};

/// Adds the records of entries to a sum.
fn add_entries(sum: &mut Summary, entries: &EntriesRef<'_>)
    requires room { rows_in sum.old + length entries.now < 2 ^ 40 }
    requires bounded { IsBounded sum.old }
    ensures { (path : List (List ℕ)) (rows : List Row) → IsTotal sum.old rows → IsTotal sum.new (rows ++ map (entry_row path) entries.now) }
{
    for place in 0..entries.len() {
        let rec = entries.at(place).rec();
        sum.add(rec.meta());
    }
}

/// The sum of a directory's own row and of its entries.
pub(crate) fn own_sum(dir: &DirRef<'_>) -> Summary
    requires { length dir.now.entries < 2 ^ 32 }
    ensures { IsTotal result (own_rows dir.now) }
{
    let mut sum = Summary::empty();
    sum.add(dir.rec().meta());
    add_entries(&mut sum, &dir.entries());
    sum
}

/// The sum of the rows at and below a directory, from these rows. Linear in them.
///
/// Calls go one deeper for each component below the directory.
pub(crate) fn sum_below(tree: &Tree, id: DirId) -> Summary
    requires id { id.0 < length tree.now }
    requires few { length (flat_map own_rows tree.now) < 2 ^ 32 }
    requires shape { HasTreeShape tree.now }
    ensures { IsTotal result (rows_under tree.now (path_at tree.now id.0)) }
{
    let mut sum = own_sum(&tree.dir(id));
    for kid in tree.subdirs(id) {
        sum.join(&sum_below(tree, *kid));
    }
    sum
}

/// The sum of the rows at and below a directory, from its own and those of the directories behind it.
fn sum_under(tree: &Tree, id: DirId, sums: &SharedSums) -> Summary
    requires id { id.0 < length tree.now }
    requires few { length (flat_map own_rows tree.now) < 2 ^ 32 }
    requires shape { HasTreeShape tree.now }
    requires own { AreOwn tree.now sums.now.own }
    requires len { length sums.now.below ≡ length tree.now }
    requires behind { AreUnderFrom tree.now (id.0 + 1) sums.now.below }
    ensures { IsTotal result (rows_under tree.now (path_at tree.now id.0)) }
{
    let mut sum = *sums.own(id.0 as usize);
    for kid in tree.subdirs(id) {
        sum.join(sums.below(kid.0 as usize));
    }
    sum
}

/// Puts the sum of the rows at and below a directory. Without a directory below it, that of its own rows stands there already.
fn put_under(alloc: Global, tree: &Tree, id: DirId, sums: &mut SharedSums) -> Result<(), AllocError>
    requires id { id.0 < length tree.now }
    requires few { length (flat_map own_rows tree.now) < 2 ^ 32 }
    requires shape { HasTreeShape tree.now }
    requires sums { AreSumsFrom tree.now (id.0 + 1) sums.old }
    ensures { OnOk result (AreSumsFrom tree.now id.0 sums.new) }
{
    if tree.subdirs(id).is_empty() {
        return Ok(());
    }
    let sum = sum_under(tree, id, sums);
    sums.put_below(alloc, id.0 as usize, sum)
}

/// Makes sums of directories' own rows those of the rows at and below them. One pass, from the last directory on.
pub(crate) fn add_below(alloc: Global, tree: &Tree, sums: &mut SharedSums) -> Result<(), AllocError>
    requires few { length (flat_map own_rows tree.now) < 2 ^ 32 }
    requires shape { HasTreeShape tree.now }
    requires sums { AreSumsFrom tree.now (length tree.now) sums.old }
    ensures { OnOk result (AreSumsFrom tree.now 0 sums.new) }
{
    let mut left = tree.dirs();
    while left > 0 {
        left -= 1;
        put_under(alloc, tree, DirId(left), sums)?;
    }
    Ok(())
}

/// Puts the sums of the rows at and below each directory above one. One step up at a time: nothing else is summed.
pub(crate) fn add_above(
    alloc: Global,
    tree: &Tree,
    at: DirId,
    sums: &mut SharedSums,
) -> Result<(), AllocError>
    requires id { at.0 < length tree.now }
    requires few { length (flat_map own_rows tree.now) < 2 ^ 32 }
    requires shape { HasTreeShape tree.now }
    requires sums { AreSumsBut tree.now (path_at tree.now at.0) at.0 sums.old }
    ensures { OnOk result (AreSumsBut tree.now (path_at tree.now at.0) 0 sums.new) }
{
    let mut place = at;
    while let Some(above) = tree.parent(place) {
        let sum = sum_under(tree, above, sums);
        sums.put_below(alloc, above.0 as usize, sum)?;
        place = above;
    }
    Ok(())
}
