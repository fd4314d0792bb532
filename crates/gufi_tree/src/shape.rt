//! A test that directories in path order are a tree.

ghost use Rattle.std.specs.Prelude.{◌≡◌, ◌<◌, ◌^◌, length, IfOk, IfSome, IsTrue};
ghost use Rattle.std.specs.List.{list_all};
ghost use Rattle.std.specs.List.Sorted.{IsPermutation};
ghost use Rattle.gufi_tree.specs.Tree.{is_kinded};
ghost use Rattle.gufi_tree.specs.Shape.{are_distinct, IsSoundAt, IsSoundBelow, IsTreeWith};

use crate::dirs::Dirs;
use crate::likely::order_likely;
use crate::link::near_parent;
use crate::search::{has_entry, order_of};
use std::alloc::{AllocError, Global};

/// The parent of a directory that is above the one before it, where no entry of the parent has its name.
fn parent_below(dirs: &Dirs, parents: &[u32], place: usize) -> Option<usize>
    requires place { 0 < place }
    requires within { place < length dirs.now }
    requires before { length parents.now ≡ place }
    requires distinct { IsTrue (are_distinct dirs.now) }
    ensures { IfSome result (IsSoundBelow dirs.now place) }
{
    let dir = dirs.at(place);
    if !order_of(&dirs.at(place - 1).path(), &dir.path()).is_lt() {
        return None;
    }
    let parent = near_parent(dirs, parents, &dir)?;
    let (_, name) = dir.stem_and_base();
    if has_entry(&dirs.at(parent), name) {
        return None;
    }
    Some(parent)
}

/// The parent of a directory that stands where it may; the root's is its own.
fn sound_parent(dirs: &Dirs, parents: &[u32], place: usize) -> Option<usize>
    requires within { place < length dirs.now }
    requires before { length parents.now ≡ place }
    requires distinct { IsTrue (are_distinct dirs.now) }
    ensures { IfSome result (IsSoundAt dirs.now place) }
{
    if place > 0 {
        return parent_below(dirs, parents, place);
    }
    if !dirs.at(0).path().is_root() {
        return None;
    }
    Some(0)
}

/// The places of the parents of directories that are a tree as they stand.
fn tree_parents(alloc: Global, dirs: &Dirs) -> Result<Option<Vec<u32>>, AllocError>
    requires few { length dirs.now < 2 ^ 32 }
    requires kinds { IsTrue (list_all is_kinded dirs.now) }
    requires distinct { IsTrue (are_distinct dirs.now) }
    ensures { IfOk result (λ found. IfSome found (λ parents. IsTreeWith dirs.now parents.items)) }
{
    if dirs.len() == 0 {
        return Ok(None);
    }
    let mut parents = Vec::with_capacity(alloc, dirs.len())?;
    for place in 0..dirs.len() {
        let Some(parent) = sound_parent(dirs, parents.as_slice(), place) else {
            return Ok(None);
        };
        parents.push(parent as u32)?;
    }
    Ok(Some(parents))
}

/// Moves directories to where they are likely to stand in path order, and sorts them only where that is wrong.
fn move_to_order(alloc: Global, dirs: &mut Dirs) -> Result<Option<Vec<u32>>, AllocError>
    requires few { length dirs.old < 2 ^ 32 }
    requires kinds { IsTrue (list_all is_kinded dirs.old) }
    requires distinct { IsTrue (are_distinct dirs.old) }
    ensures permutation { IsPermutation dirs.old dirs.new }
    ensures tree { IfOk result (λ found. IfSome found (λ parents. IsTreeWith dirs.new parents.items)) }
{
    order_likely(alloc, dirs)?;
    let found = tree_parents(alloc, dirs)?;
    if found.is_some() {
        return Ok(found);
    }
    dirs.sort();
    tree_parents(alloc, dirs)
}

/// Puts directories in path order, and gives the places of their parents where they are a tree.
///
/// Directories that stand so are left where they are; others are seen to be none at the first that stands too low.
pub(crate) fn order_tree(alloc: Global, dirs: &mut Dirs) -> Result<Option<Vec<u32>>, AllocError>
    requires few { length dirs.old < 2 ^ 32 }
    requires kinds { IsTrue (list_all is_kinded dirs.old) }
    requires distinct { IsTrue (are_distinct dirs.old) }
    ensures permutation { IsPermutation dirs.old dirs.new }
    ensures tree { IfOk result (λ found. IfSome found (λ parents. IsTreeWith dirs.new parents.items)) }
{
    let found = tree_parents(alloc, dirs)?;
    if found.is_some() {
        return Ok(found);
    }
    move_to_order(alloc, dirs)
}
