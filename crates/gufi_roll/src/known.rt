//! The flags of a tree of which some are known.

ghost use Rattle.std.specs.Prelude.{◌≡◌, Bool, ◌<◌, ◌≤◌, ◌+◌, length, filter, slice_index_or, false, nat_lt, nat_le, Option, Some, IfOk};
ghost use Rattle.std.specs.List.{list_all};
ghost use Rattle.gufi_base.specs.Paths.{is_prefix};
ghost use Rattle.gufi_tree.specs.Places.{path_at, child_ids};
ghost use Rattle.gufi_tree.specs.Tree.{Directory};
ghost use Rattle.gufi_roll.specs.Below.{AreKnown, AreFlagsFrom, is_child_flagged};
ghost use Rattle.gufi_roll.specs.CanRoll.{can_roll, roll_flags, rows_below};

use crate::below::covers_next;
use crate::flags::none_rolled;
use gufi_base::Memory;
use gufi_tree::{DirId, Tree};
use std::alloc::{AllocError, Global};

/// Whether a subdirectory's flag is set and its directory covers it.
fn is_child_flagged(tree: &Tree, id: DirId, child: DirId, flags: &[bool]) -> bool
    requires parent { id.0 < length tree.now }
    requires child { child.0 < length tree.now }
    requires flags { length flags.now ≡ length tree.now }
    ensures { (d : Directory) → result ≡ is_child_flagged tree.now flags.now id.0 d child }
{
    flags[child.0 as usize] && covers_next(&tree.guard(id), &tree.guard(child))
}

/// Whether each subdirectory's flag is set and its directory covers it.
fn are_children_flagged(tree: &Tree, id: DirId, flags: &[bool]) -> bool
    requires within { id.0 < length tree.now }
    requires flags { length flags.now ≡ length tree.now }
    ensures { (d : Directory) → result ≡ list_all (is_child_flagged tree.now flags.now id.0 d) (child_ids tree.now (path_at tree.now id.0)) }
{
    // The count tells that the tree has its shape: a subdirectory stands at one of its places.
    let _count = tree.dirs();
    for child in tree.subdirs(id) {
        if !is_child_flagged(tree, id, *child, flags) {
            return false;
        }
    }
    true
}

/// Whether there are more directories at and below one than so many.
fn are_more(tree: &Tree, id: DirId, seen: u32) -> bool
    requires within { id.0 < length tree.now }
    requires some { 0 < seen }
    requires seen { seen ≤ length (filter (λ dir. is_prefix (path_at tree.now id.0) dir.path) tree.now) }
    ensures { result ≡ nat_lt seen (length (filter (λ dir. is_prefix (path_at tree.now id.0) dir.path) tree.now)) }
{
    // They stand side by side, so the next one is below where its parent doesn't stand before them.
    if tree.dirs() - id.0 <= seen {
        return false;
    }
    match tree.parent(DirId(id.0 + seen)) {
        None => false,
        Some(parent) => id.0 <= parent.0,
    }
}

/// How many rows a directory has of its own.
fn own_count(tree: &Tree, id: DirId) -> u64
    requires { id.0 < length tree.now }
    ensures { (d : Directory) → result ≡ length (slice_index_or tree.now id.0 d).entries + 1 }
{
    tree.entries(id).len() as u64 + 1
}

/// Whether the rows at and below a directory are at most so many. Counts no further than the directory whose rows pass that number.
fn has_few_rows(tree: &Tree, id: DirId, limit: u64) -> bool
    requires { id.0 < length tree.now }
    ensures { result ≡ nat_le (rows_below tree.now (path_at tree.now id.0)) limit }
{
    // The count tells that the tree has its shape, and that its rows can be counted.
    let _count = tree.dirs();
    let mut rows = own_count(tree, id);
    let mut seen = 1;
    while rows <= limit && are_more(tree, id, seen) {
        rows += own_count(tree, DirId(id.0 + seen));
        seen += 1;
    }
    rows <= limit
}

/// Whether a directory is rolled up, by the flags of the directories behind it.
fn can_roll(tree: &Tree, id: DirId, limit: u64, flags: &[bool]) -> bool
    requires within { id.0 < length tree.now }
    requires behind { AreFlagsFrom tree.now limit (id.0 + 1) flags.now }
    ensures { result ≡ can_roll tree.now limit (path_at tree.now id.0) }
{
    // The count tells that the tree has its shape.
    let _count = tree.dirs();
    are_children_flagged(tree, id, flags) && has_few_rows(tree, id, limit)
}

/// The flag of a directory: the known one, or what the flags behind it tell.
fn flag_at(tree: &Tree, id: DirId, limit: u64, known: Option<bool>, flags: &[bool]) -> bool
    requires within { id.0 < length tree.now }
    requires known { (flag : Bool) → known ≡ Some flag → flag ≡ can_roll tree.now limit (path_at tree.now id.0) }
    requires behind { AreFlagsFrom tree.now limit (id.0 + 1) flags.now }
    ensures { result ≡ can_roll tree.now limit (path_at tree.now id.0) }
{
    match known {
        Some(flag) => flag,
        None => can_roll(tree, id, limit, flags),
    }
}

/// The flags of all directories. Goes over the places from the last to the first.
fn all_flags(
    alloc: Global,
    tree: &Tree,
    limit: u64,
    known: &[Option<bool>],
) -> Result<Vec<bool>, AllocError>
    requires { AreKnown tree.now limit known.now }
    ensures { IfOk result (λ flags. AreFlagsFrom tree.now limit 0 flags.items) }
{
    let count = tree.dirs();
    let mut flags = Vec::from_elem(alloc, false, count as usize)?;
    let mut left = count;
    while left > 0 {
        left -= 1;
        let place = left as usize;
        let flag = flag_at(tree, DirId(left), limit, known[place], flags.as_slice());
        flags[place] = flag;
    }
    Ok(flags)
}

/// Which directories are rolled up, where this is known of some: a flag for each directory, in path order.
///
/// Linear in the directories, and for each whose flag isn't known and whose subdirectories are all rolled up and covered
/// by it, in the directories at and below it, as far as their rows are within the limit. Under limit 0 nothing is looked at.
pub fn roll_from(
    alloc: Global,
    tree: &Tree,
    limit: u64,
    known: &[Option<bool>],
) -> Result<Vec<bool>, Memory>
    requires { AreKnown tree.now limit known.now }
    ensures { IfOk result (λ flags. flags.items ≡ roll_flags tree.now limit) }
{
    if limit == 0 {
        return Ok(none_rolled(alloc, tree)?);
    }
    let flags = all_flags(alloc, tree, limit, known)?;
    Ok(flags)
}
