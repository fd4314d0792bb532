//! The rows at and below each directory, and whether all below it is covered.

ghost use Rattle.std.specs.Prelude.{◌≡◌, ◌<◌, ◌+◌, ◌%◌, ◌&&◌, true, length, slice_index_or, IfOk, IsTrue};
ghost use Rattle.gufi_access.specs.declared.class.Principal.{Principal};
ghost use Rattle.gufi_access.specs.Access.{rights, has_bits, can_list};
ghost use Rattle.gufi_access.specs.Tried.{covers};
ghost use Rattle.gufi_tree.specs.Tree.{Directory, rights_of};
ghost use Rattle.gufi_roll.specs.Below.{IsBelow, AreBelow};

use crate::memo::{Above, Memo, are_alike};
use gufi_access::{Guard, covers};
use gufi_tree::{DirId, Tree};
use std::alloc::{AllocError, Global};

/// How many rows are at and below a directory, and whether each directory below it is covered by its parent.
#[derive(Clone, Copy)]
pub(crate) struct Below {
    pub(crate) rows: u64,
    pub(crate) covered: bool,
}

/// Whether the three bits of a class, the lowest of these, let it read and search.
fn let_list(bits: u16) -> bool
    ensures { result ≡ has_bits (bits % 8) 5 }
{
    (bits & 7) & 5 == 5
}

/// Whether every class may read and search and no access control list says otherwise, so that everyone may list.
fn is_open(guard: &Guard<'_>) -> bool
    ensures { IsTrue result → (who : Principal) → can_list who (rights guard.now) ≡ true }
{
    let owner = let_list(guard.mode >> 6);
    let group = let_list(guard.mode >> 3);
    let other = let_list(guard.mode);
    owner & group & other & guard.acl.is_empty()
}

/// Whether it is seen at once that a guard covers another: everyone may list the other, or the two are alike.
fn covers_plainly(parent: &Guard<'_>, child: &Guard<'_>) -> bool
    ensures { IsTrue result → covers (rights parent.now) (rights child.now) ≡ true }
{
    is_open(child) || are_alike(parent, child)
}

/// Whether a guard covers another; that isn't tried where it is seen at once.
pub(crate) fn covers_next(parent: &Guard<'_>, child: &Guard<'_>) -> bool
    ensures { result ≡ covers (rights parent.now) (rights child.now) }
{
    covers_plainly(parent, child) || covers(parent, child)
}

/// The same; what isn't seen at once is looked up.
fn covers_known<'a>(memo: &mut Memo<'a>, above: &Above<'a>, child: &Guard<'a>) -> bool
    ensures { result ≡ covers (rights above.now.guard) (rights child.now) }
{
    covers_plainly(&above.guard, child) || memo.covers(above, child)
}

/// Whether a subdirectory and all below it is covered.
fn is_child_covered<'a>(
    tree: &'a Tree,
    memo: &mut Memo<'a>,
    above: &Above<'a>,
    child: DirId,
    below: &Below,
) -> bool
    requires { child.0 < length tree.now }
    ensures { (d : Directory) → result ≡ (below.now.covered && covers (rights above.now.guard) (rights_of (slice_index_or tree.now child.0 d).rec)) }
{
    below.covered && covers_known(memo, above, &tree.guard(child))
}

/// Whether subdirectories are covered so far, and the next one and all below it too. That isn't looked at where one before it isn't.
fn stay_covered<'a>(
    so_far: bool,
    tree: &'a Tree,
    memo: &mut Memo<'a>,
    above: &Above<'a>,
    child: DirId,
    below: &Below,
) -> bool
    requires { child.0 < length tree.now }
    ensures { (d : Directory) → result ≡ (so_far && (below.now.covered && covers (rights above.now.guard) (rights_of (slice_index_or tree.now child.0 d).rec))) }
{
    so_far && is_child_covered(tree, memo, above, child, below)
}

/// What is at and below a directory, from what is below the directories behind it.
fn below_of<'a>(tree: &'a Tree, id: DirId, found: &[Below], memo: &mut Memo<'a>) -> Below
    requires within { id.0 < length tree.now }
    requires behind { AreBelow tree.now (id.0 + 1) found.now }
    ensures { IsBelow tree.now id.0 result }
{
    // The count tells that the tree has its shape, and that its rows can be counted.
    let _count = tree.dirs();
    let mut rows = tree.entries(id).len() as u64 + 1;
    let mut covered = true;
    let children = tree.subdirs(id);
    if children.is_empty() {
        return Below { rows, covered };
    }
    let above = Above::of(&tree.guard(id));
    for child in children {
        let below = &found[child.0 as usize];
        rows += below.rows;
        covered = stay_covered(covered, tree, memo, &above, *child, below);
    }
    Below { rows, covered }
}

/// What is at and below each directory. Linear: goes over the places from the last to the first.
pub(crate) fn all_below(alloc: Global, tree: &Tree) -> Result<Vec<Below>, AllocError>
    ensures { IfOk result (λ found. AreBelow tree.now 0 found.items) }
{
    let count = tree.dirs();
    let unknown = Below {
        rows: 0,
        covered: true,
    };
    let mut found = Vec::from_elem(alloc, unknown, count as usize)?;
    let mut memo = Memo::new(alloc);
    let mut left = count;
    while left > 0 {
        left -= 1;
        let below = below_of(tree, DirId(left), found.as_slice(), &mut memo);
        found[left as usize] = below;
    }
    Ok(found)
}
