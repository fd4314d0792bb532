//! A tree from directories that stand in order.

ghost use Rattle.std.specs.Prelude.{◌≡◌, ◌<◌, ◌^◌, length, IfOk};
ghost use Rattle.std.specs.List.{flat_map};
ghost use Rattle.gufi_tree.specs.Tree.{own_rows, HasTreeShape};
ghost use Rattle.gufi_tree.specs.Kept.{HasParents};

use crate::dirs::Dirs;
use crate::tree::Tree;
use gufi_base::Memory;
use std::alloc::Global;

/// The tree of directories that stand in path order, each with its entries in name order, and whose parents' places are known.
///
/// Nothing is copied. Linear in the directories.
pub fn tree_of_directories(
    alloc: Global,
    directories: Dirs,
    parents: Vec<u32>,
) -> Result<Tree, Memory>
    requires few { length directories < 2 ^ 32 }
    requires rows { length (flat_map own_rows directories) < 2 ^ 32 }
    requires shape { HasTreeShape directories }
    requires parents { HasParents directories parents.items }
    ensures { IfOk result (λ tree. tree ≡ directories) }
{
    Ok(Tree::with_parents(alloc, directories, parents)?)
}
