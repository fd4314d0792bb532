//! Directories of a tree that stand side by side.

ghost use Rattle.std.specs.Prelude.{◌≡◌, ◌-◌, ◌<◌, ◌≤◌, length, take, drop, slice_index_or};
ghost use Rattle.gufi_tree.specs.Tree.{Directory};

use crate::borrowed::DirRef;
use crate::tree::{DirId, Tree};
use std::marker::Model;

/// The directories of a tree from a place to another, in path order.
#[derive(Drop)]
pub struct DirRange<'a> {
    tree: &'a Tree,
    first: u32,
    end: u32,
}

impl<'a> Model for DirRange<'a> {
    ghost use Rattle.std.specs.Prelude.{List, ◌≤◌, length, take, drop};
    ghost use Rattle.gufi_tree.specs.Tree.{Directory};

    ghost Value = { List Directory };

    ghost view = { λ r. drop r.first (take r.end r.tree.now) };

    ghost invariant = { λ r. (r.first ≤ r.end) × (r.end ≤ length r.tree.now) };
}

impl<'a> DirRange<'a> {
    pub(crate) fn between(tree: &'a Tree, first: u32, end: u32) -> DirRange<'a>
        requires first { first ≤ end }
        requires end { end ≤ length tree.now }
        ensures { result ≡ drop first (take end tree.now) }
    {
        DirRange { tree, first, end }
    }

    /// How many there are.
    #[inline]
    pub fn len(&self) -> u32
        ensures { result ≡ length self.now }
    {
        self.end - self.first
    }

    /// The directory at a place among them. `O(1)`.
    #[inline]
    pub fn at(&self, place: u32) -> DirRef<'a>
        requires { place < length self.now }
        ensures { (d : Directory) → result ≡ slice_index_or self.now place d }
    {
        // Its clause tells that the sum is a number of 32 bits.
        let _count = self.tree.dirs();
        self.tree.dir(DirId(self.first + place))
    }
}
