//! Directories in path order.

ghost use Rattle.std.specs.Prelude.{◌≡◌, ◌+◌, ◌<◌, ◌≤◌, ◌^◌, length, take, drop, slice_index_or, option_map, IsTrue, IfOk};
ghost use Rattle.std.specs.List.{flat_map};
ghost use Rattle.gufi_base.specs.Basics.{ascends};
ghost use Rattle.gufi_access.specs.Access.{rights};
ghost use Rattle.gufi_tree.specs.Tree.{Directory, own_rows, rights_of, entry_cmp, place_of, HasTreeShape};
ghost use Rattle.gufi_tree.specs.Kept.{HasParents};
ghost use Rattle.gufi_tree.specs.Places.{dir_id, path_at, parent_id, child_ids};

use crate::borrowed::{DirRef, EntriesRef};
use crate::dirs::Dirs;
use crate::link::{Links, parents_of};
use crate::range::DirRange;
use crate::search::find_dir;
use gufi_access::Guard;
use gufi_base::{Memory, Name, Path, PathRef, Rec, RecRef};
use std::alloc::{AllocError, Global};
use std::marker::Model;

/// A directory's place in path order; the root is 0.
#[derive(Clone, Copy, Debug, PartialEq, Eq)]
pub struct DirId(pub u32);

/// An entry of a directory: no directory itself.
#[derive(Drop)]
pub struct Entry {
    pub name: Name,
    pub rec: Rec,
}

/// A directory as it is kept, with its entries in name order. Trees and stores share it.
#[derive(Drop)]
pub struct Stored {
    pub path: Path,
    pub entries: Vec<Entry>,
    pub rec: Rec,
}

/// The directories in path order.
#[derive(Drop)]
pub struct Tree {
    dirs: Dirs,
    links: Links,
}

impl Model for Tree {
    ghost use Rattle.gufi_tree.specs.Tree.{Directory};
    ghost use Rattle.std.specs.Prelude.{List};

    ghost Value = { List Directory };

    ghost use Rattle.gufi_tree.specs.Kept.{IsKept};

    ghost view = { λ a. a.dirs };

    ghost invariant = { λ a. IsKept a.dirs a.links };
}

impl Tree {
    /// The tree of directories in order.
    pub(crate) fn of(alloc: Global, dirs: Dirs) -> Result<Tree, AllocError>
        requires few { length dirs < 2 ^ 32 }
        requires rows { length (flat_map own_rows dirs) < 2 ^ 32 }
        requires shape { HasTreeShape dirs }
        ensures { IfOk result (λ tree. tree ≡ dirs) }
    {
        let parents = parents_of(alloc, &dirs)?;
        Tree::with_parents(alloc, dirs, parents)
    }

    /// The tree of directories in order, whose parents stand at these places.
    pub(crate) fn with_parents(
        alloc: Global,
        dirs: Dirs,
        parents: Vec<u32>,
    ) -> Result<Tree, AllocError>
        requires few { length dirs < 2 ^ 32 }
        requires rows { length (flat_map own_rows dirs) < 2 ^ 32 }
        requires shape { HasTreeShape dirs }
        requires parents { HasParents dirs parents.items }
        ensures { IfOk result (λ tree. tree ≡ dirs) }
    {
        let links = Links::of(alloc, parents)?;
        Ok(Tree { dirs, links })
    }

    /// How many directories there are.
    pub fn dirs(&self) -> u32
        ensures count { result ≡ length self.now }
        ensures shape { HasTreeShape self.now }
        ensures rows { length (flat_map own_rows self.now) < 2 ^ 32 }
    {
        self.dirs.len() as u32
    }

    pub(crate) fn kept(&self) -> &Dirs
        ensures value { result.now ≡ self.now }
        ensures shape { HasTreeShape self.now }
        ensures few { length self.now < 2 ^ 32 }
    {
        &self.dirs
    }

    /// Where the parents of the directories stand; the root's is its own.
    pub(crate) fn parents(&self) -> &[u32]
        ensures { HasParents self.now result.now }
    {
        self.links.parents()
    }

    /// A directory, borrowed. `O(1)`.
    #[inline]
    pub fn dir(&self, id: DirId) -> DirRef<'_>
        requires { id.0 < length self.now }
        ensures value { (d : Directory) → result ≡ slice_index_or self.now id.0 d }
        ensures shape { HasTreeShape self.now }
    {
        self.kept().at(id.0 as usize)
    }

    /// So many directories from one on, which stand side by side in path order. `O(1)`.
    pub fn range(&self, first: DirId, count: u32) -> DirRange<'_>
        requires { first.0 + count ≤ length self.now }
        ensures { result ≡ take count (drop first.0 self.now) }
    {
        // Its clause tells that the sum is a number of 32 bits.
        let _count = self.dirs();
        DirRange::between(self, first.0, first.0 + count)
    }

    /// The record of a directory.
    #[inline]
    pub fn rec(&self, id: DirId) -> RecRef<'_>
        requires { id.0 < length self.now }
        ensures { (d : Directory) → result ≡ (slice_index_or self.now id.0 d).rec }
    {
        self.dir(id).rec()
    }

    /// What guards a directory.
    #[inline]
    pub fn guard(&self, id: DirId) -> Guard<'_>
        requires { id.0 < length self.now }
        ensures { (d : Directory) → rights result ≡ rights_of (slice_index_or self.now id.0 d).rec }
    {
        self.dir(id).guard()
    }

    /// The path of a directory, borrowed.
    #[inline]
    pub fn path(&self, id: DirId) -> PathRef<'_>
        requires { id.0 < length self.now }
        ensures { result ≡ path_at self.now id.0 }
    {
        self.dir(id).path()
    }

    /// The path of a directory, in memory of its own.
    pub fn path_of(&self, alloc: Global, id: DirId) -> Result<Path, Memory>
        requires { id.0 < length self.now }
        ensures { IfOk result (λ path. path ≡ path_at self.now id.0) }
    {
        let path = self.path(id).copy(alloc)?;
        Ok(path)
    }

    /// The directory that a directory lies in; the root lies in none.
    pub fn parent(&self, id: DirId) -> Option<DirId>
        requires { id.0 < length self.now }
        ensures { result ≡ parent_id self.now id.0 }
    {
        if id.0 == 0 {
            return None;
        }
        Some(self.links.parent(id.0 as usize))
    }

    /// The entries of a directory, in name order.
    #[inline]
    pub fn entries(&self, id: DirId) -> EntriesRef<'_>
        requires { id.0 < length self.now }
        ensures value { (d : Directory) → result ≡ (slice_index_or self.now id.0 d).entries }
        ensures order { IsTrue (ascends entry_cmp result) }
    {
        self.dir(id).entries()
    }

    /// The directories right below a directory, in path order.
    #[inline]
    pub fn subdirs(&self, id: DirId) -> &[DirId]
        requires { id.0 < length self.now }
        ensures { result.now ≡ child_ids self.now (path_at self.now id.0) }
    {
        self.links.subdirs(id.0 as usize)
    }

    /// The directory with a path. `O(log n)` comparisons.
    pub fn find(&self, path: &Path) -> Option<DirId>
        ensures { result ≡ option_map dir_id (place_of self.now path.now) }
    {
        match find_dir(self.kept(), path.text()) {
            None => None,
            Some(place) => Some(DirId(place as u32)),
        }
    }
}
