//! Directories packed as they are read: first the entries of each, and then its own row.

ghost use Rattle.std.specs.Prelude.{◌≡◌, ◌<◌, ◌++◌, ◌∷◌, [], length, slice_index_or, IsTrue, OnOk, OnErr};
ghost use Rattle.std.specs.List.Sorted.{IsPermutation};
ghost use Rattle.gufi_base.specs.Basics.{ascends};
ghost use Rattle.gufi_base.specs.Names.{is_name};
ghost use Rattle.gufi_tree.specs.Packs.{entries_of, last_entry, places_of};
ghost use Rattle.gufi_tree.specs.Tree.{Directory, entry_cmp};

use crate::borrowed::{DirRef, EntryRef};
use crate::dirs::Dirs;
use crate::pending::Pending;
use gufi_base::{PathRef, RecRef};
use std::alloc::{AllocError, Global};
use std::marker::Model;

/// Directories, and behind them the entries of one whose own row is still to come.
///
/// Contracts see both lists, and with each entry the number that it was pushed with. What doesn't fit is answered as want of memory: a
/// path or a link of more than 65,535 bytes, or 4 GiB of names.
#[derive(Drop)]
pub struct Packing {
    dirs: Dirs,
    pending: Pending,
}

impl Model for Packing {
    ghost use Rattle.gufi_tree.specs.Packs.{Packs};

    ghost Value = { Packs };

    ghost view = { λ p. record { dirs = p.dirs; pending = p.pending } };
}

impl Packing {
    /// No directory and no entry. Takes no memory.
    pub fn new(alloc: Global) -> Packing
        ensures { result ≡ record { dirs = []; pending = [] } }
    {
        Packing {
            dirs: Dirs::new(alloc),
            pending: Pending::new(alloc),
        }
    }

    /// How many directories there are.
    pub fn len(&self) -> usize
        ensures { result ≡ length self.now.dirs }
    {
        self.dirs.len()
    }

    /// The directory at a place. `O(1)`.
    #[inline]
    pub fn at(&self, place: usize) -> DirRef<'_>
        requires { place < length self.now.dirs }
        ensures { (d : Directory) → result ≡ slice_index_or self.now.dirs place d }
    {
        self.dirs.at(place)
    }

    /// How many entries there are whose directory is still to come.
    #[inline]
    pub fn pending_len(&self) -> usize
        ensures { result ≡ length self.now.pending }
    {
        self.pending.len()
    }

    /// The last entry whose directory is still to come.
    #[inline]
    pub fn last_pending(&self) -> Option<EntryRef<'_>>
        ensures { result ≡ last_entry self.now.pending }
    {
        self.pending.last()
    }

    /// Packs an entry of the directory that is still to come, with a number that comes back with it. `O(1)`, no allocation of its own.
    #[inline]
    pub fn push(&mut self, place: u32, name: &[u8], rec: &RecRef<'_>) -> Result<(), AllocError>
        requires { IsTrue (is_name name.now) }
        ensures pushed { OnOk result (self.new ≡ record { dirs = self.old.dirs; pending = self.old.pending ++ record { entry = record { name = name.now; rec = rec.now }; place = place } ∷ [] }) }
        ensures unchanged { OnErr result (self.new ≡ self.old) }
    {
        self.pending.push(place, name, rec)
    }

    /// Puts the entries in rising name order, and tells whether no two have one name. One pass of comparisons where they rise, and no memory then.
    pub(crate) fn order(&mut self, alloc: Global) -> bool
        ensures order { IsPermutation self.old.pending self.new.pending }
        ensures distinct { IsTrue result → IsTrue (ascends entry_cmp (entries_of self.new.pending)) }
        ensures dirs { self.new.dirs ≡ self.old.dirs }
    {
        self.pending.order(alloc)
    }

    /// Adds the numbers of the entries whose directory is still to come.
    pub(crate) fn push_places(&self, places: &mut Vec<u32>) -> Result<(), AllocError>
        ensures { OnOk result (places.new.items ≡ places.old.items ++ places_of self.now.pending) }
    {
        self.pending.push_places(places)
    }

    /// The directory of the entries so far, and no entry behind it. In time in proportion to its bytes.
    pub fn close(
        &mut self,
        alloc: Global,
        path: &PathRef<'_>,
        rec: &RecRef<'_>,
    ) -> Result<(), AllocError>
        ensures { OnOk result (self.new ≡ record { dirs = self.old.dirs ++ record { path = path.now; rec = rec.now; entries = entries_of self.old.pending } ∷ []; pending = [] }) }
    {
        self.dirs.close(alloc, path, rec, &self.pending)?;
        self.pending.clear();
        Ok(())
    }

    /// Gives up the entries whose directory is still to come.
    pub(crate) fn clear_pending(&mut self)
        ensures { self.new ≡ record { dirs = self.old.dirs; pending = [] } }
    {
        self.pending.clear();
    }

    /// The directories; entries whose own has not come are given up.
    pub fn into_dirs(self) -> Dirs
        ensures { result ≡ self.dirs }
    {
        self.dirs
    }
}
