//! Entries that come before their directory's own row, packed as they come.

ghost use Rattle.std.specs.Prelude.{◌≡◌, ◌++◌, ◌∷◌, [], length, IsTrue, IfOk, OnOk, OnErr};
ghost use Rattle.std.specs.List.Sorted.{IsPermutation};
ghost use Rattle.gufi_base.specs.Basics.{ascends};
ghost use Rattle.gufi_base.specs.Names.{is_name};
ghost use Rattle.gufi_tree.specs.Packs.{entries_of, last_entry, places_of};
ghost use Rattle.gufi_tree.specs.Tree.{entry_cmp};

use crate::borrowed::EntryRef;
use crate::bundle::{Packed, pack_entry};
use crate::names::{order_names, rise};
use gufi_base::RecRef;
use std::alloc::{AllocError, Global};
use std::marker::Model;

/// How many bytes the name and the link of most entries have.
const USUAL: usize = 24;

/// An entry as it is packed in a text, and a number that its giver knows it by.
#[derive(Clone, Copy)]
pub(crate) struct PlacedRow {
    pub(crate) packed: Packed,
    pub(crate) place: u32,
}

/// Entries whose directory is still to come, in memory that is used again for those of the next one.
#[derive(Drop)]
pub(crate) struct Pending {
    pub(crate) rows: Vec<PlacedRow>,
    pub(crate) text: Vec<u8>,
}

impl Model for Pending {
    ghost use Rattle.std.specs.Prelude.{List, map, All};
    ghost use Rattle.gufi_tree.specs.Packs.{Placed, placed_in, IsPlaced};

    ghost Value = { List Placed };

    ghost view = { λ p. map (placed_in p.text.items) p.rows.items };

    ghost invariant = { λ p. All (IsPlaced p.text.items) p.rows.items };
}

impl Pending {
    /// No entry. Takes no memory.
    pub(crate) fn new(alloc: Global) -> Pending
        ensures { result ≡ [] }
    {
        Pending {
            rows: Vec::new(alloc),
            text: Vec::new(alloc),
        }
    }

    /// No entry, and room for so many.
    pub(crate) fn with_room(alloc: Global, count: usize) -> Result<Pending, AllocError>
        ensures { IfOk result (λ pending. pending ≡ []) }
    {
        Ok(Pending {
            rows: Vec::with_capacity(alloc, count)?,
            text: Vec::with_capacity(alloc, count.saturating_mul(USUAL))?,
        })
    }

    pub(crate) fn len(&self) -> usize
        ensures { result ≡ length self.now }
    {
        self.rows.len()
    }

    pub(crate) fn last(&self) -> Option<EntryRef<'_>>
        ensures { result ≡ last_entry self.now }
    {
        match self.rows.last() {
            None => None,
            Some(row) => Some(EntryRef::of(
                row.packed.spot(),
                &row.packed.meta,
                self.text.as_slice(),
            )),
        }
    }

    /// Packs an entry behind the others.
    pub(crate) fn push(
        &mut self,
        place: u32,
        name: &[u8],
        rec: &RecRef<'_>,
    ) -> Result<(), AllocError>
        requires { IsTrue (is_name name.now) }
        ensures pushed { OnOk result (self.new ≡ self.old ++ record { entry = record { name = name.now; rec = rec.now }; place = place } ∷ []) }
        ensures unchanged { OnErr result (self.new ≡ self.old) }
    {
        let packed = pack_entry(&mut self.text, name, rec)?;
        self.rows.push(PlacedRow { packed, place })?;
        Ok(())
    }

    /// Puts the entries in rising name order, and tells whether no two have one name. One pass of comparisons where they rise, and no memory then.
    pub(crate) fn order(&mut self, alloc: Global) -> bool
        ensures order { IsPermutation self.old self.new }
        ensures distinct { IsTrue result → IsTrue (ascends entry_cmp (entries_of self.new)) }
    {
        if rise(self.text.as_slice(), self.rows.as_slice()) {
            return true;
        }
        order_names(alloc, self.text.as_slice(), &mut self.rows)
    }

    /// Adds the numbers of the entries.
    pub(crate) fn push_places(&self, places: &mut Vec<u32>) -> Result<(), AllocError>
        ensures { OnOk result (places.new.items ≡ places.old.items ++ places_of self.now) }
    {
        for row in self.rows.as_slice() {
            places.push(row.place)?;
        }
        Ok(())
    }

    /// Gives up all entries and keeps the memory.
    pub(crate) fn clear(&mut self)
        ensures { self.new ≡ [] }
    {
        self.rows.clear();
        self.text.clear();
    }
}
