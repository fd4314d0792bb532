//! Packed entries in two arrays: where the bytes of each stand, and its numbers. A test of names looks at the first alone.

ghost use Rattle.std.specs.Prelude.{◌≡◌, ℕ, ◌+◌, ◌<◌, ◌≤◌, ◌^◌, ◌++◌, [], length, map, take, drop, slice_index_or, All, IfOk, OnOk, OnErr};
ghost use Rattle.gufi_tree.specs.declared.bundle.Packed.{Packed as SeenPacked};
ghost use Rattle.gufi_tree.specs.Packs.{shifted, shifted_row, IsNear};
ghost use Rattle.gufi_tree.specs.Rows.{packed_row, placed_meta, shifted_spot, spot_of};

use crate::bundle::Packed;
use crate::pending::PlacedRow;
use gufi_base::{Extras, Meta};
use std::alloc::{AllocError, Global};
use std::marker::Model;
use std::mem;

/// Where an entry's name and behind it its link stand in a text, by their lengths in bytes, and what is kept behind the link. It has 8 bytes.
#[derive(Clone, Copy)]
pub(crate) struct Spot {
    pub(crate) at: u32,
    pub(crate) link: u16,
    pub(crate) name: u8,
    pub(crate) extras: Extras,
}

/// Packed entries: their spots in one array, of 8 bytes each, and their numbers in another, of 80 bytes each. Contracts see one list.
#[derive(Drop)]
pub(crate) struct PackedRows {
    spots: Vec<Spot>,
    metas: Vec<Meta>,
}

impl Model for PackedRows {
    ghost use Rattle.std.specs.Prelude.{List};
    ghost use Rattle.gufi_tree.specs.declared.bundle.Packed.{Packed};

    ghost Value = { List Packed };

    ghost use Rattle.std.specs.Prelude.{◌≡◌, length};
    ghost use Rattle.gufi_tree.specs.Rows.{packed_rows};

    ghost view = { λ r. packed_rows r.spots.items r.metas.items };

    ghost invariant = { λ r. length r.spots.items ≡ length r.metas.items };
}

/// Packed entries side by side, borrowed from both arrays.
#[derive(Drop)]
pub(crate) struct PackedRowsRef<'a> {
    spots: &'a [Spot],
    metas: &'a [Meta],
}

impl<'a> Model for PackedRowsRef<'a> {
    ghost use Rattle.std.specs.Prelude.{List};
    ghost use Rattle.gufi_tree.specs.declared.bundle.Packed.{Packed};

    ghost Value = { List Packed };

    ghost use Rattle.std.specs.Prelude.{◌≡◌, length};
    ghost use Rattle.gufi_tree.specs.Rows.{packed_rows};

    ghost view = { λ r. packed_rows r.spots.now r.metas.now };

    ghost invariant = { λ r. length r.spots.now ≡ length r.metas.now };
}

/// The spot of an entry whose text was put behind so many bytes.
fn shifted(packed: &Packed, base: u32) -> Spot
    requires { base + packed.now.at < 2 ^ 32 }
    ensures { result ≡ spot_of (shifted base packed.now) }
{
    Spot {
        at: base + packed.at,
        ..packed.spot()
    }
}

/// Adds both parts of entries whose text was put behind so many bytes, or, where there is no memory, of none.
fn push_parts(
    spots: &mut Vec<Spot>,
    metas: &mut Vec<Meta>,
    entries: &[PlacedRow],
    base: u32,
) -> Result<(), AllocError>
    requires { All (IsNear base) entries.now }
    ensures some { (count : ℕ) × (spots.new.items ≡ spots.old.items ++ map (shifted_spot base) (take count entries.now)) × (metas.new.items ≡ metas.old.items ++ map placed_meta (take count entries.now)) }
    ensures all { OnOk result ((spots.new.items ≡ spots.old.items ++ map (shifted_spot base) entries.now) × (metas.new.items ≡ metas.old.items ++ map placed_meta entries.now)) }
{
    spots.reserve(entries.len())?;
    metas.reserve(entries.len())?;
    for row in entries {
        spots.push_reserved(shifted(&row.packed, base));
        metas.push_reserved(row.packed.meta);
    }
    Ok(())
}

impl PackedRows {
    /// No entry. Takes no memory.
    pub(crate) fn new(alloc: Global) -> PackedRows
        ensures { result ≡ [] }
    {
        PackedRows {
            spots: Vec::new(alloc),
            metas: Vec::new(alloc),
        }
    }

    /// How many there are.
    #[inline]
    #[tactic(auto, using(crate::proofs::Paired::as_many))]
    pub(crate) fn len(&self) -> usize
        ensures { result ≡ length self.now }
    {
        self.spots.len()
    }

    /// All of them, borrowed. `O(1)`.
    #[inline]
    pub(crate) fn as_rows_ref(&self) -> PackedRowsRef<'_>
        ensures { result ≡ self.now }
    {
        PackedRowsRef {
            spots: self.spots.as_slice(),
            metas: self.metas.as_slice(),
        }
    }

    /// Adds the rows of entries whose text was put behind so many bytes, or, where there is no memory, none.
    pub(crate) fn push_rows(&mut self, entries: &[PlacedRow], base: u32) -> Result<(), AllocError>
        requires { All (IsNear base) entries.now }
        ensures some { (count : ℕ) × (self.new ≡ self.old ++ map (shifted_row base) (take count entries.now)) }
        ensures all { OnOk result (self.new ≡ self.old ++ map (shifted_row base) entries.now) }
    {
        push_parts(&mut self.spots, &mut self.metas, entries, base)
    }

    /// The same rows, in as much memory as they take.
    pub(crate) fn copy(&self, alloc: Global) -> Result<PackedRows, AllocError>
        ensures { IfOk result (λ copy. copy ≡ self.now) }
    {
        Ok(PackedRows {
            spots: Vec::from_slice(alloc, self.spots.as_slice())?,
            metas: Vec::from_slice(alloc, self.metas.as_slice())?,
        })
    }

    /// Makes room for so many more, where it isn't there.
    pub(crate) fn reserve_exact(&mut self, count: usize) -> Result<(), AllocError>
        ensures { self.new ≡ self.old }
    {
        self.spots.reserve_exact(count)?;
        self.metas.reserve_exact(count)
    }

    /// Gives back the memory that no number takes, where they stand.
    pub(crate) fn shrink_to_fit(&mut self)
        ensures { self.new ≡ self.old }
    {
        self.metas.shrink_to_fit();
    }

    /// Gives up all rows. Numbers, which are most of it, aren't copied; spots are, in as much memory as they take, and theirs is kept.
    pub(crate) fn take(&mut self, alloc: Global) -> Result<PackedRows, AllocError>
        ensures taken { IfOk result (λ full. full ≡ self.old) }
        ensures emptied { OnOk result (self.new ≡ []) }
        ensures unchanged { OnErr result (self.new ≡ self.old) }
    {
        let spots = Vec::from_slice(alloc, self.spots.as_slice())?;
        let metas = mem::replace(&mut self.metas, Vec::new(alloc));
        self.spots.clear();
        Ok(PackedRows { spots, metas })
    }
}

impl<'a> PackedRowsRef<'a> {
    /// How many there are.
    #[inline]
    #[tactic(auto, using(crate::proofs::Paired::as_many))]
    pub(crate) fn len(&self) -> usize
        ensures { result ≡ length self.now }
    {
        self.spots.len()
    }

    /// Both parts of the entry at a place. `O(1)`; reads no number.
    #[inline]
    #[tactic(auto, using(crate::proofs::Paired::as_many))]
    pub(crate) fn at(&self, place: usize) -> (Spot, &'a Meta)
        requires { place < length self.now }
        ensures { (p : SeenPacked) → packed_row result.0 result.1.now ≡ slice_index_or self.now place p }
    {
        let spots = self.spots;
        let metas = self.metas;
        (spots[place], &metas[place])
    }

    /// So many entries from one on. `O(1)`.
    #[inline]
    #[tactic(auto, using(crate::proofs::Paired::as_many))]
    pub(crate) fn range(&self, first: usize, count: usize) -> PackedRowsRef<'a>
        requires { first + count ≤ length self.now }
        ensures { result ≡ take count (drop first self.now) }
    {
        let spots = self.spots;
        let metas = self.metas;
        PackedRowsRef {
            spots: &spots[first..first + count],
            metas: &metas[first..first + count],
        }
    }
}
