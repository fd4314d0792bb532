//! Paths whose parts stand in one text.

ghost use Rattle.std.specs.Prelude.{◌≡◌, ℕ, ◌++◌, ◌∷◌, [], ◌<◌, ◌≤◌, ◌-◌, true, length, take, map, All, OnOk, OnErr, slice_index_or};
ghost use Rattle.gufi_base.specs.Paths.{Components, path_cmp};
ghost use Rattle.gufi_base.specs.PathParts.{ArePartsOf};
ghost use Rattle.gufi_rows.specs.PathLists.{AreMarked, IsLast, SpotFitsBehind, picked, spot_behind};
ghost use Rattle.gufi_rows.specs.PathPlaces.{places_of, Ascend};

use crate::path_order::arranged;
use crate::places::Places;
use crate::spot::{Parts, Spot, bytes_at, keep, put_text, spot_behind};
use crate::stretch::Stretch;
use gufi_base::Memory;
use std::alloc::Global;
use std::cmp::Ordering;
use std::marker::Model;

/// The paths of rows, in the order in which they were taken. Two arrays: a row has no memory of its own, and
/// the rows of one directory have one stem.
#[derive(Drop)]
pub(crate) struct KeptPaths {
    text: Vec<u8>,
    spots: Vec<Spot>,
}

impl Model for KeptPaths {
    ghost use Rattle.std.specs.Prelude.{ℕ, List};
    ghost use Rattle.gufi_rows.specs.PathLists.{AreSpots, paths_in};

    ghost Value = { List (List (List ℕ)) };

    ghost view = { λ l. paths_in l.text.items l.spots.items };

    ghost invariant = { λ l. AreSpots l.text.items l.spots.items };
}

/// The last of the spots.
fn last_of(spots: &[Spot]) -> Option<Spot>
    ensures { IsLast spots.now result }
{
    if spots.is_empty() {
        return None;
    }
    Some(spots[spots.len() - 1])
}

/// Puts the spots of another text behind others.
fn put_spots(spots: &mut Vec<Spot>, more: &[Spot], by: u32) -> Result<(), Memory>
    requires { All (SpotFitsBehind by) more.now }
    ensures put { OnOk result (spots.new.items ≡ spots.old.items ++ map (spot_behind by) more.now) }
    ensures begun { OnErr result (take (length spots.old.items) spots.new.items ≡ spots.old.items) }
{
    spots.reserve(more.len())?;
    for spot in more {
        spots.push(spot_behind(*spot, by))?;
    }
    Ok(())
}

/// Marks each spot but the first as one that follows.
fn mark(spots: &mut Vec<Spot>)
    ensures { AreMarked spots.old.items spots.new.items }
{
    for k in 0..spots.len() {
        spots[k].follows = k > 0;
    }
}

impl KeptPaths {
    /// No path.
    pub(crate) fn new(alloc: Global) -> KeptPaths
        ensures { result ≡ [] }
    {
        KeptPaths {
            text: Vec::new(alloc),
            spots: Vec::new(alloc),
        }
    }

    /// How many paths there are.
    pub(crate) fn len(&self) -> usize
        ensures { result ≡ length self.now }
    {
        self.spots.len()
    }

    /// Adds the path of these parts.
    pub(crate) fn push(&mut self, parts: Parts<'_>) -> Result<(), Memory>
        requires { (path : Components) × ArePartsOf parts.stem.now parts.base.now path }
        ensures pushed { OnOk result ((path : Components) → ArePartsOf parts.entry.stem.now parts.entry.base.now path → self.new ≡ self.old ++ path ∷ []) }
        ensures unchanged { OnErr result (self.new ≡ self.old) }
    {
        let last = last_of(self.spots.as_slice());
        let spot = keep(&mut self.text, last, parts.stem, parts.base)?;
        self.spots.push(spot)?;
        Ok(())
    }

    /// Adds the paths of another list: its text stands behind this one's, and its spots are moved with it.
    pub(crate) fn append(&mut self, other: KeptPaths) -> Result<(), Memory>
        ensures appended { OnOk result (self.new ≡ self.old ++ other) }
        ensures unchanged { OnErr result (self.new ≡ self.old) }
    {
        if self.len() == 0 {
            *self = other;
            return Ok(());
        }
        let count = self.spots.len();
        let by = put_text(&mut self.text, other.text.as_slice())?;
        match put_spots(&mut self.spots, other.spots.as_slice(), by) {
            Ok(()) => Ok(()),
            Err(Memory) => {
                self.spots.truncate(count);
                Err(Memory)
            }
        }
    }

    /// The parts of the path at a place; past the end they are those of the root.
    pub(crate) fn parts_at(&self, place: usize) -> Parts<'_>
        ensures { ArePartsOf result.stem.now result.base.now (slice_index_or self.now place []) }
    {
        if place >= self.spots.len() {
            return Parts {
                stem: &[],
                base: b"/".as_slice(),
            };
        }
        let spot = self.spots[place];
        Parts {
            stem: bytes_at(self.text.as_slice(), spot.stem),
            base: bytes_at(self.text.as_slice(), spot.base),
        }
    }

    /// Whether a path is known to stand behind the one before it.
    fn is_marked(&self, place: usize) -> bool
        ensures { result ≡ true → (0 < place) × (path_cmp (slice_index_or self.now (place - 1) []) (slice_index_or self.now place []) ≡ Ordering.Less) }
    {
        if place >= self.spots.len() {
            return false;
        }
        let spot = self.spots[place];
        spot.follows
    }

    /// Puts the paths at the places of stretches, where they ascend. The text stays.
    pub(crate) fn arrange(&mut self, alloc: Global, stretches: &[Stretch]) -> Result<(), Memory>
        requires within { All (λ stretch. stretch.end ≤ length self.old) stretches.now }
        requires ascend { Ascend (picked self.old [] (places_of stretches.now)) }
        ensures arranged { OnOk result (self.new ≡ picked self.old [] (places_of stretches.entry.now)) }
        ensures unchanged { OnErr result (self.new ≡ self.old) }
    {
        let mut spots = arranged(alloc, self.spots.as_slice(), stretches)?;
        mark(&mut spots);
        self.spots = spots;
        Ok(())
    }

    /// How many bytes the paths have as lines, where that is a number of 64 bits.
    pub(crate) fn line_bytes(&self) -> usize {
        let mut total: usize = 0;
        for spot in &self.spots {
            total = total.saturating_add(line_length(*spot));
        }
        total
    }
}

impl Places for KeptPaths {
    ghost paths = { λ l. l };

    fn count(&self) -> usize {
        self.len()
    }

    fn parts(&self, place: usize) -> Parts<'_> {
        self.parts_at(place)
    }

    fn follows(&self, place: usize) -> bool {
        self.is_marked(place)
    }

    fn stretch_end(&self, from: usize) -> usize {
        let count = self.len();
        let mut end = from + 1;
        'longer: while end < count && self.is_marked(end) {
            end += 1;
        }
        end
    }
}

fn line_length(spot: Spot) -> usize {
    let stem = spot.stem.end.saturating_sub(spot.stem.from);
    let base = spot.base.end.saturating_sub(spot.base.from);
    stem as usize + base as usize + 1
}
