//! The rows of a list in path order, read where they stand.

ghost use Rattle.std.specs.Prelude.{◌≡◌, ◌<◌, ◌++◌, List, length, All, IsTrue, IfOk, OnOk, slice_index_or};
ghost use Rattle.std.specs.List.Sorted.{IsPermutation};
ghost use Rattle.gufi_base.specs.declared.record.Row.{Row};
ghost use Rattle.gufi_base.specs.Basics.{ascends};
ghost use Rattle.gufi_base.specs.Rows.{Stands, row_cmp};
ghost use Rattle.gufi_rows.specs.PathLists.{picked};
ghost use Rattle.gufi_rows.specs.PathPlaces.{places_between, places_of};
ghost use Rattle.gufi_rows.specs.RowLists.{no_row};

use crate::row_list::RowList;
use crate::stretch::Stretch;
use gufi_base::{Memory, RowRef};
use std::alloc::{AllocError, Global};
use std::marker::Model;

/// The rows of a list in path order, by their places. No row is copied.
#[derive(Drop)]
pub struct OrderedRows {
    rows: RowList,
    places: Vec<usize>,
}

impl Model for OrderedRows {
    ghost use Rattle.std.specs.Prelude.{List, ◌<◌, length, All};
    ghost use Rattle.gufi_base.specs.declared.record.Row.{Row};
    ghost use Rattle.gufi_rows.specs.PathLists.{picked};
    ghost use Rattle.gufi_rows.specs.RowLists.{no_row};

    ghost Value = { List Row };

    ghost view = { λ l. picked l.rows no_row l.places.items };

    ghost invariant = { λ l. All (λ place. place < length l.rows) l.places.items };
}

/// Adds the places of a stretch.
fn put_stretch(places: &mut Vec<usize>, stretch: Stretch) -> Result<(), AllocError>
    ensures { OnOk result (places.new.items ≡ places.old.items ++ places_between stretch.from stretch.end) }
{
    for place in stretch.from..stretch.end {
        places.push(place)?;
    }
    Ok(())
}

/// The places of stretches, of which there are so many. One allocation.
fn places_in(alloc: Global, count: usize, stretches: &[Stretch]) -> Result<Vec<usize>, AllocError>
    ensures { IfOk result (λ places. places.items ≡ places_of stretches.now) }
{
    let mut places = Vec::with_capacity(alloc, count)?;
    for stretch in stretches {
        put_stretch(&mut places, *stretch)?;
    }
    Ok(places)
}

/// The places of the rows of a list, in path order.
fn ordered_places(alloc: Global, rows: &RowList) -> Result<Vec<usize>, Memory>
    ensures within { IfOk result (λ places. All (λ place. place < length rows.now) places.items) }
    ensures only { IfOk result (λ places. (other : List Row) → IsPermutation rows.now other → IsTrue (ascends row_cmp other) → picked rows.now no_row places.items ≡ other) }
{
    let stretches = rows.order(alloc)?;
    let places = places_in(alloc, rows.len(), stretches.as_slice())?;
    Ok(places)
}

impl OrderedRows {
    /// How many rows there are.
    pub fn len(&self) -> usize
        ensures { result ≡ length self.now }
    {
        self.places.len()
    }

    /// The row that comes at a place of the order, in borrowed parts.
    pub fn at(&self, place: usize) -> RowRef<'_>
        requires { place < length self.now }
        ensures { Stands result (slice_index_or self.now place no_row) }
    {
        self.rows.row_at(self.places[place])
    }
}

impl RowList {
    /// The rows in path order, to be read at their places. Memory is taken for the places alone, 8 bytes for each row.
    ///
    /// Takes a few comparisons for each stretch where the rows come as a walk gives them.
    pub fn ordered(self, alloc: Global) -> Result<OrderedRows, Memory>
        // Of the lists that it stands for one at most ascends, and this is it.
        ensures { IfOk result (λ rows. (other : List Row) → IsPermutation self other → IsTrue (ascends row_cmp other) → rows ≡ other) }
    {
        match ordered_places(alloc, &self) {
            Ok(places) => Ok(OrderedRows { rows: self, places }),
            Err(Memory) => {
                drop(self);
                Err(Memory)
            }
        }
    }
}
