//! Rows as lines of text.

ghost use Rattle.std.specs.Prelude.{◌≡◌, ◌≤◌, ◌++◌, List, length, All, IsTrue, OnOk};
ghost use Rattle.std.specs.List.{flat_map};
ghost use Rattle.std.specs.List.Sorted.{IsPermutation};
ghost use Rattle.gufi_base.specs.declared.record.Row.{Row};
ghost use Rattle.gufi_base.specs.Basics.{ascends};
ghost use Rattle.gufi_base.specs.Rows.{row_cmp};
ghost use Rattle.gufi_rows.specs.PathLists.{picked};
ghost use Rattle.gufi_rows.specs.PathPlaces.{places_between, places_of};
ghost use Rattle.gufi_rows.specs.RowLists.{no_row};

use crate::row_line::RowLine;
use crate::row_list::RowList;
use crate::stretch::Stretch;
use gufi_base::Memory;
use std::alloc::Global;

/// Adds the lines of a stretch.
fn put_stretch<L: RowLine>(
    text: &mut Vec<u8>,
    list: &RowList,
    line: &L,
    stretch: Stretch,
) -> Result<(), Memory>
    requires { stretch.end ≤ length list.now }
    ensures { OnOk result (text.new.items ≡ text.old.items ++ flat_map (L.line line.now) (picked list.now no_row (places_between stretch.from stretch.end))) }
{
    for place in stretch.from..stretch.end {
        line.put(list.row_at(place), text)?;
    }
    Ok(())
}

/// Adds the lines of stretches.
fn put_stretches<L: RowLine>(
    text: &mut Vec<u8>,
    list: &RowList,
    line: &L,
    stretches: &[Stretch],
) -> Result<(), Memory>
    requires { All (λ stretch. stretch.end ≤ length list.now) stretches.now }
    ensures { OnOk result (text.new.items ≡ text.old.items ++ flat_map (L.line line.now) (picked list.now no_row (places_of stretches.now))) }
{
    for stretch in stretches {
        put_stretch(text, list, line, *stretch)?;
    }
    Ok(())
}

impl RowList {
    /// Appends what is printed of the rows, in path order. No row is copied: memory is taken for the text alone.
    ///
    /// Takes time in proportion to the bytes where the rows come as a walk gives them. Where memory runs out, the text may
    /// hold a part of the lines.
    pub fn put_lines<L: RowLine>(
        self,
        alloc: Global,
        line: &L,
        text: &mut Vec<u8>,
    ) -> Result<(), Memory>
        ensures { OnOk result ((rows : List Row) → IsPermutation self rows → IsTrue (ascends row_cmp rows) → text.new.items ≡ text.old.items ++ flat_map (L.line line.now) rows) }
    {
        let stretches = self.order(alloc)?;
        put_stretches(text, &self, line, stretches.as_slice())?;
        Ok(())
    }
}
