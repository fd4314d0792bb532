//! Paths as lines of text.

ghost use Rattle.std.specs.Prelude.{◌≡◌, ◌++◌, [], List, IsTrue, IfOk, OnOk};
ghost use Rattle.std.specs.List.{flat_map};
ghost use Rattle.gufi_base.specs.declared.record.Row.{Row};
ghost use Rattle.gufi_base.specs.Basics.{ascends};
ghost use Rattle.gufi_base.specs.Paths.{Components};
ghost use Rattle.gufi_base.specs.Rows.{row_cmp};
ghost use Rattle.gufi_base.specs.PathParts.{ArePartsOf};
ghost use Rattle.gufi_rows.specs.PathLists.{picked};
ghost use Rattle.gufi_rows.specs.PathPlaces.{places_between, places_of};
ghost use Rattle.gufi_rows.specs.PathLines.{path_line, path_lines, ArePathsOf};

use crate::kept_paths::KeptPaths;
use crate::path_order::order;
use crate::spot::Parts;
use crate::stretch::Stretch;
use gufi_base::Memory;
use std::alloc::{AllocError, Global};

fn put_line(text: &mut Vec<u8>, parts: Parts<'_>) -> Result<(), AllocError>
    ensures { OnOk result ((path : Components) → ArePartsOf parts.entry.stem.now parts.entry.base.now path → text.new.items ≡ text.old.items ++ path_line path) }
{
    text.extend_from_slice(parts.stem)?;
    text.extend_from_slice(parts.base)?;
    text.push(b'\n')?;
    Ok(())
}

/// Adds the lines of a stretch.
fn put_stretch(text: &mut Vec<u8>, list: &KeptPaths, stretch: Stretch) -> Result<(), AllocError>
    ensures { OnOk result (text.new.items ≡ text.old.items ++ flat_map path_line (picked list.now [] (places_between stretch.from stretch.end))) }
{
    for place in stretch.from..stretch.end {
        put_line(text, list.parts_at(place))?;
    }
    Ok(())
}

/// Adds the lines of stretches.
fn put_stretches(
    text: &mut Vec<u8>,
    list: &KeptPaths,
    stretches: &[Stretch],
) -> Result<(), AllocError>
    ensures { OnOk result (text.new.items ≡ text.old.items ++ flat_map path_line (picked list.now [] (places_of stretches.now))) }
{
    for stretch in stretches {
        put_stretch(text, list, *stretch)?;
    }
    Ok(())
}

impl KeptPaths {
    /// Appends the printed paths in path order, each with a newline behind it. Memory for all of them is taken once.
    ///
    /// Takes time in proportion to the bytes where the rows come as a walk gives them. Where memory runs out, the text may
    /// hold a part of the lines.
    pub(crate) fn put_lines(self, alloc: Global, text: &mut Vec<u8>) -> Result<(), Memory>
        ensures { OnOk result ((rows : List Row) → ArePathsOf self rows → IsTrue (ascends row_cmp rows) → text.new.items ≡ text.old.items ++ path_lines rows) }
    {
        let stretches = order(&self, alloc)?;
        text.reserve(self.line_bytes())?;
        put_stretches(text, &self, stretches.as_slice())?;
        Ok(())
    }
}
