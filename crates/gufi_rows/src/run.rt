//! Paths that ascend, as the lines of one text.

ghost use Rattle.std.specs.Prelude.{◌≡◌, ◌++◌, [], IfOk, OnOk};
ghost use Rattle.gufi_rows.specs.LaidLines.{AreLines};
ghost use Rattle.gufi_rows.specs.PathLists.{paths_in, picked};
ghost use Rattle.gufi_rows.specs.PathPlaces.{Ascend, places_between, places_of};

use crate::kept_paths::KeptPaths;
use crate::lines::{Lines, put_line};
use crate::spot::Spot;
use crate::stretch::Stretch;
use gufi_base::Memory;
use std::alloc::Global;

/// Paths that ascend, as the lines of one text.
#[derive(Drop)]
pub(crate) struct Run {
    pub(crate) lines: Lines,
    ghost ascends: { Ascend lines },
}

/// Puts the lines of a stretch behind others.
fn put_stretch(
    text: &mut Vec<u8>,
    spots: &mut Vec<Spot>,
    list: &KeptPaths,
    stretch: Stretch,
) -> Result<(), Memory>
    ensures { OnOk result (AreLines text.old.items spots.old.items → AreLines text.new.items spots.new.items
        × (paths_in text.new.items spots.new.items ≡ paths_in text.old.items spots.old.items ++ picked list.now [] (places_between stretch.from stretch.end))) }
{
    for place in stretch.from..stretch.end {
        put_line(text, spots, list.parts_at(place))?;
    }
    Ok(())
}

/// Puts the lines of stretches behind others.
fn put_stretches(
    text: &mut Vec<u8>,
    spots: &mut Vec<Spot>,
    list: &KeptPaths,
    stretches: &[Stretch],
) -> Result<(), Memory>
    ensures { OnOk result (AreLines text.old.items spots.old.items → AreLines text.new.items spots.new.items
        × (paths_in text.new.items spots.new.items ≡ paths_in text.old.items spots.old.items ++ picked list.now [] (places_of stretches.now))) }
{
    for stretch in stretches {
        put_stretch(text, spots, list, *stretch)?;
    }
    Ok(())
}

impl Run {
    /// The paths at the places of stretches, where they ascend. Two allocations.
    pub(crate) fn of(alloc: Global, list: &KeptPaths, stretches: &[Stretch]) -> Result<Run, Memory>
        requires { Ascend (picked list.now [] (places_of stretches.now)) }
        ensures { IfOk result (λ run. run.lines ≡ picked list.now [] (places_of stretches.now)) }
    {
        let mut text = Vec::with_capacity(alloc, list.line_bytes())?;
        let mut spots = Vec::with_capacity(alloc, list.len())?;
        put_stretches(&mut text, &mut spots, list, stretches)?;
        let lines = Lines::of(text, spots);
        Ok(Run { lines })
    }
}
