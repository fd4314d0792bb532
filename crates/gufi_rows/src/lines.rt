//! Paths as the lines of one text.

ghost use Rattle.std.specs.Prelude.{◌≡◌, ◌++◌, ◌∷◌, [], ◌≤◌, ◌-◌, length, take, drop, OnOk, slice_index_or};
ghost use Rattle.gufi_base.specs.Paths.{Components};
ghost use Rattle.gufi_base.specs.PathParts.{ArePartsOf};
ghost use Rattle.gufi_rows.specs.PathLists.{paths_in};
ghost use Rattle.gufi_rows.specs.LaidLines.{AreLines, lines_of};

use crate::spot::{Parts, Spot, bytes_at, put};
use gufi_base::Memory;
use std::marker::Model;

/// Paths whose lines are the text, one behind the other.
#[derive(Drop)]
pub(crate) struct Lines {
    text: Vec<u8>,
    spots: Vec<Spot>,
}

impl Model for Lines {
    ghost use Rattle.std.specs.Prelude.{ℕ, List};
    ghost use Rattle.gufi_rows.specs.PathLists.{paths_in};
    ghost use Rattle.gufi_rows.specs.LaidLines.{AreLines};

    ghost Value = { List (List (List ℕ)) };

    ghost view = { λ l. paths_in l.text.items l.spots.items };

    ghost invariant = { λ l. AreLines l.text.items l.spots.items };
}

/// Puts the line of a path behind others.
pub(crate) fn put_line(
    text: &mut Vec<u8>,
    spots: &mut Vec<Spot>,
    parts: Parts<'_>,
) -> Result<(), Memory>
    ensures { OnOk result ((path : Components) → ArePartsOf parts.entry.stem.now parts.entry.base.now path → AreLines text.old.items spots.old.items
        → AreLines text.new.items spots.new.items × (paths_in text.new.items spots.new.items ≡ paths_in text.old.items spots.old.items ++ path ∷ [])) }
{
    let stem = put(text, parts.stem)?;
    let base = put(text, parts.base)?;
    text.push(b'\n')?;
    let follows = false;
    spots.push(Spot {
        stem,
        base,
        follows,
    })?;
    Ok(())
}

impl Lines {
    /// The paths of spots whose lines are a text.
    pub(crate) fn of(text: Vec<u8>, spots: Vec<Spot>) -> Lines
        requires { AreLines text.items spots.items }
        ensures { result ≡ paths_in text.items spots.items }
    {
        Lines { text, spots }
    }

    pub(crate) fn len(&self) -> usize
        ensures { result ≡ length self.now }
    {
        self.spots.len()
    }

    /// The parts of the path at a place; past the end they are those of the root.
    pub(crate) fn parts_at(&self, place: usize) -> Parts<'_>
        ensures { ArePartsOf result.stem.now result.base.now (slice_index_or self.now place []) }
    {
        if place >= self.spots.len() {
            return Parts {
                stem: &[],
                base: b"/".as_slice(),
            };
        }
        let spot = self.spots[place];
        Parts {
            stem: bytes_at(self.text.as_slice(), spot.stem),
            base: bytes_at(self.text.as_slice(), spot.base),
        }
    }

    /// Where the line at a place begins; past the end it is the end of the text.
    fn start(&self, place: usize) -> usize
        requires { place ≤ length self.now }
        ensures { result ≡ length (lines_of (take place self.now)) }
    {
        if place >= self.spots.len() {
            return self.text.len();
        }
        let spot = self.spots[place];
        spot.stem.from as usize
    }

    /// The lines from a place to another.
    pub(crate) fn between(&self, from: usize, end: usize) -> &[u8]
        requires from { from ≤ end }
        requires end { end ≤ length self.now }
        ensures { result.now ≡ lines_of (take (end - from) (drop from self.now)) }
    {
        let start = self.start(from);
        let stop = self.start(end);
        &self.text[start..stop]
    }

    /// How many bytes the lines have.
    pub(crate) fn bytes(&self) -> usize {
        self.text.len()
    }
}
