//! Stanzas that have ended: directories with their entries in name order, and which lines they were.

ghost use Rattle.std.specs.Prelude.{◌≡◌, [], OnOk, IsTrue};
ghost use Rattle.gufi_tree.specs.StanzaLines.{HasEnded, HasTaken};

use crate::dirs::Dirs;
use crate::packing::Packing;
use gufi_base::{Path, Rec};
use std::alloc::{AllocError, Global};

/// The directory of a stanza whose entries still come, and how many lines are before its own.
#[derive(Drop)]
pub(crate) struct Begun {
    pub path: Path,
    pub rec: Rec,
    pub place: u32,
}

/// Directories in order of coming, and of each and then of each of its entries how many lines are before its own.
#[derive(Drop)]
pub(crate) struct Closed {
    pub dirs: Dirs,
    pub places: Vec<u32>,
    /// Whether no two entries of one directory have one name.
    pub distinct: bool,
}

/// The same while stanzas come: behind the directories the entries of the stanza that has begun, each with how many lines are before its own.
#[derive(Drop)]
pub(crate) struct Closing {
    pub packing: Packing,
    pub places: Vec<u32>,
    pub distinct: bool,
}

/// Whether no two entries have one name, now as before.
fn still_distinct(before: bool, now: bool) -> bool
    ensures before { IsTrue result → IsTrue before }
    ensures now { IsTrue result → IsTrue now }
{
    before && now
}

/// Ends the stanza of a directory: its entries are put in name order while they are at hand.
fn close(alloc: Global, closing: &mut Closing, begun: Begun) -> Result<(), AllocError>
    ensures ended { OnOk result (HasTaken closing.old.packing.dirs closing.new.packing.dirs closing.old.places.items closing.new.places.items closing.old.distinct closing.new.distinct begun closing.old.packing.pending) }
    ensures none { OnOk result (closing.new.packing.pending ≡ []) }
{
    let Begun { path, rec, place } = begun;
    let distinct = closing.packing.order(alloc);
    closing.distinct = still_distinct(closing.distinct, distinct);
    closing.places.push(place)?;
    closing.packing.push_places(&mut closing.places)?;
    closing
        .packing
        .close(alloc, &path.as_path_ref(), &rec.as_rec_ref())
}

impl Closing {
    pub(crate) fn new(alloc: Global) -> Closing
        ensures packing { result.packing ≡ record { dirs = []; pending = [] } }
        ensures places { result.places.items ≡ [] }
    {
        Closing {
            packing: Packing::new(alloc),
            places: Vec::new(alloc),
            distinct: true,
        }
    }

    /// Ends the last stanza, where there is one.
    pub(crate) fn end(&mut self, alloc: Global, begun: Option<Begun>) -> Result<(), AllocError>
        ensures ended { OnOk result (HasEnded self.old.packing.dirs self.new.packing.dirs self.old.places.items self.new.places.items self.old.distinct self.new.distinct begun self.old.packing.pending) }
        ensures none { OnOk result (self.new.packing.pending ≡ []) }
    {
        match begun {
            None => {
                self.packing.clear_pending();
                Ok(())
            }
            Some(begun) => close(alloc, self, begun),
        }
    }

    /// What has ended.
    pub(crate) fn into_closed(self) -> Closed
        ensures dirs { result.dirs ≡ self.packing.dirs }
        ensures places { result.places.items ≡ self.places.items }
        ensures distinct { result.distinct ≡ self.distinct }
    {
        Closed {
            dirs: self.packing.into_dirs(),
            places: self.places,
            distinct: self.distinct,
        }
    }
}
