//! `refresh`: the image of an index, of which a directory and all below it is replaced by the tree of a trace.
ghost use Rattle.std.specs.Prelude.{◌≡◌, ◌≢◌, length, Err, IfErr, IsTrue, List};
ghost use Rattle.gufi_io.specs.Kept.{Keeps};
ghost use Rattle.gufi_tree.specs.Graft.{graft};
ghost use Rattle.gufi_tree.specs.Tree.{Directory, has_dir};
ghost use Rattle.gufi_top.specs.Reasons.{passed_limit, refresh_reason};
ghost use Rattle.gufi_top.specs.Views.{text_view};
ghost use Rattle.gufi_top.specs.Verdict.{refreshed_image, refresh_by, refresh_over};
ghost use Rattle.gufi_top.specs.Calls.{Gives, GivesOver, IsOfBytes, IsPastWords, HaltHasCause};

use crate::halt::{Halt, Output, refused};
use crate::index::read_index;
use crate::note;
use crate::reading::read_trace_file;
use crate::rollup::image_alone;
use gufi_base::{Path, Text};
use gufi_io::Shelf;
use gufi_snap::{RefreshFault, Snapshot};
use gufi_tree::Tree;
use std::alloc::Global;
use std::mem::forget;

/// How many directories an index may have, and how many entries.
const MAX_DIRS: u32 = 262_144;

const MAX_ENTRIES: u32 = 1_048_576;

/// What the command names.
#[derive(Clone, Copy)]
pub(crate) struct Replacement<'a> {
    pub(crate) index: &'a Text,
    /// The byte between the fields of a trace.
    pub(crate) delim: u8,
    /// How many rows may be rolled up into one piece.
    pub(crate) limit: u64,
    pub(crate) path: &'a Path,
    pub(crate) trace: &'a Text,
}

/// How many directories there are once one of a tree, which is there, and all below it are replaced by a part.
fn dirs_after(tree: &Tree, path: &Path, part: &Tree) -> u64
    ensures { IsTrue (has_dir tree.now path.now) → result ≡ length (graft tree.now path.now part.now) }
{
    let dirs = tree.dirs();
    match tree.find(path) {
        Some(at) => u64::from(dirs - tree.dirs_below(at)) + u64::from(part.dirs()),
        None => 0,
    }
}

/// Which limit a tree of so many directories passes that is too large.
fn passed_limit(dirs: u64) -> u32
    ensures { (tree : List Directory) → dirs ≡ length tree → result ≡ passed_limit tree }
{
    if dirs > u64::from(MAX_DIRS) {
        MAX_DIRS
    } else {
        MAX_ENTRIES
    }
}

// A directory isn't replaced: of what would be made so many directories were counted.
fn refuse_refresh<T>(alloc: Global, trace: &str, dirs: u64, fault: RefreshFault) -> Result<T, Halt>
    ensures reason { (tree : List Directory) → (fault ≢ RefreshFault.NotThere → dirs ≡ length tree) → fault ≢ RefreshFault.Memory → Gives (λ (x : T). x) result (Err (refresh_reason trace.now tree fault)) }
    ensures memory { fault ≡ RefreshFault.Memory → result ≡ Err Halt.Memory }
    ensures of_bytes { IfErr result IsOfBytes }
    ensures past_words { IfErr result IsPastWords }
{
    match fault {
        RefreshFault::NotThere => refused(1, note::not_there(alloc)?),
        RefreshFault::TooMany => refused(6, note::past_limit(alloc, trace, passed_limit(dirs))?),
        RefreshFault::TooDeep => refused(5, note::file_refused(alloc, trace, "TooDeep")?),
        RefreshFault::Memory => Err(Halt::Memory),
    }
}

// What `refresh` writes of a snapshot and a part.
#[tactic(auto, using(crate::proofs::IndexCommands::grafts))]
fn refresh_snapshot(
    alloc: Global,
    asked: Replacement<'_>,
    snap: Snapshot,
    part: Tree,
) -> Result<Output, Halt>
    ensures text { Gives text_view result (refreshed_image asked.entry.trace.now asked.entry.limit asked.entry.path.now snap part) }
    ensures of_bytes { IfErr result IsOfBytes }
    ensures past_words { IfErr result IsPastWords }
{
    let dirs = dirs_after(snap.tree(), asked.path, &part);
    let refreshed = snap.refresh_uncounted(alloc, asked.path, part);
    // The run ends soon, so the snapshot isn't given back part by part.
    forget(snap);
    match refreshed {
        Ok(snap) => image_alone(alloc, snap, asked.limit),
        Err(fault) => refuse_refresh(alloc, asked.trace.as_str(), dirs, fault),
    }
}

// What `refresh` writes of a snapshot and a trace's file.
#[tactic(auto, using(crate::proofs::IndexCommands::refresh_steps, crate::proofs::StepLemmas::cause_of_bytes, crate::proofs::StepLemmas::cause_later))]
fn refresh_by<F: Shelf>(
    alloc: Global,
    shelf: &mut F,
    asked: Replacement<'_>,
    snap: Snapshot,
) -> Result<Output, Halt>
    ensures text { GivesOver (F.files shelf.old) text_view result (refresh_by asked.entry.delim asked.entry.limit asked.entry.path.now asked.entry.trace.now snap) }
    ensures past_words { IfErr result IsPastWords }
    ensures cause { IfErr result (HaltHasCause F.Shelf shelf.old shelf.new) }
    ensures kept { Keeps F.Shelf shelf.old shelf.new }
{
    match read_trace_file(alloc, shelf, asked.trace.as_str(), asked.delim) {
        Ok(part) => refresh_snapshot(alloc, asked, snap, part),
        Err(halt) => {
            drop(snap);
            Err(halt)
        }
    }
}

/// What `refresh` writes: the files are read in the order index and trace; then the place is looked for.
///
/// The image is under the limit that the command names, whatever that of the index.
#[tactic(auto, using(crate::proofs::IndexCommands::refresh_steps, crate::proofs::StepLemmas::cause_later))]
pub(crate) fn refresh<F: Shelf>(
    alloc: Global,
    shelf: &mut F,
    asked: Replacement<'_>,
) -> Result<Output, Halt>
    ensures text { GivesOver (F.files shelf.old) text_view result (refresh_over asked.entry.index.now asked.entry.delim asked.entry.limit asked.entry.path.now asked.entry.trace.now) }
    ensures past_words { IfErr result IsPastWords }
    ensures cause { IfErr result (HaltHasCause F.Shelf shelf.old shelf.new) }
    ensures kept { Keeps F.Shelf shelf.old shelf.new }
{
    let index = asked.index.as_str();
    match read_index(alloc, shelf, index, asked.delim, asked.limit) {
        Ok(snap) => refresh_by(alloc, shelf, asked, snap),
        Err(halt) => Err(halt),
    }
}
