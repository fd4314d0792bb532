//! `rollup`: the image of an index under a limit, and what of it is rolled up. `trace2index`: the image of a trace.
ghost use Rattle.std.specs.Prelude.{◌≡◌, Ok, IfOk, IfErr};
ghost use Rattle.gufi_io.specs.Kept.{Keeps};
ghost use Rattle.gufi_roll.specs.CanRoll.{roll_report, roll_flags, report_text};
ghost use Rattle.gufi_image.specs.Image.{image_text};
ghost use Rattle.gufi_top.specs.Views.{text_view};
ghost use Rattle.gufi_top.specs.Verdict.{writes_only, trace2index_over, rolled_up, rollup_over};
ghost use Rattle.gufi_top.specs.Calls.{Gives, GivesOver, IsOfBytes, IsPastWords, HaltHasCause};

use crate::halt::{Halt, Output};
use crate::index::read_index;
use crate::note;
use crate::reading::read_trace_file;
use crate::start::text_alone;
use crate::walk::snapshot_of;
use gufi_base::Memory;
use gufi_image::write_image;
use gufi_io::Shelf;
use gufi_roll::{RollReport, roll, roll_report};
use gufi_snap::Snapshot;
use gufi_tree::Tree;
use std::alloc::Global;
use std::mem::forget;

/// The image of a snapshot.
fn image_of(alloc: Global, snap: Snapshot) -> Result<Vec<u8>, Memory>
    ensures { IfOk result (λ image. image.items ≡ image_text snap.tree snap.limit) }
{
    let image = write_image(alloc, &snap);
    // The run ends soon, so the snapshot isn't given back part by part.
    forget(snap);
    image
}

/// The image of a snapshot's tree under a limit.
fn image_under(alloc: Global, snap: Snapshot, limit: u64) -> Result<Vec<u8>, Memory>
    ensures { IfOk result (λ image. image.items ≡ image_text snap.tree limit) }
{
    if snap.limit() == limit {
        return image_of(alloc, snap);
    }
    let other = snap.with_limit(alloc, limit);
    forget(snap);
    image_of(alloc, other?)
}

/// What a tree's roll-up comes to.
fn report_of(alloc: Global, tree: &Tree, limit: u64) -> Result<RollReport, Memory>
    ensures { IfOk result (λ report. report ≡ roll_report tree.now (roll_flags tree.now limit)) }
{
    let flags = roll(alloc, tree, limit)?;
    Ok(roll_report(tree, &flags))
}

/// The same as a note.
pub(crate) fn report_note(alloc: Global, tree: &Tree, limit: u64) -> Result<Vec<u8>, Memory>
    ensures { IfOk result (λ note. note.items ≡ report_text (roll_report tree.now (roll_flags tree.now limit))) }
{
    let report = report_of(alloc, tree, limit)?;
    Ok(note::report(alloc, report)?)
}

// What `rollup` writes of a snapshot: the image of its tree under the limit, and a report as a note.
fn roll_snapshot(alloc: Global, snap: Snapshot, limit: u64) -> Result<Output, Halt>
    ensures text { Gives text_view result (rolled_up limit snap.tree) }
    ensures of_bytes { IfErr result IsOfBytes }
    ensures past_words { IfErr result IsPastWords }
{
    let Ok(notes) = report_note(alloc, snap.tree(), limit) else {
        drop(snap);
        return Err(Halt::Memory);
    };
    let out = image_under(alloc, snap, limit)?;
    Ok(Output { out, notes })
}

/// What `rollup` writes of an index.
#[tactic(auto, using(crate::proofs::RunLemmas::chaining))]
pub(crate) fn rollup<F: Shelf>(
    alloc: Global,
    shelf: &mut F,
    index: &str,
    delim: u8,
    limit: u64,
) -> Result<Output, Halt>
    ensures text { GivesOver (F.files shelf.old) text_view result (rollup_over index.now delim limit) }
    ensures past_words { IfErr result IsPastWords }
    ensures cause { IfErr result (HaltHasCause F.Shelf shelf.old shelf.new) }
    ensures kept { Keeps F.Shelf shelf.old shelf.new }
{
    match read_index(alloc, shelf, index, delim, limit) {
        Ok(snap) => roll_snapshot(alloc, snap, limit),
        Err(halt) => Err(halt),
    }
}

/// What a command writes whose text is the image of a snapshot's tree under a limit.
pub(crate) fn image_alone(alloc: Global, snap: Snapshot, limit: u64) -> Result<Output, Halt>
    ensures text { Gives text_view result (writes_only (image_text snap.tree limit)) }
    ensures of_bytes { IfErr result IsOfBytes }
    ensures past_words { IfErr result IsPastWords }
{
    let out = image_under(alloc, snap, limit)?;
    Ok(text_alone(alloc, out))
}

// What `trace2index` writes of a tree.
fn image_text_of(alloc: Global, tree: Tree) -> Result<Output, Halt>
    ensures text { Gives text_view result (writes_only (image_text tree 0)) }
    ensures of_bytes { IfErr result IsOfBytes }
    ensures past_words { IfErr result IsPastWords }
{
    image_alone(alloc, snapshot_of(alloc, tree, 0)?, 0)
}

/// What `trace2index` writes of a trace.
#[tactic(auto, using(crate::proofs::RunLemmas::chaining))]
pub(crate) fn trace2index<F: Shelf>(
    alloc: Global,
    shelf: &mut F,
    trace: &str,
    delim: u8,
) -> Result<Output, Halt>
    ensures text { GivesOver (F.files shelf.old) text_view result (trace2index_over trace.now delim) }
    ensures past_words { IfErr result IsPastWords }
    ensures cause { IfErr result (HaltHasCause F.Shelf shelf.old shelf.new) }
    ensures kept { Keeps F.Shelf shelf.old shelf.new }
{
    match read_trace_file(alloc, shelf, trace, delim) {
        Ok(tree) => image_text_of(alloc, tree),
        Err(halt) => Err(halt),
    }
}
