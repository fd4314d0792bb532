//! `info`: what an index holds.
ghost use Rattle.std.specs.Prelude.{◌≡◌, IfErr};
ghost use Rattle.gufi_io.specs.Kept.{Keeps};
ghost use Rattle.gufi_info.specs.Info.{info_text};
ghost use Rattle.gufi_top.specs.Views.{text_view};
ghost use Rattle.gufi_top.specs.Verdict.{writes_only, info_over};
ghost use Rattle.gufi_top.specs.Calls.{Gives, GivesOver, IsOfBytes, IsPastWords, HaltHasCause};

use crate::halt::{Halt, Output};
use crate::index::{Indexed, read_indexed};
use gufi_info::info_text;
use gufi_io::Shelf;
use std::alloc::Global;
use std::mem::forget;

// What `info` writes of an index that was read.
fn tell_indexed(alloc: Global, indexed: Indexed) -> Result<Output, Halt>
    ensures text { Gives text_view result (writes_only (info_text indexed.image indexed.bytes indexed.snap.tree indexed.snap.limit)) }
    ensures of_bytes { IfErr result IsOfBytes }
    ensures past_words { IfErr result IsPastWords }
{
    let Indexed { image, bytes, snap } = indexed;
    let text = info_text(alloc, &snap, image, bytes);
    // The run ends soon, so the snapshot isn't given back part by part.
    forget(snap);
    Ok(Output {
        out: text?,
        notes: Vec::new(alloc),
    })
}

/// What `info` writes of an index.
#[tactic(auto, using(crate::proofs::IndexCommands::info_steps))]
pub(crate) fn info<F: Shelf>(
    alloc: Global,
    shelf: &mut F,
    index: &str,
    delim: u8,
    limit: u64,
) -> Result<Output, Halt>
    ensures text { GivesOver (F.files shelf.old) text_view result (info_over index.now delim limit) }
    ensures past_words { IfErr result IsPastWords }
    ensures cause { IfErr result (HaltHasCause F.Shelf shelf.old shelf.new) }
    ensures kept { Keeps F.Shelf shelf.old shelf.new }
{
    match read_indexed(alloc, shelf, index, delim, limit) {
        Ok(indexed) => tell_indexed(alloc, indexed),
        Err(halt) => Err(halt),
    }
}
