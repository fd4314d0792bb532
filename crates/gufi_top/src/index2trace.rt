//! `index2trace`: the trace of an index.
ghost use Rattle.std.specs.Prelude.{◌≡◌, ◌≢◌, [], Err, IfErr, IsTrue};
ghost use Rattle.gufi_io.specs.Kept.{Keeps};
ghost use Rattle.gufi_base.specs.Delimiters.{may_delimit};
ghost use Rattle.gufi_trace.specs.TraceWriting.{written_trace};
ghost use Rattle.gufi_trace.specs.Writing.{GivesText};
ghost use Rattle.gufi_top.specs.Reasons.{unwritten_reason};
ghost use Rattle.gufi_top.specs.Views.{text_view};
ghost use Rattle.gufi_top.specs.Verdict.{trace_written, index2trace_over};
ghost use Rattle.gufi_top.specs.Calls.{Gives, GivesOver, IsOfBytes, IsPastWords, HaltHasCause};

use crate::halt::{Halt, Output, refused};
use crate::index::read_index;
use crate::note;
use crate::start::text_alone;
use gufi_base::Path;
use gufi_io::Shelf;
use gufi_snap::Snapshot;
use gufi_trace::{WriteTraceFault, write_trace};
use gufi_tree::Tree;
use std::alloc::Global;
use std::mem::forget;

/// The trace of a tree, whose root is written as `/`.
fn trace_of(alloc: Global, tree: &Tree, delim: u8) -> Result<Vec<u8>, WriteTraceFault>
    requires { IsTrue (may_delimit delim) }
    ensures { GivesText result (written_trace tree.now [] delim) }
{
    match Path::root(alloc) {
        Ok(root) => write_trace(alloc, tree, &root, delim),
        Err(_) => Err(WriteTraceFault::Memory),
    }
}

// No trace can tell the tree of an index.
fn refuse_tree<T>(alloc: Global, index: &str, fault: WriteTraceFault) -> Result<T, Halt>
    ensures reason { fault ≢ WriteTraceFault.Memory → Gives (λ (x : T). x) result (Err (unwritten_reason index.now fault)) }
    ensures memory { fault ≡ WriteTraceFault.Memory → result ≡ Err Halt.Memory }
    ensures of_bytes { IfErr result IsOfBytes }
    ensures past_words { IfErr result IsPastWords }
{
    match fault {
        WriteTraceFault::DelimUsed => refused(5, note::file_refused(alloc, index, "DelimUsed")?),
        WriteTraceFault::TooLong => refused(5, note::file_refused(alloc, index, "TooLong")?),
        WriteTraceFault::Memory => Err(Halt::Memory),
    }
}

// What `index2trace` writes of a snapshot.
#[tactic(auto, using(crate::proofs::IndexCommands::traces))]
fn trace_snapshot(alloc: Global, index: &str, snap: Snapshot, delim: u8) -> Result<Output, Halt>
    requires { IsTrue (may_delimit delim) }
    ensures text { Gives text_view result (trace_written index.now delim snap.tree) }
    ensures of_bytes { IfErr result IsOfBytes }
    ensures past_words { IfErr result IsPastWords }
{
    let trace = trace_of(alloc, snap.tree(), delim);
    // The run ends soon, so the snapshot isn't given back part by part.
    forget(snap);
    match trace {
        Ok(out) => Ok(text_alone(alloc, out)),
        Err(fault) => refuse_tree(alloc, index, fault),
    }
}

/// What `index2trace` writes of an index.
#[tactic(auto, using(crate::proofs::IndexCommands::trace_steps))]
pub(crate) fn index2trace<F: Shelf>(
    alloc: Global,
    shelf: &mut F,
    index: &str,
    delim: u8,
) -> Result<Output, Halt>
    requires { IsTrue (may_delimit delim) }
    ensures text { GivesOver (F.files shelf.old) text_view result (index2trace_over index.now delim) }
    ensures past_words { IfErr result IsPastWords }
    ensures cause { IfErr result (HaltHasCause F.Shelf shelf.old shelf.new) }
    ensures kept { Keeps F.Shelf shelf.old shelf.new }
{
    match read_index(alloc, shelf, index, delim, 0) {
        Ok(snap) => trace_snapshot(alloc, index, snap, delim),
        Err(halt) => Err(halt),
    }
}
