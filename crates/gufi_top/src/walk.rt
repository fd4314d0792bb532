//! `walk`: all that a principal lists from the root.
ghost use Rattle.std.specs.Prelude.{◌≡◌, [], IfOk, IfErr};
ghost use Rattle.gufi_io.specs.Kept.{Keeps};
ghost use Rattle.gufi_top.specs.Views.{text_view};
ghost use Rattle.gufi_ask.specs.Asks.{walk_ask};
ghost use Rattle.gufi_top.specs.Verdict.{asked, walk_over};
ghost use Rattle.gufi_top.specs.Calls.{Gives, GivesOver, IsOfBytes, IsPastWords, HaltHasCause};

use crate::halt::{Halt, Output};
use crate::reading::read_trace_file;
use crate::start::written;
use gufi_access::Principal;
use gufi_ask::walk_text;
use gufi_base::{Memory, Path};
use gufi_io::{Gate, Shelf};
use gufi_snap::Snapshot;
use gufi_tree::Tree;
use gufi_walk::Walkers;
use std::alloc::Global;
use std::sync::Wait;
use std::thread::Threads;

/// The snapshot of a tree whose roll-up has this limit. It has no sums: a command makes them where its question asks for them.
pub(crate) fn snapshot_of(alloc: Global, tree: Tree, limit: u64) -> Result<Snapshot, Memory>
    ensures { IfOk result (λ snap. snap ≡ record { tree = tree; limit = limit }) }
{
    Snapshot::bare(alloc, tree, limit)
}

// What `walk` writes of a tree.
#[tactic(auto, using(crate::proofs::ReplyLemmas::asking))]
fn walk_tree<R: Threads + Wait + Sync, G: Gate + Sync>(
    walkers: &Walkers<'_, R, G>,
    alloc: Global,
    tree: Tree,
    who: &Principal,
) -> Result<Output, Halt>
    ensures text { Gives text_view result (asked tree who.now [] walk_ask) }
    ensures of_bytes { IfErr result IsOfBytes }
    ensures past_words { IfErr result IsPastWords }
{
    let snap = snapshot_of(alloc, tree, 0)?;
    let Ok(start) = Path::root(alloc) else {
        drop(snap);
        return Err(Halt::Memory);
    };
    let reply = walk_text(walkers, alloc, snap, who, &start);
    written(alloc, reply)
}

/// What `walk` writes of a trace.
#[tactic(auto, using(crate::proofs::RunLemmas::chaining))]
pub(crate) fn walk<R: Threads + Wait + Sync, F: Shelf, G: Gate + Sync>(
    walkers: &Walkers<'_, R, G>,
    alloc: Global,
    shelf: &mut F,
    trace: &str,
    who: &Principal,
    delim: u8,
) -> Result<Output, Halt>
    ensures text { GivesOver (F.files shelf.old) text_view result (walk_over trace.now who.now delim) }
    ensures past_words { IfErr result IsPastWords }
    ensures cause { IfErr result (HaltHasCause F.Shelf shelf.old shelf.new) }
    ensures kept { Keeps F.Shelf shelf.old shelf.new }
{
    match read_trace_file(alloc, shelf, trace, delim) {
        Ok(tree) => walk_tree(walkers, alloc, tree, who),
        Err(halt) => Err(halt),
    }
}
