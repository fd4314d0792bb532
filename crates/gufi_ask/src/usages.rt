//! What the rows that a principal lists take up, directory by directory: `du`.
ghost use Rattle.gufi_ask.specs.Asks.{usage_ask, ask_reply};
ghost use Rattle.gufi_ask.specs.Replies.{Replies};

use gufi_access::Principal;
use gufi_base::Path;
use gufi_find::FindExpr;
use gufi_prune::find_pruner;
use gufi_snap::Snapshot;
use gufi_usage::usage_text;
use gufi_walk::Refusal;
use std::alloc::Global;

/// A line for each directory that the principal lists at most so many levels below the start: what the rows take up that he lists
/// at and below it and for which an expression is true.
///
/// It needs no walkers, and keeps no row.
pub fn usages_text(
    alloc: Global,
    snap: &Snapshot,
    who: &Principal,
    start: &Path,
    depth: u32,
    expression: &FindExpr,
) -> Result<Vec<u8>, Refusal>
    ensures { Replies result (ask_reply snap.now.tree who.now start.now (usage_ask depth expression.now)) }
{
    let skip = find_pruner(alloc, expression)?;
    let question = expression.question();
    usage_text(alloc, snap, who, start, depth, &question, &skip)
}
