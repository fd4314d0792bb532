//! The paths of the rows that a principal lists: `walk` and `find`.
ghost use Rattle.std.specs.Prelude.{◌≡◌, ◌≢◌, List, Some, None, IsTrue, IfOk, IfErr, OnOk};
ghost use Rattle.std.specs.Option.{option_copied};
ghost use Rattle.gufi_base.specs.declared.record.Row.{Row};
ghost use Rattle.gufi_base.specs.Basics.{ascends};
ghost use Rattle.gufi_base.specs.Rows.{row_cmp};
ghost use Rattle.gufi_rows.specs.PathLines.{path_lines, ArePathsOf};
ghost use Rattle.gufi_tree.specs.Resolve.{resolve};
ghost use Rattle.gufi_find.specs.Expressions.{find_holds};
ghost use Rattle.gufi_walk.specs.Answer.{answer, refusal_of};
ghost use Rattle.gufi_ask.specs.Asks.{walk_ask, find_ask, ask_reply};
ghost use Rattle.gufi_ask.specs.Replies.{Replies};

use crate::prefixed::prefixed_text;
use crate::snapshots::make_room;
use gufi_access::Principal;
use gufi_base::{Always, Memory, Path, Text};
use gufi_find::FindExpr;
use gufi_io::Gate;
use gufi_prune::find_pruner;
use gufi_rows::PathList;
use gufi_snap::Snapshot;
use gufi_sums::NoSkip;
use gufi_walk::{Refusal, Walkers, answer_paths};
use std::alloc::Global;
use std::mem::forget;
use std::sync::Wait;
use std::thread::Threads;

/// The lines of paths that were found in a snapshot.
fn text_of_paths(alloc: Global, snap: Snapshot, paths: PathList) -> Result<Vec<u8>, Memory>
    ensures { IfOk result (λ text. (rows : List Row) → ArePathsOf paths rows → IsTrue (ascends row_cmp rows) → text.items ≡ path_lines rows) }
{
    make_room(snap, paths.len());
    paths.lines(alloc)
}

/// The paths of all rows that the principal lists from the start.
pub fn walk_text<R: Threads + Wait + Sync, G: Gate + Sync>(
    walkers: &Walkers<'_, R, G>,
    alloc: Global,
    snap: Snapshot,
    who: &Principal,
    start: &Path,
) -> Result<Vec<u8>, Refusal>
    ensures { Replies result (ask_reply snap.tree who.now start.now walk_ask) }
{
    match answer_paths(walkers, alloc, &snap, who, start, &Always, &NoSkip) {
        Ok(paths) => Ok(text_of_paths(alloc, snap, paths)?),
        Err(refusal) => {
            forget(snap);
            Err(refusal)
        }
    }
}

/// The paths of the rows that the principal lists from the start and for which an expression is true, in one list.
fn found_paths<R: Threads + Wait + Sync, G: Gate + Sync>(
    walkers: &Walkers<'_, R, G>,
    alloc: Global,
    snap: &Snapshot,
    who: &Principal,
    start: &Path,
    expression: &FindExpr,
) -> Result<PathList, Refusal>
    ensures paths { IfOk result (λ paths. ArePathsOf paths (answer snap.now.tree who.now start.now (find_holds expression.now))) }
    ensures ascends { OnOk result (IsTrue (ascends row_cmp (answer snap.now.tree who.now start.now (find_holds expression.now)))) }
    ensures found { OnOk result (refusal_of (resolve snap.now.tree who.now start.now) ≡ None) }
    ensures refusal { IfErr result (λ refusal. refusal ≢ Refusal.Memory → refusal_of (resolve snap.now.tree who.now start.now) ≡ Some refusal) }
{
    let skip = find_pruner(alloc, expression)?;
    let question = expression.question();
    answer_paths(walkers, alloc, snap, who, start, &question, &skip)
}

/// The lines of the rows that the principal lists from the start and for which an expression is true.
fn found_text<R: Threads + Wait + Sync, G: Gate + Sync>(
    walkers: &Walkers<'_, R, G>,
    alloc: Global,
    snap: Snapshot,
    who: &Principal,
    start: &Path,
    expression: &FindExpr,
) -> Result<Vec<u8>, Refusal>
    ensures { Replies result (ask_reply snap.tree who.now start.now (find_ask None expression.now)) }
{
    match found_paths(walkers, alloc, &snap, who, start, expression) {
        Ok(paths) => Ok(text_of_paths(alloc, snap, paths)?),
        Err(refusal) => {
            forget(snap);
            Err(refusal)
        }
    }
}

/// The paths of the rows that the principal lists from the start and for which an expression is true, each behind a prefix where
/// there is one. Then the root is the prefix alone.
///
/// With a prefix the rows are kept with their records, as those of a query are.
pub fn find_text<R: Threads + Wait + Sync, G: Gate + Sync>(
    walkers: &Walkers<'_, R, G>,
    alloc: Global,
    snap: Snapshot,
    who: &Principal,
    start: &Path,
    prefix: Option<&Text>,
    expression: &FindExpr,
) -> Result<Vec<u8>, Refusal>
    ensures { Replies result (ask_reply snap.tree who.now start.now (find_ask (option_copied prefix.entry) expression.now)) }
{
    match prefix {
        None => found_text(walkers, alloc, snap, who, start, expression),
        Some(prefix) => prefixed_text(walkers, alloc, snap, who, start, prefix, expression),
    }
}
