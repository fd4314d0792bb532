//! Paths behind a prefix: `find --prefix`.
ghost use Rattle.std.specs.Prelude.{◌≡◌, ◌≢◌, ◌++◌, List, Some, None, IsTrue, IfOk, IfErr, OnOk};
ghost use Rattle.std.specs.List.{flat_map};
ghost use Rattle.std.specs.List.Sorted.{IsPermutation};
ghost use Rattle.gufi_base.specs.declared.record.Row.{Row};
ghost use Rattle.gufi_base.specs.Basics.{ascends};
ghost use Rattle.gufi_base.specs.Paths.{slashed_text};
ghost use Rattle.gufi_base.specs.Rows.{Stands, row_cmp};
ghost use Rattle.gufi_tree.specs.Resolve.{resolve};
ghost use Rattle.gufi_find.specs.Expressions.{find_holds};
ghost use Rattle.gufi_walk.specs.Answer.{answer, refusal_of};
ghost use Rattle.gufi_ask.specs.Asks.{find_ask, ask_reply, prefixed_line};
ghost use Rattle.gufi_ask.specs.Replies.{Replies};

use crate::snapshots::make_room;
use gufi_access::Principal;
use gufi_base::{Memory, Path, RowRef, Text, put};
use gufi_find::FindExpr;
use gufi_io::Gate;
use gufi_prune::find_pruner;
use gufi_rows::{RowLine, RowList};
use gufi_snap::Snapshot;
use gufi_walk::{Refusal, Walkers, answer_list};
use std::alloc::Global;
use std::mem::forget;
use std::sync::Wait;
use std::thread::Threads;

/// The line of a row's path behind a prefix.
#[derive(Clone, Copy)]
struct PrefixedLine<'p> {
    prefix: &'p Text,
}

/// Appends the path of a row, and nothing for the root.
#[tactic(auto, using(crate::proofs::PrefixLemmas::nothing_put))]
fn put_below_root(out: &mut Vec<u8>, row: RowRef<'_>) -> Result<(), Memory>
    ensures { OnOk result ((of : Row) → Stands row.entry of → out.new.items ≡ out.old.items ++ slashed_text of.path) }
{
    if row.stem.len() == 0 {
        return Ok(());
    }
    put(out, row.stem)?;
    put(out, row.base)?;
    Ok(())
}

impl<'p> RowLine for PrefixedLine<'p> {
    ghost line = { λ l row. prefixed_line l.prefix.now row.path };

    fn put(&self, row: RowRef<'_>, out: &mut Vec<u8>) -> Result<(), Memory> {
        put(out, self.prefix.as_str().as_bytes())?;
        put_below_root(out, row)?;
        put(out, b"\n")?;
        Ok(())
    }
}

/// The rows that the principal lists from the start and for which an expression is true, in one list.
fn found_rows<R: Threads + Wait + Sync, G: Gate + Sync>(
    walkers: &Walkers<'_, R, G>,
    alloc: Global,
    snap: &Snapshot,
    who: &Principal,
    start: &Path,
    expression: &FindExpr,
) -> Result<RowList, Refusal>
    ensures rows { IfOk result (λ rows. IsPermutation rows (answer snap.now.tree who.now start.now (find_holds expression.now))) }
    ensures ascends { OnOk result (IsTrue (ascends row_cmp (answer snap.now.tree who.now start.now (find_holds expression.now)))) }
    ensures found { OnOk result (refusal_of (resolve snap.now.tree who.now start.now) ≡ None) }
    ensures refusal { IfErr result (λ refusal. refusal ≢ Refusal.Memory → refusal_of (resolve snap.now.tree who.now start.now) ≡ Some refusal) }
{
    let skip = find_pruner(alloc, expression)?;
    let question = expression.question();
    answer_list(walkers, alloc, snap, who, start, &question, &skip)
}

/// The lines of rows that were found in a snapshot, behind a prefix.
fn text_of_found(
    alloc: Global,
    snap: Snapshot,
    rows: RowList,
    prefix: &Text,
) -> Result<Vec<u8>, Memory>
    ensures { IfOk result (λ text. (of : List Row) → IsPermutation rows of → IsTrue (ascends row_cmp of) → text.items ≡ flat_map (λ row. prefixed_line prefix.now row.path) of) }
{
    make_room(snap, rows.len());
    let mut text = Vec::new(alloc);
    rows.put_lines(alloc, &PrefixedLine { prefix }, &mut text)?;
    Ok(text)
}

/// The paths of the rows that the principal lists from the start and for which an expression is true, each behind a prefix.
pub(crate) fn prefixed_text<R: Threads + Wait + Sync, G: Gate + Sync>(
    walkers: &Walkers<'_, R, G>,
    alloc: Global,
    snap: Snapshot,
    who: &Principal,
    start: &Path,
    prefix: &Text,
    expression: &FindExpr,
) -> Result<Vec<u8>, Refusal>
    ensures { Replies result (ask_reply snap.tree who.now start.now (find_ask (Some prefix.now) expression.now)) }
{
    match found_rows(walkers, alloc, &snap, who, start, expression) {
        Ok(rows) => Ok(text_of_found(alloc, snap, rows, prefix)?),
        Err(refusal) => {
            forget(snap);
            Err(refusal)
        }
    }
}
