//! The rows that a principal lists, printed: `ls` and `query`.
ghost use Rattle.std.specs.Prelude.{◌≡◌, ◌≢◌, List, Some, None, IsTrue, IfOk, IfErr, OnOk};
ghost use Rattle.std.specs.List.Sorted.{IsPermutation};
ghost use Rattle.gufi_base.specs.declared.record.Row.{Row};
ghost use Rattle.gufi_base.specs.Basics.{ascends};
ghost use Rattle.gufi_base.specs.Rows.{row_cmp};
ghost use Rattle.gufi_tree.specs.Resolve.{resolve};
ghost use Rattle.gufi_select.specs.Columns.{select_holds};
ghost use Rattle.gufi_forms.specs.Forms.{form_text};
ghost use Rattle.gufi_walk.specs.Answer.{answer, refusal_of};
ghost use Rattle.gufi_ask.specs.Asks.{ls_ask, query_ask, ask_reply};
ghost use Rattle.gufi_ask.specs.Replies.{Replies};

use crate::snapshots::make_room;
use gufi_access::Principal;
use gufi_base::{Memory, Path};
use gufi_forms::{Form, FormLine};
use gufi_io::Gate;
use gufi_list::{LsLine, OneBelow};
use gufi_prune::select_pruner;
use gufi_rows::RowList;
use gufi_select::Select;
use gufi_snap::Snapshot;
use gufi_sums::NoDeeper;
use gufi_users::Users;
use gufi_walk::{Refusal, Walkers, answer_list};
use std::alloc::Global;
use std::mem::forget;
use std::sync::Wait;
use std::thread::Threads;

/// The lines of `ls`: the rows one level below the start.
pub fn listing_text<R: Threads + Wait + Sync, G: Gate + Sync>(
    walkers: &Walkers<'_, R, G>,
    alloc: Global,
    snap: &Snapshot,
    who: &Principal,
    start: &Path,
    users: &Users,
    long: bool,
    all: bool,
) -> Result<Vec<u8>, Refusal>
    ensures { Replies result (ask_reply snap.now.tree who.now start.now (ls_ask users.now long all)) }
{
    let question = OneBelow { all };
    let skip = NoDeeper {
        than: Some(question.max_depth()),
    };
    match answer_list(walkers, alloc, snap, who, start, &question, &skip) {
        Ok(rows) => {
            let mut text = Vec::new(alloc);
            rows.put_lines(alloc, &LsLine { users, long, all }, &mut text)?;
            Ok(text)
        }
        Err(refusal) => Err(refusal),
    }
}

/// The rows that the principal lists from the start and for which a SELECT is true, in one list.
fn selected_rows<R: Threads + Wait + Sync, G: Gate + Sync>(
    walkers: &Walkers<'_, R, G>,
    alloc: Global,
    snap: &Snapshot,
    who: &Principal,
    start: &Path,
    select: &Select,
) -> Result<RowList, Refusal>
    ensures rows { IfOk result (λ rows. IsPermutation rows (answer snap.now.tree who.now start.now (select_holds select.now))) }
    ensures ascends { OnOk result (IsTrue (ascends row_cmp (answer snap.now.tree who.now start.now (select_holds select.now)))) }
    ensures found { OnOk result (refusal_of (resolve snap.now.tree who.now start.now) ≡ None) }
    ensures refusal { IfErr result (λ refusal. refusal ≢ Refusal.Memory → refusal_of (resolve snap.now.tree who.now start.now) ≡ Some refusal) }
{
    let skip = select_pruner(alloc, select)?;
    let question = select.question();
    answer_list(walkers, alloc, snap, who, start, &question, &skip)
}

/// What a SELECT prints, in a form, of rows that were found in a snapshot below a start.
fn text_of_rows(
    alloc: Global,
    snap: Snapshot,
    rows: RowList,
    form: Form,
    select: &Select,
    start: &Path,
) -> Result<Vec<u8>, Memory>
    ensures { IfOk result (λ text. (of : List Row) → IsPermutation rows of → IsTrue (ascends row_cmp of) → text.items ≡ form_text form select.now start.now of) }
{
    make_room(snap, rows.len());
    let line = FormLine {
        select,
        above: start.depth(),
        form,
    };
    let mut text = Vec::new(alloc);
    line.put_header(&mut text)?;
    rows.put_lines(alloc, &line, &mut text)?;
    Ok(text)
}

/// What a SELECT prints, in a form, of the rows that the principal lists from the start and for which it is true.
pub fn query_text<R: Threads + Wait + Sync, G: Gate + Sync>(
    walkers: &Walkers<'_, R, G>,
    alloc: Global,
    snap: Snapshot,
    who: &Principal,
    start: &Path,
    form: Form,
    select: &Select,
) -> Result<Vec<u8>, Refusal>
    ensures { Replies result (ask_reply snap.tree who.now start.now (query_ask form select.now)) }
{
    match selected_rows(walkers, alloc, &snap, who, start, select) {
        Ok(rows) => Ok(text_of_rows(alloc, snap, rows, form, select, start)?),
        Err(refusal) => {
            forget(snap);
            Err(refusal)
        }
    }
}
