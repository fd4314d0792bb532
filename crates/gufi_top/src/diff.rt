//! `diff`: what changed, from one index to another, of the rows that USER lists from START.
ghost use Rattle.std.specs.Prelude.{◌≡◌, ℕ, List, true, IfErr, IfOk, IsTrue};
ghost use Rattle.gufi_io.specs.Kept.{Keeps};
ghost use Rattle.gufi_base.specs.declared.record.Row.{Row};
ghost use Rattle.gufi_base.specs.Basics.{ascends, GivesUnless};
ghost use Rattle.gufi_base.specs.Rows.{row_cmp};
ghost use Rattle.gufi_walk.specs.Answer.{reply_rows};
ghost use Rattle.gufi_diff.specs.Changes.{diff_lines};
ghost use Rattle.gufi_top.specs.Views.{text_view};
ghost use Rattle.gufi_top.specs.Verdict.{writes_only, listed_for, listed_by, listed_in, diff_from, diff_by, diff_over, DiffMayRefuse};
ghost use Rattle.gufi_top.specs.Calls.{Gives, GivesOver, IsOfBytes, IsPastWords, OfWordsOnlyBy, HaltHasCause};

use crate::halt::{Halt, Output};
use crate::index::read_index;
use crate::search::principal_of;
use crate::start::{refuse_start, text_alone};
use crate::users::read_users;
use gufi_access::Principal;
use gufi_base::{Always, Path};
use gufi_diff::diff_text;
use gufi_io::{Gate, Shelf};
use gufi_rows::OrderedRows;
use gufi_snap::Snapshot;
use gufi_sums::NoSkip;
use gufi_users::Users;
use gufi_walk::{Refusal, Walkers, answer_list};
use gufi_words::Common;
use std::alloc::Global;
use std::mem::forget;
use std::sync::Wait;
use std::thread::Threads;

/// The rows that a principal lists from a start, in path order.
fn listed_rows<R: Threads + Wait + Sync, G: Gate + Sync>(
    walkers: &Walkers<'_, R, G>,
    alloc: Global,
    snap: &Snapshot,
    who: &Principal,
    start: &Path,
) -> Result<OrderedRows, Refusal>
    ensures rows { GivesUnless Refusal.Memory result (reply_rows snap.now.tree who.now start.now (λ row depth. true)) }
    ensures ascends { IfOk result (λ rows. IsTrue (ascends row_cmp rows)) }
{
    match answer_list(walkers, alloc, snap, who, start, &Always, &NoSkip) {
        Ok(rows) => Ok(rows.ordered(alloc)?),
        Err(refusal) => Err(refusal),
    }
}

// The same, or the refusal of the start.
#[tactic(auto, using(crate::proofs::DiffLemmas::starts))]
fn list_for<R: Threads + Wait + Sync, G: Gate + Sync>(
    walkers: &Walkers<'_, R, G>,
    alloc: Global,
    snap: &Snapshot,
    who: &Principal,
    start: &Path,
) -> Result<OrderedRows, Halt>
    ensures rows { Gives (λ (rows : List Row). rows) result (listed_for snap.now.tree who.now start.now) }
    ensures ascends { IfOk result (λ rows. IsTrue (ascends row_cmp rows)) }
    ensures of_bytes { IfErr result IsOfBytes }
{
    match listed_rows(walkers, alloc, snap, who, start) {
        Ok(rows) => Ok(rows),
        Err(refusal) => refuse_start(alloc, refusal),
    }
}

// The rows that the word USER's principal lists in a snapshot.
#[tactic(auto, using(crate::proofs::DiffLemmas::users))]
fn list_by<R: Threads + Wait + Sync, G: Gate + Sync>(
    walkers: &Walkers<'_, R, G>,
    alloc: Global,
    common: &Common,
    users: &Users,
    snap: &Snapshot,
) -> Result<OrderedRows, Halt>
    ensures rows { Gives (λ (rows : List Row). rows) result (listed_by common.now users.now snap.now) }
    ensures ascends { IfOk result (λ rows. IsTrue (ascends row_cmp rows)) }
    ensures of_bytes { IfErr result IsOfBytes }
{
    match principal_of(alloc, common, users) {
        Ok(who) => list_for(walkers, alloc, snap, &who, &common.start),
        Err(halt) => Err(halt),
    }
}

/// Gives a snapshot back, unless the run ends soon: part by part that would take a tenth of its time.
fn let_go(snap: Snapshot, ends: bool) {
    if ends {
        forget(snap);
    }
}

// The same over an index's file. Behind the last one the run ends.
#[tactic(auto, using(crate::proofs::DiffLemmas::files, crate::proofs::StepLemmas::cause_of_bytes))]
fn list_in<R: Threads + Wait + Sync, F: Shelf, G: Gate + Sync>(
    walkers: &Walkers<'_, R, G>,
    alloc: Global,
    shelf: &mut F,
    common: &Common,
    users: &Users,
    index: &str,
    last: bool,
) -> Result<OrderedRows, Halt>
    ensures rows { GivesOver (F.files shelf.old) (λ (rows : List Row). rows) result (listed_in common.now users.now index.now) }
    ensures ascends { IfOk result (λ rows. IsTrue (ascends row_cmp rows)) }
    ensures words { IfErr result (OfWordsOnlyBy (DiffMayRefuse common.now)) }
    ensures cause { IfErr result (HaltHasCause F.Shelf shelf.old shelf.new) }
    ensures kept { Keeps F.Shelf shelf.old shelf.new }
{
    match read_index(alloc, shelf, index, common.delim, common.limit) {
        Ok(snap) => {
            let listed = list_by(walkers, alloc, common, users, &snap);
            let_go(snap, last);
            listed
        }
        Err(halt) => Err(halt),
    }
}

// The changes from one list of rows to another.
fn tell_changes(alloc: Global, old: OrderedRows, new: OrderedRows) -> Result<Output, Halt>
    requires old { IsTrue (ascends row_cmp old) }
    requires new { IsTrue (ascends row_cmp new) }
    ensures text { Gives text_view result (writes_only (diff_lines old new)) }
    ensures of_bytes { IfErr result IsOfBytes }
    ensures past_words { IfErr result IsPastWords }
{
    let text = diff_text(alloc, &old, &new);
    drop(old);
    drop(new);
    Ok(text_alone(alloc, text?))
}

// What `diff` writes where the rows of the old index are known.
#[tactic(auto, using(crate::proofs::DiffLemmas::changes, crate::proofs::StepLemmas::cause_of_bytes))]
fn diff_from<R: Threads + Wait + Sync, F: Shelf, G: Gate + Sync>(
    walkers: &Walkers<'_, R, G>,
    alloc: Global,
    shelf: &mut F,
    old: OrderedRows,
    common: &Common,
    users: &Users,
) -> Result<Output, Halt>
    requires { IsTrue (ascends row_cmp old) }
    ensures text { GivesOver (F.files shelf.old) text_view result (diff_from old common.now users.now) }
    ensures words { IfErr result (OfWordsOnlyBy (DiffMayRefuse common.now)) }
    ensures cause { IfErr result (HaltHasCause F.Shelf shelf.old shelf.new) }
    ensures kept { Keeps F.Shelf shelf.old shelf.new }
{
    let index = common.index.as_str();
    match list_in(walkers, alloc, shelf, common, users, index, true) {
        Ok(new) => tell_changes(alloc, old, new),
        Err(halt) => {
            drop(old);
            Err(halt)
        }
    }
}

// The same over both indexes. The first is let go before the second is read.
#[tactic(auto, using(crate::proofs::DiffLemmas::changes, crate::proofs::StepLemmas::cause_later))]
fn diff_by<R: Threads + Wait + Sync, F: Shelf, G: Gate + Sync>(
    walkers: &Walkers<'_, R, G>,
    alloc: Global,
    shelf: &mut F,
    old: &str,
    common: &Common,
    users: &Users,
) -> Result<Output, Halt>
    ensures text { GivesOver (F.files shelf.old) text_view result (diff_by old.now common.now users.now) }
    ensures words { IfErr result (OfWordsOnlyBy (DiffMayRefuse common.now)) }
    ensures cause { IfErr result (HaltHasCause F.Shelf shelf.old shelf.new) }
    ensures kept { Keeps F.Shelf shelf.old shelf.new }
{
    match list_in(walkers, alloc, shelf, common, users, old, false) {
        Ok(rows) => diff_from(walkers, alloc, shelf, rows, common, users),
        Err(halt) => Err(halt),
    }
}

/// What `diff` writes: the files are read in the order passwd, group, the old index and the new one. USER is judged behind the old
/// index, and then the start in it; the new index and the start in that come last.
///
/// One index is held at a time: of the old one what USER lists of it is kept while the new one is read.
#[tactic(auto, using(crate::proofs::DiffLemmas::changes, crate::proofs::StepLemmas::cause_later))]
pub(crate) fn diff<R: Threads + Wait + Sync, F: Shelf, G: Gate + Sync>(
    walkers: &Walkers<'_, R, G>,
    alloc: Global,
    shelf: &mut F,
    old: &str,
    common: &Common,
) -> Result<Output, Halt>
    ensures text { GivesOver (F.files shelf.old) text_view result (diff_over old.now common.now) }
    ensures words { IfErr result (OfWordsOnlyBy (DiffMayRefuse common.now)) }
    ensures cause { IfErr result (HaltHasCause F.Shelf shelf.old shelf.new) }
    ensures kept { Keeps F.Shelf shelf.old shelf.new }
{
    match read_users(alloc, shelf, &common.passwd, &common.group) {
        Ok(users) => diff_by(walkers, alloc, shelf, old, common, &users),
        Err(halt) => Err(halt),
    }
}
