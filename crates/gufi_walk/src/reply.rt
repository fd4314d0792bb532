//! What is made of an answer: its printed paths, its rows, their sum; and a refusal in words.

ghost use Rattle.std.specs.Prelude.{◌≡◌, ◌≢◌, ℕ, ◌++◌, true, length, Some, None, IsTrue, IfOk, IfErr, OnOk, decimal};
ghost use Rattle.std.specs.List.Sorted.{IsPermutation};
ghost use Rattle.gufi_base.specs.declared.record.Row.{Row as SeenRow};
ghost use Rattle.gufi_base.specs.Basics.{ascends};
ghost use Rattle.gufi_base.specs.Rows.{row_cmp};
ghost use Rattle.gufi_rows.specs.PathLines.{path_lines, ArePathsOf};
ghost use Rattle.gufi_sums.specs.Total.{total};
ghost use Rattle.gufi_tree.specs.Resolve.{resolve};
ghost use Rattle.gufi_walk.specs.Answer.{answer, refusal_of};
ghost use Rattle.gufi_walk.specs.Refusals.{class_text, refusal_text};

use crate::refusal::Refusal;
use crate::walkers::{Walkers, answer};
use gufi_access::{Class, Principal};
use gufi_base::{Memory, Path, Pred, Row, put_u64};
use gufi_io::Gate;
use gufi_rows::{PathList, RowList};
use gufi_snap::Snapshot;
use gufi_sums::{Skip, Summary};
use std::alloc::Global;
use std::sync::Wait;
use std::thread::Threads;

/// Printed paths, a line each, and how many they are.
#[derive(Drop)]
pub struct PathLines {
    pub count: usize,
    pub text: Vec<u8>,
}

/// The paths of the rows that the principal lists from the start and that meet the question, in one list.
///
/// Their lines are in path order, whatever order they stand in there.
pub fn answer_paths<R: Threads + Wait + Sync, P: Pred + Sync, S: Skip + Sync, G: Gate + Sync>(
    walkers: &Walkers<'_, R, G>,
    alloc: Global,
    snap: &Snapshot,
    who: &Principal,
    start: &Path,
    pred: &P,
    skip: &S,
) -> Result<PathList, Refusal>
where
    P::Tester: Send,
    requires query { (row : SeenRow) (depth : ℕ) → P.sat pred.now row depth ≡ true → S.query skip.now row depth ≡ true }
    ensures paths { IfOk result (λ paths. ArePathsOf paths (answer snap.now.tree who.now start.now (P.sat pred.now))) }
    ensures ascends { IsTrue (ascends row_cmp (answer snap.now.tree who.now start.now (P.sat pred.now))) }
    ensures found { OnOk result (refusal_of (resolve snap.now.tree who.now start.now) ≡ None) }
    ensures refusal { IfErr result (λ refusal. refusal ≢ Refusal.Memory → refusal_of (resolve snap.now.tree who.now start.now) ≡ Some refusal) }
{
    // The tree's shape tells that the answer's paths ascend.
    let _tree = snap.tree();
    answer::<R, P, PathList, S, G>(
        walkers.rt,
        alloc,
        snap,
        who,
        start,
        pred,
        skip,
        walkers.count,
        walkers.gate,
    )
}

/// The paths of the rows that the principal lists from the start and that meet the question, in path order.
pub fn answer_lines<R: Threads + Wait + Sync, P: Pred + Sync, S: Skip + Sync, G: Gate + Sync>(
    walkers: &Walkers<'_, R, G>,
    alloc: Global,
    snap: &Snapshot,
    who: &Principal,
    start: &Path,
    pred: &P,
    skip: &S,
) -> Result<PathLines, Refusal>
where
    P::Tester: Send,
    requires query { (row : SeenRow) (depth : ℕ) → P.sat pred.now row depth ≡ true → S.query skip.now row depth ≡ true }
    ensures text { IfOk result (λ lines. lines.text.items ≡ path_lines (answer snap.now.tree who.now start.now (P.sat pred.now))) }
    ensures count { IfOk result (λ lines. lines.count ≡ length (answer snap.now.tree who.now start.now (P.sat pred.now))) }
    ensures found { OnOk result (refusal_of (resolve snap.now.tree who.now start.now) ≡ None) }
    ensures refusal { IfErr result (λ refusal. refusal ≢ Refusal.Memory → refusal_of (resolve snap.now.tree who.now start.now) ≡ Some refusal) }
{
    match answer_paths(walkers, alloc, snap, who, start, pred, skip) {
        Ok(paths) => {
            let count = paths.len();
            let text = paths.lines(alloc)?;
            Ok(PathLines { count, text })
        }
        Err(refusal) => Err(refusal),
    }
}

/// The rows that the principal lists from the start and that meet the question, in one list.
///
/// Their lines are in path order, whatever order they stand in there.
pub fn answer_list<R: Threads + Wait + Sync, P: Pred + Sync, S: Skip + Sync, G: Gate + Sync>(
    walkers: &Walkers<'_, R, G>,
    alloc: Global,
    snap: &Snapshot,
    who: &Principal,
    start: &Path,
    pred: &P,
    skip: &S,
) -> Result<RowList, Refusal>
where
    P::Tester: Send,
    requires query { (row : SeenRow) (depth : ℕ) → P.sat pred.now row depth ≡ true → S.query skip.now row depth ≡ true }
    ensures rows { IfOk result (λ rows. IsPermutation rows (answer snap.now.tree who.now start.now (P.sat pred.now))) }
    ensures ascends { IsTrue (ascends row_cmp (answer snap.now.tree who.now start.now (P.sat pred.now))) }
    ensures found { OnOk result (refusal_of (resolve snap.now.tree who.now start.now) ≡ None) }
    ensures refusal { IfErr result (λ refusal. refusal ≢ Refusal.Memory → refusal_of (resolve snap.now.tree who.now start.now) ≡ Some refusal) }
{
    // The tree's shape tells that the answer's paths ascend.
    let _tree = snap.tree();
    answer::<R, P, RowList, S, G>(
        walkers.rt,
        alloc,
        snap,
        who,
        start,
        pred,
        skip,
        walkers.count,
        walkers.gate,
    )
}

/// The rows that the principal lists from the start and that meet the question, in path order.
pub fn answer_rows<R: Threads + Wait + Sync, P: Pred + Sync, S: Skip + Sync, G: Gate + Sync>(
    walkers: &Walkers<'_, R, G>,
    alloc: Global,
    snap: &Snapshot,
    who: &Principal,
    start: &Path,
    pred: &P,
    skip: &S,
) -> Result<Vec<Row>, Refusal>
where
    P::Tester: Send,
    requires query { (row : SeenRow) (depth : ℕ) → P.sat pred.now row depth ≡ true → S.query skip.now row depth ≡ true }
    ensures rows { IfOk result (λ rows. rows.items ≡ answer snap.now.tree who.now start.now (P.sat pred.now)) }
    ensures found { OnOk result (refusal_of (resolve snap.now.tree who.now start.now) ≡ None) }
    ensures refusal { IfErr result (λ refusal. refusal ≢ Refusal.Memory → refusal_of (resolve snap.now.tree who.now start.now) ≡ Some refusal) }
{
    match answer_list(walkers, alloc, snap, who, start, pred, skip) {
        Ok(rows) => Ok(rows.sorted(alloc)?),
        Err(refusal) => Err(refusal),
    }
}

/// The sum of the rows that the principal lists from the start and that meet the question.
pub fn answer_sum<R: Threads + Wait + Sync, P: Pred + Sync, S: Skip + Sync, G: Gate + Sync>(
    walkers: &Walkers<'_, R, G>,
    alloc: Global,
    snap: &Snapshot,
    who: &Principal,
    start: &Path,
    pred: &P,
    skip: &S,
) -> Result<Summary, Refusal>
where
    P::Tester: Send,
    requires query { (row : SeenRow) (depth : ℕ) → P.sat pred.now row depth ≡ true → S.query skip.now row depth ≡ true }
    ensures sum { IfOk result (λ sum. sum ≡ total (answer snap.now.tree who.now start.now (P.sat pred.now))) }
    ensures found { OnOk result (refusal_of (resolve snap.now.tree who.now start.now) ≡ None) }
    ensures refusal { IfErr result (λ refusal. refusal ≢ Refusal.Memory → refusal_of (resolve snap.now.tree who.now start.now) ≡ Some refusal) }
{
    answer::<R, P, Summary, S, G>(
        walkers.rt,
        alloc,
        snap,
        who,
        start,
        pred,
        skip,
        walkers.count,
        walkers.gate,
    )
}

fn class_word(class: Class) -> &'static [u8]
    ensures { result.now ≡ class_text class }
{
    match class {
        Class::Owner => b"owner",
        Class::Group => b"group",
        Class::Other => b"other",
    }
}

/// Appends words and the depth that they speak of.
fn put_depth(text: &mut Vec<u8>, words: &[u8], depth: u32) -> Result<(), Memory>
    ensures { OnOk result (text.new.items ≡ text.old.items ++ (words.now ++ decimal depth)) }
{
    text.extend_from_slice(words)?;
    put_u64(text, u64::from(depth))
}

/// Appends a refusal in words, without a newline. Of want of memory it appends nothing.
pub fn put_refusal(text: &mut Vec<u8>, refusal: Refusal) -> Result<(), Memory>
    ensures { OnOk result (text.new.items ≡ text.old.items ++ refusal_text refusal) }
{
    match refusal {
        Refusal::Denied { depth, class } => {
            put_depth(text, b"denied at depth ", depth)?;
            text.extend_from_slice(b" class ")?;
            text.extend_from_slice(class_word(class))?;
            Ok(())
        }
        Refusal::NoSuch { depth } => put_depth(text, b"no such at depth ", depth),
        Refusal::NotDir { depth } => put_depth(text, b"not a directory at depth ", depth),
        Refusal::Memory => Ok(()),
    }
}
