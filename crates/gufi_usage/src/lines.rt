//! The lines of the directories near a start.

ghost use Rattle.std.specs.Prelude.{◌≡◌, ◌≢◌, ℕ, ◌<◌, ◌++◌, true, List, length, All, Some, None, IfOk, IfErr, OnOk};
ghost use Rattle.std.specs.List.{flat_map};
ghost use Rattle.std.specs.List.Sorted.{IsPermutation, IsSortedBy};
ghost use Rattle.std.specs.Ordering.{nat_cmp, is_lt};
ghost use Rattle.gufi_base.specs.declared.record.Row.{Row};
ghost use Rattle.gufi_tree.specs.Places.{path_at};
ghost use Rattle.gufi_tree.specs.Resolve.{resolve};
ghost use Rattle.gufi_walk.specs.Answer.{answer, refusal_of};
ghost use Rattle.gufi_walk.specs.Walk.{lists_at};
ghost use Rattle.gufi_usage.specs.UsageLines.{field, usage_line, usage_lines};
ghost use Rattle.gufi_usage.specs.Near.{line_of};

use crate::near::{DirUsage, find_near};
use crate::usage::Usage;
use gufi_access::Principal;
use gufi_base::{Memory, Path, PathRef, Pred, Steps, put, put_u128};
use gufi_snap::Snapshot;
use gufi_sums::Skip;
use gufi_tree::{DirId, Tree};
use gufi_walk::{Refusal, found_start};
use std::alloc::Global;
use std::marker::Brand;
use std::sync::ledger::{Blank, Ledger};

/// Appends a number and a tab.
fn put_field(out: &mut Vec<u8>, number: u128) -> Result<(), Memory>
    ensures { OnOk result (out.new.items ≡ out.old.items ++ field number) }
{
    put_u128(out, number)?;
    put(out, b"\t")
}

/// Appends the line of a directory: bytes of files, blocks of all rows, files, directories, and the path, a tab between.
fn put_line(out: &mut Vec<u8>, path: &PathRef<'_>, usage: &Usage) -> Result<(), Memory>
    ensures { OnOk result (out.new.items ≡ out.old.items ++ usage_line path.now usage.now) }
{
    put_field(out, usage.bytes)?;
    put_field(out, usage.blocks)?;
    put_field(out, u128::from(usage.files))?;
    put_field(out, u128::from(usage.dirs))?;
    put(out, path.printed())?;
    put(out, b"\n")
}

/// The lines of directories, in their order.
fn lines_of(alloc: Global, tree: &Tree, found: &[DirUsage]) -> Result<Vec<u8>, Memory>
    requires { All (λ d. d.id.0 < length tree.now) found.now }
    ensures { IfOk result (λ text. text.items ≡ flat_map (line_of tree.now) found.now) }
{
    let mut text = Vec::new(alloc);
    for dir in found {
        put_line(&mut text, &tree.path(dir.id), &dir.usage)?;
    }
    Ok(text)
}

/// Puts directories in path order, which is that of their places.
fn sort_by_place(found: &mut Vec<DirUsage>)
    ensures permutation { IsPermutation found.old.items found.new.items }
    ensures order { IsSortedBy (λ a b. is_lt (nat_cmp a.id.0 b.id.0)) found.new.items }
{
    found.sort_unstable_by(|a, b| a.id.0.cmp(&b.id.0));
}

/// The lines of the directories at most so many levels below one, of the rows that the principal lists from that one on.
fn lines_from<P: Pred, S: Skip, L: Ledger>(
    alloc: Global,
    snap: &Snapshot,
    who: &Principal,
    start: DirId,
    depth: u32,
    pred: &P,
    skip: &S,
    blank: Blank,
) -> Result<Vec<u8>, Memory>
    requires start { start.0 < length snap.now.tree }
    requires listed { lists_at snap.now.tree who.now (path_at snap.now.tree start.0) ≡ true }
    requires query { (row : Row) (depth : ℕ) → P.sat pred.now row depth ≡ true → S.query skip.now row depth ≡ true }
    requires name { blank.name ≡ L.name }
    requires parts { blank.parts ≡ L.parts }
    requires one { 0 < blank.parts }
    ensures { IfOk result (λ text. text.items ≡ usage_lines depth (P.sat pred.now) (path_at snap.now.tree start.0) (answer snap.now.tree who.now (path_at snap.now.tree start.0) (λ _ _. true))) }
{
    let tree = snap.tree();
    let above = tree.path(start).depth() as u32;
    let mut tester = pred.tester(alloc)?;
    let mut found = Vec::new(alloc);
    let mut steps = Steps::<L>::new(blank);
    find_near(
        alloc,
        snap,
        who,
        start,
        depth,
        &mut tester,
        skip,
        above,
        &mut found,
        &mut steps,
    )?;
    sort_by_place(&mut found);
    lines_of(alloc, tree, found.as_slice())
}

/// A line for each directory that the principal lists at most so many levels below the start: what the rows take up that he lists at
/// and below it and that meet the question, whose depths are counted from the start; or the refusal of the start.
///
/// One look at each row: a directory as deep as lines go is walked as `answer_alone` does. Memory for the lines, and for no row.
pub fn usage_text<P: Pred, S: Skip>(
    alloc: Global,
    snap: &Snapshot,
    who: &Principal,
    start: &Path,
    depth: u32,
    pred: &P,
    skip: &S,
) -> Result<Vec<u8>, Refusal>
    requires query { (row : Row) (depth : ℕ) → P.sat pred.now row depth ≡ true → S.query skip.now row depth ≡ true }
    ensures text { IfOk result (λ text. text.items ≡ usage_lines depth (P.sat pred.now) start.now (answer snap.now.tree who.now start.now (λ _ _. true))) }
    ensures found { OnOk result (refusal_of (resolve snap.now.tree who.now start.now) ≡ None) }
    ensures refusal { IfErr result (λ refusal. refusal ≢ Refusal.Memory → refusal_of (resolve snap.now.tree who.now start.now) ≡ Some refusal) }
{
    let id = found_start(snap, who, start)?;
    Ok(lines_from::<P, S, Brand>(alloc, snap, who, id, depth, pred, skip, Blank::new(1))?)
}
