//! One thread's answer: down from the start, by subdirectories that may be listed, a piece at a time.

ghost use Rattle.std.specs.Prelude.{◌≡◌, ◌≢◌, ℕ, ◌+◌, ◌-◌, ◌<◌, ◌≤◌, ◌^◌, true, List, [], ◌∷◌, ◌++◌, length, filter, reverse, Option, Some, None, IfOk, OnOk, IfErr, All};
ghost use Rattle.std.specs.List.{flat_map};
ghost use Rattle.gufi_base.specs.declared.record.Row.{Row};
ghost use Rattle.gufi_access.specs.Access.{can_list};
ghost use Rattle.gufi_tree.specs.Places.{path_at};
ghost use Rattle.gufi_tree.specs.Resolve.{resolve};
ghost use Rattle.gufi_tree.specs.Tree.{HasTreeShape};
ghost use Rattle.gufi_sums.specs.Depths.{goes_below};
ghost use Rattle.gufi_sums.specs.Total.{IsTotal, total};
ghost use Rattle.gufi_snap.specs.Pieces.{front, piece, tree_sum};
ghost use Rattle.gufi_walk.specs.Answer.{answer, refusal_of};
ghost use Rattle.gufi_walk.specs.Walk.{lists_at, open_ids, kid_ids, next_ids, lies_within, no_deeper, not_passed, front_met, sees_all, is_ruled_out, meets, shown_piece};

use crate::refusal::Refusal;
use crate::shown::Shown;
use crate::start::found_start;
use gufi_access::{Principal, lists};
use gufi_base::{Memory, Path, Pred, Steps, Tester, Yield};
use gufi_io::{Gate, GateKind, NoGate};
use gufi_snap::Snapshot;
use gufi_sums::{Skip, Summary};
use gufi_tree::{DirId, Tree};
use std::alloc::{AllocError, Global};
use std::sync::ledger::Ledger;

/// Whether a directory may be listed, apart from those above it.
pub(crate) fn may_be_listed(snap: &Snapshot, who: &Principal, id: DirId) -> bool
    requires { id.0 < length snap.now.tree }
    ensures { result ≡ lists_at snap.now.tree who.now (path_at snap.now.tree id.0) }
{
    lists(who, &snap.tree().guard(id))
}

pub(crate) fn list_of(alloc: Global, id: DirId) -> Result<Vec<DirId>, AllocError>
    ensures { IfOk result (λ list. list.items ≡ id ∷ []) }
{
    let mut list = Vec::new(alloc);
    list.push(id)?;
    Ok(list)
}

/// Puts the directories that may be listed on the list, the last one first.
fn push_open(
    todo: &mut Vec<DirId>,
    snap: &Snapshot,
    who: &Principal,
    ids: &[DirId],
) -> Result<(), AllocError>
    requires { All (λ id. id.0 < length snap.now.tree) ids.now }
    ensures { OnOk result (todo.new.items ≡ todo.old.items ++ reverse (filter (λ id. lists_at snap.now.tree who.now (path_at snap.now.tree id.0)) ids.now)) }
{
    for id in ids.iter().rev() {
        if may_be_listed(snap, who, *id) {
            todo.push(*id)?;
        }
    }
    Ok(())
}

/// Puts the directories where a walk goes on from a directory on the list, the last one first.
pub(crate) fn push_kids(
    todo: &mut Vec<DirId>,
    snap: &Snapshot,
    who: &Principal,
    id: DirId,
) -> Result<(), AllocError>
    requires { id.0 < length snap.now.tree }
    ensures { OnOk result (todo.new.items ≡ todo.old.items ++ reverse (kid_ids snap.now.tree who.now (path_at snap.now.tree id.0) snap.now.limit)) }
{
    if snap.rolled(id) {
        return Ok(());
    }
    push_open(todo, snap, who, snap.tree().subdirs(id))
}

/// The sum of a piece. Where sums are kept it looks at no row.
pub(crate) fn sum_of_piece(snap: &Snapshot, id: DirId) -> Summary
    requires { id.0 < length snap.now.tree }
    ensures { IsTotal result (piece snap.now.tree (path_at snap.now.tree id.0) snap.now.limit) }
{
    let is_whole = snap.rolled(id);
    if is_whole {
        snap.tree_sum(id)
    } else {
        snap.dir_sum(id)
    }
}

/// Whether the test passes over a piece.
///
/// Where no sum is to be asked it looks at none: the piece has the directory's own row, so its sum counts a directory.
fn passes_piece<S: Skip>(snap: &Snapshot, id: DirId, skip: &S) -> bool
    requires { id.0 < length snap.now.tree }
    ensures { result ≡ S.skips skip.now (total (piece snap.now.tree (path_at snap.now.tree id.0) snap.now.limit)) }
{
    // The tree's shape tells that the own row is a directory's.
    let _tree = snap.tree();
    if !skip.asks_sums() {
        return false;
    }
    skip.none_match(&sum_of_piece(snap, id))
}

/// Adds the rows of a piece as they are shown, those that meet the question so, unless its sum shows that there are none. It
/// answers whether the piece was so passed over.
pub(crate) fn visit<T: Tester, Y: Yield, S: Skip, G: Gate, L: Ledger>(
    alloc: Global,
    snap: &Snapshot,
    who: &Principal,
    id: DirId,
    tester: &mut T,
    skip: &S,
    above: u32,
    gate: &G,
    out: &mut Y,
    steps: &mut Steps<L>,
) -> Result<bool, Memory>
    requires id { id.0 < length snap.now.tree }
    requires above { above ≤ length (path_at snap.now.tree id.0) }
    requires room { Y.count out.old + length (piece snap.now.tree (path_at snap.now.tree id.0) snap.now.limit) < 2 ^ 40 }
    requires rows { (rows : List Row) × Y.stands_for out.old rows }
    requires query { (row : Row) (depth : ℕ) → T.meets tester.old row depth ≡ true → S.query skip.now row depth ≡ true }
    ensures rows { OnOk result ((rows : List Row) → Y.stands_for out.old rows →
        Y.stands_for out.new (rows ++ filter (meets (T.meets tester.old) above) (shown_piece snap.now.tree who.now snap.now.limit (path_at snap.now.tree id.0)))) }
    ensures same { T.meets tester.new ≡ T.meets tester.old }
    ensures passed { IfOk result (λ passed. passed ≡ S.skips skip.now (total (piece snap.now.tree (path_at snap.now.tree id.0) snap.now.limit))) }
    ensures exact { steps.new ≡ steps.old + length (not_passed (S.skips skip.now) snap.now.tree snap.now.limit (path_at snap.now.tree id.0 ∷ [])) }
{
    if passes_piece(snap, id, skip) {
        return Ok(true);
    }
    gate.begin(GateKind::Store, id.0);
    snap.scan_piece(alloc, id, tester, &Shown { who }, above, out, steps)?;
    Ok(false)
}

/// Whether a principal may list every directory: only then may he be answered by sums of all that lies below one.
pub(crate) fn sees_all(who: &Principal) -> bool
    ensures { result ≡ sees_all who.now }
{
    who.uid == 0
}

/// Whether all that is at and below a directory is ruled out, where it is known whether its piece is passed over.
///
/// It looks at a sum only where the piece is passed over: else not all of it is. Where the principal may not list all that a sum
/// counts it looks at none, so that no row that he can't list decides where he walks.
fn rules_out_below<S: Skip>(
    snap: &Snapshot,
    who: &Principal,
    id: DirId,
    skip: &S,
    passed: bool,
) -> bool
    requires id { id.0 < length snap.now.tree }
    requires passed { passed ≡ S.skips skip.now (total (piece snap.now.tree (path_at snap.now.tree id.0) snap.now.limit)) }
    ensures { result ≡ is_ruled_out (S.skips skip.now) snap.now.tree who.now (path_at snap.now.tree id.0) }
{
    if !sees_all(who) {
        return false;
    }
    passed && skip.none_match(&snap.tree_sum(id))
}

/// How many components the path of a directory has: no more than there are directories before it.
pub(crate) fn depth_of(tree: &Tree, id: DirId) -> u32
    requires within { id.0 < length tree.now }
    requires shape { HasTreeShape tree.now }
    ensures { result ≡ length (path_at tree.now id.0) }
{
    tree.path(id).depth() as u32
}

/// Whether a row as deep as a directory may meet the query, as far as depths tell.
pub(crate) fn lies_within<S: Skip>(snap: &Snapshot, id: DirId, skip: &S, above: u32) -> bool
    requires id { id.0 < length snap.now.tree }
    requires above { above ≤ length (path_at snap.now.tree id.0) }
    ensures { result ≡ lies_within (S.deepest skip.now) above (path_at snap.now.tree id.0) }
{
    match skip.deepest() {
        Some(deepest) => depth_of(snap.tree(), id) - above <= deepest,
        None => true,
    }
}

/// Whether a row one level below a directory may.
pub(crate) fn goes_below<S: Skip>(snap: &Snapshot, id: DirId, skip: &S, above: u32) -> bool
    requires id { id.0 < length snap.now.tree }
    requires above { above ≤ length (path_at snap.now.tree id.0) }
    ensures { result ≡ goes_below (S.deepest skip.now) (length (path_at snap.now.tree id.0) - above) }
{
    match skip.deepest() {
        Some(deepest) => depth_of(snap.tree(), id) - above < deepest,
        None => true,
    }
}

/// Puts the directories where a walk goes on on the list, the last one first, but none that lies too deep for a row that meets
/// the query, and none below a directory that is ruled out.
fn push_next<S: Skip>(
    todo: &mut Vec<DirId>,
    snap: &Snapshot,
    who: &Principal,
    id: DirId,
    skip: &S,
    above: u32,
    passed: bool,
) -> Result<(), AllocError>
    requires id { id.0 < length snap.now.tree }
    requires above { above ≤ length (path_at snap.now.tree id.0) }
    requires passed { passed ≡ S.skips skip.now (total (piece snap.now.tree (path_at snap.now.tree id.0) snap.now.limit)) }
    ensures { OnOk result (todo.new.items ≡ todo.old.items ++ reverse (next_ids (S.skips skip.now) (S.deepest skip.now) above snap.now.tree who.now (path_at snap.now.tree id.0) snap.now.limit)) }
{
    if goes_below(snap, id, skip, above) && !rules_out_below(snap, who, id, skip, passed) {
        push_kids(todo, snap, who, id)?;
    }
    Ok(())
}

/// Tells the gate of a directory that is taken as a task, but for the first, of which whoever gave that one has told.
fn tell<G: Gate>(gate: &G, id: DirId, first: DirId) {
    if id != first {
        gate.begin(GateKind::Task, id.0);
    }
}

/// Adds the rows of the pieces at and below a directory as they are shown, those that meet the question so, where depths are counted
/// from `above` components on. It takes the directories in path order, but none that lies too deep for a row that meets the query, and
/// none below a directory that is ruled out. Cost: as `answer_alone`.
pub fn add_rows_below<T: Tester, Y: Yield, S: Skip, G: Gate, L: Ledger>(
    alloc: Global,
    snap: &Snapshot,
    who: &Principal,
    start: DirId,
    tester: &mut T,
    skip: &S,
    above: u32,
    gate: &G,
    out: &mut Y,
    steps: &mut Steps<L>,
) -> Result<(), Memory>
    requires start { start.0 < length snap.now.tree }
    requires listed { lists_at snap.now.tree who.now (path_at snap.now.tree start.0) ≡ true }
    requires room { Y.count out.old + length (flat_map (λ path. piece snap.now.tree path snap.now.limit) (front snap.now.tree who.now (path_at snap.now.tree start.0) snap.now.limit)) < 2 ^ 40 }
    requires rows { (rows : List Row) × Y.stands_for out.old rows }
    requires above { above ≤ length (path_at snap.now.tree start.0) }
    requires query { (row : Row) (depth : ℕ) → T.meets tester.old row depth ≡ true → S.query skip.now row depth ≡ true }
    requires within { lies_within (S.deepest skip.now) above (path_at snap.now.tree start.0) ≡ true }
    ensures rows { OnOk result ((rows : List Row) → Y.stands_for out.old rows → Y.stands_for out.new (rows ++ filter (meets (T.meets tester.old) above)
        (flat_map (shown_piece snap.now.tree who.now snap.now.limit) (front snap.now.tree who.now (path_at snap.now.tree start.0) snap.now.limit)))) }
    ensures same { OnOk result (T.meets tester.new ≡ T.meets tester.old) }
    ensures at_most { steps.new ≤ steps.old + length (not_passed (S.skips skip.now) snap.now.tree snap.now.limit
        (no_deeper (S.deepest skip.now) above (front snap.now.tree who.now (path_at snap.now.tree start.0) snap.now.limit))) }
    ensures exact { OnOk result (steps.new ≡ steps.old + length (not_passed (S.skips skip.now) snap.now.tree snap.now.limit
        (no_deeper (S.deepest skip.now) above (front snap.now.tree who.now (path_at snap.now.tree start.0) snap.now.limit)))) }
{
    // The tree's shape tells that the walk ends.
    let _tree = snap.tree();
    let mut todo = list_of(alloc, start)?;
    while let Some(id) = todo.pop() {
        tell(gate, id, start);
        let passed = visit(alloc, snap, who, id, tester, skip, above, gate, out, steps)?;
        push_next(&mut todo, snap, who, id, skip, above, passed)?;
    }
    Ok(())
}

/// The rows that the principal lists from a directory on and that meet the question.
fn answer_from<P: Pred, Y: Yield, S: Skip, L: Ledger>(
    alloc: Global,
    snap: &Snapshot,
    who: &Principal,
    start: DirId,
    pred: &P,
    skip: &S,
    steps: &mut Steps<L>,
) -> Result<Y, Memory>
    requires start { start.0 < length snap.now.tree }
    requires listed { lists_at snap.now.tree who.now (path_at snap.now.tree start.0) ≡ true }
    requires query { (row : Row) (depth : ℕ) → P.sat pred.now row depth ≡ true → S.query skip.now row depth ≡ true }
    ensures rows { IfOk result (λ y. Y.stands_for y (answer snap.now.tree who.now (path_at snap.now.tree start.0) (P.sat pred.now))) }
    ensures at_most { steps.new ≤ steps.old + length (front_met (S.skips skip.now) (S.deepest skip.now) snap.now.tree who.now (path_at snap.now.tree start.0) snap.now.limit) }
    ensures exact { OnOk result (steps.new ≡ steps.old + length (front_met (S.skips skip.now) (S.deepest skip.now) snap.now.tree who.now (path_at snap.now.tree start.0) snap.now.limit)) }
{
    let above = depth_of(snap.tree(), start);
    let mut tester = pred.tester(alloc)?;
    let mut rows = Y::none(alloc)?;
    add_rows_below(
        alloc,
        snap,
        who,
        start,
        &mut tester,
        skip,
        above,
        &NoGate,
        &mut rows,
        steps,
    )?;
    Ok(rows)
}

/// The rows that the principal gets who walks from the start and that meet the question, or the refusal of the start.
///
/// It takes the directories in path order. Cost: one step for each piece of the front whose directory lies no deeper than a row
/// that meets the query may and whose sum isn't passed over. For uid 0 nothing is looked at below a directory whose rows, all in
/// all, are passed over, and of such a directory two sums at most; for others no sum of what they may be denied is looked at. Where
/// no sum is to be asked none is. A start that is refused costs no step.
pub fn answer_alone<P: Pred, Y: Yield, S: Skip, L: Ledger>(
    alloc: Global,
    snap: &Snapshot,
    who: &Principal,
    start: &Path,
    pred: &P,
    skip: &S,
    steps: &mut Steps<L>,
) -> Result<Y, Refusal>
    requires query { (row : Row) (depth : ℕ) → P.sat pred.now row depth ≡ true → S.query skip.now row depth ≡ true }
    ensures rows { IfOk result (λ y. Y.stands_for y (answer snap.now.tree who.now start.now (P.sat pred.now))) }
    ensures found { OnOk result (refusal_of (resolve snap.now.tree who.now start.now) ≡ None) }
    ensures refusal { IfErr result (λ refusal. refusal ≢ Refusal.Memory → refusal_of (resolve snap.now.tree who.now start.now) ≡ Some refusal) }
    ensures refused { IfErr result (λ refusal. refusal ≢ Refusal.Memory → steps.new ≡ steps.old) }
    ensures at_most { steps.new ≤ steps.old + length (front_met (S.skips skip.now) (S.deepest skip.now) snap.now.tree who.now start.now snap.now.limit) }
    ensures exact { OnOk result (steps.new ≡ steps.old + length (front_met (S.skips skip.now) (S.deepest skip.now) snap.now.tree who.now start.now snap.now.limit)) }
{
    let id = found_start(snap, who, start)?;
    Ok(answer_from(alloc, snap, who, id, pred, skip, steps)?)
}
