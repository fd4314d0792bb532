//! The answer of many walkers.

ghost use Rattle.std.specs.Prelude.{◌≡◌, ◌≢◌, ℕ, ◌≤◌, ◌<◌, true, None, Some, length, IfOk, OnOk, IfErr};
ghost use Rattle.gufi_base.specs.declared.record.Row.{Row};
ghost use Rattle.gufi_tree.specs.Places.{path_at};
ghost use Rattle.gufi_tree.specs.Resolve.{resolve};
ghost use Rattle.gufi_walk.specs.Answer.{answer, refusal_of};
ghost use Rattle.gufi_walk.specs.Walk.{lists_at};

use crate::chunk::rows_of_pieces;
use crate::descent::depth_of;
use crate::refusal::Refusal;
use crate::start::found_start;
use crate::task::Walk;
use gufi_access::Principal;
use gufi_base::{Memory, Path, Pred, Yield};
use gufi_io::Gate;
use gufi_pool::run_pool;
use gufi_snap::Snapshot;
use gufi_sums::Skip;
use gufi_tree::DirId;
use std::alloc::Global;
use std::marker::PhantomData;
use std::sync::Wait;
use std::thread::Threads;

/// How many tasks a walker is to have, one with another, where the tree has directories enough.
const TASKS: u64 = 32;

/// Of how many directories a task takes all that is at and below it, at least, where there are several walkers.
const LEAST_GRAIN: u64 = 64;

/// Who walks: so many walkers, each in a thread of the runtime where one can be made, and the gate that is told what begins.
#[derive(Drop)]
pub struct Walkers<'a, R, G> {
    pub rt: &'a R,
    pub gate: &'a G,
    pub count: u32,
    ghost few: { (0 < count) × (count ≤ 32) },
}

impl<'a, R, G> Walkers<'a, R, G> {
    /// As many walkers as are asked for, but at least one and at most 32.
    pub fn of(rt: &'a R, gate: &'a G, count: u32) -> Walkers<'a, R, G>
        ensures { (0 < count) × (count ≤ 32) → result.count ≡ count }
    {
        let count = count.max(1).min(32);
        Walkers { rt, gate, count }
    }
}

/// A walk that goes no deeper than this below its start is one task: threads cost more than it does.
const SHALLOW: u32 = 2;

fn is_shallow<S: Skip>(skip: &S) -> bool {
    match skip.deepest() {
        Some(deepest) => deepest <= SHALLOW,
        None => false,
    }
}

/// Of how many directories a task takes all that is at and below it: so many that each walker has some tasks.
fn grain_for<S: Skip>(snap: &Snapshot, start: DirId, skip: &S, workers: u32) -> u64
    requires { start.0 < length snap.now.tree }
{
    if workers <= 1 || is_shallow(skip) {
        return u64::MAX;
    }
    let share = u64::from(snap.tree().dirs_below(start)) / u64::from(workers);
    (share / TASKS).max(LEAST_GRAIN)
}

/// The rows that the principal lists from a directory on and that meet the question.
///
/// One walker takes the whole walk as one task, and so does one of many where no row that lies deep can meet the query.
fn answer_by<
    R: Threads + Wait + Sync,
    P: Pred + Sync,
    Y: Yield + Send + Sync,
    S: Skip + Sync,
    G: Gate + Sync,
>(
    rt: &R,
    alloc: Global,
    snap: &Snapshot,
    who: &Principal,
    start: DirId,
    pred: &P,
    skip: &S,
    workers: u32,
    gate: &G,
) -> Result<Y, Memory>
where
    P::Tester: Send,
    requires start { start.0 < length snap.now.tree }
    requires listed { lists_at snap.now.tree who.now (path_at snap.now.tree start.0) ≡ true }
    requires query { (row : Row) (depth : ℕ) → P.sat pred.now row depth ≡ true → S.query skip.now row depth ≡ true }
    requires workers { (0 < workers) × (workers ≤ 32) }
    ensures { IfOk result (λ y. Y.stands_for y (answer snap.now.tree who.now (path_at snap.now.tree start.0) (P.sat pred.now))) }
{
    let above = depth_of(snap.tree(), start);
    let grain = grain_for(snap, start, skip, workers);
    let collects: PhantomData<Y> = PhantomData;
    let walk = Walk {
        snap,
        who,
        start,
        above,
        pred,
        skip,
        grain,
        settles: workers > 1,
        collects,
    };
    let pieces = run_pool(rt, alloc, &[start.0], workers, &walk, gate)?;
    rows_of_pieces(alloc, pieces)
}

/// The rows that the principal gets who walks from the start and that meet the question, or the refusal of the start.
///
/// Walkers share the directories, each in a thread where one can be made. One walker does all in the thread that calls; so do
/// many where no row can meet the query that lies more than two levels below the start.
/// Cost: as `answer_alone`, shared among the walkers. Several look at sums too, by which they share the directories.
pub fn answer<
    R: Threads + Wait + Sync,
    P: Pred + Sync,
    Y: Yield + Send + Sync,
    S: Skip + Sync,
    G: Gate + Sync,
>(
    rt: &R,
    alloc: Global,
    snap: &Snapshot,
    who: &Principal,
    start: &Path,
    pred: &P,
    skip: &S,
    workers: u32,
    gate: &G,
) -> Result<Y, Refusal>
where
    P::Tester: Send,
    requires query { (row : Row) (depth : ℕ) → P.sat pred.now row depth ≡ true → S.query skip.now row depth ≡ true }
    requires workers { (0 < workers) × (workers ≤ 32) }
    ensures rows { IfOk result (λ y. Y.stands_for y (answer snap.now.tree who.now start.now (P.sat pred.now))) }
    ensures found { OnOk result (refusal_of (resolve snap.now.tree who.now start.now) ≡ None) }
    ensures refusal { IfErr result (λ refusal. refusal ≢ Refusal.Memory → refusal_of (resolve snap.now.tree who.now start.now) ≡ Some refusal) }
{
    let id = found_start(snap, who, start)?;
    Ok(answer_by(rt, alloc, snap, who, id, pred, skip, workers, gate)?)
}
