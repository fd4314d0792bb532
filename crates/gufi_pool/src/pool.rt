//! A job, run by as many workers as are asked for.

ghost use Rattle.std.specs.Prelude.{◌≡◌, ◌<◌, ◌≤◌, ℕ, List, All, Contains, IfOk, length};
ghost use Rattle.std.specs.List.{AllZip};
ghost use Rattle.gufi_pool.specs.Forest.{IsShape, StandForAll};
ghost use Rattle.gufi_pool.specs.Jobs.{IsClosed};
ghost use Rattle.gufi_pool.specs.Members.{IsHome, Finished, HasPiece, HaveRun, HaveRunOn};

use crate::gather::gather;
use crate::job::Job;
use crate::member::Member;
use crate::opening::open;
use crate::rule::GivenTasks;
use crate::start::start;
use crate::threads::work_all;
use crate::work::work;
use gufi_base::Memory;
use gufi_io::Gate;
use std::alloc::Global;
use std::marker::Brand;
use std::sync::Wait;
use std::thread::Threads;

/// How many tasks for each worker are to wait before the threads are started.
const SPREAD: usize = 16;

/// How many tasks are to wait before the threads are started. One worker starts none; as many first tasks as workers are dealt at
/// once.
fn enough_for(first: usize, workers: u32) -> usize {
    if workers == 1 {
        return usize::MAX;
    }
    if first >= workers as usize {
        return 0;
    }
    workers as usize * SPREAD
}

/// A piece for each worker, where no task is left for the others.
fn lone_pieces<J: Job>(
    alloc: Global,
    job: &J,
    workers: u32,
    piece: J::Piece,
) -> Result<Vec<J::Piece>, Memory>
    requires { 0 < workers }
    ensures count { IfOk result (λ pieces. length pieces.items ≡ workers) }
    ensures pieces { IfOk result (λ pieces. (ran : List ℕ) → J.stands job.now piece ran → HaveRun (J.stands job.now) ran pieces.items) }
{
    let mut pieces = Vec::new(alloc);
    pieces.push(piece)?;
    for _number in 1..workers {
        let fresh = job.fresh(alloc)?;
        pieces.push(fresh)?;
    }
    Ok(pieces)
}

/// Runs what is left in a worker's deque, kids included, until a pop finds it empty.
fn finish<R: Wait, T: GivenTasks, J: Job, G: Gate + Sync>(
    rt: &R,
    alloc: Global,
    job: &J,
    gate: &G,
    member: Member<T, J::Piece>,
) -> Result<J::Piece, Memory>
    requires home { IsHome member }
    requires stood { HasPiece (J.stands job.now) member }
    requires job { J.given job.now ≡ T.given }
    requires closed { IsClosed T.given (J.kids_of job.now) }
    ensures { IfOk result (Finished T.given (J.kids_of job.now) (J.stands job.now) member) }
{
    let member = work(rt, alloc, job, gate, member)?;
    Ok(member.into_piece())
}

/// Runs what is left in all deques, one after the other.
fn settle<R: Wait, T: GivenTasks, J: Job, G: Gate + Sync>(
    rt: &R,
    alloc: Global,
    job: &J,
    gate: &G,
    members: Vec<Member<T, J::Piece>>,
) -> Result<Vec<J::Piece>, Memory>
    requires home { All IsHome members.items }
    requires stood { All (HasPiece (J.stands job.now)) members.items }
    requires job { J.given job.now ≡ T.given }
    requires closed { IsClosed T.given (J.kids_of job.now) }
    ensures { IfOk result (λ pieces. AllZip (Finished T.given (J.kids_of job.now) (J.stands job.now)) members.items pieces.items) }
{
    let mut pieces = Vec::new(alloc);
    for member in members {
        let piece = finish(rt, alloc, job, gate, member)?;
        pieces.push(piece)?;
    }
    Ok(pieces)
}

/// Runs the tasks that wait: in threads, and then what these have left in the deques.
fn run_waiting<T: GivenTasks + Sync, R: Threads + Wait + Sync, J: Job, G: Gate + Sync>(
    rt: &R,
    alloc: Global,
    job: &J,
    gate: &G,
    workers: u32,
    waiting: &[u32],
    piece: J::Piece,
) -> Result<Vec<J::Piece>, Memory>
    requires workers { (0 < workers) × (workers ≤ 32) }
    requires job { J.given job.now ≡ T.given }
    requires given { All (Contains T.given) waiting.now }
    requires closed { IsClosed T.given (J.kids_of job.now) }
    requires stood { (ran : List ℕ) × J.stands job.now piece ran }
    ensures count { IfOk result (λ pieces. length pieces.items ≡ workers) }
    ensures ran { IfOk result (λ pieces. (ran : List ℕ) → J.stands job.now piece ran → HaveRunOn T.given (J.kids_of job.now) (J.stands job.now) ran waiting.now pieces.items) }
{
    let members = start::<T, J>(alloc, job, workers, waiting, piece)?;
    let mut members = work_all(rt, alloc, job, gate, members)?;
    gather(alloc, &mut members);
    settle(rt, alloc, job, gate, members)
}

/// Runs a job, the tasks that it may be given being known to the types.
fn run_in<T: GivenTasks + Sync, R: Threads + Wait + Sync, J: Job, G: Gate + Sync>(
    rt: &R,
    alloc: Global,
    first: &[u32],
    workers: u32,
    job: &J,
    gate: &G,
) -> Result<Vec<J::Piece>, Memory>
    requires workers { (0 < workers) × (workers ≤ 32) }
    requires job { J.given job.now ≡ T.given }
    requires shape { IsShape T.given first.now (J.kids_of job.now) }
    ensures count { IfOk result (λ pieces. length pieces.items ≡ workers) }
    ensures once { IfOk result (λ pieces. StandForAll T.given (J.stands job.now) first.now (J.kids_of job.now) pieces.items) }
{
    let enough = enough_for(first.len(), workers);
    let opening = open(rt, alloc, job, gate, first, enough)?;
    let waiting = Vec::from_slice(alloc, opening.waiting())?;
    let piece = opening.into_piece();
    if waiting.is_empty() {
        return lone_pieces(alloc, job, workers, piece);
    }
    run_waiting::<T, R, J, G>(rt, alloc, job, gate, workers, &waiting, piece)
}

/// Runs the first tasks of a job and all that they bring forth, by as many workers, each in a thread where one can be made.
///
/// Each worker gives one piece, in the order of the workers; which tasks a piece stands for, and in which order these ran, is open.
/// A worker takes from its own deque the task that has waited longest, and steals where it has none. The calling thread runs the
/// job alone for one worker, and where there are fewer first tasks than workers until enough tasks wait, and on for as many that
/// bring forth others. The gate is told of each task before it runs.
/// Want of memory, a refused push and a `Memory` of the job are answered alike: then some tasks may have run, and no piece is left.
pub fn run_pool<R: Threads + Wait + Sync, J: Job, G: Gate + Sync>(
    rt: &R,
    alloc: Global,
    first: &[u32],
    workers: u32,
    job: &J,
    gate: &G,
) -> Result<Vec<J::Piece>, Memory>
    requires workers { (0 < workers) × (workers ≤ 32) }
    requires shape { IsShape (J.given job.now) first.now (J.kids_of job.now) }
    ensures count { IfOk result (λ pieces. length pieces.items ≡ workers) }
    ensures once { IfOk result (λ pieces. StandForAll (J.given job.now) (J.stands job.now) first.now (J.kids_of job.now) pieces.items) }
{
    run_in::<Brand, R, J, G>(rt, alloc, first, workers, job, gate)
}
