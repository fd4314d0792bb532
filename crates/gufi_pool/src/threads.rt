//! The workers, each in a thread where one can be made.

ghost use Rattle.std.specs.Prelude.{◌≡◌, All, IfOk, map, Ok};
ghost use Rattle.std.specs.List.{AllZip};
ghost use Rattle.gufi_pool.specs.Jobs.{IsClosed};
ghost use Rattle.gufi_pool.specs.Members.{HasPiece, IsReady, Worked};

use crate::job::Job;
use crate::member::Member;
use crate::rule::GivenTasks;
use crate::work::work;
use gufi_base::Memory;
use gufi_io::Gate;
use std::alloc::{AllocError, Global};
use std::sync::Wait;
use std::thread;
use std::thread::Threads;

/// The values, if each is there.
fn all_ok<T: Drop>(alloc: Global, results: Vec<Result<T, Memory>>) -> Result<Vec<T>, Memory>
    ensures { IfOk result (λ v. results.items ≡ map Ok v.items) }
{
    let mut values = Vec::new(alloc);
    for result in results {
        values.push(result?)?;
    }
    Ok(values)
}

/// What each worker answers. One for which no thread can be made works in its turn.
///
/// The last worker works in a new thread while the others are run from here, down to the first, who works in this thread. So the
/// calling thread starts all the others itself, and none waits for another one to be scheduled first.
#[cycle(workers)]
fn run_each<R: Threads + Wait + Sync, T: GivenTasks + Sync, J: Job, G: Gate + Sync>(
    rt: &R,
    alloc: Global,
    job: &J,
    gate: &G,
    mut members: Vec<Member<T, J::Piece>>,
) -> Result<Vec<Result<Member<T, J::Piece>, Memory>>, AllocError>
    requires ready { All IsReady members.items }
    requires stood { All (HasPiece (J.stands job.now)) members.items }
    requires job { J.given job.now ≡ T.given }
    requires closed { IsClosed T.given (J.kids_of job.now) }
    ensures { IfOk result (λ v. AllZip (λ m r. IfOk r (Worked T.given (J.kids_of job.now) (J.stands job.now) m)) members.items v.items) }
{
    let Some(last) = members.pop() else {
        return Ok(Vec::new(alloc));
    };
    if members.is_empty() {
        let mut one = Vec::new(alloc);
        one.push(work(rt, alloc, job, gate, last))?;
        return Ok(one);
    }
    let front = move || -> Result<Member<T, J::Piece>, Memory>
        requires { IsReady last × HasPiece (J.stands job.now) last × (J.given job.now ≡ T.given) × IsClosed T.given (J.kids_of job.now) }
        ensures { IfOk result (Worked T.given (J.kids_of job.entry.now) (J.stands job.entry.now) last) }
    { work(rt, alloc, job, gate, last) };
    let back = move || -> Result<Vec<Result<Member<T, J::Piece>, Memory>>, AllocError>
        requires { All IsReady members.items × All (HasPiece (J.stands job.now)) members.items × (J.given job.now ≡ T.given) × IsClosed T.given (J.kids_of job.now) }
        ensures { IfOk result (λ v. AllZip (λ m r. IfOk r (Worked T.given (J.kids_of job.entry.now) (J.stands job.entry.now) m)) members.items v.items) }
    { run_each(rt, alloc, job, gate, members) };
    let (theirs, ours) = thread::join(rt, front, back);
    let mut all = ours?;
    all.push(theirs)?;
    Ok(all)
}

/// Lets all workers work, until each finds no task.
pub(crate) fn work_all<R: Threads + Wait + Sync, T: GivenTasks + Sync, J: Job, G: Gate + Sync>(
    rt: &R,
    alloc: Global,
    job: &J,
    gate: &G,
    members: Vec<Member<T, J::Piece>>,
) -> Result<Vec<Member<T, J::Piece>>, Memory>
    requires ready { All IsReady members.items }
    requires stood { All (HasPiece (J.stands job.now)) members.items }
    requires job { J.given job.now ≡ T.given }
    requires closed { IsClosed T.given (J.kids_of job.now) }
    ensures { IfOk result (λ v. AllZip (Worked T.given (J.kids_of job.now) (J.stands job.now)) members.items v.items) }
{
    let results = run_each(rt, alloc, job, gate, members)?;
    all_ok(alloc, results)
}
