//! A worker at work: it takes tasks from its own deque and steals from the others, runs them and pushes their kids.

ghost use Rattle.std.specs.Prelude.{map, length, ◌+◌, ◌≡◌, ◌<◌, ◌∷◌, [], All, Contains, OnOk, MatchOption, IfSome, IfNone, IfOk, ◌++◌};
ghost use Rattle.crossbeam_deque.specs.Handles.{stealer_deque, worker_deque, worker_view};
ghost use Rattle.gufi_pool.specs.Accounts.{account, Settled, Weight, whole};
ghost use Rattle.gufi_pool.specs.Jobs.{IsClosed};
ghost use Rattle.gufi_pool.specs.Members.{pushed_one, took_one, route_view, route_frame, routes_taken, HasShare, HasPiece, IsReady, Took, Ran, Worked, IsSettled};

use crate::job::Job;
use crate::member::{Member, Route};
use crate::rule::{GivenTasks, Owner, Pushed, Stolen, Taken};
use crossbeam_deque::Steal;
use gufi_base::Memory;
use gufi_io::{Gate, GateKind};
use std::alloc::Global;
use std::sync::Wait;

/// How often a worker whose own deque is empty tries each other one.
const TRIES: u32 = 4;

/// A push that is refused is want of memory.
pub(crate) fn push<T: GivenTasks>(own: &mut Owner<T>, task: u32) -> Result<(), Memory>
    requires share { 0 < (worker_view own.old).share }
    requires given { Contains T.given task }
    ensures same { OnOk result (worker_deque own.new ≡ worker_deque own.old) }
    ensures pushed { OnOk result (worker_view own.new ≡ pushed_one (worker_view own.old) task) }
{
    own.push_as::<Pushed>(task).map_err(|_| Memory)
}

/// The task that has waited longest in the worker's own deque.
fn pop<T: GivenTasks>(own: &mut Owner<T>) -> Option<u32>
    requires { 0 < (worker_view own.old).share }
    ensures same { worker_deque own.new ≡ worker_deque own.old }
    ensures given { IfSome result (λ task. Contains T.given task) }
    ensures taken { MatchOption result (worker_view own.new ≡ worker_view own.old) (λ task. worker_view own.new ≡ took_one (worker_view own.old) task) }
    ensures empty { IfNone result ((worker_view own.old).share ≡ whole → Settled (worker_view own.old)) }
{
    own.pop_as::<Taken<T>>()
}

impl<T: GivenTasks> Route<T> {
    /// The task that has waited longest in the deque to which the route leads.
    fn steal(&mut self) -> Option<u32>
        requires { 0 < (route_view self.old).share }
        ensures same { route_frame self.new ≡ route_frame self.old }
        ensures given { IfSome result (λ task. Contains T.given task) }
        ensures taken { MatchOption result (route_view self.new ≡ route_view self.old) (λ task. route_view self.new ≡ took_one (route_view self.old) task) }
    {
        for _ in 0..TRIES {
            if let Steal::Success(task) = self.thief.steal_as::<Stolen<T>>(&mut self.pass) {
                return Some(task);
            }
        }
        None
    }
}

/// Steals from the deque k, where it isn't the worker's own.
fn steal_at<T: GivenTasks>(routes: &mut Vec<Route<T>>, k: usize, own: usize) -> Option<u32>
    requires at { k < length routes.old.items }
    requires shares { All HasShare routes.old.items }
    ensures same { map route_frame routes.new.items ≡ map route_frame routes.old.items }
    ensures given { IfSome result (λ task. Contains T.given task) }
    ensures taken { MatchOption result ((h : Weight) → routes_taken h routes.new.items ≡ routes_taken h routes.old.items) (λ task. (h : Weight) → routes_taken h routes.new.items ≡ routes_taken h routes.old.items + h task) }
{
    if k == own {
        return None;
    }
    routes[k].steal()
}

/// Steals from the first deque that gives a task.
fn steal_any<T: GivenTasks>(routes: &mut Vec<Route<T>>, own: usize) -> Option<u32>
    requires { All HasShare routes.old.items }
    ensures same { map route_frame routes.new.items ≡ map route_frame routes.old.items }
    ensures given { IfSome result (λ task. Contains T.given task) }
    ensures taken { MatchOption result ((h : Weight) → routes_taken h routes.new.items ≡ routes_taken h routes.old.items) (λ task. (h : Weight) → routes_taken h routes.new.items ≡ routes_taken h routes.old.items + h task) }
{
    for k in 0..routes.len() {
        if let Some(task) = steal_at(routes, k, own) {
            return Some(task);
        }
    }
    None
}

impl<T: GivenTasks, P> Member<T, P> {
    /// A task of the worker's own deque, or else one that it steals. It gives up only where its own deque is empty at last.
    fn next_task(&mut self) -> Option<u32>
        requires { IsReady self.old }
        ensures given { IfSome result (λ task. Contains T.given task) }
        ensures took { MatchOption result (Took self.old self.new []) (λ task. Took self.old self.new (task ∷ [])) }
        ensures empty { IfNone result (IsSettled self.new) }
    {
        if let Some(task) = pop(&mut self.own) {
            return Some(task);
        }
        if let Some(task) = steal_any(&mut self.routes, self.number) {
            return Some(task);
        }
        pop(&mut self.own)
    }
}

/// Pushes tasks in their order.
fn push_all<T: GivenTasks>(own: &mut Owner<T>, tasks: &[u32]) -> Result<(), Memory>
    requires share { 0 < (worker_view own.old).share }
    requires given { All (Contains T.given) tasks.now }
    ensures same { OnOk result (worker_deque own.new ≡ worker_deque own.old) }
    ensures pushed { OnOk result (worker_view own.new ≡ account (worker_view own.old).share ((worker_view own.old).pushed ++ tasks.now) (worker_view own.old).taken) }
{
    for task in tasks {
        push(own, *task)?;
    }
    Ok(())
}

/// Runs a task that was taken, and pushes its kids.
fn run_task<T: GivenTasks, J: Job, G: Gate + Sync>(
    alloc: Global,
    job: &J,
    gate: &G,
    member: &mut Member<T, J::Piece>,
    task: u32,
) -> Result<(), Memory>
    requires ready { IsReady member.old }
    requires stood { HasPiece (J.stands job.now) member.old }
    requires given { Contains T.given task }
    requires job { J.given job.now ≡ T.given }
    requires closed { IsClosed T.given (J.kids_of job.now) }
    ensures { OnOk result (Ran (J.kids_of job.now) (J.stands job.now) member.old member.new task) }
{
    gate.begin(GateKind::Task, task);
    let mut kids = Vec::new(alloc);
    job.run(alloc, gate, task, &mut member.piece, &mut kids)?;
    push_all(&mut member.own, &kids)
}

/// Takes and runs tasks until it finds none.
pub(crate) fn work<R: Wait, T: GivenTasks, J: Job, G: Gate + Sync>(
    rt: &R,
    alloc: Global,
    job: &J,
    gate: &G,
    mut member: Member<T, J::Piece>,
) -> Result<Member<T, J::Piece>, Memory>
    requires ready { IsReady member }
    requires stood { HasPiece (J.stands job.now) member }
    requires job { J.given job.now ≡ T.given }
    requires closed { IsClosed T.given (J.kids_of job.now) }
    ensures worked { IfOk result (λ c. Worked T.given (J.kids_of job.now) (J.stands job.now) member c) }
    ensures settled { IfOk result IsSettled }
{
    for _ in rt.forever() {
        let Some(task) = member.next_task() else {
            break;
        };
        run_task(alloc, job, gate, &mut member, task)?;
    }
    Ok(member)
}
