//! The workers before they work.

ghost use Rattle.std.specs.Prelude.{◌≡◌, ◌+◌, ◌/◌, ◌<◌, ◌≤◌, ℕ, List, All, Contains, IfOk, OnOk, map, length, sum_by};
ghost use Rattle.gufi_pool.specs.Accounts.{Weight};
ghost use Rattle.gufi_pool.specs.Members.{Started, IsNew, HaveRun, but_pushed, member_share, member_pushed, member_piece};

use crate::connect::connect;
use crate::job::Job;
use crate::member::Member;
use crate::rule::{GivenTasks, Owner};
use crate::work::push;
use gufi_base::Memory;
use std::alloc::Global;

/// The slots with which a deque begins.
const SLOTS: usize = 16;

/// A worker without a task.
fn new_member<T: GivenTasks, P: Drop>(
    alloc: Global,
    number: usize,
    piece: P,
) -> Result<Member<T, P>, Memory>
    ensures new { IfOk result IsNew }
    ensures piece { IfOk result (λ member. member.piece ≡ piece) }
{
    let own = Owner::fifo_as(alloc, SLOTS)?;
    let routes = Vec::new(alloc);
    Ok(Member {
        number,
        own,
        routes,
        piece,
    })
}

/// Workers without tasks. The first has the piece, the others have fresh ones.
fn new_members<T: GivenTasks, J: Job>(
    alloc: Global,
    job: &J,
    workers: u32,
    piece: J::Piece,
) -> Result<Vec<Member<T, J::Piece>>, Memory>
    requires { 0 < workers }
    ensures count { IfOk result (λ members. length members.items ≡ workers) }
    ensures new { IfOk result (λ members. All IsNew members.items) }
    ensures pieces { IfOk result (λ members. (ran : List ℕ) → J.stands job.now piece ran → HaveRun (J.stands job.now) ran (map member_piece members.items)) }
{
    let mut members = Vec::new(alloc);
    let first = new_member(alloc, 0, piece)?;
    members.push(first)?;
    for number in 1..workers {
        let fresh = job.fresh(alloc)?;
        let member = new_member(alloc, number as usize, fresh)?;
        members.push(member)?;
    }
    Ok(members)
}

impl<T: GivenTasks, P> Member<T, P> {
    /// Pushes a task to the worker's deque.
    fn give(&mut self, task: u32) -> Result<(), Memory>
        requires given { Contains T.given task }
        requires share { 0 < member_share self.old }
        ensures same { OnOk result (but_pushed self.new ≡ but_pushed self.old) }
        ensures pushed { OnOk result ((h : Weight) → member_pushed h self.new ≡ member_pushed h self.old + h task) }
    {
        push(&mut self.own, task)
    }
}

/// Deals a task to the worker k.
fn deal_one<T: GivenTasks, P>(
    members: &mut Vec<Member<T, P>>,
    k: usize,
    task: u32,
) -> Result<(), Memory>
    requires at { k < length members.old.items }
    requires given { Contains T.given task }
    requires shares { All (λ c. 0 < member_share c) members.old.items }
    ensures same { OnOk result (map but_pushed members.new.items ≡ map but_pushed members.old.items) }
    ensures pushed { OnOk result ((h : Weight) → sum_by (member_pushed h) members.new.items ≡ sum_by (member_pushed h) members.old.items + h task) }
{
    members[k].give(task)
}

/// How many tasks a worker is dealt, where so many are dealt to so many workers.
fn share_of(tasks: usize, workers: usize) -> usize
    requires { 0 < workers }
    ensures some { 0 < result }
    ensures all { (i : ℕ) → i < tasks → i / result < workers }
{
    tasks.saturating_sub(1) / workers + 1
}

/// Deals tasks to the workers: to each as many that follow each other, as far as they reach.
fn deal<T: GivenTasks, P>(members: &mut Vec<Member<T, P>>, tasks: &[u32]) -> Result<(), Memory>
    requires some { 0 < length members.old.items }
    requires given { All (Contains T.given) tasks.now }
    requires shares { All (λ c. 0 < member_share c) members.old.items }
    ensures same { OnOk result (map but_pushed members.new.items ≡ map but_pushed members.old.items) }
    ensures pushed { OnOk result ((h : Weight) → sum_by (member_pushed h) members.new.items ≡ sum_by (member_pushed h) members.old.items + sum_by h tasks.now) }
{
    let share = share_of(tasks.len(), members.len());
    for (i, task) in tasks.iter().enumerate() {
        deal_one(members, i / share, *task)?;
    }
    Ok(())
}

/// Workers to which the tasks that wait are dealt, each with a route to each deque. The first goes on with the piece of the tasks
/// that have run.
pub(crate) fn start<T: GivenTasks, J: Job>(
    alloc: Global,
    job: &J,
    workers: u32,
    waiting: &[u32],
    piece: J::Piece,
) -> Result<Vec<Member<T, J::Piece>>, Memory>
    requires workers { (0 < workers) × (workers ≤ 32) }
    requires given { All (Contains T.given) waiting.now }
    ensures count { IfOk result (λ members. length members.items ≡ workers) }
    ensures started { IfOk result (λ members. Started waiting.now members.items) }
    ensures pieces { IfOk result (λ members. (ran : List ℕ) → J.stands job.now piece ran → HaveRun (J.stands job.now) ran (map member_piece members.items)) }
{
    let mut members = new_members(alloc, job, workers, piece)?;
    deal(&mut members, waiting)?;
    connect(alloc, &mut members)?;
    Ok(members)
}
