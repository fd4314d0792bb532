//! Workers run beside each other and steal, and each task is run, and told to the gate, once.

ghost use Rattle.std.specs.Prelude.{◌≡◌, ◌<◌, ◌≤◌, ◌++◌, OnOk};
ghost use Rattle.gufi_thread_tests.specs.Heaps.{heap_kids};

use gufi_base::Memory;
use gufi_io::{Gate, GateKind};
use gufi_pool::{Job, run_pool};
use std::alloc::Global;
use std::process::Abort;
use std::sync::Wait;
use std::sync::atomic::{AtomicU64, Ordering};
use std::test::Fail;
use std::thread;
use std::thread::Threads;

/// The tasks below `size` are a heap: task k has the kids 2 k + 1 and 2 k + 2 where both lie in it. The task `size` stands alone.
/// A piece is the tasks that it stands for.
#[derive(Drop)]
struct Heap {
    size: u32,
}

impl Job for Heap {
    ghost use Rattle.std.specs.Prelude.{◌≡◌};
    ghost use Rattle.gufi_thread_tests.specs.Heaps.{heap_kids, heap_given};

    type Piece = Vec<u32>;

    ghost given = { λ heap. heap_given heap.size };

    ghost kids_of = { λ heap task. heap_kids heap.size task };

    ghost stands = { λ heap piece ran. piece.items ≡ ran };

    fn fresh(&self, alloc: Global) -> Result<Vec<u32>, Memory> {
        Ok(Vec::new(alloc))
    }

    fn run<G: Gate>(
        &self,
        _alloc: Global,
        _gate: &G,
        task: u32,
        piece: &mut Vec<u32>,
        kids: &mut Vec<u32>,
    ) -> Result<(), Memory> {
        push_kids(self.size, task, kids)?;
        piece.push(task)?;
        Ok(())
    }
}

fn push_kids(size: u32, task: u32, kids: &mut Vec<u32>) -> Result<(), Memory>
    ensures { OnOk result (kids.new.items ≡ kids.old.items ++ heap_kids size task) }
{
    if 2 * task as u64 + 2 < size as u64 {
        kids.push(2 * task + 1)?;
        kids.push(2 * task + 2)?;
    }
    Ok(())
}

/// How often a task that is held looks whether the other one has begun.
const TURNS: u32 = 10_000_000;

/// Counts the tasks that begin, and holds each task that is named first until the one beside it has begun.
#[derive(Drop)]
struct Holding<'a> {
    holds: &'a [(u32, u32)],
    told: AtomicU64,
    /// A bit for each task below 64 that has begun.
    begun: AtomicU64,
    /// How many tasks were held in vain.
    late: AtomicU64,
}

impl<'a> Holding<'a> {
    fn new(holds: &'a [(u32, u32)]) -> Holding<'a> {
        Holding {
            holds,
            told: AtomicU64::new(0),
            begun: AtomicU64::new(0),
            late: AtomicU64::new(0),
        }
    }

    fn has_begun(&self, task: u32) -> bool {
        self.begun.load(Ordering::SeqCst) & 1 << (task % 64) != 0
    }

    fn hold(&self, until: u32) {
        for _ in 0..TURNS {
            if self.has_begun(until) {
                return;
            }
            thread::yield_now();
        }
        self.late.fetch_add(1, Ordering::SeqCst);
    }
}

impl<'a> Gate for Holding<'a> {
    fn begin(&self, _kind: GateKind, number: u32) {
        self.told.fetch_add(1, Ordering::SeqCst);
        if number < 64 {
            self.begun.fetch_or(1 << number, Ordering::SeqCst);
        }
        for (held, until) in self.holds {
            if *held == number {
                self.hold(*until);
            }
        }
    }
}

/// Runs a heap, and shows that there are as many pieces as workers, that these have each task once, and that the gate was told of
/// each task and held none in vain.
fn runs_once<R: Threads + Wait + Sync + Abort>(
    rt: &R,
    alloc: Global,
    size: u32,
    workers: u32,
    holds: &[(u32, u32)],
) -> Result<(), Fail>
    requires some { 0 < size }
    requires workers { (0 < workers) × (workers ≤ 32) }
{
    let heap = Heap { size };
    let first = [0, size];
    let gate = Holding::new(holds);
    let pieces = run_pool(rt, alloc, &first, workers, &heap, &gate)?;
    assert_eq!(rt; pieces.len(), workers as usize);
    let mut ran = Vec::new(alloc);
    for piece in &pieces {
        ran.extend_from_slice(piece)?;
    }
    ran.sort()?;
    assert_eq!(rt; ran.len(), size as usize + 1);
    for (number, task) in ran.iter().enumerate() {
        assert_eq!(rt; *task as usize, number);
    }
    assert_eq!(rt; gate.told.load(Ordering::SeqCst), size as u64 + 1);
    assert_eq!(rt; gate.late.load(Ordering::SeqCst), 0);
    Ok(())
}

#[test]
fn two_workers_run_beside_each_other(rt: HostRuntime) -> Result<(), Fail> {
    runs_once(&rt, rt.alloc(), 1, 2, &[(0, 1)])
}

#[test]
fn a_worker_steals_a_kid_of_another_ones_task(rt: HostRuntime) -> Result<(), Fail> {
    runs_once(&rt, rt.alloc(), 3, 2, &[(3, 1), (1, 2)])
}

#[test]
fn each_task_runs_once_whatever_the_number_of_workers(rt: HostRuntime) -> Result<(), Fail> {
    runs_once(&rt, rt.alloc(), 4095, 1, &[])?;
    runs_once(&rt, rt.alloc(), 4095, 4, &[])?;
    runs_once(&rt, rt.alloc(), 4095, 32, &[])
}
