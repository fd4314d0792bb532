ghost use Rattle.std.specs.Prelude.{◌≡◌, length, IfOk, IsTrue};
ghost use Rattle.gufi_core.specs.Interleavings.{are_shapes};

use gufi_base::{Items, Nums};
use gufi_core::{Core, CoreFault, Event, Shape, WorkerState, run_events};
use std::alloc::Global;
use std::test::Fail;

/// One shape of tree 5, whose first task 0 brings forth task 1.
fn shapes(alloc: Global) -> Result<Vec<Shape>, Fail>
    ensures one { IfOk result (λ shapes. length shapes.items ≡ 1) }
    ensures sound { IfOk result (λ shapes. IsTrue (are_shapes shapes.items)) }
{
    let none = Nums::of(Vec::new(alloc));
    let kids = vec![in alloc; Nums::of(vec![in alloc; 1]?), none]?;
    let shape = Shape {
        tree: 5,
        first: Nums::of(vec![in alloc; 0]?),
        kids: Items::of(kids),
    };
    Ok(vec![in alloc; shape]?)
}

const PUBLISH: Event = Event::Publish { tree: 5 };

const PIN: Event = Event::Pin { caller: 0 };

const BEGIN: Event = Event::Begin {
    caller: 0,
    shape: 0,
    workers: 1,
};

const TAKE: Event = Event::Take { job: 0, worker: 0 };

const PUSH: Event = Event::Push { job: 0, worker: 0 };

const END: Event = Event::End { job: 0, worker: 0 };

fn worker(core: &Core, place: usize) -> Option<&WorkerState> {
    core.jobs.as_slice().first()?.workers.as_slice().get(place)
}

#[test]
fn a_worker_takes_a_task_and_then_its_kid(rt: HostRuntime) -> Result<(), Fail> {
    let alloc = rt.alloc();
    let shapes = shapes(alloc)?;
    let events = [PUBLISH, PIN, BEGIN, TAKE, PUSH, TAKE, END];
    let core = run_events(alloc, 1, &shapes, &events)?;
    let Some(worker) = worker(&core, 0) else {
        return Err(Fail::new("no such worker"));
    };
    assert!(rt; worker.taken.as_slice() == [0u32, 1].as_slice());
    assert!(rt; worker.ended);
    assert!(rt; core.published.as_slice() == [5u32].as_slice());
    assert!(rt; core.seen.as_slice() == [1u64].as_slice());
    Ok(())
}

#[test]
fn before_its_end_the_worker_runs_with_an_empty_deque(rt: HostRuntime) -> Result<(), Fail> {
    let alloc = rt.alloc();
    let shapes = shapes(alloc)?;
    let events = [PUBLISH, PIN, BEGIN, TAKE, PUSH, TAKE];
    let core = run_events(alloc, 1, &shapes, &events)?;
    let Some(worker) = worker(&core, 0) else {
        return Err(Fail::new("no such worker"));
    };
    assert!(rt; !worker.ended);
    assert!(rt; worker.deque.as_slice().is_empty());
    Ok(())
}

#[test]
fn an_end_with_a_kid_to_push_is_illegal_at_its_place(rt: HostRuntime) -> Result<(), Fail> {
    let alloc = rt.alloc();
    let shapes = shapes(alloc)?;
    let events = [PUBLISH, PIN, BEGIN, TAKE, END, TAKE, END];
    let fault = run_events(alloc, 1, &shapes, &events).err();
    assert!(rt; fault == Some(CoreFault::Illegal { at: 4 }));
    Ok(())
}

#[test]
fn two_workers_steal_from_each_other(rt: HostRuntime) -> Result<(), Fail> {
    let alloc = rt.alloc();
    let shapes = shapes(alloc)?;
    let begin = Event::Begin {
        caller: 0,
        shape: 0,
        workers: 2,
    };
    let steal = Event::Steal {
        job: 0,
        thief: 1,
        victim: 0,
    };
    let push = Event::Push { job: 0, worker: 1 };
    let steal_back = Event::Steal {
        job: 0,
        thief: 0,
        victim: 1,
    };
    let events = [
        PUBLISH,
        PIN,
        begin,
        steal,
        push,
        steal_back,
        END,
        Event::End { job: 0, worker: 1 },
    ];
    let core = run_events(alloc, 1, &shapes, &events)?;
    let (Some(first), Some(second)) = (worker(&core, 0), worker(&core, 1)) else {
        return Err(Fail::new("no such worker"));
    };
    assert!(rt; first.taken.as_slice() == [1u32].as_slice());
    assert!(rt; second.taken.as_slice() == [0u32].as_slice());
    Ok(())
}
