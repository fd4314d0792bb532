//! Runs with two walkers, whose gate holds a task until all others have begun.
use crate::runs::{Input, Ran, check, run};
use gufi_io::{Gate, GateKind};
use std::alloc::{AllocError, Global};
use std::process::Abort;
use std::sync::Wait;
use std::sync::atomic::{AtomicBool, AtomicU64, Ordering};
use std::test::Fail;
use std::thread::{Threads, yield_now};

// How often one looks whether the others have begun.
const TURNS: u32 = 10_000_000;

// A root and eighty directories, more than one task takes.
const DIRS: u64 = 81;

// The root and its first directory are taken by the thread that asks. The second one is the first that is dealt to a walker.
const HELD: u32 = 2;

// Holds a task until all others have begun: the walker that takes it takes none of these, so the other one has to, and those that
// were dealt to the first it has to steal.
#[derive(Drop)]
struct Holding {
    tasks: AtomicU64,
    // The sum of the tasks' numbers.
    numbers: AtomicU64,
    met: AtomicBool,
}

impl Holding {
    fn new() -> Holding {
        Holding {
            tasks: AtomicU64::new(0),
            numbers: AtomicU64::new(0),
            met: AtomicBool::new(false),
        }
    }

    fn hold(&self) {
        for _ in 0..TURNS {
            if self.tasks.load(Ordering::SeqCst) == DIRS {
                self.met.store(true, Ordering::SeqCst);
                return;
            }
            yield_now();
        }
    }
}

impl Gate for Holding {
    fn begin(&self, kind: GateKind, number: u32) {
        if kind != GateKind::Task {
            return;
        }
        self.tasks.fetch_add(1, Ordering::SeqCst);
        self.numbers.fetch_add(u64::from(number), Ordering::SeqCst);
        if number == HELD {
            self.hold();
        }
    }
}

// The trace of these directories.
fn trace(alloc: Global) -> Result<Vec<u8>, AllocError> {
    let mut text = b"/r|d|1|493|2|101|100|4096|4096|8|10|20|30|\n".to_vec(alloc)?;
    for name in 10..90u32 {
        let line = format!(in alloc; "/r/{name}|d|1|493|2|101|100|4096|4096|8|10|20|30|\n")?;
        text.extend_from_slice(line.as_bytes())?;
    }
    Ok(text)
}

// A head and the paths of these directories.
fn paths_behind(alloc: Global, head: &[u8]) -> Result<Vec<u8>, AllocError> {
    let mut text = head.to_vec(alloc)?;
    text.extend_from_slice(b"/\n")?;
    for name in 10..90u32 {
        text.extend_from_slice(format!(in alloc; "/{name}\n")?.as_bytes())?;
    }
    Ok(text)
}

const SCRIPT: &[u8] = b"publish 0 t\nbarrier\nask 1 102 / find\n";

// Runs the words over a trace and a script that asks for it.
fn run_over<R: AllocGlobal + Abort + Threads + Wait + Sync>(
    rt: &R,
    gate: &Holding,
    words: &'static [&'static str],
    trace: &[u8],
) -> Result<Ran, AllocError> {
    let input = Input {
        words,
        files: &[("t", trace), ("s", SCRIPT)],
        bad_writes: &[],
    };
    run(rt, gate, &input)
}

// Runs the words, and checks that each directory was a task, and that the one that was held met all others.
fn check_shared<R: AllocGlobal + Abort + Threads + Wait + Sync>(
    rt: &R,
    words: &'static [&'static str],
    head: &[u8],
    numbers: &[u64],
) -> Result<(), AllocError> {
    let trace = trace(rt.alloc())?;
    let text = paths_behind(rt.alloc(), head)?;
    let gate = Holding::new();
    let ran = run_over(rt, &gate, words, trace.as_slice())?;
    check(rt, &ran, 0, text.as_slice(), b"", numbers);
    assert!(rt; gate.met.load(Ordering::SeqCst));
    assert_eq!(rt; gate.tasks.load(Ordering::SeqCst), DIRS);
    assert_eq!(rt; gate.numbers.load(Ordering::SeqCst), DIRS * (DIRS - 1) / 2);
    Ok(())
}

const FIND: &[&str] = &["find", "--delim=|", "--workers=2", "t", "102", "/"];

const SESSION: &[&str] = &["session", "--delim=|", "--workers=2", "s"];

#[test]
fn two_walkers_share_what_a_command_and_an_ask_walk(rt: HostRuntime) -> Result<(), Fail> {
    check_shared(&rt, FIND, b"", &[])?;
    let head = b"publish 1 number 1\nreply 1 at 1 rows 81\n";
    check_shared(&rt, SESSION, head, &[1])?;
    Ok(())
}
