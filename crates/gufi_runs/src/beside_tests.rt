//! Runs of sessions whose gate holds an ask until the others, or a publishing command, have begun.
use crate::runs::{A, Input, check, run};
use gufi_io::{Gate, GateKind};
use std::alloc::{AllocError, Global};
use std::process::Abort;
use std::sync::Wait;
use std::sync::atomic::{AtomicBool, AtomicU64, Ordering};
use std::test::Fail;
use std::thread::{Threads, yield_now};

// How often one looks whether the other has begun.
const TURNS: u32 = 10_000_000;

// Says whether the other has begun in so many turns.
fn begins(other: &AtomicBool) -> bool {
    for _ in 0..TURNS {
        if other.load(Ordering::SeqCst) {
            return true;
        }
        yield_now();
    }
    false
}

// Runs a script over A, and checks that the asks have one number, and the text that belongs to it.
fn check_session<R: AllocGlobal + Abort + Threads + Wait + Sync, G: Gate + Sync>(
    rt: &R,
    gate: &G,
    script: &[u8],
    wanted: &[(&[u64], &[u8])],
) -> Result<(), Fail> {
    let input = Input {
        words: &["session", "--delim=|", "--workers=1", "s"],
        files: &[("s", script), ("a", A)],
        bad_writes: &[],
    };
    let ran = run(rt, gate, &input)?;
    for (numbers, text) in wanted {
        if ran.numbers.as_slice() == *numbers {
            check(rt, &ran, 0, text, b"", numbers);
            return Ok(());
        }
    }
    assert!(rt; false);
    Ok(())
}

// How many lanes there are at most.
const LANES: u64 = 16;

// Holds each ask until all of them have begun, or one was held in vain.
#[derive(Drop)]
struct BesideAsks {
    begun: AtomicU64,
    one_was_alone: AtomicBool,
}

impl Gate for BesideAsks {
    fn begin(&self, kind: GateKind, _number: u32) {
        if kind != GateKind::Ask {
            return;
        }
        self.begun.fetch_add(1, Ordering::SeqCst);
        for _ in 0..TURNS {
            if self.begun.load(Ordering::SeqCst) == LANES
                || self.one_was_alone.load(Ordering::SeqCst)
            {
                return;
            }
            yield_now();
        }
        self.one_was_alone.store(true, Ordering::SeqCst);
    }
}

// An ask in each lane, behind a publication, and the text that belongs to it.
fn asks_of_lanes(alloc: Global) -> Result<(Vec<u8>, Vec<u8>), AllocError> {
    let mut script = b"publish 0 a\nbarrier\n".to_vec(alloc)?;
    let mut text = b"publish 1 number 1\n".to_vec(alloc)?;
    for lane in 1..=LANES {
        let ask = format!(in alloc; "ask {lane} 102 / find\n")?;
        let reply = format!(in alloc; "reply {lane} at 1 rows 1\n/\n")?;
        script.extend_from_slice(ask.as_bytes())?;
        text.extend_from_slice(reply.as_bytes())?;
    }
    Ok((script, text))
}

#[test]
fn lanes_run_beside_one_another(rt: HostRuntime) -> Result<(), Fail> {
    let gate = BesideAsks {
        begun: AtomicU64::new(0),
        one_was_alone: AtomicBool::new(false),
    };
    let (script, text) = asks_of_lanes(rt.alloc())?;
    let ones = [1u64; 16];
    let wanted = [(ones.as_slice(), text.as_slice())];
    check_session(&rt, &gate, script.as_slice(), &wanted)?;
    assert_eq!(rt; gate.begun.load(Ordering::SeqCst), LANES);
    assert!(rt; !gate.one_was_alone.load(Ordering::SeqCst));
    Ok(())
}

// Holds the second publishing command until the ask has begun, and the ask until the third command has: then the second was carried out.
#[derive(Drop)]
struct BesideCommands {
    ask_began: AtomicBool,
    third_began: AtomicBool,
    one_was_alone: AtomicBool,
}

impl BesideCommands {
    fn wait_for(&self, other: &AtomicBool) {
        if !begins(other) {
            self.one_was_alone.store(true, Ordering::SeqCst);
        }
    }
}

impl Gate for BesideCommands {
    fn begin(&self, kind: GateKind, number: u32) {
        match (kind, number) {
            (GateKind::Ask, _) => {
                self.ask_began.store(true, Ordering::SeqCst);
                self.wait_for(&self.third_began);
            }
            (GateKind::Publish, 2) => self.wait_for(&self.ask_began),
            (GateKind::Publish, 3) => self.third_began.store(true, Ordering::SeqCst),
            _ => {}
        }
    }
}

const AT_TWO: &[u8] = b"publish 1 number 1
publish 2 number 2
publish 3 number 3
reply 1 at 2 rows 1
/
";

const AT_THREE: &[u8] = b"publish 1 number 1
publish 2 number 2
publish 3 number 3
reply 1 at 3 rows 1
/
";

// A body that publishes first, or asks first, leaves one alone. One that pins before the ask begins, or sees nothing of its phase,
// replies at a lesser number.
#[test]
fn a_lane_asks_beside_the_publishing_commands(rt: HostRuntime) -> Result<(), Fail> {
    let gate = BesideCommands {
        ask_began: AtomicBool::new(false),
        third_began: AtomicBool::new(false),
        one_was_alone: AtomicBool::new(false),
    };
    let script = b"publish 0 a\npublish 0 a\npublish 0 a\nask 1 102 / find\n";
    check_session(
        &rt,
        &gate,
        script,
        &[([2].as_slice(), AT_TWO), ([3].as_slice(), AT_THREE)],
    )?;
    assert!(rt; gate.ask_began.load(Ordering::SeqCst));
    assert!(rt; gate.third_began.load(Ordering::SeqCst));
    assert!(rt; !gate.one_was_alone.load(Ordering::SeqCst));
    Ok(())
}
