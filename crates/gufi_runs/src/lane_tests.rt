//! Runs of sessions whose asks stand in lanes: the schedule chooses the numbers of three of them, or a gate counts the tasks.
use crate::runs::{A, Counting, Input, Ran, X, check, run};
use gufi_io::{Gate, NoGate};
use std::alloc::{AllocError, Global};
use std::process::Abort;
use std::sync::Wait;
use std::test::Fail;
use std::thread::Threads;

// Four asks of one directory each, of which the last comes behind a second publication. Each is a task.
const FOUR_ASKS: &[u8] = b"publish 100 a
barrier
ask 1 102 / find
ask 1 102 / find
ask 1 102 / find
publish 100 x
barrier
ask 1 102 / find
";

// The bytes of the longest text of these, in which each ask sees the second publication.
const LONGEST: u32 = 138;

// Runs a script with an option.
fn session<R: AllocGlobal + Abort + Threads + Wait + Sync, G: Gate + Sync>(
    rt: &R,
    gate: &G,
    option: &'static str,
    script: &[u8],
    bad_writes: &[u64],
) -> Result<Ran, AllocError> {
    let input = Input {
        words: &["session", "--delim=|", option, "s"],
        files: &[("s", script), ("a", A), ("x", X)],
        bad_writes,
    };
    run(rt, gate, &input)
}

fn put_reply(text: &mut Vec<u8>, place: usize, number: u64) -> Result<(), AllocError> {
    text.extend_from_slice(match place {
        0 => b"reply 1".as_slice(),
        1 => b"reply 2".as_slice(),
        2 => b"reply 3".as_slice(),
        _ => b"reply 4".as_slice(),
    })?;
    text.extend_from_slice(if number == 1 {
        b" at 1 rows 1\n/\n".as_slice()
    } else {
        b" at 2 rows 2\n/\n/x\n".as_slice()
    })
}

// The text of the phases whose asks have these numbers.
fn text_of(alloc: Global, numbers: &[u64]) -> Result<Vec<u8>, AllocError> {
    let mut text = b"publish 1 number 1\n".to_vec(alloc)?;
    for (place, number) in numbers.iter().enumerate() {
        put_reply(&mut text, place, *number)?;
        if place == 2 {
            text.extend_from_slice(b"publish 2 number 2\n")?;
        }
    }
    Ok(text)
}

// The numbers are those of whole phases, each is one that was published, and they never fall.
fn fit(numbers: &[u64]) -> bool {
    match numbers {
        [] => true,
        [first, second, third] => 1 <= *first && first <= second && second <= third && *third <= 2,
        [first, second, third, last] => {
            1 <= *first && first <= second && second <= third && *third <= 2 && *last == 2
        }
        _ => false,
    }
}

fn check_four_replies<R: AllocGlobal + Abort>(
    rt: &R,
    ran: &Ran,
    note: &[u8],
) -> Result<(), AllocError> {
    let numbers = ran.numbers.as_slice();
    assert!(rt; fit(numbers) && numbers.len() == 4);
    let text = text_of(rt.alloc(), numbers)?;
    check(rt, ran, 0, text.as_slice(), note, numbers);
    Ok(())
}

fn check_four_asks<R: AllocGlobal + Abort + Threads + Wait + Sync>(
    rt: &R,
    workers: &'static str,
) -> Result<(), AllocError> {
    let gate = Counting::new();
    let ran = session(rt, &gate, workers, FOUR_ASKS, &[])?;
    assert_eq!(rt; gate.tasks(), 4);
    check_four_replies(rt, &ran, b"")
}

#[test]
fn numbers_never_fall(rt: HostRuntime) -> Result<(), Fail> {
    for _ in 0..4u32 {
        for workers in ["--workers=1", "--workers=4", "--workers=32"] {
            check_four_asks(&rt, workers)?;
        }
    }
    Ok(())
}

// The first ask at a number is a task, and each other one a hit.
#[test]
fn a_lane_answers_again_by_what_it_kept(rt: HostRuntime) -> Result<(), Fail> {
    let gate = Counting::new();
    let ran = session(&rt, &gate, "--cache=4", FOUR_ASKS, &[])?;
    let (tasks, note) = if ran.numbers.first() == Some(&1) {
        (2, b"cache hits 2 of 4\n".as_slice())
    } else {
        (1, b"cache hits 3 of 4\n".as_slice())
    };
    assert_eq!(rt; gate.tasks(), tasks);
    check_four_replies(&rt, &ran, note)?;
    Ok(())
}

// Nobody walks for a hit, and no lane and no user has another's.
#[test]
fn hits_are_of_the_lane_and_the_user(rt: HostRuntime) -> Result<(), Fail> {
    let script = b"publish 0 a
barrier
ask 1 102 / find
ask 1 102 / find
ask 1 103 / find
ask 2 102 / find
";
    let gate = Counting::new();
    let ran = session(&rt, &gate, "--cache=4", script, &[])?;
    let text = b"publish 1 number 1
reply 1 at 1 rows 1
/
reply 2 at 1 rows 1
/
reply 3 at 1 rows 1
/
reply 4 at 1 rows 1
/
";
    check(&rt, &ran, 0, text, b"cache hits 1 of 4\n", &[1, 1, 1, 1]);
    assert_eq!(rt; gate.tasks(), 3);
    Ok(())
}

// Each write takes a byte, so where one fails as many bytes were taken as writes came before.
fn check_cut<R: AllocGlobal + Abort>(rt: &R, ran: &Ran, before: usize) -> Result<(), AllocError> {
    let numbers = ran.numbers.as_slice();
    assert!(rt; fit(numbers));
    let text = text_of(rt.alloc(), numbers)?;
    if before < text.len() {
        let (front, _) = text.as_slice().split_at(before);
        check(rt, ran, 4, front, b"gufi: write fault\n", numbers);
    } else {
        assert_eq!(rt; numbers.len(), 4);
        check(rt, ran, 0, text.as_slice(), b"", numbers);
    }
    Ok(())
}

#[test]
fn a_write_of_a_session_fails(rt: HostRuntime) -> Result<(), Fail> {
    for before in 0..=LONGEST {
        let bad_writes = [before as u64 + 1];
        let ran = session(&rt, &NoGate, "--workers=1", FOUR_ASKS, &bad_writes)?;
        check_cut(&rt, &ran, before as usize)?;
    }
    Ok(())
}
