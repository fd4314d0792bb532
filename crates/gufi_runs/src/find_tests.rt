//! Runs of `find` whose gate counts the tasks of walkers, and the directories whose rows they look at.
use crate::runs::{Counting, Input, check, run};
use std::alloc::AllocError;
use std::process::Abort;
use std::sync::Wait;
use std::test::Fail;
use std::thread::Threads;

// Three directories, each in another.
const D: &[u8] = b"/r|d|1|493|3|101|100|4096|4096|8|10|20|30|
/r/a|d|2|493|3|101|100|4096|4096|8|10|20|30|
/r/a/b|d|3|493|2|101|100|4096|4096|8|10|20|30|
";

// Files of 0, 1, 512 and 513 bytes.
const SIZES: &[u8] = b"/r|d|1|493|2|101|100|4096|4096|8|10|20|30|
/r/a|f|2|420|1|101|100|0|4096|0|10|20|30|
/r/b|f|2|420|1|101|100|1|4096|0|10|20|30|
/r/c|f|2|420|1|101|100|512|4096|0|10|20|30|
/r/d|f|2|420|1|101|100|513|4096|0|10|20|30|
";

// Finds in a trace, and counts.
fn counted<R: AllocGlobal + Abort + Threads + Wait + Sync>(
    rt: &R,
    trace: &'static [u8],
    words: &[&str],
    text: &[u8],
) -> Result<Counting, AllocError> {
    let gate = Counting::new();
    let input = Input {
        words,
        files: &[("t", trace)],
        bad_writes: &[],
    };
    let ran = run(rt, &gate, &input)?;
    check(rt, &ran, 0, text, b"", &[]);
    Ok(gate)
}

// Workers enter a directory by a task of its own unless it is rolled up into one above it.
#[test]
fn each_piece_is_one_task(rt: HostRuntime) -> Result<(), Fail> {
    for (limit, tasks) in [("--limit=100", 1u64), ("--limit=2", 2), ("--limit=0", 3)] {
        let words = ["find", "--delim=|", limit, "--workers=4", "t", "102", "/"];
        let gate = counted(&rt, D, &words, b"/\n/a\n/a/b\n")?;
        assert_eq!(rt; gate.tasks(), tasks);
    }
    Ok(())
}

// Rows of which a sum leaves no room for a match aren't looked at: sums tell the sizes of files alone, so the root's own counts.
#[test]
fn what_sums_rule_out_is_not_looked_at(rt: HostRuntime) -> Result<(), Fail> {
    for (words, text, stores) in [
        (
            [
                "find",
                "--delim=|",
                "t",
                "102",
                "/",
                "-type",
                "f",
                "-size",
                "+2",
            ]
            .as_slice(),
            b"".as_slice(),
            0u64,
        ),
        (
            [
                "find",
                "--delim=|",
                "t",
                "102",
                "/",
                "-type",
                "f",
                "-size",
                "+1",
            ]
            .as_slice(),
            b"/d\n".as_slice(),
            1,
        ),
        (
            ["find", "--delim=|", "t", "102", "/", "-size", "+2"].as_slice(),
            b"/\n".as_slice(),
            1,
        ),
    ] {
        let gate = counted(&rt, SIZES, words, text)?;
        assert_eq!(rt; (gate.tasks(), gate.stores()), (1u64, stores));
    }
    Ok(())
}
