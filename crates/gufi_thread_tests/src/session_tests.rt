//! Two sessions worked by hand, from a script to the text that is written.
use gufi_io::{MemShelf, MemSink, NoGate, names_differ};
use gufi_phases::{End, Ended, Stop};
use gufi_plan::{SessionPlan, Setup, plan_session};
use gufi_script::read_script;
use gufi_session::run_session;
use gufi_users::{Users, read_group, read_passwd};
use std::alloc::Global;
use std::process::Abort;
use std::sync::Wait;
use std::test::Fail;
use std::thread::Threads;

/// A directory that its owner may not list, with a file.
const SHUT: &[u8] = b"/r|d|1|493|3|101|100|4096|4096|8|10|20|30|
/r/c|d|2|45|2|102|200|4096|4096|8|10|22|30|
/r/c/x|f|3|420|1|102|200|7|4096|8|10|21|30|
";

/// Its second line has no size.
const DAMAGED: &[u8] = b"/r|d|1|493|2|101|100|4096|4096|8|10|20|30|
/r/x|f|2|420|1|101|100|x|4096|0|10|20|30|
";

fn plan_with(alloc: Global, users: &Users, script: &[u8]) -> Result<SessionPlan, Fail> {
    let script = read_script(alloc, script)?;
    let setup = Setup {
        users,
        now: None,
        delim: b'|',
    };
    Ok(plan_session(alloc, script, &setup)?)
}

fn plan_of(alloc: Global, script: &[u8]) -> Result<SessionPlan, Fail> {
    let users = Users::of(alloc, read_passwd(alloc, b"")?, read_group(alloc, b"")?)?;
    plan_with(alloc, &users, script)
}

/// A shelf of both traces.
fn both_traces<R: AllocGlobal + Abort>(rt: &R) -> Result<MemShelf, Fail> {
    let alloc = rt.alloc();
    let mut files = Vec::new(alloc);
    files.push((String::from_str(alloc, "shut")?, SHUT.to_vec(alloc)?))?;
    files.push((String::from_str(alloc, "damaged")?, DAMAGED.to_vec(alloc)?))?;
    assert!(rt; names_differ(&files));
    Ok(MemShelf::new(files, 64, Vec::new(alloc), Vec::new(alloc)))
}

/// How a plan over a shelf ends.
fn run_plan<R: AllocGlobal + Threads + Wait + Sync>(
    rt: &R,
    script: &[u8],
    shelf: &mut MemShelf,
    out: &mut MemSink,
) -> Result<Ended, Fail> {
    let plan = plan_of(rt.alloc(), script)?;
    Ok(run_session(rt, rt.alloc(), &plan, 1, 0, shelf, out, &NoGate))
}

/// How a session over both traces ends, and what it writes.
fn run<R: AllocGlobal + Threads + Wait + Abort + Sync>(
    rt: &R,
    script: &[u8],
) -> Result<(Ended, Vec<u8>), Fail> {
    let alloc = rt.alloc();
    let mut shelf = both_traces(rt)?;
    let mut out = MemSink::new(vec![in alloc; 0; 1024]?, 100, Vec::new(alloc));
    let ended = run_plan(rt, script, &mut shelf, &mut out)?;
    Ok((ended, out.taken().to_vec(alloc)?))
}

#[test]
fn searches_see_what_was_published_before_their_phase(rt: HostRuntime) -> Result<(), Fail> {
    let script = b"publish 0 shut
rollup 100
barrier
ask 1 103 / find -type f
ask 1 103 / total
ask 2 103 / query SELECT name FROM rows WHERE name REGEXP '^[cx]$'
ask 2 102 /c find
";
    let wanted = b"publish 1 number 1
rollup 2 number 2
reply 1 at 2 rows 1
/c/x
reply 2 at 2 total dirs 2 files 1 links 0 others 0 bytes 7 size 7 7 mtime 20 22 uid 101 102 gid 100 200
reply 3 at 2 rows 2
c
x
reply 4 at 2 denied at depth 1 class owner
";
    let (ended, text) = run(&rt, script)?;
    assert!(rt; matches!(ended.end, End::Done));
    assert_eq!(rt; ended.numbers.as_slice(), [2, 2, 2, 2].as_slice());
    assert_eq!(rt; text.as_slice(), wanted.as_slice());
    Ok(())
}

#[test]
fn ends_before_the_phase_whose_file_is_not_held(rt: HostRuntime) -> Result<(), Fail> {
    let script = b"ask 1 102 / find
barrier
rollup 5
publish 0 shut
publish 0 damaged
barrier
ask 3 102 / find
barrier
publish 0 shut
publish 0 gone
";
    let wanted = b"reply 1 at 0 no index
rollup 1 refused nothing
publish 2 number 1
publish 3 refused 2 BadNumber 8
reply 2 at 1 rows 1
/
";
    let (ended, text) = run(&rt, script)?;
    assert_eq!(rt; ended.numbers.as_slice(), [0, 1].as_slice());
    assert_eq!(rt; text.as_slice(), wanted.as_slice());
    match &ended.end {
        End::Stopped {
            stop: Stop::NoFile { file },
        } => assert_eq!(rt; file.as_str(), "gone"),
        _ => assert!(rt; false),
    }
    Ok(())
}
