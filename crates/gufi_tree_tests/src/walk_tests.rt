use crate::lines::{principal, snapshot_of};
use gufi_access::Class;
use gufi_base::{Always, Kind, Path};
use gufi_io::NoGate;
use gufi_snap::Snapshot;
use gufi_sums::NoSkip;
use gufi_walk::{
    Refusal, Walkers, answer_lines, answer_rows, answer_sum, answer_total, put_refusal,
};
use std::alloc::Global;
use std::process::Abort;
use std::sync::Wait;
use std::test::Fail;
use std::thread::Threads;

/// What a walk answers: directories and files, lines and rows, and the text of the lines.
#[derive(Drop)]
struct Found {
    sums: (u64, u64),
    rows: (usize, usize),
    text: Vec<u8>,
}

fn walked<R: Threads + Wait + Sync>(
    alloc: Global,
    walkers: &Walkers<'_, R, NoGate>,
    snap: &Snapshot,
    uid: u32,
    start: &Path,
) -> Result<Found, Fail> {
    let who = principal(alloc, uid);
    let sum = answer_sum(walkers, alloc, snap, &who, start, &Always, &NoSkip)?;
    let lines = answer_lines(walkers, alloc, snap, &who, start, &Always, &NoSkip)?;
    let rows = answer_rows(walkers, alloc, snap, &who, start, &Always, &NoSkip)?;
    Ok(Found {
        sums: (sum.dirs, sum.files),
        rows: (lines.count, rows.len()),
        text: lines.text,
    })
}

/// The directories and files of a total.
fn totalled(alloc: Global, snap: &Snapshot, uid: u32, start: &Path) -> Result<(u64, u64), Fail> {
    let sum = answer_total(alloc, snap, &principal(alloc, uid), start)?;
    Ok((sum.dirs, sum.files))
}

fn seven_rows(alloc: Global) -> Result<Snapshot, Fail> {
    snapshot_of(
        alloc,
        &[
            (b"/".as_slice(), Kind::Dir, 0o755),
            (b"/a", Kind::Dir, 0o700),
            (b"/a/x", Kind::File, 0o644),
            (b"/p", Kind::Dir, 0o711),
            (b"/p/q", Kind::Dir, 0o755),
            (b"/p/q/y", Kind::File, 0o644),
            (b"/z", Kind::File, 0o600),
        ],
    )
}

/// Asserts what a walk of a snapshot answers to users, and what it and the same snapshot rolled up have in total.
fn assert_walked<R: AllocGlobal + Threads + Wait + Sync + Abort>(
    rt: &R,
    snap: &Snapshot,
    rolled: &Snapshot,
) -> Result<(), Fail> {
    let alloc = rt.alloc();
    let all = b"/\n/a\n/a/x\n/p\n/p/q\n/p/q/y\n/z\n".as_slice();
    let rows = [
        (0u32, b"/".as_slice(), 4u64, 3u64, 7usize, all),
        (101, b"/", 4, 3, 7, all),
        (102, b"/", 1, 1, 2, b"/\n/z\n"),
        (102, b"/p/q", 1, 1, 2, b"/p/q\n/p/q/y\n"),
    ];
    let walkers = Walkers::of(rt, &NoGate, 1);
    for (uid, start, dirs, files, count, text) in rows {
        let start = Path::read(alloc, start)?;
        let reply = walked(alloc, &walkers, snap, uid, &start)?;
        assert_eq!(rt; reply.sums, (dirs, files));
        assert_eq!(rt; reply.rows, (count, count));
        assert_eq!(rt; reply.text.as_slice(), text);
        for snap in [snap, rolled] {
            assert_eq!(rt; totalled(alloc, snap, uid, &start)?, (dirs, files));
        }
    }
    Ok(())
}

fn assert_walked_and_rolled<R: AllocGlobal + Threads + Wait + Sync + Abort>(
    rt: &R,
    snap: &Snapshot,
) -> Result<(), Fail> {
    let rolled = snap.with_limit(rt.alloc(), 2)?;
    assert_walked(rt, snap, &rolled)
}

#[test]
fn rows_come_from_listed_directories(rt: HostRuntime) -> Result<(), Fail> {
    let snap = seven_rows(rt.alloc())?;
    assert_walked_and_rolled(&rt, &snap)
}

fn three_rows(alloc: Global) -> Result<Snapshot, Fail> {
    snapshot_of(
        alloc,
        &[
            (b"/".as_slice(), Kind::Dir, 0o755),
            (b"/p", Kind::Dir, 0o711),
            (b"/p/y", Kind::File, 0o644),
        ],
    )
}

/// The refusals of a walk and of a total.
fn refused<R: Threads + Wait + Sync>(
    alloc: Global,
    walkers: &Walkers<'_, R, NoGate>,
    snap: &Snapshot,
    start: &[u8],
) -> Result<(Option<Refusal>, Option<Refusal>), Fail> {
    let who = principal(alloc, 102);
    let start = Path::read(alloc, start)?;
    let sum = answer_sum(walkers, alloc, snap, &who, &start, &Always, &NoSkip);
    let total = answer_total(alloc, snap, &who, &start);
    Ok((sum.err(), total.err()))
}

fn words_of(alloc: Global, refusal: Refusal) -> Result<Vec<u8>, Fail> {
    let mut text = Vec::new(alloc);
    put_refusal(&mut text, refusal)?;
    Ok(text)
}

fn assert_refused<R: AllocGlobal + Threads + Wait + Sync + Abort>(
    rt: &R,
    snap: &Snapshot,
) -> Result<(), Fail> {
    let alloc = rt.alloc();
    let class = Class::Other;
    let rows = [
        (
            b"/p".as_slice(),
            Refusal::Denied { depth: 1, class },
            b"denied at depth 1 class other".as_slice(),
        ),
        (
            b"/p/zz",
            Refusal::NoSuch { depth: 2 },
            b"no such at depth 2",
        ),
        (
            b"/p/y",
            Refusal::NotDir { depth: 2 },
            b"not a directory at depth 2",
        ),
    ];
    let walkers = Walkers::of(rt, &NoGate, 4);
    for (start, refusal, words) in rows {
        let found = refused(alloc, &walkers, snap, start)?;
        assert_eq!(rt; found, (Some(refusal), Some(refusal)));
        assert_eq!(rt; words_of(alloc, refusal)?.as_slice(), words);
    }
    Ok(())
}

#[test]
fn a_start_is_refused_as_it_resolves(rt: HostRuntime) -> Result<(), Fail> {
    let snap = three_rows(rt.alloc())?;
    assert_refused(&rt, &snap)
}
