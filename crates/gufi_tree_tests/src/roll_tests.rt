use crate::lines::{grown, guard, line_of, meta};
use gufi_access::Guard;
use gufi_base::{Kind, Line};
use gufi_roll::{RollReport, roll, roll_report};
use gufi_tree::Tree;
use std::alloc::Global;
use std::process::Abort;
use std::test::Fail;

fn line(alloc: Global, path: &[u8], kind: Kind, uid: u32, mode: u16) -> Result<Line, Fail> {
    guarded(alloc, path, kind, guard(uid, 100, mode))
}

fn guarded(alloc: Global, path: &[u8], kind: Kind, guard: Guard<'_>) -> Result<Line, Fail> {
    line_of(alloc, 1, path, meta(kind, guard))
}

fn tree(alloc: Global, rows: &[(&[u8], Kind, u32, u16)]) -> Result<Tree, Fail> {
    let mut lines = Vec::new(alloc);
    for (path, kind, uid, mode) in rows {
        lines.push(line(alloc, path, *kind, *uid, *mode)?)?;
    }
    grown(alloc, lines)
}

/// A tree with a directory that its owner alone may list.
fn closed(alloc: Global) -> Result<Tree, Fail> {
    tree(
        alloc,
        &[
            (b"/".as_slice(), Kind::Dir, 101, 0o755),
            (b"/a", Kind::Dir, 101, 0o755),
            (b"/a/f", Kind::File, 101, 0o644),
            (b"/b", Kind::Dir, 101, 0o700),
            (b"/b/c", Kind::Dir, 102, 0o755),
        ],
    )
}

/// Asserts which directories of that tree are rolled up at each limit.
fn assert_flags<R: AllocGlobal + Abort>(rt: &R, tree: &Tree) -> Result<(), Fail> {
    let alloc = rt.alloc();
    for (limit, flags) in [
        (0, [false, false, false, false]),
        (1, [false, false, false, true]),
        (2, [false, true, true, true]),
        (9, [false, true, true, true]),
    ] {
        let rolled = roll(alloc, tree, limit)?;
        assert_eq!(rt; rolled.as_slice(), flags.as_slice());
    }
    let wanted = RollReport {
        dirs: 4,
        rolled: 3,
        tops: 2,
        rows: 4,
    };
    assert_eq!(rt; report(alloc, tree, 2)?, wanted);
    Ok(())
}

#[test]
fn a_limit_and_a_closed_directory_keep_directories_apart(rt: HostRuntime) -> Result<(), Fail> {
    let tree = closed(rt.alloc())?;
    assert_flags(&rt, &tree)
}

fn report(alloc: Global, tree: &Tree, limit: u64) -> Result<RollReport, Fail> {
    let flags = roll(alloc, tree, limit)?;
    Ok(roll_report(tree, flags.as_slice()))
}

/// A tree with a directory whose owner alone is kept out.
fn denied(alloc: Global) -> Result<Tree, Fail> {
    let guard = guard(102, 200, 0o055);
    let mut lines = Vec::new(alloc);
    lines.push(line(alloc, b"/", Kind::Dir, 101, 0o755)?)?;
    lines.push(guarded(alloc, b"/c", Kind::Dir, guard)?)?;
    lines.push(guarded(alloc, b"/c/x", Kind::File, guard)?)?;
    grown(alloc, lines)
}

/// A tree of directories that all may list.
fn open(alloc: Global) -> Result<Tree, Fail> {
    tree(
        alloc,
        &[
            (b"/".as_slice(), Kind::Dir, 101, 0o755),
            (b"/a", Kind::Dir, 101, 0o755),
            (b"/a/b", Kind::Dir, 101, 0o755),
        ],
    )
}

/// Asserts the report of a tree at each limit.
fn assert_reports<R: AllocGlobal + Abort>(
    rt: &R,
    tree: &Tree,
    reports: &[(u64, RollReport)],
) -> Result<(), Fail> {
    for (limit, wanted) in reports {
        assert_eq!(rt; report(rt.alloc(), tree, *limit)?, *wanted);
    }
    Ok(())
}

fn counted(dirs: u32, rolled: u32, tops: u32, rows: u64) -> RollReport {
    RollReport {
        dirs,
        rolled,
        tops,
        rows,
    }
}

fn assert_denied<R: AllocGlobal + Abort>(rt: &R) -> Result<(), Fail> {
    let tree = denied(rt.alloc())?;
    assert_reports(rt, &tree, &[(100, counted(2, 1, 1, 2))])
}

fn assert_open<R: AllocGlobal + Abort>(rt: &R) -> Result<(), Fail> {
    let tree = open(rt.alloc())?;
    let reports = [
        (100, counted(3, 3, 1, 3)),
        (2, counted(3, 2, 1, 2)),
        (0, counted(3, 0, 0, 0)),
    ];
    assert_reports(rt, &tree, &reports)
}

#[test]
fn what_is_rolled_up_is_counted(rt: HostRuntime) -> Result<(), Fail> {
    assert_denied(&rt)?;
    assert_open(&rt)
}
