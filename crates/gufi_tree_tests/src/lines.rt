//! Records, lines, trees, snapshots and principals that the tests of trees share.
use gufi_access::{GroupList, Guard, Principal};
use gufi_base::{Bytes, Kind, Line, Meta, Path, Rec, Row};
use gufi_snap::Snapshot;
use gufi_tree::{Tree, build};
use std::alloc::Global;
use std::test::Fail;

/// A guard without an access control list.
pub(crate) fn guard(uid: u32, gid: u32, mode: u16) -> Guard<'static> {
    Guard {
        uid,
        gid,
        mode,
        acl: b"",
    }
}

/// A record of five bytes under a guard.
pub(crate) fn meta(kind: Kind, guard: Guard<'_>) -> Meta {
    Meta {
        kind,
        inode: 1,
        mode: guard.mode,
        nlink: 1,
        uid: guard.uid,
        gid: guard.gid,
        size: 5,
        blksize: 4096,
        blocks: 8,
        atime: 10,
        mtime: 20,
        ctime: 30,
    }
}

/// A row with a record, no target, no names of extended attributes and no access control list.
pub(crate) fn row_of(alloc: Global, path: &[u8], meta: Meta) -> Result<Row, Fail> {
    let link = Bytes::of(Vec::new(alloc));
    let xattrs = Bytes::of(Vec::new(alloc));
    let acl = Bytes::of(Vec::new(alloc));
    let path = Path::read(alloc, path)?;
    let rec = Rec {
        meta,
        link,
        xattrs,
        acl,
    };
    Ok(Row { path, rec })
}

/// A line of a trace with a record and no target.
pub(crate) fn line_of(alloc: Global, number: u32, path: &[u8], meta: Meta) -> Result<Line, Fail> {
    let Row { path, rec } = row_of(alloc, path, meta)?;
    Ok(Line { number, path, rec })
}

/// A line whose owner is 101 and whose group is 100.
pub(crate) fn line(
    alloc: Global,
    number: u32,
    path: &[u8],
    kind: Kind,
    mode: u16,
) -> Result<Line, Fail> {
    line_of(alloc, number, path, meta(kind, guard(101, 100, mode)))
}

/// The tree of a few lines.
pub(crate) fn grown(alloc: Global, lines: Vec<Line>) -> Result<Tree, Fail> {
    if lines.len() > 9 {
        return Err(Fail::new("there are more than nine lines"));
    }
    Ok(build(alloc, lines)?)
}

/// The tree of a few rows, each a path, its kind and its mode.
pub(crate) fn tree_of(alloc: Global, rows: &[(&[u8], Kind, u16)]) -> Result<Tree, Fail> {
    let mut lines = Vec::new(alloc);
    for (path, kind, mode) in rows {
        lines.push(line(alloc, 1, path, *kind, *mode)?)?;
    }
    grown(alloc, lines)
}

/// A snapshot of these rows in which nothing is rolled up.
pub(crate) fn snapshot_of(alloc: Global, rows: &[(&[u8], Kind, u16)]) -> Result<Snapshot, Fail> {
    let tree = tree_of(alloc, rows)?;
    Ok(Snapshot::build_uncounted(alloc, tree, 0)?)
}

/// A principal without groups.
pub(crate) fn principal(alloc: Global, uid: u32) -> Principal {
    let groups = GroupList::of(Vec::new(alloc));
    Principal { uid, groups }
}
