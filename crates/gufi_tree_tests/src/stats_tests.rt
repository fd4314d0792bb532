//! The four reports over six rows, by number and by name, worked by hand.
ghost use Rattle.std.specs.Prelude.{◌≡◌, length, IfOk};
ghost use Rattle.gufi_base.specs.Rows.{row_cmp};
ghost use Rattle.gufi_base.specs.Basics.{ascends};

use crate::lines::{guard, meta, row_of};
use gufi_base::{Kind, Meta, Path, Row, path_cmp};
use gufi_stats::{Report, stats_text};
use gufi_users::{Users, read_group, read_passwd};
use std::alloc::Global;
use std::cmp::Ordering;
use std::process::Abort;
use std::test::Fail;

const LEVELS: &[u8] = b"level 0 dirs 1 files 0 links 0 others 0 bytes 0
level 1 dirs 2 files 0 links 1 others 0 bytes 0
level 2 dirs 0 files 1 links 0 others 1 bytes 7
";

const UIDS: &[u8] = b"uid 101 dirs 1 files 0 links 0 others 1 bytes 0
uid 102 dirs 1 files 1 links 0 others 0 bytes 7
uid 103 dirs 1 files 0 links 1 others 0 bytes 0
";

const GIDS: &[u8] = b"gid 100 dirs 1 files 0 links 1 others 0 bytes 0
gid 200 dirs 2 files 1 links 0 others 0 bytes 7
gid 300 dirs 0 files 0 links 0 others 1 bytes 0
";

// 101 has the name 103, and 103 has none.
const PASSWD: &[u8] = b"bob:x:102:200:::\n103:x:101:100:::\n";

const GROUP: &[u8] = b"lab:x:200:bob\nzoo:x:100:\n";

const NAMED_UIDS: &[u8] = b"uid 103 dirs 1 files 0 links 0 others 1 bytes 0
uid bob dirs 1 files 1 links 0 others 0 bytes 7
uid 103 dirs 1 files 0 links 1 others 0 bytes 0
";

const NAMED_GIDS: &[u8] = b"gid zoo dirs 1 files 0 links 1 others 0 bytes 0
gid lab dirs 2 files 1 links 0 others 0 bytes 7
gid 300 dirs 0 files 0 links 0 others 1 bytes 0
";

fn users(alloc: Global) -> Result<Users, Fail> {
    let passwd = read_passwd(alloc, PASSWD)?;
    let groups = read_group(alloc, GROUP)?;
    Ok(Users::of(alloc, passwd, groups)?)
}

// A row whose file has 7 bytes.
fn row(alloc: Global, path: &[u8], kind: Kind, uid: u32, gid: u32) -> Result<Row, Fail> {
    let size = 7;
    let meta = Meta {
        size,
        ..meta(kind, guard(uid, gid, 0o755))
    };
    row_of(alloc, path, meta)
}

fn six_rows(alloc: Global) -> Result<Vec<Row>, Fail>
    ensures { IfOk result (λ rows. length rows.items ≡ 6) }
{
    let mut rows = Vec::new(alloc);
    for (path, kind, uid, gid) in [
        (b"/p".as_slice(), Kind::Dir, 103, 200),
        (b"/p/a", Kind::Dir, 102, 100),
        (b"/p/a/x", Kind::File, 102, 200),
        (b"/p/b", Kind::Link, 103, 100),
        (b"/p/c", Kind::Dir, 101, 200),
        (b"/p/c/s", Kind::Socket, 101, 300),
    ] {
        rows.push(row(alloc, path, kind, uid, gid)?)?;
    }
    if rows.len() != 6 {
        return Err(Fail::new("there are not six rows"));
    }
    Ok(rows)
}

// Reports ask for rows in path order.
fn are_in_order(rows: &[Row]) -> bool
    ensures { result ≡ ascends row_cmp rows.now }
{
    let [first, rest @ ..] = rows else {
        return true;
    };
    let [second, ..] = rest else {
        return true;
    };
    path_cmp(&first.path, &second.path) == Ordering::Less && are_in_order(rest)
}

/// Asserts the four reports of six rows below `/p`: those of owners and groups are given.
fn assert_reports<R: AllocGlobal + Abort>(
    rt: &R,
    rows: &[Row],
    names: Option<&Users>,
    uids: &'static [u8],
    gids: &'static [u8],
) -> Result<(), Fail>
    requires { length rows.now ≡ 6 }
{
    let start = Path::read(rt.alloc(), b"/p")?;
    assert!(rt; are_in_order(rows));
    for (report, by_hand) in [
        (Report::Levels, LEVELS),
        (Report::Uids, uids),
        (Report::Gids, gids),
        (Report::Leaves, b"/p/a\n/p/c\n".as_slice()),
    ] {
        let text = stats_text(rt.alloc(), rows, &start, report, names)?;
        assert_eq!(rt; text.as_slice(), by_hand);
    }
    Ok(())
}

#[test]
fn rows_are_counted_and_leaves_are_named(rt: HostRuntime) -> Result<(), Fail> {
    let rows = six_rows(rt.alloc())?;
    assert_reports(&rt, rows.as_slice(), None, UIDS, GIDS)
}

fn assert_named<R: AllocGlobal + Abort>(rt: &R, rows: &[Row]) -> Result<(), Fail>
    requires { length rows.now ≡ 6 }
{
    let users = users(rt.alloc())?;
    assert_reports(rt, rows, Some(&users), NAMED_UIDS, NAMED_GIDS)
}

#[test]
fn owners_and_groups_are_named_in_the_order_of_numbers(rt: HostRuntime) -> Result<(), Fail> {
    let rows = six_rows(rt.alloc())?;
    assert_named(&rt, rows.as_slice())
}
