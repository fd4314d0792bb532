//! Texts written by hand.
use gufi_base::{Line, Row};
use gufi_list::{ls_text, stat_text, total_text};
use gufi_sums::Summary;
use gufi_trace::read_trace;
use gufi_users::{Users, read_group, read_passwd};
use std::alloc::Global;
use std::test::Fail;

const STAT: &[u8] = b"path /
type d mode 0755 links 3 uid 101 gid 100
size 4096 blksize 4096 blocks 8 inode 1
atime 10 mtime 20 ctime 30
dirs 2 files 1 links 0 others 0 bytes 7 size 7 7 mtime 20 22 uid 101 102 gid 100 200
";

/// The row of a trace's last line.
fn last_row(alloc: Global, trace: &[u8]) -> Result<Row, Fail> {
    let mut lines = read_trace(alloc, b'|', trace)?.into_lines(alloc)?;
    let Line { path, rec, .. } = lines.pop().ok_or("no line")?;
    Ok(Row { path, rec })
}

/// What stat prints of a row.
fn stat_of(alloc: Global, row: &Row) -> Result<Vec<u8>, Fail> {
    let sum = Summary {
        dirs: 2,
        files: 1,
        links: 0,
        others: 0,
        bytes: 7,
        size: Some((7, 7)),
        mtime: Some((20, 22)),
        uid: Some((101, 102)),
        gid: Some((100, 200)),
    };
    let path = row.path.as_path_ref();
    Ok(stat_text(alloc, &path, &row.rec.as_rec_ref(), &sum)?)
}

fn stat_of_root(alloc: Global) -> Result<Vec<u8>, Fail> {
    let row = last_row(alloc, b"/|d|1|493|3|101|100|4096|4096|8|10|20|30|\n")?;
    stat_of(alloc, &row)
}

#[test]
fn a_directory_is_printed(rt: HostRuntime) -> Result<(), Fail> {
    assert_eq!(rt; stat_of_root(rt.alloc())?.as_slice(), STAT);
    Ok(())
}

#[test]
fn no_rows_are_printed(rt: HostRuntime) -> Result<(), Fail> {
    let text = total_text(rt.alloc(), &Summary::empty())?;
    let by_hand =
        b"dirs 0 files 0 links 0 others 0 bytes 0 size - - mtime - - uid - - gid - -".as_slice();
    assert_eq!(rt; text.as_slice(), by_hand);
    Ok(())
}

const PASSWD: &[u8] = b"ana:x:1001:1001:Ana:/home/ana:/bin/sh\n";

const GROUP: &[u8] = b"ana:x:1001:\nlab:x:500:ana,bob\n";

const LISTED: &[u8] = b"drwx------ 2 ana ana 4096 1700000000 ana
drwxrws--- 2 0 lab 4096 1700000000 proj
";

const ANA: &[u8] = b"/|d|1|493|4|0|0|4096|4096|8|10|20|30|
/ana|d|2|448|2|1001|1001|4096|4096|8|1700000000|1700000000|1700000000|
";

const PROJ: &[u8] = b"/|d|1|493|4|0|0|4096|4096|8|10|20|30|
/proj|d|2|1528|2|0|500|4096|4096|8|1700000000|1700000000|1700000000|
";

fn example(alloc: Global) -> Result<Users, Fail> {
    let passwd = read_passwd(alloc, PASSWD)?;
    let groups = read_group(alloc, GROUP)?;
    Ok(Users::of(alloc, passwd, groups)?)
}

fn two_rows(alloc: Global) -> Result<Vec<Row>, Fail> {
    let mut rows = Vec::new(alloc);
    rows.push(last_row(alloc, ANA)?)?;
    rows.push(last_row(alloc, PROJ)?)?;
    Ok(rows)
}

fn listed_with(alloc: Global, users: &Users) -> Result<Vec<u8>, Fail> {
    let rows = two_rows(alloc)?;
    Ok(ls_text(alloc, &rows, users, true, false)?)
}

fn listed(alloc: Global) -> Result<Vec<u8>, Fail> {
    let users = example(alloc)?;
    listed_with(alloc, &users)
}

#[test]
fn directories_are_listed(rt: HostRuntime) -> Result<(), Fail> {
    assert_eq!(rt; listed(rt.alloc())?.as_slice(), LISTED);
    Ok(())
}
