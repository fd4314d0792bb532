use crate::lines::{guard, meta};
use crate::rows_tests::row_of;
use gufi_base::{Bytes, Kind, Memory, Meta, Path, Rec, Row};
use gufi_page::{Cursor, Page, pack};
use std::alloc::Global;
use std::process::Abort;
use std::test::Fail;

/// The record of a link.
fn link_meta() -> Meta {
    meta(Kind::Link, guard(101, 100, 0o777))
}

fn link_row(
    alloc: Global,
    path: &[u8],
    target: &[u8],
    names: &[u8],
    acl: &[u8],
) -> Result<Row, Fail> {
    let path = Path::read(alloc, path)?;
    let link = Bytes::from_slice(alloc, target)?;
    let xattrs = Bytes::from_slice(alloc, names)?;
    let acl = Bytes::from_slice(alloc, acl)?;
    let meta = link_meta();
    let rec = Rec {
        meta,
        link,
        xattrs,
        acl,
    };
    Ok(Row { path, rec })
}

/// So many rows: of each the stem, the base name, the link, the names of extended attributes and the access control list, with a blank
/// between two.
fn printed(alloc: Global, mut cursor: Cursor<'_>, count: u32) -> Result<Vec<u8>, Memory> {
    let mut text = Vec::new(alloc);
    for _ in 0..count {
        if let Some(row) = cursor.next() {
            text.extend_from_slice(row.stem)?;
            text.push(b' ')?;
            text.extend_from_slice(row.base)?;
            text.push(b' ')?;
            text.extend_from_slice(row.link)?;
            text.push(b' ')?;
            text.extend_from_slice(row.xattrs)?;
            text.push(b' ')?;
            text.extend_from_slice(row.acl)?;
            text.push(b'\n')?;
        }
    }
    Ok(text)
}

/// The longest name that there can be, and the longest target, names of extended attributes and access control list.
const NAME: [u8; 255] = [b'n'; 255];

const TARGET: [u8; 4096] = [b't'; 4096];

const NAMES: [u8; 4096] = [b'x'; 4096];

const LIST: [u8; 216] = [b'r'; 216];

fn longest_rows(alloc: Global) -> Result<Vec<Row>, Fail> {
    let mut rows = Vec::new(alloc);
    rows.push(link_row(alloc, &NAME, b"", b"user.a,user.b", b"")?)?;
    rows.push(link_row(alloc, b"/o", b"", b"", b"rights")?)?;
    rows.push(link_row(alloc, b"/p", &TARGET, &NAMES, &LIST)?)?;
    Ok(rows)
}

/// These rows as they are printed.
fn longest_lines(alloc: Global) -> Result<Vec<u8>, Fail> {
    let mut text = Vec::new(alloc);
    for part in [
        b"/ ".as_slice(),
        &NAME,
        b"  user.a,user.b \n/ o   rights\n/ p ",
        &TARGET,
        b" ",
        &NAMES,
        b" ",
        &LIST,
        b"\n",
    ] {
        text.extend_from_slice(part)?;
    }
    Ok(text)
}

fn longest_page(alloc: Global) -> Result<Page, Fail> {
    let rows = longest_rows(alloc)?;
    Ok(pack(alloc, rows.as_slice())?)
}

/// Asserts that a page has the longest rows.
fn assert_longest<R: AllocGlobal + Abort>(rt: &R, page: &Page) -> Result<(), Fail> {
    let alloc = rt.alloc();
    let text = printed(alloc, page.rows(), page.len())?;
    assert_eq!(rt; text.as_slice(), longest_lines(alloc)?.as_slice());
    let mut cursor = page.rows();
    for _ in 0..3 {
        assert_eq!(rt; cursor.next().map(|row| *row.meta), Some(link_meta()));
    }
    assert!(rt; cursor.next().is_none());
    Ok(())
}

#[test]
fn the_longest_names_and_link_come_back(rt: HostRuntime) -> Result<(), Fail> {
    let page = longest_page(rt.alloc())?;
    assert_longest(&rt, &page)
}

/// Adds the row of a path.
fn push_path(alloc: Global, page: &mut Page, path: &[u8]) -> Result<(), Fail> {
    let path = Path::read(alloc, path)?;
    page.push(row_of(&path, &link_meta()))?;
    Ok(())
}

fn page_of_six(alloc: Global) -> Result<Page, Fail> {
    let mut page = Page::new(alloc);
    for path in [
        b"/d".as_slice(),
        b"/e",
        b"/d/a",
        b"/d/b",
        b"/d/b/c",
        b"/e/a",
    ] {
        push_path(alloc, &mut page, path)?;
    }
    Ok(page)
}

/// Asserts what two ranges of the six rows print.
fn assert_ranges<R: AllocGlobal + Abort>(rt: &R, page: &Page) -> Result<(), Fail> {
    let alloc = rt.alloc();
    assert_eq!(rt; page.len(), 6);
    assert_eq!(rt;
        printed(alloc, page.range(1, 4), 9)?.as_slice(),
        b"/ e /e/ e /e/\n/d/ a /d/a/ a /d/a/\n/d/ b /d/b/ b /d/b/\n/d/b/ c /d/b/c/ c /d/b/c/\n".as_slice()
    );
    assert_eq!(rt;
        printed(alloc, page.range(4, 2), 9)?.as_slice(),
        b"/d/b/ c /d/b/c/ c /d/b/c/\n/e/ a /e/a/ a /e/a/\n".as_slice()
    );
    Ok(())
}

#[test]
fn a_range_has_the_stems_of_its_rows(rt: HostRuntime) -> Result<(), Fail> {
    let page = page_of_six(rt.alloc())?;
    assert_ranges(&rt, &page)
}
