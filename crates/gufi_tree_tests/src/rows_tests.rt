ghost use Rattle.std.specs.Prelude.{◌≡◌, ◌+◌, ◌<◌, List, IfOk, OnOk};
ghost use Rattle.gufi_base.specs.declared.record.Row.{Row as SeenRow};
ghost use Rattle.gufi_base.specs.Rows.{StandsForSome};

use crate::lines::{guard, meta};
use gufi_base::{Kind, Memory, Meta, Path, Row, RowRef, Yield};
use gufi_rows::{PathList, RowList};
use std::alloc::Global;
use std::test::Fail;

/// The row of a path, whose link and access control list are the path's kept text, and whose names of extended attributes are its base name.
pub(crate) fn row_of<'a>(path: &'a Path, meta: &'a Meta) -> RowRef<'a>
    ensures { StandsForSome result }
{
    RowRef {
        stem: path.stem(),
        base: path.base_name(),
        meta,
        link: path.text(),
        xattrs: path.base_name(),
        acl: path.text(),
    }
}

fn take_row<Y: Yield>(alloc: Global, rows: &mut Y, path: &Path, meta: &Meta) -> Result<(), Memory>
    requires few { Y.count rows.old < 9 }
    requires rows { (given : List SeenRow) × Y.stands_for rows.old given }
    ensures count { OnOk result (Y.count rows.new ≡ Y.count rows.old + 1) }
    ensures rows { OnOk result ((given : List SeenRow) × Y.stands_for rows.new given) }
{
    rows.take(alloc, row_of(path, meta))?;
    Ok(())
}

fn scanned<Y: Yield>(alloc: Global, paths: &[Path; 3]) -> Result<Y, Memory>
    ensures count { IfOk result (λ rows. Y.count rows ≡ 3) }
    ensures rows { IfOk result (λ rows. (given : List SeenRow) × Y.stands_for rows given) }
{
    let meta = meta(Kind::Dir, guard(101, 100, 0o755));
    let mut rows = Y::none(alloc)?;
    take_row(alloc, &mut rows, &paths[0], &meta)?;
    take_row(alloc, &mut rows, &paths[1], &meta)?;
    take_row(alloc, &mut rows, &paths[2], &meta)?;
    rows.settle(alloc)?;
    Ok(rows)
}

/// The rows of two directories, as a walk gives them.
fn walked<Y: Yield>(alloc: Global, outer: &[Path; 3], inner: &[Path; 3]) -> Result<Y, Memory> {
    let mut rows: Y = scanned(alloc, outer)?;
    let more: Y = scanned(alloc, inner)?;
    rows.merge(alloc, more)?;
    Ok(rows)
}

fn printed(alloc: Global, rows: &[Row]) -> Result<Vec<u8>, Memory> {
    let mut text = Vec::new(alloc);
    for row in rows {
        text.extend_from_slice(row.path.printed())?;
        text.push(b' ')?;
        text.extend_from_slice(row.rec.link.as_slice())?;
        text.push(b' ')?;
        text.extend_from_slice(row.rec.xattrs.as_slice())?;
        text.push(b' ')?;
        text.extend_from_slice(row.rec.acl.as_slice())?;
        text.push(b'\n')?;
    }
    Ok(text)
}

fn three(alloc: Global, paths: [&[u8]; 3]) -> Result<[Path; 3], Fail> {
    let [first, second, third] = paths;
    Ok([
        Path::read(alloc, first)?,
        Path::read(alloc, second)?,
        Path::read(alloc, third)?,
    ])
}

/// The rows of `/d` and of `/d/m` in it.
fn both_walked<Y: Yield>(alloc: Global) -> Result<Y, Fail> {
    let outer = three(alloc, [b"/d".as_slice(), b"/d/z", b"/d/m"])?;
    let inner = three(alloc, [b"/d/m/b".as_slice(), b"/d/m/c", b"/d/m/c/a"])?;
    Ok(walked(alloc, &outer, &inner)?)
}

fn walked_lines(alloc: Global) -> Result<Vec<u8>, Fail> {
    let paths: PathList = both_walked(alloc)?;
    Ok(paths.lines(alloc)?)
}

fn walked_rows(alloc: Global) -> Result<Vec<u8>, Fail> {
    let list: RowList = both_walked(alloc)?;
    let rows = list.sorted(alloc)?;
    Ok(printed(alloc, rows.as_slice())?)
}

#[test]
fn walked_rows_come_in_path_order(rt: HostRuntime) -> Result<(), Fail> {
    assert_eq!(rt;
        walked_lines(rt.alloc())?.as_slice(),
        b"/d\n/d/m\n/d/m/b\n/d/m/c\n/d/m/c/a\n/d/z\n".as_slice()
    );
    assert_eq!(rt;
        walked_rows(rt.alloc())?.as_slice(),
        b"/d /d/ d /d/\n/d/m /d/m/ m /d/m/\n/d/m/b /d/m/b/ b /d/m/b/\n/d/m/c /d/m/c/ c /d/m/c/\n/d/m/c/a /d/m/c/a/ a /d/m/c/a/\n/d/z /d/z/ z /d/z/\n".as_slice()
    );
    Ok(())
}
