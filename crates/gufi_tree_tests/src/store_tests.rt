//! The rows of a directory, scanned.
ghost use Rattle.std.specs.Prelude.{◌≡◌, ◌<◌, ◌^◌, length, IfOk};
ghost use Rattle.gufi_tree.specs.Tree.{own_rows};

use crate::lines::tree_of;
use gufi_base::{Always, AsItIs, Kind, Memory, Row, Steps, Yield};
use gufi_rows::{PathList, RowList};
use gufi_store::DirStore;
use gufi_tree::{DirId, DirRef, Tree};
use std::alloc::Global;
use std::marker::Brand;
use std::process::Abort;
use std::sync::ledger::{Blank, Ledger};
use std::test::Fail;

fn scanned<Y: Yield, L: Ledger>(
    alloc: Global,
    store: &DirStore<'_>,
    steps: &mut Steps<L>,
) -> Result<Y, Memory>
    requires { length (own_rows store.now) < 2 ^ 39 }
{
    let mut all = Y::none(alloc)?;
    store.scan(alloc, &mut Always, &AsItIs, 0, &mut all, steps)?;
    Ok(all)
}

fn scan_with<Y: Yield, L: Ledger>(alloc: Global, dir: DirRef<'_>, blank: Blank) -> Result<Y, Memory>
    requires name { blank.name ≡ L.name }
    requires parts { blank.parts ≡ L.parts }
    requires one { 0 < blank.parts }
    requires few { length dir.entries < 2 ^ 32 }
{
    let mut steps = Steps::<L>::new(blank);
    let store = DirStore::of(dir, &mut steps);
    scanned(alloc, &store, &mut steps)
}

fn scan_alone<Y: Yield>(alloc: Global, dir: DirRef<'_>) -> Result<Y, Memory>
    requires { length dir.entries < 2 ^ 32 }
{
    scan_with::<Y, Brand>(alloc, dir, Blank::new(1))
}

fn two_directories(alloc: Global) -> Result<Tree, Fail>
    ensures { IfOk result (λ tree. length tree ≡ 2) }
{
    let tree = tree_of(
        alloc,
        &[
            (b"/".as_slice(), Kind::Dir, 0o755),
            (b"/d", Kind::Dir, 0o755),
            (b"/d/b", Kind::File, 0o755),
            (b"/d/a", Kind::Link, 0o755),
        ],
    )?;
    if tree.dirs() != 2 {
        return Err(Fail::new("there are not two directories"));
    }
    Ok(tree)
}

fn scanned_lines(alloc: Global, dir: DirRef<'_>) -> Result<Vec<u8>, Fail>
    requires { length dir.entries < 2 ^ 32 }
{
    let paths: PathList = scan_alone(alloc, dir)?;
    Ok(paths.lines(alloc)?)
}

fn assert_scanned<R: AllocGlobal + Abort>(rt: &R, dir: DirRef<'_>) -> Result<(), Fail> {
    assert!(rt; dir.entries().len() == 2);
    let text = scanned_lines(rt.alloc(), dir)?;
    assert!(rt; text.as_slice() == b"/d\n/d/a\n/d/b\n".as_slice());
    Ok(())
}

#[test]
fn a_directory_is_scanned(rt: HostRuntime) -> Result<(), Fail> {
    let tree = two_directories(rt.alloc())?;
    assert_scanned(&rt, tree.dir(DirId(1)))
}

/// The letter and the path of each row.
fn printed(alloc: Global, rows: &[Row]) -> Result<Vec<u8>, Memory> {
    let mut text = Vec::new(alloc);
    for row in rows {
        text.push(row.rec.meta.kind.letter())?;
        text.push(b' ')?;
        text.extend_from_slice(row.path.printed())?;
        text.push(b'\n')?;
    }
    Ok(text)
}

fn scanned_rows(alloc: Global, dir: DirRef<'_>) -> Result<Vec<u8>, Fail>
    requires { length dir.entries < 2 ^ 32 }
{
    let list: RowList = scan_alone(alloc, dir)?;
    let rows = list.sorted(alloc)?;
    Ok(printed(alloc, rows.as_slice())?)
}

fn assert_sorted<R: AllocGlobal + Abort>(rt: &R, dir: DirRef<'_>) -> Result<(), Fail> {
    assert!(rt; dir.entries().len() == 2);
    assert_eq!(rt;
        scanned_rows(rt.alloc(), dir)?.as_slice(),
        b"d /d\nl /d/a\nf /d/b\n".as_slice()
    );
    Ok(())
}

#[test]
fn scanned_rows_are_sorted(rt: HostRuntime) -> Result<(), Fail> {
    let tree = two_directories(rt.alloc())?;
    assert_sorted(&rt, tree.dir(DirId(1)))
}
