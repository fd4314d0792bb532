ghost use Rattle.std.specs.Prelude.{◌≡◌, ◌<◌};

use crate::lines::{grown, guard, line_of, meta};
use gufi_base::{Always, AsItIs, Kind, Line, Memory, Meta, Path, Steps};
use gufi_snap::Snapshot;
use gufi_sums::Summary;
use gufi_tree::{DirId, Tree};
use std::alloc::Global;
use std::marker::Brand;
use std::process::Abort;
use std::sync::ledger::{Blank, Ledger};
use std::test::Fail;

/// A line that was changed at the second of its number.
fn line(alloc: Global, number: u32, path: &[u8], kind: Kind) -> Result<Line, Fail> {
    let meta = Meta {
        mtime: i64::from(number),
        ..meta(kind, guard(101, 100, 0o755))
    };
    line_of(alloc, number, path, meta)
}

/// The sum of a piece, by its rows.
fn scanned<L: Ledger>(
    alloc: Global,
    snap: &Snapshot,
    id: DirId,
    blank: Blank,
) -> Result<Summary, Memory>
    requires name { blank.name ≡ L.name }
    requires parts { blank.parts ≡ L.parts }
    requires one { 0 < blank.parts }
{
    if id.0 >= snap.tree().dirs() {
        return Err(Memory);
    }
    let mut steps = Steps::<L>::new(blank);
    let mut sum = Summary::empty();
    snap.scan_piece(alloc, id, &mut Always, &AsItIs, 0, &mut sum, &mut steps)?;
    Ok(sum)
}

fn tree(alloc: Global) -> Result<Tree, Fail> {
    let rows = [
        (1u32, b"/".as_slice(), Kind::Dir),
        (2, b"/d", Kind::Dir),
        (3, b"/d/e", Kind::Dir),
        (4, b"/d/e/l", Kind::Link),
        (5, b"/d/f", Kind::File),
    ];
    let mut lines = Vec::new(alloc);
    for (number, path, kind) in rows {
        lines.push(line(alloc, number, path, kind)?)?;
    }
    grown(alloc, lines)
}

fn snapshot(alloc: Global, limit: u64) -> Result<Snapshot, Fail> {
    Ok(Snapshot::build_uncounted(alloc, tree(alloc)?, limit)?)
}

fn counts(sum: &Summary) -> (u64, u64, u64) {
    (sum.dirs, sum.files, sum.links)
}

/// Asserts the sums of each directory.
fn assert_sums<R: Abort>(rt: &R, snap: &Snapshot) {
    let rows = [
        ((1u64, 0u64, 0u64), (3u64, 1u64, 1u64), (1i64, 5i64)),
        ((1, 1, 0), (2, 1, 1), (2, 5)),
        ((1, 0, 1), (1, 0, 1), (3, 4)),
    ];
    assert!(rt; snap.tree().dirs() == 3);
    for place in 0..3u32 {
        let id = DirId(place);
        let (own, below, times) = rows[place as usize];
        assert!(rt; counts(&snap.dir_sum(id)) == own);
        assert!(rt; counts(&snap.tree_sum(id)) == below);
        assert!(rt; snap.tree_sum(id).mtime == Some(times));
    }
}

fn bare(alloc: Global) -> Result<Snapshot, Fail> {
    Ok(Snapshot::bare(alloc, tree(alloc)?, 0)?)
}

fn summed(alloc: Global) -> Result<Snapshot, Fail> {
    Ok(bare(alloc)?.with_sums(alloc)?)
}

#[test]
fn sums_are_of_own_rows_and_of_those_below(rt: HostRuntime) -> Result<(), Fail> {
    assert_sums(&rt, &snapshot(rt.alloc(), 0)?);
    assert_sums(&rt, &bare(rt.alloc())?);
    assert_sums(&rt, &summed(rt.alloc())?);
    Ok(())
}

/// Asserts of directories whether each is rolled up, and the sum of its piece.
fn assert_pieces<R: AllocGlobal + Abort>(
    rt: &R,
    snap: &Snapshot,
    pieces: &[(u32, bool, (u64, u64, u64))],
) -> Result<(), Fail> {
    for (place, rolled, piece) in pieces {
        let id = DirId(*place);
        assert!(rt; *place < snap.tree().dirs());
        assert!(rt; snap.rolled(id) == *rolled);
        let found = scanned::<Brand>(rt.alloc(), snap, id, Blank::new(1))?;
        assert!(rt; counts(&found) == *piece);
    }
    Ok(())
}

fn assert_folds<R: AllocGlobal + Abort>(rt: &R, plain: &Snapshot) -> Result<(), Fail> {
    assert_pieces(rt, plain, &[(1, false, (1, 1, 0)), (2, false, (1, 0, 1))])?;
    let folded = plain.with_limit(rt.alloc(), 4)?;
    assert!(rt; (plain.limit(), folded.limit()) == (0, 4));
    assert_pieces(
        rt,
        &folded,
        &[
            (0, false, (1, 0, 0)),
            (1, true, (2, 1, 1)),
            (2, true, (1, 0, 1)),
        ],
    )
}

#[test]
fn a_piece_is_a_fold_where_it_is_rolled(rt: HostRuntime) -> Result<(), Fail> {
    let plain = snapshot(rt.alloc(), 0)?;
    assert_folds(&rt, &plain)
}

/// Asserts that a snapshot keeps sums, under another limit too, and one that is made of it by a refresh.
fn assert_kept<R: AllocGlobal + Abort>(rt: &R, snap: &Snapshot) -> Result<(), Fail> {
    let alloc = rt.alloc();
    assert!(rt; snap.keeps_sums());
    assert!(rt; snap.with_limit(alloc, 4)?.keeps_sums());
    let at = Path::read(alloc, b"/d")?;
    assert!(rt;
        snap.refresh_uncounted(alloc, &at, tree(alloc)?)?
            .keeps_sums()
    );
    Ok(())
}

// Sums that aren't kept are made anew each time that one is asked for: nothing else tells them apart.
#[test]
fn sums_are_kept_once_they_are_made(rt: HostRuntime) -> Result<(), Fail> {
    assert!(rt; !bare(rt.alloc())?.keeps_sums());
    assert!(rt; summed(rt.alloc())?.keeps_sums());
    assert_kept(&rt, &snapshot(rt.alloc(), 0)?)
}
