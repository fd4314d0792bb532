//! Sums worked by hand.
ghost use Rattle.gufi_base.specs.Rows.{StandsForSome};

use gufi_base::{Kind, Memory, Meta, RowRef, Yield};
use gufi_sums::{NoDeeper, NoSkip, Skip, Summary};
use std::alloc::Global;

fn meta(kind: Kind, size: u64, mtime: i64, uid: u32, gid: u32) -> Meta {
    Meta {
        kind,
        inode: 1,
        mode: 0o644,
        nlink: 1,
        uid,
        gid,
        size,
        blksize: 4096,
        blocks: 8,
        atime: 0,
        mtime,
        ctime: 0,
    }
}

#[test]
fn sums_join(rt: HostRuntime) {
    let mut left = Summary::empty();
    left.add(&meta(Kind::File, 7, -5, 30, 7));
    left.add(&meta(Kind::Dir, 4096, 9, 20, 9));
    let mut right = Summary::empty();
    right.add(&meta(Kind::File, 3, 2, 40, 8));
    right.add(&meta(Kind::Socket, 1, 3, 10, 8));
    left.join(&right);
    let by_hand = Summary {
        dirs: 1,
        files: 2,
        links: 0,
        others: 1,
        bytes: 10,
        size: Some((3, 7)),
        mtime: Some((-5, 9)),
        uid: Some((10, 40)),
        gid: Some((7, 9)),
    };
    assert_eq!(rt; left, by_hand);
}

fn is_passed_over<S: Skip>(skip: &S, sum: &Summary) -> bool {
    skip.none_match(sum)
}

fn deepest_of<S: Skip>(skip: &S) -> Option<u32> {
    skip.deepest()
}

#[test]
fn no_sum_is_passed_over(rt: HostRuntime) {
    let none_deeper = NoDeeper { than: Some(3) };
    assert!(rt; !is_passed_over(&NoSkip, &Summary::empty()));
    assert!(rt; !is_passed_over(&none_deeper, &Summary::empty()));
    assert_eq!(rt; deepest_of(&NoSkip), None);
    assert_eq!(rt; deepest_of(&none_deeper), Some(3));
}

fn sum_of_one_row<Y: Yield>(alloc: Global, row: RowRef<'_>) -> Result<Y, Memory>
    requires { StandsForSome row }
{
    let mut all = Y::none(alloc)?;
    all.take(alloc, row)?;
    let none = Y::none(alloc)?;
    all.merge(alloc, none)?;
    Ok(all)
}

#[test]
fn a_row_is_yielded(rt: HostRuntime) -> Result<(), Memory> {
    let meta = meta(Kind::Dir, 4096, 5, 3, 4);
    let row = RowRef {
        stem: b"".as_slice(),
        base: b"/".as_slice(),
        meta: &meta,
        link: b"".as_slice(),
        xattrs: b"".as_slice(),
        acl: b"".as_slice(),
    };
    let sum: Summary = sum_of_one_row(rt.alloc(), row)?;
    assert_eq!(rt; (sum.dirs, sum.bytes, sum.uid), (1, 0, Some((3, 3))));
    Ok(())
}
