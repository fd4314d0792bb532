use crate::asking::users;
use gufi_agg::{Agg, AggKey, Group, agg_text, read_agg};
use gufi_users::Users;
use std::alloc::Global;
use std::process::Abort;
use std::test::Fail;

/// The key and the items of an aggregation.
fn parts_of(alloc: Global, agg: &Agg) -> Result<String, Fail> {
    let (key, items) = (agg.key(), agg.items());
    Ok(format!(in alloc; "{key:?} {items:?}")?)
}

fn read_parts(alloc: Global, text: &str) -> Result<String, Fail> {
    let agg = read_agg(alloc, text.as_bytes())?;
    parts_of(alloc, &agg)
}

#[test]
fn aggs_are_read_over_lines(rt: HostRuntime) -> Result<(), Fail> {
    let text =
        "select Level , count ( * ) , sum(size),MIN(mtime) from ROWS where size = 7 or size = 8\tGroup\nBy LEVEL";
    assert_eq!(rt;
        read_parts(rt.alloc(), text)?.as_str(),
        "Level [Count, SumSize, MinMtime]"
    );
    Ok(())
}

// So many rows of a number, of no bytes each.
fn group(key: u64, count: u64) -> Group {
    Group {
        key,
        count,
        sum: 0,
        size: (0, 0),
        mtime: (0, 0),
    }
}

/// The lines of three groups.
fn lines_of(alloc: Global, agg: &Agg, names: Option<&Users>) -> Result<Vec<u8>, Fail> {
    let groups = [group(7, 1), group(500, 2), group(1001, 3)];
    match agg.key() {
        AggKey::Letter => Err(Fail::new("these numbers are no letters")),
        _ => Ok(agg_text(alloc, &groups, agg, 0, names)?),
    }
}

fn lines_by(alloc: Global, text: &str, names: Option<&Users>) -> Result<Vec<u8>, Fail> {
    let agg = read_agg(alloc, text.as_bytes())?;
    lines_of(alloc, &agg, names)
}

const BY_UID: &str = "select uid, count(*), max(size) from rows group by uid";

const BY_GID: &str = "select gid, count(*) from rows group by gid";

/// Asserts lines where ana is user 1001 and lab is group 500.
fn assert_lines<R: AllocGlobal + Abort>(rt: &R, users: &Users) -> Result<(), Fail> {
    let alloc = rt.alloc();
    for (text, names, by_hand) in [
        (BY_UID, None, b"7\t1\t0\n500\t2\t0\n1001\t3\t0\n".as_slice()),
        (BY_UID, Some(users), b"7\t1\t0\n500\t2\t0\nana\t3\t0\n"),
        (BY_GID, Some(users), b"7\t1\nlab\t2\n1001\t3\n"),
    ] {
        let lines = lines_by(alloc, text, names)?;
        assert_eq!(rt; lines.as_slice(), by_hand);
    }
    Ok(())
}

#[test]
fn groups_are_named_in_the_order_of_numbers(rt: HostRuntime) -> Result<(), Fail> {
    let users = users(rt.alloc())?;
    assert_lines(&rt, &users)
}
