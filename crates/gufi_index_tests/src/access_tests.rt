//! Tables of classes and of covers, worked by hand.
ghost use Rattle.std.specs.Prelude.{◌≡◌};
ghost use Rattle.gufi_acl.specs.AclTexts.{has_mark};

use gufi_access::{Class, GroupList, Guard, Principal, acl_ok, class_of, covers, granted, lists};
use gufi_acl::{AclFault, put_acl, read_acl};
use gufi_base::put_u64;
use std::alloc::Global;
use std::test::Fail;

fn guarded(uid: u32, gid: u32, mode: u16, acl: &[u8]) -> Guard<'_> {
    Guard {
        uid,
        gid,
        mode,
        acl,
    }
}

fn guard(uid: u32, gid: u32, mode: u16) -> Guard<'static> {
    guarded(uid, gid, mode, b"")
}

/// user::rw-,user:102:rwx,user:103:---,group::r-x,group:500:r--,group:600:--x,mask::r-x,other::rwx
const LIST: &[u8] =
    b"\0\x06\0\0\0\0\x01\x07\x66\0\0\0\x01\0\x67\0\0\0\x02\x05\0\0\0\0\x03\x04\xf4\x01\0\0\x03\x01\x58\x02\0\0\x04\x05\0\0\0\0\x05\x07\0\0\0\0";

const LIST_TEXT: &[u8] =
    b"acl/user::rw-,user:102:rwx,user:103:---,group::r-x,group:500:r--,group:600:--x,mask::r-x,other::rwx";

/// user::rwx,group::---,group:500:r-x,mask::r-x,other::---
const ONE_GROUP: &[u8] =
    b"\0\x07\0\0\0\0\x02\0\0\0\0\0\x03\x05\xf4\x01\0\0\x04\x05\0\0\0\0\x05\0\0\0\0\0";

#[test]
fn which_directory_covers_which(rt: HostRuntime) {
    for (d, c, answer) in [
        (guard(101, 100, 0o755), guard(102, 200, 0o055), false),
        (guard(101, 100, 0o700), guard(101, 200, 0o700), true),
        (guard(101, 100, 0o700), guard(102, 100, 0o700), false),
        (guard(101, 100, 0o050), guard(102, 100, 0o705), false),
        (guard(101, 100, 0o000), guard(102, 200, 0o000), true),
    ] {
        assert_eq!(rt; covers(&d, &c), answer);
    }
}

// Only two groups, one of each, tell that the first doesn't cover the second.
#[test]
fn which_list_covers_which(rt: HostRuntime) {
    let top = guarded(101, 100, 0o750, ONE_GROUP);
    for (d, c, answer) in [
        (top, guard(101, 600, 0o705), false),
        (top, guard(101, 600, 0o755), true),
        (top, guard(101, 500, 0o750), true),
        (top, top, true),
        (top, guarded(102, 100, 0o750, ONE_GROUP), false),
        (guard(101, 500, 0o750), top, true),
        (guard(101, 600, 0o750), top, false),
        (top, guarded(101, 100, 0o750, LIST), false),
    ] {
        assert_eq!(rt; covers(&d, &c), answer);
    }
}

// By the order of POSIX.1e: the owner, a named user, the groups, the others. One entry alone grants; the owner and the others aren't masked.
#[test]
fn one_entry_of_a_list_decides(rt: HostRuntime) -> Result<(), Fail> {
    let of = guarded(101, 100, 0o640, LIST);
    for (uid, first, second, class, want, answer) in [
        (101, 100, 7, Class::Owner, 2, true),
        (101, 100, 7, Class::Owner, 1, false),
        (102, 7, 8, Class::Group, 5, true),
        (102, 7, 8, Class::Group, 2, false),
        (103, 100, 8, Class::Group, 4, false),
        (104, 100, 8, Class::Group, 5, true),
        (104, 500, 8, Class::Group, 4, true),
        (104, 500, 8, Class::Group, 1, false),
        (104, 500, 600, Class::Group, 1, true),
        (104, 500, 600, Class::Group, 5, false),
        (104, 7, 8, Class::Other, 7, true),
        (0, 7, 8, Class::Other, 7, true),
    ] {
        let who = Principal {
            uid,
            groups: GroupList::of(vec![in rt.alloc(); first, second]?),
        };
        assert!(rt; class_of(&who, &of) == class);
        assert_eq!(rt; granted(&who, &of, want), answer);
        assert_eq!(rt; lists(&who, &of), granted(&who, &of, 5));
    }
    Ok(())
}

#[test]
fn lists_are_read_and_put(rt: HostRuntime) -> Result<(), Fail> {
    let alloc = rt.alloc();
    assert!(rt; acl_ok(LIST) && acl_ok(ONE_GROUP));
    assert!(rt; !acl_ok(b"") && !acl_ok(LIST.split_at(42.min(LIST.len())).0));
    assert!(rt; read_acl(alloc, LIST_TEXT)?.as_slice() == LIST);
    let mut text = Vec::new(alloc);
    put_acl(&mut text, LIST)?;
    assert_eq!(rt; text.as_slice(), LIST_TEXT);
    assert!(rt; read_acl(alloc, b"")?.as_slice().is_empty());
    Ok(())
}

/// A list of so many named users.
fn with_users(alloc: Global, count: u32) -> Result<Vec<u8>, Fail> {
    let mut text = b"acl/u::r--,g::r--,m::r--,o::r--".to_vec(alloc)?;
    for uid in 0..count {
        text.extend_from_slice(b",u:")?;
        put_u64(&mut text, u64::from(uid))?;
        text.extend_from_slice(b":r--")?;
    }
    Ok(text)
}

fn begins_with_the_mark(text: &[u8]) -> bool
    ensures { result ≡ has_mark text.now }
{
    text.starts_with(b"acl/")
}

/// The fault of a text, which begins with the mark.
fn fault_of(alloc: Global, text: &[u8]) -> Option<AclFault> {
    if !begins_with_the_mark(text) {
        return Some(AclFault::Memory);
    }
    read_acl(alloc, text).err()
}

#[test]
fn at_most_32_are_named(rt: HostRuntime) -> Result<(), Fail> {
    let alloc = rt.alloc();
    let most = with_users(alloc, 32)?;
    assert_eq!(rt; fault_of(alloc, most.as_slice()), None);
    let mut more = with_users(alloc, 33)?;
    assert_eq!(rt;
        fault_of(alloc, more.as_slice()),
        Some(AclFault::TooManyEntries)
    );
    more.extend_from_slice(b",u:07:r--")?;
    assert_eq!(rt; fault_of(alloc, more.as_slice()), Some(AclFault::BadAcl));
    Ok(())
}

#[test]
fn one_class_decides(rt: HostRuntime) -> Result<(), Fail> {
    let of = guard(101, 100, 0o057);
    for (uid, group, class, want, answer) in [
        (101, 100, Class::Owner, 4, false),
        (102, 100, Class::Group, 5, true),
        (103, 200, Class::Other, 5, true),
        (101, 100, Class::Owner, 0, true),
        (0, 7, Class::Other, 5, true),
    ] {
        let who = Principal {
            uid,
            groups: GroupList::of(vec![in rt.alloc(); group]?),
        };
        assert!(rt; class_of(&who, &of) == class);
        assert_eq!(rt; granted(&who, &of, want), answer);
        assert_eq!(rt; lists(&who, &of), granted(&who, &of, 5));
    }
    Ok(())
}

#[test]
fn many_groups_have_their_members_and_keep_their_order(rt: HostRuntime) -> Result<(), Fail> {
    let alloc = rt.alloc();
    let mut items = Vec::new(alloc);
    for place in 0u32..40 {
        items.push(4000 - 100 * place)?;
    }
    items.push(4000)?;
    items.push(100)?;
    let given = items.as_slice().to_vec(alloc)?;
    let groups = GroupList::indexed(alloc, items)?;
    assert_eq!(rt; groups.as_slice(), given.as_slice());
    let who = Principal { uid: 102, groups };
    for (gid, answer) in [
        (4000, true),
        (2100, true),
        (2000, true),
        (100, true),
        (0, false),
        (99, false),
        (2050, false),
        (4001, false),
    ] {
        assert_eq!(rt; who.groups.has(gid), answer);
        assert_eq!(rt; lists(&who, &guard(101, gid, 0o050)), answer);
    }
    assert_eq!(rt; who.groups.into_vec().as_slice(), given.as_slice());
    Ok(())
}

#[test]
fn few_groups_have_their_members(rt: HostRuntime) -> Result<(), Fail> {
    let alloc = rt.alloc();
    for count in [1u32, 16, 17] {
        let mut items = Vec::new(alloc);
        for gid in 0..count {
            items.push(gid)?;
        }
        let groups = GroupList::indexed(alloc, items)?;
        for (gid, answer) in [(0, true), (count - 1, true), (count, false)] {
            assert_eq!(rt; groups.has(gid), answer);
        }
    }
    Ok(())
}
