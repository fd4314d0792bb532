//! The files of a worked example, the words that name its users, and a file that is too long.
use gufi_users::{Askers, UserError, UserKind, Users, read_group, read_passwd};
use std::alloc::Global;
use std::process::Abort;
use std::test::Fail;

const PASSWD: &[u8] = b"root:x:0:0:root:/root:/bin/sh\nana:x:1001:1001:Ana:/home/ana:/bin/sh\n";

const GROUP: &[u8] = b"root:x:0:\nana:x:1001:\nlab:x:500:ana,bob\n";

fn users_of(alloc: Global, passwd: &[u8], group: &[u8]) -> Result<Users, Fail> {
    let passwd = read_passwd(alloc, passwd)?;
    let groups = read_group(alloc, group)?;
    Ok(Users::of(alloc, passwd, groups)?)
}

fn example(alloc: Global) -> Result<Users, Fail> {
    users_of(alloc, PASSWD, GROUP)
}

/// Asserts whom words name, and which name nobody.
fn assert_named<R: AllocGlobal + Abort>(rt: &R, users: &Users) -> Result<(), Fail> {
    for (word, uid, groups) in [
        ("ana", 1001, [1001, 500].as_slice()),
        ("root", 0, [0].as_slice()),
        ("102:7,8,7", 102, [7, 8, 7].as_slice()),
        ("102:", 102, [].as_slice()),
        ("102", 102, [].as_slice()),
    ] {
        let who = users.principal(rt.alloc(), word.as_bytes())?;
        let who = who.expect(rt, "a principal");
        assert_eq!(rt; who.uid, uid);
        assert_eq!(rt; who.groups.as_slice(), groups);
    }
    for word in ["nobody", "102:7,,8", "102:7:8", "4294967296", ""] {
        assert!(rt; users.principal(rt.alloc(), word.as_bytes())?.is_none());
    }
    Ok(())
}

#[test]
fn words_name_principals(rt: HostRuntime) -> Result<(), Fail> {
    let users = example(rt.alloc())?;
    assert_named(&rt, &users)
}

// `one` has bob twice and two empty names, `old` has the number of `lab`, and bobby is no user.
const CROWD: &[u8] = b"ana:x:1001:1001:::\nbob:x:1002:500:::\ncy:x:1003:1003:::\n";

const TEAMS: &[u8] =
    b"lab:x:500:ana,bob\none:x:501:bob,,bob,ana,\ntwo:x:502:\nana:x:1001:ana\nold:x:500:cy\nnew:x:503:cy,bobby\n";

/// Asserts whom words name, be they among those that were given or not.
fn assert_asked<R: AllocGlobal + Abort>(rt: &R, askers: &Askers<'_>) -> Result<(), Fail> {
    for (word, uid, groups) in [
        ("ana", 1001, [1001, 500, 501].as_slice()),
        ("bob", 1002, [500, 501].as_slice()),
        ("cy", 1003, [1003, 500, 503].as_slice()),
        ("7:8", 7, [8].as_slice()),
    ] {
        let who = askers.principal(rt.alloc(), word.as_bytes())?;
        let who = who.expect(rt, "a principal");
        assert_eq!(rt; who.uid, uid);
        assert_eq!(rt; who.groups.as_slice(), groups);
    }
    for word in ["nobody", "bobby", ""] {
        assert!(rt; askers.principal(rt.alloc(), word.as_bytes())?.is_none());
    }
    Ok(())
}

/// Asserts it where those words are given.
fn assert_given<R: AllocGlobal + Abort>(
    rt: &R,
    users: &Users,
    words: &[&[u8]],
) -> Result<(), Fail> {
    let askers = Askers::of(rt.alloc(), users, words)?;
    assert_asked(rt, &askers)
}

fn assert_all_given<R: AllocGlobal + Abort>(rt: &R, users: &Users) -> Result<(), Fail> {
    assert_given(
        rt,
        users,
        &[b"bob", b"ana", b"bob", b"7:8", b"nobody", b"bobby"],
    )?;
    assert_given(rt, users, &[b"7:8", b""])
}

#[test]
fn askers_have_the_groups_of_their_names(rt: HostRuntime) -> Result<(), Fail> {
    let users = users_of(rt.alloc(), CROWD, TEAMS)?;
    assert_all_given(&rt, &users)
}

fn is_text(name: Option<&[u8]>, text: &[u8]) -> bool {
    match name {
        Some(name) => name == text,
        None => false,
    }
}

fn assert_numbered<R: Abort>(rt: &R, users: &Users) {
    assert!(rt; is_text(users.name_of_uid(1001), b"ana"));
    assert!(rt; is_text(users.name_of_gid(500), b"lab"));
    assert_eq!(rt; users.uid_of(b"ana"), Some(1001));
    assert_eq!(rt; users.gid_of(b"lab"), Some(500));
    assert!(rt; users.name_of_uid(7).is_none());
    assert!(rt; users.gid_of(b"ana,bob").is_none());
}

#[test]
fn numbers_have_names(rt: HostRuntime) -> Result<(), Fail> {
    let users = example(rt.alloc())?;
    assert_numbered(&rt, &users);
    Ok(())
}

#[test]
fn a_file_with_a_65537th_line_is_refused(rt: HostRuntime) -> Result<(), Fail> {
    let text = vec![in rt.alloc(); b'\n'; 65537]?;
    let kind = UserKind::TooMany { limit: 65536 };
    let fault = read_passwd(rt.alloc(), &text).err();
    assert!(rt; fault == Some(UserError::Fault { line: 65537, kind }));
    let printed = format!(in rt.alloc(); "{kind}")?;
    assert_eq!(rt; printed.as_str(), "TooMany 65536");
    Ok(())
}
