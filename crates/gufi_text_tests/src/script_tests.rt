//! Scripts read, and how long they may be.
use gufi_script::{Act, Form, ScriptError, ScriptKind, read_script};
use std::process::Abort;
use std::test::Fail;

/// Asserts what an ask was read to.
fn assert_ask<R: Abort>(rt: &R, act: &Act) {
    match act {
        Act::Ask {
            lane,
            user,
            path,
            form,
            words,
        } => {
            assert_eq!(rt; *lane, 16);
            assert_eq!(rt; user.as_slice(), b"102:5".as_slice());
            assert_eq!(rt; path.printed(), b"/p/q".as_slice());
            assert_eq!(rt; *form, Form::Query);
            assert_eq!(rt; words.as_slice().len(), 3);
            assert_eq!(rt; words.as_slice()[0].as_slice(), b"SELECT *".as_slice());
            assert_eq!(rt; words.as_slice()[2].as_slice(), b"rows".as_slice());
        }
        _ => assert!(rt; false),
    }
}

/// Asserts the lines of five acts, and what they were read to.
fn assert_acts<R: Abort>(rt: &R, acts: &[(u32, Act)]) {
    let lines: [u32; 5] = [1, 4, 5, 6, 7];
    assert_eq!(rt; acts.len(), lines.len());
    for (act, line) in acts.iter().zip(lines) {
        assert_eq!(rt; act.0, line);
    }
    match &acts[0].1 {
        Act::Publish { limit, file } => {
            assert_eq!(rt; *limit, 100);
            assert_eq!(rt; file.as_str(), "a b");
        }
        _ => assert!(rt; false),
    }
    match &acts[1].1 {
        Act::Rollup { limit } => assert_eq!(rt; *limit, 7),
        _ => assert!(rt; false),
    }
    assert_ask(rt, &acts[3].1);
    match &acts[4].1 {
        Act::Refresh { path, file } => {
            assert_eq!(rt; path.printed(), b"/p/q".as_slice());
            assert_eq!(rt; file.as_str(), "b");
        }
        _ => assert!(rt; false),
    }
}

#[test]
fn acts_are_read_by_their_lines(rt: HostRuntime) -> Result<(), Fail> {
    let text =
        b"publish 100 a%20b\n# no act\n \t\nrollup 007\nbarrier\nask 16 102:5 //p/./q query SELECT%20* FROM\trows\nrefresh /p//q b";
    let script = read_script(rt.alloc(), text)?;
    assert_acts(&rt, script.acts.as_slice());
    Ok(())
}

#[test]
fn scripts_have_so_many_lines_and_publications(rt: HostRuntime) -> Result<(), Fail> {
    for (text, count, limit) in [
        ("barrier\n", 4097, 4096),
        ("rollup 1\n", 1001, 1000),
        ("refresh / f\n", 1001, 1000),
    ] {
        let mut script = String::new(rt.alloc());
        for _line in 0..count {
            script.push_str(text)?;
        }
        assert_eq!(rt;
            read_script(rt.alloc(), script.as_bytes()).err(),
            Some(ScriptError::Fault {
                line: limit + 1,
                kind: ScriptKind::TooMany { limit },
            })
        );
    }
    Ok(())
}
