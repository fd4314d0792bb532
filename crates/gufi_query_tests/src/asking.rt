//! What the tests of both languages ask with, and how a table of cases is asked.
use gufi_base::Bytes;
use gufi_find::{FindExpr, read_find};
use gufi_users::{Users, read_group, read_passwd};
use std::alloc::{AllocError, Global};
use std::process::Abort;
use std::test::Fail;

/// Asserts of each line of a table that what stands behind its first semicolon is answered by what stands before.
pub(crate) fn assert_answers<R, F>(rt: &R, table: &str, answer: F) -> Result<(), Fail>
where
    R: AllocGlobal + Abort,
    F: Fn(Global, &str) -> Result<String, Fail>,
    requires { F.IsAlwaysCallable answer }
{
    for line in table.lines() {
        let (wanted, asked) = line.split_once(';').ok_or("semicolon")?;
        let found = answer(rt.alloc(), asked)?;
        assert_eq!(rt; found.as_str(), wanted, "{asked}");
    }
    Ok(())
}

/// A truth as a word.
pub(crate) fn word_of(alloc: Global, truth: bool) -> Result<String, Fail> {
    Ok(format!(in alloc; "{truth}")?)
}

fn words_of(alloc: Global, line: &str) -> Result<Vec<Bytes>, AllocError> {
    let mut words = Vec::new(alloc);
    for word in line.split_whitespace() {
        words.push(Bytes::from_slice(alloc, word.as_bytes())?)?;
    }
    Ok(words)
}

pub(crate) fn users(alloc: Global) -> Result<Users, Fail> {
    let passwd = read_passwd(alloc, b"ana:x:1001:1001:::\n")?;
    let groups = read_group(alloc, b"lab:x:500:ana\n")?;
    Ok(Users::of(alloc, passwd, groups)?)
}

/// An expression at second 200,000, where ana is user 1001 and lab is group 500.
pub(crate) fn expression(alloc: Global, line: &str) -> Result<FindExpr, Fail> {
    let words = words_of(alloc, line)?;
    let users = users(alloc)?;
    Ok(read_find(alloc, words.as_slice(), &users, Some(200000))?)
}
