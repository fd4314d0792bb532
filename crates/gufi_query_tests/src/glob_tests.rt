use crate::asking::{assert_answers, word_of};
use gufi_glob::Glob;
use std::alloc::Global;
use std::test::Fail;

/// Whether a pattern matches a text, behind a semicolon.
fn match_of(alloc: Global, asked: &str) -> Result<String, Fail> {
    let (pattern, text) = asked.split_once(';').ok_or("text")?;
    let glob = Glob::read(alloc, pattern.as_bytes())?;
    word_of(alloc, glob.matches(&[], text.as_bytes()))
}

/// Whether a pattern matches, the pattern, and the text, which no name is.
fn matches() -> &'static str {
    "\
true;*;
true;;
false;?;
"
}

#[test]
fn patterns_match_no_bytes_as_posix_says(rt: HostRuntime) -> Result<(), Fail> {
    assert_answers(&rt, matches(), match_of)
}
