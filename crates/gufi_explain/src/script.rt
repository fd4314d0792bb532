//! What is shown of a damaged line of a script: the word or the offset at which it is at fault.
ghost use Rattle.std.specs.Prelude.{◌≡◌, ◌++◌, ◌+◌, ◌-◌, not, length, map, position, OnOk, IfOk, Ok};
ghost use Rattle.gufi_words.specs.WordTexts.{texts};
ghost use Rattle.gufi_script.specs.ScriptWords.{separates_words, raw_words, has_pair};
ghost use Rattle.gufi_explain.specs.Scripts.{is_named, setting_in, setting_of, from_word, word_front, behind_front_word, from_words, marked_from, marked_word, bad_escape_at, word_meant, meant_lines, counted_lines, script_lines};

use crate::ask::put_query;
use crate::rules::Rules;
use crate::shown::{front, put_front, put_marked_part};
use gufi_base::{Memory, Text, behind, put, put_u64};
use gufi_words::{Command, WordError, read_words};
use std::alloc::{AllocError, Global};

/// What a session has beside its script, as far as its words tell.
#[derive(Clone, Copy)]
pub(crate) struct Setting {
    /// From which times count back, in seconds.
    pub(crate) now: Option<i64>,
    pub(crate) has_passwd: bool,
    pub(crate) has_group: bool,
}

fn is_named(name: &Option<Text>, file: &str) -> bool
    ensures { result ≡ is_named name.now file.now }
{
    match name {
        Some(name) => name.as_str() == file,
        None => false,
    }
}

// What the session has whose script alone the file of a name is.
fn setting_in(command: &Command, file: &str) -> Option<Setting>
    ensures { result ≡ setting_in file.now (Ok command.now) }
{
    match command {
        Command::Session {
            passwd,
            group,
            now,
            script,
            ..
        } if script.as_str() == file && !is_named(passwd, file) && !is_named(group, file) => {
            Some(Setting {
                now: *now,
                has_passwd: passwd.is_some(),
                has_group: group.is_some(),
            })
        }
        _ => None,
    }
}

/// The same where the words are a session's.
#[tactic(auto, unfolding(crate::specs::Scripts::setting_of))]
pub(crate) fn setting_of(
    alloc: Global,
    words: &[String],
    file: &str,
) -> Result<Option<Setting>, Memory>
    ensures { IfOk result (λ setting. setting ≡ setting_of (texts words.now) file.now) }
{
    match read_words(alloc, words) {
        Ok(command) => {
            let setting = setting_in(&command, file);
            drop(command);
            Ok(setting)
        }
        Err(WordError::Refused { .. }) => Ok(None),
        Err(WordError::Memory) => Err(Memory),
    }
}

fn separates_words(byte: u8) -> bool
    ensures { result ≡ separates_words byte }
{
    byte == b' ' || byte == b'\t'
}

fn first_blank(text: &[u8]) -> Option<usize>
    ensures { result ≡ position separates_words text.now }
{
    text.iter().position(|byte| separates_words(*byte))
}

fn first_of_word(text: &[u8]) -> Option<usize>
    ensures { result ≡ position (λ b. not (separates_words b)) text.now }
{
    text.iter().position(|byte| !separates_words(*byte))
}

// A text from its first word on.
#[tactic(auto, unfolding(crate::specs::Scripts::from_word))]
fn from_word(text: &[u8]) -> &[u8]
    ensures { result.now ≡ from_word text.now }
{
    match first_of_word(text) {
        Some(at) => behind(text, at),
        None => b"",
    }
}

// The word at the front.
#[tactic(auto, unfolding(crate::specs::Scripts::word_front))]
fn word_front(text: &[u8]) -> &[u8]
    ensures { result.now ≡ word_front text.now }
{
    match first_blank(text) {
        Some(at) => front(text, at),
        None => text,
    }
}

// What stands behind it.
#[tactic(auto, unfolding(crate::specs::Scripts::behind_front_word))]
fn behind_front_word(text: &[u8]) -> &[u8]
    ensures { result.now ≡ behind_front_word text.now }
{
    match first_blank(text) {
        Some(at) => behind(text, at),
        None => b"",
    }
}

// A text from the word behind so many on.
#[tactic(auto, using(crate::proofs::Places::passed_word))]
fn from_words(count: usize, text: &[u8]) -> &[u8]
    ensures { result.now ≡ from_words count text.now }
{
    let mut rest = text;
    for _passed in 0..count {
        rest = behind_front_word(from_word(rest));
    }
    from_word(rest)
}

/// Appends a line, with a mark under the word of a number, from 1, or behind its end.
#[tactic(auto, unfolding(crate::specs::Scripts::marked_word))]
pub(crate) fn put_marked_word(
    alloc: Global,
    out: &mut Vec<u8>,
    line: &[u8],
    number: usize,
) -> Result<(), Memory>
    ensures { OnOk result (out.new.items ≡ out.old.items ++ marked_word line.now number) }
{
    let rest = from_words(number.saturating_sub(1), line);
    let offset = line.len().saturating_sub(rest.len());
    put_marked_part(alloc, out, line, offset, word_front(rest).len())
}

fn has_pair(rest: &[u8]) -> bool
    ensures { result ≡ has_pair rest.now }
{
    match rest {
        [high, low, ..] => high.is_ascii_hexdigit() && low.is_ascii_hexdigit(),
        _ => false,
    }
}

// The offset of the first `%` without two hexadecimal digits, or the line's end.
fn bad_escape_at(line: &[u8]) -> usize
    ensures { result ≡ bad_escape_at line.now }
{
    let mut at = 0;
    let mut rest = line;
    while let [byte, behind @ ..] = rest {
        if *byte == b'%' && !has_pair(behind) {
            return at;
        }
        at += 1;
        rest = behind;
    }
    at
}

fn raw_words(alloc: Global, line: &[u8]) -> Result<Vec<&[u8]>, AllocError>
    ensures { IfOk result (λ words. map (λ word. word.now) words.items ≡ raw_words line.now) }
{
    line.split(
        |byte|
            ensures { result ≡ separates_words byte.now }
        { separates_words(*byte) },
    )
    .filter(|part| !part.is_empty())
    .collect(alloc)
}

// How many words stand in a line.
fn word_count(alloc: Global, line: &[u8]) -> Result<usize, AllocError>
    ensures { IfOk result (λ count. count ≡ length (raw_words line.now)) }
{
    let words = raw_words(alloc, line)?;
    Ok(words.len())
}

// The number of the word that a kind means, in a line of so many words.
fn word_meant(kind: &[u8], count: usize) -> Option<usize>
    ensures { result ≡ word_meant kind.now count }
{
    if kind == "Verb".as_bytes() {
        Some(1)
    } else if kind == "Number".as_bytes() || kind == "Lane".as_bytes() {
        Some(2)
    } else if kind == "Path".as_bytes() {
        Some(if count == 3 { 2 } else { 4 })
    } else if kind == "File".as_bytes() || kind == "User".as_bytes() {
        Some(3)
    } else if kind == "Form".as_bytes() {
        Some(5)
    } else {
        None
    }
}

// The line, with a mark under the word that its kind of fault means.
fn put_meant(
    alloc: Global,
    out: &mut Vec<u8>,
    line: &[u8],
    number: Option<usize>,
) -> Result<(), Memory>
    ensures { OnOk result (out.new.items ≡ out.old.items ++ meant_lines line.now number) }
{
    match number {
        Some(number) => put_marked_word(alloc, out, line, number),
        None => put_front(out, line),
    }
}

// The line, and how many words stand in it.
fn put_counted(out: &mut Vec<u8>, line: &[u8], count: usize) -> Result<(), Memory>
    ensures { OnOk result (out.new.items ≡ out.old.items ++ counted_lines line.now count) }
{
    put_front(out, line)?;
    put(out, b"  words in the line: ")?;
    put_u64(out, count as u64)?;
    put(out, b"\n")
}

/// Appends a line of a script that is damaged so.
#[tactic(auto, unfolding(crate::specs::Scripts::script_lines))]
pub(crate) fn put_script_line(
    alloc: Global,
    out: &mut Vec<u8>,
    rules: &Rules,
    setting: Setting,
    kind: &[u8],
    line: &[u8],
) -> Result<(), Memory>
    ensures { OnOk result (out.new.items ≡ out.old.items ++ script_lines rules.now setting kind.now line.now) }
{
    if kind == "Escape".as_bytes() {
        return put_marked_part(alloc, out, line, bad_escape_at(line), 1);
    }
    if kind == "Query".as_bytes() {
        return put_query(alloc, out, rules, setting, line);
    }
    let count = word_count(alloc, line)?;
    if kind == "Count".as_bytes() {
        return put_counted(out, line, count);
    }
    put_meant(alloc, out, line, word_meant(kind, count))
}
