//! What is told of a refused word, by what its note tells.
ghost use Rattle.std.specs.Prelude.{◌≡◌, ◌++◌, not, OnOk, IfOk, position, drop, Some};
ghost use Rattle.gufi_words.specs.WordTexts.{texts};
ghost use Rattle.gufi_explain.specs.Faults.{names_after, primary_line, kind_at, is_of_name, name_at, text_name_line, text_lines_at, text_at, fault_at, word_told};

use crate::nearest::put_nearest;
use crate::note::{behind_word, first_word};
use crate::refused::put_refused;
use crate::rules::{Entry, Rules, names_behind, put_rule};
use crate::shown::{Wrapped, front, put_marked_text, put_told, word_at};
use gufi_base::{Memory, behind, read_u32};
use std::alloc::{AllocError, Global};

// The names that may stand behind the words of the command.
fn names_after(rules: &Rules, words: &[String]) -> &'static [Entry]
    ensures { result.now ≡ names_after rules.now (texts words.now) }
{
    let name = word_at(words, 0).unwrap_or("");
    names_behind(rules.behind, name.as_bytes())
}

fn put_primary(
    alloc: Global,
    out: &mut Vec<u8>,
    rules: &Rules,
    words: &[String],
    place: usize,
    kind: &[u8],
) -> Result<(), Memory>
    ensures { OnOk result (out.new.items ≡ out.old.items ++ primary_line rules.now (texts words.now) place kind.now) }
{
    if kind != "UnknownPrimary".as_bytes() {
        return Ok(());
    }
    let word = word_at(words, place).unwrap_or("");
    put_nearest(alloc, out, names_after(rules, words), word.as_bytes())
}

// The words with a mark under one of an expression, and the rule of its fault.
#[tactic(auto, unfolding(crate::specs::Faults::kind_at))]
fn put_kind(
    alloc: Global,
    out: &mut Vec<u8>,
    rules: &Rules,
    wrapped: Wrapped,
    words: &[String],
    place: usize,
    kind: &[u8],
) -> Result<(), Memory>
    ensures { OnOk result (out.new.items ≡ out.old.items ++ kind_at rules.now wrapped (texts words.now) place kind.now) }
{
    wrapped.put_marked(alloc, out, words, place)?;
    put_rule(out, rules.word_kinds, kind)?;
    put_primary(alloc, out, rules, words, place, kind)
}

fn is_of_name(byte: u8) -> bool
    ensures { result ≡ is_of_name byte }
{
    (b'0' <= byte && byte <= b'9')
        || (b'A' <= byte && byte <= b'Z')
        || (b'a' <= byte && byte <= b'z')
        || byte == b'_'
}

fn end_of_name(text: &[u8]) -> Option<usize>
    ensures { result ≡ position (λ b. not (is_of_name b)) text.now }
{
    text.iter().position(|byte| !is_of_name(*byte))
}

// The name that stands at an offset, in small letters.
fn name_at(alloc: Global, text: &[u8], offset: usize) -> Result<Vec<u8>, AllocError>
    ensures { IfOk result (λ name. name.items ≡ name_at text.now offset) }
{
    let text = behind(text, offset);
    match end_of_name(text) {
        Some(end) => front(text, end).to_ascii_lowercase(alloc),
        None => text.to_ascii_lowercase(alloc),
    }
}

/// Appends the name that is nearest to that at an offset.
pub(crate) fn put_text_name(
    alloc: Global,
    out: &mut Vec<u8>,
    names: &'static [Entry],
    text: &[u8],
    offset: usize,
) -> Result<(), Memory>
    ensures { OnOk result (out.new.items ≡ out.old.items ++ text_name_line names.now (name_at text.now offset)) }
{
    let name = name_at(alloc, text, offset)?;
    if name.is_empty() {
        return Ok(());
    }
    put_nearest(alloc, out, names, &name)
}

// The text with a mark under an offset, and the rule of its fault there.
fn put_text_at(
    alloc: Global,
    out: &mut Vec<u8>,
    rules: &Rules,
    names: &'static [Entry],
    text: &[u8],
    kind: &[u8],
    offset: usize,
) -> Result<(), Memory>
    ensures { OnOk result (out.new.items ≡ out.old.items ++ text_lines_at rules.now names.now text.now kind.now (Some offset)) }
{
    put_marked_text(alloc, out, text, offset)?;
    put_rule(out, rules.text_kinds, kind)?;
    put_text_name(alloc, out, names, text, offset)
}

// What a note tells of an offset of a word.
#[tactic(auto, unfolding(crate::specs::Faults::text_at))]
fn put_text(
    alloc: Global,
    out: &mut Vec<u8>,
    rules: &Rules,
    words: &[String],
    place: usize,
    what: &[u8],
) -> Result<(), Memory>
    ensures { OnOk result (out.new.items ≡ out.old.items ++ text_at rules.now (texts words.now) place what.now) }
{
    let text = word_at(words, place).unwrap_or("").as_bytes();
    let kind = first_word(behind_word(what));
    match read_u32(first_word(what)) {
        Some(offset) => {
            let names = names_after(rules, words);
            put_text_at(alloc, out, rules, names, text, kind, offset as usize)
        }
        None => Ok(()),
    }
}

// What a note tells of the word at a place.
fn put_fault(
    alloc: Global,
    out: &mut Vec<u8>,
    rules: &Rules,
    wrapped: Wrapped,
    words: &[String],
    place: usize,
    what: &[u8],
) -> Result<(), Memory>
    ensures { OnOk result (out.new.items ≡ out.old.items ++ fault_at rules.now wrapped (texts words.now) place what.now) }
{
    let first = first_word(what);
    if first == "refused".as_bytes() {
        return put_refused(alloc, out, rules, wrapped, words, place);
    }
    if first == "at".as_bytes() {
        return put_text(alloc, out, rules, words, place, behind_word(what));
    }
    put_kind(alloc, out, rules, wrapped, words, place, first)
}

/// Appends what is told of a note of status 2.
#[tactic(auto, unfolding(crate::specs::Faults::word_told))]
pub(crate) fn put_word(
    alloc: Global,
    out: &mut Vec<u8>,
    rules: &Rules,
    wrapped: Wrapped,
    words: &[String],
    note: &[u8],
) -> Result<(), Memory>
    ensures { OnOk result (out.new.items ≡ out.old.items ++ word_told rules.now wrapped (texts words.now) note.now) }
{
    let number = behind_word(behind_word(note));
    let what = behind_word(number);
    match read_u32(first_word(number)) {
        Some(k) if wrapped.hides(u64::from(k)) => put_told(out, b"the word is the wrapper's"),
        Some(k) => {
            let place = (k as usize).saturating_sub(1);
            put_fault(alloc, out, rules, wrapped, words, place, what)
        }
        None => Ok(()),
    }
}
