//! Words that a wrapper put in between the caller's, and notes that count words without them.
ghost use Rattle.std.specs.Prelude.{◌≡◌, ℕ, ◌==◌, ◌^◌, ◌<◌, ◌≤◌, List, ◌∷◌, ◌++◌, codes, decimal, drop, length, position, IfOk, OnOk, Some, None, MatchOption};
ghost use Rattle.gufi_words.specs.WordTexts.{texts};
ghost use Rattle.gufi_help.specs.declared.inserted.Inserted.{Inserted};
ghost use Rattle.gufi_help.specs.Inserted.{inserted_value, inserted_in, inserted_of, word_for_caller, blank_at, numbered, renumbered};

use gufi_base::{Memory, behind, put, put_u64, read_u32};
use std::alloc::Global;

/// So many words were put in, from the word of a number on, as notes count: from 1, which is the command.
#[derive(Clone, Copy)]
pub struct Inserted {
    pub first: u32,
    pub count: u32,
}

// What the value of the option tells.
fn inserted_value(value: &str) -> Option<Inserted>
    ensures { result ≡ inserted_value value.now }
{
    let (first, count) = value.split_once(',')?;
    let first = read_u32(first.as_bytes())?;
    let count = read_u32(count.as_bytes())?;
    if first == 0 {
        return None;
    }
    Some(Inserted { first, count })
}

// What a word tells, where it is the option `--inserted=FIRST,COUNT`.
#[tactic(auto, unfolding(crate::specs::Inserted::inserted_in))]
fn inserted_in(word: &str) -> Option<Inserted>
    ensures { result ≡ inserted_in word.now }
{
    let (name, value) = word.split_once('=')?;
    if name != "--inserted" {
        return None;
    }
    inserted_value(value)
}

/// What the first word tells, where it is that option, and the words behind it.
pub(crate) fn inserted_words(words: &[String]) -> Option<(Inserted, &[String])>
    ensures { MatchOption result (inserted_of (texts words.now) ≡ None)
        (λ told. (inserted_of (texts words.now) ≡ Some told.0) × (texts told.1.now ≡ drop 1 (texts words.now))) }
{
    match words {
        [option, behind @ ..] => Some((inserted_in(option.as_str())?, behind)),
        [] => None,
    }
}

// Appends the word of a number as the caller counts.
fn put_word(out: &mut Vec<u8>, inserted: Inserted, number: u32) -> Result<(), Memory>
    ensures { OnOk result (out.new.items ≡ out.old.items ++ word_for_caller inserted number) }
{
    let number = u64::from(number);
    let count = u64::from(inserted.count);
    if number < u64::from(inserted.first) {
        put(out, b"word ")?;
        return put_u64(out, number);
    }
    if number < u64::from(inserted.first) + count {
        put(out, b"inserted word ")?;
        return put_u64(out, number);
    }
    put(out, b"word ")?;
    put_u64(out, number - count)
}

fn first_blank(text: &[u8]) -> Option<usize>
    ensures { result ≡ position (λ b. b == 32) text.now }
{
    text.iter().position(|byte| *byte == b' ')
}

// Where the first blank stands, or how many bytes there are.
#[tactic(auto, using(crate::proofs::NumbersTold::blank_found, crate::proofs::NumbersTold::blank_missing, crate::proofs::NumbersTold::blank_within))]
fn blank_at(text: &[u8]) -> usize
    ensures value { result ≡ blank_at text.now }
    ensures within { result ≤ length text.now }
{
    match first_blank(text) {
        Some(at) => at,
        None => text.len(),
    }
}

// The number of the word with which a note begins, and what is told of it.
#[tactic(auto, unfolding(crate::specs::Inserted::numbered))]
fn numbered(note: &[u8]) -> Option<(u32, &[u8])>
    ensures { MatchOption result (numbered note.now ≡ None) (λ word. numbered note.now ≡ Some (word.0, word.1.now)) }
{
    if !note.starts_with(b"gufi: word ") {
        return None;
    }
    let text = behind(note, 11);
    let (number, rest) = text.split_at(blank_at(text));
    Some((read_u32(number)?, rest))
}

/// The note with the number of its word as the caller counts.
pub(crate) fn renumbered(alloc: Global, inserted: Inserted, note: &[u8]) -> Result<Vec<u8>, Memory>
    ensures { IfOk result (λ text. text.items ≡ renumbered inserted note.now) }
{
    let mut text = Vec::new(alloc);
    match numbered(note) {
        Some((number, rest)) => {
            put(&mut text, b"gufi: ")?;
            put_word(&mut text, inserted, number)?;
            put(&mut text, rest)?;
        }
        None => put(&mut text, note)?,
    }
    Ok(text)
}

/// A note that begins with the number of a word, as each refusal of words does, begins with that of the caller when it is told, and
/// all else of it stays.
pub fn numbers_are_told_as_counted()
    ensures { (inserted : Inserted) → (k : ℕ) → (text : List ℕ) → k < 2 ^ 32 → renumbered inserted (codes "gufi: word " ++ (decimal k ++ (32 ∷ text)))
        ≡ codes "gufi: " ++ (word_for_caller inserted k ++ (32 ∷ text)) }
{}
