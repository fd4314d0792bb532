//! One entry in text: its tag, its ID and its bits, between colons.

ghost use Rattle.std.specs.Prelude.{◌≡◌, ◌≤◌, ◌||◌, ◌∷◌, [], bytes_eq, IfSome};
ghost use Rattle.gufi_acl.specs.AclTexts.{read_tag, read_id, read_bit, read_bits, read_entry, entry_in};

use gufi_access::{Entry, MASK, NAMED_GROUP, NAMED_USER, OTHERS, OWNER, OWNING_GROUP};
use gufi_base::{pieces_of, read_u32};

/// Whether a word is the whole one, or its first letter.
fn is_word(word: &[u8], whole: &[u8], letter: &[u8]) -> bool
    ensures { result ≡ (bytes_eq word.now whole.now || bytes_eq word.now letter.now) }
{
    word == whole || word == letter
}

fn read_tag(word: &[u8], with_id: bool) -> Option<u8>
    ensures { result ≡ read_tag word.now with_id }
{
    if is_word(word, b"user", b"u") {
        Some(if with_id { NAMED_USER } else { OWNER })
    } else if is_word(word, b"group", b"g") {
        Some(if with_id { NAMED_GROUP } else { OWNING_GROUP })
    } else if with_id {
        None
    } else if is_word(word, b"mask", b"m") {
        Some(MASK)
    } else if is_word(word, b"other", b"o") {
        Some(OTHERS)
    } else {
        None
    }
}

/// An ID of 32 bits, or 0 where there is none.
fn read_id(text: &[u8]) -> Option<u32>
    ensures { result ≡ read_id text.now }
{
    if text.is_empty() {
        Some(0)
    } else {
        read_u32(text)
    }
}

fn read_bit(letter: u8, value: u8, byte: u8) -> Option<u8>
    ensures value { result ≡ read_bit letter value byte }
    ensures small { IfSome result (λ bit. bit ≤ value) }
{
    if byte == letter {
        Some(value)
    } else if byte == b'-' {
        Some(0)
    } else {
        None
    }
}

/// Three bits in the order `rwx`, each by its letter or `-`.
#[tactic(auto, unfolding(crate::specs::AclTexts::read_bits))]
fn read_bits(text: &[u8]) -> Option<u8>
    ensures { result ≡ read_bits text.now }
{
    match text {
        [r, w, x] => {
            let read = read_bit(b'r', 4, *r)?;
            let write = read_bit(b'w', 2, *w)?;
            let search = read_bit(b'x', 1, *x)?;
            Some(read + (write + search))
        }
        _ => None,
    }
}

/// An entry by its three parts.
#[tactic(auto, unfolding(crate::specs::AclTexts::entry_in))]
fn entry_of(word: &[u8], id: &[u8], bits: &[u8]) -> Option<Entry>
    ensures { result ≡ entry_in (word.now ∷ id.now ∷ bits.now ∷ []) }
{
    let tag = read_tag(word, !id.is_empty())?;
    let bits = read_bits(bits)?;
    let id = read_id(id)?;
    Some(Entry { tag, bits, id })
}

/// An entry of three parts between colons.
#[tactic(auto, unfolding(crate::specs::AclTexts::entry_in))]
pub(crate) fn read_entry(text: &[u8]) -> Option<Entry>
    ensures { result ≡ read_entry text.now }
{
    let mut parts = pieces_of(text, b":");
    let word = parts.next()?;
    let id = parts.next()?;
    let bits = parts.next()?;
    if parts.next().is_some() {
        return None;
    }
    entry_of(word, id, bits)
}
