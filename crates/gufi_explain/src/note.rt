//! The words of a note.
ghost use Rattle.std.specs.Prelude.{◌≡◌, ◌==◌, option_map, position};
ghost use Rattle.gufi_explain.specs.Notes.{is_break, first_word, behind_word, behind_file, before_mark, behind_mark, behind_marks};

use crate::shown::front;
use gufi_base::behind;

fn first_break(text: &[u8]) -> Option<usize>
    ensures { result ≡ position is_break text.now }
{
    text.iter().position(|byte| *byte == b' ' || *byte == b'\n')
}

/// The first word of a text.
#[tactic(auto, unfolding(crate::specs::Notes::first_word))]
pub(crate) fn first_word(text: &[u8]) -> &[u8]
    ensures { result.now ≡ first_word text.now }
{
    match first_break(text) {
        Some(at) => front(text, at),
        None => text,
    }
}

/// What stands behind it.
#[tactic(auto, unfolding(crate::specs::Notes::behind_word))]
pub(crate) fn behind_word(text: &[u8]) -> &[u8]
    ensures { result.now ≡ behind_word text.now }
{
    match first_break(text) {
        Some(at) => behind(text, at.saturating_add(1)),
        None => b"",
    }
}

/// What a note tells of the file of that name, where it begins with it.
pub(crate) fn behind_file<'n>(file: &str, note: &'n [u8]) -> Option<&'n [u8]>
    ensures { option_map (λ text. text.now) result ≡ behind_file file.now note.now }
{
    let text = note.strip_prefix(b"gufi: ")?;
    let text = text.strip_prefix(file.as_bytes())?;
    text.strip_prefix(b" ")
}

fn first_mark(mark: u8, text: &[u8]) -> Option<usize>
    ensures { result ≡ position (λ b. b == mark) text.now }
{
    text.iter().position(|byte| *byte == mark)
}

/// What stands before the first of a byte, or all where there is none.
#[tactic(auto, unfolding(crate::specs::Notes::before_mark))]
pub(crate) fn before_mark(mark: u8, text: &[u8]) -> &[u8]
    ensures { result.now ≡ before_mark mark text.now }
{
    match first_mark(mark, text) {
        Some(at) => front(text, at),
        None => text,
    }
}

// What stands behind the first of a byte, where there is one.
#[tactic(auto, unfolding(crate::specs::Notes::behind_mark))]
fn behind_mark(mark: u8, text: &[u8]) -> Option<&[u8]>
    ensures { option_map (λ rest. rest.now) result ≡ behind_mark mark text.now }
{
    let at = first_mark(mark, text)?;
    Some(behind(text, at.saturating_add(1)))
}

/// What stands behind so many of a byte, where there are so many.
#[tactic(auto, using(crate::proofs::Marks::marks))]
pub(crate) fn behind_marks(mark: u8, count: usize, text: &[u8]) -> Option<&[u8]>
    ensures { option_map (λ rest. rest.now) result ≡ behind_marks mark count text.now }
{
    let mut rest = text;
    for _passed in 0..count {
        rest = behind_mark(mark, rest)?;
    }
    Some(rest)
}
