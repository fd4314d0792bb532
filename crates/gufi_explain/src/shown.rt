//! Words and bytes as they are shown, and the marks under them.
ghost use Rattle.std.specs.Prelude.{◌≡◌, ◌+◌, ◌-◌, ◌++◌, OnOk, IfOk, length, option_map, replicate, take, drop};
ghost use Rattle.std.specs.List.{slice_get};
ghost use Rattle.gufi_words.specs.WordTexts.{texts};
ghost use Rattle.gufi_explain.specs.Shown.{escaped_byte, escaped, told, spaced, mark_line, width_of, marked_text, front_told, shown_from, marked_bytes, marked_part};

use gufi_base::{Memory, behind, put};
use std::alloc::Global;

/// So many words, from the word of a number on, are a wrapper's, and are never shown. Words are counted from 1, the command.
#[derive(Clone, Copy)]
pub struct Wrapped {
    pub first: u32,
    pub count: u32,
}

// The first so many items, or all where there are fewer.
pub(crate) fn front<T>(items: &[T], count: usize) -> &[T]
    ensures { result.now ≡ take count items.now }
{
    if count >= items.len() {
        return items;
    }
    let (first, _) = items.split_at(count);
    first
}

/// The word at a place.
pub(crate) fn word_at(words: &[String], place: usize) -> Option<&str>
    ensures { option_map (λ word. word.now) result ≡ slice_get (texts words.now) place }
{
    match words.get(place) {
        Some(word) => Some(word.as_str()),
        None => None,
    }
}

fn put_escaped_byte(out: &mut Vec<u8>, byte: u8) -> Result<(), Memory>
    ensures { OnOk result (out.new.items ≡ out.old.items ++ escaped_byte byte) }
{
    if b' ' <= byte && byte < 127 {
        return put(out, &[byte]);
    }
    put(
        out,
        &[
            b'\\',
            b'0' + byte / 64,
            b'0' + byte / 8 % 8,
            b'0' + byte % 8,
        ],
    )
}

/// Appends bytes, of which those that aren't printable ASCII are escaped.
pub(crate) fn put_escaped(out: &mut Vec<u8>, bytes: &[u8]) -> Result<(), Memory>
    ensures { OnOk result (out.new.items ≡ out.old.items ++ escaped bytes.now) }
{
    for byte in bytes {
        put_escaped_byte(out, *byte)?;
    }
    Ok(())
}

/// Appends a line of an explanation.
pub(crate) fn put_told(out: &mut Vec<u8>, text: &[u8]) -> Result<(), Memory>
    ensures { OnOk result (out.new.items ≡ out.old.items ++ told text.now) }
{
    put(out, b"  ")?;
    put(out, text)?;
    put(out, b"\n")
}

fn put_repeated(out: &mut Vec<u8>, byte: u8, count: usize) -> Result<(), Memory>
    ensures { OnOk result (out.new.items ≡ out.old.items ++ replicate count byte) }
{
    for _at in 0..count {
        out.push(byte)?;
    }
    Ok(())
}

fn put_mark(out: &mut Vec<u8>, before: usize, width: usize) -> Result<(), Memory>
    ensures { OnOk result (out.new.items ≡ out.old.items ++ mark_line before width) }
{
    put(out, b"  ")?;
    put_repeated(out, b' ', before)?;
    put_repeated(out, b'^', width)?;
    put(out, b"\n")
}

// Appends words, each behind a blank.
fn put_spaced(out: &mut Vec<u8>, words: &[String]) -> Result<(), Memory>
    ensures { OnOk result (out.new.items ≡ out.old.items ++ spaced (texts words.now)) }
{
    for word in words {
        put(out, b" ")?;
        put_escaped(out, word.as_bytes())?;
    }
    Ok(())
}

// How wide bytes are as they are shown.
fn shown_width(alloc: Global, bytes: &[u8]) -> Result<usize, Memory>
    ensures { IfOk result (λ width. width ≡ length (escaped bytes.now)) }
{
    let mut text = Vec::new(alloc);
    put_escaped(&mut text, bytes)?;
    Ok(text.len())
}

// How wide the mark under the word of a place is.
fn width_at(alloc: Global, words: &[String], place: usize) -> Result<usize, Memory>
    ensures { IfOk result (λ width. width ≡ width_of (slice_get (texts words.now) place)) }
{
    match words.get(place) {
        Some(word) => {
            let width = shown_width(alloc, word.as_bytes())?;
            Ok(width.max(1))
        }
        None => Ok(1),
    }
}

/// Appends a text, with a mark under an offset.
pub(crate) fn put_marked_text(
    alloc: Global,
    out: &mut Vec<u8>,
    text: &[u8],
    offset: usize,
) -> Result<(), Memory>
    ensures { OnOk result (out.new.items ≡ out.old.items ++ marked_text text.now offset) }
{
    put(out, b"  ")?;
    put_escaped(out, text)?;
    put(out, b"\n")?;
    let before = shown_width(alloc, front(text, offset))?;
    put_mark(out, before, 1)
}

// How many bytes of a line or text are shown.
const MOST_SHOWN: usize = 200;

/// Appends the first bytes of a text as a line of an explanation.
pub(crate) fn put_front(out: &mut Vec<u8>, text: &[u8]) -> Result<(), Memory>
    ensures { OnOk result (out.new.items ≡ out.old.items ++ front_told text.now) }
{
    put(out, b"  ")?;
    put_escaped(out, front(text, MOST_SHOWN))?;
    put(out, b"\n")
}

// Where what is shown of a text with a mark under an offset begins.
fn shown_from(text: &[u8], offset: usize) -> usize
    ensures { result ≡ shown_from text.now offset }
{
    if text.len() <= MOST_SHOWN {
        0
    } else {
        offset.saturating_sub(100)
    }
}

// Appends bytes, with a mark under so many of them from an offset on.
fn put_marked_bytes(
    alloc: Global,
    out: &mut Vec<u8>,
    bytes: &[u8],
    offset: usize,
    width: usize,
) -> Result<(), Memory>
    ensures { OnOk result (out.new.items ≡ out.old.items ++ marked_bytes bytes.now offset width) }
{
    put(out, b"  ")?;
    put_escaped(out, bytes)?;
    put(out, b"\n")?;
    let before = shown_width(alloc, front(bytes, offset))?;
    let marks = shown_width(alloc, front(behind(bytes, offset), width))?;
    put_mark(out, before, marks.max(1))
}

/// Appends what is shown of a text, with a mark under so many bytes from an offset on.
#[tactic(auto, unfolding(crate::specs::Shown::marked_part))]
pub(crate) fn put_marked_part(
    alloc: Global,
    out: &mut Vec<u8>,
    text: &[u8],
    offset: usize,
    width: usize,
) -> Result<(), Memory>
    ensures { OnOk result (out.new.items ≡ out.old.items ++ marked_part text.now offset width) }
{
    let begin = shown_from(text, offset);
    let bytes = front(behind(text, begin), MOST_SHOWN);
    put_marked_bytes(alloc, out, bytes, offset.saturating_sub(begin), width)
}

impl Wrapped {
    ghost use Rattle.gufi_explain.specs.Shown.{is_hidden, shown_words, words_line, marked};

    /// Whether the word of that number is a wrapper's.
    pub(crate) fn hides(self, number: u64) -> bool
        ensures { result ≡ is_hidden self number }
    {
        let first = u64::from(self.first);
        first <= number && number < first + u64::from(self.count)
    }

    // The words before the wrapper's, and those behind them.
    #[tactic(auto, using(crate::proofs::Words::word_cuts))]
    fn parts(self, words: &[String]) -> (&[String], &[String])
        ensures before { texts result.0.now ≡ take (self.first - 1) (texts words.now) }
        ensures after { texts result.1.now ≡ drop (self.first - 1 + self.count) (texts words.now) }
    {
        let before = (self.first as usize).saturating_sub(1);
        (
            front(words, before),
            behind(words, before + self.count as usize),
        )
    }

    // Appends the words that are not the wrapper's.
    #[tactic(auto, using(crate::proofs::Words::spaced_parts))]
    fn put_words(self, out: &mut Vec<u8>, words: &[String]) -> Result<(), Memory>
        ensures { OnOk result (out.new.items ≡ out.old.items ++ shown_words self (texts words.now)) }
    {
        let (before, after) = self.parts(words);
        put_spaced(out, before)?;
        put_spaced(out, after)
    }

    // The same as a line of an explanation.
    fn put_line(self, out: &mut Vec<u8>, words: &[String]) -> Result<(), Memory>
        ensures { OnOk result (out.new.items ≡ out.old.items ++ words_line self (texts words.now)) }
    {
        put(out, b" ")?;
        self.put_words(out, words)?;
        put(out, b"\n")
    }

    // How wide the words before a place are that are not the wrapper's.
    #[tactic(auto, using(crate::proofs::Words::word_cuts))]
    fn width_before(self, alloc: Global, words: &[String], place: usize) -> Result<usize, Memory>
        ensures { IfOk result (λ width. width ≡ length (shown_words self (take place (texts words.now)))) }
    {
        let mut text = Vec::new(alloc);
        self.put_words(&mut text, front(words, place))?;
        Ok(text.len())
    }

    /// Appends the words that are not the wrapper's, and a mark under that of a place, or behind the last one.
    pub(crate) fn put_marked(
        self,
        alloc: Global,
        out: &mut Vec<u8>,
        words: &[String],
        place: usize,
    ) -> Result<(), Memory>
        ensures { OnOk result (out.new.items ≡ out.old.items ++ marked self (texts words.now) place) }
    {
        self.put_line(out, words)?;
        let before = self.width_before(alloc, words, place)?;
        let width = width_at(alloc, words, place)?;
        put_mark(out, before, width)
    }
}
