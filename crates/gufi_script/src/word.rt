//! The words of a line.
ghost use Rattle.std.specs.Prelude.{◌≡◌, IfOk, map};
ghost use Rattle.percent_encoding.specs.Percent.{percent_decode};
ghost use Rattle.gufi_script.specs.ScriptWords.{separates_words, raw_words, has_pair, has_bad_escape, words_of};

use gufi_base::Bytes;
use percent_encoding::percent_decode;
use std::alloc::{AllocError, Global};

fn separates_words(byte: u8) -> bool
    ensures { result ≡ separates_words byte }
{
    byte == b' ' || byte == b'\t'
}

/// The parts between spaces and tabs that aren't empty.
pub(crate) fn raw_words(alloc: Global, text: &[u8]) -> Result<Vec<&[u8]>, AllocError>
    ensures { IfOk result (λ words. map (λ word. word.now) words.items ≡ raw_words text.now) }
{
    text.split(
        |byte|
            ensures { result ≡ separates_words byte.now }
        { separates_words(*byte) },
    )
    .filter(|part| !part.is_empty())
    .collect(alloc)
}

fn has_pair(rest: &[u8]) -> bool
    ensures { result ≡ has_pair rest.now }
{
    match rest {
        [high, low, ..] => high.is_ascii_hexdigit() && low.is_ascii_hexdigit(),
        _ => false,
    }
}

/// Whether a `%` stands anywhere without two hexadecimal digits behind it.
pub(crate) fn has_bad_escape(text: &[u8]) -> bool
    ensures { result ≡ has_bad_escape text.now }
{
    let mut rest = text;
    while let [byte, behind @ ..] = rest {
        if *byte == b'%' && !has_pair(behind) {
            return true;
        }
        rest = behind;
    }
    false
}

fn decoded(alloc: Global, word: &[u8]) -> Result<Bytes, AllocError>
    ensures { IfOk result (λ bytes. bytes ≡ percent_decode word.now) }
{
    let mut bytes = Vec::new(alloc);
    percent_decode(word).append_to(&mut bytes)?;
    Ok(Bytes::of(bytes))
}

fn all_decoded(alloc: Global, raw: &[&[u8]]) -> Result<Vec<Bytes>, AllocError>
    ensures { IfOk result (λ words. words.items ≡ map (λ word. percent_decode word.now) raw.now) }
{
    let mut words = Vec::with_capacity(alloc, raw.len())?;
    for word in raw {
        let bytes = decoded(alloc, word)?;
        words.push(bytes)?;
    }
    Ok(words)
}

/// The words, each `%` with two hexadecimal digits read as the byte that it stands for.
#[tactic(auto, using(crate::proofs::ReadLemmas::decoded_raw))]
pub(crate) fn words_of(alloc: Global, text: &[u8]) -> Result<Vec<Bytes>, AllocError>
    ensures { IfOk result (λ words. words.items ≡ words_of text.now) }
{
    let raw = raw_words(alloc, text)?;
    all_decoded(alloc, &raw)
}
