//! The positionals of a command, each by its place among the words.

ghost use Rattle.std.specs.Prelude.{◌≡◌, ◌<◌, IfOk, OnOk, length, MatchResult, Some, None, slice_get, drop};
ghost use Rattle.gufi_base.specs.Numbers.{read_u32};
ghost use Rattle.gufi_base.specs.Basics.{GivesUnless};
ghost use Rattle.gufi_base.specs.Delimiters.{default_delimiter};
ghost use Rattle.gufi_words.specs.WordTexts.{texts};
ghost use Rattle.gufi_words.specs.WordNumbers.{refused_at};
ghost use Rattle.gufi_words.specs.WordValues.{read_delimiter, read_count, read_report, read_file, read_start, read_gids, read_any};
ghost use Rattle.gufi_words.specs.CommandNames.{command_named};
ghost use Rattle.gufi_words.specs.WordPositionals.{needed, perhaps, no_more};

use crate::command::ReportWord;
use crate::name::CommandName;
use crate::value::{
    DEFAULT_DELIMITER, read_count, read_delimiter, read_file, read_gids, read_report, read_start,
    text_of,
};
use crate::word::{WordError, refused_at};
use gufi_base::{Items, Nums, Path, Text, read_u32};
use std::alloc::{AllocError, Global};

/// The word at a place, which must be there.
fn word_at(words: &[String], place: usize) -> Result<&str, WordError>
    ensures { MatchResult result
        (λ word. slice_get (texts words.now) place ≡ Some word.now)
        (λ e. (slice_get (texts words.now) place ≡ None) × (e ≡ refused_at place)) }
{
    match words.get(place) {
        Some(word) => Ok(word.as_str()),
        None => Err(refused_at(place)),
    }
}

/// The name of the command.
pub(crate) fn command_at(words: &[String], place: usize) -> Result<CommandName, WordError>
    ensures value { result ≡ needed command_named (texts words.now) place }
    ensures within { OnOk result (place < length words.now) }
{
    let word = word_at(words, place)?;
    CommandName::of(word).ok_or(refused_at(place))
}

/// A number of 32 bits.
pub(crate) fn u32_at(words: &[String], place: usize) -> Result<u32, WordError>
    ensures { result ≡ needed read_u32 (texts words.now) place }
{
    let word = word_at(words, place)?;
    read_u32(word.as_bytes()).ok_or(refused_at(place))
}

/// How many directories the generator writes.
pub(crate) fn count_at(words: &[String], place: usize) -> Result<u32, WordError>
    ensures { result ≡ needed read_count (texts words.now) place }
{
    let word = word_at(words, place)?;
    read_count(word).ok_or(refused_at(place))
}

/// The report of `stats`.
pub(crate) fn report_at(words: &[String], place: usize) -> Result<ReportWord, WordError>
    ensures { result ≡ needed read_report (texts words.now) place }
{
    let word = word_at(words, place)?;
    read_report(word).ok_or(refused_at(place))
}

/// The byte between the fields of a trace, where a word names it.
pub(crate) fn delimiter_at(words: &[String], place: usize) -> Result<u8, WordError>
    ensures { result ≡ perhaps read_delimiter default_delimiter (texts words.now) place }
{
    match words.get(place) {
        Some(word) => read_delimiter(word.as_str()).ok_or(refused_at(place)),
        None => Ok(DEFAULT_DELIMITER),
    }
}

/// The name of a file.
pub(crate) fn file_at(alloc: Global, words: &[String], place: usize) -> Result<Text, WordError>
    ensures { GivesUnless WordError.Memory result (needed read_file (texts words.now) place) }
{
    let word = word_at(words, place)?;
    let file = read_file(alloc, word)?;
    file.ok_or(refused_at(place))
}

/// Any word.
pub(crate) fn text_at(alloc: Global, words: &[String], place: usize) -> Result<Text, WordError>
    ensures { GivesUnless WordError.Memory result (needed read_any (texts words.now) place) }
{
    let word = word_at(words, place)?;
    Ok(text_of(alloc, word)?)
}

/// The path of the start.
pub(crate) fn start_at(alloc: Global, words: &[String], place: usize) -> Result<Path, WordError>
    ensures { GivesUnless WordError.Memory result (needed read_start (texts words.now) place) }
{
    let word = word_at(words, place)?;
    let start = read_start(alloc, word)?;
    start.ok_or(refused_at(place))
}

/// The ids of groups.
pub(crate) fn gids_at(alloc: Global, words: &[String], place: usize) -> Result<Nums, WordError>
    ensures { GivesUnless WordError.Memory result (needed read_gids (texts words.now) place) }
{
    let word = word_at(words, place)?;
    let gids = read_gids(alloc, word)?;
    gids.ok_or(refused_at(place))
}

/// There is no word at a place.
pub(crate) fn no_more(words: &[String], place: usize) -> Result<(), WordError>
    ensures { result ≡ no_more (texts words.now) place }
{
    if place < words.len() {
        return Err(refused_at(place));
    }
    Ok(())
}

/// Copies of the words.
fn copies(alloc: Global, words: &[String]) -> Result<Items<Text>, AllocError>
    ensures { IfOk result (λ copies. copies ≡ texts words.now) }
{
    let mut copies = Vec::with_capacity(alloc, words.len())?;
    for word in words {
        let text = String::from_str(alloc, word.as_str())?;
        copies.push(Text::of(text))?;
    }
    Ok(Items::of(copies))
}

/// Copies of the words from a place on.
#[tactic(auto, using(crate::proofs::Positionals::word_lists))]
pub(crate) fn words_from(
    alloc: Global,
    words: &[String],
    place: usize,
) -> Result<Items<Text>, AllocError>
    ensures { IfOk result (λ rest. rest ≡ drop place (texts words.now)) }
{
    if words.len() <= place {
        return copies(alloc, &[]);
    }
    let (_, rest) = words.split_at(place);
    copies(alloc, rest)
}
