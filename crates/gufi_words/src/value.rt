//! What the value of an option, and a positional, must be.

ghost use Rattle.std.specs.Prelude.{◌≡◌, IfOk};
ghost use Rattle.gufi_base.specs.Delimiters.{is_letter_or_digit, is_delimiter};
ghost use Rattle.gufi_words.specs.WordValues.{read_delimiter, read_workers, read_cache, read_count, read_report, read_file, read_start, read_gids};

use crate::command::ReportWord;
use gufi_base::{Nums, Path, PathFault, Text, read_numbers, read_u32};
use std::alloc::{AllocError, Global};

/// The byte between the fields of a trace where the words name none.
pub(crate) const DEFAULT_DELIMITER: u8 = 0x1E;

fn is_letter_or_digit(byte: u8) -> bool
    ensures { result ≡ is_letter_or_digit byte }
{
    (b'0' <= byte && byte <= b'9')
        || (b'A' <= byte && byte <= b'Z')
        || (b'a' <= byte && byte <= b'z')
}

/// Whether a byte may be named as the one between the fields of a trace.
fn is_delimiter(byte: u8) -> bool
    ensures { result ≡ is_delimiter byte }
{
    b' ' <= byte
        && byte <= b'~'
        && !is_letter_or_digit(byte)
        && !(byte == b'/' || byte == b'-' || byte == b'.')
}

/// The byte between the fields of a trace.
pub(crate) fn read_delimiter(word: &str) -> Option<u8>
    ensures { result ≡ read_delimiter word.now }
{
    match word.as_bytes() {
        [byte] if is_delimiter(*byte) => Some(*byte),
        _ => None,
    }
}

/// How many workers.
pub(crate) fn read_workers(word: &str) -> Option<u32>
    ensures { result ≡ read_workers word.now }
{
    match read_u32(word.as_bytes()) {
        Some(count) if 1 <= count && count <= 32 => Some(count),
        _ => None,
    }
}

/// How many replies a lane keeps.
pub(crate) fn read_cache(word: &str) -> Option<u32>
    ensures { result ≡ read_cache word.now }
{
    match read_u32(word.as_bytes()) {
        Some(count) if 1 <= count && count <= 256 => Some(count),
        _ => None,
    }
}

/// How many directories the generator writes.
pub(crate) fn read_count(word: &str) -> Option<u32>
    ensures { result ≡ read_count word.now }
{
    match read_u32(word.as_bytes()) {
        Some(count) if 1 <= count && count <= 200000 => Some(count),
        _ => None,
    }
}

/// The report of `stats`.
pub(crate) fn read_report(word: &str) -> Option<ReportWord>
    ensures { result ≡ read_report word.now }
{
    match word {
        "levels" => Some(ReportWord::Levels),
        "uids" => Some(ReportWord::Uids),
        "gids" => Some(ReportWord::Gids),
        "leaves" => Some(ReportWord::Leaves),
        _ => None,
    }
}

/// A copy of the word, which names a file.
pub(crate) fn read_file(alloc: Global, word: &str) -> Result<Option<Text>, AllocError>
    ensures { IfOk result (λ file. file ≡ read_file word.now) }
{
    if word.is_empty() {
        return Ok(None);
    }
    let text = String::from_str(alloc, word)?;
    Ok(Some(Text::of(text)))
}

/// A copy of the word, whatever it is.
pub(crate) fn text_of(alloc: Global, word: &str) -> Result<Text, AllocError>
    ensures { IfOk result (λ text. text ≡ word.now) }
{
    Ok(Text::of(String::from_str(alloc, word)?))
}

/// The path of the start.
pub(crate) fn read_start(alloc: Global, word: &str) -> Result<Option<Path>, AllocError>
    ensures { IfOk result (λ path. path ≡ read_start word.now) }
{
    match Path::read(alloc, word.as_bytes()) {
        Ok(path) => Ok(Some(path)),
        Err(PathFault::Memory) => Err(AllocError),
        Err(_) => Ok(None),
    }
}

/// The ids of groups: `-` for none, or numbers between single commas.
pub(crate) fn read_gids(alloc: Global, word: &str) -> Result<Option<Nums>, AllocError>
    ensures { IfOk result (λ gids. gids ≡ read_gids word.now) }
{
    if word == "-" {
        return Ok(Some(Nums::of(Vec::new(alloc))));
    }
    match read_numbers(alloc, word.as_bytes())? {
        Some(numbers) => Ok(Some(Nums::of(numbers))),
        None => Ok(None),
    }
}
