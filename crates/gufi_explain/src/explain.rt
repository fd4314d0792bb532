//! The explanation behind the note of a run, and the option that asks for it.
ghost use Rattle.std.specs.Prelude.{◌≡◌, IfOk, MatchOption, None, Some, option_map, drop};
ghost use Rattle.gufi_words.specs.WordTexts.{texts};
ghost use Rattle.gufi_explain.specs.Explained.{detail_in, detail_of, explained};

use crate::fault::put_word;
use crate::file::{put_damage, put_error, put_limit};
use crate::rules::Rules;
use crate::shown::{Wrapped, put_told};
use crate::start::put_start;
use gufi_base::Memory;
use std::alloc::Global;
use std::io::ErrorKind;

/// How much is told.
#[derive(Clone, Copy)]
pub enum Detail {
    /// Nothing of any file.
    Alone,
    /// Names and contents of files too.
    Files,
}

/// A run that has ended, and what is known of its files.
#[derive(Clone, Copy)]
pub struct Ended<'t> {
    pub words: &'t [String],
    pub status: u8,
    pub note: &'t [u8],
    /// The name of the file that was opened last.
    pub file: Option<&'t str>,
    /// Why a call on a file failed last.
    pub error: Option<ErrorKind>,
    /// The bytes of that file, where they can be read again.
    pub bytes: Option<&'t [u8]>,
}

#[tactic(auto, unfolding(crate::specs::Explained::detail_in))]
fn detail_in(word: &str) -> Option<Detail>
    ensures { result ≡ detail_in word.now }
{
    match word {
        "--explain" => Some(Detail::Alone),
        "--explain=files" => Some(Detail::Files),
        _ => None,
    }
}

/// What the first word asks for, where it is `--explain` or `--explain=files`, and the words behind it.
pub fn detail_words(words: &[String]) -> Option<(Detail, &[String])>
    ensures { MatchOption result (detail_of (texts words.now) ≡ None)
        (λ asked. (detail_of (texts words.now) ≡ Some asked.0) × (texts asked.1.now ≡ drop 1 (texts words.now))) }
{
    match words {
        [option, behind @ ..] => Some((detail_in(option.as_str())?, behind)),
        [] => None,
    }
}

/// What stands behind the note of a run that ended with a status other than 0; nothing where that could only repeat it.
#[tactic(auto, unfolding(crate::specs::Explained::explained))]
pub fn explained(
    alloc: Global,
    rules: &Rules,
    wrapped: Wrapped,
    files: bool,
    ended: &Ended<'_>,
) -> Result<Vec<u8>, Memory>
    ensures { IfOk result (λ text. text.items ≡ explained rules.now wrapped files (texts ended.now.words.now) ended.now.status ended.now.note.now
        (option_map (λ file. file.now) ended.now.file) ended.now.error (option_map (λ bytes. bytes.now) ended.now.bytes)) }
{
    let mut text = Vec::new(alloc);
    match ended.status {
        1 => put_start(alloc, &mut text, rules, wrapped, ended.words, ended.note)?,
        2 => put_word(alloc, &mut text, rules, wrapped, ended.words, ended.note)?,
        3 | 8 => put_error(&mut text, files, ended.file, ended.error)?,
        4 => put_told(&mut text, b"standard output couldn't be written")?,
        5 => put_damage(
            alloc,
            &mut text,
            rules,
            files,
            ended.words,
            ended.bytes,
            ended.file,
            ended.note,
        )?,
        6 => put_limit(&mut text, rules, ended.file, ended.note)?,
        _ => {}
    }
    Ok(text)
}
