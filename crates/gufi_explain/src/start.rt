//! What is told of a start that can't be listed.
ghost use Rattle.std.specs.Prelude.{◌≡◌, ◌++◌, OnOk};
ghost use Rattle.std.specs.List.{slice_get};
ghost use Rattle.gufi_explain.specs.Refused.{option_word};
ghost use Rattle.gufi_words.specs.WordTexts.{texts};
ghost use Rattle.gufi_base.specs.Paths.{read_path};
ghost use Rattle.gufi_explain.specs.Rules.{command_of};
ghost use Rattle.gufi_explain.specs.Starts.{before_start, place_behind, start_place, down_text, path_told, down_to, depth_word, start_kind, start_told};

use crate::note::{behind_marks, behind_word, first_word};
use crate::role::Role;
use crate::rules::{CommandForm, Rules, command_of, put_rule};
use crate::shown::{Wrapped, front, put_escaped, word_at};
use gufi_base::{Memory, Path, PathFault, behind, put, read_u32};
use std::alloc::Global;

// How many words of a command stand between its options and START, where it has one.
fn before_start(command: &CommandForm) -> Option<usize>
    ensures { result ≡ before_start command.now }
{
    command.words.iter().position(|entry| entry.name == "START")
}

// The place of the word behind the options that so many stand before.
fn place_behind(before: Option<usize>, role: Role) -> usize
    ensures { result ≡ place_behind before role }
{
    match (before, role) {
        (Some(before), Role::Behind(first)) => first.saturating_add(before),
        _ => 0,
    }
}

// The place of START, where the command has one.
fn start_place(rules: &Rules, words: &[String]) -> usize
    ensures { result ≡ start_place (command_of rules.now.commands.now (option_word (slice_get (texts words.now) 0))) (texts words.now) }
{
    let name = word_at(words, 0).unwrap_or("");
    match command_of(rules.commands, name.as_bytes()) {
        Some(command) => {
            let role = Role::behind(command.options, behind(words, 1));
            place_behind(before_start(command), role)
        }
        None => 0,
    }
}

// The text of a path up to the slash behind so many names.
#[tactic(auto, unfolding(crate::specs::Starts::down_text))]
fn down_text(text: &[u8], depth: u32) -> &[u8]
    ensures { result.now ≡ down_text depth text.now }
{
    if depth == 0 {
        return b"/";
    }
    match behind_marks(b'/', depth as usize + 1, text) {
        Some(rest) => front(
            text,
            text.len().saturating_sub(rest.len()).saturating_sub(1),
        ),
        None => text,
    }
}

// The path of a start down to a depth.
fn put_path(alloc: Global, out: &mut Vec<u8>, word: &str, depth: u32) -> Result<(), Memory>
    ensures { OnOk result (out.new.items ≡ out.old.items ++ path_told depth (read_path word.now)) }
{
    match Path::read(alloc, word.as_bytes()) {
        Ok(path) => {
            put(out, b"  at ")?;
            put_escaped(out, down_text(path.printed(), depth))?;
            put(out, b"\n")
        }
        Err(PathFault::Memory) => Err(Memory),
        Err(_) => Ok(()),
    }
}

// The same where the start is a word that isn't a wrapper's.
fn put_down(
    alloc: Global,
    out: &mut Vec<u8>,
    wrapped: Wrapped,
    words: &[String],
    place: usize,
    depth: Option<u32>,
) -> Result<(), Memory>
    ensures { OnOk result (out.new.items ≡ out.old.items ++ down_to wrapped place (slice_get (texts words.now) place) depth) }
{
    match (word_at(words, place), depth) {
        (Some(word), Some(depth)) if !wrapped.hides(place as u64 + 1) => {
            put_path(alloc, out, word, depth)
        }
        _ => Ok(()),
    }
}

// The number behind `depth`.
fn depth_word(what: &[u8]) -> &[u8]
    ensures { result.now ≡ depth_word what.now }
{
    let behind_three = behind_word(behind_word(behind_word(what)));
    let first = first_word(what);
    if first == "denied".as_bytes() {
        return first_word(behind_three);
    }
    if first == "no".as_bytes() {
        return first_word(behind_word(behind_three));
    }
    first_word(behind_word(behind_word(behind_three)))
}

// The kind of a refusal.
#[tactic(auto, unfolding(crate::specs::Starts::start_kind))]
fn start_kind(what: &[u8]) -> &[u8]
    ensures { result.now ≡ start_kind what.now }
{
    if first_word(behind_word(what)) == "there".as_bytes() {
        return b"there";
    }
    first_word(what)
}

/// Appends what is told of a note of status 1.
#[tactic(auto, unfolding(crate::specs::Starts::start_told))]
pub(crate) fn put_start(
    alloc: Global,
    out: &mut Vec<u8>,
    rules: &Rules,
    wrapped: Wrapped,
    words: &[String],
    note: &[u8],
) -> Result<(), Memory>
    ensures { OnOk result (out.new.items ≡ out.old.items ++ start_told rules.now wrapped (texts words.now) note.now) }
{
    let what = behind_word(note);
    let place = start_place(rules, words);
    let depth = read_u32(depth_word(what));
    put_down(alloc, out, wrapped, words, place, depth)?;
    put_rule(out, rules.start_kinds, start_kind(what))
}
