//! The act that the words of a line are.
ghost use Rattle.std.specs.Prelude.{◌≡◌, ok_or, slice_index_or, [], bytes_eq, length};
ghost use Rattle.gufi_base.specs.Basics.{GivesUnless, result_map_err};
ghost use Rattle.gufi_script.specs.Acts.{read_limit, read_lane, read_path_word, read_file_word, read_form_word, has_ask_words, read_publish, read_rollup, read_refresh, read_barrier, read_ask, read_act};

use crate::act::{Act, Form};
use crate::fault::{LineFault, ScriptKind};
use gufi_base::{Bytes, Items, Memory, Path, PathFault, Text, read_u32, read_u64};
use std::alloc::Global;
use std::str;

/// How many lanes there may be.
const MAX_LANES: u32 = 16;

fn word_at(words: &[Bytes], place: usize) -> &[u8]
    ensures { result.now ≡ slice_index_or words.now place [] }
{
    match words.get(place) {
        Some(word) => word.as_slice(),
        None => &[],
    }
}

fn limit_of(text: &[u8]) -> Result<u64, ScriptKind>
    ensures { result ≡ read_limit text.now }
{
    read_u64(text).ok_or(ScriptKind::Number)
}

fn lane_of(text: &[u8]) -> Result<u32, ScriptKind>
    ensures { result ≡ read_lane text.now }
{
    match read_u32(text) {
        Some(lane) if lane >= 1 && lane <= MAX_LANES => Ok(lane),
        _ => Err(ScriptKind::Lane),
    }
}

fn path_of(alloc: Global, text: &[u8]) -> Result<Path, LineFault>
    ensures { GivesUnless LineFault.Memory result (result_map_err LineFault.Kind (read_path_word text.now)) }
{
    match Path::read(alloc, text) {
        Ok(path) => Ok(path),
        Err(PathFault::Memory) => Err(LineFault::Memory),
        Err(_) => Err(LineFault::Kind(ScriptKind::Path)),
    }
}

#[tactic(auto, using(crate::proofs::ReadLemmas::is_text, crate::proofs::ReadLemmas::no_utf8))]
fn file_of(alloc: Global, text: &[u8]) -> Result<Text, LineFault>
    ensures { GivesUnless LineFault.Memory result (result_map_err LineFault.Kind (read_file_word text.now)) }
{
    if text.is_empty() {
        return Err(LineFault::Kind(ScriptKind::File));
    }
    let Ok(name) = str::from_utf8(text) else {
        return Err(LineFault::Kind(ScriptKind::File));
    };
    Ok(Text::of(String::from_str(alloc, name)?))
}

fn form_of(text: &[u8]) -> Result<Form, ScriptKind>
    ensures { result ≡ read_form_word text.now }
{
    if text == b"find".as_slice() {
        Ok(Form::Find)
    } else if text == b"total".as_slice() {
        Ok(Form::Total)
    } else if text == b"query".as_slice() {
        Ok(Form::Query)
    } else {
        Err(ScriptKind::Form)
    }
}

#[tactic(auto, unfolding(crate::specs::Acts::read_publish))]
fn publish_of(alloc: Global, words: &[Bytes]) -> Result<Act, LineFault>
    ensures { GivesUnless LineFault.Memory result (result_map_err LineFault.Kind (read_publish words.now)) }
{
    if words.len() != 3 {
        return Err(LineFault::Kind(ScriptKind::Count));
    }
    let limit = limit_of(word_at(words, 1))?;
    let file = file_of(alloc, word_at(words, 2))?;
    Ok(Act::Publish { limit, file })
}

#[tactic(auto, unfolding(crate::specs::Acts::read_rollup))]
fn rollup_of(words: &[Bytes]) -> Result<Act, ScriptKind>
    ensures { result ≡ read_rollup words.now }
{
    if words.len() != 2 {
        return Err(ScriptKind::Count);
    }
    let limit = limit_of(word_at(words, 1))?;
    Ok(Act::Rollup { limit })
}

#[tactic(auto, unfolding(crate::specs::Acts::read_refresh))]
fn refresh_of(alloc: Global, words: &[Bytes]) -> Result<Act, LineFault>
    ensures { GivesUnless LineFault.Memory result (result_map_err LineFault.Kind (read_refresh words.now)) }
{
    if words.len() != 3 {
        return Err(LineFault::Kind(ScriptKind::Count));
    }
    let path = path_of(alloc, word_at(words, 1))?;
    let file = file_of(alloc, word_at(words, 2))?;
    Ok(Act::Refresh { path, file })
}

fn barrier_of(words: &[Bytes]) -> Result<Act, ScriptKind>
    ensures { result ≡ read_barrier words.now }
{
    if words.len() != 1 {
        return Err(ScriptKind::Count);
    }
    Ok(Act::Barrier)
}

fn has_ask_words(words: &[Bytes]) -> bool
    ensures { result ≡ has_ask_words words.now }
{
    words.len() >= 5 && (words.len() >= 6 || word_at(words, 4) != b"query".as_slice())
}

// The words behind the form are moved into the act.
#[tactic(auto, unfolding(crate::specs::Acts::read_ask))]
fn ask_of(alloc: Global, words: Vec<Bytes>) -> Result<Act, LineFault>
    ensures { GivesUnless LineFault.Memory result (result_map_err LineFault.Kind (read_ask words.items)) }
{
    let mut words = words;
    if !has_ask_words(&words) {
        return Err(LineFault::Kind(ScriptKind::Count));
    }
    let lane = lane_of(word_at(&words, 1))?;
    let path = path_of(alloc, word_at(&words, 3))?;
    let form = form_of(word_at(&words, 4))?;
    let user = Bytes::from_slice(alloc, word_at(&words, 2))?;
    let rest = words.split_off(5)?;
    Ok(Act::Ask {
        lane,
        user,
        path,
        form,
        words: Items::of(rest),
    })
}

/// The act that the words are, of which the first is the verb.
#[tactic(auto, unfolding(crate::specs::Acts::read_act))]
pub(crate) fn act_of(alloc: Global, words: Vec<Bytes>) -> Result<Act, LineFault>
    ensures { GivesUnless LineFault.Memory result (result_map_err LineFault.Kind (read_act (slice_index_or words.items 0 []) words.items)) }
{
    let verb = word_at(&words, 0);
    if verb == b"publish".as_slice() {
        publish_of(alloc, &words)
    } else if verb == b"rollup".as_slice() {
        Ok(rollup_of(&words)?)
    } else if verb == b"refresh".as_slice() {
        refresh_of(alloc, &words)
    } else if verb == b"ask".as_slice() {
        ask_of(alloc, words)
    } else if verb == b"barrier".as_slice() {
        Ok(barrier_of(&words)?)
    } else {
        Err(LineFault::Kind(ScriptKind::Verb))
    }
}
