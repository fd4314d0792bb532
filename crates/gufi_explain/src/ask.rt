//! What is shown of an ask whose words are no expression or no SELECT.
//!
//! What was read is let go by a call: what is let go at an early exit is proved there anew.
ghost use Rattle.std.specs.Prelude.{◌≡◌, ◌∷◌, ◌++◌, OnOk, IfOk, slice_index_or, [], true, false, Some, Ok};
ghost use Rattle.std.specs.List.{flat_map, join_with_byte};
ghost use Rattle.gufi_script.specs.ScriptText.{read_script};
ghost use Rattle.gufi_find.specs.Reading.{read_find};
ghost use Rattle.gufi_select.specs.Reading.{read_select};
ghost use Rattle.gufi_explain.specs.Scripts.{names_line, kind_lines, find_fault, find_lines, select_fault, select_lines, no_users, form_lines, act_lines, query_lines};

use crate::fault::put_text_name;
use crate::nearest::put_nearest;
use crate::refused::put_pair;
use crate::rules::{Rules, names_behind, put_rule};
use crate::script::{Setting, put_marked_word};
use crate::shown::{put_front, put_marked_part};
use gufi_base::{Bytes, Memory, put};
use gufi_find::{FindError, FindKind, read_find};
use gufi_script::{Act, Form, ScriptError, read_script};
use gufi_select::{SelectError, SelectKind, read_select};
use gufi_users::{Groups, Passwd, Users, read_group, read_passwd};
use std::alloc::{AllocError, Global};

#[tactic(auto, unfolding(gufi_users::specs::Users::read_passwd, gufi_users::specs::Users::read_rows))]
fn no_accounts(alloc: Global) -> Result<Passwd, Memory>
    ensures { IfOk result (λ users. users ≡ []) }
{
    match read_passwd(alloc, b"") {
        Ok(passwd) => Ok(passwd),
        Err(_) => Err(Memory),
    }
}

#[tactic(auto, unfolding(gufi_users::specs::Users::read_group, gufi_users::specs::Users::read_rows))]
fn no_groups(alloc: Global) -> Result<Groups, Memory>
    ensures { IfOk result (λ groups. groups ≡ []) }
{
    match read_group(alloc, b"") {
        Ok(groups) => Ok(groups),
        Err(_) => Err(Memory),
    }
}

// Tables of no user and no group.
fn no_users(alloc: Global) -> Result<Users, Memory>
    ensures { IfOk result (λ users. users ≡ no_users) }
{
    let passwd = no_accounts(alloc)?;
    match no_groups(alloc) {
        Ok(groups) => Users::of(alloc, passwd, groups),
        Err(memory) => {
            drop(passwd);
            Err(memory)
        }
    }
}

fn put_needed(out: &mut Vec<u8>, option: &[u8]) -> Result<(), Memory>
    ensures { OnOk result (out.new.items ≡ out.old.items ++ names_line option.now false) }
{
    put(out, b"  names need ")?;
    put(out, option)?;
    put(out, b"\n")
}

fn put_unread(out: &mut Vec<u8>, option: &[u8]) -> Result<(), Memory>
    ensures { OnOk result (out.new.items ≡ out.old.items ++ names_line option.now true) }
{
    let before = "it is that word, or one behind it: the file of ";
    put_pair(out, before, option, " isn't read again")
}

// What is told where a name isn't known: which option it needs, or that its file isn't read again.
fn put_names(out: &mut Vec<u8>, option: &[u8], is_given: bool) -> Result<(), Memory>
    ensures { OnOk result (out.new.items ≡ out.old.items ++ names_line option.now is_given) }
{
    if is_given {
        put_unread(out, option)
    } else {
        put_needed(out, option)
    }
}

// What is told of a kind beside its rule.
fn put_kind(
    alloc: Global,
    out: &mut Vec<u8>,
    rules: &Rules,
    setting: Setting,
    kind: FindKind,
    word: &[u8],
) -> Result<(), Memory>
    ensures { OnOk result (out.new.items ≡ out.old.items ++ kind_lines rules.now setting kind word.now) }
{
    match kind {
        FindKind::UnknownPrimary => {
            let names = names_behind(rules.behind, b"find");
            put_nearest(alloc, out, names, word)
        }
        FindKind::UnknownUser => put_names(out, b"--passwd", setting.has_passwd),
        FindKind::UnknownGroup => put_names(out, b"--group", setting.has_group),
        _ => Ok(()),
    }
}

fn word_at(words: &[Bytes], place: usize) -> &[u8]
    ensures { result.now ≡ slice_index_or words.now place [] }
{
    match words.get(place) {
        Some(word) => word.as_slice(),
        None => &[],
    }
}

// The line with a mark under the word of its expression that is at fault, and what is told of it.
fn put_find_fault(
    alloc: Global,
    out: &mut Vec<u8>,
    rules: &Rules,
    setting: Setting,
    line: &[u8],
    words: &[Bytes],
    number: u32,
    kind: FindKind,
) -> Result<(), Memory>
    ensures { OnOk result (out.new.items ≡ out.old.items ++ find_lines rules.now setting line.now words.now (Some (number, kind))) }
{
    put_marked_word(alloc, out, line, number as usize + 5)?;
    let name = format!(in alloc; "{kind}")?;
    put_rule(out, rules.word_kinds, name.as_bytes())?;
    let place = (number as usize).saturating_sub(1);
    put_kind(alloc, out, rules, setting, kind, word_at(words, place))
}

// The first fault of an expression, where no name is known: the number of its word, from 1, and the kind.
fn find_fault(
    alloc: Global,
    words: &[Bytes],
    now: Option<i64>,
) -> Result<Option<(u32, FindKind)>, Memory>
    ensures { IfOk result (λ fault. fault ≡ find_fault (read_find words.now no_users now)) }
{
    let users = no_users(alloc)?;
    let given = read_find(alloc, words, &users, now);
    drop(users);
    match given {
        Ok(expression) => {
            drop(expression);
            Ok(None)
        }
        Err(FindError::Fault { word, kind }) => Ok(Some((word, kind))),
        Err(FindError::Memory) => Err(Memory),
    }
}

fn put_find(
    alloc: Global,
    out: &mut Vec<u8>,
    rules: &Rules,
    setting: Setting,
    line: &[u8],
    words: &[Bytes],
) -> Result<(), Memory>
    ensures { OnOk result (out.new.items ≡ out.old.items ++ find_lines rules.now setting line.now words.now (find_fault (read_find words.now no_users setting.now))) }
{
    match find_fault(alloc, words, setting.now)? {
        Some((number, kind)) => {
            put_find_fault(alloc, out, rules, setting, line, words, number, kind)
        }
        None => put_front(out, line),
    }
}

fn put_others(text: &mut Vec<u8>, words: &[Bytes]) -> Result<(), AllocError>
    ensures { OnOk result (text.new.items ≡ text.old.items ++ flat_map (λ word. 32 ∷ word) words.now) }
{
    'words: for word in words {
        text.push(b' ')?;
        text.extend_from_slice(word.as_slice())?;
    }
    Ok(())
}

// The words, with a space between two.
fn joined(alloc: Global, words: &[Bytes]) -> Result<Vec<u8>, AllocError>
    ensures { IfOk result (λ text. text.items ≡ join_with_byte 32 words.now) }
{
    let [first, others @ ..] = words else {
        return Ok(Vec::new(alloc));
    };
    let mut text = Vec::from_slice(alloc, first.as_slice())?;
    put_others(&mut text, others)?;
    Ok(text)
}

// The first fault of a SELECT: its offset and the kind.
fn select_fault(alloc: Global, text: &[u8]) -> Result<Option<(u32, SelectKind)>, Memory>
    ensures { IfOk result (λ fault. fault ≡ select_fault (read_select text.now)) }
{
    match read_select(alloc, text) {
        Ok(select) => {
            drop(select);
            Ok(None)
        }
        Err(SelectError::Fault { at, kind }) => Ok(Some((at, kind))),
        Err(SelectError::Memory) => Err(Memory),
    }
}

// The line, the text of its SELECT with a mark under what is at fault, and what is told of it.
fn put_select_fault(
    alloc: Global,
    out: &mut Vec<u8>,
    rules: &Rules,
    line: &[u8],
    text: &[u8],
    offset: u32,
    kind: SelectKind,
) -> Result<(), Memory>
    ensures { OnOk result (out.new.items ≡ out.old.items ++ select_lines rules.now line.now text.now (Some (offset, kind))) }
{
    put_front(out, line)?;
    put_marked_part(alloc, out, text, offset as usize, 1)?;
    let name = format!(in alloc; "{kind}")?;
    put_rule(out, rules.text_kinds, name.as_bytes())?;
    let names = names_behind(rules.behind, b"query");
    put_text_name(alloc, out, names, text, offset as usize)
}

fn put_select(
    alloc: Global,
    out: &mut Vec<u8>,
    rules: &Rules,
    line: &[u8],
    text: &[u8],
) -> Result<(), Memory>
    ensures { OnOk result (out.new.items ≡ out.old.items ++ select_lines rules.now line.now text.now (select_fault (read_select text.now))) }
{
    match select_fault(alloc, text)? {
        Some((offset, kind)) => put_select_fault(alloc, out, rules, line, text, offset, kind),
        None => put_front(out, line),
    }
}

fn put_form(
    alloc: Global,
    out: &mut Vec<u8>,
    rules: &Rules,
    setting: Setting,
    line: &[u8],
    form: Form,
    words: &[Bytes],
) -> Result<(), Memory>
    ensures { OnOk result (out.new.items ≡ out.old.items ++ form_lines rules.now setting line.now form words.now) }
{
    match form {
        Form::Find | Form::Total => put_find(alloc, out, rules, setting, line, words),
        Form::Query => {
            let text = joined(alloc, words)?;
            put_select(alloc, out, rules, line, &text)
        }
    }
}

fn put_act(
    alloc: Global,
    out: &mut Vec<u8>,
    rules: &Rules,
    setting: Setting,
    line: &[u8],
    act: &Act,
) -> Result<(), Memory>
    ensures { OnOk result (out.new.items ≡ out.old.items ++ act_lines rules.now setting line.now act.now) }
{
    match act {
        Act::Ask { form, words, .. } => {
            put_form(alloc, out, rules, setting, line, *form, words.as_slice())
        }
        _ => put_front(out, line),
    }
}

fn put_first(
    alloc: Global,
    out: &mut Vec<u8>,
    rules: &Rules,
    setting: Setting,
    line: &[u8],
    acts: &[(u32, Act)],
) -> Result<(), Memory>
    ensures { OnOk result (out.new.items ≡ out.old.items ++ query_lines rules.now setting line.now (Ok acts.now)) }
{
    match acts {
        [(_, act), ..] => put_act(alloc, out, rules, setting, line, act),
        [] => put_front(out, line),
    }
}

/// Appends a line whose ask has a fault in its words, with the place of that.
pub(crate) fn put_query(
    alloc: Global,
    out: &mut Vec<u8>,
    rules: &Rules,
    setting: Setting,
    line: &[u8],
) -> Result<(), Memory>
    ensures { OnOk result (out.new.items ≡ out.old.items ++ query_lines rules.now setting line.now (read_script line.now)) }
{
    match read_script(alloc, line) {
        Ok(script) => {
            let told = put_first(alloc, out, rules, setting, line, script.acts.as_slice());
            drop(script);
            told
        }
        Err(ScriptError::Fault { .. }) => put_front(out, line),
        Err(ScriptError::Memory) => Err(Memory),
    }
}
