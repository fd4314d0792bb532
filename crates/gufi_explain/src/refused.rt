//! Why the words of a command are refused at one of them.
ghost use Rattle.std.specs.Prelude.{◌≡◌, ◌-◌, ◌++◌, OnOk, codes, drop, option_map, take};
ghost use Rattle.std.specs.Option.{option_copied};
ghost use Rattle.std.specs.List.{slice_get};
ghost use Rattle.gufi_words.specs.WordTexts.{texts};
ghost use Rattle.gufi_words.specs.WordOptions.{before_equals};
ghost use Rattle.gufi_explain.specs.Rules.{entry_of, command_of, listed, value_rule};
ghost use Rattle.gufi_explain.specs.Nearest.{nearest_line};
ghost use Rattle.gufi_explain.specs.Shown.{told};
ghost use Rattle.gufi_explain.specs.Refused.{commands_line, missing_line, unknown_line, why_command, options_line, is_given, value_line, why_known, why_option, why_value, passwd_of, passwd_line, begins_with_digit, name_lines, why_given, why_named, names_at, why_behind, why_role, why_word, refused_at, option_word};

use crate::nearest::put_nearest;
use crate::role::{Role, has_equals, name_of};
use crate::rules::{
    CommandForm, Entry, Rules, command_of, entry_of, names_behind, put_names, put_value_rule,
};
use crate::shown::{Wrapped, front, put_escaped, put_told, word_at};
use gufi_base::{Memory, behind, put};
use std::alloc::Global;

// A line of names behind a text.
fn put_listed(out: &mut Vec<u8>, text: &[u8], entries: &[Entry]) -> Result<(), Memory>
    ensures { OnOk result (out.new.items ≡ out.old.items ++ told (text.now ++ listed entries.now)) }
{
    put(out, b"  ")?;
    put(out, text)?;
    put_names(out, entries)?;
    put(out, b"\n")
}

// The line of all commands.
#[tactic(auto, unfolding(crate::specs::Refused::commands_line))]
fn put_commands(out: &mut Vec<u8>, rules: &Rules) -> Result<(), Memory>
    ensures { OnOk result (out.new.items ≡ out.old.items ++ commands_line rules.now) }
{
    put_listed(out, b"the commands are", rules.names)
}

// The commands, and the one that is nearest to a word.
fn put_near_commands(
    alloc: Global,
    out: &mut Vec<u8>,
    rules: &Rules,
    word: &str,
) -> Result<(), Memory>
    ensures { OnOk result (out.new.items ≡ out.old.items ++ (commands_line rules.now ++ nearest_line rules.now.names.now word.now)) }
{
    put_commands(out, rules)?;
    put_nearest(alloc, out, rules.names, word.as_bytes())
}

#[tactic(auto, unfolding(crate::specs::Refused::missing_line))]
fn put_missing(out: &mut Vec<u8>) -> Result<(), Memory>
    ensures { OnOk result (out.new.items ≡ out.old.items ++ missing_line) }
{
    put_told(out, b"COMMAND is missing")
}

#[tactic(auto, unfolding(crate::specs::Refused::unknown_line))]
fn put_unknown(out: &mut Vec<u8>) -> Result<(), Memory>
    ensures { OnOk result (out.new.items ≡ out.old.items ++ unknown_line) }
{
    put_told(out, b"no command")
}

// Why a first word is no command.
fn put_no_command(
    alloc: Global,
    out: &mut Vec<u8>,
    rules: &Rules,
    word: Option<&str>,
) -> Result<(), Memory>
    ensures { OnOk result (out.new.items ≡ out.old.items ++ why_command rules.now (option_map (λ word. word.now) word.entry)) }
{
    match word {
        Some(word) => {
            put_unknown(out)?;
            put_near_commands(alloc, out, rules, word)
        }
        None => {
            put_missing(out)?;
            put_commands(out, rules)
        }
    }
}

// A line of names behind a name between two texts.
fn put_listed_of(
    out: &mut Vec<u8>,
    before: &[u8],
    name: &str,
    after: &[u8],
    entries: &[Entry],
) -> Result<(), Memory>
    ensures { OnOk result (out.new.items ≡ out.old.items ++ told (before.now ++ (name.now ++ (after.now ++ listed entries.now)))) }
{
    put(out, b"  ")?;
    put(out, before)?;
    put(out, name.as_bytes())?;
    put(out, after)?;
    put_names(out, entries)?;
    put(out, b"\n")
}

// The options of a command, none of which a word is.
fn put_options(out: &mut Vec<u8>, command: &CommandForm) -> Result<(), Memory>
    ensures { OnOk result (out.new.items ≡ out.old.items ++ options_line command.now) }
{
    if command.options.is_empty() {
        return put_of(out, command.name, b" has no options");
    }
    let options = command.options;
    put_listed_of(
        out,
        b"not an option of ",
        command.name,
        b", whose options are",
        options,
    )
}

// Whether an option stands among the words.
fn is_given(words: &[String], option: &Entry) -> bool
    ensures { result ≡ is_given (texts words.now) option.now }
{
    for word in words {
        if name_of(word.as_str()) == option.name {
            return true;
        }
    }
    false
}

// What the value of an option must be, behind a text.
fn put_value_line(
    out: &mut Vec<u8>,
    rules: &Rules,
    option: &Entry,
    text: &[u8],
) -> Result<(), Memory>
    ensures { OnOk result (out.new.items ≡ out.old.items ++ told (codes "the value of " ++ (option.now.name.now ++ (text.now ++ value_rule rules.now.values.now option.now)))) }
{
    put(out, b"  the value of ")?;
    put(out, option.name.as_bytes())?;
    put(out, text)?;
    put_value_rule(out, rules.values, option)?;
    put(out, b"\n")
}

fn put_value(out: &mut Vec<u8>, rules: &Rules, option: &Entry) -> Result<(), Memory>
    ensures { OnOk result (out.new.items ≡ out.old.items ++ value_line rules.now option.now) }
{
    put_value_line(out, rules, option, b" is ")
}

/// Appends a line of a name and its rule, with a text between.
pub(crate) fn put_pair(out: &mut Vec<u8>, name: &str, text: &[u8], rule: &str) -> Result<(), Memory>
    ensures { OnOk result (out.new.items ≡ out.old.items ++ told (name.now ++ (text.now ++ rule.now))) }
{
    put(out, b"  ")?;
    put(out, name.as_bytes())?;
    put(out, text)?;
    put(out, rule.as_bytes())?;
    put(out, b"\n")
}

// A name, what is told of it, and the line's end.
fn put_of(out: &mut Vec<u8>, name: &str, tells: &[u8]) -> Result<(), Memory>
    ensures { OnOk result (out.new.items ≡ out.old.items ++ told (name.now ++ tells.now)) }
{
    put(out, b"  ")?;
    put(out, name.as_bytes())?;
    put(out, tells)?;
    put(out, b"\n")
}

// Why an option of the command isn't taken, behind these words.
fn put_known(
    out: &mut Vec<u8>,
    rules: &Rules,
    before: &[String],
    word: &str,
    option: &Entry,
) -> Result<(), Memory>
    ensures { OnOk result (out.new.items ≡ out.old.items ++ why_known rules.now (texts before.now) word.now option.now) }
{
    if is_given(before, option) {
        return put_of(out, option.name, b" is given twice");
    }
    if !has_equals(word) {
        return put_of(out, option.name, b" can't stand beside an option before it");
    }
    if option.value.is_empty() {
        return put_of(out, option.name, b" takes no value");
    }
    put_value(out, rules, option)
}

// Why an option isn't taken, behind these words.
fn put_option(
    alloc: Global,
    out: &mut Vec<u8>,
    rules: &Rules,
    command: &CommandForm,
    before: &[String],
    word: &str,
) -> Result<(), Memory>
    ensures { OnOk result (out.new.items ≡ out.old.items
        ++ why_option rules.now command.now (texts before.now) word.now (entry_of command.now.options.now (before_equals word.now))) }
{
    match entry_of(command.options, name_of(word).as_bytes()) {
        Some(option) => put_known(out, rules, before, word, option),
        None => {
            put_options(out, command)?;
            put_nearest(alloc, out, command.options, name_of(word).as_bytes())
        }
    }
}

// Why a value isn't taken, or that it is missing.
fn put_why_value(
    out: &mut Vec<u8>,
    rules: &Rules,
    word: Option<&str>,
    option: Option<&'static Entry>,
) -> Result<(), Memory>
    ensures { OnOk result (out.new.items ≡ out.old.items ++ why_value rules.now (option_map (λ word. word.now) word.entry) (option_copied option.entry)) }
{
    match option {
        Some(option) if word.is_some() => put_value(out, rules, option),
        Some(option) => put_value_line(out, rules, option, b" is missing: "),
        None => Ok(()),
    }
}

// The file that stands behind `--passwd`, in its own word or in the next.
fn passwd_of(words: &[String]) -> Option<&str>
    ensures { option_map (λ file. file.now) result ≡ passwd_of (texts words.now) }
{
    for (at, word) in words.iter().enumerate() {
        if name_of(word.as_str()) == "--passwd" {
            return match word.as_str().split_once('=') {
                Some((_, file)) => Some(file),
                None => word_at(behind(words, at + 1), 0),
            };
        }
    }
    None
}

// What is told of a name of USER that isn't known.
fn put_passwd(out: &mut Vec<u8>, wrapped: Wrapped, file: Option<&str>) -> Result<(), Memory>
    ensures { OnOk result (out.new.items ≡ out.old.items ++ passwd_line wrapped (option_map (λ file. file.now) file.entry)) }
{
    match file {
        None => put_told(out, b"names need --passwd"),
        Some(file) if wrapped.count == 0 => {
            put(out, b"  no such name in ")?;
            put_escaped(out, file.as_bytes())?;
            put(out, b"\n")
        }
        Some(_) => put_told(out, b"no such name"),
    }
}

fn begins_with_digit(word: &str) -> bool
    ensures { result ≡ begins_with_digit word.now }
{
    match word.as_bytes() {
        [first, ..] => b'0' <= *first && *first <= b'9',
        [] => false,
    }
}

fn put_user(
    out: &mut Vec<u8>,
    wrapped: Wrapped,
    before: &[String],
    word: &str,
) -> Result<(), Memory>
    ensures { OnOk result (out.new.items ≡ out.old.items ++ name_lines wrapped (texts before.now) word.now) }
{
    if begins_with_digit(word) {
        return Ok(());
    }
    put_passwd(out, wrapped, passwd_of(before))
}

// Why a word that stands for a name of the command isn't taken.
fn put_given(
    alloc: Global,
    out: &mut Vec<u8>,
    wrapped: Wrapped,
    names: &'static [Entry],
    before: &[String],
    word: &str,
    entry: &Entry,
) -> Result<(), Memory>
    ensures { OnOk result (out.new.items ≡ out.old.items ++ why_given wrapped names.now (texts before.now) word.now entry.now) }
{
    put_pair(out, entry.name, b" is ", entry.rule)?;
    if entry.name == "USER" {
        return put_user(out, wrapped, before, word);
    }
    put_nearest(alloc, out, names, word.as_bytes())
}

// Why the word of a name isn't taken, or that it is missing.
fn put_named(
    alloc: Global,
    out: &mut Vec<u8>,
    wrapped: Wrapped,
    names: &'static [Entry],
    before: &[String],
    word: Option<&str>,
    entry: &Entry,
) -> Result<(), Memory>
    ensures { OnOk result (out.new.items ≡ out.old.items
        ++ why_named wrapped names.now (texts before.now) (option_map (λ word. word.now) word.entry) entry.now) }
{
    match word {
        Some(word) => put_given(alloc, out, wrapped, names, before, word, entry),
        None => put_pair(out, entry.name, b" is missing: ", entry.rule),
    }
}

// The names that may stand in place of the word of a command that so many stand before.
fn names_at(rules: &Rules, command: &CommandForm, at: usize) -> &'static [Entry]
    ensures { result.now ≡ names_at rules.now command.now at }
{
    if command.words.len().saturating_sub(at) == 1 {
        return names_behind(rules.behind, command.name.as_bytes());
    }
    &[]
}

// Why a word behind the options isn't taken.
fn put_behind(
    alloc: Global,
    out: &mut Vec<u8>,
    rules: &Rules,
    wrapped: Wrapped,
    command: &CommandForm,
    before: &[String],
    word: Option<&str>,
    at: usize,
) -> Result<(), Memory>
    ensures { OnOk result (out.new.items ≡ out.old.items
        ++ why_behind rules.now wrapped command.now (texts before.now) (option_map (λ word. word.now) word.entry) at (slice_get command.now.words.now at)) }
{
    match command.words.get(at) {
        Some(entry) => {
            let names = names_at(rules, command, at);
            put_named(alloc, out, wrapped, names, before, word, entry)
        }
        None => put_pair(out, command.name, b" takes ", command.synopsis),
    }
}

// The words behind the name of a command and before a place.
#[tactic(auto, using(crate::proofs::Words::word_cuts))]
fn words_before(words: &[String], place: usize) -> &[String]
    ensures { texts result.now ≡ drop 1 (take place (texts words.now)) }
{
    behind(front(words, place), 1)
}

// The word at a place, or an empty one.
fn word_or_none(words: &[String], place: usize) -> &str
    ensures { result.now ≡ option_word (slice_get (texts words.now) place) }
{
    word_at(words, place).unwrap_or("")
}

// Why the value at a place isn't taken, or that it is missing.
fn put_value_at(
    out: &mut Vec<u8>,
    rules: &Rules,
    command: &CommandForm,
    words: &[String],
    place: usize,
) -> Result<(), Memory>
    ensures { OnOk result (out.new.items ≡ out.old.items ++ why_value rules.now (slice_get (texts words.now) place)
        (entry_of command.now.options.now (before_equals (option_word (slice_get (texts words.now) (place - 1)))))) }
{
    let option = name_of(word_or_none(words, place.saturating_sub(1)));
    let option = entry_of(command.options, option.as_bytes());
    put_why_value(out, rules, word_at(words, place), option)
}

// What is told of the word at a place of a command, by its role.
fn put_role(
    alloc: Global,
    out: &mut Vec<u8>,
    rules: &Rules,
    wrapped: Wrapped,
    command: &CommandForm,
    words: &[String],
    place: usize,
    role: Role,
) -> Result<(), Memory>
    ensures { OnOk result (out.new.items ≡ out.old.items ++ why_role rules.now wrapped command.now (texts words.now) place role) }
{
    match role {
        Role::Choice => {
            let before = words_before(words, place);
            put_option(
                alloc,
                out,
                rules,
                command,
                before,
                word_or_none(words, place),
            )
        }
        Role::Value if wrapped.hides(place as u64) => Ok(()),
        Role::Value => put_value_at(out, rules, command, words, place),
        Role::Behind(first) => {
            let before = words_before(words, place);
            let at = place.saturating_sub(first);
            put_behind(
                alloc,
                out,
                rules,
                wrapped,
                command,
                before,
                word_at(words, place),
                at,
            )
        }
    }
}

// What is told of the word at a place of the command of a name, or that there is none.
fn put_word(
    alloc: Global,
    out: &mut Vec<u8>,
    rules: &Rules,
    wrapped: Wrapped,
    words: &[String],
    place: usize,
    name: &str,
) -> Result<(), Memory>
    ensures { OnOk result (out.new.items ≡ out.old.items
        ++ why_word rules.now wrapped (texts words.now) place name.now (command_of rules.now.commands.now name.now)) }
{
    match command_of(rules.commands, name.as_bytes()) {
        Some(command) => {
            let role = Role::at(command.options, words, place);
            put_role(alloc, out, rules, wrapped, command, words, place, role)
        }
        None => put_no_command(alloc, out, rules, Some(name)),
    }
}

/// Appends the words with a mark under the one of a place, and why it is refused.
#[tactic(auto, unfolding(crate::specs::Refused::refused_at))]
pub(crate) fn put_refused(
    alloc: Global,
    out: &mut Vec<u8>,
    rules: &Rules,
    wrapped: Wrapped,
    words: &[String],
    place: usize,
) -> Result<(), Memory>
    ensures { OnOk result (out.new.items ≡ out.old.items ++ refused_at rules.now wrapped (texts words.now) place) }
{
    match word_at(words, 0) {
        Some(name) => {
            wrapped.put_marked(alloc, out, words, place)?;
            put_word(alloc, out, rules, wrapped, words, place, name)
        }
        None => put_no_command(alloc, out, rules, None),
    }
}
