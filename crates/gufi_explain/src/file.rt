//! What is told of a file that can't be read, that is damaged, or that passes a limit.
ghost use Rattle.std.specs.Prelude.{◌≡◌, ◌++◌, OnOk, Some, option_map};
ghost use Rattle.gufi_words.specs.WordTexts.{texts};
ghost use Rattle.gufi_explain.specs.Files.{name_before, error_told, unread, damaged_line, line_told, offset_told, shown_line, shown_offset, line_lines, offset_lines, damage_lines, damage_told, limit_lines, limit_told};

use crate::error::error_words;
use crate::note::{before_mark, behind_file, behind_marks, behind_word, first_word};
use crate::rules::{Rules, put_rule};
use crate::script::{Setting, put_script_line, setting_of};
use crate::shown::{front, put_escaped, put_front, put_told};
use gufi_base::{Memory, behind, put, read_u32};
use std::alloc::Global;
use std::io::ErrorKind;

// The name of the file, where it may be shown.
fn put_name(out: &mut Vec<u8>, files: bool, file: Option<&str>) -> Result<(), Memory>
    ensures { OnOk result (out.new.items ≡ out.old.items ++ name_before files (option_map (λ file. file.now) file.entry)) }
{
    match file {
        Some(file) if files => {
            put_escaped(out, file.as_bytes())?;
            put(out, b": ")
        }
        _ => Ok(()),
    }
}

/// Appends why a file couldn't be read, with its name where that may be shown.
pub(crate) fn put_error(
    out: &mut Vec<u8>,
    files: bool,
    file: Option<&str>,
    error: Option<ErrorKind>,
) -> Result<(), Memory>
    ensures { OnOk result (out.new.items ≡ out.old.items ++ error_told files (option_map (λ file. file.now) file.entry) error) }
{
    match error {
        Some(kind) => {
            put(out, b"  ")?;
            put_name(out, files, file)?;
            put(out, error_words(kind).as_bytes())?;
            put(out, b"\n")
        }
        None => Ok(()),
    }
}

fn put_unread(out: &mut Vec<u8>) -> Result<(), Memory>
    ensures { OnOk result (out.new.items ≡ out.old.items ++ unread) }
{
    put_told(out, b"what stands there can't be read again")
}

// A line that is damaged so.
fn put_damaged(
    alloc: Global,
    out: &mut Vec<u8>,
    rules: &Rules,
    script: Option<Setting>,
    kind: &[u8],
    line: &[u8],
) -> Result<(), Memory>
    ensures { OnOk result (out.new.items ≡ out.old.items ++ damaged_line rules.now script kind.now line.now) }
{
    match script {
        Some(setting) => put_script_line(alloc, out, rules, setting, kind, line),
        None => put_front(out, line),
    }
}

// The line of a number.
fn put_line(
    alloc: Global,
    out: &mut Vec<u8>,
    rules: &Rules,
    script: Option<Setting>,
    kind: &[u8],
    bytes: Option<&[u8]>,
    number: u32,
) -> Result<(), Memory>
    ensures { OnOk result (out.new.items ≡ out.old.items ++ line_told rules.now script kind.now (option_map (λ bytes. bytes.now) bytes.entry) number) }
{
    let Some(bytes) = bytes else {
        return put_unread(out);
    };
    match behind_marks(b'\n', (number as usize).saturating_sub(1), bytes) {
        Some(text) => {
            let line = before_mark(b'\n', text);
            put_damaged(alloc, out, rules, script, kind, line)
        }
        None => put_unread(out),
    }
}

// The first bytes from an offset on.
fn put_offset(out: &mut Vec<u8>, bytes: Option<&[u8]>, offset: u32) -> Result<(), Memory>
    ensures { OnOk result (out.new.items ≡ out.old.items ++ offset_told (option_map (λ bytes. bytes.now) bytes.entry) offset) }
{
    let Some(bytes) = bytes else {
        return put_unread(out);
    };
    let offset = offset as usize;
    if offset >= bytes.len() {
        return put_told(out, b"the file ends there");
    }
    put(out, b"  ")?;
    put_escaped(out, front(behind(bytes, offset), 16))?;
    put(out, b"\n")
}

// What a note tells behind `line`: the number, the kind and perhaps a field's number.
#[tactic(auto, unfolding(crate::specs::Files::line_lines))]
fn put_line_fault(
    alloc: Global,
    out: &mut Vec<u8>,
    rules: &Rules,
    files: bool,
    script: Option<Setting>,
    bytes: Option<&[u8]>,
    what: &[u8],
) -> Result<(), Memory>
    ensures { OnOk result (out.new.items ≡ out.old.items ++ line_lines rules.now files script (option_map (λ bytes. bytes.now) bytes.entry) what.now) }
{
    let kind = behind_word(what);
    if let Some(number) = read_u32(first_word(what))
        && files
    {
        put_line(alloc, out, rules, script, first_word(kind), bytes, number)?;
    }
    put_rule(out, rules.line_kinds, first_word(kind))?;
    put_rule(out, rules.fields, first_word(behind_word(kind)))
}

// What a note tells behind `offset`: the offset and the kind.
#[tactic(auto, unfolding(crate::specs::Files::offset_lines))]
fn put_offset_fault(
    out: &mut Vec<u8>,
    rules: &Rules,
    files: bool,
    bytes: Option<&[u8]>,
    what: &[u8],
) -> Result<(), Memory>
    ensures { OnOk result (out.new.items ≡ out.old.items ++ offset_lines rules.now files (option_map (λ bytes. bytes.now) bytes.entry) what.now) }
{
    if let Some(offset) = read_u32(first_word(what))
        && files
    {
        put_offset(out, bytes, offset)?;
    }
    put_rule(out, rules.offset_kinds, first_word(behind_word(what)))
}

/// Appends what is told of a note of status 5, of the file that was opened last.
pub(crate) fn put_damage(
    alloc: Global,
    out: &mut Vec<u8>,
    rules: &Rules,
    files: bool,
    words: &[String],
    bytes: Option<&[u8]>,
    file: Option<&str>,
    note: &[u8],
) -> Result<(), Memory>
    ensures { OnOk result (out.new.items ≡ out.old.items
        ++ damage_told rules.now files (texts words.now) (option_map (λ bytes. bytes.now) bytes.entry) (option_map (λ file. file.now) file.entry) note.now) }
{
    let Some(file) = file else {
        return Ok(());
    };
    let script = setting_of(alloc, words, file)?;
    match behind_file(file, note) {
        Some(what) if first_word(what) == "line".as_bytes() => {
            put_line_fault(alloc, out, rules, files, script, bytes, behind_word(what))
        }
        Some(what) if first_word(what) == "offset".as_bytes() => {
            put_offset_fault(out, rules, files, bytes, behind_word(what))
        }
        Some(what) => put_rule(out, rules.file_kinds, first_word(what)),
        None => Ok(()),
    }
}

/// Appends what is told of a note of status 6, of the file that was opened last.
pub(crate) fn put_limit(
    out: &mut Vec<u8>,
    rules: &Rules,
    file: Option<&str>,
    note: &[u8],
) -> Result<(), Memory>
    ensures { OnOk result (out.new.items ≡ out.old.items ++ limit_told rules.now (option_map (λ file. file.now) file.entry) note.now) }
{
    let Some(file) = file else {
        return Ok(());
    };
    match behind_file(file, note) {
        Some(what) => put_rule(out, rules.limits, first_word(behind_word(what))),
        None => Ok(()),
    }
}
