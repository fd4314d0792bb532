//! The notes of refusals.
ghost use Rattle.std.specs.Prelude.{◌≡◌, IfOk};
ghost use Rattle.gufi_top.specs.Reasons.{word_refused, word_fault, text_fault, not_found, past_limit, file_refused, line_refused, offset_refused, reason, start_refused};
ghost use Rattle.gufi_top.specs.Ends.{read_fault_note, write_fault_note, memory_note};
ghost use Rattle.gufi_line.specs.LineText.{fault_text};
ghost use Rattle.gufi_trace.specs.TraceText.{failure_text, of_tree};
ghost use Rattle.std.specs.Prelude.{◌++◌, codes, decimal};
ghost use Rattle.gufi_users.specs.Users.{user_kind_text};
ghost use Rattle.gufi_script.specs.ScriptText.{script_kind_text};
ghost use Rattle.gufi_roll.specs.CanRoll.{report_text};
ghost use Rattle.gufi_image.specs.Kinds.{image_kind_text};
ghost use Rattle.gufi_find.specs.Faults.{find_kind_text};
ghost use Rattle.gufi_select.specs.Faults.{select_kind_text};
ghost use Rattle.gufi_agg.specs.Faults.{agg_kind_text};
ghost use Rattle.gufi_forms.specs.Names.{column_name};
ghost use Rattle.gufi_base.specs.Basics.{line};

use gufi_agg::AggKind;
use gufi_base::Memory;
use gufi_find::FindKind;
use gufi_forms::column_name;
use gufi_image::ImageKind;
use gufi_roll::RollReport;
use gufi_script::ScriptKind;
use gufi_select::{Column, SelectKind};
use gufi_trace::{TraceFault, put_tree_fault};
use gufi_tree::TreeFault;
use gufi_users::UserKind;
use gufi_walk::{Refusal, put_refusal};
use std::alloc::{AllocError, Global};

pub(crate) fn not_found(alloc: Global, file: &str) -> Result<Vec<u8>, AllocError>
    ensures { IfOk result (λ note. note.items ≡ (not_found file.now).note) }
{
    Ok(format!(in alloc; "gufi: {file} not found\n")?.into_bytes())
}

pub(crate) fn past_limit(alloc: Global, file: &str, limit: u32) -> Result<Vec<u8>, AllocError>
    ensures { IfOk result (λ note. note.items ≡ (past_limit file.now limit).note) }
{
    Ok(format!(in alloc; "gufi: {file} limit {limit}\n")?.into_bytes())
}

/// A file of whose tree what is asked for can't be made.
pub(crate) fn file_refused(alloc: Global, file: &str, text: &str) -> Result<Vec<u8>, AllocError>
    ensures { IfOk result (λ note. note.items ≡ (file_refused file.now text.now).note) }
{
    Ok(format!(in alloc; "gufi: {file} {text}\n")?.into_bytes())
}

/// The path at which a directory was to be replaced is none.
pub(crate) fn not_there(alloc: Global) -> Result<Vec<u8>, AllocError>
    ensures { IfOk result (λ note. note.items ≡ (reason 1 (codes "not there")).note) }
{
    Vec::from_slice(alloc, b"gufi: not there\n")
}

/// Why a start can't be walked from.
pub(crate) fn start_refused(alloc: Global, refusal: Refusal) -> Result<Vec<u8>, Memory>
    ensures { IfOk result (λ note. note.items ≡ (start_refused refusal).note) }
{
    let mut note = Vec::from_slice(alloc, b"gufi: ")?;
    put_refusal(&mut note, refusal)?;
    note.push(b'\n')?;
    Ok(note)
}

pub(crate) fn word_refused(alloc: Global, word: u32) -> Result<Vec<u8>, AllocError>
    ensures { IfOk result (λ note. note.items ≡ (word_refused word).note) }
{
    let mut note = format!(in alloc; "gufi: word {word} refused")?.into_bytes();
    note.push(b'\n')?;
    Ok(note)
}

/// What a roll-up comes to.
pub(crate) fn report(alloc: Global, report: RollReport) -> Result<Vec<u8>, AllocError>
    ensures { IfOk result (λ note. note.items ≡ report_text report) }
{
    let RollReport {
        dirs,
        rolled,
        tops,
        rows,
    } = report;
    Ok(format!(in alloc; "rolled {rolled} of {dirs} tops {tops} rows {rows}\n")?.into_bytes())
}

/// Of how many asks of a session how many were answered by what their lanes kept.
pub(crate) fn cache_hits(alloc: Global, hits: u64, asks: u64) -> Result<Vec<u8>, AllocError>
    ensures { IfOk result (λ note. note.items ≡ line (codes "cache hits " ++ decimal hits ++ codes " of " ++ decimal asks)) }
{
    Ok(format!(in alloc; "cache hits {hits} of {asks}\n")?.into_bytes())
}

/// A word of an expression that is at fault.
pub(crate) fn find_word(alloc: Global, word: u32, kind: FindKind) -> Result<Vec<u8>, AllocError>
    ensures { IfOk result (λ note. note.items ≡ (word_fault word (find_kind_text kind)).note) }
{
    Ok(format!(in alloc; "gufi: word {word} {kind}\n")?.into_bytes())
}

pub(crate) fn read_fault() -> &'static [u8]
    ensures { result.now ≡ read_fault_note }
{
    b"gufi: read fault\n"
}

pub(crate) fn write_fault() -> &'static [u8]
    ensures { result.now ≡ write_fault_note }
{
    b"gufi: write fault\n"
}

pub(crate) fn memory() -> &'static [u8]
    ensures { result.now ≡ memory_note }
{
    b"gufi: no memory\n"
}

/// The line of a trace that is at fault, and its fault.
pub(crate) fn trace_line(
    alloc: Global,
    file: &str,
    fault: &TraceFault,
) -> Result<Vec<u8>, AllocError>
    ensures { IfOk result (λ note. note.items ≡ (line_refused file.now (fault_text fault.now)).note) }
{
    let mut note = format!(in alloc; "gufi: {file} line ")?.into_bytes();
    if fault.put(&mut note).is_err() {
        return Err(AllocError);
    }
    note.push(b'\n')?;
    Ok(note)
}

/// The line of a passwd or group file that is at fault, and its fault.
pub(crate) fn user_line(
    alloc: Global,
    file: &str,
    number: u32,
    kind: UserKind,
) -> Result<Vec<u8>, AllocError>
    ensures { IfOk result (λ note. note.items ≡ (line_refused file.now (decimal number ++ codes " " ++ user_kind_text kind)).note) }
{
    let mut note = format!(in alloc; "gufi: {file} line {number} {kind}")?.into_bytes();
    note.push(b'\n')?;
    Ok(note)
}

/// The line of a script that is at fault, and its fault.
pub(crate) fn script_line(
    alloc: Global,
    file: &str,
    number: u32,
    kind: ScriptKind,
) -> Result<Vec<u8>, AllocError>
    ensures { IfOk result (λ note. note.items ≡ (line_refused file.now (decimal number ++ codes " " ++ script_kind_text kind)).note) }
{
    let mut note = format!(in alloc; "gufi: {file} line {number} {kind}")?.into_bytes();
    note.push(b'\n')?;
    Ok(note)
}

/// The line of a trace that is no tree, and its fault.
pub(crate) fn tree_line(alloc: Global, file: &str, fault: TreeFault) -> Result<Vec<u8>, AllocError>
    ensures { IfOk result (λ note. note.items ≡ (line_refused file.now (failure_text (of_tree fault))).note) }
{
    let mut note = format!(in alloc; "gufi: {file} line ")?.into_bytes();
    if put_tree_fault(&mut note, fault).is_err() {
        return Err(AllocError);
    }
    note.push(b'\n')?;
    Ok(note)
}

/// An offset in the text of a query that is at fault.
pub(crate) fn select_word(
    alloc: Global,
    word: u32,
    offset: u32,
    kind: SelectKind,
) -> Result<Vec<u8>, AllocError>
    ensures { IfOk result (λ note. note.items ≡ (text_fault word offset (select_kind_text kind)).note) }
{
    Ok(format!(in alloc; "gufi: word {word} at {offset} {kind}\n")?.into_bytes())
}

/// An offset in the text of an agg that is at fault.
pub(crate) fn agg_word(
    alloc: Global,
    word: u32,
    offset: u32,
    kind: AggKind,
) -> Result<Vec<u8>, AllocError>
    ensures { IfOk result (λ note. note.items ≡ (text_fault word offset (agg_kind_text kind)).note) }
{
    Ok(format!(in alloc; "gufi: word {word} at {offset} {kind}\n")?.into_bytes())
}

/// A column that is named twice, where each has to be a member of one object.
pub(crate) fn column_twice(alloc: Global, word: u32, column: Column) -> Result<Vec<u8>, AllocError>
    ensures { IfOk result (λ note. note.items ≡ (word_fault word (codes "Twice " ++ column_name column)).note) }
{
    let name = column_name(column);
    Ok(format!(in alloc; "gufi: word {word} Twice {name}\n")?.into_bytes())
}

/// The offset of a field of an image that is at fault, and its fault.
pub(crate) fn image_field(
    alloc: Global,
    file: &str,
    offset: u32,
    kind: ImageKind,
) -> Result<Vec<u8>, AllocError>
    ensures { IfOk result (λ note. note.items ≡ (offset_refused file.now offset (image_kind_text kind)).note) }
{
    Ok(format!(in alloc; "gufi: {file} offset {offset} {kind}\n")?.into_bytes())
}
