//! The trace of a tree.

ghost use Rattle.std.specs.Prelude.{◌≡◌, ◌+◌, ◌^◌, ◌<◌, ◌++◌, ◌||◌, length, IsTrue, OnOk};
ghost use Rattle.std.specs.List.{flat_map, list_any};
ghost use Rattle.gufi_base.specs.declared.record.Rec.{Rec};
ghost use Rattle.gufi_base.specs.Delimiters.{may_delimit};
ghost use Rattle.gufi_base.specs.Paths.{is_too_long};
ghost use Rattle.gufi_acl.specs.AclTexts.{acl_text};
ghost use Rattle.gufi_tree.specs.Tree.{own_rows};
ghost use Rattle.gufi_line.specs.TraceRows.{holds_byte, rec_holds as of_rec, row_holds};
ghost use Rattle.gufi_trace.specs.TraceWriting.{trace_text, written_trace, TraceReadsBack};
ghost use Rattle.gufi_trace.specs.Writing.{directory, own_holds, own_too_long, own_text, is_over as passes_limits, GivesText};

use gufi_base::{Memory, Path, PathRef, RecRef};
use gufi_line::{put_directory, put_entry};
use gufi_tree::{DirId, EntriesRef, EntryRef, Tree};
use std::alloc::Global;
use thiserror::Error;

/// So many bytes of a list are one entry.
const ENTRY: usize = 6;

/// Why a tree isn't written as a trace.
#[derive(Clone, Copy, Debug, PartialEq, Eq, Error)]
pub enum WriteTraceFault {
    #[error("a name, a link, the names of extended attributes or an access control list hold the delimiter")]
    DelimUsed,
    #[error("a path is too long")]
    TooLong,
    #[error("out of memory")]
    Memory,
}

fn holds(bytes: &[u8], delim: u8) -> bool
    ensures { result ≡ holds_byte delim bytes.now }
{
    bytes.iter().any(|b| *b == delim)
}

fn path_holds(path: &PathRef<'_>, delim: u8) -> bool
    requires { IsTrue (may_delimit delim) }
    ensures { result ≡ list_any (holds_byte delim) path.now }
{
    holds(path.text(), delim)
}

/// Whether the text of a list holds the delimiter: of its bytes only the colons in an entry and the commas between entries may delimit.
fn list_holds(acl: &[u8], delim: u8) -> bool
    requires { IsTrue (may_delimit delim) }
    ensures { result ≡ holds_byte delim (acl_text acl.now) }
{
    if delim == b':' {
        return acl.len() >= ENTRY;
    }
    delim == b',' && acl.len() >= 2 * ENTRY
}

/// Whether the link, the names of extended attributes or the text of the list hold the delimiter.
fn rec_holds(rec: &RecRef<'_>, delim: u8) -> bool
    requires { IsTrue (may_delimit delim) }
    ensures { result ≡ of_rec delim rec.now }
{
    holds(rec.link(), delim) || holds(rec.xattrs(), delim) || list_holds(rec.acl(), delim)
}

fn entry_holds(entry: &EntryRef<'_>, delim: u8) -> bool
    requires { IsTrue (may_delimit delim) }
    ensures { result ≡ (holds_byte delim entry.now.name || of_rec delim entry.now.rec) }
{
    holds(entry.name(), delim) || rec_holds(&entry.rec(), delim)
}

fn any_entry_holds(entries: &EntriesRef<'_>, delim: u8) -> bool
    requires { IsTrue (may_delimit delim) }
    ensures { result ≡ list_any (λ entry. holds_byte delim entry.name || of_rec delim entry.rec) entries.now }
{
    for place in 0..entries.len() {
        if entry_holds(&entries.at(place), delim) {
            return true;
        }
    }
    false
}

/// Whether a row of a directory holds the delimiter.
fn directory_holds(
    path: &PathRef<'_>,
    rec: &RecRef<'_>,
    entries: &EntriesRef<'_>,
    delim: u8,
) -> bool
    requires { IsTrue (may_delimit delim) }
    ensures { result ≡ own_holds delim (directory path.now rec.now entries.now) }
{
    let in_path = path_holds(path, delim);
    let in_rec = rec_holds(rec, delim);
    let in_entry = any_entry_holds(entries, delim);
    in_path || in_rec || in_entry
}

fn is_over(names: u128, bytes: u128) -> bool
    ensures { result ≡ passes_limits names bytes }
{
    names > 256 || bytes > 4096
}

fn entry_is_over(names: u128, bytes: u128, entry: &EntryRef<'_>) -> bool
    requires few { names < 2 ^ 100 }
    requires short { bytes < 2 ^ 100 }
    ensures { result ≡ passes_limits (names + 1) (bytes + (1 + length entry.now.name)) }
{
    is_over(names + 1, bytes + (1 + entry.name().len() as u128))
}

fn any_entry_is_over(names: u128, bytes: u128, entries: &EntriesRef<'_>) -> bool
    requires few { names < 2 ^ 100 }
    requires short { bytes < 2 ^ 100 }
    ensures { result ≡ list_any (λ entry. passes_limits (names + 1) (bytes + (1 + length entry.name))) entries.now }
{
    for place in 0..entries.len() {
        if entry_is_over(names, bytes, &entries.at(place)) {
            return true;
        }
    }
    false
}

/// Whether a row of a directory is too long below the root.
fn directory_is_too_long(
    root: &PathRef<'_>,
    path: &PathRef<'_>,
    rec: &RecRef<'_>,
    entries: &EntriesRef<'_>,
) -> bool
    ensures { result ≡ own_too_long root.now (directory path.now rec.now entries.now) }
{
    let names = root.depth() as u128 + path.depth() as u128;
    let bytes = root.text().len() as u128 + path.text().len() as u128 - 2;
    let own = is_over(names, bytes);
    let entry = any_entry_is_over(names, bytes, entries);
    own || entry
}

fn is_delim_used(tree: &Tree, delim: u8) -> bool
    requires { IsTrue (may_delimit delim) }
    ensures { result ≡ list_any (row_holds delim) (flat_map own_rows tree.now) }
{
    for number in 0..tree.dirs() {
        let id = DirId(number);
        if directory_holds(&tree.path(id), &tree.rec(id), &tree.entries(id), delim) {
            return true;
        }
    }
    false
}

fn is_any_too_long(tree: &Tree, root: &PathRef<'_>) -> bool
    ensures { result ≡ list_any (λ row. is_too_long (root.now ++ row.path)) (flat_map own_rows tree.now) }
{
    for number in 0..tree.dirs() {
        let id = DirId(number);
        if directory_is_too_long(root, &tree.path(id), &tree.rec(id), &tree.entries(id)) {
            return true;
        }
    }
    false
}

/// The stanza of a directory.
fn put_stanza(
    out: &mut Vec<u8>,
    root: &PathRef<'_>,
    delim: u8,
    path: &PathRef<'_>,
    rec: &RecRef<'_>,
    entries: &EntriesRef<'_>,
) -> Result<(), Memory>
    ensures { OnOk result (out.new.items ≡ out.old.items ++ own_text delim root.now (directory path.now rec.now entries.now)) }
{
    put_directory(out, root, delim, path, rec)?;
    for place in 0..entries.len() {
        let entry = entries.at(place);
        put_entry(out, root, delim, path, entry.name(), &entry.rec())?;
    }
    Ok(())
}

fn put_tree(out: &mut Vec<u8>, tree: &Tree, root: &PathRef<'_>, delim: u8) -> Result<(), Memory>
    ensures { OnOk result (out.new.items ≡ out.old.items ++ trace_text tree.now root.now delim) }
{
    for number in 0..tree.dirs() {
        let id = DirId(number);
        put_stanza(
            out,
            root,
            delim,
            &tree.path(id),
            &tree.rec(id),
            &tree.entries(id),
        )?;
    }
    Ok(())
}

/// The trace of a tree: a stanza for each directory, in path order, with the root's names before each path.
///
/// A line ends behind its last field that isn't empty, and never before the fourteenth.
///
/// `DelimUsed` where a name of the tree or the root, a link, the names of extended attributes, or the text of an access control
/// list hold the delimiter; else `TooLong` where a path so written has more than 256 names or 4,096 bytes.
pub fn write_trace(
    alloc: Global,
    tree: &Tree,
    root: &Path,
    delim: u8,
) -> Result<Vec<u8>, WriteTraceFault>
    requires { IsTrue (may_delimit delim) }
    ensures { GivesText result (written_trace tree.now root.now delim) }
{
    let above = root.as_path_ref();
    if path_holds(&above, delim) || is_delim_used(tree, delim) {
        return Err(WriteTraceFault::DelimUsed);
    }
    if is_any_too_long(tree, &above) {
        return Err(WriteTraceFault::TooLong);
    }
    let mut out = Vec::new(alloc);
    match put_tree(&mut out, tree, &above, delim) {
        Ok(()) => Ok(out),
        Err(Memory) => Err(WriteTraceFault::Memory),
    }
}

/// The law of written traces: what is written of a tree is read again to the same tree.
pub fn written_traces_read_back()
    ensures { TraceReadsBack }
{}
