//! Lines that are seen to be sound in one pass: nearly all are. What is told nothing here, the exact readers read.

ghost use Rattle.std.specs.Prelude.{◌≡◌, ◌<◌, ◌^◌, ℕ, ℤ, true, false, Ok, IfOk, IfSome};
ghost use Rattle.gufi_base.specs.Basics.{part_at};
ghost use Rattle.gufi_base.specs.Kinds.{is_dir};
ghost use Rattle.gufi_base.specs.Numbers.{read_u32, read_u64, read_i64};
ghost use Rattle.gufi_line.specs.AttributeField.{xattrs_of};
ghost use Rattle.gufi_line.specs.Taken.{Takes, TakesMeta, TakesEnd, TakesContent, Adds, AddsListed, AddsNext};

use crate::acls::read_list;
use crate::attributes::behind_mark;
use crate::content::{MAX_LINK, MODES, has_zero};
use crate::digits::DigitPairs;
use crate::fields::Parts;
use crate::lines::Lines;
use gufi_base::{Kind, Meta, Path, RecRef, are_xattrs};
use std::alloc::{AllocError, Global};

#[inline(always)]
fn next_u64<const WIDE: bool>(parts: &mut Parts<'_>, pairs: &DigitPairs) -> Option<u64>
    ensures { IfSome result (λ n. Takes ℕ read_u64 parts.old parts.new n) }
{
    parts.next_number::<WIDE>(pairs)
}

/// A number below 2^32, not yet in its own type: an `Option` of that would be made and taken apart at each field.
#[inline(always)]
fn next_u32<const WIDE: bool>(parts: &mut Parts<'_>, pairs: &DigitPairs) -> Option<u64>
    ensures takes { IfSome result (λ n. Takes ℕ read_u32 parts.old parts.new n) }
    ensures fits { IfSome result (λ n. n < 2 ^ 32) }
{
    match parts.next_number::<WIDE>(pairs)? {
        number if number <= 4294967295 => Some(number),
        _ => None,
    }
}

/// A time since the epoch: one before it has a sign, and is left to the exact reader.
#[inline(always)]
fn next_time<const WIDE: bool>(parts: &mut Parts<'_>, pairs: &DigitPairs) -> Option<i64>
    ensures { IfSome result (λ z. Takes ℤ read_i64 parts.old parts.new z) }
{
    let number = parts.next_number::<WIDE>(pairs)?;
    Some(number as i64)
}

/// Puts the record of fields 2 to 13 in place of another. Where there is none, nothing is known of what stands there.
#[inline(always)]
fn take_meta<const WIDE: bool>(
    parts: &mut Parts<'_>,
    pairs: &DigitPairs,
    meta: &mut Meta,
) -> Option<()>
    ensures { IfSome result (λ _. TakesMeta parts.old parts.new meta.new) }
{
    meta.kind = parts.next_kind()?;
    meta.inode = next_u64::<WIDE>(parts, pairs)?;
    meta.mode = (next_u32::<WIDE>(parts, pairs)? as u32 % MODES) as u16;
    meta.nlink = next_u64::<WIDE>(parts, pairs)?;
    meta.uid = next_u32::<WIDE>(parts, pairs)? as u32;
    meta.gid = next_u32::<WIDE>(parts, pairs)? as u32;
    meta.size = next_u64::<WIDE>(parts, pairs)?;
    meta.blksize = next_u64::<WIDE>(parts, pairs)?;
    meta.blocks = next_u64::<WIDE>(parts, pairs)?;
    meta.atime = next_time::<WIDE>(parts, pairs)?;
    meta.mtime = next_time::<WIDE>(parts, pairs)?;
    meta.ctime = next_time::<WIDE>(parts, pairs)?;
    Some(())
}

/// What a line holds, its path, its link, the names of extended attributes, and what may hold its list, as they stand in it.
#[derive(Clone, Copy)]
pub(crate) struct Content<'a> {
    pub path: &'a [u8],
    pub meta: Meta,
    pub link: &'a [u8],
    pub xattrs: &'a [u8],
    pub acl: &'a [u8],
}

/// Content to be written over.
#[inline(always)]
fn blank_content<'a>() -> Content<'a> {
    Content {
        path: b"",
        meta: Meta {
            uid: 0,
            gid: 0,
            mode: 0,
            kind: Kind::Block,
            size: 0,
            mtime: 0,
            blocks: 0,
            nlink: 0,
            inode: 0,
            atime: 0,
            ctime: 0,
            blksize: 0,
        },
        link: b"",
        xattrs: b"",
        acl: b"",
    }
}

/// The names of extended attributes of a field, where they stand there as they are read.
fn sound_names(field: &[u8]) -> Option<&[u8]>
    ensures { IfSome result (λ names. xattrs_of field.now ≡ Ok names.now) }
{
    match behind_mark(field) {
        None => Some(b""),
        Some(names) if are_xattrs(names) => Some(names),
        Some(_) => None,
    }
}

/// What stands behind the link: names of extended attributes, and a field that may hold a list.
#[derive(Clone, Copy)]
pub(crate) struct Extras<'a> {
    pub xattrs: &'a [u8],
    pub acl: &'a [u8],
}

/// The parts behind the link; most lines have none.
#[inline(always)]
fn next_extras<'a>(parts: &mut Parts<'a>) -> Option<Extras<'a>>
    ensures names { IfSome result (λ extras. xattrs_of (part_at parts.old 1) ≡ Ok extras.xattrs.now) }
    ensures list { IfSome result (λ extras. part_at parts.old 2 ≡ extras.acl.now) }
{
    let Some(field) = parts.next_part() else {
        let xattrs = b"";
        let acl = b"";
        return Some(Extras { xattrs, acl });
    };
    let xattrs = sound_names(field)?;
    let acl = parts.next_part().unwrap_or(b"");
    Some(Extras { xattrs, acl })
}

/// Puts a link and what stands behind it in place of those of other content.
#[inline(never)]
fn take_end<'a>(mut parts: Parts<'a>, content: &mut Content<'a>) -> Option<()>
    ensures { IfSome result (λ _. TakesEnd parts.entry content.old content.new) }
{
    let link = parts.next_part()?;
    if link.len() > MAX_LINK || has_zero(link) {
        return None;
    }
    let Extras { xattrs, acl } = next_extras(&mut parts)?;
    content.link = link;
    content.xattrs = xattrs;
    content.acl = acl;
    Some(())
}

/// Puts what a line holds in place of other content. Where it isn't seen to be sound, nothing is known of what stands there.
#[inline(always)]
fn take_content<'a, const WIDE: bool>(
    mut parts: Parts<'a>,
    pairs: &DigitPairs,
    content: &mut Content<'a>,
) -> Option<()>
    ensures { IfSome result (λ _. TakesContent parts.entry content.new) }
{
    content.path = parts.next_by_blocks()?;
    take_meta::<WIDE>(&mut parts, pairs, &mut content.meta)?;
    if parts.are_blank() {
        content.link = b"";
        content.xattrs = b"";
        content.acl = b"";
        return Some(());
    }
    take_end(parts, content)
}

/// Takes a directory's line, where its path is plain and it stands at its place. The names that it shares with the directory
/// before it are not looked at again.
fn add_directory(
    alloc: Global,
    root: &Path,
    lines: &mut Lines,
    content: &Content<'_>,
    acl: &[u8],
) -> Result<bool, AllocError>
    requires { is_dir content.now.meta.kind ≡ true }
    ensures { IfOk result (λ taken. Adds taken root.now content.now acl.now lines.old lines.new) }
{
    if lines.has_max_dirs() {
        return Ok(false);
    }
    let Some(known) = lines.stanza() else {
        return Ok(false);
    };
    let Some(names) = root.names_beside(known, content.path) else {
        return Ok(false);
    };
    let path = Path::of_names(alloc, names)?;
    let rec = RecRef::of(&content.meta, content.link, content.xattrs, acl);
    lines.push_dir(alloc, path, rec.copy(alloc)?)?;
    Ok(true)
}

/// Takes an entry's line, where the front of its path is that of the directory before it. Its own path isn't made.
fn add_entry(
    alloc: Global,
    root: &Path,
    lines: &mut Lines,
    content: &Content<'_>,
    acl: &[u8],
) -> Result<bool, AllocError>
    requires { is_dir content.now.meta.kind ≡ false }
    ensures { IfOk result (λ taken. Adds taken root.now content.now acl.now lines.old lines.new) }
{
    if lines.has_max_entries() {
        return Ok(false);
    }
    let Some(parent) = lines.stanza() else {
        return Ok(false);
    };
    let Some(name) = parent.child_name(root, content.path) else {
        return Ok(false);
    };
    let rec = RecRef::of(&content.meta, content.link, content.xattrs, acl);
    lines.push_entry(alloc, name, &rec)?;
    Ok(true)
}

/// Takes a line with this list, where it is seen to be sound.
#[inline(never)]
fn add_line(
    alloc: Global,
    root: &Path,
    lines: &mut Lines,
    content: &Content<'_>,
    acl: &[u8],
) -> Result<bool, AllocError>
    ensures { IfOk result (λ taken. Adds taken root.now content.now acl.now lines.old lines.new) }
{
    if content.meta.kind.is_dir() {
        add_directory(alloc, root, lines, content, acl)
    } else {
        add_entry(alloc, root, lines, content, acl)
    }
}

/// The same with the list that the content's own field holds.
#[inline(never)]
fn add_listed(
    alloc: Global,
    root: &Path,
    lines: &mut Lines,
    content: &Content<'_>,
) -> Result<bool, AllocError>
    ensures { IfOk result (λ taken. AddsListed taken root.now content.now lines.old lines.new) }
{
    let Ok(acl) = read_list(alloc, content.acl) else {
        return Ok(false);
    };
    add_line(alloc, root, lines, content, acl.as_slice())
}

/// Takes the next line behind others, where it is seen to be sound; tells whether it was. A number of more than ten digits
/// is read only where it may be wide.
#[inline(always)]
fn add_seen<const WIDE: bool>(
    alloc: Global,
    delim: u8,
    pairs: &DigitPairs,
    root: &Path,
    lines: &mut Lines,
    text: &[u8],
) -> Result<bool, AllocError>
    ensures { IfOk result (λ taken. AddsNext taken delim root.now text.now lines.old lines.new) }
{
    if lines.len() == 0 {
        return Ok(false);
    }
    let mut content = blank_content();
    let Some(()) = take_content::<WIDE>(Parts::of(text, delim), pairs, &mut content) else {
        return Ok(false);
    };
    if content.acl.is_empty() {
        add_line(alloc, root, lines, &content, b"")
    } else {
        add_listed(alloc, root, lines, &content)
    }
}

/// Takes the next line behind others, where it is seen to be sound by numbers of at most ten digits, as most are; tells whether
/// it was.
#[inline(never)]
pub(crate) fn add_usual(
    alloc: Global,
    delim: u8,
    pairs: &DigitPairs,
    root: &Path,
    lines: &mut Lines,
    text: &[u8],
) -> Result<bool, AllocError>
    ensures { IfOk result (λ taken. AddsNext taken delim root.now text.now lines.old lines.new) }
{
    add_seen::<false>(alloc, delim, pairs, root, lines, text)
}

/// The same where a number may have more digits.
#[inline(never)]
pub(crate) fn add_wide(
    alloc: Global,
    delim: u8,
    pairs: &DigitPairs,
    root: &Path,
    lines: &mut Lines,
    text: &[u8],
) -> Result<bool, AllocError>
    ensures { IfOk result (λ taken. AddsNext taken delim root.now text.now lines.old lines.new) }
{
    add_seen::<true>(alloc, delim, pairs, root, lines, text)
}
