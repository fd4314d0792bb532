//! The fields of a line.

ghost use Rattle.std.specs.Prelude.{◌≡◌, ◌+◌, ◌<◌, ◌≤◌, ◌==◌, [], ◌∷◌, length, drop, Some, IfSome, IsTrue, option_map, position};
ghost use Rattle.std.specs.Iterator.{YieldsFirstRef};
ghost use Rattle.gufi_base.specs.Basics.{split};
ghost use Rattle.gufi_line.specs.Reading.{Gives};
ghost use Rattle.gufi_line.specs.Fields.{texts, fields_of, fields_in};
ghost use Rattle.gufi_line.specs.Taken.{KindBefore, Takes, TakesNumber};
ghost use Rattle.gufi_base.specs.Kinds.{read_kind};

use crate::digits::DigitPairs;
use crate::fault::{Refused, TraceKind};
use gufi_base::{Kind, read_kind};
use memchr::memchr;
use std::marker::Model;
use std::simd::prelude::*;

fn end_of(text: &[u8], delim: u8) -> Option<usize>
    ensures { result ≡ position (λ b. b == delim) text.now }
{
    memchr(delim, text)
}

fn behind(text: &[u8], at: usize) -> &[u8]
    requires { at < length text.now }
    ensures { result.now ≡ drop (at + 1) text.now }
{
    &text[at + 1..]
}

fn from(text: &[u8], at: usize) -> &[u8]
    requires { at ≤ length text.now }
    ensures { result.now ≡ drop at text.now }
{
    &text[at..]
}

/// The place of the first delimiter. Looks at 64 bytes at once, as far as there are so many.
#[inline(always)]
fn end_by_blocks(text: &[u8], delim: u8) -> Option<usize>
    ensures { result ≡ position (λ b. b == delim) text.now }
{
    let mut at = 0;
    'by_blocks: while text.len() - at >= 64 {
        let ends = u8x64::from_slice(&text[at..])
            .simd_eq(u8x64::splat(delim))
            .to_bitmask();
        if ends != 0 {
            return Some(at + ends.trailing_zeros() as usize);
        }
        at += 64;
    }
    match end_of(from(text, at), delim) {
        Some(last) => Some(at + last),
        None => None,
    }
}

/// The parts of a text round each delimiter, in order.
#[derive(Drop)]
pub struct Parts<'a> {
    rest: &'a [u8],
    delim: u8,
    is_done: bool,
}

impl<'a> Model for Parts<'a> {
    ghost use Rattle.std.specs.Prelude.{ℕ, List, [], if◌then◌else◌};
    ghost use Rattle.gufi_base.specs.Basics.{split};

    ghost Value = { List (List ℕ) };

    ghost view = { λ p. if p.is_done then [] else split p.delim p.rest.now };
}

impl<'a> Parts<'a> {
    pub fn of(text: &'a [u8], delim: u8) -> Parts<'a>
        ensures { result ≡ split delim text.now }
    {
        Parts {
            rest: text,
            delim,
            is_done: false,
        }
    }

    /// The next part, where there is one.
    pub(crate) fn next_part(&mut self) -> Option<&'a [u8]>
        ensures { YieldsFirstRef (λ parts. parts) self.old result self.new }
    {
        if self.is_done {
            return None;
        }
        let rest = self.rest;
        match end_of(rest, self.delim) {
            Some(at) => {
                self.rest = behind(rest, at);
                Some(&rest[..at])
            }
            None => {
                self.is_done = true;
                Some(rest)
            }
        }
    }

    /// The next part, quicker where it has few bytes and others stand behind it, as most paths and lines.
    #[inline(always)]
    pub fn next_by_blocks(&mut self) -> Option<&'a [u8]>
        ensures { YieldsFirstRef (λ parts. parts) self.old result self.new }
    {
        if self.is_done {
            return None;
        }
        let rest = self.rest;
        match end_by_blocks(rest, self.delim) {
            Some(at) => {
                self.rest = behind(rest, at);
                Some(&rest[..at])
            }
            None => {
                self.is_done = true;
                Some(rest)
            }
        }
    }

    /// Whether nothing is left but an empty part, as where a line ends in an empty link.
    #[inline(always)]
    pub(crate) fn are_blank(&self) -> bool
        ensures { IsTrue result → self.now ≡ [] ∷ [] }
    {
        self.rest.is_empty() && !self.is_done
    }
}

/// The type of file that the byte before the first delimiter names.
fn kind_before(text: &[u8], delim: u8) -> Option<Kind>
    ensures { IfSome result (λ kind. KindBefore delim text.now kind) }
{
    match text {
        [letter, end, ..] if *end == delim && *letter != delim => read_kind(&text[..1]),
        _ => None,
    }
}

impl<'a> Parts<'a> {
    /// The type of file that the next part names, where a further part follows.
    ///
    /// For speed alone: where it gives nothing, nothing is known.
    #[inline(always)]
    pub(crate) fn next_kind(&mut self) -> Option<Kind>
        ensures { IfSome result (λ kind. Takes Kind read_kind self.old self.new kind) }
    {
        if self.is_done {
            return None;
        }
        let rest = self.rest;
        let kind = kind_before(rest, self.delim)?;
        self.rest = behind(rest, 1);
        Some(kind)
    }

    /// The number of the next part, where few digits write it and a further part follows.
    ///
    /// For speed alone: where it gives nothing, nothing is known.
    #[inline(always)]
    pub(crate) fn next_number<const WIDE: bool>(&mut self, pairs: &DigitPairs) -> Option<u64>
        ensures { IfSome result (TakesNumber self.old self.new) }
    {
        if self.is_done || pairs.separator() != self.delim {
            return None;
        }
        let rest = self.rest;
        let (number, at) = pairs.number_before::<WIDE>(rest)?;
        self.rest = behind(rest, at);
        Some(number)
    }
}

/// The first fourteen fields of a line, and the fifteenth and sixteenth or nothing.
#[derive(Clone, Copy)]
pub(crate) struct Fields<'a> {
    pub path: &'a [u8],
    pub kind: &'a [u8],
    pub inode: &'a [u8],
    pub mode: &'a [u8],
    pub nlink: &'a [u8],
    pub uid: &'a [u8],
    pub gid: &'a [u8],
    pub size: &'a [u8],
    pub blksize: &'a [u8],
    pub blocks: &'a [u8],
    pub atime: &'a [u8],
    pub mtime: &'a [u8],
    pub ctime: &'a [u8],
    pub link: &'a [u8],
    pub xattrs: &'a [u8],
    pub acl: &'a [u8],
}

#[tactic(auto, unfolding(crate::specs::Fields::fields_of))]
fn next_fields<'a>(parts: &mut Parts<'a>) -> Option<Fields<'a>>
    ensures { option_map texts result ≡ fields_of parts.old }
{
    let path = parts.next_part()?;
    let kind = parts.next_part()?;
    let inode = parts.next_part()?;
    let mode = parts.next_part()?;
    let nlink = parts.next_part()?;
    let uid = parts.next_part()?;
    let gid = parts.next_part()?;
    let size = parts.next_part()?;
    let blksize = parts.next_part()?;
    let blocks = parts.next_part()?;
    let atime = parts.next_part()?;
    let mtime = parts.next_part()?;
    let ctime = parts.next_part()?;
    let link = parts.next_part()?;
    let xattrs = parts.next_part().unwrap_or(b"");
    let acl = parts.next_part().unwrap_or(b"");
    Some(Fields {
        path,
        kind,
        inode,
        mode,
        nlink,
        uid,
        gid,
        size,
        blksize,
        blocks,
        atime,
        mtime,
        ctime,
        link,
        xattrs,
        acl,
    })
}

/// The fields of a line, where it has fourteen; those behind the sixteenth are skipped unread.
pub(crate) fn read_fields(text: &[u8], delim: u8) -> Result<Fields<'_>, Refused>
    ensures { Gives texts result (fields_in delim text.now) }
{
    let mut parts = Parts::of(text, delim);
    match next_fields(&mut parts) {
        Some(fields) => Ok(fields),
        None => Err(Refused::Fault(TraceKind::Short)),
    }
}
