//! The records of an image, which stay where they stand.

ghost use Rattle.std.specs.Prelude.{◌≡◌, ◌+◌, ◌<◌, ◌≤◌, length, IfOk};
ghost use Rattle.std.specs.Int.{w16, w32, w64};
ghost use Rattle.gufi_image.specs.Fields.{Gives, Refuses, meta_at, record_at};
ghost use Rattle.gufi_image.specs.Numbers.{number_in};

use crate::fault::{ImageKind, Refused};
use crate::fields::{flaw, held_acl, held_names, i64_at, link_at, u16_at, u32_at, u64_at};
use crate::width::Width;
use byteorder::{ByteOrder, LittleEndian};
use gufi_base::{Kind, Meta, RecRef};
use std::marker::Model;

/// How many bytes stand before the link of a record.
const NUMBERS: usize = 74;

/// Where the mode stands among them.
const MODE: usize = 8;

const MAX_MODE: u16 = 4095;

/// The number of two bytes at a place.
#[inline(always)]
fn u16_in(bytes: &[u8], place: usize) -> u16
    requires { place + 2 ≤ length bytes.now }
    ensures { result ≡ number_in w16 place bytes.now }
{
    LittleEndian::read_u16(&bytes[place..place + 2])
}

/// The number of four bytes at a place.
#[inline(always)]
fn u32_in(bytes: &[u8], place: usize) -> u32
    requires { place + 4 ≤ length bytes.now }
    ensures { result ≡ number_in w32 place bytes.now }
{
    LittleEndian::read_u32(&bytes[place..place + 4])
}

/// The number of eight bytes at a place.
#[inline(always)]
fn u64_in(bytes: &[u8], place: usize) -> u64
    requires { place + 8 ≤ length bytes.now }
    ensures { result ≡ number_in w64 place bytes.now }
{
    LittleEndian::read_u64(&bytes[place..place + 8])
}

/// What a record of a kind holds before its link, in the bytes that spell it.
#[derive(Drop)]
pub(crate) struct Numbers<'a> {
    kind: Kind,
    bytes: &'a [u8],
}

impl<'a> Model for Numbers<'a> {
    ghost use Rattle.gufi_base.specs.declared.record.Meta.{Meta};

    ghost Value = { Meta };

    ghost use Rattle.gufi_image.specs.Numbers.{meta_in, AreNumbers};

    ghost view = { λ n. meta_in n.kind n.bytes.now };

    ghost invariant = { λ n. AreNumbers n.bytes.now };
}

impl Numbers<'_> {
    /// What the bytes spell: each number stands where the one before it ends.
    #[inline(always)]
    #[tactic(auto, unfolding(crate::specs::Numbers::meta_in))]
    pub(crate) fn meta(&self) -> Meta
        ensures { result ≡ self.now }
    {
        let bytes = self.bytes;
        Meta {
            kind: self.kind,
            inode: u64_in(bytes, 0),
            mode: u16_in(bytes, MODE),
            nlink: u64_in(bytes, 10),
            uid: u32_in(bytes, 18),
            gid: u32_in(bytes, 22),
            size: u64_in(bytes, 26),
            blksize: u64_in(bytes, 34),
            blocks: u64_in(bytes, 42),
            atime: u64_in(bytes, 50).cast_signed(),
            mtime: u64_in(bytes, 58).cast_signed(),
            ctime: u64_in(bytes, 66).cast_signed(),
        }
    }
}

/// What a record of this kind holds before its link, field by field: the first field with a fault is found.
#[tactic(auto, unfolding(crate::specs::Fields::meta_at))]
fn meta_at(bytes: &[u8], kind: Kind) -> Result<(Meta, &[u8]), Refused>
    ensures gives { Gives (λ x. (x.0, x.1.now)) result (meta_at kind bytes.now) }
    ensures kind { IfOk result (λ x. x.0.kind ≡ kind) }
{
    let (inode, modes) = u64_at(bytes)?;
    let (mode, rest) = u16_at(modes)?;
    if mode > MAX_MODE {
        return Err(flaw(modes, ImageKind::Number));
    }
    let (nlink, rest) = u64_at(rest)?;
    let (uid, rest) = u32_at(rest)?;
    let (gid, rest) = u32_at(rest)?;
    let (size, rest) = u64_at(rest)?;
    let (blksize, rest) = u64_at(rest)?;
    let (blocks, rest) = u64_at(rest)?;
    let (atime, rest) = i64_at(rest)?;
    let (mtime, rest) = i64_at(rest)?;
    let (ctime, rest) = i64_at(rest)?;
    let meta = Meta {
        kind,
        inode,
        mode,
        nlink,
        uid,
        gid,
        size,
        blksize,
        blocks,
        atime,
        mtime,
        ctime,
    };
    Ok((meta, rest))
}

/// The first fault of numbers that aren't all there. Rare: at most one record of a piece is cut.
#[cold]
#[inline(never)]
fn fault_of_cut(bytes: &[u8], kind: Kind) -> Refused
    requires { length bytes.now < 74 }
    ensures { Refuses result (meta_at kind bytes.now) }
{
    match meta_at(bytes, kind) {
        Err(refused) => refused,
        Ok(_) => unreachable!(),
    }
}

/// The numbers of a record of this kind, with one look at how many bytes are left.
#[inline(always)]
fn numbers_at(bytes: &[u8], kind: Kind) -> Result<(Numbers<'_>, &[u8]), Refused>
    ensures gives { Gives (λ x. (x.0, x.1.now)) result (meta_at kind bytes.now) }
    ensures kind { IfOk result (λ x. x.0.kind ≡ kind) }
{
    if bytes.len() < NUMBERS {
        return Err(fault_of_cut(bytes, kind));
    }
    if u16_in(bytes, MODE) > MAX_MODE {
        return Err(flaw(&bytes[MODE..], ImageKind::Number));
    }
    let (bytes, rest) = bytes.split_at(NUMBERS);
    Ok((Numbers { kind, bytes }, rest))
}

/// A record that stays where it stands in the image.
#[derive(Drop)]
pub(crate) struct RecordAt<'a> {
    pub numbers: Numbers<'a>,
    pub link: &'a [u8],
    pub xattrs: &'a [u8],
    pub acl: &'a [u8],
}

impl RecordAt<'_> {
    /// The record, with what its numbers spell.
    #[inline]
    pub(crate) fn rec_ref<'b>(&'b self, meta: &'b Meta) -> RecRef<'b>
        ensures { result ≡ record { meta = meta.now; link = self.now.link.now; xattrs = self.now.xattrs.now; acl = self.now.acl.now } }
    {
        RecRef::of(meta, self.link, self.xattrs, self.acl)
    }
}

/// A record of this kind.
#[inline(always)]
#[tactic(auto, unfolding(crate::specs::Fields::record_at))]
pub(crate) fn record_at(
    bytes: &[u8],
    width: Width,
    kind: Kind,
) -> Result<(RecordAt<'_>, &[u8]), Refused>
    ensures gives { Gives (λ x. (record { meta = x.0.numbers; link = x.0.link.now; xattrs = x.0.xattrs.now; acl = x.0.acl.now }, x.1.now)) result (record_at width kind bytes.now) }
    ensures kind { IfOk result (λ x. x.0.numbers.kind ≡ kind) }
{
    let (numbers, rest) = numbers_at(bytes, kind)?;
    let (link, rest) = link_at(rest)?;
    let (xattrs, rest) = held_names(rest, width)?;
    let (acl, rest) = held_acl(rest, width)?;
    let rec = RecordAt {
        numbers,
        link,
        xattrs,
        acl,
    };
    Ok((rec, rest))
}
