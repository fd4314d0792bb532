//! The fields of an image, written.

ghost use Rattle.std.specs.Prelude.{◌≡◌, ◌<◌, ◌^◌, ◌++◌, length, IsTrue, OnOk};
ghost use Rattle.gufi_base.specs.Names.{is_name};
ghost use Rattle.gufi_image.specs.Bytes.{u8_bytes, u16_bytes, u32_bytes, u64_bytes, owner_image, size_image, times_image, extra_image, extras_image, record_image, name_image};

use crate::width::Width;
use byteorder::{ByteOrder, LittleEndian};
use gufi_base::{Memory, Meta, RecRef, put};

#[inline]
pub(crate) fn put_u8(out: &mut Vec<u8>, number: u8) -> Result<(), Memory>
    ensures { OnOk result (out.new.items ≡ out.old.items ++ u8_bytes number) }
{
    put(out, &[number])
}

#[inline]
#[tactic(auto, unfolding(crate::specs::Bytes::u16_bytes))]
pub(crate) fn put_u16(out: &mut Vec<u8>, number: u16) -> Result<(), Memory>
    ensures { OnOk result (out.new.items ≡ out.old.items ++ u16_bytes number) }
{
    let mut field = [0u8; 2];
    LittleEndian::write_u16(&mut field, number);
    put(out, &field)
}

#[inline]
#[tactic(auto, unfolding(crate::specs::Bytes::u32_bytes))]
pub(crate) fn put_u32(out: &mut Vec<u8>, number: u32) -> Result<(), Memory>
    ensures { OnOk result (out.new.items ≡ out.old.items ++ u32_bytes number) }
{
    let mut field = [0u8; 4];
    LittleEndian::write_u32(&mut field, number);
    put(out, &field)
}

#[inline]
#[tactic(auto, unfolding(crate::specs::Bytes::u64_bytes))]
pub(crate) fn put_u64(out: &mut Vec<u8>, number: u64) -> Result<(), Memory>
    ensures { OnOk result (out.new.items ≡ out.old.items ++ u64_bytes number) }
{
    let mut field = [0u8; 8];
    LittleEndian::write_u64(&mut field, number);
    put(out, &field)
}

#[tactic(auto, unfolding(crate::specs::Bytes::owner_image))]
fn put_owner(out: &mut Vec<u8>, meta: &Meta) -> Result<(), Memory>
    ensures { OnOk result (out.new.items ≡ out.old.items ++ owner_image meta.now) }
{
    put_u64(out, meta.inode)?;
    put_u16(out, meta.mode)?;
    put_u64(out, meta.nlink)?;
    put_u32(out, meta.uid)?;
    put_u32(out, meta.gid)
}

fn put_three(out: &mut Vec<u8>, first: u64, second: u64, third: u64) -> Result<(), Memory>
    ensures { OnOk result (out.new.items ≡ out.old.items ++ (u64_bytes first ++ (u64_bytes second ++ u64_bytes third))) }
{
    put_u64(out, first)?;
    put_u64(out, second)?;
    put_u64(out, third)
}

#[tactic(auto, unfolding(crate::specs::Bytes::size_image))]
fn put_size(out: &mut Vec<u8>, meta: &Meta) -> Result<(), Memory>
    ensures { OnOk result (out.new.items ≡ out.old.items ++ size_image meta.now) }
{
    put_three(out, meta.size, meta.blksize, meta.blocks)
}

#[tactic(auto, unfolding(crate::specs::Bytes::times_image))]
fn put_times(out: &mut Vec<u8>, meta: &Meta) -> Result<(), Memory>
    ensures { OnOk result (out.new.items ≡ out.old.items ++ times_image meta.now) }
{
    put_three(
        out,
        meta.atime.cast_unsigned(),
        meta.mtime.cast_unsigned(),
        meta.ctime.cast_unsigned(),
    )
}

/// The length of a link or of what stands behind it, in two bytes.
#[tactic(auto, unfolding(crate::specs::Bytes::u16_bytes))]
fn put_length(out: &mut Vec<u8>, bytes: &[u8]) -> Result<(), Memory>
    ensures { OnOk result (out.new.items ≡ out.old.items ++ u16_bytes (length bytes.now)) }
{
    put_u16(out, (bytes.len() % 65536) as u16)
}

/// A count in four bytes.
#[tactic(auto, unfolding(crate::specs::Bytes::u32_bytes))]
pub(crate) fn put_count(out: &mut Vec<u8>, count: usize) -> Result<(), Memory>
    ensures { OnOk result (out.new.items ≡ out.old.items ++ u32_bytes count) }
{
    put_u32(out, (count % 4294967296) as u32)
}

/// Bytes behind their length, in records that have them.
fn put_extra(out: &mut Vec<u8>, held: bool, bytes: &[u8]) -> Result<(), Memory>
    ensures { OnOk result (out.new.items ≡ out.old.items ++ extra_image held bytes.now) }
{
    if !held {
        return Ok(());
    }
    put_length(out, bytes)?;
    put(out, bytes)
}

/// The names of a record's extended attributes and its access control list, in records that have them.
fn put_extras(out: &mut Vec<u8>, width: Width, rec: &RecRef<'_>) -> Result<(), Memory>
    ensures { OnOk result (out.new.items ≡ out.old.items ++ extras_image width rec.now) }
{
    put_extra(out, width.has_names(), rec.xattrs())?;
    put_extra(out, width.has_acls(), rec.acl())
}

#[tactic(auto, unfolding(crate::specs::Bytes::record_image))]
pub(crate) fn put_record(out: &mut Vec<u8>, width: Width, rec: &RecRef<'_>) -> Result<(), Memory>
    ensures { OnOk result (out.new.items ≡ out.old.items ++ record_image width rec.now) }
{
    let meta = rec.meta();
    put_owner(out, meta)?;
    put_size(out, meta)?;
    put_times(out, meta)?;
    let link = rec.link();
    put_length(out, link)?;
    put(out, link)?;
    put_extras(out, width, rec)
}

/// A name or the root's nothing, behind its length.
pub(crate) fn put_name(out: &mut Vec<u8>, name: &[u8]) -> Result<(), Memory>
    requires { length name.now < 2 ^ 8 }
    ensures { OnOk result (out.new.items ≡ out.old.items ++ name_image name.now) }
{
    put_u8(out, name.len() as u8)?;
    put(out, name)
}
