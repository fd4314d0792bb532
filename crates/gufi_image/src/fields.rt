//! The fields of an image, read from the left.
//!
//! Each reader is given the bytes from some place on, and gives what it read with the bytes behind it.

ghost use Rattle.std.specs.Prelude.{◌≡◌};
ghost use Rattle.std.specs.Int.{w8, w16, w32, w64};
ghost use Rattle.gufi_access.specs.Acl.{is_acl_or_none};
ghost use Rattle.gufi_image.specs.Widths.{has_names, has_acls};
ghost use Rattle.gufi_image.specs.Fields.{Gives, flaw, bytes_at, number_at, signed_at, link_at, names_at, acl_at, extra_at};

use crate::fault::{Flaw, ImageKind, Refused};
use crate::width::Width;
use byteorder::{ByteOrder, LittleEndian};
use gufi_access::acl_ok;
use gufi_base::{are_path_bytes, are_xattrs};

const MAX_LINK: u16 = 4096;

const MAX_XATTRS: u16 = 4096;

/// A fault of the field that begins here.
pub(crate) fn flaw(bytes: &[u8], kind: ImageKind) -> Refused
    ensures { result ≡ Refused.Flaw (flaw bytes.now kind) }
{
    Refused::Flaw(Flaw {
        left: bytes.len(),
        kind,
    })
}

/// So many bytes.
#[inline]
pub(crate) fn bytes_at(bytes: &[u8], count: usize) -> Result<(&[u8], &[u8]), Refused>
    ensures { Gives (λ x. (x.0.now, x.1.now)) result (bytes_at count bytes.now) }
{
    if bytes.len() < count {
        return Err(flaw(bytes, ImageKind::Cut));
    }
    Ok(bytes.split_at(count))
}

#[inline]
pub(crate) fn u8_at(bytes: &[u8]) -> Result<(u8, &[u8]), Refused>
    ensures { Gives (λ x. (x.0, x.1.now)) result (number_at w8 bytes.now) }
{
    let (field, rest) = bytes_at(bytes, 1)?;
    Ok((field[0], rest))
}

#[inline]
pub(crate) fn u16_at(bytes: &[u8]) -> Result<(u16, &[u8]), Refused>
    ensures { Gives (λ x. (x.0, x.1.now)) result (number_at w16 bytes.now) }
{
    let (field, rest) = bytes_at(bytes, 2)?;
    Ok((LittleEndian::read_u16(field), rest))
}

#[inline]
pub(crate) fn u32_at(bytes: &[u8]) -> Result<(u32, &[u8]), Refused>
    ensures { Gives (λ x. (x.0, x.1.now)) result (number_at w32 bytes.now) }
{
    let (field, rest) = bytes_at(bytes, 4)?;
    Ok((LittleEndian::read_u32(field), rest))
}

#[inline]
pub(crate) fn u64_at(bytes: &[u8]) -> Result<(u64, &[u8]), Refused>
    ensures { Gives (λ x. (x.0, x.1.now)) result (number_at w64 bytes.now) }
{
    let (field, rest) = bytes_at(bytes, 8)?;
    Ok((LittleEndian::read_u64(field), rest))
}

#[inline]
pub(crate) fn i64_at(bytes: &[u8]) -> Result<(i64, &[u8]), Refused>
    ensures { Gives (λ x. (x.0, x.1.now)) result (signed_at bytes.now) }
{
    let (number, rest) = u64_at(bytes)?;
    Ok((number.cast_signed(), rest))
}

/// The target of a link, behind its length.
#[inline(always)]
#[tactic(auto, unfolding(crate::specs::Fields::link_at))]
pub(crate) fn link_at(bytes: &[u8]) -> Result<(&[u8], &[u8]), Refused>
    ensures { Gives (λ x. (x.0.now, x.1.now)) result (link_at bytes.now) }
{
    let (count, rest) = u16_at(bytes)?;
    if count > MAX_LINK {
        return Err(flaw(bytes, ImageKind::Name));
    }
    let (link, rest) = bytes_at(rest, count as usize)?;
    if !are_path_bytes(link) {
        return Err(flaw(bytes, ImageKind::Name));
    }
    Ok((link, rest))
}

/// Names of extended attributes, behind their length.
#[tactic(auto, unfolding(crate::specs::Fields::names_at))]
fn names_at(bytes: &[u8]) -> Result<(&[u8], &[u8]), Refused>
    ensures { Gives (λ x. (x.0.now, x.1.now)) result (names_at bytes.now) }
{
    let (count, rest) = u16_at(bytes)?;
    if count > MAX_XATTRS {
        return Err(flaw(bytes, ImageKind::Name));
    }
    let (names, rest) = bytes_at(rest, count as usize)?;
    if !are_xattrs(names) {
        return Err(flaw(bytes, ImageKind::Name));
    }
    Ok((names, rest))
}

/// Whether bytes are an access control list, or none.
fn is_acl_or_none(bytes: &[u8]) -> bool
    ensures { result ≡ is_acl_or_none bytes.now }
{
    bytes.is_empty() || acl_ok(bytes)
}

/// An access control list or none, behind its length.
#[tactic(auto, unfolding(crate::specs::Fields::acl_at))]
fn acl_at(bytes: &[u8]) -> Result<(&[u8], &[u8]), Refused>
    ensures { Gives (λ x. (x.0.now, x.1.now)) result (acl_at bytes.now) }
{
    let (count, rest) = u16_at(bytes)?;
    let (acl, rest) = bytes_at(rest, count as usize)?;
    if !is_acl_or_none(acl) {
        return Err(flaw(bytes, ImageKind::Number));
    }
    Ok((acl, rest))
}

/// The names of extended attributes, in records that have them.
#[inline(always)]
pub(crate) fn held_names(bytes: &[u8], width: Width) -> Result<(&[u8], &[u8]), Refused>
    ensures { Gives (λ x. (x.0.now, x.1.now)) result (extra_at names_at (has_names width) bytes.now) }
{
    if width.has_names() {
        return names_at(bytes);
    }
    Ok((&[], bytes))
}

/// The access control list or none, in records that have one.
#[inline(always)]
pub(crate) fn held_acl(bytes: &[u8], width: Width) -> Result<(&[u8], &[u8]), Refused>
    ensures { Gives (λ x. (x.0.now, x.1.now)) result (extra_at acl_at (has_acls width) bytes.now) }
{
    if width.has_acls() {
        return acl_at(bytes);
    }
    Ok((&[], bytes))
}
