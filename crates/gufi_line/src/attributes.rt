//! The names of extended attributes in the fifteenth field of a line.

ghost use Rattle.std.specs.Prelude.{◌≡◌, true, false, length, drop, IfOk, OnOk, MatchOption};
ghost use Rattle.std.specs.List.{list_any};
ghost use Rattle.gufi_base.specs.Basics.{split};
ghost use Rattle.gufi_base.specs.Xattrs.{mark};
ghost use Rattle.gufi_line.specs.Reading.{Gives};
ghost use Rattle.gufi_line.specs.AttributeField.{has_mark, added, is_long, are_bad as bad_names, joined as joined_names, xattrs_of};

use crate::content::has_zero;
use crate::fault::{Refused, TraceKind};
use gufi_base::{Bytes, MAX_XATTR, MAX_XATTRS, pieces_of};
use std::alloc::{AllocError, Global};

/// What stands behind the mark, where the field begins with it.
pub(crate) fn behind_mark(field: &[u8]) -> Option<&[u8]>
    ensures { MatchOption result (has_mark field.now ≡ false) (λ names. (has_mark field.now ≡ true) × (names.now ≡ drop (length mark) field.now)) }
{
    field.strip_prefix(b"xattrs/")
}

fn has_long(names: &[u8]) -> bool
    ensures { result ≡ list_any is_long (split 44 names.now) }
{
    'parts: for part in pieces_of(names, b",") {
        if part.len() > MAX_XATTR {
            return true;
        }
    }
    false
}

/// Whether bytes behind the mark are none that names may be.
fn are_bad(names: &[u8]) -> bool
    ensures { result ≡ bad_names names.now }
{
    has_zero(names) || names.len() > MAX_XATTRS || has_long(names)
}

/// Puts a part behind others, with a comma between them. An empty one isn't put.
fn add_part(out: &mut Vec<u8>, part: &[u8]) -> Result<(), AllocError>
    ensures { OnOk result (out.new.items ≡ added out.old.items part.now) }
{
    if part.is_empty() {
        return Ok(());
    }
    if !out.is_empty() {
        out.push(b',')?;
    }
    out.extend_from_slice(part)
}

fn joined(alloc: Global, names: &[u8]) -> Result<Bytes, AllocError>
    ensures { IfOk result (λ joined. joined ≡ joined_names names.now) }
{
    let mut out = Vec::new(alloc);
    'parts: for part in pieces_of(names, b",") {
        add_part(&mut out, part)?;
    }
    Ok(Bytes::of(out))
}

/// The names that the field holds, or its fault. A field without the mark has neither.
#[tactic(auto, unfolding(crate::specs::AttributeField::xattrs_of))]
pub(crate) fn read_xattrs(alloc: Global, field: &[u8]) -> Result<Bytes, Refused>
    ensures { Gives (λ names. names) result (xattrs_of field.now) }
{
    let Some(names) = behind_mark(field) else {
        return Ok(Bytes::of(Vec::new(alloc)));
    };
    if are_bad(names) {
        return Err(Refused::Fault(TraceKind::BadXattr));
    }
    Ok(joined(alloc, names)?)
}
