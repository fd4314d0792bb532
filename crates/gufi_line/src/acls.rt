//! The access control list in the sixteenth field of a line.

ghost use Rattle.std.specs.Prelude.{◌≡◌};
ghost use Rattle.gufi_acl.specs.AclTexts.{has_mark};
ghost use Rattle.gufi_line.specs.Reading.{Gives};
ghost use Rattle.gufi_line.specs.AclField.{acl_field};

use crate::fault::{Refused, TraceKind};
use gufi_acl::{AclFault, read_acl};
use gufi_base::Bytes;
use std::alloc::Global;

fn has_mark(field: &[u8]) -> bool
    ensures { result ≡ has_mark field.now }
{
    field.starts_with(b"acl/")
}

/// The list that the field holds, or its fault. A field without the mark has neither.
#[tactic(auto, unfolding(crate::specs::AclField::acl_field))]
pub(crate) fn read_list(alloc: Global, field: &[u8]) -> Result<Bytes, Refused>
    ensures { Gives (λ acl. acl) result (acl_field field.now) }
{
    if !has_mark(field) {
        return Ok(Bytes::of(Vec::new(alloc)));
    }
    match read_acl(alloc, field) {
        Ok(acl) => Ok(acl),
        Err(AclFault::BadAcl) => Err(Refused::Fault(TraceKind::BadAcl)),
        Err(AclFault::TooManyEntries) => Err(Refused::Fault(TraceKind::TooManyEntries)),
        Err(AclFault::Memory) => Err(Refused::Memory),
    }
}
