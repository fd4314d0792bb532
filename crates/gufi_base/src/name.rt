//! File names (POSIX.1-2017 XBD 3.170).

ghost use Rattle.std.specs.Prelude.{◌≡◌, ◌&&◌, ◌||◌, not, nat_le, bytes_eq, length, IsTrue, IfOk};
ghost use Rattle.std.specs.Ordering.{nat_cmp};
ghost use Rattle.std.specs.Cmp.Lexicographic.{slice_cmp};
ghost use Rattle.gufi_base.specs.Basics.{GivesUnless, is_empty as has_no_element};
ghost use Rattle.gufi_base.specs.Names.{name_of, is_name, dot, dot_dot};

use crate::bytes::are_name_bytes;
use smallvec::SmallVec;
use std::alloc::{AllocError, Global};
use std::cmp::Ordering;
use std::marker::Model;

/// How many bytes a name has that needs no allocation: most have fewer.
const SHORT: usize = 24;

/// One component of a path: 1 to 255 bytes without 0x00, newline and `/`, neither `.` nor `..`.
///
/// One of at most 24 bytes takes no memory beside its own.
#[derive(Drop)]
pub struct Name {
    bytes: SmallVec<u8, SHORT>,
}

impl Model for Name {
    ghost use Rattle.std.specs.Prelude.{ℕ, List, IsTrue};
    ghost use Rattle.gufi_base.specs.Names.{is_name};

    ghost Value = { List ℕ };

    ghost view = { λ a. a.bytes.items };

    ghost invariant = { λ a. IsTrue (is_name a.bytes.items) };
}

/// Why bytes are no name.
#[derive(Clone, Copy, Debug, PartialEq, Eq)]
pub enum NameFault {
    Bad,
    Long,
    Memory,
}

impl From<AllocError> for NameFault {
    ghost use Rattle.std.specs.Prelude.{◌≡◌};
    ghost use Rattle.gufi_base.specs.declared.name.NameFault.TheVariants.{Memory};

    ghost from_gives = { λ _ e. e ≡ Memory };

    fn from(_: AllocError) -> NameFault {
        NameFault::Memory
    }
}

fn has_name_length(bytes: &[u8]) -> bool
    ensures { result ≡ not (has_no_element bytes.now) && nat_le (length bytes.now) 255 }
{
    !bytes.is_empty() && bytes.len() <= 255
}

fn is_dots(bytes: &[u8]) -> bool
    ensures { result ≡ bytes_eq bytes.now dot || bytes_eq bytes.now dot_dot }
{
    bytes == b".".as_slice() || bytes == b"..".as_slice()
}

/// Whether the bytes are a name.
#[inline]
pub fn is_name(bytes: &[u8]) -> bool
    ensures { result ≡ is_name bytes.now }
{
    has_name_length(bytes) && are_name_bytes(bytes) && !is_dots(bytes)
}

impl Name {
    /// The name that the bytes are.
    pub fn of(alloc: Global, bytes: &[u8]) -> Result<Name, NameFault>
        ensures { GivesUnless NameFault.Memory result (name_of bytes.now) }
    {
        if bytes.len() > 255 {
            return Err(NameFault::Long);
        }
        if !is_name(bytes) {
            return Err(NameFault::Bad);
        }
        let bytes = SmallVec::from_slice(alloc, bytes)?;
        Ok(Name { bytes })
    }

    /// The name that checked bytes are. One allocation at most.
    pub fn of_checked(alloc: Global, bytes: &[u8]) -> Result<Name, AllocError>
        requires { IsTrue (is_name bytes.now) }
        ensures { IfOk result (λ name. name ≡ bytes.now) }
    {
        let bytes = SmallVec::from_slice(alloc, bytes)?;
        Ok(Name { bytes })
    }

    /// The name whose bytes a `Vec` holds.
    pub(crate) fn of_bytes(bytes: Vec<u8>) -> Name
        requires { IsTrue (is_name bytes.items) }
        ensures { result ≡ bytes.items }
    {
        Name {
            bytes: SmallVec::from_vec(bytes),
        }
    }

    /// Its bytes.
    pub fn as_slice(&self) -> &[u8]
        ensures value { result.now ≡ self.now }
        ensures name { IsTrue (is_name self.now) }
    {
        self.bytes.as_slice()
    }
}

/// The order of names, which is that of their bytes.
pub fn name_cmp(a: &Name, b: &Name) -> Ordering
    ensures { result ≡ slice_cmp nat_cmp a.now b.now }
{
    a.as_slice().cmp(b.as_slice())
}
