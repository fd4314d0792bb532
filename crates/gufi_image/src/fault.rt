//! What may be wrong with an image.

use gufi_base::Memory;
use std::alloc::{AllocError, AllocFailed};
use std::fmt;
use thiserror::Error;

/// What is wrong with a field.
#[derive(Clone, Copy, Debug, PartialEq, Eq)]
pub enum ImageKind {
    /// The bytes begin otherwise, or the version is another.
    Magic,
    /// The field isn't wholly there.
    Cut,
    /// No directory; a mode or flag or type or access control list that is none; counts of entries that aren't the head's; a version that isn't the least.
    Number,
    /// A directory that doesn't stand behind its parent.
    Parent,
    /// What is no name, or taken, or makes a path too long; or what is no link, or no names of extended attributes.
    Name,
    /// A directory or entry that isn't above the one before.
    Order,
    /// A byte behind the last directory.
    Trailing,
    /// A flag that differs from the rule.
    Roll,
    /// More directories or entries than an index may have.
    TooMany { limit: u32 },
}

impl fmt::Display for ImageKind {
    ghost use Rattle.std.specs.Prelude.{Some};
    ghost use Rattle.gufi_image.specs.Kinds.{image_kind_text};

    ghost output = { λ kind. Some (image_kind_text kind) };

    fn fmt<W: fmt::Write>(&self, f: &mut fmt::Formatter<W>) -> fmt::Result {
        match self {
            ImageKind::Magic => write!(f, "Magic"),
            ImageKind::Cut => write!(f, "Cut"),
            ImageKind::Number => write!(f, "Number"),
            ImageKind::Parent => write!(f, "Parent"),
            ImageKind::Name => write!(f, "Name"),
            ImageKind::Order => write!(f, "Order"),
            ImageKind::Trailing => write!(f, "Trailing"),
            ImageKind::Roll => write!(f, "Roll"),
            ImageKind::TooMany { limit } => write!(f, "TooMany {limit}"),
        }
    }
}

/// Why bytes are no image: the first fault from the left, at its offset from 0.
#[derive(Clone, Copy, Debug, PartialEq, Eq, Error)]
pub enum ImageError {
    #[error("byte {offset}: {kind}")]
    Fault { offset: u32, kind: ImageKind },
    #[error("out of memory")]
    Memory,
}

/// A fault, with how many bytes are left from the first byte of its field on.
#[derive(Clone, Copy, Debug, PartialEq, Eq)]
pub(crate) struct Flaw {
    pub left: usize,
    pub kind: ImageKind,
}

/// Why a part of an image isn't read.
#[derive(Clone, Copy, Debug, PartialEq, Eq)]
pub(crate) enum Refused {
    Memory,
    Flaw(Flaw),
}

impl From<AllocError> for Refused {
    ghost use Rattle.std.specs.Prelude.{◌≡◌};
    ghost use Rattle.gufi_image.specs.declared.fault.Refused.TheVariants.{Memory};

    ghost from_gives = { λ _ e. e ≡ Memory };

    fn from(_: AllocError) -> Refused {
        Refused::Memory
    }
}

impl<T: Drop> From<AllocFailed<T>> for Refused {
    ghost use Rattle.std.specs.Prelude.{◌≡◌};
    ghost use Rattle.gufi_image.specs.declared.fault.Refused.TheVariants.{Memory};

    ghost from_gives = { λ _ e. e ≡ Memory };

    fn from(_: AllocFailed<T>) -> Refused {
        Refused::Memory
    }
}

impl From<Memory> for Refused {
    ghost use Rattle.std.specs.Prelude.{◌≡◌};
    ghost use Rattle.gufi_image.specs.declared.fault.Refused.TheVariants.{Memory};

    ghost from_gives = { λ _ e. e ≡ Memory };

    fn from(_: Memory) -> Refused {
        Refused::Memory
    }
}
