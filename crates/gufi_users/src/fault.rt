//! What may be wrong with a passwd or group file.
ghost use Rattle.std.specs.Prelude.{◌≡◌};
ghost use Rattle.gufi_users.specs.declared.fault.UserError.TheVariants.{Memory};

use std::alloc::AllocError;
use std::fmt;
use thiserror::Error;

/// What is wrong with a line.
#[derive(Clone, Copy, Debug, PartialEq, Eq)]
pub enum UserKind {
    /// Not seven fields in a passwd line or four in a group line, or an empty name.
    Fields,
    /// A uid or gid that is no u32.
    Number,
    /// A name that an earlier line has.
    DoubleName,
    /// A line behind so many.
    TooMany { limit: u32 },
}

impl fmt::Display for UserKind {
    ghost use Rattle.std.specs.Prelude.{Some};
    ghost use Rattle.gufi_users.specs.Users.{user_kind_text};

    ghost output = { λ kind. Some (user_kind_text kind) };

    fn fmt<W: fmt::Write>(&self, f: &mut fmt::Formatter<W>) -> fmt::Result {
        match self {
            UserKind::Fields => write!(f, "Fields"),
            UserKind::Number => write!(f, "Number"),
            UserKind::DoubleName => write!(f, "DoubleName"),
            UserKind::TooMany { limit } => write!(f, "TooMany {limit}"),
        }
    }
}

/// Why a passwd or group file isn't read: the least faulty line, from 1, and its first fault.
#[derive(Clone, Copy, Debug, PartialEq, Eq, Error)]
pub enum UserError {
    #[error("line {line}: {kind}")]
    Fault { line: u32, kind: UserKind },
    #[error("out of memory")]
    Memory,
}

impl From<AllocError> for UserError {
    ghost from_gives = { λ _ e. e ≡ Memory };

    fn from(_: AllocError) -> UserError {
        UserError::Memory
    }
}
