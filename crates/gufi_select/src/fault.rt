//! What may be wrong with a SELECT.
use std::alloc::{AllocError, AllocFailed};
use std::fmt;
use thiserror::Error;

/// What is wrong at an offset of a SELECT.
#[derive(Clone, Copy, Debug, PartialEq, Eq)]
pub enum SelectKind {
    /// A token that isn't allowed there, a byte that begins none, or the text's end where more is wanted.
    Unexpected,
    /// A word in the place of a column that names none.
    UnknownColumn,
    /// A word in the place of a table that names none.
    UnknownTable,
    /// A literal that isn't of its column's type, or a REGEXP behind a column of numbers.
    WrongType,
    /// Digits above 18446744073709551615.
    LiteralTooBig,
    /// A text without its closing quote, at its first quote.
    OpenText,
    /// A `(` or NOT inside 64 open ones.
    TooDeep,
    /// A second REGEXP.
    SecondRegex,
    /// A pattern that is no UTF-8, that the syntax of the `regex` crate doesn't have, or that is nested too deep for it.
    BadRegex,
}

impl fmt::Display for SelectKind {
    ghost use Rattle.std.specs.Prelude.{Some};
    ghost use Rattle.gufi_select.specs.Faults.{select_kind_text};

    ghost output = { λ kind. Some (select_kind_text kind) };

    fn fmt<W: fmt::Write>(&self, f: &mut fmt::Formatter<W>) -> fmt::Result {
        match self {
            SelectKind::Unexpected => write!(f, "Unexpected"),
            SelectKind::UnknownColumn => write!(f, "UnknownColumn"),
            SelectKind::UnknownTable => write!(f, "UnknownTable"),
            SelectKind::WrongType => write!(f, "WrongType"),
            SelectKind::LiteralTooBig => write!(f, "LiteralTooBig"),
            SelectKind::OpenText => write!(f, "OpenText"),
            SelectKind::TooDeep => write!(f, "TooDeep"),
            SelectKind::SecondRegex => write!(f, "SecondRegex"),
            SelectKind::BadRegex => write!(f, "BadRegex"),
        }
    }
}

/// Why a text is no SELECT: the least faulty offset in bytes, from 0, and its fault.
#[derive(Clone, Copy, Debug, PartialEq, Eq, Error)]
pub enum SelectError {
    #[error("at {at}: {kind}")]
    Fault { at: u32, kind: SelectKind },
    #[error("out of memory")]
    Memory,
}

impl From<AllocError> for SelectError {
    ghost use Rattle.std.specs.Prelude.{◌≡◌};
    ghost use Rattle.gufi_select.specs.declared.fault.SelectError.TheVariants.{Memory};

    ghost from_gives = { λ _ e. e ≡ Memory };

    fn from(_: AllocError) -> SelectError {
        SelectError::Memory
    }
}

/// Why a token isn't taken.
#[derive(Clone, Copy, Debug, PartialEq, Eq)]
pub(crate) enum TokenFault {
    Kind(SelectKind),
    Memory,
}

impl From<AllocError> for TokenFault {
    ghost use Rattle.std.specs.Prelude.{◌≡◌};
    ghost use Rattle.gufi_select.specs.declared.fault.TokenFault.TheVariants.{Memory};

    ghost from_gives = { λ _ e. e ≡ Memory };

    fn from(_: AllocError) -> TokenFault {
        TokenFault::Memory
    }
}

impl<T: Drop> From<AllocFailed<T>> for TokenFault {
    ghost use Rattle.std.specs.Prelude.{◌≡◌};
    ghost use Rattle.gufi_select.specs.declared.fault.TokenFault.TheVariants.{Memory};

    ghost from_gives = { λ _ e. e ≡ Memory };

    fn from(_: AllocFailed<T>) -> TokenFault {
        TokenFault::Memory
    }
}
