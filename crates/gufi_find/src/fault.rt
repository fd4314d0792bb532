//! What may be wrong with the words of an expression.
use std::alloc::{AllocError, AllocFailed};
use std::fmt;
use thiserror::Error;

/// What is wrong with a word.
#[derive(Clone, Copy, Debug, PartialEq, Eq)]
pub enum FindKind {
    /// A primary is wanted, and the word begins none.
    UnknownPrimary,
    /// The words end where a primary or its argument is wanted.
    MissingArgument,
    BadNumber,
    BadPattern,
    BadType,
    UnknownUser,
    UnknownGroup,
    /// A `)` that closes nothing, or a `(` that nothing closes.
    Parenthesis,
    /// A `(` or `!` inside 64 open ones.
    TooDeep,
    /// A test of times, and no moment from which to count.
    NoNow,
}

impl fmt::Display for FindKind {
    ghost use Rattle.std.specs.Prelude.{Some};
    ghost use Rattle.gufi_find.specs.Faults.{find_kind_text};

    ghost output = { λ kind. Some (find_kind_text kind) };

    fn fmt<W: fmt::Write>(&self, f: &mut fmt::Formatter<W>) -> fmt::Result {
        match self {
            FindKind::UnknownPrimary => write!(f, "UnknownPrimary"),
            FindKind::MissingArgument => write!(f, "MissingArgument"),
            FindKind::BadNumber => write!(f, "BadNumber"),
            FindKind::BadPattern => write!(f, "BadPattern"),
            FindKind::BadType => write!(f, "BadType"),
            FindKind::UnknownUser => write!(f, "UnknownUser"),
            FindKind::UnknownGroup => write!(f, "UnknownGroup"),
            FindKind::Parenthesis => write!(f, "Parenthesis"),
            FindKind::TooDeep => write!(f, "TooDeep"),
            FindKind::NoNow => write!(f, "NoNow"),
        }
    }
}

/// Why words are no expression: the first faulty word, from 1, and its fault.
#[derive(Clone, Copy, Debug, PartialEq, Eq, Error)]
pub enum FindError {
    #[error("word {word}: {kind}")]
    Fault { word: u32, kind: FindKind },
    #[error("out of memory")]
    Memory,
}

impl From<AllocError> for FindError {
    ghost use Rattle.std.specs.Prelude.{◌≡◌};
    ghost use Rattle.gufi_find.specs.declared.fault.FindError.TheVariants.{Memory};

    ghost from_gives = { λ _ e. e ≡ Memory };

    fn from(_: AllocError) -> FindError {
        FindError::Memory
    }
}

/// Why a word isn't taken.
#[derive(Clone, Copy, Debug, PartialEq, Eq)]
pub(crate) enum WordFault {
    Kind(FindKind),
    Memory,
}

impl From<AllocError> for WordFault {
    ghost use Rattle.std.specs.Prelude.{◌≡◌};
    ghost use Rattle.gufi_find.specs.declared.fault.WordFault.TheVariants.{Memory};

    ghost from_gives = { λ _ e. e ≡ Memory };

    fn from(_: AllocError) -> WordFault {
        WordFault::Memory
    }
}

impl<T: Drop> From<AllocFailed<T>> for WordFault {
    ghost use Rattle.std.specs.Prelude.{◌≡◌};
    ghost use Rattle.gufi_find.specs.declared.fault.WordFault.TheVariants.{Memory};

    ghost from_gives = { λ _ e. e ≡ Memory };

    fn from(_: AllocFailed<T>) -> WordFault {
        WordFault::Memory
    }
}
