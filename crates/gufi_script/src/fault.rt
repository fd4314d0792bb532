//! Why a script isn't read.
ghost use Rattle.std.specs.Prelude.{◌≡◌};
ghost use Rattle.gufi_script.specs.declared.fault.ScriptError.TheVariants.{Memory as OutOfMemory};
ghost use Rattle.gufi_script.specs.declared.fault.LineFault.TheVariants.{Memory as LineOutOfMemory};

use std::alloc::{AllocError, AllocFailed};
use std::fmt;
use thiserror::Error;

/// What is wrong with a line.
#[derive(Clone, Copy, Debug, PartialEq, Eq)]
pub enum ScriptKind {
    /// A `%` without two hexadecimal digits.
    Escape,
    /// The first word is no verb.
    Verb,
    /// The number of words isn't that of the verb.
    Count,
    /// A limit that is no u64.
    Number,
    /// A lane that isn't 1 to 16.
    Lane,
    /// A path that is none.
    Path,
    /// A file's name that is no text of UTF-8.
    File,
    /// The form of an ask is none of the three.
    Form,
    /// No such user. Reading gives none of these; planning does.
    User,
    /// The words of an ask aren't what its form takes. Reading gives none of these; planning does.
    Query,
    /// A line or a publishing command behind so many.
    TooMany { limit: u32 },
}

impl fmt::Display for ScriptKind {
    ghost use Rattle.std.specs.Prelude.{Some};
    ghost use Rattle.gufi_script.specs.ScriptText.{script_kind_text};

    ghost output = { λ kind. Some (script_kind_text kind) };

    fn fmt<W: fmt::Write>(&self, f: &mut fmt::Formatter<W>) -> fmt::Result {
        match self {
            ScriptKind::Escape => write!(f, "Escape"),
            ScriptKind::Verb => write!(f, "Verb"),
            ScriptKind::Count => write!(f, "Count"),
            ScriptKind::Number => write!(f, "Number"),
            ScriptKind::Lane => write!(f, "Lane"),
            ScriptKind::Path => write!(f, "Path"),
            ScriptKind::File => write!(f, "File"),
            ScriptKind::Form => write!(f, "Form"),
            ScriptKind::User => write!(f, "User"),
            ScriptKind::Query => write!(f, "Query"),
            ScriptKind::TooMany { limit } => write!(f, "TooMany {limit}"),
        }
    }
}

/// The least faulty line, from 1, and its first fault; or want of memory.
#[derive(Clone, Copy, Debug, PartialEq, Eq, Error)]
pub enum ScriptError {
    #[error("line {line}: {kind}")]
    Fault { line: u32, kind: ScriptKind },
    #[error("out of memory")]
    Memory,
}

impl From<AllocError> for ScriptError {
    ghost from_gives = { λ _ e. e ≡ OutOfMemory };

    fn from(_: AllocError) -> ScriptError {
        ScriptError::Memory
    }
}

/// What is wrong with a line, or want of memory.
#[derive(Clone, Copy, Debug, PartialEq, Eq)]
pub(crate) enum LineFault {
    Kind(ScriptKind),
    Memory,
}

impl From<AllocError> for LineFault {
    ghost from_gives = { λ _ e. e ≡ LineOutOfMemory };

    fn from(_: AllocError) -> LineFault {
        LineFault::Memory
    }
}

impl<T: Drop> From<AllocFailed<T>> for LineFault {
    ghost from_gives = { λ _ e. e ≡ LineOutOfMemory };

    fn from(_: AllocFailed<T>) -> LineFault {
        LineFault::Memory
    }
}

impl From<ScriptKind> for LineFault {
    ghost use Rattle.gufi_script.specs.declared.fault.LineFault.TheVariants.{Kind};

    ghost from_gives = { λ kind e. e ≡ Kind kind };

    fn from(kind: ScriptKind) -> LineFault {
        LineFault::Kind(kind)
    }
}
