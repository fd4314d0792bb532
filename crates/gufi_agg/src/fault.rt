//! What may be wrong with an agg.
use gufi_select::SelectKind;
use std::alloc::AllocError;
use std::fmt;
use thiserror::Error;

/// What is wrong at an offset of an agg.
#[derive(Clone, Copy, Debug, PartialEq, Eq)]
pub enum AggKind {
    /// Up to FROM it isn't SELECT, a key and items.
    Head,
    /// Behind FROM it isn't ended by GROUP BY and the same key.
    Tail,
    /// What is between is no SELECT.
    Inner(SelectKind),
}

impl fmt::Display for AggKind {
    ghost use Rattle.std.specs.Prelude.{Some};
    ghost use Rattle.gufi_agg.specs.Faults.{agg_kind_text};

    ghost output = { λ kind. Some (agg_kind_text kind) };

    fn fmt<W: fmt::Write>(&self, f: &mut fmt::Formatter<W>) -> fmt::Result {
        match self {
            AggKind::Head => write!(f, "Head"),
            AggKind::Tail => write!(f, "Tail"),
            AggKind::Inner(kind) => write!(f, "{kind}"),
        }
    }
}

/// Why a text is no agg: an offset in bytes, from 0, and its fault.
#[derive(Clone, Copy, Debug, PartialEq, Eq, Error)]
pub enum AggError {
    #[error("at {at}: {kind}")]
    Fault { at: u32, kind: AggKind },
    #[error("out of memory")]
    Memory,
}

impl From<AllocError> for AggError {
    ghost use Rattle.std.specs.Prelude.{◌≡◌};
    ghost use Rattle.gufi_agg.specs.declared.fault.AggError.TheVariants.{Memory};

    ghost from_gives = { λ _ e. e ≡ Memory };

    fn from(_: AllocError) -> AggError {
        AggError::Memory
    }
}
