//! Words that can't be taken.

ghost use Rattle.std.specs.Prelude.{◌≡◌};
ghost use Rattle.gufi_words.specs.WordNumbers.{refused_at};

use gufi_base::number_at;
use std::alloc::AllocError;

/// Why words are no command.
#[derive(Clone, Copy, Debug, PartialEq, Eq)]
pub enum WordError {
    /// The first word that can't be taken, counted from 1; where a word is missing, the number of words plus 1.
    Refused { word: u32 },
    Memory,
}

impl From<AllocError> for WordError {
    ghost use Rattle.std.specs.Prelude.{◌≡◌};
    ghost use Rattle.gufi_words.specs.declared.word.WordError.TheVariants.{Memory};

    ghost from_gives = { λ _ e. e ≡ Memory };

    fn from(_: AllocError) -> WordError {
        WordError::Memory
    }
}

/// The word at a place can't be taken.
pub(crate) fn refused_at(place: usize) -> WordError
    ensures { result ≡ refused_at place }
{
    WordError::Refused {
        word: number_at(place),
    }
}
