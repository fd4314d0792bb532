//! How the words of an expression are read.
ghost use Rattle.std.specs.Prelude.{◌≡◌};
ghost use Rattle.gufi_base.specs.Basics.{GivesUnless};
ghost use Rattle.gufi_find.specs.Reading.{read_find, first_state};
ghost use Rattle.gufi_find.specs.WordFaults.{fault_of};
ghost use Rattle.gufi_find.specs.States.{state_kept};

use crate::expression::FindExpr;
use crate::fault::{FindError, WordFault};
use crate::place::Place;
use crate::state::State;
use gufi_base::{Bytes, number_at};
use gufi_formula::OpenLevels;
use gufi_users::Users;
use std::alloc::Global;

/// The fault of the word at a place.
fn fault_at(place: usize, fault: WordFault) -> FindError
    ensures { result ≡ fault_of place fault }
{
    match fault {
        WordFault::Kind(kind) => FindError::Fault {
            word: number_at(place),
            kind,
        },
        WordFault::Memory => FindError::Memory,
    }
}

/// What is wanted of the first word.
fn first_state(alloc: Global, words: &[Bytes]) -> State
    ensures { state_kept result ≡ first_state words.now }
{
    let place = match words {
        [] => Place::Operator,
        [_, ..] => Place::Primary,
    };
    State {
        place,
        levels: OpenLevels::new(alloc),
        least: 0,
        most: None,
    }
}

/// The expression that the words are. No words are true of every row.
///
/// Times count back from `now`, in seconds since the epoch. Names of users and groups are those of the tables.
/// An allocation for each test, and time in proportion to the words and the depth of their parentheses.
pub fn read_find(
    alloc: Global,
    words: &[Bytes],
    users: &Users,
    now: Option<i64>,
) -> Result<FindExpr, FindError>
    ensures { GivesUnless FindError.Memory result (read_find words.now users.now now) }
{
    let mut state = first_state(alloc, words);
    let mut place = 0;
    'words: for word in words {
        state = match state.with_word(alloc, users, now, word.as_slice()) {
            Ok(next) => next,
            Err(fault) => return Err(fault_at(place, fault)),
        };
        place += 1;
    }
    match state.ended(alloc) {
        Ok(expression) => Ok(expression),
        Err(fault) => Err(fault_at(place, fault)),
    }
}
