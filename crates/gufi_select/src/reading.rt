//! How the text of a SELECT is read.
ghost use Rattle.std.specs.Prelude.{◌≡◌};
ghost use Rattle.gufi_base.specs.Basics.{GivesUnless};
ghost use Rattle.gufi_select.specs.Reading.{read_token, read_placed, read_state, check_regexp, finished, wrong_negative, read_select};
ghost use Rattle.gufi_select.specs.States.{state_kept};
ghost use Rattle.gufi_select.specs.TokenFaults.{Gives, Tells, fault_of};

use crate::fault::{SelectError, SelectKind, TokenFault};
use crate::place::Place;
use crate::regexp::Regexp;
use crate::select::Select;
use crate::state::{Sought, State};
use crate::token::{Token, front_token, is_blank};
use gufi_base::{behind, capped_u32, split_first};
use gufi_pattern::{Pattern, PatternFault};
use std::alloc::Global;

/// The fault of the token at an offset.
fn fault_at(offset: usize, fault: TokenFault) -> SelectError
    ensures { result ≡ fault_of offset fault }
{
    match fault {
        TokenFault::Kind(kind) => SelectError::Fault {
            at: capped_u32(offset),
            kind,
        },
        TokenFault::Memory => SelectError::Memory,
    }
}

/// Where the `-` of a number stands that is compared with a column of texts.
fn wrong_negative(place: Place, token: &Token) -> Option<usize>
    ensures { result ≡ wrong_negative place token.now }
{
    match (place, token) {
        (Place::Negative(start, column, _), Token::Digits(_)) if column.is_text() => Some(start),
        _ => None,
    }
}

impl State {
    fn with_token(self, alloc: Global, offset: usize, token: Token) -> Result<State, TokenFault>
        ensures { Gives state_kept result (read_token offset self.place (state_kept self) token) }
    {
        match self.place {
            Place::SelectWord => self.at_select_word(&token),
            Place::FirstColumn => self.at_first_column(alloc, &token),
            Place::NextColumn => self.at_next_column(&token),
            Place::CommaOrFrom => self.at_comma_or_from(&token),
            Place::FromWord => self.at_from_word(&token),
            Place::TableName => self.at_table_name(&token),
            Place::WhereOrEnd => self.at_where_or_end(&token),
            Place::Term => self.at_term(&token),
            Place::Operator(column) => self.at_operator(column, &token),
            Place::Literal(column, operator) => {
                self.at_literal(alloc, offset, column, operator, token)
            }
            Place::Negative(_, column, operator) => {
                self.at_digits(alloc, column, operator, &token)
            }
            Place::Pattern(column) => self.at_pattern(alloc, offset, column, token),
            Place::Connective => self.at_connective(&token),
            Place::End => Err(TokenFault::Kind(SelectKind::Unexpected)),
        }
    }

    /// The token at an offset.
    fn with_placed(self, alloc: Global, offset: usize, token: Token) -> Result<State, SelectError>
        ensures { Tells state_kept result (read_placed (state_kept self) (record { offset = offset; token = token })) }
    {
        if let Some(start) = wrong_negative(self.place, &token) {
            return Err(fault_at(start, TokenFault::Kind(SelectKind::WrongType)));
        }
        if matches!(token, Token::OpenText) {
            return Err(fault_at(offset, TokenFault::Kind(SelectKind::OpenText)));
        }
        match self.with_token(alloc, offset, token) {
            Ok(state) => Ok(state),
            Err(fault) => Err(fault_at(offset, fault)),
        }
    }

    /// What was read.
    fn finished(self, alloc: Global) -> Result<Select, SelectError>
        ensures { Tells (λ s. s) result (finished (state_kept self)) }
    {
        let regexp = built(alloc, self.regexp)?;
        let condition = self.levels.formula()?;
        Ok(Select::of(self.columns, self.table, regexp, condition))
    }
}

/// The REGEXP, with its pattern built.
fn built(alloc: Global, sought: Option<Sought>) -> Result<Option<Regexp>, SelectError>
    ensures { Tells (λ r. r) result (check_regexp sought) }
{
    let Some(
        Sought {
            offset,
            column,
            pattern,
        },
    ) = sought
    else {
        return Ok(None);
    };
    match Pattern::of(alloc, pattern.as_slice()) {
        Ok(pattern) => Ok(Some(Regexp { column, pattern })),
        Err(PatternFault::Bad) => { Err(fault_at(offset, TokenFault::Kind(SelectKind::BadRegex))) }
        Err(PatternFault::Memory) => Err(SelectError::Memory),
    }
}

/// What all tokens lead to.
fn read_state(alloc: Global, text: &[u8]) -> Result<State, SelectError>
    ensures { Tells state_kept result (read_state text.now) }
{
    let mut state = State::new(alloc);
    let mut rest = text;
    'bytes: while let Some((first, others)) = split_first(rest) {
        if is_blank(*first) {
            rest = others;
            continue 'bytes;
        }
        let front = front_token(alloc, *first, others, rest)?;
        let offset = text.len() - rest.len();
        state = match state.with_placed(alloc, offset, front.token) {
            Ok(next) => next,
            Err(error) => return Err(error),
        };
        rest = behind(others, front.size.saturating_sub(1));
    }
    if state.may_end() {
        Ok(state)
    } else {
        Err(fault_at(text.len(), TokenFault::Kind(SelectKind::Unexpected)))
    }
}

/// The SELECT that a text is. Offsets in faults count bytes from 0.
///
/// Keywords and names are read without regard to ASCII case. An allocation for each text and condition, and time in
/// proportion to the bytes and the depth of parentheses, and to what the pattern of a REGEXP takes to build.
/// A pattern that `regex` refuses for another cause than its syntax, such as its size, is answered as `Memory`.
pub fn read_select(alloc: Global, text: &[u8]) -> Result<Select, SelectError>
    ensures { GivesUnless SelectError.Memory result (read_select text.now) }
{
    match read_state(alloc, text) {
        Ok(state) => state.finished(alloc),
        Err(error) => Err(error),
    }
}
