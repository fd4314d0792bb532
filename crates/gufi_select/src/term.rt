//! Reading the condition, token by token.
//!
//! A state is let go by a call: what is let go at an early exit is proved there anew.
ghost use Rattle.std.specs.Prelude.{◌≡◌, Ok, IfOk};
ghost use Rattle.gufi_select.specs.Reading.{with_condition, read_term, read_regexp, read_operator, read_literal, read_digits, read_pattern, read_connective};
ghost use Rattle.gufi_select.specs.States.{state_kept};
ghost use Rattle.gufi_select.specs.TokenFaults.{Gives};

use crate::column::Column;
use crate::condition::{Condition, Value};
use crate::fault::{SelectKind, TokenFault};
use crate::operator::Operator;
use crate::place::Place;
use crate::state::{Sought, State, column_named};
use crate::token::{Sign, Token};
use crate::word::{Keyword, Word};
use std::alloc::{AllocError, Global};

impl State {
    /// A condition is complete.
    fn with_condition(self, alloc: Global, condition: Condition) -> Result<State, AllocError>
        ensures { IfOk result (λ s. state_kept s ≡ with_condition (state_kept self) condition) }
    {
        let levels = self.levels.with_test(alloc, condition)?;
        Ok(State {
            place: Place::Connective,
            columns: self.columns,
            table: self.table,
            levels,
            regexp: self.regexp,
        })
    }

    /// NOT
    fn negated(self) -> Result<State, TokenFault>
        ensures { Gives state_kept result (read_term (state_kept self) (Token.Word (Word.OfGrammar Keyword.Not))) }
    {
        if self.levels.is_full() {
            return Err(TokenFault::Kind(SelectKind::TooDeep));
        }
        Ok(State {
            place: Place::Term,
            columns: self.columns,
            table: self.table,
            levels: self.levels.with_not(),
            regexp: self.regexp,
        })
    }

    /// `(`
    fn nested(self) -> Result<State, TokenFault>
        ensures { Gives state_kept result (read_term (state_kept self) (Token.Sign Sign.Open)) }
    {
        if self.levels.is_full() {
            return Err(TokenFault::Kind(SelectKind::TooDeep));
        }
        let levels = self.levels.nested()?;
        Ok(State {
            place: Place::Term,
            columns: self.columns,
            table: self.table,
            levels,
            regexp: self.regexp,
        })
    }

    pub(crate) fn at_term(self, token: &Token) -> Result<State, TokenFault>
        ensures { Gives state_kept result (read_term (state_kept self) token.now) }
    {
        match token {
            Token::Word(Word::OfGrammar(Keyword::Not)) => self.negated(),
            Token::Sign(Sign::Open) => self.nested(),
            _ => {
                let column = column_named(token)?;
                Ok(self.wanting(Place::Operator(column)))
            }
        }
    }

    /// REGEXP behind a column.
    fn at_regexp(self, column: Column) -> Result<State, TokenFault>
        ensures { Gives state_kept result (read_regexp column (state_kept self)) }
    {
        if !column.is_text() {
            return Err(TokenFault::Kind(SelectKind::WrongType));
        }
        if self.regexp.is_some() {
            return Err(TokenFault::Kind(SelectKind::SecondRegex));
        }
        Ok(self.wanting(Place::Pattern(column)))
    }

    pub(crate) fn at_operator(self, column: Column, token: &Token) -> Result<State, TokenFault>
        ensures { Gives state_kept result (read_operator column (state_kept self) token.now) }
    {
        match token {
            Token::Word(Word::OfGrammar(Keyword::Regexp)) => self.at_regexp(column),
            Token::Sign(Sign::Compare(operator)) => {
                Ok(self.wanting(Place::Literal(column, *operator)))
            }
            _ => Err(TokenFault::Kind(SelectKind::Unexpected)),
        }
    }

    pub(crate) fn at_literal(
        self,
        alloc: Global,
        offset: usize,
        column: Column,
        operator: Operator,
        token: Token,
    ) -> Result<State, TokenFault>
        ensures { Gives state_kept result (read_literal offset column operator (state_kept self) token) }
    {
        match token {
            Token::Text(_) if !column.is_text() => {
                drop(self);
                Err(TokenFault::Kind(SelectKind::WrongType))
            }
            Token::Digits(_) if column.is_text() => {
                drop(self);
                Err(TokenFault::Kind(SelectKind::WrongType))
            }
            Token::Text(text) => {
                let condition = Condition::Compares(column, operator, Value::Text(text));
                Ok(self.with_condition(alloc, condition)?)
            }
            Token::Digits(Some(number)) => {
                let value = Value::Number(i128::from(number));
                let condition = Condition::Compares(column, operator, value);
                Ok(self.with_condition(alloc, condition)?)
            }
            Token::Digits(None) => {
                drop(self);
                Err(TokenFault::Kind(SelectKind::LiteralTooBig))
            }
            Token::Sign(Sign::Minus) => Ok(self.wanting(Place::Negative(offset, column, operator))),
            _ => {
                drop(self);
                Err(TokenFault::Kind(SelectKind::Unexpected))
            }
        }
    }

    /// The digits behind a `-`.
    pub(crate) fn at_digits(
        self,
        alloc: Global,
        column: Column,
        operator: Operator,
        token: &Token,
    ) -> Result<State, TokenFault>
        ensures { Gives state_kept result (read_digits column operator (state_kept self) token.now) }
    {
        match token {
            Token::Digits(Some(number)) => {
                let value = Value::Number(-i128::from(*number));
                let condition = Condition::Compares(column, operator, value);
                Ok(self.with_condition(alloc, condition)?)
            }
            Token::Digits(None) => Err(TokenFault::Kind(SelectKind::LiteralTooBig)),
            _ => Err(TokenFault::Kind(SelectKind::Unexpected)),
        }
    }

    pub(crate) fn at_pattern(
        self,
        alloc: Global,
        offset: usize,
        column: Column,
        token: Token,
    ) -> Result<State, TokenFault>
        ensures { Gives state_kept result (read_pattern offset column (state_kept self) token) }
    {
        match token {
            Token::Text(pattern) => {
                let state = self.with_condition(alloc, Condition::Finds)?;
                let sought = Sought {
                    offset,
                    column,
                    pattern,
                };
                Ok(State {
                    place: state.place,
                    columns: state.columns,
                    table: state.table,
                    levels: state.levels,
                    regexp: Some(sought),
                })
            }
            _ => Err(TokenFault::Kind(SelectKind::Unexpected)),
        }
    }

    /// OR
    fn with_or(self) -> Result<State, AllocError>
        ensures { IfOk result (λ s. read_connective (state_kept self) (Token.Word (Word.OfGrammar Keyword.Or)) ≡ Ok (state_kept s)) }
    {
        let levels = self.levels.with_or()?;
        Ok(State {
            place: Place::Term,
            columns: self.columns,
            table: self.table,
            levels,
            regexp: self.regexp,
        })
    }

    /// `)`
    fn closed(self) -> Result<State, TokenFault>
        ensures { Gives state_kept result (read_connective (state_kept self) (Token.Sign Sign.Close)) }
    {
        let Some(levels) = self.levels.closed()? else {
            return Err(TokenFault::Kind(SelectKind::Unexpected));
        };
        Ok(State {
            place: Place::Connective,
            columns: self.columns,
            table: self.table,
            levels,
            regexp: self.regexp,
        })
    }

    pub(crate) fn at_connective(self, token: &Token) -> Result<State, TokenFault>
        ensures { Gives state_kept result (read_connective (state_kept self) token.now) }
    {
        match token {
            Token::Word(Word::OfGrammar(Keyword::And)) => Ok(self.wanting(Place::Term)),
            Token::Word(Word::OfGrammar(Keyword::Or)) => Ok(self.with_or()?),
            Token::Sign(Sign::Close) => self.closed(),
            Token::Sign(Sign::Semicolon) if self.levels.is_outermost() => {
                Ok(self.wanting(Place::End))
            }
            _ => Err(TokenFault::Kind(SelectKind::Unexpected)),
        }
    }
}
