//! Reading word by word.
//!
//! A state is let go by a call: what is let go at an early exit is proved there anew.
ghost use Rattle.std.specs.Prelude.{◌≡◌, IfOk};
ghost use Rattle.gufi_find.specs.Reading.{with_item, begun, opened, inverted, close_level, wants_primary, wants_operator, read_word, at_end};
ghost use Rattle.gufi_formula.specs.Levels.{with_or};
ghost use Rattle.gufi_find.specs.States.{state_kept};
ghost use Rattle.gufi_find.specs.WordFaults.{Gives};

use crate::expression::FindExpr;
use crate::fault::{FindKind, WordFault};
use crate::operand::{Item, read_operand};
use crate::place::Place;
use crate::primary::{Primary, PrimaryName, primary_of};
use crate::test::Test;
use crate::word::is_word;
use gufi_formula::{Formula, OpenLevels};
use gufi_users::Users;
use std::alloc::{AllocError, Global};

/// What is wanted next, what is open, and the bounds of depth so far.
#[derive(Drop)]
pub(crate) struct State {
    pub(crate) place: Place,
    pub(crate) levels: OpenLevels<Test>,
    pub(crate) least: u32,
    pub(crate) most: Option<u32>,
}

impl State {
    /// A test is complete.
    fn with_test(self, alloc: Global, test: Test) -> Result<State, AllocError>
        ensures { IfOk result (λ s. state_kept s ≡ with_item (Item.OfTest test) (state_kept self)) }
    {
        let levels = self.levels.with_test(alloc, test)?;
        Ok(State {
            place: Place::Operator,
            levels,
            least: self.least,
            most: self.most,
        })
    }

    /// A test or a bound of depth is complete.
    fn with_item(self, alloc: Global, item: Item) -> Result<State, AllocError>
        ensures { IfOk result (λ s. state_kept s ≡ with_item item (state_kept self)) }
    {
        match item {
            Item::OfTest(test) => self.with_test(alloc, test),
            Item::LeastDepth(depth) => {
                let state = self.with_test(alloc, Test::DepthBound)?;
                Ok(State {
                    place: state.place,
                    levels: state.levels,
                    least: depth,
                    most: state.most,
                })
            }
            Item::MostDepth(depth) => {
                let state = self.with_test(alloc, Test::DepthBound)?;
                Ok(State {
                    place: state.place,
                    levels: state.levels,
                    least: state.least,
                    most: Some(depth),
                })
            }
        }
    }

    /// `(`
    fn opened(self) -> Result<State, WordFault>
        ensures { Gives state_kept result (opened (state_kept self)) }
    {
        if self.levels.is_full() {
            drop(self);
            return Err(WordFault::Kind(FindKind::TooDeep));
        }
        let levels = self.levels.nested()?;
        Ok(State {
            place: Place::Primary,
            levels,
            least: self.least,
            most: self.most,
        })
    }

    /// `!`
    fn inverted(self) -> Result<State, WordFault>
        ensures { Gives state_kept result (inverted (state_kept self)) }
    {
        if self.levels.is_full() {
            drop(self);
            return Err(WordFault::Kind(FindKind::TooDeep));
        }
        Ok(State {
            place: Place::Primary,
            levels: self.levels.with_not(),
            least: self.least,
            most: self.most,
        })
    }

    /// `)`
    fn closed(self) -> Result<State, WordFault>
        ensures { Gives state_kept result (close_level (state_kept self).outer (state_kept self)) }
    {
        let Some(levels) = self.levels.closed()? else {
            return Err(WordFault::Kind(FindKind::Parenthesis));
        };
        Ok(State {
            place: self.place,
            levels,
            least: self.least,
            most: self.most,
        })
    }
}

impl State {
    /// Where a primary is wanted.
    #[tactic(auto, unfolding(crate::specs::Reading::wants_primary))]
    fn with_primary(
        self,
        alloc: Global,
        users: &Users,
        now: Option<i64>,
        word: &[u8],
    ) -> Result<State, WordFault>
        ensures { Gives state_kept result (wants_primary users.now now (state_kept self) word.now) }
    {
        match word {
            _ if is_word(word, b")") => {
                drop(self);
                Err(WordFault::Kind(FindKind::Parenthesis))
            }
            _ if is_word(word, b"(") => self.opened(),
            _ if is_word(word, b"!") => self.inverted(),
            _ => match PrimaryName::of(word) {
                Some(name) => match primary_of(alloc, users, now, name) {
                    Ok(primary) => self.begun(alloc, primary),
                    Err(error) => {
                        drop(self);
                        Err(WordFault::from(error))
                    }
                },
                None => {
                    drop(self);
                    Err(WordFault::Kind(FindKind::UnknownPrimary))
                }
            },
        }
    }

    /// A primary is begun.
    fn begun(self, alloc: Global, primary: Primary) -> Result<State, WordFault>
        ensures { Gives state_kept result (begun primary (state_kept self)) }
    {
        match primary {
            Primary::Alone(test) => Ok(self.with_test(alloc, test)?),
            Primary::Taking(operand) => Ok(self.wanting(Place::Argument(operand))),
            Primary::WithoutNow => {
                drop(self);
                Err(WordFault::Kind(FindKind::NoNow))
            }
        }
    }

    /// The same with another place.
    fn wanting(self, place: Place) -> State
        ensures { state_kept result ≡ record (state_kept self) { place = place } }
    {
        State {
            place,
            levels: self.levels,
            least: self.least,
            most: self.most,
        }
    }

    /// `-o`
    fn with_or(self) -> Result<State, AllocError>
        ensures { IfOk result (λ s. state_kept s ≡ record (state_kept self) { place = Place.Primary; level = with_or (state_kept self).level }) }
    {
        let levels = self.levels.with_or()?;
        Ok(State {
            place: Place::Primary,
            levels,
            least: self.least,
            most: self.most,
        })
    }

    /// Where an operator is wanted, or a primary.
    #[tactic(auto, unfolding(crate::specs::Reading::wants_operator))]
    fn with_operator(
        self,
        alloc: Global,
        users: &Users,
        now: Option<i64>,
        word: &[u8],
    ) -> Result<State, WordFault>
        ensures { Gives state_kept result (wants_operator users.now now (state_kept self) word.now) }
    {
        match word {
            _ if is_word(word, b")") => self.closed(),
            _ if is_word(word, b"-o") => Ok(self.with_or()?),
            _ if is_word(word, b"-a") => Ok(self.wanting(Place::Primary)),
            _ => self.with_primary(alloc, users, now, word),
        }
    }

    /// One word more.
    pub(crate) fn with_word(
        self,
        alloc: Global,
        users: &Users,
        now: Option<i64>,
        word: &[u8],
    ) -> Result<State, WordFault>
        ensures { Gives state_kept result (read_word users.now now (state_kept self) self.place word.now) }
    {
        match self.place {
            Place::Primary => self.with_primary(alloc, users, now, word),
            Place::Operator => self.with_operator(alloc, users, now, word),
            Place::Argument(operand) => {
                match read_operand(alloc, users, operand, word) {
                    Ok(item) => Ok(self.with_item(alloc, item)?),
                    Err(fault) => {
                        drop(self);
                        Err(fault)
                    }
                }
            }
        }
    }

    /// The end of the words.
    pub(crate) fn ended(self, alloc: Global) -> Result<FindExpr, WordFault>
        ensures { Gives (λ e. e) result (at_end (state_kept self) self.place) }
    {
        match self.place {
            Place::Primary | Place::Argument(_) => {
                drop(self);
                return Err(WordFault::Kind(FindKind::MissingArgument));
            }
            Place::Operator => {}
        }
        if !self.levels.is_outermost() {
            drop(self);
            return Err(WordFault::Kind(FindKind::Parenthesis));
        }
        let formula = match self.levels.formula()? {
            Some(formula) => formula,
            None => Formula::of(alloc, Test::Always),
        };
        Ok(FindExpr::of(formula, self.least, self.most))
    }
}
