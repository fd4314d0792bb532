//! The expressions of `find` (POSIX.1-2017 XCU find, in a profile of this program).
//!
//! Contracts see an expression as a formula of tests with bounds of depth. It stands on patterns, users and formulas;
//! A tester borrows what it tests by: the borrow stands in what `question()` makes, as no associated type can have a lifetime.
//! the top call stands on it.
#![tactic(auto)]

mod comparison;
mod expression;
mod fault;
mod hint;
mod laws;
mod numbers;
mod operand;
mod place;
mod primary;
mod reading;
mod state;
mod test;
mod word;

pub use expression::{FindExpr, FindQuestion};
pub use fault::{FindError, FindKind};
pub use laws::{expressions_read_back, hints_tell_tests};
pub use reading::read_find;
