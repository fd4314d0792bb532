//! The SELECT profile: a query that chooses rows by a condition and prints columns of them.
//!
//! Contracts see a SELECT as its columns, its table, its REGEXP and a formula of conditions. It stands on rows, lists of
//! rows, formulas and patterns; what prints queries stands on it.
//! A tester borrows what it tests by: the borrow stands in what `question()` makes, as no associated type can have a lifetime.
#![tactic(auto)]

mod column;
mod condition;
mod depth;
mod fault;
mod hint;
mod laws;
mod operator;
mod place;
mod projection;
mod reading;
mod regexp;
mod select;
mod state;
mod term;
mod token;
mod word;

pub use column::Column;
pub use fault::{SelectError, SelectKind};
pub use laws::{conditions_read_back, hints_tell_conditions};
pub use projection::{SelectLine, select_text};
pub use reading::read_select;
pub use select::{Select, SelectQuestion, SelectTester};
pub use token::{Front, Sign, Token, front_token, is_blank, word_front};
