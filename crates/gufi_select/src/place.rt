//! What is wanted next.

use crate::column::Column;
use crate::operator::Operator;

/// What the next token may be.
#[derive(Clone, Copy)]
pub enum Place {
    SelectWord,
    /// Also a `*`.
    FirstColumn,
    NextColumn,
    CommaOrFrom,
    FromWord,
    TableName,
    WhereOrEnd,
    Term,
    /// Behind a column.
    Operator(Column),
    Literal(Column, Operator),
    /// Digits behind the `-` at an offset.
    Negative(usize, Column, Operator),
    Pattern(Column),
    Connective,
    End,
}
