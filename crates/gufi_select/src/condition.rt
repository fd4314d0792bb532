//! Conditions on a row.
ghost use Rattle.std.specs.Prelude.{◌≡◌, ◌++◌};
ghost use Rattle.std.specs.Cmp.Lexicographic.{slice_cmp};
ghost use Rattle.std.specs.Ordering.{nat_cmp};
ghost use Rattle.gufi_select.specs.Columns.{value_in, compare_values, condition_holds};
ghost use Rattle.gufi_select.specs.Parts.{seen_parts, order_in, number_in};

use crate::column::Column;
use crate::operator::Operator;
use gufi_base::{Bytes, RowRef};
use gufi_formula::Valuation;
use std::cmp::Ordering;

/// A literal.
#[derive(Drop)]
pub enum Value {
    Text(Bytes),
    Number(i128),
}

/// A condition of a row.
#[derive(Drop)]
pub enum Condition {
    Compares(Column, Operator, Value),
    /// The one REGEXP of the SELECT.
    Finds,
}

/// The order of a text in two pieces and another.
#[tactic(auto, using(crate::proofs::PartLemmas::order_of_front, crate::proofs::PartLemmas::order_of_pieces))]
fn pieces_order(front: &[u8], back: &[u8], text: &[u8]) -> Ordering
    ensures { result ≡ slice_cmp nat_cmp (front.now ++ back.now) text.now }
{
    if text.len() < front.len() {
        return front.cmp(text);
    }
    let (first, rest) = text.split_at(front.len());
    match front.cmp(first) {
        Ordering::Less => Ordering::Less,
        Ordering::Equal => back.cmp(rest),
        Ordering::Greater => Ordering::Greater,
    }
}

/// The order of a text column of a row and a text.
#[inline]
fn text_order(column: Column, row: RowRef<'_>, text: &[u8]) -> Option<Ordering>
    ensures { result ≡ order_in (value_in column (seen_parts row.entry 0)) text.now }
{
    match column {
        Column::Path => Some(pieces_order(row.stem, row.base, text)),
        Column::Name => Some(row.base.cmp(text)),
        Column::Kind => {
            let letter = [row.meta.kind.letter()];
            Some(letter.as_slice().cmp(text))
        }
        Column::Linkname => Some(row.link.cmp(text)),
        Column::Xattrs => Some(row.xattrs.cmp(text)),
        _ => None,
    }
}

/// The value of a number column of a row.
#[inline]
fn number_at(column: Column, row: RowRef<'_>, depth: u32) -> Option<i128>
    ensures { result ≡ number_in (value_in column (seen_parts row.entry depth)) }
{
    let meta = row.meta;
    match column {
        Column::Path | Column::Name | Column::Kind | Column::Linkname | Column::Xattrs => None,
        Column::Inode => Some(i128::from(meta.inode)),
        Column::Mode => Some(i128::from(meta.mode)),
        Column::Nlink => Some(i128::from(meta.nlink)),
        Column::Uid => Some(i128::from(meta.uid)),
        Column::Gid => Some(i128::from(meta.gid)),
        Column::Size => Some(i128::from(meta.size)),
        Column::Blksize => Some(i128::from(meta.blksize)),
        Column::Blocks => Some(i128::from(meta.blocks)),
        Column::Atime => Some(i128::from(meta.atime)),
        Column::Mtime => Some(i128::from(meta.mtime)),
        Column::Ctime => Some(i128::from(meta.ctime)),
        Column::Level => Some(i128::from(depth)),
    }
}

/// Whether the value of a column of a row compares so with a literal.
#[inline]
fn compares(
    column: Column,
    operator: Operator,
    literal: &Value,
    row: RowRef<'_>,
    depth: u32,
) -> bool
    ensures { result ≡ compare_values operator (value_in column (seen_parts row.entry depth)) literal.now }
{
    match literal {
        Value::Text(text) => match text_order(column, row, text.as_slice()) {
            Some(order) => operator.admits(order),
            None => false,
        },
        Value::Number(number) => match number_at(column, row, depth) {
            Some(value) => operator.admits(value.cmp(number)),
            None => false,
        },
    }
}

/// A row in borrowed parts at its depth, and whether the REGEXP is true of it.
#[derive(Drop)]
pub(crate) struct SeenRow<'r> {
    pub(crate) row: RowRef<'r>,
    pub(crate) depth: u32,
    pub(crate) found: bool,
}

impl<'r> Valuation<Condition> for SeenRow<'r> {
    ghost truth = { λ s c. condition_holds s.found c (seen_parts s.row s.depth) };

    #[inline]
    fn is_true(&self, condition: &Condition) -> bool {
        match condition {
            Condition::Compares(column, operator, literal) => {
                compares(*column, *operator, literal, self.row, self.depth)
            }
            Condition::Finds => self.found,
        }
    }
}
