//! What sums can bound of a SELECT.
ghost use Rattle.std.specs.Prelude.{◌≡◌, ◌++◌, ◌∷◌, [], ℕ, pos, IfOk, OnOk, true, None, Some};
ghost use Rattle.gufi_base.specs.declared.record.Row.{Row};
ghost use Rattle.gufi_formula.specs.Hints.{postfix, AreWhole, may_hold};
ghost use Rattle.gufi_select.specs.Columns.{select_holds};
ghost use Rattle.gufi_select.specs.ConditionHints.{ends, number_leaf, text_leaf, leaf_of, is_turned, condition_hints, hints_in, select_hints};

use crate::column::{Column, Table};
use crate::condition::{Condition, Value};
use crate::operator::Operator;
use crate::select::Select;
use gufi_base::{Hint, Kind, Memory, read_kind};
use gufi_formula::{Formula, Hinted, gids_in, sizes_in, times_in, uids_in};
use std::alloc::Global;

/// The first and the last number of a range.
#[derive(Clone, Copy)]
pub struct Range {
    pub first: i128,
    pub last: i128,
}

/// The numbers from the least to the greatest that compare so with a number. Of `<>` they are those that `=` excludes.
#[tactic(auto, unfolding(crate::specs::ConditionHints::ends))]
fn ends(least: i128, most: i128, operator: Operator, number: i128) -> Range
    ensures { result ≡ ends least most operator number }
{
    match operator {
        Operator::Equal | Operator::Unequal => Range {
            first: number,
            last: number,
        },
        Operator::Below if least < number => Range {
            first: least,
            last: number - 1,
        },
        Operator::AtMost => Range {
            first: least,
            last: number,
        },
        Operator::Above if number < most => Range {
            first: number + 1,
            last: most,
        },
        Operator::AtLeast => Range {
            first: number,
            last: most,
        },
        Operator::Below | Operator::Above => Range { first: 1, last: 0 },
    }
}

fn size_leaf(operator: Operator, number: i128) -> Hint
    ensures { result ≡ number_leaf Column.Size operator number }
{
    let range = ends(0, i128::from(u64::MAX), operator, number);
    sizes_in(range.first, range.last)
}

fn mtime_leaf(operator: Operator, number: i128) -> Hint
    ensures { result ≡ number_leaf Column.Mtime operator number }
{
    let range = ends(i128::from(i64::MIN), i128::from(i64::MAX), operator, number);
    times_in(range.first, range.last)
}

/// The identifiers of users or groups that compare so with a number.
fn ids(operator: Operator, number: i128) -> Range
    ensures { result ≡ ends (pos 0) (pos 4294967295) operator number }
{
    ends(0, i128::from(u32::MAX), operator, number)
}

fn uid_leaf(operator: Operator, number: i128) -> Hint
    ensures { result ≡ number_leaf Column.Uid operator number }
{
    let range = ids(operator, number);
    uids_in(range.first, range.last)
}

fn gid_leaf(operator: Operator, number: i128) -> Hint
    ensures { result ≡ number_leaf Column.Gid operator number }
{
    let range = ids(operator, number);
    gids_in(range.first, range.last)
}

fn number_leaf(column: Column, operator: Operator, number: i128) -> Hint
    ensures { result ≡ number_leaf column operator number }
{
    match column {
        Column::Size => size_leaf(operator, number),
        Column::Mtime => mtime_leaf(operator, number),
        Column::Uid => uid_leaf(operator, number),
        Column::Gid => gid_leaf(operator, number),
        _ => Hint::Unknown,
    }
}

fn text_leaf(column: Column, operator: Operator, text: &[u8]) -> Hint
    ensures { result ≡ text_leaf column operator text.now }
{
    match (column, operator) {
        (Column::Kind, Operator::Equal | Operator::Unequal) => match read_kind(text) {
            Some(kind) => Hint::Kind(kind),
            None => Hint::Unknown,
        },
        _ => Hint::Unknown,
    }
}

/// The test of a condition, which `<>` turns round.
fn leaf_of(condition: &Condition) -> Hint
    ensures { result ≡ leaf_of condition.now }
{
    match condition {
        Condition::Compares(column, operator, Value::Number(number)) => {
            number_leaf(*column, *operator, *number)
        }
        Condition::Compares(column, operator, Value::Text(text)) => {
            text_leaf(*column, *operator, text.as_slice())
        }
        Condition::Finds => Hint::Unknown,
    }
}

fn is_turned(condition: &Condition) -> bool
    ensures { result ≡ is_turned condition.now }
{
    matches!(condition, Condition::Compares(_, Operator::Unequal, _))
}

impl Hinted for Condition {
    ghost use Rattle.gufi_select.specs.ConditionHints.{condition_hints};
    ghost use Rattle.gufi_select.specs.WholeHints.{conditions_whole};

    ghost hints = { condition_hints };

    ghost are_whole = { conditions_whole };

    fn put_hints(&self, out: &mut Vec<Hint>) -> Result<(), Memory> {
        let leaf = leaf_of(self);
        out.push(leaf)?;
        if is_turned(self) && !matches!(leaf, Hint::Unknown) {
            out.push(Hint::Not)?;
        }
        Ok(())
    }
}

/// Appends the hints of what is no directory.
fn put_no_directory(out: &mut Vec<Hint>) -> Result<(), Memory>
    ensures { OnOk result (out.new.items ≡ out.old.items ++ (Hint.Kind Kind.Dir ∷ Hint.Not ∷ [])) }
{
    out.push(Hint::Kind(Kind::Dir))?;
    out.push(Hint::Not)?;
    Ok(())
}

/// Appends the hints of a table without a condition.
fn put_table(out: &mut Vec<Hint>, table: Table) -> Result<(), Memory>
    ensures { OnOk result (out.new.items ≡ out.old.items ++ hints_in table None) }
{
    match table {
        Table::Entries => put_no_directory(out)?,
        Table::Summary => out.push(Hint::Kind(Kind::Dir))?,
        Table::Rows => out.push(Hint::SizeIn(0, u64::MAX))?,
    }
    Ok(())
}

/// Appends the hints of a condition and of the table.
fn put_condition(
    out: &mut Vec<Hint>,
    table: Table,
    condition: &Formula<Condition>,
) -> Result<(), Memory>
    ensures { OnOk result (out.new.items ≡ out.old.items ++ hints_in table (Some condition.now)) }
{
    condition.put_hints(out)?;
    match table {
        Table::Entries => {
            put_no_directory(out)?;
            out.push(Hint::And)?;
        }
        Table::Summary => {
            out.push(Hint::Kind(Kind::Dir))?;
            out.push(Hint::And)?;
        }
        Table::Rows => {}
    }
    Ok(())
}

impl Select {
    fn hint_list(&self, alloc: Global) -> Result<Vec<Hint>, Memory>
        ensures { IfOk result (λ hints. hints.items ≡ select_hints self.now) }
    {
        let mut hints = Vec::new(alloc);
        match &self.condition {
            Some(condition) => put_condition(&mut hints, self.table, condition)?,
            None => put_table(&mut hints, self.table)?,
        }
        Ok(hints)
    }

    /// What sums can tell of it, in postfix order: of its comparisons of types, sizes, times of the last change, users and
    /// groups, and of its table.
    #[tactic(auto, using(crate::proofs::HintLemmas::select_whole, crate::proofs::HintLemmas::select_may_hold))]
    pub fn hints(&self, alloc: Global) -> Result<Vec<Hint>, Memory>
        ensures exact { IfOk result (λ hints. hints.items ≡ select_hints self.now) }
        ensures whole { IfOk result (λ hints. AreWhole hints.items) }
        ensures sound { IfOk result (λ hints. (row : Row) (depth : ℕ) → select_holds self.now row depth ≡ true → may_hold hints.items row ≡ true) }
    {
        let hints = self.hint_list(alloc)?;
        Ok(hints)
    }
}
