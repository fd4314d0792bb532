//! The changes from one list of rows to another, found in one pass over both.

ghost use Rattle.std.specs.Prelude.{◌≡◌, ◌+◌, ◌^◌, ◌<◌, ◌≤◌, ◌++◌, length, drop, IsTrue, IfOk, OnOk, ◌⊎◌};
ghost use Rattle.gufi_base.specs.declared.record.Row.{Row};
ghost use Rattle.gufi_base.specs.Basics.{ascends};
ghost use Rattle.gufi_base.specs.Rows.{Stands, row_cmp};
ghost use Rattle.gufi_diff.specs.Changes.{change_line, diff_lines};
ghost use Rattle.gufi_diff.specs.Passes.{altered_line, first_cmp, lines_left};

use crate::records::same_record;
use gufi_base::{Memory, RowRef};
use gufi_rows::{OrderedRows, row_cmp};
use std::alloc::{AllocError, Global};
use std::cmp::Ordering;

/// How many rows of each list are passed.
#[derive(Clone, Copy)]
struct Passed {
    old: usize,
    new: usize,
}

/// Adds the line of a change.
fn put_change(text: &mut Vec<u8>, sign: u8, row: RowRef<'_>) -> Result<(), AllocError>
    ensures { OnOk result ((of : Row) → Stands row.entry of → text.new.items ≡ text.old.items ++ change_line (record { sign = sign; path = of.path })) }
{
    text.push(sign)?;
    text.push(b' ')?;
    text.extend_from_slice(row.stem)?;
    text.extend_from_slice(row.base)?;
    text.push(b'\n')?;
    Ok(())
}

/// Adds the line of a path that both lists have, where its record is another now.
fn put_altered(text: &mut Vec<u8>, old: RowRef<'_>, new: RowRef<'_>) -> Result<(), AllocError>
    ensures { OnOk result ((one other : Row) → Stands old.entry one → Stands new.entry other → text.new.items ≡ text.old.items ++ altered_line one other) }
{
    if same_record(old, new) {
        return Ok(());
    }
    put_change(text, b'~', new)
}

/// The order of the first rows that are left. Where one list has none left, the other's comes first.
fn first_order(old: &OrderedRows, new: &OrderedRows, passed: Passed) -> Ordering
    ensures order { result ≡ first_cmp (drop passed.old old.now) (drop passed.new new.now) }
    ensures old_fits { length old.now < 2 ^ 64 }
    ensures new_fits { length new.now < 2 ^ 64 }
{
    let old_end = old.len();
    let new_end = new.len();
    if passed.old >= old_end {
        return Ordering::Greater;
    }
    if passed.new >= new_end {
        return Ordering::Less;
    }
    row_cmp(old.at(passed.old), new.at(passed.new))
}

/// Passes the first rows that are left, one of either list or one of each, and adds the line of their path, if any.
fn put_next(
    text: &mut Vec<u8>,
    old: &OrderedRows,
    new: &OrderedRows,
    passed: Passed,
) -> Result<Passed, AllocError>
    requires some { (passed.old < length old.now) ⊎ (passed.new < length new.now) }
    requires in_old { passed.old ≤ length old.now }
    requires in_new { passed.new ≤ length new.now }
    requires old_ascends { IsTrue (ascends row_cmp old.now) }
    requires new_ascends { IsTrue (ascends row_cmp new.now) }
    ensures in_old { IfOk result (λ next. next.old ≤ length old.now) }
    ensures in_new { IfOk result (λ next. next.new ≤ length new.now) }
    ensures further { IfOk result (λ next. passed.old + passed.new < next.old + next.new) }
    ensures lines { IfOk result (λ next. text.new.items ++ lines_left old.now new.now next ≡ text.old.items ++ lines_left old.now new.now passed) }
{
    let Passed { old: from, new: to } = passed;
    match first_order(old, new, passed) {
        Ordering::Less => {
            put_change(text, b'-', old.at(from))?;
            Ok(Passed {
                old: from + 1,
                new: to,
            })
        }
        Ordering::Greater => {
            put_change(text, b'+', new.at(to))?;
            Ok(Passed {
                old: from,
                new: to + 1,
            })
        }
        Ordering::Equal => {
            put_altered(text, old.at(from), new.at(to))?;
            Ok(Passed {
                old: from + 1,
                new: to + 1,
            })
        }
    }
}

/// The changes from one list of rows to another, a line each, in path order: a sign, a space and the path. The sign is `-` for a
/// path that is gone, `+` for one that has come, `~` for one whose record is another.
///
/// One pass over both lists, with a comparison of paths for each row, and of records for each path that both have.
pub fn diff_text(alloc: Global, old: &OrderedRows, new: &OrderedRows) -> Result<Vec<u8>, Memory>
    requires old { IsTrue (ascends row_cmp old.now) }
    requires new { IsTrue (ascends row_cmp new.now) }
    ensures { IfOk result (λ text. text.items ≡ diff_lines old.now new.now) }
{
    let mut text = Vec::new(alloc);
    let mut passed = Passed { old: 0, new: 0 };
    'rows: while passed.old < old.len() || passed.new < new.len() {
        passed = put_next(&mut text, old, new, passed)?;
    }
    Ok(text)
}
