//! Files whose lines add rows, each under a name.
//!
//! A table is let go by a call: what is let go at an early exit is proved there anew.
ghost use Rattle.std.specs.Prelude.{◌≡◌, ◌≢◌, ◌≤◌, ℕ, [], List, Vec, Result, Ok, Err, OnOk, IfOk, IfErr, MatchResult, map};
ghost use Rattle.std.specs.declared.alloc.Global.{Global};
ghost use Rattle.gufi_base.specs.Basics.{result_map_err, text_lines};
ghost use Rattle.gufi_users.specs.declared.fault.UserKind.{UserKind};
ghost use Rattle.gufi_users.specs.Users.{new_row, with_line, read_rows};

use crate::fault::{UserError, UserKind};
use crate::line::{MAX_LINES, is_skipped};
use crate::row::add_row;
use gufi_base::lines_of;
use indexmap::IndexMap;
use std::alloc::Global;

/// What a line of a file adds under its name.
pub(crate) trait FromLine: Sized + Drop {
    /// The row of a file.
    ghost Entry: { Type 0 };

    /// The row that this is, under its name.
    ghost entry: { Vec ℕ Global × Self → Entry };

    ghost name_of: { Entry → List ℕ };

    /// What a line adds, whatever the other lines.
    ghost means: { List ℕ → Result Entry UserKind };

    /// The name and the row of the line of a number.
    fn from_line(alloc: Global, number: u32, text: &[u8]) -> Result<(Vec<u8>, Self), UserError>
        ensures { MatchResult result
            (λ row. means text.now ≡ Ok (entry row))
            (λ e. e ≢ UserError.Memory → result_map_err (UserError.Fault number) (means text.now) ≡ Err e) };

    ghost named: { (row : Vec ℕ Global × Self) → name_of (entry row) ≡ row.0.items };
}

/// The rows of a file. One allocation for the table each time it doubles, beside those of the lines.
#[tactic(auto, using(crate::proofs::ReadLemmas::read_rows_more, crate::proofs::ReadLemmas::read_rows_stops, crate::proofs::ReadLemmas::read_rows_done))]
pub(crate) fn read_table<R: FromLine>(
    alloc: Global,
    bytes: &[u8],
) -> Result<IndexMap<Vec<u8>, R>, UserError>
    ensures ok { IfOk result (λ rows. read_rows R.name_of R.means 1 [] (text_lines bytes.now) ≡ Ok (map R.entry rows.entries)) }
    ensures err { IfErr result (λ e. e ≢ UserError.Memory → read_rows R.name_of R.means 1 [] (text_lines bytes.now) ≡ Err e) }
{
    let mut rows = IndexMap::new(alloc);
    let mut number = 0;
    'lines: for text in lines_of(bytes) {
        number += 1;
        if let Err(error) = add_line(&mut rows, alloc, number, text) {
            drop(rows);
            return Err(error);
        }
    }
    Ok(rows)
}

// One line behind the rows of those before it.
#[tactic(auto, using(crate::proofs::ReadLemmas::line_refused))]
fn add_line<R: FromLine>(
    rows: &mut IndexMap<Vec<u8>, R>,
    alloc: Global,
    number: u32,
    text: &[u8],
) -> Result<(), UserError>
    ensures ok { OnOk result (with_line R.name_of R.means number (map R.entry rows.old.entries) text.now ≡ Ok (map R.entry rows.new.entries)) }
    ensures err { IfErr result (λ e. e ≢ UserError.Memory → with_line R.name_of R.means number (map R.entry rows.old.entries) text.now ≡ Err e) }
    ensures number { OnOk result (number ≤ 65536) }
{
    if number > MAX_LINES {
        return Err(UserError::Fault {
            line: number,
            kind: UserKind::TooMany { limit: MAX_LINES },
        });
    }
    if is_skipped(text) {
        return Ok(());
    }
    let (name, row) = R::from_line(alloc, number, text)?;
    add_named(rows, number, name, row)
}

// A row behind the others, if its name is new.
fn add_named<R: FromLine>(
    rows: &mut IndexMap<Vec<u8>, R>,
    number: u32,
    name: Vec<u8>,
    row: R,
) -> Result<(), UserError>
    ensures ok { OnOk result (new_row R.name_of (map R.entry rows.old.entries) (R.entry (name, row)) ≡ Ok (map R.entry rows.new.entries)) }
    ensures err { IfErr result (λ e. e ≢ UserError.Memory → result_map_err (UserError.Fault number) (new_row R.name_of (map R.entry rows.old.entries) (R.entry (name, row))) ≡ Err e) }
{
    if add_row(rows, name, row)? {
        return Ok(());
    }
    Err(UserError::Fault {
        line: number,
        kind: UserKind::DoubleName,
    })
}
