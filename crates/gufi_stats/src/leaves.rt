//! The directories among rows below which there is none.

ghost use Rattle.std.specs.Prelude.{◌≡◌, ◌++◌, ◌∷◌, not, IsTrue, IfOk, OnOk};
ghost use Rattle.gufi_base.specs.Paths.{path_text};
ghost use Rattle.gufi_base.specs.Basics.{ascends, line};
ghost use Rattle.gufi_base.specs.Rows.{row_cmp, is_dir_row};
ghost use Rattle.gufi_stats.specs.Leaves.{is_above_any, leaf_line, leaf_lines};

use gufi_base::{Memory, Pred, Row, RowRef, Tester};
use std::alloc::Global;

/// The question that directories alone meet.
#[derive(Clone, Copy, Debug, PartialEq, Eq)]
pub struct Directories;

impl Tester for Directories {
    ghost meets = { λ _ row _. is_dir_row row };

    fn test(&mut self, _alloc: Global, row: RowRef<'_>, _depth: u32) -> Result<bool, Memory> {
        Ok(row.meta.kind.is_dir())
    }
}

impl Pred for Directories {
    type Tester = Directories;

    ghost sat = { λ _ row _. is_dir_row row };

    fn tester(&self, _alloc: Global) -> Result<Directories, Memory> {
        Ok(Directories)
    }
}

/// Whether no directory of the rows behind a directory is below it: those below it come first, so the next tells.
fn is_leaf(directory: &Row, behind: &[Row]) -> bool
    requires { IsTrue (ascends row_cmp (directory.now ∷ behind.now)) }
    ensures { result ≡ not (is_above_any directory.now behind.now) }
{
    for row in behind {
        if row.rec.meta.kind.is_dir() {
            return !row.path.starts_with(&directory.path);
        }
    }
    true
}

fn put_path(out: &mut Vec<u8>, row: &Row) -> Result<(), Memory>
    ensures { OnOk result (out.new.items ≡ out.old.items ++ line (path_text row.now.path)) }
{
    out.extend_from_slice(row.path.printed())?;
    out.push(b'\n')?;
    Ok(())
}

/// The path of a directory that is a leaf, and nothing else.
fn put_leaf(out: &mut Vec<u8>, row: &Row, behind: &[Row]) -> Result<(), Memory>
    requires { IsTrue (ascends row_cmp (row.now ∷ behind.now)) }
    ensures { OnOk result (out.new.items ≡ out.old.items ++ leaf_line row.now behind.now) }
{
    if !row.rec.meta.kind.is_dir() {
        return Ok(());
    }
    if is_leaf(row, behind) {
        put_path(out, row)
    } else {
        Ok(())
    }
}

/// A path for each directory below which there is none, in the order of the rows.
///
/// Takes time in proportion to the rows: each is looked at by the directory before it alone.
pub(crate) fn leaf_lines(alloc: Global, rows: &[Row]) -> Result<Vec<u8>, Memory>
    requires { IsTrue (ascends row_cmp rows.now) }
    ensures { IfOk result (λ text. text.items ≡ leaf_lines rows.now) }
{
    let mut text = Vec::new(alloc);
    for at in 0..rows.len() {
        put_leaf(&mut text, &rows[at], &rows[at + 1..])?;
    }
    Ok(text)
}
