//! The lines of a trace, gathered into directories.

ghost use Rattle.std.specs.Prelude.{◌≡◌, ◌<◌, ◌-◌, List, ◌∷◌, [], ◌++◌, length, slice_index_or, false, IsTrue, IfOk, OnOk};
ghost use Rattle.std.specs.List.{list_all};
ghost use Rattle.std.specs.List.Sorted.{IsPermutation};
ghost use Rattle.gufi_base.specs.Paths.{is_child_of};
ghost use Rattle.gufi_tree.specs.Build.{entry_of_line, is_dir_line};
ghost use Rattle.gufi_tree.specs.Stored.{directories_of};
ghost use Rattle.gufi_tree.specs.Gathered.{row_of_line, rows_of, paths_of, IsGathered};
ghost use Rattle.gufi_tree.specs.Tree.{is_kinded};

use crate::tree::{Entry, Stored};
use gufi_base::Line;
use std::alloc::{AllocError, Global};

/// Directories with the entries that stood behind them, and the other entries.
#[derive(Drop)]
pub(crate) struct Gathered {
    pub(crate) stored: Vec<Stored>,
    pub(crate) loose: Vec<Line>,
}

/// Adds the entry of a line to its directory.
fn push_entry(dir: &mut Stored, line: Line) -> Result<(), AllocError>
    requires { IsTrue (is_child_of dir.old.path line.path) }
    ensures path { dir.new.path ≡ dir.old.path }
    ensures rec { dir.new.rec ≡ dir.old.rec }
    ensures entries { OnOk result (dir.new.entries.items ≡ dir.old.entries.items ++ entry_of_line line ∷ []) }
{
    let rec = line.rec;
    if let Some(name) = line.path.into_name() {
        dir.entries.push(Entry { name, rec })?;
    }
    Ok(())
}

/// Adds the entry of a line to the directory at a place.
pub(crate) fn push_at(stored: &mut Vec<Stored>, at: usize, line: Line) -> Result<(), AllocError>
    requires place { at < length stored.old.items }
    requires child { (d : Stored) → IsTrue (is_child_of (slice_index_or stored.old.items at d).path line.path) }
    ensures rows { OnOk result (IsPermutation (rows_of stored.old.items ++ row_of_line line ∷ []) (rows_of stored.new.items)) }
    ensures kinds { OnOk result (is_dir_line line ≡ false → IsTrue (list_all is_kinded (directories_of stored.old.items)) → IsTrue (list_all is_kinded (directories_of stored.new.items))) }
    ensures paths { paths_of stored.new.items ≡ paths_of stored.old.items }
{
    let dir = &mut stored[at];
    push_entry(dir, line)
}

/// Adds the directory of a line, without entries.
fn begin_directory(alloc: Global, stored: &mut Vec<Stored>, line: Line) -> Result<(), AllocError>
    ensures { OnOk result (directories_of stored.new.items ≡ directories_of stored.old.items ++ record { path = line.path; rec = line.rec; entries = [] } ∷ []) }
{
    stored.push(Stored {
        path: line.path,
        rec: line.rec,
        entries: Vec::new(alloc),
    })?;
    Ok(())
}

/// Whether a line is an entry of the last directory.
fn follows(stored: &[Stored], line: &Line) -> bool
    ensures some { IsTrue result → 0 < length stored.now }
    ensures child { IsTrue result → (d : Stored) → IsTrue (is_child_of (slice_index_or stored.now (length stored.now - 1) d).path line.now.path) }
{
    match stored.last() {
        None => false,
        Some(dir) => line.path.is_child_of(&dir.path),
    }
}

/// Adds a line behind those that were gathered.
fn gather_line(alloc: Global, gathered: &mut Gathered, line: Line) -> Result<(), AllocError>
    ensures { OnOk result ((lines : List Line) → IsGathered lines gathered.old.stored.items gathered.old.loose.items → IsGathered (lines ++ line ∷ []) gathered.new.stored.items gathered.new.loose.items) }
{
    if line.rec.meta.kind.is_dir() {
        return begin_directory(alloc, &mut gathered.stored, line);
    }
    if follows(gathered.stored.as_slice(), &line) {
        let last = gathered.stored.len() - 1;
        return push_at(&mut gathered.stored, last, line);
    }
    gathered.loose.push(line)?;
    Ok(())
}

/// The lines in their directories.
pub(crate) fn gather(alloc: Global, lines: Vec<Line>) -> Result<Gathered, AllocError>
    ensures { IfOk result (λ gathered. IsGathered lines.items gathered.stored.items gathered.loose.items) }
{
    let mut gathered = Gathered {
        stored: Vec::new(alloc),
        loose: Vec::new(alloc),
    };
    for line in lines {
        gather_line(alloc, &mut gathered, line)?;
    }
    Ok(gathered)
}
