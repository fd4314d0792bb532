//! Lists of paths, as a walk collects them.

ghost use Rattle.std.specs.Prelude.{◌≡◌, ◌+◌, ◌^◌, ◌<◌, ◌++◌, [], List, length, IsTrue, IfOk, OnOk};
ghost use Rattle.std.specs.List.Sorted.{IsPermutation};
ghost use Rattle.gufi_base.specs.declared.record.Row.{Row};
ghost use Rattle.gufi_base.specs.Basics.{ascends};
ghost use Rattle.gufi_base.specs.Rows.{row_cmp};
ghost use Rattle.gufi_rows.specs.PathLines.{path_lines, ArePathsOf, ArePathsOf-counted, ArePathsOf-reordered};
ghost use Rattle.gufi_rows.specs.Runs.{run_paths};

use crate::kept_paths::KeptPaths;
use crate::lines::Lines;
use crate::path_order::{are_in_order, merged, order};
use crate::run::Run;
use crate::run_places::RunPlaces;
use crate::spot::Parts;
use gufi_base::{Memory, RowRef, Yield};
use std::alloc::Global;
use std::marker::Model;
use std::mem;

/// The paths of rows. What a walker has settled stands as lines in runs, which ascend; the rest in the order in which it was
/// taken.
#[derive(Drop)]
pub struct PathList {
    runs: Vec<Run>,
    rest: KeptPaths,
    count: usize,
}

impl Model for PathList {
    ghost use Rattle.std.specs.Prelude.{◌≡◌, ℕ, ◌++◌, List, length};
    ghost use Rattle.gufi_rows.specs.Runs.{run_paths};

    ghost Value = { List (List (List ℕ)) };

    ghost view = { λ l. run_paths l.runs.items ++ l.rest };

    ghost invariant = { λ l. l.count ≡ length (run_paths l.runs.items ++ l.rest) };
}

/// Appends the lines of all runs, in path order.
fn put_runs(alloc: Global, text: &mut Vec<u8>, runs: &[Run]) -> Result<(), Memory>
    ensures { OnOk result ((rows : List Row) → ArePathsOf (run_paths runs.now) rows → IsTrue (ascends row_cmp rows) → text.new.items ≡ text.old.items ++ path_lines rows) }
{
    let places = RunPlaces::of(alloc, runs)?;
    let stretches = order(&places, alloc)?;
    text.reserve(places.bytes())?;
    places.put_stretches(text, stretches.as_slice())?;
    Ok(())
}

/// Adds paths that stand as lines.
fn push_lines(rest: &mut KeptPaths, lines: &Lines) -> Result<(), Memory>
    ensures { OnOk result (rest.new ≡ rest.old ++ lines.now) }
{
    for place in 0..lines.len() {
        rest.push(lines.parts_at(place))?;
    }
    Ok(())
}

/// Adds the paths of all runs.
fn push_runs(rest: &mut KeptPaths, runs: &[Run]) -> Result<(), Memory>
    ensures { OnOk result (rest.new ≡ rest.old ++ run_paths runs.now) }
{
    for run in runs {
        push_lines(rest, &run.lines)?;
    }
    Ok(())
}

impl PathList {
    /// No path.
    fn new(alloc: Global) -> PathList
        ensures { result ≡ [] }
    {
        PathList {
            runs: Vec::new(alloc),
            rest: KeptPaths::new(alloc),
            count: 0,
        }
    }

    /// How many paths there are.
    pub fn len(&self) -> usize
        ensures { result ≡ length self.now }
    {
        self.count
    }

    /// These paths and those of another list. The runs of both are moved.
    fn joined(self, other: PathList) -> Result<PathList, Memory>
        requires { length self + length other < 2 ^ 40 }
        ensures { IfOk result (λ all. IsPermutation (self ++ other) all) }
    {
        let PathList {
            mut runs,
            mut rest,
            count,
        } = self;
        let PathList {
            runs: mut more,
            rest: others,
            count: added,
        } = other;
        runs.append(&mut more)?;
        rest.append(others)?;
        let count = count + added;
        Ok(PathList { runs, rest, count })
    }

    /// Appends the printed paths in path order, each with a newline behind it. Memory for all of them is taken once.
    ///
    /// Takes time in proportion to the bytes where the rows come as a walk gives them. Of what walkers have settled it looks
    /// at few paths, and copies the lines of many at once. Where memory runs out, the text may hold a part of the lines.
    pub fn put_lines(self, alloc: Global, text: &mut Vec<u8>) -> Result<(), Memory>
        ensures { OnOk result ((rows : List Row) → ArePathsOf self rows → IsTrue (ascends row_cmp rows) → text.new.items ≡ text.old.items ++ path_lines rows) }
    {
        let PathList { runs, mut rest, .. } = self;
        if rest.len() == 0 {
            put_runs(alloc, text, runs.as_slice())?;
            return Ok(());
        }
        push_runs(&mut rest, runs.as_slice())?;
        rest.put_lines(alloc, text)?;
        Ok(())
    }

    /// The printed paths in path order, each with a newline behind it. One allocation for the text.
    ///
    /// Takes time in proportion to the bytes where the rows come as a walk gives them.
    pub fn lines(self, alloc: Global) -> Result<Vec<u8>, Memory>
        ensures { IfOk result (λ text. (rows : List Row) → ArePathsOf self rows → IsTrue (ascends row_cmp rows) → text.items ≡ path_lines rows) }
    {
        let mut text = Vec::new(alloc);
        self.put_lines(alloc, &mut text)?;
        Ok(text)
    }
}

impl Yield for PathList {
    ghost count = { length };

    ghost stands_for = { ArePathsOf };

    ghost counted = { ArePathsOf-counted };

    ghost reordered = { ArePathsOf-reordered };

    fn none(alloc: Global) -> Result<PathList, Memory> {
        Ok(PathList::new(alloc))
    }

    fn take(&mut self, _alloc: Global, row: RowRef<'_>) -> Result<(), Memory> {
        let parts = Parts {
            stem: row.stem,
            base: row.base,
        };
        self.rest.push(parts)?;
        self.count += 1;
        Ok(())
    }

    fn merge(&mut self, alloc: Global, other: PathList) -> Result<(), Memory> {
        let kept = mem::replace(self, PathList::new(alloc));
        *self = kept.joined(other)?;
        Ok(())
    }

    fn settle(&mut self, alloc: Global) -> Result<(), Memory> {
        let merged = merged(&self.rest, alloc)?;
        let stretches = merged.as_slice();
        if !are_in_order(&self.rest, stretches) {
            return Ok(());
        }
        let run = Run::of(alloc, &self.rest, stretches)?;
        self.runs.push(run)?;
        self.rest = KeptPaths::new(alloc);
        Ok(())
    }
}
