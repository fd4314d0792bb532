//! Stores: one directory, whose rows a query scans in one step, and folds, whose stores it scans in one step together.
//!
//! A store borrows its directory from where that is kept, and takes no memory of its own; a fold is a range of directories.
//! Contracts see a store as its `Directory`; `rows_met` says which of its rows a scan adds, `rows_met_in` which of a fold's.
//! It stands on `gufi_tree`, whose trees lend the directories; snapshots stand on it.
#![tactic(auto)]

ghost use Rattle.std.specs.Prelude.{◌≡◌, ◌+◌, ◌-◌, ◌^◌, ◌<◌, ◌≤◌, List, [], ◌∷◌, ◌++◌, length, map, IfOk, OnOk, IsTrue, All, if◌then◌else◌};
ghost use Rattle.std.specs.List.{list_all, flat_map};
ghost use Rattle.gufi_base.specs.Names.{is_name};
ghost use Rattle.gufi_base.specs.declared.record.Row.{Row};
ghost use Rattle.gufi_base.specs.Rows.{Stands, StandsForSome};
ghost use Rattle.gufi_base.specs.Paths.{Components};
ghost use Rattle.gufi_base.specs.PathTexts.{kept_text};
ghost use Rattle.gufi_tree.specs.Tree.{entry_row, own_rows};
ghost use Rattle.gufi_store.specs.Scan.{rows_met, rows_met_in};

use gufi_base::{Memory, RowRef, Steps, Tester, View, Yield};
use gufi_tree::{DirRange, DirRef, EntryRef};
use std::alloc::Global;
use std::marker::Model;
use std::sync::ledger::Ledger;

/// One directory, borrowed from where it is kept.
#[derive(Drop)]
pub struct DirStore<'a> {
    dir: DirRef<'a>,
}

impl<'a> Model for DirStore<'a> {
    ghost use Rattle.gufi_tree.specs.Tree.{Directory};

    ghost Value = { Directory };

    ghost view = { λ s. s.dir };
}

/// The own row of a directory, in borrowed parts. Its path isn't looked at.
#[inline]
fn own_row<'a>(dir: &DirRef<'a>) -> RowRef<'a>
    ensures { Stands result (record { path = dir.now.path; rec = dir.now.rec }) }
{
    // A path's own text tells that its names are names.
    let _text = dir.path().text();
    let (stem, base) = dir.stem_and_base();
    let rec = dir.rec();
    RowRef {
        stem,
        base,
        meta: rec.meta(),
        link: rec.link(),
        xattrs: rec.xattrs(),
        acl: rec.acl(),
    }
}

/// The row of an entry below the path of this kept text, in borrowed parts.
#[inline]
fn row_below<'a>(stem: &'a [u8], entry: &EntryRef<'a>) -> RowRef<'a>
    ensures { (path : Components) → IsTrue (list_all is_name path) → stem.now ≡ kept_text path → Stands result (entry_row path entry.now) }
{
    let rec = entry.rec();
    RowRef {
        stem,
        base: entry.name(),
        meta: rec.meta(),
        link: rec.link(),
        xattrs: rec.xattrs(),
        acl: rec.acl(),
    }
}

/// Adds a row as it is shown, where that meets the question.
///
/// Made part of its callers, so that a row's parts needn't go through memory.
#[inline(always)]
fn offer<T: Tester, V: View, Y: Yield>(
    alloc: Global,
    row: RowRef<'_>,
    depth: u32,
    tester: &mut T,
    view: &V,
    out: &mut Y,
) -> Result<(), Memory>
    requires row { StandsForSome row }
    requires room { Y.count out.old + 1 < 2 ^ 40 }
    requires rows { (rows : List Row) × Y.stands_for out.old rows }
    ensures rows { OnOk result ((of : Row) (rows : List Row) → Stands row.entry of → Y.stands_for out.old rows →
        Y.stands_for out.new (rows ++ (if T.meets tester.old (V.shows view.now of) depth then V.shows view.now of ∷ [] else []))) }
    ensures same { T.meets tester.new ≡ T.meets tester.old }
{
    let shown = view.view(row);
    if tester.test(alloc, shown, depth)? {
        out.take(alloc, shown)?;
    }
    Ok(())
}

/// A depth below a start, where that and one more are numbers of 32 bits.
fn depth_between(depth: usize, above: u32) -> Result<u32, Memory>
    requires { above ≤ depth }
    ensures { IfOk result (λ below. (below ≡ depth - above) × (below + 1 < 2 ^ 32)) }
{
    let below = depth - above as usize;
    if below >= u32::MAX as usize {
        return Err(Memory);
    }
    Ok(below as u32)
}

impl<'a> DirStore<'a> {
    /// The store of a directory. It takes no memory, and counts one step.
    #[inline]
    pub fn of<L: Ledger>(dir: DirRef<'a>, steps: &mut Steps<L>) -> DirStore<'a>
        ensures store { result ≡ dir.entry }
        ensures tick { steps.new ≡ steps.old + 1 }
    {
        steps.tick();
        DirStore::again(dir)
    }

    /// The store of a directory of which one was counted before.
    #[inline]
    pub fn again(dir: DirRef<'a>) -> DirStore<'a>
        ensures { result ≡ dir.entry }
    {
        DirStore { dir }
    }

    /// The directory.
    #[inline]
    pub fn dir(&self) -> &DirRef<'a>
        ensures { result.now ≡ self.now }
    {
        &self.dir
    }

    /// Adds the directory's own row and its entries' rows as they are shown, each that meets the question so, and counts one step.
    ///
    /// `above` is how many components the start has, below which depths are counted.
    pub fn scan<T: Tester, V: View, Y: Yield, L: Ledger>(
        &self,
        alloc: Global,
        tester: &mut T,
        view: &V,
        above: u32,
        out: &mut Y,
        steps: &mut Steps<L>,
    ) -> Result<(), Memory>
        requires above { above ≤ length self.now.path }
        requires room { Y.count out.old + length (own_rows self.now) < 2 ^ 40 }
        requires rows { (rows : List Row) × Y.stands_for out.old rows }
        ensures rows { OnOk result ((rows : List Row) → Y.stands_for out.old rows →
            Y.stands_for out.new (rows ++ rows_met above (T.meets tester.old) (V.shows view.now) self.now)) }
        ensures same { T.meets tester.new ≡ T.meets tester.old }
        ensures tick { steps.new ≡ steps.old + 1 }
    {
        steps.tick();
        self.scan_rows(alloc, tester, view, above, out)
    }

    fn scan_rows<T: Tester, V: View, Y: Yield>(
        &self,
        alloc: Global,
        tester: &mut T,
        view: &V,
        above: u32,
        out: &mut Y,
    ) -> Result<(), Memory>
        requires above { above ≤ length self.now.path }
        requires room { Y.count out.old + length (own_rows self.now) < 2 ^ 40 }
        requires rows { (rows : List Row) × Y.stands_for out.old rows }
        ensures rows { OnOk result ((rows : List Row) → Y.stands_for out.old rows →
            Y.stands_for out.new (rows ++ rows_met above (T.meets tester.old) (V.shows view.now) self.now)) }
        ensures same { T.meets tester.new ≡ T.meets tester.old }
    {
        let depth = depth_between(self.dir.depth(), above)?;
        let path = self.dir.path();
        let stem = path.text();
        let own = own_row(&self.dir);
        offer(alloc, own, depth, tester, view, out)?;
        let entries = self.dir.entries();
        for place in 0..entries.len() {
            let row = row_below(stem, &entries.at(place));
            offer(alloc, row, depth + 1, tester, view, out)?;
        }
        Ok(())
    }
}

/// Adds the rows of a fold as they are shown, each that meets the question so, and counts one step for all its stores, which stand side by side.
///
/// The rows of a store follow those of the stores before it. `above` is as in [`DirStore::scan`].
pub fn scan_fold<T: Tester, V: View, Y: Yield, L: Ledger>(
    alloc: Global,
    stores: &DirRange<'_>,
    tester: &mut T,
    view: &V,
    above: u32,
    out: &mut Y,
    steps: &mut Steps<L>,
) -> Result<(), Memory>
    requires above { All (λ dir. above ≤ length dir.path) stores.now }
    requires room { Y.count out.old + length (flat_map own_rows stores.now) < 2 ^ 40 }
    requires rows { (rows : List Row) × Y.stands_for out.old rows }
    ensures rows { OnOk result ((rows : List Row) → Y.stands_for out.old rows →
        Y.stands_for out.new (rows ++ rows_met_in above (T.meets tester.old) (V.shows view.now) stores.now)) }
    ensures same { T.meets tester.new ≡ T.meets tester.old }
    ensures tick { steps.new ≡ steps.old + 1 }
{
    steps.tick();
    for place in 0..stores.len() {
        DirStore::again(stores.at(place)).scan_rows(alloc, tester, view, above, out)?;
    }
    Ok(())
}
