//! Lists of rows in two texts.

ghost use Rattle.std.specs.Prelude.{◌≡◌, ◌<◌, ◌≤◌, ◌++◌, ◌∷◌, [], List, length, take, map, All, IsTrue, IfOk, OnOk, OnErr, slice_index_or};
ghost use Rattle.std.specs.Ordering.{is_lt};
ghost use Rattle.std.specs.List.Sorted.{IsPermutation, IsSortedBy};
ghost use Rattle.std.proofs.lemmas.List.Sorted.{length_permutation, IsPermutation-trans};
ghost use Rattle.gufi_base.specs.declared.record.Row.{Row as SeenRow};
ghost use Rattle.gufi_base.specs.Basics.{ascends};
ghost use Rattle.gufi_base.specs.Rows.{Stands, StandsForSome, row_cmp};
ghost use Rattle.gufi_rows.specs.PathLists.{Grows, picked};
ghost use Rattle.gufi_rows.specs.PathPlaces.{places_between, places_of};
ghost use Rattle.gufi_rows.specs.RowLists.{IsKept, KeptFitsBehind, kept_behind, no_row, rec_in};

use crate::kept::Kept;
use crate::kept_paths::KeptPaths;
use crate::path_order::{are_in_order, arranged, merged, order};
use crate::spot::{Parts, bytes_at, put, put_text, span_behind};
use crate::stretch::Stretch;
use gufi_base::{Bytes, Memory, Path, Rec, Row, RowRef, Yield, acl_at, put_extras, xattrs_at};
use std::alloc::Global;
use std::marker::Model;

/// Rows, in the order in which they were taken. No row has memory of its own, and the rows of one directory have one stem.
///
/// What doesn't fit is answered as want of memory: names of extended attributes or an access control list of more than 65,535
/// bytes, or a path or a link behind the first 4 GiB of its text.
#[derive(Drop)]
pub struct RowList {
    paths: KeptPaths,
    records: Vec<Kept>,
    links: Vec<u8>,
}

impl Model for RowList {
    ghost use Rattle.std.specs.Prelude.{List};
    ghost use Rattle.gufi_base.specs.declared.record.Row.{Row};

    ghost Value = { List Row };

    ghost use Rattle.gufi_rows.specs.RowLists.{AreRecords, rows_in};

    ghost view = { λ l. rows_in l.links.items l.paths l.records.items };

    ghost invariant = { λ l. AreRecords l.links.items l.paths l.records.items };
}

/// The row of these parts, in memory of its own.
fn owned(alloc: Global, row: RowRef<'_>) -> Result<Row, Memory>
    requires { StandsForSome row }
    ensures { IfOk result (λ made. (of : SeenRow) → Stands row.entry of → made ≡ of) }
{
    let path = Path::of_parts(alloc, row.stem, row.base)?;
    let link = Bytes::from_slice(alloc, row.link)?;
    let xattrs = Bytes::from_slice(alloc, row.xattrs)?;
    let acl = Bytes::from_slice(alloc, row.acl)?;
    let meta = *row.meta;
    Ok(Row {
        path,
        rec: Rec {
            link,
            xattrs,
            acl,
            meta,
        },
    })
}

/// Puts a row's link behind a text, and its names of extended attributes and its access control list right behind that.
fn keep(links: &mut Vec<u8>, row: RowRef<'_>) -> Result<Kept, Memory>
    ensures grown { Grows links.old.items links.new.items }
    ensures within { IfOk result (IsKept links.new.items) }
    ensures kept { IfOk result (λ kept. (of : SeenRow) → Stands row.entry of → rec_in links.new.items kept ≡ of.rec) }
{
    let link = put(links, row.link)?;
    let extras = put_extras(links, row.xattrs, row.acl)?;
    let meta = *row.meta;
    Ok(Kept { meta, link, extras })
}

/// Puts the records of another text behind others.
fn put_records(records: &mut Vec<Kept>, more: &[Kept], by: u32) -> Result<(), Memory>
    requires { All (KeptFitsBehind by) more.now }
    ensures put { OnOk result (records.new.items ≡ records.old.items ++ map (kept_behind by) more.now) }
    ensures begun { OnErr result (take (length records.old.items) records.new.items ≡ records.old.items) }
{
    records.reserve(more.len())?;
    for kept in more {
        let meta = kept.meta;
        let link = span_behind(kept.link, by);
        let extras = kept.extras;
        records.push(Kept { meta, link, extras })?;
    }
    Ok(())
}

impl RowList {
    fn new(alloc: Global) -> RowList
        ensures { result ≡ [] }
    {
        RowList {
            paths: KeptPaths::new(alloc),
            records: Vec::new(alloc),
            links: Vec::new(alloc),
        }
    }

    /// How many rows there are.
    pub fn len(&self) -> usize
        ensures { result ≡ length self.now }
    {
        self.records.len()
    }

    fn push(&mut self, row: RowRef<'_>) -> Result<(), Memory>
        requires { StandsForSome row }
        ensures { OnOk result ((of : SeenRow) → Stands row.entry of → self.new ≡ self.old ++ of ∷ []) }
    {
        let count = self.records.len();
        let kept = keep(&mut self.links, row)?;
        self.records.push(kept)?;
        let parts = Parts {
            stem: row.stem,
            base: row.base,
        };
        match self.paths.push(parts) {
            Ok(()) => Ok(()),
            Err(Memory) => {
                self.records.truncate(count);
                Err(Memory)
            }
        }
    }

    /// The row at a place, in borrowed parts.
    pub(crate) fn row_at(&self, place: usize) -> RowRef<'_>
        requires { place < length self.now }
        ensures { Stands result (slice_index_or self.now place no_row) }
    {
        let parts = self.paths.parts_at(place);
        let kept = &self.records[place];
        let links = self.links.as_slice();
        let behind = kept.link.end as usize;
        RowRef {
            stem: parts.stem,
            base: parts.base,
            meta: &kept.meta,
            link: bytes_at(links, kept.link),
            xattrs: xattrs_at(links, behind, kept.extras),
            acl: acl_at(links, behind, kept.extras),
        }
    }

    /// Adds the rows of another list: its texts stand behind this one's.
    fn append(&mut self, other: RowList) -> Result<(), Memory>
        ensures { OnOk result (self.new ≡ self.old ++ other) }
    {
        if self.len() == 0 {
            *self = other;
            return Ok(());
        }
        let count = self.records.len();
        let RowList {
            paths,
            records,
            links,
        } = other;
        let by = put_text(&mut self.links, links.as_slice())?;
        if let Err(Memory) = put_records(&mut self.records, records.as_slice(), by) {
            self.records.truncate(count);
            return Err(Memory);
        }
        match self.paths.append(paths) {
            Ok(()) => Ok(()),
            Err(Memory) => {
                self.records.truncate(count);
                Err(Memory)
            }
        }
    }

    /// Adds the rows of a stretch.
    fn put_rows(&self, alloc: Global, rows: &mut Vec<Row>, stretch: Stretch) -> Result<(), Memory>
        requires { stretch.end ≤ length self.now }
        ensures { OnOk result (rows.new.items ≡ rows.old.items ++ picked self.now no_row (places_between stretch.from stretch.end)) }
    {
        for place in stretch.from..stretch.end {
            let row = owned(alloc, self.row_at(place))?;
            rows.push(row)?;
        }
        Ok(())
    }

    fn rows_at(&self, alloc: Global, stretches: &[Stretch]) -> Result<Vec<Row>, Memory>
        requires { All (λ stretch. stretch.end ≤ length self.now) stretches.now }
        ensures { IfOk result (λ rows. rows.items ≡ picked self.now no_row (places_of stretches.now)) }
    {
        let mut rows = Vec::with_capacity(alloc, self.len())?;
        for stretch in stretches {
            self.put_rows(alloc, &mut rows, *stretch)?;
        }
        Ok(rows)
    }

    /// The places of the rows, in path order.
    pub(crate) fn order(&self, alloc: Global) -> Result<Vec<Stretch>, Memory>
        ensures within { IfOk result (λ stretches. All (λ stretch. stretch.end ≤ length self.now) stretches.items) }
        ensures moved { IfOk result (λ stretches. IsPermutation self.now (picked self.now no_row (places_of stretches.items))) }
        ensures sorted { IfOk result (λ stretches. IsSortedBy (λ a b. is_lt (row_cmp a b)) (picked self.now no_row (places_of stretches.items))) }

        // Of the lists that it stands for one at most ascends, and these are its rows.
        ensures only { IfOk result (λ stretches. (other : List SeenRow) → IsPermutation self.now other → IsTrue (ascends row_cmp other)
            → picked self.now no_row (places_of stretches.items) ≡ other) }
    {
        let stretches = order(&self.paths, alloc)?;
        Ok(stretches)
    }

    /// The rows in path order, each in memory of its own.
    ///
    /// Takes time in proportion to the bytes where the rows come as a walk gives them.
    pub fn sorted(self, alloc: Global) -> Result<Vec<Row>, Memory>
        ensures moved { IfOk result (λ rows. IsPermutation self rows.items) }
        ensures sorted { IfOk result (λ rows. IsSortedBy (λ a b. is_lt (row_cmp a b)) rows.items) }

        // Of the lists that it stands for one at most ascends, and this is it.
        ensures only { IfOk result (λ rows. (other : List SeenRow) → IsPermutation self other → IsTrue (ascends row_cmp other) → rows.items ≡ other) }
    {
        let stretches = self.order(alloc)?;
        let rows = self.rows_at(alloc, stretches.as_slice())?;
        Ok(rows)
    }
}

impl Yield for RowList {
    ghost count = { length };

    ghost stands_for = { λ l rows. IsPermutation l rows };

    ghost counted = { λ l rows h. length_permutation l rows h };

    ghost reordered = { λ l rows other moved h. IsPermutation-trans l rows other h moved };

    fn none(alloc: Global) -> Result<RowList, Memory> {
        Ok(RowList::new(alloc))
    }

    fn take(&mut self, _alloc: Global, row: RowRef<'_>) -> Result<(), Memory> {
        self.push(row)
    }

    fn merge(&mut self, _alloc: Global, other: RowList) -> Result<(), Memory> {
        self.append(other)
    }

    fn settle(&mut self, alloc: Global) -> Result<(), Memory> {
        let merged = merged(&self.paths, alloc)?;
        let stretches = merged.as_slice();
        if stretches.len() < 2 || !are_in_order(&self.paths, stretches) {
            return Ok(());
        }
        let records = arranged(alloc, self.records.as_slice(), stretches)?;
        self.paths.arrange(alloc, stretches)?;
        self.records = records;
        Ok(())
    }
}
