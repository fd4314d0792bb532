//! Pages of packed rows.

ghost use Rattle.std.specs.Prelude.{◌≡◌, ◌+◌, ◌<◌, ◌≤◌, ◌++◌, ◌∷◌, [], length, take, drop, IfOk, OnOk, OnErr, slice_index_or};
ghost use Rattle.gufi_base.specs.declared.record.Row.{Row as SeenRow};
ghost use Rattle.gufi_base.specs.Rows.{Stands, StandsForSome};

use crate::cursor::Cursor;
use crate::text::{
    Ends, Stem, acl_behind, base_at, bytes_at, link_at, names_at, number_near, put_parts,
};
use gufi_base::{Memory, Meta, Row, RowRef};
use std::alloc::Global;
use std::marker::Model;

/// A row: its record, and where its base name, its link, its names of extended attributes and its access control list stand. By
/// its fields it has 88 bytes.
#[derive(Clone, Copy)]
pub struct Packed {
    pub meta: Meta,
    pub ends: Ends,
}

/// Fewer than 2^32 rows, in memory that they share: three arrays. The rows of one directory that stand side by side have one
/// stem.
#[derive(Drop)]
pub struct Page {
    rows: Vec<Packed>,
    text: Vec<u8>,
    stems: Vec<Stem>,
}

impl Model for Page {
    ghost use Rattle.std.specs.Prelude.{List};
    ghost use Rattle.gufi_base.specs.declared.record.Row.{Row};
    ghost use Rattle.gufi_page.specs.Packed.{IsPage, rows_in};

    ghost Value = { List Row };

    ghost view = { λ p. rows_in p.text.items p.stems.items p.rows.items };

    ghost invariant = { λ p. IsPage p.text.items p.stems.items p.rows.items };
}

/// A row in borrowed parts.
fn parts_of(row: &Row) -> RowRef<'_>
    ensures { Stands result row.now }
{
    // Its clause tells that the path's names are file names.
    let _text = row.path.text();
    let (stem, base) = row.path.stem_and_base();
    RowRef {
        stem,
        base,
        meta: &row.rec.meta,
        link: row.rec.link.as_slice(),
        xattrs: row.rec.xattrs.as_slice(),
        acl: row.rec.acl.as_slice(),
    }
}

impl Page {
    /// No row. Takes no memory.
    pub fn new(alloc: Global) -> Page
        ensures { result ≡ [] }
    {
        Page {
            rows: Vec::new(alloc),
            text: Vec::new(alloc),
            stems: Vec::new(alloc),
        }
    }

    /// No row, and memory for the records of so many.
    fn with_room(alloc: Global, count: usize) -> Result<Page, Memory>
        ensures { IfOk result (λ page. page ≡ []) }
    {
        Ok(Page {
            rows: Vec::with_capacity(alloc, count)?,
            text: Vec::new(alloc),
            stems: Vec::new(alloc),
        })
    }

    /// How many rows there are. `O(1)`.
    pub fn len(&self) -> u32
        ensures { result ≡ length self.now }
    {
        self.rows.len() as u32
    }

    /// Adds a row behind the others, in time in proportion to its bytes.
    ///
    /// What doesn't fit is answered as want of memory: a row behind 2^32 - 1 others, a link, names of extended attributes or an
    /// access control list of more than 65,535 bytes, or bytes behind the first 4 GiB.
    pub fn push(&mut self, row: RowRef<'_>) -> Result<(), Memory>
        requires { StandsForSome row }
        ensures pushed { OnOk result ((of : SeenRow) → Stands row.entry of → self.new ≡ self.old ++ of ∷ []) }
        ensures unchanged { OnErr result (self.new ≡ self.old) }
    {
        if self.rows.len() >= u32::MAX as usize {
            return Err(Memory);
        }
        let first = self.rows.len() as u32;
        let meta = *row.meta;
        let ends = put_parts(&mut self.text, &mut self.stems, first, row)?;
        self.rows.push(Packed { meta, ends })?;
        Ok(())
    }

    /// The row at a place, and the number of its stem. The number that is tried first is for speed alone.
    pub(crate) fn row_near(&self, tried: usize, place: u32) -> (usize, RowRef<'_>)
        requires { place < length self.now }
        ensures { (of : SeenRow) × (of ≡ slice_index_or self.now place of) × Stands result.1 of }
    {
        let number = number_near(self.stems.as_slice(), tried, place);
        let packed = &self.rows[place as usize];
        let text = self.text.as_slice();
        let row = RowRef {
            stem: bytes_at(text, self.stems[number]),
            base: base_at(text, packed.ends),
            meta: &packed.meta,
            link: link_at(text, packed.ends),
            xattrs: names_at(text, packed.ends),
            acl: acl_behind(text, packed.ends),
        };
        (number, row)
    }

    /// All rows, in the order in which they were packed. `O(1)`, and takes no memory.
    pub fn rows(&self) -> Cursor<'_>
        ensures { result ≡ self.now }
    {
        Cursor::between(self, 0, self.len())
    }

    /// So many rows from a place on, in order. `O(1)`, and takes no memory.
    pub fn range(&self, first: u32, count: u32) -> Cursor<'_>
        requires { first + count ≤ length self.now }
        ensures { result ≡ take count (drop first self.now) }
    {
        // Its clause tells that the sum is a number of 32 bits.
        let _len = self.len();
        Cursor::between(self, first, first + count)
    }
}

/// A page of these rows, in their order: path order isn't asked for. What doesn't fit is answered as want of memory, as by
/// `Page::push`.
pub fn pack(alloc: Global, rows: &[Row]) -> Result<Page, Memory>
    ensures { IfOk result (λ page. page ≡ rows.now) }
{
    let mut page = Page::with_room(alloc, rows.len())?;
    for row in rows {
        page.push(parts_of(row))?;
    }
    Ok(page)
}
