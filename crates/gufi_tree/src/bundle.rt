//! Bundles: directories packed side by side, with a pair of arrays of heads, another of entries, and one text for all of them.

ghost use Rattle.std.specs.Prelude.{◌≡◌, ℕ, ◌+◌, ◌<◌, ◌++◌, ◌∷◌, [], List, length, slice_index_or, All, IsTrue, IfOk, OnOk, OnErr};
ghost use Rattle.gufi_base.specs.Names.{is_name};
ghost use Rattle.gufi_base.specs.Paths.{parent_path};
ghost use Rattle.gufi_base.specs.PathTexts.{kept_text};
ghost use Rattle.gufi_base.specs.Extras.{kept_xattrs, kept_acl, AreKept};
ghost use Rattle.gufi_tree.specs.Tree.{Directory};
ghost use Rattle.gufi_tree.specs.Bundles.{bytes_at, directory_in, entry_in, entries_in, IsHead, IsPacked, IsShort};
ghost use Rattle.gufi_tree.specs.GoingOn.{GoesOn};
ghost use Rattle.gufi_tree.specs.Packs.{entries_of};
ghost use Rattle.gufi_tree.specs.Rows.{spot_of};

use crate::borrowed::DirRef;
use crate::heads::PackedHeads;
use crate::pending::Pending;
use crate::rows::{PackedRows, Spot};
use gufi_base::{Extras, Meta, PathRef, RecRef, put_extras, u16_of, u32_of};
use std::alloc::{AllocError, Global};
use std::marker::Model;
use std::mem;

/// An entry: its record, and where its name and behind it its link stand in a text, by their lengths in bytes. Names of extended
/// attributes and an access control list stand behind the link, where there are any. It has 88 bytes; in a bundle its numbers, of 80,
/// and its spot, of 8, stand in two arrays.
#[derive(Clone, Copy)]
pub(crate) struct Packed {
    pub(crate) meta: Meta,
    pub(crate) at: u32,
    pub(crate) link: u16,
    pub(crate) name: u8,
    pub(crate) extras: Extras,
}

impl Packed {
    /// Where its bytes stand.
    #[inline]
    pub(crate) fn spot(&self) -> Spot
        ensures { result ≡ spot_of self.now }
    {
        Spot {
            at: self.at,
            link: self.link,
            name: self.name,
            extras: self.extras,
        }
    }
}

/// A directory: its record, where the kept text of its path and behind it its link stand in a text, by their lengths in bytes, how many
/// names the path has and where in it the last one begins, and which entries are its own. The same two stand behind the link. It has 104
/// bytes; in a bundle its numbers, of 80, and the rest, of 32 with what guards the directory, stand in two arrays.
#[derive(Clone, Copy)]
pub(crate) struct Head {
    pub(crate) meta: Meta,
    pub(crate) at: u32,
    pub(crate) path: u16,
    pub(crate) link: u16,
    pub(crate) depth: u16,
    pub(crate) last: u16,
    pub(crate) first: u32,
    pub(crate) count: u32,
    pub(crate) extras: Extras,
}

/// Directories with their entries, in memory that they share: five arrays, of which two hold the parts of the directories, 112 bytes of
/// each, and two those of the entries, 88 bytes of each. The text has less than 4 GiB.
#[derive(Drop)]
pub(crate) struct Bundle {
    heads: PackedHeads,
    rows: PackedRows,
    text: Vec<u8>,
    longest: u16,
}

impl Model for Bundle {
    ghost use Rattle.std.specs.Prelude.{List, map};
    ghost use Rattle.gufi_tree.specs.Tree.{Directory};

    ghost Value = { List Directory };

    ghost use Rattle.gufi_tree.specs.Bundles.{directory_in, IsBundle};

    ghost view = { λ b. map (directory_in b.text.items b.rows) b.heads };

    ghost invariant = { λ b. IsBundle b.text.items b.rows b.heads b.longest };
}

/// Puts some bytes and behind them all of a record but its numbers behind a text, and tells where they begin and what stands behind the link.
fn put_bytes(
    text: &mut Vec<u8>,
    bytes: &[u8],
    rec: &RecRef<'_>,
) -> Result<(u32, Extras), AllocError>
    ensures grown { (more : List ℕ) × (text.new.items ≡ text.old.items ++ more) }
    ensures within { IfOk result (λ put. AreKept text.new.items (put.0 + length bytes.now + length rec.now.link) put.1) }
    ensures bytes { IfOk result (λ put. bytes_at text.new.items put.0 (length bytes.now) ≡ bytes.now) }
    ensures link { IfOk result (λ put. bytes_at text.new.items (put.0 + length bytes.now) (length rec.now.link) ≡ rec.now.link) }
    ensures xattrs { IfOk result (λ put. kept_xattrs text.new.items (put.0 + length bytes.now + length rec.now.link) put.1 ≡ rec.now.xattrs) }
    ensures acl { IfOk result (λ put. kept_acl text.new.items (put.0 + length bytes.now + length rec.now.link) put.1 ≡ rec.now.acl) }
{
    let at = u32_of(text.len())?;
    text.extend_from_slice(bytes)?;
    if !rec.link().is_empty() {
        text.extend_from_slice(rec.link())?;
    }
    let extras = put_extras(text, rec.xattrs(), rec.acl())?;
    Ok((at, extras))
}

/// Puts the bytes of an entry behind a text.
pub(crate) fn pack_entry(
    text: &mut Vec<u8>,
    name: &[u8],
    rec: &RecRef<'_>,
) -> Result<Packed, AllocError>
    requires { IsTrue (is_name name.now) }
    ensures grown { (more : List ℕ) × (text.new.items ≡ text.old.items ++ more) }
    ensures packed { IfOk result (IsPacked text.new.items) }
    ensures entry { IfOk result (λ packed. entry_in text.new.items packed ≡ record { name = name.now; rec = rec.now }) }
{
    let link = u16_of(rec.link().len())?;
    let (at, extras) = put_bytes(text, name, rec)?;
    let meta = *rec.meta();
    Ok(Packed {
        meta,
        at,
        link,
        name: name.len() as u8,
        extras,
    })
}

/// Packs entries behind others: their text as a whole, and their rows with it.
fn push_entries(
    text: &mut Vec<u8>,
    rows: &mut PackedRows,
    entries: &Pending,
) -> Result<(), AllocError>
    requires { All (IsPacked text.old.items) rows.old }
    ensures goes_on { GoesOn text.old.items text.new.items rows.old rows.new }
    ensures entries { OnOk result (entries_in text.new.items rows.new ≡ entries_in text.old.items rows.old ++ entries_of entries.now) }
{
    let base = u32_of(text.len())?;
    text.extend_from_slice(entries.text.as_slice())?;
    u32_of(text.len())?;
    rows.push_rows(entries.rows.as_slice(), base)
}

/// Where the last name of a path begins in its text; 0 for the root.
fn last_at(path: &PathRef<'_>) -> usize
    ensures { 1 < length (kept_text path.now) → result ≡ length (kept_text (parent_path path.now)) }
{
    match path.parent_text() {
        None => 0,
        Some(above) => above.len(),
    }
}

/// Puts a directory's path and its record's bytes behind the text, and packs its entries behind others: so its last name stands beside
/// theirs, and a look at all of them is one at memory that lies together.
fn pack_directory(
    text: &mut Vec<u8>,
    rows: &mut PackedRows,
    path: &PathRef<'_>,
    rec: &RecRef<'_>,
    entries: &Pending,
) -> Result<Head, AllocError>
    requires { All (IsPacked text.old.items) rows.old }
    ensures goes_on { GoesOn text.old.items text.new.items rows.old rows.new }
    ensures head { IfOk result (IsHead text.new.items rows.new) }
    ensures directory { IfOk result (λ head. directory_in text.new.items rows.new head ≡ record { path = path.now; rec = rec.now; entries = entries_of entries.now }) }
{
    let first = u32_of(rows.len())?;
    let count = u32_of(entries.len())?;
    let kept = path.text();
    let length = u16_of(kept.len())?;
    let link = u16_of(rec.link().len())?;
    let depth = u16_of(path.depth())?;
    let last = u16_of(last_at(path))?;
    let (at, extras) = put_bytes(text, kept, rec)?;
    push_entries(text, rows, entries)?;
    let meta = *rec.meta();
    Ok(Head {
        meta,
        at,
        path: length,
        link,
        depth,
        last,
        first,
        count,
        extras,
    })
}

impl Bundle {
    /// No directory. Takes no memory.
    pub(crate) fn new(alloc: Global) -> Bundle
        ensures { result ≡ [] }
    {
        Bundle {
            heads: PackedHeads::new(alloc),
            rows: PackedRows::new(alloc),
            text: Vec::new(alloc),
            longest: 0,
        }
    }

    /// How many directories there are.
    pub(crate) fn len(&self) -> usize
        ensures { result ≡ length self.now }
    {
        self.heads.len()
    }

    /// How many directories and entries are kept.
    pub(crate) fn rows(&self) -> usize {
        self.heads.len().saturating_add(self.rows.len())
    }

    /// How many bytes the longest path has, as it is kept.
    pub(crate) fn longest(&self) -> u16
        ensures { All (IsShort result) self.now }
    {
        self.longest
    }

    /// The directory at a place. `O(1)`.
    #[inline]
    pub(crate) fn at(&self, place: usize) -> DirRef<'_>
        requires { place < length self.now }
        ensures { (d : Directory) → result ≡ slice_index_or self.now place d }
    {
        let (spot, meta) = self.heads.at(place);
        DirRef::of(spot, meta, self.rows.as_rows_ref(), self.text.as_slice())
    }

    /// Packs a directory with these entries behind the others, in time in proportion to its bytes.
    ///
    /// What doesn't fit is answered as want of memory: a path, a link, names of extended attributes or an access control list of more than
    /// 65,535 bytes, or bytes behind the first 4 GiB.
    pub(crate) fn push(
        &mut self,
        path: &PathRef<'_>,
        rec: &RecRef<'_>,
        entries: &Pending,
    ) -> Result<(), AllocError>
        ensures pushed { OnOk result (self.new ≡ self.old ++ record { path = path.now; rec = rec.now; entries = entries_of entries.now } ∷ []) }
        ensures unchanged { OnErr result (self.new ≡ self.old) }
    {
        let head = pack_directory(&mut self.text, &mut self.rows, path, rec, entries)?;
        self.heads.push(&head)?;
        self.longest = self.longest.max(head.path);
        Ok(())
    }

    /// The same directories, in as much memory as they take.
    pub(crate) fn copy(&self, alloc: Global) -> Result<Bundle, AllocError>
        ensures { IfOk result (λ copy. copy ≡ self.now) }
    {
        Ok(Bundle {
            heads: self.heads.copy(alloc)?,
            rows: self.rows.copy(alloc)?,
            text: Vec::from_slice(alloc, self.text.as_slice())?,
            longest: self.longest,
        })
    }

    /// Gives up all directories as a bundle that takes no more memory than it must. Numbers of entries, which are most of it, aren't copied.
    pub(crate) fn take(&mut self, alloc: Global) -> Result<Bundle, AllocError>
        ensures taken { IfOk result (λ full. full ≡ self.old) }
        ensures emptied { OnOk result (self.new ≡ []) }
        ensures unchanged { OnErr result (self.new ≡ self.old) }
    {
        self.rows.shrink_to_fit();
        let heads = self.heads.copy(alloc)?;
        let text = Vec::from_slice(alloc, self.text.as_slice())?;
        let rows = self.rows.take(alloc)?;
        let longest = mem::replace(&mut self.longest, 0);
        self.heads.clear();
        self.text.clear();
        Ok(Bundle {
            heads,
            rows,
            text,
            longest,
        })
    }

    /// Makes room for so many entries more.
    pub(crate) fn make_room(&mut self, count: usize) -> Result<(), AllocError>
        ensures { self.new ≡ self.old }
    {
        self.rows.reserve_exact(count)
    }
}
