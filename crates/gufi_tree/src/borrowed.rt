//! Directories and their entries, borrowed from where they are packed.

ghost use Rattle.std.specs.Prelude.{◌≡◌, ◌≢◌, ◌+◌, ◌<◌, ◌≤◌, nat_lt, [], length, slice_index_or, All, IsTrue, MatchOption};
ghost use Rattle.std.specs.List.{list_any};
ghost use Rattle.gufi_base.specs.Names.{is_name};
ghost use Rattle.gufi_base.specs.Paths.{base_name, is_child_of, parent_path, stem};
ghost use Rattle.gufi_base.specs.PathTexts.{kept_text, names, IsText};
ghost use Rattle.gufi_base.specs.Extras.{kept_xattrs, kept_acl, AreKept};
ghost use Rattle.gufi_access.specs.Access.{rights};
ghost use Rattle.gufi_tree.specs.declared.tree.Entry.{Entry as SeenEntry};
ghost use Rattle.gufi_tree.specs.Bundles.{bytes_at, directory_in, entry_in, entries_in, IsHead, IsPacked};
ghost use Rattle.gufi_tree.specs.Heads.{guard_in, guard_of, packed_head};
ghost use Rattle.gufi_tree.specs.Rows.{packed_row};
ghost use Rattle.gufi_tree.specs.Tree.{rights_of};

use crate::heads::HeadSpot;
use crate::rows::{PackedRowsRef, Spot};
use gufi_access::Guard;
use gufi_base::{Extras, Meta, PathRef, RecRef, acl_at, same_bytes, xattrs_at};
use std::marker::Model;

/// So many bytes of a text from a place on.
#[inline]
fn bytes_at(text: &[u8], at: usize, count: usize) -> &[u8]
    requires { at + count ≤ length text.now }
    ensures { result.now ≡ bytes_at text.now at count }
{
    &text[at..at + count]
}

/// A record of these numbers: its link stands at a place of a text, and what else is kept behind it.
#[inline]
fn record_at<'a>(
    meta: &'a Meta,
    text: &'a [u8],
    at: usize,
    link: usize,
    extras: Extras,
) -> RecRef<'a>
    requires { AreKept text.now (at + link) extras }
    ensures { result ≡ record { link = bytes_at text.now at link; xattrs = kept_xattrs text.now (at + link) extras; acl = kept_acl text.now (at + link) extras; meta = meta.now } }
{
    let target = bytes_at(text, at, link);
    if matches!(extras, Extras::Neither) {
        return RecRef::of(meta, target, &[], &[]);
    }
    RecRef::of(
        meta,
        target,
        xattrs_at(text, at + link, extras),
        acl_at(text, at + link, extras),
    )
}

/// Where the last name of a path begins, of which a head tells so: before the text's end.
#[inline]
#[tactic(auto, using(crate::proofs::LastNames::last_within))]
fn last_name_at(kept: &[u8], last: u16) -> usize
    requires text { IsText kept.now }
    requires last { 1 < length kept.now → last ≡ length (kept_text (parent_path (names kept.now))) }
    requires named { 1 < length kept.now }
    ensures value { result ≡ length (kept_text (parent_path (names kept.now))) }
    ensures within { result < length kept.now }
{
    usize::from(last)
}

/// The stem and the base name of a path whose last name begins there.
#[inline]
#[tactic(auto, using(crate::proofs::LastNames::stem_there, crate::proofs::LastNames::base_there))]
fn parted_at(kept: &[u8], last: u16) -> (&[u8], &[u8])
    requires text { IsText kept.now }
    requires last { 1 < length kept.now → last ≡ length (kept_text (parent_path (names kept.now))) }
    ensures stem { result.0.now ≡ stem (names kept.now) }
    ensures base { result.1.now ≡ base_name (names kept.now) }
{
    if kept.len() <= 1 {
        return (&[], kept);
    }
    let at = last_name_at(kept, last);
    (&kept[..at], &kept[at..kept.len() - 1])
}

/// The text above the last name of a path which begins there; the root has none.
#[inline]
#[tactic(auto, using(crate::proofs::LastNames::front_there, crate::proofs::LastNames::some_name, crate::proofs::LastNames::no_name))]
fn above_at(kept: &[u8], last: u16) -> Option<&[u8]>
    requires text { IsText kept.now }
    requires last { 1 < length kept.now → last ≡ length (kept_text (parent_path (names kept.now))) }
    ensures { MatchOption result (names kept.now ≡ []) (λ above. (names kept.now ≢ []) × (above.now ≡ kept_text (parent_path (names kept.now)))) }
{
    if kept.len() <= 1 {
        return None;
    }
    Some(&kept[..last_name_at(kept, last)])
}

/// An entry whose parts stand elsewhere.
#[derive(Drop)]
pub struct EntryRef<'a> {
    spot: Spot,
    meta: &'a Meta,
    text: &'a [u8],
}

impl<'a> Model for EntryRef<'a> {
    ghost use Rattle.gufi_tree.specs.declared.tree.Entry.{Entry};

    ghost Value = { Entry };

    ghost use Rattle.gufi_tree.specs.Bundles.{entry_in, IsPacked};
    ghost use Rattle.gufi_tree.specs.Rows.{packed_row};

    ghost view = { λ e. entry_in e.text.now (packed_row e.spot e.meta.now) };

    ghost invariant = { λ e. IsPacked e.text.now (packed_row e.spot e.meta.now) };
}

impl<'a> EntryRef<'a> {
    /// The entry of these numbers whose bytes stand there in a text.
    #[inline]
    pub(crate) fn of(spot: Spot, meta: &'a Meta, text: &'a [u8]) -> EntryRef<'a>
        requires { IsPacked text.now (packed_row spot meta.now) }
        ensures { result ≡ entry_in text.now (packed_row spot meta.now) }
    {
        EntryRef { spot, meta, text }
    }

    /// The bytes of its name. Reads none of its numbers.
    #[inline]
    pub fn name(&self) -> &'a [u8]
        ensures value { result.now ≡ self.now.name }
        ensures name { IsTrue (is_name self.now.name) }
    {
        let spot = self.spot;
        bytes_at(self.text, spot.at as usize, spot.name as usize)
    }

    #[inline]
    pub fn rec(&self) -> RecRef<'a>
        ensures { result ≡ self.now.rec }
    {
        let spot = self.spot;
        let at = spot.at as usize + spot.name as usize;
        record_at(self.meta, self.text, at, spot.link as usize, spot.extras)
    }
}

/// Entries of a directory, in the order in which they are kept. Their number has 32 bits.
#[derive(Drop)]
pub struct EntriesRef<'a> {
    rows: PackedRowsRef<'a>,
    text: &'a [u8],
}

impl<'a> Model for EntriesRef<'a> {
    ghost use Rattle.std.specs.Prelude.{◌<◌, ◌^◌, List, All, length};
    ghost use Rattle.gufi_tree.specs.declared.tree.Entry.{Entry};

    ghost Value = { List Entry };

    ghost use Rattle.gufi_tree.specs.Bundles.{entries_in, IsPacked};

    ghost view = { λ e. entries_in e.text.now e.rows };

    ghost invariant = { λ e. All (IsPacked e.text.now) e.rows × (length e.rows < 2 ^ 32) };
}

impl<'a> EntriesRef<'a> {
    /// How many there are.
    #[inline]
    pub fn len(&self) -> usize
        ensures { result ≡ length self.now }
    {
        self.rows.len()
    }

    /// The entry at a place. `O(1)`.
    #[inline]
    pub fn at(&self, place: usize) -> EntryRef<'a>
        requires { place < length self.now }
        ensures { (e : SeenEntry) → result ≡ slice_index_or self.now place e }
    {
        let rows = &self.rows;
        let (spot, meta) = rows.at(place);
        EntryRef::of(spot, meta, self.text)
    }

    /// Whether a name has more than so many bytes. None has more than 255.
    pub(crate) fn has_name_over(&self, bytes: usize) -> bool
        ensures { result ≡ list_any (λ entry. nat_lt bytes (length entry.name)) self.now }
    {
        let _rows = &self.rows;
        if bytes >= 255 {
            return false;
        }
        for place in 0..self.len() {
            if self.at(place).name().len() > bytes {
                return true;
            }
        }
        false
    }
}

/// A directory whose parts stand elsewhere.
#[derive(Drop)]
pub struct DirRef<'a> {
    spot: &'a HeadSpot,
    meta: &'a Meta,
    rows: PackedRowsRef<'a>,
    text: &'a [u8],
}

impl<'a> Model for DirRef<'a> {
    ghost use Rattle.gufi_tree.specs.Tree.{Directory};

    ghost Value = { Directory };

    ghost use Rattle.std.specs.Prelude.{◌≡◌, All};
    ghost use Rattle.gufi_tree.specs.Bundles.{directory_in, IsHead, IsPacked};
    ghost use Rattle.gufi_tree.specs.Heads.{guard_in, guard_of, packed_head};

    ghost view = { λ d. directory_in d.text.now d.rows (packed_head d.spot.now d.meta.now) };

    ghost invariant = { λ d. IsHead d.text.now d.rows (packed_head d.spot.now d.meta.now) × All (IsPacked d.text.now) d.rows × (guard_in d.spot.now ≡ guard_of d.meta.now) };
}

impl<'a> DirRef<'a> {
    /// The directory of a head in two parts, among whose rows and in whose text it stands.
    #[inline]
    pub(crate) fn of(
        spot: &'a HeadSpot,
        meta: &'a Meta,
        rows: PackedRowsRef<'a>,
        text: &'a [u8],
    ) -> DirRef<'a>
        requires head { IsHead text.now rows (packed_head spot.now meta.now) }
        requires rows { All (IsPacked text.now) rows }
        requires guard { guard_in spot.now ≡ guard_of meta.now }
        ensures { result ≡ directory_in text.now rows.entry (packed_head spot.now meta.now) }
    {
        DirRef {
            spot,
            meta,
            rows,
            text,
        }
    }

    #[inline]
    pub fn path(&self) -> PathRef<'a>
        ensures { result ≡ self.now.path }
    {
        let spot = self.spot;
        PathRef::of_text(bytes_at(self.text, spot.at as usize, spot.path as usize))
    }

    /// How many names its path has. Doesn't look at the path.
    #[inline]
    pub fn depth(&self) -> usize
        ensures { result ≡ length self.now.path }
    {
        usize::from(self.spot.depth)
    }

    /// The stem and the base name of its path. Looks at no byte of it.
    #[inline]
    pub fn stem_and_base(&self) -> (&'a [u8], &'a [u8])
        ensures stem { result.0.now ≡ stem self.now.path }
        ensures base { result.1.now ≡ base_name self.now.path }
    {
        let spot = self.spot;
        let kept = bytes_at(self.text, spot.at as usize, spot.path as usize);
        parted_at(kept, spot.last)
    }

    /// The kept text of the directory that it lies in; the root lies in none. Looks at no byte of its path.
    #[inline]
    fn parent_text(&self) -> Option<&'a [u8]>
        ensures { MatchOption result (self.now.path ≡ []) (λ parent. (self.now.path ≢ []) × (parent.now ≡ kept_text (parent_path self.now.path))) }
    {
        let spot = self.spot;
        let kept = bytes_at(self.text, spot.at as usize, spot.path as usize);
        above_at(kept, spot.last)
    }

    /// Whether it lies in another directory, right below it.
    pub(crate) fn is_child_of(&self, parent: &DirRef<'_>) -> bool
        ensures { result ≡ is_child_of parent.now.path self.now.path }
    {
        // A path's own text tells that its names are names.
        let _path = self.path().text();
        match self.parent_text() {
            None => false,
            Some(above) => same_bytes(above, parent.path().text()),
        }
    }

    #[inline]
    pub fn rec(&self) -> RecRef<'a>
        ensures { result ≡ self.now.rec }
    {
        let spot = self.spot;
        let at = spot.at as usize + spot.path as usize;
        record_at(self.meta, self.text, at, spot.link as usize, spot.extras)
    }

    /// What guards it. Looks at nothing else of its record.
    #[inline]
    pub fn guard(&self) -> Guard<'a>
        ensures { rights result ≡ rights_of self.now.rec }
    {
        let spot = self.spot;
        let behind = spot.at as usize + spot.path as usize + spot.link as usize;
        Guard {
            uid: spot.uid,
            gid: spot.gid,
            mode: spot.mode,
            acl: acl_at(self.text, behind, spot.extras),
        }
    }

    /// Its entries, in the order in which they are kept.
    #[inline]
    pub fn entries(&self) -> EntriesRef<'a>
        ensures { result ≡ self.now.entries }
    {
        let rows = &self.rows;
        let first = self.spot.first as usize;
        EntriesRef {
            rows: rows.range(first, self.spot.count as usize),
            text: self.text,
        }
    }
}
