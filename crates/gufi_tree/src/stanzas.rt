//! Lines by their stanzas: a directory, and its entries behind it.

ghost use Rattle.std.specs.Prelude.{List, ◌≡◌, ◌<◌, ◌≤◌, ◌+◌, ◌^◌, ◌++◌, ◌∷◌, [], map, not, true, false, length, drop, nat_lt, reverse, count_by, MatchOption, IfOk, OnOk, IsTrue};
ghost use Rattle.std.specs.List.{list_all, flat_map};
ghost use Rattle.std.specs.List.Sorted.{IsPermutation, IsSortedBy};
ghost use Rattle.std.specs.Ordering.{is_lt};
ghost use Rattle.gufi_base.specs.declared.record.Line.{Line};
ghost use Rattle.gufi_base.specs.Kinds.{is_dir};
ghost use Rattle.gufi_base.specs.Names.{is_name};
ghost use Rattle.gufi_base.specs.Paths.{Components, is_child_of, base_name};
ghost use Rattle.gufi_tree.specs.Build.{is_dir_line};
ghost use Rattle.gufi_tree.specs.Tree.{entry_row, own_rows};
ghost use Rattle.gufi_tree.specs.StanzaLines.{stanza_holds, line_cmp, zip_lines, are_few, IsWhole};

use crate::borrowed::{DirRef, EntriesRef, EntryRef};
use crate::closed::{Begun, Closed, Closing};
use crate::dirs::Dirs;
use gufi_base::{Line, Path, Rec, RecRef};
use std::alloc::{AllocError, Global};
use std::marker::Model;

/// Lines of which each entry's stands behind its directory's, or behind that of another entry of it.
///
/// The path of an entry isn't kept: it is its directory's and its name, and its bytes are packed as it comes. When the next stanza
/// begins, the entries of the one before are put in name order. Contracts see the lines, numbered from 1.
#[derive(Drop)]
pub struct Stanzas {
    closing: Closing,
    begun: Option<Begun>,
    count: usize,
    dirs: usize,
}

impl Model for Stanzas {
    ghost use Rattle.std.specs.Prelude.{List};
    ghost use Rattle.gufi_base.specs.declared.record.Line.{Line};

    ghost Value = { List Line };

    ghost use Rattle.gufi_tree.specs.StanzaLines.{lines_in, AreKept};

    ghost view = { λ s. lines_in s.closing.packing.dirs s.closing.places.items s.begun s.closing.packing.pending };

    ghost invariant = { λ s. AreKept s.closing.packing.dirs s.closing.places.items s.closing.distinct s.begun s.closing.packing.pending s.count s.dirs };
}

/// The number of the line behind so many others.
fn number_of(place: u32) -> u32
    requires { place + 1 < 2 ^ 32 }
    ensures { result ≡ place + 1 }
{
    place + 1
}

/// Adds the line of an entry of the directory with a path.
fn push_entry_line(
    alloc: Global,
    lines: &mut Vec<Line>,
    path: &Path,
    entry: &EntryRef<'_>,
    place: u32,
) -> Result<(), AllocError>
    requires { place + 1 < 2 ^ 32 }
    ensures { OnOk result (lines.new.items ≡ lines.old.items ++ record { number = place + 1; path = path.now ++ entry.now.name ∷ []; rec = entry.now.rec } ∷ []) }
{
    let path = path.child(alloc, entry.name())?;
    let rec = entry.rec().copy(alloc)?;
    let number = number_of(place);
    lines.push(Line { number, path, rec })?;
    Ok(())
}

/// Adds the lines of the entries of the directory with a path.
fn push_entry_lines(
    alloc: Global,
    lines: &mut Vec<Line>,
    path: &Path,
    entries: &EntriesRef<'_>,
    places: &[u32],
    at: usize,
) -> Result<(), AllocError>
    requires within { at + length entries.now ≤ length places.now }
    requires few { IsTrue (are_few places.now) }
    ensures { OnOk result (lines.new.items ≡ lines.old.items ++ zip_lines (drop at places.now) (map (entry_row path.now) entries.now)) }
{
    for place in 0..entries.len() {
        push_entry_line(alloc, lines, path, &entries.at(place), places[at + place])?;
    }
    Ok(())
}

/// Adds the line of a directory.
fn push_dir_line(
    alloc: Global,
    lines: &mut Vec<Line>,
    dir: &DirRef<'_>,
    place: u32,
) -> Result<(), AllocError>
    requires { place + 1 < 2 ^ 32 }
    ensures { OnOk result (lines.new.items ≡ lines.old.items ++ record { number = place + 1; path = dir.now.path; rec = dir.now.rec } ∷ []) }
{
    let path = dir.path().copy(alloc)?;
    let rec = dir.rec().copy(alloc)?;
    let number = number_of(place);
    lines.push(Line { number, path, rec })?;
    Ok(())
}

/// Adds the lines of a directory and of its entries, whose places begin at one among all.
fn push_lines(
    alloc: Global,
    lines: &mut Vec<Line>,
    dir: &DirRef<'_>,
    places: &[u32],
    at: usize,
) -> Result<(), AllocError>
    requires within { at + length (own_rows dir.now) ≤ length places.now }
    requires few { IsTrue (are_few places.now) }
    ensures { OnOk result (lines.new.items ≡ lines.old.items ++ zip_lines (drop at places.now) (own_rows dir.now)) }
{
    push_dir_line(alloc, lines, dir, places[at])?;
    let path = dir.path().copy(alloc)?;
    push_entry_lines(alloc, lines, &path, &dir.entries(), places, at + 1)
}

/// Puts lines in the order of their numbers.
fn sort_lines(lines: &mut Vec<Line>)
    ensures permutation { IsPermutation lines.old.items lines.new.items }
    ensures order { IsSortedBy (λ x y. is_lt (line_cmp x y)) lines.new.items }
{
    lines.sort_unstable_by(|a, b| a.number.cmp(&b.number));
}

fn rows_in(dir: &DirRef<'_>) -> usize
    requires { length dir.now.entries + 1 < 2 ^ 64 }
    ensures { result ≡ length (own_rows dir.now) }
{
    dir.entries().len() + 1
}

fn count_of(places: &[u32]) -> usize
    ensures { result ≡ length places.now }
{
    places.len()
}

/// The lines of directories and of their entries, as these are kept.
fn kept_lines(alloc: Global, dirs: &Dirs, places: &[u32]) -> Result<Vec<Line>, AllocError>
    requires whole { length places.now ≡ length (flat_map own_rows dirs.now) }
    requires few { IsTrue (are_few places.now) }
    ensures { IfOk result (λ lines. lines.items ≡ zip_lines places.now (flat_map own_rows dirs.now)) }
{
    let count = count_of(places);
    let mut lines = Vec::with_capacity(alloc, count)?;
    let mut at = 0;
    for place in 0..dirs.len() {
        let dir = dirs.at(place);
        push_lines(alloc, &mut lines, &dir, places, at)?;
        at += rows_in(&dir);
    }
    Ok(lines)
}

impl Closed {
    /// The lines, each with its path, in the order of their numbers. Directories and entries are copied.
    pub(crate) fn lines(&self, alloc: Global) -> Result<Vec<Line>, AllocError>
        requires whole { length self.now.places.items ≡ length (flat_map own_rows self.now.dirs) }
        requires few { IsTrue (are_few self.now.places.items) }
        ensures { IfOk result (λ lines. (known : List Line) → IsWhole known self.now.dirs self.now.places.items self.now.distinct → lines.items ≡ known) }
    {
        let mut lines = kept_lines(alloc, &self.dirs, self.places.as_slice())?;
        sort_lines(&mut lines);
        Ok(lines)
    }
}

impl Stanzas {
    pub fn new(alloc: Global) -> Stanzas
        ensures { result ≡ [] }
    {
        Stanzas {
            closing: Closing::new(alloc),
            begun: None,
            count: 0,
            dirs: 0,
        }
    }

    /// How many lines there are.
    pub fn len(&self) -> usize
        ensures { result ≡ length self.now }
    {
        self.count
    }

    /// How many of them are directories'.
    pub fn dirs(&self) -> usize
        ensures dirs { result ≡ count_by is_dir_line self.now }
        ensures entries { result + count_by (λ line. not (is_dir_line line)) self.now ≡ length self.now }
    {
        self.dirs
    }

    /// The directory of the last stanza.
    pub fn stanza(&self) -> Option<&Path>
        ensures { MatchOption result (self.now ≡ []) (λ path. (child : Components) → stanza_holds (reverse self.now) child ≡ is_child_of path.now child) }
    {
        match &self.begun {
            None => None,
            Some(begun) => Some(&begun.path),
        }
    }

    /// Adds the line of a directory, which begins a stanza. Where there is no memory, all lines are given up.
    pub fn push_dir(&mut self, alloc: Global, path: Path, rec: Rec) -> Result<(), AllocError>
        requires kind { is_dir rec.meta.kind ≡ true }
        requires few { length self.old < 2 ^ 32 }
        ensures { OnOk result (self.new ≡ self.old ++ record { number = length self.old + 1; path = path; rec = rec } ∷ []) }
    {
        let place = self.count as u32;
        let before = self.begun.replace(Begun { path, rec, place });
        match self.closing.end(alloc, before) {
            Ok(()) => {
                self.count += 1;
                self.dirs += 1;
                Ok(())
            }
            Err(error) => {
                *self = Stanzas::new(alloc);
                Err(error)
            }
        }
    }

    /// Adds the line of an entry of the last directory, whose bytes are copied.
    #[inline]
    pub fn push_entry(&mut self, name: &[u8], rec: &RecRef<'_>) -> Result<(), AllocError>
        requires name { IsTrue (is_name name.now) }
        requires kind { is_dir rec.now.meta.kind ≡ false }
        requires some { 0 < length self.old }
        requires few { length self.old < 2 ^ 32 }
        ensures { OnOk result ((path : Components) → stanza_holds (reverse self.old) path ≡ true → base_name path ≡ name.now → self.new ≡ self.old ++ record { number = length self.old + 1; path = path; rec = rec.now } ∷ []) }
    {
        let place = self.count as u32;
        self.closing.packing.push(place, name, rec)?;
        self.count += 1;
        Ok(())
    }

    /// The directories, the last stanza ended too.
    pub(crate) fn into_closed(self, alloc: Global) -> Result<Closed, AllocError>
        ensures { IfOk result (λ closed. IsWhole self closed.dirs closed.places.items closed.distinct) }
    {
        let Stanzas {
            mut closing,
            begun,
            ..
        } = self;
        closing.end(alloc, begun)?;
        Ok(closing.into_closed())
    }

    /// The lines, each with its path.
    pub fn into_lines(self, alloc: Global) -> Result<Vec<Line>, AllocError>
        requires { length self < 2 ^ 32 }
        ensures { IfOk result (λ lines. lines.items ≡ self) }
    {
        let closed = self.into_closed(alloc)?;
        closed.lines(alloc)
    }
}
