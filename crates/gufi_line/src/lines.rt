//! The lines that a reader has.

ghost use Rattle.std.specs.Prelude.{◌≡◌, ℕ, ◌+◌, ◌≤◌, ◌<◌, true, false, nat_le, List, [], ◌∷◌, length, reverse, None, MatchOption, OnOk, IfOk, IfErr, IsTrue};
ghost use Rattle.std.specs.Result.{result_unwrap_or};
ghost use Rattle.gufi_base.specs.Kinds.{is_dir};
ghost use Rattle.gufi_base.specs.Limits.{max_dirs, max_entries};
ghost use Rattle.gufi_base.specs.Basics.{part_at};
ghost use Rattle.gufi_base.specs.Names.{is_name};
ghost use Rattle.gufi_base.specs.Paths.{Components, read_path, is_child_of, base_name};
ghost use Rattle.gufi_tree.specs.StanzaLines.{stanza_holds};
ghost use Rattle.gufi_line.specs.LineText.{root_of};
ghost use Rattle.gufi_line.specs.Lines.{dirs_of, entries_of, place_fault, line_of};
ghost use Rattle.gufi_line.specs.Reading.{Gives};
ghost use Rattle.gufi_line.specs.Progress.{root_behind, lines_from, Stops};

use crate::acls::read_list;
use crate::attributes::read_xattrs;
use crate::content::{read_meta, read_path};
use crate::digits::DigitPairs;
use crate::fault::{Refused, TraceError, TraceFault, TraceKind};
use crate::fields::{Parts, read_fields};
use crate::quick::{add_usual, add_wide};
use gufi_base::{Bytes, Kind, Line, Memory, Path, PathFault, Rec, RecRef};
use gufi_tree::Stanzas;
use std::alloc::{AllocError, Global};
use std::marker::Model;

const MAX_DIRS: usize = 262144;

const MAX_ENTRIES: usize = 1048576;

/// The lines so far, by their stanzas.
///
/// Contracts see the lines, the newest first.
#[derive(Drop)]
pub struct Lines {
    stanzas: Stanzas,
}

impl Model for Lines {
    ghost use Rattle.std.specs.Prelude.{List, reverse};
    ghost use Rattle.gufi_base.specs.declared.record.Line.{Line};
    ghost use Rattle.gufi_line.specs.Few.{AreFew};

    ghost Value = { List Line };

    ghost view = { λ p. reverse p.stanzas };

    ghost invariant = { λ p. AreFew (reverse p.stanzas) };
}

impl Lines {
    pub(crate) fn new(alloc: Global) -> Lines
        ensures { result ≡ [] }
    {
        Lines {
            stanzas: Stanzas::new(alloc),
        }
    }

    pub fn len(&self) -> usize
        ensures is { result ≡ length self.now }
        ensures few { result ≤ max_dirs + max_entries }
    {
        self.stanzas.len()
    }

    pub fn into_stanzas(self) -> Stanzas
        ensures few { length result ≤ max_dirs + max_entries }
        ensures lines { result ≡ reverse self }
    {
        self.stanzas
    }

    pub(crate) fn has_max_dirs(&self) -> bool
        ensures { result ≡ nat_le max_dirs (dirs_of self.now) }
    {
        self.stanzas.dirs() >= MAX_DIRS
    }

    pub(crate) fn has_max_entries(&self) -> bool
        ensures { result ≡ nat_le max_entries (entries_of self.now) }
    {
        self.stanzas.len() - self.stanzas.dirs() >= MAX_ENTRIES
    }

    /// The directory of the last stanza.
    pub(crate) fn stanza(&self) -> Option<&Path>
        ensures { MatchOption result (self.now ≡ []) (λ path. (child : Components) → stanza_holds self.now child ≡ is_child_of path.now child) }
    {
        self.stanzas.stanza()
    }

    /// What is wrong with a line at its place.
    #[tactic(auto, unfolding(crate::specs::Lines::place_fault))]
    fn fault_of(&self, kind: Kind, path: &Path) -> Option<TraceKind>
        ensures { result ≡ place_fault self.now kind path.now }
    {
        if kind.is_dir() {
            if self.has_max_dirs() {
                return Some(TraceKind::TooMany { limit: 262144 });
            }
            return None;
        }
        match self.stanza() {
            Some(directory) if path.is_child_of(directory) => {}
            _ => return Some(TraceKind::WrongStanza),
        }
        if self.has_max_entries() {
            return Some(TraceKind::TooMany { limit: 1048576 });
        }
        None
    }

    /// Takes a directory's line. Where there is no memory for it, the others are given back.
    pub(crate) fn push_dir(&mut self, alloc: Global, path: Path, rec: Rec) -> Result<(), AllocError>
        requires kind { is_dir rec.meta.kind ≡ true }
        requires room { dirs_of self.old < max_dirs }
        ensures { OnOk result (self.new ≡ record { number = length self.old + 1; path = path; rec = rec } ∷ self.old) }
    {
        match self.stanzas.push_dir(alloc, path, rec) {
            Ok(()) => Ok(()),
            Err(error) => {
                self.stanzas = Stanzas::new(alloc);
                Err(error)
            }
        }
    }

    /// Takes the line of an entry of the last stanza's directory. Where there is no memory for it, the others are given back.
    pub(crate) fn push_entry(
        &mut self,
        alloc: Global,
        name: &[u8],
        rec: &RecRef<'_>,
    ) -> Result<(), AllocError>
        requires name { IsTrue (is_name name.now) }
        requires kind { is_dir rec.now.meta.kind ≡ false }
        requires room { entries_of self.old < max_entries }
        requires place { (path : Components) × (stanza_holds self.old path ≡ true) × (base_name path ≡ name.now) }
        ensures { OnOk result ((path : Components) → stanza_holds self.old path ≡ true → base_name path ≡ name.now → self.new ≡ record { number = length self.old + 1; path = path; rec = rec.now } ∷ self.old) }
    {
        match self.stanzas.push_entry(name, rec) {
            Ok(()) => Ok(()),
            Err(error) => {
                self.stanzas = Stanzas::new(alloc);
                Err(error)
            }
        }
    }

    /// Takes the next line, which stands at its place.
    fn push(&mut self, alloc: Global, line: Line) -> Result<(), AllocError>
        requires number { line.number ≡ length self.old + 1 }
        requires placed { place_fault self.old line.rec.meta.kind line.path ≡ None }
        ensures { OnOk result (self.new ≡ line ∷ self.old) }
    {
        let Line { path, rec, .. } = line;
        if rec.meta.kind.is_dir() {
            self.push_dir(alloc, path, rec)?;
            return Ok(());
        }
        let Some(name) = path.into_name() else {
            unreachable!();
        };
        self.push_entry(alloc, name.as_slice(), &rec.as_rec_ref())?;
        Ok(())
    }
}

/// The next line, or the first of its faults.
#[tactic(auto, unfolding(crate::specs::Lines::line_in))]
fn read_line(
    alloc: Global,
    delim: u8,
    root: &Path,
    lines: &Lines,
    text: &[u8],
) -> Result<Line, Refused>
    ensures line { Gives (λ line. line) result (line_of delim root.now lines.now text.now) }
    ensures placed { IfOk result (λ line. place_fault lines.now line.rec.meta.kind line.path ≡ None) }
    ensures number { IfOk result (λ line. line.number ≡ length lines.now + 1) }
{
    let fields = read_fields(text, delim)?;
    let path = read_path(alloc, fields.path, fields.link)?;
    let meta = read_meta(&fields)?;
    let xattrs = read_xattrs(alloc, fields.xattrs)?;
    let acl = read_list(alloc, fields.acl)?;
    let Some(path) = path.below(root) else {
        return Err(Refused::Fault(TraceKind::NotUnderRoot));
    };
    if let Some(kind) = lines.fault_of(meta.kind, &path) {
        return Err(Refused::Fault(kind));
    }
    let link = Bytes::from_slice(alloc, fields.link)?;
    Ok(Line {
        number: lines.len() as u32 + 1,
        path,
        rec: Rec {
            meta,
            link,
            xattrs,
            acl,
        },
    })
}

/// The path of the first part; the root where it has a fault.
fn read_first(alloc: Global, parts: &mut Parts<'_>) -> Result<Path, Memory>
    ensures { IfOk result (λ root. root ≡ result_unwrap_or (read_path (part_at parts.old 1)) []) }
{
    let first = parts.next_part().unwrap_or(b"");
    match Path::read(alloc, first) {
        Ok(path) => Ok(path),
        Err(PathFault::Memory) => Err(Memory),
        Err(_) => Ok(Path::root(alloc)?),
    }
}

/// The root that the first line gives.
fn read_root(alloc: Global, delim: u8, text: &[u8]) -> Result<Path, Memory>
    ensures { IfOk result (λ root. root ≡ root_of delim (text.now ∷ [])) }
{
    let mut parts = Parts::of(text, delim);
    read_first(alloc, &mut parts)
}

/// The root and the lines so far.
#[derive(Drop)]
pub struct Progress {
    pub root: Path,
    pub lines: Lines,
}

impl Progress {
    pub fn new(alloc: Global) -> Result<Progress, AllocError>
        ensures { IfOk result (λ known. known ≡ record { root = []; lines = [] }) }
    {
        Ok(Progress {
            root: Path::root(alloc)?,
            lines: Lines::new(alloc),
        })
    }

    /// The first line gives the root.
    fn settle_root(&mut self, alloc: Global, delim: u8, text: &[u8]) -> Result<(), Memory>
        ensures { OnOk result (self.new ≡ record { root = root_behind self.old.lines self.old.root delim (text.now ∷ []); lines = self.old.lines }) }
    {
        if self.lines.len() == 0 {
            self.root = read_root(alloc, delim, text)?;
        }
        Ok(())
    }

    /// Takes a whole line, which may have a fault.
    fn add_exactly(&mut self, alloc: Global, delim: u8, text: &[u8]) -> Result<(), TraceError>
        ensures ok { OnOk result ((more : List (List ℕ)) → lines_from delim self.old (text.now ∷ more) ≡ lines_from delim self.new more) }
        ensures err { IfErr result (λ e. (more : List (List ℕ)) → Stops e (lines_from delim self.old (text.now ∷ more))) }
    {
        self.settle_root(alloc, delim, text)?;
        match read_line(alloc, delim, &self.root, &self.lines, text) {
            Ok(line) => {
                self.lines.push(alloc, line)?;
                Ok(())
            }
            Err(Refused::Memory) => Err(TraceError::Memory),
            Err(Refused::Fault(kind)) => {
                let line = self.lines.len() as u32 + 1;
                Err(TraceError::Fault(TraceFault { line, kind }))
            }
        }
    }

    /// Takes a whole line that isn't sound by numbers of few digits.
    #[inline(never)]
    fn add_slowly(
        &mut self,
        alloc: Global,
        delim: u8,
        pairs: &DigitPairs,
        text: &[u8],
    ) -> Result<(), TraceError>
        ensures ok { OnOk result ((more : List (List ℕ)) → lines_from delim self.old (text.now ∷ more) ≡ lines_from delim self.new more) }
        ensures err { IfErr result (λ e. (more : List (List ℕ)) → Stops e (lines_from delim self.old (text.now ∷ more))) }
    {
        let taken = add_wide(alloc, delim, pairs, &self.root, &mut self.lines, text)?;
        if taken {
            return Ok(());
        }
        self.add_exactly(alloc, delim, text)
    }

    /// Takes a whole line.
    #[inline(always)]
    pub fn add(
        &mut self,
        alloc: Global,
        delim: u8,
        pairs: &DigitPairs,
        text: &[u8],
    ) -> Result<(), TraceError>
        ensures ok { OnOk result ((more : List (List ℕ)) → lines_from delim self.old (text.now ∷ more) ≡ lines_from delim self.new more) }
        ensures err { IfErr result (λ e. (more : List (List ℕ)) → Stops e (lines_from delim self.old (text.now ∷ more))) }
    {
        let taken = add_usual(alloc, delim, pairs, &self.root, &mut self.lines, text)?;
        if taken {
            return Ok(());
        }
        self.add_slowly(alloc, delim, pairs, text)
    }
}
