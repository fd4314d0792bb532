//! Directories read one after the other, from bytes that come in pieces.

ghost use Rattle.std.specs.Prelude.{◌≡◌, ◌≤◌, ◌<◌, ◌+◌, ◌-◌, ◌^◌, ◌++◌, ◌∷◌, [], ℕ, List, false, slice_index_or, ◌||◌, ◌&&◌, length, None, Some, Ok, IfOk, IfErr, OnOk};
ghost use Rattle.gufi_base.specs.Limits.{max_image};
ghost use Rattle.gufi_tree.specs.Tree.{Directory, entry_count};
ghost use Rattle.gufi_image.specs.Widths.{has_names, directory_needs};
ghost use Rattle.gufi_image.specs.Directories.{heading_at};
ghost use Rattle.gufi_image.specs.Sorted.{AreSorted};
ghost use Rattle.gufi_image.specs.Placed.{IsOpen};
ghost use Rattle.gufi_tree.specs.Packs.{entries_of};
ghost use Rattle.gufi_image.specs.Views.{headed, directory_in};
ghost use Rattle.gufi_image.specs.Pieces.{OnFlaw, UnlessMemory, Stops, Alike, Halts, HasFew, IsRead, IsBegun, rest_behind, rest_of, rest_by};

use crate::directory::{Flag, Open, heading_at};
use crate::entry::take_entries;
use crate::fault::Refused;
use crate::head::Head;
use crate::name::Above;
use crate::width::{Width, directory_needs};
use gufi_base::Memory;
use gufi_tree::Packing;
use std::alloc::Global;

/// Directories with the places of their parents and their flags, how many entries they have, and whether one of their rows has what no
/// lesser width holds.
///
/// A flag that is kept has as many bytes left as it would have if the image were as long as one may be.
#[derive(Drop)]
pub(crate) struct Directories {
    pub packing: Packing,
    pub parents: Vec<u32>,
    pub flags: Vec<Flag>,
    pub entries: u32,
    pub needed: bool,
}

/// The next directory, of which no entry is read yet. So many bytes may still come behind those at hand.
fn next_open<'a>(
    alloc: Global,
    rest: &mut &'a [u8],
    room: usize,
    before: &Directories,
    width: Width,
    total: u32,
) -> Result<Open, Refused>
    requires room { room ≤ max_image }
    requires sorted { AreSorted before.now.packing.dirs }
    requires entries { before.now.entries ≡ entry_count before.now.packing.dirs }
    ensures part { IfOk result (IsOpen total before.now.packing.dirs) }
    ensures heading { IfOk result (λ dir. (more : List ℕ) → length more ≤ room → heading_at width total before.now.packing.dirs (rest.old.now ++ more) ≡ Ok (headed (room - length more) dir, rest.new.now ++ more)) }
    ensures halts { IfErr result (λ e. OnFlaw e (λ f. (more : List ℕ) → Stops f more (heading_at width total before.now.packing.dirs (rest.old.now ++ more)))) }
    ensures rest { IfErr result (λ e. rest.new.now ≡ rest.old.now) }
{
    let (mut part, after) = heading_at(
        alloc,
        *rest,
        width,
        &before.packing,
        before.entries,
        total,
    )?;
    part.flag.left += room;
    *rest = after;
    Ok(part)
}

impl Directories {
    fn new(alloc: Global) -> Directories
        ensures packing { result.packing ≡ record { dirs = []; pending = [] } }
        ensures parents { result.parents.items ≡ [] }
        ensures flags { result.flags.items ≡ [] }
        ensures entries { result.entries ≡ 0 }
        ensures needed { result.needed ≡ false }
    {
        Directories {
            packing: Packing::new(alloc),
            parents: Vec::new(alloc),
            flags: Vec::new(alloc),
            entries: 0,
            needed: false,
        }
    }

    /// Whether a row before the last directory has what no lesser width holds, or the last directory or one of its entries.
    fn is_needed(&self, width: Width) -> bool
        requires { 0 < length self.now.packing.dirs }
        ensures { (d : Directory) → result ≡ (self.now.needed || has_names width && directory_needs width (slice_index_or self.now.packing.dirs (length self.now.packing.dirs - 1) d)) }
    {
        self.needed
            || width.has_names() && directory_needs(width, &self.packing.at(self.packing.len() - 1))
    }

    /// Takes one more, whose entries are packed.
    fn close(&mut self, alloc: Global, width: Width, dir: Open) -> Result<(), Memory>
        requires { self.old.entries + length (entries_of self.old.packing.pending) < 2 ^ 32 }
        ensures packing { OnOk result (self.new.packing ≡ record { dirs = self.old.packing.dirs ++ directory_in dir (entries_of self.old.packing.pending) ∷ []; pending = [] }) }
        ensures parents { OnOk result (self.new.parents.items ≡ self.old.parents.items ++ dir.parent ∷ []) }
        ensures flags { OnOk result (self.new.flags.items ≡ self.old.flags.items ++ dir.flag ∷ []) }
        ensures entries { OnOk result (self.new.entries ≡ self.old.entries + length (entries_of self.old.packing.pending)) }
        ensures needed { OnOk result (self.new.needed ≡ (self.old.needed || has_names width && directory_needs width (directory_in dir (entries_of self.old.packing.pending)))) }
    {
        let Open {
            path,
            rec,
            parent,
            flag,
            count: _,
        } = dir;
        self.entries += self.packing.pending_len() as u32;
        self.parents.push(parent)?;
        self.flags.push(flag)?;
        self.packing
            .close(alloc, &path.as_path_ref(), &rec.as_rec_ref())?;
        self.needed = self.is_needed(width);
        Ok(())
    }
}

/// The directories of an image as far as they are read, and the one whose entries are being read.
#[derive(Drop)]
pub(crate) struct Progress {
    pub head: Head,
    pub directories: Directories,
    pub part: Option<Open>,
}

impl Progress {
    /// No directory is read yet.
    pub(crate) fn new(alloc: Global, head: Head) -> Progress
        requires { HasFew head }
        ensures read { IsRead result }
        ensures head { result.head ≡ head }
        ensures none { IsBegun result }
    {
        Progress {
            head,
            directories: Directories::new(alloc),
            part: None,
        }
    }

    /// Reads the entries that a directory lacks, and takes it. After a fault it stays the one whose entries are being read.
    fn fill<'a>(&mut self, alloc: Global, rest: &mut &'a [u8], dir: Open) -> Result<(), Refused>
        requires none { self.old.part ≡ None }
        requires read { IsRead (record self.old { part = Some dir }) }
        ensures head { self.new.head ≡ self.old.head }
        ensures read { UnlessMemory result (IsRead self.new) }
        ensures same { UnlessMemory result ((k : ℕ) (more : List ℕ) → rest_behind k self.old.head self.old.directories (Some dir) (rest.old.now ++ more) ≡ rest_of k self.new (rest.new.now ++ more)) }
        ensures halts { IfErr result (λ e. OnFlaw e (λ f. (k : ℕ) (more : List ℕ) → Stops f more (rest_of k self.new (rest.new.now ++ more)))) }
        ensures taken { OnOk result (length self.new.directories.packing.dirs ≡ length self.old.directories.packing.dirs + 1) }
    {
        let above = Above::of(dir.path.as_path_ref());
        match take_entries(
            rest,
            self.head.width,
            &above,
            dir.count,
            &mut self.directories.packing,
        ) {
            Ok(()) => {
                self.directories.close(alloc, self.head.width, dir)?;
                Ok(())
            }
            Err(refused) => {
                self.part = Some(dir);
                Err(refused)
            }
        }
    }

    /// Reads on to the end of a directory.
    fn take_directory<'a>(
        &mut self,
        alloc: Global,
        rest: &mut &'a [u8],
        room: usize,
    ) -> Result<(), Refused>
        requires room { room ≤ max_image }
        requires read { IsRead self.old }
        requires few { length self.old.directories.packing.dirs < self.old.head.dirs }
        ensures head { self.new.head ≡ self.old.head }
        ensures read { UnlessMemory result (IsRead self.new) }
        ensures same { UnlessMemory result (Alike room (rest_by self.old rest.old.now) (rest_by self.new rest.new.now)) }
        ensures halts { IfErr result (λ e. OnFlaw e (Halts room (rest_by self.new rest.new.now))) }
        ensures taken { OnOk result (length self.new.directories.packing.dirs ≡ length self.old.directories.packing.dirs + 1) }
    {
        match self.part.take() {
            Some(part) => self.fill(alloc, rest, part),
            None => {
                let part = next_open(
                    alloc,
                    rest,
                    room,
                    &self.directories,
                    self.head.width,
                    self.head.entries,
                )?;
                self.fill(alloc, rest, part)
            }
        }
    }

    /// Reads all directories that are still to come, as far as the bytes go. So many bytes may still come behind those at hand.
    ///
    /// After a fault the rest begins with the directory or the entry that has it.
    pub(crate) fn take_directories<'a>(
        &mut self,
        alloc: Global,
        rest: &mut &'a [u8],
        room: usize,
    ) -> Result<(), Refused>
        requires room { room ≤ max_image }
        requires read { IsRead self.old }
        ensures head { self.new.head ≡ self.old.head }
        ensures read { UnlessMemory result (IsRead self.new) }
        ensures same { UnlessMemory result (Alike room (rest_by self.old rest.old.now) (rest_by self.new rest.new.now)) }
        ensures halts { IfErr result (λ e. OnFlaw e (Halts room (rest_by self.new rest.new.now))) }
        ensures whole { OnOk result (self.new.head.dirs ≤ length self.new.directories.packing.dirs) }
    {
        'directories: while self.directories.packing.len() < self.head.dirs as usize {
            self.take_directory(alloc, rest, room)?;
        }
        Ok(())
    }
}
