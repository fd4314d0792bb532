//! A snapshot from the bytes of its image, which come whole or in pieces.

ghost use Rattle.std.specs.Prelude.{◌≡◌, ◌≤◌, ◌-◌, ◌++◌, [], ℕ, List, length, map, drop, Some, Ok, IfOk, IfErr, OnOk};
ghost use Rattle.gufi_base.specs.Limits.{max_image};
ghost use Rattle.gufi_base.specs.Basics.{GivesUnless};
ghost use Rattle.gufi_tree.specs.Kept.{HasParents};
ghost use Rattle.gufi_roll.specs.CanRoll.{roll_flags};
ghost use Rattle.gufi_image.specs.Fields.{Gives};
ghost use Rattle.gufi_image.specs.Reading.{head_at, is_bare, all_from, rolled, image_means, differs, wrong_flag};
ghost use Rattle.gufi_image.specs.Placed.{IsWholeTree};
ghost use Rattle.gufi_image.specs.Parts.{flags_of, counted};
ghost use Rattle.gufi_image.specs.Views.{nearer, front_near};
ghost use Rattle.gufi_image.specs.Pieces.{OnFlaw, UnlessMemory, Stops, Alike, Halts, Tells, Fails, IsRead, IsReadBy, IsBegun, is_as_said, rest_of, judged, resume, resumed};
ghost use Rattle.gufi_image.specs.Reader.{HasRead};

use crate::directory::Flag;
use crate::fault::{Flaw, ImageError, ImageKind, Refused};
use crate::fields::flaw;
use crate::head::head_at;
use crate::progress::{Directories, Progress};
use gufi_snap::Snapshot;
use gufi_tree::{DirId, tree_of_directories};
use std::alloc::Global;
use std::marker::Model;
use std::mem;

/// How many bytes an image may have.
const MAX_IMAGE: usize = 1_073_741_824;

/// How many bytes tell whether an image begins as one does.
const MARK: usize = 6;

/// How many bytes the version stands before the count of entries.
const VERSION: usize = 14;

/// How many bytes of a long piece are copied behind those that are kept. Most that is cut off ends within so many.
const JOINED: usize = 8192;

/// All directories with their flags, and the limit.
#[derive(Drop)]
pub(crate) struct Parts {
    pub limit: u64,
    pub directories: Directories,
}

/// The first directory is still to come. So many bytes may still come behind those at hand.
fn begin<'a>(alloc: Global, rest: &mut &'a [u8], room: usize) -> Result<Progress, Refused>
    requires room { room ≤ max_image }
    ensures read { IfOk result IsRead }
    ensures none { IfOk result IsBegun }
    ensures head { IfOk result (λ p. (more : List ℕ) → length more ≤ room → Tells rest.old.now more → head_at (rest.old.now ++ more) ≡ Ok (counted (room - length more) p.head, rest.new.now ++ more)) }
    ensures halts { IfErr result (λ e. OnFlaw e (λ f. (more : List ℕ) → Tells rest.old.now more → Stops f more (head_at (rest.old.now ++ more)))) }
    ensures rest { IfErr result (λ e. rest.new.now ≡ rest.old.now) }
{
    let (mut head, after) = head_at(*rest)?;
    head.left += room;
    *rest = after;
    Ok(Progress::new(alloc, head))
}

/// Whether no row has what no lesser width holds, so that a lesser version holds them all.
fn is_bare(progress: &Progress) -> bool
    requires { IsRead progress.now }
    ensures { result ≡ is_bare progress.now.head.width progress.now.directories.packing.dirs }
{
    progress.head.width.has_names() && !progress.directories.needed
}

/// Whether the directories are what the head says: so many entries, and in the least version that holds them.
fn is_as_said(progress: &Progress) -> bool
    requires { IsRead progress.now }
    ensures { result ≡ is_as_said progress.now.head progress.now.directories.packing.dirs }
{
    progress.directories.entries == progress.head.entries && !is_bare(progress)
}

/// Nothing may stand behind the last directory. Where the entries aren't as many as the head says, or the version isn't the least, that comes
/// first, at the end.
fn end<'a>(progress: &Progress, rest: &mut &'a [u8]) -> Result<(), Refused>
    requires read { IsRead progress.now }
    requires whole { progress.now.head.dirs ≤ length progress.now.directories.packing.dirs }
    ensures same { (k : ℕ) (more : List ℕ) → resume k (Some progress.now) (rest.old.now ++ more) ≡ resume k (Some progress.now) (rest.new.now ++ more) }
    ensures halts { IfErr result (λ e. OnFlaw e (λ f. (k : ℕ) (more : List ℕ) → Stops f more (resume k (Some progress.now) (rest.new.now ++ more)))) }
{
    if rest.is_empty() {
        return Ok(());
    }
    if is_as_said(progress) {
        return Err(flaw(*rest, ImageKind::Trailing));
    }
    *rest = &[];
    Ok(())
}

/// Reads on to the end of the directories, as far as the bytes go. So many bytes may still come behind those at hand.
fn read_all<'a>(
    alloc: Global,
    room: usize,
    progress: &mut Progress,
    rest: &mut &'a [u8],
) -> Result<(), Refused>
    requires room { room ≤ max_image }
    requires read { IsRead progress.old }
    ensures read { UnlessMemory result (IsRead progress.new) }
    ensures same { UnlessMemory result (Alike room (resumed (Some progress.old) rest.old.now) (resumed (Some progress.new) rest.new.now)) }
    ensures halts { IfErr result (λ e. OnFlaw e (Halts room (resumed (Some progress.new) rest.new.now))) }
{
    progress.take_directories(alloc, rest, room)?;
    end(progress, rest)
}

/// Reads on behind what was read.
fn read_behind<'a>(
    alloc: Global,
    room: usize,
    mut begun: Progress,
    progress: &mut Option<Progress>,
    rest: &mut &'a [u8],
) -> Result<(), Refused>
    requires room { room ≤ max_image }
    requires read { IsRead begun }
    ensures read { UnlessMemory result (IsReadBy progress.new) }
    ensures same { UnlessMemory result (Alike room (resumed (Some begun) rest.old.now) (resumed progress.new rest.new.now)) }
    ensures halts { IfErr result (λ e. OnFlaw e (Halts room (resumed progress.new rest.new.now))) }
{
    let taken = read_all(alloc, room, &mut begun, rest);
    *progress = Some(begun);
    taken
}

/// Reads on as far as the bytes go. So many bytes may still come behind those at hand.
fn read_on<'a>(
    alloc: Global,
    room: usize,
    progress: &mut Option<Progress>,
    rest: &mut &'a [u8],
) -> Result<(), Refused>
    requires room { room ≤ max_image }
    requires read { IsReadBy progress.old }
    ensures read { UnlessMemory result (IsReadBy progress.new) }
    ensures same { UnlessMemory result (Alike room (resumed progress.old rest.old.now) (resumed progress.new rest.new.now)) }
    ensures halts { IfErr result (λ e. OnFlaw e (Halts room (resumed progress.new rest.new.now))) }
{
    match progress.take() {
        Some(begun) => read_behind(alloc, room, begun, progress, rest),
        None => {
            if rest.len() < MARK {
                return Ok(());
            }
            let begun = begin(alloc, rest, room)?;
            read_behind(alloc, room, begun, progress, rest)
        }
    }
}

/// The offset of a fault, where so many bytes may still come.
fn fault_at(room: usize, flaw: Flaw) -> ImageError
    ensures { result ≡ ImageError.Fault (max_image - room - flaw.left) flaw.kind }
{
    let offset = MAX_IMAGE.saturating_sub(room).saturating_sub(flaw.left) as u32;
    let kind = flaw.kind;
    ImageError::Fault { offset, kind }
}

/// Keeps the bytes of a field that is cut off.
fn keep(kept: &mut Vec<u8>, rest: &[u8]) -> Result<(), ImageError>
    requires { kept.old.items ≡ [] }
    ensures kept { OnOk result (kept.new.items ≡ rest.now) }
    ensures err { IfErr result (λ e. e ≡ ImageError.Memory) }
{
    match kept.extend_from_slice(rest) {
        Ok(()) => Ok(()),
        Err(_) => Err(ImageError::Memory),
    }
}

/// Reads on as far as the bytes go, and keeps those of the field that is cut off by their end.
fn take_bytes(
    alloc: Global,
    room: usize,
    progress: &mut Option<Progress>,
    kept: &mut Vec<u8>,
    bytes: &[u8],
) -> Result<(), ImageError>
    requires room { room ≤ max_image }
    requires read { IsReadBy progress.old }
    requires none { kept.old.items ≡ [] }
    ensures read { OnOk result (IsReadBy progress.new) }
    ensures same { OnOk result (Alike room (resumed progress.old bytes.now) (resumed progress.new kept.new.items)) }
    ensures err { IfErr result (Fails room (resumed progress.old bytes.now)) }
{
    let mut rest = bytes;
    match read_on(alloc, room, progress, &mut rest) {
        Ok(()) => keep(kept, rest),
        Err(Refused::Memory) => Err(ImageError::Memory),
        Err(Refused::Flaw(flaw)) => match flaw.kind {
            ImageKind::Cut => keep(kept, rest),
            _ => Err(fault_at(room, flaw)),
        },
    }
}

/// Reads on over the bytes that are kept and those behind them, joined.
fn take_joined(
    alloc: Global,
    room: usize,
    progress: &mut Option<Progress>,
    kept: &mut Vec<u8>,
    behind: &[u8],
) -> Result<(), ImageError>
    requires room { room ≤ max_image }
    requires read { IsReadBy progress.old }
    ensures read { OnOk result (IsReadBy progress.new) }
    ensures same { OnOk result (Alike room (resumed progress.old (kept.old.items ++ behind.now)) (resumed progress.new kept.new.items)) }
    ensures err { IfErr result (Fails room (resumed progress.old (kept.old.items ++ behind.now))) }
{
    let mut bytes = mem::replace(kept, Vec::new(alloc));
    match bytes.extend_from_slice(behind) {
        Ok(()) => take_bytes(alloc, room, progress, kept, bytes.as_slice()),
        Err(_) => Err(ImageError::Memory),
    }
}

/// Reads on in a piece of which so many bytes were read. Where those that are kept are the last of these, as they are unless what was cut off
/// began before the piece, it is read from there on with no copy.
fn take_behind(
    alloc: Global,
    room: usize,
    progress: &mut Option<Progress>,
    kept: &mut Vec<u8>,
    piece: &[u8],
    taken: usize,
) -> Result<(), ImageError>
    requires room { room ≤ max_image }
    requires read { IsReadBy progress.old }
    requires taken { taken ≤ length piece.now }
    ensures read { OnOk result (IsReadBy progress.new) }
    ensures same { OnOk result (Alike room (resumed progress.old (kept.old.items ++ drop taken piece.now)) (resumed progress.new kept.new.items)) }
    ensures err { IfErr result (Fails room (resumed progress.old (kept.old.items ++ drop taken piece.now))) }
{
    if !piece[..taken].ends_with(kept.as_slice()) {
        return take_joined(alloc, room, progress, kept, &piece[taken..]);
    }
    let from = taken - kept.len();
    kept.clear();
    take_bytes(alloc, room, progress, kept, &piece[from..])
}

/// Reads on behind the bytes that are kept. Of a long piece only the first bytes are copied behind them, where what was cut off ends within
/// these.
fn take_piece(
    alloc: Global,
    room: usize,
    progress: &mut Option<Progress>,
    kept: &mut Vec<u8>,
    piece: &[u8],
) -> Result<(), ImageError>
    requires room { room ≤ max_image }
    requires read { IsReadBy progress.old }
    ensures read { OnOk result (IsReadBy progress.new) }
    ensures same { OnOk result (Alike room (resumed progress.old (kept.old.items ++ piece.now)) (resumed progress.new kept.new.items)) }
    ensures err { IfErr result (Fails room (resumed progress.old (kept.old.items ++ piece.now))) }
{
    if kept.is_empty() {
        return take_bytes(alloc, room, progress, kept, piece);
    }
    if piece.len() <= JOINED || piece.len() - JOINED > MAX_IMAGE - room {
        return take_joined(alloc, room, progress, kept, piece);
    }
    let (first, behind) = piece.split_at(JOINED);
    match take_joined(alloc, room + behind.len(), progress, kept, first) {
        Ok(()) => take_behind(alloc, room, progress, kept, piece, JOINED),
        Err(error) => Err(error),
    }
}

/// The directories of a whole image, before their flags are looked at.
fn all_of(progress: Progress, rest: &[u8], room: usize) -> Result<Parts, Refused>
    requires read { IsRead progress }
    requires whole { progress.head.dirs ≤ length progress.directories.packing.dirs }
    ensures gives { Gives (flags_of room) result (all_from (counted room progress.head) (Ok (front_near room progress.directories, rest.now))) }
    ensures whole { IfOk result (λ parts. IsWholeTree parts.directories.packing.dirs) }
    ensures parents { IfOk result (λ parts. HasParents parts.directories.packing.dirs parts.directories.parents.items) }
{
    let bare = is_bare(&progress);
    let Progress {
        head,
        directories,
        ..
    } = progress;
    if directories.entries != head.entries {
        let left = head.left.saturating_sub(room);
        let kind = ImageKind::Number;
        return Err(Refused::Flaw(Flaw { left, kind }));
    }
    if bare {
        let left = head.left.saturating_sub(room) + VERSION;
        let kind = ImageKind::Number;
        return Err(Refused::Flaw(Flaw { left, kind }));
    }
    if !rest.is_empty() {
        return Err(flaw(rest, ImageKind::Trailing));
    }
    let limit = head.limit;
    Ok(Parts { limit, directories })
}

fn differs(flag: bool, rolled: bool) -> bool
    ensures { result ≡ differs flag rolled }
{
    flag != rolled
}

/// Whether the flags are those of the rule of roll-up, where the image has so many bytes fewer than one may have.
fn flags_hold(snap: &Snapshot, flags: &[Flag], room: usize) -> Result<(), Refused>
    ensures { Gives (λ u. u) result (wrong_flag (roll_flags snap.now.tree snap.now.limit) (map (nearer room) flags.now)) }
{
    for number in 0..snap.tree().dirs() {
        let place = number as usize;
        if place >= flags.len() {
            return Ok(());
        }
        let flag = flags[place];
        if differs(flag.set, snap.rolled(DirId(number))) {
            let left = flag.left.saturating_sub(room);
            let kind = ImageKind::Roll;
            return Err(Refused::Flaw(Flaw { left, kind }));
        }
    }
    Ok(())
}

/// The snapshot of directories whose flags are those of the rule.
fn roll(alloc: Global, parts: Parts, room: usize) -> Result<Snapshot, Refused>
    requires whole { IsWholeTree parts.directories.packing.dirs }
    requires parents { HasParents parts.directories.packing.dirs parts.directories.parents.items }
    ensures { Gives (λ snap. snap) result (rolled (flags_of room parts)) }
{
    let limit = parts.limit;
    let directories = parts.directories;
    let flags = directories.flags;
    let tree = tree_of_directories(alloc, directories.packing.into_dirs(), directories.parents)?;
    let snap = Snapshot::bare(alloc, tree, limit)?;
    flags_hold(&snap, flags.as_slice(), room)?;
    Ok(snap)
}

/// The snapshot of an image that ends with these bytes.
fn finish_with(
    alloc: Global,
    room: usize,
    mut progress: Progress,
    bytes: &[u8],
) -> Result<Snapshot, Refused>
    requires room { room ≤ max_image }
    requires read { IsRead progress }
    ensures { Gives (λ snap. snap) result (judged (counted room progress.head) (rest_of room progress bytes.now)) }
{
    let mut rest = bytes;
    progress.take_directories(alloc, &mut rest, room)?;
    let parts = all_of(progress, rest, room)?;
    roll(alloc, parts, room)
}

/// The snapshot of an image that ends with these bytes, of which nothing or something was read.
fn finish_from(
    alloc: Global,
    room: usize,
    progress: Option<Progress>,
    bytes: &[u8],
) -> Result<Snapshot, Refused>
    requires room { room ≤ max_image }
    requires read { IsReadBy progress }
    ensures { Gives (λ snap. snap) result (resume room progress bytes.now) }
{
    match progress {
        Some(begun) => finish_with(alloc, room, begun, bytes),
        None => {
            let mut rest = bytes;
            let begun = begin(alloc, &mut rest, room)?;
            finish_with(alloc, room, begun, rest)
        }
    }
}

/// An image that is read in pieces.
///
/// Of its bytes it keeps those of the field that is cut off by the end of the last piece. Besides them it takes no more memory than
/// the snapshot, sixteen bytes for each directory, and what the entries of the directory at hand take.
#[derive(Drop)]
pub struct ImageReader {
    progress: Option<Progress>,
    kept: Vec<u8>,
    room: usize,
    failed: Option<ImageError>,
}

impl Model for ImageReader {
    ghost use Rattle.gufi_image.specs.Reader.{Reading};

    ghost Value = { Reading };

    ghost use Rattle.std.specs.Prelude.{◌≤◌};
    ghost use Rattle.gufi_base.specs.Limits.{max_image};
    ghost use Rattle.gufi_image.specs.Pieces.{IsReadBy};

    ghost view = { λ r. record { progress = r.progress; kept = r.kept.items; room = r.room; failed = r.failed } };

    ghost invariant = { λ r. (r.room ≤ max_image) × IsReadBy r.progress };
}

impl ImageReader {
    /// A reader of an image of which nothing has come.
    pub fn new(alloc: Global) -> ImageReader
        ensures { HasRead result [] }
    {
        ImageReader {
            progress: None,
            kept: Vec::new(alloc),
            room: MAX_IMAGE,
            failed: None,
        }
    }

    /// Takes the next bytes. After a fault they aren't looked at.
    pub fn feed(&mut self, alloc: Global, piece: &[u8])
        // The reader has read the bytes and the piece.
        ensures { (bytes : List ℕ) → HasRead self.old bytes → HasRead self.new (bytes ++ piece.now) }
    {
        if let Some(_) = self.failed {
            return;
        }
        let room = self.room.saturating_sub(piece.len());
        self.room = room;
        let taken = take_piece(alloc, room, &mut self.progress, &mut self.kept, piece);
        if let Err(error) = taken {
            self.progress = None;
            self.kept.clear();
            self.failed = Some(error);
        }
    }

    /// The snapshot whose image the bytes are, or the first fault from the left, with its offset. It has no sums.
    pub fn finish(self, alloc: Global) -> Result<Snapshot, ImageError>
        ensures { (bytes : List ℕ) → HasRead self bytes → length bytes ≤ max_image → GivesUnless ImageError.Memory result (image_means bytes) }
    {
        let ImageReader {
            progress,
            kept,
            room,
            failed,
        } = self;
        if let Some(error) = failed {
            return Err(error);
        }
        match finish_from(alloc, room, progress, kept.as_slice()) {
            Ok(snap) => Ok(snap),
            Err(Refused::Memory) => Err(ImageError::Memory),
            Err(Refused::Flaw(flaw)) => Err(fault_at(room, flaw)),
        }
    }
}

/// The snapshot whose image the bytes are, or the first fault from the left, with its offset. It has no sums.
///
/// One pass over the bytes.
pub fn read_image(alloc: Global, bytes: &[u8]) -> Result<Snapshot, ImageError>
    requires { length bytes.now ≤ max_image }
    ensures { GivesUnless ImageError.Memory result (image_means bytes.now) }
{
    let mut reader = ImageReader::new(alloc);
    reader.feed(alloc, bytes);
    reader.finish(alloc)
}
