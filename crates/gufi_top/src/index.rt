//! The file that a word INDEX names: an image, or a trace.
ghost use Rattle.std.specs.Prelude.{◌≡◌, ◌<◌, true, length, IfErr, IfOk, OnOk, IsTrue, Err};
ghost use Rattle.gufi_base.specs.Limits.{max_image};
ghost use Rattle.gufi_io.specs.Files.{IsReadUpTo};
ghost use Rattle.gufi_io.specs.Kept.{Keeps};
ghost use Rattle.gufi_snap.specs.Snap.{Snap};
ghost use Rattle.gufi_image.specs.Reader.{HasRead};
ghost use Rattle.gufi_top.specs.Views.{bytes_view};
ghost use Rattle.gufi_top.specs.Reasons.{held, file_in, image_reason, image_in, rolled_under, traced_in, is_image, index_in, told_in};
ghost use Rattle.gufi_top.specs.declared.index.Indexed.{Indexed as SeenIndexed};
ghost use Rattle.gufi_top.specs.Calls.{Gives, GivesOver, IsOfBytes, IsPastWords, HaltHasCause};
ghost use Rattle.gufi_top.specs.Fed.{BeginsAs, HasReadImage, IsImageFedUpTo, IsCount, HasBytes};

use crate::halt::{Halt, refused};
use crate::note;
use crate::reading::{count_piece, open_named, rest_of_trace};
use crate::walk::snapshot_of;
use gufi_image::{ImageError, ImageKind, ImageReader};
use gufi_io::{RestError, Shelf, TakeBytes, piece_buffer, read_rest};
use gufi_snap::Snapshot;
use gufi_tree::Tree;
use std::alloc::{AllocError, Global};

/// How many bytes an image may have.
const MAX_IMAGE: u32 = 1_073_741_824;

/// How many bytes tell an image from a trace. A read may give fewer.
const MARK: usize = 6;

/// An index that was read: whether the file is an image, how many bytes it has, and its snapshot.
#[derive(Drop)]
pub(crate) struct Indexed {
    pub(crate) image: bool,
    pub(crate) bytes: u64,
    pub(crate) snap: Snapshot,
}

#[tactic(auto, unfolding(crate::specs::Reasons::is_image))]
fn is_image(front: &[u8]) -> bool
    ensures { result ≡ is_image front.now }
{
    front.starts_with(b"GUFIX\0")
}

// Opens a file and reads of it until its front tells an image from a trace.
#[tactic(auto, using(crate::proofs::IndexLemmas::fronts))]
fn read_front<F: Shelf>(
    alloc: Global,
    shelf: &mut F,
    name: &str,
    room: &mut [u8],
) -> Result<Vec<u8>, Halt>
    requires { 0 < length room.old }
    ensures hand { OnOk result (F.in_hand shelf.new ≡ true) }
    ensures upto { IfOk result (λ front. IsReadUpTo (F.files shelf.old) name.now front.items (F.left shelf.new)) }
    ensures begins { IfOk result (λ front. BeginsAs (F.files shelf.old) name.now (is_image front.items)) }
    ensures refused { IfErr result (λ e. GivesOver (F.files shelf.old) bytes_view (Err e) (λ files. held files name.now)) }
    ensures past_words { IfErr result IsPastWords }
    ensures cause { IfErr result (HaltHasCause F.Shelf shelf.old shelf.new) }
    ensures kept { Keeps F.Shelf shelf.old shelf.new }
{
    open_named(alloc, shelf, name)?;
    let mut front = Vec::new(alloc);
    'pieces: while front.len() < MARK {
        let Ok(count) = shelf.read(room) else {
            return Err(Halt::ReadFault);
        };
        if count == 0 {
            return Ok(front);
        }
        let (piece, _) = room.split_at(count);
        front.extend_from_slice(piece)?;
    }
    Ok(front)
}

// A reader of an image that begins so. A fault waits in it.
fn image_reader_of(alloc: Global, front: &[u8]) -> ImageReader
    ensures { HasRead result front.now }
{
    let mut reader = ImageReader::new(alloc);
    reader.feed(alloc, front);
    reader
}

// A reader of an image that takes a file. A fault waits in it, since that the file is too long comes before it.
#[derive(Drop)]
struct Feed {
    reader: ImageReader,
    /// How many bytes it has taken.
    count: u64,
}

impl TakeBytes for Feed {
    ghost has_taken = { λ _ feed bytes. HasRead feed.reader bytes × IsCount feed.count bytes };

    fn take_piece(&mut self, alloc: Global, piece: &[u8]) -> Result<(), AllocError> {
        self.reader.feed(alloc, piece);
        self.count = count_piece(self.count, piece);
        Ok(())
    }
}

// Feeds the rest of the file in hand to a reader that has read so many bytes of it, to its end or until it is longer than
// an image may be, and tells how many bytes there are.
#[tactic(auto, using(crate::proofs::ReadingLemmas::file_too_long, crate::proofs::ReadingLemmas::counted))]
fn feed_rest<F: Shelf>(
    alloc: Global,
    shelf: &mut F,
    name: &str,
    room: &mut [u8],
    reader: ImageReader,
    size: usize,
    bytes: &mut u64,
) -> Result<ImageReader, Halt>
    requires in_hand { IsTrue (F.in_hand shelf.old) }
    requires room { 0 < length room.old }
    requires fed { IsImageFedUpTo (F.files shelf.old) name.now (F.left shelf.old) reader size }
    ensures fed { IfOk result (HasReadImage (F.files shelf.old) name.now) }
    ensures bytes { OnOk result (HasBytes (F.files shelf.old) name.now bytes.new) }
    ensures refused { IfErr result (λ e. GivesOver (F.files shelf.old) bytes_view (Err e) (file_in max_image name.now)) }
    ensures past_words { IfErr result IsPastWords }
    ensures cause { IfErr result (HaltHasCause F.Shelf shelf.old shelf.new) }
    ensures kept { Keeps F.Shelf shelf.old shelf.new }
{
    let count = size as u64;
    let mut feed = Feed { reader, count };
    match read_rest(alloc, shelf, name, room, MAX_IMAGE, size, &mut feed) {
        Ok(()) => {
            *bytes = feed.count;
            Ok(feed.reader)
        }
        Err(RestError::ReadFault) => {
            drop(feed);
            Err(Halt::ReadFault)
        }
        Err(RestError::TooLong) => {
            drop(feed);
            refused(6, note::past_limit(alloc, name, MAX_IMAGE)?)
        }
        Err(RestError::Memory) => {
            drop(feed);
            Err(Halt::Memory)
        }
    }
}

// An image isn't read: a field is faulty, or a limit is passed.
#[tactic(auto, unfolding(crate::specs::Reasons::image_reason))]
fn refuse_field<T>(alloc: Global, name: &str, offset: u32, kind: ImageKind) -> Result<T, Halt>
    ensures reason { Gives (λ (x : T). x) result (Err (image_reason name.now (ImageError.Fault offset kind))) }
    ensures of_bytes { IfErr result IsOfBytes }
    ensures past_words { IfErr result IsPastWords }
{
    if let ImageKind::TooMany { limit } = kind {
        return refused(6, note::past_limit(alloc, name, limit)?);
    }
    refused(5, note::image_field(alloc, name, offset, kind)?)
}

// The snapshot of the image in hand, of which this front was read, and how many bytes there are. These are never all in memory.
#[tactic(auto, using(crate::proofs::IndexLemmas::images))]
fn rest_of_image<F: Shelf>(
    alloc: Global,
    shelf: &mut F,
    name: &str,
    room: &mut [u8],
    front: &[u8],
    bytes: &mut u64,
) -> Result<Snapshot, Halt>
    requires in_hand { IsTrue (F.in_hand shelf.old) }
    requires room { 0 < length room.old }
    requires upto { IsReadUpTo (F.files shelf.old) name.now front.now (F.left shelf.old) }
    ensures snap { GivesOver (F.files shelf.old) (λ (snap : Snap). snap) result (image_in name.now) }
    ensures bytes { OnOk result (HasBytes (F.files shelf.old) name.now bytes.new) }
    ensures past_words { IfErr result IsPastWords }
    ensures cause { IfErr result (HaltHasCause F.Shelf shelf.old shelf.new) }
    ensures kept { Keeps F.Shelf shelf.old shelf.new }
{
    let reader = image_reader_of(alloc, front);
    let reader = feed_rest(alloc, shelf, name, room, reader, front.len(), bytes)?;
    match reader.finish(alloc) {
        Ok(snap) => Ok(snap),
        Err(ImageError::Fault { offset, kind }) => refuse_field(alloc, name, offset, kind),
        Err(ImageError::Memory) => Err(Halt::Memory),
    }
}

// The snapshot of a trace's tree under a limit.
fn roll_under(alloc: Global, tree: Tree, limit: u64) -> Result<Snapshot, Halt>
    ensures snap { Gives (λ (snap : Snap). snap) result (rolled_under limit tree) }
    ensures of_bytes { IfErr result IsOfBytes }
    ensures past_words { IfErr result IsPastWords }
{
    Ok(snapshot_of(alloc, tree, limit)?)
}

// The snapshot of the trace in hand under a limit, of which this front was read, and how many bytes there are.
#[tactic(auto, using(crate::proofs::IndexLemmas::trace_files))]
fn rest_of_traced<F: Shelf>(
    alloc: Global,
    shelf: &mut F,
    name: &str,
    delim: u8,
    limit: u64,
    room: &mut [u8],
    front: &[u8],
    bytes: &mut u64,
) -> Result<Snapshot, Halt>
    requires in_hand { IsTrue (F.in_hand shelf.old) }
    requires room { 0 < length room.old }
    requires upto { IsReadUpTo (F.files shelf.old) name.now front.now (F.left shelf.old) }
    ensures snap { GivesOver (F.files shelf.old) (λ (snap : Snap). snap) result (traced_in delim limit name.now) }
    ensures bytes { OnOk result (HasBytes (F.files shelf.old) name.now bytes.new) }
    ensures past_words { IfErr result IsPastWords }
    ensures cause { IfErr result (HaltHasCause F.Shelf shelf.old shelf.new) }
    ensures kept { Keeps F.Shelf shelf.old shelf.new }
{
    match rest_of_trace(alloc, shelf, name, delim, room, front, bytes) {
        Ok(tree) => roll_under(alloc, tree, limit),
        Err(halt) => Err(halt),
    }
}

// The snapshot of the index in hand, of which this front was read, and how many bytes it has.
#[tactic(auto, using(crate::proofs::IndexLemmas::index_files))]
fn rest_of_index<F: Shelf>(
    alloc: Global,
    shelf: &mut F,
    name: &str,
    delim: u8,
    limit: u64,
    room: &mut [u8],
    front: Vec<u8>,
    bytes: &mut u64,
) -> Result<Snapshot, Halt>
    requires in_hand { IsTrue (F.in_hand shelf.old) }
    requires room { 0 < length room.old }
    requires upto { IsReadUpTo (F.files shelf.old) name.now front.items (F.left shelf.old) }
    requires begins { BeginsAs (F.files shelf.old) name.now (is_image front.items) }
    ensures snap { GivesOver (F.files shelf.old) (λ (snap : Snap). snap) result (index_in delim limit name.now) }
    ensures bytes { OnOk result (HasBytes (F.files shelf.old) name.now bytes.new) }
    ensures past_words { IfErr result IsPastWords }
    ensures cause { IfErr result (HaltHasCause F.Shelf shelf.old shelf.new) }
    ensures kept { Keeps F.Shelf shelf.old shelf.new }
{
    if is_image(&front) {
        rest_of_image(alloc, shelf, name, room, &front, bytes)
    } else {
        rest_of_traced(alloc, shelf, name, delim, limit, room, &front, bytes)
    }
}

/// The snapshot of the index in a file: of an image under the limit that it holds, or of a trace under this one.
///
/// The file is never whole in memory. The snapshot has no sums.
#[tactic(auto, using(crate::proofs::IndexLemmas::unread, crate::proofs::StepLemmas::cause_later))]
pub(crate) fn read_index<F: Shelf>(
    alloc: Global,
    shelf: &mut F,
    name: &str,
    delim: u8,
    limit: u64,
) -> Result<Snapshot, Halt>
    ensures snap { GivesOver (F.files shelf.old) (λ (snap : Snap). snap) result (index_in delim limit name.now) }
    ensures past_words { IfErr result IsPastWords }
    ensures cause { IfErr result (HaltHasCause F.Shelf shelf.old shelf.new) }
    ensures kept { Keeps F.Shelf shelf.old shelf.new }
{
    let mut buffer = piece_buffer(alloc)?;
    let room = buffer.as_mut_slice();
    let front = read_front(alloc, shelf, name, room)?;
    rest_of_index(alloc, shelf, name, delim, limit, room, front, &mut 0)
}

/// The same, whether the file is an image, and how many bytes it has.
#[tactic(auto, using(crate::proofs::IndexLemmas::told, crate::proofs::StepLemmas::cause_later))]
pub(crate) fn read_indexed<F: Shelf>(
    alloc: Global,
    shelf: &mut F,
    name: &str,
    delim: u8,
    limit: u64,
) -> Result<Indexed, Halt>
    ensures told { GivesOver (F.files shelf.old) (λ (indexed : SeenIndexed). indexed) result (told_in delim limit name.now) }
    ensures past_words { IfErr result IsPastWords }
    ensures cause { IfErr result (HaltHasCause F.Shelf shelf.old shelf.new) }
    ensures kept { Keeps F.Shelf shelf.old shelf.new }
{
    let mut buffer = piece_buffer(alloc)?;
    let room = buffer.as_mut_slice();
    let front = read_front(alloc, shelf, name, room)?;
    let image = is_image(&front);
    let mut bytes = 0u64;
    match rest_of_index(alloc, shelf, name, delim, limit, room, front, &mut bytes) {
        Ok(snap) => Ok(Indexed { image, bytes, snap }),
        Err(halt) => Err(halt),
    }
}
