//! The files that the words name.
ghost use Rattle.std.specs.Prelude.{◌≡◌, ◌≤◌, ◌<◌, ℕ, ◌+◌, ◌++◌, List, [], true, length, IfErr, IfOk, OnOk, IsTrue, Err};
ghost use Rattle.gufi_base.specs.Basics.{result_map_err};
ghost use Rattle.gufi_base.specs.Limits.{max_dirs, max_entries, max_trace};
ghost use Rattle.gufi_tree.specs.Build.{tree_of};
ghost use Rattle.gufi_io.specs.Calls.{one_more};
ghost use Rattle.gufi_io.specs.Files.{IsReadUpTo};
ghost use Rattle.gufi_io.specs.Kept.{Keeps};
ghost use Rattle.gufi_trace.specs.Reader.{HasRead};
ghost use Rattle.gufi_trace.specs.TraceText.{of_line, of_tree};
ghost use Rattle.gufi_top.specs.Views.{bytes_view};
ghost use Rattle.gufi_top.specs.Reasons.{held, file_in, trace_in, tree_within, trace_reason};
ghost use Rattle.gufi_top.specs.Calls.{Gives, GivesOver, IsOfBytes, IsPastWords, HaltHasCause};
ghost use Rattle.gufi_top.specs.Fed.{lines_within, lines_in, HasReadFile, IsFedUpTo, IsCount, HasBytes};

use crate::halt::{Halt, refused};
use crate::note;
use gufi_base::Memory;
use gufi_io::{
    OpenFault, ReadError, RestError, Shelf, TakeBytes, piece_buffer, read_all, read_rest,
};
use gufi_trace::{TraceError, TraceFault, TraceKind, TraceReader, read_trace};
use gufi_tree::{Stanzas, Tree, TreeFault, build_stanzas};
use std::alloc::{AllocError, Global};

/// How many bytes a trace may have.
pub(crate) const MAX_TRACE: u32 = 536_870_912;

// The bytes of a file that the words name.
#[tactic(auto, using(crate::proofs::ReadingLemmas::reading), unfolding(crate::specs::Reasons::file_in))]
pub(crate) fn read_file<F: Shelf>(
    alloc: Global,
    shelf: &mut F,
    name: &str,
    max: u32,
) -> Result<Vec<u8>, Halt>
    ensures bytes { GivesOver (F.files shelf.old) bytes_view result (file_in max name.now) }
    ensures past_words { IfErr result IsPastWords }
    ensures cause { IfErr result (HaltHasCause F.Shelf shelf.old shelf.new) }
    ensures opens { F.opens shelf.new ≡ one_more (F.opens shelf.old) }
    ensures kept { Keeps F.Shelf shelf.old shelf.new }
{
    match read_all(alloc, shelf, name, max) {
        Ok(bytes) => Ok(bytes),
        Err(ReadError::NoFile) => refused(8, note::not_found(alloc, name)?),
        Err(ReadError::ReadFault) => Err(Halt::ReadFault),
        Err(ReadError::TooLong { bytes: _ }) => refused(6, note::past_limit(alloc, name, max)?),
        Err(ReadError::Memory) => Err(Halt::Memory),
    }
}

// A trace isn't read: a line is faulty, or a limit is passed.
#[tactic(auto, unfolding(crate::specs::Reasons::trace_reason))]
fn refuse_line<T>(alloc: Global, name: &str, fault: TraceFault) -> Result<T, Halt>
    ensures reason { Gives (λ (x : T). x) result (Err (trace_reason name.now (of_line (TraceError.Fault fault)))) }
    ensures of_bytes { IfErr result IsOfBytes }
    ensures past_words { IfErr result IsPastWords }
{
    if let TraceKind::TooMany { limit } = fault.kind {
        return refused(6, note::past_limit(alloc, name, limit)?);
    }
    refused(5, note::trace_line(alloc, name, &fault)?)
}

// Takes the file of that name in hand.
#[tactic(auto, using(crate::proofs::ReadingLemmas::opening))]
pub(crate) fn open_named<F: Shelf>(alloc: Global, shelf: &mut F, name: &str) -> Result<(), Halt>
    ensures hand { OnOk result (F.in_hand shelf.new ≡ true) }
    ensures opened { OnOk result (IsReadUpTo (F.files shelf.old) name.now [] (F.left shelf.new)) }
    ensures refused { IfErr result (λ e. GivesOver (F.files shelf.old) bytes_view (Err e) (λ files. held files name.now)) }
    ensures past_words { IfErr result IsPastWords }
    ensures cause { IfErr result (HaltHasCause F.Shelf shelf.old shelf.new) }
    ensures kept { Keeps F.Shelf shelf.old shelf.new }
{
    match shelf.open_file(name) {
        Ok(()) => Ok(()),
        Err(OpenFault::NoFile) => refused(8, note::not_found(alloc, name)?),
        Err(OpenFault::Failed) => Err(Halt::ReadFault),
    }
}

// A reader of a trace that begins so. A faulty line waits in it.
fn reader_of(alloc: Global, delim: u8, front: &[u8]) -> Result<TraceReader, Memory>
    ensures delim { IfOk result (λ reader. reader.delim ≡ delim) }
    ensures read { IfOk result (λ reader. HasRead reader front.now) }
{
    let mut reader = TraceReader::new(alloc, delim)?;
    let _ = reader.feed(alloc, front);
    Ok(reader)
}

/// Counts a piece of a file. The count stays at the greatest u64 once it comes to it.
pub(crate) fn count_piece(count: u64, piece: &[u8]) -> u64
    ensures { (bytes : List ℕ) → IsCount count bytes → IsCount result (bytes ++ piece.now) }
{
    count.saturating_add(piece.len() as u64)
}

// A reader of a trace that takes a file. A faulty line waits in it, since that the file is too long comes before it.
#[derive(Drop)]
struct Feed {
    reader: TraceReader,
    /// How many bytes it has taken.
    count: u64,
}

impl TakeBytes for Feed {
    ghost has_taken = { λ first feed bytes. HasRead feed.reader bytes × (feed.reader.delim ≡ first.reader.delim) × IsCount feed.count bytes };

    fn take_piece(&mut self, alloc: Global, piece: &[u8]) -> Result<(), AllocError> {
        let _ = self.reader.feed(alloc, piece);
        self.count = count_piece(self.count, piece);
        Ok(())
    }
}

// Feeds the rest of the file in hand to a reader that has read so many bytes of it, to its end or until it is longer than
// a trace may be, and tells how many bytes there are.
#[tactic(auto, using(crate::proofs::ReadingLemmas::file_too_long, crate::proofs::ReadingLemmas::counted))]
fn feed_rest<F: Shelf>(
    alloc: Global,
    shelf: &mut F,
    name: &str,
    room: &mut [u8],
    reader: TraceReader,
    size: usize,
    bytes: &mut u64,
) -> Result<TraceReader, Halt>
    requires in_hand { IsTrue (F.in_hand shelf.old) }
    requires room { 0 < length room.old }
    requires fed { IsFedUpTo (F.files shelf.old) name.now (F.left shelf.old) reader size }
    ensures fed { IfOk result (HasReadFile (F.files shelf.old) name.now) }
    ensures delim { IfOk result (λ fed. fed.delim ≡ reader.delim) }
    ensures bytes { OnOk result (HasBytes (F.files shelf.old) name.now bytes.new) }
    ensures refused { IfErr result (λ e. GivesOver (F.files shelf.old) bytes_view (Err e) (file_in max_trace name.now)) }
    ensures past_words { IfErr result IsPastWords }
    ensures cause { IfErr result (HaltHasCause F.Shelf shelf.old shelf.new) }
    ensures kept { Keeps F.Shelf shelf.old shelf.new }
{
    let count = size as u64;
    let mut feed = Feed { reader, count };
    match read_rest(alloc, shelf, name, room, MAX_TRACE, size, &mut feed) {
        Ok(()) => {
            *bytes = feed.count;
            Ok(feed.reader)
        }
        Err(RestError::ReadFault) => {
            drop(feed);
            Err(Halt::ReadFault)
        }
        Err(RestError::TooLong) => {
            drop(feed);
            refused(6, note::past_limit(alloc, name, MAX_TRACE)?)
        }
        Err(RestError::Memory) => {
            drop(feed);
            Err(Halt::Memory)
        }
    }
}

// The lines of all that a reader has read, by their stanzas.
#[tactic(auto, using(crate::proofs::ReadingLemmas::lines_refused))]
fn lines_of(alloc: Global, name: &str, reader: TraceReader) -> Result<Stanzas, Halt>
    ensures lines { (stream : List ℕ) → HasRead reader stream → Gives (λ lines. lines) result (lines_within reader.delim name.now stream) }
    ensures of_bytes { IfErr result IsOfBytes }
    ensures past_words { IfErr result IsPastWords }
    ensures few { IfOk result (λ lines. length lines ≤ max_dirs + max_entries) }
{
    match reader.finish_stanzas() {
        Ok(lines) => Ok(lines),
        Err(TraceError::Fault(fault)) => refuse_line(alloc, name, fault),
        Err(TraceError::Memory) => Err(Halt::Memory),
    }
}

// The lines of the trace in hand by their stanzas, of which this front was read, and how many bytes there are. These are never all
// in memory.
#[tactic(auto, using(crate::proofs::ReadingLemmas::lines, crate::proofs::StepLemmas::cause_of_bytes))]
fn rest_of_lines<F: Shelf>(
    alloc: Global,
    shelf: &mut F,
    name: &str,
    delim: u8,
    room: &mut [u8],
    front: &[u8],
    bytes: &mut u64,
) -> Result<Stanzas, Halt>
    requires in_hand { IsTrue (F.in_hand shelf.old) }
    requires room { 0 < length room.old }
    requires upto { IsReadUpTo (F.files shelf.old) name.now front.now (F.left shelf.old) }
    ensures lines { GivesOver (F.files shelf.old) (λ lines. lines) result (lines_in delim name.now) }
    ensures bytes { OnOk result (HasBytes (F.files shelf.old) name.now bytes.new) }
    ensures past_words { IfErr result IsPastWords }
    ensures cause { IfErr result (HaltHasCause F.Shelf shelf.old shelf.new) }
    ensures kept { Keeps F.Shelf shelf.old shelf.new }
    ensures few { IfOk result (λ lines. length lines ≤ max_dirs + max_entries) }
{
    let reader = reader_of(alloc, delim, front)?;
    let reader = feed_rest(alloc, shelf, name, room, reader, front.len(), bytes)?;
    lines_of(alloc, name, reader)
}

// The tree of the lines.
#[tactic(auto, unfolding(crate::specs::Reasons::trace_reason))]
fn build_tree(alloc: Global, name: &str, lines: Stanzas) -> Result<Tree, Halt>
    requires { length lines ≤ max_dirs + max_entries }
    ensures tree { Gives (λ tree. tree) result (result_map_err (λ f. trace_reason name.now (of_tree f)) (tree_of lines)) }
    ensures of_bytes { IfErr result IsOfBytes }
    ensures past_words { IfErr result IsPastWords }
{
    match build_stanzas(alloc, lines) {
        Ok(tree) => Ok(tree),
        Err(TreeFault::Memory) => Err(Halt::Memory),
        Err(fault) => refused(5, note::tree_line(alloc, name, fault)?),
    }
}

/// The tree of the trace in hand, of which this front was read, and how many bytes it has.
#[tactic(auto, using(crate::proofs::ReadingLemmas::traces))]
pub(crate) fn rest_of_trace<F: Shelf>(
    alloc: Global,
    shelf: &mut F,
    name: &str,
    delim: u8,
    room: &mut [u8],
    front: &[u8],
    bytes: &mut u64,
) -> Result<Tree, Halt>
    requires in_hand { IsTrue (F.in_hand shelf.old) }
    requires room { 0 < length room.old }
    requires upto { IsReadUpTo (F.files shelf.old) name.now front.now (F.left shelf.old) }
    ensures tree { GivesOver (F.files shelf.old) (λ tree. tree) result (trace_in delim name.now) }
    ensures bytes { OnOk result (HasBytes (F.files shelf.old) name.now bytes.new) }
    ensures past_words { IfErr result IsPastWords }
    ensures cause { IfErr result (HaltHasCause F.Shelf shelf.old shelf.new) }
    ensures kept { Keeps F.Shelf shelf.old shelf.new }
{
    match rest_of_lines(alloc, shelf, name, delim, room, front, bytes) {
        Ok(lines) => build_tree(alloc, name, lines),
        Err(halt) => Err(halt),
    }
}

/// The tree of the trace in a file.
#[tactic(auto, using(crate::proofs::ReadingLemmas::trace_unopened, crate::proofs::StepLemmas::cause_later))]
pub(crate) fn read_trace_file<F: Shelf>(
    alloc: Global,
    shelf: &mut F,
    name: &str,
    delim: u8,
) -> Result<Tree, Halt>
    ensures tree { GivesOver (F.files shelf.old) (λ tree. tree) result (trace_in delim name.now) }
    ensures past_words { IfErr result IsPastWords }
    ensures cause { IfErr result (HaltHasCause F.Shelf shelf.old shelf.new) }
    ensures kept { Keeps F.Shelf shelf.old shelf.new }
{
    open_named(alloc, shelf, name)?;
    let mut buffer = piece_buffer(alloc)?;
    let room = buffer.as_mut_slice();
    rest_of_trace(alloc, shelf, name, delim, room, &[], &mut 0)
}

/// The tree of a trace that comes whole, as of a file of this name.
#[tactic(auto, using(crate::proofs::ReadingLemmas::wholes))]
pub(crate) fn read_trace_bytes(
    alloc: Global,
    name: &str,
    delim: u8,
    bytes: &[u8],
) -> Result<Tree, Halt>
    ensures tree { Gives (λ tree. tree) result (tree_within delim name.now bytes.now) }
    ensures of_bytes { IfErr result IsOfBytes }
    ensures past_words { IfErr result IsPastWords }
{
    match read_trace(alloc, delim, bytes) {
        Ok(lines) => build_tree(alloc, name, lines),
        Err(TraceError::Fault(fault)) => refuse_line(alloc, name, fault),
        Err(TraceError::Memory) => Err(Halt::Memory),
    }
}
