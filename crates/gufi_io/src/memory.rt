//! A shelf and a sink in memory, of which chosen calls fail.
//!
//! Each kind of call is numbered from 1, and the numbers that are given fail. Both compute their faults from what they hold.
ghost use Rattle.std.specs.Prelude.{◌≡◌, ◌≤◌, ◌<◌, ◌+◌, ◌-◌, ◌^◌, ◌++◌, min, drop, ℕ, Bool, List, [], true, false, Some, None, length, take, is_ok, is_err, IfOk, IfErr, IsTrue, MatchOption};
ghost use Rattle.std.specs.Io.{ReadsAtMost};
ghost use Rattle.std.specs.Io.KnownBytes.{ReadConsumes, WriteAppends};
ghost use Rattle.gufi_io.specs.Calls.{bad_calls, next_is_bad, one_if, one_more, one_more_if};
ghost use Rattle.gufi_io.specs.Causes.{HasCause, OpenFaultHasCause};
ghost use Rattle.gufi_io.specs.Files.{OpensHeld};
ghost use Rattle.gufi_io.specs.Held.{held, bytes_at, names_differ};

use crate::shelf::{Failed, OpenFault, Shelf};
use crate::sink::Sink;

/// Which file is in hand, and how much of it was read.
#[derive(Clone, Copy)]
pub(crate) struct Hand {
    file: usize,
    at: usize,
}

/// Files in memory. A look-up goes through them in order.
#[derive(Drop)]
pub struct MemShelf {
    files: Vec<(String, Vec<u8>)>,
    piece: u32,
    bad_opens: Vec<u64>,
    bad_reads: Vec<u64>,
    opens: u64,
    reads: u64,
    absents: u64,
    hand: Option<Hand>,
    ghost piece_is_some: { 0 < piece },
}

/// Bytes taken into a buffer, from its front. A write that finds no room left fails too.
#[derive(Drop)]
pub struct MemSink {
    room: Vec<u8>,
    piece: u32,
    bad_writes: Vec<u64>,
    writes: u64,
    full: u64,
    taken: usize,
    ghost piece_is_some: { 0 < piece },
    ghost in_room: { taken ≤ length room.items },
}

/// Whether no name stands twice. Compares each two names.
pub fn names_differ(files: &[(String, Vec<u8>)]) -> bool
    ensures { result ≡ names_differ files.now }
{
    let mut rest = files;
    'names: while let Some((file, others)) = rest.split_first() {
        if place_of(others, file.0.as_str()).is_some() {
            return false;
        }
        rest = others;
    }
    true
}

impl MemShelf {
    ghost use Rattle.gufi_io.specs.Memory.{shelf_files, shelf_piece, shelf_bad_opens, shelf_bad_reads, shelf_opens, shelf_reads, shelf_in_hand, shelf_faults, shelf_absents};

    /// Takes files with their bytes, the largest piece of a read in bytes, and the numbers of the calls that fail.
    #[tactic(auto, unfolding(crate::specs::Calls::bad_calls))]
    pub fn new(
        files: Vec<(String, Vec<u8>)>,
        piece: u32,
        bad_opens: Vec<u64>,
        bad_reads: Vec<u64>,
    ) -> MemShelf
        requires distinct { IsTrue (names_differ files.items) }
        requires piece { 1 ≤ piece }
        ensures files { shelf_files result ≡ held files.items }
        ensures piece { shelf_piece result ≡ piece }
        ensures bad_opens { shelf_bad_opens result ≡ bad_opens.items }
        ensures bad_reads { shelf_bad_reads result ≡ bad_reads.items }
        ensures opens { shelf_opens result ≡ 0 }
        ensures reads { shelf_reads result ≡ 0 }
        ensures hand { shelf_in_hand result ≡ false }
        ensures faults { shelf_faults result ≡ 0 }
        ensures absents { shelf_absents result ≡ 0 }
    {
        MemShelf {
            files,
            piece,
            bad_opens,
            bad_reads,
            opens: 0,
            reads: 0,
            absents: 0,
            hand: None,
        }
    }
}

impl Shelf for MemShelf {
    ghost use Rattle.gufi_io.specs.Memory.{shelf_files, shelf_in_hand, shelf_left, shelf_opens, shelf_reads, shelf_faults, shelf_absents, IsSameShelf, open_fails, open_answer, is_no_file, read_fails, read_count};

    ghost files = { λ s. Some (shelf_files s) };

    ghost in_hand = { shelf_in_hand };

    ghost left = { shelf_left };

    ghost opens = { shelf_opens };

    ghost faults = { shelf_faults };

    ghost absents = { shelf_absents };

    fn open_file(&mut self, name: &str) -> Result<(), OpenFault>
        // The call fails exactly where its number is given, and misses exactly the names that aren't held.
        ensures answer { result ≡ open_answer self.old name.now }
        ensures number { shelf_opens self.new ≡ one_more (shelf_opens self.old) }
        ensures fault { shelf_faults self.new ≡ shelf_faults self.old + one_if (open_fails self.old) }
        ensures absent { shelf_absents self.new ≡ one_more_if (is_no_file result) (shelf_absents self.old) }
        ensures kept { IsSameShelf self.old self.new }
        ensures reads { shelf_reads self.new ≡ shelf_reads self.old }

        // What every shelf promises.
        ensures hand { shelf_in_hand self.new ≡ is_ok result }
        ensures held { OpensHeld (Some (shelf_files self.old)) name.now (shelf_left self.new) result }
        ensures absents { shelf_absents self.old ≤ shelf_absents self.new }
        ensures cause { IfErr result (OpenFaultHasCause (shelf_faults self.old) (shelf_faults self.new) (shelf_absents self.old) (shelf_absents self.new)) }
    {
        self.hand = None;
        if is_bad(&mut self.opens, &self.bad_opens) {
            return Err(OpenFault::Failed);
        }
        match place_of(&self.files, name) {
            Some(file) => {
                self.hand = Some(Hand { file, at: 0 });
                Ok(())
            }
            None => {
                self.absents = self.absents.saturating_add(1);
                Err(OpenFault::NoFile)
            }
        }
    }

    fn read(&mut self, buf: &mut [u8]) -> Result<usize, Failed>
        requires in_hand { IsTrue (shelf_in_hand self.old) }
        requires room { 0 < length buf.old }

        // The call fails exactly where its number is given, and else gives as much as there is, up to a piece.
        ensures failed { is_err result ≡ read_fails self.old }
        ensures count { IfOk result (λ n. n ≡ read_count self.old (length buf.old)) }
        ensures number { shelf_reads self.new ≡ one_more (shelf_reads self.old) }
        ensures fault { shelf_faults self.new ≡ shelf_faults self.old + one_if (read_fails self.old) }
        ensures absent { shelf_absents self.new ≡ shelf_absents self.old }
        ensures kept { IsSameShelf self.old self.new }
        ensures opens { shelf_opens self.new ≡ shelf_opens self.old }

        // What every shelf promises.
        ensures hand { shelf_in_hand self.new ≡ true }
        ensures bound { ReadsAtMost result buf.new }
        ensures bytes { ReadConsumes (shelf_left self.old) (shelf_left self.new) result buf.new }
        ensures cause { HasCause (shelf_faults self.old) (shelf_faults self.new) result }
    {
        if is_bad(&mut self.reads, &self.bad_reads) {
            return Err(Failed);
        }
        let Some(hand) = self.hand else {
            unreachable!();
        };
        let rest = rest_of(&self.files, hand);
        let count = copy_front(buf, rest, self.piece as usize);
        self.hand = Some(Hand {
            file: hand.file,
            at: hand.at + count,
        });
        Ok(count)
    }
}

impl MemSink {
    ghost use Rattle.gufi_io.specs.Memory.{sink_room, sink_piece, sink_bad_writes, sink_writes, sink_taken, sink_faults};

    /// Takes a buffer, the largest piece of a write in bytes, and the numbers of the calls that fail.
    #[tactic(auto, unfolding(crate::specs::Calls::bad_calls))]
    pub fn new(room: Vec<u8>, piece: u32, bad_writes: Vec<u64>) -> MemSink
        requires { 1 ≤ piece }
        ensures room { sink_room result ≡ room.items }
        ensures piece { sink_piece result ≡ piece }
        ensures bad_writes { sink_bad_writes result ≡ bad_writes.items }
        ensures writes { sink_writes result ≡ 0 }
        ensures taken { sink_taken result ≡ [] }
        ensures faults { sink_faults result ≡ 0 }
    {
        MemSink {
            room,
            piece,
            bad_writes,
            writes: 0,
            full: 0,
            taken: 0,
        }
    }

    /// The bytes taken.
    pub fn taken(&self) -> &[u8]
        ensures { result.now ≡ sink_taken self.now }
    {
        self.room.split_at(self.taken).0
    }
}

impl Sink for MemSink {
    ghost use Rattle.gufi_io.specs.Memory.{sink_writes, sink_taken, sink_faults, IsSameSink, write_fails, write_count};

    ghost taken = { λ s. Some (sink_taken s) };

    ghost faults = { sink_faults };

    fn write(&mut self, piece: &[u8]) -> Result<usize, Failed>
        requires { 0 < length piece.now }

        // The call fails exactly where its number is given or no room is left, and else takes as much as fits, up to a piece.
        ensures failed { is_err result ≡ write_fails self.old }
        ensures count { IfOk result (λ n. n ≡ write_count self.old (length piece.now)) }
        ensures number { sink_writes self.new ≡ one_more (sink_writes self.old) }
        ensures fault { sink_faults self.new ≡ one_more_if (write_fails self.old) (sink_faults self.old) }
        ensures kept { IsSameSink self.old self.new }

        // What every sink promises.
        ensures some { IfOk result (λ n. 0 < n) }
        ensures bound { IfOk result (λ n. n ≤ length piece.now) }
        ensures bytes { WriteAppends (Some (sink_taken self.old)) (Some (sink_taken self.new)) result piece.now }
        ensures cause { HasCause (sink_faults self.old) (sink_faults self.new) result }
    {
        if is_bad(&mut self.writes, &self.bad_writes) {
            return Err(Failed);
        }
        let count = put_at(&mut self.room, self.taken, piece, self.piece as usize);
        if count == 0 {
            self.full = self.full.saturating_add(1);
            return Err(Failed);
        }
        self.taken += count;
        Ok(count)
    }
}

// Numbers one more call, and says whether it is to fail.
#[tactic(auto, using(crate::proofs::CallLemmas::bad_calls_next))]
fn is_bad(calls: &mut u64, bad: &[u64]) -> bool
    ensures number { calls.new ≡ one_more calls.old }
    ensures bad { result ≡ next_is_bad bad.now calls.old }
    ensures faults { bad_calls bad.now calls.new ≡ bad_calls bad.now calls.old + one_if result }
{
    let Some(number) = calls.checked_add(1) else {
        return false;
    };
    *calls = number;
    bad.contains(&number)
}

// Where the first file of that name stands.
fn place_of(files: &[(String, Vec<u8>)], name: &str) -> Option<usize>
    ensures { MatchOption result (held files.now name.now ≡ None) (λ i. held files.now name.now ≡ Some (bytes_at files.now i)) }
{
    for (i, file) in files.iter().enumerate() {
        if file.0.as_str() == name {
            return Some(i);
        }
    }
    None
}

// What is left of the file in hand.
fn rest_of(files: &[(String, Vec<u8>)], hand: Hand) -> &[u8]
    ensures rest { result.now ≡ drop hand.at (bytes_at files.now hand.file) }
    ensures fits { hand.at + length result.now < 2 ^ 64 }
{
    match files.get(hand.file) {
        Some(file) if hand.at <= file.1.len() => file.1.split_at(hand.at).1,
        _ => &[],
    }
}

// Copies as much as there is, as there is room for, and no more than `most`.
fn copy_front(buf: &mut [u8], rest: &[u8], most: usize) -> usize
    requires { 0 < most }
    ensures count { result ≡ min (min (length rest.now) (length buf.old)) most }
    ensures front { take result buf.new ≡ take result rest.now }
    ensures some { result ≡ 0 → 0 < length buf.old → rest.now ≡ [] }
{
    let count = rest.len().min(buf.len()).min(most);
    let (front, _) = buf.split_at_mut(count);
    front.copy_from_slice(rest.split_at(count).0);
    count
}

// Puts a front of the piece behind the first bytes of the room.
fn put_at(room: &mut [u8], at: usize, piece: &[u8], most: usize) -> usize
    requires at { at ≤ length room.old }
    requires most { 0 < most }
    ensures count { result ≡ min (min (length piece.now) (length room.old - at)) most }
    ensures taken { take (at + result) room.new ≡ take at room.old ++ take result piece.now }
{
    let (_, free) = room.split_at_mut(at);
    copy_front(free, piece, most)
}
