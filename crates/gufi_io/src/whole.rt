//! Whole files and whole texts.
ghost use Rattle.std.specs.Prelude.{◌≡◌, ◌≤◌, ◌<◌, ◌++◌, ℕ, List, length, vec_len, IfOk, IfErr, OnOk, OnErr, IsTrue, Err};
ghost use Rattle.std.specs.Io.KnownBytes.{Appends};
ghost use Rattle.gufi_io.specs.Calls.{one_more};
ghost use Rattle.gufi_io.specs.Causes.{Rose};
ghost use Rattle.gufi_io.specs.Files.{Holds, TakesFront};
ghost use Rattle.gufi_io.specs.Kept.{Keeps};
ghost use Rattle.gufi_io.specs.Whole.{IsTakenUpTo, HasTakenFile, HasTakenTooMany, ReadErrorTells, ReadErrorHasCause, read_error_of};
ghost use Rattle.gufi_io.specs.declared.whole.ReadError.TheVariants.{Memory};

use crate::shelf::{OpenFault, Shelf};
use crate::sink::Sink;
use std::alloc::{AllocError, Global};

/// Takes the bytes of a file, piece by piece.
pub trait TakeBytes {
    /// Whether the second has taken these bytes in all, and has the settings of the first.
    ghost has_taken: { Self → Self → List ℕ → Type 0 };

    /// Takes the next bytes.
    fn take_piece(&mut self, alloc: Global, piece: &[u8]) -> Result<(), AllocError>
        ensures { OnOk result ((first : Self) (bytes : List ℕ) → has_taken first self.old bytes → has_taken first self.new (bytes ++ piece.now)) };
}

impl TakeBytes for Vec<u8> {
    ghost has_taken = { λ _ v bytes. v.items ≡ bytes };

    fn take_piece(&mut self, _alloc: Global, piece: &[u8]) -> Result<(), AllocError> {
        self.extend_from_slice(piece)
    }
}

/// How many bytes a read asks for: few system calls, and a buffer that stays in the processor's caches.
const PIECE: usize = 65536;

/// A buffer of 64 KiB for the pieces of a file.
pub fn piece_buffer(alloc: Global) -> Result<Vec<u8>, AllocError>
    ensures { IfOk result (λ buffer. 0 < vec_len buffer) }
{
    vec![in alloc; 0; PIECE]
}

/// Why the rest of a file wasn't read.
#[derive(Clone, Copy, Debug, PartialEq, Eq)]
pub enum RestError {
    ReadFault,
    /// The file is longer than it may be.
    TooLong,
    Memory,
}

/// Reads the file in hand to its end, or until more than `max` bytes of it were read, of which `size` were taken before.
///
/// After a fault or a want of memory nothing is said of `out`.
#[tactic(auto, using(crate::proofs::Fronts::taken_more))]
pub fn read_rest<F: Shelf, T: TakeBytes>(
    alloc: Global,
    shelf: &mut F,
    name: &str,
    room: &mut [u8],
    max: u32,
    mut size: usize,
    out: &mut T,
) -> Result<(), RestError>
    requires in_hand { IsTrue (F.in_hand shelf.old) }
    requires room { 0 < length room.old }
    requires taken { IsTakenUpTo (T.has_taken out.old) (F.files shelf.old) name.now (F.left shelf.old) out.old size }
    ensures whole { OnOk result (HasTakenFile (T.has_taken out.old) (F.files shelf.old) name.now max out.new) }
    ensures long { result ≡ Err RestError.TooLong → HasTakenTooMany (T.has_taken out.old) (F.files shelf.old) name.now max out.new }
    ensures cause { result ≡ Err RestError.ReadFault → Rose (F.faults shelf.old) (F.faults shelf.new) }
    ensures same { F.files shelf.new ≡ F.files shelf.old }
    ensures opens { F.opens shelf.new ≡ F.opens shelf.old }
    ensures faults { F.faults shelf.old ≤ F.faults shelf.new }
    ensures absents { F.absents shelf.new ≡ F.absents shelf.old }
{
    'pieces: while size <= max as usize {
        let Ok(count) = shelf.read(room) else {
            return Err(RestError::ReadFault);
        };
        if count == 0 {
            return Ok(());
        }
        let (piece, _) = room.split_at(count);
        let Ok(()) = out.take_piece(alloc, piece) else {
            return Err(RestError::Memory);
        };
        size += count;
    }
    Err(RestError::TooLong)
}

/// Why a file wasn't read whole.
#[derive(Debug, Drop)]
pub enum ReadError {
    NoFile,
    ReadFault,
    /// The file is longer than it may be. These bytes of it were read, from its front.
    TooLong { bytes: Vec<u8> },
    Memory,
}

impl From<OpenFault> for ReadError {
    ghost from_gives = { λ fault e. e ≡ read_error_of fault };

    fn from(fault: OpenFault) -> ReadError {
        match fault {
            OpenFault::NoFile => ReadError::NoFile,
            OpenFault::Failed => ReadError::ReadFault,
        }
    }
}

impl From<AllocError> for ReadError {
    ghost from_gives = { λ _ e. e ≡ Memory };

    fn from(_: AllocError) -> ReadError {
        ReadError::Memory
    }
}

/// Reads a file to its end, or until more than `max` bytes were read.
///
/// Each byte is copied once, out of a buffer of 64 KiB, into memory that grows by doubling.
pub fn read_all<F: Shelf>(
    alloc: Global,
    shelf: &mut F,
    name: &str,
    max: u32,
) -> Result<Vec<u8>, ReadError>
    ensures whole { IfOk result (λ bytes. Holds (F.files shelf.old) name.now bytes.items) }
    ensures short { IfOk result (λ bytes. length bytes.items ≤ max) }
    ensures told { IfErr result (ReadErrorTells (F.files shelf.old) name.now max) }
    ensures cause { IfErr result (ReadErrorHasCause F.Shelf shelf.old shelf.new) }
    ensures opens { F.opens shelf.new ≡ one_more (F.opens shelf.old) }
    ensures kept { Keeps F.Shelf shelf.old shelf.new }
{
    shelf.open_file(name)?;
    let mut buffer = piece_buffer(alloc)?;
    let room = buffer.as_mut_slice();
    let mut bytes = Vec::new(alloc);
    match read_rest(alloc, shelf, name, room, max, 0, &mut bytes) {
        Ok(()) => Ok(bytes),
        Err(RestError::ReadFault) => Err(ReadError::ReadFault),
        Err(RestError::TooLong) => Err(ReadError::TooLong { bytes }),
        Err(RestError::Memory) => Err(ReadError::Memory),
    }
}

/// The sink failed before it had taken all.
#[derive(Clone, Copy, Debug)]
pub struct WriteFault;

/// Writes all of the bytes, in as few pieces as the sink takes. After a fault a front of them was taken.
pub fn write_whole<K: Sink>(sink: &mut K, bytes: &[u8]) -> Result<(), WriteFault>
    ensures ok { OnOk result (Appends (K.taken sink.old) (K.taken sink.new) bytes.now) }
    ensures err { OnErr result (TakesFront (K.taken sink.old) (K.taken sink.new) bytes.now) }
    ensures cause { OnErr result (Rose (K.faults sink.old) (K.faults sink.new)) }
    ensures faults { K.faults sink.old ≤ K.faults sink.new }
{
    let mut rest = bytes;
    while !rest.is_empty() {
        let Ok(count) = sink.write(rest) else {
            return Err(WriteFault);
        };
        let (_, after) = rest.split_at(count);
        rest = after;
    }
    Ok(())
}
