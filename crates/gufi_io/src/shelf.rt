//! Shelves of files.
ghost use Rattle.std.specs.Prelude.{◌≡◌, ◌≤◌, ◌<◌, ℕ, List, Option, Bool, true, is_ok, length, IfErr, IsTrue};
ghost use Rattle.std.specs.Io.{ReadsAtMost};
ghost use Rattle.std.specs.Io.KnownBytes.{ReadConsumes};
ghost use Rattle.gufi_io.specs.Calls.{one_more};
ghost use Rattle.gufi_io.specs.Causes.{HasCause, OpenFaultHasCause};
ghost use Rattle.gufi_io.specs.Files.{Files, OpensHeld};

/// The outside failed.
#[derive(Clone, Copy, Debug)]
pub struct Failed;

/// Why a file isn't in hand.
#[derive(Clone, Copy, Debug, PartialEq, Eq)]
pub enum OpenFault {
    NoFile,
    Failed,
}

/// Holds files by name, of which one at a time is in hand.
pub trait Shelf {
    /// The bytes that each name holds, where the shelf tells them.
    ghost files: { Self → Option Files };

    /// Whether a file is in hand.
    ghost in_hand: { Self → Bool };

    /// The bytes left of the file in hand, where the shelf tells them.
    ghost left: { Self → Option (List ℕ) };

    /// How often a file was to be opened.
    ghost opens: { Self → ℕ };

    /// How often the shelf has failed.
    ghost faults: { Self → ℕ };

    /// How often a name wasn't there.
    ghost absents: { Self → ℕ };

    /// Takes a file in hand. After a refusal there is none.
    fn open_file(&mut self, name: &str) -> Result<(), OpenFault>
        ensures hand { in_hand self.new ≡ is_ok result }
        ensures held { OpensHeld (files self.old) name.now (left self.new) result }
        ensures number { opens self.new ≡ one_more (opens self.old) }
        ensures same { files self.new ≡ files self.old }
        ensures faults { faults self.old ≤ faults self.new }
        ensures absents { absents self.old ≤ absents self.new }
        ensures cause { IfErr result (OpenFaultHasCause (faults self.old) (faults self.new) (absents self.old) (absents self.new)) };

    /// Gives the next bytes of the file in hand, and none only at its end.
    fn read(&mut self, buf: &mut [u8]) -> Result<usize, Failed>
        requires in_hand { IsTrue (in_hand self.old) }
        requires room { 0 < length buf.old }
        ensures hand { in_hand self.new ≡ true }
        ensures bound { ReadsAtMost result buf.new }
        ensures bytes { ReadConsumes (left self.old) (left self.new) result buf.new }
        ensures opens { opens self.new ≡ opens self.old }
        ensures same { files self.new ≡ files self.old }
        ensures absents { absents self.new ≡ absents self.old }
        ensures cause { HasCause (faults self.old) (faults self.new) result };
}
