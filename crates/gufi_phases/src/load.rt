//! Phases that are loaded from a shelf.
ghost use Rattle.std.specs.Prelude.{◌≡◌, ℕ, ⊤, List, Option, Some, Result, length, IfOk, IfErr, OnOk};
ghost use Rattle.gufi_io.specs.Files.{Files};
ghost use Rattle.gufi_io.specs.Kept.{Keeps};
ghost use Rattle.gufi_phases.specs.declared.act.Act.{Act};
ghost use Rattle.gufi_phases.specs.Phases.{command_count};
ghost use Rattle.gufi_phases.specs.Loads.{LoadsAs, BreaksIf, LoadFaultHasCause};

use crate::act::Act;
use gufi_base::Text;
use gufi_io::Shelf;
use std::alloc::{AllocError, Global};

/// Why the files of a phase end a session before it.
#[derive(Drop)]
pub enum Stop {
    /// There is no file of this name.
    NoFile { file: Text },
    /// With this file the bytes of the phase's files pass their limit.
    TooLong { file: Text },
}

/// Why a phase isn't loaded.
#[derive(Drop)]
pub enum LoadFault {
    Stopped { stop: Stop },
    ReadFault,
    Memory,
}

impl From<AllocError> for LoadFault {
    ghost use Rattle.gufi_phases.specs.declared.load.LoadFault.TheVariants.{Memory};

    ghost from_gives = { λ _ fault. fault ≡ Memory };

    fn from(_: AllocError) -> LoadFault {
        LoadFault::Memory
    }
}

/// A phase of a plan, whose files are on a shelf.
pub trait Load<C: Drop, Q: Drop, F: Shelf> {
    ghost use Rattle.gufi_phases.specs.declared.load.Stop.{Stop};

    /// Its acts over files, or why these end the session.
    ghost loaded: { Self → Files → Result (List (Act C Q)) Stop };

    /// How many acts it has.
    ghost size: { Self → ℕ };

    /// How many of these are publishing commands.
    ghost commands: { Self → ℕ };

    /// Its files are read, which leads the shelf from one state to another.
    ghost reads: { Self → F → F → Type 0 } = { λ _ _ _. ⊤ };

    /// Reading its files fails, which leads the shelf from one state to another.
    ghost breaks: { Self → F → F → Type 0 } = { λ _ _ _. ⊤ };

    /// Reads the files, and makes the acts that are carried out.
    fn load(&self, alloc: Global, shelf: &mut F) -> Result<Vec<Act<C, Q>>, LoadFault>
        ensures told { (files : Files) → F.files shelf.old ≡ Some files → LoadsAs (loaded self.now files) result }
        ensures size { IfOk result (λ acts. length acts.items ≡ size self.now) }
        ensures commands { IfOk result (λ acts. command_count acts.items ≡ commands self.now) }
        ensures reads { OnOk result (reads self.now shelf.old shelf.new) }
        ensures breaks { IfErr result (BreaksIf (breaks self.now shelf.old shelf.new)) }
        ensures cause { IfErr result (LoadFaultHasCause F.Shelf shelf.old shelf.new) }
        ensures kept { Keeps F.Shelf shelf.old shelf.new };
}
