//! A shelf that tells which file was opened last, and why a call on a file failed last.
ghost use Rattle.std.specs.Prelude.{◌≡◌, ℕ, List, Option, None, option_map};
ghost use Rattle.std.specs.IoError.{error_kind};
ghost use Rattle.std.specs.declared.io.ErrorKind.{ErrorKind};
ghost use Rattle.std.specs.String.{string_bytes};

use gufi_io::{Failed, FileShelf, MemShelf, OpenFault, Shelf};
use std::alloc::Global;
use std::io::ErrorKind;
use std::rt::Files;

/// What is known of a shelf's calls.
pub trait Watched {
    /// The name of the file that was to be opened last, where there was memory for it.
    ghost opened: { Self → Option (List ℕ) };

    /// Why a call on a file failed last, where the system told.
    ghost failed_by: { Self → Option ErrorKind };

    fn last_opened(&self) -> Option<&str>
        ensures { option_map (λ name. name.now) result ≡ opened self.now };

    fn failure(&self) -> Option<ErrorKind>
        ensures { result ≡ failed_by self.now };
}

/// Why a call of a shelf failed last.
pub trait Failing {
    ghost failed_by: { Self → Option ErrorKind };

    fn failure(&self) -> Option<ErrorKind>
        ensures { result ≡ failed_by self.now };
}

impl<R: Files> Failing for FileShelf<'_, R> {
    ghost failed_by = { λ shelf. option_map error_kind shelf.error };

    fn failure(&self) -> Option<ErrorKind> {
        match self.error() {
            Some(error) => Some(error.kind()),
            None => None,
        }
    }
}

impl Failing for MemShelf {
    ghost failed_by = { λ _. None };

    fn failure(&self) -> Option<ErrorKind> {
        None
    }
}

/// A shelf, and the name of the file that was to be opened last.
#[derive(Drop)]
pub struct WatchedShelf<F> {
    alloc: Global,
    shelf: F,
    opened: Option<String>,
}

impl<F: Shelf + Failing> WatchedShelf<F> {
    pub fn new(alloc: Global, shelf: F) -> WatchedShelf<F>
        ensures { result.shelf ≡ shelf }
    {
        WatchedShelf {
            alloc,
            shelf,
            opened: None,
        }
    }
}

impl<F: Shelf + Failing> Shelf for WatchedShelf<F> {
    ghost files = { λ watched. F.files watched.shelf };

    ghost in_hand = { λ watched. F.in_hand watched.shelf };

    ghost left = { λ watched. F.left watched.shelf };

    ghost opens = { λ watched. F.opens watched.shelf };

    ghost faults = { λ watched. F.faults watched.shelf };

    ghost absents = { λ watched. F.absents watched.shelf };

    fn open_file(&mut self, name: &str) -> Result<(), OpenFault> {
        self.opened = String::from_str(self.alloc, name).ok();
        self.shelf.open_file(name)
    }

    fn read(&mut self, buf: &mut [u8]) -> Result<usize, Failed> {
        self.shelf.read(buf)
    }
}

impl<F: Shelf + Failing> Watched for WatchedShelf<F> {
    ghost opened = { λ watched. option_map string_bytes watched.opened };

    ghost failed_by = { λ watched. F.failed_by watched.shelf };

    fn last_opened(&self) -> Option<&str> {
        match &self.opened {
            Some(name) => Some(name.as_str()),
            None => None,
        }
    }

    fn failure(&self) -> Option<ErrorKind> {
        self.shelf.failure()
    }
}
