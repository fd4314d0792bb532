//! What rows take up, made as they come.

ghost use Rattle.std.specs.Prelude.{◌≡◌, ◌+◌, ◌^◌, ◌<◌};
ghost use Rattle.gufi_usage.specs.Usages.{nothing, with_row, both, IsInRange, IsUsage};
ghost use Rattle.gufi_usage.specs.Laws.{IsUsage-counted, IsUsage-reordered};

use gufi_base::{Kind, Memory, Meta, RowRef, Yield};
use std::alloc::Global;

/// How many rows there are, how many of them are files and directories, the bytes of the files, and the blocks of 512 bytes of all.
///
/// A file with several links counts once for each row.
#[derive(Clone, Copy)]
pub struct Usage {
    pub rows: u64,
    pub files: u64,
    pub dirs: u64,
    pub bytes: u128,
    pub blocks: u128,
}

impl Usage {
    /// What no row takes up.
    pub fn nothing() -> Usage
        ensures usage { result ≡ nothing }
        ensures in_range { IsInRange result }
    {
        Usage {
            rows: 0,
            files: 0,
            dirs: 0,
            bytes: 0,
            blocks: 0,
        }
    }

    /// Takes in one row.
    pub fn add(&mut self, meta: &Meta)
        requires room { self.old.rows + 1 < 2 ^ 40 }
        requires in_range { IsInRange self.old }
        ensures usage { self.new ≡ with_row self.old meta.now }
        ensures in_range { IsInRange self.new }
    {
        self.rows += 1;
        self.blocks += u128::from(meta.blocks);
        match meta.kind {
            Kind::Dir => self.dirs += 1,
            Kind::File => {
                self.files += 1;
                self.bytes += u128::from(meta.size);
            }
            Kind::Block | Kind::Char | Kind::Link | Kind::Fifo | Kind::Socket => {}
        }
    }

    /// Takes in the rows of another.
    pub fn join(&mut self, other: &Usage)
        requires room { self.old.rows + other.now.rows < 2 ^ 40 }
        requires in_range { IsInRange self.old }
        requires other_in_range { IsInRange other.now }
        ensures usage { self.new ≡ both self.old other.now }
        ensures in_range { IsInRange self.new }
    {
        self.rows += other.rows;
        self.files += other.files;
        self.dirs += other.dirs;
        self.bytes += other.bytes;
        self.blocks += other.blocks;
    }
}

impl Yield for Usage {
    ghost count = { λ u. u.rows };

    ghost stands_for = { IsUsage };

    ghost counted = { IsUsage-counted };

    ghost reordered = { IsUsage-reordered };

    fn none(_alloc: Global) -> Result<Usage, Memory> {
        Ok(Usage::nothing())
    }

    #[inline]
    fn take(&mut self, _alloc: Global, row: RowRef<'_>) -> Result<(), Memory> {
        self.add(row.meta);
        Ok(())
    }

    fn merge(&mut self, _alloc: Global, other: Usage) -> Result<(), Memory> {
        self.join(&other);
        Ok(())
    }

    fn settle(&mut self, _alloc: Global) -> Result<(), Memory> {
        Ok(())
    }
}
