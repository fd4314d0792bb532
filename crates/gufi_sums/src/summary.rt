//! What is known of some rows without looking at them.
ghost use Rattle.std.specs.Prelude.{◌≡◌, ◌+◌, ◌^◌, ◌<◌, min, max};
ghost use Rattle.std.specs.Int.{int_min, int_max};
ghost use Rattle.gufi_sums.specs.Total.{empty, add, join, counted, meta_total, span, rows_in, IsBounded, IsTotal};
ghost use Rattle.gufi_sums.specs.Laws.{IsTotal-counted, IsTotal-reordered};

use gufi_base::{Kind, Memory, Meta, RowRef, Yield};
use std::alloc::Global;

/// How many rows there are of each kind, the bytes of the files, and pairs of a least and a greatest value.
#[derive(Clone, Copy, Debug, PartialEq, Eq)]
pub struct Summary {
    pub dirs: u64,
    pub files: u64,
    pub links: u64,
    /// Block and character devices, pipes and sockets.
    pub others: u64,
    /// Of files alone, as is `size`: a file system tells sizes of its own for the rest.
    pub bytes: u128,
    pub size: Option<(u64, u64)>,
    /// Of all rows, as are `uid` and `gid`.
    pub mtime: Option<(i64, i64)>,
    pub uid: Option<(u32, u32)>,
    pub gid: Option<(u32, u32)>,
}

impl Summary {
    /// The sum of no rows.
    pub fn empty() -> Summary
        ensures sum { result ≡ empty }
        ensures counted { rows_in result ≡ 0 }
        ensures bounded { IsBounded result }
    {
        Summary {
            dirs: 0,
            files: 0,
            links: 0,
            others: 0,
            bytes: 0,
            size: None,
            mtime: None,
            uid: None,
            gid: None,
        }
    }

    /// Takes in one row.
    pub fn add(&mut self, meta: &Meta)
        requires room { rows_in self.old + 1 < 2 ^ 40 }
        requires in_bounds { IsBounded self.old }
        ensures sum { self.new ≡ add self.old meta.now }
        ensures counted { rows_in self.new ≡ rows_in self.old + 1 }
        ensures bounded { IsBounded self.new }
    {
        self.count(meta);
        self.mtime = span_of_times(self.mtime, Some((meta.mtime, meta.mtime)));
        self.uid = span_of_ids(self.uid, Some((meta.uid, meta.uid)));
        self.gid = span_of_ids(self.gid, Some((meta.gid, meta.gid)));
    }

    /// Counts one row by its kind, with the bytes and the size of a file.
    fn count(&mut self, meta: &Meta)
        requires room { rows_in self.old + 1 < 2 ^ 40 }
        requires in_bounds { IsBounded self.old }
        ensures sum { self.new ≡ counted self.old meta.now }
        ensures counted { rows_in self.new ≡ rows_in self.old + 1 }
        ensures bounded { IsBounded self.new }
    {
        match meta.kind {
            Kind::Dir => self.dirs += 1,
            Kind::File => {
                self.files += 1;
                self.bytes += u128::from(meta.size);
                self.size = span_of_sizes(self.size, Some((meta.size, meta.size)));
            }
            Kind::Link => self.links += 1,
            Kind::Block | Kind::Char | Kind::Fifo | Kind::Socket => self.others += 1,
        }
    }

    /// Takes in the rows of another sum.
    pub fn join(&mut self, other: &Summary)
        requires room { rows_in self.old + rows_in other.now < 2 ^ 40 }
        requires in_bounds { IsBounded self.old }
        requires other_in_bounds { IsBounded other.now }
        ensures sum { self.new ≡ join self.old other.now }
        ensures counted { rows_in self.new ≡ rows_in self.old + rows_in other.now }
        ensures bounded { IsBounded self.new }
    {
        self.dirs += other.dirs;
        self.files += other.files;
        self.links += other.links;
        self.others += other.others;
        self.bytes += other.bytes;
        self.size = span_of_sizes(self.size, other.size);
        self.mtime = span_of_times(self.mtime, other.mtime);
        self.uid = span_of_ids(self.uid, other.uid);
        self.gid = span_of_ids(self.gid, other.gid);
    }
}

impl Yield for Summary {
    ghost count = { rows_in };

    ghost stands_for = { IsTotal };

    ghost counted = { IsTotal-counted };

    ghost reordered = { IsTotal-reordered };

    fn none(_alloc: Global) -> Result<Summary, Memory> {
        Ok(Summary::empty())
    }

    fn take(&mut self, _alloc: Global, row: RowRef<'_>) -> Result<(), Memory> {
        self.add(row.meta);
        Ok(())
    }

    fn merge(&mut self, _alloc: Global, other: Summary) -> Result<(), Memory> {
        self.join(&other);
        Ok(())
    }

    fn settle(&mut self, _alloc: Global) -> Result<(), Memory> {
        Ok(())
    }
}

fn span_of_sizes(a: Option<(u64, u64)>, b: Option<(u64, u64)>) -> Option<(u64, u64)>
    ensures { result ≡ span min max a b }
{
    match (a, b) {
        (None, b) => b,
        (a, None) => a,
        (Some((least, greatest)), Some((low, high))) => Some((least.min(low), greatest.max(high))),
    }
}

fn span_of_times(a: Option<(i64, i64)>, b: Option<(i64, i64)>) -> Option<(i64, i64)>
    ensures { result ≡ span int_min int_max a b }
{
    match (a, b) {
        (None, b) => b,
        (a, None) => a,
        (Some((first, last)), Some((early, late))) => Some((first.min(early), last.max(late))),
    }
}

fn span_of_ids(a: Option<(u32, u32)>, b: Option<(u32, u32)>) -> Option<(u32, u32)>
    ensures { result ≡ span min max a b }
{
    match (a, b) {
        (None, b) => b,
        (a, None) => a,
        (Some((low, high)), Some((least, greatest))) => Some((low.min(least), high.max(greatest))),
    }
}
