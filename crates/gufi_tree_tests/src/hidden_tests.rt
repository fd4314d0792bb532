//! What a gate is told of a walk hangs on no row that can't be listed.

ghost use Rattle.std.specs.Prelude.{None, nat_lt};
ghost use Rattle.gufi_base.specs.Kinds.{is_link};

use crate::lines::{guard, line_of, meta, principal};
use crate::walkers_tests::Counting;
use gufi_base::{Kind, Line, Memory, Path, Pred, RowRef, Tester};
use gufi_snap::Snapshot;
use gufi_sums::{Skip, Summary};
use gufi_tree::build;
use gufi_walk::answer;
use std::alloc::Global;
use std::process::Abort;
use std::sync::Wait;
use std::sync::atomic::Ordering;
use std::test::Fail;
use std::thread::Threads;

/// The links alone, of which a sum tells.
#[derive(Clone, Copy)]
struct Links;

impl Tester for Links {
    ghost meets = { λ _ row depth. is_link row.rec.meta.kind };

    fn test(&mut self, _alloc: Global, row: RowRef<'_>, _depth: u32) -> Result<bool, Memory> {
        Ok(row.meta.kind == Kind::Link)
    }
}

impl Pred for Links {
    type Tester = Links;

    ghost sat = { λ _ row depth. is_link row.rec.meta.kind };

    fn tester(&self, _alloc: Global) -> Result<Links, Memory> {
        Ok(*self)
    }
}

impl Skip for Links {
    ghost use Rattle.gufi_sums.specs.Depths.{nothing_within};
    ghost use Rattle.gufi_tree_tests.specs.Links.{links_sound, links_parts};

    ghost query = { λ _ row depth. is_link row.rec.meta.kind };

    ghost skips = { λ _ sum. nat_lt sum.links 1 };

    ghost sound = { λ _ sum none rows is. links_sound sum none rows is };

    ghost parts = { λ _ a b none. links_parts a b none };

    ghost deepest = { λ _. None };

    ghost bounded = { λ _ most is row depth met. nothing_within most is depth };

    fn none_match(&self, sum: &Summary) -> bool {
        sum.links < 1
    }

    fn asks_sums(&self) -> bool {
        true
    }

    fn deepest(&self) -> Option<u32> {
        None
    }
}

/// What chance says of rows that are seen, and of those that aren't.
#[derive(Clone, Copy)]
struct Chances {
    seen: u64,
    hidden: u64,
    /// Whether each hidden directory is there.
    whole: bool,
}

fn next(state: u64) -> u64 {
    state
        .wrapping_mul(6364136223846793005)
        .wrapping_add(1442695040888963407)
}

impl Chances {
    /// One in four, for a row that is seen or not.
    fn is_rare(&mut self, is_seen: bool) -> bool {
        let state = if is_seen {
            self.seen = next(self.seen);
            self.seen
        } else {
            self.hidden = next(self.hidden);
            self.hidden
        };
        state >> 62 == 0
    }

    /// Whether a directory is left out.
    fn leaves_out(&mut self, is_seen: bool) -> bool {
        !is_seen && !self.whole && self.is_rare(false)
    }
}

/// Adds a directory that its owner alone may list, or everybody, and maybe a link or a file in it.
fn add_directory(
    alloc: Global,
    lines: &mut Vec<Line>,
    chances: &mut Chances,
    path: &[u8],
    entry: &[u8],
    is_seen: bool,
    mode: u16,
) -> Result<(), Fail> {
    let record = meta(Kind::Dir, guard(101, 100, mode));
    lines.push(line_of(alloc, 1, path, record)?)?;
    if chances.is_rare(is_seen) {
        return Ok(());
    }
    let kind = if chances.is_rare(is_seen) {
        Kind::Link
    } else {
        Kind::File
    };
    let record = meta(kind, guard(101, 100, 0o644));
    lines.push(line_of(alloc, 1, entry, record)?)?;
    Ok(())
}

/// Adds a directory in one that is seen or not, which itself is seen or not, or leaves it out.
fn add_at(
    alloc: Global,
    lines: &mut Vec<Line>,
    chances: &mut Chances,
    path: &[u8],
    entry: &[u8],
    above: bool,
) -> Result<(bool, bool), Fail> {
    let is_open = !chances.is_rare(above);
    let is_seen = above && is_open;
    if chances.leaves_out(is_seen) {
        return Ok((false, false));
    }
    let mode = if is_open { 0o755 } else { 0o700 };
    add_directory(alloc, lines, chances, path, entry, is_seen, mode)?;
    Ok((true, is_seen))
}

/// Adds a directory of the root with three in it.
fn add_branch(
    alloc: Global,
    lines: &mut Vec<Line>,
    chances: &mut Chances,
    a: u8,
) -> Result<(), Fail> {
    let (is_there, is_seen) = add_at(
        alloc,
        lines,
        chances,
        &[b'/', a],
        &[b'/', a, b'/', b'x'],
        true,
    )?;
    if !is_there {
        return Ok(());
    }
    for b in b'a'..b'd' {
        let path = [b'/', a, b'/', b];
        let entry = [b'/', a, b'/', b, b'/', b'x'];
        add_at(alloc, lines, chances, &path, &entry, is_seen)?;
    }
    Ok(())
}

fn grown(alloc: Global, mut chances: Chances, limit: u64) -> Result<Snapshot, Fail> {
    let mut lines = Vec::new(alloc);
    add_directory(alloc, &mut lines, &mut chances, b"/", b"/x", true, 0o755)?;
    for a in b'a'..b'e' {
        add_branch(alloc, &mut lines, &mut chances, a)?;
    }
    if lines.len() > 99 {
        return Err(Fail::new("there are more than 99 lines"));
    }
    let tree = build(alloc, lines)?;
    Ok(Snapshot::build_uncounted(alloc, tree, limit)?)
}

/// How many links are found, and how many tasks and stores a gate is told of.
fn looked_at<R: Threads + Wait + Sync>(
    rt: &R,
    alloc: Global,
    snap: &Snapshot,
) -> Result<(u64, u64, u64), Fail> {
    let who = principal(alloc, 102);
    let start = Path::root(alloc)?;
    let gate = Counting::none();
    let sum: Summary = answer(rt, alloc, snap, &who, &start, &Links, &Links, 1, &gate)?;
    let tasks = gate.tasks.load(Ordering::SeqCst);
    let stores = gate.stores.load(Ordering::SeqCst);
    Ok((sum.links, tasks, stores))
}

fn looked_at_in<R: AllocGlobal + Threads + Wait + Sync>(
    rt: &R,
    chances: Chances,
    limit: u64,
) -> Result<(u64, u64, u64), Fail> {
    let snap = grown(rt.alloc(), chances, limit)?;
    looked_at(rt, rt.alloc(), &snap)
}

/// Asserts that two trees are walked alike which differ in hidden rows alone.
fn assert_alike<R: AllocGlobal + Threads + Wait + Sync + Abort>(
    rt: &R,
    seen: u64,
    hidden: u64,
    limit: u64,
) -> Result<(), Fail> {
    let whole = limit > 0;
    let one = Chances {
        seen,
        hidden: 7,
        whole,
    };
    let other = Chances {
        seen,
        hidden,
        whole,
    };
    let found = looked_at_in(rt, one, limit)?;
    assert_eq!(rt; looked_at_in(rt, other, limit)?, found);
    Ok(())
}

/// Where nothing is rolled up hidden directories may be missing too; else what is in them alone differs.
#[test]
fn walks_hang_on_no_hidden_row(rt: HostRuntime) -> Result<(), Fail> {
    for limit in [0u64, 100] {
        for seed in 0..40u64 {
            assert_alike(&rt, next(seed), next(next(seed)), limit)?;
        }
    }
    Ok(())
}
