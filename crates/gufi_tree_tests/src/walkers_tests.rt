//! Many walkers: what a gate is told, and that their rows are those of one thread.

ghost use Rattle.std.specs.Prelude.{◌≡◌, ◌<◌, ◌≤◌, nat_le};

use crate::lines::{line, principal, snapshot_of};
use gufi_access::Principal;
use gufi_base::{Always, Kind, Line, Memory, Path, Pred, RowRef, Steps, Tester};
use gufi_io::{Gate, GateKind, NoGate};
use gufi_rows::PathList;
use gufi_snap::Snapshot;
use gufi_sums::{NoDeeper, NoSkip, Summary};
use gufi_tree::build;
use gufi_walk::{Walkers, answer, answer_alone, answer_lines};
use std::alloc::Global;
use std::marker::Brand;
use std::process::Abort;
use std::sync::Wait;
use std::sync::atomic::{AtomicU64, Ordering};
use std::sync::ledger::{Blank, Ledger};
use std::test::Fail;
use std::thread::{Threads, yield_now};

/// Counts tasks and stores.
#[derive(Drop)]
pub(crate) struct Counting {
    pub(crate) tasks: AtomicU64,
    pub(crate) stores: AtomicU64,
}

impl Counting {
    pub(crate) fn none() -> Counting {
        Counting {
            tasks: AtomicU64::new(0),
            stores: AtomicU64::new(0),
        }
    }
}

impl Gate for Counting {
    fn begin(&self, kind: GateKind, _number: u32) {
        match kind {
            GateKind::Task => {
                self.tasks.fetch_add(1, Ordering::SeqCst);
            }
            GateKind::Store => {
                self.stores.fetch_add(1, Ordering::SeqCst);
            }
            GateKind::Publish | GateKind::Ask => {}
        }
    }
}

/// The directories that so many walkers find from the root, and the tasks and stores of which they tell.
fn told<R: Threads + Wait + Sync>(
    rt: &R,
    alloc: Global,
    snap: &Snapshot,
    workers: u32,
) -> Result<(u64, u64, u64), Fail>
    requires { (0 < workers) × (workers ≤ 32) }
{
    let who = principal(alloc, 102);
    let start = Path::root(alloc)?;
    let gate = Counting::none();
    let sum: Summary = answer(
        rt, alloc, snap, &who, &start, &Always, &NoSkip, workers, &gate,
    )?;
    let tasks = gate.tasks.load(Ordering::SeqCst);
    let stores = gate.stores.load(Ordering::SeqCst);
    Ok((sum.dirs, tasks, stores))
}

/// Asserts how many tasks and stores are told of, whatever the number of walkers.
fn assert_told<R: AllocGlobal + Threads + Wait + Sync + Abort>(
    rt: &R,
    snap: &Snapshot,
    front: u64,
) -> Result<(), Fail> {
    for workers in [1u32, 4, 32] {
        assert!(rt; 0 < workers && workers <= 32);
        assert_eq!(rt; told(rt, rt.alloc(), snap, workers)?, (3, front, front));
    }
    Ok(())
}

fn assert_told_at<R: AllocGlobal + Threads + Wait + Sync + Abort>(
    rt: &R,
    plain: &Snapshot,
    limit: u64,
    front: u64,
) -> Result<(), Fail> {
    let snap = plain.with_limit(rt.alloc(), limit)?;
    assert_told(rt, &snap, front)
}

fn assert_fronts<R: AllocGlobal + Threads + Wait + Sync + Abort>(
    rt: &R,
    plain: &Snapshot,
) -> Result<(), Fail> {
    for (limit, front) in [(100u64, 1u64), (2, 2), (0, 3)] {
        assert_told_at(rt, plain, limit, front)?;
    }
    Ok(())
}

#[test]
fn a_gate_is_told_of_each_directory_of_the_front(rt: HostRuntime) -> Result<(), Fail> {
    let plain = snapshot_of(
        rt.alloc(),
        &[
            (b"/".as_slice(), Kind::Dir, 0o755),
            (b"/a", Kind::Dir, 0o755),
            (b"/a/b", Kind::Dir, 0o755),
        ],
    )?;
    assert_fronts(&rt, &plain)
}

/// All rows down to a depth.
#[derive(Clone, Copy)]
struct DownTo {
    depth: u32,
}

impl Tester for DownTo {
    ghost meets = { λ to row depth. nat_le depth to.depth };

    fn test(&mut self, _alloc: Global, _row: RowRef<'_>, depth: u32) -> Result<bool, Memory> {
        Ok(depth <= self.depth)
    }
}

impl Pred for DownTo {
    type Tester = DownTo;

    ghost sat = { λ to row depth. nat_le depth to.depth };

    fn tester(&self, _alloc: Global) -> Result<DownTo, Memory> {
        Ok(*self)
    }
}

fn seven_rows(alloc: Global) -> Result<Snapshot, Fail> {
    snapshot_of(
        alloc,
        &[
            (b"/".as_slice(), Kind::Dir, 0o755),
            (b"/a", Kind::Dir, 0o755),
            (b"/a/b", Kind::Dir, 0o755),
            (b"/a/b/c", Kind::Dir, 0o755),
            (b"/a/f", Kind::File, 0o644),
            (b"/d", Kind::Dir, 0o755),
            (b"/d/g", Kind::File, 0o644),
        ],
    )
}

/// The directories and files that so many walkers find down to a depth, and the stores of which they tell.
fn visited<R: Threads + Wait + Sync>(
    rt: &R,
    alloc: Global,
    snap: &Snapshot,
    start: &Path,
    depth: u32,
    workers: u32,
) -> Result<(u64, u64, u64), Fail>
    requires { (0 < workers) × (workers ≤ 32) }
{
    let who = principal(alloc, 102);
    let gate = Counting::none();
    let question = DownTo { depth };
    let skip = NoDeeper { than: Some(depth) };
    let sum: Summary = answer(
        rt, alloc, snap, &who, start, &question, &skip, workers, &gate,
    )?;
    Ok((sum.dirs, sum.files, gate.stores.load(Ordering::SeqCst)))
}

fn assert_visited<R: AllocGlobal + Threads + Wait + Sync + Abort>(
    rt: &R,
    snap: &Snapshot,
) -> Result<(), Fail> {
    let alloc = rt.alloc();
    let rows = [
        (b"/".as_slice(), 0u32, 1u64, 0u64),
        (b"/", 1, 3, 0),
        (b"/", 2, 4, 2),
        (b"/", 3, 5, 2),
        (b"/a", 1, 2, 1),
    ];
    for (start, depth, dirs, files) in rows {
        let start = Path::read(alloc, start)?;
        for workers in [1u32, 4] {
            assert!(rt; 0 < workers && workers <= 32);
            let found = visited(rt, alloc, snap, &start, depth, workers)?;
            assert_eq!(rt; found, (dirs, files, dirs));
        }
    }
    Ok(())
}

#[test]
fn a_walk_visits_no_directory_that_lies_too_deep(rt: HostRuntime) -> Result<(), Fail> {
    let snap = seven_rows(rt.alloc())?;
    assert_visited(&rt, &snap)
}

/// Adds a row to a trace, and its path to what is printed of it.
fn add(
    alloc: Global,
    lines: &mut Vec<Line>,
    text: &mut Vec<u8>,
    path: &[u8],
    kind: Kind,
) -> Result<(), Fail> {
    lines.push(line(alloc, 1, path, kind, 0o755)?)?;
    text.extend_from_slice(path)?;
    text.push(b'\n')?;
    Ok(())
}

/// Adds a directory below the root, with a subdirectory and a file in that.
fn add_branch(
    alloc: Global,
    lines: &mut Vec<Line>,
    text: &mut Vec<u8>,
    name: [u8; 2],
) -> Result<(), Fail> {
    let [a, b] = name;
    add(alloc, lines, text, &[b'/', a, b], Kind::Dir)?;
    add(alloc, lines, text, &[b'/', a, b, b'/', b'd'], Kind::Dir)?;
    add(
        alloc,
        lines,
        text,
        &[b'/', a, b, b'/', b'd', b'/', b'f'],
        Kind::File,
    )
}

fn lines_alone<L: Ledger>(
    alloc: Global,
    snap: &Snapshot,
    who: &Principal,
    start: &Path,
    blank: Blank,
) -> Result<Vec<u8>, Fail>
    requires name { blank.name ≡ L.name }
    requires parts { blank.parts ≡ L.parts }
    requires one { 0 < blank.parts }
{
    let mut steps = Steps::<L>::new(blank);
    let paths: PathList = answer_alone(alloc, snap, who, start, &Always, &NoSkip, &mut steps)?;
    Ok(paths.lines(alloc)?)
}

/// Adds the lines of a root and of 625 branches to a trace, and their paths to a text.
fn add_tree(alloc: Global, lines: &mut Vec<Line>, text: &mut Vec<u8>) -> Result<(), Fail> {
    add(alloc, lines, text, b"/", Kind::Dir)?;
    for a in b'a'..b'z' {
        for b in b'a'..b'z' {
            add_branch(alloc, lines, text, [a, b])?;
        }
    }
    Ok(())
}

fn snapshot_of_lines(alloc: Global, lines: Vec<Line>) -> Result<Snapshot, Fail> {
    if lines.len() != 1876 {
        return Err(Fail::new("there are not 1876 lines"));
    }
    let tree = build(alloc, lines)?;
    Ok(Snapshot::build_uncounted(alloc, tree, 0)?)
}

/// Asserts that one thread and many walkers find this text.
fn assert_same<R: AllocGlobal + Threads + Wait + Sync + Abort>(
    rt: &R,
    snap: &Snapshot,
    text: &[u8],
) -> Result<(), Fail> {
    let alloc = rt.alloc();
    let who = principal(alloc, 102);
    let start = Path::root(alloc)?;
    let alone = lines_alone::<Brand>(alloc, snap, &who, &start, Blank::new(1))?;
    assert_eq!(rt; alone.as_slice(), text);
    for workers in [1u32, 4, 32] {
        let walkers = Walkers::of(rt, &NoGate, workers);
        let lines = answer_lines(&walkers, alloc, snap, &who, &start, &Always, &NoSkip)?;
        assert_eq!(rt; lines.text.as_slice(), text);
        assert_eq!(rt; lines.count, 1876);
    }
    Ok(())
}

/// How many directories there are in the root and the branches.
const DIRS: u64 = 1251;

/// The first task that is dealt to a walker: the root and its first branch are taken by the thread that asks.
const HELD: u32 = 3;

/// How often a task that is held looks whether the others have begun.
const TURNS: u32 = 10_000_000;

/// Counts the tasks that begin, and holds one until all have begun but that of the directory below its own. The walker that takes it
/// takes none of these, so others have to, and those that were dealt to the first they have to steal.
#[derive(Drop)]
struct Holding {
    tasks: AtomicU64,
    /// The sum of the tasks' numbers.
    numbers: AtomicU64,
    met: AtomicU64,
}

impl Holding {
    fn none() -> Holding {
        Holding {
            tasks: AtomicU64::new(0),
            numbers: AtomicU64::new(0),
            met: AtomicU64::new(0),
        }
    }

    fn hold(&self) {
        for _ in 0..TURNS {
            if self.tasks.load(Ordering::SeqCst) == DIRS - 1 {
                self.met.store(1, Ordering::SeqCst);
                return;
            }
            yield_now();
        }
    }
}

impl Gate for Holding {
    fn begin(&self, kind: GateKind, number: u32) {
        if kind != GateKind::Task {
            return;
        }
        self.tasks.fetch_add(1, Ordering::SeqCst);
        self.numbers.fetch_add(u64::from(number), Ordering::SeqCst);
        if number == HELD {
            self.hold();
        }
    }
}

/// Asserts that two walkers have each directory as a task once, and that the one that is held meets the others.
fn assert_shared<R: AllocGlobal + Threads + Wait + Sync + Abort>(
    rt: &R,
    snap: &Snapshot,
) -> Result<(), Fail> {
    let alloc = rt.alloc();
    let who = principal(alloc, 102);
    let start = Path::root(alloc)?;
    let gate = Holding::none();
    let sum: Summary = answer(rt, alloc, snap, &who, &start, &Always, &NoSkip, 2, &gate)?;
    assert_eq!(rt; sum.dirs, DIRS);
    assert_eq!(rt; gate.met.load(Ordering::SeqCst), 1);
    assert_eq!(rt; gate.tasks.load(Ordering::SeqCst), DIRS);
    assert_eq!(rt; gate.numbers.load(Ordering::SeqCst), DIRS * (DIRS - 1) / 2);
    Ok(())
}

/// The snapshot of a root and of 625 branches, and the text of their paths.
fn branches(alloc: Global) -> Result<(Snapshot, Vec<u8>), Fail> {
    let mut lines = Vec::new(alloc);
    let mut text = Vec::new(alloc);
    add_tree(alloc, &mut lines, &mut text)?;
    let snap = snapshot_of_lines(alloc, lines)?;
    Ok((snap, text))
}

#[test]
fn many_walkers_give_the_rows_of_one_thread(rt: HostRuntime) -> Result<(), Fail> {
    let (snap, text) = branches(rt.alloc())?;
    assert_same(&rt, &snap, text.as_slice())
}

#[test]
fn two_walkers_share_what_is_asked_of_a_snapshot(rt: HostRuntime) -> Result<(), Fail> {
    let (snap, _text) = branches(rt.alloc())?;
    assert_shared(&rt, &snap)
}
