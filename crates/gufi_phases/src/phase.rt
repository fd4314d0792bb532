//! Phases: the publishing thread beside the lanes, joined, and what is then written.
ghost use Rattle.std.specs.Prelude.{◌≡◌, ℕ, ◌+◌, ◌<◌, ◌≤◌, ◌-◌, ◌^◌, List, ◌++◌, map, length, All, IfErr, IfOk, OnOk, IsTrue, option_map};
ghost use Rattle.std.specs.Arc.{arc_value};
ghost use Rattle.gufi_base.specs.Limits.{max_publishing};
ghost use Rattle.gufi_hub.specs.Hub.{IsReady, published};
ghost use Rattle.gufi_phases.specs.Made.{FullOnlyIf};
ghost use Rattle.gufi_phases.specs.Phases.{EachMeans, NumbersFit, acts_text, command_count, command_lines, lanes as lanes_asked, last_of_acts, made};
ghost use Rattle.gufi_phases.specs.Keeping.{Keeping, hits_in, keeping_behind};
ghost use Rattle.gufi_phases.specs.Lanes.{AreReady, HasMeant, IsServed, IsTold, KeepAs};
ghost use Rattle.gufi_phases.specs.Replies.{BodiesBy};

use crate::act::{Act, Command, Wanted};
use crate::answer::{Row, Served};
use crate::keeping::Lane;
use crate::lane::serve;
use crate::publish::{Done, PhaseFault, publish_all};
use crate::replies::{gather, in_order};
use crate::visitors::{Jobs, jobs_for, visitors_for};
use gufi_base::Memory;
use gufi_hub::{Meaning, Publisher, Visitor};
use gufi_io::Gate;
use std::alloc::{AllocError, Global};
use std::sync::{Arc, Wait};
use std::thread::{Threads, join, map_vec};

/// What a phase came to: what each lane answered, in the order of the lanes, a line for each act, the last publication, and the lanes
/// that were idle.
#[derive(Drop)]
pub(crate) struct Phase<T: Drop> {
    pub(crate) rows: Vec<Row>,
    pub(crate) lines: Vec<Vec<u8>>,
    pub(crate) last: Option<Arc<T>>,
    pub(crate) idle: Vec<Lane>,
}

/// The greatest lane, of which there are 16.
fn lane_count<C: Drop, Q: Drop>(acts: &[Act<C, Q>]) -> u32
    ensures { result ≤ 16 }
{
    let mut count = 0;
    for act in acts {
        if let Act::Ask { lane, .. } = act {
            count = (*lane).min(16).max(count);
        }
    }
    count
}

/// Whether the numbers of the lanes ascend, so that what each keeps can be told by its number.
fn are_ascending(lanes: &[Lane]) -> bool
    ensures { IsTrue result → (before : ℕ → Keeping) × KeepAs before lanes.now }
{
    let mut last = 0;
    for lane in lanes {
        if lane.number <= last {
            return false;
        }
        last = lane.number;
    }
    true
}

/// Serves the lanes, each visitor in a thread of its own where one can be had.
fn serve_all<
    T: Send + Sync + Drop,
    M: Meaning<T> + Sync,
    C: Sync + Drop,
    Q: Wanted<T> + Drop,
    A: Fn(&Q, Vec<u8>, &T) -> Result<Vec<u8>, Memory> + Sync,
    G: Gate + Sync,
    R: Threads + Sync,
>(
    rt: &R,
    alloc: Global,
    gate: &G,
    reply: &A,
    jobs: Vec<(Visitor<T, M>, Vec<Lane>)>,
    acts: &[Act<C, Q>],
    first: u32,
) -> Result<Vec<Result<Served, Memory>>, AllocError>
    requires replies { BodiesBy A.Fn Q.body reply.now }
    requires room { first + length acts.now < 2 ^ 32 }
    ensures { (low : ℕ) (before : ℕ → Keeping) → All (λ job. (job.0.number ≡ low) × KeepAs before job.1.items) jobs.items
        → IfOk result (λ all. All (λ r. IfOk r (IsServed M.means Q.reply Q.head Q.key Q.body before first low acts.now)) all.items) }
{
    map_vec(
        rt,
        jobs,
        &|job: (Visitor<T, M>, Vec<Lane>)| -> Result<Served, Memory>
            requires { BodiesBy A.Fn Q.body reply.now × (first + length acts.now < 2 ^ 32) }
            ensures { (before : ℕ → Keeping) → KeepAs before job.1.items → IfOk result (IsServed M.means Q.reply Q.head Q.key Q.body before first job.0.number acts.entry.now) }
        {
            let (visitor, lanes) = job;
            serve(alloc, gate, reply, visitor, acts, first, lanes)
        },
    )
}

/// The lanes of rows, and behind them those that were idle.
pub(crate) fn lanes_behind(
    alloc: Global,
    rows: Vec<Row>,
    idle: Vec<Lane>,
) -> Result<Vec<Lane>, Memory>
    ensures { IfOk result (λ lanes. lanes.items ≡ map (λ row. row.lane) rows.items ++ idle.items) }
{
    let mut idle = idle;
    let mut lanes = Vec::with_capacity(alloc, rows.len())?;
    for row in rows {
        lanes.push(row.lane)?;
    }
    lanes.append(&mut idle)?;
    Ok(lanes)
}

/// What is to be written after the joins, where no visitor saw more than the publisher's number.
fn finish<T: Drop, M: Meaning<T>, C: Drop, Q: Wanted<T> + Drop>(
    alloc: Global,
    acts: &[Act<C, Q>],
    number: u64,
    count: u32,
    all: Vec<Result<Served, Memory>>,
    idle: Vec<Lane>,
    done: Done<T>,
) -> Result<Phase<T>, PhaseFault>
    requires idle { All (λ lane. count ≤ lane.number - 1) idle.items }
    ensures numbers { (before : ℕ → Keeping) (i low : ℕ) → low ≤ number → All (λ r. IfOk r (IsServed M.means Q.reply Q.head Q.key Q.body before i low acts.now)) all.items
        → IfOk result (λ p. (numbers : List ℕ) (hits : ℕ) (text : List ℕ) → IsTold p.rows.items p.lines.items acts.now numbers hits text → NumbersFit low number (lanes_asked acts.now) numbers) }
    ensures text { (before : ℕ → Keeping) (i low : ℕ) → low ≤ number → All (λ r. IfOk r (IsServed M.means Q.reply Q.head Q.key Q.body before i low acts.now)) all.items
        → IfOk result (λ p. (numbers : List ℕ) (hits : ℕ) (text : List ℕ) → IsTold p.rows.items p.lines.items acts.now numbers hits text
        → (every : List T) → ((n : ℕ) → n ≤ number → HasMeant M.means every n) → (asked : List Q) → AreReady Q.key Q.body every asked before acts.now
        → text ≡ acts_text Q.reply every i numbers (map (λ l. l.items) done.lines.items) acts.now) }
    ensures kept { (before : ℕ → Keeping) (i low : ℕ) → low ≤ number → All (λ r. IfOk r (IsServed M.means Q.reply Q.head Q.key Q.body before i low acts.now)) all.items → KeepAs before idle.items
        → IfOk result (λ p. (numbers : List ℕ) (hits : ℕ) (text : List ℕ) → IsTold p.rows.items p.lines.items acts.now numbers hits text → (every : List T) → ((n : ℕ) → n ≤ number → HasMeant M.means every n)
        → (hits ≡ hits_in Q.key Q.body every before numbers acts.now) × KeepAs (keeping_behind Q.key Q.body every before numbers acts.now) (map (λ row. row.lane) p.rows.items ++ p.idle.items)) }
    ensures last { IfOk result (λ p. p.last ≡ done.last) }
    ensures memory { IfErr result (λ fault. fault ≡ PhaseFault.Memory) }
{
    let rows = gather::<T, M, C, Q>(alloc, all, number)?;
    let rows = in_order::<T, M, C, Q>(alloc, rows, count)?;
    Ok(Phase {
        rows,
        lines: done.lines,
        last: done.last,
        idle,
    })
}

/// The lanes beside the commands, joined.
fn side_by_side<
    T: Send + Sync + Drop,
    M: Meaning<T> + Sync,
    C: Command<T> + Drop,
    Q: Wanted<T> + Drop,
    A: Fn(&Q, Vec<u8>, &T) -> Result<Vec<u8>, Memory> + Sync,
    G: Gate + Sync,
    R: Threads + Wait + Sync,
    W: Wait + Drop,
>(
    rt: &R,
    alloc: Global,
    gate: &G,
    reply: &A,
    publisher: Publisher<T, M, W>,
    jobs: Vec<(Visitor<T, M>, Vec<Lane>)>,
    last: Option<Arc<T>>,
    acts: &[Act<C, Q>],
    command: u32,
    ask: u32,
) -> (
    Result<Vec<Result<Served, Memory>>, AllocError>,
    (Publisher<T, M, W>, Result<Done<T>, PhaseFault>),
)
    requires replies { BodiesBy A.Fn Q.body reply.now }
    requires ready { IsReady publisher }
    requires asks { ask + length acts.now < 2 ^ 32 }
    requires commands { command + length acts.now < 2 ^ 32 }
    requires meant { EachMeans M.means (published publisher) (made C.outcome (option_map arc_value last) acts.now) }
    ensures served { (low : ℕ) (before : ℕ → Keeping) → All (λ job. (job.0.number ≡ low) × KeepAs before job.1.items) jobs.items
        → IfOk result.0 (λ all. All (λ r. IfOk r (IsServed M.means Q.reply Q.head Q.key Q.body before ask low acts.now)) all.items) }
    ensures ready { IsReady result.1.0 }
    ensures grows { published publisher ≤ published result.1.0 }
    ensures count { OnOk result.1.1 (published result.1.0 ≡ published publisher + length (made C.outcome (option_map arc_value last) acts.now)) }
    ensures last { IfOk result.1.1 (λ done. option_map arc_value done.last ≡ last_of_acts C.outcome (option_map arc_value last) acts.now) }
    ensures lines { IfOk result.1.1 (λ done. map (λ l. l.items) done.lines.items ≡ command_lines C.outcome C.line command (published publisher) (option_map arc_value last) acts.now) }
    ensures full { IfErr result.1.1 (FullOnlyIf (max_publishing < published publisher + command_count acts.now)) }
{
    join(
        rt,
        move || -> Result<Vec<Result<Served, Memory>>, AllocError>
            requires { BodiesBy A.Fn Q.body reply.now × (ask + length acts.now < 2 ^ 32) }
            ensures { (low : ℕ) (before : ℕ → Keeping) → All (λ job. (job.0.number ≡ low) × KeepAs before job.1.items) jobs.items
                → IfOk result (λ all. All (λ r. IfOk r (IsServed M.means Q.reply Q.head Q.key Q.body before ask low acts.entry.now)) all.items) }
        { serve_all(rt, alloc, gate, reply, jobs, acts, ask) },
        move || -> (Publisher<T, M, W>, Result<Done<T>, PhaseFault>)
            requires { IsReady publisher × (command + length acts.now < 2 ^ 32) × EachMeans M.means (published publisher) (made C.outcome (option_map arc_value last) acts.now) }
            ensures ready { IsReady result.0 }
            ensures grows { published publisher ≤ published result.0 }
            ensures count { OnOk result.1 (published result.0 ≡ published publisher + length (made C.outcome (option_map arc_value last) acts.entry.now)) }
            ensures last { IfOk result.1 (λ done. option_map arc_value done.last ≡ last_of_acts C.outcome (option_map arc_value last) acts.entry.now) }
            ensures lines { IfOk result.1 (λ done. map (λ l. l.items) done.lines.items ≡ command_lines C.outcome C.line command (published publisher) (option_map arc_value last) acts.entry.now) }
            ensures full { IfErr result.1 (FullOnlyIf (max_publishing < published publisher + command_count acts.entry.now)) }
        { publish_all(rt, alloc, gate, publisher, last, acts, command) },
    )
}

/// Carries out the commands beside the lanes, joins them, and answers each ask from what its one pin gave, or by what its lane kept
/// of that. The texts stay where they were made until they are written.
///
/// `reply` puts the body of the reply to a question, from the item that was pinned, behind the reply's head. `command` and `ask` are
/// the numbers of the first of them. A visitor that saw more than the publisher's number is answered as want of memory, and so are
/// lanes whose numbers don't ascend.
pub(crate) fn run_phase<
    T: Send + Sync + Drop,
    M: Meaning<T> + Sync,
    C: Command<T> + Drop,
    Q: Wanted<T> + Drop,
    A: Fn(&Q, Vec<u8>, &T) -> Result<Vec<u8>, Memory> + Sync,
    G: Gate + Sync,
    R: Threads + Wait + Sync,
    W: Wait + Drop,
>(
    rt: &R,
    alloc: Global,
    gate: &G,
    reply: &A,
    publisher: Publisher<T, M, W>,
    last: Option<Arc<T>>,
    lanes: Vec<Lane>,
    acts: &[Act<C, Q>],
    command: u32,
    ask: u32,
) -> (Publisher<T, M, W>, Result<Phase<T>, PhaseFault>)
    requires replies { BodiesBy A.Fn Q.body reply.now }
    requires ready { IsReady publisher }
    requires room { (command + length acts.now < 2 ^ 32) × (ask + length acts.now < 2 ^ 32) }
    requires meant { EachMeans M.means (published publisher) (made C.outcome (option_map arc_value last) acts.now) }
    ensures ready { IsReady result.0 }
    ensures count { OnOk result.1 (published result.0 ≡ published publisher + length (made C.outcome (option_map arc_value last) acts.now)) }
    ensures last { IfOk result.1 (λ p. option_map arc_value p.last ≡ last_of_acts C.outcome (option_map arc_value last) acts.now) }
    ensures numbers { IfOk result.1 (λ p. (numbers : List ℕ) (hits : ℕ) (text : List ℕ) → IsTold p.rows.items p.lines.items acts.now numbers hits text
        → NumbersFit (published publisher) (published result.0) (lanes_asked acts.now) numbers) }
    ensures text { (before : ℕ → Keeping) → KeepAs before lanes.items
        → IfOk result.1 (λ p. (numbers : List ℕ) (hits : ℕ) (text : List ℕ) → IsTold p.rows.items p.lines.items acts.now numbers hits text
        → (every : List T) → ((n : ℕ) → n ≤ published result.0 → HasMeant M.means every n) → (asked : List Q) → AreReady Q.key Q.body every asked before acts.now
        → text ≡ acts_text Q.reply every ask numbers (command_lines C.outcome C.line command (published publisher) (option_map arc_value last) acts.now) acts.now) }
    ensures kept { (before : ℕ → Keeping) → KeepAs before lanes.items
        → IfOk result.1 (λ p. (numbers : List ℕ) (hits : ℕ) (text : List ℕ) → IsTold p.rows.items p.lines.items acts.now numbers hits text → (every : List T) → ((n : ℕ) → n ≤ published result.0 → HasMeant M.means every n)
        → (hits ≡ hits_in Q.key Q.body every before numbers acts.now) × KeepAs (keeping_behind Q.key Q.body every before numbers acts.now) (map (λ row. row.lane) p.rows.items ++ p.idle.items)) }
    ensures full { IfErr result.1 (FullOnlyIf (max_publishing < published publisher + command_count acts.now)) }
{
    let mut publisher = publisher;
    if !are_ascending(&lanes) {
        return (publisher, Err(PhaseFault::Memory));
    }
    let count = lane_count(acts);
    let visitors = match visitors_for(alloc, &mut publisher, count) {
        Ok(visitors) => visitors,
        Err(_) => return (publisher, Err(PhaseFault::Memory)),
    };
    let Jobs { jobs, idle } = match jobs_for(alloc, visitors, lanes, count) {
        Ok(jobs) => jobs,
        Err(_) => return (publisher, Err(PhaseFault::Memory)),
    };
    let (served, (publisher, done)) = side_by_side(
        rt, alloc, gate, reply, publisher, jobs, last, acts, command, ask,
    );
    let Ok(served) = served else {
        return (publisher, Err(PhaseFault::Memory));
    };
    let done = match done {
        Ok(done) => done,
        Err(fault) => return (publisher, Err(fault)),
    };
    let number = publisher.number();
    let phase = finish::<T, M, C, Q>(alloc, acts, number, count, served, idle, done);
    (publisher, phase)
}
