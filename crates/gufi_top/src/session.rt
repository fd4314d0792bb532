//! `session`: the phases of a script, over files that are read as they come.
ghost use Rattle.std.specs.Prelude.{◌≡◌, ◌≢◌, ◌≤◌, ◌+◌, List, Err, IfErr, IfOk, IsTrue, option_map};
ghost use Rattle.gufi_io.specs.Calls.{one_more};
ghost use Rattle.gufi_io.specs.Kept.{Keeps};
ghost use Rattle.gufi_script.specs.ScriptText.{PlacedAct, is_script};
ghost use Rattle.gufi_plan.specs.Plan.{Plan};
ghost use Rattle.gufi_top.specs.Reasons.{script_reason, stop_reason, named_count, acts_within, acts_in};
ghost use Rattle.gufi_top.specs.Verdict.{plan_with, script_plan, session_plan, run_over, session_over};
ghost use Rattle.gufi_top.specs.Calls.{Gives, GivesOver, IsOfBytes, IsPastWords, HaltHasCause, Opens};
ghost use Rattle.gufi_top.specs.Ends.{hits_note};
ghost use Rattle.gufi_top.specs.Endings.{HasRun, StopTells, DoneTells, EndTells};

use crate::ending::{Outcome, halted, tell};
use crate::halt::{Halt, refused};
use crate::note;
use crate::reading::{MAX_TRACE, read_file};
use crate::users::read_users;
use gufi_base::Text;
use gufi_io::{Gate, Shelf, Sink, write_whole};
use gufi_phases::{End, Ended, Stop};
use gufi_plan::{SessionPlan, Setup, plan_session};
use gufi_script::{Script, ScriptError, ScriptKind, read_script};
use gufi_session::run_session;
use std::alloc::{AllocError, Global};
use std::sync::Wait;
use std::thread::Threads;

/// How many bytes a script may have.
const MAX_SCRIPT: u32 = 16_777_216;

/// What the command names.
#[derive(Clone, Copy)]
pub(crate) struct Session<'a> {
    pub(crate) passwd: &'a Option<Text>,
    pub(crate) group: &'a Option<Text>,
    /// The byte between the fields of a trace.
    pub(crate) delim: u8,
    /// By how many a search is answered.
    pub(crate) workers: u32,
    /// From which times count back, in seconds.
    pub(crate) moment: Option<i64>,
    /// How many of its last replies each lane keeps, at most 256; 0 for none.
    pub(crate) cache: u32,
    pub(crate) script: &'a Text,
}

/// What is told of a session whose phases are all written.
#[derive(Clone, Copy)]
struct Tally {
    /// How many of its last replies each lane kept; 0 for none.
    cache: u32,
    /// How many asks were answered by what their lanes kept.
    hits: u64,
    asks: u64,
}

// A script isn't taken: a line is faulty, or a limit is passed.
#[tactic(auto, unfolding(crate::specs::Reasons::script_reason))]
fn refuse_line<T>(alloc: Global, name: &str, line: u32, kind: ScriptKind) -> Result<T, Halt>
    ensures reason { Gives (λ (x : T). x) result (Err (script_reason name.now (ScriptError.Fault line kind))) }
    ensures of_bytes { IfErr result IsOfBytes }
    ensures past_words { IfErr result IsPastWords }
{
    if let ScriptKind::TooMany { limit } = kind {
        return refused(6, note::past_limit(alloc, name, limit)?);
    }
    refused(5, note::script_line(alloc, name, line, kind)?)
}

// The acts of a script.
fn acts_of(alloc: Global, name: &str, bytes: &[u8]) -> Result<Script, Halt>
    ensures acts { Gives (λ (acts : List PlacedAct). acts) result (acts_within name.now bytes.now) }
    ensures sound { IfOk result (λ script. IsTrue (is_script script)) }
    ensures of_bytes { IfErr result IsOfBytes }
    ensures past_words { IfErr result IsPastWords }
{
    match read_script(alloc, bytes) {
        Ok(script) => Ok(script),
        Err(ScriptError::Fault { line, kind }) => refuse_line(alloc, name, line, kind),
        Err(ScriptError::Memory) => Err(Halt::Memory),
    }
}

// The acts of the script in a file.
#[tactic(auto, using(crate::proofs::SessionLemmas::scripts, crate::proofs::StepLemmas::cause_later, crate::proofs::StepLemmas::cause_of_bytes))]
fn read_acts<F: Shelf>(alloc: Global, shelf: &mut F, name: &str) -> Result<Script, Halt>
    ensures acts { GivesOver (F.files shelf.old) (λ (acts : List PlacedAct). acts) result (acts_in name.now) }
    ensures sound { IfOk result (λ script. IsTrue (is_script script)) }
    ensures past_words { IfErr result IsPastWords }
    ensures cause { IfErr result (HaltHasCause F.Shelf shelf.old shelf.new) }
    ensures opens { F.opens shelf.new ≡ one_more (F.opens shelf.old) }
    ensures kept { Keeps F.Shelf shelf.old shelf.new }
{
    match read_file(alloc, shelf, name, MAX_SCRIPT) {
        Ok(bytes) => acts_of(alloc, name, &bytes),
        Err(halt) => Err(halt),
    }
}

// The plan of acts: a user and a query of each ask, in line order.
fn plan_of(
    alloc: Global,
    name: &str,
    script: Script,
    setup: &Setup<'_>,
) -> Result<SessionPlan, Halt>
    requires { IsTrue (is_script script) }
    ensures plan { Gives (λ (plan : Plan). plan) result (plan_with (record { tables = setup.entry.now.users.now; now = setup.entry.now.now; delim = setup.entry.now.delim }) name.now script) }
    ensures of_bytes { IfErr result IsOfBytes }
    ensures past_words { IfErr result IsPastWords }
{
    match plan_session(alloc, script, setup) {
        Ok(plan) => Ok(plan),
        Err(ScriptError::Fault { line, kind }) => refuse_line(alloc, name, line, kind),
        Err(ScriptError::Memory) => Err(Halt::Memory),
    }
}

// The plan of the script in a file.
#[tactic(auto, using(crate::proofs::SessionLemmas::scripts, crate::proofs::StepLemmas::cause_later, crate::proofs::StepLemmas::cause_of_bytes))]
fn read_script_plan<F: Shelf>(
    alloc: Global,
    shelf: &mut F,
    name: &str,
    setup: &Setup<'_>,
) -> Result<SessionPlan, Halt>
    ensures plan { GivesOver (F.files shelf.old) (λ (plan : Plan). plan) result (script_plan (record { tables = setup.entry.now.users.now; now = setup.entry.now.now; delim = setup.entry.now.delim }) name.now) }
    ensures past_words { IfErr result IsPastWords }
    ensures cause { IfErr result (HaltHasCause F.Shelf shelf.old shelf.new) }
    ensures opens { F.opens shelf.new ≡ one_more (F.opens shelf.old) }
    ensures kept { Keeps F.Shelf shelf.old shelf.new }
{
    match read_acts(alloc, shelf, name) {
        Ok(script) => plan_of(alloc, name, script, setup),
        Err(halt) => Err(halt),
    }
}

// The plan that the command asks for: the files are read in the order passwd, group and script.
#[tactic(auto, using(crate::proofs::SessionLemmas::scripts, crate::proofs::StepLemmas::cause_later))]
fn read_plan<F: Shelf>(
    alloc: Global,
    shelf: &mut F,
    session: &Session<'_>,
) -> Result<SessionPlan, Halt>
    ensures plan { GivesOver (F.files shelf.old) (λ (plan : Plan). plan) result
        (session_plan session.entry.now.passwd.now session.entry.now.group.now session.entry.now.delim session.entry.now.moment session.entry.now.script.now) }
    ensures past_words { IfErr result IsPastWords }
    ensures cause { IfErr result (HaltHasCause F.Shelf shelf.old shelf.new) }
    ensures opens { Opens F.Shelf result (named_count session.entry.now.passwd.now + (named_count session.entry.now.group.now + 1)) shelf.old shelf.new }
    ensures kept { Keeps F.Shelf shelf.old shelf.new }
{
    match read_users(alloc, shelf, session.passwd, session.group) {
        Ok(users) => {
            let setup = Setup {
                users: &users,
                now: session.moment,
                delim: session.delim,
            };
            let plan = read_script_plan(alloc, shelf, session.script.as_str(), &setup);
            drop(users);
            plan
        }
        Err(halt) => Err(halt),
    }
}

fn stop_status(stop: &Stop) -> u8
    ensures { result ≡ (stop_reason stop.now).status }
{
    match stop {
        Stop::NoFile { .. } => 8,
        Stop::TooLong { .. } => 6,
    }
}

fn stop_note(alloc: Global, stop: &Stop) -> Result<Vec<u8>, AllocError>
    ensures { IfOk result (λ note. note.items ≡ (stop_reason stop.now).note) }
{
    match stop {
        Stop::NoFile { file } => note::not_found(alloc, file.as_str()),
        Stop::TooLong { file } => note::past_limit(alloc, file.as_str(), MAX_TRACE),
    }
}

// Writes the note of the file at which a session ends, and gives its status.
fn tell_stop<K: Sink>(alloc: Global, stop: &Stop, notes: &mut K) -> u8
    ensures { StopTells K.Sink stop.now result notes.old notes.new }
{
    match stop_note(alloc, stop) {
        Ok(note) => {
            tell(notes, &note);
            stop_status(stop)
        }
        Err(_) => {
            tell(notes, note::memory());
            7
        }
    }
}

// Writes the note of a session whose phases are all written, if there is one, and gives the status.
fn tell_done<K: Sink>(alloc: Global, tally: Tally, notes: &mut K) -> u8
    ensures { DoneTells K.Sink (hits_note tally.cache tally.hits tally.asks) result notes.old notes.new }
{
    if tally.cache == 0 {
        return 0;
    }
    match note::cache_hits(alloc, tally.hits, tally.asks) {
        Ok(note) => match write_whole(notes, &note) {
            Ok(()) => 0,
            Err(_) => 4,
        },
        Err(_) => {
            tell(notes, note::memory());
            7
        }
    }
}

// Writes the note of a session's end, and gives its status.
fn tell_end<K: Sink>(alloc: Global, end: End, tally: Tally, notes: &mut K) -> u8
    requires { end ≢ End.Full }
    ensures { EndTells K.Sink (hits_note tally.cache tally.hits tally.asks) end result notes.old notes.new }
{
    match end {
        End::Done => tell_done(alloc, tally, notes),
        End::Stopped { stop } => tell_stop(alloc, &stop, notes),
        End::ReadFault => {
            tell(notes, note::read_fault());
            3
        }
        End::WriteFault => {
            tell(notes, note::write_fault());
            4
        }
        // No plan has more publishing commands than may be published.
        End::Full => unreachable!(),
        End::Memory => {
            tell(notes, note::memory());
            7
        }
    }
}

// Runs a plan.
fn run_plan<R: Threads + Wait + Sync, F: Shelf, K: Sink, G: Gate + Sync>(
    rt: &R,
    alloc: Global,
    plan: &SessionPlan,
    workers: u32,
    cache: u32,
    shelf: &mut F,
    out: &mut K,
    notes: &mut K,
    gate: &G,
) -> Outcome
    requires { cache ≤ 256 }
    ensures run { HasRun F.Shelf K.Sink 0 (option_map (run_over cache plan.now) (F.files shelf.old)) result.status result.numbers.items shelf.old shelf.new out.old out.new notes.old notes.new }
    ensures past_words { result.status ≢ 2 }
{
    let Ended { end, numbers, hits } = run_session(
        rt, alloc, plan, workers, cache, shelf, out, gate,
    );
    let asks = numbers.len() as u64;
    let tally = Tally { cache, hits, asks };
    let status = tell_end(alloc, end, tally, notes);
    Outcome { status, numbers }
}

/// Does all that the command asks: reads the users and the script, and then runs it, phase by phase.
pub(crate) fn run<R: Threads + Wait + Sync, F: Shelf, K: Sink, G: Gate + Sync>(
    rt: &R,
    alloc: Global,
    session: &Session<'_>,
    shelf: &mut F,
    out: &mut K,
    notes: &mut K,
    gate: &G,
) -> Outcome
    requires { session.now.cache ≤ 256 }
    ensures run { HasRun F.Shelf K.Sink (named_count session.entry.now.passwd.now + (named_count session.entry.now.group.now + 1))
        (option_map (session_over session.entry.now.passwd.now session.entry.now.group.now session.entry.now.delim session.entry.now.moment session.entry.now.cache session.entry.now.script.now) (F.files shelf.old))
        result.status result.numbers.items shelf.old shelf.new out.old out.new notes.old notes.new }
    ensures past_words { result.status ≢ 2 }
{
    match read_plan(alloc, shelf, session) {
        Ok(plan) => {
            let Session { workers, cache, .. } = *session;
            let outcome = run_plan(rt, alloc, &plan, workers, cache, shelf, out, notes, gate);
            drop(plan);
            outcome
        }
        Err(halt) => halted(alloc, halt, notes),
    }
}
