//! The files of a phase.
ghost use Rattle.std.specs.Prelude.{◌≡◌, ◌≤◌, ◌+◌, Some, length, IfOk, IfErr, OnOk};
ghost use Rattle.gufi_base.specs.Limits.{max_trace};
ghost use Rattle.gufi_io.specs.Calls.{one_more};
ghost use Rattle.gufi_io.specs.Files.{Files, Holds};
ghost use Rattle.gufi_io.specs.Kept.{Keeps};
ghost use Rattle.gufi_phases.specs.Phases.{commands_in, command_count};
ghost use Rattle.gufi_phases.specs.Loads.{LoadsAs, BreaksIf, LoadFaultHasCause};
ghost use Rattle.gufi_plan.specs.Bounds.{publishing_in, publishing_among};
ghost use Rattle.gufi_session.specs.Loaded.{load_phase};
ghost use Rattle.gufi_session.specs.Loading.{ReadsAs, ActLoadsAs, FailsToRead, ActReads, ActBreaks, PhaseReads, PhaseBreaks};
ghost use Rattle.gufi_session.specs.Run.{named_file};

use crate::publishing::Publishing;
use crate::reply::Asking;
use gufi_base::{Bytes, Items, Text};
use gufi_io::{ReadError, Shelf, read_all};
use gufi_phases::{Act, Load, LoadFault, Stop};
use gufi_plan::PlannedAct;
use std::alloc::{AllocError, Global};

/// How many bytes the files of a phase may have together.
const MAX_TRACE: u32 = 536_870_912;

/// A name, in memory of its own.
fn copy_of(alloc: Global, name: &Text) -> Result<Text, AllocError>
    ensures { IfOk result (λ copy. copy ≡ name.now) }
{
    Ok(Text::of(String::from_str(alloc, name.as_str())?))
}

/// Reads a file whole, where the files of its phase had so many bytes before.
fn read_file<F: Shelf>(
    alloc: Global,
    shelf: &mut F,
    file: &Text,
    before: u32,
) -> Result<Vec<u8>, LoadFault>
    requires { before ≤ max_trace }
    ensures told { (files : Files) → F.files shelf.old ≡ Some files → ReadsAs before file.now (files file.now) result }
    ensures whole { IfOk result (λ bytes. Holds (F.files shelf.old) file.now bytes.items) }
    ensures within { IfOk result (λ bytes. before + length bytes.items ≤ max_trace) }
    ensures breaks { IfErr result (BreaksIf (FailsToRead F.Shelf shelf.old shelf.new)) }
    ensures opens { F.opens shelf.new ≡ one_more (F.opens shelf.old) }
    ensures cause { IfErr result (LoadFaultHasCause F.Shelf shelf.old shelf.new) }
    ensures kept { Keeps F.Shelf shelf.old shelf.new }
{
    match read_all(alloc, shelf, file.as_str(), MAX_TRACE - before) {
        Ok(bytes) => Ok(bytes),
        Err(ReadError::NoFile) => match copy_of(alloc, file) {
            Ok(file) => Err(LoadFault::Stopped {
                stop: Stop::NoFile { file },
            }),
            Err(_) => Err(LoadFault::Memory),
        },
        Err(ReadError::TooLong { .. }) => match copy_of(alloc, file) {
            Ok(file) => Err(LoadFault::Stopped {
                stop: Stop::TooLong { file },
            }),
            Err(_) => Err(LoadFault::Memory),
        },
        Err(ReadError::ReadFault) => Err(LoadFault::ReadFault),
        Err(ReadError::Memory) => Err(LoadFault::Memory),
    }
}

/// Makes the act that is carried out, and counts the bytes of its file to those before.
fn load_act<F: Shelf>(
    alloc: Global,
    shelf: &mut F,
    act: &PlannedAct,
    before: u32,
) -> Result<(Act<Publishing, Asking>, u32), LoadFault>
    requires { before ≤ max_trace }
    ensures told { (files : Files) → F.files shelf.old ≡ Some files → ActLoadsAs files before act.now result }
    ensures within { IfOk result (λ step. step.1 ≤ max_trace) }
    ensures command { IfOk result (λ step. commands_in step.0 ≡ publishing_in act.now) }
    ensures reads { IfOk result (λ step. ActReads F.Shelf (named_file act.now) before step.1 shelf.old shelf.new) }
    ensures breaks { IfErr result (BreaksIf (ActBreaks F.Shelf (named_file act.now) shelf.old shelf.new)) }
    ensures cause { IfErr result (LoadFaultHasCause F.Shelf shelf.old shelf.new) }
    ensures kept { Keeps F.Shelf shelf.old shelf.new }
{
    match act {
        PlannedAct::Publish { delim, limit, file } => {
            let bytes = read_file(alloc, shelf, file, before)?;
            let after = before + bytes.len() as u32;
            let command = Publishing::Publish {
                delim: *delim,
                limit: *limit,
                trace: Bytes::of(bytes),
            };
            Ok((Act::Publish { command }, after))
        }
        PlannedAct::Rollup { limit } => {
            let command = Publishing::Rollup { limit: *limit };
            Ok((Act::Publish { command }, before))
        }
        PlannedAct::Refresh { delim, path, file } => {
            let bytes = read_file(alloc, shelf, file, before)?;
            let after = before + bytes.len() as u32;
            let Ok(at) = path.copy(alloc) else {
                return Err(LoadFault::Memory);
            };
            let command = Publishing::Refresh {
                delim: *delim,
                at,
                trace: Bytes::of(bytes),
            };
            Ok((Act::Publish { command }, after))
        }
        PlannedAct::Ask { lane, search } => {
            let Ok(search) = search.share() else {
                return Err(LoadFault::Memory);
            };
            let question = Asking { search };
            Ok((
                Act::Ask {
                    lane: *lane,
                    question,
                },
                before,
            ))
        }
    }
}

/// Makes the acts in order.
fn load_acts<F: Shelf>(
    alloc: Global,
    shelf: &mut F,
    phase: &[PlannedAct],
) -> Result<Vec<Act<Publishing, Asking>>, LoadFault>
    ensures told { (files : Files) → F.files shelf.old ≡ Some files → LoadsAs (load_phase phase.now files) result }
    ensures size { IfOk result (λ acts. length acts.items ≡ length phase.now) }
    ensures commands { IfOk result (λ acts. command_count acts.items ≡ publishing_among phase.now) }
    ensures reads { OnOk result (PhaseReads F.Shelf phase.now shelf.old shelf.new) }
    ensures breaks { IfErr result (BreaksIf (PhaseBreaks F.Shelf phase.now shelf.old shelf.new)) }
    ensures cause { IfErr result (LoadFaultHasCause F.Shelf shelf.old shelf.new) }
    ensures kept { Keeps F.Shelf shelf.old shelf.new }
{
    let Ok(mut acts) = Vec::with_capacity(alloc, phase.len()) else {
        return Err(LoadFault::Memory);
    };
    let mut before = 0;
    for act in phase {
        match load_act(alloc, shelf, act, before) {
            Ok((loaded, after)) => {
                let Ok(()) = acts.push(loaded) else {
                    return Err(LoadFault::Memory);
                };
                before = after;
            }
            Err(fault) => return Err(fault),
        }
    }
    Ok(acts)
}

impl<F: Shelf> Load<Publishing, Asking, F> for Items<PlannedAct> {
    ghost use Rattle.std.specs.Prelude.{length};
    ghost use Rattle.gufi_plan.specs.Bounds.{publishing_among};
    ghost use Rattle.gufi_session.specs.Loaded.{load_phase};
    ghost use Rattle.gufi_session.specs.Loading.{PhaseReads, PhaseBreaks};

    ghost loaded = { load_phase };

    ghost size = { λ phase. length phase };

    ghost commands = { publishing_among };

    ghost reads = { PhaseReads F.Shelf };

    ghost breaks = { PhaseBreaks F.Shelf };

    fn load(
        &self,
        alloc: Global,
        shelf: &mut F,
    ) -> Result<Vec<Act<Publishing, Asking>>, LoadFault> {
        load_acts(alloc, shelf, self.as_slice())
    }
}
