//! What the publishing thread of a phase does.
ghost use Rattle.std.specs.Prelude.{◌≡◌, ◌+◌, ◌<◌, ◌≤◌, ◌^◌, List, map, length, IfErr, IfOk, OnOk, option_map};
ghost use Rattle.std.specs.Arc.{arc_value};
ghost use Rattle.gufi_base.specs.Limits.{max_publishing};
ghost use Rattle.gufi_hub.specs.Hub.{IsReady, published};
ghost use Rattle.gufi_phases.specs.Made.{FullOnlyIf};
ghost use Rattle.gufi_phases.specs.Phases.{EachMeans, command_count, command_lines, commands_in, last_after, last_behind, last_of_acts, line_of, made, news, news_of, numbered};

use crate::act::{Act, Command, Made};
use gufi_base::Memory;
use gufi_hub::{Meaning, PublishFault, Publisher};
use gufi_io::{Gate, GateKind};
use std::alloc::{AllocError, AllocFailed, Global};
use std::sync::{Arc, Wait};

/// Why a phase isn't carried out.
#[derive(Drop)]
pub(crate) enum PhaseFault {
    /// There is one more item than may be published.
    Full,
    Memory,
}

impl From<Memory> for PhaseFault {
    ghost use Rattle.gufi_phases.specs.declared.publish.PhaseFault.TheVariants.{Memory};

    ghost from_gives = { λ _ fault. fault ≡ Memory };

    fn from(_: Memory) -> PhaseFault {
        PhaseFault::Memory
    }
}

impl From<AllocError> for PhaseFault {
    ghost use Rattle.gufi_phases.specs.declared.publish.PhaseFault.TheVariants.{Memory};

    ghost from_gives = { λ _ fault. fault ≡ Memory };

    fn from(_: AllocError) -> PhaseFault {
        PhaseFault::Memory
    }
}

impl<T: Drop> From<AllocFailed<T>> for PhaseFault {
    ghost use Rattle.gufi_phases.specs.declared.publish.PhaseFault.TheVariants.{Memory};

    ghost from_gives = { λ _ fault. fault ≡ Memory };

    fn from(_: AllocFailed<T>) -> PhaseFault {
        PhaseFault::Memory
    }
}

/// Carries out one command: its line. The last publication is then its own, where it has one.
fn publish_one<T: Drop, M: Meaning<T>, C: Command<T>, R: Wait, W: Wait + Drop>(
    rt: &R,
    alloc: Global,
    publisher: &mut Publisher<T, M, W>,
    last: &mut Option<Arc<T>>,
    command: &C,
    number: u32,
) -> Result<Vec<u8>, PhaseFault>
    requires ready { IsReady publisher.old }
    requires meant { EachMeans M.means (published publisher.old) (news (C.outcome command.now (option_map arc_value last.old))) }
    ensures ready { IsReady publisher.new }
    ensures grows { published publisher.old ≤ published publisher.new }
    ensures count { OnOk result (published publisher.new ≡ published publisher.old + length (news (C.outcome command.now (option_map arc_value last.old)))) }
    ensures last { OnOk result (option_map arc_value last.new ≡ last_behind (option_map arc_value last.old) (C.outcome command.now (option_map arc_value last.old))) }
    ensures line { IfOk result (λ text. text.items ≡ C.line command.now number (numbered (published publisher.old) (C.outcome command.now (option_map arc_value last.old)))) }
    ensures full { IfErr result (FullOnlyIf (max_publishing ≤ published publisher.old)) }
{
    match command.carry_out(alloc, last)? {
        Made::Refused { text } => Ok(command.refused_line(alloc, number, &text)?),
        Made::Added { item } => {
            let item = Arc::new(alloc, item)?;
            let kept = Arc::try_clone(&item)?;
            match publisher.publish(rt, item) {
                Ok(published) => {
                    *last = Some(kept);
                    Ok(command.added_line(alloc, number, published)?)
                }
                Err(PublishFault::Full { .. }) => Err(PhaseFault::Full),
                Err(PublishFault::Memory { .. }) => Err(PhaseFault::Memory),
            }
        }
    }
}

/// Carries out one act, if it is a command.
fn publish_act<
    T: Drop,
    M: Meaning<T>,
    C: Command<T> + Drop,
    Q: Drop,
    G: Gate,
    R: Wait,
    W: Wait + Drop,
>(
    rt: &R,
    alloc: Global,
    gate: &G,
    publisher: &mut Publisher<T, M, W>,
    last: &mut Option<Arc<T>>,
    act: &Act<C, Q>,
    number: u32,
) -> Result<Vec<u8>, PhaseFault>
    requires ready { IsReady publisher.old }
    requires meant { EachMeans M.means (published publisher.old) (news_of C.outcome (option_map arc_value last.old) act.now) }
    ensures ready { IsReady publisher.new }
    ensures grows { published publisher.old ≤ published publisher.new }
    ensures count { OnOk result (published publisher.new ≡ published publisher.old + length (news_of C.outcome (option_map arc_value last.old) act.now)) }
    ensures last { OnOk result (option_map arc_value last.new ≡ last_after C.outcome (option_map arc_value last.old) act.now) }
    ensures line { IfOk result (λ text. text.items ≡ line_of C.outcome C.line number (published publisher.old) (option_map arc_value last.old) act.now) }
    ensures full { IfErr result (FullOnlyIf (max_publishing < published publisher.old + commands_in act.now)) }
{
    match act {
        Act::Publish { command } => {
            gate.begin(GateKind::Publish, number);
            publish_one(rt, alloc, publisher, last, command, number)
        }
        Act::Ask { .. } => Ok(Vec::new(alloc)),
    }
}

pub(crate) fn commands_in<C: Drop, Q: Drop>(act: &Act<C, Q>) -> u32
    ensures count { result ≡ commands_in act.now }
    ensures few { result ≤ 1 }
{
    match act {
        Act::Publish { .. } => 1,
        Act::Ask { .. } => 0,
    }
}

/// Carries out the commands in order, of which `first` is the number of the first. For each act a line, which is empty for an ask.
fn publish_acts<
    T: Drop,
    M: Meaning<T>,
    C: Command<T> + Drop,
    Q: Drop,
    G: Gate,
    R: Wait,
    W: Wait + Drop,
>(
    rt: &R,
    alloc: Global,
    gate: &G,
    publisher: &mut Publisher<T, M, W>,
    last: &mut Option<Arc<T>>,
    acts: &[Act<C, Q>],
    first: u32,
) -> Result<Vec<Vec<u8>>, PhaseFault>
    requires ready { IsReady publisher.old }
    requires room { first + length acts.now < 2 ^ 32 }
    requires meant { EachMeans M.means (published publisher.old) (made C.outcome (option_map arc_value last.old) acts.now) }
    ensures ready { IsReady publisher.new }
    ensures grows { published publisher.old ≤ published publisher.new }
    ensures count { OnOk result (published publisher.new ≡ published publisher.old + length (made C.outcome (option_map arc_value last.old) acts.now)) }
    ensures last { OnOk result (option_map arc_value last.new ≡ last_of_acts C.outcome (option_map arc_value last.old) acts.now) }
    ensures lines { IfOk result (λ lines. map (λ l. l.items) lines.items ≡ command_lines C.outcome C.line first (published publisher.old) (option_map arc_value last.old) acts.now) }
    ensures full { IfErr result (FullOnlyIf (max_publishing < published publisher.old + command_count acts.now)) }
{
    let mut lines = Vec::with_capacity(alloc, acts.len())?;
    let mut number = first;
    for act in acts {
        let line = publish_act(rt, alloc, gate, publisher, last, act, number)?;
        lines.push(line)?;
        number = number + commands_in(act);
    }
    Ok(lines)
}

/// What the publishing thread comes to: for each act a line, which is empty for an ask, and the last publication.
#[derive(Drop)]
pub(crate) struct Done<T: Drop> {
    pub(crate) lines: Vec<Vec<u8>>,
    pub(crate) last: Option<Arc<T>>,
}

/// Carries out the commands in order, of which `first` is the number of the first.
pub(crate) fn publish_all<
    T: Drop,
    M: Meaning<T>,
    C: Command<T> + Drop,
    Q: Drop,
    G: Gate,
    R: Wait,
    W: Wait + Drop,
>(
    rt: &R,
    alloc: Global,
    gate: &G,
    publisher: Publisher<T, M, W>,
    last: Option<Arc<T>>,
    acts: &[Act<C, Q>],
    first: u32,
) -> (Publisher<T, M, W>, Result<Done<T>, PhaseFault>)
    requires ready { IsReady publisher }
    requires room { first + length acts.now < 2 ^ 32 }
    requires meant { EachMeans M.means (published publisher) (made C.outcome (option_map arc_value last) acts.now) }
    ensures ready { IsReady result.0 }
    ensures grows { published publisher ≤ published result.0 }
    ensures count { OnOk result.1 (published result.0 ≡ published publisher + length (made C.outcome (option_map arc_value last) acts.now)) }
    ensures last { IfOk result.1 (λ done. option_map arc_value done.last ≡ last_of_acts C.outcome (option_map arc_value last) acts.now) }
    ensures lines { IfOk result.1 (λ done. map (λ l. l.items) done.lines.items ≡ command_lines C.outcome C.line first (published publisher) (option_map arc_value last) acts.now) }
    ensures full { IfErr result.1 (FullOnlyIf (max_publishing < published publisher + command_count acts.now)) }
{
    let (mut publisher, mut last) = (publisher, last);
    match publish_acts(rt, alloc, gate, &mut publisher, &mut last, acts, first) {
        Ok(lines) => (publisher, Ok(Done { lines, last })),
        Err(fault) => (publisher, Err(fault)),
    }
}
