//! Publishing commands whose files were read.
ghost use Rattle.std.specs.Prelude.{◌≡◌, ◌++◌, ◌<◌, ◌^◌, Err, IfOk, OnOk, codes, decimal, length, option_map};
ghost use Rattle.std.specs.Arc.{arc_value};
ghost use Rattle.gufi_base.specs.Basics.{result_map_err};
ghost use Rattle.gufi_tree.specs.Build.{tree_of};
ghost use Rattle.gufi_trace.specs.TraceText.{trace_means, failure_text, of_line, of_tree};
ghost use Rattle.gufi_phases.specs.Made.{made_of};
ghost use Rattle.gufi_session.specs.Session.{published, rolled, refresh_fault_text, replaced, grafted};
ghost use Rattle.gufi_session.specs.Loaded.{as_result, verb_of};
ghost use Rattle.gufi_snap.specs.Refreshed.{refreshed};

use gufi_base::{Bytes, Memory, Path, put_u64};
use gufi_phases::{Command, Made};
use gufi_snap::{RefreshFault, Snapshot};
use gufi_trace::{TraceError, TraceFault, put_tree_fault, read_trace};
use gufi_tree::{Stanzas, Tree, TreeFault, build_stanzas};
use std::alloc::Global;
use std::sync::Arc;

/// A publishing command, with the bytes of its file.
#[derive(Drop)]
pub(crate) enum Publishing {
    Publish { delim: u8, limit: u64, trace: Bytes },
    Rollup { limit: u64 },
    Refresh { delim: u8, at: Path, trace: Bytes },
}

/// The refusal of a trace with a damaged line.
fn line_refusal(alloc: Global, fault: TraceFault) -> Result<Bytes, Memory>
    ensures { IfOk result (λ text. text ≡ failure_text (of_line (TraceError.Fault fault))) }
{
    let mut text = Vec::new(alloc);
    fault.put(&mut text)?;
    Ok(Bytes::of(text))
}

/// The refusal of a trace whose lines are no tree.
fn tree_refusal(alloc: Global, fault: TreeFault) -> Result<Bytes, Memory>
    ensures { IfOk result (λ text. text ≡ failure_text (of_tree fault)) }
{
    let mut text = Vec::new(alloc);
    put_tree_fault(&mut text, fault)?;
    Ok(Bytes::of(text))
}

/// The tree of a trace's lines, or the text of its refusal.
fn tree_of_lines(alloc: Global, stanzas: Stanzas) -> Result<Result<Tree, Bytes>, Memory>
    requires { length stanzas < 2 ^ 32 }
    ensures { IfOk result (λ read. read ≡ result_map_err failure_text (result_map_err of_tree (tree_of stanzas))) }
{
    match build_stanzas(alloc, stanzas) {
        Ok(tree) => Ok(Ok(tree)),
        Err(TreeFault::Memory) => Err(Memory),
        Err(fault) => Ok(Err(tree_refusal(alloc, fault)?)),
    }
}

/// The tree of a trace, or the text of its refusal.
#[tactic(auto, unfolding(gufi_trace::specs::TraceText::trace_means))]
fn tree_of_trace(alloc: Global, delim: u8, trace: &[u8]) -> Result<Result<Tree, Bytes>, Memory>
    ensures { IfOk result (λ read. read ≡ result_map_err failure_text (trace_means delim trace.now)) }
{
    match read_trace(alloc, delim, trace) {
        Ok(stanzas) => tree_of_lines(alloc, stanzas),
        Err(TraceError::Memory) => Err(Memory),
        Err(TraceError::Fault(fault)) => Ok(Err(line_refusal(alloc, fault)?)),
    }
}

/// The tree of a trace, rolled up under a limit.
fn publish_trace(
    alloc: Global,
    delim: u8,
    limit: u64,
    trace: &[u8],
) -> Result<Made<Snapshot>, Memory>
    ensures { IfOk result (λ made. made_of made ≡ as_result (published limit (trace_means delim trace.now))) }
{
    match tree_of_trace(alloc, delim, trace)? {
        Ok(tree) => Ok(Made::Added {
            item: Snapshot::build_uncounted(alloc, tree, limit)?,
        }),
        Err(text) => Ok(Made::Refused {
            text: text.into_vec(),
        }),
    }
}

/// The refusal of a command that needs a publication before it.
fn nothing_published(alloc: Global) -> Result<Made<Snapshot>, Memory>
    ensures { IfOk result (λ made. made_of made ≡ Err (codes "nothing")) }
{
    Ok(Made::Refused {
        text: Vec::from_slice(alloc, b"nothing")?,
    })
}

/// The last publication's tree under another limit.
fn roll_up(
    alloc: Global,
    limit: u64,
    last: &Option<Arc<Snapshot>>,
) -> Result<Made<Snapshot>, Memory>
    ensures { IfOk result (λ made. made_of made ≡ as_result (rolled limit (option_map arc_value last.now))) }
{
    match last {
        None => nothing_published(alloc),
        Some(last) => Ok(Made::Added {
            item: last.with_limit(alloc, limit)?,
        }),
    }
}

/// The word of a refusal.
fn refusal_word(fault: RefreshFault) -> &'static [u8]
    ensures { result.now ≡ refresh_fault_text fault }
{
    match fault {
        RefreshFault::NotThere => b"NotThere",
        RefreshFault::TooMany => b"TooMany",
        RefreshFault::TooDeep => b"TooDeep",
        RefreshFault::Memory => b"",
    }
}

/// A snapshot with the subtree at a path replaced by another tree.
fn replace(alloc: Global, last: &Snapshot, at: &Path, part: Tree) -> Result<Made<Snapshot>, Memory>
    ensures { IfOk result (λ made. made_of made ≡ as_result (replaced (refreshed last.now at.now part))) }
{
    match last.refresh_uncounted(alloc, at, part) {
        Ok(item) => Ok(Made::Added { item }),
        Err(RefreshFault::Memory) => Err(Memory),
        Err(fault) => Ok(Made::Refused {
            text: Vec::from_slice(alloc, refusal_word(fault))?,
        }),
    }
}

/// The last publication with the subtree at a path replaced by the tree of a trace, which is read first.
fn refresh(
    alloc: Global,
    delim: u8,
    at: &Path,
    trace: &[u8],
    last: &Option<Arc<Snapshot>>,
) -> Result<Made<Snapshot>, Memory>
    ensures { IfOk result (λ made. made_of made ≡ as_result (grafted at.now (trace_means delim trace.now) (option_map arc_value last.now))) }
{
    match tree_of_trace(alloc, delim, trace)? {
        Ok(part) => match last {
            None => nothing_published(alloc),
            Some(last) => replace(alloc, last, at, part),
        },
        Err(text) => Ok(Made::Refused {
            text: text.into_vec(),
        }),
    }
}

/// The verb of a command and its number.
fn line_head(alloc: Global, publishing: &Publishing, command: u32) -> Result<Vec<u8>, Memory>
    ensures { IfOk result (λ text. text.items ≡ verb_of publishing.now ++ decimal command) }
{
    let mut text = Vec::new(alloc);
    match publishing {
        Publishing::Publish { .. } => text.extend_from_slice(b"publish ")?,
        Publishing::Rollup { .. } => text.extend_from_slice(b"rollup ")?,
        Publishing::Refresh { .. } => text.extend_from_slice(b"refresh ")?,
    }
    put_u64(&mut text, u64::from(command))?;
    Ok(text)
}

impl Command<Snapshot> for Publishing {
    ghost use Rattle.gufi_session.specs.Loaded.{command_outcome, command_line};

    ghost outcome = { command_outcome };

    ghost line = { command_line };

    fn carry_out(
        &self,
        alloc: Global,
        last: &Option<Arc<Snapshot>>,
    ) -> Result<Made<Snapshot>, Memory> {
        match self {
            Publishing::Publish {
                delim,
                limit,
                trace,
            } => publish_trace(alloc, *delim, *limit, trace.as_slice()),
            Publishing::Rollup { limit } => roll_up(alloc, *limit, last),
            Publishing::Refresh { delim, at, trace } => {
                refresh(alloc, *delim, at, trace.as_slice(), last)
            }
        }
    }

    fn added_line(&self, alloc: Global, command: u32, number: u64) -> Result<Vec<u8>, Memory> {
        let mut text = line_head(alloc, self, command)?;
        text.extend_from_slice(b" number ")?;
        put_u64(&mut text, number)?;
        text.push(b'\n')?;
        Ok(text)
    }

    fn refused_line(&self, alloc: Global, command: u32, refusal: &[u8]) -> Result<Vec<u8>, Memory> {
        let mut text = line_head(alloc, self, command)?;
        text.extend_from_slice(b" refused ")?;
        text.extend_from_slice(refusal)?;
        text.push(b'\n')?;
        Ok(text)
    }
}
