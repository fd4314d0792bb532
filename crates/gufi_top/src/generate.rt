//! `gen`: a generated trace, or what a run over it comes to.
ghost use Rattle.std.specs.Prelude.{◌≡◌, [], IfOk, IfErr};
ghost use Rattle.gufi_access.specs.Access.{principal};
ghost use Rattle.gufi_gen.specs.Generated.{gen_text};
ghost use Rattle.gufi_roll.specs.CanRoll.{roll_report, roll_flags, report_text};
ghost use Rattle.gufi_top.specs.Views.{text_view};
ghost use Rattle.gufi_top.specs.Verdict.{writes_only, generated_tree, total_for, summary_of, summary_over, gen_verdict, replied};
ghost use Rattle.gufi_ask.specs.Replies.{Replies};
ghost use Rattle.gufi_top.specs.Calls.{Gives, AppendsReply, IsOfBytes, IsPastWords};

use crate::halt::{Halt, Output};
use crate::reading::read_trace_bytes;
use crate::rollup::report_note;
use crate::start::written_over;
use crate::walk::snapshot_of;
use gufi_access::{GroupList, Principal};
use gufi_ask::total_for;
use gufi_base::{Memory, Path, put};
use gufi_gen::gen_trace;
use gufi_snap::Snapshot;
use gufi_tree::Tree;
use gufi_walk::Refusal;
use std::alloc::Global;

/// Under which limit a generated tree is rolled up.
const LIMIT: u64 = 1000;

fn principal_of(alloc: Global, uid: u32, gids: &[u32]) -> Result<Principal, Memory>
    ensures { IfOk result (λ who. who ≡ principal uid gids.now) }
{
    let groups = Vec::from_slice(alloc, gids)?;
    Ok(Principal {
        uid,
        groups: GroupList::of(groups),
    })
}

fn root(alloc: Global) -> Result<Path, Memory>
    ensures { IfOk result (λ path. path ≡ []) }
{
    let path = Path::root(alloc)?;
    Ok(path)
}

/// The total of a principal, behind his name.
fn total_of(
    alloc: Global,
    snap: &Snapshot,
    name: &[u8],
    uid: u32,
    gids: &[u32],
) -> Result<Vec<u8>, Refusal>
    ensures { Replies result (total_for snap.now.tree name.now (principal uid gids.now)) }
{
    let who = principal_of(alloc, uid, gids)?;
    let start = root(alloc)?;
    total_for(alloc, snap, &who, &start, name)
}

/// Appends that total.
fn put_total(
    alloc: Global,
    out: &mut Vec<u8>,
    snap: &Snapshot,
    name: &[u8],
    uid: u32,
    gids: &[u32],
) -> Result<(), Refusal>
    ensures { AppendsReply result out.old.items out.new.items (total_for snap.now.tree name.now (principal uid gids.now)) }
{
    let text = total_of(alloc, snap, name, uid, gids)?;
    put(out, &text)?;
    Ok(())
}

/// The totals of three principals behind a report.
fn totals_behind(alloc: Global, snap: &Snapshot, mut report: Vec<u8>) -> Result<Vec<u8>, Refusal>
    requires { report.items ≡ report_text (roll_report snap.now.tree (roll_flags snap.now.tree 1000)) }
    ensures { Replies result (summary_of snap.now.tree) }
{
    put_total(alloc, &mut report, snap, b"0", 0, &[])?;
    put_total(alloc, &mut report, snap, b"1001:101", 1001, &[101])?;
    put_total(alloc, &mut report, snap, b"1002", 1002, &[])?;
    Ok(report)
}

/// What is written of a tree: the report of its roll-up, and the totals of three principals.
fn summary_of(alloc: Global, tree: Tree) -> Result<Output, Halt>
    ensures text { Gives text_view result (replied (summary_of tree)) }
    ensures of_bytes { IfErr result IsOfBytes }
    ensures past_words { IfErr result IsPastWords }
{
    let Ok(report) = report_note(alloc, &tree, LIMIT) else {
        drop(tree);
        return Err(Halt::Memory);
    };
    let snap = snapshot_of(alloc, tree, LIMIT)?.with_sums(alloc)?;
    let reply = totals_behind(alloc, &snap, report);
    written_over(alloc, snap, reply)
}

/// The tree of a generated trace, read as any other.
fn tree_of(alloc: Global, n: u32, delim: u8) -> Result<Tree, Halt>
    ensures tree { Gives (λ tree. tree) result (generated_tree n delim) }
    ensures of_bytes { IfErr result IsOfBytes }
    ensures past_words { IfErr result IsPastWords }
{
    let trace = gen_trace(alloc, n, delim)?;
    read_trace_bytes(alloc, "gen", delim, &trace)
}

/// What a run over a generated tree comes to.
#[tactic(auto, using(crate::proofs::SummaryLemmas::summaries))]
fn summary(alloc: Global, n: u32, delim: u8) -> Result<Output, Halt>
    ensures text { Gives text_view result (summary_over n delim) }
    ensures of_bytes { IfErr result IsOfBytes }
    ensures past_words { IfErr result IsPastWords }
{
    match tree_of(alloc, n, delim) {
        Ok(tree) => summary_of(alloc, tree),
        Err(halt) => Err(halt),
    }
}

/// A generated trace.
fn trace(alloc: Global, n: u32, delim: u8) -> Result<Output, Halt>
    ensures text { Gives text_view result (writes_only (gen_text n delim)) }
    ensures of_bytes { IfErr result IsOfBytes }
    ensures past_words { IfErr result IsPastWords }
{
    let out = gen_trace(alloc, n, delim)?;
    Ok(Output {
        out,
        notes: Vec::new(alloc),
    })
}

/// What `gen` writes of so many directories: their trace, or, for a summary, what a run over it comes to.
pub(crate) fn generate(alloc: Global, n: u32, delim: u8, whole: bool) -> Result<Output, Halt>
    ensures text { Gives text_view result (gen_verdict n delim whole) }
    ensures of_bytes { IfErr result IsOfBytes }
    ensures past_words { IfErr result IsPastWords }
{
    if whole {
        summary(alloc, n, delim)
    } else {
        trace(alloc, n, delim)
    }
}
