//! Replies to searches.
ghost use Rattle.std.specs.Prelude.{◌≡◌, ◌≢◌, ◌++◌, List, length, None, Some, IsTrue, IfErr, IfOk, OnOk, codes, decimal};
ghost use Rattle.std.specs.List.Sorted.{IsPermutation};
ghost use Rattle.gufi_base.specs.declared.record.Row.{Row};
ghost use Rattle.gufi_base.specs.Basics.{ascends, line};
ghost use Rattle.gufi_base.specs.Rows.{row_cmp};
ghost use Rattle.gufi_find.specs.Expressions.{find_holds};
ghost use Rattle.gufi_rows.specs.PathLines.{path_lines, ArePathsOf};
ghost use Rattle.gufi_select.specs.Columns.{select_holds, select_lines};
ghost use Rattle.gufi_sums.specs.Total.{total};
ghost use Rattle.gufi_tree.specs.Resolve.{resolve};
ghost use Rattle.gufi_walk.specs.Answer.{answer, refusal_of, reply_rows};
ghost use Rattle.gufi_walk.specs.Refusals.{refusal_text};
ghost use Rattle.gufi_plan.specs.declared.search.Query.TheVariants.{Finds, Totals, Selects};
ghost use Rattle.gufi_session.specs.Loaded.{search_reply, search_body};
ghost use Rattle.gufi_session.specs.Session.{answer_or, reply_body, reply_head};

use gufi_access::Principal;
use gufi_base::{Memory, Path, put_u64};
use gufi_cache::{CacheKey, cache_key};
use gufi_find::FindExpr;
use gufi_io::Gate;
use gufi_list::total_text;
use gufi_phases::Wanted;
use gufi_plan::{Query, Search, SharedSearch};
use gufi_prune::{find_pruner, select_pruner};
use gufi_rows::{PathList, RowList};
use gufi_select::{Select, SelectLine};
use gufi_snap::Snapshot;
use gufi_sums::Summary;
use gufi_walk::{
    Refusal, Walkers, answer_list, answer_paths, answer_sum, answer_total, put_refusal,
};
use std::alloc::Global;
use std::sync::Wait;
use std::thread::Threads;

/// A search of a running phase.
#[derive(Drop)]
pub(crate) struct Asking {
    pub(crate) search: SharedSearch,
}

/// Appends why a start refuses, in words.
fn put_refused(text: &mut Vec<u8>, refusal: Refusal) -> Result<(), Memory>
    ensures text { OnOk result (text.new.items ≡ text.old.items ++ line (codes " " ++ refusal_text refusal)) }
{
    text.push(b' ')?;
    put_refusal(text, refusal)?;
    text.push(b'\n')?;
    Ok(())
}

/// Appends how many rows there are.
fn put_count(text: &mut Vec<u8>, count: usize) -> Result<(), Memory>
    ensures { OnOk result (text.new.items ≡ text.old.items ++ line (codes " rows " ++ decimal count)) }
{
    text.extend_from_slice(b" rows ")?;
    put_u64(text, count as u64)?;
    text.push(b'\n')?;
    Ok(())
}

/// Appends how many paths there are, and their lines.
fn put_paths(alloc: Global, text: &mut Vec<u8>, paths: PathList) -> Result<(), Memory>
    ensures { OnOk result ((rows : List Row) → ArePathsOf paths rows → IsTrue (ascends row_cmp rows)
        → text.new.items ≡ text.old.items ++ (line (codes " rows " ++ decimal (length rows)) ++ path_lines rows)) }
{
    put_count(text, paths.len())?;
    paths.put_lines(alloc, text)?;
    Ok(())
}

/// Appends how many rows there are, and what a SELECT prints of them.
fn put_rows(
    alloc: Global,
    text: &mut Vec<u8>,
    rows: RowList,
    select: &Select,
    start: &Path,
) -> Result<(), Memory>
    ensures { OnOk result ((of : List Row) → IsPermutation rows of → IsTrue (ascends row_cmp of)
        → text.new.items ≡ text.old.items ++ (line (codes " rows " ++ decimal (length of)) ++ select_lines select.now start.now of)) }
{
    let line = SelectLine {
        select,
        above: start.depth(),
    };
    put_count(text, rows.len())?;
    rows.put_lines(alloc, &line, text)?;
    Ok(())
}

/// Appends the paths of the rows that a principal lists from a start and for which an expression is true.
fn put_found<R: Threads + Wait + Sync, G: Gate + Sync>(
    walkers: &Walkers<'_, R, G>,
    alloc: Global,
    text: &mut Vec<u8>,
    snap: &Snapshot,
    who: &Principal,
    start: &Path,
    find: &FindExpr,
) -> Result<(), Memory>
    ensures { OnOk result (text.new.items ≡ text.old.items ++ answer_or (Finds find.now) start.now (reply_rows snap.now.tree who.now start.now (find_holds find.now))) }
{
    let question = find.question();
    let skip = find_pruner(alloc, find)?;
    match answer_paths(walkers, alloc, snap, who, start, &question, &skip) {
        Ok(paths) => put_paths(alloc, text, paths),
        Err(Refusal::Memory) => Err(Memory),
        Err(refusal) => put_refused(text, refusal),
    }
}

/// The sum of the rows that a principal lists from a start and for which an expression is true.
///
/// Where it has no words, the sums that are kept give it, and no row is looked at.
fn sum_found<R: Threads + Wait + Sync, G: Gate + Sync>(
    walkers: &Walkers<'_, R, G>,
    alloc: Global,
    snap: &Snapshot,
    who: &Principal,
    start: &Path,
    find: &FindExpr,
) -> Result<Summary, Refusal>
    ensures sum { IfOk result (λ sum. sum ≡ total (answer snap.now.tree who.now start.now (find_holds find.now))) }
    ensures found { OnOk result (refusal_of (resolve snap.now.tree who.now start.now) ≡ None) }
    ensures refusal { IfErr result (λ refusal. refusal ≢ Refusal.Memory → refusal_of (resolve snap.now.tree who.now start.now) ≡ Some refusal) }
{
    if find.has_no_words() {
        return answer_total(alloc, snap, who, start);
    }
    let question = find.question();
    let skip = find_pruner(alloc, find)?;
    answer_sum(walkers, alloc, snap, who, start, &question, &skip)
}

/// Appends the sum of the rows that a principal lists from a start and for which an expression is true.
fn put_total<R: Threads + Wait + Sync, G: Gate + Sync>(
    walkers: &Walkers<'_, R, G>,
    alloc: Global,
    text: &mut Vec<u8>,
    snap: &Snapshot,
    who: &Principal,
    start: &Path,
    find: &FindExpr,
) -> Result<(), Memory>
    ensures { OnOk result (text.new.items ≡ text.old.items ++ answer_or (Totals find.now) start.now (reply_rows snap.now.tree who.now start.now (find_holds find.now))) }
{
    match sum_found(walkers, alloc, snap, who, start, find) {
        Ok(sum) => {
            let total = total_text(alloc, &sum)?;
            text.extend_from_slice(b" total ")?;
            text.extend_from_slice(&total)?;
            text.push(b'\n')?;
            Ok(())
        }
        Err(Refusal::Memory) => Err(Memory),
        Err(refusal) => put_refused(text, refusal),
    }
}

/// Appends the columns of the rows that a principal lists from a start and for which a SELECT is true.
fn put_selected<R: Threads + Wait + Sync, G: Gate + Sync>(
    walkers: &Walkers<'_, R, G>,
    alloc: Global,
    text: &mut Vec<u8>,
    snap: &Snapshot,
    who: &Principal,
    start: &Path,
    select: &Select,
) -> Result<(), Memory>
    ensures { OnOk result (text.new.items ≡ text.old.items ++ answer_or (Selects select.now) start.now (reply_rows snap.now.tree who.now start.now (select_holds select.now))) }
{
    let question = select.question();
    let skip = select_pruner(alloc, select)?;
    match answer_list(walkers, alloc, snap, who, start, &question, &skip) {
        Ok(rows) => put_rows(alloc, text, rows, select, start),
        Err(Refusal::Memory) => Err(Memory),
        Err(refusal) => put_refused(text, refusal),
    }
}

/// Appends the reply to a search from a snapshot, behind its head.
#[tactic(auto, unfolding(crate::specs::Session::reply_body))]
fn put_body<R: Threads + Wait + Sync, G: Gate + Sync>(
    walkers: &Walkers<'_, R, G>,
    alloc: Global,
    text: &mut Vec<u8>,
    snap: &Snapshot,
    search: &Search,
) -> Result<(), Memory>
    ensures { OnOk result (text.new.items ≡ text.old.items ++ reply_body search.now snap.now.tree) }
{
    let (who, start) = (search.who.get(), &search.start);
    match &search.query {
        Query::Finds { find } => put_found(walkers, alloc, text, snap, who, start, find),
        Query::Totals { find } => put_total(walkers, alloc, text, snap, who, start, find),
        Query::Selects { select } => put_selected(walkers, alloc, text, snap, who, start, select),
    }
}

/// Appends the body of the reply to an ask from the snapshot that was pinned, and from it alone.
pub(crate) fn body_from<R: Threads + Wait + Sync, G: Gate + Sync>(
    walkers: &Walkers<'_, R, G>,
    alloc: Global,
    asking: &Asking,
    text: Vec<u8>,
    snap: &Snapshot,
) -> Result<Vec<u8>, Memory>
    ensures { IfOk result (λ whole. whole.items ≡ text.items ++ search_body asking.now snap.now) }
{
    let mut text = text;
    put_body(walkers, alloc, &mut text, snap, asking.search.get())?;
    Ok(text)
}

/// The head of the reply to an ask at the number of a publication.
fn reply_head(alloc: Global, ask: u32, number: u64) -> Result<Vec<u8>, Memory>
    ensures { IfOk result (λ text. text.items ≡ reply_head ask number) }
{
    let mut text = Vec::new(alloc);
    text.extend_from_slice(b"reply ")?;
    put_u64(&mut text, u64::from(ask))?;
    text.extend_from_slice(b" at ")?;
    put_u64(&mut text, number)?;
    Ok(text)
}

impl Wanted<Snapshot> for Asking {
    ghost use Rattle.std.specs.Prelude.{refl};
    ghost use Rattle.gufi_session.specs.Session.{reply_head};
    ghost use Rattle.gufi_session.specs.Loaded.{search_body, search_key};

    ghost reply = { search_reply };

    ghost head = { reply_head };

    ghost body = { search_body };

    ghost key = { search_key };

    ghost parts = { λ question ask number item. refl };

    ghost numbers = { λ question number. refl };

    fn put_head(&self, alloc: Global, ask: u32, number: u64) -> Result<Vec<u8>, Memory> {
        reply_head(alloc, ask, number)
    }

    fn kept_under(&self, alloc: Global, number: u64) -> Result<CacheKey, Memory> {
        let search = self.search.get();
        cache_key(
            alloc,
            number,
            &search.who,
            &search.start,
            search.ask.as_slice(),
        )
    }

    fn reply_to_none(&self, alloc: Global, ask: u32) -> Result<Vec<u8>, Memory> {
        let mut text = reply_head(alloc, ask, 0)?;
        text.extend_from_slice(b" no index\n")?;
        Ok(text)
    }
}
