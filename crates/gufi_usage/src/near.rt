//! The directories near a start, with what the rows at and below each take up.

ghost use Rattle.std.specs.Prelude.{◌≡◌, ℕ, ◌<◌, ◌≤◌, true, not, List, [], ◌∷◌, ◌++◌, length, map, filter, slice_index_or, IfOk, OnOk, if◌then◌else◌};
ghost use Rattle.gufi_base.specs.declared.record.Row.{Row};
ghost use Rattle.gufi_tree.specs.Tree.{Directory, own_rows};
ghost use Rattle.gufi_tree.specs.Places.{path_at};
ghost use Rattle.gufi_walk.specs.Answer.{shown};
ghost use Rattle.gufi_walk.specs.Walk.{lists_at, open_ids, lies_within, meets};
ghost use Rattle.gufi_usage.specs.Usages.{IsUsage};
ghost use Rattle.gufi_usage.specs.Near.{met_from, usage_at, near};

use crate::usage::Usage;
use gufi_access::{Principal, lists};
use gufi_base::{Memory, Steps, Tester};
use gufi_io::NoGate;
use gufi_snap::Snapshot;
use gufi_store::DirStore;
use gufi_sums::Skip;
use gufi_tree::DirId;
use gufi_walk::{Shown, add_rows_below};
use std::alloc::{AllocError, Global};
use std::sync::ledger::Ledger;

/// A directory, and what the chosen rows at and below it take up.
#[derive(Clone, Copy)]
pub(crate) struct DirUsage {
    pub(crate) id: DirId,
    pub(crate) usage: Usage,
}

/// Adds a directory where it may be listed, apart from those above it.
fn add_if_open(
    kids: &mut Vec<DirId>,
    snap: &Snapshot,
    who: &Principal,
    id: DirId,
) -> Result<(), AllocError>
    requires { id.0 < length snap.now.tree }
    ensures { OnOk result (kids.new.items ≡ kids.old.items ++ (if lists_at snap.now.tree who.now (path_at snap.now.tree id.0) then id ∷ [] else [])) }
{
    if lists(who, &snap.tree().guard(id)) {
        kids.push(id)?;
    }
    Ok(())
}

/// The subdirectories that may be listed.
fn open_subdirs(
    alloc: Global,
    snap: &Snapshot,
    who: &Principal,
    id: DirId,
) -> Result<Vec<DirId>, AllocError>
    requires { id.0 < length snap.now.tree }
    ensures { IfOk result (λ ids. ids.items ≡ open_ids snap.now.tree who.now (path_at snap.now.tree id.0)) }
{
    let mut kids = Vec::new(alloc);
    for kid in snap.tree().subdirs(id) {
        add_if_open(&mut kids, snap, who, *kid)?;
    }
    Ok(kids)
}

/// What the chosen rows of one directory take up: its own and its entries'.
fn own_usage<T: Tester, L: Ledger>(
    alloc: Global,
    snap: &Snapshot,
    who: &Principal,
    id: DirId,
    tester: &mut T,
    above: u32,
    steps: &mut Steps<L>,
) -> Result<Usage, Memory>
    requires id { id.0 < length snap.now.tree }
    requires above { above ≤ length (path_at snap.now.tree id.0) }
    ensures usage { IfOk result (λ usage. (d : Directory) → IsUsage usage (filter (meets (T.meets tester.old) above) (map (shown who.now) (own_rows (slice_index_or snap.now.tree id.0 d))))) }
    ensures same { T.meets tester.new ≡ T.meets tester.old }
{
    let mut usage = Usage::nothing();
    let store = DirStore::again(snap.tree().dir(id));
    store.scan(alloc, tester, &Shown { who }, above, &mut usage, steps)?;
    Ok(usage)
}

/// Whether a row as deep as a directory lies deeper than any that meets the query.
fn lies_too_deep<S: Skip>(snap: &Snapshot, id: DirId, skip: &S, above: u32) -> bool
    requires id { id.0 < length snap.now.tree }
    requires above { above ≤ length (path_at snap.now.tree id.0) }
    ensures { result ≡ not (lies_within (S.deepest skip.now) above (path_at snap.now.tree id.0)) }
{
    match skip.deepest() {
        Some(deepest) => snap.tree().path(id).depth() - above as usize > deepest as usize,
        None => false,
    }
}

/// What the chosen rows at and below a directory take up. Nothing is looked at where none of them is as high as a row that meets the query.
fn usage_below<T: Tester, S: Skip, L: Ledger>(
    alloc: Global,
    snap: &Snapshot,
    who: &Principal,
    id: DirId,
    tester: &mut T,
    skip: &S,
    above: u32,
    steps: &mut Steps<L>,
) -> Result<Usage, Memory>
    requires id { id.0 < length snap.now.tree }
    requires listed { lists_at snap.now.tree who.now (path_at snap.now.tree id.0) ≡ true }
    requires above { above ≤ length (path_at snap.now.tree id.0) }
    requires query { (row : Row) (depth : ℕ) → T.meets tester.old row depth ≡ true → S.query skip.now row depth ≡ true }
    ensures usage { IfOk result (λ usage. IsUsage usage (met_from snap.now.tree who.now (meets (T.meets tester.old) above) (path_at snap.now.tree id.0))) }
    ensures same { OnOk result (T.meets tester.new ≡ T.meets tester.old) }
{
    // The tree's shape tells which rows the walk comes to.
    let _tree = snap.tree();
    let mut usage = Usage::nothing();
    if lies_too_deep(snap, id, skip, above) {
        return Ok(usage);
    }
    add_rows_below(
        alloc, snap, who, id, tester, skip, above, &NoGate, &mut usage, steps,
    )?;
    Ok(usage)
}

/// Finds the directories at most so many levels below one, each behind those below it. It answers what the chosen rows at and below
/// that one take up.
///
/// Each row is looked at once. Calls go one deeper for each level.
pub(crate) fn find_near<T: Tester, S: Skip, L: Ledger>(
    alloc: Global,
    snap: &Snapshot,
    who: &Principal,
    id: DirId,
    levels: u32,
    tester: &mut T,
    skip: &S,
    above: u32,
    found: &mut Vec<DirUsage>,
    steps: &mut Steps<L>,
) -> Result<Usage, Memory>
    requires id { id.0 < length snap.now.tree }
    requires listed { lists_at snap.now.tree who.now (path_at snap.now.tree id.0) ≡ true }
    requires above { above ≤ length (path_at snap.now.tree id.0) }
    requires query { (row : Row) (depth : ℕ) → T.meets tester.old row depth ≡ true → S.query skip.now row depth ≡ true }
    ensures usage { IfOk result (λ usage. IsUsage usage (met_from snap.now.tree who.now (meets (T.meets tester.old) above) (path_at snap.now.tree id.0))) }
    ensures found { OnOk result (found.new.items ≡ found.old.items ++ map (usage_at snap.now.tree who.now (meets (T.meets tester.old) above)) (near snap.now.tree who.now levels id)) }
    ensures same { OnOk result (T.meets tester.new ≡ T.meets tester.old) }
{
    // The tree's shape tells how its rows divide among the subdirectories.
    let _tree = snap.tree();
    if levels == 0 {
        let usage = usage_below(alloc, snap, who, id, tester, skip, above, steps)?;
        found.push(DirUsage { id, usage })?;
        return Ok(usage);
    }
    let mut usage = own_usage(alloc, snap, who, id, tester, above, steps)?;
    let kids = open_subdirs(alloc, snap, who, id)?;
    for kid in &kids {
        let below = find_near(
            alloc,
            snap,
            who,
            *kid,
            levels - 1,
            tester,
            skip,
            above,
            found,
            steps,
        )?;
        usage.join(&below);
    }
    found.push(DirUsage { id, usage })?;
    Ok(usage)
}
