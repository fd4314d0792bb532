//! A tree from the lines of a trace.

ghost use Rattle.std.specs.Prelude.{◌≡◌, ◌≢◌, ◌<◌, ◌^◌, length, None, Some, IfOk, IfSome, IsTrue, MatchResult};
ghost use Rattle.gufi_base.specs.Basics.{GivesUnless};
ghost use Rattle.gufi_tree.specs.Build.{tree_fault, tree_of};
ghost use Rattle.gufi_tree.specs.Stored.{directories_of};
ghost use Rattle.gufi_tree.specs.Gathered.{IsArranged};
ghost use Rattle.gufi_tree.specs.Shape.{are_distinct, IsOrdered};
ghost use Rattle.gufi_tree.specs.Tree.{is_kinded};
ghost use Rattle.std.specs.List.{list_all};

use crate::closed::Closed;
use crate::dirs::Dirs;
use crate::fault::{TreeFault, find_fault};
use crate::gather::gather;
use crate::place::place;
use crate::shape::order_tree;
use crate::sort::{sort_directories, sort_entries};
use crate::stanzas::Stanzas;
use crate::tree::{Stored, Tree};
use gufi_base::Line;
use std::alloc::{AllocError, Global};

/// The directories, kept one behind another.
fn keep_all(alloc: Global, stored: Vec<Stored>) -> Result<Dirs, AllocError>
    ensures { IfOk result (λ dirs. dirs ≡ directories_of stored.items) }
{
    let mut dirs = Dirs::new(alloc);
    for dir in stored {
        dirs.push(alloc, dir)?;
    }
    Ok(dirs)
}

/// The directories of the lines, in order, also where entries stand apart from their directories.
fn arrange(alloc: Global, lines: Vec<Line>) -> Result<Dirs, AllocError>
    requires { tree_fault lines.items ≡ None }
    ensures { IfOk result (IsArranged lines.items) }
{
    let gathered = gather(alloc, lines)?;
    let mut stored = gathered.stored;
    sort_directories(&mut stored);
    place(&mut stored, gathered.loose)?;
    sort_entries(&mut stored);
    keep_all(alloc, stored)
}

/// The directories of the lines, in order, or their least fault.
fn arranged(alloc: Global, lines: Vec<Line>) -> Result<Dirs, TreeFault>
    ensures { MatchResult result
        (λ dirs. (tree_fault lines.items ≡ None) × IsArranged lines.items dirs)
        (λ fault. fault ≢ TreeFault.Memory → tree_fault lines.items ≡ Some fault) }
{
    if let Some(fault) = find_fault(alloc, lines.as_slice())? {
        return Err(fault);
    }
    Ok(arrange(alloc, lines)?)
}

/// The tree of the lines, or `NoRoot`, or else their least faulty line.
#[tactic(auto, unfolding(crate::specs::Build::tree_of))]
pub fn build(alloc: Global, lines: Vec<Line>) -> Result<Tree, TreeFault>
    requires { length lines.items < 2 ^ 32 }
    ensures { GivesUnless TreeFault.Memory result (tree_of lines.items) }
{
    let dirs = arranged(alloc, lines)?;
    let tree = Tree::of(alloc, dirs)?;
    Ok(tree)
}

/// Directories in path order, and where their parents stand.
#[derive(Drop)]
struct Ordered {
    dirs: Dirs,
    parents: Vec<u32>,
}

/// The directories of stanzas in path order, where they are seen to be a tree.
fn order_closed(alloc: Global, closed: &Closed) -> Result<Option<Ordered>, AllocError>
    requires few { length closed.now.dirs < 2 ^ 32 }
    requires kinds { IsTrue (list_all is_kinded closed.now.dirs) }
    requires distinct { IsTrue closed.now.distinct → IsTrue (are_distinct closed.now.dirs) }
    ensures { IfOk result (λ found. IfSome found (λ ordered. IsOrdered closed.now.dirs ordered.dirs ordered.parents.items)) }
{
    if !closed.distinct {
        return Ok(None);
    }
    let mut dirs = closed.dirs.again(alloc)?;
    match order_tree(alloc, &mut dirs)? {
        None => Ok(None),
        Some(parents) => Ok(Some(Ordered { dirs, parents })),
    }
}

/// The tree of the lines of stanzas, or `NoRoot`, or else their least faulty line.
///
/// Only where the directories in path order aren't seen to be a tree, the lines are made and searched for the fault.
#[tactic(auto, unfolding(crate::specs::Build::tree_of))]
pub fn build_stanzas(alloc: Global, stanzas: Stanzas) -> Result<Tree, TreeFault>
    requires { length stanzas < 2 ^ 32 }
    ensures { GivesUnless TreeFault.Memory result (tree_of stanzas) }
{
    let closed = stanzas.into_closed(alloc)?;
    match order_closed(alloc, &closed)? {
        Some(found) => Ok(Tree::with_parents(alloc, found.dirs, found.parents)?),
        None => build(alloc, closed.lines(alloc)?),
    }
}
