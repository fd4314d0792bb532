//! The flags of the directories that are rolled up.

ghost use Rattle.std.specs.Prelude.{◌≡◌, ◌&&◌, nat_le, IfOk};
ghost use Rattle.gufi_roll.specs.CanRoll.{roll_flags};
ghost use Rattle.gufi_roll.specs.Below.{AreBelow, AreFlags};

use crate::below::{Below, all_below};
use gufi_base::Memory;
use gufi_tree::Tree;
use std::alloc::{AllocError, Global};

/// Which directories are rolled up where a roll-up may have so many rows: a flag for each directory, in path order.
///
/// Linear in the directories: each parent and child are looked at once, and a pair of access control lists that was compared
/// mostly isn't compared again. Under limit 0 nothing is looked at: each has a row.
pub fn roll(alloc: Global, tree: &Tree, limit: u64) -> Result<Vec<bool>, Memory>
    ensures value { IfOk result (λ flags. flags.items ≡ roll_flags tree.now limit) }
    ensures known { IfOk result (λ flags. AreFlags tree.now flags.items) }
{
    if limit == 0 {
        return Ok(none_rolled(alloc, tree)?);
    }
    let found = all_below(alloc, tree)?;
    let flags = flags_of(alloc, tree, found.as_slice(), limit)?;
    Ok(flags)
}

/// The flags under limit 0.
pub(crate) fn none_rolled(alloc: Global, tree: &Tree) -> Result<Vec<bool>, AllocError>
    ensures { IfOk result (λ flags. flags.items ≡ roll_flags tree.now 0) }
{
    Vec::from_elem(alloc, false, tree.dirs() as usize)
}

fn fits(below: &Below, limit: u64) -> bool
    ensures { result ≡ below.now.covered && nat_le below.now.rows limit }
{
    below.covered && below.rows <= limit
}

/// A flag for each directory, from what is at and below it.
fn flags_of(
    alloc: Global,
    tree: &Tree,
    found: &[Below],
    limit: u64,
) -> Result<Vec<bool>, AllocError>
    requires { AreBelow tree.now 0 found.now }
    ensures { IfOk result (λ flags. flags.items ≡ roll_flags tree.now limit) }
{
    let mut flags = Vec::with_capacity(alloc, found.len())?;
    for below in found {
        flags.push(fits(below, limit))?;
    }
    Ok(flags)
}
