//! The flags that are known of a tree with a subtree replaced.

ghost use Rattle.std.specs.Prelude.{◌≡◌, ℕ, ◌<◌, ◌≤◌, ◌++◌, length, take, drop, map, Some, IfOk, OnOk};
ghost use Rattle.gufi_tree.specs.Places.{path_at};
ghost use Rattle.gufi_tree.specs.Tree.{HasTreeShape};
ghost use Rattle.gufi_roll.specs.Below.{AreKnown};
ghost use Rattle.gufi_snap.specs.KnownByPlace.{AreKnownBut};

use gufi_tree::{DirId, Tree};
use std::alloc::{AllocError, Global};

/// Adds flags as known ones.
fn push_known(known: &mut Vec<Option<bool>>, flags: &[bool]) -> Result<(), AllocError>
    ensures { OnOk result (known.new.items ≡ known.old.items ++ map Some flags.now) }
{
    for flag in flags {
        known.push(Some(*flag))?;
    }
    Ok(())
}

/// Flags, of which those between two places are replaced by others, as known ones.
pub(crate) fn known_flags(
    alloc: Global,
    flags: &[bool],
    at: usize,
    end: usize,
    part: &[bool],
) -> Result<Vec<Option<bool>>, AllocError>
    requires { (at ≤ end) × (end ≤ length flags.now) }
    ensures { IfOk result (λ known. known.items ≡ map Some (take at flags.now ++ (part.now ++ drop end flags.now))) }
{
    let count = at + part.len() + (flags.len() - end);
    let mut known = Vec::with_capacity(alloc, count)?;
    push_known(&mut known, &flags[..at])?;
    push_known(&mut known, part)?;
    push_known(&mut known, &flags[end..])?;
    Ok(known)
}

/// Forgets the flags of the directories above one.
pub(crate) fn forget_above(tree: &Tree, at: DirId, known: &mut Vec<Option<bool>>)
    requires id { at.0 < length tree.now }
    requires shape { HasTreeShape tree.now }
    requires len { length known.old.items ≡ length tree.now }
    ensures { (limit : ℕ) → AreKnownBut tree.now limit (path_at tree.now at.0) at.0 known.old.items → AreKnown tree.now limit known.new.items }
{
    let mut place = at;
    while let Some(above) = tree.parent(place) {
        known[above.0 as usize] = None;
        place = above;
    }
}
