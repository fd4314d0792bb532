//! Heads of directories in two arrays: what a walk looks at of each, and the numbers of its record.

ghost use Rattle.std.specs.Prelude.{◌≡◌, ◌<◌, ◌++◌, ◌∷◌, [], length, slice_index_or, IfOk, OnOk, OnErr};
ghost use Rattle.gufi_tree.specs.declared.bundle.Head.{Head as SeenHead};
ghost use Rattle.gufi_tree.specs.Heads.{guard_in, guard_of, head_spot, packed_head};

use crate::bundle::Head;
use gufi_base::{Extras, Meta};
use std::alloc::{AllocError, Global};
use std::marker::Model;

/// Where the bytes of a directory stand and which entries are its own, as a head says, with a copy of the numbers that guard it: all that a
/// walk looks at where it shows no row of the directory's own. It has 32 bytes.
#[derive(Clone, Copy)]
pub(crate) struct HeadSpot {
    pub(crate) at: u32,
    pub(crate) first: u32,
    pub(crate) count: u32,
    pub(crate) uid: u32,
    pub(crate) gid: u32,
    pub(crate) mode: u16,
    pub(crate) path: u16,
    pub(crate) link: u16,
    pub(crate) depth: u16,
    pub(crate) last: u16,
    pub(crate) extras: Extras,
}

/// Heads: their spots in one array, of 32 bytes each, and the numbers of their records in another, of 80 bytes each. Contracts see one list.
#[derive(Drop)]
pub(crate) struct PackedHeads {
    spots: Vec<HeadSpot>,
    metas: Vec<Meta>,
}

impl Model for PackedHeads {
    ghost use Rattle.std.specs.Prelude.{List};
    ghost use Rattle.gufi_tree.specs.declared.bundle.Head.{Head};

    ghost Value = { List Head };

    ghost use Rattle.gufi_tree.specs.Heads.{packed_heads, AreGuarded};

    ghost view = { λ h. packed_heads h.spots.items h.metas.items };

    ghost invariant = { λ h. AreGuarded h.spots.items h.metas.items };
}

/// All of a head but its record, and what guards the directory.
fn spot_of(head: &Head) -> HeadSpot
    ensures { result ≡ head_spot head.now }
{
    HeadSpot {
        at: head.at,
        first: head.first,
        count: head.count,
        uid: head.meta.uid,
        gid: head.meta.gid,
        mode: head.meta.mode,
        path: head.path,
        link: head.link,
        depth: head.depth,
        last: head.last,
        extras: head.extras,
    }
}

impl PackedHeads {
    /// No head. Takes no memory.
    pub(crate) fn new(alloc: Global) -> PackedHeads
        ensures { result ≡ [] }
    {
        PackedHeads {
            spots: Vec::new(alloc),
            metas: Vec::new(alloc),
        }
    }

    /// How many there are.
    #[inline]
    #[tactic(auto, using(crate::proofs::PairedHeads::as_many_heads))]
    pub(crate) fn len(&self) -> usize
        ensures { result ≡ length self.now }
    {
        self.spots.len()
    }

    /// Both parts of the head at a place. `O(1)`; reads neither.
    #[inline]
    #[tactic(auto, using(crate::proofs::PairedHeads::as_many_heads, crate::proofs::PairedHeads::as_many_parts))]
    pub(crate) fn at(&self, place: usize) -> (&HeadSpot, &Meta)
        requires { place < length self.now }
        ensures value { (h : SeenHead) → packed_head result.0.now result.1.now ≡ slice_index_or self.now place h }
        ensures guard { guard_in result.0.now ≡ guard_of result.1.now }
    {
        (&self.spots[place], &self.metas[place])
    }

    /// Adds a head behind the others.
    pub(crate) fn push(&mut self, head: &Head) -> Result<(), AllocError>
        ensures pushed { OnOk result (self.new ≡ self.old ++ head.now ∷ []) }
        ensures unchanged { OnErr result (self.new ≡ self.old) }
    {
        self.metas.reserve(1)?;
        self.spots.push(spot_of(head))?;
        self.metas.push_reserved(head.meta);
        Ok(())
    }

    /// The same heads, in as much memory as they take.
    pub(crate) fn copy(&self, alloc: Global) -> Result<PackedHeads, AllocError>
        ensures { IfOk result (λ copy. copy ≡ self.now) }
    {
        Ok(PackedHeads {
            spots: Vec::from_slice(alloc, self.spots.as_slice())?,
            metas: Vec::from_slice(alloc, self.metas.as_slice())?,
        })
    }

    /// Gives up all heads and keeps the memory.
    pub(crate) fn clear(&mut self)
        ensures { self.new ≡ [] }
    {
        self.spots.clear();
        self.metas.clear();
    }
}
