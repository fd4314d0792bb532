//! What lanes keep of their replies.
ghost use Rattle.std.specs.Prelude.{◌≡◌, ◌≤◌, IfOk};
ghost use Rattle.gufi_phases.specs.Keeping.{keeping_none};
ghost use Rattle.gufi_phases.specs.Lanes.{KeepAs};

use gufi_base::Memory;
use gufi_cache::Cache;
use std::alloc::Global;

/// How many lanes there may be.
pub(crate) const LANES: u32 = 16;

/// How many bytes a body has at most that a lane keeps.
pub(crate) const MAX_KEPT: usize = 65_536;

/// A lane: its number, from 1 on, and what it keeps of its replies, where it keeps any.
#[derive(Drop)]
pub(crate) struct Lane {
    pub(crate) number: u32,
    pub(crate) kept: Option<Cache>,
}

/// A lane that keeps nothing yet.
fn new_lane(alloc: Global, number: u32, capacity: u32) -> Result<Lane, Memory>
    requires { capacity ≤ 256 }
    ensures { IfOk result (λ lane. lane.kept ≡ keeping_none capacity) }
{
    let kept = if capacity == 0 {
        None
    } else {
        Some(Cache::new(alloc, capacity)?)
    };
    Ok(Lane { number, kept })
}

/// All lanes, the first one first. Each may keep so many bodies, and none where that is 0.
pub(crate) fn new_lanes(alloc: Global, capacity: u32) -> Result<Vec<Lane>, Memory>
    requires { capacity ≤ 256 }
    ensures { IfOk result (λ lanes. KeepAs (λ number. keeping_none capacity) lanes.items) }
{
    let mut lanes = Vec::with_capacity(alloc, LANES as usize)?;
    for number in 1..LANES + 1 {
        lanes.push(new_lane(alloc, number, capacity)?)?;
    }
    Ok(lanes)
}
