//! Numbers of fewer bits. One that doesn't fit is taken for want of memory: what has so many bytes or rows is too large to be kept.

ghost use Rattle.std.specs.Prelude.{◌<◌, ◌^◌, OkIff};

use std::alloc::AllocError;

/// A number of 32 bits.
pub fn u32_of(n: usize) -> Result<u32, AllocError>
    ensures { OkIff result (n < 2 ^ 32) n }
{
    u32::try_from(n).map_err(|_| AllocError)
}

/// A number of 16 bits.
pub fn u16_of(n: usize) -> Result<u16, AllocError>
    ensures { OkIff result (n < 2 ^ 16) n }
{
    u16::try_from(n).map_err(|_| AllocError)
}
