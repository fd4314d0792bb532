//! Which bytes a text has, looked at in blocks.

ghost use Rattle.std.specs.Prelude.{◌≡◌, ◌+◌, ◌<◌, ◌≤◌, length, take, drop};
ghost use Rattle.std.specs.List.{list_all};
ghost use Rattle.gufi_base.specs.Names.{is_name_byte, is_path_byte, is_path_byte_but};

use std::simd::prelude::*;

/// Whether none of `N` bytes at a place is 0x00, a newline or one other byte.
#[inline]
fn are_free_at<const N: usize>(bytes: &[u8], at: usize, other: u8) -> bool
    requires lanes { N ≤ 64 }
    requires inside { at + N ≤ length bytes.now }
    ensures { result ≡ list_all (is_path_byte_but other) (take N (drop at bytes.now)) }
{
    let block = Simd::<u8, N>::from_slice(&bytes[at..]);
    let zeros = block.simd_eq(Simd::splat(0));
    let newlines = block.simd_eq(Simd::splat(b'\n'));
    let others = block.simd_eq(Simd::splat(other));
    (zeros | newlines | others).to_bitmask() == 0
}

/// Whether none of these bytes is 0x00, a newline or one other byte: `N` bytes at a time, the last of them once more where they
/// don't fill a block of their own.
#[inline]
fn are_free_by_blocks<const N: usize>(bytes: &[u8], other: u8) -> bool
    requires lanes { (0 < N) × (N ≤ 64) }
    requires some { N ≤ length bytes.now }
    ensures { result ≡ list_all (is_path_byte_but other) bytes.now }
{
    let last = bytes.len() - N;
    let mut at = 0;
    'by_blocks: while at < last {
        if !are_free_at::<N>(bytes, at, other) {
            return false;
        }
        at += N;
    }
    are_free_at::<N>(bytes, last, other)
}

/// Whether none of these bytes is 0x00, a newline or one other byte.
#[inline]
fn are_free(bytes: &[u8], other: u8) -> bool
    ensures { result ≡ list_all (is_path_byte_but other) bytes.now }
{
    if bytes.len() >= 16 {
        return are_free_by_blocks::<16>(bytes, other);
    }
    if bytes.len() >= 8 {
        return are_free_by_blocks::<8>(bytes, other);
    }
    if bytes.len() >= 4 {
        return are_free_by_blocks::<4>(bytes, other);
    }
    bytes
        .iter()
        .all(|byte| *byte != 0 && *byte != b'\n' && *byte != other)
}

/// Whether none of these bytes is 0x00 or a newline. Looks at 16 at once.
#[tactic(auto, using(crate::proofs::FreeBytes::newline_once))]
pub fn are_path_bytes(bytes: &[u8]) -> bool
    ensures { result ≡ list_all is_path_byte bytes.now }
{
    are_free(bytes, b'\n')
}

/// Whether none of these bytes is 0x00, a newline or a slash. Looks at 16 at once.
pub(crate) fn are_name_bytes(bytes: &[u8]) -> bool
    ensures { result ≡ list_all is_name_byte bytes.now }
{
    are_free(bytes, b'/')
}
