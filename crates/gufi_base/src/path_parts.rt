//! The parts of a path's kept text.

ghost use Rattle.std.specs.Prelude.{◌≡◌, ◌≢◌, ◌==◌, ℕ, ◌+◌, ◌-◌, ◌<◌, ◌≤◌, [], ◌∷◌, ◌++◌, length, filter, take, drop, slice_index, IfOk};
ghost use Rattle.gufi_base.specs.Paths.{parent_path};
ghost use Rattle.gufi_base.specs.PathTexts.{kept_text, names, IsText};

use memchr::memrchr;
use std::alloc::{AllocError, Global};
use std::simd::prelude::*;

/// The kept text of a path below the root, from its stem and its base name.
pub(crate) fn text_of_row(alloc: Global, stem: &[u8], base: &[u8]) -> Result<Vec<u8>, AllocError>
    ensures { IfOk result (λ text. text.items ≡ stem.now ++ (base.now ++ 47 ∷ [])) }
{
    let length = stem.len().saturating_add(base.len()).saturating_add(1);
    let mut text = Vec::with_capacity(alloc, length)?;
    text.extend_from_slice(stem)?;
    text.extend_from_slice(base)?;
    text.push(b'/')?;
    Ok(text)
}

/// The text of a path and one name more.
pub(crate) fn text_of_child(
    alloc: Global,
    parent: &[u8],
    name: &[u8],
) -> Result<Vec<u8>, AllocError>
    ensures { IfOk result (λ text. text.items ≡ parent.now ++ (name.now ++ 47 ∷ [])) }
{
    let mut text = Vec::with_capacity(alloc, parent.len() + name.len() + 1)?;
    text.extend_from_slice(parent)?;
    text.extend_from_slice(name)?;
    text.push(b'/')?;
    Ok(text)
}

/// The bytes behind the first so many, moved to the front of their memory.
pub(crate) fn without_front(mut bytes: Vec<u8>, count: usize) -> Vec<u8>
    requires { count ≤ length bytes.items }
    ensures { result.items ≡ drop count bytes.items }
{
    if count == 0 {
        return bytes;
    }
    let rest = bytes.len() - count;
    bytes.copy_within(count.., 0);
    bytes.truncate(rest);
    bytes
}

/// How many slashes there are among `N` bytes at a place, behind the first so many of them.
#[inline]
fn slashes_at<const N: usize>(text: &[u8], at: usize, behind: usize) -> usize
    requires lanes { N ≤ 64 }
    requires inside { at + N ≤ length text.now }
    requires behind { behind < 64 }
    ensures { result ≡ length (filter (λ b. b == 47) (drop behind (take N (drop at text.now)))) }
{
    let block = Simd::<u8, N>::from_slice(&text[at..]);
    let slashes = block.simd_eq(Simd::splat(b'/')).to_bitmask();
    (slashes >> behind).count_ones() as usize
}

/// How many slashes there are: `N` bytes at a time, and in the last `N` those behind the blocks before.
#[inline]
fn slashes_by_blocks<const N: usize>(text: &[u8]) -> usize
    requires lanes { (0 < N) × (N ≤ 64) }
    requires some { N ≤ length text.now }
    ensures { result ≡ length (filter (λ b. b == 47) text.now) }
{
    let last = text.len() - N;
    let mut count = 0;
    let mut at = 0;
    'by_blocks: while at < last {
        count += slashes_at::<N>(text, at, 0);
        at += N;
    }
    count + slashes_at::<N>(text, last, at - last)
}

/// How many slashes there are. Looks at 64 bytes at once, or at 16 of a text that has fewer.
pub(crate) fn count_slashes(text: &[u8]) -> usize
    ensures { result ≡ length (filter (λ b. b == 47) text.now) }
{
    if text.len() >= 64 {
        return slashes_by_blocks::<64>(text);
    }
    if text.len() >= 16 {
        return slashes_by_blocks::<16>(text);
    }
    if text.len() >= 8 {
        return slashes_by_blocks::<8>(text);
    }
    if text.len() >= 4 {
        return slashes_by_blocks::<4>(text);
    }
    let mut count = 0;
    for k in 0..text.len() {
        count += usize::from(text[k] == b'/');
    }
    count
}

/// Where the last name of a text begins, behind the slash before it.
pub(crate) fn last_name_at(text: &[u8]) -> usize
    requires text { IsText text.now }
    requires named { 1 < length text.now }
    ensures value { result ≡ length (kept_text (parent_path (names text.now))) }
    ensures within { result < length text.now }
{
    behind_last_slash(text, text.len() - 1)
}

/// The place behind the last slash among the first so many bytes of a text; 0 where there is none among them.
pub(crate) fn behind_last_slash(text: &[u8], count: usize) -> usize
    requires { count ≤ length text.now }
    ensures within { result ≤ count }
    ensures slash { 0 < result → slice_index text.now (result - 1) ≡ 47 }
    ensures last { (k : ℕ) → result ≤ k → k < count → slice_index text.now k ≢ 47 }
{
    match memrchr(b'/', &text[..count]) {
        Some(at) => at + 1,
        None => 0,
    }
}
