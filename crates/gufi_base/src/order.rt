//! The order of paths, which takes no memory.

ghost use Rattle.std.specs.Prelude.{◌≡◌, ◌≢◌, ◌+◌, ◌<◌, ◌≤◌, length, take, drop, slice_index, bytes_eq, IsTrue};
ghost use Rattle.std.specs.List.{list_all};
ghost use Rattle.std.specs.Cmp.Lexicographic.{slice_cmp};
ghost use Rattle.gufi_base.specs.Names.{is_name};
ghost use Rattle.gufi_base.specs.Paths.{Components, path_cmp};
ghost use Rattle.gufi_base.specs.PathTexts.{kept_text};
ghost use Rattle.gufi_base.specs.TextOrder.{rank, slash_first};

use crate::path::Path;
use std::cmp::Ordering;
use std::simd::prelude::*;

/// Texts of so many bytes are compared by 64 at once: a block of 64 costs as much as three of 16.
const LONG: usize = 128;

/// Names end before they go on, so a slash is the least byte.
fn rank(byte: u8) -> u16
    ensures { result ≡ rank byte }
{
    if byte == b'/' { 0 } else { u16::from(byte) + 1 }
}

/// How many of `N` bytes at a place two texts have alike before the first that differs.
#[inline]
fn alike_at<const N: usize>(a: &[u8], b: &[u8], at: usize) -> usize
    requires lanes { N ≤ 64 }
    requires in_a { at + N ≤ length a.now }
    requires in_b { at + N ≤ length b.now }
    ensures within { result ≤ N }
    ensures alike { take result (drop at a.now) ≡ take result (drop at b.now) }
    ensures most { result < N → slice_index a.now (at + result) ≢ slice_index b.now (at + result) }
{
    let left = Simd::<u8, N>::from_slice(&a[at..]);
    let right = Simd::<u8, N>::from_slice(&b[at..]);
    let unlike = left.simd_ne(right).to_bitmask();
    if unlike == 0 {
        N
    } else {
        unlike.trailing_zeros() as usize
    }
}

/// How many of the first `least` bytes two texts begin with alike: `N` bytes at a time, the last of them once more where they
/// don't fill a block of their own.
fn common_by_blocks<const N: usize>(a: &[u8], b: &[u8], least: usize) -> usize
    requires lanes { (0 < N) × (N ≤ 64) }
    requires some { N ≤ least }
    requires in_a { least ≤ length a.now }
    requires in_b { least ≤ length b.now }
    ensures same { take result a.now ≡ take result b.now }
    ensures within { result ≤ least }
    ensures most { result < least → slice_index a.now result ≢ slice_index b.now result }
{
    let last = least - N;
    let mut same = 0;
    'by_blocks: while same <= last {
        let alike = alike_at::<N>(a, b, same);
        if alike < N {
            return same + alike;
        }
        same += N;
    }
    last + alike_at::<N>(a, b, last)
}

/// How many bytes two texts begin with alike.
pub fn common_front(a: &[u8], b: &[u8]) -> usize
    ensures same { take result a.now ≡ take result b.now }
    ensures within_a { result ≤ length a.now }
    ensures within_b { result ≤ length b.now }
    ensures most { result < length a.now → result < length b.now → slice_index a.now result ≢ slice_index b.now result }
{
    let least = a.len().min(b.len());
    if least >= LONG {
        return common_by_blocks::<64>(a, b, least);
    }
    if least >= 16 {
        return common_by_blocks::<16>(a, b, least);
    }
    if least >= 4 {
        return common_by_blocks::<4>(a, b, least);
    }
    let mut same = 0;
    'by_bytes: while same < least && a[same] == b[same] {
        same += 1;
    }
    same
}

/// Whether two texts are the same.
pub fn same_bytes(a: &[u8], b: &[u8]) -> bool
    ensures { result ≡ bytes_eq a.now b.now }
{
    if a.len() != b.len() {
        return false;
    }
    common_front(a, b) == a.len()
}

/// The order of texts in which a slash is the least byte.
fn compare(a: &[u8], b: &[u8]) -> Ordering
    ensures { result ≡ slice_cmp slash_first a.now b.now }
{
    let same = common_front(a, b);
    if same == b.len() {
        return if same == a.len() {
            Ordering::Equal
        } else {
            Ordering::Greater
        };
    }
    if same == a.len() {
        return Ordering::Less;
    }
    rank(a[same]).cmp(&rank(b[same]))
}

/// The order of the paths whose kept texts these are.
pub fn text_cmp(a: &[u8], b: &[u8]) -> Ordering
    ensures bytes { result ≡ slice_cmp slash_first a.now b.now }
    ensures paths { (p q : Components) → IsTrue (list_all is_name p) → IsTrue (list_all is_name q)
        → a.now ≡ kept_text p → b.now ≡ kept_text q → result ≡ path_cmp p q }
{
    compare(a, b)
}

/// The order of paths: component by component, each by its bytes, a proper prefix first.
pub fn path_cmp(a: &Path, b: &Path) -> Ordering
    ensures { result ≡ path_cmp a.now b.now }
{
    text_cmp(a.text(), b.text())
}
