//! Rows' texts in one text: the stem once for the rows of one directory, and each base name.

ghost use Rattle.std.specs.Prelude.{◌≡◌, ◌++◌, ◌^◌, true, length, IfOk, IfSome, OnOk, ◌<◌, ◌≤◌, drop};
ghost use Rattle.std.specs.Ordering.{nat_cmp};
ghost use Rattle.std.specs.Cmp.Lexicographic.{slice_cmp};
ghost use Rattle.gufi_base.specs.Paths.{Components, path_cmp};
ghost use Rattle.gufi_base.specs.PathParts.{ArePartsOf};
ghost use Rattle.gufi_rows.specs.PathLists.{Grows, IsSpan, IsSpot, bytes_in, path_in, StandsBehind, FitsBehind, SpotFitsBehind, span_behind, spot_behind};

use gufi_base::{Memory, common_front, same_bytes, text_cmp, u32_of};
use std::cmp::Ordering;

/// Bytes of a text, from a place to another. A text has less than 4 GiB.
#[derive(Clone, Copy)]
pub struct Span {
    pub from: u32,
    pub end: u32,
}

/// Where the two parts of a path stand in a text, and whether it is known to stand behind the path before it.
#[derive(Clone, Copy)]
pub struct Spot {
    pub stem: Span,
    pub base: Span,
    pub follows: bool,
}

/// The two parts of a path.
#[derive(Clone, Copy)]
pub(crate) struct Parts<'a> {
    pub(crate) stem: &'a [u8],
    pub(crate) base: &'a [u8],
}

/// The bytes of a span.
#[inline]
pub(crate) fn bytes_at(text: &[u8], span: Span) -> &[u8]
    requires { IsSpan text.now span }
    ensures { result.now ≡ bytes_in text.now span }
{
    &text[span.from as usize..span.end as usize]
}

/// Puts bytes behind a text.
pub(crate) fn put(text: &mut Vec<u8>, bytes: &[u8]) -> Result<Span, Memory>
    ensures grown { Grows text.old.items text.new.items }
    ensures within { IfOk result (IsSpan text.new.items) }
    ensures bytes { IfOk result (λ span. bytes_in text.new.items span ≡ bytes.now) }
    ensures place { IfOk result (λ span. span.from ≡ length text.old.items) }
    ensures end { IfOk result (λ span. span.end ≡ length text.new.items) }
    ensures put { OnOk result (text.new.items ≡ text.old.items ++ bytes.now) }
    ensures room { OnOk result (length text.new.items < 2 ^ 32) }
{
    let from = u32_of(text.len())?;
    text.extend_from_slice(bytes)?;
    let end = u32_of(text.len())?;
    Ok(Span { from, end })
}

/// Puts a whole text behind another, and tells how many bytes stand before it.
pub(crate) fn put_text(text: &mut Vec<u8>, more: &[u8]) -> Result<u32, Memory>
    ensures grown { Grows text.old.items text.new.items }
    ensures place { IfOk result (λ by. by ≡ length text.old.items) }
    ensures put { OnOk result (text.new.items ≡ text.old.items ++ more.now) }
    ensures room { OnOk result (length text.new.items < 2 ^ 32) }
{
    let span = put(text, more)?;
    Ok(span.from)
}

/// A span as it is where its text stands behind another.
#[inline]
pub(crate) fn span_behind(span: Span, by: u32) -> Span
    requires { FitsBehind by span }
    ensures { result ≡ span_behind by span }
{
    Span {
        from: by + span.from,
        end: by + span.end,
    }
}

/// A spot as it is where its text stands behind another.
#[inline]
pub(crate) fn spot_behind(spot: Spot, by: u32) -> Spot
    requires { SpotFitsBehind by spot }
    ensures { result ≡ spot_behind by spot }
{
    Spot {
        stem: span_behind(spot.stem, by),
        base: span_behind(spot.base, by),
        follows: spot.follows,
    }
}

fn keep_stem(text: &mut Vec<u8>, last: Option<Spot>, stem: &[u8]) -> Result<Span, Memory>
    requires { IfSome last (IsSpot text.old.items) }
    ensures grown { Grows text.old.items text.new.items }
    ensures within { IfOk result (IsSpan text.new.items) }
    ensures bytes { IfOk result (λ span. bytes_in text.new.items span ≡ stem.now) }
{
    if let Some(spot) = last {
        if same_bytes(bytes_at(text.as_slice(), spot.stem), stem) {
            return Ok(spot.stem);
        }
    }
    put(text, stem)
}

/// The bytes behind a front.
#[inline]
fn behind(text: &[u8], front: usize) -> &[u8]
    requires { front ≤ length text.now }
    ensures { result.now ≡ drop front text.now }
{
    &text[front..]
}

/// The order of two paths that aren't the root.
fn below_root_cmp(a: Parts<'_>, b: Parts<'_>) -> Ordering
    requires a { 0 < length a.stem.now }
    requires b { 0 < length b.stem.now }
    ensures { (p q : Components) → ArePartsOf a.entry.stem.now a.entry.base.now p → ArePartsOf b.entry.stem.now b.entry.base.now q
        → result ≡ path_cmp p q }
{
    let same = common_front(a.stem, b.stem);
    let left = behind(a.stem, same);
    let right = behind(b.stem, same);
    if same == b.stem.len() {
        return if same == a.stem.len() {
            a.base.cmp(b.base)
        } else {
            text_cmp(left, b.base)
        };
    }
    if same == a.stem.len() {
        return text_cmp(a.base, right);
    }
    text_cmp(left, right)
}

/// The order of two paths by their parts.
pub(crate) fn parts_cmp(a: Parts<'_>, b: Parts<'_>) -> Ordering
    ensures { (p q : Components) → ArePartsOf a.entry.stem.now a.entry.base.now p → ArePartsOf b.entry.stem.now b.entry.base.now q
        → result ≡ path_cmp p q }
{
    if a.stem.is_empty() || b.stem.is_empty() {
        return a.stem.len().cmp(&b.stem.len());
    }
    below_root_cmp(a, b)
}

#[inline]
fn is_same(a: Span, b: Span) -> bool
    ensures { result ≡ true → a ≡ b }
{
    a.from == b.from && a.end == b.end
}

fn comes_before(a: &[u8], b: &[u8]) -> bool
    ensures { result ≡ true → slice_cmp nat_cmp a.now b.now ≡ Ordering.Less }
{
    a.cmp(b) == Ordering::Less
}

/// Whether a path is the next one of the directory that the last spot is in.
fn follows(text: &[u8], last: Option<Spot>, stem: Span, base: &[u8]) -> bool
    requires { IfSome last (IsSpot text.now) }
    ensures { result ≡ true → StandsBehind text.now last (bytes_in text.now stem) base.now }
{
    let Some(spot) = last else {
        return false;
    };
    if !is_same(spot.stem, stem) {
        return false;
    }
    comes_before(bytes_at(text, spot.base), base)
}

/// Puts a path's parts behind a text; its stem stands there already where the last spot has the same.
pub(crate) fn keep(
    text: &mut Vec<u8>,
    last: Option<Spot>,
    stem: &[u8],
    base: &[u8],
) -> Result<Spot, Memory>
    requires { IfSome last (IsSpot text.old.items) }
    ensures grown { Grows text.old.items text.new.items }
    ensures kept { IfOk result (λ spot. (path : Components) → ArePartsOf stem.now base.now path → IsSpot text.new.items spot × (path_in text.new.items spot ≡ path)) }
    ensures follows { IfOk result (λ spot. spot.follows ≡ true → StandsBehind text.new.items last stem.now base.now) }
{
    let stem = keep_stem(text, last, stem)?;
    let follows = follows(text.as_slice(), last, stem, base);
    let base = put(text, base)?;
    Ok(Spot {
        stem,
        base,
        follows,
    })
}
