//! Decimal numbers, two digits at a time: for speed alone, since the exact readers stand behind.

ghost use Rattle.std.specs.Prelude.{◌≡◌, ◌<◌, ◌≤◌, ◌+◌, ◌*◌, true, false, length, slice_index_or, IfOk, IfSome, MatchOption};
ghost use Rattle.std.specs.Char.{is_digit, digit_value};
ghost use Rattle.gufi_base.specs.Numbers.{NumberBefore};
ghost use Rattle.gufi_base.proofs.Digits.{ReadsFront};
ghost use Rattle.gufi_line.specs.Pairs.{pair_value};

use std::alloc::{AllocError, Global};
use std::marker::Model;
use std::simd::prelude::*;

/// How many pairs of bytes there are.
const PAIRS: u32 = 65536;

/// The value of a digit before the separator is this and the digit.
const ONE_DIGIT: u8 = 100;

/// The value of the separator before any byte.
const NO_DIGIT: u8 = 254;

/// The value of all other pairs.
const UNKNOWN: u8 = 255;

/// At most so many digits are looked at: no such number wraps.
const MOST_DIGITS: usize = 16;

/// So many bytes hold nearly all numbers with their separator: those of ten digits, as times have, just so.
const USUAL: usize = 11;

/// What each two bytes are worth as decimal digits before a separator, at the first and 256 times the second.
///
/// Contracts see the separator.
#[derive(Drop)]
pub struct DigitPairs {
    separator: u8,
    values: Vec<u8>,
}

impl Model for DigitPairs {
    ghost use Rattle.std.specs.Prelude.{ℕ};
    ghost use Rattle.gufi_line.specs.Pairs.{AreFirstPairs};

    ghost Value = { ℕ };

    ghost view = { λ p. p.separator };

    ghost invariant = { λ p. AreFirstPairs p.separator p.values.items 65536 };
}

/// What a decimal digit is worth.
#[inline(always)]
fn digit_of(byte: u8) -> Option<u8>
    ensures { MatchOption result
        (is_digit byte 10 ≡ false)
        (λ digit. (is_digit byte 10 ≡ true) × (digit ≡ digit_value byte) × (digit < 10)) }
{
    // A byte below the digits wraps to one far above them, so that one test is enough.
    let digit = byte.wrapping_sub(b'0');
    if digit < 10 { Some(digit) } else { None }
}

/// The byte at a place and 256 times the one behind it, both loaded at once.
#[inline(always)]
fn pair_at(text: &[u8], at: usize) -> u16
    requires { at + 1 < length text.now }
    ensures { result ≡ slice_index_or text.now at 0 + 256 * slice_index_or text.now (at + 1) 0 }
{
    u16x1::from_le_bytes(u8x2::from_slice(&text[at..])).to_array()[0]
}

fn value_of(separator: u8, first: u8, second: u8) -> u8
    ensures { result ≡ pair_value separator first second }
{
    match (digit_of(first), digit_of(second)) {
        (Some(tens), Some(ones)) => tens * 10 + ones,
        (Some(digit), None) if second == separator => ONE_DIGIT + digit,
        (None, _) if first == separator => NO_DIGIT,
        _ => UNKNOWN,
    }
}

/// The number that so many digits and perhaps the first of a pair write, where the separator stands right behind.
#[inline(always)]
fn end_in_pair(
    separator: u8,
    text: &[u8],
    number: u64,
    at: usize,
    value: u8,
) -> Option<(u64, usize)>
    requires within { at + 1 < length text.now }
    requires few { at + 1 < 16 }
    requires front { ReadsFront text.now number at }
    requires pair { value ≡ pair_value separator (slice_index_or text.now at 0) (slice_index_or text.now (at + 1) 0) }
    requires some { 0 < at }
    requires ends { 100 ≤ value }
    ensures { IfSome result (λ found. NumberBefore separator text.now found.0 found.1) }
{
    if value < NO_DIGIT {
        return Some((number * 10 + u64::from(value - ONE_DIGIT), at + 1));
    }
    if value == NO_DIGIT {
        Some((number, at))
    } else {
        None
    }
}

/// The number that the first of the first pair writes, where the separator stands right behind.
#[inline(always)]
fn one_digit(separator: u8, text: &[u8], value: u8) -> Option<(u64, usize)>
    requires within { 1 < length text.now }
    requires pair { value ≡ pair_value separator (slice_index_or text.now 0 0) (slice_index_or text.now 1 0) }
    requires ends { 100 ≤ value }
    ensures { IfSome result (λ found. NumberBefore separator text.now found.0 found.1) }
{
    if value < NO_DIGIT {
        Some((u64::from(value - ONE_DIGIT), 1))
    } else {
        None
    }
}

/// The number that so many digits write, where the separator stands right behind.
#[inline(always)]
fn end_behind(separator: u8, text: &[u8], number: u64, at: usize) -> Option<(u64, usize)>
    requires few { at ≤ 16 }
    requires front { ReadsFront text.now number at }
    ensures { IfSome result (λ found. NumberBefore separator text.now found.0 found.1) }
{
    if at == 0 || at >= text.len() || text[at] != separator {
        return None;
    }
    match digit_of(separator) {
        None => Some((number, at)),
        Some(_) => None,
    }
}

impl DigitPairs {
    pub fn new(alloc: Global, separator: u8) -> Result<DigitPairs, AllocError>
        ensures { IfOk result (λ pairs. pairs ≡ separator) }
    {
        let mut values = Vec::with_capacity(alloc, PAIRS as usize)?;
        for place in 0..PAIRS {
            values.push(value_of(separator, (place % 256) as u8, (place / 256) as u8))?;
        }
        Ok(DigitPairs { separator, values })
    }

    #[inline(always)]
    pub(crate) fn separator(&self) -> u8
        ensures { result ≡ self.now }
    {
        self.separator
    }

    /// What the two bytes at a place are worth.
    #[inline(always)]
    fn value(&self, text: &[u8], at: usize) -> u8
        requires { at + 1 < length text.now }
        ensures { result ≡ pair_value self.now (slice_index_or text.now at 0) (slice_index_or text.now (at + 1) 0) }
    {
        self.values[pair_at(text, at) as usize]
    }

    /// The number that the digits among the first `most` bytes write, and where the separator stands behind them.
    #[inline(always)]
    fn number_within(&self, text: &[u8], most: usize) -> Option<(u64, usize)>
        requires within { most ≤ length text.now }
        requires few { most ≤ 16 }
        ensures { IfSome result (λ found. NumberBefore self.now text.now found.0 found.1) }
    {
        if most < 2 {
            return None;
        }
        let first = self.value(text, 0);
        if first >= ONE_DIGIT {
            return one_digit(self.separator, text, first);
        }
        let mut number = u64::from(first);
        let mut at = 2;
        'pairs: while at + 1 < most {
            let value = self.value(text, at);
            if value >= ONE_DIGIT {
                return end_in_pair(self.separator, text, number, at, value);
            }
            number = number * 100 + u64::from(value);
            at += 2;
        }
        end_behind(self.separator, text, number, at)
    }

    /// The number that decimal digits write before the first separator of a text, and where that stands.
    ///
    /// It looks at no more than ten digits, or sixteen where it may be wide; where it gives nothing, nothing is known.
    #[inline(always)]
    pub(crate) fn number_before<const WIDE: bool>(&self, text: &[u8]) -> Option<(u64, usize)>
        ensures { IfSome result (λ found. NumberBefore self.now text.now found.0 found.1) }
    {
        if WIDE {
            return self.number_within(text, MOST_DIGITS.min(text.len()));
        }
        // Where so many bytes are there, only the digits end the loop.
        if text.len() >= USUAL {
            return self.number_within(text, USUAL);
        }
        None
    }
}
