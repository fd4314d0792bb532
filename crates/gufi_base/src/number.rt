//! Numbers in text.

ghost use Rattle.std.specs.Prelude.{◌≡◌, ◌+◌, ◌^◌, ◌≤◌, ◌<◌, true, false, pos, neg_ℤ, length, drop, decimal, ◌++◌, OnOk, OnErr, MatchOption, option_map};
ghost use Rattle.std.specs.Fmt.{signed_decimal};
ghost use Rattle.std.specs.Char.{is_digit, digit_value};
ghost use Rattle.gufi_base.specs.Numbers.{number_below, read_below, read_u64, read_u32, read_octal, read_i64};

use crate::Memory;

/// What a digit is worth in a radix of at most ten.
#[inline]
fn digit_of(byte: u8, radix: u64) -> Option<u64>
    requires { radix ≤ 10 }
    ensures { MatchOption result
        (is_digit byte radix ≡ false)
        (λ digit. (is_digit byte radix ≡ true) × (digit ≡ digit_value byte) × (digit < radix)) }
{
    if byte < b'0' {
        return None;
    }
    let digit = u64::from(byte - b'0');
    if digit < radix { Some(digit) } else { None }
}

/// The number that at most nineteen decimal digits write: no such number is too large.
fn short_number(bytes: &[u8]) -> Option<u64>
    requires { length bytes.now ≤ 19 }
    ensures { result ≡ read_below 10 (2 ^ 64) bytes.now }
{
    if bytes.is_empty() {
        return None;
    }
    let mut number: u64 = 0;
    for byte in bytes {
        number = number * 10 + digit_of(*byte, 10)?;
    }
    Some(number)
}

/// The number that digits of any length write.
fn long_number(bytes: &[u8], radix: u64) -> Option<u64>
    requires low { 1 ≤ radix }
    requires high { radix ≤ 10 }
    ensures { result ≡ read_below radix (2 ^ 64) bytes.now }
{
    if bytes.is_empty() {
        return None;
    }
    let mut number: u64 = 0;
    for byte in bytes {
        let digit = digit_of(*byte, radix)?;
        number = number.checked_mul(radix)?.checked_add(digit)?;
    }
    Some(number)
}

/// The number that decimal digits write, where it is below 2^64.
pub fn read_u64(bytes: &[u8]) -> Option<u64>
    ensures { result ≡ read_u64 bytes.now }
{
    if bytes.len() <= 19 {
        short_number(bytes)
    } else {
        long_number(bytes, 10)
    }
}

/// The number that decimal digits write, where it is below 2^32.
pub fn read_u32(bytes: &[u8]) -> Option<u32>
    ensures { result ≡ read_u32 bytes.now }
{
    match read_u64(bytes) {
        Some(number) if number <= 4294967295 => Some(number as u32),
        _ => None,
    }
}

/// The number that octal digits write, where it has at most twelve bits.
pub fn read_octal(bytes: &[u8]) -> Option<u16>
    ensures { result ≡ read_octal bytes.now }
{
    match long_number(bytes, 8) {
        Some(number) if number <= 4095 => Some(number as u16),
        _ => None,
    }
}

fn positive(number: Option<u64>) -> Option<i64>
    ensures { result ≡ option_map pos (number_below (2 ^ 63) number) }
{
    match number {
        Some(number) if number <= 9223372036854775807 => Some(number as i64),
        _ => None,
    }
}

fn negative(number: Option<u64>) -> Option<i64>
    ensures { result ≡ option_map (λ n. neg_ℤ (pos n)) (number_below (2 ^ 63 + 1) number) }
{
    match number {
        Some(number) if number < 9223372036854775808 => Some(-(number as i64)),
        Some(number) if number == 9223372036854775808 => Some(i64::MIN),
        _ => None,
    }
}

/// The number that decimal digits write, behind one `-` perhaps, where it fits.
pub fn read_i64(bytes: &[u8]) -> Option<i64>
    ensures { result ≡ read_i64 bytes.now }
{
    match bytes {
        [] => None,
        [first, rest @ ..] => {
            if *first == b'-' {
                negative(read_u64(rest))
            } else {
                positive(read_u64(bytes))
            }
        }
    }
}

/// Writes the digits of a number at the end of a buffer, and returns where they begin.
fn fill_digits(buffer: &mut [u8], number: u64) -> usize
    requires some { 0 < length buffer.old }
    requires room { number < 10 ^ length buffer.old }
    ensures digits { drop result buffer.new ≡ decimal number }
    ensures within { result < length buffer.new }
{
    let mut rest = number;
    let mut at = buffer.len() - 1;
    while rest >= 10 {
        buffer[at] = b'0' + (rest % 10) as u8;
        rest /= 10;
        at -= 1;
    }
    buffer[at] = b'0' + rest as u8;
    at
}

/// The same of a number that may need more than 64 bits.
fn fill_wide_digits(buffer: &mut [u8], number: u128) -> usize
    requires some { 0 < length buffer.old }
    requires room { number < 10 ^ length buffer.old }
    ensures digits { drop result buffer.new ≡ decimal number }
    ensures within { result < length buffer.new }
{
    let mut rest = number;
    let mut at = buffer.len() - 1;
    while rest >= 10 {
        buffer[at] = b'0' + (rest % 10) as u8;
        rest /= 10;
        at -= 1;
    }
    buffer[at] = b'0' + rest as u8;
    at
}

/// Appends bytes.
pub fn put(out: &mut Vec<u8>, text: &[u8]) -> Result<(), Memory>
    ensures { OnOk result (out.new.items ≡ out.old.items ++ text.now) }
{
    out.extend_from_slice(text)?;
    Ok(())
}

/// Appends the decimal digits of a number, without leading zeros.
pub fn put_u64(out: &mut Vec<u8>, number: u64) -> Result<(), Memory>
    ensures ok { OnOk result (out.new.items ≡ out.old.items ++ decimal number) }
    ensures err { OnErr result (out.new.items ≡ out.old.items) }
{
    let mut buffer = [0u8; 20];
    let start = fill_digits(&mut buffer, number);
    out.extend_from_slice(&buffer[start..])?;
    Ok(())
}

/// Appends the decimal digits of a number, without leading zeros.
pub fn put_u128(out: &mut Vec<u8>, number: u128) -> Result<(), Memory>
    ensures ok { OnOk result (out.new.items ≡ out.old.items ++ decimal number) }
    ensures err { OnErr result (out.new.items ≡ out.old.items) }
{
    if number <= 18446744073709551615 {
        return put_u64(out, number as u64);
    }
    let mut buffer = [0u8; 39];
    let start = fill_wide_digits(&mut buffer, number);
    out.extend_from_slice(&buffer[start..])?;
    Ok(())
}

/// Appends the decimal digits of a number, without leading zeros, behind a `-` where it is below 0.
pub fn put_i64(out: &mut Vec<u8>, number: i64) -> Result<(), Memory>
    ensures ok { OnOk result (out.new.items ≡ out.old.items ++ signed_decimal number) }
    ensures err { OnErr result (out.new.items ≡ out.old.items) }
{
    if number >= 0 {
        return put_u64(out, number as u64);
    }
    let mut buffer = [0u8; 21];
    let start = fill_digits(&mut buffer, number.unsigned_abs()) - 1;
    buffer[start] = b'-';
    out.extend_from_slice(&buffer[start..])?;
    Ok(())
}
