//! Tokens.
ghost use Rattle.std.specs.Prelude.{◌≡◌, ◌≤◌, length, false, IfOk};
ghost use Rattle.std.specs.List.{take_while};
ghost use Rattle.gufi_select.specs.Tokens.{is_blank, is_digit, is_word_start, is_word_byte, pair_sign, single_sign, sign_at, quoted, text_at, front_token};

use crate::operator::Operator;
use crate::word::{Word, word_of};
use gufi_base::{Bytes, read_u64};
use std::alloc::{AllocError, Global};

/// A sign of the grammar.
#[derive(Clone, Copy)]
pub enum Sign {
    Comma,
    Open,
    Close,
    Star,
    Semicolon,
    Minus,
    Compare(Operator),
}

/// What begins at a byte that is no blank.
#[derive(Drop)]
pub enum Token {
    /// Letters, digits and `_`, the first of which is no digit.
    Word(Word),
    /// The number, where it has at most 64 bits.
    Digits(Option<u64>),
    Text(Bytes),
    /// A text without its closing quote.
    OpenText,
    Sign(Sign),
    /// A byte that begins no token.
    Stray,
}

/// A token, and how many bytes it has.
#[derive(Drop)]
pub struct Front {
    pub token: Token,
    pub size: usize,
}

/// What stands behind an opening quote: the text, how many bytes were read, and whether a quote closes it.
#[derive(Drop)]
pub struct Quoted {
    pub bytes: Bytes,
    pub count: usize,
    pub closed: bool,
}

/// Whether a byte separates tokens.
pub fn is_blank(byte: u8) -> bool
    ensures { result ≡ is_blank byte }
{
    byte == b' ' || byte == b'\t' || byte == b'\n'
}

fn is_digit(byte: u8) -> bool
    ensures { result ≡ is_digit byte }
{
    b'0' <= byte && byte <= b'9'
}

fn is_word_start(byte: u8) -> bool
    ensures { result ≡ is_word_start byte }
{
    (b'A' <= byte && byte <= b'Z') || (b'a' <= byte && byte <= b'z') || byte == b'_'
}

fn is_word_byte(byte: u8) -> bool
    ensures { result ≡ is_word_byte byte }
{
    is_word_start(byte) || is_digit(byte)
}

/// The letters, digits and `_` at the front.
pub fn word_front(bytes: &[u8]) -> &[u8]
    ensures { result.now ≡ take_while is_word_byte bytes.now }
{
    let mut size = 0;
    'letters: while size < bytes.len() && is_word_byte(bytes[size]) {
        size += 1;
    }
    &bytes[..size]
}

/// The digits at the front.

fn digits_front(bytes: &[u8]) -> &[u8]
    ensures { result.now ≡ take_while is_digit bytes.now }
{
    let mut size = 0;
    'digits: while size < bytes.len() && is_digit(bytes[size]) {
        size += 1;
    }
    &bytes[..size]
}

/// The sign of two bytes.
fn pair_sign(first: u8, second: u8) -> Option<Sign>
    ensures { result ≡ pair_sign first second }
{
    if first == b'<' && second == b'>' {
        return Some(Sign::Compare(Operator::Unequal));
    }
    if first == b'<' && second == b'=' {
        return Some(Sign::Compare(Operator::AtMost));
    }
    if first == b'!' && second == b'=' {
        return Some(Sign::Compare(Operator::Unequal));
    }
    if first == b'>' && second == b'=' {
        return Some(Sign::Compare(Operator::AtLeast));
    }
    None
}

/// What a byte is that begins no longer token.
fn single_sign(byte: u8) -> Token
    ensures { result ≡ single_sign byte }
{
    match byte {
        b',' => Token::Sign(Sign::Comma),
        b'(' => Token::Sign(Sign::Open),
        b')' => Token::Sign(Sign::Close),
        b'*' => Token::Sign(Sign::Star),
        b';' => Token::Sign(Sign::Semicolon),
        b'-' => Token::Sign(Sign::Minus),
        b'=' => Token::Sign(Sign::Compare(Operator::Equal)),
        b'<' => Token::Sign(Sign::Compare(Operator::Below)),
        b'>' => Token::Sign(Sign::Compare(Operator::Above)),
        _ => Token::Stray,
    }
}

/// The sign at the front, the longest one.
fn sign_at(first: u8, rest: &[u8]) -> Front
    ensures { result ≡ sign_at first rest.now }
{
    if let [second, ..] = rest {
        if let Some(sign) = pair_sign(first, *second) {
            return Front {
                token: Token::Sign(sign),
                size: 2,
            };
        }
    }
    Front {
        token: single_sign(first),
        size: 1,
    }
}

/// The text behind an opening quote, in which two quotes stand for one.
fn read_quoted(alloc: Global, rest: &[u8]) -> Result<Quoted, AllocError>
    ensures text { IfOk result (λ q. q ≡ quoted false rest.now) }
    ensures within { IfOk result (λ q. q.count ≤ length rest.now) }
{
    let mut text = Vec::new(alloc);
    let mut count = 0;
    let mut after = false;
    'bytes: for byte in rest {
        if *byte == b'\'' {
            if after {
                text.push(b'\'')?;
            }
            after = !after;
        } else if after {
            return Ok(Quoted {
                bytes: Bytes::of(text),
                count,
                closed: true,
            });
        } else {
            text.push(*byte)?;
        }
        count += 1;
    }
    Ok(Quoted {
        bytes: Bytes::of(text),
        count,
        closed: after,
    })
}

/// The text that begins with the quote before these bytes.
fn text_at(alloc: Global, rest: &[u8]) -> Result<Front, AllocError>
    ensures { IfOk result (λ front. front ≡ text_at rest.now) }
{
    let Quoted {
        bytes,
        count,
        closed,
    } = read_quoted(alloc, rest)?;
    let token = if closed {
        Token::Text(bytes)
    } else {
        Token::OpenText
    };
    Ok(Front {
        token,
        size: count + 1,
    })
}

/// The token that a byte begins, which is the first of these bytes; the others follow it.
///
/// Memory for a text alone. Time in proportion to the token's bytes.
pub fn front_token(alloc: Global, first: u8, rest: &[u8], bytes: &[u8]) -> Result<Front, AllocError>
    ensures { IfOk result (λ front. front ≡ front_token first rest.now bytes.now) }
{
    if is_word_start(first) {
        let letters = word_front(bytes);
        return Ok(Front {
            token: Token::Word(word_of(letters)),
            size: letters.len(),
        });
    }
    if is_digit(first) {
        let digits = digits_front(bytes);
        return Ok(Front {
            token: Token::Digits(read_u64(digits)),
            size: digits.len(),
        });
    }
    if first == b'\'' {
        return text_at(alloc, rest);
    }
    Ok(sign_at(first, rest))
}
