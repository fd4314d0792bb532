//! What the tokens of an agg are.
ghost use Rattle.std.specs.Prelude.{◌≡◌, bytes_eq, ◌≤◌, length, position};
ghost use Rattle.gufi_select.specs.Names.{lower};
ghost use Rattle.gufi_agg.specs.AggTokens.{word_token, agg_token_of, stops, count_before, is_from, is_group, is_by, is_semicolon};

use crate::agg::AggKey;
use gufi_select::{Sign, Token, word_front};

/// What a group is asked for.
#[derive(Clone, Copy)]
pub enum Function {
    Count,
    Sum,
    Min,
    Max,
}

/// What a token is. Words are told without regard to the case of ASCII letters.
#[derive(Clone, Copy)]
pub enum AggToken {
    Select,
    From,
    Group,
    By,
    Key(AggKey),
    Function(Function),
    Size,
    Mtime,
    Comma,
    Open,
    Close,
    Star,
    Semicolon,
    Other,
}

/// A token, and the offset of its first byte.
#[derive(Clone, Copy)]
pub struct Placed {
    pub offset: usize,
    pub token: AggToken,
}

/// Whether letters are a name, which is in lower case.
#[tactic(auto, using(gufi_select::proofs::WordLemmas::same_name))]
fn is_name(letters: &[u8], name: &[u8]) -> bool
    requires { lower name.now ≡ name.now }
    ensures { result ≡ bytes_eq name.now (lower letters.now) }
{
    letters.eq_ignore_ascii_case(name)
}

fn word_token(letters: &[u8]) -> AggToken
    ensures { result ≡ word_token letters.now }
{
    match letters {
        _ if is_name(letters, b"select") => AggToken::Select,
        _ if is_name(letters, b"from") => AggToken::From,
        _ if is_name(letters, b"group") => AggToken::Group,
        _ if is_name(letters, b"by") => AggToken::By,
        _ if is_name(letters, b"uid") => AggToken::Key(AggKey::Uid),
        _ if is_name(letters, b"gid") => AggToken::Key(AggKey::Gid),
        _ if is_name(letters, b"type") => AggToken::Key(AggKey::Letter),
        _ if is_name(letters, b"level") => AggToken::Key(AggKey::Level),
        _ if is_name(letters, b"count") => AggToken::Function(Function::Count),
        _ if is_name(letters, b"sum") => AggToken::Function(Function::Sum),
        _ if is_name(letters, b"min") => AggToken::Function(Function::Min),
        _ if is_name(letters, b"max") => AggToken::Function(Function::Max),
        _ if is_name(letters, b"size") => AggToken::Size,
        _ if is_name(letters, b"mtime") => AggToken::Mtime,
        _ => AggToken::Other,
    }
}

/// What a token is, with which the bytes begin.
pub(crate) fn agg_token_of(token: &Token, bytes: &[u8]) -> AggToken
    ensures { result ≡ agg_token_of token.now bytes.now }
{
    match token {
        Token::Word(_) => word_token(word_front(bytes)),
        Token::Sign(Sign::Comma) => AggToken::Comma,
        Token::Sign(Sign::Open) => AggToken::Open,
        Token::Sign(Sign::Close) => AggToken::Close,
        Token::Sign(Sign::Star) => AggToken::Star,
        Token::Sign(Sign::Semicolon) => AggToken::Semicolon,
        _ => AggToken::Other,
    }
}

/// Whether reading stops at a token.
pub(crate) fn stops(token: &Token) -> bool
    ensures { result ≡ stops token.now }
{
    matches!(token, Token::Stray | Token::OpenText)
}

fn is_from(token: AggToken) -> bool
    ensures { result ≡ is_from token }
{
    matches!(token, AggToken::From)
}

fn is_group(token: AggToken) -> bool
    ensures { result ≡ is_group token }
{
    matches!(token, AggToken::Group)
}

pub(crate) fn is_by(token: AggToken) -> bool
    ensures { result ≡ is_by token }
{
    matches!(token, AggToken::By)
}

pub(crate) fn is_semicolon(token: AggToken) -> bool
    ensures { result ≡ is_semicolon token }
{
    matches!(token, AggToken::Semicolon)
}

/// Where the first FROM stands among tokens.
fn place_of_from(placed: &[Placed]) -> Option<usize>
    ensures { result ≡ position (λ p. is_from p.token) placed.now }
{
    placed.iter().position(|p| is_from(p.token))
}

/// Where the first GROUP stands among tokens.
fn place_of_group(placed: &[Placed]) -> Option<usize>
    ensures { result ≡ position (λ p. is_group p.token) placed.now }
{
    placed.iter().position(|p| is_group(p.token))
}

/// How many tokens stand before the first FROM.
pub(crate) fn count_before_from(placed: &[Placed]) -> usize
    ensures count { result ≡ count_before is_from placed.now }
    ensures within { result ≤ length placed.now }
{
    match place_of_from(placed) {
        Some(count) => count,
        None => placed.len(),
    }
}

/// How many tokens stand before the first GROUP.
pub(crate) fn count_before_group(placed: &[Placed]) -> usize
    ensures count { result ≡ count_before is_group placed.now }
    ensures within { result ≤ length placed.now }
{
    match place_of_group(placed) {
        Some(count) => count,
        None => placed.len(),
    }
}
