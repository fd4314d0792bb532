//! The arguments of primaries.
ghost use Rattle.std.specs.Prelude.{◌≡◌, false, true, drop, option_map, MatchOption, Ok};
ghost use Rattle.std.specs.Option.{option_or};
ghost use Rattle.std.specs.Result.{result_ok};
ghost use Rattle.gufi_base.specs.Basics.{last_of, all_but_last};
ghost use Rattle.gufi_base.specs.Numbers.{read_u32};
ghost use Rattle.gufi_users.specs.Users.{uid_of, gid_of};
ghost use Rattle.gufi_glob.specs.Patterns.{read_pattern};
ghost use Rattle.gufi_find.specs.Operands.{begins_with, read_comparison, unit_of, read_size, read_mode, as_test, read_operand};
ghost use Rattle.gufi_find.specs.WordFaults.{Gives};

use crate::comparison::{Comparison, SizeUnit};
use crate::fault::{FindKind, WordFault};
use crate::test::Test;
use gufi_base::{read_kind, read_octal, read_u32, read_u64};
use gufi_glob::{Glob, GlobFault};
use gufi_users::Users;
use std::alloc::Global;

/// What an argument is for. Moments are in seconds since the epoch.
#[derive(Clone, Copy, Debug, PartialEq, Eq)]
pub enum Operand {
    Name,
    Path,
    Kind,
    Size,
    Atime(i64),
    Mtime(i64),
    Ctime(i64),
    Links,
    Mode,
    User,
    Group,
    LeastDepth,
    MostDepth,
}

/// What an argument makes: a test, or a bound of depth.
#[derive(Drop)]
pub enum Item {
    OfTest(Test),
    LeastDepth(u32),
    MostDepth(u32),
}

/// What is behind a first byte, where it is this one.
fn behind_sign(word: &[u8], sign: u8) -> Option<&[u8]>
    ensures { MatchOption result
        (begins_with sign word.now ≡ false)
        (λ rest. (begins_with sign word.now ≡ true) × (rest.now ≡ drop 1 word.now)) }
{
    match word {
        [first, ..] if *first == sign => Some(&word[1..]),
        _ => None,
    }
}

/// `n`, `+n` or `-n`.
fn read_comparison(word: &[u8]) -> Option<Comparison>
    ensures { result ≡ read_comparison word.now }
{
    if let Some(rest) = behind_sign(word, b'+') {
        return Some(Comparison::MoreThan(read_u64(rest)?));
    }
    if let Some(rest) = behind_sign(word, b'-') {
        return Some(Comparison::LessThan(read_u64(rest)?));
    }
    Some(Comparison::EqualTo(read_u64(word)?))
}

/// The unit that a last letter of a size names.
fn unit_of(letter: u8) -> Option<SizeUnit>
    ensures { result ≡ unit_of letter }
{
    match letter {
        b'c' => Some(SizeUnit::Bytes),
        b'b' => Some(SizeUnit::Blocks),
        b'k' => Some(SizeUnit::Kibibytes),
        b'M' => Some(SizeUnit::Mebibytes),
        b'G' => Some(SizeUnit::Gibibytes),
        _ => None,
    }
}

/// The last byte, or 0 where there is none.
#[tactic(auto, using(crate::proofs::WordLemmas::last_at))]
fn last_byte(word: &[u8]) -> u8
    ensures { result ≡ last_of 0 word.now }
{
    if word.is_empty() {
        0
    } else {
        word[word.len() - 1]
    }
}

/// The bytes without the last.
#[tactic(auto, using(crate::proofs::WordLemmas::front_at))]
fn without_last(word: &[u8]) -> &[u8]
    ensures { result.now ≡ all_but_last word.now }
{
    if word.is_empty() {
        return word;
    }
    let (front, _) = word.split_at(word.len() - 1);
    front
}

/// A size with its unit, which is 512 bytes where none is named.
fn read_size(word: &[u8]) -> Option<Test>
    ensures { result ≡ read_size word.now }
{
    match unit_of(last_byte(word)) {
        Some(unit) => Some(Test::SizeIs(unit, read_comparison(without_last(word))?)),
        None => Some(Test::SizeIs(SizeUnit::Blocks, read_comparison(word)?)),
    }
}

/// A mode in octal, or behind a `-` bits that are wanted.
fn read_mode(word: &[u8]) -> Option<Test>
    ensures { result ≡ read_mode word.now }
{
    if let Some(rest) = behind_sign(word, b'-') {
        return Some(Test::ModeHas(read_octal(rest)?));
    }
    Some(Test::ModeIs(read_octal(word)?))
}

/// The uid of a name, or a number that is no name.
fn read_user(users: &Users, word: &[u8]) -> Option<u32>
    ensures { result ≡ option_or (uid_of users.now word.now) (read_u32 word.now) }
{
    match users.uid_of(word) {
        Some(uid) => Some(uid),
        None => read_u32(word),
    }
}

/// The gid of a name, or a number that is no name.
fn read_group(users: &Users, word: &[u8]) -> Option<u32>
    ensures { result ≡ option_or (gid_of users.now word.now) (read_u32 word.now) }
{
    match users.gid_of(word) {
        Some(gid) => Some(gid),
        None => read_u32(word),
    }
}

/// A test, or the fault of its argument.
fn needed(test: Option<Test>, fault: FindKind) -> Result<Item, WordFault>
    ensures { Gives (λ item. item) result (as_test fault test) }
{
    match test {
        Some(test) => Ok(Item::OfTest(test)),
        None => Err(WordFault::Kind(fault)),
    }
}

/// A pattern, or none where the word is none.
fn read_glob(alloc: Global, word: &[u8]) -> Result<Option<Glob>, WordFault>
    ensures { Gives (λ glob. glob) result (Ok (result_ok (read_pattern word.now))) }
{
    match Glob::read(alloc, word) {
        Ok(glob) => Ok(Some(glob)),
        Err(GlobFault::BadPattern) => Ok(None),
        Err(GlobFault::Memory) => Err(WordFault::Memory),
    }
}

/// What an argument makes.
#[tactic(auto, unfolding(crate::specs::Operands::read_operand))]
pub(crate) fn read_operand(
    alloc: Global,
    users: &Users,
    operand: Operand,
    word: &[u8],
) -> Result<Item, WordFault>
    ensures { Gives (λ item. item) result (read_operand users.now operand word.now) }
{
    match operand {
        Operand::Name => {
            let glob = read_glob(alloc, word)?;
            needed(glob.map(Test::NameMatches), FindKind::BadPattern)
        }
        Operand::Path => {
            let glob = read_glob(alloc, word)?;
            needed(glob.map(Test::PathMatches), FindKind::BadPattern)
        }
        Operand::Kind => needed(read_kind(word).map(Test::KindIs), FindKind::BadType),
        Operand::Size => needed(read_size(word), FindKind::BadNumber),
        Operand::Atime(now) => needed(
            read_comparison(word).map(|days| Test::AtimeIs(now, days)),
            FindKind::BadNumber,
        ),
        Operand::Mtime(now) => needed(
            read_comparison(word).map(|days| Test::MtimeIs(now, days)),
            FindKind::BadNumber,
        ),
        Operand::Ctime(now) => needed(
            read_comparison(word).map(|days| Test::CtimeIs(now, days)),
            FindKind::BadNumber,
        ),
        Operand::Links => needed(
            read_comparison(word).map(Test::LinksAre),
            FindKind::BadNumber,
        ),
        Operand::Mode => needed(read_mode(word), FindKind::BadNumber),
        Operand::User => needed(
            read_user(users, word).map(Test::UserIs),
            FindKind::UnknownUser,
        ),
        Operand::Group => needed(
            read_group(users, word).map(Test::GroupIs),
            FindKind::UnknownGroup,
        ),
        Operand::LeastDepth => match read_u32(word) {
            Some(depth) => Ok(Item::LeastDepth(depth)),
            None => Err(WordFault::Kind(FindKind::BadNumber)),
        },
        Operand::MostDepth => match read_u32(word) {
            Some(depth) => Ok(Item::MostDepth(depth)),
            None => Err(WordFault::Kind(FindKind::BadNumber)),
        },
    }
}
