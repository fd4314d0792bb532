//! The words that begin a primary.
ghost use Rattle.std.specs.Prelude.{◌≡◌, map, IfOk};
ghost use Rattle.gufi_base.specs.Basics.{distinct};
ghost use Rattle.gufi_users.specs.Entries.{PasswdEntry, GroupEntry};
ghost use Rattle.gufi_find.specs.Operands.{primary_named, primary_of};

use crate::numbers::NumberSet;
use crate::operand::Operand;
use crate::test::Test;
use crate::word::is_word;
use gufi_users::Users;
use std::alloc::{AllocError, Global};

/// A word that begins a primary.
#[derive(Clone, Copy, Debug, PartialEq, Eq)]
pub enum PrimaryName {
    Name,
    Path,
    Kind,
    Size,
    Atime,
    Mtime,
    Ctime,
    Links,
    Perm,
    User,
    Group,
    NoUser,
    NoGroup,
    MinDepth,
    MaxDepth,
}

/// What it begins: a test by itself, one that takes an argument, or one that can't be judged without a moment.
#[derive(Drop)]
pub enum Primary {
    Alone(Test),
    Taking(Operand),
    WithoutNow,
}

impl PrimaryName {
    #[tactic(auto, unfolding(crate::specs::Operands::primary_named))]
    pub(crate) fn of(word: &[u8]) -> Option<PrimaryName>
        ensures { result ≡ primary_named word.now }
    {
        match word {
            _ if is_word(word, b"-name") => Some(PrimaryName::Name),
            _ if is_word(word, b"-path") => Some(PrimaryName::Path),
            _ if is_word(word, b"-type") => Some(PrimaryName::Kind),
            _ if is_word(word, b"-size") => Some(PrimaryName::Size),
            _ if is_word(word, b"-atime") => Some(PrimaryName::Atime),
            _ if is_word(word, b"-mtime") => Some(PrimaryName::Mtime),
            _ if is_word(word, b"-ctime") => Some(PrimaryName::Ctime),
            _ if is_word(word, b"-links") => Some(PrimaryName::Links),
            _ if is_word(word, b"-perm") => Some(PrimaryName::Perm),
            _ if is_word(word, b"-user") => Some(PrimaryName::User),
            _ if is_word(word, b"-group") => Some(PrimaryName::Group),
            _ if is_word(word, b"-nouser") => Some(PrimaryName::NoUser),
            _ if is_word(word, b"-nogroup") => Some(PrimaryName::NoGroup),
            _ if is_word(word, b"-mindepth") => Some(PrimaryName::MinDepth),
            _ if is_word(word, b"-maxdepth") => Some(PrimaryName::MaxDepth),
            _ => None,
        }
    }
}

fn unnamed_user(alloc: Global, users: &Users) -> Result<Test, AllocError>
    ensures { IfOk result (λ t. t ≡ Test.UserNotIn (distinct (map (λ (user : PasswdEntry). user.uid) users.now.users))) }
{
    let uids = users.uids(alloc)?;
    Ok(Test::UserNotIn(NumberSet::of(alloc, uids.as_slice())?))
}

fn unnamed_group(alloc: Global, users: &Users) -> Result<Test, AllocError>
    ensures { IfOk result (λ t. t ≡ Test.GroupNotIn (distinct (map (λ (entry : GroupEntry). entry.gid) users.now.groups))) }
{
    let gids = users.gids(alloc)?;
    Ok(Test::GroupNotIn(NumberSet::of(alloc, gids.as_slice())?))
}

/// What a primary wants, where times count back from `now`.
#[tactic(auto, unfolding(crate::specs::Operands::primary_of))]
pub(crate) fn primary_of(
    alloc: Global,
    users: &Users,
    now: Option<i64>,
    name: PrimaryName,
) -> Result<Primary, AllocError>
    ensures { IfOk result (λ primary. primary ≡ primary_of users.now now name) }
{
    let operand = match name {
        PrimaryName::NoUser => return Ok(Primary::Alone(unnamed_user(alloc, users)?)),
        PrimaryName::NoGroup => return Ok(Primary::Alone(unnamed_group(alloc, users)?)),
        PrimaryName::Atime => now.map(Operand::Atime),
        PrimaryName::Mtime => now.map(Operand::Mtime),
        PrimaryName::Ctime => now.map(Operand::Ctime),
        PrimaryName::Name => Some(Operand::Name),
        PrimaryName::Path => Some(Operand::Path),
        PrimaryName::Kind => Some(Operand::Kind),
        PrimaryName::Size => Some(Operand::Size),
        PrimaryName::Links => Some(Operand::Links),
        PrimaryName::Perm => Some(Operand::Mode),
        PrimaryName::User => Some(Operand::User),
        PrimaryName::Group => Some(Operand::Group),
        PrimaryName::MinDepth => Some(Operand::LeastDepth),
        PrimaryName::MaxDepth => Some(Operand::MostDepth),
    };
    match operand {
        Some(operand) => Ok(Primary::Taking(operand)),
        None => Ok(Primary::WithoutNow),
    }
}
