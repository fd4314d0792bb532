//! The passwd and group files that the words name.
ghost use Rattle.std.specs.Prelude.{◌≡◌, ◌+◌, [], unwrap_or, IfErr, Err};
ghost use Rattle.gufi_io.specs.Calls.{many_more};
ghost use Rattle.gufi_io.specs.Kept.{Keeps};
ghost use Rattle.gufi_top.specs.Views.{bytes_view};
ghost use Rattle.gufi_top.specs.Reasons.{named_count, optional_file, user_reason, passwd_within, group_within, passwd_in, group_in, tables_beside, tables_in};
ghost use Rattle.gufi_top.specs.Calls.{Gives, GivesOver, IsOfBytes, IsPastWords, HaltHasCause, Opens};

use crate::halt::{Halt, refused};
use crate::note;
use crate::reading::read_file;
use gufi_base::Text;
use gufi_io::Shelf;
use gufi_users::{Groups, Passwd, UserError, UserKind, Users, read_group, read_passwd};
use std::alloc::Global;

/// How many bytes a passwd or group file may have.
const MAX_USERS: u32 = 67_108_864;

// The name of a file that may be named.
fn shown(name: &Option<Text>) -> &str
    ensures { result.now ≡ unwrap_or name.now [] }
{
    match name {
        Some(name) => name.as_str(),
        None => "",
    }
}

// The bytes of a file that may be named.
#[tactic(auto, unfolding(crate::specs::Reasons::optional_file, gufi_io::specs::Calls::many_more))]
fn read_optional<F: Shelf>(
    alloc: Global,
    shelf: &mut F,
    name: &Option<Text>,
) -> Result<Vec<u8>, Halt>
    ensures bytes { GivesOver (F.files shelf.old) bytes_view result (optional_file name.now) }
    ensures past_words { IfErr result IsPastWords }
    ensures cause { IfErr result (HaltHasCause F.Shelf shelf.old shelf.new) }
    ensures opens { F.opens shelf.new ≡ many_more (F.opens shelf.old) (named_count name.now) }
    ensures kept { Keeps F.Shelf shelf.old shelf.new }
{
    match name {
        Some(name) => read_file(alloc, shelf, name.as_str(), MAX_USERS),
        None => Ok(Vec::new(alloc)),
    }
}

// A file of users isn't read: a line is faulty, or there are too many.
#[tactic(auto, unfolding(crate::specs::Reasons::user_reason))]
fn refuse_line<T>(alloc: Global, name: &str, line: u32, kind: UserKind) -> Result<T, Halt>
    ensures reason { Gives (λ (x : T). x) result (Err (user_reason name.now (UserError.Fault line kind))) }
    ensures of_bytes { IfErr result IsOfBytes }
    ensures past_words { IfErr result IsPastWords }
{
    if let UserKind::TooMany { limit } = kind {
        return refused(6, note::past_limit(alloc, name, limit)?);
    }
    refused(5, note::user_line(alloc, name, line, kind)?)
}

// The users that the bytes of a passwd file hold.
fn passwd_of(alloc: Global, name: &Option<Text>, bytes: &[u8]) -> Result<Passwd, Halt>
    ensures users { Gives (λ users. users) result (passwd_within name.now bytes.now) }
    ensures of_bytes { IfErr result IsOfBytes }
    ensures past_words { IfErr result IsPastWords }
{
    match read_passwd(alloc, bytes) {
        Ok(passwd) => Ok(passwd),
        Err(UserError::Fault { line, kind }) => refuse_line(alloc, shown(name), line, kind),
        Err(UserError::Memory) => Err(Halt::Memory),
    }
}

// The groups that the bytes of a group file hold.
fn groups_of(alloc: Global, name: &Option<Text>, bytes: &[u8]) -> Result<Groups, Halt>
    ensures groups { Gives (λ groups. groups) result (group_within name.now bytes.now) }
    ensures of_bytes { IfErr result IsOfBytes }
    ensures past_words { IfErr result IsPastWords }
{
    match read_group(alloc, bytes) {
        Ok(groups) => Ok(groups),
        Err(UserError::Fault { line, kind }) => refuse_line(alloc, shown(name), line, kind),
        Err(UserError::Memory) => Err(Halt::Memory),
    }
}

fn read_passwd_file<F: Shelf>(
    alloc: Global,
    shelf: &mut F,
    name: &Option<Text>,
) -> Result<Passwd, Halt>
    ensures users { GivesOver (F.files shelf.old) (λ users. users) result (passwd_in name.now) }
    ensures past_words { IfErr result IsPastWords }
    ensures cause { IfErr result (HaltHasCause F.Shelf shelf.old shelf.new) }
    ensures opens { F.opens shelf.new ≡ many_more (F.opens shelf.old) (named_count name.now) }
    ensures kept { Keeps F.Shelf shelf.old shelf.new }
{
    match read_optional(alloc, shelf, name) {
        Ok(bytes) => passwd_of(alloc, name, &bytes),
        Err(halt) => Err(halt),
    }
}

fn read_group_file<F: Shelf>(
    alloc: Global,
    shelf: &mut F,
    name: &Option<Text>,
) -> Result<Groups, Halt>
    ensures groups { GivesOver (F.files shelf.old) (λ groups. groups) result (group_in name.now) }
    ensures past_words { IfErr result IsPastWords }
    ensures cause { IfErr result (HaltHasCause F.Shelf shelf.old shelf.new) }
    ensures opens { F.opens shelf.new ≡ many_more (F.opens shelf.old) (named_count name.now) }
    ensures kept { Keeps F.Shelf shelf.old shelf.new }
{
    match read_optional(alloc, shelf, name) {
        Ok(bytes) => groups_of(alloc, name, &bytes),
        Err(halt) => Err(halt),
    }
}

// Both tables of two files.
fn tables_of(alloc: Global, passwd: Passwd, groups: Groups) -> Result<Users, Halt>
    ensures tables { Gives (λ users. users) result (Ok (record { users = passwd; groups = groups })) }
    ensures of_bytes { IfErr result IsOfBytes }
    ensures past_words { IfErr result IsPastWords }
{
    match Users::of(alloc, passwd, groups) {
        Ok(users) => Ok(users),
        Err(_) => Err(Halt::Memory),
    }
}

// The tables of users that are read and of a group file.
#[tactic(auto, using(crate::proofs::StepLemmas::tables, crate::proofs::StepLemmas::cause_later, crate::proofs::StepLemmas::cause_of_bytes))]
fn read_groups_beside<F: Shelf>(
    alloc: Global,
    shelf: &mut F,
    users: Passwd,
    group: &Option<Text>,
) -> Result<Users, Halt>
    ensures tables { GivesOver (F.files shelf.old) (λ users. users) result (tables_beside users group.now) }
    ensures past_words { IfErr result IsPastWords }
    ensures cause { IfErr result (HaltHasCause F.Shelf shelf.old shelf.new) }
    ensures opens { F.opens shelf.new ≡ many_more (F.opens shelf.old) (named_count group.now) }
    ensures kept { Keeps F.Shelf shelf.old shelf.new }
{
    match read_group_file(alloc, shelf, group) {
        Ok(groups) => tables_of(alloc, users, groups),
        Err(halt) => Err(halt),
    }
}

/// The users and groups of the files that are named; one that isn't stands for an empty file. The passwd file is read first.
#[tactic(auto, using(crate::proofs::StepLemmas::tables, crate::proofs::StepLemmas::cause_later))]
pub(crate) fn read_users<F: Shelf>(
    alloc: Global,
    shelf: &mut F,
    passwd: &Option<Text>,
    group: &Option<Text>,
) -> Result<Users, Halt>
    ensures tables { GivesOver (F.files shelf.old) (λ users. users) result (tables_in passwd.now group.now) }
    ensures past_words { IfErr result IsPastWords }
    ensures cause { IfErr result (HaltHasCause F.Shelf shelf.old shelf.new) }
    ensures opens { Opens F.Shelf result (named_count passwd.now + named_count group.now) shelf.old shelf.new }
    ensures kept { Keeps F.Shelf shelf.old shelf.new }
{
    match read_passwd_file(alloc, shelf, passwd) {
        Ok(users) => read_groups_beside(alloc, shelf, users, group),
        Err(halt) => Err(halt),
    }
}
