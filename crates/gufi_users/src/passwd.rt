//! The passwd file.
ghost use Rattle.std.specs.Prelude.{◌≡◌, Ok, Err, Some, None, MatchOption, MatchResult, IfOk, map};
ghost use Rattle.std.specs.Map.{lookup};
ghost use Rattle.indexmap.specs.IndexMap.{values};
ghost use Rattle.gufi_base.specs.Basics.{GivesUnless, split};
ghost use Rattle.gufi_users.specs.declared.passwd.Account.{Account};
ghost use Rattle.gufi_users.specs.Rows.{is_named};
ghost use Rattle.gufi_users.specs.Users.{passwd_texts, read_passwd_line, user_name, read_passwd};

use crate::fault::{UserError, UserKind};
use crate::table::{FromLine, read_table};
use gufi_base::{Pieces, pieces_of, read_u32};
use indexmap::IndexMap;
use std::alloc::{AllocError, Global};
use std::marker::Model;

/// The numbers of a user.
#[derive(Clone, Copy)]
pub(crate) struct Account {
    pub(crate) uid: u32,
    pub(crate) gid: u32,
}

impl FromLine for Account {
    ghost use Rattle.std.specs.Prelude.{refl};
    ghost use Rattle.gufi_users.specs.Entries.{PasswdEntry};
    ghost use Rattle.gufi_users.specs.Rows.{passwd_entry};
    ghost use Rattle.gufi_users.specs.Users.{user_name, read_passwd_line};

    ghost Entry = { PasswdEntry };

    ghost entry = { passwd_entry };

    ghost name_of = { user_name };

    ghost means = { read_passwd_line };

    ghost named = { λ _. refl };

    fn from_line(alloc: Global, number: u32, text: &[u8]) -> Result<(Vec<u8>, Self), UserError> {
        match user_line(text) {
            Ok(line) => Ok((Vec::from_slice(alloc, line.name)?, line.account)),
            Err(kind) => Err(UserError::Fault { line: number, kind }),
        }
    }
}

/// The users of a passwd file, in file order and by name.
#[derive(Drop)]
pub struct Passwd {
    rows: IndexMap<Vec<u8>, Account>,
}

impl Model for Passwd {
    ghost use Rattle.std.specs.Prelude.{List};
    ghost use Rattle.gufi_users.specs.Entries.{PasswdEntry};

    ghost Value = { List PasswdEntry };

    ghost use Rattle.gufi_users.specs.Rows.{passwd_rows};

    ghost view = { λ p. passwd_rows p.rows.entries };
}

impl Passwd {
    ghost use Rattle.std.specs.Prelude.{IfOk, bytes_eq, find, map, option_map, slice_get};
    ghost use Rattle.gufi_users.specs.Entries.{PasswdEntry};

    /// The uids, in file order.
    #[tactic(auto, using(crate::proofs::TableLemmas::passwd_uids))]
    pub(crate) fn uids(&self, alloc: Global) -> Result<Vec<u32>, AllocError>
        ensures { IfOk result (λ uids. uids.items ≡ map (λ (user : PasswdEntry). user.uid) self.now) }
    {
        uids_of(alloc, &self.rows)
    }

    /// The numbers of the user of that name.
    pub(crate) fn account_of(&self, name: &[u8]) -> Option<Account>
        ensures { MatchOption result
            (find (λ user. bytes_eq name.now user.name) self.now ≡ None)
            (λ account. find (λ user. bytes_eq name.now user.name) self.now ≡ Some (record { name = name.now; uid = account.uid; gid = account.gid })) }
    {
        account_in(&self.rows, name)
    }

    /// The name of the user at a place.
    pub(crate) fn name_at(&self, place: usize) -> Option<&[u8]>
        ensures { MatchOption result
            (option_map user_name (slice_get self.now place) ≡ None)
            (λ name. option_map user_name (slice_get self.now place) ≡ Some name.now) }
    {
        let (name, _) = self.rows.get_index(place)?;
        Some(name.as_slice())
    }
}

fn uids_of(alloc: Global, rows: &IndexMap<Vec<u8>, Account>) -> Result<Vec<u32>, AllocError>
    ensures { IfOk result (λ uids. uids.items ≡ map (λ (account : Account). account.uid) (values rows.now)) }
{
    rows.values().map(|account| account.uid).collect(alloc)
}

fn account_in(rows: &IndexMap<Vec<u8>, Account>, name: &[u8]) -> Option<Account>
    ensures { result ≡ lookup (is_named name.now) rows.now.entries }
{
    rows.get(name).copied()
}

/// Reads a passwd file. One allocation a line, and one for the table each time it doubles.
#[tactic(auto, unfolding(crate::specs::Users::read_passwd))]
pub fn read_passwd(alloc: Global, bytes: &[u8]) -> Result<Passwd, UserError>
    ensures { GivesUnless UserError.Memory result (read_passwd bytes.now) }
{
    let rows = read_table(alloc, bytes)?;
    Ok(Passwd { rows })
}

// The texts of a line that are read.
#[derive(Clone, Copy)]
struct UserFields<'a> {
    name: &'a [u8],
    uid: &'a [u8],
    gid: &'a [u8],
}

// A line that has its form.
#[derive(Clone, Copy)]
struct UserLine<'a> {
    name: &'a [u8],
    account: Account,
}

// The seven fields of a line, of which the name isn't empty.
fn user_fields(text: &[u8]) -> Option<UserFields<'_>>
    ensures { MatchOption result
        (passwd_texts (split 58 text.now) ≡ None)
        (λ f. passwd_texts (split 58 text.now) ≡ Some (record { name = f.name.now; uid = f.uid.now; gid = f.gid.now })) }
{
    let mut parts = pieces_of(text, b":");
    take_user_fields(&mut parts)
}

fn take_user_fields<'a>(parts: &mut Pieces<'a, '_>) -> Option<UserFields<'a>>
    ensures { MatchOption result
        (passwd_texts parts.old ≡ None)
        (λ f. passwd_texts parts.old ≡ Some (record { name = f.name.now; uid = f.uid.now; gid = f.gid.now })) }
{
    let name = parts.next()?;
    let _password = parts.next()?;
    let uid = parts.next()?;
    let gid = parts.next()?;
    let _comment = parts.next()?;
    let _home = parts.next()?;
    let _shell = parts.next()?;
    if parts.next().is_some() {
        return None;
    }
    if name.is_empty() {
        return None;
    }
    Some(UserFields { name, uid, gid })
}

// A line, whatever the other lines.
#[tactic(auto, unfolding(crate::specs::Users::read_passwd_line))]
fn user_line(text: &[u8]) -> Result<UserLine<'_>, UserKind>
    ensures { MatchResult result
        (λ line. read_passwd_line text.now ≡ Ok (record { name = line.name.now; uid = line.account.uid; gid = line.account.gid }))
        (λ kind. read_passwd_line text.now ≡ Err kind) }
{
    let Some(fields) = user_fields(text) else {
        return Err(UserKind::Fields);
    };
    let Some(uid) = read_u32(fields.uid) else {
        return Err(UserKind::Number);
    };
    let Some(gid) = read_u32(fields.gid) else {
        return Err(UserKind::Number);
    };
    Ok(UserLine {
        name: fields.name,
        account: Account { uid, gid },
    })
}
