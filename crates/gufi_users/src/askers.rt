//! The users, beside the groups of those whom some words name.
ghost use Rattle.std.specs.Prelude.{◌≡◌, [], IfOk};
ghost use Rattle.gufi_users.specs.Members.{noted, Have};
ghost use Rattle.gufi_users.specs.Users.{principal_of};

use crate::users::Users;
use gufi_access::Principal;
use gufi_base::Memory;
use indexmap::IndexMap;
use std::alloc::{AllocError, Global};
use std::marker::Model;

/// The users, with the groups of those whom some words name, found by one look through the group file.
///
/// It takes memory by the names among the words and by how often the group file has these as members', whatever its size.
#[derive(Drop)]
pub struct Askers<'a> {
    users: &'a Users,
    gids: IndexMap<Vec<u8>, Vec<u32>>,
}

impl<'a> Model for Askers<'a> {
    ghost use Rattle.gufi_users.specs.Entries.{UserTables};

    ghost Value = { UserTables };

    ghost use Rattle.gufi_users.specs.Members.{noted, Have};

    ghost view = { λ a. a.users.now };

    ghost invariant = { λ a. Have (λ name. noted name a.users.now.groups) a.gids.entries };
}

/// A table of those words that are names of users, without gids.
fn names_among(
    alloc: Global,
    users: &Users,
    words: &[&[u8]],
) -> Result<IndexMap<Vec<u8>, Vec<u32>>, AllocError>
    ensures { IfOk result (λ gids. Have (λ name. []) gids.entries) }
{
    let mut gids = IndexMap::new(alloc);
    'words: for word in words {
        if users.uid_of(*word).is_none() || gids.contains_key(*word) {
            continue;
        }
        let name = Vec::from_slice(alloc, *word)?;
        gids.insert(name, Vec::new(alloc))?;
    }
    Ok(gids)
}

/// The gids of the groups that have a user as a member, for each user whom some words name. Without a name among them it looks at no
/// group.
fn gids_of(
    alloc: Global,
    users: &Users,
    words: &[&[u8]],
) -> Result<IndexMap<Vec<u8>, Vec<u32>>, AllocError>
    ensures { IfOk result (λ gids. Have (λ name. noted name users.now.groups) gids.entries) }
{
    let mut gids = names_among(alloc, users, words)?;
    if gids.is_empty() {
        return Ok(gids);
    }
    users.groups().note_gids(&mut gids)?;
    Ok(gids)
}

impl<'a> Askers<'a> {
    /// Looks through the group file once, whatever the number of words.
    pub fn of(alloc: Global, users: &'a Users, words: &[&[u8]]) -> Result<Askers<'a>, Memory>
        ensures { IfOk result (λ askers. askers ≡ users.now) }
    {
        let gids = gids_of(alloc, users, words)?;
        Ok(Askers { users, gids })
    }

    /// Who a word names, as `Users::principal` says. It looks through the group file only for a name that wasn't among the words.
    pub fn principal(&self, alloc: Global, word: &[u8]) -> Result<Option<Principal>, Memory>
        ensures { IfOk result (λ who. who ≡ principal_of self.now word.now) }
    {
        match self.gids.get(word) {
            Some(gids) => self.users.principal_in(alloc, word, gids),
            None => self.users.principal(alloc, word),
        }
    }
}
