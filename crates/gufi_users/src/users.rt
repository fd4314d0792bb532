//! Both tables together: who a USER word names, and names by number.
//!
//! A table is let go by a call: what is let go at an early exit is proved there anew.
ghost use Rattle.std.specs.Prelude.{◌≡◌, ◌∷◌, Some, None, map, option_map, slice_get, IfOk, MatchOption};
ghost use Rattle.gufi_base.specs.Basics.{distinct};
ghost use Rattle.gufi_users.specs.Places.{AreFirst, AreIndexed};
ghost use Rattle.gufi_users.specs.Entries.{PasswdEntry, GroupEntry};
ghost use Rattle.gufi_users.specs.Members.{noted};
ghost use Rattle.gufi_users.specs.Users.{name_of_gid, name_of_uid, gid_of, uid_of, principal_of};

use crate::group::Groups;
use crate::passwd::{Account, Passwd};
use crate::place::{distinct_numbers, first_places, place_in};
use crate::word::numbered;
use gufi_access::{GroupList, Principal};
use gufi_base::Memory;
use std::alloc::{AllocError, Global};
use std::collections::HashMap;
use std::marker::Model;

/// The users and the groups, by name and by number.
#[derive(Drop)]
pub struct Users {
    passwd: Passwd,
    groups: Groups,
    uids: HashMap<u32, usize>,
    gids: HashMap<u32, usize>,
}

impl Model for Users {
    ghost use Rattle.gufi_users.specs.Entries.{UserTables};

    ghost Value = { UserTables };

    ghost use Rattle.gufi_users.specs.Places.{AreIndexed};

    ghost view = { λ u. record { users = u.passwd; groups = u.groups } };

    ghost invariant = { λ u. AreIndexed u.passwd u.groups u.uids u.gids };
}

/// Where each uid and each gid first stands.
#[derive(Drop)]
struct Places {
    uids: HashMap<u32, usize>,
    gids: HashMap<u32, usize>,
}

/// The place at which each uid first stands.
fn uid_places(alloc: Global, passwd: &Passwd) -> Result<HashMap<u32, usize>, AllocError>
    ensures { IfOk result (AreFirst (map (λ (user : PasswdEntry). user.uid) passwd.now)) }
{
    let numbers = passwd.uids(alloc)?;
    first_places(alloc, &numbers)
}

/// The place at which each gid first stands.
fn gid_places(alloc: Global, groups: &Groups) -> Result<HashMap<u32, usize>, AllocError>
    ensures { IfOk result (AreFirst (map (λ (entry : GroupEntry). entry.gid) groups.now)) }
{
    let numbers = groups.gids(alloc)?;
    first_places(alloc, &numbers)
}

fn places_of(alloc: Global, passwd: &Passwd, groups: &Groups) -> Result<Places, AllocError>
    ensures { IfOk result (λ places. AreIndexed passwd.now groups.now places.uids places.gids) }
{
    let uids = uid_places(alloc, passwd)?;
    let gids = gid_places(alloc, groups)?;
    Ok(Places { uids, gids })
}

/// A user in the group of his account and in others, each once.
fn principal_with(alloc: Global, account: Account, others: &[u32]) -> Result<Principal, AllocError>
    ensures { IfOk result (λ who. who ≡ record { uid = account.uid; groups = distinct (account.gid ∷ others.now) }) }
{
    let groups = distinct_numbers(alloc, account.gid, others)?;
    Ok(Principal {
        uid: account.uid,
        groups: GroupList::indexed(alloc, groups)?,
    })
}

impl Users {
    ghost use Rattle.gufi_users.specs.Entries.{UserTables};

    /// Both files, with tables by number that give the first row in file order.
    pub fn of(alloc: Global, passwd: Passwd, groups: Groups) -> Result<Users, Memory>
        ensures { IfOk result (λ users. users ≡ record { users = passwd; groups = groups }) }
    {
        let Ok(Places { uids, gids }) = places_of(alloc, &passwd, &groups) else {
            drop(passwd);
            drop(groups);
            return Err(Memory);
        };
        Ok(Users {
            passwd,
            groups,
            uids,
            gids,
        })
    }

    /// The name of a uid: the first in file order. Two look-ups.
    pub fn name_of_uid(&self, uid: u32) -> Option<&[u8]>
        ensures { MatchOption result
            (name_of_uid self.now uid ≡ None)
            (λ name. name_of_uid self.now uid ≡ Some name.now) }
    {
        match place_in(&self.uids, uid) {
            Some(place) => self.passwd.name_at(place),
            None => None,
        }
    }

    /// The name of a gid: the first in file order. Two look-ups.
    pub fn name_of_gid(&self, gid: u32) -> Option<&[u8]>
        ensures { MatchOption result
            (name_of_gid self.now gid ≡ None)
            (λ name. name_of_gid self.now gid ≡ Some name.now) }
    {
        match place_in(&self.gids, gid) {
            Some(place) => self.groups.name_at(place),
            None => None,
        }
    }

    /// The uid of a name. One look-up.
    pub fn uid_of(&self, name: &[u8]) -> Option<u32>
        ensures { result ≡ uid_of self.now name.now }
    {
        match self.passwd.account_of(name) {
            Some(account) => Some(account.uid),
            None => None,
        }
    }

    /// The gid of a name. One look-up.
    pub fn gid_of(&self, name: &[u8]) -> Option<u32>
        ensures { result ≡ gid_of self.now name.now }
    {
        self.groups.gid_named(name)
    }

    /// The uids of the users, in file order.
    pub fn uids(&self, alloc: Global) -> Result<Vec<u32>, AllocError>
        ensures { IfOk result (λ uids. uids.items ≡ map (λ (user : PasswdEntry). user.uid) self.now.users) }
    {
        self.passwd.uids(alloc)
    }

    /// The gids of the groups, in file order.
    pub fn gids(&self, alloc: Global) -> Result<Vec<u32>, AllocError>
        ensures { IfOk result (λ gids. gids.items ≡ map (λ (entry : GroupEntry). entry.gid) self.now.groups) }
    {
        self.groups.gids(alloc)
    }

    /// The groups, in file order and by name.
    pub(crate) fn groups(&self) -> &Groups
        ensures { result.now ≡ self.now.groups }
    {
        &self.groups
    }

    /// Who a word names: a user of that name, or else the numbers that it writes, as `UID`, `UID:` or `UID:GID,GID`.
    ///
    /// A named user has his passwd gid and the groups that list him, in file order and without repeats. A name costs a look through the
    /// group file: [`Askers`](crate::Askers) takes one for many names.
    #[tactic(auto, unfolding(crate::specs::Users::principal_of))]
    pub fn principal(&self, alloc: Global, word: &[u8]) -> Result<Option<Principal>, Memory>
        ensures { IfOk result (λ who. who ≡ principal_of self.now word.now) }
    {
        match self.passwd.account_of(word) {
            Some(account) => {
                let others = self.groups.gids_with(alloc, word)?;
                Ok(Some(principal_with(alloc, account, &others)?))
            }
            None => Ok(numbered(alloc, word)?),
        }
    }

    /// The same, where the gids are known of the groups that have the word as a member's name.
    #[tactic(auto, unfolding(crate::specs::Users::principal_of), using(crate::proofs::MemberLemmas::distinct_noted))]
    pub(crate) fn principal_in(
        &self,
        alloc: Global,
        word: &[u8],
        others: &[u32],
    ) -> Result<Option<Principal>, Memory>
        requires { others.now ≡ noted word.now self.now.groups }
        ensures { IfOk result (λ who. who ≡ principal_of self.now word.now) }
    {
        match self.passwd.account_of(word) {
            Some(account) => Ok(Some(principal_with(alloc, account, others)?)),
            None => Ok(numbered(alloc, word)?),
        }
    }
}
