//! The group file.
ghost use Rattle.std.specs.Prelude.{◌≡◌, Ok, Err, Some, None, MatchOption, MatchResult, bytes_eq, IfOk, filter, map, option_map};
ghost use Rattle.std.specs.List.{list_any};
ghost use Rattle.std.specs.Map.{lookup};
ghost use Rattle.indexmap.specs.IndexMap.{values};
ghost use Rattle.gufi_base.specs.Basics.{GivesUnless, split};
ghost use Rattle.gufi_users.specs.declared.group.Membership.{Membership};
ghost use Rattle.gufi_users.specs.Rows.{is_named};
ghost use Rattle.gufi_users.specs.Users.{group_texts, members_of, read_group_line, group_name, read_group};

use crate::fault::{UserError, UserKind};
use crate::members::note_groups;
use crate::table::{FromLine, read_table};
use gufi_base::{Bytes, Pieces, pieces_of, read_u32};
use indexmap::IndexMap;
use std::alloc::{AllocError, Global};
use std::marker::Model;

/// The number of a group, and its members' names between commas.
#[derive(Drop)]
pub(crate) struct Membership {
    pub(crate) gid: u32,
    pub(crate) members: Bytes,
}

impl FromLine for Membership {
    ghost use Rattle.std.specs.Prelude.{refl};
    ghost use Rattle.gufi_users.specs.Entries.{GroupEntry};
    ghost use Rattle.gufi_users.specs.Rows.{group_entry};
    ghost use Rattle.gufi_users.specs.Users.{group_name, read_group_line};

    ghost Entry = { GroupEntry };

    ghost entry = { group_entry };

    ghost name_of = { group_name };

    ghost means = { read_group_line };

    ghost named = { λ _. refl };

    fn from_line(alloc: Global, number: u32, text: &[u8]) -> Result<(Vec<u8>, Self), UserError> {
        match group_line(text) {
            Ok(line) => {
                let name = Vec::from_slice(alloc, line.name)?;
                let gid = line.gid;
                let members = Bytes::from_slice(alloc, line.members)?;
                Ok((name, Membership { gid, members }))
            }
            Err(kind) => Err(UserError::Fault { line: number, kind }),
        }
    }
}

/// The groups of a group file, in file order and by name.
#[derive(Drop)]
pub struct Groups {
    rows: IndexMap<Vec<u8>, Membership>,
}

impl Model for Groups {
    ghost use Rattle.std.specs.Prelude.{List};
    ghost use Rattle.gufi_users.specs.Entries.{GroupEntry};

    ghost Value = { List GroupEntry };

    ghost use Rattle.gufi_users.specs.Rows.{group_rows};

    ghost view = { λ g. group_rows g.rows.entries };
}

impl Groups {
    ghost use Rattle.std.specs.Prelude.{IfOk, OnOk, bytes_eq, find, map, option_map, slice_get};
    ghost use Rattle.gufi_users.specs.Entries.{GroupEntry};
    ghost use Rattle.gufi_users.specs.Members.{noted, HaveMore};
    ghost use Rattle.gufi_users.specs.Users.{member_gids};

    /// The gids, in file order.
    #[tactic(auto, using(crate::proofs::TableLemmas::group_gids))]
    pub(crate) fn gids(&self, alloc: Global) -> Result<Vec<u32>, AllocError>
        ensures { IfOk result (λ gids. gids.items ≡ map (λ (entry : GroupEntry). entry.gid) self.now) }
    {
        gids_of(alloc, &self.rows)
    }

    /// The gids of the groups that have a member, in file order. Goes through all members.
    #[tactic(auto, using(crate::proofs::TableLemmas::member_gids_of))]
    pub(crate) fn gids_with(&self, alloc: Global, name: &[u8]) -> Result<Vec<u32>, AllocError>
        ensures { IfOk result (λ gids. gids.items ≡ member_gids name.now self.now) }
    {
        gids_of_member(alloc, &self.rows, name)
    }

    /// Notes behind each name of the table the gids of the groups that have it as a member's, in file order, and as often as they have
    /// it. Goes through all members once.
    pub(crate) fn note_gids(&self, gids: &mut IndexMap<Vec<u8>, Vec<u32>>) -> Result<(), AllocError>
        ensures { OnOk result (HaveMore (λ name. noted name self.now) gids.old.entries gids.new.entries) }
    {
        note_groups(gids, &self.rows)?;
        Ok(())
    }

    /// The gid of the group of that name.
    pub(crate) fn gid_named(&self, name: &[u8]) -> Option<u32>
        ensures { result ≡ option_map (λ (entry : GroupEntry). entry.gid) (find (λ entry. bytes_eq name.now entry.name) self.now) }
    {
        gid_in(&self.rows, name)
    }

    /// The name of the group at a place.
    pub(crate) fn name_at(&self, place: usize) -> Option<&[u8]>
        ensures { MatchOption result
            (option_map group_name (slice_get self.now place) ≡ None)
            (λ name. option_map group_name (slice_get self.now place) ≡ Some name.now) }
    {
        let (name, _) = self.rows.get_index(place)?;
        Some(name.as_slice())
    }
}

fn gids_of(alloc: Global, rows: &IndexMap<Vec<u8>, Membership>) -> Result<Vec<u32>, AllocError>
    ensures { IfOk result (λ gids. gids.items ≡ map (λ (group : Membership). group.gid) (values rows.now)) }
{
    rows.values().map(|group| group.gid).collect(alloc)
}

fn gids_of_member(
    alloc: Global,
    rows: &IndexMap<Vec<u8>, Membership>,
    name: &[u8],
) -> Result<Vec<u32>, AllocError>
    ensures { IfOk result (λ gids. gids.items ≡ map (λ (group : Membership). group.gid) (filter (λ group. list_any (bytes_eq name.now) (members_of group.members)) (values rows.now))) }
{
    rows.values()
        .filter(|group| has_member(group.members.as_slice(), name))
        .map(|group| group.gid)
        .collect(alloc)
}

fn gid_in(rows: &IndexMap<Vec<u8>, Membership>, name: &[u8]) -> Option<u32>
    ensures { result ≡ option_map (λ (group : Membership). group.gid) (lookup (is_named name.now) rows.now.entries) }
{
    rows.get(name).map(|group| group.gid)
}

// Whether a name stands between the commas.
fn has_member(members: &[u8], name: &[u8]) -> bool
    ensures { result ≡ list_any (bytes_eq name.now) (members_of members.now) }
{
    pieces_of(members, b",")
        .filter(|member| !member.is_empty())
        .any(|member| name == member)
}

/// Reads a group file. Two allocations a line, and one for the table each time it doubles.
#[tactic(auto, unfolding(crate::specs::Users::read_group))]
pub fn read_group(alloc: Global, bytes: &[u8]) -> Result<Groups, UserError>
    ensures { GivesUnless UserError.Memory result (read_group bytes.now) }
{
    let rows = read_table(alloc, bytes)?;
    Ok(Groups { rows })
}

// The texts of a line that are read.
#[derive(Clone, Copy)]
struct GroupFields<'a> {
    name: &'a [u8],
    gid: &'a [u8],
    members: &'a [u8],
}

// A line that has its form.
#[derive(Clone, Copy)]
struct GroupLine<'a> {
    name: &'a [u8],
    gid: u32,
    members: &'a [u8],
}

// The four fields of a line, of which the name isn't empty.
fn group_fields(text: &[u8]) -> Option<GroupFields<'_>>
    ensures { MatchOption result
        (group_texts (split 58 text.now) ≡ None)
        (λ f. group_texts (split 58 text.now) ≡ Some (record { name = f.name.now; gid = f.gid.now; members = f.members.now })) }
{
    let mut parts = pieces_of(text, b":");
    take_group_fields(&mut parts)
}

fn take_group_fields<'a>(parts: &mut Pieces<'a, '_>) -> Option<GroupFields<'a>>
    ensures { MatchOption result
        (group_texts parts.old ≡ None)
        (λ f. group_texts parts.old ≡ Some (record { name = f.name.now; gid = f.gid.now; members = f.members.now })) }
{
    let name = parts.next()?;
    let _password = parts.next()?;
    let gid = parts.next()?;
    let members = parts.next()?;
    if parts.next().is_some() {
        return None;
    }
    if name.is_empty() {
        return None;
    }
    Some(GroupFields { name, gid, members })
}

// A line, whatever the other lines.
#[tactic(auto, unfolding(crate::specs::Users::read_group_line))]
fn group_line(text: &[u8]) -> Result<GroupLine<'_>, UserKind>
    ensures { MatchResult result
        (λ line. read_group_line text.now ≡ Ok (record { name = line.name.now; gid = line.gid; members = members_of line.members.now }))
        (λ kind. read_group_line text.now ≡ Err kind) }
{
    let Some(fields) = group_fields(text) else {
        return Err(UserKind::Fields);
    };
    let Some(gid) = read_u32(fields.gid) else {
        return Err(UserKind::Number);
    };
    Ok(GroupLine {
        name: fields.name,
        gid,
        members: fields.members,
    })
}
