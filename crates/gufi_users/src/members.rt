//! The groups of several names, noted in one look through the group file.
ghost use Rattle.std.specs.Prelude.{◌∷◌, [], OnOk};
ghost use Rattle.indexmap.specs.IndexMap.{values};
ghost use Rattle.gufi_users.specs.Users.{members_of};
ghost use Rattle.gufi_users.specs.Members.{noted_in, noted_rows, HaveMore};

use crate::group::Membership;
use gufi_base::pieces_of;
use indexmap::IndexMap;
use std::alloc::AllocError;

/// Notes a group of a member, where the table has his name.
fn note_member(
    gids: &mut IndexMap<Vec<u8>, Vec<u32>>,
    gid: u32,
    member: &[u8],
) -> Result<(), AllocError>
    ensures { OnOk result (HaveMore (λ name. noted_in name gid (member.now ∷ [])) gids.old.entries gids.new.entries) }
{
    match gids.get_mut(member) {
        Some(list) => {
            list.push(gid)?;
            Ok(())
        }
        None => Ok(()),
    }
}

/// Notes a group of its members, whose names stand between commas.
fn note_members(
    gids: &mut IndexMap<Vec<u8>, Vec<u32>>,
    gid: u32,
    members: &[u8],
) -> Result<(), AllocError>
    ensures { OnOk result (HaveMore (λ name. noted_in name gid (members_of members.now)) gids.old.entries gids.new.entries) }
{
    'members: for member in pieces_of(members, b",") {
        if member.is_empty() {
            continue;
        }
        note_member(gids, gid, member)?;
    }
    Ok(())
}

/// Notes each group of its members, in file order, and as often as it has them.
pub(crate) fn note_groups(
    gids: &mut IndexMap<Vec<u8>, Vec<u32>>,
    rows: &IndexMap<Vec<u8>, Membership>,
) -> Result<(), AllocError>
    ensures { OnOk result (HaveMore (λ name. noted_rows name (values rows.now)) gids.old.entries gids.new.entries) }
{
    'groups: for group in rows.values() {
        note_members(gids, group.gid, group.members.as_slice())?;
    }
    Ok(())
}
