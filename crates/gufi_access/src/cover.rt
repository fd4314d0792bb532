//! Whether one directory covers another: whoever may list the first may list the second.
ghost use Rattle.std.specs.List.{list_all};
ghost use Rattle.std.specs.Prelude.{◌≡◌, ◌==◌, ◌||◌, not, ◌↔◌, IsTrue, find};
ghost use Rattle.gufi_access.specs.Access.{rights, Covers};
ghost use Rattle.std.specs.Option.{option_map};
ghost use Rattle.gufi_access.specs.Seen.{seen, seen_id, named_left, groups_kept, groups_stay, said_stays, user_stays, users_stay};
ghost use Rattle.gufi_access.specs.Tried.{names, admits, admits_all, admits_none, said_of, rules_cover, covers};

use crate::class::Guard;
use crate::listing::{Listing, NamedId, NamedIds};

/// Whether every principal who may list `d` may list `c`.
///
/// Takes no memory, and O(n²) steps where the lists have n named entries.
pub fn covers(d: &Guard<'_>, c: &Guard<'_>) -> bool
    ensures exact { IsTrue result ↔ Covers (rights d.now) (rights c.now) }
    ensures tested { result ≡ covers (rights d.now) (rights c.now) }
{
    guards_cover(d, c)
}

#[tactic(auto, unfolding(crate::specs::Tried::covers))]
fn guards_cover(d: &Guard<'_>, c: &Guard<'_>) -> bool
    ensures { result ≡ covers (rights d.now) (rights c.now) }
{
    rules_cover(&Listing::of(d), &Listing::of(c))
}

fn rules_cover(d: &Listing<'_>, c: &Listing<'_>) -> bool
    ensures { result ≡ rules_cover (seen d.now) (seen c.now) }
{
    let all = admits_all(c);
    let none = admits_none(d);
    groups_kept(d, c, all) && users_stay(d, c, none, all)
}

// Whether some entry names this group.
fn names(id: u32, r: &Listing<'_>) -> bool
    ensures { result ≡ names id (seen r.now).groups }
{
    r.groups().any(|e| e.id == id)
}

// Whether some entry that names this group grants.
fn admits(id: u32, r: &Listing<'_>) -> bool
    ensures { result ≡ admits id (seen r.now).groups }
{
    r.groups().any(|e| e.id == id && e.ok)
}

// Whether all are admitted by their groups, whatever these are.
fn admits_all(r: &Listing<'_>) -> bool
    ensures { result ≡ admits_all (seen r.now) }
{
    r.other_ok && r.groups().all(|e| admits(e.id, r))
}

// Whether nobody is admitted by his groups.
fn admits_none(r: &Listing<'_>) -> bool
    ensures { result ≡ admits_none (seen r.now) }
{
    !r.other_ok && r.groups().all(|e| !e.ok)
}

// Whether c admits by groups whomever d admits by them; it is known whether c admits all.
#[tactic(auto, unfolding(crate::specs::Seen::groups_kept))]
fn groups_kept(d: &Listing<'_>, c: &Listing<'_>, all: bool) -> bool
    ensures { result ≡ groups_kept all (seen d.now) (seen c.now) }
{
    all || groups_stay(d, c)
}

// The same where c turns some groups away. A member of a group that d admits may be in one of those too, so c must admit each such group itself.
fn groups_stay(d: &Listing<'_>, c: &Listing<'_>) -> bool
    ensures { result ≡ groups_stay (seen d.now) (seen c.now) }
{
    (!d.other_ok || c.other_ok && turned_away_by_both(d, c)) && admitted_by_both(d, c)
}

// Whether d names each group that c turns away.
fn turned_away_by_both(d: &Listing<'_>, c: &Listing<'_>) -> bool
    ensures { result ≡ list_all (λ e. names e.id (seen d.now).groups || admits e.id (seen c.now).groups) (seen c.now).groups }
{
    c.groups().all(|e| names(e.id, d) || admits(e.id, c))
}

// Whether c admits each group that d admits.
fn admitted_by_both(d: &Listing<'_>, c: &Listing<'_>) -> bool
    ensures { result ≡ list_all (λ e. not e.ok || admits e.id (seen c.now).groups) (seen d.now).groups }
{
    d.groups().all(|e| !e.ok || admits(e.id, c))
}

// What is said of a user whatever his groups, where he is named.
fn said_of(uid: u32, r: &Listing<'_>) -> Option<bool>
    ensures { result ≡ said_of uid (seen r.now) }
{
    if uid == r.owner {
        return Some(r.owner_ok);
    }
    match named_user(uid, r) {
        Some(user) => Some(user.ok),
        None => None,
    }
}

fn named_user(uid: u32, r: &Listing<'_>) -> Option<NamedId>
    ensures { option_map seen_id result ≡ find (λ e. e.id == uid) (seen r.now).users }
{
    r.users().find(|e| e.id == uid)
}

fn said_stays(none: bool, all: bool, in_d: Option<bool>, in_c: Option<bool>) -> bool
    ensures { result ≡ said_stays none all in_d in_c }
{
    match (in_d, in_c) {
        (None, None) => true,
        (None, Some(in_c)) => in_c || none,
        (Some(in_d), None) => !in_d || all,
        (Some(in_d), Some(in_c)) => !in_d || in_c,
    }
}

// Whether this user may list c, if he may list d; it is known whether d admits none by groups, and c all.
#[tactic(auto, unfolding(crate::specs::Seen::user_stays))]
fn user_stays(d: &Listing<'_>, c: &Listing<'_>, none: bool, all: bool, uid: u32) -> bool
    ensures { result ≡ user_stays none all (seen d.now) (seen c.now) uid }
{
    uid == 0 || said_stays(none, all, said_of(uid, d), said_of(uid, c))
}

// The same of each user that one of the two names.
#[tactic(auto, unfolding(crate::specs::Seen::users_stay))]
fn users_stay(d: &Listing<'_>, c: &Listing<'_>, none: bool, all: bool) -> bool
    ensures { result ≡ users_stay none all (seen d.now) (seen c.now) }
{
    user_stays(d, c, none, all, d.owner)
        && user_stays(d, c, none, all, c.owner)
        && each_stays(d.users(), d, c, none, all)
        && each_stays(c.users(), d, c, none, all)
}

fn each_stays(
    mut users: NamedIds<'_>,
    d: &Listing<'_>,
    c: &Listing<'_>,
    none: bool,
    all: bool,
) -> bool
    ensures { result ≡ list_all (λ e. user_stays none all (seen d.now) (seen c.now) e.id) (named_left users.entry) }
{
    users.all(|e| user_stays(d, c, none, all, e.id))
}
