//! What is printed of groups.
ghost use Rattle.std.specs.Prelude.{◌≡◌, ◌<◌, ◌++◌, ◌∷◌, All, IfOk, OnOk};
ghost use Rattle.std.specs.Option.{option_copied};
ghost use Rattle.gufi_agg.specs.Texts.{key_text, item_text, tabbed_items, group_line, agg_text};

use crate::agg::{Agg, AggKey, Item};
use crate::groups::Group;
use gufi_base::{Memory, put, put_i64, put_u64, put_u128};
use gufi_stats::{put_gid, put_uid};
use gufi_users::Users;
use std::alloc::Global;

/// The number of a group: a letter as it is, a level from the start, and an owner or a group by name where there are tables.
fn put_key(
    out: &mut Vec<u8>,
    key: AggKey,
    number: u64,
    above: u32,
    names: Option<&Users>,
) -> Result<(), Memory>
    requires letter { key ≡ AggKey.Letter → number < 256 }
    ensures { OnOk result (out.new.items ≡ out.old.items ++ key_text (option_copied names.entry) key above number) }
{
    match key {
        AggKey::Uid => put_uid(out, number, names),
        AggKey::Gid => put_gid(out, number, names),
        AggKey::Letter => put(out, &[number as u8]),
        AggKey::Level => put_u64(out, number.saturating_sub(u64::from(above))),
    }
}

fn put_item(out: &mut Vec<u8>, item: Item, group: &Group) -> Result<(), Memory>
    ensures { OnOk result (out.new.items ≡ out.old.items ++ item_text item group.now) }
{
    match item {
        Item::Count => put_u64(out, group.count),
        Item::SumSize => put_u128(out, group.sum),
        Item::MinSize => put_u64(out, group.size.0),
        Item::MaxSize => put_u64(out, group.size.1),
        Item::MinMtime => put_i64(out, group.mtime.0),
        Item::MaxMtime => put_i64(out, group.mtime.1),
    }
}

fn put_tabbed(out: &mut Vec<u8>, item: Item, group: &Group) -> Result<(), Memory>
    ensures { OnOk result (out.new.items ≡ out.old.items ++ 9 ∷ item_text item group.now) }
{
    put(out, b"\t")?;
    put_item(out, item, group)
}

/// Items, each behind a tab.
fn put_items(out: &mut Vec<u8>, items: &[Item], group: &Group) -> Result<(), Memory>
    ensures { OnOk result (out.new.items ≡ out.old.items ++ tabbed_items items.now group.now) }
{
    'items: for item in items {
        put_tabbed(out, *item, group)?;
    }
    Ok(())
}

fn put_line(
    out: &mut Vec<u8>,
    agg: &Agg,
    above: u32,
    group: &Group,
    names: Option<&Users>,
) -> Result<(), Memory>
    requires letter { agg.now.key ≡ AggKey.Letter → group.now.key < 256 }
    ensures { OnOk result (out.new.items ≡ out.old.items ++ group_line (option_copied names.entry) agg.now above group.now) }
{
    put_key(out, agg.key(), group.key, above, names)?;
    put_items(out, agg.items(), group)?;
    put(out, b"\n")
}

/// A line for each group: its number and its items, a tab between each. `above` says how many names stand above the start.
///
/// With tables an owner or a group is told by its name, or by its number where it has none. Lines stay in the order of
/// numbers. A name may hold any byte but a colon and a newline, so a tab too, and may be written as another's number.
#[tactic(auto, unfolding(crate::specs::Texts::agg_text))]
pub fn agg_text(
    alloc: Global,
    groups: &[Group],
    agg: &Agg,
    above: u32,
    names: Option<&Users>,
) -> Result<Vec<u8>, Memory>
    requires letters { agg.now.key ≡ AggKey.Letter → All (λ group. group.key < 256) groups.now }
    ensures { IfOk result (λ text. text.items ≡ agg_text (option_copied names.entry) agg.now above groups.now) }
{
    let mut text = Vec::new(alloc);
    'groups: for group in groups {
        put_line(&mut text, agg, above, group, names)?;
    }
    Ok(text)
}
