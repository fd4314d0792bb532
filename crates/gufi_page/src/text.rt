//! The text of a page: stems, base names, links, names of extended attributes and access control lists.

ghost use Rattle.std.specs.Prelude.{◌≡◌, ℕ, ◌+◌, ◌-◌, ◌<◌, ◌≤◌, ◌++◌, true, List, length, All, IfOk, OnOk};
ghost use Rattle.gufi_page.specs.Packed.{Ascend, GoesOn, HaveBegun, IsIn, IsPut, IsWithin, acl_in, base_in, bytes_in, end_of, link_in, number_at, stem_in, xattrs_in};
ghost use Rattle.gufi_page.specs.declared.text.Stem.{Stem as SeenStem};

use gufi_base::{
    Extras, Memory, RowRef, acl_at, put_extras, same_bytes, u16_of, u32_of, xattrs_at,
};

/// The bytes of a stem in a text, and the number of the first row that has it. A text has less than 4 GiB.
#[derive(Clone, Copy)]
pub struct Stem {
    pub from: u32,
    pub end: u32,
    pub first: u32,
}

/// Where a base name stands in a text, and the link behind it, by their lengths in bytes; and whether names of extended
/// attributes and an access control list stand behind them.
#[derive(Clone, Copy)]
pub struct Ends {
    pub at: u32,
    pub link: u16,
    pub name: u8,
    pub extras: Extras,
}

/// The bytes of a stem.
pub(crate) fn bytes_at(text: &[u8], stem: Stem) -> &[u8]
    requires { IsIn text.now stem }
    ensures { result.now ≡ bytes_in text.now stem }
{
    &text[stem.from as usize..stem.end as usize]
}

pub(crate) fn base_at(text: &[u8], ends: Ends) -> &[u8]
    requires { IsWithin text.now ends }
    ensures { result.now ≡ base_in text.now ends }
{
    let from = ends.at as usize;
    &text[from..from + ends.name as usize]
}

pub(crate) fn link_at(text: &[u8], ends: Ends) -> &[u8]
    requires { IsWithin text.now ends }
    ensures { result.now ≡ link_in text.now ends }
{
    let from = ends.at as usize + ends.name as usize;
    &text[from..from + ends.link as usize]
}

pub(crate) fn names_at(text: &[u8], ends: Ends) -> &[u8]
    requires { IsWithin text.now ends }
    ensures { result.now ≡ xattrs_in text.now ends }
{
    let from = ends.at as usize + ends.name as usize + ends.link as usize;
    xattrs_at(text, from, ends.extras)
}

pub(crate) fn acl_behind(text: &[u8], ends: Ends) -> &[u8]
    requires { IsWithin text.now ends }
    ensures { result.now ≡ acl_in text.now ends }
{
    let from = ends.at as usize + ends.name as usize + ends.link as usize;
    acl_at(text, from, ends.extras)
}

fn put_stem(text: &mut Vec<u8>, bytes: &[u8], first: u32) -> Result<Stem, Memory>
    ensures grown { (more : List ℕ) × (text.new.items ≡ text.old.items ++ more) }
    ensures within { IfOk result (IsIn text.new.items) }
    ensures first { IfOk result (λ stem. stem.first ≡ first) }
    ensures bytes { IfOk result (λ stem. bytes_in text.new.items stem ≡ bytes.now) }
{
    let from = u32_of(text.len())?;
    text.extend_from_slice(bytes)?;
    let end = u32_of(text.len())?;
    Ok(Stem { from, end, first })
}

/// Puts a base name and a link behind a text.
fn put_base_and_link(text: &mut Vec<u8>, base: &[u8], link: &[u8]) -> Result<Ends, Memory>
    requires { length base.now ≤ 255 }
    ensures grown { (more : List ℕ) × (text.new.items ≡ text.old.items ++ more) }
    ensures end { IfOk result (λ ends. end_of ends ≡ length text.new.items) }
    ensures base { IfOk result (λ ends. base_in text.new.items ends ≡ base.now) }
    ensures link { IfOk result (λ ends. link_in text.new.items ends ≡ link.now) }
{
    let at = u32_of(text.len())?;
    let length = u16_of(link.len())?;
    text.extend_from_slice(base)?;
    text.extend_from_slice(link)?;
    Ok(Ends {
        at,
        link: length,
        name: base.len() as u8,
        extras: Extras::Neither,
    })
}

/// Puts a row's base name, its link, its names of extended attributes and its access control list behind a text.
fn put_ends(text: &mut Vec<u8>, row: RowRef<'_>) -> Result<Ends, Memory>
    requires { length row.base.now ≤ 255 }
    ensures grown { (more : List ℕ) × (text.new.items ≡ text.old.items ++ more) }
    ensures within { IfOk result (IsWithin text.new.items) }
    ensures base { IfOk result (λ ends. base_in text.new.items ends ≡ row.entry.base.now) }
    ensures link { IfOk result (λ ends. link_in text.new.items ends ≡ row.entry.link.now) }
    ensures xattrs { IfOk result (λ ends. xattrs_in text.new.items ends ≡ row.entry.xattrs.now) }
    ensures acl { IfOk result (λ ends. acl_in text.new.items ends ≡ row.entry.acl.now) }
{
    let mut ends = put_base_and_link(text, row.base, row.link)?;
    ends.extras = put_extras(text, row.xattrs, row.acl)?;
    Ok(ends)
}

/// Whether the last stem has these bytes.
fn is_last_stem(text: &[u8], stems: &[Stem], stem: &[u8]) -> bool
    requires { All (IsIn text.now) stems.now }
    ensures { result ≡ true → (0 < length stems.now) × (stem_in text.now stems.now (length stems.now - 1) ≡ stem.now) }
{
    if stems.is_empty() {
        return false;
    }
    let last = stems.len() - 1;
    same_bytes(bytes_at(text, stems[last]), stem)
}

/// Sees to it that the last stem is that of the row of a number. It is put behind the others where the last one has other bytes.
fn keep_stem(
    text: &mut Vec<u8>,
    stems: &mut Vec<Stem>,
    first: u32,
    stem: &[u8],
) -> Result<(), Memory>
    requires { All (IsIn text.old.items) stems.old.items }
    ensures grown { (more : List ℕ) × (text.new.items ≡ text.old.items ++ more) }
    ensures more { (more : List SeenStem) × (stems.new.items ≡ stems.old.items ++ more) × All (λ s. s.first ≡ first) more }
    ensures stems_in { All (IsIn text.new.items) stems.new.items }
    ensures some { OnOk result (0 < length stems.new.items) }
    ensures bytes { OnOk result (stem_in text.new.items stems.new.items (length stems.new.items - 1) ≡ stem.now) }
{
    if is_last_stem(text.as_slice(), stems.as_slice(), stem) {
        return Ok(());
    }
    let last = put_stem(text, stem, first)?;
    stems.push(last)?;
    Ok(())
}

/// Puts the parts of the row of a number behind a text; its stem stands there already where the row before has the same.
pub(crate) fn put_parts(
    text: &mut Vec<u8>,
    stems: &mut Vec<Stem>,
    first: u32,
    row: RowRef<'_>,
) -> Result<Ends, Memory>
    requires stems { All (IsIn text.old.items) stems.old.items }
    requires base { length row.base.now ≤ 255 }
    ensures goes_on { GoesOn first text.old.items text.new.items stems.old.items stems.new.items }
    ensures put { IfOk result (IsPut text.new.items stems.new.items row.entry) }
{
    keep_stem(text, stems, first, row.stem)?;
    put_ends(text, row)
}

/// Whether a number is that of a row's stem.
fn is_number(stems: &[Stem], number: usize, k: u32) -> bool
    requires { Ascend stems.now }
    ensures { result ≡ true → HaveBegun stems.now k (number + 1) }
{
    if number >= stems.len() || stems[number].first > k {
        return false;
    }
    number + 1 == stems.len() || stems[number + 1].first > k
}

/// How many stems have begun at a row. `O(log n)` comparisons.
fn count_begun(stems: &[Stem], k: u32) -> usize
    requires { Ascend stems.now }
    ensures { HaveBegun stems.now k result }
{
    let mut low = 0;
    let mut high = stems.len();
    'halving: while low < high {
        let middle = low + (high - low) / 2;
        if stems[middle].first <= k {
            low = middle + 1;
        } else {
            high = middle;
        }
    }
    low
}

/// The number of a row's stem: at once where it is the number that is tried or the next one, as for rows that come one after
/// another, and else by `O(log n)` comparisons.
pub(crate) fn number_near(stems: &[Stem], tried: usize, k: u32) -> usize
    requires { Ascend stems.now }
    ensures { result ≡ number_at stems.now k }
{
    if is_number(stems, tried, k) {
        return tried;
    }
    let next = tried.saturating_add(1);
    if is_number(stems, next, k) {
        return next;
    }
    count_begun(stems, k).saturating_sub(1)
}
