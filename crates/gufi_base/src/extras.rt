//! What a text keeps behind a link: names of extended attributes, and an access control list.

ghost use Rattle.std.specs.Prelude.{◌≡◌, ◌+◌, ◌≤◌, ◌++◌, ℕ, List, true, length, IfOk};
ghost use Rattle.gufi_base.specs.Extras.{keeps_xattrs, keeps_acl, size_at, sized_length, sized_bytes, kept_xattrs, kept_acl, AreKept};

use crate::width::u16_of;
use std::alloc::AllocError;

/// Which of the two a text keeps. What isn't there takes no byte.
#[derive(Clone, Copy, Debug, PartialEq, Eq)]
pub enum Extras {
    Neither,
    Xattrs,
    Acl,
    Both,
}

/// Puts bytes and before them their length behind a text, and tells that there are some. Nothing is put where there are none.
fn put_sized(text: &mut Vec<u8>, bytes: &[u8]) -> Result<bool, AllocError>
    ensures grown { (more : List ℕ) × (text.new.items ≡ text.old.items ++ more) }
    ensures kept { IfOk result (λ some. length text.old.items + sized_length text.new.items (length text.old.items) some ≡ length text.new.items) }
    ensures bytes { IfOk result (λ some. sized_bytes text.new.items (length text.old.items) some ≡ bytes.now) }
{
    if bytes.is_empty() {
        return Ok(false);
    }
    let size = u16_of(bytes.len())?;
    text.push((size % 256) as u8)?;
    text.push((size / 256) as u8)?;
    text.extend_from_slice(bytes)?;
    Ok(true)
}

fn extras_of(has_xattrs: bool, has_acl: bool) -> Extras
    ensures xattrs { keeps_xattrs result ≡ has_xattrs }
    ensures acl { keeps_acl result ≡ has_acl }
{
    match (has_xattrs, has_acl) {
        (false, false) => Extras::Neither,
        (true, false) => Extras::Xattrs,
        (false, true) => Extras::Acl,
        (true, true) => Extras::Both,
    }
}

/// Puts names of extended attributes and an access control list behind a text, each behind its length, and tells which there are.
///
/// More than 65,535 bytes of either are answered as want of memory.
pub fn put_extras(text: &mut Vec<u8>, xattrs: &[u8], acl: &[u8]) -> Result<Extras, AllocError>
    ensures grown { (more : List ℕ) × (text.new.items ≡ text.old.items ++ more) }
    ensures kept { IfOk result (AreKept text.new.items (length text.old.items)) }
    ensures xattrs { IfOk result (λ extras. kept_xattrs text.new.items (length text.old.items) extras ≡ xattrs.now) }
    ensures acl { IfOk result (λ extras. kept_acl text.new.items (length text.old.items) extras ≡ acl.now) }
{
    if xattrs.is_empty() && acl.is_empty() {
        return Ok(Extras::Neither);
    }
    put_both(text, xattrs, acl)
}

/// The same, as it is where there is one of them.
fn put_both(text: &mut Vec<u8>, xattrs: &[u8], acl: &[u8]) -> Result<Extras, AllocError>
    ensures grown { (more : List ℕ) × (text.new.items ≡ text.old.items ++ more) }
    ensures kept { IfOk result (AreKept text.new.items (length text.old.items)) }
    ensures xattrs { IfOk result (λ extras. kept_xattrs text.new.items (length text.old.items) extras ≡ xattrs.now) }
    ensures acl { IfOk result (λ extras. kept_acl text.new.items (length text.old.items) extras ≡ acl.now) }
{
    let has_xattrs = put_sized(text, xattrs)?;
    let has_acl = put_sized(text, acl)?;
    Ok(extras_of(has_xattrs, has_acl))
}

fn size_at(text: &[u8], at: usize) -> usize
    requires { at + 2 ≤ length text.now }
    ensures { result ≡ size_at text.now at }
{
    text[at] as usize + 256 * text[at + 1] as usize
}

fn sized_at(text: &[u8], at: usize) -> &[u8]
    requires { at + sized_length text.now at true ≤ length text.now }
    ensures { result.now ≡ sized_bytes text.now at true }
{
    let size = size_at(text, at);
    &text[at + 2..at + 2 + size]
}

/// The names of extended attributes that stand at a place of a text, where there are some.
#[inline]
pub fn xattrs_at(text: &[u8], at: usize, extras: Extras) -> &[u8]
    requires { AreKept text.now at extras }
    ensures { result.now ≡ kept_xattrs text.now at extras }
{
    match extras {
        Extras::Neither | Extras::Acl => &[],
        Extras::Xattrs | Extras::Both => sized_at(text, at),
    }
}

/// The access control list that stands at a place of a text, behind the names of extended attributes, where there is one.
#[inline]
pub fn acl_at(text: &[u8], at: usize, extras: Extras) -> &[u8]
    requires { AreKept text.now at extras }
    ensures { result.now ≡ kept_acl text.now at extras }
{
    match extras {
        Extras::Neither | Extras::Xattrs => &[],
        Extras::Acl => sized_at(text, at),
        Extras::Both => sized_at(text, at + 2 + size_at(text, at)),
    }
}
