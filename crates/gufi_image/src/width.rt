//! What the records of an image hold behind their links, and which tree needs it.

ghost use Rattle.std.specs.Prelude.{◌≡◌};
ghost use Rattle.gufi_image.specs.Widths.{has_names, has_acls, version_of, width_in, record_needs, entries_need, directory_needs, least, wider, record_width, entries_width, directory_width, width_of};

use gufi_base::RecRef;
use gufi_tree::{DirId, DirRef, EntriesRef, Tree};

/// What stands behind the link of each record: nothing, names of extended attributes, or these and an access control list.
#[derive(Clone, Copy, Debug, PartialEq, Eq)]
pub(crate) enum Width {
    Narrow,
    Named,
    Guarded,
}

impl Width {
    #[inline]
    pub(crate) fn has_names(self) -> bool
        ensures { result ≡ has_names self }
    {
        match self {
            Width::Narrow => false,
            Width::Named | Width::Guarded => true,
        }
    }

    #[inline]
    pub(crate) fn has_acls(self) -> bool
        ensures { result ≡ has_acls self }
    {
        match self {
            Width::Narrow | Width::Named => false,
            Width::Guarded => true,
        }
    }

    /// The version of an image with such records.
    pub(crate) fn version(self) -> u16
        ensures { result ≡ version_of self }
    {
        match self {
            Width::Narrow => 1,
            Width::Named => 2,
            Width::Guarded => 3,
        }
    }

    /// The wider of two.
    #[inline]
    fn wider(self, other: Width) -> Width
        ensures { result ≡ wider self other }
    {
        least(
            self.has_acls() || other.has_acls(),
            self.has_names() || other.has_names(),
        )
    }
}

/// The least width that holds access control lists or names of extended attributes, where there are some.
#[inline]
fn least(acls: bool, names: bool) -> Width
    ensures { result ≡ least acls names }
{
    match (acls, names) {
        (true, _) => Width::Guarded,
        (false, true) => Width::Named,
        (false, false) => Width::Narrow,
    }
}

/// The width of a version.
pub(crate) fn width_in(version: u16) -> Option<Width>
    ensures { result ≡ width_in version }
{
    match version {
        1 => Some(Width::Narrow),
        2 => Some(Width::Named),
        3 => Some(Width::Guarded),
        _ => None,
    }
}

fn record_needs(width: Width, rec: &RecRef<'_>) -> bool
    ensures { result ≡ record_needs width rec.now }
{
    match width {
        Width::Narrow => false,
        Width::Named => !rec.xattrs().is_empty(),
        Width::Guarded => !rec.acl().is_empty(),
    }
}

fn entries_need(width: Width, entries: &EntriesRef<'_>) -> bool
    ensures { result ≡ entries_need width entries.now }
{
    for place in 0..entries.len() {
        if record_needs(width, &entries.at(place).rec()) {
            return true;
        }
    }
    false
}

/// Whether a directory or one of its entries has what no lesser width holds.
pub(crate) fn directory_needs(width: Width, dir: &DirRef<'_>) -> bool
    ensures { result ≡ directory_needs width dir.now }
{
    record_needs(width, &dir.rec()) || entries_need(width, &dir.entries())
}

/// The least width that holds a record.
#[inline]
fn record_width(rec: &RecRef<'_>) -> Width
    ensures { result ≡ record_width rec.now }
{
    least(!rec.acl().is_empty(), !rec.xattrs().is_empty())
}

/// The least width that holds entries. Ends at the first with an access control list.
fn entries_width(entries: &EntriesRef<'_>) -> Width
    ensures { result ≡ entries_width entries.now }
{
    let mut widest = Width::Narrow;
    for place in 0..entries.len() {
        widest = widest.wider(record_width(&entries.at(place).rec()));
        if widest.has_acls() {
            return widest;
        }
    }
    widest
}

/// The least width that holds a directory with its entries.
#[tactic(auto, using(crate::proofs::Widest::least_wider))]
fn directory_width(dir: &DirRef<'_>) -> Width
    ensures { result ≡ directory_width dir.now }
{
    record_width(&dir.rec()).wider(entries_width(&dir.entries()))
}

/// The least width that holds a tree. One pass, which ends at the first directory with an access control list in it.
pub(crate) fn width_of(tree: &Tree) -> Width
    ensures { result ≡ width_of tree.now }
{
    let mut widest = Width::Narrow;
    for number in 0..tree.dirs() {
        widest = widest.wider(directory_width(&tree.dir(DirId(number))));
        if widest.has_acls() {
            return widest;
        }
    }
    widest
}
