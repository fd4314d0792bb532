//! What is found in one pass over the rows of a tree.

ghost use Rattle.std.specs.Prelude.{◌≡◌, ◌+◌, ◌++◌, ◌||◌, List, [], length, map, Some};
ghost use Rattle.std.specs.Int.{int_min, int_max};
ghost use Rattle.std.specs.List.{flat_map};
ghost use Rattle.gufi_base.specs.declared.record.Row.{Row};
ghost use Rattle.gufi_base.specs.Paths.{Components};
ghost use Rattle.gufi_tree.specs.Tree.{entry_row, own_rows, entry_count};
ghost use Rattle.gufi_sums.specs.Total.{span};
ghost use Rattle.gufi_info.specs.Census.{has_list, has_names, census_of, with_record};

use gufi_base::RecRef;
use gufi_tree::{DirId, DirRef, EntriesRef, Tree};

/// How deep rows lie, the least and the greatest of their times, and what some of them have.
#[derive(Clone, Copy, Debug, PartialEq, Eq)]
pub(crate) struct Census {
    /// The most components of a path.
    pub(crate) depth: u128,
    /// In seconds, as are the others; none where there is no row.
    pub(crate) atime: Option<(i64, i64)>,
    pub(crate) mtime: Option<(i64, i64)>,
    pub(crate) ctime: Option<(i64, i64)>,
    /// A row has an access control list.
    pub(crate) acls: bool,
    /// A row has names of extended attributes.
    pub(crate) xattrs: bool,
}

fn with_time(times: Option<(i64, i64)>, time: i64) -> Option<(i64, i64)>
    ensures { result ≡ span int_min int_max times (Some (time, time)) }
{
    match times {
        None => Some((time, time)),
        Some((first, last)) => Some((first.min(time), last.max(time))),
    }
}

fn has_list(rec: &RecRef<'_>) -> bool
    ensures { result ≡ has_list rec.now }
{
    !rec.acl().is_empty()
}

fn has_names(rec: &RecRef<'_>) -> bool
    ensures { result ≡ has_names rec.now }
{
    !rec.xattrs().is_empty()
}

fn is_either(one: bool, other: bool) -> bool
    ensures { result ≡ (one || other) }
{
    one || other
}

impl Census {
    /// What is found in no row.
    fn empty() -> Census
        ensures { result ≡ census_of [] }
    {
        Census {
            depth: 0,
            atime: None,
            mtime: None,
            ctime: None,
            acls: false,
            xattrs: false,
        }
    }

    /// The same with a row more, whose path has so many components.
    fn with(self, depth: u128, rec: &RecRef<'_>) -> Census
        ensures { result ≡ with_record self depth rec.now }
    {
        let meta = rec.meta();
        Census {
            depth: self.depth.max(depth),
            atime: with_time(self.atime, meta.atime),
            mtime: with_time(self.mtime, meta.mtime),
            ctime: with_time(self.ctime, meta.ctime),
            acls: is_either(self.acls, has_list(rec)),
            xattrs: is_either(self.xattrs, has_names(rec)),
        }
    }

    /// The same with the entries of a directory more, whose paths have so many components.
    fn with_entries(self, depth: u128, entries: &EntriesRef<'_>) -> Census
        ensures { (rows : List Row) (path : Components) → self ≡ census_of rows → depth ≡ length path + 1 → result ≡ census_of (rows ++ map (entry_row path) entries.now) }
    {
        let mut census = self;
        for place in 0..entries.len() {
            census = census.with(depth, &entries.at(place).rec());
        }
        census
    }

    /// The same with the rows of a directory more.
    fn with_directory(self, dir: &DirRef<'_>) -> Census
        ensures { (rows : List Row) → self ≡ census_of rows → result ≡ census_of (rows ++ own_rows dir.now) }
    {
        self.with(dir.depth() as u128, &dir.rec())
            .with_entries(dir.depth() as u128 + 1, &dir.entries())
    }

    /// What is found in the rows of a tree. Linear in these.
    pub(crate) fn of(tree: &Tree) -> Census
        ensures { result ≡ census_of (flat_map own_rows tree.now) }
    {
        let mut census = Census::empty();
        for number in 0..tree.dirs() {
            census = census.with_directory(&tree.dir(DirId(number)));
        }
        census
    }
}

/// How many entries a tree has.
pub(crate) fn entry_count(tree: &Tree) -> u32
    ensures { result ≡ entry_count tree.now }
{
    let mut count = 0u32;
    for number in 0..tree.dirs() {
        count += tree.entries(DirId(number)).len() as u32;
    }
    count
}
