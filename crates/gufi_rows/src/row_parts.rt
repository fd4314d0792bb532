//! Rows in borrowed parts.

ghost use Rattle.std.specs.Prelude.{◌≡◌, length};
ghost use Rattle.gufi_base.specs.declared.record.Row.{Row as SeenRow};
ghost use Rattle.gufi_base.specs.Rows.{Stands, StandsForSome, row_cmp};

use crate::spot::{Parts, parts_cmp};
use gufi_base::{PathRef, Row, RowRef};
use std::cmp::Ordering;

/// A row in borrowed parts. Nothing is copied.
pub fn parts_of(row: &Row) -> RowRef<'_>
    ensures { Stands result row.now }
{
    // Its clause tells that the path's names are file names.
    let _text = row.path.text();
    let (stem, base) = row.path.stem_and_base();
    RowRef {
        stem,
        base,
        meta: &row.rec.meta,
        link: row.rec.link.as_slice(),
        xattrs: row.rec.xattrs.as_slice(),
        acl: row.rec.acl.as_slice(),
    }
}

/// How many names the path of a row has. It counts the slashes of the stem.
pub fn depth_of(row: RowRef<'_>) -> usize
    requires { StandsForSome row }
    ensures { (of : SeenRow) → Stands row.entry of → result ≡ length of.path }
{
    if row.stem.len() == 0 {
        return 0;
    }
    PathRef::of_text(row.stem).depth() + 1
}

/// The order of two rows, by their paths. Nothing is copied.
pub fn row_cmp(a: RowRef<'_>, b: RowRef<'_>) -> Ordering
    ensures { (one other : SeenRow) → Stands a.entry one → Stands b.entry other → result ≡ row_cmp one other }
{
    let left = Parts {
        stem: a.stem,
        base: a.base,
    };
    let right = Parts {
        stem: b.stem,
        base: b.base,
    };
    parts_cmp(left, right)
}
