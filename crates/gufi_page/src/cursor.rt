//! Cursors: rows of a page, one after another.

ghost use Rattle.std.specs.Prelude.{◌≡◌, ◌≤◌, ◌∷◌, [], length, take, drop, MatchOption};
ghost use Rattle.gufi_base.specs.declared.record.Row.{Row as SeenRow};
ghost use Rattle.gufi_base.specs.Rows.{Stands};

use crate::page::Page;
use gufi_base::RowRef;
use std::marker::Model;

/// The rows of a page that are still to come.
#[derive(Drop)]
pub struct Cursor<'a> {
    page: &'a Page,
    next: u32,
    end: u32,
    // That of the last row's stem, from which the next row's is looked for. No clause rests on it.
    number: usize,
}

impl<'a> Model for Cursor<'a> {
    ghost use Rattle.std.specs.Prelude.{List, ◌≤◌, length, take, drop};
    ghost use Rattle.gufi_base.specs.declared.record.Row.{Row};

    ghost Value = { List Row };

    ghost view = { λ c. drop c.next (take c.end c.page.now) };

    ghost invariant = { λ c. (c.next ≤ c.end) × (c.end ≤ length c.page.now) };
}

impl<'a> Cursor<'a> {
    /// The rows from a place to another.
    pub(crate) fn between(page: &'a Page, next: u32, end: u32) -> Cursor<'a>
        requires next { next ≤ end }
        requires end { end ≤ length page.now }
        ensures { result ≡ drop next (take end page.now) }
    {
        Cursor {
            page,
            next,
            end,
            number: 0,
        }
    }

    /// The next row, in parts that are borrowed from the page, not from the cursor.
    ///
    /// `O(1)`; the first row of a range takes `O(log n)`.
    pub fn next(&mut self) -> Option<RowRef<'a>>
        ensures { MatchOption result
            ((self.old ≡ []) × (self.new ≡ []))
            (λ row. (of : SeenRow) × (self.old ≡ of ∷ self.new) × Stands row of) }
    {
        if self.next >= self.end {
            return None;
        }
        let (number, row) = self.page.row_near(self.number, self.next);
        self.number = number;
        self.next += 1;
        Some(row)
    }
}
