//! The REGEXP of a SELECT.
ghost use Rattle.std.specs.Prelude.{◌≡◌, ◌++◌, ℕ, Some, IfOk, OnOk};
ghost use Rattle.gufi_select.specs.Columns.{regexp_holds};
ghost use Rattle.gufi_select.specs.Parts.{seen_parts};

use crate::column::Column;
use gufi_base::{Memory, RowRef};
use gufi_pattern::{Pattern, Search};
use std::alloc::{AllocError, Global};
use std::marker::Model;

/// A column, and the pattern that is to be found in it.
#[derive(Drop)]
pub(crate) struct Regexp {
    pub(crate) column: Column,
    pub(crate) pattern: Pattern,
}

/// What looks for a REGEXP in row after row. Contracts see it as the REGEXP.
#[derive(Drop)]
pub(crate) struct RegexpSearch<'r> {
    column: Column,
    search: Search<'r>,
    /// Where paths are joined.
    path: Vec<u8>,
}

impl<'r> Model for RegexpSearch<'r> {
    ghost use Rattle.gufi_select.specs.declared.regexp.Regexp.{Regexp};

    ghost Value = { Regexp };

    ghost view = { λ s. record { column = s.column; pattern = s.search } };
}

/// Puts two pieces of a text into one, in place of what is there.
fn join(text: &mut Vec<u8>, front: &[u8], back: &[u8]) -> Result<(), AllocError>
    ensures { OnOk result (text.new.items ≡ front.now ++ back.now) }
{
    text.clear();
    text.extend_from_slice(front)?;
    text.extend_from_slice(back)
}

impl Regexp {
    /// What looks for it.
    pub(crate) fn search(&self, alloc: Global) -> Result<RegexpSearch<'_>, Memory>
        ensures { IfOk result (λ s. s ≡ self.now) }
    {
        Ok(RegexpSearch {
            column: self.column,
            search: self.pattern.search(alloc)?,
            path: Vec::new(alloc),
        })
    }
}

impl<'r> RegexpSearch<'r> {
    /// Whether the pattern is found in the column's bytes of a row. A path is joined for that.
    pub(crate) fn is_found(&mut self, row: RowRef<'_>) -> Result<bool, Memory>
        ensures found { IfOk result (λ met. (depth : ℕ) → met ≡ regexp_holds (Some self.old) (seen_parts row.entry depth)) }
        ensures same { self.new ≡ self.old }
    {
        match self.column {
            Column::Path => {
                join(&mut self.path, row.stem, row.base)?;
                Ok(self.search.is_found(self.path.as_slice()))
            }
            Column::Name => Ok(self.search.is_found(row.base)),
            Column::Kind => {
                let letter = [row.meta.kind.letter()];
                Ok(self.search.is_found(letter.as_slice()))
            }
            Column::Linkname => Ok(self.search.is_found(row.link)),
            Column::Xattrs => Ok(self.search.is_found(row.xattrs)),
            _ => Ok(self.search.is_found(&[])),
        }
    }
}
