//! A SELECT, and its truth at a row.
ghost use Rattle.std.specs.Prelude.{◌≡◌, IfOk};
ghost use Rattle.gufi_select.specs.Columns.{holds_in, select_holds};
ghost use Rattle.gufi_select.specs.Parts.{seen_parts};

use crate::column::{Column, Table};
use crate::condition::{Condition, SeenRow};
use crate::regexp::{Regexp, RegexpSearch};
use gufi_base::{Memory, Pred, RowRef, Tester};
use gufi_formula::Formula;
use std::alloc::Global;
use std::marker::Model;

/// Which rows are chosen, and what is printed of each.
#[derive(Drop)]
pub struct Select {
    pub(crate) columns: Vec<Column>,
    pub(crate) table: Table,
    regexp: Option<Regexp>,
    pub(crate) condition: Option<Formula<Condition>>,
}

impl Model for Select {
    ghost use Rattle.std.specs.Coded.{codes};
    ghost use Rattle.gufi_formula.specs.FormulaCodes.{formula_coded};
    ghost use Rattle.gufi_select.specs.Columns.{Select};

    ghost Value = { Select };

    ghost coded = { Prim.hlevel (codes, formula_coded) };

    ghost view = { λ s. record { columns = s.columns.items; table = s.table; regexp = s.regexp; condition = s.condition } };
}

impl Select {
    pub(crate) fn of(
        columns: Vec<Column>,
        table: Table,
        regexp: Option<Regexp>,
        condition: Option<Formula<Condition>>,
    ) -> Select
        ensures { result ≡ record { columns = columns.items; table = table; regexp = regexp; condition = condition } }
    {
        Select {
            columns,
            table,
            regexp,
            condition,
        }
    }

    /// What is printed of a row, in order.
    pub fn columns(&self) -> &[Column]
        ensures { result.now ≡ self.now.columns }
    {
        self.columns.as_slice()
    }

    /// The question that it is to rows.
    pub fn question(&self) -> SelectQuestion<'_>
        ensures { result ≡ self.now }
    {
        SelectQuestion { select: self }
    }
}

/// The question whether a SELECT chooses a row, which it lends.
#[derive(Drop)]
pub struct SelectQuestion<'s> {
    select: &'s Select,
}

impl<'s> Model for SelectQuestion<'s> {
    ghost use Rattle.std.specs.Coded.{codes};
    ghost use Rattle.gufi_formula.specs.FormulaCodes.{formula_coded};
    ghost use Rattle.gufi_select.specs.Columns.{Select};

    ghost Value = { Select };

    ghost coded = { Prim.hlevel (codes, formula_coded) };

    ghost view = { λ q. q.select.now };
}

impl<'s> Pred for SelectQuestion<'s> {
    type Tester = SelectTester<'s>;

    ghost sat = { λ q row depth. select_holds q row depth };

    fn tester(&self, alloc: Global) -> Result<SelectTester<'s>, Memory> {
        let select = self.select;
        let regexp = match &select.regexp {
            Some(regexp) => Some(regexp.search(alloc)?),
            None => None,
        };
        Ok(SelectTester { select, regexp })
    }
}

/// Puts a SELECT to row after row, with one search for its REGEXP. Contracts see it as the SELECT.
#[derive(Drop)]
pub struct SelectTester<'s> {
    select: &'s Select,
    regexp: Option<RegexpSearch<'s>>,
}

impl<'s> Model for SelectTester<'s> {
    ghost use Rattle.std.specs.Prelude.{◌≡◌};
    ghost use Rattle.std.specs.Coded.{codes};
    ghost use Rattle.gufi_formula.specs.FormulaCodes.{formula_coded};
    ghost use Rattle.gufi_select.specs.Columns.{Select};

    ghost Value = { Select };

    ghost coded = { Prim.hlevel (codes, formula_coded) };

    ghost view = { λ t. t.select.now };

    ghost invariant = { λ t. t.regexp ≡ t.select.now.regexp };
}

impl<'s> SelectTester<'s> {
    /// Whether the SELECT is true of a row in borrowed parts.
    ///
    /// The pattern is looked for only where the other conditions don't decide. Made part of its callers, so that a row's parts
    /// needn't go through memory once more.
    #[inline(always)]
    fn is_true(&mut self, row: RowRef<'_>, depth: u32) -> Result<bool, Memory>
        ensures met { IfOk result (λ met. met ≡ holds_in self.old (seen_parts row.entry depth)) }
        ensures same { self.new ≡ self.old }
    {
        let select = self.select;
        if !select.table.has(row.meta) {
            return Ok(false);
        }
        let Some(condition) = &select.condition else {
            return Ok(true);
        };
        let without = condition.is_true(&SeenRow {
            row,
            depth,
            found: false,
        });
        let Some(regexp) = &mut self.regexp else {
            return Ok(without);
        };
        let with = condition.is_true(&SeenRow {
            row,
            depth,
            found: true,
        });
        if with == without {
            return Ok(with);
        }
        let found = regexp.is_found(row)?;
        Ok(if found { with } else { without })
    }
}

impl<'s> Tester for SelectTester<'s> {
    ghost meets = { λ t row depth. select_holds t row depth };

    #[inline(always)]
    #[tactic(auto, using(crate::proofs::RowLemmas::seen_of_parts))]
    fn test(&mut self, _alloc: Global, row: RowRef<'_>, depth: u32) -> Result<bool, Memory> {
        self.is_true(row, depth)
    }
}
