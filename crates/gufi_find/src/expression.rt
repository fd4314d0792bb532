//! Expressions, and their truth at a row.
ghost use Rattle.std.specs.Prelude.{◌≡◌, ℕ, ◌≤◌, ◌&&◌, nat_le, true, IsTrue, Some};
ghost use Rattle.gufi_base.specs.declared.record.Row.{Row};
ghost use Rattle.gufi_base.specs.Rows.{Stands, StandsForSome};
ghost use Rattle.gufi_formula.specs.Formulas.{holds};
ghost use Rattle.gufi_find.specs.Tests.{test_holds};
ghost use Rattle.gufi_find.specs.Expressions.{find_holds, has_no_words, is_at_most, last_byte, EndsWith};

use crate::test::Test;
use gufi_base::{Memory, Pred, RowRef, Tester};
use gufi_formula::{Formula, Valuation};
use std::alloc::Global;
use std::marker::Model;

/// An expression, which is true or false of a row and its depth below the start.
#[derive(Drop)]
pub struct FindExpr {
    pub(crate) formula: Formula<Test>,
    least_depth: u32,
    most_depth: Option<u32>,
}

impl Model for FindExpr {
    ghost use Rattle.std.specs.Coded.{codes};
    ghost use Rattle.gufi_formula.specs.FormulaCodes.{formula_coded};
    ghost use Rattle.gufi_find.specs.Expressions.{Find};

    ghost Value = { Find };

    ghost coded = { Prim.hlevel (codes, formula_coded) };

    ghost view = { λ e. record { expr = e.formula; least_depth = e.least_depth; most_depth = e.most_depth } };
}

impl FindExpr {
    pub(crate) fn of(formula: Formula<Test>, least_depth: u32, most_depth: Option<u32>) -> FindExpr
        ensures { result ≡ record { expr = formula; least_depth = least_depth; most_depth = most_depth } }
    {
        FindExpr {
            formula,
            least_depth,
            most_depth,
        }
    }

    /// Whether a depth is within the bounds.
    #[inline]
    fn is_within(&self, depth: u32) -> bool
        ensures { result ≡ nat_le self.now.least_depth depth && is_at_most self.now.most_depth depth }
    {
        self.least_depth <= depth
            && match self.most_depth {
                Some(most) => depth <= most,
                None => true,
            }
    }

    /// The greatest depth that its words allow, where they bound it: at a greater one it is false of every row.
    #[tactic(auto, using(crate::proofs::RowLemmas::no_deeper))]
    pub fn max_depth(&self) -> Option<u32>
        ensures exact { result ≡ self.now.most_depth }
        ensures bounded { (most : ℕ) → result ≡ Some most → (row : Row) (depth : ℕ) → find_holds self.now row depth ≡ true → depth ≤ most }
    {
        self.most_depth
    }

    /// Whether it has no words and no bounds of depth: then it is true of every row.
    #[tactic(auto, using(crate::proofs::RowLemmas::wordless_test, crate::proofs::RowLemmas::wordless_none, crate::proofs::RowLemmas::every_row))]
    pub fn has_no_words(&self) -> bool
        ensures exact { result ≡ has_no_words self.now }
        ensures every_row { IsTrue result → find_holds self.now ≡ (λ _ _. true) }
    {
        match self.formula.only_test() {
            Some(test) => { test.is_always() && self.least_depth == 0 && self.most_depth.is_none() }
            None => false,
        }
    }

    /// Whether its formula is true of a row.
    ///
    /// Made part of its callers, and only a copy is lent, so that a row's parts needn't go through memory for one test alone, nor for
    /// the first of an "and" where that is false.
    #[inline(always)]
    #[tactic(auto, using(crate::proofs::RowLemmas::truth_of_parts, crate::proofs::RowLemmas::truth_of_one))]
    fn is_met(&self, row: RowRef<'_>) -> bool
        ensures { (of : Row) → Stands row.entry of → result ≡ holds (λ t. test_holds t of) self.now.expr }
    {
        match self.formula.only_test() {
            Some(test) => row.is_true(test),
            None => {
                if self.formula.fails_at_first(&row) {
                    return false;
                }
                let lent = row;
                self.formula.is_true(&lent)
            }
        }
    }

    /// Whether it is true of a row at that depth below the start, and the depth within its bounds. No memory.
    ///
    /// Made part of its callers, so that a row's parts needn't go through memory once more.
    #[inline(always)]
    pub fn sat(&self, row: RowRef<'_>, depth: u32) -> bool
        requires { StandsForSome row }
        ensures { (of : Row) → Stands row.entry of → result ≡ find_holds self.now of depth }
    {
        self.is_within(depth) && self.is_met(row)
    }
}

/// The question whether an expression is true, which it lends.
#[derive(Drop)]
pub struct FindQuestion<'e> {
    expression: &'e FindExpr,
    /// The byte with which the last name ends of each row that meets it, where one is told.
    last: Option<u8>,
}

impl<'e> Model for FindQuestion<'e> {
    ghost use Rattle.std.specs.Coded.{codes};
    ghost use Rattle.gufi_formula.specs.FormulaCodes.{formula_coded};
    ghost use Rattle.gufi_find.specs.Expressions.{Find};

    ghost Value = { Find };

    ghost coded = { Prim.hlevel (codes, formula_coded) };

    ghost use Rattle.gufi_find.specs.Expressions.{EndsWith};

    ghost view = { λ q. q.expression.now };

    ghost invariant = { λ q. EndsWith q.expression.now q.last };
}

impl FindExpr {
    /// The byte with which the last name ends of each row that meets it, where its first test tells one.
    #[tactic(auto, using(crate::proofs::RowLemmas::ends_with_name))]
    fn last_byte(&self) -> Option<u8>
        ensures { EndsWith self.now result }
    {
        match self.formula.hanging_test() {
            Some(Test::NameMatches(pattern)) => pattern.last_byte(),
            _ => None,
        }
    }

    /// The question that it is to rows.
    pub fn question(&self) -> FindQuestion<'_>
        ensures { result ≡ self.now }
    {
        let last = self.last_byte();
        FindQuestion {
            expression: self,
            last,
        }
    }
}

/// The last byte, or 0 where there is none.
#[inline(always)]
fn last_byte_of(bytes: &[u8]) -> u8
    ensures { result ≡ last_byte bytes.now }
{
    match bytes {
        [.., last] => *last,
        [] => 0,
    }
}

impl<'e> Tester for FindQuestion<'e> {
    ghost meets = { λ q row depth. find_holds q row depth };

    /// Most rows of a search by names are refused by the last byte of theirs, before anything else is looked at.
    #[inline(always)]
    fn test(&mut self, _alloc: Global, row: RowRef<'_>, depth: u32) -> Result<bool, Memory> {
        if let Some(last) = self.last {
            if last_byte_of(row.base) != last {
                return Ok(false);
            }
        }
        Ok(self.expression.sat(row, depth))
    }
}

impl<'e> Pred for FindQuestion<'e> {
    type Tester = FindQuestion<'e>;

    ghost sat = { λ q row depth. find_holds q row depth };

    fn tester(&self, _alloc: Global) -> Result<FindQuestion<'e>, Memory> {
        Ok(FindQuestion {
            expression: self.expression,
            last: self.last,
        })
    }
}
