//! What stands open while a formula is read.
ghost use Rattle.std.specs.Prelude.{◌≡◌, ◌<◌, ◌∷◌, nat_le, IfOk};
ghost use Rattle.gufi_base.specs.Limits.{max_nesting};
ghost use Rattle.gufi_base.specs.Basics.{is_empty};
ghost use Rattle.gufi_formula.specs.Formulas.{test as test_alone};
ghost use Rattle.gufi_formula.specs.Levels.{new_level, with_term, with_or, with_not, level_formula, open_ones, first_levels, closed_levels};

use crate::formula::Formula;
use crate::level::{Level, is_full};
use std::alloc::{AllocError, Global};
use std::marker::Model;

/// The innermost level, and those around it, of which contracts see the innermost first.
#[derive(Drop)]
pub struct OpenLevels<T> {
    level: Level<T>,
    /// The innermost is the last.
    outer: Vec<Level<T>>,
}

impl<T> Model for OpenLevels<T> {
    ghost use Rattle.std.specs.Prelude.{reverse};
    ghost use Rattle.std.specs.Coded.{codes};
    ghost use Rattle.gufi_formula.specs.FormulaCodes.{formula_coded};
    ghost use Rattle.gufi_formula.specs.Levels.{Levels};

    ghost Value = { Levels T };

    ghost coded = { Prim.hlevel (codes, formula_coded, T.code) };

    ghost view = { λ s. record { level = s.level; outer = reverse s.outer.items } };
}

impl<T: Drop> OpenLevels<T> {
    /// Where nothing was read.
    pub fn new(alloc: Global) -> OpenLevels<T>
        ensures { result ≡ first_levels }
    {
        OpenLevels {
            level: Level::new(),
            outer: Vec::new(alloc),
        }
    }

    /// Whether no parenthesis is open.
    pub fn is_outermost(&self) -> bool
        ensures { result ≡ is_empty self.now.outer }
    {
        self.outer.is_empty()
    }

    /// Whether as many parentheses and "not" are open as may be.
    pub fn is_full(&self) -> bool
        ensures { result ≡ nat_le max_nesting (open_ones self.now.level self.now.outer) }
    {
        is_full(&self.level, self.outer.as_slice())
    }

    /// A test is complete.
    pub fn with_test(self, alloc: Global, test: T) -> Result<OpenLevels<T>, AllocError>
        ensures { IfOk result (λ s. s ≡ record self { level = with_term (test_alone test) self.level }) }
    {
        let level = self.level.with_term(Formula::of(alloc, test))?;
        Ok(OpenLevels {
            level,
            outer: self.outer,
        })
    }

    /// "or"
    pub fn with_or(self) -> Result<OpenLevels<T>, AllocError>
        ensures { IfOk result (λ s. s ≡ record self { level = with_or self.level }) }
    {
        let level = self.level.with_or()?;
        Ok(OpenLevels {
            level,
            outer: self.outer,
        })
    }

    /// "not"
    pub fn with_not(self) -> OpenLevels<T>
        requires { open_ones self.level self.outer < max_nesting }
        ensures { result ≡ record self { level = with_not self.level } }
    {
        OpenLevels {
            level: self.level.with_not(),
            outer: self.outer,
        }
    }

    /// An opening parenthesis.
    pub fn nested(self) -> Result<OpenLevels<T>, AllocError>
        ensures { IfOk result (λ s. s ≡ record { level = new_level; outer = self.level ∷ self.outer }) }
    {
        let mut outer = self.outer;
        outer.push(self.level)?;
        Ok(OpenLevels {
            level: Level::new(),
            outer,
        })
    }

    /// A closing parenthesis, where one is open.
    pub fn closed(self) -> Result<Option<OpenLevels<T>>, AllocError>
        ensures { IfOk result (λ s. s ≡ closed_levels self.level self.outer) }
    {
        let mut outer = self.outer;
        let Some(around) = outer.pop() else {
            return Ok(None);
        };
        let term = self.level.formula()?;
        let level = around.closed_by(term)?;
        Ok(Some(OpenLevels { level, outer }))
    }

    /// The formula of the innermost level, where it has a term.
    pub fn formula(self) -> Result<Option<Formula<T>>, AllocError>
        ensures { IfOk result (λ f. f ≡ level_formula self.level) }
    {
        self.level.formula()
    }
}
