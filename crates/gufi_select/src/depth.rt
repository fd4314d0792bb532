//! How deep below the start a row may lie that a SELECT chooses.
ghost use Rattle.std.specs.Prelude.{◌≡◌, ℕ, ◌≤◌, Bool, true, Some};
ghost use Rattle.gufi_base.specs.declared.record.Row.{Row};
ghost use Rattle.gufi_select.specs.Columns.{select_holds};
ghost use Rattle.gufi_base.specs.Limits.{max_components};
ghost use Rattle.gufi_formula.specs.Formulas.{holds};
ghost use Rattle.gufi_select.specs.Depths.{reaches, first_failure, condition_depth, select_depth};

use crate::column::Column;
use crate::condition::{Condition, Value};
use crate::operator::Operator;
use crate::select::Select;
use gufi_formula::{Formula, Valuation};

/// How many components a path has at most.
const MAX_COMPONENTS: u32 = 256;

/// What may be true of a row that lies deeper than this.
#[derive(Drop)]
struct Deeper {
    than: u32,
}

impl Valuation<Condition> for Deeper {
    ghost truth = { λ d c. reaches d.than c };

    fn is_true(&self, condition: &Condition) -> bool {
        let Condition::Compares(Column::Level, operator, Value::Number(number)) = condition else {
            return true;
        };
        let than = i128::from(self.than);
        match operator {
            Operator::Equal | Operator::AtMost => than < *number,
            Operator::Below => than + 1 < *number,
            Operator::Unequal | Operator::Above | Operator::AtLeast => true,
        }
    }
}

/// The least depth below which a condition is true of no row, of those that are less than the greatest.
fn first_depth(condition: &Formula<Condition>) -> Option<u32>
    ensures { result ≡ first_failure (λ deep. holds (reaches deep) condition.now) 0 max_components }
{
    for than in 0..MAX_COMPONENTS {
        if !condition.is_true(&Deeper { than }) {
            return Some(than);
        }
    }
    None
}

/// The greatest depth of a row of which a condition may be true, where its comparisons of `level` bound it.
fn condition_depth(condition: &Formula<Condition>) -> Option<u32>
    ensures { result ≡ condition_depth condition.now }
{
    let most = Deeper {
        than: MAX_COMPONENTS,
    };
    if !condition.is_positive() || condition.is_true(&most) {
        return None;
    }
    first_depth(condition)
}

impl Select {
    /// The greatest depth below the start of a row that it chooses, where its comparisons of `level` bound it: at a greater one it is
    /// false of every row. None is told where a NOT stands in it.
    ///
    /// It tries its condition at most 257 times, and takes no memory.
    #[tactic(auto, using(crate::proofs::DepthLemmas::no_deeper))]
    pub fn max_depth(&self) -> Option<u32>
        ensures exact { result ≡ select_depth self.now }
        ensures bounded { (most : ℕ) → result ≡ Some most → (row : Row) (depth : ℕ) → select_holds self.now row depth ≡ true → depth ≤ most }
    {
        self.level_bound()
    }

    fn level_bound(&self) -> Option<u32>
        ensures { result ≡ select_depth self.now }
    {
        match &self.condition {
            Some(condition) => condition_depth(condition),
            None => None,
        }
    }
}
