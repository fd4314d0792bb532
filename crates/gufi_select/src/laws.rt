//! Laws of SELECT.
ghost use Rattle.std.specs.Prelude.{◌≡◌, ◌≤◌, ℕ, Bool, true, List, map, Some, None, Ok};
ghost use Rattle.gufi_base.specs.declared.record.Row.{Row};
ghost use Rattle.gufi_base.specs.Limits.{max_nesting};
ghost use Rattle.gufi_base.specs.Rows.{fits_types};
ghost use Rattle.gufi_formula.specs.Formulas.{Formula};
ghost use Rattle.gufi_formula.specs.Hints.{certain, chance_at, chance_or, formula_of};
ghost use Rattle.gufi_formula.specs.Leaves.{tells};
ghost use Rattle.gufi_formula.specs.Written.{EachTest, formula_nesting};
ghost use Rattle.gufi_select.specs.declared.column.Table.{Table};
ghost use Rattle.gufi_select.specs.declared.condition.Condition.{Condition};
ghost use Rattle.gufi_select.specs.Columns.{condition_holds, seen_row};
ghost use Rattle.gufi_select.specs.ConditionHints.{condition_hints, leaf_of};
ghost use Rattle.gufi_select.specs.Reading.{read_select, all_columns};
ghost use Rattle.gufi_select.specs.Spelled.{IsTyped, select_tokens};
ghost use Rattle.gufi_select.specs.Tokens.{tokens, PlacedToken};

/// A text whose tokens are those of a condition, behind `SELECT * FROM` a table `WHERE`, reads back to it: NOT binds tighter
/// than AND, AND tighter than OR, both join from the left, and parentheses stand only where these ranks want them.
pub fn conditions_read_back()
    ensures { (table : Table) → (f : Formula Condition) → (text : List ℕ) → EachTest IsTyped f → formula_nesting f ≤ max_nesting
        → map (λ (placed : PlacedToken). placed.token) (tokens text) ≡ select_tokens table f
        → read_select text ≡ Ok (record { columns = all_columns; table = table; regexp = None; condition = Some f }) }
{}

/// The hints of a condition of which sums tell something are true of a row exactly where the condition is.
pub fn hints_tell_conditions()
    ensures { (found : Bool) → (c : Condition) → (row : Row) → (depth : ℕ) → fits_types row.rec ≡ true → tells (leaf_of c) ≡ true
        → chance_or (chance_at row.rec.meta) (formula_of (condition_hints c)) ≡ certain (condition_holds found c (seen_row row depth)) }
{}
