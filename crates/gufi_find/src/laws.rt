//! Laws of expressions.
ghost use Rattle.std.specs.Prelude.{◌≡◌, ◌≤◌, ℕ, ℤ, true, List, Option, None, Ok};
ghost use Rattle.gufi_base.specs.declared.record.Row.{Row};
ghost use Rattle.gufi_base.specs.Limits.{max_nesting};
ghost use Rattle.gufi_base.specs.Rows.{fits_types};
ghost use Rattle.gufi_formula.specs.Formulas.{Formula};
ghost use Rattle.gufi_formula.specs.Written.{EachTest, formula_nesting, written_formula};
ghost use Rattle.gufi_formula.specs.Hints.{chance_at, certain};
ghost use Rattle.gufi_formula.specs.Leaves.{tells};
ghost use Rattle.gufi_users.specs.Entries.{UserTables};
ghost use Rattle.gufi_find.specs.declared.test.Test.{Test};
ghost use Rattle.gufi_find.specs.Reading.{read_find};
ghost use Rattle.gufi_find.specs.Spelled.{IsSpelled, find_spelling};
ghost use Rattle.gufi_find.specs.Tests.{test_holds};
ghost use Rattle.gufi_find.specs.TestHints.{test_hint};

/// The words of a formula read back to it, however its tests are spelled: "!" binds tighter than "-a", "-a" tighter than
/// "-o", both join from the left, and parentheses stand only where these ranks want them.
pub fn expressions_read_back()
    ensures { (tables : UserTables) → (now : Option ℤ) → (spelled : Test → List (List ℕ)) → (f : Formula Test)
        → EachTest (λ t. IsSpelled tables now t (spelled t)) f → formula_nesting f ≤ max_nesting
        → read_find (written_formula (find_spelling spelled) f) tables now ≡ Ok (record { expr = f; least_depth = 0; most_depth = None }) }
{}

/// A hint that tells something is true of a row exactly where its test is.
pub fn hints_tell_tests()
    ensures { (t : Test) → (row : Row) → fits_types row.rec ≡ true → tells (test_hint t) ≡ true
        → chance_at row.rec.meta (test_hint t) ≡ certain (test_holds t row) }
{}
