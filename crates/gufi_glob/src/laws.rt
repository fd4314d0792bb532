//! Laws of patterns.
ghost use Rattle.std.specs.Prelude.{◌≡◌, ◌↔◌, ℕ, List, true};
ghost use Rattle.gufi_glob.specs.Parts.{Part};
ghost use Rattle.gufi_glob.specs.Patterns.{matches};
ghost use Rattle.gufi_glob.specs.Cuts.{IsCut};

/// A pattern matches exactly the texts that can be cut into as many pieces as it has parts, each part fitting its piece.
pub fn matches_are_cuts()
    ensures { (parts : List Part) → (text : List ℕ) → (matches parts text ≡ true) ↔ ((pieces : List (List ℕ)) × IsCut parts text pieces) }
{}
