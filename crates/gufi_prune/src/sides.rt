//! Formulas without negations, made from hints in postfix order.
ghost use Rattle.std.specs.Prelude.{◌≡◌, List, [], ◌∷◌, Some, IfOk};
ghost use Rattle.gufi_base.specs.declared.hint.Hint.{Hint as SeenHint};
ghost use Rattle.gufi_formula.specs.Formulas.{Formula as Tree, test as test_alone, negation, both, either};
ghost use Rattle.gufi_formula.specs.Hints.{with_hint, hints_behind, AreWhole};
ghost use Rattle.gufi_prune.specs.Normal.{IsNormal};
ghost use Rattle.gufi_prune.specs.Sides.{AreSidesOf, HasOne, HasTwo, sides_of};

use crate::leaf::Leaf;
use gufi_base::{Hint, Memory};
use gufi_formula::Formula;
use std::alloc::Global;

/// Where a formula holds, and where it fails.
#[derive(Drop)]
pub struct Sides {
    pub holds: Formula<Leaf>,
    pub fails: Formula<Leaf>,
}

/// Takes the newest formula.
fn newest(stack: &mut Vec<Sides>) -> Sides
    requires { HasOne stack.old.items }
    ensures { (f : Tree SeenHint) (fs : List (Tree SeenHint)) → AreSidesOf stack.old.items (f ∷ fs) → (AreSidesOf stack.new.items fs) × (result ≡ sides_of f) }
{
    stack.pop().unwrap()
}

/// Takes the two newest formulas, in their order.
fn newest_two(stack: &mut Vec<Sides>) -> (Sides, Sides)
    requires { HasTwo stack.old.items }
    ensures { (f g : Tree SeenHint) (fs : List (Tree SeenHint)) → AreSidesOf stack.old.items (g ∷ f ∷ fs)
        → AreSidesOf stack.new.items fs × (result.0 ≡ sides_of f) × (result.1 ≡ sides_of g) }
{
    let second = newest(stack);
    let first = newest(stack);
    (first, second)
}

/// A test behind the others.
fn with_test(alloc: Global, mut stack: Vec<Sides>, hint: Hint) -> Result<Vec<Sides>, Memory>
    ensures { (fs : List (Tree SeenHint)) → AreSidesOf stack.items fs → IfOk result (λ s. AreSidesOf s.items (test_alone hint ∷ fs)) }
{
    stack.push(Sides {
        holds: Formula::of(alloc, Leaf { hint, wanted: true }),
        fails: Formula::of(
            alloc,
            Leaf {
                hint,
                wanted: false,
            },
        ),
    })?;
    Ok(stack)
}

/// "not" behind its operand.
fn with_not(mut stack: Vec<Sides>) -> Result<Vec<Sides>, Memory>
    requires { HasOne stack.items }
    ensures { (f : Tree SeenHint) (fs : List (Tree SeenHint)) → AreSidesOf stack.items (f ∷ fs) → IfOk result (λ s. AreSidesOf s.items (negation f ∷ fs)) }
{
    let of = newest(&mut stack);
    stack.push(Sides {
        holds: of.fails,
        fails: of.holds,
    })?;
    Ok(stack)
}

/// "and" behind its operands.
fn with_and(mut stack: Vec<Sides>) -> Result<Vec<Sides>, Memory>
    requires { HasTwo stack.items }
    ensures { (f g : Tree SeenHint) (fs : List (Tree SeenHint)) → AreSidesOf stack.items (g ∷ f ∷ fs) → IfOk result (λ s. AreSidesOf s.items (both f g ∷ fs)) }
{
    let (first, second) = newest_two(&mut stack);
    let holds = first.holds.and(second.holds)?;
    let fails = first.fails.or(second.fails)?;
    stack.push(Sides { holds, fails })?;
    Ok(stack)
}

/// "or" behind its operands.
fn with_or(mut stack: Vec<Sides>) -> Result<Vec<Sides>, Memory>
    requires { HasTwo stack.items }
    ensures { (f g : Tree SeenHint) (fs : List (Tree SeenHint)) → AreSidesOf stack.items (g ∷ f ∷ fs) → IfOk result (λ s. AreSidesOf s.items (either f g ∷ fs)) }
{
    let (first, second) = newest_two(&mut stack);
    let holds = first.holds.or(second.holds)?;
    let fails = first.fails.and(second.fails)?;
    stack.push(Sides { holds, fails })?;
    Ok(stack)
}

/// Takes a hint: a sign takes its operands, which are there.
#[tactic(auto, using(crate::proofs::SidesLemmas::not_there, crate::proofs::SidesLemmas::and_there, crate::proofs::SidesLemmas::or_there, crate::proofs::SidesLemmas::not_gives, crate::proofs::SidesLemmas::and_gives, crate::proofs::SidesLemmas::or_gives))]
fn with_hint(alloc: Global, stack: Vec<Sides>, hint: Hint) -> Result<Vec<Sides>, Memory>
    requires { (fs : List (Tree SeenHint)) × (next : List (Tree SeenHint)) × AreSidesOf stack.items fs × (with_hint hint fs ≡ Some next) }
    ensures { (fs next : List (Tree SeenHint)) → AreSidesOf stack.items fs → with_hint hint fs ≡ Some next → IfOk result (λ s. AreSidesOf s.items next) }
{
    match hint {
        Hint::Not => with_not(stack),
        Hint::And => with_and(stack),
        Hint::Or => with_or(stack),
        _ => with_test(alloc, stack, hint),
    }
}

/// Both sides of the formulas that hints leave.
fn sides_behind(alloc: Global, hints: &[Hint]) -> Result<Vec<Sides>, Memory>
    requires { (fs : List (Tree SeenHint)) × (hints_behind hints.now (Some []) ≡ Some fs) }
    ensures { (fs : List (Tree SeenHint)) → hints_behind hints.now (Some []) ≡ Some fs → IfOk result (λ s. AreSidesOf s.items fs) }
{
    let mut stack = Vec::new(alloc);
    'hints: for hint in hints {
        stack = with_hint(alloc, stack, *hint)?;
    }
    Ok(stack)
}

/// The formula that hints are, without negations.
pub(crate) fn formula_of(alloc: Global, hints: &[Hint]) -> Result<Formula<Leaf>, Memory>
    requires { AreWhole hints.now }
    ensures { IfOk result (λ formula. IsNormal hints.now formula) }
{
    let mut stack = sides_behind(alloc, hints)?;
    Ok(newest(&mut stack).holds)
}
