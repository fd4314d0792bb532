//! Jobs: tasks that bring forth tasks.

ghost use Rattle.std.specs.Prelude.{◌≡◌, ◌++◌, [], ◌∷◌, ℕ, List, Contains, IfOk, OnOk};

use gufi_base::Memory;
use gufi_io::Gate;
use std::alloc::Global;

/// A job is made of numbered tasks, each of which brings forth others, its kids. What its tasks come to is kept in pieces.
///
/// A piece stands for lists of tasks, in whatever order they ran; it needn't keep the tasks themselves. Workers share the job
/// itself, and each writes to a piece of its own.
pub trait Job: Sync {
    /// What a worker keeps of the answer.
    type Piece: Send + Drop;

    /// The tasks that the job may be given.
    ghost given: { Self → List ℕ };

    /// The kids of a task.
    ghost kids_of: { Self → ℕ → List ℕ };

    /// The lists of tasks for which a piece stands.
    ghost stands: { Self → Self.Piece → List ℕ → Type 0 };

    /// A piece of no task.
    fn fresh(&self, alloc: Global) -> Result<Self::Piece, Memory>
        ensures { IfOk result (λ p. stands self.now p []) };

    /// Adds to a piece what a task comes to, and appends the task's kids to `kids`.
    ///
    /// The gate was told of the task itself; what else begins within the task is told to it here. Once `Memory` is answered,
    /// neither the piece nor `kids` is used again.
    fn run<G: Gate>(
        &self,
        alloc: Global,
        gate: &G,
        task: u32,
        piece: &mut Self::Piece,
        kids: &mut Vec<u32>,
    ) -> Result<(), Memory>
        requires given { Contains (given self.now) task }
        requires stood { (ran : List ℕ) × stands self.now piece.old ran }
        ensures piece { OnOk result ((ran : List ℕ) → stands self.now piece.old ran → stands self.now piece.new (ran ++ task ∷ [])) }
        ensures kids { OnOk result (kids.new.items ≡ kids.old.items ++ kids_of self.now task) };
}
