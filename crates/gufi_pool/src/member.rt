//! The workers of a pool: what each of them has.

ghost use Rattle.std.specs.Prelude.{◌≡◌};
ghost use Rattle.crossbeam_deque.specs.Handles.{IsPassOf, stealer_deque};

use crate::rule::{GivenTasks, Owner, Thief, ThiefPass};

/// A way to steal from a deque.
#[derive(Drop)]
pub struct Route<T: GivenTasks> {
    pub thief: Thief<T>,
    pub pass: ThiefPass,
    ghost leads: { IsPassOf (stealer_deque thief) pass },
}

/// A worker: its deque, a route to each worker's deque, and its piece of the answer.
#[derive(Drop)]
pub struct Member<T: GivenTasks, P> {
    /// Its place among the workers, and that of its own deque among the routes.
    pub number: usize,
    pub own: Owner<T>,
    pub routes: Vec<Route<T>>,
    pub piece: P,
}

impl<T: GivenTasks, P> Member<T, P> {
    pub(crate) fn into_piece(self) -> P
        ensures { result ≡ self.piece }
    {
        let Member { piece, .. } = self;
        piece
    }
}
