//! The rule of a worker's deque, and what each step of the deque tells.

ghost use Rattle.std.specs.Prelude.{◌≡◌, ◌++◌, List, ℕ, [], All, Contains};
ghost use Rattle.gufi_pool.specs.Accounts.{account, Settled, whole};

use crossbeam_deque::protocol::{Join, Outcome, Protocol, Split};
use crossbeam_deque::{Pass, Stealer, Worker};
use std::alloc::Global;
use std::collections::LinkedList;
use std::marker::{Brand, PhantomData};

/// What a pass to a deque has pushed and taken, and its share of the deque. No value of it is made.
pub struct Account {
    pub share: u64,
    pub pushed: LinkedList<u32>,
    pub taken: LinkedList<u32>,
}

/// Names the tasks that a job may be given. It stands in the types of the deques, so that a thief knows what it may steal.
pub trait GivenTasks {
    ghost given: { List ℕ };
}

/// `run_pool` picks the tasks of its job.
impl GivenTasks for Brand {
    ghost given = { [] };
}

/// The rule of each deque of a pool. A pass begins as a guest, with no share; the owner's begins with the whole.
pub struct DequeRule<T> {
    given: PhantomData<T>,
}

impl<T: GivenTasks> Protocol<u32, Account> for DequeRule<T> {
    ghost use Rattle.std.specs.Prelude.{[]};
    ghost use Rattle.gufi_pool.specs.Accounts.{account, Ruled, whole};

    ghost holds = { Ruled T.given };

    ghost first = { account whole [] [] };

    ghost guest = { account 0 [] [] };
}

/// A split gives the new pass one part of the share, and a join adds the accounts up.
pub struct Shares;

impl Split<Account> for Shares {
    ghost use Rattle.std.specs.Prelude.{◌-◌, []};
    ghost use Rattle.gufi_pool.specs.Accounts.{account};

    ghost left = { λ v. account (v.share - 1) v.pushed v.taken };

    ghost right = { λ v. account 1 [] [] };
}

impl Join<Account> for Shares {
    ghost use Rattle.std.specs.Prelude.{◌+◌, ◌++◌, []};
    ghost use Rattle.gufi_pool.specs.Accounts.{account};

    ghost both = { λ v w. account (v.share + w.share) (v.pushed ++ w.pushed) (v.taken ++ w.taken) };

    ghost spent = { account 0 [] [] };
}

/// A push.
pub struct Pushed;

impl Outcome<u32, Account> for Pushed {
    ghost then = { λ v xs w. w ≡ account v.share (v.pushed ++ xs) v.taken };
}

/// A pop. Only who has the whole share learns something of an empty deque.
pub struct Taken<T> {
    given: PhantomData<T>,
}

impl<T: GivenTasks> Outcome<u32, Account> for Taken<T> {
    ghost then = { λ v xs w. (w ≡ account v.share v.pushed (v.taken ++ xs)) × All (Contains T.given) xs };

    ghost empty = { λ v. v.share ≡ whole → Settled v };
}

/// A steal, which learns nothing of an empty deque.
pub struct Stolen<T> {
    given: PhantomData<T>,
}

impl<T: GivenTasks> Outcome<u32, Account> for Stolen<T> {
    ghost then = { λ v xs w. (w ≡ account v.share v.pushed (v.taken ++ xs)) × All (Contains T.given) xs };
}

/// A deque, in the hands of its worker.
pub type Owner<T> = Worker<u32, Global, Account, DequeRule<T>>;

/// A deque, in the hands of a thief.
pub type Thief<T> = Stealer<u32, Global, Account, DequeRule<T>>;

/// A thief's account with a deque.
pub type ThiefPass = Pass<u32, Account>;
