//! What visitors read: the item that was published last, and its number.
ghost use Rattle.std.specs.Prelude.{◌≡◌, ◌<◌, ℕ};
ghost use Rattle.std.specs.Option.{ForNone, ForSome};
ghost use Rattle.std.specs.Arc.{arc_value};

use left_right::Absorb;
use std::alloc::AllocError;
use std::marker::{Brand, PhantomData};
use std::sync::Arc;

/// What the publication of a number is, as the caller means it: one who calls a function over `M: Meaning<T>` with `Brand`
/// picks what each number means.
pub trait Meaning<T> {
    /// The item may stand at the number.
    ghost means: { ℕ → T → Type 0 };
}

impl<T> Meaning<T> for Brand {
    ghost means = { λ _ _. Unit {0} };
}

/// The item that was published last. It is none, at number 0, before the first.
#[derive(Drop)]
pub struct Latest<T: Drop, M: Meaning<T>> {
    pub number: u64,
    pub item: Option<Arc<T>>,
    of: PhantomData<M>,
    ghost none: { ForNone item (number ≡ 0) },
    ghost meant: { ForSome item (λ x. (0 < number) × ∥ M.means number (arc_value x) ∥₁) },
}

/// An item to be published at this number.
#[derive(Drop)]
pub struct Publication<T: Drop, M: Meaning<T>> {
    pub number: u64,
    pub item: Arc<T>,
    of: PhantomData<M>,
    ghost meant: { (0 < number) × ∥ M.means number (arc_value item) ∥₁ },
}

impl<T: Drop, M: Meaning<T>> Latest<T, M> {
    pub(crate) fn none() -> Latest<T, M>
        ensures { result.number ≡ 0 }
    {
        Latest {
            number: 0,
            item: None,
            of: PhantomData,
        }
    }
}

impl<T: Drop, M: Meaning<T>> Publication<T, M> {
    pub(crate) fn new(number: u64, item: Arc<T>) -> Publication<T, M>
        requires { (0 < number) × ∥ M.means number (arc_value item) ∥₁ }
        ensures { (result.number ≡ number) × (result.item ≡ item) }
    {
        Publication {
            number,
            item,
            of: PhantomData,
        }
    }
}

impl<T: Drop, M: Meaning<T>> Absorb<Publication<T, M>> for Latest<T, M> {
    type State = u64;

    ghost state = { λ s. s.number };

    ghost applied = { λ _ publication. publication.number };

    fn absorb_first(
        &mut self,
        operation: &Publication<T, M>,
        _other: &Latest<T, M>,
    ) -> Result<(), AllocError> {
        let item = Arc::try_clone(&operation.item)?;
        *self = Latest {
            number: operation.number,
            item: Some(item),
            of: PhantomData,
        };
        Ok(())
    }

    fn absorb_second(
        &mut self,
        operation: Publication<T, M>,
        _other: &Latest<T, M>,
    ) -> Result<(), Publication<T, M>> {
        let Publication {
            number,
            item,
            of: _,
        } = operation;
        *self = Latest {
            number,
            item: Some(item),
            of: PhantomData,
        };
        Ok(())
    }
}
