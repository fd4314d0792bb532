//! The front of a slice, and what is behind it.

ghost use Rattle.std.specs.Prelude.{◌≡◌, [], ◌∷◌, MatchOption, drop};

/// The first item, and the others.
#[inline]
pub fn split_first<T>(items: &[T]) -> Option<(&T, &[T])>
    ensures { MatchOption result
        (items.now ≡ [])
        (λ cut. items.now ≡ cut.0.now ∷ cut.1.now) }
{
    match items {
        [first, others @ ..] => Some((first, others)),
        [] => None,
    }
}

/// The items behind so many.
#[inline]
pub fn behind<T>(items: &[T], count: usize) -> &[T]
    ensures { result.now ≡ drop count items.now }
{
    if count > items.len() {
        return &[];
    }
    let (_, rest) = items.split_at(count);
    rest
}
