//! Comparisons.
ghost use Rattle.std.specs.Prelude.{◌≡◌};
ghost use Rattle.gufi_select.specs.Columns.{admits};

use std::cmp::Ordering;

/// How a value compares with a literal.
#[derive(Clone, Copy)]
pub enum Operator {
    Equal,
    Unequal,
    Below,
    AtMost,
    Above,
    AtLeast,
}

impl Operator {
    /// Whether values in that order meet it.
    #[inline]
    pub(crate) fn admits(self, order: Ordering) -> bool
        ensures { result ≡ admits self order }
    {
        match self {
            Operator::Equal => order.is_eq(),
            Operator::Unequal => order.is_ne(),
            Operator::Below => order.is_lt(),
            Operator::AtMost => order.is_le(),
            Operator::Above => order.is_gt(),
            Operator::AtLeast => order.is_ge(),
        }
    }
}
