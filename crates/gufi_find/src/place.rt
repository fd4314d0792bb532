//! What is wanted next.

use crate::operand::Operand;

/// What the next word may be.
#[derive(Clone, Copy, Debug, PartialEq, Eq)]
pub enum Place {
    Primary,
    /// Also a primary, which is then joined by "and".
    Operator,
    Argument(Operand),
}
