//! What sums can tell of a question.

use crate::record::Kind;

/// A part of a question in postfix order: a test that sums can bound, one that they can't, or a sign behind its operands.
///
/// A pair is a range with both its ends; one whose first number is greater than its second is true of no row. Sizes are in
/// bytes, times in seconds since the epoch.
#[derive(Clone, Copy, Debug, PartialEq, Eq)]
pub enum Hint {
    Kind(Kind),
    SizeIn(u64, u64),
    MtimeIn(i64, i64),
    UidIn(u32, u32),
    GidIn(u32, u32),
    /// A test of which sums tell nothing.
    Unknown,
    /// The truth of the part before is turned round.
    Not,
    /// Both parts before are true.
    And,
    /// One of the two parts before is.
    Or,
}
