//! Records whose links, names of extended attributes and access control lists stand in a text.

use crate::spot::Span;
use gufi_base::{Extras, Meta};

/// A record, and where its link stands. Its names of extended attributes and its access control list stand right behind the link,
/// where there are any. By its fields it has 96 bytes.
#[derive(Clone, Copy)]
pub struct Kept {
    pub meta: Meta,
    pub link: Span,
    pub extras: Extras,
}
