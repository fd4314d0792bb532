//! Names, paths, numbers, records and rows: the words that every crate of the index speaks.
//!
//! Contracts see a name as its bytes, a path as the list of its names, a number as a number.
//! It stands on no crate of the index, and all others may stand on it.
#![tactic(auto)]

mod bytes;
mod extras;
mod front;
mod hint;
mod lines;
mod list;
mod name;
mod named;
mod number;
mod number_list;
mod order;
mod ordinal;
mod path;
mod path_parts;
mod path_reading;
mod path_ref;
mod path_relations;
mod piece;
mod plain;
mod predicate;
mod rec_ref;
mod record;
mod steps;
mod view;
mod width;
mod xattrs;
mod yields;

pub use bytes::are_path_bytes;
pub use extras::{Extras, acl_at, put_extras, xattrs_at};
pub use front::{behind, split_first};
pub use hint::Hint;
pub use lines::lines_of;
pub use list::{Bytes, Items, Nums, Text};
pub use name::{Name, NameFault, is_name, name_cmp};
pub use named::put_named;
pub use number::{put, put_i64, put_u64, put_u128, read_i64, read_octal, read_u32, read_u64};
pub use number_list::read_numbers;
pub use order::{common_front, path_cmp, same_bytes, text_cmp};
pub use ordinal::{capped_u32, number_at};
pub use path::{Path, PathFault, path_text};
pub use path_ref::PathRef;
pub use piece::{Pieces, pieces_of};
pub use predicate::{Always, Pred, Tester};
pub use rec_ref::RecRef;
pub use record::{Kind, Line, Meta, Rec, Row, RowRef, read_kind};
use std::alloc::{AllocError, AllocFailed};
pub use steps::Steps;
pub use view::{AsItIs, View};
pub use width::{u16_of, u32_of};
pub use xattrs::{MAX_XATTR, MAX_XATTRS, are_xattrs};
pub use yields::Yield;

/// Memory was wanted, and there was none.
#[derive(Clone, Copy, Debug, PartialEq, Eq)]
pub struct Memory;

impl From<AllocError> for Memory {
    fn from(_: AllocError) -> Memory {
        Memory
    }
}

impl<T: Drop> From<AllocFailed<T>> for Memory {
    fn from(_: AllocFailed<T>) -> Memory {
        Memory
    }
}
