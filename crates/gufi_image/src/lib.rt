//! The image of an index: a snapshot in bytes, written and read back, each fault named by its offset.
//!
//! Contracts see a snapshot as a tree and the limit of its roll-up, and an image as its bytes.
//! It stands on `gufi_snap` and what that stands on; the top call stands on it.
#![tactic(auto)]

mod directory;
mod entry;
mod fault;
mod fields;
mod head;
mod laws;
mod name;
mod progress;
mod put;
mod reader;
mod record;
mod width;
mod writer;

pub use fault::{ImageError, ImageKind};
pub use laws::{images_have_one_spelling, written_images_read_back};
pub use reader::{ImageReader, read_image};
pub use writer::write_image;
