//! How the rows of a query are written: columns with tabs between them, escaped or as they are, or a JSON object a line.
//!
//! Contracts see a written text as its bytes: `form_text` says which, and laws say that it reads back.
//! It stands on `gufi_base`, `gufi_rows`, `gufi_select` and the kit's `json`; what answers queries stands on it.
#![tactic(auto)]

mod cell;
mod column_text;
mod escape;
mod form;
mod laws;
mod name;
mod object;

pub use form::{Form, FormLine, form_text};
pub use laws::{escaped_lines_read_back, json_lines_read_back, plain_lines_are_selected};
pub use name::{column_name, first_twice};
