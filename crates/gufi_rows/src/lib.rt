//! Lists of rows and of paths, as a walk collects them: in texts, without memory of its own for each row.
//!
//! Contracts see a list as the list of its rows or paths. What a walk gives is nearly in path order, and is put in order by
//! merging its stretches.
//! It stands on `gufi_base`; queries stand on it.
#![tactic(auto)]

mod kept;
mod kept_paths;
mod lines;
mod ordered;
mod path_lines;
mod path_list;
mod path_order;
mod places;
mod row_line;
mod row_lines;
mod row_list;
mod row_parts;
mod run;
mod run_places;
mod spot;
mod stretch;

pub use ordered::OrderedRows;
pub use path_list::PathList;
pub use row_line::RowLine;
pub use row_list::RowList;
pub use row_parts::{depth_of, parts_of, row_cmp};
