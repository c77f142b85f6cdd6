// A field read from a file.
#![tactic(auto)]

mod counts;
mod field_file;
mod items;

pub use counts::Counts;
pub use field_file::{FieldFile, FileUnder};
