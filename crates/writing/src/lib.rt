// A field and its acts written as a file.
#![tactic(auto)]

mod acts_text;
mod field_text;

pub use acts_text::write_acts;
pub use field_text::write_field;
