// Whether a file is a field: each case in which it is refused, looked for in order.
#![tactic(auto)]

mod cases;
mod check;
mod field_places;
mod record_places;

pub use check::{check_file, check_records};
pub use field_places::{link_at, mark_at, settings_in};
