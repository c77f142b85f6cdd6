// A file as a row of records of 12 bytes.
#![tactic(auto)]

mod kind;
mod record;

pub use kind::{Kind, UnknownLetter};
pub use record::{Record, record_count};
