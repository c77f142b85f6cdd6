// What a run is, call by call, and that its floods settle.
#![tactic(auto)]

mod examples;
mod taking;

pub use examples::{checked_examples, settling_bites, worked_field};
pub use taking::{Counts, Ending, TakenCopy};
