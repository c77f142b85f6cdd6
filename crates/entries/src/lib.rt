// The lines of a listing, read.
#![tactic(auto)]

mod entry;
mod lines;
mod misnamed;

pub use entry::Entry;
pub use lines::entry_in;
pub use misnamed::first_misnamed;
