// The answer key of a field: its lines, and the run that they are taken from.
#![tactic(auto)]

mod buffers;
mod causes;
mod failure;
mod key;
mod line;
mod lines;
mod seeds;
mod states;
#[cfg(test)]
mod tests;

pub use buffers::{Buffers, LOG_ROWS};
pub use causes::cause;
pub use failure::Failure;
pub use key::PORTION;
pub use lines::{KeyRefusal, LONGEST_LINE, print};
pub use seeds::{Seeded, key_air};
pub use states::AnswerKey;
