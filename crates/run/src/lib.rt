// The calls of a run: each answers exactly its definition, or declines and changes nothing.
#![tactic(auto)]

mod begin;
mod between;
mod checks;
mod instants;
mod lending;
mod play;
mod silent;
mod states;
mod write;

pub use lending::Lent;
pub use play::Played;
pub use states::{Declined, Idle, Instant};
