// What a copy meets on its way: draws, delay rules and airs, as parts to build on.
#![tactic(auto)]

mod air;
mod collisions;
mod delay;
mod draws;
mod losses;
#[cfg(test)]
mod tests;

pub use air::{Air, sends};
pub use collisions::Collisions;
pub use delay::{DelayRule, Slowest};
pub use draws::{Drawn, draw};
pub use losses::Losses;
