// Number kinds, and the numberings that put numbers on floods.
#![tactic(auto)]

mod circular;
mod differentiated;
mod free;
mod kind;
mod linear;
mod numbering;
mod ring;
mod ringed;
#[cfg(test)]
mod tests;

pub use circular::{Circular, UpToHalf};
pub use differentiated::{AnyOther, Differentiated};
pub use free::Free;
pub use kind::{NumberKind, Zero};
pub use linear::Linear;
pub use numbering::{Numbering, Settling};
pub use ringed::{Ringed, Rule};
