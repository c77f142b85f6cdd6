// The parts of a field, and their limits.
#![tactic(auto)]

mod limits;
mod links;
mod making;
mod parts;
mod settings;

pub use limits::{Limits, Rules, Stage};
pub use links::Ends;
pub use parts::{Act, Damage, Link, Loss, Message, Row};
pub use settings::Settings;
