// What a sensor does as an instant opens, and with a copy.
#![tactic(auto)]

mod copies;
mod hearing;
mod instants;
mod opening;

pub use copies::{message_on, next_copy};
pub use hearing::{Taken, Verdict, take_copy};
pub use instants::{close_rows, open_row, open_rows, send_bytes, silence};
pub use opening::{open_base, open_other};
