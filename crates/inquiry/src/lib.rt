// What the program `bound` is asked, and what it answers, as text.
#![tactic(auto)]

mod complaint;
mod reading;
mod replies;
mod reports;

pub use complaint::Complaint;
pub use replies::Reply;
pub use reports::{ANSWER_ROOM, LentReport, Report};
