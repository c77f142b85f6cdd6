// What a numbering is in a file.
#![tactic(auto)]

mod filed;
mod numberings;

pub use filed::Filed;
pub use numberings::FileNumbering;
