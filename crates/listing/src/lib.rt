// A field file as a listing: a line for each record, in plain words and decimal numbers.
#![tactic(auto)]

mod lines;
mod listed;

pub use listed::Listing;
