// The list of a page: for each line the first date that a reader finds on it.
#![tactic(auto)]

mod listing;
mod rows;

pub use listing::{count_lines, list_dates};
pub use rows::MOST_BYTES;
