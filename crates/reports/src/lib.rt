// What is said of a page: how much each line holds, or what is wrong and where.
#![tactic(auto)]

mod report;
mod words;

pub use report::{Report, report_page};
pub use words::explain;
