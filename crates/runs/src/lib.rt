// Runs: any list of calls, made one after another on a reader without a line. The contracts of
// `run_on` and `run` are the law of the reader.
#![tactic(auto)]

mod rows;
mod running;

pub use rows::{Answer, Call, Part, Row};
pub use running::{run, run_on};
