// A line of a page, on the desk of its owner: what the arguments ask for, the best reading on the sheet, what the owner
// answers and is told, and the mark that is confirmed.
#![tactic(auto)]

mod answers;
mod desk;
mod reading;
mod task;
mod words;

pub use answers::{Answer, read_answer};
pub use desk::{Desk, Reply, Standing, Trouble};
pub use reading::Reading;
pub use task::{Task, TaskFault, begin, task_of};
pub use words::{LEFT, Note, Unfound, plotted_line, reading_line};
