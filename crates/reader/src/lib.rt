// A reader: it looks at the live chains of a line in their order, under a grant, and hands out those that its grammar
// admits.
#![tactic(auto)]

mod calls;
mod refusals;

pub use calls::{Outcome, Reader, Report};
pub use refusals::Refusal;
