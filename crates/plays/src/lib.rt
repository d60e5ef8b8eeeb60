// Scripts made ready for a run, and the lines that tell of them. docs/replay.md has what is printed.
#![tactic(auto)]

mod play;
mod source;
mod words;

pub use play::Play;
pub use source::{LoadFault, Source};
pub use words::line;
