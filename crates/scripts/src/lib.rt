// What the lines of a script and the arguments of `replay` ask for. docs/replay.md has both tables.
#![tactic(auto)]

mod script;
mod setting;

pub use script::{Command, CommandFault, read_command};
pub use setting::{SettingFault, setting_of};
