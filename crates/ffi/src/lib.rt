// The corrector for C: what include/markbook.h declares. Each export takes any input, checks what the call inside it needs,
// and promises what that call promises.
#![tactic(auto)]

mod answers;
mod list;
mod page;
mod position;
mod refusals;
mod rows;
mod run;
