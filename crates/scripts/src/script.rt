// The lines of a script: a call to a line.
ghost use Rattle.std.specs.Prelude.{◌≡◌, Some, map, IfOk, MatchOption};
ghost use Rattle.linewords.specs.Words.{words_of};
ghost use Rattle.scripts.specs.declared.script.Command.{Command};
ghost use Rattle.scripts.specs.Scripts.{IsCall, IsFault, IsRead};
ghost use Rattle.scripts.specs.Words.{command_fault_words};

use linewords::words_of;
use std::alloc::{AllocError, Global};
use std::error::Error;
use std::fmt;

/// A call as a script has it: a page is named by its file, a line of it by its number, counted
/// from 0, and a next is given its place later. `docs/replay.md` says how each is written.
#[derive(Clone, Copy, Debug, PartialEq, Eq)]
pub enum Command<'a> {
    Load { file: &'a str, number: usize },
    Grant { chains: usize },
    Next,
    Report,
}

/// Which call a line was to be and is not, or that it begins with the word of no call (`Call`).
#[derive(Clone, Copy, Debug, PartialEq, Eq)]
pub enum CommandFault {
    Load,
    Grant,
    Next,
    Report,
    Call,
}

impl CommandFault {
    /// What is expected, which says what is wrong too.
    #[tactic(auto, unfolding(crate::specs::Words::command_fault_words))]
    pub fn explanation(self) -> &'static str
        ensures { result.now ≡ command_fault_words self }
    {
        match self {
            CommandFault::Load =>
                "a load is written load FILE LINE, with LINE a whole number below 2^64",
            CommandFault::Grant => "a grant is written grant N, with N a whole number below 2^64",
            CommandFault::Next => "a next is written next, and nothing behind it",
            CommandFault::Report => "a report is written report, and nothing behind it",
            CommandFault::Call => "a call is written load FILE LINE, grant N, next or report",
        }
    }
}

// By hand, as a derived `Display` states nothing of its words.
impl fmt::Display for CommandFault {
    ghost output = { λ fault. Some (command_fault_words fault) };

    fn fmt<W: fmt::Write>(&self, f: &mut fmt::Formatter<W>) -> fmt::Result {
        f.write_str(self.explanation())
    }
}

impl Error for CommandFault {}

// The call that the words are, if they are one.
fn call_of<'a>(words: &[&'a str]) -> Option<Command<'a>>
    ensures { MatchOption result ((c : Command) → IsCall (map (λ w. w.now) words.now) c → ⊥) (IsCall (map (λ w. w.now) words.now)) }
{
    match words {
        ["load", file, number] => {
            let number = number.parse::<usize>().ok()?;
            Some(Command::Load { file, number })
        }
        ["grant", chains] => {
            let chains = chains.parse::<usize>().ok()?;
            Some(Command::Grant { chains })
        }
        ["next"] => Some(Command::Next),
        ["report"] => Some(Command::Report),
        _ => None,
    }
}

// What is wrong with words that are no call, by the first of them.
fn fault_of(words: &[&str]) -> CommandFault
    ensures { IsFault (map (λ w. w.now) words.now) result }
{
    match words {
        ["load", ..] => CommandFault::Load,
        ["grant", ..] => CommandFault::Grant,
        ["next", ..] => CommandFault::Next,
        ["report", ..] => CommandFault::Report,
        _ => CommandFault::Call,
    }
}

// The call that the words are, or why they are none.
fn command_of<'a>(words: &[&'a str]) -> Result<Command<'a>, CommandFault>
    ensures { IsRead (map (λ w. w.now) words.now) result }
{
    call_of(words).ok_or_else(|| fault_of(words))
}

/// The call of a line, or why the line is none. The outer error is want of memory alone, since the
/// words of the line are collected first.
pub fn read_command(
    heap: Global,
    text: &str,
) -> Result<Result<Command<'_>, CommandFault>, AllocError>
    ensures { IfOk result (IsRead (words_of text.now)) }
{
    let words = words_of(heap, text)?;
    Ok(command_of(words.as_slice()))
}
