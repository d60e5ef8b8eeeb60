// Walks the owner through a line: shows its best reading as a position on a sheet, takes answers from standard input, and
// plots the mark that is confirmed.
#![tactic(auto)]

ghost use Rattle.std.specs.Prelude.{Some};
ghost use Rattle.anyhow.specs.Error.{HasMessage};
ghost use Rattle.desk.specs.Desks.{Ready};
ghost use Rattle.desk.specs.Words.{task_fault_words};

#[cfg(test)]
mod tests;

use anyhow::Context;
use desk::{Desk, LEFT, Note, Reply, Task, TaskFault, begin, task_of};
use std::io::ErrorKind;
use std::process::ExitCode;
use std::{env, fs};

// Arguments that are refused: behind a word that is no number stands why it is none.
fn in_words(fault: TaskFault<'_>) -> anyhow::Error
    ensures { HasMessage (Some (task_fault_words fault.entry)) result }
{
    if let TaskFault::Number { reason, .. } = &fault {
        return anyhow::Error::msg(reason).context(fault);
    }
    anyhow::Error::from(fault)
}

// The end of the input leaves the line, as `q` does. It fails where standard input cannot be read, standard output cannot
// be written, or memory is wanting.
fn converse(rt: &HostRuntime, desk: &mut Desk) -> anyhow::Result<()>
    requires { Ready desk.old }
{
    rt.println(Note::Help)?;
    rt.println(desk.told(rt.alloc())?)?;
    for line in rt.lines(rt.alloc()) {
        let line = match line {
            // A line that is no text is no answer either.
            Err(error) if error.kind() == ErrorKind::InvalidData => String::new(rt.alloc()),
            line => line?,
        };
        match desk.answer(rt.alloc(), line.as_str())? {
            Reply::Ask(text) => rt.println(text)?,
            Reply::Done(text) => {
                rt.println(text)?;
                return Ok(());
            }
        }
    }
    rt.println(LEFT)?;
    Ok(())
}

// It fails, besides, where the page's file cannot be read, or the desk is not opened.
fn walk(rt: &HostRuntime, task: &Task) -> anyhow::Result<()> {
    let page = fs::read(rt, task.page).context("cannot read the page")?;
    match begin(rt.alloc(), task, page.as_slice()) {
        Ok(mut desk) => converse(rt, &mut desk),
        Err(trouble) => Err(anyhow::Error::msg(trouble.told(rt.alloc(), page.as_slice())?)),
    }
}

fn run(rt: &HostRuntime) -> anyhow::Result<()> {
    let arguments: Vec<String> = env::args(rt)?.skip(1).collect(rt.alloc())?;
    let words: Vec<&str> = arguments
        .iter()
        .map(|word| word.as_str())
        .collect(rt.alloc())?;
    walk(rt, &task_of(words.as_slice()).map_err(in_words)?)
}

fn main(rt: HostRuntime) -> anyhow::Result<ExitCode> {
    match run(&rt) {
        Ok(()) => Ok(ExitCode::SUCCESS),
        Err(error) => {
            eprintln!(rt; "wheelhouse: {error:#}")?;
            Ok(ExitCode::FAILURE)
        }
    }
}
