// Plays a script of calls on a new reader, and prints each call with what it answered. The script is standard input; the
// arguments say what the readings are to be and how they are scored.
#![tactic(auto)]

#[cfg(test)]
mod tests;

use anyhow::Context;
use plays::Play;
use scripts::{Command, read_command, setting_of};
use settings::Setting;
use std::env;
use std::fs::File;
use std::io::Read;
use std::process::ExitCode;

fn setting_from_arguments(rt: &HostRuntime) -> anyhow::Result<Setting> {
    let arguments: Vec<String> = env::args(rt)?.skip(1).collect(rt.alloc())?;
    let words: Vec<&str> = arguments
        .iter()
        .map(|word| word.as_str())
        .collect(rt.alloc())?;
    Ok(setting_of(words.as_slice())?)
}

// A file is read anew for each load of it, which is simplest.
fn add_line<'a>(rt: &HostRuntime, play: &mut Play<'a>, text: &'a str) -> anyhow::Result<()> {
    match read_command(rt.alloc(), text)?? {
        Command::Load { file, number } => {
            let mut page = File::open(rt, file).context("cannot open the file")?;
            play.load(text, &mut page, number)
                .context("cannot read the file")?;
        }
        Command::Grant { chains } => play.grant(text, chains)?,
        Command::Next => play.next(text)?,
        Command::Report => play.report(text)?,
    }
    Ok(())
}

// What is printed. Nothing is, unless the whole script can be read.
fn replay(rt: &HostRuntime) -> anyhow::Result<String> {
    let setting = setting_from_arguments(rt)?;
    let mut script = String::new(rt.alloc());
    let _ = rt
        .stdin()
        .read_to_string(&mut script)
        .context("cannot read the script")?;
    let mut play = Play::new(rt.alloc());
    for (number, text) in (1usize..).zip(script.lines()) {
        let text = text.trim_ascii();
        if !text.is_empty() && !text.starts_with('#') {
            add_line(rt, &mut play, text).context(format_args!("line {number}, {text}"))?;
        }
    }
    play.run(rt.alloc(), setting)
        .context("no memory for the reader")?;
    Ok(play.lines(rt.alloc())?)
}

// A refused call is an answer too, so the status speaks of the script and the arguments alone.
fn main(rt: HostRuntime) -> anyhow::Result<ExitCode> {
    match replay(&rt) {
        Ok(lines) => {
            rt.print(lines)?;
            Ok(ExitCode::SUCCESS)
        }
        Err(error) => {
            eprintln!(rt; "replay: {error:#}")?;
            Ok(ExitCode::FAILURE)
        }
    }
}
