// Says of each line of standard input whether it is a date, a latitude, a longitude, a position on or off a
// sheet of the chart, or a date and then a position on the sheet. The two arguments are the southwest and
// the northeast corner of the sheet, each a position text.
#![tactic(auto)]

use anyhow::bail;
use descriptions::{line, read_sheet};
use grammars::sheet::Sheet;
use std::env;

fn sheet_from_arguments(rt: &HostRuntime) -> anyhow::Result<Sheet> {
    let mut words = env::args(rt)?.skip(1);
    let (Some(southwest), Some(northeast), None) = (words.next(), words.next(), words.next()) else {
        bail!(
            "give the southwest and the northeast corner of the sheet, as 4900000N00600000W 5100000N00200000W"
        );
    };
    Ok(read_sheet(southwest.as_bytes(), northeast.as_bytes())?)
}

fn run(rt: &HostRuntime) -> anyhow::Result<()> {
    let sheet = sheet_from_arguments(rt)?;
    for text in rt.lines(rt.alloc()) {
        let text = text?;
        rt.println(line(rt.alloc(), &sheet, text.as_str())?)?;
    }
    Ok(())
}

fn main(rt: HostRuntime) -> anyhow::Result<()> {
    run(&rt)
}
