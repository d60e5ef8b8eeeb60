// Reads a page file from standard input, and prints the list of its dates.
#![tactic(auto)]

use grammars::date::Date;
use lists::{MOST_BYTES, list_dates};
use pages::line_of_page;
use reader::Reader;
use scores::Sum;
use std::io;
use std::io::{Read, Write};
use std::process::ExitCode;

fn main(rt: HostRuntime) -> anyhow::Result<ExitCode> {
    let mut page = Vec::new(rt.alloc());
    let _ = rt.stdin().read_to_end(&mut page)?;
    let mut reader = Reader::new(rt.alloc(), Date, Sum)?;
    let mut place = [0; MOST_BYTES];
    // No refusal: the place has the bytes that it has to have.
    let len = list_dates(&mut reader, page.as_slice(), &mut place).unwrap();
    io::writer(&rt).write_all(&place[..len])?;
    // The whole page is judged, whatever line is asked for.
    match line_of_page(page.as_slice(), 0) {
        Ok(_) => Ok(ExitCode::SUCCESS),
        Err(_) => Ok(ExitCode::FAILURE),
    }
}
