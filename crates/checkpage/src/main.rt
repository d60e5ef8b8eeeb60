// Reads a page file from standard input, and prints what it holds or why it is refused.
#![tactic(auto)]

use reports::report_page;
use std::io::Read;
use std::process::ExitCode;

fn main(rt: HostRuntime) -> anyhow::Result<ExitCode> {
    let mut page = Vec::new(rt.alloc());
    let _ = rt.stdin().read_to_end(&mut page)?;
    let report = report_page(rt.alloc(), page.as_slice())?;
    rt.print(report.text.as_str())?;
    match report.fault {
        None => Ok(ExitCode::SUCCESS),
        Some(_) => Ok(ExitCode::FAILURE),
    }
}
