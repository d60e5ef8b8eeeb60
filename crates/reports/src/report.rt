// A page as it is reported: a row for each line, or the refusal and its words.
ghost use Rattle.std.specs.Prelude.{◌≡◌, IfOk, Err, Some, string_bytes};
ghost use Rattle.std.specs.Result.{result_err};
ghost use Rattle.pages.specs.Answers.{line_of};
ghost use Rattle.pages.specs.Reading.{read_page};
ghost use Rattle.pages.specs.Laws.{Accepted, FirstWrong};
ghost use Rattle.reports.specs.Report.{alternatives_in, line_row, refusal_text, report_text};
ghost use Rattle.reports.specs.Described.{Described};
ghost use Rattle.reports.specs.declared.report.Trouble.TheVariants as Troubles;

use crate::words::InWords;
use pages::{Line, PageFault, PageLines};
use std::alloc::{AllocError, Global};
use std::fmt;
use std::fmt::Write;

// What is printed of a page, and why the page was refused, if it was.
#[derive(Drop)]
pub struct Report {
    pub fault: Option<PageFault>,
    pub text: String,
}

// Why a page is not described: it is bad, or memory is wanting.
#[derive(Clone, Copy, Debug, PartialEq, Eq)]
pub enum Trouble {
    Page(PageFault),
    Memory(AllocError),
}

// Written out, as a derived `From` says nothing of what it gives, and `describe` has to give the page's own fault.
impl From<PageFault> for Trouble {
    ghost from_gives = { λ e r. r ≡ Troubles.Page e };

    fn from(fault: PageFault) -> Trouble {
        Trouble::Page(fault)
    }
}

impl From<AllocError> for Trouble {
    ghost from_gives = { λ e r. r ≡ Troubles.Memory e };

    fn from(error: AllocError) -> Trouble {
        Trouble::Memory(error)
    }
}

fn count_alternatives(line: &Line) -> usize
    ensures { result ≡ alternatives_in (line_of line.now) }
{
    line.cells().iter().map(|c| c.alternatives().len()).sum()
}

// A line of a page with its number, printed as a row: how many cells it has, and alternatives in all.
#[derive(Clone, Copy)]
struct Row<'a> {
    number: usize,
    line: &'a Line,
}

impl fmt::Display for Row<'_> {
    ghost output = { λ r. Some (line_row r.number (line_of r.line.now)) };

    fn fmt<W: fmt::Write>(&self, f: &mut fmt::Formatter<W>) -> fmt::Result {
        let number = self.number;
        let cells = self.line.cells().len();
        let alternatives = count_alternatives(self.line);
        writeln!(
            f,
            "line {number}: cells {cells}, alternatives {alternatives}"
        )
    }
}

// The count of the lines, and a row for each. No `Display`, since the page can be refused on the way. Whatever makes a text
// is handed the heap.
fn describe(heap: Global, page: &[u8]) -> Result<String, Trouble>
    ensures { Described result (read_page page.now) }
{
    let mut rows = String::new(heap);
    let mut count = 0;
    for line in PageLines::open(page)? {
        let row = Row {
            number: count,
            line: &line?,
        };
        write!(rows, "{row}")?;
        // By hand and not by `enumerate`, since the count is printed too.
        count += 1;
    }
    let text = format!(in heap; "page of {count} lines\n{rows}")?;
    Ok(text)
}

// The refusal's number and place, and what is wrong in words: one format, so no Display of its own.
fn describe_refusal(heap: Global, page: &[u8], fault: PageFault) -> Result<String, AllocError>
    ensures { IfOk result (λ s. string_bytes s ≡ refusal_text page.now fault) }
{
    let number = fault.number();
    let place = fault.place();
    let words = InWords { page, fault };
    format!(in heap; "refused {number} at {place}\n{words}\n")
}

// What is printed of a page, where memory is to be had.
pub fn report_page(heap: Global, page: &[u8]) -> Result<Report, AllocError>
    ensures text { IfOk result (λ s. string_bytes s.text ≡ report_text page.now) }
    ensures fault { IfOk result (λ s. s.fault ≡ result_err (read_page page.now)) }
    ensures exactly { Accepted page.now }
    ensures first_wrong { (f : PageFault) → read_page page.now ≡ Err f → FirstWrong page.now f }
{
    match describe(heap, page) {
        Ok(text) => Ok(Report { fault: None, text }),
        Err(Trouble::Page(fault)) => {
            let text = describe_refusal(heap, page, fault)?;
            Ok(Report {
                fault: Some(fault),
                text,
            })
        }
        Err(Trouble::Memory(error)) => Err(error),
    }
}
