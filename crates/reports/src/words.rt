// A fault in words, with the line and the cell that it was met in.
ghost use Rattle.std.specs.Prelude.{◌≡◌, IfOk, Some, string_bytes};
ghost use Rattle.pages.specs.Laws.{penalty_of};
ghost use Rattle.reports.specs.Words.{byte_at, count_words, alternative_words, cell_words, line_words, page_words};

use pages::{
    AlternativeFault, CellFault, CountFault, LineFault, MOST_ALTERNATIVES, MOST_CELLS, MOST_LINES,
    Numbered, PageFault,
};
use std::alloc::{AllocError, Global};
use std::fmt;

// The byte at a place, or 0 where there is none.
fn byte_of(page: &[u8], place: usize) -> u8
    ensures { result ≡ byte_at page.now place }
{
    page.get(place).copied().unwrap_or(0)
}

// The penalty whose high byte stands at a place.
fn penalty_of(page: &[u8], place: usize) -> u16
    ensures { result ≡ penalty_of page.now place }
{
    u16::from_be_bytes([byte_of(page, place), byte_of(page, place.saturating_add(1))])
}

// A fault with the page that it was met in, printed in words.
#[derive(Clone, Copy)]
pub(crate) struct InWords<'a, F> {
    pub(crate) page: &'a [u8],
    pub(crate) fault: F,
}

// A fault of a count, with the name of what is counted and the most of it.
#[derive(Clone, Copy)]
struct Counted {
    what: &'static str,
    most: usize,
    fault: CountFault,
}

impl fmt::Display for InWords<'_, Counted> {
    ghost output = { λ w. Some (count_words w.page.now w.fault.what.now w.fault.most w.fault.fault) };

    fn fmt<W: fmt::Write>(&self, f: &mut fmt::Formatter<W>) -> fmt::Result {
        let Counted { what, most, fault } = self.fault;
        match fault {
            CountFault::Short(_) => write!(f, "the page ends where the count of {what} is due"),
            CountFault::Count(place) => {
                let count = byte_of(self.page, place);
                write!(f, "the count of {what} is {count}, not 1 to {most}")
            }
        }
    }
}

impl fmt::Display for InWords<'_, AlternativeFault> {
    ghost output = { λ w. Some (alternative_words w.page.now w.fault) };

    #[tactic(auto, using(std::proofs::lemmas::Fmt::hex_byte))]
    fn fmt<W: fmt::Write>(&self, f: &mut fmt::Formatter<W>) -> fmt::Result {
        let page = self.page;
        match self.fault {
            AlternativeFault::Short(_) => {
                write!(f, "the page ends where a symbol or a penalty is due")
            }
            AlternativeFault::Symbol(place) => {
                let symbol = byte_of(page, place);
                if symbol < 33 {
                    write!(f, "symbol 0x{symbol:02x} is below 33")
                } else {
                    write!(f, "symbol 0x{symbol:02x} is above 126")
                }
            }
            AlternativeFault::Twice(place) => {
                let symbol = byte_of(page, place);
                write!(f, "symbol 0x{symbol:02x} comes twice")
            }
            AlternativeFault::Order(place) => {
                let penalty = penalty_of(page, place);
                let before = penalty_of(page, place.saturating_sub(3));
                write!(f, "penalty {penalty} is below the one before, {before}")
            }
        }
    }
}

impl fmt::Display for InWords<'_, CellFault> {
    ghost output = { λ w. Some (cell_words w.page.now w.fault) };

    fn fmt<W: fmt::Write>(&self, f: &mut fmt::Formatter<W>) -> fmt::Result {
        let page = self.page;
        match self.fault {
            CellFault::Count(fault) => {
                let fault = Counted {
                    what: "alternatives",
                    most: MOST_ALTERNATIVES,
                    fault,
                };
                InWords { page, fault }.fmt(f)
            }
            CellFault::Alternative(fault) => InWords { page, fault }.fmt(f),
        }
    }
}

impl fmt::Display for InWords<'_, Numbered<LineFault>> {
    ghost output = { λ w. Some (line_words w.page.now w.fault.number w.fault.fault) };

    fn fmt<W: fmt::Write>(&self, f: &mut fmt::Formatter<W>) -> fmt::Result {
        let page = self.page;
        let Numbered { number, fault } = self.fault;
        write!(f, "line {number}")?;
        match fault {
            LineFault::Count(fault) => {
                let fault = Counted {
                    what: "cells",
                    most: MOST_CELLS,
                    fault,
                };
                write!(f, ": {}", InWords { page, fault })
            }
            LineFault::Cell(Numbered { number, fault }) => {
                write!(f, ", cell {number}: {}", InWords { page, fault })
            }
        }
    }
}

impl fmt::Display for InWords<'_, PageFault> {
    ghost output = { λ w. Some (page_words w.page.now w.fault) };

    fn fmt<W: fmt::Write>(&self, f: &mut fmt::Formatter<W>) -> fmt::Result {
        let page = self.page;
        match self.fault {
            PageFault::Count(fault) => {
                let fault = Counted {
                    what: "lines",
                    most: MOST_LINES,
                    fault,
                };
                InWords { page, fault }.fmt(f)
            }
            PageFault::Line(fault) => InWords { page, fault }.fmt(f),
            PageFault::Excess(place) => {
                let more = page.len().saturating_sub(place);
                write!(f, "bytes behind the last line: {more}")
            }
        }
    }
}

// What is wrong with the page, and in which line and cell, as a text of its own. A function, as `InWords` is the crate's.
pub fn explain(heap: Global, page: &[u8], fault: PageFault) -> Result<String, AllocError>
    ensures { IfOk result (λ s. string_bytes s ≡ page_words page.now fault) }
{
    InWords { page, fault }.to_string(heap)
}
