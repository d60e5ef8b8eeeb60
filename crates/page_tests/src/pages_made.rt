// Pages for the tests.
use pages::{Line, line_of_page};
use std::alloc::{AllocError, Global};
use std::process::Abort;

// The page that the tests of other crates have too, as no crate of tests stands on another.
// One line of eight cells: 3 at 0 or 2 at 5; 0 at 0 or 8 at 2; then 0, 2, 2, 0 and 2 at 0; 3 at 0 or 4 at 1.
pub(crate) const DATE_PAGE: &[u8; 43] =
    b"\x01\x08\x023\0\02\0\x05\x020\0\08\0\x02\x010\0\0\x012\0\0\x012\0\0\x010\0\0\x012\0\0\x023\0\04\0\x01";

// A page of so many lines of so many cells, each with `alternatives` symbols from 33 on at the penalties 0, 1, 2 and so on.
#[derive(Clone, Copy)]
pub(crate) struct EvenPage {
    pub(crate) lines: u8,
    pub(crate) cells: u8,
    pub(crate) alternatives: u8,
}

impl EvenPage {
    pub(crate) fn of(lines: u8, cells: u8, alternatives: u8) -> EvenPage {
        EvenPage {
            lines,
            cells,
            alternatives,
        }
    }

    pub(crate) fn bytes(&self, heap: Global) -> Result<Vec<u8>, AllocError> {
        let mut page = Vec::new(heap);
        page.push(self.lines)?;
        for _ in 0..self.lines {
            page.push(self.cells)?;
            for _ in 0..self.cells {
                page.push(self.alternatives)?;
                // By the rank, which is the penalty and makes the symbol.
                for rank in 0..self.alternatives {
                    page.extend_from_slice(&[rank.saturating_add(33), 0, rank])?;
                }
            }
        }
        Ok(page)
    }
}

// The page with another byte at a place. The heap is handed to whatever makes a page.
pub(crate) fn altered(
    heap: Global,
    page: &[u8],
    place: usize,
    byte: u8,
) -> Result<Vec<u8>, AllocError> {
    let mut other = page.to_vec(heap)?;
    if let Some(old) = other.get_mut(place) {
        *old = byte;
    }
    Ok(other)
}

// The page with a byte more at its end.
pub(crate) fn longer(heap: Global, page: &[u8], byte: u8) -> Result<Vec<u8>, AllocError> {
    let mut other = page.to_vec(heap)?;
    other.push(byte)?;
    Ok(other)
}

// The line of a number, which the page has.
pub(crate) fn line_in(rt: &impl Abort, page: &[u8], number: usize) -> Line {
    let found = line_of_page(page, number).expect(rt, "the page is good");
    found.expect(rt, "the page has the line")
}
