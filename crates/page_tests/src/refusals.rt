// Every refusal at its first and last possible place, and which of two faults is named. A refusal is held to its number.
use crate::held::{accepted, check_fault, same};
use crate::pages_made::{DATE_PAGE, EvenPage, altered, line_in, longer};
use pages::{PageFault, line_of_page};
use std::alloc::Global;
use std::process::Abort;

fn fault_of(rt: &impl Abort, page: &[u8]) -> PageFault {
    let Err(fault) = line_of_page(page, 0) else {
        panic!(rt; "the page was accepted");
    };
    fault
}

// The page is refused with this number, which is what is tested (docs/refusals.md has them), at this place, in this line
// and cell.
fn refused(
    rt: &impl Abort,
    page: &[u8],
    number: u8,
    place: usize,
    line: Option<usize>,
    cell: Option<usize>,
) {
    check_fault(rt, fault_of(rt, page), number, place, line, cell);
}

// A page, its number, the place, the line and the cell.
type Case = (&'static [u8], u8, usize, Option<usize>, Option<usize>);

const FIRST_PLACES: &[Case] = &[
    // a byte is missing: the page's length
    (&[], 1, 0, None, None),
    (&[1], 1, 1, Some(0), None),
    (&[1, 1], 1, 2, Some(0), Some(0)),
    (&[1, 1, 1], 1, 3, Some(0), Some(0)),
    (&[1, 1, 1, 33], 1, 4, Some(0), Some(0)),
    (&[1, 1, 1, 33, 0], 1, 5, Some(0), Some(0)),
    (&[2, 1, 1, 33, 0, 0], 1, 6, Some(1), None),
    // counts
    (&[0], 2, 0, None, None),
    (&[41], 2, 0, None, None),
    (&[255], 2, 0, None, None),
    (&[1, 0], 2, 1, Some(0), None),
    (&[1, 25], 2, 1, Some(0), None),
    (&[1, 1, 0], 2, 2, Some(0), Some(0)),
    (&[1, 1, 9], 2, 2, Some(0), Some(0)),
    // symbols
    (&[1, 1, 1, 32], 3, 3, Some(0), Some(0)),
    (&[1, 1, 1, 127], 3, 3, Some(0), Some(0)),
    (&[1, 1, 1, 0, 0, 0], 3, 3, Some(0), Some(0)),
    (&[1, 1, 1, 255, 0, 0], 3, 3, Some(0), Some(0)),
    // a symbol twice: judged before its penalty is read
    (&[1, 1, 2, 33, 0, 0, 33], 4, 6, Some(0), Some(0)),
    // a penalty below the one before, by 1 and across the bytes
    (&[1, 1, 2, 33, 0, 1, 34, 0, 0], 5, 7, Some(0), Some(0)),
    (&[1, 1, 2, 33, 1, 0, 34, 0, 255], 5, 7, Some(0), Some(0)),
    // its high byte alone does not refuse it, though no low byte would help
    (&[1, 1, 2, 33, 1, 0, 34, 0], 1, 8, Some(0), Some(0)),
    // a byte behind the last line
    (&[1, 1, 1, 33, 0, 0, 1], 6, 6, None, None),
];

// Of two faults the one that stands first is named, with its own line and cell.
const FIRST_OF_TWO: &[Case] = &[
    // a symbol twice, then a count
    (&[1, 2, 2, 33, 0, 0, 33, 0, 0, 9], 4, 6, Some(0), Some(0)),
    // a symbol, then an excess
    (
        &[2, 1, 1, 33, 0, 0, 2, 1, 34, 0, 0, 1, 20, 0, 0, 7],
        3,
        12,
        Some(1),
        Some(1),
    ),
    // a count of cells, then one of alternatives
    (&[2, 1, 1, 33, 0, 0, 25, 9], 2, 6, Some(1), None),
];

// Each page is refused as its row says.
fn all_refused(rt: &impl Abort, cases: &[Case]) {
    for &(page, number, place, line, cell) in cases {
        refused(rt, page, number, place, line, cell);
    }
}

#[test]
fn first_places(rt: HostRuntime) {
    all_refused(&rt, FIRST_PLACES);
}

#[test]
fn first_of_two(rt: HostRuntime) {
    all_refused(&rt, FIRST_OF_TWO);
}

// With another byte at a place the page is refused in its last cell.
fn refused_altered(
    rt: &impl Abort,
    heap: Global,
    page: &[u8],
    (at, byte): (usize, u8),
    (number, place): (u8, usize),
) {
    let page = altered(heap, page, at, byte).expect(rt, "there is memory");
    refused(rt, page.as_slice(), number, place, Some(39), Some(23));
}

// With a byte more the page is refused for that byte.
fn refused_longer(rt: &impl Abort, heap: Global, page: &[u8], byte: u8) {
    let end = page.len();
    let page = longer(heap, page, byte).expect(rt, "there is memory");
    refused(rt, page.as_slice(), 6, end, None, None);
}

// The largest page has 40 lines of 24 cells of 8 alternatives: 1 + 40 * (1 + 24 * (1 + 8 * 3)) bytes.
#[test]
fn last_places(rt: HostRuntime) {
    let heap = rt.alloc();
    let page = EvenPage::of(40, 24, 8).bytes(heap);
    let page = page.expect(&rt, "there is memory");
    let page = page.as_slice();
    same(&rt, page.len(), 24041);
    line_in(&rt, page, 39);
    let (short, _) = page.split_at(24040.min(page.len()));
    refused(&rt, short, 1, 24040, Some(39), Some(23));
    // a count, no symbol, a symbol twice, and a penalty below the one before, which begins a byte earlier
    refused_altered(&rt, heap, page, (24016, 9), (2, 24016));
    refused_altered(&rt, heap, page, (24038, 127), (3, 24038));
    refused_altered(&rt, heap, page, (24038, 33), (4, 24038));
    refused_altered(&rt, heap, page, (24040, 5), (5, 24039));
    refused_longer(&rt, heap, page, 1);
}

// A good page cut after any of its bytes is short at the cut.
#[test]
fn cut_anywhere(rt: HostRuntime) {
    // By the number: it is how much is left of the page, and the place of the refusal.
    for cut in 0..DATE_PAGE.len() {
        let (front, _) = DATE_PAGE.split_at(cut);
        let fault = fault_of(&rt, front);
        same(&rt, (fault.number(), fault.place()), (1, cut));
    }
}

// A good page with a byte more is refused for that byte.
#[test]
fn one_byte_more(rt: HostRuntime) {
    accepted(&rt, DATE_PAGE);
    refused_longer(&rt, rt.alloc(), DATE_PAGE, 0);
}

// A symbol comes twice where its own cell has it before: not where a penalty of another cell or of its own has the byte,
// and not where another cell has the symbol.
#[test]
fn twice_in_its_own_cell(rt: HostRuntime) {
    accepted(&rt, &[1, 2, 1, 65, 66, 0, 1, 66, 0, 0]);
    accepted(&rt, &[1, 1, 2, 65, 66, 66, 66, 66, 66]);
    accepted(&rt, &[1, 2, 1, 66, 0, 0, 1, 66, 0, 0]);
    let page = [1, 2, 1, 65, 66, 0, 2, 66, 0, 0, 66, 0, 0];
    refused(&rt, &page, 4, 10, Some(0), Some(1));
}
