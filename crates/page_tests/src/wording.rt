// What is printed of a page, word for word.
use crate::held::same;
use crate::pages_made::DATE_PAGE;
use pages::PageFault;
use reports::{Report, explain, report_page};
use std::alloc::Global;
use std::process::Abort;

fn report(rt: &impl Abort, heap: Global, page: &[u8]) -> Report {
    report_page(heap, page).expect(rt, "there is memory")
}

// A page, the number and the place of its refusal, if it is refused, and what is printed.
type Case = (&'static [u8], Option<(u8, usize)>, &'static str);

const GOOD: &[Case] = &[
    (
        DATE_PAGE,
        None,
        "page of 1 lines\nline 0: cells 8, alternatives 11\n",
    ),
    (
        &[2, 2, 1, 65, 0, 0, 2, 66, 0, 0, 67, 0, 0, 1, 1, 68, 0, 0],
        None,
        "page of 2 lines\nline 0: cells 2, alternatives 3\nline 1: cells 1, alternatives 1\n",
    ),
];

const LINES_AND_CELLS: &[Case] = &[
    (
        &[3, 1, 1, 65, 0, 0, 1, 1, 66, 0, 0, 1, 1, 32],
        Some((3, 13)),
        "refused 3 at 13\nline 2, cell 0: symbol 0x20 is below 33\n",
    ),
    (
        &[1, 2, 1, 65, 0, 0, 1, 0xAB],
        Some((3, 7)),
        "refused 3 at 7\nline 0, cell 1: symbol 0xab is above 126\n",
    ),
    (
        &[1, 1, 1, 127],
        Some((3, 3)),
        "refused 3 at 3\nline 0, cell 0: symbol 0x7f is above 126\n",
    ),
    (
        &[1, 1, 2, 65, 0, 0, 65],
        Some((4, 6)),
        "refused 4 at 6\nline 0, cell 0: symbol 0x41 comes twice\n",
    ),
    (
        &[1, 1, 2, 65, 1, 2, 66, 0, 255],
        Some((5, 7)),
        "refused 5 at 7\nline 0, cell 0: penalty 255 is below the one before, 258\n",
    ),
];

const COUNTS_AND_ENDS: &[Case] = &[
    (
        &[],
        Some((1, 0)),
        "refused 1 at 0\nthe page ends where the count of lines is due\n",
    ),
    (
        &[41],
        Some((2, 0)),
        "refused 2 at 0\nthe count of lines is 41, not 1 to 40\n",
    ),
    (
        &[1, 0],
        Some((2, 1)),
        "refused 2 at 1\nline 0: the count of cells is 0, not 1 to 24\n",
    ),
    (
        &[1, 1, 9],
        Some((2, 2)),
        "refused 2 at 2\nline 0, cell 0: the count of alternatives is 9, not 1 to 8\n",
    ),
    (
        &[2, 1, 1, 65, 0, 0],
        Some((1, 6)),
        "refused 1 at 6\nline 1: the page ends where the count of cells is due\n",
    ),
    (
        &[1, 2, 1, 65, 0, 0],
        Some((1, 6)),
        "refused 1 at 6\nline 0, cell 1: the page ends where the count of alternatives is due\n",
    ),
    (
        &[1, 1, 1, 65, 0],
        Some((1, 5)),
        "refused 1 at 5\nline 0, cell 0: the page ends where a symbol or a penalty is due\n",
    ),
    (
        &[1, 1, 1, 65, 0, 0, 1, 2, 3],
        Some((6, 6)),
        "refused 6 at 6\nbytes behind the last line: 3\n",
    ),
];

// The number and the place of a refusal.
fn number_and_place(fault: PageFault) -> (u8, usize) {
    (fault.number(), fault.place())
}

// Each page is refused or accepted, and printed, as its row says.
fn all_reported(rt: &impl Abort, heap: Global, cases: &[Case]) {
    for &(page, refused, text) in cases {
        let report = report(rt, heap, page);
        same(rt, report.fault.map(number_and_place), refused);
        same(rt, report.text.as_str(), text);
    }
}

#[test]
fn good(rt: HostRuntime) {
    all_reported(&rt, rt.alloc(), GOOD);
}

#[test]
fn lines_and_cells(rt: HostRuntime) {
    all_reported(&rt, rt.alloc(), LINES_AND_CELLS);
}

#[test]
fn counts_and_ends(rt: HostRuntime) {
    all_reported(&rt, rt.alloc(), COUNTS_AND_ENDS);
}

// The fault of the page, in words, of which another page is told.
fn check_words(rt: &impl Abort, heap: Global, page: &[u8], told: &[u8], words: &str) {
    let fault = report(rt, heap, page).fault;
    let fault = fault.expect(rt, "the page was accepted");
    let made = explain(heap, told, fault).expect(rt, "there is memory");
    same(rt, made.as_str(), words);
}

// The words alone, of a fault that a report gives.
#[test]
fn a_fault_explained(rt: HostRuntime) {
    let page: &[u8] = &[1, 0];
    let words = "line 0: the count of cells is 0, not 1 to 24";
    check_words(&rt, rt.alloc(), page, page, words);
}

// A page that has no byte where the fault lies: it counts as 0.
#[test]
fn a_fault_of_another_page(rt: HostRuntime) {
    let words = "line 0, cell 0: symbol 0x00 is below 33";
    check_words(&rt, rt.alloc(), &[1, 1, 1, 255], &[], words);
}
