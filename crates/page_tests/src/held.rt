// What a value and a fault are held to. `rt` is handed to whatever asserts.
// A test calls these and asserts little itself: each `assert_eq!` in its own body would be proved there anew.
use pages::{Details, PageFault, line_of_page};
use std::fmt::Debug;
use std::process::Abort;

// What was found is what was worked out by hand.
pub(crate) fn same<T: Copy + Debug + PartialEq>(rt: &impl Abort, found: T, wanted: T) {
    assert_eq!(rt; found, wanted);
}

pub(crate) fn accepted(rt: &impl Abort, page: &[u8]) {
    assert!(rt; line_of_page(page, 0).is_ok(), "the page is refused");
}

// A fault has this number (docs/refusals.md has them), this place, and this line and cell.
pub(crate) fn check_fault(
    rt: &impl Abort,
    fault: PageFault,
    number: u8,
    place: usize,
    line: Option<usize>,
    cell: Option<usize>,
) {
    same(rt, (fault.number(), fault.place()), (number, place));
    same(rt, (fault.line(), fault.cell()), (line, cell));
    let details = Details {
        number,
        place: Some(place),
        line,
        cell,
    };
    same(rt, fault.details(), details);
}
