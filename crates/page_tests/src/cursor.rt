// A page's lines one after another, and a line read where it stands. A refusal is held to its number, of docs/page-file.md.
use crate::held::{check_fault, same};
use crate::pages_made::DATE_PAGE;
use pages::{Alternative, Line, PageFault, PageLines, Returned, read_alternative, read_line_at};
use std::process::Abort;

// A line of one cell, and one of two.
const GOOD: &[u8] = &[2, 1, 1, 65, 0, 0, 2, 1, 66, 0, 0, 1, 67, 0, 0];

// A line of one cell, and one whose cell has no alternatives.
const BAD: &[u8] = &[2, 1, 1, 65, 0, 0, 1, 0];

// The next line has so many cells.
fn check_next(rt: &impl Abort, lines: &mut PageLines<'_>, cells: usize) {
    let found = lines.next_line().expect(rt, "the line is good");
    let line = found.expect(rt, "there is a line");
    same(rt, line.cells().len(), cells);
}

// Behind the last line there is none, however often it is asked.
#[test]
fn one_after_another(rt: HostRuntime) {
    let mut lines = PageLines::open(GOOD).expect(&rt, "the page begins well");
    check_next(&rt, &mut lines, 1);
    check_next(&rt, &mut lines, 2);
    for _ in 0..2 {
        let found = lines.next_line().expect(&rt, "the page is good");
        assert!(rt; found.is_none());
    }
}

// A bad line is refused when it is reached, and again when it is asked for again.
#[test]
fn a_bad_line(rt: HostRuntime) {
    let mut lines = PageLines::open(BAD).expect(&rt, "the page begins well");
    check_next(&rt, &mut lines, 1);
    for _ in 0..2 {
        let fault = lines.next_line().err().expect(&rt, "the line is bad");
        check_fault(&rt, fault, 2, 7, Some(1), Some(0));
    }
}

// The cells of a line that was read, or the number of its fault.
fn cells_or_number(line: Result<Line, PageFault>) -> Result<usize, u8> {
    match line {
        Ok(line) => Ok(line.cells().len()),
        Err(fault) => Err(fault.number()),
    }
}

// The lines of a page, taken as an iterator, end behind the last one, and also behind a fault.
#[test]
fn lines_in_turn(rt: HostRuntime) {
    let cases: &[(&[u8], [Option<Result<usize, u8>>; 4])] = &[
        (GOOD, [Some(Ok(1)), Some(Ok(2)), None, None]),
        (BAD, [Some(Ok(1)), Some(Err(2)), None, None]),
    ];
    for &(page, wanted) in cases {
        let page = PageLines::open(page).expect(&rt, "the page begins well");
        let mut lines = page.into_iter();
        for cells in wanted {
            same(&rt, lines.next().map(cells_or_number), cells);
        }
    }
}

// The line of the page stands at 1, and behind it, at 43, is nothing.
#[test]
fn a_line_where_it_stands(rt: HostRuntime) {
    let (line, next) = read_line_at(DATE_PAGE, 1).expect(&rt, "the line is good");
    same(&rt, (line.cells().len(), next), (8, 43));
    let fault = read_line_at(DATE_PAGE, 43).err().expect(&rt, "no line");
    let behind = Returned {
        number: 1,
        place: 43,
    };
    same(&rt, (fault.returned(), fault.cell()), (behind, None));
}

// The first alternative of the page stands at 3, the second at 6.
#[test]
fn an_alternative_where_it_stands(rt: HostRuntime) {
    let three = Alternative {
        symbol: b'3',
        penalty: 0,
    };
    same(&rt, read_alternative(DATE_PAGE, 3, &[]), Ok(three));
    let again = read_alternative(DATE_PAGE, 3, &[three]);
    let fault = again.err().expect(&rt, "a symbol comes twice");
    same(&rt, fault.returned().number, 4);
}

// A blank that comes again is refused as no symbol: the range is judged first.
#[test]
fn range_before_repetition(rt: HostRuntime) {
    let blank = Alternative {
        symbol: 32,
        penalty: 0,
    };
    let fault = read_alternative(&[32], 0, &[blank]).err();
    let wanted = Returned {
        number: 3,
        place: 0,
    };
    same(&rt, fault.expect(&rt, "a blank").returned(), wanted);
}
