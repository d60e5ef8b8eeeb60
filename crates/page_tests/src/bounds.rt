// Pages at the bounds of the format are accepted, and give the lines that they hold.
use crate::held::{accepted, same};
use crate::pages_made::{EvenPage, line_in};
use pages::{Alternative, line_of_page};
use std::process::Abort;

// Each cell of a line has so many alternatives.
fn check_line(rt: &impl Abort, page: &[u8], number: usize, cells: u8, alternatives: u8) {
    let line = line_in(rt, page, number);
    same(rt, line.cells().len(), usize::from(cells));
    for cell in line.cells() {
        same(rt, cell.alternatives().len(), usize::from(alternatives));
    }
}

// Each line of the page, and none behind the last.
fn check_even(rt: &impl Abort, made: EvenPage, page: &[u8]) {
    let lines = usize::from(made.lines);
    // By the number, which a line of the page is asked for by.
    for number in 0..lines {
        check_line(rt, page, number, made.cells, made.alternatives);
    }
    let found = line_of_page(page, lines).expect(rt, "the page is good");
    assert!(rt; found.is_none(), "there is a line behind the last");
}

#[test]
fn counts(rt: HostRuntime) {
    let pages: &[(u8, u8, u8)] = &[(1, 1, 1), (40, 1, 1), (1, 24, 1), (1, 1, 8), (2, 23, 7)];
    for &(lines, cells, alternatives) in pages {
        let made = EvenPage::of(lines, cells, alternatives);
        let page = made.bytes(rt.alloc()).expect(&rt, "there is memory");
        check_even(&rt, made, page.as_slice());
    }
}

// Each line by its number: they are told apart by their cells.
#[test]
fn lines_by_number(rt: HostRuntime) {
    let page: &[u8] = &[
        3, 1, 1, 65, 0, 0, 2, 1, 66, 0, 0, 1, 67, 0, 0, 3, 1, 68, 0, 0, 1, 69, 0, 0, 1, 70, 0, 0,
    ];
    for number in 0..3 {
        let line = line_in(&rt, page, number);
        same(&rt, line.cells().len(), number + 1);
    }
}

fn check_alternative(rt: &impl Abort, page: &[u8], rank: usize, symbol: u8, penalty: u16) {
    let line = line_in(rt, page, 0);
    let cell = line.cells().first().expect(rt, "there is a cell");
    let found = cell.alternatives().get(rank);
    let found = found.expect(rt, "there is such an alternative");
    same(rt, *found, Alternative { symbol, penalty });
}

// The symbols 33 and 126, equal penalties, and the highest.
#[test]
fn symbols_and_penalties(rt: HostRuntime) {
    let page: &[u8] = &[1, 1, 3, 126, 0, 7, 33, 0, 7, 80, 255, 255];
    check_alternative(&rt, page, 0, 126, 7);
    check_alternative(&rt, page, 1, 33, 7);
    check_alternative(&rt, page, 2, 80, 65535);
}

// A symbol may come again in another cell, and penalties begin anew there.
#[test]
fn cells_stand_apart(rt: HostRuntime) {
    accepted(&rt, &[1, 2, 1, 65, 9, 9, 2, 65, 0, 0, 66, 0, 1]);
}
