// Which refusal a call is answered by, where several conditions fail, and that a refusal changes nothing.
use crate::answers::{Ask, DATE_PAGE, Seen, Trial};
use grammars::date::Date;
use scores::{Shares, Sum};

// Ten cells of one symbol at 0, in one line.
const TEN_CELLS: &[u8; 42] =
    b"\x01\x0a\x011\0\0\x011\0\0\x011\0\0\x011\0\0\x011\0\0\x011\0\0\x011\0\0\x011\0\0\x011\0\0\x011\0\0";

// One cell: 1 at 99 or 2 at 100.
const DEAR_CELL: &[u8; 9] = b"\x01\x01\x021\0\x632\0\x64";

// One cell: 1 at 98 or 2 at 99.
const CHEAP_CELL: &[u8; 9] = b"\x01\x01\x021\0\x622\0\x63";

// Without a line grant, next and nothing else are refused, with 8 before all else, and nothing is
// written.
const BEFORE_A_LOAD: Trial = Trial {
    page: DATE_PAGE,
    calls: &[
        (Ask::Grant(0), Seen::Refused(8)),
        (Ask::Next(0, 0), Seen::Refused(8)),
        (Ask::Next(0, 8), Seen::Refused(8)),
        (Ask::Report, Seen::Told(0, 0, 0, 0)),
    ],
    places: b"........",
};

#[test]
fn before_a_load(rt: HostRuntime) {
    BEFORE_A_LOAD.check(&rt, rt.alloc(), Date, Sum);
}

// The whole page is judged before the line number, and that before the score.
const ORDER_OF_LOAD: Trial = Trial {
    page: TEN_CELLS,
    calls: &[
        (Ask::LoadPart(0, 42, 1), Seen::Refused(13)),
        (Ask::Load(1), Seen::Refused(13)),
        (Ask::Load(0), Seen::Refused(7)),
    ],
    places: b"",
};

#[test]
fn order_of_load(rt: HostRuntime) {
    ORDER_OF_LOAD.check(&rt, rt.alloc(), Date, Shares);
}

// A page cut short is refused as short, whatever line is asked for; the part is cut off at the bytes' end.
// From byte 1 on there are ten lines, the first of one cell with `1` (49) alternatives: a count out
// of range.
const SHORT_PAGES: Trial = Trial {
    page: TEN_CELLS,
    calls: &[
        (Ask::LoadPart(0, 41, 9), Seen::Refused(1)),
        (Ask::LoadPart(0, 0, 0), Seen::Refused(1)),
        (Ask::LoadPart(500, 3, 0), Seen::Refused(1)),
        (Ask::LoadPart(1, 42, 0), Seen::Refused(2)),
    ],
    places: b"",
};

#[test]
fn short_pages(rt: HostRuntime) {
    SHORT_PAGES.check(&rt, rt.alloc(), Date, Sum);
}

// Shares takes penalties to 99, Sum all of them.
const TOO_DEAR: Trial = Trial {
    page: DEAR_CELL,
    calls: &[(Ask::Load(0), Seen::Refused(7))],
    places: b"",
};

const CHEAP: Trial = Trial {
    page: CHEAP_CELL,
    calls: &[(Ask::Load(0), Seen::Loaded)],
    places: b"",
};

const DEAR: Trial = Trial {
    page: DEAR_CELL,
    calls: &[(Ask::Load(0), Seen::Loaded)],
    places: b"",
};

#[test]
fn highest_penalty(rt: HostRuntime) {
    TOO_DEAR.check(&rt, rt.alloc(), Date, Shares);
    CHEAP.check(&rt, rt.alloc(), Date, Shares);
    DEAR.check(&rt, rt.alloc(), Date, Sum);
}

// A place shorter than the line's cells; a grant of 0; one too large by one. None of them changes what is reported.
const NOTHING_CHANGES: Trial = Trial {
    page: DATE_PAGE,
    calls: &[
        (Ask::Load(0), Seen::Loaded),
        (Ask::Grant(0), Seen::Refused(9)),
        (Ask::Grant(512), Seen::Refused(9)),
        (Ask::Grant(511), Seen::Granted),
        (Ask::Grant(1), Seen::Refused(9)),
        (Ask::Next(0, 7), Seen::Refused(10)),
        (Ask::Load(1), Seen::Refused(13)),
        (Ask::Report, Seen::Told(8, 511, 0, 0)),
        (Ask::Next(0, 9), Seen::Found(8)),
        (Ask::Report, Seen::Told(8, 511, 3, 1)),
    ],
    places: b"20022023",
};

#[test]
fn nothing_changes(rt: HostRuntime) {
    NOTHING_CHANGES.check(&rt, rt.alloc(), Date, Sum);
}

// A load that is taken begins anew: nothing is granted, looked at or handed out.
const LOADING_AGAIN: Trial = Trial {
    page: DATE_PAGE,
    calls: &[
        (Ask::Load(0), Seen::Loaded),
        (Ask::Grant(4), Seen::Granted),
        (Ask::Next(0, 8), Seen::Found(8)),
        (Ask::Load(0), Seen::Loaded),
        (Ask::Report, Seen::Told(8, 0, 0, 0)),
        (Ask::Next(8, 8), Seen::Spent),
        (Ask::Grant(3), Seen::Granted),
        (Ask::Next(8, 8), Seen::Found(8)),
        (Ask::Next(0, 8), Seen::Spent),
        (Ask::Report, Seen::Told(8, 3, 3, 1)),
    ],
    places: b"2002202320022023",
};

#[test]
fn loading_again(rt: HostRuntime) {
    LOADING_AGAIN.check(&rt, rt.alloc(), Date, Sum);
}

// A second grant adds to the first, and the next goes on; of a place longer than the line only the first bytes are written.
const GRANTING_AGAIN: Trial = Trial {
    page: DATE_PAGE,
    calls: &[
        (Ask::Load(0), Seen::Loaded),
        (Ask::Grant(2), Seen::Granted),
        (Ask::Next(3, 12), Seen::Spent),
        (Ask::Grant(1), Seen::Granted),
        (Ask::Next(3, 12), Seen::Found(8)),
        (Ask::Report, Seen::Told(8, 3, 3, 1)),
    ],
    places: b"...20022023.........",
};

#[test]
fn granting_again(rt: HostRuntime) {
    GRANTING_AGAIN.check(&rt, rt.alloc(), Date, Sum);
}
