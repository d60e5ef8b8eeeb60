// A sheet from 49 to 51 degrees north and from 6 to 2 degrees west, tables that fail, and combined grammars.
use crate::judged::{Judged, same};
use grammars::date::Date;
use grammars::sheet::Sheet;
use grammars::{Both, Then, check_number};
use positions::Axis;

fn table(south: i32, north: i32, west: i32, east: i32) -> Sheet {
    Sheet {
        south,
        north,
        west,
        east,
    }
}

const ON_THE_SHEET: Judged = Judged {
    admitted: &[
        b"5012345N00412345W",
        b"4900000N00600000W",
        b"5100000N00200000W",
        b"5100000N00600000W",
        b"4900000N00200000W",
    ],
    not_admitted: &[],
    allowed: &[b"", b"xxxxxxxxxxxxxxxx"],
    not_allowed: &[b"5012345N00412345W0"],
};

const OFF_THE_SHEET: &[&[u8]] = &[
    b"5100001N00412345W",
    b"4859999N00412345W",
    b"5012345N00600001W",
    b"5012345N00159999W",
    b"5100001N00600000W",
    b"5100000N00600001W",
    b"4859999N00200000W",
    b"4900000N00159999W",
    b"5012345N00412345X",
    b"xxxxxxxxxxxxxxxxx",
];

#[test]
fn positions_on_a_sheet(rt: HostRuntime) {
    let sheet = table(2_940_000, 3_060_000, -360_000, -120_000);
    same(&rt, check_number(sheet.check()), 0);
    ON_THE_SHEET.check(&rt, &sheet);
    Judged::none(OFF_THE_SHEET).check(&rt, &sheet);
}

#[test]
fn tables(rt: HostRuntime) {
    let cases: &[(Sheet, u8)] = &[
        (table(-5_400_000, 5_400_000, -10_799_999, 10_800_000), 0),
        (table(5, 5, 7, 7), 0),
        (table(6, 5, 7, 7), 12),
        (table(5, 5, 8, 7), 12),
        (table(-5_400_001, 5, 7, 7), 12),
        (table(5, 5_400_001, 7, 7), 12),
        (table(5, 5, -10_800_000, 7), 12),
        (table(5, 5, 7, 10_800_001), 12),
    ];
    for &(sheet, number) in cases {
        same(&rt, check_number(sheet.check()), number);
    }
}

const ON_NO_SHEET: Judged = Judged {
    admitted: &[],
    not_admitted: &[b"5012345N00412345W"],
    allowed: &[b""],
    not_allowed: &[b"5"],
};

#[test]
fn a_failing_table(rt: HostRuntime) {
    let sheet = table(3_060_000, 2_940_000, -360_000, -120_000);
    ON_NO_SHEET.check(&rt, &sheet);
}

const POSITIONS: Judged = Judged {
    admitted: &[b"5012345N00412345W"],
    not_admitted: &[b"5012345N", b"00412345W5012345N"],
    allowed: &[b"5012345N", b"5012345N0041"],
    not_allowed: &[b"5012345N181"],
};

// The last text is off the sheet: the first of `Both` allows it, and the second does not.
const ENTRIES: Judged = Judged {
    admitted: &[b"290220005012345N00412345W"],
    not_admitted: &[b"290219005012345N00412345W", b"290220005012345N00412345E"],
    allowed: &[b"290220005012345N00412345"],
    not_allowed: &[b"290220005012345N181", b"290220005012345N00412345E"],
};

#[test]
fn combined_grammars(rt: HostRuntime) {
    let position = Then {
        cut: 8,
        head: Axis::Latitude,
        tail: Axis::Longitude,
    };
    POSITIONS.check(&rt, &position);
    let entry = Then {
        cut: 8,
        head: Date,
        tail: Both {
            one: position,
            other: table(2_940_000, 3_060_000, -360_000, -120_000),
        },
    };
    ENTRIES.check(&rt, &entry);
}

const CUT_AT_FOUR: Judged = Judged {
    admitted: &[],
    not_admitted: &[],
    allowed: &[b"2902"],
    not_allowed: &[b"29020"],
};

const CUT_AT_ONCE: Judged = Judged {
    admitted: &[],
    not_admitted: &[b"5012345N"],
    allowed: &[b""],
    not_allowed: &[b"5"],
};

#[test]
fn cuts(rt: HostRuntime) {
    let early = Then {
        cut: 4,
        head: Date,
        tail: Axis::Latitude,
    };
    CUT_AT_FOUR.check(&rt, &early);
    let at_once = Then { cut: 0, ..early };
    CUT_AT_ONCE.check(&rt, &at_once);
}
