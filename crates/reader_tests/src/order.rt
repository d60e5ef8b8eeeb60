// The order in which readings come: better totals first, and equal totals by the first cell where they differ.
ghost use Rattle.std.specs.Prelude.{◌+◌, ◌*◌, min, nat_le, refl, true};
ghost use Rattle.std.proofs.Common.{rules};

use crate::answers::{Ask, Seen, Trial, begin, check_next};
use grammars::Grammar;
use grammars::date::Date;
use reader::Reader;
use scores::{Score, Shares, Sum};
use std::alloc::Global;
use std::process::Abort;

// A grammar that admits every text.
#[derive(Clone, Copy)]
struct Anything;

impl Grammar for Anything {
    ghost meaning = { λ _. record { admits = λ _. true; allows = λ _. true } };

    ghost laws = { Prim.search rules };

    fn is_admitted(&self, _text: &[u8]) -> bool {
        true
    }

    fn is_allowed(&self, _opening: &[u8]) -> bool {
        true
    }
}

// Two cells, each 1 at 0 or 2 at 3.
const TWO_CELLS: &[u8; 16] = b"\x01\x02\x021\0\02\0\x03\x021\0\02\0\x03";

// 12 and 21 have the same total, 3: the lower rank in the first cell comes first.
const EQUAL_TOTALS: Trial = Trial {
    page: TWO_CELLS,
    calls: &[
        (Ask::Load(0), Seen::Loaded),
        (Ask::Grant(4), Seen::Granted),
        (Ask::Next(0, 2), Seen::Found(2)),
        (Ask::Next(2, 2), Seen::Found(2)),
        (Ask::Next(4, 2), Seen::Found(2)),
        (Ask::Next(6, 2), Seen::Found(2)),
        (Ask::Next(0, 2), Seen::Exhausted),
    ],
    places: b"11122122",
};

#[test]
fn equal_totals(rt: HostRuntime) {
    EQUAL_TOTALS.check(&rt, rt.alloc(), Anything, Sum);
}

// Two cells, 1 at 0 or 2 at 2, and 1 at 0, 2 at 1 or 3 at 2.
const TWO_AND_THREE: &[u8; 19] = b"\x01\x02\x021\0\02\0\x02\x031\0\02\0\x013\0\x02";

// 13 and 21 have the same total, 2. The first cell decides, though 21 takes the second symbol once and 13 the third.
const FIRST_CELL_DECIDES: Trial = Trial {
    page: TWO_AND_THREE,
    calls: &[
        (Ask::Load(0), Seen::Loaded),
        (Ask::Grant(6), Seen::Granted),
        (Ask::Next(0, 2), Seen::Found(2)),
        (Ask::Next(2, 2), Seen::Found(2)),
        (Ask::Next(4, 2), Seen::Found(2)),
        (Ask::Next(6, 2), Seen::Found(2)),
        (Ask::Next(8, 2), Seen::Found(2)),
        (Ask::Next(10, 2), Seen::Found(2)),
    ],
    places: b"111213212223",
};

#[test]
fn the_first_cell_decides(rt: HostRuntime) {
    FIRST_CELL_DECIDES.check(&rt, rt.alloc(), Anything, Sum);
}

// Four chains are granted, and the readings of the page are these four in this order, each with its
// total.
fn check_order<S: Score + Drop>(
    rt: &impl Abort,
    heap: Global,
    score: S,
    page: &[u8],
    wanted: [(&'static [u8], u64); 4],
) {
    let mut reader = Reader::new(heap, Anything, score).expect(rt, "memory");
    begin(rt, &mut reader, page, 4);
    let [first, second, third, fourth] = wanted;
    check_next(rt, &mut reader, first.0, first.1);
    check_next(rt, &mut reader, second.0, second.1);
    check_next(rt, &mut reader, third.0, third.1);
    check_next(rt, &mut reader, fourth.0, fourth.1);
}

// Two cells, 1 at 0 or 2 at 10, and 1 at 0 or 2 at 20.
const TENTH_AND_FIFTH: &[u8; 16] = b"\x01\x02\x021\0\02\0\x0a\x021\0\02\0\x14";

// Under Shares the totals of 11, 21, 12 and 22 are 100 × 100, 90 × 100, 100 × 80 and 90 × 80.
const BY_SHARES: [(&[u8], u64); 4] = [
    (b"11", 10_000),
    (b"21", 9_000),
    (b"12", 8_000),
    (b"22", 7_200),
];

#[test]
fn shares_rank(rt: HostRuntime) {
    check_order(&rt, rt.alloc(), Shares, TENTH_AND_FIFTH, BY_SHARES);
}

// A score under which the order of the penalties counts: each step doubles the total and adds the penalty.
#[derive(Clone, Copy)]
struct Doubled;

impl Score for Doubled {
    ghost meaning = { record { start = 0; step = λ t p. min (t * 2 + p) 4_294_967_295; no_worse = λ t u. nat_le t u; most_cells = 24; highest_penalty = 65_535 } };

    const MOST_CELLS: usize = 24;

    ghost MOST_CELLS = { 24 };

    const HIGHEST_PENALTY: u16 = 65_535;

    ghost HIGHEST_PENALTY = { 65_535 };

    const START: u64 = 0;

    ghost START = { 0 };

    ghost cells_are = { refl };

    ghost penalty_is = { refl };

    ghost start_is = { refl };

    ghost laws = { Prim.search rules };

    fn step(total: u64, penalty: u16) -> u64 {
        total
            .saturating_mul(2)
            .saturating_add(u64::from(penalty))
            .min(4_294_967_295)
    }

    fn no_worse(a: u64, b: u64) -> bool {
        a <= b
    }
}

// The penalty of cell 0 comes first: 0 and 3 make 3, and 3 and 0 make 6.
const BY_DOUBLED: [(&[u8], u64); 4] = [(b"11", 0), (b"12", 3), (b"21", 6), (b"22", 9)];

#[test]
fn cell_0_is_stepped_first(rt: HostRuntime) {
    check_order(&rt, rt.alloc(), Doubled, TWO_CELLS, BY_DOUBLED);
}

// Three cells, 3 at 0, 9 at 0 or 0 at 1, and 0 at 0 or 1 at 1.
const THIRTY_NINE_OR_THIRTY: &[u8; 20] = b"\x01\x03\x013\0\0\x029\0\00\0\x01\x020\0\01\0\x01";

// No text of three digits is a date, and all live chains are looked at: 390, 300 and 301. 391 is not live, since 39, the
// symbols before its last raised cell, opens no date. 300 is, as 3 opens one, and 301, as 30 does.
const LIVE_BY_SYMBOLS: Trial = Trial {
    page: THIRTY_NINE_OR_THIRTY,
    calls: &[
        (Ask::Load(0), Seen::Loaded),
        (Ask::Grant(2), Seen::Granted),
        (Ask::Next(0, 3), Seen::Spent),
        (Ask::Grant(1), Seen::Granted),
        (Ask::Next(0, 3), Seen::Exhausted),
        (Ask::Report, Seen::Told(3, 3, 3, 0)),
        (Ask::Grant(9), Seen::Granted),
        (Ask::Next(0, 3), Seen::Exhausted),
        (Ask::Report, Seen::Told(3, 12, 3, 0)),
    ],
    places: b"...",
};

#[test]
fn live_by_the_symbols_before(rt: HostRuntime) {
    LIVE_BY_SYMBOLS.check(&rt, rt.alloc(), Date, Sum);
}

// Under Shares the totals are 100 × 100, 97 × 100 twice and 97 × 97: the larger comes first.
const BY_SHARES_OF_97: Trial = Trial {
    page: TWO_CELLS,
    calls: &[
        (Ask::Load(0), Seen::Loaded),
        (Ask::Grant(3), Seen::Granted),
        (Ask::Next(0, 2), Seen::Found(2)),
        (Ask::Next(2, 2), Seen::Found(2)),
        (Ask::Next(4, 2), Seen::Found(2)),
        (Ask::Next(6, 2), Seen::Spent),
    ],
    places: b"111221..",
};

#[test]
fn larger_is_better(rt: HostRuntime) {
    BY_SHARES_OF_97.check(&rt, rt.alloc(), Anything, Shares);
}
