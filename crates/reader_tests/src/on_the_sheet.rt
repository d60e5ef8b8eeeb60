// The best position on the sheet, where the best latitude and the best longitude, each by itself, lie off it together.
use crate::answers::{Ask, Seen, Trial};
use grammars::angle::Axis;
use grammars::sheet::Sheet;
use grammars::{Both, Then};
use scores::Sum;

// 50 or (at 1) 51 degrees north and 004 or (at 2) 005 degrees west, with no minutes: 5000000N00400000W at 0, 51.. at 1,
// ..005.. at 2, and both at 3.
const POSITIONS: &[u8; 76] =
    b"\x01\x11\x015\0\0\x020\0\01\0\x01\x010\0\0\x010\0\0\x010\0\0\x010\0\0\x010\0\0\x01N\0\0\x010\0\0\x010\0\0\x024\0\05\0\x02\x010\0\0\x010\0\0\x010\0\0\x010\0\0\x010\0\0\x01W\0\0";

// From 50 to 51 degrees north and from 6 to 5 degrees west: 004 is off the sheet.
fn sheet() -> Sheet {
    Sheet {
        south: 3_000_000,
        north: 3_060_000,
        west: -360_000,
        east: -300_000,
    }
}

const BEST_PAIRS: Trial = Trial {
    page: POSITIONS,
    calls: &[
        (Ask::Load(0), Seen::Loaded),
        (Ask::Grant(10), Seen::Granted),
        (Ask::Next(0, 17), Seen::Found(17)),
        (Ask::Report, Seen::Told(17, 10, 3, 1)),
        (Ask::Next(17, 17), Seen::Found(17)),
        (Ask::Report, Seen::Told(17, 10, 4, 2)),
        (Ask::Next(0, 17), Seen::Exhausted),
    ],
    places: b"5000000N00500000W5100000N00500000W",
};

#[test]
fn best_pair_on_the_sheet(rt: HostRuntime) {
    let position = Then {
        cut: 8,
        head: Axis::Latitude,
        tail: Axis::Longitude,
    };
    let grammar = Both {
        one: position,
        other: sheet(),
    };
    BEST_PAIRS.check(&rt, rt.alloc(), grammar, Sum);
}
