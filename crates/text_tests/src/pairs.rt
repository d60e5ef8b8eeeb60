// Position texts and their pairs: 60,000 thousandths of a minute to a degree.
use crate::judged::same;
use positions::{Axis, Refusal, is_pair, read_position, write_position};
use std::process::Abort;

// What is answered when the pair is written into a place of full stops, and what the place then has.
fn check_written(
    rt: &impl Abort,
    pair: (i32, i32),
    place: &mut [u8],
    answer: Result<usize, Refusal>,
    left: &[u8],
) {
    same(rt, write_position(pair, place), answer);
    same(rt, &*place, left);
}

// Each text, with the rest of a place of 20 bytes behind it.
#[test]
fn pairs_of_texts(rt: HostRuntime) {
    let cases: &[(&[u8; 20], (i32, i32))] = &[
        (b"5012345N00412345W...", (3_012_345, -252_345)),
        (b"9000000N18000000E...", (5_400_000, 10_800_000)),
        (b"9000000S17959999W...", (-5_400_000, -10_799_999)),
        (b"0000000N00000000E...", (0, 0)),
        (b"0000001S00000001W...", (-1, -1)),
        (b"0059999N00100000E...", (59_999, 60_000)),
    ];
    for &(left, pair) in cases {
        same(&rt, read_position(&left[..17]), Ok(pair));
        check_written(&rt, pair, &mut [b'.'; 20], Ok(17), left);
    }
}

#[test]
fn no_positions(rt: HostRuntime) {
    let others: &[&[u8]] = &[
        b"",
        b"5012345N0041234W",
        b"5012345N",
        b"00412345W5012345N",
        b"5012345N00412345W0",
        b"5012345N18000000W",
        b"9000001N00412345W",
        b"0000000S00412345W",
        b"5012345N00000000W",
        b"5060000N00412345W",
    ];
    for text in others {
        same(&rt, read_position(text), Err(Refusal::Position));
    }
}

// A refusal leaves the place as it is. Of two reasons the pair is named, and not the place.
#[test]
fn places_and_refusals(rt: HostRuntime) {
    let cases: &[((i32, i32), Refusal)] = &[
        ((3_012_345, -252_345), Refusal::Place),
        ((5_400_001, 0), Refusal::Position),
        ((-5_400_001, 0), Refusal::Position),
        ((0, 10_800_001), Refusal::Position),
        ((0, -10_800_000), Refusal::Position),
    ];
    for &(pair, refusal) in cases {
        check_written(&rt, pair, &mut [b'.'; 16], Err(refusal), &[b'.'; 16]);
    }
    let refused = Err(Refusal::Position);
    check_written(&rt, (0, 10_800_001), &mut [b'.'; 18], refused, &[b'.'; 18]);
    let exact = b"5012345N00412345W";
    check_written(&rt, (3_012_345, -252_345), &mut [b'.'; 17], Ok(17), exact);
}

// The numbers that are returned, as docs/positions.md has them.
#[test]
fn numbers(rt: HostRuntime) {
    same(&rt, Refusal::Place.number(), 10);
    same(&rt, Refusal::Position.number(), 11);
}

// `is_pair` takes the two angles in two places.
fn check_range(rt: &impl Abort, axis: Axis, angles: &[i32], inside: bool) {
    for angle in angles {
        let pair = match axis {
            Axis::Latitude => is_pair(*angle, 0),
            Axis::Longitude => is_pair(0, *angle),
        };
        same(rt, (axis.is_in_range(*angle), pair), (inside, inside));
    }
}

#[test]
fn ranges(rt: HostRuntime) {
    check_range(&rt, Axis::Latitude, &[-5_400_000, 5_400_000], true);
    let outside = [i32::MIN, -5_400_001, 5_400_001, i32::MAX];
    check_range(&rt, Axis::Latitude, &outside, false);
    check_range(&rt, Axis::Longitude, &[-10_799_999, 10_800_000], true);
    let outside = [i32::MIN, -10_800_000, 10_800_001, i32::MAX];
    check_range(&rt, Axis::Longitude, &outside, false);
}
