// Printed lines, and the explanations of corners that make no sheet.
use crate::judged::same;
use descriptions::{CornerFault, Kind, classify, line, read_sheet};
use grammars::sheet::Sheet;
use std::alloc::Global;
use std::fmt::Display;
use std::process::Abort;

const SOUTHWEST: &[u8] = b"4900000N00600000W";

const NORTHEAST: &[u8] = b"5100000N00200000W";

fn sheet_of_corners(rt: &impl Abort) -> Sheet {
    read_sheet(SOUTHWEST, NORTHEAST).expect(rt, "the corners make a sheet")
}

fn check_words(rt: &impl Abort, heap: Global, printed: &impl Display, words: &str) {
    let made = printed.to_string(heap).expect(rt, "there is memory");
    same(rt, made.as_str(), words);
}

fn check_line(rt: &impl Abort, heap: Global, sheet: &Sheet, text: &str, printed: &str) {
    let made = line(heap, sheet, text).expect(rt, "there is memory");
    same(rt, made.as_str(), printed);
}

#[test]
fn lines_for_texts(rt: HostRuntime) {
    let sheet = sheet_of_corners(&rt);
    let cases: &[(&str, &str)] = &[
        ("29022000", "29022000: date"),
        (
            "5012345N00412345W",
            "5012345N00412345W: position 50 12.345 N 4 12.345 W on the sheet",
        ),
        (
            "0002005S00402005E",
            "0002005S00402005E: position 0 02.005 S 4 02.005 E off the sheet",
        ),
        (
            "290220005012345N00412345W",
            "290220005012345N00412345W: date and position on the sheet",
        ),
        ("", ": none of these"),
    ];
    for &(text, printed) in cases {
        check_line(&rt, rt.alloc(), &sheet, text, printed);
    }
}

fn check_corners(
    rt: &impl Abort,
    heap: Global,
    corners: (&[u8], &[u8]),
    fault: CornerFault,
    words: &str,
) {
    let (southwest, northeast) = corners;
    same(rt, read_sheet(southwest, northeast).err(), Some(fault));
    same(rt, fault.explanation(), words);
    check_words(rt, heap, &fault, words);
}

// Where both corners fail, the southwest is named.
#[test]
fn corners(rt: HostRuntime) {
    sheet_of_corners(&rt);
    let cases: &[(&[u8], &[u8], CornerFault, &str)] = &[
        (
            b"49N",
            NORTHEAST,
            CornerFault::Southwest,
            "the southwest corner is no position",
        ),
        (
            b"49N",
            b"51N",
            CornerFault::Southwest,
            "the southwest corner is no position",
        ),
        (
            SOUTHWEST,
            b"51N",
            CornerFault::Northeast,
            "the northeast corner is no position",
        ),
        (
            NORTHEAST,
            SOUTHWEST,
            CornerFault::Order,
            "the southwest corner lies north or east of the northeast corner",
        ),
    ];
    for &(southwest, northeast, fault, words) in cases {
        check_corners(&rt, rt.alloc(), (southwest, northeast), fault, words);
    }
}

#[test]
fn kinds(rt: HostRuntime) {
    let sheet = sheet_of_corners(&rt);
    let cases: &[(&[u8], Kind, &str)] = &[
        (b"5012345N", Kind::Latitude, "latitude"),
        (b"00412345W", Kind::Longitude, "longitude"),
        (
            b"5012345N00412345W",
            Kind::OnSheet(3_012_345, -252_345),
            "position 50 12.345 N 4 12.345 W on the sheet",
        ),
        (
            b"0002005S00402005E",
            Kind::OffSheet(-2_005, 242_005),
            "position 0 02.005 S 4 02.005 E off the sheet",
        ),
    ];
    for &(text, kind, words) in cases {
        same(&rt, classify(&sheet, text), kind);
        check_words(&rt, rt.alloc(), &kind, words);
    }
}
