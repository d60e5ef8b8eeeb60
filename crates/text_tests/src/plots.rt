// Plotted marks: 3,012,345 is 002DF6F9 and -252,345 is FFFC2647, as 0003D9B9 is 252,345.
use crate::judged::same;
use marks::propose;
use positions::Refusal;
use std::process::Abort;
use std::test::Fail;

// The mark is refused a place of 7 bytes, which stays, and then plotted into one of 9, whose last stays.
fn check_plot(rt: &impl Abort, text: &[u8], plotted: [u8; 9]) -> Result<(), Fail> {
    let mut short = [7; 7];
    let mut place = [7; 9];
    let Err((refusal, mark)) = propose(text)?.confirm().plot(&mut short) else {
        return Err(Fail::new("plotted"));
    };
    // A mark cannot be dropped, so one that came back would have to be named.
    let count = match mark.plot(&mut place) {
        Ok(count) => count,
        Err((_, _mark)) => unreachable(),
    };
    same(rt, (refusal, short), (Refusal::Place, [7; 7]));
    same(rt, (count, place), (8, plotted));
    Ok(())
}

// 5,400,000 is 005265C0, 10,800,000 is 00A4CB80 and 10,799,999 is 00A4CB7F.
#[test]
fn plotted_marks(rt: HostRuntime) -> Result<(), Fail> {
    let cases: &[(&[u8], [u8; 9])] = &[
        (
            b"5012345N00412345W",
            [0x00, 0x2d, 0xf6, 0xf9, 0xff, 0xfc, 0x26, 0x47, 7],
        ),
        (
            b"9000000S18000000E",
            [0xff, 0xad, 0x9a, 0x40, 0x00, 0xa4, 0xcb, 0x80, 7],
        ),
        (
            b"0000001S17959999W",
            [0xff, 0xff, 0xff, 0xff, 0xff, 0x5b, 0x34, 0x81, 7],
        ),
    ];
    for &(text, plotted) in cases {
        check_plot(&rt, text, plotted)?;
    }
    Ok(())
}

fn rejected(text: &[u8]) -> Result<(i32, i32), Refusal> {
    Ok(propose(text)?.reject())
}

#[test]
fn rejected_marks(rt: HostRuntime) {
    let pair = rejected(b"9000000S18000000E");
    same(&rt, pair, Ok((-5_400_000, 10_800_000)));
    let refused = rejected(b"5012345N18000000W");
    same(&rt, refused, Err(Refusal::Position));
}
