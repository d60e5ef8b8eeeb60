// What is written of a line is what it was read from. A refusal is held to its number, of docs/refusals.md.
use crate::held::same;
use crate::pages_made::{DATE_PAGE, line_in};
use pages::write_line;
use placefault::PlaceFault;

// The 42 bytes behind the page's count of lines, and the rest of the place left.
#[test]
fn same_bytes(rt: HostRuntime) {
    let line = line_in(&rt, DATE_PAGE, 0);
    let mut place = [0xEE; 45];
    same(&rt, write_line(&line, &mut place), Ok(42));
    let (_, bytes) = DATE_PAGE.split_at(1);
    let (written, rest) = place.split_at(42);
    assert!(rt; written == bytes);
    assert!(rt; rest == [0xEE, 0xEE, 0xEE].as_slice());
}

// A place that just fits is enough; one byte less is refused with 10, and left whole.
#[test]
fn place_too_short(rt: HostRuntime) {
    let line = line_in(&rt, DATE_PAGE, 0);
    same(&rt, write_line(&line, &mut [0xEE; 42]), Ok(42));
    let mut place = [0xEE; 41];
    same(&rt, write_line(&line, &mut place), Err(PlaceFault));
    same(&rt, place, [0xEE; 41]);
    same(&rt, write_line(&line, &mut []), Err(PlaceFault));
    same(&rt, PlaceFault.number(), 10);
}
