// Places that a page is listed into, of 2,048 bytes and fewer.
use crate::answers::{DATE_PAGE, same};
use grammars::date::Date;
use lists::list_dates;
use placefault::PlaceFault;
use reader::{Outcome, Reader};
use scores::Sum;

// A place of 2,047 bytes is refused with 10 before the page is judged, and left whole. So is the reader: it goes on with its line.
#[test]
fn one_byte_short(rt: HostRuntime) {
    let mut reader = Reader::new(rt.alloc(), Date, Sum).expect(&rt, "memory");
    let mut place = [b'.'; 2047];
    same(&rt, reader.load(DATE_PAGE, 0), Ok(()));
    same(&rt, reader.grant(3), Ok(()));
    let refused = Err(PlaceFault);
    same(&rt, list_dates(&mut reader, b"", &mut place), refused);
    same(&rt, list_dates(&mut reader, DATE_PAGE, &mut place), refused);
    same(&rt, PlaceFault.number(), 10);
    same(&rt, place.iter().all(|byte| *byte == b'.'), true);
    same(&rt, reader.report().granted, 3);
    same(&rt, reader.next(&mut place), Ok(Outcome::Found(8)));
}

// A reader that has a line lists a page as a new one does, and again.
#[test]
fn again(rt: HostRuntime) {
    let mut reader = Reader::new(rt.alloc(), Date, Sum).expect(&rt, "memory");
    let mut place = [0; 2048];
    let text = b"line reading total looked outcome\n0 20022023 5 3 found\n";
    same(&rt, reader.load(DATE_PAGE, 0), Ok(()));
    same(&rt, reader.grant(3), Ok(()));
    same(&rt, reader.next(&mut place), Ok(Outcome::Found(8)));
    let listed = Ok(text.len());
    same(&rt, list_dates(&mut reader, DATE_PAGE, &mut place), listed);
    same(&rt, place.starts_with(text), true);
    same(&rt, list_dates(&mut reader, DATE_PAGE, &mut place), listed);
    same(&rt, place.starts_with(text), true);
}
