// Worked values that are tested: a position at the pole, and the first reading of a page of one date.
use crate::answers::{DATE_PAGE, same};
use grammars::date::Date;
use positions::read_position;
use reader::{Outcome, Reader};
use scores::Sum;

#[test]
fn the_north_pole(rt: HostRuntime) {
    let pair = read_position(b"9000000N00000000E");
    same(&rt, pair, Ok((5_400_000, 0)));
}

// The first reading of the page of one date that is a date costs 5.
#[test]
fn the_first_date(rt: HostRuntime) {
    let mut reader = Reader::new(rt.alloc(), Date, Sum).expect(&rt, "memory");
    let mut place = [0; 8];
    same(&rt, reader.load(DATE_PAGE, 0), Ok(()));
    same(&rt, reader.grant(170), Ok(()));
    same(&rt, reader.next(&mut place), Ok(Outcome::Found(8)));
    same(&rt, &place == b"20022023", true);
    same(&rt, reader.last_total(), Some(5));
}
