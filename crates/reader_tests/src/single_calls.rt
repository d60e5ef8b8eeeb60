// Calls that a run does not have: the last total and line writing, and what is left of a reader after its rows.
use crate::answers::{Ask, DATE_PAGE, Seen, begin, check_next, full_stops, same};
use grammars::date::Date;
use reader::{Outcome, Reader, Refusal};
use runs::run_on;
use scores::Sum;
use std::alloc::Global;
use std::process::Abort;

// The totals of the four dates are 5, 6, 7 and 8; a load forgets the last.
#[test]
fn last_totals(rt: HostRuntime) {
    let mut reader = Reader::new(rt.alloc(), Date, Sum).expect(&rt, "memory");
    same(&rt, reader.last_total(), None);
    begin(&rt, &mut reader, DATE_PAGE, 4);
    same(&rt, reader.last_total(), None);
    check_next(&rt, &mut reader, b"20022023", 5);
    check_next(&rt, &mut reader, b"20022024", 6);
    same(&rt, reader.next(&mut [0; 8]), Ok(Outcome::Spent));
    same(&rt, reader.last_total(), Some(6));
    same(&rt, reader.load(DATE_PAGE, 0), Ok(()));
    same(&rt, reader.last_total(), None);
}

// The line's bytes are those of DATE_PAGE behind its first, which counts one line. The last byte of
// the place is left as it was.
const LINE_AND_REST: &[u8] =
    b"\x08\x023\0\02\0\x05\x020\0\08\0\x02\x010\0\0\x012\0\0\x012\0\0\x010\0\0\x012\0\0\x023\0\04\0\x01.";

// A place of 43 bytes, which is enough, and one that is short by one byte.
const ENOUGH: &[u8] = b"...........................................";

const SHORT: &[u8] = b".........................................";

// Writes the line into a place of full stops, and compares the answer and the whole place.
fn check_line(
    rt: &impl Abort,
    heap: Global,
    reader: &Reader<Date, Sum>,
    answer: Result<usize, Refusal>,
    wanted: &[u8],
) {
    let mut place = full_stops(rt, heap, wanted.len());
    same(rt, reader.write_line(&mut place), answer);
    same(rt, &place[..], wanted);
}

#[test]
fn lines_written(rt: HostRuntime) {
    let mut reader = Reader::new(rt.alloc(), Date, Sum).expect(&rt, "memory");
    check_line(&rt, rt.alloc(), &reader, Err(Refusal::NoLine), ENOUGH);
    begin(&rt, &mut reader, DATE_PAGE, 1);
    check_line(&rt, rt.alloc(), &reader, Err(Refusal::Place), SHORT);
    check_line(&rt, rt.alloc(), &reader, Ok(42), LINE_AND_REST);
}

// Live are 30022023, 38022023, 20022023, 20022024, 28022023 and 28022024, of which the last four are dates, with totals 5 to
// 8. So two nexts look at four chains, and the reader goes on from there.
#[test]
fn reader_after_its_rows(rt: HostRuntime) {
    let mut reader = Reader::new(rt.alloc(), Date, Sum).expect(&rt, "memory");
    let mut places = [0; 16];
    let mut rows = [
        Ask::Load(0).row(),
        Ask::Grant(6).row(),
        Ask::Next(0, 8).row(),
        Ask::Next(8, 8).row(),
    ];
    run_on(&mut reader, DATE_PAGE, &mut places, &mut rows);
    same(&rt, Seen::of(rows[2].answer), Seen::Found(8));
    same(&rt, Seen::of(rows[3].answer), Seen::Found(8));
    same(&rt, &places, b"2002202320022024");
    same(&rt, reader.last_total(), Some(6));
    let report = reader.report();
    same(&rt, (report.cells, report.granted), (8, 6));
    same(&rt, (report.looked, report.handed), (4, 2));
    check_next(&rt, &mut reader, b"28022023", 7);
}
