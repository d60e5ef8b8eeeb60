// What stands in the place once a page is listed, as the rules of docs/datelist.md have it.
use crate::answers::{DATE_PAGE, same};
use grammars::date::Date;
use lists::list_dates;
use reader::Reader;
use scores::Sum;
use std::alloc::Global;
use std::process::Abort;

// Three lines. That of the page of one date; one cell of one symbol, which is no date; and nine cells, so that none of its texts is a
// date: 0, 1, 0, 1, 1, 9, and three times any of eight digits. As 0101 and a year from 1900 to 1977 open the last cell, all its 512
// chains are live.
const THREE_LINES: &[u8; 148] =
    b"\x03\x08\x023\0\02\0\x05\x020\0\08\0\x02\x010\0\0\x012\0\0\x012\0\0\x010\0\0\x012\0\0\x023\0\04\0\x01\x01\x011\0\0\x09\x010\0\0\x011\0\0\x010\0\0\x011\0\0\x011\0\0\x019\0\0\x080\0\01\0\02\0\03\0\04\0\05\0\06\0\07\0\0\x080\0\01\0\02\0\03\0\04\0\05\0\06\0\07\0\0\x080\0\01\0\02\0\03\0\04\0\05\0\06\0\07\0\0";

// The text stands at the start of the place that the page is listed into, its length is answered, and the rest is left.
fn listed(rt: &impl Abort, heap: Global, page: &[u8], text: &[u8]) {
    let Ok(mut reader) = Reader::new(heap, Date, Sum) else {
        panic!(rt; "no memory for a reader");
    };
    let mut place = [b'.'; 2048];
    same(
        rt,
        list_dates(&mut reader, page, &mut place),
        Ok(text.len()),
    );
    same(rt, place.starts_with(text), true);
    let rest = place.iter().skip(text.len());
    same(rt, rest.copied().all(|byte| byte == b'.'), true);
}

#[test]
fn one_date(rt: HostRuntime) {
    let text = b"line reading total looked outcome\n0 20022023 5 3 found\n";
    listed(&rt, rt.alloc(), DATE_PAGE, text);
}

// Of the second line no chain is left, of the third many are.
#[test]
fn each_outcome(rt: HostRuntime) {
    let text =
        b"line reading total looked outcome\n0 20022023 5 3 found\n1 - - 1 exhausted\n2 - - 170 spent\n";
    listed(&rt, rt.alloc(), THREE_LINES, text);
}

// The fault of a bad page, whatever lines are before it: no bytes, no lines, a line that ends early, and a byte behind the last line.
#[test]
fn bad_pages(rt: HostRuntime) {
    listed(&rt, rt.alloc(), b"", b"refused 1 at 0\n");
    listed(&rt, rt.alloc(), b"\0", b"refused 2 at 0\n");
    listed(&rt, rt.alloc(), &THREE_LINES[..147], b"refused 1 at 147\n");
    listed(&rt, rt.alloc(), b"\x01\x01\x011\0\0.", b"refused 6 at 6\n");
}
