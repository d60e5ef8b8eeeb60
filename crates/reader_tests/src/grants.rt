// The most that may be granted at once: cells times chains is at most 4,095.
use crate::answers::same;
use grammars::date::Date;
use reader::Reader;
use scores::Sum;
use std::alloc::{AllocError, Global};
use std::process::Abort;

// A page of one line of so many cells, each 0 at penalty 0.
fn page_of(heap: Global, cells: u8) -> Result<Vec<u8>, AllocError> {
    let mut page = Vec::new(heap);
    page.push(1)?;
    page.push(cells)?;
    for _ in 0..cells {
        page.extend_from_slice(&[1, b'0', 0, 0])?;
    }
    Ok(page)
}

// A line of so many cells, chains to be granted, and whether a reader with that line takes the grant.
type Case = (u8, usize, bool);

const CASES: &[Case] = &[
    (8, 511, true),
    (8, 512, false),
    (24, 170, true),
    (24, 171, false),
    (15, 273, true),
    (15, 274, false),
    (1, 4095, true),
    (1, 4096, false),
];

fn all_granted(rt: &impl Abort, heap: Global, cases: &[Case]) {
    for &(cells, chains, granted) in cases {
        let page = page_of(heap, cells).expect(rt, "memory");
        let mut reader = Reader::new(heap, Date, Sum).expect(rt, "memory");
        same(rt, reader.load(&page, 0), Ok(()));
        same(rt, reader.grant(chains).is_ok(), granted);
    }
}

#[test]
fn most_granted(rt: HostRuntime) {
    all_granted(&rt, rt.alloc(), CASES);
}
