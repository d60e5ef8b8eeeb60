// Runs for the tests, and what they and a reader are held to. `rt` is handed to whatever asserts.
// A test calls these and asserts little itself: an `assert_eq!` or a loop in its own body would be
// proved there anew.
ghost use Rattle.reader.specs.Views.{Kept, Agrees};

use grammars::Grammar;
use reader::{Outcome, Reader, Refusal};
use runs::{Answer, Call, Part, Row, run};
use scores::Score;
use std::alloc::Global;
use std::fmt::Debug;
use std::process::Abort;

// The page that the tests of other crates have too, as no crate of tests stands on another. One line of eight cells:
// 3 at 0 or 2 at 5; 0 at 0 or 8 at 2; then 0, 2, 2, 0 and 2 at 0; 3 at 0 or 4 at 1.
pub(crate) const DATE_PAGE: &[u8; 43] =
    b"\x01\x08\x023\0\02\0\x05\x020\0\08\0\x02\x010\0\0\x012\0\0\x012\0\0\x010\0\0\x012\0\0\x023\0\04\0\x01";

// More than any page of a test has.
const ALL: usize = 1000;

// What was found is what was worked out by hand.
pub(crate) fn same<T: Copy + Debug + PartialEq>(rt: &impl Abort, found: T, wanted: T) {
    assert_eq!(rt; found, wanted);
}

// A place of so many bytes, all full stops.
pub(crate) fn full_stops(rt: &impl Abort, heap: Global, count: usize) -> Vec<u8> {
    let mut place = Vec::new(heap);
    for _ in 0..count {
        place.push(b'.').expect(rt, "memory");
    }
    place
}

// A call of a run.
#[derive(Clone, Copy)]
pub(crate) enum Ask {
    // A line of the page that all the lent bytes are.
    Load(usize),
    // A line of the page that a part of the lent bytes is: its start, its length, and the line.
    LoadPart(usize, usize, usize),
    Grant(usize),
    // Next, into a part of the lent bytes: its start and its length.
    Next(usize, usize),
    Report,
}

impl Ask {
    pub(crate) fn row(self) -> Row {
        let call = match self {
            Ask::Load(number) => Call::Load {
                page: Part {
                    start: 0,
                    length: ALL,
                },
                number,
            },
            Ask::LoadPart(start, length, number) => Call::Load {
                page: Part { start, length },
                number,
            },
            Ask::Grant(chains) => Call::Grant { chains },
            Ask::Next(start, length) => Call::Next {
                place: Part { start, length },
            },
            Ask::Report => Call::Report,
        };
        Row { call, answer: None }
    }
}

// What a call came to.
#[derive(Clone, Copy, Debug, PartialEq, Eq)]
pub(crate) enum Seen {
    NotMade,
    // It was refused with this number; docs/reader.md has them.
    Refused(u8),
    Loaded,
    Granted,
    // One was found, of so many bytes.
    Found(usize),
    Spent,
    Exhausted,
    // Cells, granted, looked and handed of a report. The places in use are left out: the law only
    // bounds those.
    Told(usize, usize, usize, usize),
}

impl Seen {
    pub(crate) fn of(answer: Option<Result<Answer, Refusal>>) -> Seen {
        match answer {
            None => Seen::NotMade,
            Some(Err(refusal)) => Seen::Refused(refusal.number()),
            Some(Ok(Answer::Loaded)) => Seen::Loaded,
            Some(Ok(Answer::Granted)) => Seen::Granted,
            Some(Ok(Answer::Next(Outcome::Found(count)))) => Seen::Found(count),
            Some(Ok(Answer::Next(Outcome::Spent))) => Seen::Spent,
            Some(Ok(Answer::Next(Outcome::Exhausted))) => Seen::Exhausted,
            Some(Ok(Answer::Reported(report))) => {
                Seen::Told(report.cells, report.granted, report.looked, report.handed)
            }
        }
    }
}

// A run on a page: its calls, what each is to come to, and what the lent places are to hold in the
// end. They hold full stops before.
#[derive(Clone, Copy)]
pub(crate) struct Trial {
    pub(crate) page: &'static [u8],
    pub(crate) calls: &'static [(Ask, Seen)],
    pub(crate) places: &'static [u8],
}

impl Trial {
    pub(crate) fn check<G: Grammar + Drop, S: Score + Drop>(
        &self,
        rt: &impl Abort,
        heap: Global,
        grammar: G,
        score: S,
    ) {
        let mut rows = Vec::new(heap);
        for (ask, _) in self.calls {
            rows.push(ask.row()).expect(rt, "memory");
        }
        let mut places = full_stops(rt, heap, self.places.len());
        run(heap, grammar, score, self.page, &mut places, &mut rows).expect(rt, "memory");
        for (row, (_, wanted)) in rows.iter().zip(self.calls) {
            same(rt, Seen::of(row.answer), *wanted);
        }
        same(rt, &places[..], self.places);
    }
}

// Loads the first line of a page and grants so many chains; both are taken.
pub(crate) fn begin<G: Grammar + Drop, S: Score + Drop>(
    rt: &impl Abort,
    reader: &mut Reader<G, S>,
    page: &[u8],
    chains: usize,
)
    requires agrees { Agrees S.meaning (G.meaning reader.old.grammar) reader.old }
    ensures agrees { Agrees S.meaning (G.meaning reader.old.grammar) reader.new }
    ensures kept { Kept reader.old reader.new }
{
    same(rt, reader.load(page, 0), Ok(()));
    same(rt, reader.grant(chains), Ok(()));
}

// The next reading is this text, with this total.
pub(crate) fn check_next<G: Grammar + Drop, S: Score + Drop>(
    rt: &impl Abort,
    reader: &mut Reader<G, S>,
    text: &[u8],
    total: u64,
)
    requires agrees { Agrees S.meaning (G.meaning reader.old.grammar) reader.old }
    ensures agrees { Agrees S.meaning (G.meaning reader.old.grammar) reader.new }
    ensures kept { Kept reader.old reader.new }
{
    let mut place = [0; 8];
    same(rt, reader.next(&mut place), Ok(Outcome::Found(text.len())));
    assert!(rt; place.starts_with(text), "text");
    same(rt, reader.last_total(), Some(total));
}
