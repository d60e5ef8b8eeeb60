// The rows of a run, as C has them.
ghost use Rattle.std.specs.Prelude.{◌≡◌};
ghost use Rattle.ffi.specs.Rows.{is_call, call_of, row_of, only, next_came, report_came, refusal_came, came_of};

use crate::answers::NONE;
use crate::refusals::RefusalFields;
use reader::{Outcome, Refusal, Report};
use runs::{Answer, Call, Part};

// What a row asks for.
#[repr(C)]
#[derive(Clone, Copy)]
pub struct Asked {
    pub call: u32,
    pub start: usize,
    pub length: usize,
    pub number: usize,
}

// What came of it.
#[repr(C)]
#[derive(Clone, Copy)]
pub struct Came {
    pub outcome: u32,
    pub refused: u32,
    pub place: usize,
    pub line: usize,
    pub cell: usize,
    pub written: usize,
    pub cells: usize,
    pub granted: usize,
    pub looked: usize,
    pub handed: usize,
    pub places: usize,
}

#[repr(C)]
#[derive(Clone, Copy)]
pub struct Row {
    pub asked: Asked,
    pub came: Came,
}

// The numbers of include/markbook.h.
const LOAD: u32 = 1;

const GRANT: u32 = 2;

const NEXT: u32 = 3;

const REPORT: u32 = 4;

const NOT_MADE: u32 = 0;

const LOADED: u32 = 1;

const GRANTED: u32 = 2;

const FOUND: u32 = 3;

const SPENT: u32 = 4;

const EXHAUSTED: u32 = 5;

const REPORTED: u32 = 6;

const REFUSED: u32 = 7;

impl Asked {
    // Whether there is a call of the number.
    pub(crate) fn is_call(&self) -> bool
        ensures { result ≡ is_call self.now }
    {
        (LOAD..=REPORT).contains(&self.call)
    }

    fn part(&self) -> Part
        ensures { result ≡ record { start = self.now.start; length = self.now.length } }
    {
        Part {
            start: self.start,
            length: self.length,
        }
    }

    // The call of the number.
    fn call(&self) -> Call
        ensures { result ≡ call_of self.now }
    {
        match self.call {
            LOAD => Call::Load {
                page: self.part(),
                number: self.number,
            },
            GRANT => Call::Grant {
                chains: self.number,
            },
            NEXT => Call::Next { place: self.part() },
            _ => Call::Report,
        }
    }

    // The row that is run, not made yet.
    pub(crate) fn row(&self) -> runs::Row
        ensures { result ≡ row_of self.now }
    {
        runs::Row {
            call: self.call(),
            answer: None,
        }
    }
}

impl Came {
    // Nothing but that the outcome is of the number.
    fn only(outcome: u32) -> Came
        ensures { result ≡ only outcome }
    {
        Came {
            outcome,
            refused: 0,
            place: NONE,
            line: NONE,
            cell: NONE,
            written: 0,
            cells: 0,
            granted: 0,
            looked: 0,
            handed: 0,
            places: 0,
        }
    }

    fn next(outcome: Outcome) -> Came
        ensures { result ≡ next_came outcome }
    {
        match outcome {
            Outcome::Found(written) => Came {
                written,
                ..Came::only(FOUND)
            },
            Outcome::Spent => Came::only(SPENT),
            Outcome::Exhausted => Came::only(EXHAUSTED),
        }
    }

    fn report(report: Report) -> Came
        ensures { result ≡ report_came report }
    {
        Came {
            cells: report.cells,
            granted: report.granted,
            looked: report.looked,
            handed: report.handed,
            places: report.places,
            ..Came::only(REPORTED)
        }
    }

    fn refusal(refusal: Refusal) -> Came
        ensures { result ≡ refusal_came refusal }
    {
        let fields = RefusalFields::of(refusal.details());
        Came {
            refused: u32::from(fields.number),
            place: fields.place,
            line: fields.line,
            cell: fields.cell,
            ..Came::only(REFUSED)
        }
    }

    // What a row that was run came to.
    pub(crate) fn of(answer: Option<Result<Answer, Refusal>>) -> Came
        ensures { result ≡ came_of answer }
    {
        match answer {
            None => Came::only(NOT_MADE),
            Some(Ok(Answer::Loaded)) => Came::only(LOADED),
            Some(Ok(Answer::Granted)) => Came::only(GRANTED),
            Some(Ok(Answer::Next(outcome))) => Came::next(outcome),
            Some(Ok(Answer::Reported(report))) => Came::report(report),
            Some(Err(refusal)) => Came::refusal(refusal),
        }
    }
}
