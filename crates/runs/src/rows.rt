// The rows of a run.
ghost use Rattle.std.specs.Prelude.{◌≡◌, ◌+◌, ◌-◌, min};
ghost use Rattle.runs.specs.declared.rows.Answer.TheVariants as Answers;

use reader::{Outcome, Refusal, Report};
use std::ops::Range;

// A part of lent bytes, cut off at their end: two numbers that the caller gives, and no buffer.
#[derive(Clone, Copy, Debug, PartialEq, Eq)]
pub struct Part {
    pub start: usize,
    pub length: usize,
}

// A call with its numbers. A page is a part of the bytes that are lent for pages, a place one of those lent for places.
#[derive(Clone, Copy, Debug, PartialEq, Eq)]
pub enum Call {
    Load { page: Part, number: usize },
    Grant { chains: usize },
    Next { place: Part },
    Report,
}

// What a call that was not refused answers.
#[derive(Clone, Copy, Debug, PartialEq, Eq)]
pub enum Answer {
    Loaded,
    Granted,
    Next(Outcome),
    Reported(Report),
}

// A call, and what it answered or why it was refused, once it is made.
#[derive(Clone, Copy, Debug, PartialEq, Eq)]
pub struct Row {
    pub call: Call,
    pub answer: Option<Result<Answer, Refusal>>,
}

// Written out, as a derived `From` says nothing of what it gives.
impl From<Outcome> for Answer {
    ghost from_gives = { λ e r. r ≡ Answers.Next e };

    fn from(outcome: Outcome) -> Answer {
        Answer::Next(outcome)
    }
}

impl Part {
    // Where the part lies in so many bytes.
    pub(crate) fn range(&self, len: usize) -> Range<usize>
        ensures start { result.start ≡ min self.now.start len }
        ensures end { result.end ≡ result.start + min self.now.length (len - result.start) }
    {
        let start = self.start.min(len);
        start..start + self.length.min(len - start)
    }
}
