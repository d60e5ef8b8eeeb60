// What a call answered, in words.
ghost use Rattle.std.specs.Prelude.{◌≡◌, IfOk, string_bytes};
ghost use Rattle.runs.specs.Runs.{cut};
ghost use Rattle.plays.specs.Words.{answer_words, page_of, place_of, call_line};

use reader::{Outcome, Refusal, Report};
use refusalwords::refused;
use runs::{Answer, Call, Part, Row};
use std::alloc::{AllocError, Global};

// The bytes of a part, cut off at the end as `run` cuts them.
fn lent(bytes: &[u8], part: Part) -> &[u8]
    ensures { result.now ≡ cut bytes.now part }
{
    let rest = &bytes[part.start.min(bytes.len())..];
    &rest[..part.length.min(rest.len())]
}

// The page of a load, among the bytes lent for pages.
fn page_of(pages: &[u8], call: Call) -> &[u8]
    ensures { result.now ≡ page_of pages.now call }
{
    match call {
        Call::Load { page, .. } => lent(pages, page),
        Call::Grant { .. } | Call::Next { .. } | Call::Report => &[],
    }
}

// The place of a next, among the bytes lent for places.
fn place_of(places: &[u8], call: Call) -> &[u8]
    ensures { result.now ≡ place_of places.now call }
{
    match call {
        Call::Next { place } => lent(places, place),
        Call::Load { .. } | Call::Grant { .. } | Call::Report => &[],
    }
}

// What a call answered, with the page that it was lent, if any, and the place.
fn answer_in_words(
    heap: Global,
    page: &[u8],
    place: &[u8],
    answer: Result<Answer, Refusal>,
) -> Result<String, AllocError>
    ensures { IfOk result (λ s. string_bytes s ≡ answer_words page.now place.now answer) }
{
    match answer {
        Ok(Answer::Loaded) => "loaded".to_string(heap),
        Ok(Answer::Granted) => "granted".to_string(heap),
        Ok(Answer::Next(Outcome::Found(count))) => {
            let text = String::from_utf8_lossy(heap, &place[..count.min(place.len())])?;
            format!(in heap; "found {text}")
        }
        Ok(Answer::Next(Outcome::Spent)) => "spent".to_string(heap),
        Ok(Answer::Next(Outcome::Exhausted)) => "exhausted".to_string(heap),
        Ok(Answer::Reported(report)) => {
            let Report {
                cells,
                granted,
                looked,
                handed,
                places,
            } = report;
            format!(in heap;
                "{cells} cells, {granted} granted, {looked} looked at, {handed} handed out, {places} places in use"
            )
        }
        Err(refusal) => refused(heap, page, refusal),
    }
}

/// The line of a call that was made: how it was written, and what it answered, with a line feed at
/// its end. Of a call that was not made there is nothing. The only error is want of memory.
pub fn line(
    heap: Global,
    pages: &[u8],
    places: &[u8],
    text: &str,
    row: &Row,
) -> Result<String, AllocError>
    ensures { IfOk result (λ s. string_bytes s ≡ call_line pages.now places.now text.now row.now.call row.now.answer) }
{
    let Some(answer) = row.answer else {
        return Ok(String::new(heap));
    };
    let page = page_of(pages, row.call);
    let place = place_of(places, row.call);
    let words = answer_in_words(heap, page, place, answer)?;
    format!(in heap; "{text}: {words}\n")
}
