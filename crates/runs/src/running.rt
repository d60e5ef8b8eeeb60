// Makes the calls of a run.
ghost use Rattle.std.specs.Prelude.{◌≡◌, MatchResult};
ghost use Rattle.reader.specs.Views.{view, unloaded, Kept, Agrees};
ghost use Rattle.runs.specs.Determined.{Determined};
ghost use Rattle.runs.specs.Runs.{Runs, RunsOn};
ghost use Rattle.runs.specs.Steps.{Made};

use crate::rows::{Answer, Call, Row};
use grammars::Grammar;
use reader::{Reader, Refusal};
use scores::Score;
use std::alloc::{AllocError, Global};

// Makes a call, on a reader that agrees with its bench. A `match` and no table of functions: a call is data in a row.
fn answer_call<G: Grammar + Drop, S: Score + Drop>(
    reader: &mut Reader<G, S>,
    pages: &[u8],
    places: &mut [u8],
    call: Call,
) -> Result<Answer, Refusal>
    requires agrees { Agrees S.meaning (G.meaning reader.old.grammar) reader.old }
    ensures agrees { Agrees S.meaning (G.meaning reader.old.grammar) reader.new }
    ensures kept { Kept reader.old reader.new }
    ensures made { Made S.meaning (G.meaning reader.old.grammar) pages.now (view reader.old) places.old call result (view reader.new) places.new }
{
    match call {
        Call::Load { page, number } => {
            reader.load(&pages[page.range(pages.len())], number)?;
            Ok(Answer::Loaded)
        }
        Call::Grant { chains } => {
            reader.grant(chains)?;
            Ok(Answer::Granted)
        }
        Call::Next { place } => {
            let range = place.range(places.len());
            let outcome = reader.next(&mut places[range])?;
            Ok(Answer::from(outcome))
        }
        Call::Report => Ok(Answer::Reported(reader.report())),
    }
}

/// Makes the calls of the rows, in their order, on a reader that is made and has no line yet, and
/// writes the answer of each into its row. Pages are parts of `pages`, places parts of `places`,
/// both in bytes from 0 on. It cannot fail. docs/reader.md has the law; by `determined` nothing is
/// left open but the places in use that a report tells.
pub fn run_on<G: Grammar + Drop, S: Score + Drop>(
    reader: &mut Reader<G, S>,
    pages: &[u8],
    places: &mut [u8],
    rows: &mut [Row],
)
    requires agrees { Agrees S.meaning (G.meaning reader.old.grammar) reader.old }
    requires unloaded { view reader.old ≡ unloaded }
    ensures law { RunsOn S.meaning (G.meaning reader.old.grammar) pages.now places.old rows.old
        rows.new places.new (view reader.new) }
    ensures determined { Determined S.meaning (G.meaning reader.old.grammar) pages.now places.old
        rows.old }
    ensures agrees { Agrees S.meaning (G.meaning reader.old.grammar) reader.new }
    ensures kept { Kept reader.old reader.new }
{
    for row in rows.iter_mut() {
        row.answer = Some(answer_call(reader, pages, places, row.call));
    }
}

/// Makes a reader, and runs the rows on it by `run_on`. The error is that there is no memory for a
/// reader: rows and places are then as they were. docs/reader.md has the law.
pub fn run<G: Grammar + Drop, S: Score + Drop>(
    heap: Global,
    grammar: G,
    score: S,
    pages: &[u8],
    places: &mut [u8],
    rows: &mut [Row],
) -> Result<(), AllocError>
    ensures law { MatchResult result (λ _. Runs S.meaning (G.meaning grammar) pages.now places.old rows.old rows.new places.new) (λ _. (rows.new ≡ rows.old) × (places.new ≡ places.old)) }
    ensures determined { Determined S.meaning (G.meaning grammar) pages.now places.old rows.old }
{
    let mut reader = Reader::new(heap, grammar, score)?;
    run_on(&mut reader, pages, places, rows);
    Ok(())
}
