// What a run is made under: which texts are sought, and how they are scored.
#![tactic(auto)]

ghost use Rattle.std.specs.Prelude.{◌≡◌, MatchResult};
ghost use Rattle.runs.specs.Runs.{Runs};
ghost use Rattle.settings.specs.Settings.{meaning_of, sets_of};

use grammars::date::Date;
use grammars::sheet::Sheet;
use grammars::{Both, Grammar, Then};
use positions::Axis;
use runs::{Row, run};
use scores::{Shares, Sum};
use std::alloc::{AllocError, Global};

#[derive(Clone, Copy, Debug, PartialEq, Eq)]
pub enum Scoring {
    Sum,
    Shares,
}

// Dates, positions, or positions on a sheet.
#[derive(Clone, Copy)]
pub enum Wanted {
    Dates,
    Positions,
    OnSheet(Sheet),
}

#[derive(Clone, Copy)]
pub struct Setting {
    pub wanted: Wanted,
    pub scoring: Scoring,
}

// A latitude, and behind it a longitude.
const POSITIONS: Then<Axis, Axis> = Then {
    cut: 8,
    head: Axis::Latitude,
    tail: Axis::Longitude,
};

// The run under a grammar that is given, by the score that is named.
fn run_scored<G: Grammar + Drop>(
    heap: Global,
    grammar: G,
    scoring: Scoring,
    pages: &[u8],
    places: &mut [u8],
    rows: &mut [Row],
) -> Result<(), AllocError>
    ensures law { MatchResult result (λ _. Runs (meaning_of scoring) (G.meaning grammar) pages.now places.old rows.old rows.new places.new) (λ _. (rows.new ≡ rows.old) × (places.new ≡ places.old)) }
{
    match scoring {
        Scoring::Sum => run(heap, grammar, Sum, pages, places, rows),
        Scoring::Shares => run(heap, grammar, Shares, pages, places, rows),
    }
}

impl Setting {
    // The run of the rows under the setting. The law of `runs` is passed on whole.
    pub fn run(
        &self,
        heap: Global,
        pages: &[u8],
        places: &mut [u8],
        rows: &mut [Row],
    ) -> Result<(), AllocError>
        ensures law { MatchResult result (λ _. Runs (meaning_of self.now.scoring) (sets_of self.now.wanted) pages.now places.old rows.old rows.new places.new) (λ _. (rows.new ≡ rows.old) × (places.new ≡ places.old)) }
    {
        match self.wanted {
            Wanted::Dates => run_scored(heap, Date, self.scoring, pages, places, rows),
            Wanted::Positions => run_scored(heap, POSITIONS, self.scoring, pages, places, rows),
            Wanted::OnSheet(sheet) => {
                let positions = Both {
                    one: POSITIONS,
                    other: sheet,
                };
                run_scored(heap, positions, self.scoring, pages, places, rows)
            }
        }
    }
}
