// A sheet of the chart: the positions inside its limits or on them.
ghost use Rattle.std.specs.Prelude.{◌≡◌, MatchResult};
ghost use Rattle.grammars.specs.Grammars.{Shut};
ghost use Rattle.grammars.specs.Sheets.{holds, on_sheet, checking, admits_sheet, sheet_sets, Covers};
ghost use Rattle.grammars.specs.SheetsLemmas.{sheet_empty, sheet_shorter, sheet_allowed};

use crate::{Grammar, Refusal};
use positions::{is_pair, read_position};

// The limits, in thousandths of a minute, south and west negative.
#[derive(Clone, Copy)]
pub struct Sheet {
    pub south: i32,
    pub north: i32,
    pub west: i32,
    pub east: i32,
}

impl Sheet {
    // The table holds: the limits are in order and in range. A table that fails is a sheet too, so each call asks.
    fn is_sound(&self) -> bool
        ensures { result ≡ holds self.now }
    {
        (self.south <= self.north && self.west <= self.east)
            && (is_pair(self.south, self.west) && is_pair(self.north, self.east))
    }

    // Where the table holds, the sheet admits the texts of the positions inside its limits or on them; where it
    // fails, it admits none and allows only the empty opening.
    pub fn check(&self) -> Result<(), Refusal>
        ensures answer { result ≡ checking self.now }
        ensures sets { MatchResult result (λ _. Covers self.now) (λ _. Shut (sheet_sets self.now)) }
    {
        self.is_sound().then_some(()).ok_or(Refusal::Table)
    }

    // The pair is two plain numbers, as `read_position` gives it.
    fn has_inside(&self, pair: (i32, i32)) -> bool
        ensures { result ≡ on_sheet self.now pair }
    {
        (self.south..=self.north).contains(&pair.0) && (self.west..=self.east).contains(&pair.1)
    }

    fn admits(&self, text: &[u8]) -> bool
        ensures { result ≡ admits_sheet self.now text.now }
    {
        self.is_sound() && read_position(text).is_ok_and(|pair| self.has_inside(pair))
    }
}

impl Grammar for Sheet {
    ghost meaning = { sheet_sets };

    ghost laws = { λ t.
        record {
          empty = sheet_empty t;
          shorter = sheet_shorter t;
          begun = λ s n h. sheet_shorter t s n (sheet_allowed t s h);
        } };

    fn is_admitted(&self, text: &[u8]) -> bool {
        self.admits(text)
    }

    fn is_allowed(&self, opening: &[u8]) -> bool {
        if self.is_sound() {
            opening.len() < 17 || opening.len() == 17 && self.admits(opening)
        } else {
            opening.is_empty()
        }
    }
}
