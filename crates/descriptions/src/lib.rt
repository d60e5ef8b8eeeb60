// What a line of text is, for a sheet of the chart, and the words that say so.
#![tactic(auto)]

ghost use Rattle.std.specs.Prelude.{◌≡◌, ◌++◌, Some, IfOk, string_bytes, codes};
ghost use Rattle.descriptions.specs.Kinds.{kind_of, TrueOf, sheet_between};
ghost use Rattle.descriptions.specs.Words.{side_of, angle_words, pair_words, kind_words, fault_words};

use grammars::date::Date;
use grammars::sheet::Sheet;
use grammars::{Both, Grammar, Then};
use positions::{Axis, read_position};
use std::alloc::{AllocError, Global};
use std::error::Error;
use std::fmt;

// What a text is. A position holds its latitude and its longitude, two plain numbers as positions are everywhere.
// On and off the sheet are two answers, and no flag.
#[derive(Clone, Copy, Debug, PartialEq, Eq)]
pub enum Kind {
    Date,
    Latitude,
    Longitude,
    OnSheet(i32, i32),
    OffSheet(i32, i32),
    // A date and then a position on the sheet.
    Entry,
    Other,
}

// What the text is. What is said of it is true.
pub fn classify(sheet: &Sheet, text: &[u8]) -> Kind
    ensures value { result ≡ kind_of sheet.now text.now }
    ensures holds { TrueOf sheet.now text.now result }
{
    // The position texts on the sheet, and a date and then such a position, as combined grammars.
    let charted = Both {
        one: Then {
            cut: 8,
            head: Axis::Latitude,
            tail: Axis::Longitude,
        },
        other: *sheet,
    };
    let entry = Then {
        cut: 8,
        head: Date,
        tail: charted,
    };
    if Date.is_admitted(text) {
        Kind::Date
    } else if Axis::Latitude.is_admitted(text) {
        Kind::Latitude
    } else if Axis::Longitude.is_admitted(text) {
        Kind::Longitude
    } else {
        match read_position(text) {
            Ok((latitude, longitude)) if charted.is_admitted(text) => {
                Kind::OnSheet(latitude, longitude)
            }
            Ok((latitude, longitude)) => Kind::OffSheet(latitude, longitude),
            Err(_) if entry.is_admitted(text) => Kind::Entry,
            Err(_) => Kind::Other,
        }
    }
}

// Why two corners make no sheet.
#[derive(Clone, Copy, Debug, PartialEq, Eq)]
pub enum CornerFault {
    Southwest,
    Northeast,
    Order,
}

impl CornerFault {
    #[tactic(auto, unfolding(crate::specs::Words::fault_words))]
    pub fn explanation(self) -> &'static str
        ensures { result.now ≡ fault_words self }
    {
        match self {
            CornerFault::Southwest => "the southwest corner is no position",
            CornerFault::Northeast => "the northeast corner is no position",
            CornerFault::Order => "the southwest corner lies north or east of the northeast corner",
        }
    }
}

// By hand, as a derived `Display` states nothing of its words.
impl fmt::Display for CornerFault {
    ghost output = { λ fault. Some (fault_words fault) };

    fn fmt<W: fmt::Write>(&self, f: &mut fmt::Formatter<W>) -> fmt::Result {
        f.write_str(self.explanation())
    }
}

impl Error for CornerFault {}

// The sheet between two corners, each a position text.
pub fn read_sheet(southwest: &[u8], northeast: &[u8]) -> Result<Sheet, CornerFault>
    ensures { result ≡ sheet_between southwest.now northeast.now }
{
    let (south, west) = read_position(southwest).map_err(|_| CornerFault::Southwest)?;
    let (north, east) = read_position(northeast).map_err(|_| CornerFault::Northeast)?;
    let sheet = Sheet {
        south,
        north,
        west,
        east,
    };
    sheet.check().map_err(|_| CornerFault::Order)?;
    Ok(sheet)
}

// An angle, printed in degrees and minutes, as 50 12.345 N.
#[derive(Clone, Copy)]
struct Angle {
    axis: Axis,
    angle: i32,
}

impl Angle {
    // The letter for a person; those of `positions` are bytes of a text.
    fn side(&self) -> &'static str
        ensures { result.now ≡ side_of self.now.axis self.now.angle }
    {
        match self.axis {
            Axis::Latitude => { if self.angle < 0 { "S" } else { "N" } }
            Axis::Longitude => { if self.angle < 0 { "W" } else { "E" } }
        }
    }
}

impl fmt::Display for Angle {
    ghost output = { λ a. Some (angle_words a.axis a.angle) };

    #[tactic(auto, using(crate::proofs::Padded::padded_numeral), unfolding(crate::specs::Words::angle_words))]
    fn fmt<W: fmt::Write>(&self, f: &mut fmt::Formatter<W>) -> fmt::Result {
        let magnitude = self.angle.unsigned_abs();
        let degrees = magnitude / 60_000;
        let minutes = magnitude / 1000 % 60;
        let thousandths = magnitude % 1000;
        let side = self.side();
        write!(f, "{degrees} {minutes:02}.{thousandths:03} {side}")
    }
}

// A latitude and a longitude, printed one after the other.
#[derive(Clone, Copy)]
struct Pair(i32, i32);

impl fmt::Display for Pair {
    ghost output = { λ p. Some (pair_words p.0 p.1) };

    #[tactic(auto, unfolding(crate::specs::Words::pair_words))]
    fn fmt<W: fmt::Write>(&self, f: &mut fmt::Formatter<W>) -> fmt::Result {
        let north = Angle {
            axis: Axis::Latitude,
            angle: self.0,
        };
        let east = Angle {
            axis: Axis::Longitude,
            angle: self.1,
        };
        write!(f, "{north} {east}")
    }
}

impl fmt::Display for Kind {
    ghost output = { λ kind. Some (kind_words kind) };

    #[tactic(auto, unfolding(crate::specs::Words::kind_words))]
    fn fmt<W: fmt::Write>(&self, f: &mut fmt::Formatter<W>) -> fmt::Result {
        match *self {
            Kind::Date => f.write_str("date"),
            Kind::Latitude => f.write_str("latitude"),
            Kind::Longitude => f.write_str("longitude"),
            Kind::OnSheet(latitude, longitude) => {
                let pair = Pair(latitude, longitude);
                write!(f, "position {pair} on the sheet")
            }
            Kind::OffSheet(latitude, longitude) => {
                let pair = Pair(latitude, longitude);
                write!(f, "position {pair} off the sheet")
            }
            Kind::Entry => f.write_str("date and position on the sheet"),
            Kind::Other => f.write_str("none of these"),
        }
    }
}

// The line that is printed for a text: one format.
pub fn line(heap: Global, sheet: &Sheet, text: &str) -> Result<String, AllocError>
    ensures { IfOk result (λ t. string_bytes t ≡ text.now ++ (codes ": " ++ kind_words (kind_of sheet.now text.now))) }
{
    let kind = classify(sheet, text.as_bytes());
    format!(in heap; "{text}: {kind}")
}
