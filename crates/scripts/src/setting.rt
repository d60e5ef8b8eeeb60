// Which setting the arguments ask for.
ghost use Rattle.std.specs.Prelude.{◌≡◌, Some, map, MatchResult};
ghost use Rattle.scripts.specs.Settings.{Asks, IsUnasked, setting_between};
ghost use Rattle.scripts.specs.Words.{setting_fault_words};

use descriptions::{CornerFault, read_sheet};
use settings::{Scoring, Setting, Wanted};
use std::error::Error;
use std::fmt;

/// Why arguments ask for no setting: their corners make no sheet, or they have neither form.
#[derive(Clone, Copy, Debug, PartialEq, Eq)]
pub enum SettingFault {
    Corner(CornerFault),
    Arguments,
}

impl SettingFault {
    /// What is wrong, or the form that is expected.
    #[tactic(auto, unfolding(crate::specs::Words::setting_fault_words))]
    pub fn explanation(self) -> &'static str
        ensures { result.now ≡ setting_fault_words self }
    {
        match self {
            SettingFault::Corner(fault) => fault.explanation(),
            SettingFault::Arguments =>
                "the arguments are [sheet SOUTHWEST NORTHEAST] [shares], a corner as 4900000N00600000W",
        }
    }
}

// By hand, as a derived `Display` states nothing of its words.
impl fmt::Display for SettingFault {
    ghost output = { λ fault. Some (setting_fault_words fault) };

    fn fmt<W: fmt::Write>(&self, f: &mut fmt::Formatter<W>) -> fmt::Result {
        f.write_str(self.explanation())
    }
}

impl Error for SettingFault {}

// The setting of the positions between two corners.
fn setting_between(
    southwest: &str,
    northeast: &str,
    scoring: Scoring,
) -> Result<Setting, SettingFault>
    ensures { result ≡ setting_between southwest.now northeast.now scoring }
{
    match read_sheet(southwest.as_bytes(), northeast.as_bytes()) {
        Ok(sheet) => Ok(Setting {
            wanted: Wanted::OnSheet(sheet),
            scoring,
        }),
        Err(fault) => Err(SettingFault::Corner(fault)),
    }
}

/// The setting that the arguments ask for: both parts may be left out, and they come in this order.
/// `docs/replay.md` has the table of them. No memory is asked for, so no others are refused.
pub fn setting_of(words: &[&str]) -> Result<Setting, SettingFault>
    ensures { MatchResult result (λ s. Asks (map (λ w. w.now) words.now) s.wanted s.scoring) (IsUnasked (map (λ w. w.now) words.now)) }
{
    match words {
        [] => Ok(Setting {
            wanted: Wanted::Dates,
            scoring: Scoring::Sum,
        }),
        ["shares"] => Ok(Setting {
            wanted: Wanted::Dates,
            scoring: Scoring::Shares,
        }),
        ["sheet", southwest, northeast] => setting_between(southwest, northeast, Scoring::Sum),
        ["sheet", southwest, northeast, "shares"] => {
            setting_between(southwest, northeast, Scoring::Shares)
        }
        _ => Err(SettingFault::Arguments),
    }
}
