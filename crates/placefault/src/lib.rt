// The refusal of a lent place that is too short, one for all crates that are lent places.
#![tactic(auto)]

ghost use Rattle.std.specs.Prelude.{◌≡◌};
ghost use Rattle.placefault.specs.Numbers.{place_number};

/// A lent place is shorter than what is to be written into it, or than a call asks for.
/// docs/refusals.md has its number among the others, and the calls that refuse with it.
#[derive(Clone, Copy, Debug, PartialEq, Eq)]
pub struct PlaceFault;

impl PlaceFault {
    /// The number that is returned for it.
    pub fn number(&self) -> u8
        ensures { result ≡ place_number }
    {
        10
    }
}
