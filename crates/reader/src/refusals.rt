// Why a call of a reader is refused.
ghost use Rattle.std.specs.Prelude.{◌≡◌};
ghost use Rattle.reader.specs.Refusals.{details_of, number_of, explained};
ghost use Rattle.reader.specs.declared.refusals.Refusal.TheVariants as Refusals;

use pages::{Details, PageFault};
use placefault::PlaceFault;

// The page is bad, with its whole fault; the score does not take the line; no line is loaded; the grant is 0 or too
// large; the place is too short; the page has no line of the number.
#[derive(Clone, Copy, Debug, PartialEq, Eq)]
pub enum Refusal {
    Page(PageFault),
    Score,
    NoLine,
    Grant,
    Place,
    LineNumber,
}

impl Refusal {
    /// The number that is returned, and the values beside it: of a bad page those of its fault, of
    /// all else none. docs/refusals.md has the numbers.
    pub fn details(&self) -> Details
        ensures { result ≡ details_of self.now }
    {
        match self {
            Refusal::Page(fault) => fault.details(),
            Refusal::Score => Details::number_alone(7),
            Refusal::NoLine => Details::number_alone(8),
            Refusal::Grant => Details::number_alone(9),
            Refusal::Place => Details::number_alone(PlaceFault.number()),
            Refusal::LineNumber => Details::number_alone(13),
        }
    }

    /// The number that is returned.
    pub fn number(&self) -> u8
        ensures { result ≡ number_of self.now }
    {
        self.details().number
    }

    // Why, in a few words. Of a bad page they say no more: what is wrong with it takes the page to tell.
    #[tactic(auto, unfolding(crate::specs::Refusals::explained))]
    pub fn explanation(&self) -> &'static str
        ensures { result.now ≡ explained self.now }
    {
        match self {
            Refusal::Page(_) => "the page is bad",
            Refusal::Score => "the score does not take the line",
            Refusal::NoLine => "no line is loaded",
            Refusal::Grant => "the grant is 0 or too large",
            Refusal::Place => "the place is too short",
            Refusal::LineNumber => "the page has no such line",
        }
    }
}

// Written out, as a derived `From` says nothing of what it gives.
impl From<PageFault> for Refusal {
    ghost from_gives = { λ e r. r ≡ Refusals.Page e };

    fn from(fault: PageFault) -> Refusal {
        Refusal::Page(fault)
    }
}

// Written out, as the one above. The fault says no more than the case, so it is not held.
impl From<PlaceFault> for Refusal {
    ghost from_gives = { λ _ r. r ≡ Refusals.Place };

    fn from(_fault: PlaceFault) -> Refusal {
        Refusal::Place
    }
}
