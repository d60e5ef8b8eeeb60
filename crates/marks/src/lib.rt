// Marks: a position is proposed, confirmed or rejected, and only a confirmed one is plotted.
// A proposal and a confirmed mark are used up by their calls, and cannot be copied or dropped. They are two types, so
// that the compiler turns a proposal away where a confirmed mark is wanted.
// Latitude and longitude are two plain numbers in both, as a position is everywhere.
#![tactic(auto)]

ghost use Rattle.std.specs.Prelude.{◌≡◌, ◌++◌, length, take, drop, is_ok, IfOk, if◌then◌else◌};
ghost use Rattle.marks.specs.Marks.{proposing, confirming, plotting, mark_bytes, plotted};

use positions::{Refusal, read_position};

// A position read, on which nobody has decided yet.
pub struct Proposal {
    latitude: i32,
    longitude: i32,
}

// A position to be plotted.
pub struct Confirmed {
    latitude: i32,
    longitude: i32,
}

pub fn propose(text: &[u8]) -> Result<Proposal, Refusal>
    ensures { result ≡ proposing text.now }
{
    let (latitude, longitude) = read_position(text)?;
    Ok(Proposal {
        latitude,
        longitude,
    })
}

impl Proposal {
    // Takes the proposal apart by a pattern, since it cannot be dropped, for the two calls that end it.
    fn into_pair(self) -> (i32, i32)
        ensures { result ≡ (self.latitude, self.longitude) }
    {
        let Proposal {
            latitude,
            longitude,
        } = self;
        (latitude, longitude)
    }

    pub fn confirm(self) -> Confirmed
        ensures { result ≡ confirming self }
    {
        let (latitude, longitude) = self.into_pair();
        Confirmed {
            latitude,
            longitude,
        }
    }

    // Ends the proposal, and answers the position that was not taken.
    pub fn reject(self) -> (i32, i32)
        ensures { result ≡ (self.latitude, self.longitude) }
    {
        self.into_pair()
    }
}

impl Confirmed {
    // Writes eight bytes, from which the two numbers can be read again. Where the place is too short it
    // hands the mark back.
    #[tactic(auto, using(crate::proofs::Words::pair_back))]
    pub fn plot(self, place: &mut [u8]) -> Result<usize, (Refusal, Confirmed)>
        ensures answer { result ≡ plotting self (length place.old) }
        ensures written { place.new ≡ (if is_ok result then mark_bytes self ++ drop 8 place.old else place.old) }
        ensures told { IfOk result (λ n. plotted (take n place.new) ≡ (self.latitude, self.longitude)) }
    {
        if place.len() < 8 {
            return Err((Refusal::Place, self));
        }
        let Confirmed {
            latitude,
            longitude,
        } = self;
        place[0..4].copy_from_slice(&latitude.to_be_bytes());
        place[4..8].copy_from_slice(&longitude.to_be_bytes());
        Ok(8)
    }
}
