// Positions: a latitude and a longitude, as text and as signed thousandths of a minute.
#![tactic(auto)]

ghost use Rattle.std.specs.Prelude.{◌≡◌, ℕ, List, ◌++◌, length, take, drop, ℤ, is_ok, IfOk, if◌then◌else◌, Ok, MatchResult};
ghost use Rattle.positions.specs.Positions.{refusal, reading, is_pair, position_text, writing, Says};

pub use crate::angles::Axis;
use placefault::PlaceFault;

pub mod angles;
pub mod numerals;

// Why a position is refused: it is none, or its place is too short.
#[derive(Clone, Copy, Debug, PartialEq, Eq)]
pub enum Refusal {
    Place,
    Position,
}

impl Refusal {
    // The returned number.
    pub fn number(self) -> u8
        ensures { result ≡ refusal self }
    {
        match self {
            Refusal::Place => PlaceFault.number(),
            Refusal::Position => 11,
        }
    }
}

// The latitude and the longitude of a position text, two plain numbers. It is refused exactly where it is the text of no
// pair in range, and what is read writes out to the same text.
pub fn read_position(text: &[u8]) -> Result<(i32, i32), Refusal>
    ensures answer { result ≡ reading text.now }
    ensures said { MatchResult result (λ p. Says text.now p.0 p.1) (λ _. (y x : ℤ) → Says text.now y x → ⊥) }
{
    // The length first, and the longitude only behind a latitude: a text that is refused is read no further.
    if text.len() != 17 {
        return Err(Refusal::Position);
    }
    let (latitude, longitude) = text.split_at(8);
    let latitude = Axis::Latitude.read(latitude).ok_or(Refusal::Position)?;
    let longitude = Axis::Longitude.read(longitude).ok_or(Refusal::Position)?;
    Ok((latitude, longitude))
}

// Both angles are in range.
pub fn is_pair(latitude: i32, longitude: i32) -> bool
    ensures { result ≡ is_pair latitude longitude }
{
    Axis::Latitude.is_in_range(latitude) && Axis::Longitude.is_in_range(longitude)
}

// Writes the text of a pair into a place that is lent. What is written reads back as the same pair, and no other text does.
pub fn write_position(pair: (i32, i32), place: &mut [u8]) -> Result<usize, Refusal>
    ensures answer { result ≡ writing pair.0 pair.1 (length place.old) }
    ensures written { place.new ≡ (if is_ok result then position_text pair.0 pair.1 ++ drop 17 place.old else place.old) }
    ensures back { IfOk result (λ n. reading (take n place.new) ≡ Ok (pair.0, pair.1)) }
    ensures only { IfOk result (λ n. (s : List ℕ) → reading s ≡ Ok (pair.0, pair.1) → s ≡ take n place.new) }
{
    let (latitude, longitude) = pair;
    if !is_pair(latitude, longitude) {
        return Err(Refusal::Position);
    }
    if place.len() < 17 {
        return Err(Refusal::Place);
    }
    Axis::Latitude.write(latitude, &mut place[0..8]);
    Axis::Longitude.write(longitude, &mut place[8..17]);
    Ok(17)
}
