// A reading that was handed out, and its mark.
ghost use Rattle.std.specs.Prelude.{◌≡◌, ◌≤◌, length, take, true};
ghost use Rattle.marks.specs.Marks.{plotted};
ghost use Rattle.desk.specs.Marks.{mark_of};
ghost use Rattle.positions.specs.Positions.{is_position, pair_of};

use marks::propose;

// A position has a latitude of 8 symbols and a longitude of 9.
const POSITION_CELLS: usize = 17;

/// A reading that is a position: its text, and its total.
#[derive(Clone, Copy)]
pub struct Reading {
    /// The text, as `docs/positions.md` has it.
    pub text: [u8; POSITION_CELLS],
    /// The total of its chain.
    pub total: u64,
    ghost position: { is_position text ≡ true },
}

impl Reading {
    /// The reading at the start of a place.
    pub fn at(place: &[u8], total: u64) -> Reading
        requires fits { 17 ≤ length place.now }
        requires position { is_position (take 17 place.now) ≡ true }
        ensures text { result.text ≡ take 17 place.now }
        ensures total { result.total ≡ total }
    {
        let mut text = [0; POSITION_CELLS];
        text.copy_from_slice(&place[..POSITION_CELLS]);
        Reading { text, total }
    }

    /// The eight bytes of the mark that the reading is, which say its position, as `docs/marks.md`
    /// has it.
    // A mark is proposed here alone, where it is confirmed: one that was proposed has to be decided on.
    pub fn plot(&self) -> [u8; 8]
        ensures bytes { result ≡ mark_of self.now.text }
        ensures told { plotted result ≡ pair_of self.now.text }
    {
        let mut bytes = [0; 8];
        let mark = propose(&self.text).unwrap().confirm();
        // A mark cannot be dropped, so one that came back would have to be named.
        match mark.plot(&mut bytes) {
            Ok(_) => bytes,
            Err((_, _mark)) => unreachable!(),
        }
    }
}
