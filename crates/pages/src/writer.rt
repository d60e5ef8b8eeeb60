// Writes a line as the bytes that it is read from.
ghost use Rattle.std.specs.Prelude.{◌≡◌, ◌+◌, ◌≤◌, ◌++◌, length, take, drop};
ghost use Rattle.pages.specs.Answers.{line_of};
ghost use Rattle.pages.specs.Writing.{alternative_bytes, line_bytes, Written};
ghost use Rattle.pages.specs.Laws.{ReadsBack};

use crate::lines::{Alternative, Line};
use placefault::PlaceFault;

// How many bytes a line takes.
fn line_size(line: &Line) -> usize
    ensures { result ≡ length (line_bytes (line_of line.now)) }
{
    let cells = line.cells().iter();
    1 + cells
        .map(|cell| 1 + 3 * cell.alternatives().len())
        .sum::<usize>()
}

// Writes the three bytes of an alternative.
fn put_alternative(place: &mut [u8], at: usize, a: Alternative)
    requires { at + 3 ≤ length place.old }
    ensures { place.new ≡ take at place.old ++ (alternative_bytes a ++ drop (at + 3) place.old) }
{
    let [high, low] = a.penalty.to_be_bytes();
    place[at..at + 3].copy_from_slice(&[a.symbol, high, low]);
}

// Writes the bytes of a line from the place's start, and answers how many they are.
pub fn write_line(line: &Line, place: &mut [u8]) -> Result<usize, PlaceFault>
    ensures written { Written result (line_bytes (line_of line.now)) place.old place.new }
    ensures reads_back { ReadsBack result (line_of line.now) place.new }
{
    if place.len() < line_size(line) {
        return Err(PlaceFault);
    }
    let cells = line.cells();
    // By `as`: a line has at most 24 cells, and a cell 8 alternatives.
    place[0] = cells.len() as u8;
    // No loop counter: it is where the next byte stands, and moves by 1 and by 3.
    let mut at = 1;
    for cell in cells {
        let alternatives = cell.alternatives();
        place[at] = alternatives.len() as u8;
        at += 1;
        for a in alternatives {
            put_alternative(place, at, *a);
            at += 3;
        }
    }
    Ok(at)
}
