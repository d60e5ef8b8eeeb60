// Reads a line: its count of cells, and in each cell the count of alternatives and the alternatives.
ghost use Rattle.std.specs.Prelude.{◌≡◌, IfOk};
ghost use Rattle.pages.specs.Shape.{seen};
ghost use Rattle.pages.specs.Reading.{last_penalty, read_alternative, read_count};
ghost use Rattle.pages.specs.Answers.{LineRead, line_of};
ghost use Rattle.pages.specs.Laws.{Stands};
ghost use Rattle.pages.specs.Writing.{line_bytes};

use crate::faults::{AlternativeFault, CellFault, CountFault, LineFault, Numbered};
use crate::few::Few;
use crate::lines::{Alternative, Cell, Line, MOST_ALTERNATIVES, MOST_CELLS};

// Reads the count at `at`, which may be 1 to `most`. The readers are given the whole page and a place in it, as a fault
// names the place.
pub(crate) fn read_count_of(bytes: &[u8], at: usize, most: usize) -> Result<usize, CountFault>
    ensures { result ≡ read_count most bytes.now at }
{
    let count = *bytes.get(at).ok_or(CountFault::Short(bytes.len()))?;
    let count = usize::from(count);
    if !(1..=most).contains(&count) {
        return Err(CountFault::Count(at));
    }
    Ok(count)
}

// Whether one of `before` has this symbol.
fn has_symbol(before: &[Alternative], symbol: u8) -> bool
    ensures { result ≡ seen symbol before.now }
{
    before.iter().any(|a| a.symbol == symbol)
}

// The penalty of the last of `before`, or 0 where there is none.
fn last_penalty_of(before: &[Alternative]) -> u16
    ensures { result ≡ last_penalty before.now }
{
    before.last().map_or(0, |last| last.penalty)
}

// Reads the alternative at `at`, where the cell has those `before` it.
pub fn read_alternative(
    bytes: &[u8],
    at: usize,
    before: &[Alternative],
) -> Result<Alternative, AlternativeFault>
    ensures { result ≡ read_alternative bytes.now at before.now }
{
    let short = AlternativeFault::Short(bytes.len());
    let symbol = *bytes.get(at).ok_or(short)?;
    if !(33..=126).contains(&symbol) {
        return Err(AlternativeFault::Symbol(at));
    }
    if has_symbol(before, symbol) {
        return Err(AlternativeFault::Twice(at));
    }
    let high = *bytes.get(at + 1).ok_or(short)?;
    let low = *bytes.get(at + 2).ok_or(short)?;
    let penalty = u16::from_be_bytes([high, low]);
    if penalty < last_penalty_of(before) {
        return Err(AlternativeFault::Order(at + 1));
    }
    Ok(Alternative { symbol, penalty })
}

// Reads the line at `at`, and gives it with the place behind it.
pub fn read_line_at(bytes: &[u8], at: usize) -> Result<(Line, usize), LineFault>
    ensures answer { LineRead result bytes.now at }
    ensures same_bytes { IfOk result (λ got. Stands bytes.now at (line_bytes (line_of got.0)) got.1) }
{
    let count = read_count_of(bytes, at, MOST_CELLS)?;
    let mut cells = Few::new(Cell::empty());
    // No loop counter: it is where the next byte stands, and moves by 1 and by 3.
    let mut place = at + 1;
    // The first fault leaves both loops, with the number of its cell.
    let outcome: Result<(), Numbered<CellFault>> = 'cells: {
        // By the number: a fault says which cell it was met in.
        for number in 0..count {
            let at_cell = |fault| Err(Numbered { number, fault });
            let due = match read_count_of(bytes, place, MOST_ALTERNATIVES) {
                Ok(due) => due,
                Err(fault) => break 'cells at_cell(CellFault::from(fault)),
            };
            place += 1;
            let mut cell = Cell::empty();
            for _ in 0..due {
                match read_alternative(bytes, place, cell.alternatives()) {
                    Ok(alternative) => cell.alternatives.push(alternative),
                    Err(fault) => break 'cells at_cell(CellFault::from(fault)),
                }
                place += 3;
            }
            cells.push(cell);
        }
        Ok(())
    };
    outcome?;
    Ok((Line { cells }, place))
}
