// A chain of a line: the alternatives that it takes, its text and its total, and the chain that raises one of its cells.
ghost use Rattle.std.specs.Prelude.{◌≡◌, ◌+◌, ◌-◌, ◌<◌, ◌≤◌, [], ◌++◌, length, replicate, slice_index, slice_index_or, MatchOption};
ghost use Rattle.std.proofs.Props.{props};
ghost use Rattle.pages.specs.Answers.{line_of};
ghost use Rattle.search.specs.Chains.{ChainOf, no_alt, text, penalties, root, raised, last_raised, or_zero};
ghost use Rattle.bench.specs.Ranks.{chain_in};

use crate::ranks::Ranks;
use pages::{Alternative, Line, MOST_CELLS};

// The text and the penalties of a chain, held in place.
#[derive(Clone, Copy)]
pub(crate) struct Taken {
    pub(crate) text: [u8; MOST_CELLS],
    pub(crate) penalties: [u16; MOST_CELLS],
}

impl Taken {
    // Before anything is filled in.
    pub(crate) fn nothing() -> Taken
        ensures text { result.text ≡ replicate 24 0 }
        ensures penalties { result.penalties ≡ replicate 24 0 }
    {
        Taken {
            text: [0; MOST_CELLS],
            penalties: [0; MOST_CELLS],
        }
    }
}

// A chain with its line, both lent: what is lent is not copied on its way.
#[derive(Clone, Copy)]
pub(crate) struct Chain<'a> {
    pub(crate) line: &'a Line,
    pub(crate) ranks: &'a Ranks,
    ghost of_line: { ChainOf (line_of line.now) (chain_in (line_of line.now) ranks.now) } by { Prim.hlevel props },
}

impl<'a> Chain<'a> {
    ghost use Rattle.bench.specs.Chains.{cells_of, chosen};

    // The alternative that it takes in a cell.
    fn alternative(&self, cell: usize) -> Alternative
        requires { cell < length (cells_of self.now) }
        ensures { result ≡ slice_index_or (slice_index_or (cells_of self.now) cell []) (slice_index (chosen self.now) cell) no_alt }
    {
        self.line.cells()[cell].alternatives()[usize::from(self.ranks.rank(cell))]
    }

    pub(crate) fn penalty(&self, cell: usize) -> u16
        requires { cell < length (cells_of self.now) }
        ensures { result ≡ (slice_index_or (slice_index_or (cells_of self.now) cell []) (slice_index (chosen self.now) cell) no_alt).penalty }
    {
        self.alternative(cell).penalty
    }

    // Fills in what it takes in its cells, and leaves 0 past its end.
    pub(crate) fn take(&self, taken: &mut Taken)
        requires text { taken.old.text ≡ replicate 24 0 }
        requires penalties { taken.old.penalties ≡ replicate 24 0 }
        ensures text { taken.new.text ≡ text (cells_of self.now) (chosen self.now) ++ replicate (24 - length (cells_of self.now)) 0 }
        ensures penalties { taken.new.penalties ≡ penalties (cells_of self.now) (chosen self.now) ++ replicate (24 - length (cells_of self.now)) 0 }
    {
        // By the number: each cell has its place in both arrays.
        for cell in 0..self.line.cells().len() {
            let alternative = self.alternative(cell);
            taken.text[cell] = alternative.symbol;
            taken.penalties[cell] = alternative.penalty;
        }
    }

    // The last raised cell, or 0 where none is raised.
    pub(crate) fn last_raised(&self) -> usize
        ensures { result ≡ or_zero (last_raised (chosen self.now)) }
    {
        self.ranks.last_raised(self.line.cells().len())
    }

    // Its ranks with one cell raised by one more, where the cell has another alternative behind the one that is taken. An
    // `if`, since by `then` the closure would have to ask for what the test says.
    pub(crate) fn raised(&self, cell: usize) -> Option<Ranks>
        requires { cell < length (cells_of self.now) }
        ensures { MatchOption result (length (slice_index_or (cells_of self.now) cell []) ≤ slice_index (chosen self.now) cell + 1) (λ child. (slice_index (chosen self.now) cell + 1 < length (slice_index_or (cells_of self.now) cell [])) × ChainOf (cells_of self.now) (chain_in (cells_of self.now) child) × (chain_in (cells_of self.now) child ≡ raised (chosen self.now) cell)) }
    {
        let rank = self.ranks.rank(cell);
        if usize::from(rank) + 1 < self.line.cells()[cell].alternatives().len() {
            Some(self.ranks.raised(cell))
        } else {
            None
        }
    }
}
