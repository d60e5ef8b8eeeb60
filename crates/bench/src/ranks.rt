// A chain as it lies on the bench.
ghost use Rattle.std.specs.Prelude.{◌≡◌, ◌+◌, ◌<◌, ◌≤◌, length, take, replicate, slice_index, slice_set};
ghost use Rattle.search.specs.Chains.{last_raised, or_zero};
ghost use Rattle.bench.specs.Ranks.{ranks_of};

use pages::MOST_CELLS;

// The rank that a chain takes in each cell, and 0 past the last cell, held in place. They are ordered by the rank in the
// first cell where they differ. Each call asks for a cell below 24 as an array's index does: a type for such a number
// would be asked for it where it is made. No `Model`, as `ranks_of` names the one field, and the type is the crate's own.
#[derive(Clone, Copy, PartialEq, Eq, PartialOrd, Ord)]
pub(crate) struct Ranks {
    each: [u8; MOST_CELLS],
}

impl Ranks {
    // Those of the chain in which no cell is raised.
    pub(crate) fn flat() -> Ranks
        ensures { ranks_of result ≡ replicate 24 0 }
    {
        Ranks {
            each: [0; MOST_CELLS],
        }
    }

    pub(crate) fn rank(&self, cell: usize) -> u8
        requires { cell < 24 }
        ensures value { result ≡ slice_index (ranks_of self.now) cell }
        ensures whole { length (ranks_of self.now) ≡ 24 }
    {
        self.each[cell]
    }

    // With the rank of one cell raised by one.
    pub(crate) fn raised(&self, cell: usize) -> Ranks
        requires cell { cell < 24 }
        requires fits { slice_index (ranks_of self.now) cell < 255 }
        ensures { ranks_of result ≡ slice_set (ranks_of self.now) cell (slice_index (ranks_of self.now) cell + 1) }
    {
        let mut each = self.each;
        each[cell] += 1;
        Ranks { each }
    }

    // The last raised one of the first cells, or 0 where none of them is raised.
    pub(crate) fn last_raised(&self, cells: usize) -> usize
        requires { cells ≤ 24 }
        ensures { result ≡ or_zero (last_raised (take cells (ranks_of self.now))) }
    {
        self.each[..cells]
            .iter()
            .rposition(|rank| *rank != 0)
            .unwrap_or(0)
    }
}
