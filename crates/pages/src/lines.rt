// A line of a page, held in place. What one holds is well-formed by its type, so that nothing that is
// given a line needs to check it.
ghost use Rattle.std.specs.Prelude.{◌≡◌, ◌≤◌, true, [], length};
ghost use Rattle.pages.specs.Few.{few_items};
ghost use Rattle.pages.specs.Shape.{cell_of, cells_in, well_formed_line};

use crate::few::Few;

pub const MOST_CELLS: usize = 24;

pub const MOST_ALTERNATIVES: usize = 8;

// One alternative of a cell: the symbol, and what it costs to take it.
#[derive(Clone, Copy, Debug, PartialEq, Eq)]
pub struct Alternative {
    pub symbol: u8,
    pub penalty: u16,
}

// Neither has a `Model`, for the reason that `Few` has none: `cell_of` and `line_of` say what they stand for.
#[derive(Clone, Copy)]
pub struct Cell {
    pub(crate) alternatives: Few<Alternative, MOST_ALTERNATIVES>,
}

#[derive(Clone, Copy)]
pub struct Line {
    pub(crate) cells: Few<Cell, MOST_CELLS>,
    ghost sound: { well_formed_line (cells_in cells) ≡ true },
}

impl Cell {
    // A cell without alternatives, to be filled. What stands in the places that are not in use is no
    // alternative, so `Alternative` has no `Default`.
    pub(crate) fn empty() -> Cell
        ensures { cell_of result ≡ [] }
    {
        let none = Alternative {
            symbol: 0,
            penalty: 0,
        };
        Cell {
            alternatives: Few::new(none),
        }
    }

    // The alternatives, from the first. What this and a line's `cells` share is `Few`.
    pub fn alternatives(&self) -> &[Alternative]
        ensures items { result.now ≡ cell_of self.now }
        ensures few { length result.now ≤ 8 }
    {
        self.alternatives.as_slice()
    }
}

impl Line {
    // The cells, from the first.
    pub fn cells(&self) -> &[Cell]
        ensures items { result.now ≡ few_items self.now.cells }
        ensures few { length result.now ≤ 24 }
    {
        self.cells.as_slice()
    }
}
