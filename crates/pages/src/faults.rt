// Why a page is refused. A fault holds the place of the byte judged; each lower fault stands whole
// inside the upper one, with the number of the cell or the line that it was met in.
ghost use Rattle.std.specs.Prelude.{◌≡◌};
ghost use Rattle.pages.specs.Faults.{count_returns, alternative_returns, cell_returns, line_returns, page_returns, line_cell, page_line, page_cell};
ghost use Rattle.pages.specs.Faults.{number_alone, page_details};
ghost use Rattle.pages.specs.declared.faults.CellFault.TheVariants as CellFaults;
ghost use Rattle.pages.specs.declared.faults.LineFault.TheVariants as LineFaults;
ghost use Rattle.pages.specs.declared.faults.PageFault.TheVariants as PageFaults;

// Why a count is refused: it is missing, or out of its range.
#[derive(Clone, Copy, Debug, PartialEq, Eq)]
pub enum CountFault {
    Short(usize),
    Count(usize),
}

// Why an alternative is refused: a byte of it is missing, its symbol is out of range or was there before
// in its cell, or its penalty is below the one before.
#[derive(Clone, Copy, Debug, PartialEq, Eq)]
pub enum AlternativeFault {
    Short(usize),
    Symbol(usize),
    Twice(usize),
    Order(usize),
}

#[derive(Clone, Copy, Debug, PartialEq, Eq)]
pub enum CellFault {
    Count(CountFault),
    Alternative(AlternativeFault),
}

// A fault with the number of the cell or the line that it was met in.
#[derive(Clone, Copy, Debug, PartialEq, Eq)]
pub struct Numbered<F> {
    pub number: usize,
    pub fault: F,
}

#[derive(Clone, Copy, Debug, PartialEq, Eq)]
pub enum LineFault {
    Count(CountFault),
    Cell(Numbered<CellFault>),
}

#[derive(Clone, Copy, Debug, PartialEq, Eq)]
pub enum PageFault {
    Count(CountFault),
    Line(Numbered<LineFault>),
    Excess(usize),
}

// What a refusal returns: its number, and the place of the byte judged (of a penalty its high byte,
// of a missing byte the page's length). The numbers are those of docs/refusals.md; within the code
// a fault is its enum.
#[derive(Clone, Copy, Debug, PartialEq, Eq)]
pub struct Returned {
    pub number: u8,
    pub place: usize,
}

impl Returned {
    fn new(number: u8, place: usize) -> Returned
        ensures { result ≡ record { number = number; place = place } }
    {
        Returned { number, place }
    }
}

/// A refusal in numbers: the one that is returned, and the values that it has beside it.
/// docs/refusals.md has them all, and which of them have which values.
#[derive(Clone, Copy, Debug, PartialEq, Eq)]
pub struct Details {
    /// The number that is returned.
    pub number: u8,
    /// The place of the byte judged, from 0.
    pub place: Option<usize>,
    /// The number of the line that it was met in, from 0.
    pub line: Option<usize>,
    /// The number of the cell that it was met in, from 0.
    pub cell: Option<usize>,
}

impl Details {
    /// The number, and no value beside it.
    pub fn number_alone(number: u8) -> Details
        ensures { result ≡ number_alone number }
    {
        Details {
            number,
            place: None,
            line: None,
            cell: None,
        }
    }
}

impl CountFault {
    // Each fault has this method; a `From` into `Returned` would hold the same `match`.
    pub fn returned(&self) -> Returned
        ensures { result ≡ count_returns self.now }
    {
        match self {
            CountFault::Short(place) => Returned::new(1, *place),
            CountFault::Count(place) => Returned::new(2, *place),
        }
    }
}

impl AlternativeFault {
    pub fn returned(&self) -> Returned
        ensures { result ≡ alternative_returns self.now }
    {
        match self {
            AlternativeFault::Short(place) => Returned::new(1, *place),
            AlternativeFault::Symbol(place) => Returned::new(3, *place),
            AlternativeFault::Twice(place) => Returned::new(4, *place),
            AlternativeFault::Order(place) => Returned::new(5, *place),
        }
    }
}

impl CellFault {
    pub fn returned(&self) -> Returned
        ensures { result ≡ cell_returns self.now }
    {
        match self {
            CellFault::Count(fault) => fault.returned(),
            CellFault::Alternative(fault) => fault.returned(),
        }
    }
}

impl LineFault {
    pub fn returned(&self) -> Returned
        ensures { result ≡ line_returns self.now }
    {
        match self {
            LineFault::Count(fault) => fault.returned(),
            LineFault::Cell(cell) => cell.fault.returned(),
        }
    }

    // The number of the cell that the fault was met in.
    pub fn cell(&self) -> Option<usize>
        ensures { result ≡ line_cell self.now }
    {
        match self {
            LineFault::Count(_) => None,
            LineFault::Cell(cell) => Some(cell.number),
        }
    }
}

// Each method gives another part of the fault.
impl PageFault {
    pub fn returned(&self) -> Returned
        ensures { result ≡ page_returns self.now }
    {
        match self {
            PageFault::Count(fault) => fault.returned(),
            PageFault::Line(line) => line.fault.returned(),
            PageFault::Excess(place) => Returned::new(6, *place),
        }
    }

    // The number that is returned: 1 Short, 2 Count, 3 Symbol, 4 Twice, 5 Order, 6 Excess.
    pub fn number(&self) -> u8
        ensures { result ≡ (page_returns self.now).number }
    {
        self.returned().number
    }

    // The place of the byte judged.
    pub fn place(&self) -> usize
        ensures { result ≡ (page_returns self.now).place }
    {
        self.returned().place
    }

    // The number of the line that the fault was met in.
    pub fn line(&self) -> Option<usize>
        ensures { result ≡ page_line self.now }
    {
        match self {
            PageFault::Count(_) => None,
            PageFault::Line(line) => Some(line.number),
            PageFault::Excess(_) => None,
        }
    }

    // The number of the cell that it was met in.
    pub fn cell(&self) -> Option<usize>
        ensures { result ≡ page_cell self.now }
    {
        match self {
            PageFault::Count(_) => None,
            PageFault::Line(line) => line.fault.cell(),
            PageFault::Excess(_) => None,
        }
    }

    /// All of these at once: the number, the place, and the line and the cell where there are any.
    pub fn details(&self) -> Details
        ensures { result ≡ page_details self.now }
    {
        let Returned { number, place } = self.returned();
        Details {
            place: Some(place),
            line: self.line(),
            cell: self.cell(),
            ..Details::number_alone(number)
        }
    }
}

// Each fault is put into the one above it, as `?` does. They are written out, since a derived `From` says nothing of
// what it gives.
impl From<CountFault> for CellFault {
    ghost from_gives = { λ e r. r ≡ CellFaults.Count e };

    fn from(fault: CountFault) -> CellFault {
        CellFault::Count(fault)
    }
}

impl From<AlternativeFault> for CellFault {
    ghost from_gives = { λ e r. r ≡ CellFaults.Alternative e };

    fn from(fault: AlternativeFault) -> CellFault {
        CellFault::Alternative(fault)
    }
}

impl From<CountFault> for LineFault {
    ghost from_gives = { λ e r. r ≡ LineFaults.Count e };

    fn from(fault: CountFault) -> LineFault {
        LineFault::Count(fault)
    }
}

impl From<Numbered<CellFault>> for LineFault {
    ghost from_gives = { λ e r. r ≡ LineFaults.Cell e };

    fn from(fault: Numbered<CellFault>) -> LineFault {
        LineFault::Cell(fault)
    }
}

impl From<CountFault> for PageFault {
    ghost from_gives = { λ e r. r ≡ PageFaults.Count e };

    fn from(fault: CountFault) -> PageFault {
        PageFault::Count(fault)
    }
}

impl From<Numbered<LineFault>> for PageFault {
    ghost from_gives = { λ e r. r ≡ PageFaults.Line e };

    fn from(fault: Numbered<LineFault>) -> PageFault {
        PageFault::Line(fault)
    }
}
