// The reader and its calls.
ghost use Rattle.std.specs.Prelude.{◌≡◌, IfOk, OnErr};
ghost use Rattle.pages.specs.Answers.{line_of};
ghost use Rattle.pages.specs.Shape.{cell_of};
ghost use Rattle.bench.specs.Held.{in_use};
ghost use Rattle.reader.specs.Views.{view, unloaded, Kept, Agrees};
ghost use Rattle.reader.specs.Calls.{light, takes, loading, FromPage, answered, loaded_into, granting, granted_more, next_of, Reports, writing, ReadsBack};

use crate::refusals::Refusal;
use bench::Bench;
use grammars::Grammar;
use pages::{Cell, Line, line_of_page, write_line};
use scores::Score;
use std::alloc::{AllocError, Global};

// The most that cells times granted may come to: no bench then runs out of places.
const MOST_GRANTED: usize = 4095;

// No `Model`, of which `view` would be the value: a clause would see nothing else, and `Agrees` speaks of the bench.
#[derive(Drop)]
pub struct Reader<G, S: Score> {
    grammar: G,
    score: S,
    bench: Bench<S>,
    line: Option<Line>,
    // `load` alone clears these four, and `View` has them one by one: a struct around them would say no more.
    granted: usize,
    looked: usize,
    handed: usize,
    last_total: Option<u64>,
}

// What a next comes to; what is found has as many bytes as the line has cells.
#[derive(Clone, Copy, Debug, PartialEq, Eq)]
pub enum Outcome {
    Found(usize),
    Spent,
    Exhausted,
}

// How many cells the line has, and how many chains were granted, looked at and handed out since it was loaded; and how
// many places of the bench are in use.
#[derive(Clone, Copy, Debug, PartialEq, Eq)]
pub struct Report {
    pub cells: usize,
    pub granted: usize,
    pub looked: usize,
    pub handed: usize,
    pub places: usize,
}

// Whether no penalty of the cell is above the highest that the score takes.
fn is_light<S: Score>(cell: &Cell) -> bool
    ensures { result ≡ light S.meaning.highest_penalty (cell_of cell.now) }
{
    cell.alternatives()
        .iter()
        .all(|alternative| alternative.penalty <= S::HIGHEST_PENALTY)
}

// Whether the score takes the line: its number of cells, and each penalty.
fn is_taken<S: Score>(line: &Line) -> bool
    ensures { result ≡ takes S.meaning (line_of line.now) }
{
    let cells = line.cells();
    cells.len() <= S::MOST_CELLS && cells.iter().all(|cell| is_light::<S>(cell))
}

// That a reader agrees with its bench is a named condition, `Agrees`, and no invariant of the type. What is kept, and that a
// refusal alters nothing, is each call's own promise.
impl<G: Grammar + Drop, S: Score + Drop> Reader<G, S> {
    // A reader without a line. This is the only moment when memory can be wanting.
    pub fn new(heap: Global, grammar: G, score: S) -> Result<Reader<G, S>, AllocError>
        ensures { IfOk result (λ x. (x.grammar ≡ grammar) × (x.score ≡ score) × (view x ≡ unloaded) × Agrees S.meaning (G.meaning grammar) x) }
    {
        let bench = Bench::new(heap)?;
        Ok(Reader {
            grammar,
            score,
            bench,
            line: None,
            granted: 0,
            looked: 0,
            handed: 0,
            last_total: None,
        })
    }

    // Takes the line of a page. The whole page is judged first, then the line number, then the line by the score.
    pub fn load(&mut self, page: &[u8], number: usize) -> Result<(), Refusal>
        requires agrees { Agrees S.meaning (G.meaning self.old.grammar) self.old }
        ensures answer { result ≡ answered (loading S.meaning page.now number) }
        ensures state { view self.new ≡ loaded_into (view self.old) (loading S.meaning page.now number) }
        ensures same_bytes { FromPage page.now number (loading S.meaning page.now number) }
        ensures agrees { Agrees S.meaning (G.meaning self.old.grammar) self.new }
        ensures kept { Kept self.old self.new }
        ensures refused { OnErr result (self.new ≡ self.old) }
    {
        let line = line_of_page(page, number)?.ok_or(Refusal::LineNumber)?;
        if !is_taken::<S>(&line) {
            return Err(Refusal::Score);
        }
        self.bench.begin(&line);
        self.line = Some(line);
        self.granted = 0;
        self.looked = 0;
        self.handed = 0;
        self.last_total = None;
        Ok(())
    }

    // Lets so many more chains be looked at.
    pub fn grant(&mut self, chains: usize) -> Result<(), Refusal>
        requires agrees { Agrees S.meaning (G.meaning self.old.grammar) self.old }
        ensures answer { result ≡ granting (view self.old) chains }
        ensures state { view self.new ≡ granted_more (view self.old) chains (granting (view self.old) chains) }
        ensures agrees { Agrees S.meaning (G.meaning self.old.grammar) self.new }
        ensures kept { Kept self.old self.new }
        ensures refused { OnErr result (self.new ≡ self.old) }
    {
        let cells = self.line.as_ref().ok_or(Refusal::NoLine)?.cells().len();
        if !(1..=MOST_GRANTED).contains(&chains) || cells * (self.granted + chains) > MOST_GRANTED {
            return Err(Refusal::Grant);
        }
        self.granted += chains;
        Ok(())
    }

    // Looks at live chains in their order, up to the first admissible one, which it writes.
    pub fn next(&mut self, place: &mut [u8]) -> Result<Outcome, Refusal>
        requires agrees { Agrees S.meaning (G.meaning self.old.grammar) self.old }
        ensures answer { result ≡ (next_of S.meaning (G.meaning self.old.grammar) (view self.old) place.old).answer }
        ensures state { view self.new ≡ (next_of S.meaning (G.meaning self.old.grammar) (view self.old) place.old).state }
        ensures place { place.new ≡ (next_of S.meaning (G.meaning self.old.grammar) (view self.old) place.old).place }
        ensures agrees { Agrees S.meaning (G.meaning self.old.grammar) self.new }
        ensures kept { Kept self.old self.new }
        ensures refused { OnErr result (self.new ≡ self.old) }
    {
        let line = self.line.as_ref().ok_or(Refusal::NoLine)?;
        let cells = line.cells().len();
        if place.len() < cells {
            return Err(Refusal::Place);
        }
        let sought = self
            .bench
            .seek(&self.grammar, line, self.looked, self.granted);
        self.looked = sought.looked;
        match sought.reading {
            Some(reading) => {
                self.handed += 1;
                self.last_total = Some(reading.total);
                place[..cells].copy_from_slice(&reading.text[..cells]);
                Ok(Outcome::Found(cells))
            }
            None if self.bench.is_empty() => Ok(Outcome::Exhausted),
            None => Ok(Outcome::Spent),
        }
    }

    // The figures of the line, and the places of the bench that are in use.
    pub fn report(&self) -> Report
        requires agrees { Agrees S.meaning (G.meaning self.now.grammar) self.now }
        ensures told { Reports (view self.now) result }
        ensures places { result.places ≡ in_use self.now.bench }
    {
        Report {
            cells: self.line.as_ref().map_or(0, |line| line.cells().len()),
            granted: self.granted,
            looked: self.looked,
            handed: self.handed,
            places: self.bench.len(),
        }
    }

    // The total of the last reading handed out since the line was loaded.
    pub fn last_total(&self) -> Option<u64>
        ensures { result ≡ (view self.now).last_total }
    {
        self.last_total
    }

    // Writes the bytes of the line from the place's start, and answers how many they are.
    pub fn write_line(&self, place: &mut [u8]) -> Result<usize, Refusal>
        ensures answer { result ≡ (writing (view self.now).line place.old).0 }
        ensures place { place.new ≡ (writing (view self.now).line place.old).1 }
        ensures reads_back { ReadsBack result (view self.now).line place.new }
    {
        let line = self.line.as_ref().ok_or(Refusal::NoLine)?;
        Ok(write_line(line, place)?)
    }
}
