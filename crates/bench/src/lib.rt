// The bench of a reader: chains of a line that come next, in standing order. A look takes the first of them, and leaves
// its children in its place.
#![tactic(auto)]

ghost use Rattle.std.specs.Prelude.{◌≡◌, ℕ, ◌+◌, ◌<◌, ◌≤◌, true, false, Contains, List, [], ◌∷◌, ◌++◌, length, take, drop, IfOk, MatchOption, ◌==◌};
ghost use Rattle.std.specs.BinaryHeap.{heap_items};
ghost use Rattle.bench.specs.Order.{Ready, First};

use chains::{Chain, Taken};
use grammars::Grammar;
use pages::{Line, MOST_CELLS};
use places::Place;
use ranks::Ranks;
use scores::Score;
use std::alloc::{AllocError, Global};
use std::collections::BinaryHeap;
use std::marker::PhantomData;

mod chains;
mod places;
mod ranks;

// How many places a bench has.
pub const PLACES: usize = 4096;

// The text and the total of a chain; the text fills as many bytes as the line has cells. It is held in place: a search
// asks for no memory.
#[derive(Clone, Copy)]
pub struct Reading {
    pub text: [u8; MOST_CELLS],
    pub total: u64,
}

// What a search comes to: how many chains have been looked at by then, and what was found.
#[derive(Clone, Copy)]
pub struct Sought {
    pub looked: usize,
    pub reading: Option<Reading>,
}

// What a look comes to.
#[derive(Clone, Copy)]
struct Looked {
    reading: Reading,
    is_admitted: bool,
}

// Room for 4,096 places, got when the bench is made and never asked for again. What it holds is of a
// line that the bench does not have, and stands in the order of a score: that, and the room, is what
// `Holds` says, a condition of the calls.
#[derive(Drop)]
pub struct Bench<S: Score> {
    places: BinaryHeap<Place<S>>,
}

// How many cells of the text have an allowed opening before them, where the one before `first` is allowed. Every beginning of
// an allowed opening is allowed, so the grammar is asked by halves.
fn open_cells<G: Grammar>(grammar: &G, text: &[u8], first: usize) -> usize
    requires first { first ≤ length text.now }
    requires open { (G.meaning grammar.now).allows (take first text.now) ≡ true }
    ensures within { (first ≤ result) × (result ≤ length text.now) }
    ensures open { (cell : ℕ) → cell < result → (G.meaning grammar.now).allows (take cell text.now) ≡ true }
    ensures shut { result < length text.now → (G.meaning grammar.now).allows (take result text.now) ≡ false }
{
    let mut open = first;
    let mut shut = text.len();
    while open + 1 < shut {
        let middle = open + (shut - open) / 2;
        if grammar.is_allowed(&text[..middle]) {
            open = middle;
        } else {
            shut = middle;
        }
    }
    shut
}

impl<S: Score> Bench<S> {
    ghost use Rattle.std.specs.List.Sorted.{IsPermutation};
    ghost use Rattle.grammars.specs.Grammars.{Sets, Lawful};
    ghost use Rattle.pages.specs.Answers.{line_of};
    ghost use Rattle.search.specs.Chains.{text as text_of, penalties as penalties_of, total as total_of, live, children};
    ghost use Rattle.bench.specs.Chains.{cells_of, chosen};
    ghost use Rattle.bench.specs.Held.{in_use, Roomy, on_bench, beside, Holds, Seen};
    ghost use Rattle.bench.specs.Searched.{AgreesAt, sought_of};

    pub fn new(heap: Global) -> Result<Bench<S>, AllocError>
        ensures { IfOk result (λ b. Roomy b × (in_use b ≡ 0)) }
    {
        let places = BinaryHeap::with_capacity(heap, PLACES)?;
        Ok(Bench { places })
    }

    // Puts a chain onto the bench, with its total. The room asked for is each call's own: here a place, for children as many
    // as there are cells, for a look one less.
    fn put(&mut self, chain: Chain<'_>, total: u64)
        requires holds { Holds S.Score.meaning (cells_of chain) self.old (on_bench (cells_of chain) self.old) }
        requires total { total ≡ total_of S.Score.meaning (cells_of chain) (chosen chain) }
        requires room { length (on_bench (cells_of chain) self.old) < 4096 }
        ensures { Holds S.Score.meaning (cells_of chain.entry) self.new (on_bench (cells_of chain.entry) self.old ++ chosen chain.entry ∷ []) }
    {
        self.places.push(Place::of(chain, total)).unwrap();
    }

    // Puts a chain onto the bench in place of the first.
    fn put_first(&mut self, chain: Chain<'_>, total: u64)
        requires holds { Holds S.Score.meaning (cells_of chain) self.old (on_bench (cells_of chain) self.old) }
        requires total { total ≡ total_of S.Score.meaning (cells_of chain) (chosen chain) }
        requires some { 0 < in_use self.old }
        ensures { Holds S.Score.meaning (cells_of chain.entry) self.new (drop 1 (on_bench (cells_of chain.entry) self.old) ++ chosen chain.entry ∷ []) }
    {
        let mut first = self.places.peek_mut().unwrap();
        *first = Place::of(chain, total);
    }

    // Leaves the chain alone in which no cell is raised.
    pub fn begin(&mut self, line: &Line)
        requires room { Roomy self.old }
        ensures { (g : Sets) → Lawful g → AgreesAt S.Score.meaning g.allows (line_of line.now) 0 0 self.new }
    {
        self.places.clear();
        let ranks = Ranks::flat();
        let chain = Chain {
            line,
            ranks: &ranks,
        };
        let mut taken = Taken::nothing();
        chain.take(&mut taken);
        let total = scores::total::<S>(&taken.penalties[..line.cells().len()]);
        self.put(chain, total);
    }

    pub fn is_empty(&self) -> bool
        ensures { result ≡ (in_use self.now == 0) }
    {
        self.places.is_empty()
    }

    pub fn len(&self) -> usize
        ensures { result ≡ in_use self.now }
    {
        self.places.len()
    }

    // The place that stands before all others.
    fn first(&self) -> Option<&Place<S>>
        requires { Ready S.Score.meaning (heap_items self.now.places) }
        ensures { MatchOption result (heap_items self.now.places ≡ []) (λ x. First S.Score.meaning x.now (heap_items self.now.places) × (heap_items self.now.places ≡ x.now ∷ drop 1 (heap_items self.now.places))) }
    {
        self.places.peek()
    }

    // Takes the first chain off the bench.
    fn remove_first(&mut self, line: &Line)
        requires holds { Holds S.Score.meaning (line_of line.now) self.old (on_bench (line_of line.now) self.old) }
        ensures { Holds S.Score.meaning (line_of line.now) self.new (drop 1 (on_bench (line_of line.now) self.old)) }
    {
        self.places.pop();
    }

    // Puts a child onto the bench, the first child in place of its parent, which is the first there.
    fn put_child(&mut self, is_first: bool, child: Chain<'_>, total: u64)
        requires holds { Holds S.Score.meaning (cells_of child) self.old (on_bench (cells_of child) self.old) }
        requires total { total ≡ total_of S.Score.meaning (cells_of child) (chosen child) }
        requires some { 0 < in_use self.old }
        requires room { length (beside is_first (cells_of child) self.old) < 4096 }
        ensures { Holds S.Score.meaning (cells_of child.entry) self.new (beside is_first (cells_of child.entry) self.old ++ chosen child.entry ∷ []) }
    {
        if is_first {
            self.put_first(child, total);
        } else {
            self.put(child, total);
        }
    }

    // Leaves the children of the first chain on the bench in its place: in each, one cell from the last raised one on is
    // raised by one more. Past the first opening that the grammar does not allow there are none. Text and penalties are the
    // parent's, which the caller has worked out already: a child's total differs from the parent's from the raised cell on.
    // Says whether the openings before all cells are allowed: where one is not, the text is not admitted.
    fn exchange<G: Grammar>(
        &mut self,
        grammar: &G,
        parent: Chain<'_>,
        text: &[u8],
        penalties: &[u16],
    ) -> bool
        requires holds { Holds S.Score.meaning (cells_of parent) self.old (on_bench (cells_of parent) self.old) }
        requires text { text.now ≡ text_of (cells_of parent) (chosen parent) }
        requires penalties { penalties.now ≡ penalties_of (cells_of parent) (chosen parent) }
        requires live { live (G.Grammar.meaning grammar.now).allows (cells_of parent) (chosen parent) ≡ true }
        requires some { 0 < in_use self.old }
        requires room { length (on_bench (cells_of parent) self.old) + length (cells_of parent) ≤ 4097 }
        ensures shut { result ≡ false → (G.Grammar.meaning grammar.now).admits text.now ≡ false }
        ensures holds { Holds S.Score.meaning (cells_of parent.entry) self.new (drop 1 (on_bench (cells_of parent.entry) self.old) ++ children (G.Grammar.meaning grammar.now).allows (cells_of parent.entry) (chosen parent.entry)) }
    {
        let first = parent.last_raised();
        // The total of the penalties before the cell.
        let mut before = scores::total::<S>(&penalties[..first]);
        let mut is_first = true;
        let open = open_cells(grammar, text, first);
        for cell in first..open {
            if let Some(ranks) = parent.raised(cell) {
                let child = Chain {
                    line: parent.line,
                    ranks: &ranks,
                };
                let through = S::step(before, child.penalty(cell));
                let total = scores::total_from::<S>(through, &penalties[cell + 1..]);
                self.put_child(is_first, child, total);
                is_first = false;
            }
            before = S::step(before, penalties[cell]);
        }
        // Without children the parent stands there still.
        if is_first {
            self.remove_first(parent.line);
        }
        open == text.len()
    }

    // Looks at the first chain on the bench, and leaves its children in its place. The grammar is asked for the text only
    // where no opening has told already that it is not admitted. Grammar and line are two arguments, as the caller has them
    // apart.
    fn look<G: Grammar>(&mut self, grammar: &G, line: &Line) -> Option<Looked>
        requires holds { Holds S.Score.meaning (line_of line.now) self.old (on_bench (line_of line.now) self.old) }
        requires room { length (on_bench (line_of line.now) self.old) + length (line_of line.now) ≤ 4097 }
        requires live { (c : List ℕ) → Contains (on_bench (line_of line.now) self.old) c → live (G.Grammar.meaning grammar.now).allows (line_of line.now) c ≡ true }
        ensures { MatchOption result ((on_bench (line_of line.now) self.old ≡ []) × Holds S.Score.meaning (line_of line.now) self.new []) (λ looked. Seen S.Score.meaning (G.Grammar.meaning grammar.now).allows (line_of line.now) self.old self.new looked.reading × (looked.is_admitted ≡ (G.Grammar.meaning grammar.now).admits (take (length (line_of line.now)) looked.reading.text))) }
    {
        let place = self.first()?;
        let total = place.grade.total;
        let ranks = place.ranks.0;
        let chain = Chain {
            line,
            ranks: &ranks,
        };
        let mut taken = Taken::nothing();
        chain.take(&mut taken);
        let cells = line.cells().len();
        let text = &taken.text[..cells];
        let is_open = self.exchange(grammar, chain, text, &taken.penalties[..cells]);
        Some(Looked {
            reading: Reading {
                text: taken.text,
                total,
            },
            is_admitted: is_open && grammar.is_admitted(text),
        })
    }

    // Looks at chains up to one that the grammar admits, while fewer than `granted` have been looked at. Grammar and line
    // are two arguments, as in `look`.
    pub fn seek<G: Grammar>(
        &mut self,
        grammar: &G,
        line: &Line,
        looked: usize,
        granted: usize,
    ) -> Sought
        requires agrees { AgreesAt S.Score.meaning (G.Grammar.meaning grammar.now).allows (line_of line.now) looked granted self.old }
        ensures agrees { AgreesAt S.Score.meaning (G.Grammar.meaning grammar.now).allows (line_of line.now) result.looked granted self.new }
        ensures sought { result ≡ sought_of S.Score.meaning (G.Grammar.meaning grammar.now) (line_of line.now) looked granted }
    {
        // By the number: how many have been looked at is a part of the answer.
        for k in looked..granted {
            // No `?`: an empty bench ends the search with an answer too.
            let Some(look) = self.look(grammar, line) else {
                return Sought {
                    looked: k,
                    reading: None,
                };
            };
            if look.is_admitted {
                return Sought {
                    looked: k + 1,
                    reading: Some(look.reading),
                };
            }
        }
        Sought {
            looked: granted,
            reading: None,
        }
    }
}
