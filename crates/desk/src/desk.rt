// The desk at which a line is decided on: its reader, and what the owner sees of it.
ghost use Rattle.std.specs.Prelude.{◌≡◌, ℕ, IfOk, OnErr, Option, string_bytes};
ghost use Rattle.linewords.specs.Words.{words_of};
ghost use Rattle.reader.specs.Views.{view};
ghost use Rattle.reader.specs.Calls.{granting};
ghost use Rattle.desk.specs.declared.answers.Answer.{Answer};
ghost use Rattle.desk.specs.Answers.{IsRead};
ghost use Rattle.desk.specs.Desks.{Ready, Opens, Looks, GoesOn, Grants, room_of, up_to};
ghost use Rattle.desk.specs.Replies.{told_words, Asked, asked_words, Confirms, GrantsMore};
ghost use Rattle.desk.specs.Replies.{Answers, TellsOf};

use crate::answers::{Answer, read_answer};
use crate::reading::Reading;
use crate::words::{LEFT, Note, Unfound, plotted_line, reading_line};
use descriptions::classify;
use grammars::sheet::Sheet;
use grammars::{Both, Then};
use pages::MOST_CELLS;
use positions::Axis;
use reader::{Outcome, Reader, Refusal};
use refusalwords::refused;
use scores::Sum;
use std::alloc::{AllocError, Global};

// The most that cells times granted may come to, by the reader's own rule.
const MOST_GRANTED: usize = 4095;

// The positions on a sheet.
type Positions = Both<Then<Axis, Axis>, Sheet>;

/// What the last look came to.
#[derive(Clone, Copy)]
pub enum Standing {
    /// The reading that was found.
    Shown(Reading),
    /// The grant is used up, or there was no look yet.
    Spent,
    /// No chain is left.
    Exhausted,
}

/// Why there is no desk.
#[derive(Clone, Copy, Debug, PartialEq, Eq)]
pub enum Trouble {
    /// The reader refuses the load or the grant.
    Refused(Refusal),
    /// There is no memory for the reader.
    Memory(AllocError),
}

impl Trouble {
    /// The words for a refusal, of a bad page by the page that was loaded.
    ///
    /// # Errors
    ///
    /// Where there is no memory for the words, or there was none for the reader.
    pub fn told(self, heap: Global, page: &[u8]) -> Result<String, AllocError>
        ensures { IfOk result (λ s. TellsOf page.now self (string_bytes s)) }
    {
        match self {
            Trouble::Refused(refusal) => refused(heap, page, refusal),
            Trouble::Memory(error) => Err(error),
        }
    }
}

impl From<Refusal> for Trouble {
    ghost use Rattle.desk.specs.declared.desk.Trouble.TheVariants.{Refused};

    ghost from_gives = { λ r t. t ≡ Refused r };

    fn from(refusal: Refusal) -> Trouble {
        Trouble::Refused(refusal)
    }
}

impl From<AllocError> for Trouble {
    ghost use Rattle.desk.specs.declared.desk.Trouble.TheVariants.{Memory};

    ghost from_gives = { λ e t. t ≡ Memory e };

    fn from(error: AllocError) -> Trouble {
        Trouble::Memory(error)
    }
}

/// What the owner is told, and whether an answer is awaited.
#[derive(Drop)]
pub enum Reply {
    /// An answer is awaited.
    Ask(String),
    /// The line is at its end.
    Done(String),
}

/// The desk of an owner: a reader of the positions on a sheet, and what it came to last. Its calls
/// are made under `Ready`, which a desk that is opened is, and each call keeps.
#[derive(Drop)]
pub struct Desk {
    sheet: Sheet,
    reader: Reader<Positions, Sum>,
    standing: Standing,
}

impl Desk {
    /// A desk with the line of a page, which is counted from 0, under no grant yet.
    ///
    /// # Errors
    ///
    /// The refusal of the load, or that there is no memory for the reader.
    pub fn open(heap: Global, sheet: Sheet, page: &[u8], number: usize) -> Result<Desk, Trouble>
        ensures ready { IfOk result Ready }
        ensures opened { Opens sheet page.now number result }
    {
        let positions = Both {
            one: Then {
                cut: 8,
                head: Axis::Latitude,
                tail: Axis::Longitude,
            },
            other: sheet,
        };
        let mut reader = Reader::new(heap, positions, Sum)?;
        reader.load(page, number)?;
        Ok(Desk {
            sheet,
            reader,
            standing: Standing::Spent,
        })
    }

    /// How many more chains may be granted: so many and no more are granted at once.
    pub fn room(&self) -> usize
        requires ready { Ready self.now }
        ensures room { result ≡ room_of (view self.now.reader) }
        ensures law { (n : ℕ) →
            granting (view self.now.reader) n ≡ up_to (room_of (view self.now.reader)) n }
    {
        let report = self.reader.report();
        (MOST_GRANTED / report.cells.max(1)).saturating_sub(report.granted)
    }

    /// Grants so many more chains. What is shown stays.
    ///
    /// # Errors
    ///
    /// `Refusal::Grant` where it is 0 or more than [`Desk::room`]. The desk is then as it was.
    pub fn grant(&mut self, chains: usize) -> Result<(), Refusal>
        requires ready { Ready self.old }
        ensures ready { Ready self.new }
        ensures answer { result ≡ granting (view self.old.reader) chains }
        ensures grants { IfOk result (λ done. Grants chains self.old self.new) }
        ensures refused { OnErr result (self.new ≡ self.old) }
    {
        self.reader.grant(chains)
    }

    /// Looks on, to the next best reading. The one shown before is gone.
    // With a line loaded, a next is not refused.
    pub fn look(&mut self)
        requires ready { Ready self.old }
        ensures ready { Ready self.new }
        ensures looks { Looks self.old self.new }
    {
        let mut place = [0; MOST_CELLS];
        let outcome = self.reader.next(&mut place).unwrap();
        match outcome {
            Outcome::Found(_) => {
                let total = self.reader.last_total().unwrap();
                self.standing = Standing::Shown(Reading::at(&place, total));
            }
            Outcome::Spent => {
                self.standing = Standing::Spent;
            }
            Outcome::Exhausted => {
                self.standing = Standing::Exhausted;
            }
        }
    }

    /// What the owner sees, and is asked.
    ///
    /// # Errors
    ///
    /// Where there is no memory for the words, and nowhere else.
    pub fn told(&self, heap: Global) -> Result<String, AllocError>
        requires ready { Ready self.now }
        ensures { IfOk result (λ s. string_bytes s ≡ told_words self.now) }
    {
        match self.standing {
            Standing::Shown(reading) => {
                let text = String::from_utf8_lossy(heap, &reading.text)?;
                let kind = classify(&self.sheet, &reading.text);
                reading_line(heap, text.as_str(), kind, reading.total)
            }
            Standing::Spent => {
                let granted = self.reader.report().granted;
                match self.room() {
                    0 => Unfound::SpentAll { granted }.to_string(heap),
                    room => Unfound::Spent { granted, room }.to_string(heap),
                }
            }
            Standing::Exhausted => Unfound::Exhausted.to_string(heap),
        }
    }

    fn ask(&self, heap: Global, note: Note) -> Result<Reply, AllocError>
        requires ready { Ready self.now }
        ensures { IfOk result (Asked (asked_words note self.now)) }
    {
        let told = self.told(heap)?;
        let text = format!(in heap; "{note}\n{told}")?;
        Ok(Reply::Ask(text))
    }

    fn confirm(&self, heap: Global) -> Result<Reply, AllocError>
        requires ready { Ready self.now }
        ensures { IfOk result (Confirms self.now self.now.standing) }
    {
        match self.standing {
            Standing::Shown(reading) => {
                let kind = classify(&self.sheet, &reading.text);
                let text = plotted_line(heap, reading.plot(), kind)?;
                Ok(Reply::Done(text))
            }
            Standing::Spent | Standing::Exhausted => self.ask(heap, Note::NothingShown),
        }
    }

    fn look_on(&mut self, heap: Global) -> Result<Reply, AllocError>
        requires ready { Ready self.old }
        ensures ready { Ready self.new }
        ensures looks { Looks self.old self.new }
        ensures asked { IfOk result (Asked (told_words self.new)) }
    {
        self.look();
        let text = self.told(heap)?;
        Ok(Reply::Ask(text))
    }

    // A reading that is shown stays; without one the search goes on.
    fn go_on(&mut self)
        requires ready { Ready self.old }
        ensures ready { Ready self.new }
        ensures goes { GoesOn self.old.standing self.old self.new }
    {
        match self.standing {
            Standing::Shown(_) => {}
            Standing::Spent | Standing::Exhausted => self.look(),
        }
    }

    fn grant_more(&mut self, heap: Global, chains: usize) -> Result<Reply, AllocError>
        requires ready { Ready self.old }
        ensures ready { Ready self.new }
        ensures grants { IfOk result
            (GrantsMore chains (granting (view self.old.reader) chains) self.old self.new) }
    {
        if let Err(refusal) = self.grant(chains) {
            let room = self.room();
            return self.ask(heap, Note::Refused { refusal, room });
        }
        self.go_on();
        let granted = self.reader.report().granted;
        self.ask(heap, Note::Granted { chains, granted })
    }

    /// Does what the owner's line answers, if it is an answer.
    ///
    /// # Errors
    ///
    /// Where there is no memory for a word or the reply, and nowhere else. The desk may then have
    /// looked on or been granted more.
    pub fn answer(&mut self, heap: Global, line: &str) -> Result<Reply, AllocError>
        requires ready { Ready self.old }
        ensures ready { Ready self.new }
        ensures answers { IfOk result (λ reply. (o : Option Answer)
            × IsRead (words_of line.now) o × Answers o self.old self.new reply) }
    {
        match read_answer(heap, line)? {
            None => self.ask(heap, Note::NoAnswer),
            Some(Answer::Confirm) => self.confirm(heap),
            Some(Answer::Next) => self.look_on(heap),
            Some(Answer::Grant(chains)) => self.grant_more(heap, chains),
            Some(Answer::Leave) => Ok(Reply::Done(LEFT.to_string(heap)?)),
        }
    }
}
