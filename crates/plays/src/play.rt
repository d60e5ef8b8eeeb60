// A script made ready for `run`.
ghost use Rattle.std.specs.Prelude.{◌≡◌, ℕ, List, ◌++◌, replicate};
ghost use Rattle.std.specs.Prelude.{IfOk, IfErr, OnOk, OnErr, MatchResult, string_bytes};
ghost use Rattle.std.specs.Io.KnownBytes.{Consumes, IsAtEnd};
ghost use Rattle.runs.specs.declared.rows.Call.TheVariants as Calls;
ghost use Rattle.runs.specs.Runs.{Runs};
ghost use Rattle.settings.specs.Settings.{meaning_of, sets_of};
ghost use Rattle.plays.specs.Plays.{Fresh, Added, LoadAdded, Unchanged, behind};
ghost use Rattle.plays.specs.Sources.{Fails};
ghost use Rattle.plays.specs.Words.{call_lines};

use crate::source::{LoadFault, Source, read_behind};
use crate::words::line;
use pages::MOST_CELLS;
use runs::{Call, Part, Row};
use settings::Setting;
use std::alloc::{AllocError, Global};

/// The calls of a script as rows and as they were written, one of each to a call, and the bytes
/// that the rows name parts of. A call that cannot be added leaves a play as it was.
#[derive(Drop)]
pub struct Play<'a> {
    texts: Vec<&'a str>,
    rows: Vec<Row>,
    pages: Vec<u8>,
    places: Vec<u8>,
}

impl<'a> Play<'a> {
    /// No call yet.
    pub fn new(heap: Global) -> Play<'a>
        ensures { Fresh result }
    {
        Play {
            texts: Vec::new(heap),
            rows: Vec::new(heap),
            pages: Vec::new(heap),
            places: Vec::new(heap),
        }
    }

    fn add(&mut self, text: &'a str, call: Call) -> Result<(), AllocError>
        ensures added { OnOk result (Added text.entry call self.old self.new) }
        ensures err { OnErr result ((self.new.texts.items ≡ self.old.texts.items)
            × (self.new.rows.items ≡ self.old.rows.items)) }
        ensures kept { (self.new.pages ≡ self.old.pages) × (self.new.places ≡ self.old.places) }
    {
        let count = self.texts.len();
        self.texts.push(text)?;
        if self.rows.push(Row { call, answer: None }).is_err() {
            self.texts.truncate(count);
            return Err(AllocError);
        }
        Ok(())
    }

    /// A load of a line of a page, counted from 0. The page is all that the source still gives,
    /// and its bytes are put behind those of the pages before. After an error the play is as it
    /// was, and what the source gave until then is gone.
    pub fn load<S: Source>(
        &mut self,
        text: &'a str,
        page: &mut S,
        number: usize,
    ) -> Result<(), LoadFault>
        ensures added { OnOk result ((bytes : List ℕ)
            × Consumes (S.remaining page.old) (S.remaining page.new) bytes
            × LoadAdded text.entry number bytes self.old self.new) }
        ensures end { OnOk result (IsAtEnd (S.remaining page.new)) }
        ensures failed { IfErr result (Fails S.remaining S.may_fail page.old) }
        ensures kept { OnErr result (Unchanged self.old self.new) }
    {
        let start = self.pages.len();
        if let Err(fault) = read_behind(page, &mut self.pages) {
            self.pages.truncate(start);
            return Err(fault);
        }
        let page = Part {
            start,
            length: self.pages.len() - start,
        };
        if self.add(text, Call::Load { page, number }).is_err() {
            self.pages.truncate(start);
            return Err(LoadFault::Memory(AllocError));
        }
        Ok(())
    }

    /// A grant of so many chains. The only error is want of memory.
    pub fn grant(&mut self, text: &'a str, chains: usize) -> Result<(), AllocError>
        ensures added { OnOk result ((self.new.pages ≡ self.old.pages)
            × (self.new.places ≡ self.old.places)
            × Added text.entry (Calls.Grant chains) self.old self.new) }
        ensures kept { OnErr result (Unchanged self.old self.new) }
    {
        self.add(text, Call::Grant { chains })
    }

    /// A next, with a place of its own behind the others that has room for the longest line. The
    /// only error is want of memory.
    pub fn next(&mut self, text: &'a str) -> Result<(), AllocError>
        ensures added { OnOk result ((self.new.pages ≡ self.old.pages)
            × (self.new.places.items ≡ self.old.places.items ++ replicate 24 0)
            × Added text.entry (Calls.Next (behind self.old.places.items 24)) self.old self.new) }
        ensures kept { OnErr result (Unchanged self.old self.new) }
    {
        let start = self.places.len();
        let place = Part {
            start,
            length: MOST_CELLS,
        };
        self.places.extend_from_slice(&[0; MOST_CELLS])?;
        if self.add(text, Call::Next { place }).is_err() {
            self.places.truncate(start);
            return Err(AllocError);
        }
        Ok(())
    }

    /// A report. The only error is want of memory.
    pub fn report(&mut self, text: &'a str) -> Result<(), AllocError>
        ensures added { OnOk result ((self.new.pages ≡ self.old.pages)
            × (self.new.places ≡ self.old.places)
            × Added text.entry Calls.Report self.old self.new) }
        ensures kept { OnErr result (Unchanged self.old self.new) }
    {
        self.add(text, Call::Report)
    }

    /// Makes all the calls, on one new reader. The only error is want of memory for the reader;
    /// then no call is made.
    pub fn run(&mut self, heap: Global, setting: Setting) -> Result<(), AllocError>
        ensures law { MatchResult result
            (λ _. Runs (meaning_of setting.scoring) (sets_of setting.wanted)
            self.old.pages.items self.old.places.items
            self.old.rows.items self.new.rows.items self.new.places.items)
            (λ _. (self.new.rows.items ≡ self.old.rows.items)
            × (self.new.places.items ≡ self.old.places.items)) }
        ensures kept { (self.new.texts ≡ self.old.texts) × (self.new.pages ≡ self.old.pages) }
    {
        setting.run(
            heap,
            self.pages.as_slice(),
            self.places.as_mut_slice(),
            self.rows.as_mut_slice(),
        )
    }

    /// The lines of the calls that were made, in their order. The only error is want of memory.
    pub fn lines(&self, heap: Global) -> Result<String, AllocError>
        ensures { IfOk result (λ s. string_bytes s
            ≡ call_lines self.now.pages.items self.now.places.items
            self.now.texts.items self.now.rows.items) }
    {
        let mut lines = String::new(heap);
        for (text, row) in self.texts.iter().zip(self.rows.iter()) {
            let line = line(
                heap,
                self.pages.as_slice(),
                self.places.as_slice(),
                text,
                row,
            )?;
            lines.push_str(line.as_str())?;
        }
        Ok(lines)
    }
}
