// Reads a page: its count of lines, the lines one after another, and nothing behind them.
ghost use Rattle.std.specs.Prelude.{◌≡◌, IfErr};
ghost use Rattle.std.specs.Iterator.{YieldsFirstBy, item_count};
ghost use Rattle.pages.specs.Reading.{read_page, line_numbered};
ghost use Rattle.pages.specs.Answers.{Opened, NextLine, Ahead, answer_of, answers_left, GoesThrough, found_line};
ghost use Rattle.pages.specs.Laws.{Accepted, Refused, FirstWrong};

use crate::faults::{Numbered, PageFault};
use crate::line_reader::{read_count_of, read_line_at};
use crate::lines::Line;

pub const MOST_LINES: usize = 40;

// The lines of a page, one after another: `number` of `count` are read, and the next begins at `place`. These are the state
// of a cursor over the lent bytes.
#[derive(Drop)]
pub struct PageLines<'a> {
    bytes: &'a [u8],
    count: usize,
    number: usize,
    place: usize,
}

impl<'a> PageLines<'a> {
    // Reads the count of lines, and stands before the first.
    pub fn open(bytes: &'a [u8]) -> Result<PageLines<'a>, PageFault>
        ensures { Opened result bytes.now }
    {
        let count = read_count_of(bytes, 0, MOST_LINES)?;
        Ok(PageLines {
            bytes,
            count,
            number: 0,
            place: 1,
        })
    }

    // The next line; behind the last, None where the page ends there.
    pub fn next_line(&mut self) -> Result<Option<Line>, PageFault>
        ensures answer { NextLine result self.old self.new }
        ensures ahead { Ahead result self.old self.new }
    {
        if self.number < self.count {
            let number = self.number;
            let read = read_line_at(self.bytes, self.place);
            let (line, next) = read.map_err(|fault| Numbered { number, fault })?;
            // The state that the next call goes on from, which is no count of a loop.
            self.number += 1;
            self.place = next;
            return Ok(Some(line));
        }
        if self.place < self.bytes.len() {
            return Err(PageFault::Excess(self.place));
        }
        Ok(None)
    }
}

// The lines of a page as an iterator: each line, and after a fault nothing more. `left` is what is not yet
// read, and None behind the last line or the fault.
#[derive(Drop)]
pub struct IntoLines<'a> {
    left: Option<PageLines<'a>>,
}

impl<'a> IntoIterator for PageLines<'a> {
    type Item = Result<Line, PageFault>;

    type IntoIter = IntoLines<'a>;

    ghost into_iter_gives = { λ p it. GoesThrough p it.left };

    fn into_iter(self) -> IntoLines<'a> {
        IntoLines { left: Some(self) }
    }
}

impl<'a> Iterator for IntoLines<'a> {
    type Item = Result<Line, PageFault>;

    ghost next_gives = { YieldsFirstBy answer_of (λ it. answers_left it.left) };

    ghost remaining = { item_count (λ it. answers_left it.left) };

    fn next(&mut self) -> Option<Result<Line, PageFault>> {
        let mut lines = self.left.take()?;
        let answer = lines.next_line().transpose()?;
        if answer.is_ok() {
            self.left = Some(lines);
        }
        Some(answer)
    }
}

// Judges the whole page, and gives the line of the number wanted, where the page has one.
pub fn line_of_page(bytes: &[u8], wanted: usize) -> Result<Option<Line>, PageFault>
    ensures answer { found_line result ≡ line_numbered wanted (read_page bytes.now) }
    ensures accepted { Accepted bytes.now }
    ensures refused { Refused bytes.now }
    ensures first_wrong { IfErr result (FirstWrong bytes.now) }
{
    // By `next_line` and not by the iterator, which hands each item on by value: a line takes a thousand bytes, and on a page
    // of short lines that takes longer than reading them.
    let mut lines = PageLines::open(bytes)?;
    let mut found = None;
    let mut number = 0;
    while let Some(line) = lines.next_line()? {
        if number == wanted {
            found = Some(line);
        }
        number += 1;
    }
    Ok(found)
}
