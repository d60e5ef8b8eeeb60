// Lists a page: the first next on each of its lines, or the page's refusal.
ghost use Rattle.std.specs.Prelude.{◌≡◌, ◌+◌, ◌*◌, ◌<◌, ◌≤◌, ◌++◌, [], length, Ok, OnErr};
ghost use Rattle.arrayvec.specs.ArrayVec.{array_vec_len};
ghost use Rattle.pages.specs.Reading.{read_page};
ghost use Rattle.scores.specs.Scores.{sum_meaning};
ghost use Rattle.grammars.specs.Dates.{date_sets};
ghost use Rattle.reader.specs.Views.{view, Kept, Agrees};
ghost use Rattle.lists.specs.Lists.{row, rows, header, date_list};
ghost use Rattle.lists.specs.Calls.{listing, counted, lines_in, line_at, came, seen_after, seen_listed, reading_word, outcome_word, found_bytes};

use crate::rows::{List, MOST_BYTES, Row, list_refusal, put_header, put_row};
use arrayvec::ArrayVec;
use grammars::date::Date;
use pages::{MOST_CELLS, PageFault, PageLines};
use placefault::PlaceFault;
use reader::{Outcome, Reader};
use scores::Sum;

// How many chains a reader may look at on a line: the most that it grants on one of 24 cells.
const GRANTED: usize = 170;

// Judges the whole page, and counts its lines.
pub fn count_lines(page: &[u8]) -> Result<usize, PageFault>
    ensures { result ≡ counted (read_page page.now) }
{
    let mut count = 0;
    for line in PageLines::open(page)? {
        line?;
        count += 1;
    }
    Ok(count)
}

// Loads a line of a good page, grants, and calls next once. None of the three is refused: the score takes every line, the
// grant is within its limit on any of them, and there is room for 24 cells.
fn first_next(
    reader: &mut Reader<Date, Sum>,
    page: &[u8],
    number: usize,
    place: &mut [u8],
) -> Outcome
    requires agrees { Agrees sum_meaning date_sets reader.old }
    requires there { number < length (lines_in page.now) }
    requires room { 24 ≤ length place.old }
    ensures answer { Ok result ≡ (came (line_at page.now number) place.old).answer }
    ensures state { view reader.new ≡ (came (line_at page.now number) place.old).state }
    ensures place { place.new ≡ (came (line_at page.now number) place.old).place }
    ensures agrees { Agrees sum_meaning date_sets reader.new }
    ensures kept { Kept reader.old reader.new }
{
    reader.load(page, number).unwrap();
    reader.grant(GRANTED).unwrap();
    reader.next(place).unwrap()
}

// The text found, or a hyphen.
fn reading_word(outcome: Outcome, place: &[u8]) -> &[u8]
    requires { found_bytes outcome ≤ length place.now }
    ensures { result.now ≡ reading_word outcome place.now }
{
    match outcome {
        Outcome::Found(cells) => &place[..cells],
        Outcome::Spent | Outcome::Exhausted => b"-",
    }
}

fn outcome_word(outcome: Outcome) -> &'static [u8]
    ensures { result.now ≡ outcome_word outcome }
{
    match outcome {
        Outcome::Found(_) => b"found",
        Outcome::Spent => b"spent",
        Outcome::Exhausted => b"exhausted",
    }
}

// Prints the row of a line.
fn list_line(list: &mut List, reader: &mut Reader<Date, Sum>, page: &[u8], number: usize)
    requires agrees { Agrees sum_meaning date_sets reader.old }
    requires there { number < length (lines_in page.now) }
    requires room { array_vec_len list.old + 49 ≤ 2048 }
    ensures row { list.new.items ≡ list.old.items ++ row number (line_at page.now number) }
    ensures state { view reader.new ≡ (came (line_at page.now number) []).state }
    ensures agrees { Agrees sum_meaning date_sets reader.new }
    ensures kept { Kept reader.old reader.new }
{
    let mut place = [0; MOST_CELLS];
    let outcome = first_next(reader, page, number, &mut place);
    let row = Row {
        number,
        reading: reading_word(outcome, &place),
        total: reader.last_total(),
        looked: reader.report().looked,
        outcome: outcome_word(outcome),
    };
    put_row(list, &row);
}

// The header, and a row for each line of a good page.
fn list_lines(reader: &mut Reader<Date, Sum>, page: &[u8], count: usize) -> List
    requires agrees { Agrees sum_meaning date_sets reader.old }
    requires counted { counted (read_page page.now) ≡ Ok count }
    ensures list { result.items ≡ header ++ rows 0 (lines_in page.now) }
    ensures state { view reader.new ≡ seen_after (view reader.old) (lines_in page.now) }
    ensures agrees { Agrees sum_meaning date_sets reader.new }
    ensures kept { Kept reader.old reader.new }
{
    let mut list = ArrayVec::new();
    put_header(&mut list);
    for number in 0..count {
        list_line(&mut list, reader, page, number);
    }
    list
}

// Lists a page into a place, and answers how many bytes the list takes.
pub fn list_dates(
    reader: &mut Reader<Date, Sum>,
    page: &[u8],
    place: &mut [u8],
) -> Result<usize, PlaceFault>
    requires agrees { Agrees sum_meaning date_sets reader.old }
    ensures answer { result ≡ (listing page.now place.old).0 }
    ensures place { place.new ≡ (listing page.now place.old).1 }
    ensures short { length (date_list page.now) ≤ 2048 }
    ensures state { view reader.new ≡ seen_listed (view reader.old) page.now place.old }
    ensures agrees { Agrees sum_meaning date_sets reader.new }
    ensures kept { Kept reader.old reader.new }
    ensures refused { OnErr result (reader.new ≡ reader.old) }
{
    if place.len() < MOST_BYTES {
        return Err(PlaceFault);
    }
    let list = match count_lines(page) {
        Ok(count) => list_lines(reader, page, count),
        Err(fault) => list_refusal(fault),
    };
    place[..list.len()].copy_from_slice(list.as_slice());
    Ok(list.len())
}
