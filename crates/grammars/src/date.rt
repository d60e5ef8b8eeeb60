// Dates, as eight digits DDMMYYYY, of the Gregorian calendar from 1900 to 2099.
ghost use Rattle.std.specs.Prelude.{◌≡◌, ◌≤◌, true, length, Decides, refl};
ghost use Rattle.grammars.specs.Dates.{day_of, month_of, year_of, longest, leap, length_of, is_day, can_fall, admits_date, opening_day, opening_month, opening_whole, date_sets};
ghost use Rattle.grammars.specs.Calendar.{Dated, Calendar};
ghost use Rattle.positions.specs.Numerals.{within};
ghost use Rattle.grammars.specs.Days.{date_shorter, admitted_allowed};

use crate::Grammar;
use positions::numerals::{all_digits, number};

// How long each month can be: the calendar's own table.
const MONTHS: [u8; 12] = [31, 29, 31, 30, 31, 30, 31, 31, 30, 31, 30, 31];

#[derive(Clone, Copy)]
pub struct Date;

// Day, month and year are three calls of `number` and no struct, since an opening may have a day alone, or no year yet.
fn day(text: &[u8]) -> u32
    requires { 2 ≤ length text.now }
    ensures { result ≡ day_of text.now }
{
    number(&text[0..2])
}

fn month(text: &[u8]) -> u32
    requires { 4 ≤ length text.now }
    ensures { result ≡ month_of text.now }
{
    number(&text[2..4])
}

fn year(text: &[u8]) -> u32
    requires { 8 ≤ length text.now }
    ensures { result ≡ year_of text.now }
{
    number(&text[4..8])
}

#[tactic(auto, unfolding(crate::specs::Dates::longest))]
fn longest_of(month: u32) -> u32
    requires { within 1 12 month ≡ true }
    ensures { result ≡ longest month }
{
    // By `as`: no `From` makes a `usize` of a `u32`.
    u32::from(MONTHS[month as usize - 1])
}

fn is_leap(year: u32) -> bool
    ensures { result ≡ leap year }
{
    year % 4 == 0 && year % 100 != 0 || year % 400 == 0
}

fn length_in(month: u32, year: u32) -> u32
    requires { within 1 12 month ≡ true }
    ensures { result ≡ length_of month year }
{
    if month == 2 && !is_leap(year) {
        28
    } else {
        longest_of(month)
    }
}

fn is_day(day: u32, month: u32, year: u32) -> bool
    ensures { result ≡ is_day day month year }
{
    (1900..=2099).contains(&year)
        && (1..=12).contains(&month)
        && (1..=length_in(month, year)).contains(&day)
}

// Whether the month has such a day in some year.
fn is_possible(day: u32, month: u32) -> bool
    ensures { result ≡ can_fall day month }
{
    (1..=12).contains(&month) && (1..=longest_of(month)).contains(&day)
}

fn is_date(text: &[u8]) -> bool
    ensures { result ≡ admits_date text.now }
{
    text.len() == 8 && all_digits(text) && is_day(day(text), month(text), year(text))
}

// An opening that ends before a part is not refused for it: so each first asks its length.
fn day_opens(opening: &[u8]) -> bool
    ensures { result ≡ opening_day opening.now }
{
    opening.len() < 2 || (1..=31).contains(&day(opening))
}

fn month_opens(opening: &[u8]) -> bool
    ensures { result ≡ opening_month opening.now }
{
    opening.len() < 4 || is_possible(day(opening), month(opening))
}

fn whole_opens(opening: &[u8]) -> bool
    ensures { result ≡ opening_whole opening.now }
{
    opening.len() < 8 || is_date(opening)
}

impl Grammar for Date {
    ghost meaning = { λ _. date_sets };

    ghost laws = { λ _.
        record {
          empty = refl;
          shorter = date_shorter;
          begun = λ s n h. date_shorter s n (admitted_allowed s h);
        } };

    // The admitted texts are those of the days of the calendar, each of one day.
    fn is_admitted(&self, text: &[u8]) -> bool
        ensures value { result ≡ admits_date text.now }
        ensures dated { Decides result (Dated text.now) }
        ensures calendar { Calendar }
    {
        is_date(text)
    }

    fn is_allowed(&self, opening: &[u8]) -> bool {
        opening.len() <= 8
            && all_digits(opening)
            && day_opens(opening)
            && month_opens(opening)
            && whole_opens(opening)
    }
}
