// Makes a run.
ghost use Rattle.std.specs.Prelude.{◌≡◌, length, map, IfOk, MatchResult};
ghost use Rattle.ffi.specs.Rows.{row_of, told};
ghost use Rattle.ffi.specs.Runs.{sheet_of, scoring_of, wanted_of, all_calls, checked, judging, trouble_number, Untouched, Told, RunMade};

use crate::answers::{DONE, MEMORY, UNKNOWN};
use crate::rows::{Came, Row};
use grammars::sheet::Sheet;
use settings::{Scoring, Setting, Wanted};
use std::alloc::{AllocError, Global};

// What a run seeks, by the numbers of include/markbook.h, and the limits of the sheet where one is sought.
#[repr(C)]
#[derive(Clone, Copy)]
pub struct Seeking {
    pub grammar: u32,
    pub score: u32,
    pub south: i32,
    pub north: i32,
    pub west: i32,
    pub east: i32,
}

const DATES: u32 = 1;

const POSITIONS: u32 = 2;

const ON_SHEET: u32 = 3;

const SUM: u32 = 1;

const SHARES: u32 = 2;

// Whether each row asks for a call that there is.
fn are_calls(rows: &[Row]) -> bool
    ensures { result ≡ all_calls rows.now }
{
    rows.iter().all(|row| row.asked.is_call())
}

// Why a run is not begun: a number is unknown, or the sheet's table fails.
#[derive(Clone, Copy, Debug, PartialEq, Eq)]
enum Trouble {
    Unknown,
    Table(grammars::Refusal),
}

impl Trouble {
    fn number(self) -> u8
        ensures { result ≡ trouble_number self }
    {
        match self {
            Trouble::Unknown => UNKNOWN,
            Trouble::Table(refusal) => refusal.number(),
        }
    }
}

// Whether the table holds, where a sheet is sought.
fn check(wanted: Wanted) -> Result<(), Trouble>
    ensures { result ≡ checked wanted }
{
    match wanted {
        Wanted::OnSheet(sheet) => sheet.check().map_err(Trouble::Table),
        Wanted::Dates | Wanted::Positions => Ok(()),
    }
}

impl Seeking {
    fn sheet(&self) -> Sheet
        ensures { result ≡ sheet_of self.now }
    {
        Sheet {
            south: self.south,
            north: self.north,
            west: self.west,
            east: self.east,
        }
    }

    fn scoring(&self) -> Option<Scoring>
        ensures { result ≡ scoring_of self.now }
    {
        match self.score {
            SUM => Some(Scoring::Sum),
            SHARES => Some(Scoring::Shares),
            _ => None,
        }
    }

    fn wanted(&self) -> Option<Wanted>
        ensures { result ≡ wanted_of self.now }
    {
        match self.grammar {
            DATES => Some(Wanted::Dates),
            POSITIONS => Some(Wanted::Positions),
            ON_SHEET => Some(Wanted::OnSheet(self.sheet())),
            _ => None,
        }
    }

    // The setting of a run of the rows, or why it is not begun.
    fn setting(&self, rows: &[Row]) -> Result<Setting, Trouble>
        ensures { result ≡ judging self.now rows.now }
    {
        let scoring = self.scoring().ok_or(Trouble::Unknown)?;
        let wanted = self.wanted().ok_or(Trouble::Unknown)?;
        if !are_calls(rows) {
            return Err(Trouble::Unknown);
        }
        check(wanted)?;
        Ok(Setting { wanted, scoring })
    }
}

// Tells in each row what came of it.
fn tell(rows: &mut [Row], made: &[runs::Row])
    requires same { length made.now ≡ length rows.old }
    ensures { rows.new ≡ told rows.old made.now }
{
    for (index, row) in rows.iter_mut().enumerate() {
        row.came = Came::of(made[index].answer);
    }
}

// The rows that are run, not made yet.
fn rows_to_run(heap: Global, rows: &[Row]) -> Result<Vec<runs::Row>, AllocError>
    ensures { IfOk result (λ v. v.items ≡ map (λ r. row_of r.asked) rows.now) }
{
    rows.iter().map(|row| row.asked.row()).collect(heap)
}

// Runs the rows under the setting, and tells in each what came of it.
fn run_rows(
    heap: Global,
    setting: Setting,
    pages: &[u8],
    places: &mut [u8],
    rows: &mut [Row],
) -> Result<(), AllocError>
    ensures { MatchResult result (λ _. Told setting pages.now places.old rows.old places.new rows.new) (λ _. Untouched places.old rows.old places.new rows.new) }
{
    let mut made = rows_to_run(heap, rows)?;
    setting.run(heap, pages, places, made.as_mut_slice())?;
    tell(rows, made.as_slice());
    Ok(())
}

// Makes a new reader, makes the calls of the rows on it, and writes what came of each into its row.
#[unsafe(no_mangle)]
pub extern "C" fn markbook_run(
    heap: Global,
    seeking: &Seeking,
    pages: &[u8],
    places: &mut [u8],
    rows: &mut [Row],
) -> u8
    ensures made { RunMade (judging seeking.now rows.old) pages.now places.old rows.old result places.new rows.new }
{
    match seeking.setting(rows) {
        Ok(setting) => run_rows(heap, setting, pages, places, rows).map_or(MEMORY, |()| DONE),
        Err(trouble) => trouble.number(),
    }
}
