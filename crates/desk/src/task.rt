// What the arguments ask for, and how a task begins.
ghost use Rattle.std.specs.Prelude.{◌≡◌, map, Some, IfOk, MatchResult};
ghost use Rattle.desk.specs.Desks.{Ready};
ghost use Rattle.desk.specs.Tasks.{Asks, IsUnasked, IsPlaced, IsUnplaced, IsNumber, Begins};
ghost use Rattle.desk.specs.Words.{task_fault_words};

use crate::desk::{Desk, Trouble};
use descriptions::{CornerFault, read_sheet};
use grammars::sheet::Sheet;
use std::alloc::Global;
use std::error::Error;
use std::fmt;
use std::num::ParseIntError;

/// A line of a page, to be read as a position on a sheet, as `docs/wheelhouse.md` has it.
#[derive(Clone, Copy)]
pub struct Task<'a> {
    /// The name of the page's file.
    pub page: &'a str,
    /// The number of the line, counted from 0.
    pub line: usize,
    /// The sheet between the two corners.
    pub sheet: Sheet,
    /// How many chains may be looked at first. Without it the most that the line takes is meant.
    pub grant: Option<usize>,
}

/// Why arguments ask for no task: the first that is wrong of the line, the corners and the grant, or
/// their number.
#[derive(Debug, PartialEq, Eq, Drop)]
pub enum TaskFault<'a> {
    /// The word for the line or the grant is no whole number below 2^64, and why `parse` refuses it.
    Number {
        word: &'a str,
        reason: ParseIntError,
    },
    /// The corners make no sheet, and why.
    Corner(CornerFault),
    /// The arguments are neither four nor five.
    Arguments,
}

// By hand, as a derived `Display` states nothing of its words.
impl fmt::Display for TaskFault<'_> {
    ghost output = { λ fault. Some (task_fault_words fault) };

    #[tactic(auto, unfolding(crate::specs::Words::task_fault_words))]
    fn fmt<W: fmt::Write>(&self, f: &mut fmt::Formatter<W>) -> fmt::Result {
        match self {
            TaskFault::Number { word, .. } => write!(f, "{word} is no whole number below 2^64"),
            TaskFault::Corner(fault) => f.write_str(fault.explanation()),
            TaskFault::Arguments => f.write_str(
                "usage: wheelhouse PAGE LINE SOUTHWEST NORTHEAST [GRANT], a corner as 5000000N00500000W",
            ),
        }
    }
}

impl Error for TaskFault<'_> {}

impl From<CornerFault> for TaskFault<'_> {
    ghost use Rattle.desk.specs.declared.task.TaskFault.TheVariants.{Corner};

    ghost from_gives = { λ corner fault. fault ≡ Corner corner };

    fn from(corner: CornerFault) -> Self {
        TaskFault::Corner(corner)
    }
}

// The number that the word writes.
fn number(word: &str) -> Result<usize, TaskFault<'_>>
    ensures { IsNumber word.now result }
{
    word.parse::<usize>()
        .map_err(|reason| TaskFault::Number { word, reason })
}

// The task that has no grant.
fn task_at<'a>(
    page: &'a str,
    line: &'a str,
    southwest: &str,
    northeast: &str,
) -> Result<Task<'a>, TaskFault<'a>>
    ensures { MatchResult result
        (IsPlaced page.now line.now southwest.now northeast.now)
        (IsUnplaced line.now southwest.now northeast.now) }
{
    let line = number(line)?;
    let sheet = read_sheet(southwest.as_bytes(), northeast.as_bytes())?;
    Ok(Task {
        page,
        line,
        sheet,
        grant: None,
    })
}

/// The task that the arguments ask for, which are `PAGE LINE SOUTHWEST NORTHEAST [GRANT]`.
///
/// # Errors
///
/// Exactly where they ask for none. The line is judged first, then the corners, then the grant.
pub fn task_of<'a>(words: &[&'a str]) -> Result<Task<'a>, TaskFault<'a>>
    ensures { MatchResult result
        (Asks (map (λ w. w.now) words.now))
        (IsUnasked (map (λ w. w.now) words.now)) }
{
    match words {
        [page, line, southwest, northeast] => task_at(page, line, southwest, northeast),
        [page, line, southwest, northeast, chains] => {
            let task = task_at(page, line, southwest, northeast)?;
            let chains = number(chains)?;
            Ok(Task {
                grant: Some(chains),
                ..task
            })
        }
        _ => Err(TaskFault::Arguments),
    }
}

/// The desk of a task, with its first grant and its first look. A grant that is not named is the
/// most, and is not refused.
///
/// # Errors
///
/// The refusal of the load, or of a grant that is named; or that there is no memory for the reader.
pub fn begin(heap: Global, task: &Task, page: &[u8]) -> Result<Desk, Trouble>
    ensures ready { IfOk result Ready }
    ensures begins { Begins task.now page.now result }
{
    let mut desk = Desk::open(heap, task.sheet, page, task.line)?;
    let grant = task.grant.unwrap_or(desk.room());
    desk.grant(grant)?;
    desk.look();
    Ok(desk)
}
