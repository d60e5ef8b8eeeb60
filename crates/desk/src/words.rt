// What the owner is told.
ghost use Rattle.std.specs.Prelude.{◌≡◌, ◌++◌, Some, IfOk, string_bytes};
ghost use Rattle.reader.specs.declared.refusals.Refusal.{Refusal};
ghost use Rattle.desk.specs.Words.{note_words, unfound_words, reading_words, plotted_words};

use descriptions::Kind;
use reader::Refusal;
use std::alloc::{AllocError, Global};
use std::fmt;

/// Said where the line is left.
pub const LEFT: &str = "left, and nothing is plotted";

/// Said before the line that asks again, as `docs/wheelhouse.md` lists it.
#[derive(Clone, Copy, Debug, PartialEq, Eq)]
pub enum Note {
    /// What can be answered, said first.
    Help,
    /// The same, where a line is no answer.
    NoAnswer,
    /// There is no reading to confirm.
    NothingShown,
    /// So many more chains are granted, and so many in all.
    Granted { chains: usize, granted: usize },
    /// A grant is refused, and how many more the line takes.
    Refused { refusal: Refusal, room: usize },
}

/// Why no reading is shown, as `docs/wheelhouse.md` lists it.
#[derive(Clone, Copy, Debug, PartialEq, Eq)]
pub enum Unfound {
    /// The grant is used up, and so many more chains may be granted.
    Spent { granted: usize, room: usize },
    /// The grant is used up, and is the most.
    SpentAll { granted: usize },
    /// No chain is left.
    Exhausted,
}

impl fmt::Display for Note {
    ghost output = { λ note. Some (note_words note) };

    #[tactic(auto, unfolding(crate::specs::Words::note_words))]
    fn fmt<W: fmt::Write>(&self, f: &mut fmt::Formatter<W>) -> fmt::Result {
        match *self {
            Note::Help => f.write_str(
                "y confirms the reading shown, n calls for the next best, g N grants N more chains, q leaves the line",
            ),
            Note::NoAnswer => f.write_str(
                "no answer: y confirms the reading shown, n calls for the next best, g N grants N more chains, q leaves the line",
            ),
            Note::NothingShown => f.write_str("no reading is shown that y could confirm"),
            Note::Granted { chains, granted } => {
                write!(f, "granted {chains} more, {granted} in all")
            }
            Note::Refused { refusal, room } => {
                let number = refusal.number();
                let words = refusal.explanation();
                write!(
                    f,
                    "refused {number}, {words}: up to {room} more may be granted"
                )
            }
        }
    }
}

impl fmt::Display for Unfound {
    ghost output = { λ unfound. Some (unfound_words unfound) };

    #[tactic(auto, unfolding(crate::specs::Words::unfound_words))]
    fn fmt<W: fmt::Write>(&self, f: &mut fmt::Formatter<W>) -> fmt::Result {
        match *self {
            Unfound::Spent { granted, room } => write!(
                f,
                "spent: the grant of {granted} is used up; g N, with N up to {room}, or q?"
            ),
            Unfound::SpentAll { granted } => write!(
                f,
                "spent: the grant of {granted} is used up, and the line takes no more; only q is left"
            ),
            Unfound::Exhausted => f.write_str(
                "exhausted: no other reading of the line is on the sheet; only q is left",
            ),
        }
    }
}

/// A reading as it is shown: its text, what it is, its total, and what is asked.
///
/// # Errors
///
/// Where there is no memory for the line, and nowhere else.
pub fn reading_line(heap: Global, text: &str, kind: Kind, total: u64) -> Result<String, AllocError>
    ensures { IfOk result (λ s. string_bytes s ≡ reading_words text.now kind total) }
{
    format!(in heap; "{text}: {kind}, total {total}; y, n, g N or q?")
}

/// A mark that was plotted: its bytes, and what its text is.
///
/// # Errors
///
/// Where there is no memory for the line, and nowhere else.
pub fn plotted_line(heap: Global, bytes: [u8; 8], kind: Kind) -> Result<String, AllocError>
    ensures { IfOk result (λ s. string_bytes s ≡ plotted_words bytes kind) }
{
    let hex = hex::encode_upper(heap, bytes)?;
    format!(in heap; "plotted {hex}: {kind}")
}
