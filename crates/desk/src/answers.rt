// What the owner answers to a reading, on a line.
ghost use Rattle.std.specs.Prelude.{map, IfOk, MatchOption};
ghost use Rattle.linewords.specs.Words.{words_of};
ghost use Rattle.desk.specs.declared.answers.Answer.{Answer};
ghost use Rattle.desk.specs.Answers.{IsAnswer, IsRead};

use linewords::words_of;
use std::alloc::{AllocError, Global};

/// An answer to what the desk shows, as `docs/wheelhouse.md` lists them.
#[derive(Clone, Copy, Debug, PartialEq, Eq)]
pub enum Answer {
    /// `y`: the reading shown is plotted.
    Confirm,
    /// `n`: the next best is called for.
    Next,
    /// `g N`: so many more chains may be looked at.
    Grant(usize),
    /// `q`: the line is left.
    Leave,
}

// The answer that the words are, if they are one.
fn answer_of(words: &[&str]) -> Option<Answer>
    ensures { MatchOption result
        ((a : Answer) → IsAnswer (map (λ w. w.now) words.now) a → ⊥)
        (IsAnswer (map (λ w. w.now) words.now)) }
{
    match words {
        ["y"] => Some(Answer::Confirm),
        ["n"] => Some(Answer::Next),
        ["g", chains] => {
            let chains = chains.parse::<usize>().ok()?;
            Some(Answer::Grant(chains))
        }
        ["q"] => Some(Answer::Leave),
        _ => None,
    }
}

/// The answer that the words of a line are, if they are one.
///
/// # Errors
///
/// Where there is no memory for the words, and nowhere else.
pub fn read_answer(heap: Global, line: &str) -> Result<Option<Answer>, AllocError>
    ensures { IfOk result (IsRead (words_of line.now)) }
{
    let words = words_of(heap, line)?;
    Ok(answer_of(words.as_slice()))
}
