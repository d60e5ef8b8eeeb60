// The words of a line, which blanks part.
#![tactic(auto)]

ghost use Rattle.std.specs.Prelude.{◌≡◌, map, IfOk};
ghost use Rattle.linewords.specs.Words.{words_of};

use std::alloc::{AllocError, Global};

// They are collected, so memory can be wanting.
pub fn words_of(heap: Global, line: &str) -> Result<Vec<&str>, AllocError>
    ensures { IfOk result (λ ws. map (λ w. w.now) ws.items ≡ words_of line.now) }
{
    line.split_ascii_whitespace().collect(heap)
}
