// The words of a refused call of a reader, with the page that it was lent.
#![tactic(auto)]

ghost use Rattle.std.specs.Prelude.{◌≡◌, IfOk, string_bytes};
ghost use Rattle.refusalwords.specs.Words.{refused_words};

use reader::Refusal;
use reports::explain;
use std::alloc::{AllocError, Global};

// The number of the refusal, and why: a bad page has the words that its report has.
pub fn refused(heap: Global, page: &[u8], refusal: Refusal) -> Result<String, AllocError>
    ensures { IfOk result (λ s. string_bytes s ≡ refused_words page.now refusal) }
{
    let number = refusal.number();
    match refusal {
        Refusal::Page(fault) => {
            let words = explain(heap, page, fault)?;
            format!(in heap; "refused {number}, {words}")
        }
        other => {
            let words = other.explanation();
            format!(in heap; "refused {number}, {words}")
        }
    }
}
