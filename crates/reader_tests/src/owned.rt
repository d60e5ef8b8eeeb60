// A combination of grammars that own memory.
ghost use Rattle.std.specs.Prelude.{◌≡◌, ℕ, Bool, true, ◌==◌, List, take, drop, IfOk, refl};
ghost use Rattle.std.specs.List.{list_all, list_any};
ghost use Rattle.std.proofs.Common.{sym, ap, ◌∙◌};
ghost use Rattle.std.proofs.lemmas.Bool.{and_parts};
ghost use Rattle.std.proofs.lemmas.List.{take-append-drop};
ghost use Rattle.std.proofs.lemmas.List.Folds.{list_all-append};

use crate::answers::{Ask, Seen, Trial};
use grammars::{Both, Grammar, Then};
use scores::Sum;
use std::alloc::{AllocError, Global};

// A grammar that admits the texts all of whose symbols are in its alphabet, and allows them as openings.
#[derive(Drop)]
struct Alphabet {
    symbols: Vec<u8>,
}

impl Alphabet {
    fn new(heap: Global, symbols: &[u8]) -> Result<Self, AllocError>
        ensures { IfOk result (λ a. a.symbols.items ≡ symbols.now) }
    {
        Ok(Alphabet {
            symbols: Vec::from_slice(heap, symbols)?,
        })
    }
}

impl Grammar for Alphabet {
    ghost meaning = { λ a. record {
      admits = list_all (λ c. list_any (λ s. s == c) a.symbols.items);
      allows = list_all (λ c. list_any (λ s. s == c) a.symbols.items);
    } };

    ghost laws = { λ a.
        let known : ℕ → Bool = λ c. list_any (λ s. s == c) a.symbols.items in
        let kept : (s : List ℕ) (n : ℕ) → list_all known s ≡ true → list_all known (take n s) ≡ true =
        λ s n h. (and_parts (list_all known (take n s)) (list_all known (drop n s)) (sym (list_all-append known (take n s) (drop n s)) ∙ ap (list_all known) (take-append-drop n s) ∙ h)).0 in
        record { empty = refl; shorter = kept; begun = kept } };

    fn is_admitted(&self, text: &[u8]) -> bool {
        text.iter().all(|symbol| self.symbols.contains(symbol))
    }

    fn is_allowed(&self, opening: &[u8]) -> bool {
        self.is_admitted(opening)
    }
}

// Two cells: 1 at 0, 2 at 1 or 3 at 2, and N at 0 or S at 1.
const DIGIT_AND_LETTER: &[u8; 19] = b"\x01\x02\x031\0\02\0\x013\0\x02\x02N\0\0S\0\x01";

// The first digit is to be 2 or 3, and no symbol 2. Of the six chains 1N at 0, 2N at 1, 3N at 2 and 3S at 3 are live, in this
// order: 1S and 2S are not, as neither 1 nor 2 is an allowed opening. 3N and 3S are admitted.
const COMBINED: Trial = Trial {
    page: DIGIT_AND_LETTER,
    calls: &[
        (Ask::Load(0), Seen::Loaded),
        (Ask::Grant(9), Seen::Granted),
        (Ask::Next(0, 2), Seen::Found(2)),
        (Ask::Report, Seen::Told(2, 9, 3, 1)),
        (Ask::Next(2, 2), Seen::Found(2)),
        (Ask::Report, Seen::Told(2, 9, 4, 2)),
        (Ask::Next(0, 2), Seen::Exhausted),
        (Ask::Report, Seen::Told(2, 9, 4, 2)),
    ],
    places: b"3N3S",
};

#[test]
fn alphabets_combined(rt: HostRuntime) {
    let grammar = Both {
        one: Then {
            cut: 1,
            head: Alphabet::new(rt.alloc(), b"23").expect(&rt, "memory"),
            tail: Alphabet::new(rt.alloc(), b"NS").expect(&rt, "memory"),
        },
        other: Alphabet::new(rt.alloc(), b"13NS").expect(&rt, "memory"),
    };
    COMBINED.check(&rt, rt.alloc(), grammar, Sum);
}
