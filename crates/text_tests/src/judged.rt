// What a value, and what a grammar, is held to. `rt` is handed to whatever asserts.
// A test calls these and asserts little itself: an `assert_eq!` or a loop in its own body would be proved there anew.
use grammars::Grammar;
use std::fmt::Debug;
use std::process::Abort;

// What was found is what was worked out by hand.
pub(crate) fn same<T: Copy + Debug + PartialEq>(rt: &impl Abort, found: T, wanted: T) {
    assert_eq!(rt; found, wanted);
}

// Texts that a grammar admits or not, and that it allows as openings or not. An admitted text is allowed too.
#[derive(Clone, Copy)]
pub(crate) struct Judged {
    pub(crate) admitted: &'static [&'static [u8]],
    pub(crate) not_admitted: &'static [&'static [u8]],
    pub(crate) allowed: &'static [&'static [u8]],
    pub(crate) not_allowed: &'static [&'static [u8]],
}

impl Judged {
    // Texts that are neither admitted nor allowed.
    pub(crate) fn none(texts: &'static [&'static [u8]]) -> Judged {
        Judged {
            admitted: &[],
            not_admitted: texts,
            allowed: &[],
            not_allowed: texts,
        }
    }

    pub(crate) fn check<G: Grammar>(&self, rt: &impl Abort, grammar: &G) {
        for text in self.admitted {
            assert!(rt; grammar.is_admitted(text) && grammar.is_allowed(text));
        }
        for text in self.not_admitted {
            assert!(rt; !grammar.is_admitted(text));
        }
        for text in self.allowed {
            assert!(rt; grammar.is_allowed(text));
        }
        for text in self.not_allowed {
            assert!(rt; !grammar.is_allowed(text));
        }
    }
}
