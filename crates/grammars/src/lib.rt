// Grammars: which texts are admitted, and which openings are allowed.
#![tactic(auto)]

ghost use Rattle.std.specs.Prelude.{◌≡◌, take, Decides};
ghost use Rattle.grammars.specs.Grammars.{refusal, check_returns, Sets, Lawful, both, split_at, Joined, then_by};
ghost use Rattle.std.proofs.lemmas.Bool.{and_parts, and_from};
ghost use Rattle.grammars.specs.Combined.{then_empty, then_begun, then_shorter};

pub mod angle;
pub mod date;
pub mod sheet;

// Why a grammar's table is refused: it fails its check. The refusal has the number that is returned for it.
#[derive(Clone, Copy, Debug, PartialEq, Eq)]
pub enum Refusal {
    Table = 12,
}

impl Refusal {
    // The returned number.
    pub fn number(self) -> u8
        ensures { result ≡ refusal self }
    {
        self as u8
    }
}

// What the check of a table returns, in the numbers of docs/grammars.md: 0 where it holds.
pub fn check_number(answer: Result<(), Refusal>) -> u8
    ensures { result ≡ check_returns answer }
{
    answer.err().map_or(0, Refusal::number)
}

pub trait Grammar {
    ghost meaning: { Self → Sets };

    // Whether the text is admitted.
    fn is_admitted(&self, text: &[u8]) -> bool
        ensures { result ≡ (meaning self.now).admits text.now };

    // Whether the opening is allowed: whether a search may go on from it. Every beginning of an admitted text is
    // allowed, and others may be.
    fn is_allowed(&self, opening: &[u8]) -> bool
        ensures { result ≡ (meaning self.now).allows opening.now };

    ghost laws: { (g : Self) → Lawful (meaning g) };
}

// Both grammars admit a text, and both allow an opening.
#[derive(Clone, Copy, Drop)]
pub struct Both<P, Q> {
    pub one: P,
    pub other: Q,
}

impl<P: Grammar, Q: Grammar> Grammar for Both<P, Q> {
    ghost meaning = { λ g. both (P.Grammar.meaning g.one) (Q.Grammar.meaning g.other) };

    ghost laws = { λ t.
        let p = P.Grammar.meaning t.one in
        let q = Q.Grammar.meaning t.other in
        let below_p = P.Grammar.laws t.one in
        let below_q = Q.Grammar.laws t.other in
        record {
          empty = and_from (p.allows _) (q.allows _) below_p.empty below_q.empty;
          shorter = λ s n h. let h' = and_parts (p.allows s) (q.allows s) h in and_from (p.allows (take n s)) (q.allows (take n s)) (below_p.shorter s n h'.0) (below_q.shorter s n h'.1);
          begun = λ s n h. let h' = and_parts (p.admits s) (q.admits s) h in and_from (p.allows (take n s)) (q.allows (take n s)) (below_p.begun s n h'.0) (below_q.begun s n h'.1);
        } };

    fn is_admitted(&self, text: &[u8]) -> bool {
        self.one.is_admitted(text) && self.other.is_admitted(text)
    }

    fn is_allowed(&self, opening: &[u8]) -> bool {
        self.one.is_allowed(opening) && self.other.is_allowed(opening)
    }
}

// The first `cut` symbols by one grammar, and the rest by the other.
#[derive(Clone, Copy, Drop)]
pub struct Then<P, Q> {
    pub cut: u8,
    pub head: P,
    pub tail: Q,
}

impl<P: Grammar, Q: Grammar> Grammar for Then<P, Q> {
    ghost meaning = { λ g. then_by g.cut (P.Grammar.meaning g.head) (Q.Grammar.meaning g.tail) };

    ghost laws = { λ t.
        let p = P.Grammar.meaning t.head in
        let q = Q.Grammar.meaning t.tail in
        let below_p = P.Grammar.laws t.head in
        let below_q = Q.Grammar.laws t.tail in
        record {
          empty = then_empty t.cut p.admits p.allows q.admits q.allows below_p.empty;
          shorter = then_shorter t.cut p.admits p.allows q.admits q.allows below_p.begun below_p.shorter below_q.shorter;
          begun = then_begun t.cut p.admits p.allows q.admits q.allows below_p.begun below_q.begun;
        } };

    // A text is admitted that is one of `cut` symbols for the head and then one for the tail. The tail is asked first, as
    // its length alone often tells.
    #[tactic(auto, using(crate::proofs::Joined::joined))]
    fn is_admitted(&self, text: &[u8]) -> bool
        ensures value { result ≡ split_at self.now.cut (P.Grammar.meaning self.now.head).admits (Q.Grammar.meaning self.now.tail).admits text.now }
        ensures joined { Decides result (Joined self.now.cut (P.Grammar.meaning self.now.head).admits (Q.Grammar.meaning self.now.tail).admits text.now) }
    {
        let Some((head, tail)) = text.split_at_checked(usize::from(self.cut)) else {
            return false;
        };
        self.tail.is_admitted(tail) && self.head.is_admitted(head)
    }

    // Up to the cut the head alone is asked, and of the whole opening: so the length is tested.
    fn is_allowed(&self, opening: &[u8]) -> bool {
        let cut = usize::from(self.cut);
        if opening.len() <= cut {
            return self.head.is_allowed(opening);
        }
        let (head, tail) = opening.split_at(cut);
        self.tail.is_allowed(tail) && self.head.is_admitted(head)
    }
}
