// Places of the bench, in standing order.
ghost use Rattle.std.specs.Prelude.{◌≡◌, Some, refl};
ghost use Rattle.std.specs.Ordering.{is_eq, on};
ghost use Rattle.std.specs.Cmp.{on_total, eq_by_cmp_equiv, partial_equiv_from_equiv, partial_order_from_agreeing_total};
ghost use Rattle.scores.specs.Scores.{compare};
ghost use Rattle.scores.specs.ScoresLemmas.{totals};

use crate::chains::Chain;
use crate::ranks::Ranks;
use scores::Score;
use std::cmp::{Ordering, Reverse};
use std::marker::PhantomData;

// A chain with its total. Greater is what stands before: the better total, and with totals equally good the lower rank
// in the first cell where the two differ.
#[derive(Drop)]
#[derive_where(PartialEq, Eq, PartialOrd, Ord; S: Score)]
pub(crate) struct Place<S> {
    pub(crate) grade: Grade<S>,
    pub(crate) ranks: Reverse<Ranks>,
}

// A total. Greater is what the score says is better, so the order is the score's.
#[derive(Drop)]
pub(crate) struct Grade<S> {
    pub(crate) total: u64,
    pub(crate) score: PhantomData<S>,
}

impl<S: Score> Place<S> {
    pub(crate) fn of(chain: Chain<'_>, total: u64) -> Place<S>
        ensures total { result.grade.total ≡ total }
        ensures ranks { result.ranks.0 ≡ chain.entry.ranks.now }
    {
        Place {
            grade: Grade {
                total,
                score: PhantomData,
            },
            ranks: Reverse(*chain.ranks),
        }
    }
}

impl<S: Score> PartialEq for Grade<S> {
    ghost eq = { λ x y. is_eq (compare S.Score.meaning x.total y.total) };

    ghost laws = { partial_equiv_from_equiv
        (eq_by_cmp_equiv (on_total (λ g. g.total) (totals S.Score.laws))) };

    fn eq(&self, other: &Grade<S>) -> bool {
        self.cmp(other).is_eq()
    }
}

impl<S: Score> Eq for Grade<S> {
    ghost laws = { eq_by_cmp_equiv (on_total (λ g. g.total) (totals S.Score.laws)) };
}

impl<S: Score> PartialOrd for Grade<S> {
    ghost partial_cmp = { λ x y. Some (compare S.Score.meaning x.total y.total) };

    ghost laws = { partial_order_from_agreeing_total
        (on (λ g. g.total) (compare S.Score.meaning))
        (on_total (λ g. g.total) (totals S.Score.laws)) (λ _ _. refl) (λ _ _. refl) };

    fn partial_cmp(&self, other: &Grade<S>) -> Option<Ordering> {
        Some(self.cmp(other))
    }
}

impl<S: Score> Ord for Grade<S> {
    ghost cmp = { on (λ g. g.total) (compare S.Score.meaning) };

    ghost total = { on_total (λ g. g.total) (totals S.Score.laws) };

    ghost matches_partial_cmp = { λ _ _. refl };

    ghost matches_eq = { λ _ _. refl };

    fn cmp(&self, other: &Grade<S>) -> Ordering {
        scores::compare::<S>(self.total, other.total)
    }
}
