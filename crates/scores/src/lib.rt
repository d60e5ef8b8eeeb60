// Scores: how a total is made of penalties, and which of two totals is better.
#![tactic(auto)]

ghost use Rattle.std.specs.Prelude.{◌≡◌, ℕ, refl};
ghost use Rattle.scores.specs.Scores.{Meaning, Laws, compare, stepped, sum_meaning, shares_meaning, BetterIsGreater, Stepwise, Exact};
ghost use Rattle.std.proofs.Common.{rules};

use std::cmp::Ordering;

// Totals and penalties are plain numbers, the operands of a score.
pub trait Score {
    ghost meaning: { Meaning };

    // The most cells of a line that the score takes.
    const MOST_CELLS: usize;

    ghost MOST_CELLS: { ℕ };

    // The highest penalty that it takes.
    const HIGHEST_PENALTY: u16;

    ghost HIGHEST_PENALTY: { ℕ };

    // The total before the first penalty.
    const START: u64;

    ghost START: { ℕ };

    // The total after one penalty more.
    fn step(total: u64, penalty: u16) -> u64
        ensures { result ≡ meaning.step total penalty };

    // Whether the total `a` is no worse than the total `b`.
    fn no_worse(a: u64, b: u64) -> bool
        ensures { result ≡ meaning.no_worse a b };

    ghost cells_are: { MOST_CELLS ≡ meaning.most_cells };

    ghost penalty_is: { HIGHEST_PENALTY ≡ meaning.highest_penalty };

    ghost start_is: { START ≡ meaning.start };

    ghost laws: { Laws meaning };
}

// Penalties are added, and a smaller total is better.
#[derive(Clone, Copy)]
pub struct Sum;

impl Score for Sum {
    ghost meaning = { sum_meaning };

    const MOST_CELLS: usize = 24;

    ghost MOST_CELLS = { sum_meaning.most_cells };

    const HIGHEST_PENALTY: u16 = 65_535;

    ghost HIGHEST_PENALTY = { sum_meaning.highest_penalty };

    const START: u64 = 0;

    ghost START = { sum_meaning.start };

    ghost cells_are = { refl };

    ghost penalty_is = { refl };

    ghost start_is = { refl };

    ghost laws = { Prim.search rules };

    fn step(total: u64, penalty: u16) -> u64 {
        total.saturating_add(u64::from(penalty)).min(4_294_967_295)
    }

    fn no_worse(a: u64, b: u64) -> bool {
        a <= b
    }
}

// Each penalty leaves a share of a hundred, the shares are multiplied, and a larger total is better.
#[derive(Clone, Copy)]
pub struct Shares;

impl Score for Shares {
    ghost meaning = { shares_meaning };

    const MOST_CELLS: usize = 9;

    ghost MOST_CELLS = { shares_meaning.most_cells };

    const HIGHEST_PENALTY: u16 = 99;

    ghost HIGHEST_PENALTY = { shares_meaning.highest_penalty };

    const START: u64 = 1;

    ghost START = { shares_meaning.start };

    ghost cells_are = { refl };

    ghost penalty_is = { refl };

    ghost start_is = { refl };

    ghost laws = { Prim.search rules };

    fn step(total: u64, penalty: u16) -> u64 {
        let share = 100 - u64::from(penalty.min(99));
        total.saturating_mul(share).min(1_000_000_000_000_000_000)
    }

    fn no_worse(a: u64, b: u64) -> bool {
        b <= a
    }
}

/// How the total `a` compares with the total `b`: greater is what is better. No total is refused.
/// docs/scores.md has the rule.
pub fn compare<S: Score>(a: u64, b: u64) -> Ordering
    ensures value { result ≡ compare S.meaning a b }
    ensures better { BetterIsGreater }
{
    match (S::no_worse(a, b), S::no_worse(b, a)) {
        (true, true) => Ordering::Equal,
        (true, false) => Ordering::Greater,
        (false, _) => Ordering::Less,
    }
}

/// The total after a row of penalties, the first one's step first, from the total `total` on. No total
/// and no row is refused. docs/scores.md has the rule.
pub fn total_from<S: Score>(total: u64, penalties: &[u16]) -> u64
    ensures { result ≡ stepped S.meaning total penalties.now }
{
    penalties
        .iter()
        .fold(total, |total, penalty| S::step(total, *penalty))
}

/// The total of a row of penalties, the first one's step first, from the start total on. Under `Sum`
/// and `Shares` it is exact within the score's two figures. docs/scores.md has the rule.
pub fn total<S: Score>(penalties: &[u16]) -> u64
    ensures value { result ≡ stepped S.meaning S.meaning.start penalties.now }
    ensures stepwise { Stepwise }
    ensures exact { Exact }
{
    total_from::<S>(S::START, penalties)
}
