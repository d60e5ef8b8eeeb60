// Totals worked out by hand.
use crate::judged::same;
use scores::{Score, Shares, Sum, compare, total, total_from};
use std::cmp::Ordering;

#[test]
fn sums(rt: HostRuntime) {
    same(&rt, total::<Sum>(&[]), 0);
    same(&rt, total::<Sum>(&[0, 3, 65_535]), 65_538);
    same(&rt, total::<Sum>(&[65_535; 24]), 1_572_840);
    same(&rt, Sum::step(4_294_967_294, 1), 4_294_967_295);
    same(&rt, Sum::step(4_294_967_295, 1), 4_294_967_295);
    same(&rt, Sum::step(u64::MAX, 65_535), 4_294_967_295);
    same(&rt, Sum::no_worse(2, 2), true);
    same(&rt, total_from::<Sum>(3, &[65_535, 7]), 65_545);
    same(&rt, compare::<Sum>(2, 3), Ordering::Greater);
    same(&rt, compare::<Sum>(2, 2), Ordering::Equal);
    same(&rt, compare::<Sum>(3, 2), Ordering::Less);
}

#[test]
fn shares(rt: HostRuntime) {
    same(&rt, total::<Shares>(&[]), 1);
    same(&rt, total::<Shares>(&[10, 20, 99]), 7_200);
    same(&rt, total::<Shares>(&[0; 9]), 1_000_000_000_000_000_000);
    same(&rt, total::<Shares>(&[0; 10]), 1_000_000_000_000_000_000);
    same(&rt, Shares::step(7, 99), 7);
    same(&rt, Shares::step(7, 100), 7);
    same(&rt, Shares::step(7, 150), 7);
    let most = 1_000_000_000_000_000_000;
    same(&rt, Shares::step(most, 98), most);
    same(&rt, Shares::step(u64::MAX, 0), most);
    same(&rt, Shares::no_worse(2, 2), true);
    same(&rt, total_from::<Shares>(90, &[20, 99]), 7_200);
    same(&rt, compare::<Shares>(3, 2), Ordering::Greater);
    same(&rt, compare::<Shares>(2, 2), Ordering::Equal);
    same(&rt, compare::<Shares>(2, 3), Ordering::Less);
}

// The two figures as generic code reads them.
fn figures<S: Score>() -> (usize, u16) {
    (S::MOST_CELLS, S::HIGHEST_PENALTY)
}

#[test]
fn figures_of_the_scores(rt: HostRuntime) {
    same(&rt, Sum::START, 0);
    same(&rt, Shares::START, 1);
    let cells = [
        Sum::MOST_CELLS,
        figures::<Sum>().0,
        Shares::MOST_CELLS,
        figures::<Shares>().0,
    ];
    same(&rt, cells, [24, 24, 9, 9]);
    let penalties = [
        Sum::HIGHEST_PENALTY,
        figures::<Sum>().1,
        Shares::HIGHEST_PENALTY,
        figures::<Shares>().1,
    ];
    same(&rt, penalties, [65_535, 65_535, 99, 99]);
}
