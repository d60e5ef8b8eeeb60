// Numbers and their figures. The neighbours of the digits are '/' and ':'.
use crate::judged::same;
use positions::numerals::{all_digits, number, write_number};
use std::process::Abort;

#[test]
fn numbers_of_figures(rt: HostRuntime) {
    let cases: &[(&[u8], u32, bool)] = &[
        (b"", 0, true),
        (b"0042", 42, true),
        (b"0123456789", 123_456_789, true),
        (b"4294967295", 4_294_967_295, true),
        (b"4294967296", 4_294_967_295, true),
        (b"/1", 1, false),
        (b":", 10, false),
        (b"12x", 192, false),
    ];
    for &(figures, n, digits) in cases {
        same(&rt, (number(figures), all_digits(figures)), (n, digits));
    }
}

fn check_written(rt: &impl Abort, n: u32, place: &mut [u8], figures: &[u8]) {
    write_number(n, place);
    same(rt, &*place, figures);
}

#[test]
fn figures_of_numbers(rt: HostRuntime) {
    check_written(&rt, 12_345, &mut [0; 3], b"345");
    check_written(&rt, 7, &mut [0; 2], b"07");
    check_written(&rt, 7, &mut [], b"");
}
