// Runs that the stored one does not show, as a crate has one: the most as a grant, an exhausted line and one that is spent for
// good, and lines, pages, grants and arguments that are refused.
ghost use Rattle.desk.specs.Desks.{Ready};

use desk::{Answer, Desk, Reply, Trouble, begin, read_answer, task_of};
use reader::Refusal;
use refusalwords::refused;
use std::alloc::Global;
use std::fmt::Debug;
use std::process::Abort;

// The page of the stored run.
const PAGE: &[u8] =
    b"\x01\x11\x025\0\04\0\x04\x010\0\0\x011\0\0\x012\0\0\x013\0\0\x014\0\0\x025\0\06\0\x03\x01N\0\0\x010\0\0\x021\0\00\0\x02\x014\0\0\x011\0\0\x012\0\0\x013\0\0\x014\0\0\x015\0\0\x01W\0\0";

// 5012, three cells with the digits 0 to 7 each, N01412345W: 512 chains, all of them west of the sheet.
const WEST: &[u8] =
    b"\x01\x11\x015\0\0\x010\0\0\x011\0\0\x012\0\0\x080\0\01\0\x012\0\x023\0\x034\0\x045\0\x056\0\x067\0\x07\x080\0\01\0\x012\0\x023\0\x034\0\x045\0\x056\0\x067\0\x07\x080\0\01\0\x012\0\x023\0\x034\0\x045\0\x056\0\x067\0\x07\x01N\0\0\x010\0\0\x011\0\0\x014\0\0\x011\0\0\x012\0\0\x013\0\0\x014\0\0\x015\0\0\x01W\0\0";

const SOUTHWEST: &str = "5000000N00500000W";

const NORTHEAST: &str = "5100000N00300000W";

const BEST: &str =
    "5012345N00412345W: position 50 12.345 N 4 12.345 W on the sheet, total 2; y, n, g N or q?";

const PLOTTED: &str = "plotted 002DF6F9FFFC2647: position 50 12.345 N 4 12.345 W on the sheet";

const SECOND: &str =
    "5012346N00412345W: position 50 12.346 N 4 12.345 W on the sheet, total 5; y, n, g N or q?";

const EXHAUSTED: &str = "exhausted: no other reading of the line is on the sheet; only q is left";

const LEFT: &str = "left, and nothing is plotted";

const SPENT: &str =
    "spent: the grant of 240 is used up, and the line takes no more; only q is left";

// The arguments for line 0.
const FIRST: &[&str] = &["mark.page", "0", SOUTHWEST, NORTHEAST];

// What was found is what was worked out by hand. A test calls this and those below, and asserts
// nothing itself, since each `assert_eq!` in its own body would be proved there anew.
fn same<T: Copy + Debug + PartialEq>(rt: &impl Abort, found: T, wanted: T) {
    assert_eq!(rt; found, wanted);
}

// The desk for line 0 of a page, under the most that may be granted.
fn desk_for(rt: &impl Abort, heap: Global, page: &[u8]) -> Desk
    ensures { Ready result }
{
    let task = task_of(FIRST).expect(rt, "the arguments are good");
    begin(heap, &task, page).expect(rt, "the line is taken")
}

// What the desk tells before an answer.
fn check_told(rt: &impl Abort, heap: Global, desk: &Desk, wanted: &str)
    requires ready { Ready desk.now }
{
    let text = desk.told(heap).expect(rt, "there is memory");
    same(rt, text.as_str(), wanted);
}

// What is replied to an answer, and whether it is the last.
fn check_reply(rt: &impl Abort, heap: Global, desk: &mut Desk, line: &str, wanted: &str, last: bool)
    requires ready { Ready desk.old }
    ensures ready { Ready desk.new }
{
    let reply = desk.answer(heap, line).expect(rt, "there is memory");
    match reply {
        Reply::Ask(text) => same(rt, (text.as_str(), false), (wanted, last)),
        Reply::Done(text) => same(rt, (text.as_str(), true), (wanted, last)),
    }
}

// What is seen first of a line that is refused.
fn refusal_of(rt: &impl Abort, heap: Global, words: &[&str], page: &[u8]) -> Option<Refusal> {
    let task = task_of(words).expect(rt, "the arguments are good");
    match begin(heap, &task, page) {
        Err(Trouble::Refused(refusal)) => Some(refusal),
        Ok(_) | Err(Trouble::Memory(_)) => None,
    }
}

// A line is refused in these words.
fn check_refused(rt: &impl Abort, heap: Global, words: &[&str], page: &[u8], wanted: &str) {
    let refusal = refusal_of(rt, heap, words, page).expect(rt, "no refusal");
    let text = refused(heap, page, refusal).expect(rt, "there is memory");
    same(rt, text.as_str(), wanted);
}

// 3,012,345 is 002DF6F9, and -252,345 is FFFC2647.
#[test]
fn the_best_on_the_sheet_is_plotted(rt: HostRuntime) {
    let mut desk = desk_for(&rt, rt.alloc(), PAGE);
    check_told(&rt, rt.alloc(), &desk, BEST);
    check_reply(&rt, rt.alloc(), &mut desk, " y ", PLOTTED, true);
}

// The page has eight chains, and two of them are on the sheet.
#[test]
fn a_line_is_exhausted_and_left(rt: HostRuntime) {
    let mut desk = desk_for(&rt, rt.alloc(), PAGE);
    check_reply(&rt, rt.alloc(), &mut desk, "n", SECOND, false);
    check_reply(&rt, rt.alloc(), &mut desk, "n", EXHAUSTED, false);
    check_reply(&rt, rt.alloc(), &mut desk, "n", EXHAUSTED, false);
    check_reply(&rt, rt.alloc(), &mut desk, "q", LEFT, true);
}

// 17 cells take 240 chains, since 17 times 240 is 4,080.
#[test]
fn a_line_is_spent_for_good(rt: HostRuntime) {
    check_told(&rt, rt.alloc(), &desk_for(&rt, rt.alloc(), WEST), SPENT);
}

// The arguments for the line behind the last, for a grant of nothing, and for a grant of one more
// than may be granted.
const BEHIND: &[&str] = &["mark.page", "1", SOUTHWEST, NORTHEAST];

const NOTHING: &[&str] = &["mark.page", "0", SOUTHWEST, NORTHEAST, "0"];

const TOO_MANY: &[&str] = &["mark.page", "0", SOUTHWEST, NORTHEAST, "241"];

const NO_COUNT: &str = "refused 1, the page ends where the count of lines is due";

const NO_LINE: &str = "refused 13, the page has no such line";

#[test]
fn refused_lines(rt: HostRuntime) {
    check_refused(&rt, rt.alloc(), FIRST, &[], NO_COUNT);
    check_refused(&rt, rt.alloc(), BEHIND, PAGE, NO_LINE);
    let refusal = refusal_of(&rt, rt.alloc(), NOTHING, PAGE);
    same(&rt, refusal, Some(Refusal::Grant));
    let refusal = refusal_of(&rt, rt.alloc(), TOO_MANY, PAGE);
    same(&rt, refusal, Some(Refusal::Grant));
}

const ANSWERS: &[(&str, Option<Answer>)] = &[
    ("y", Some(Answer::Confirm)),
    ("\tn ", Some(Answer::Next)),
    ("g  12", Some(Answer::Grant(12))),
    ("q", Some(Answer::Leave)),
    ("", None),
    ("Y", None),
    ("y n", None),
    ("g", None),
    ("g 1 2", None),
    ("g -1", None),
    ("g 18446744073709551616", None),
];

fn check_answer(rt: &impl Abort, heap: Global, line: &str, wanted: Option<Answer>) {
    let found = read_answer(heap, line).expect(rt, "there is memory");
    same(rt, (line, found), (line, wanted));
}

#[test]
fn answers_are_read(rt: HostRuntime) {
    for &(line, wanted) in ANSWERS {
        check_answer(&rt, rt.alloc(), line, wanted);
    }
}

const WRONG_ARGUMENTS: &[&[&str]] = &[
    &[],
    &["mark.page", "0", SOUTHWEST],
    &["mark.page", "first", SOUTHWEST, NORTHEAST],
    &["mark.page", "0", NORTHEAST, SOUTHWEST],
    &["mark.page", "0", SOUTHWEST, NORTHEAST, "all"],
    &["mark.page", "0", SOUTHWEST, NORTHEAST, "1", "2"],
];

#[test]
fn wrong_arguments(rt: HostRuntime) {
    for &words in WRONG_ARGUMENTS {
        same(&rt, (words, task_of(words).is_err()), (words, true));
    }
}
