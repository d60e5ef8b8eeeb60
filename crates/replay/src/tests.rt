// Tests of what a stored run cannot show, since a crate has one: other settings, scripts and arguments that are refused,
// and a page that cannot be read.
ghost use Rattle.std.specs.Prelude.{⊤};

use plays::{LoadFault, Play, Source};
use scripts::{Command, CommandFault, read_command, setting_of};
use settings::{Scoring, Setting, Wanted};
use std::alloc::Global;
use std::fmt::Debug;
use std::io;
use std::io::{ErrorKind, Read};
use std::process::Abort;

// Eight cells: 0; 1 at 0 or 2 at 55; 0; 1 at 0 or 2 at 30; 2; 0; 0; 0 at 0 or 1 at 30. Every chain of them is a date.
const ORDER_PAGE: &[u8] =
    b"\x01\x08\x010\0\0\x021\0\02\0\x37\x010\0\0\x021\0\02\0\x1e\x012\0\0\x010\0\0\x010\0\0\x020\0\01\0\x1e";

// Seventeen cells: 5, then 2 at 0 or 0 at 4, then 00000N00400000W.
const SHEET_PAGE: &[u8] =
    b"\x01\x11\x015\0\0\x022\0\00\0\x04\x010\0\0\x010\0\0\x010\0\0\x010\0\0\x010\0\0\x01N\0\0\x010\0\0\x010\0\0\x014\0\0\x010\0\0\x010\0\0\x010\0\0\x010\0\0\x010\0\0\x01W\0\0";

const SOUTHWEST: &str = "4900000N00600000W";

const NORTHEAST: &str = "5100000N00200000W";

const MEMORY: &str = "there is memory";

// What was found is what was worked out by hand. A test calls this and those below, and asserts
// nothing itself, since each `assert_eq!` in its own body would be proved there anew.
fn same<T: Copy + Debug + PartialEq>(rt: &impl Abort, found: T, wanted: T) {
    assert_eq!(rt; found, wanted);
}

// What is printed of the calls of a play.
fn check_lines(rt: &impl Abort, heap: Global, play: &mut Play<'_>, setting: Setting, wanted: &str) {
    play.run(heap, setting).expect(rt, MEMORY);
    let text = play.lines(heap).expect(rt, MEMORY);
    same(rt, text.as_str(), wanted);
}

// What is printed of a load of the page's line 0, a grant of 5, five nexts and a report.
fn check_played(rt: &impl Abort, heap: Global, setting: Setting, mut page: &[u8], wanted: &str) {
    let mut play = Play::new(heap);
    play.load("load page 0", &mut page, 0)
        .expect(rt, "the page is read");
    play.grant("grant 5", 5).expect(rt, MEMORY);
    for _ in 0..5u8 {
        play.next("next").expect(rt, MEMORY);
    }
    play.report("report").expect(rt, MEMORY);
    check_lines(rt, heap, &mut play, setting, wanted);
}

const DATES_BY_SUM: Setting = Setting {
    wanted: Wanted::Dates,
    scoring: Scoring::Sum,
};

const DATES_BY_SHARES: Setting = Setting {
    wanted: Wanted::Dates,
    scoring: Scoring::Shares,
};

const ORDER_BY_SUM: &str =
    "load page 0: loaded\ngrant 5: granted\nnext: found 01012000\nnext: found 01012001\nnext: found 01022000\nnext: found 02012000\nnext: found 01022001\nreport: 8 cells, 5 granted, 5 looked at, 5 handed out, 2 places in use\n";

const ORDER_BY_SHARES: &str =
    "load page 0: loaded\ngrant 5: granted\nnext: found 01012000\nnext: found 01012001\nnext: found 01022000\nnext: found 01022001\nnext: found 02012000\nreport: 8 cells, 5 granted, 5 looked at, 5 handed out, 2 places in use\n";

// 01012001 and 01022000 both come to 30 under the sum: the one that is lower in the first cell where they differ is first.
// 02012000 comes to 55, less than the 60 of 01022001; but it keeps 45 of a hundred, and 01022001 keeps 70 twice, which is 49.
#[test]
fn scores_order_differently(rt: HostRuntime) {
    check_played(&rt, rt.alloc(), DATES_BY_SUM, ORDER_PAGE, ORDER_BY_SUM);
    check_played(
        &rt,
        rt.alloc(),
        DATES_BY_SHARES,
        ORDER_PAGE,
        ORDER_BY_SHARES,
    );
}

const SHEET_BY_SUM: &str =
    "load page 0: loaded\ngrant 5: granted\nnext: found 5000000N00400000W\nnext: exhausted\nnext: exhausted\nnext: exhausted\nnext: exhausted\nreport: 17 cells, 5 granted, 2 looked at, 1 handed out, 0 places in use\n";

const SHEET_BY_SHARES: &str =
    "load page 0: refused 7, the score does not take the line\ngrant 5: refused 8, no line is loaded\nnext: refused 8, no line is loaded\nnext: refused 8, no line is loaded\nnext: refused 8, no line is loaded\nnext: refused 8, no line is loaded\nnext: refused 8, no line is loaded\nreport: 0 cells, 0 granted, 0 looked at, 0 handed out, 0 places in use\n";

fn setting_in(rt: &impl Abort, words: &[&str]) -> Setting {
    setting_of(words).expect(rt, "the arguments are good")
}

// 52 degrees lie north of the sheet. Shares take no line of 17 cells.
#[test]
fn positions_on_a_sheet(rt: HostRuntime) {
    let sums = setting_in(&rt, &["sheet", SOUTHWEST, NORTHEAST]);
    check_played(&rt, rt.alloc(), sums, SHEET_PAGE, SHEET_BY_SUM);
    let shares = setting_in(&rt, &["sheet", SOUTHWEST, NORTHEAST, "shares"]);
    check_played(&rt, rt.alloc(), shares, SHEET_PAGE, SHEET_BY_SHARES);
}

// A line of a script, and what is read of it.
type ReadLine = (&'static str, Result<Command<'static>, CommandFault>);

fn check_line(rt: &impl Abort, heap: Global, line: ReadLine) {
    let found = read_command(heap, line.0).expect(rt, MEMORY);
    same(rt, (line.0, found), line);
}

fn check_read(rt: &impl Abort, heap: Global, lines: &[ReadLine]) {
    for &line in lines {
        check_line(rt, heap, line);
    }
}

const CALLS: &[ReadLine] = &[
    (
        "load a.page 3",
        Ok(Command::Load {
            file: "a.page",
            number: 3,
        }),
    ),
    (
        "\tgrant  18446744073709551615 ",
        Ok(Command::Grant {
            chains: 18_446_744_073_709_551_615,
        }),
    ),
    ("next", Ok(Command::Next)),
    ("report", Ok(Command::Report)),
];

#[test]
fn calls_are_read(rt: HostRuntime) {
    check_read(&rt, rt.alloc(), CALLS);
}

const BAD_LINES: &[ReadLine] = &[
    ("load a.page", Err(CommandFault::Load)),
    ("load a.page 0 1", Err(CommandFault::Load)),
    ("load a.page first", Err(CommandFault::Load)),
    ("grant", Err(CommandFault::Grant)),
    ("grant -1", Err(CommandFault::Grant)),
    ("grant 18446744073709551616", Err(CommandFault::Grant)),
    ("next 1", Err(CommandFault::Next)),
    ("report now", Err(CommandFault::Report)),
    ("Next", Err(CommandFault::Call)),
    ("", Err(CommandFault::Call)),
];

#[test]
fn bad_lines_are_refused(rt: HostRuntime) {
    check_read(&rt, rt.alloc(), BAD_LINES);
}

// Arguments, and whether they are good.
const ARGUMENTS: &[(&[&str], bool)] = &[
    (&[], true),
    (&["shares"], true),
    (&["shares", "sheet", SOUTHWEST, NORTHEAST], false),
    (&["shares", "shares"], false),
    (&["sheet", SOUTHWEST], false),
    (&["sheet", NORTHEAST, SOUTHWEST], false),
];

#[test]
fn arguments_in_another_order_are_refused(rt: HostRuntime) {
    for &(words, good) in ARGUMENTS {
        same(&rt, (words, setting_of(words).is_ok()), (words, good));
    }
}

// A page that comes in two pieces, between which one read fails.
#[derive(Drop)]
struct Faltering<'a> {
    front: &'a [u8],
    back: &'a [u8],
    reads: usize,
    fault: ErrorKind,
}

impl Read for Faltering<'_> {
    fn read(&mut self, buffer: &mut [u8]) -> io::Result<usize> {
        self.reads = self.reads.saturating_add(1);
        match self.reads {
            1 => self.front.read(buffer),
            2 => Err(self.fault.into()),
            _ => self.back.read(buffer),
        }
    }
}

impl Source for Faltering<'_> {
    ghost may_fail = { λ _ _. ⊤ };

    fn give(&mut self, buffer: &mut [u8]) -> io::Result<usize> {
        self.read(buffer)
    }
}

fn page_in_two(fault: ErrorKind) -> Faltering<'static> {
    let (front, back) = ORDER_PAGE.split_at(9);
    Faltering {
        front,
        back,
        reads: 0,
        fault,
    }
}

// The read of the page fails with this error.
fn check_failed(rt: &impl Abort, play: &mut Play<'_>, kind: ErrorKind) {
    let failed = play.load("load page 0", &mut page_in_two(kind), 0);
    let Err(LoadFault::Reading(error)) = failed else {
        panic!(rt; "a failed read is no load");
    };
    same(rt, error.kind(), kind);
}

const FIRST_FOUND: &str = "load page 0: loaded\ngrant 5: granted\nnext: found 01012000\n";

// A read that failed is told with its error, and leaves nothing in the play: what is loaded next is the page alone.
#[test]
fn a_failed_read_leaves_the_play(rt: HostRuntime) {
    let mut play = Play::new(rt.alloc());
    check_failed(&rt, &mut play, ErrorKind::TimedOut);
    play.load("load page 0", &mut page_in_two(ErrorKind::Interrupted), 0)
        .expect(&rt, "the page is read");
    play.grant("grant 5", 5).expect(&rt, MEMORY);
    play.next("next").expect(&rt, MEMORY);
    let setting = setting_in(&rt, &[]);
    check_lines(&rt, rt.alloc(), &mut play, setting, FIRST_FOUND);
}
