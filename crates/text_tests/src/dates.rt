// The Gregorian calendar: 1904, 2000 and 2096 are leap years, 1900 is not.
use crate::judged::Judged;
use grammars::date::Date;

const DAYS: Judged = Judged {
    admitted: &[
        b"01011900",
        b"28021900",
        b"31121900",
        b"29021904",
        b"29022000",
        b"29022096",
        b"28022099",
        b"31122099",
        b"31011999",
        b"28021999",
        b"31031999",
        b"30041999",
        b"31051999",
        b"30061999",
        b"31071999",
        b"31081999",
        b"30091999",
        b"31101999",
        b"30111999",
        b"31121999",
    ],
    not_admitted: &[b"0101190", b"010119000", b""],
    // A month is judged from four symbols on, and a year with eight.
    allowed: &[
        b"", b"0", b"9", b"01", b"31", b"310", b"319", b"3112", b"2902", b"3004", b"29021",
        b"29029", b"2902190", b"0101999", b"010118",
    ],
    not_allowed: &[
        b"x",
        b"00",
        b"32",
        b"3002",
        b"3102",
        b"3104",
        b"0100",
        b"0113",
        b"01x",
        b"010120001",
    ],
};

// Texts of eight symbols.
const NO_DAYS: &[&[u8]] = &[
    b"29021900",
    b"29021903",
    b"29022099",
    b"30022000",
    b"31041999",
    b"31061999",
    b"31091999",
    b"31111999",
    b"32011999",
    b"00011999",
    b"01001999",
    b"01131999",
    b"31121899",
    b"01012100",
    b"01010000",
    b"99999999",
    b" 1011999",
    b"0101199x",
    b"0101199:",
    b"1/011999",
    b"01/01/99",
    b"1999AUG1",
];

#[test]
fn days_of_the_calendar(rt: HostRuntime) {
    DAYS.check(&rt, &Date);
    Judged::none(NO_DAYS).check(&rt, &Date);
}
