// Latitudes and longitudes at the ends of their ranges.
use crate::judged::Judged;
use positions::Axis;

const LATITUDES: Judged = Judged {
    admitted: &[
        b"9000000N",
        b"9000000S",
        b"0000000N",
        b"0000001S",
        b"8959999N",
        b"5012345N",
    ],
    not_admitted: &[
        b"9000001N",
        b"9000001S",
        b"9100000N",
        b"0000000S",
        b"5060000N",
        b"5012345E",
        b"5012345n",
        b"501234:N",
        b"501234N",
        b"50123456N",
        b"5012345",
        b" 012345N",
        b"",
    ],
    allowed: &[b"", b"9", b"90", b"905", b"9059999", b"501", b"0000000"],
    not_allowed: &[
        b"N",
        b"50/",
        b"91",
        b"906",
        b"501234N",
        b"0000000S",
        b"9059999N",
        b"5012345N0",
    ],
};

const LONGITUDES: Judged = Judged {
    admitted: &[
        b"18000000E",
        b"17959999W",
        b"17959999E",
        b"00000000E",
        b"00000001W",
        b"00412345W",
    ],
    not_admitted: &[
        b"18000000W",
        b"18000001E",
        b"18100000E",
        b"00000000W",
        b"00460000W",
        b"00412345N",
        b"0412345W",
        b"004123456W",
        b"",
    ],
    allowed: &[b"", b"99", b"180", b"1805", b"18059999", b"0041"],
    not_allowed: &[
        b"E",
        b"181",
        b"1806",
        b"0041234W",
        b"18000000W",
        b"00412345W0",
    ],
};

#[test]
fn latitudes(rt: HostRuntime) {
    LATITUDES.check(&rt, &Axis::Latitude);
}

#[test]
fn longitudes(rt: HostRuntime) {
    LONGITUDES.check(&rt, &Axis::Longitude);
}
