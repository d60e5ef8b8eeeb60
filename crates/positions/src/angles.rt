// Latitudes DDMMTTTH and longitudes DDDMMTTTH, as text and as signed thousandths of a minute.
ghost use Rattle.std.specs.Prelude.{◌≡◌, ◌^◌, ◌<◌, ◌≤◌, length, Decides};
ghost use Rattle.positions.specs.Angles.{figures_of, most_of, least_of, greatest_of, positive_of, negative_of, letter_for, width_of, degrees_of, minutes_of, thousandths_of, letter_of, magnitude_of, angle_of, in_range, fitting, is_angle, angle_read, angle_text, Written};

use crate::numerals::{all_digits, number, write_number};

// The two angles of a position. They differ in what these methods answer, and in nothing else: each is a `match`, as
// together they are the table of the two.
#[derive(Clone, Copy, Debug, PartialEq, Eq)]
pub enum Axis {
    Latitude,
    Longitude,
}

impl Axis {
    // How many figures the degrees have.
    pub fn degree_figures(self) -> usize
        ensures value { result ≡ figures_of self }
        ensures few { result ≤ 3 }
    {
        match self {
            Axis::Latitude => 2,
            Axis::Longitude => 3,
        }
    }

    // The most degrees on either side of zero.
    pub fn most_degrees(self) -> u32
        ensures value { result ≡ most_of self }
        ensures few { result ≤ 180 }
    {
        match self {
            Axis::Latitude => 90,
            Axis::Longitude => 180,
        }
    }

    // The least angle. The far end of the west is 180 degrees east.
    fn least(self) -> i32
        ensures { result ≡ least_of self }
    {
        match self {
            Axis::Latitude => -5_400_000,
            Axis::Longitude => -10_799_999,
        }
    }

    fn greatest(self) -> i32
        ensures { result ≡ greatest_of self }
    {
        // By `as`: it is at most 10,800,000, and `try_from` would only be unwrapped.
        (self.most_degrees() * 60_000) as i32
    }

    // N or E.
    fn positive(self) -> u8
        ensures { result ≡ positive_of self }
    {
        match self {
            Axis::Latitude => b'N',
            Axis::Longitude => b'E',
        }
    }

    // S or W.
    fn negative(self) -> u8
        ensures { result ≡ negative_of self }
    {
        match self {
            Axis::Latitude => b'S',
            Axis::Longitude => b'W',
        }
    }

    // How many symbols a text has.
    fn width(self) -> usize
        ensures { result ≡ width_of self }
    {
        self.degree_figures() + 6
    }

    pub fn is_in_range(self, angle: i32) -> bool
        ensures { result ≡ in_range self angle }
    {
        (self.least()..=self.greatest()).contains(&angle)
    }

    // Zero is N and E.
    fn letter(self, angle: i32) -> u8
        ensures { result ≡ letter_for self angle }
    {
        if angle < 0 {
            self.negative()
        } else {
            self.positive()
        }
    }

    // The angle is in range, and the letter is that of the angle.
    fn is_fitting(self, symbol: u8, angle: i32) -> bool
        ensures { result ≡ fitting self symbol angle }
    {
        self.is_in_range(angle) && symbol == self.letter(angle)
    }

    // The angle in range whose text it is.
    pub(crate) fn read(self, text: &[u8]) -> Option<i32>
        ensures { result ≡ angle_read self text.now }
    {
        if text.len() != self.width() {
            return None;
        }
        let text = AngleText { axis: self, text };
        // By `if`, so that the angle is worked out of such a text alone: `then_some` is given its value in any case.
        if text.has_form() {
            Some(text.angle())
        } else {
            None
        }
    }

    // Whether the text is that of an angle in range.
    pub fn is_angle(self, text: &[u8]) -> bool
        ensures value { result ≡ is_angle self text.now }
        ensures written { Decides result (Written self text.now) }
    {
        text.len() == self.width() && AngleText { axis: self, text }.has_form()
    }

    // Fills a place as wide as the axis's texts, by hand as `write_number` does.
    pub(crate) fn write(self, angle: i32, place: &mut [u8])
        requires { length place.old ≡ width_of self }
        ensures { place.new ≡ angle_text self angle }
    {
        let magnitude = angle.unsigned_abs();
        let at = self.degree_figures();
        write_number(magnitude / 60_000, &mut place[0..at]);
        write_number(magnitude / 1000 % 60, &mut place[at..at + 2]);
        write_number(magnitude % 1000, &mut place[at + 2..at + 5]);
        place[at + 5] = self.letter(angle);
    }
}

// A text as wide as the axis's: what stands where an angle's parts stand.
#[derive(Clone, Copy)]
struct AngleText<'a> {
    axis: Axis,
    text: &'a [u8],
    ghost whole: { length text.now ≡ width_of axis },
}

// Three parts, each a `number` of its own figures, and each with the bound that the sum in `magnitude` needs of it.
impl AngleText<'_> {
    fn degrees(&self) -> u32
        ensures value { result ≡ degrees_of self.now.axis self.now.text.now }
        ensures small { result < 23000 }
    {
        number(&self.text[0..self.axis.degree_figures()])
    }

    fn minutes(&self) -> u32
        ensures value { result ≡ minutes_of self.now.axis self.now.text.now }
        ensures small { result < 23000 }
    {
        let at = self.axis.degree_figures();
        number(&self.text[at..at + 2])
    }

    fn thousandths(&self) -> u32
        ensures value { result ≡ thousandths_of self.now.axis self.now.text.now }
        ensures small { result < 23000 }
    {
        let at = self.axis.degree_figures() + 2;
        number(&self.text[at..at + 3])
    }

    // How far from zero, in thousandths of a minute.
    fn magnitude(&self) -> u32
        ensures value { result ≡ magnitude_of self.now.axis self.now.text.now }
        ensures small { result < 2 ^ 31 }
    {
        (self.degrees() * 60 + self.minutes()) * 1000 + self.thousandths()
    }

    fn letter(&self) -> u8
        ensures { result ≡ letter_of self.now.axis self.now.text.now }
    {
        self.text[self.axis.degree_figures() + 5]
    }

    // What the text says, south and west negative.
    fn angle(&self) -> i32
        ensures { result ≡ angle_of self.now.axis self.now.text.now }
    {
        // By `as`: it is below 2^31.
        let magnitude = self.magnitude() as i32;
        if self.letter() == self.axis.negative() {
            -magnitude
        } else {
            magnitude
        }
    }

    // Whether it is the text of an angle in range.
    fn has_form(&self) -> bool
        ensures { result ≡ is_angle self.now.axis self.now.text.now }
    {
        all_digits(&self.text[0..self.axis.degree_figures() + 5])
            && self.minutes() < 60
            && self.axis.is_fitting(self.letter(), self.angle())
    }
}
