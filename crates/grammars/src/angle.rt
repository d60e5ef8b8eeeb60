// Latitudes DDMMTTTH and longitudes DDDMMTTTH: an axis is the grammar of its texts.
ghost use Rattle.std.specs.Prelude.{◌≡◌, Decides};
ghost use Rattle.positions.specs.Angles.{is_angle, Written};
ghost use Rattle.grammars.specs.Angles.{opening_digits, opening_degrees, opening_minutes, opening_whole, allows_angle, angle_sets};
ghost use Rattle.grammars.specs.Axes.{angle_laws};

use crate::Grammar;
pub use positions::Axis;
use positions::numerals::{all_digits, number};

// An opening of a text of the axis. Each part is judged once it is there.
#[derive(Clone, Copy)]
struct Opening<'a> {
    axis: Axis,
    text: &'a [u8],
}

impl Opening<'_> {
    fn digits_open(&self) -> bool
        ensures { result ≡ opening_digits self.now.axis self.now.text.now }
    {
        let figures = self.axis.degree_figures() + 5;
        all_digits(&self.text[0..figures.min(self.text.len())])
    }

    // An opening that ends before the degrees, or before the minutes, is not refused for them: so each first asks its length.
    fn degrees_open(&self) -> bool
        ensures { result ≡ opening_degrees self.now.axis self.now.text.now }
    {
        let figures = self.axis.degree_figures();
        self.text.len() < figures || number(&self.text[0..figures]) <= self.axis.most_degrees()
    }

    fn minutes_open(&self) -> bool
        ensures { result ≡ opening_minutes self.now.axis self.now.text.now }
    {
        let tens = self.axis.degree_figures();
        self.text.len() <= tens || self.text[tens] <= b'5'
    }

    fn whole_opens(&self) -> bool
        ensures { result ≡ opening_whole self.now.axis self.now.text.now }
    {
        self.text.len() < self.axis.degree_figures() + 6 || self.axis.is_angle(self.text)
    }

    // Whether a search for the text of an angle may go on from the opening: every beginning of such a text is
    // allowed, and some others are.
    fn is_allowed(&self) -> bool
        ensures { result ≡ allows_angle self.now.axis self.now.text.now }
    {
        self.text.len() <= self.axis.degree_figures() + 6
            && self.digits_open()
            && self.degrees_open()
            && self.minutes_open()
            && self.whole_opens()
    }
}

impl Grammar for Axis {
    ghost meaning = { angle_sets };

    ghost laws = { angle_laws };

    // The admitted texts are those of the axis's angles in range.
    fn is_admitted(&self, text: &[u8]) -> bool
        ensures value { result ≡ is_angle self.now text.now }
        ensures written { Decides result (Written self.now text.now) }
    {
        self.is_angle(text)
    }

    fn is_allowed(&self, opening: &[u8]) -> bool {
        let opening = Opening {
            axis: *self,
            text: opening,
        };
        opening.is_allowed()
    }
}
