// Numbers written with decimal figures.
ghost use Rattle.std.specs.Prelude.{◌≡◌, ◌<◌, ◌≤◌, min, length};
ghost use Rattle.positions.specs.Numerals.{digits, number_of, numeral};

pub fn all_digits(text: &[u8]) -> bool
    ensures { result ≡ digits text.now }
{
    text.iter().all(u8::is_ascii_digit)
}

// The number that the figures write, held at the largest `u32`.
pub fn number(figures: &[u8]) -> u32
    ensures value { result ≡ min (number_of figures.now) 4294967295 }
    ensures short { length figures.now ≤ 4 → result ≡ number_of figures.now }
    ensures small { length figures.now ≤ 3 → result < 23000 }
{
    figures.iter().fold(0, |n: u32, symbol| {
        n.saturating_mul(10)
            .saturating_add(u32::from(symbol.saturating_sub(b'0')))
    })
}

// Writes the last figures of `n`, as many as the place has. By hand, as a `Display` writes as many as there are, and asks
// for memory or a writer; and a figure fits by `as`. By index, since nothing is proved of a place that
// is written through `iter_mut().rev()`.
#[tactic(auto, using(crate::proofs::Figures::written_more), unfolding(crate::specs::Numerals::numeral))]
pub fn write_number(mut n: u32, place: &mut [u8])
    ensures { place.new ≡ numeral (length place.old) n }
{
    for i in (0..place.len()).rev() {
        place[i] = b'0' + (n % 10) as u8;
        n /= 10;
    }
}
