// Reads and writes positions.
ghost use Rattle.std.specs.Prelude.{◌≡◌, ◌++◌, drop, is_ok, length, if◌then◌else◌};
ghost use Rattle.positions.specs.Positions.{refusal, reading, writing, position_text};
ghost use Rattle.ffi.specs.Answers.{answered, given_or};

use crate::answers::DONE;
use positions::{read_position, write_position};

// Reads a position text as two numbers.
#[unsafe(no_mangle)]
pub extern "C" fn markbook_read_position(text: &[u8], latitude: &mut i32, longitude: &mut i32) -> u8
    ensures answer { result ≡ answered refusal (reading text.now) }
    ensures latitude { latitude.new ≡ (given_or (latitude.old, longitude.old) (reading text.now)).0 }
    ensures longitude { longitude.new ≡ (given_or (latitude.old, longitude.old) (reading text.now)).1 }
{
    match read_position(text) {
        Ok(pair) => {
            (*latitude, *longitude) = pair;
            DONE
        }
        Err(refusal) => refusal.number(),
    }
}

// Writes the text of a position.
#[unsafe(no_mangle)]
pub extern "C" fn markbook_write_position(
    latitude: i32,
    longitude: i32,
    place: &mut [u8],
    written: &mut usize,
) -> u8
    ensures answer { result ≡ answered refusal (writing latitude longitude (length place.old)) }
    ensures place { place.new ≡ (if is_ok (writing latitude longitude (length place.old)) then position_text latitude longitude ++ drop 17 place.old else place.old) }
    ensures written { written.new ≡ given_or written.old (writing latitude longitude (length place.old)) }
{
    match write_position((latitude, longitude), place) {
        Ok(count) => {
            *written = count;
            DONE
        }
        Err(refusal) => refusal.number(),
    }
}
