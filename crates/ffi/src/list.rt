// Lists the dates of a page.
ghost use Rattle.std.specs.Prelude.{◌≡◌, ◌⊎◌, ◌==◌, cond};
ghost use Rattle.lists.specs.Calls.{listing};
ghost use Rattle.placefault.specs.Numbers.{place_number};
ghost use Rattle.ffi.specs.Answers.{answered, given_or};

use crate::answers::{DONE, MEMORY};
use grammars::date::Date;
use lists::list_dates;
use reader::Reader;
use scores::Sum;
use std::alloc::Global;

// Writes the list of a page, by a reader of its own.
#[unsafe(no_mangle)]
pub extern "C" fn markbook_list_dates(
    heap: Global,
    page: &[u8],
    place: &mut [u8],
    written: &mut usize,
) -> u8
    ensures answer { (result ≡ 100) ⊎ (result ≡ answered (λ _. place_number) (listing page.now place.old).0) }
    ensures place { place.new ≡ cond (result == 100) place.old (listing page.now place.old).1 }
    ensures written { written.new ≡ cond (result == 100) written.old (given_or written.old (listing page.now place.old).0) }
{
    let Ok(mut reader) = Reader::new(heap, Date, Sum) else {
        return MEMORY;
    };
    match list_dates(&mut reader, page, place) {
        Ok(count) => {
            *written = count;
            DONE
        }
        Err(fault) => fault.number(),
    }
}
