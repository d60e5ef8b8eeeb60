// A refusal as the structs of include/markbook.h have it.
ghost use Rattle.std.specs.Prelude.{◌≡◌};
ghost use Rattle.ffi.specs.Refusals.{fields_of};

use crate::answers::NONE;
use pages::Details;

/// The fields that tell of a refusal, with `NONE` for a value that it does not have.
#[derive(Clone, Copy)]
pub(crate) struct RefusalFields {
    pub(crate) number: u8,
    pub(crate) place: usize,
    pub(crate) line: usize,
    pub(crate) cell: usize,
}

impl RefusalFields {
    /// Those of a refusal, for every struct that tells of one.
    pub(crate) fn of(details: Details) -> RefusalFields
        ensures { result ≡ fields_of details }
    {
        RefusalFields {
            number: details.number,
            place: details.place.unwrap_or(NONE),
            line: details.line.unwrap_or(NONE),
            cell: details.cell.unwrap_or(NONE),
        }
    }
}
