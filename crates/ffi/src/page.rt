// Judges a page.
ghost use Rattle.std.specs.Prelude.{◌≡◌};
ghost use Rattle.pages.specs.Reading.{read_page};
ghost use Rattle.pages.specs.Faults.{page_details};
ghost use Rattle.ffi.specs.Answers.{answered};
ghost use Rattle.ffi.specs.Pages.{checked_of};

use crate::answers::{DONE, NONE};
use crate::refusals::RefusalFields;
use lists::count_lines;

// What is said of a page.
#[repr(C)]
#[derive(Clone, Copy)]
pub struct Checked {
    pub lines: usize,
    pub place: usize,
    pub line: usize,
    pub cell: usize,
}

// Judges a page, and says what is wrong with it and where.
#[unsafe(no_mangle)]
pub extern "C" fn markbook_check_page(page: &[u8], checked: &mut Checked) -> u8
    ensures answer { result ≡ answered (λ f. (page_details f).number) (read_page page.now) }
    ensures checked { checked.new ≡ checked_of (read_page page.now) }
{
    match count_lines(page) {
        Ok(lines) => {
            *checked = Checked {
                lines,
                place: NONE,
                line: NONE,
                cell: NONE,
            };
            DONE
        }
        Err(fault) => {
            let fields = RefusalFields::of(fault.details());
            *checked = Checked {
                lines: 0,
                place: fields.place,
                line: fields.line,
                cell: fields.cell,
            };
            fields.number
        }
    }
}
