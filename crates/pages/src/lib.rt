// The page file: reads it line by line, refuses it exactly, and writes a line back to its bytes.
#![tactic(auto)]

mod faults;
mod few;
mod line_reader;
mod lines;
mod page_reader;
mod writer;

pub use faults::{
    AlternativeFault, CellFault, CountFault, Details, LineFault, Numbered, PageFault, Returned,
};
pub use line_reader::{read_alternative, read_line_at};
pub use lines::{Alternative, Cell, Line, MOST_ALTERNATIVES, MOST_CELLS};
pub use page_reader::{IntoLines, MOST_LINES, PageLines, line_of_page};
pub use writer::write_line;
