// The numbers of the interface, as include/markbook.h has them. Those of a refusal are its own.

pub(crate) const DONE: u8 = 0;

pub(crate) const MEMORY: u8 = 100;

pub(crate) const UNKNOWN: u8 = 101;

// Stands where there is no such number: no line, no cell, no byte place.
pub(crate) const NONE: usize = usize::MAX;
