// Tests of the page file, with values worked out by hand from its rules.
#![tactic(auto)]

#[cfg(test)]
mod bounds;
#[cfg(test)]
mod cursor;
#[cfg(test)]
mod held;
#[cfg(test)]
mod pages_made;
#[cfg(test)]
mod refusals;
#[cfg(test)]
mod round_trip;
#[cfg(test)]
mod wording;
