// Tests of the reader, of its runs and of lists, with answers worked out by hand from the rules.
#![tactic(auto)]

#[cfg(test)]
mod answers;
#[cfg(test)]
mod grants;
#[cfg(test)]
mod list_places;
#[cfg(test)]
mod lists_made;
#[cfg(test)]
mod on_the_sheet;
#[cfg(test)]
mod order;
#[cfg(test)]
mod owned;
#[cfg(test)]
mod readings;
#[cfg(test)]
mod refusals;
#[cfg(test)]
mod single_calls;
