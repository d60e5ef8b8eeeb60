// Tables of cases whose answers come from outside: calendar facts, and angles and bytes worked out by hand.
#![tactic(auto)]

#[cfg(test)]
mod angles;
#[cfg(test)]
mod dates;
#[cfg(test)]
mod judged;
#[cfg(test)]
mod lines;
#[cfg(test)]
mod numerals;
#[cfg(test)]
mod pairs;
#[cfg(test)]
mod plots;
#[cfg(test)]
mod sheets;
#[cfg(test)]
mod totals;
