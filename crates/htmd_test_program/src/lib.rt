//! Tests of the program: runs that fail at each of their ends, its options and lines, batches, any page in each
//! encoding, and pages cut short. Expected values are written by hand from the rules.
#![tactic(auto)]

#[cfg(test)]
mod any_pages;
#[cfg(test)]
mod batches;
#[cfg(test)]
mod calls;
#[cfg(test)]
mod doubles;
#[cfg(test)]
mod ends;
#[cfg(test)]
mod errors;
#[cfg(test)]
mod explanations;
#[cfg(test)]
mod options;
#[cfg(test)]
mod statuses;
#[cfg(test)]
mod streams;
#[cfg(test)]
mod truncations;
