//! Tests of runs over a store in memory, at each of whose calls a run fails.
#![tactic(auto)]

#[cfg(test)]
mod copies;
#[cfg(test)]
mod doubles;
#[cfg(test)]
mod failures;
#[cfg(test)]
mod lines;
#[cfg(test)]
mod names;
#[cfg(test)]
mod newer;
