//! Tests of the converter that need code: handlers of your own, the registry, deep and large pages, and allocations
//! that fail. Tests that are a text and its answer are families of `htmd_test_cases`. Expected values are written by
//! hand from the rules, and never taken from the program's own output.
#![tactic(auto)]

#[cfg(test)]
mod builders;
#[cfg(test)]
mod captions;
#[cfg(test)]
mod custom;
#[cfg(test)]
mod depth;
#[cfg(test)]
mod handlers;
#[cfg(test)]
mod large_pages;
#[cfg(test)]
mod memory;
#[cfg(test)]
mod pages;
#[cfg(test)]
mod refusals;
#[cfg(test)]
mod registry;
