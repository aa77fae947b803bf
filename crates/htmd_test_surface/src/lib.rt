//! Tests of what `htmd` exports: each public item by its path, the texts of errors, the trees of pages, pages by
//! settings, the writers of pieces, and handlers of closures. Expected values are written by hand from the rules.
#![tactic(auto)]

#[cfg(test)]
mod closures;
#[cfg(test)]
mod errors;
#[cfg(test)]
mod nodes;
#[cfg(test)]
mod pages;
#[cfg(test)]
mod surface;
#[cfg(test)]
mod writers;
