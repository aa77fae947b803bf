//! Parts, addresses, heads and changes of pages, and plans of files, on rows of their rules. Expected values are
//! written by hand from the rules, and never taken from the code.
#![tactic(auto)]

#[cfg(test)]
mod files;
#[cfg(test)]
mod heads;
#[cfg(test)]
mod leads;
#[cfg(test)]
mod pages;
#[cfg(test)]
mod trimmed;
