//! Trees, bodies, the strict reader and the serialiser, and the tokens of any page, on rows of their rules. Expected
//! values are written by hand from the rules, and never taken from the code.
#![tactic(auto)]

#[cfg(test)]
mod bodies;
#[cfg(test)]
mod reader;
#[cfg(test)]
mod tokens;
#[cfg(test)]
mod trees;
