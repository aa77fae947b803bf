//! Documents as Markdown and as JSON: that the calls succeed if there is memory. Expected values are written by hand
//! from the rules.
#![tactic(auto)]

#[cfg(test)]
mod documents;
