//! Parts as HTML: that the call succeeds if there is memory. Expected values are those of examples of the
//! specifications of CommonMark and of GitHub, or written by hand from them.
#![tactic(auto)]

#[cfg(test)]
mod parts;
