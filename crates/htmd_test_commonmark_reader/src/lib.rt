//! Texts as parts: that the call succeeds if there is memory. Expected values are those of examples of the
//! specifications of CommonMark and of GitHub.
#![tactic(auto)]

#[cfg(test)]
mod texts;
