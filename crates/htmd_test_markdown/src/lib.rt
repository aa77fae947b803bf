//! Each function of `htmd_text` and each writer of `htmd_markdown`, on rows of their rules. Expected values are written
//! by hand from the rules, and never taken from the code.
#![tactic(auto)]

#[cfg(test)]
mod blocks;
#[cfg(test)]
mod code_blocks;
#[cfg(test)]
mod code_spans;
#[cfg(test)]
mod links;
#[cfg(test)]
mod lists;
#[cfg(test)]
mod owned_texts;
#[cfg(test)]
mod short_texts;
#[cfg(test)]
mod tables;
#[cfg(test)]
mod texts;
