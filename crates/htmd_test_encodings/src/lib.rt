//! Tests of the text of pages in each encoding. Expected values are written by hand, or are those of Python's decoders.
#![tactic(auto)]

#[cfg(test)]
mod decoding;
#[cfg(test)]
mod indexes;
#[cfg(test)]
mod multi_byte;
