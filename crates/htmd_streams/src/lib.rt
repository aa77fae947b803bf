//! What a program of texts reads and writes: sources and sinks, and the lines and fields of rows.
#![tactic(auto, using(std::proofs::lemmas::Grind::common_steps))]

mod failed;
mod fields;
mod lines;
mod sinks;
mod sources;

pub use failed::Failed;
pub use fields::{NULL, read_field, write_field};
pub use lines::{fields_of, parted};
pub use sinks::{Output, Sink, write_all};
pub use sources::{Input, Source};
