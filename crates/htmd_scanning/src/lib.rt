//! How a text is scanned, for both readers of HTML: how it begins, how long runs of characters are, what digits mean,
//! where raw content ends, where a value in quotation marks ends, what line ends are, and whether the names of
//! attributes are distinct.
#![tactic(auto, using(std::proofs::lemmas::Grind::common_steps))]

mod beginnings;
mod distinct;
mod end_tags;
mod line_ends;
mod numbers;
mod runs;
mod tag_parts;

pub use beginnings::{
    begins_in_any_case, begins_with, behind_mark, first_is, strip, strip_byte, strip_in_any_case,
};
pub use distinct::are_distinct;
pub use end_tags::{begins_own_end, goes_on_with_name, raw_content_len};
pub use line_ends::with_line_feeds;
pub use numbers::number;
pub use runs::{ByteClass, alphanumeric_len, digits_len, hexdigits_len, run_len, split_run};
pub use tag_parts::{Part, SpelledAttribute, TagForm, quoted_value};
