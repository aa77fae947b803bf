//! The text of a page's bytes in the encodings of the web, by the Encoding Standard and the HTML Standard: labels, what
//! a page declares of its encoding, and decoders.
#![tactic(auto, using(std::proofs::lemmas::Grind::common_steps))]

mod attributes;
mod big5;
mod content_labels;
mod cuts;
mod declarations;
mod decoding;
mod encodings;
mod euc_jp;
mod euc_kr;
mod gb18030;
mod indexes;
mod iso_2022_jp;
mod labels;
mod multi_byte;
mod prescan;
mod sequences;
mod shift_jis;

pub use decoding::page_text;
pub use encodings::{ByteOrder, Encoding, MultiByte, SingleByte};
pub use labels::encoding_named;
