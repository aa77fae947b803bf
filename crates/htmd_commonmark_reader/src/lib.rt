//! A reader of CommonMark 0.31.2 with GitHub's tables, strikethrough and task items: what the definitions of
//! `htmd_commonmark_reading` say of a text, as code.
#![tactic(auto, using(std::proofs::lemmas::Grind::common_steps))]

mod block_parts;
mod block_starts;
mod blocks;
mod brackets;
mod bullet_runs;
mod byte_runs;
mod characters;
mod closed;
mod containers;
mod definitions;
mod delimiter_runs;
mod destinations;
mod emphasis;
mod html;
mod html_blocks;
mod inline_tokens;
mod inlines;
mod labels;
mod leaf_blocks;
mod leaf_rows;
mod leaf_texts;
mod leaves;
mod lines;
mod link_definitions;
mod link_targets;
mod lists;
mod markers;
mod open_containers;
mod parts;
mod raw_tags;
mod reading;
mod references;
mod slot_parts;
mod slots;
mod starts;
mod steps;
mod table_parts;
mod tables;
mod targets;
mod tasks;

pub use html::markdown_to_html;
pub use reading::read_markdown;
