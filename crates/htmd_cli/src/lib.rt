//! The converter from HTML to Markdown as a program: it reads a source to its end, converts what it
//! read, and writes the Markdown and one line feed to a sink. What is written is a stated function of
//! what was read, and nothing is written of a page before its conversion has succeeded.
//!
//! `Source` and `Sink` are the two ends of a run, `Input` and `Output` make them from std's readers and
//! writers, `run` converts by a mode and `run_over` by settings, and `command` is the whole program with its
//! options and exit statuses. `page_text` is the text of a page's bytes, whatever their encoding is.
#![tactic(auto, using(std::proofs::lemmas::Grind::common_steps))]

mod answers;
mod completions;
mod explanations;
mod faults;
mod help;
mod manual;
mod markdown;
mod mode;
mod option_faults;
mod options;
mod pipeline;
mod program;
mod reports;
mod requests;
mod rows;
mod values;

pub use faults::{RowFault, RunError, StreamError};
pub use htmd::{Page, PageError, PageSettings as Settings, Pages, RunPage};
pub use htmd_encodings::{ByteOrder, Encoding, MultiByte, SingleByte, encoding_named, page_text};
pub use htmd_streams::{Failed, Input, Output, Sink, Source, read_field, write_field};
pub use mode::Mode;
pub use option_faults::{say_fault, say_warnings};
pub use pipeline::{convert_stream, run, run_over};
pub use program::command;
pub use reports::{report_article, report_page};
pub use requests::{OptionFault, Request, read_options};
pub use rows::run_rows;
