//! What is done with the input.
ghost use Rattle.std.specs.Prelude.{IfOk};
ghost use Rattle.htmd_bench.specs.Work.{HasLength};

use crate::faults::Fault;
use crate::speed::Speed;
use htmd::{HtmlToMarkdown, convert, to_markdown};
use htmd_html5::parse_html5;
use htmd_text::{compress_whitespace, escape_if_needed};
use htmd_tree::read_html;
use std::alloc::{AllocError, Global};
use std::time::{Duration, Instant};

/// What is done with the input: the first three take a text, the others a page.
#[derive(Clone, Copy)]
pub(crate) enum Work {
    Copy,
    Escape,
    Squeeze,
    Read,
    ReadAny,
    Walk,
    Document,
    Convert,
}

impl Work {
    pub(crate) fn name(self) -> &'static str {
        match self {
            Work::Copy => "copy",
            Work::Escape => "escape_if_needed",
            Work::Squeeze => "compress_whitespace",
            Work::Read => "read_html",
            Work::ReadAny => "parse_html5",
            Work::Walk => "tree_to_markdown",
            Work::Document => "document",
            Work::Convert => "convert",
        }
    }
}

/// Does the work, and tells how long the answer is: its bytes, or how many nodes are right under the Document.
pub(crate) fn answer_len(alloc: Global, work: Work, input: &str) -> Result<usize, Fault>
    ensures { IfOk result (HasLength work input.now) }
{
    match work {
        Work::Copy => Ok(String::from_str(alloc, input)?.len()),
        Work::Escape => Ok(escape_if_needed(alloc, input)?.as_str().len()),
        Work::Squeeze => Ok(compress_whitespace(alloc, input)?.as_str().len()),
        Work::Read => {
            let tree = read_html(alloc, input, true)?;
            Ok(tree.children(tree.root()).len())
        }
        Work::ReadAny => {
            let tree = parse_html5(alloc, input, true)?;
            Ok(tree.children(tree.root()).len())
        }
        Work::Walk => {
            let converter = HtmlToMarkdown::new(alloc)?;
            let tree = converter.html_to_tree(alloc, input)?;
            let markdown = converter.tree_to_markdown(alloc, &tree, tree.root())?;
            Ok(markdown.as_str().len())
        }
        Work::Document => {
            let converter = HtmlToMarkdown::new(alloc)?;
            let tree = converter.html_to_tree(alloc, input)?;
            let document = converter.tree_to_document(alloc, &tree)?;
            Ok(to_markdown(alloc, &document, &converter.document_options())?.len())
        }
        Work::Convert => Ok(convert(alloc, input)?.len()),
    }
}

/// How long the walk takes once with a converter that has this many registrations of tags that no page has.
fn walk_time(rt: &HostRuntime, input: &str, registered: usize) -> Result<Duration, Fault> {
    let mut builder = HtmlToMarkdown::builder(rt.alloc())?;
    for number in 0..registered {
        let tag = format!(in rt.alloc(); "other-{number}")?;
        let Ok(with_tag) = builder.skip_tags(&[tag.as_str()]) else {
            return Err(AllocError.into());
        };
        builder = with_tag;
    }
    let converter = builder.build();
    let tree = converter.html_to_tree(rt.alloc(), input)?;
    let start = Instant::now(rt)?;
    converter.tree_to_markdown(rt.alloc(), &tree, tree.root())?;
    Ok(start.elapsed(rt)?)
}

/// How long it takes once to make the document of a tree and to write it.
fn document_time(rt: &HostRuntime, input: &str) -> Result<Duration, Fault> {
    let converter = HtmlToMarkdown::new(rt.alloc())?;
    let tree = converter.html_to_tree(rt.alloc(), input)?;
    let start = Instant::now(rt)?;
    let document = converter.tree_to_document(rt.alloc(), &tree)?;
    to_markdown(rt.alloc(), &document, &converter.document_options())?;
    Ok(start.elapsed(rt)?)
}

/// How long the work takes once. The time to free a tree isn't counted.
fn time_of(
    rt: &HostRuntime,
    work: Work,
    input: &str,
    registered: usize,
) -> Result<Duration, Fault> {
    match work {
        Work::Read => {
            let start = Instant::now(rt)?;
            let _tree = read_html(rt.alloc(), input, true)?;
            Ok(start.elapsed(rt)?)
        }
        Work::ReadAny => {
            let start = Instant::now(rt)?;
            let _tree = parse_html5(rt.alloc(), input, true)?;
            Ok(start.elapsed(rt)?)
        }
        Work::Walk => walk_time(rt, input, registered),
        Work::Document => document_time(rt, input),
        _ => {
            let start = Instant::now(rt)?;
            answer_len(rt.alloc(), work, input)?;
            Ok(start.elapsed(rt)?)
        }
    }
}

/// The speed of the fastest of these rounds.
pub(crate) fn speed_of(
    rt: &HostRuntime,
    work: Work,
    input: &str,
    registered: usize,
    rounds: u32,
) -> Result<Speed, Fault> {
    let mut best = time_of(rt, work, input, registered)?;
    for _ in 1..rounds {
        best = best.min(time_of(rt, work, input, registered)?);
    }
    Ok(Speed::new(input.len(), best))
}
