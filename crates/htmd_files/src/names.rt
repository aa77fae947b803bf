//! The names of pages, of their outputs, and of outputs that aren't finished.
ghost use Rattle.std.specs.Prelude.{◌≡◌, ◌<◌, true, slice_index, IfOk, string_bytes, option_copied};
ghost use Rattle.htmd_files.specs.Names as spec;
ghost use Rattle.htmd_files.specs.NameViews.{kind_of, naming_of};

use std::alloc::{AllocError, Global};

/// What the pages of a run are.
#[derive(Debug, Clone, Copy, PartialEq, Eq, Drop)]
pub enum PageKind {
    Html,
    Markdown,
}

/// Which files are pages, and how their outputs in a folder are named.
#[derive(Clone, Copy, Drop)]
pub struct Naming<'a> {
    pub kind: PageKind,
    /// What the names of outputs end with, without the full stop.
    pub extension: &'a str,
}

/// What comes before the ending, if the path has it, with ASCII letters in either case.
fn before_ending<'a>(path: &'a str, ending: &str) -> Option<&'a str>
    requires { slice_index ending.now 0 < 128 }
    ensures { option_copied result ≡ spec.before_ending path.now ending.now }
{
    let start = path.len().saturating_sub(ending.len());
    let (_, end) = path.as_bytes().split_at(start);
    if end.eq_ignore_ascii_case(ending.as_bytes()) {
        Some(&path[..start])
    } else {
        None
    }
}

/// What comes before the ending, if that is one of pages.
fn page_stem(kind: PageKind, path: &str) -> Option<&str>
    ensures { option_copied result ≡ spec.page_stem (kind_of kind) path.now }
{
    match kind {
        PageKind::Html => before_ending(path, ".html")
            .or(before_ending(path, ".htm"))
            .or(before_ending(path, ".xhtml")),
        PageKind::Markdown => before_ending(path, ".md").or(before_ending(path, ".markdown")),
    }
}

/// Whether a file with this path is a page: its name ends in `.html`, `.htm` or `.xhtml`, or if pages are Markdown, in
/// `.md` or `.markdown`, with ASCII letters in either case.
pub fn is_page(kind: PageKind, path: &str) -> bool
    ensures { result ≡ spec.is_page (kind_of kind) path.now }
{
    page_stem(kind, path).is_some()
}

/// What the name of an unfinished output ends with.
pub const UNFINISHED: &str = ".htmd-partial";

/// Whether a file with this path is an unfinished output.
pub(crate) fn is_unfinished(path: &str) -> bool
    ensures { result ≡ spec.is_unfinished path.now }
{
    path.ends_with(UNFINISHED)
}

/// Whether one of the names between slashes begins with a full stop.
#[tactic(auto, using(crate::proofs::NamesLemmas::next_byte))]
fn hides(path: &[u8]) -> bool
    ensures { result ≡ spec.hides true path.now }
{
    let mut begins = true;
    for byte in path {
        if begins && *byte == b'.' {
            return true;
        }
        begins = *byte == b'/';
    }
    false
}

/// Whether a file with this path is hidden, or in a hidden folder: a name begins with a full stop.
pub(crate) fn is_hidden(path: &str) -> bool
    ensures { result ≡ spec.is_hidden path.now }
{
    hides(path.as_bytes())
}

/// The path of a page's output: its own with the extension for the ending, or if that isn't one of pages, with the
/// extension after it. `Err` means out of memory.
pub fn with_extension(alloc: Global, naming: Naming<'_>, path: &str) -> Result<String, AllocError>
    ensures { IfOk result (λ name. string_bytes name ≡ spec.with_extension (naming_of naming.entry) path.now) }
{
    let stem = page_stem(naming.kind, path).unwrap_or(path);
    let mut name = String::from_str(alloc, stem)?;
    name.push('.')?;
    name.push_str(naming.extension)?;
    Ok(name)
}
