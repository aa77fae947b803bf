//! Code spans (CommonMark 0.31.2, 6.1).
ghost use Rattle.std.specs.List.{list_all};
ghost use Rattle.std.specs.Prelude.{◌≡◌, ◌≢◌, ◌==◌, ◌&&◌, ◌||◌, ◌++◌, [], false, map, Some, if◌then◌else◌, IfOk, OnOk};
ghost use Rattle.std.specs.Prelude.{string_bytes};
ghost use Rattle.htmd_lexical.specs.Characters.{space};
ghost use Rattle.htmd_text.specs.Trims.{is_line_feed, trimmed_text};
ghost use Rattle.htmd_lexical.specs.WhiteSpace.{is_document_white_space};
ghost use Rattle.htmd_markdown.specs.CodeSpans as spec;
ghost use Rattle.htmd_markdown.specs.CodeSpanReading.{read_span, line_ends_as_spaces};

use crate::runs::{has_run, longest_run};
use htmd_text::{TrimDocumentWhitespace, push_repeated};
use std::alloc::{AllocError, Global};

/// The code span of a content: between backquotes, in one line with `preformatted_code`, else without document white
/// space at its ends. An empty content gives only the delimiters, which are not a code span.
///
/// `Err` means out of memory.
pub fn write_span(
    alloc: Global,
    content: &str,
    preformatted_code: bool,
) -> Result<String, AllocError>
    ensures span { IfOk result (λ s. string_bytes s ≡ spec.code_span preformatted_code content.now) }
    ensures reads_back { preformatted_code ≡ false
        → trimmed_text is_document_white_space content.now ≢ []
        → IfOk result (λ s. read_span (string_bytes s)
        ≡ Some (line_ends_as_spaces (trimmed_text is_document_white_space content.now))) }
{
    if preformatted_code {
        write_delimited(alloc, content, true)
    } else {
        write_delimited(alloc, content.trim_document_whitespace(), false)
    }
}

/// The spaces that may stand beside the text: one inside each delimiter, one at each end of a line.
const MOST_SPACES: usize = 4;

/// The text between its delimiters, in one line with `preformatted_code`.
fn write_delimited(alloc: Global, text: &str, preformatted_code: bool) -> Result<String, AllocError>
    ensures { IfOk result (λ s. string_bytes s ≡ spec.delimited_text
        (spec.meets_delimiter text.now || (preformatted_code && spec.is_between_spaces text.now))
        (spec.delimiter_len text.now)
        (if preformatted_code then spec.in_one_line text.now else text.now)) }
{
    let delimiter = delimiter_len(text);
    let padded = meets_delimiter(text) || (preformatted_code && is_between_spaces(text));
    let room = delimiter.saturating_mul(2).saturating_add(text.len());
    let mut span = String::with_capacity(alloc, room.saturating_add(MOST_SPACES))?;
    push_repeated(&mut span, '`', delimiter)?;
    push_space_if(&mut span, padded)?;
    push_content(&mut span, text, preformatted_code)?;
    push_space_if(&mut span, padded)?;
    push_repeated(&mut span, '`', delimiter)?;
    Ok(span)
}

/// Appends the text, in one line with `preformatted_code`.
fn push_content(out: &mut String, text: &str, preformatted_code: bool) -> Result<(), AllocError>
    ensures { OnOk result (string_bytes out.new ≡ string_bytes out.old
        ++ (if preformatted_code then spec.in_one_line text.now else text.now)) }
{
    if preformatted_code {
        push_in_one_line(out, text)
    } else {
        out.push_str(text)
    }
}

/// How many backquotes are before and after the text.
fn delimiter_len(text: &str) -> usize
    ensures { result ≡ spec.delimiter_len text.now }
{
    if meets_delimiter(text) {
        longest_run(text, b'`') + 1
    } else {
        smallest_unused_len(text)
    }
}

/// The smallest length of 1 or more that no run of backquotes in the text has.
pub fn smallest_unused_len(text: &str) -> usize
    ensures { result ≡ spec.smallest_unused_len text.now }
{
    let longest = longest_run(text, b'`');
    for len in 1..longest + 1 {
        if !has_run(text, b'`', len) {
            return len;
        }
    }
    longest + 1
}

/// Whether the text begins or ends with a backquote.
fn meets_delimiter(text: &str) -> bool
    ensures { result ≡ spec.meets_delimiter text.now }
{
    text.starts_with('`') || text.ends_with('`')
}

/// Whether the text begins and ends with a space, but is not only spaces.
fn is_between_spaces(text: &str) -> bool
    ensures { result ≡ spec.is_between_spaces text.now }
{
    text.starts_with(' ') && text.ends_with(' ') && !is_all(text, b' ')
}

/// Whether the text has no other character.
fn is_all(text: &str, character: u8) -> bool
    ensures { result ≡ list_all (λ b. b == character) text.now }
{
    text.as_bytes().iter().all(|b| *b == character)
}

/// Appends a space if it is due.
fn push_space_if(text: &mut String, due: bool) -> Result<(), AllocError>
    ensures { OnOk result (string_bytes text.new ≡ string_bytes text.old ++ spec.space_if due) }
{
    if due { text.push(' ') } else { Ok(()) }
}

/// Appends the text in one line.
fn push_in_one_line(span: &mut String, text: &str) -> Result<(), AllocError>
    ensures { OnOk result
        (string_bytes span.new ≡ string_bytes span.old ++ spec.in_one_line text.now) }
{
    push_space_if(span, text.starts_with('\n') && !is_all(text, b'\n'))?;
    push_with_spaces(span, text)?;
    push_space_if(span, text.ends_with('\n'))
}

/// Appends the text with each line feed as a space.
fn push_with_spaces(span: &mut String, text: &str) -> Result<(), AllocError>
    ensures { OnOk result (string_bytes span.new
        ≡ string_bytes span.old ++ map (λ b. if is_line_feed b then space else b) text.now) }
{
    let mut is_first = true;
    for line in text.split('\n') {
        push_space_if(span, !is_first)?;
        span.push_str(line)?;
        is_first = false;
    }
    Ok(())
}
