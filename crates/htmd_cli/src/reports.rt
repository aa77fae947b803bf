//! Lines on the sink for errors.
ghost use Rattle.std.specs.Prelude.{◌≡◌};
ghost use Rattle.std.specs.Io.KnownBytes.{Appends};

use crate::explanations::{explain, explain_main_content};
use crate::faults::StreamError;
use crate::requests::Request;
use htmd::{PageError, PageSettings, main_content};
use htmd_streams::{Sink, write_all};
use std::alloc::Global;
use std::fmt;
use std::fmt::{Display, Write};

/// A sink as a formatter's writer.
#[derive(Drop)]
pub(crate) struct Lines<'a, E> {
    pub(crate) sink: &'a mut E,
}

impl<E: Sink> Write for Lines<'_, E> {
    ghost write_str_gives = { λ s bytes t. (t.sink.ghost_name ≡ s.sink.ghost_name)
        × Appends (E.contents s.sink.now) (E.contents t.sink.now) bytes };

    fn write_str(&mut self, text: &str) -> fmt::Result {
        match write_all(self.sink, text.as_bytes()) {
            Ok(()) => Ok(()),
            Err(_) => Err(fmt::Error),
        }
    }
}

/// Says which page of a batch is refused, and if requested, where and why.
pub(crate) fn report<E: Sink>(
    errors: &mut E,
    row: u64,
    error: &PageError,
    page: &[u8],
    explains: bool,
) {
    let mut lines = Lines { sink: errors };
    let _ = writeln!(lines, "htmd: row {row}: {error}");
    if explains {
        let _ = explain(&mut lines, error, page);
    }
}

/// Says where and why a page is refused, if it is.
fn explain_stream<E: Sink>(lines: &mut Lines<'_, E>, error: &StreamError, input: &[u8]) {
    if let StreamError::Page(error) = error {
        let _ = explain(lines, error, input);
    }
}

/// Says what the main content of a page is, and why.
pub(crate) fn explain_article<E: Sink>(
    alloc: Global,
    errors: &mut E,
    settings: &PageSettings<'_>,
    page: &[u8],
) {
    if let Ok(article) = main_content(alloc, page, settings) {
        let _ = explain_main_content(&mut Lines { sink: errors }, &article);
    }
}

/// Says what the main content of one page of several is, and why, if the request is for that and to explain it.
pub fn report_article<E: Sink, P: Display>(
    alloc: Global,
    errors: &mut E,
    path: &P,
    request: &Request<'_>,
    page: &[u8],
) {
    let settings = request.settings();
    if !request.explains() || !settings.article {
        return;
    }
    if let Ok(article) = main_content(alloc, page, settings) {
        let mut lines = Lines { sink: errors };
        let _ = write!(lines, "htmd: {path}: ");
        let _ = explain_main_content(&mut lines, &article);
    }
}

/// What helps if the strict reader refused a page.
fn hint(error: &StreamError) -> &'static str {
    match error {
        StreamError::Page(PageError::Refused { .. }) => " (--web reads any page)",
        _ => "",
    }
}

/// Says why a page isn't converted, and if requested, where and why; `input` is what was read of it. Without the
/// request, a hint follows if the strict reader refused the page.
fn write_fault<E: Sink>(
    lines: &mut Lines<'_, E>,
    error: &StreamError,
    input: &[u8],
    explains: bool,
) {
    let hint = if explains { "" } else { hint(error) };
    let _ = writeln!(lines, "{error}{hint}");
    if explains {
        explain_stream(lines, error, input);
    }
}

/// Says why the only input isn't converted, as for one page of several.
pub(crate) fn report_input<E: Sink>(
    errors: &mut E,
    error: &StreamError,
    input: &[u8],
    explains: bool,
) {
    let mut lines = Lines { sink: errors };
    let _ = lines.write_str("htmd: ");
    write_fault(&mut lines, error, input, explains);
}

/// Says which page of several isn't converted, and if requested, where and why; `input` is what was read of it.
/// Without the request, a hint follows if the strict reader refused the page.
pub fn report_page<E: Sink, P: Display>(
    errors: &mut E,
    path: &P,
    error: &StreamError,
    input: &[u8],
    explains: bool,
) {
    let mut lines = Lines { sink: errors };
    let _ = write!(lines, "htmd: {path}: ");
    write_fault(&mut lines, error, input, explains);
}
