//! One run: read all, convert, write.
ghost use Rattle.std.specs.Prelude.{◌≡◌, ◌≢◌, ◌↔◌, ◌++◌, [], ℕ, Some, Err, true, false, IsTrue, IsUtf8};
ghost use Rattle.std.specs.Prelude.{OnOk, IfOk, IfErr, IfSome, IsErrAnd, IsErrOf};
ghost use Rattle.std.specs.Io.KnownBytes.{Appends, Consumes, IsAtEnd};
ghost use Rattle.htmd.specs.Conversions.{IsRefused};
ghost use Rattle.htmd.specs.FaultKind.{FaultKind};
ghost use Rattle.htmd_streams.specs.Ends.{FailsAtErr};
ghost use Rattle.htmd_cli.specs.Failures.{IsReadFault};
ghost use Rattle.htmd_cli.specs.ModeRuns.{HasMarkdown, IsBeforeConversion, WritesMarkdown};
ghost use Rattle.htmd_cli.specs.StreamConversions.{Ends, ending};
ghost use Rattle.htmd.specs.PageConverters.{IsReady, settings_of};
ghost use Rattle.htmd.specs.PageSettings.{page_in, settings_for, settings_in};

use crate::faults::{RunError, StreamError};
use crate::markdown::markdown_by;
use crate::mode::Mode;
use htmd::element_handler::Registry;
use htmd::{HtmlToMarkdown, PageConverter, PageInRun, PageSettings};
use htmd_streams::{Failed, Sink, Source, write_all};
use std::alloc::{AllocError, Global};

/// Reads the whole source, asks whether it is UTF-8, converts it by the mode, writes the Markdown and one line feed to
/// the sink, and flushes that. The source and the sink must not have failed before. The first fault in this order is
/// returned: `Read` or `Write` if the source or the sink failed, `NotUtf8` if all was read and isn't UTF-8, `Refused`
/// if it is HTML outside the grammar, `Memory` when out of memory. The sink is not touched before the conversion has
/// succeeded; after `Write` it isn't known how much was written.
pub fn run<R: Source, W: Sink>(
    alloc: Global,
    source: &mut R,
    sink: &mut W,
    mode: Mode,
) -> Result<(), RunError>
    requires source { R.has_failed source.old ≡ false }
    requires sink { W.has_failed sink.old ≡ false }

    // All was read and is UTF-8; its Markdown and a line feed were written.
    ensures ok { OnOk result (IsAtEnd (R.remaining source.new) × IfSome (R.remaining source.old)
        (WritesMarkdown mode.text mode.faithful (W.contents sink.old) (W.contents sink.new))) }
    ensures not_utf8 { IsErrOf result RunError.NotUtf8 → IsAtEnd (R.remaining source.new)
        × IfSome (R.remaining source.old) (λ input. ¬ IsUtf8 input) }
    ensures refused_html { (place : ℕ) (kind : FaultKind) → result ≡ Err (RunError.Refused place kind)
        → mode.text ≡ false }
    ensures refused { (place : ℕ) (kind : FaultKind) → result ≡ Err (RunError.Refused place kind)
        → IsAtEnd (R.remaining source.new)
        × IfSome (R.remaining source.old) (λ input. IsUtf8 input × IsRefused true input place kind) }
    ensures write { IsErrOf result RunError.Write → IsAtEnd (R.remaining source.new)
        × IfSome (R.remaining source.old) (HasMarkdown mode.text mode.faithful) }

    // What isn't UTF-8 is answered as that: no fault of a conversion or of the sink comes before.
    ensures order { IfSome (R.remaining source.old)
        (λ input. ¬ IsUtf8 input → IsErrAnd result IsBeforeConversion) }
    ensures untouched { IfErr result (λ error. error ≢ RunError.Write → sink.new ≡ sink.old) }
    ensures read_failed { IsErrOf result RunError.Read ↔ IsTrue (R.has_failed source.new) }
    ensures write_failed { IsErrOf result RunError.Write ↔ IsTrue (W.has_failed sink.new) }
{
    let input = read_all(alloc, source)?;
    write_markdown(alloc, input.as_slice(), sink, mode)
}

/// Reads the whole source, and writes what it becomes by settings, and one line feed unless that is lines or HTML, to
/// the sink; also returns what was read, as `convert_stream` does it with a converter by these settings.
pub fn run_over<R: Source, W: Sink>(
    alloc: Global,
    source: &mut R,
    sink: &mut W,
    settings: &PageSettings<'_>,
) -> (Result<(), StreamError>, Vec<u8>)
    requires source { R.has_failed source.old ≡ false }
    requires sink { W.has_failed sink.old ≡ false }
    ensures ends { Ends (settings_in settings.now) (R.remaining source.old) (R.remaining source.new)
        W.contents sink.old sink.new result.0 }
    ensures read_failed { IsErrOf result.0 StreamError.Read ↔ IsTrue (R.has_failed source.new) }
    ensures write_failed { IsErrOf result.0 StreamError.Write ↔ IsTrue (W.has_failed sink.new) }
{
    let Ok(builder) = HtmlToMarkdown::builder(alloc) else {
        return (Err(StreamError::from(AllocError)), Vec::new(alloc));
    };
    let Ok(converter) = PageConverter::new(builder, settings) else {
        return (Err(StreamError::from(AllocError)), Vec::new(alloc));
    };
    convert_stream(alloc, source, sink, &converter, &PageInRun::alone())
}

/// Reads the whole source, and writes what `PageConverter::convert` makes of it, and one line feed unless that is
/// lines or HTML, to the sink; also returns what was read, which is nothing if the source or the memory failed while it
/// was read. The source and the sink must not have failed before. The sink is not touched before the conversion has
/// succeeded; after `Write` it isn't known how much was written.
pub fn convert_stream<R: Source, W: Sink, H: Registry>(
    alloc: Global,
    source: &mut R,
    sink: &mut W,
    converter: &PageConverter<'_, '_, H>,
    page: &PageInRun<'_>,
) -> (Result<(), StreamError>, Vec<u8>)
    requires source { R.has_failed source.old ≡ false }
    requires sink { W.has_failed sink.old ≡ false }
    requires ready { IsReady H.ready H.config converter.now }
    ensures ends { Ends (settings_for (page_in page.now) (settings_of converter.now))
        (R.remaining source.old) (R.remaining source.new) W.contents sink.old sink.new result.0 }
    ensures read_failed { IsErrOf result.0 StreamError.Read ↔ IsTrue (R.has_failed source.new) }
    ensures write_failed { IsErrOf result.0 StreamError.Write ↔ IsTrue (W.has_failed sink.new) }
{
    match read_all(alloc, source) {
        Ok(input) => (
            write_output(alloc, input.as_slice(), sink, converter, page),
            input,
        ),
        Err(error) => (Err(StreamError::from(error)), Vec::new(alloc)),
    }
}

const BUFFER_SIZE: usize = 8192;

// All that the source gives.
fn read_all<R: Source>(alloc: Global, source: &mut R) -> Result<Vec<u8>, RunError>
    requires source { R.has_failed source.old ≡ false }
    ensures bytes { IfOk result (λ input. Consumes (R.remaining source.old) (R.remaining source.new) input.items) }
    ensures end { OnOk result (IsAtEnd (R.remaining source.new)) }
    ensures read_failed { IsErrOf result RunError.Read ↔ IsTrue (R.has_failed source.new) }
    ensures others { IfErr result IsReadFault }
{
    let mut input = Vec::new(alloc);
    let mut buffer = [0u8; BUFFER_SIZE];
    loop {
        let Ok(count) = source.read(&mut buffer) else {
            return Err(RunError::Read);
        };
        if count == 0 {
            return Ok(input);
        }
        input.extend_from_slice(&buffer[..count])?;
    }
}

// Writes the Markdown of an input by a mode to the sink, if the input is UTF-8.
fn write_markdown<W: Sink>(
    alloc: Global,
    input: &[u8],
    sink: &mut W,
    mode: Mode,
) -> Result<(), RunError>
    requires sink { W.has_failed sink.old ≡ false }
    ensures ok { OnOk result
        (WritesMarkdown mode.text mode.faithful (W.contents sink.old) (W.contents sink.new) input.now) }
    ensures not_utf8 { IsErrOf result RunError.NotUtf8 ↔ ¬ IsUtf8 input.now }
    ensures refused_html { (place : ℕ) (kind : FaultKind) → result ≡ Err (RunError.Refused place kind)
        → mode.text ≡ false }
    ensures refused { (place : ℕ) (kind : FaultKind) → result ≡ Err (RunError.Refused place kind)
        → IsUtf8 input.now × IsRefused true input.now place kind }
    ensures write { IsErrOf result RunError.Write → HasMarkdown mode.text mode.faithful input.now }
    ensures untouched { IfErr result (λ error. error ≢ RunError.Write → sink.new ≡ sink.old) }
    ensures read { ¬ IsErrOf result RunError.Read }
    ensures write_failed { IsErrOf result RunError.Write ↔ IsTrue (W.has_failed sink.new) }
{
    let Ok(text) = str::from_utf8(input) else {
        return Err(RunError::NotUtf8);
    };
    let markdown = markdown_by(alloc, mode, text)?;
    match write_text(sink, markdown.as_str(), "\n") {
        Ok(()) => Ok(()),
        Err(_) => Err(RunError::Write),
    }
}

// Writes what an input becomes to the sink.
fn write_output<W: Sink, H: Registry>(
    alloc: Global,
    input: &[u8],
    sink: &mut W,
    converter: &PageConverter<'_, '_, H>,
    page: &PageInRun<'_>,
) -> Result<(), StreamError>
    requires sink { W.has_failed sink.old ≡ false }
    requires ready { IsReady H.ready H.config converter.now }
    ensures ends { Ends (settings_for (page_in page.now) (settings_of converter.now))
        (Some input.now) (Some []) W.contents sink.old sink.new result }
    ensures read { ¬ IsErrOf result StreamError.Read }
    ensures write_failed { IsErrOf result StreamError.Write ↔ IsTrue (W.has_failed sink.new) }
{
    let output = converter.convert(alloc, input, page)?;
    match write_text(sink, output.as_str(), ending(converter)) {
        Ok(()) => Ok(()),
        Err(_) => Err(StreamError::Write),
    }
}

/// What is written behind what a page becomes: a line feed, unless that is lines or HTML.
fn ending<H: Registry>(converter: &PageConverter<'_, '_, H>) -> &'static str
    ensures { result.now ≡ ending (settings_of converter.now) }
{
    if converter.writes_html() || converter.writes_lines() {
        ""
    } else {
        "\n"
    }
}

// Writes a text and its ending, and flushes.
fn write_text<W: Sink>(sink: &mut W, text: &str, ending: &str) -> Result<(), Failed>
    ensures bytes { OnOk result
        (Appends (W.contents sink.old) (W.contents sink.new) (text.now ++ ending.now)) }
    ensures failure { FailsAtErr result (W.has_failed sink.old) (W.has_failed sink.new) }
{
    write_all(sink, text.as_bytes())?;
    write_all(sink, ending.as_bytes())?;
    sink.flush()
}
