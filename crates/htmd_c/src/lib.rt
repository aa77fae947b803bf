//! The converter for C: exports over numbers and bytes, each a thin call. `bindings/c/htmd.h` declares them. A caller
//! must keep to what the header says: no pointer is null, each names as many bytes as its length says, and what is
//! written overlaps nothing else.
#![tactic(auto)]

ghost use Rattle.std.specs.Prelude.{◌≡◌, ◌≢◌, ◌≤◌, ◌<◌, ◌+◌, ◌++◌, ◌↔◌, [], ℕ, false, IsUtf8, drop, length};
ghost use Rattle.std.specs.Str.{IsValidUpTo};
ghost use Rattle.htmd.specs.Lines.{characters, line_front, lines_ended};
ghost use Rattle.htmd_c.specs.Options as spec;
ghost use Rattle.htmd_c.specs.CallResults.{BySettings, HasNoneSelected, IsRefusedAt, IsTooLong};
ghost use Rattle.htmd_c.specs.CallResults.{HasNoRoom, IsFront, IsWritten};
ghost use Rattle.htmd_commonmark_reading.specs.Reading.{read};
ghost use Rattle.htmd_commonmark_reading.specs.Rendering.{html_of};
ghost use Rattle.htmd_c.specs.CallResults.{status_of};
ghost use Rattle.htmd_c.specs.PageOptions.{AreNoNames, AreNoSelectors, IsNoBase, IsNoEncoding};
ghost use Rattle.htmd_grammar.specs.declared.fault.FaultKind.{FaultKind};
ghost use Rattle.htmd_grammar.specs.Faults.{number_of};

mod failures;
mod options;
mod output;
mod page_options;

use failures::Failure;
use htmd::{PageError, line_and_column, markdown_to_html};
pub use options::HtmdOptions;
use options::default_struct;
use output::{output_of, page_output_of};
pub use page_options::HtmdPageOptions;
use page_options::default_page_struct;
use std::alloc::Global;

/// What the text becomes was written.
pub const DONE: u32 = 0;
/// The buffer is shorter than what is to be written.
pub const TOO_SMALL: u32 = 1;
/// The text is outside the grammar.
pub const REFUSED: u32 = 2;
/// The bytes are not UTF-8.
pub const NOT_UTF8: u32 = 3;
/// Out of memory.
pub const NO_MEMORY: u32 = 4;
/// A field of the struct of options has a number that it may not have.
pub const BAD_OPTIONS: u32 = 5;
// 6 was a page in an encoding that wasn't supported. All are.
/// No element of the page is selected.
pub const NOTHING_SELECTED: u32 = 7;
/// What is to be converted isn't told by selectors.
pub const BAD_SELECT: u32 = 8;
/// What is to be left out isn't told by selectors.
pub const BAD_DROP: u32 = 9;
/// What gives nothing isn't told by names with commas between them.
pub const BAD_SKIP: u32 = 10;
/// The base isn't an absolute URL.
pub const BAD_BASE: u32 = 11;
/// The encoding isn't one that is supported.
pub const BAD_ENCODING: u32 = 12;

/// The options of `convert`: read as it stands, Pure, scripting on.
#[unsafe(no_mangle)]
pub extern "C" fn htmd_default_options(options: &mut HtmdOptions)
    ensures { options.new ≡ spec.default_struct }
{
    *options = default_struct();
}

/// The options of a page: those of `htmd_default_options`, and no texts.
#[unsafe(no_mangle)]
pub extern "C" fn htmd_default_page_options<'a>(options: &mut HtmdPageOptions<'a>)
    ensures options { options.new.options ≡ spec.default_struct }
    ensures select { options.new.select.now ≡ [] }
    ensures drop { options.new.drop.now ≡ [] }
    ensures skip { options.new.skip.now ≡ [] }
    ensures base { options.new.base.now ≡ [] }
    ensures encoding { options.new.encoding.now ≡ [] }
{
    *options = default_page_struct();
}

// Writes a text to the front of a buffer, if it has room.
fn write_front(text: &[u8], out: &mut [u8]) -> u32
    ensures status { (result ≡ DONE) ↔ (length text.now ≤ length out.old) }
    ensures other_status { result ≢ DONE → result ≡ TOO_SMALL }
    ensures done { result ≡ DONE → out.new ≡ text.now ++ drop (length text.now) out.old }
    ensures too_small { result ≡ TOO_SMALL → out.new ≡ out.old }
{
    if text.len() > out.len() {
        return TOO_SMALL;
    }
    out[..text.len()].copy_from_slice(text);
    DONE
}

// Says on the two numbers where bytes are wrong, and answers the status.
fn report(html: &[u8], failure: &Failure, place: &mut usize, kind: &mut u8) -> u32
    ensures status { result ≡ status_of failure.now }
    ensures refused { result ≡ REFUSED → (fault : FaultKind)
        × (failure.now ≡ Failure.Page (PageError.Refused place.new fault)) × (kind.new ≡ number_of fault) }
    ensures not_utf8 { result ≡ NOT_UTF8 → failure.now ≡ Failure.Page PageError.NotUtf8 }
    ensures place { ¬ IsUtf8 html.now → result ≡ NOT_UTF8 → IsValidUpTo html.now place.new }
    ensures nothing_selected { result ≡ NOTHING_SELECTED → failure.now ≡ Failure.Page PageError.NothingSelected }
    ensures no_place { result ≢ REFUSED → result ≢ NOT_UTF8 → place.new ≡ place.old }
    ensures no_kind { result ≢ REFUSED → kind.new ≡ kind.old }
{
    match failure {
        Failure::Page(
            PageError::Refused {
                place: at,
                kind: fault,
            },
        ) => {
            *place = *at;
            *kind = fault.number();
            REFUSED
        }
        Failure::Page(PageError::NotUtf8) => {
            *place = match str::from_utf8(html) {
                Ok(_) => 0,
                Err(fault) => fault.valid_up_to(),
            };
            NOT_UTF8
        }
        Failure::Page(PageError::Memory) => NO_MEMORY,
        Failure::Page(PageError::NothingSelected) => NOTHING_SELECTED,
        Failure::BadOptions => BAD_OPTIONS,
        Failure::BadSelect => BAD_SELECT,
        Failure::BadDrop => BAD_DROP,
        Failure::BadSkip => BAD_SKIP,
        Failure::BadBase => BAD_BASE,
        Failure::BadEncoding => BAD_ENCODING,
    }
}

/// Writes what bytes in UTF-8 become by the options, Markdown or JSON, to the front of the buffer. The status says what
/// was done; only `DONE` writes to the buffer, and `needed`, `place` and `kind` are 0 where they say nothing.
#[unsafe(no_mangle)]
pub extern "C" fn htmd_convert(
    alloc: Global,
    html: &[u8],
    options: &HtmdOptions,
    out: &mut [u8],
    needed: &mut usize,
    place: &mut usize,
    kind: &mut u8,
) -> u32
    ensures done { result ≡ DONE → IsWritten (spec.settings_of options.now) html.now out.old out.new needed.new }
    ensures too_small { result ≡ TOO_SMALL
        → IsTooLong (spec.settings_of options.now) html.now out.old needed.new }
    ensures utf8 { result ≤ TOO_SMALL → IsUtf8 html.now }
    ensures refused { result ≡ REFUSED
        → IsRefusedAt (spec.settings_of options.now) html.now place.new kind.new }
    ensures not_utf8 { result ≡ NOT_UTF8 → (¬ IsUtf8 html.now) × IsValidUpTo html.now place.new }
    ensures bad_options { (result ≡ BAD_OPTIONS) ↔ (spec.is_good options.now ≡ false) }
    ensures statuses { result ≤ BAD_OPTIONS }
    ensures untouched { result ≢ DONE → out.new ≡ out.old }
    ensures needs_nothing { result ≢ DONE → result ≢ TOO_SMALL → needed.new ≡ 0 }
    ensures no_place { result ≢ REFUSED → result ≢ NOT_UTF8 → place.new ≡ 0 }
    ensures no_kind { result ≢ REFUSED → kind.new ≡ 0 }
{
    *needed = 0;
    *place = 0;
    *kind = 0;
    match output_of(alloc, html, options) {
        Ok(output) => {
            *needed = output.len();
            write_front(output.as_bytes(), out)
        }
        Err(failure) => report(html, &failure, place, kind),
    }
}

/// Writes what the bytes of a page become by the options to the front of the buffer, as `convert_page` of `htmd` makes
/// it. `NOTHING_SELECTED` is a page of which no element is selected, and the statuses from `BAD_SELECT` say which text
/// of the options isn't what it has to be.
#[unsafe(no_mangle)]
pub extern "C" fn htmd_convert_page(
    alloc: Global,
    page: &[u8],
    options: &HtmdPageOptions<'_>,
    out: &mut [u8],
    needed: &mut usize,
    place: &mut usize,
    kind: &mut u8,
) -> u32
    ensures done { result ≡ DONE → BySettings options.now
        (λ settings. IsWritten settings page.now out.old out.new needed.new) }
    ensures too_small { result ≡ TOO_SMALL → BySettings options.now
        (λ settings. IsTooLong settings page.now out.old needed.new) }
    ensures refused { result ≡ REFUSED → BySettings options.now
        (λ settings. IsRefusedAt settings page.now place.new kind.new) }
    ensures not_utf8 { result ≡ NOT_UTF8 → (¬ IsUtf8 page.now) × IsValidUpTo page.now place.new }
    ensures bad_options { (result ≡ BAD_OPTIONS) ↔ (spec.is_good options.now.options ≡ false) }
    ensures nothing_selected { result ≡ NOTHING_SELECTED → HasNoneSelected options.now page.now }
    ensures bad_select { result ≡ BAD_SELECT → AreNoSelectors options.now.select.now }
    ensures bad_drop { result ≡ BAD_DROP → AreNoSelectors options.now.drop.now }
    ensures bad_skip { result ≡ BAD_SKIP → AreNoNames options.now.skip.now }
    ensures bad_base { result ≡ BAD_BASE → IsNoBase options.now.base.now }
    ensures bad_encoding { result ≡ BAD_ENCODING → IsNoEncoding options.now.encoding.now }
    ensures statuses { result ≤ BAD_ENCODING }
    ensures untouched { result ≢ DONE → out.new ≡ out.old }
    ensures needs_nothing { result ≢ DONE → result ≢ TOO_SMALL → needed.new ≡ 0 }
    ensures no_place { result ≢ REFUSED → result ≢ NOT_UTF8 → place.new ≡ 0 }
    ensures no_kind { result ≢ REFUSED → kind.new ≡ 0 }
{
    *needed = 0;
    *place = 0;
    *kind = 0;
    match page_output_of(alloc, page, options) {
        Ok(output) => {
            *needed = output.len();
            write_front(output.as_bytes(), out)
        }
        Err(failure) => report(page, &failure, place, kind),
    }
}

/// Writes the HTML of Markdown in UTF-8 to the front of the buffer, as `markdown_to_html` of `htmd` makes it. The
/// status says what was done; only `DONE` writes to the buffer, and `needed` and `place` are 0 where they say nothing.
#[unsafe(no_mangle)]
pub extern "C" fn htmd_markdown_to_html(
    alloc: Global,
    markdown: &[u8],
    out: &mut [u8],
    needed: &mut usize,
    place: &mut usize,
) -> u32
    ensures done { result ≡ DONE → IsFront (html_of (read markdown.now)) out.old out.new needed.new }
    ensures too_small { result ≡ TOO_SMALL → HasNoRoom (html_of (read markdown.now)) out.old needed.new }
    ensures utf8 { result ≤ TOO_SMALL → IsUtf8 markdown.now }
    ensures not_utf8 { result ≡ NOT_UTF8 → (¬ IsUtf8 markdown.now) × IsValidUpTo markdown.now place.new }
    ensures statuses { result ≤ NO_MEMORY }
    ensures not_refused { result ≢ REFUSED }
    ensures untouched { result ≢ DONE → out.new ≡ out.old }
    ensures needs_nothing { result ≢ DONE → result ≢ TOO_SMALL → needed.new ≡ 0 }
    ensures no_place { result ≢ NOT_UTF8 → place.new ≡ 0 }
{
    *needed = 0;
    *place = 0;
    let text = match str::from_utf8(markdown) {
        Ok(text) => text,
        Err(fault) => {
            *place = fault.valid_up_to();
            return NOT_UTF8;
        }
    };
    let Ok(html) = markdown_to_html(alloc, text) else {
        return NO_MEMORY;
    };
    *needed = html.len();
    write_front(html.as_bytes(), out)
}

/// The line and the column of a byte place in a text, both from 1, as `line_and_column` gives them; both 0 if the bytes
/// are not UTF-8.
#[unsafe(no_mangle)]
pub extern "C" fn htmd_line_and_column(
    html: &[u8],
    place: usize,
    line: &mut usize,
    column: &mut usize,
) -> u32
    ensures statuses { (result ≢ DONE → result ≡ NOT_UTF8) }
    ensures not_utf8 { (result ≡ NOT_UTF8) ↔ (¬ IsUtf8 html.now) }
    ensures line { result ≡ DONE → line.new ≡ 1 + lines_ended place html.now }
    ensures column { result ≡ DONE → column.new ≡ 1 + characters (line_front place html.now) }
    ensures neither { result ≡ NOT_UTF8 → (line.new ≡ 0) × (column.new ≡ 0) }
{
    *line = 0;
    *column = 0;
    let Ok(text) = str::from_utf8(html) else {
        return NOT_UTF8;
    };
    (*line, *column) = line_and_column(text, place);
    DONE
}
