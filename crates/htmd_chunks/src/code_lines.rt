//! The lines of a code block, and its parts.
ghost use Rattle.std.specs.Prelude.{◌≡◌, ◌≤◌, [], IfOk, length, map, string_bytes};
ghost use Rattle.std.specs.List.{slice_split};
ghost use Rattle.std.specs.Option.{option_copied};
ghost use Rattle.htmd_text.specs.Trims.{is_line_feed};
ghost use Rattle.htmd_document.specs.Documents as value;
ghost use Rattle.htmd_document.specs.DocumentViews.{block_of, bytes_of_title};
ghost use Rattle.htmd_markdown.specs.Fences as fences;
ghost use Rattle.htmd_markdown.specs.Runs as runs;
ghost use Rattle.htmd_chunks.specs.CodeLines as spec;
ghost use Rattle.htmd_chunks.specs.UnitViews.{unit_of_lines};

use crate::bounds::Bounds;
use crate::copies::copied_text;
use crate::numbers::{product, sum};
use crate::size::{Margin, Size};
use crate::units::{Room, Unit, run_counts};
use htmd_commonmark::{DocumentOptions, is_space};
use htmd_document::Block;
use htmd_markdown::CodeBlockFence;
use std::alloc::{AllocError, Global};

/// The fewest symbols of a fence.
const LEAST_LEN: usize = 3;

/// Whether there is nothing but white space in a line.
fn is_blank(line: &str) -> bool
    ensures { result ≡ spec.is_blank line.now }
{
    line.chars().all(|c| is_space(c))
}

/// The length of the longest run of the symbol.
fn longest_run(text: &str, symbol: u8) -> usize
    ensures bound { result ≤ length text.now }
    ensures value { result ≡ runs.longest_run symbol text.now }
{
    let bytes = text.as_bytes();
    let runs = bytes.split(|b| *b != symbol);
    runs.map(|run| run.len()).max().unwrap_or(0)
}

/// What a fence is made of.
fn symbol_of(fence: CodeBlockFence) -> u8
    ensures { result ≡ fences.symbol_of fence }
{
    match fence {
        CodeBlockFence::Tildes => b'~',
        CodeBlockFence::Backticks => b'`',
    }
}

/// The size of the two fences, with the language after the first one.
fn fences_size(
    options: &DocumentOptions,
    language: Option<&str>,
    text: &str,
) -> Result<Size, AllocError>
    ensures { IfOk result (λ size. size
        ≡ spec.fences_size options.now (option_copied language.entry) text.now) }
{
    let run = longest_run(text, symbol_of(options.code_block_fence));
    let fences = product(2, LEAST_LEN.max(run + 1))?;
    let bytes = sum(fences, language.unwrap_or("").len())?;
    Ok(Size {
        bytes: sum(bytes, 1)?,
        full: 2,
        empty: 0,
    })
}

/// The bytes of a line with its end.
fn line_cost(margin: Margin, line: &str) -> Result<usize, AllocError>
    ensures { IfOk result (λ bytes. bytes ≡ spec.line_cost margin line.now) }
{
    margin.cost(Size::of_text(line)?.plus(Size::of_gap(true))?)
}

/// The lines of a text.
fn lines_of(alloc: Global, text: &str) -> Result<Vec<&str>, AllocError>
    ensures { IfOk result
        (λ lines. map (λ line. line.now) lines.items ≡ slice_split is_line_feed text.now) }
{
    text.split('\n').collect(alloc)
}

/// The units of lines: those that aren't blank, each with the blank ones after it, the first with those before it too.
fn line_units(alloc: Global, margin: Margin, lines: &[&str]) -> Result<Vec<Unit>, AllocError>
    ensures { IfOk result (λ units. units.items
        ≡ map (unit_of_lines margin) (spec.units_from [] (map (λ line. line.now) lines.now))) }
{
    let mut units = Vec::new(alloc);
    let mut unit = Unit { count: 0, bytes: 0 };
    let mut is_begun = false;
    for line in lines {
        let is_filled = !is_blank(line);
        if is_filled && is_begun {
            units.push(unit)?;
            unit = Unit { count: 0, bytes: 0 };
        }
        is_begun = is_begun || is_filled;
        unit = Unit {
            count: sum(unit.count, 1)?,
            bytes: sum(unit.bytes, line_cost(margin, line)?)?,
        };
    }
    units.push(unit)?;
    Ok(units)
}

/// The text of these lines.
fn text_of(alloc: Global, lines: &[&str]) -> Result<String, AllocError>
    ensures { IfOk result (λ text. string_bytes text
        ≡ spec.joined_lines (map (λ line. line.now) lines.now)) }
{
    lines.join(alloc, "\n")
}

/// The parts of a code block, of which the first may have so many bytes. `Err` means out of memory.
pub(crate) fn code_parts(
    alloc: Global,
    bounds: &Bounds,
    margin: Margin,
    first: usize,
    language: &Option<String>,
    text: &str,
) -> Result<Vec<Block>, AllocError>
    ensures { IfOk result (λ parts. map block_of parts.items
        ≡ map (value.code_block (bytes_of_title language.now))
        (spec.code_parts bounds.now margin first (bytes_of_title language.now) text.now)) }
{
    let fences = fences_size(&bounds.options, language.as_deref(), text)?;
    let room = Room {
        first,
        most: bounds.most,
        always: margin.cost(fences)?,
        between: 0,
    };
    let lines = lines_of(alloc, text)?;
    let counts = run_counts(alloc, &line_units(alloc, margin, &lines)?, room)?;
    let mut parts = Vec::with_capacity(alloc, counts.len())?;
    let mut from = 0;
    for count in &counts {
        let to = from + *count;
        parts.push(Block::CodeBlock {
            language: copied_text(alloc, language)?,
            text: text_of(alloc, &lines[from..to])?,
        })?;
        from = to;
    }
    Ok(parts)
}

/// The bytes of the least part of a code block. `Err` means out of memory.
pub(crate) fn least_lines(
    alloc: Global,
    bounds: &Bounds,
    margin: Margin,
    language: &Option<String>,
    text: &str,
) -> Result<usize, AllocError>
    ensures { IfOk result (λ bytes. bytes
        ≡ spec.least_lines bounds.now margin (bytes_of_title language.now) text.now) }
{
    let fences = fences_size(&bounds.options, language.as_deref(), text)?;
    let always = margin.cost(fences)?;
    let lines = lines_of(alloc, text)?;
    match line_units(alloc, margin, &lines)?.first() {
        Some(unit) => sum(always, unit.bytes),
        None => Ok(always),
    }
}
