//! Fenced code blocks (CommonMark 0.31.2, 4.5).
ghost use Rattle.std.specs.Prelude.{◌≡◌, ◌<◌, ◌++◌, ℕ, true, drop, replicate, Some, IfOk, OnOk, string_bytes};
ghost use Rattle.std.specs.Option.{option_copied};
ghost use Rattle.htmd_markdown.specs.CodeBlocks.{code_of};
ghost use Rattle.htmd_markdown.specs.FenceReading.{read_fence, symbols_at_start};
ghost use Rattle.htmd_markdown.specs.Fences as spec;

use crate::code_block::code_of;
use crate::runs::longest_run;
use htmd_text::push_repeated;
use std::alloc::{AllocError, Global};

/// What a fence is made of.
#[derive(Debug, Clone, Copy, PartialEq)]
pub enum CodeBlockFence {
    /// `~`
    Tildes,
    /// a backquote
    Backticks,
}

/// The fewest symbols of a fence.
const LEAST_LEN: usize = 3;

/// The fenced code block of a content, without its one final line feed. The fence has three of its symbol, or one more
/// than the longest run of it in the content; the language stands after the first fence. A language that holds a line
/// end or the symbol is written as it is.
///
/// `Err` means out of memory.
pub fn write_fence(
    alloc: Global,
    content: &str,
    language: Option<&str>,
    symbol: CodeBlockFence,
) -> Result<String, AllocError>
    ensures fence { IfOk result (λ s. string_bytes s
        ≡ spec.fenced_code_block content.now (option_copied language.entry) symbol) }
    ensures longer { (k : ℕ) → symbols_at_start (spec.symbol_of symbol) (drop k content.now)
        < spec.fence_len (spec.symbol_of symbol) (code_of content.now) }
    ensures reads_back { spec.fits_fence (spec.symbol_of symbol)
        (spec.info_string (option_copied language.entry)) ≡ true
        → IfOk result (λ s. read_fence (string_bytes s) ≡ Some (code_of content.now)) }
{
    write_between_fences(alloc, code_of(content), language.unwrap_or(""), symbol)
}

/// The code between two fences, with the info string after the first one.
fn write_between_fences(
    alloc: Global,
    code: &str,
    info: &str,
    fence: CodeBlockFence,
) -> Result<String, AllocError>
    ensures { IfOk result (λ s. string_bytes s ≡ spec.between_fences
        (replicate (spec.fence_len (spec.symbol_of fence) code.now) (spec.symbol_of fence))
        info.now code.now) }
{
    let mut block = String::new(alloc);
    push_between_fences(&mut block, code, info, fence)?;
    Ok(block)
}

/// Appends the code between two fences, with the info string after the first one. A fence has three of its symbol, or
/// one more than the longest run of it in the code. `Err` means out of memory.
pub fn push_between_fences(
    out: &mut String,
    code: &str,
    info: &str,
    fence: CodeBlockFence,
) -> Result<(), AllocError>
    ensures { OnOk result (string_bytes out.new ≡ string_bytes out.old ++ spec.between_fences
        (replicate (spec.fence_len (spec.symbol_of fence) code.now) (spec.symbol_of fence))
        info.now code.now) }
{
    let symbol = symbol_of(fence);
    let len = LEAST_LEN.max(longest_run(code, symbol as u8) + 1);
    let room = len
        .saturating_mul(2)
        .saturating_add(info.len())
        .saturating_add(code.len());
    out.reserve(room.saturating_add(LINE_ENDS))?;
    push_repeated(out, symbol, len)?;
    out.push_str(info)?;
    out.push('\n')?;
    out.push_str(code)?;
    out.push('\n')?;
    push_repeated(out, symbol, len)
}

/// The line ends beside the code.
const LINE_ENDS: usize = 2;

/// The character that a fence is made of.
fn symbol_of(fence: CodeBlockFence) -> char
    ensures value { result ≡ spec.symbol_of fence }
    ensures ascii { result < 128 }
{
    match fence {
        CodeBlockFence::Tildes => '~',
        CodeBlockFence::Backticks => '`',
    }
}
