//! The texts of leaves: their lines, and the language of code (CommonMark 0.31.2, 4.4 to 4.6, 4.8).
ghost use Rattle.std.specs.Prelude.{◌≡◌, ◌++◌, option_map, replicate, string_bytes, IfOk, OnOk};
ghost use Rattle.htmd_lexical.specs.Characters.{space};
ghost use Rattle.htmd_commonmark_reading.specs.Boxes as spec;
ghost use Rattle.htmd_commonmark_reader.specs.LeafTexts.{line_break};
ghost use Rattle.htmd_commonmark_reader.specs.LineViews.{line_of};

use crate::characters::{is_white, unescaped};
use crate::lines::Line;
use htmd_scanning::{ByteClass, split_run};
use std::alloc::{AllocError, Global};

/// What a word of an info string goes on with.
#[derive(Clone, Copy)]
struct InWord;

impl ByteClass for InWord {
    ghost use Rattle.htmd_commonmark_reader.specs.LeafTexts.{is_in_word};

    ghost bytes = { λ _. is_in_word };

    #[inline(always)]
    fn has(self, byte: u8) -> bool {
        !(is_white(byte) || (byte > 10 && byte < 14))
    }
}

/// The language of code, the first word of its info string. `Err` means out of memory.
pub(crate) fn language(alloc: Global, info: &str) -> Result<Option<String>, AllocError>
    ensures { IfOk result (λ l. option_map (λ t. string_bytes t) l ≡ spec.language info.now) }
{
    let whole = unescaped(alloc, info)?;
    let (word, _) = split_run(whole.as_str(), InWord);
    if word.is_empty() {
        return Ok(None);
    }
    let language = String::from_str(alloc, word)?;
    Ok(Some(language))
}

fn push_spaces(text: &mut String, count: usize) -> Result<(), AllocError>
    ensures { OnOk result (string_bytes text.new ≡ string_bytes text.old ++ replicate count space) }
{
    for _i in 0..count {
        text.push(' ')?;
    }
    Ok(())
}

pub(crate) fn push_break(text: &mut String, is_first: bool) -> Result<(), AllocError>
    ensures { OnOk result (string_bytes text.new ≡ string_bytes text.old ++ line_break is_first) }
{
    if is_first {
        return Ok(());
    }
    text.push('\n')
}

/// Appends one more line, after a line feed if it isn't the first one.
pub(crate) fn push_line(text: &mut String, is_first: bool, line: Line<'_>) -> Result<(), AllocError>
    ensures { OnOk result (string_bytes text.new
        ≡ string_bytes text.old ++ (line_break is_first ++ (line_of line.entry).text)) }
{
    push_break(text, is_first)?;
    push_spaces(text, line.spaces)?;
    text.push_str(line.text)?;
    Ok(())
}
