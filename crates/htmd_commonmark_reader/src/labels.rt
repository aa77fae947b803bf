//! Labels as they are compared (CommonMark 0.31.2, 6.3).
ghost use Rattle.std.specs.Prelude.{◌≡◌, ◌++◌, IfOk, OnOk, encode_utf8_all, length, nat_lt, string_bytes};
ghost use Rattle.std.specs.Str.{chars};
ghost use Rattle.htmd_commonmark_reading.specs.LinkDefinitions as spec;
ghost use Rattle.htmd_commonmark_reader.specs.Words.{space_before};

use crate::characters::{White, is_white, stripped_end};
use crate::link_definitions::past_white;
use htmd_scanning::{ByteClass, split_run};
use std::alloc::{AllocError, Global};
use unicode::caseless::default_case_fold_str;

/// The most characters that a label may have.
const LONGEST_LABEL: usize = 999;

/// All but spaces, tabs and line endings.
#[derive(Clone, Copy)]
struct OfWord;

impl ByteClass for OfWord {
    ghost use Rattle.htmd_commonmark_reader.specs.Words.{is_of_word};

    ghost bytes = { λ _. is_of_word };

    #[inline(always)]
    fn has(self, byte: u8) -> bool {
        !is_white(byte)
    }
}

/// Appends a space, unless nothing follows.
fn push_space_before(held: &mut String, after: &str) -> Result<(), AllocError>
    ensures { OnOk result (string_bytes held.new ≡ string_bytes held.old ++ space_before after.now) }
{
    if after.is_empty() {
        return Ok(());
    }
    held.push(' ')
}

/// A text with its white space as single spaces.
fn single_spaced(alloc: Global, text: &str) -> Result<String, AllocError>
    ensures { IfOk result (λ t. string_bytes t ≡ spec.single_spaced text.now) }
{
    let mut held = String::with_capacity(alloc, text.len())?;
    let mut rest = text;
    while !rest.is_empty() {
        let (word, after) = split_run(rest, OfWord);
        held.push_str(word)?;
        push_space_before(&mut held, after)?;
        rest = past_white(after);
    }
    Ok(held)
}

fn character_count(text: &str) -> usize
    ensures { result ≡ length (chars text.now) }
{
    text.chars().count()
}

/// Whether it has more characters than a label may have. Of a text with more bytes than those have none are counted.
fn is_long(label: &str) -> bool
    ensures { result ≡ nat_lt 999 (length (chars label.now)) }
{
    if label.len() > 4 * LONGEST_LABEL {
        return true;
    }
    character_count(label) > LONGEST_LABEL
}

/// A label as it is compared: its characters, case folded, without white space at the ends; nothing if there are none
/// or more than 999. `Err` means out of memory.
pub(crate) fn label_key(alloc: Global, label: &str) -> Result<String, AllocError>
    ensures { IfOk result (λ key. string_bytes key ≡ encode_utf8_all (spec.label_key label.now)) }
{
    if is_long(label) {
        return Ok(String::new(alloc));
    }
    let text = single_spaced(alloc, stripped_end(past_white(label), White))?;
    let key = default_case_fold_str(alloc, text.as_str())?;
    Ok(key)
}
