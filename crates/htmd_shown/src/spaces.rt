//! White space of a paragraph.
ghost use Rattle.std.specs.Prelude.{◌≡◌, IfOk, string_bytes, encode_utf8_all};
ghost use Rattle.std.specs.Str.{chars};
ghost use Rattle.htmd_lexical.specs.Characters.{space};
ghost use Rattle.htmd_lexical.specs.CharacterClasses.{first_is};
ghost use Rattle.htmd_shown.specs.Spaces as spec;
ghost use Rattle.htmd_shown.specs.SpaceViews.{gap_of};
ghost use Rattle.htmd_text.specs.Trims.{trimmed_end};

use std::alloc::{AllocError, Global};

/// Whether it is white space that can't stand at the inner side of a mark (CommonMark 0.31.2, 6.2).
pub fn is_white(c: char) -> bool
    ensures { result ≡ spec.is_white c }
{
    c.is_ascii_whitespace() || is_wide_space(c)
}

/// Whether a text is white space alone.
pub fn is_blank_text(text: &str) -> bool
    ensures { result ≡ spec.is_blank_text text.now }
{
    text.chars().all(is_white)
}

/// Whether it is a space past ASCII.
fn is_wide_space(c: char) -> bool
    ensures { result ≡ spec.is_wide_space c }
{
    matches!(
        c,
        '\u{a0}' | '\u{1680}' | '\u{2000}'..='\u{200a}' | '\u{202f}' | '\u{205f}' | '\u{3000}'
    )
}

/// The text without the white space at its end.
pub fn without_white_end(text: &str) -> &str
    ensures { result.now ≡ encode_utf8_all (trimmed_end spec.is_white (chars text.now)) }
{
    let mut front = text;
    while let Some(c) = front.chars().next_back() {
        if !is_white(c) {
            return front;
        }
        front = &front[..front.len() - c.len_utf8()];
    }
    front
}

/// What is between two things that show.
#[derive(Drop)]
pub struct Gap {
    /// The white space in it after its last break.
    pub white: String,
    pub has_break: bool,
    /// Whether all of that white space is code.
    pub is_code: bool,
}

impl Gap {
    /// None yet.
    pub fn new(alloc: Global) -> Gap
        ensures { gap_of result ≡ spec.no_gap }
    {
        Gap {
            white: String::new(alloc),
            has_break: false,
            is_code: true,
        }
    }

    /// Forgets all.
    pub fn clear(&mut self)
        ensures { gap_of self.new ≡ spec.no_gap }
    {
        self.white.clear();
        self.has_break = false;
        self.is_code = true;
    }

    /// One more break takes the white space before it.
    pub fn push_break(&mut self)
        ensures { gap_of self.new ≡ spec.broken (gap_of self.old) }
    {
        self.white.clear();
        self.has_break = true;
        self.is_code = true;
    }

    /// One more white space; a space after a space is left out. `Err` means out of memory.
    pub fn push_white(&mut self, c: char, is_code: bool) -> Result<(), AllocError>
        ensures { IfOk result (λ _. gap_of self.new ≡ spec.spaced (gap_of self.old) c is_code) }
    {
        if c.is_ascii_whitespace() && ends_with_space(self.white.as_bytes()) {
            return Ok(());
        }
        self.white.push(shown_white(c))?;
        self.is_code &= is_code;
        Ok(())
    }
}

/// The white space as it is shown.
fn shown_white(c: char) -> char
    ensures { result ≡ spec.shown_white c }
{
    if c.is_ascii_whitespace() { ' ' } else { c }
}

/// Whether the first byte is a space.
pub fn begins_with_space(text: &[u8]) -> bool
    ensures { result ≡ first_is space text.now }
{
    match text {
        [first, ..] => *first == b' ',
        [] => false,
    }
}

/// Whether the last byte is a space.
fn ends_with_space(text: &[u8]) -> bool
    ensures { result ≡ spec.ends_with_space text.now }
{
    match text {
        [.., last] => *last == b' ',
        [] => false,
    }
}
