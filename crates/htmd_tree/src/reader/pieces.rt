//! The content of a document, piece by piece, and where an implied `tbody` ends.
ghost use Rattle.std.specs.Prelude.{◌≡◌, map, ◌<◌, false, length, OnOk};
ghost use Rattle.std.specs.Str.{bytes_eq};
ghost use Rattle.std.specs.Char.{to_ascii_lowercase};
ghost use Rattle.htmd_lexical.specs.CharacterClasses.{is_empty};
ghost use Rattle.htmd_grammar.specs.RawContent.{ends_text};
ghost use Rattle.htmd_tree.specs.OpenNodes.{IsReading, innermost_name, WhateverIsOpen};
ghost use Rattle.htmd_tree.specs.Advances.{Advances, Ends, HasImpliedClosed};
ghost use Rattle.htmd_lexical.specs.CharacterClasses as classes;
ghost use Rattle.htmd_grammar.specs.OpenElements as spec;
ghost use Rattle.htmd_grammar.specs.Nesting as nesting;

use crate::reader::scan::begins_markup;
use crate::reader::{Reader, Stop};
use htmd_grammar::FaultKind;
use htmd_scanning::begins_own_end;

fn is_tag_name_byte(byte: u8) -> bool
    ensures { result ≡ classes.is_tag_name_byte byte }
{
    byte.is_ascii_alphanumeric() || matches!(byte, b'-' | b'_' | b'.' | b':')
}

/// Whether the tag name here is this one, which is in lower case.
pub(super) fn is_tag_name(bytes: &[u8], name: &[u8]) -> bool
    ensures { result ≡ bytes_eq
        (map to_ascii_lowercase (classes.leading_run classes.is_tag_name_byte bytes.now)) name.now }
{
    let mut rest = bytes;
    for letter in name {
        match rest {
            [b, behind @ ..] if is_tag_name_byte(*b) && b.to_ascii_lowercase() == *letter => {
                rest = behind;
            }
            _ => return false,
        }
    }
    match rest {
        [b, ..] => !is_tag_name_byte(*b),
        _ => true,
    }
}

/// Whether the name of a part of a table begins here.
fn is_table_part(bytes: &[u8]) -> bool
    ensures { result ≡ nesting.is_table_part
        (map to_ascii_lowercase (classes.leading_run classes.is_tag_name_byte bytes.now)) }
{
    is_tag_name(bytes, b"caption")
        || is_tag_name(bytes, b"colgroup")
        || is_tag_name(bytes, b"thead")
        || is_tag_name(bytes, b"tbody")
        || is_tag_name(bytes, b"tfoot")
}

/// Whether an implied `tbody` ends here: before a part of the table, or at the table's end.
pub(super) fn ends_rows(bytes: &[u8]) -> bool
    ensures { result ≡ spec.ends_rows bytes.now }
{
    match bytes {
        [b'<', b'/', name @ ..] => is_tag_name(name, b"table"),
        [b'<', c, ..] if c.is_ascii_alphabetic() => is_table_part(&bytes[1..]),
        _ => false,
    }
}

impl<'a> Reader<'a> {
    /// Closes an implied `tbody` that ends where the text that is left begins.
    fn close_implied_body(&mut self)
        requires reading { IsReading self.old }
        ensures implied_is_closed { WhateverIsOpen self.old (λ has_doctype fs.
            HasImpliedClosed self.old self.new has_doctype fs) }
        ensures reading { IsReading self.new }
        ensures rest { self.new.rest.now ≡ self.old.rest.now }
    {
        if !self.top().implied {
            return;
        }
        if ends_rows(self.rest.as_bytes()) {
            self.close_element(self.rest);
        }
    }

    /// Whether a text can't go on here: markup begins here, or the end of an element that holds only text.
    fn is_at_markup(&self) -> bool
        requires reading { IsReading self.now }
        ensures { WhateverIsOpen self.now (λ has_doctype fs.
            result ≡ ends_text self.now.scripting (innermost_name fs) self.now.rest.now) }
    {
        let bytes = self.rest.as_bytes();
        if self.top().surroundings.text_alone {
            begins_own_end(bytes, self.innermost_name().as_bytes())
        } else {
            begins_markup(bytes)
        }
    }

    /// Reads the next piece; `run` is memory for its text.
    fn read_piece(&mut self, run: &mut String) -> Result<(), Stop>
        requires reading { IsReading self.old }
        requires more { is_empty self.old.rest.now ≡ false }
        ensures advances { WhateverIsOpen self.old (λ has_doctype fs.
            Advances self.old self.new has_doctype fs result) }
        ensures reading { OnOk result (IsReading self.new) }
        ensures shorter { OnOk result (length self.new.rest.now < length self.old.rest.now) }
    {
        self.close_implied_body();
        if self.is_at_markup() {
            return self.read_markup();
        }
        if self.top().surroundings.raw_text {
            self.read_raw_text()
        } else {
            self.read_text(run)
        }
    }

    /// Reads the content of `body` up to the end of the text.
    pub(super) fn read_content(&mut self) -> Result<(), Stop>
        requires reading { IsReading self.old }
        ensures ends { WhateverIsOpen self.old (λ has_doctype fs.
            Ends self.old self.new has_doctype fs result) }
    {
        let mut run = String::new(self.alloc);
        while !self.rest.is_empty() {
            self.read_piece(&mut run)?;
        }
        if self.stack.len() > 1 {
            return Err(self.refused(FaultKind::Unclosed));
        }
        Ok(())
    }
}
