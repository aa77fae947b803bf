//! The lines of a document, each after the prefix of the quotes and items that it is in.
ghost use Rattle.std.specs.Prelude.{◌≡◌, ◌≤◌, ◌++◌, ◌&&◌, ◌==◌, IfOk, OnOk, true, false, drop, length, replicate};
ghost use Rattle.std.specs.Prelude.{string_bytes};
ghost use Rattle.std.specs.List.{list_all, list_any};
ghost use Rattle.std.specs.Char.{is_ascii};
ghost use Rattle.htmd_lexical.specs.Characters.{line_feed, number_sign, space};
ghost use Rattle.htmd_text.specs.Trims.{trimmed_end, is_line_feed, is_space};
ghost use Rattle.htmd_commonmark.specs.BlockMarkdown.{separator};
ghost use Rattle.htmd_commonmark.specs.Pages as page;

use htmd_text::push_repeated;
use htmd_text::repeats::trailing_len;
use std::alloc::{AllocError, Global};
use std::marker::Model;

/// What comes before a line of a quote.
const QUOTE: &str = "> ";

/// What was written so far, and what is due on the line. The prefix is written when the first character of a line
/// comes; an empty line gets it without the spaces at its end.
#[derive(Drop)]
pub(crate) struct Lines {
    out: String,
    /// What comes before each line of the open quotes and items.
    prefix: String,
    /// How much of the prefix this line has.
    written: usize,
    /// The spaces after a list marker, which are written if something follows in the item.
    gap: usize,
}

impl Model for Lines {
    ghost use Rattle.htmd_commonmark.specs.Pages.{Page, IsPage};
    ghost use Rattle.std.specs.Prelude.{string_bytes};

    ghost Value = { Page };

    ghost view = { λ l. record {
      out = string_bytes l.out;
      prefix = string_bytes l.prefix;
      written = l.written;
      gap = l.gap;
    } };

    ghost invariant = { λ l. IsPage (record {
      out = string_bytes l.out;
      prefix = string_bytes l.prefix;
      written = l.written;
      gap = l.gap;
    }) };
}

impl Lines {
    /// Nothing is written yet.
    pub(crate) fn new(alloc: Global) -> Lines
        ensures { result ≡ page.nothing }
    {
        Lines {
            out: String::new(alloc),
            prefix: String::new(alloc),
            written: 0,
            gap: 0,
        }
    }

    /// What was written.
    pub(crate) fn into_text(self) -> String
        ensures { string_bytes result ≡ self.out }
    {
        self.out
    }

    /// Appends a text, its further lines after the prefix.
    pub(crate) fn push(&mut self, text: &str) -> Result<(), AllocError>
        ensures { OnOk result (self.new ≡ page.wrote self.old text.now) }
    {
        if holds_line_feed(text.as_bytes()) {
            self.push_lines(text)
        } else {
            self.push_in_line(text)
        }
    }

    /// The same of a text with line feeds.
    fn push_lines(&mut self, text: &str) -> Result<(), AllocError>
        ensures { OnOk result (self.new ≡ page.wrote self.old text.now) }
    {
        let mut from = 0;
        for (i, byte) in text.as_bytes().iter().enumerate() {
            if *byte == b'\n' {
                self.push_in_line(&text[from..i])?;
                self.end_line()?;
                from = i + 1;
            }
        }
        self.push_in_line(&text[from..])
    }

    /// Ends the line of a block; the next block of a loose text comes after an empty line.
    pub(crate) fn push_separator(&mut self, tight: bool) -> Result<(), AllocError>
        ensures { OnOk result (self.new ≡ page.wrote self.old (separator tight)) }
    {
        self.end_line()?;
        if !tight {
            self.end_line()?;
        }
        Ok(())
    }

    /// Appends this many number signs.
    pub(crate) fn push_signs(&mut self, count: u8) -> Result<(), AllocError>
        ensures { OnOk result (self.new ≡ page.wrote self.old (replicate count number_sign)) }
    {
        for _i in 0..count {
            self.push_in_line("#")?;
        }
        Ok(())
    }

    /// Appends a text without line feeds.
    pub(crate) fn push_in_line(&mut self, text: &str) -> Result<(), AllocError>
        requires { list_any is_line_feed text.now ≡ false }
        ensures { OnOk result (self.new ≡ page.wrote self.old text.now) }
    {
        if text.is_empty() {
            return Ok(());
        }
        push_due(&mut self.out, &self.prefix, self.written, self.gap)?;
        self.gap = 0;
        self.written = self.prefix.len();
        self.out.push_str(text)
    }

    /// Appends a line feed.
    fn end_line(&mut self) -> Result<(), AllocError>
        ensures { OnOk result (self.new ≡ page.with_byte self.old line_feed) }
    {
        push_bare_prefix(&mut self.out, &self.prefix, self.written, self.gap)?;
        self.out.push('\n')?;
        self.gap = 0;
        self.written = 0;
        Ok(())
    }

    /// What follows is in a quote. Returns how long the prefix is outside of it.
    pub(crate) fn open_quote(&mut self) -> Result<usize, AllocError>
        ensures page { OnOk result (self.new ≡ page.in_quote self.old) }
        ensures within { self.old.written ≤ length self.old.prefix }
        ensures outside { IfOk result (λ len. len ≡ length self.old.prefix) }
    {
        let outside = self.prefix.len();
        self.prefix.push_str(QUOTE)?;
        Ok(outside)
    }

    /// The quote ends; its last line has a `>` even if it is empty.
    pub(crate) fn close_quote(&mut self, outside: usize) -> Result<(), AllocError>
        ensures { OnOk result (self.new ≡ page.behind_quote self.old outside) }
    {
        if self.written < self.prefix.len() {
            push_bare_prefix(&mut self.out, &self.prefix, self.written, self.gap)?;
            self.gap = 0;
            self.written = self.prefix.len();
        }
        self.leave(outside);
        Ok(())
    }

    /// Appends the marker of an item. What follows is in the item, this many spaces after the marker. Returns how long
    /// the prefix is outside of the item.
    pub(crate) fn open_item(&mut self, marker: &str, spaces: usize) -> Result<usize, AllocError>
        ensures page { OnOk result (self.new ≡ page.in_item self.old marker.now spaces) }
        ensures outside { IfOk result (λ len. len ≡ length self.old.prefix) }
    {
        self.push(marker)?;
        let outside = self.prefix.len();
        push_repeated(&mut self.prefix, ' ', marker.len())?;
        push_repeated(&mut self.prefix, ' ', spaces)?;
        self.written = self.prefix.len();
        self.gap = spaces;
        Ok(outside)
    }

    /// The item ends.
    pub(crate) fn close_item(&mut self, outside: usize)
        ensures { self.new ≡ page.behind_item self.old outside }
    {
        self.gap = 0;
        self.leave(outside);
    }

    /// Leaves this much of the prefix.
    fn leave(&mut self, outside: usize)
        ensures { self.new ≡ page.left self.old outside }
    {
        let len = outside.min(self.prefix.len());
        self.prefix.truncate(len);
        self.written = self.written.min(len);
    }
}

/// Whether a line feed is among the bytes. All are looked at, so that a processor can compare many at once.
fn holds_line_feed(bytes: &[u8]) -> bool
    ensures { result ≡ list_any is_line_feed bytes.now }
{
    // A number, since of a bool LLVM makes branches where this is inlined.
    let mut found = 0;
    for b in bytes {
        found = found.max((*b == b'\n') as u8);
    }
    found == 1
}

/// Whether a line has its prefix, and no spaces are due.
fn is_written(prefix: &str, written: usize, gap: usize) -> bool
    ensures { result ≡ (gap == 0 && written == length prefix.now) }
{
    gap == 0 && written == prefix.len()
}

/// Appends what is due on a line on which something follows: spaces, and of the prefix what the line doesn't have.
fn push_due(out: &mut String, prefix: &str, written: usize, gap: usize) -> Result<(), AllocError>
    requires within { written ≤ length prefix.now }
    requires ascii { list_all is_ascii prefix.now ≡ true }
    ensures { OnOk result (string_bytes out.new ≡ string_bytes out.old
        ++ (replicate gap space ++ drop written prefix.now)) }
{
    if is_written(prefix, written, gap) {
        return Ok(());
    }
    push_repeated(out, ' ', gap)?;
    out.push_str(&prefix[written..])
}

/// Appends what is due on a line on which nothing follows: spaces, and of the prefix what the line doesn't have,
/// without spaces at its end.
fn push_bare_prefix(
    out: &mut String,
    prefix: &str,
    written: usize,
    gap: usize,
) -> Result<(), AllocError>
    requires within { written ≤ length prefix.now }
    requires ascii { list_all is_ascii prefix.now ≡ true }
    ensures { OnOk result (string_bytes out.new ≡ string_bytes out.old
        ++ (replicate gap space ++ trimmed_end is_space (drop written prefix.now))) }
{
    if is_written(prefix, written, gap) {
        return Ok(());
    }
    push_rest(out, prefix, written, gap)
}

/// The same of a line on which something is due.
fn push_rest(out: &mut String, prefix: &str, written: usize, gap: usize) -> Result<(), AllocError>
    requires within { written ≤ length prefix.now }
    requires ascii { list_all is_ascii prefix.now ≡ true }
    ensures { OnOk result (string_bytes out.new ≡ string_bytes out.old
        ++ (replicate gap space ++ trimmed_end is_space (drop written prefix.now))) }
{
    push_repeated(out, ' ', gap)?;
    let due = &prefix[written..];
    out.push_str(&due[..due.len() - trailing_len(due.as_bytes(), b' ')])
}
