//! The words of a paragraph, and its parts.
ghost use Rattle.std.specs.Prelude.{◌≡◌, ◌++◌, ◌∷◌, [], IfOk, OnOk, codes, drop, map, reverse, string_bytes, take};
ghost use Rattle.std.specs.List.{flat_map};
ghost use Rattle.std.specs.Vec.Iter.{into_iter_items};
ghost use Rattle.htmd_lexical.specs.Characters.{is_one_of};
ghost use Rattle.htmd_document.specs.Documents as value;
ghost use Rattle.htmd_document.specs.DocumentViews.{inline_of, inlines_of, block_of};
ghost use Rattle.htmd_chunks.specs.UnitViews as views;
ghost use Rattle.htmd_chunks.specs.WordViews.{words_in, word_of};
ghost use Rattle.htmd_chunks.specs.Words as spec;

use crate::bounds::Bounds;
use crate::copies::copied_inline;
use crate::numbers::sum;
use crate::size::{Margin, Size};
use crate::units::{Room, Unit, run_counts};
use htmd_commonmark::{DocumentOptions, first_character, is_space, last_character, paragraph_text};
use htmd_document::{Block, Inline};
use std::alloc::{AllocError, Global};
use std::mem;
use std::vec::IntoIter;

/// What is in a word.
type Word = Vec<Inline>;

// ---- words

/// The words so far, and the one that is begun.
#[derive(Drop)]
struct Words {
    alloc: Global,
    done: Vec<Word>,
    now: Word,
}

/// Whether there is a character that isn't white space.
fn is_shown(c: Option<char>) -> bool
    ensures { result ≡ spec.is_shown c }
{
    match c {
        Some(c) => !is_space(c),
        None => false,
    }
}

/// Whether something that isn't white space is at the end of a text so far, or before it.
fn shows_before(before: bool, so_far: &str) -> bool
    ensures { result ≡ spec.shows_before before so_far.now }
{
    if so_far.is_empty() {
        before
    } else {
        is_shown(last_character(so_far))
    }
}

/// The same of the rest of a text, or after it.
fn shows_behind(behind: bool, rest: &str) -> bool
    ensures { result ≡ spec.shows_behind behind rest.now }
{
    if rest.is_empty() {
        behind
    } else {
        is_shown(first_character(rest))
    }
}

/// Whether something that can be beside a word comes next.
fn begins_shown(rest: &[Inline]) -> bool
    ensures { result ≡ spec.begins_shown (inlines_of rest.now) }
{
    match rest {
        [x, ..] => !matches!(x, Inline::LineBreak),
        [] => false,
    }
}

impl Words {
    /// Puts a part of a text behind the word.
    fn push_part(&mut self, part: &str) -> Result<(), AllocError>
        ensures now { OnOk result (map inline_of self.new.now.items
            ≡ spec.with_text (map inline_of self.old.now.items) part.now) }
        ensures done { self.new.done.items ≡ self.old.done.items }
    {
        if !part.is_empty() {
            self.now
                .push(Inline::Text(String::from_str(self.alloc, part)?))?;
        }
        Ok(())
    }

    /// Ends the word.
    fn end_word(&mut self) -> Result<(), AllocError>
        ensures now { self.new.now.items ≡ [] }
        ensures done { OnOk result (words_in self.new.done.items
            ≡ words_in self.old.done.items ++ map inline_of self.old.now.items ∷ []) }
    {
        let word = mem::replace(&mut self.now, Vec::new(self.alloc));
        self.done.push(word)?;
        Ok(())
    }

    /// Puts a text behind the word, cut at each space between characters that aren't white space.
    fn push_text(&mut self, text: &str, before: bool, behind: bool) -> Result<(), AllocError>
        ensures done { OnOk result (words_in self.new.done.items ≡ words_in self.old.done.items
            ++ spec.ended (map inline_of self.old.now.items) (spec.cut_text before behind [] text.now)) }
        ensures now { OnOk result (map inline_of self.new.now.items
            ≡ spec.begun (map inline_of self.old.now.items) (spec.cut_text before behind [] text.now)) }
    {
        let bytes = text.as_bytes();
        let mut from = 0;
        let mut before = before;
        for i in 0..bytes.len() {
            if bytes[i] == b' ' {
                let part = &text[from..i];
                if shows_before(before, part) && shows_behind(behind, &text[i + 1..]) {
                    self.push_part(part)?;
                    self.end_word()?;
                    from = i + 1;
                    before = false;
                }
            }
        }
        self.push_part(&text[from..])
    }
}

/// The words of a paragraph. `Err` means out of memory.
fn words_of(alloc: Global, content: &[Inline]) -> Result<Vec<Word>, AllocError>
    ensures { IfOk result (λ words. words_in words.items ≡ spec.words_of (inlines_of content.now)) }
{
    let mut words = Words {
        alloc,
        done: Vec::new(alloc),
        now: Vec::new(alloc),
    };
    let mut before = false;
    for (i, x) in content.iter().enumerate() {
        match x {
            Inline::Text(text) => {
                words.push_text(text, before, begins_shown(&content[i + 1..]))?;
                before = true;
            }
            _ => {
                words.now.push(copied_inline(alloc, x)?)?;
                before = !matches!(x, Inline::LineBreak | Inline::Task(_));
            }
        }
    }
    words.end_word()?;
    Ok(words.done)
}

// ---- sentences

/// Whether the byte ends a sentence.
fn is_sign(byte: u8) -> bool
    ensures { result ≡ is_one_of (codes ".!?") byte }
{
    matches!(byte, b'.' | b'!' | b'?')
}

/// Whether such a byte ends the text.
fn ends_in_sign(text: &[u8]) -> bool
    ensures { result ≡ spec.begins_with_sign (reverse text.now) }
{
    match text {
        [.., last] => is_sign(*last),
        [] => false,
    }
}

/// The same of a text in a word.
fn ends_with_sign(x: &Inline) -> bool
    ensures { result ≡ spec.ends_with_sign (inline_of x.now) }
{
    match x {
        Inline::Text(text) => ends_in_sign(text.as_bytes()),
        _ => false,
    }
}

/// Whether a word is the last of a sentence.
fn ends_sentence(word: &[Inline]) -> bool
    ensures { result ≡ spec.ends_sentence (map inline_of word.now) }
{
    match word {
        [.., x] => ends_with_sign(x),
        [] => false,
    }
}

/// The bytes of a word.
fn word_cost(
    alloc: Global,
    options: &DocumentOptions,
    margin: Margin,
    word: &[Inline],
) -> Result<usize, AllocError>
    ensures { IfOk result (λ bytes. bytes ≡ spec.word_cost options.now margin (map inline_of word.now)) }
{
    margin.cost(Size::of_text(&paragraph_text(alloc, word, options)?)?)
}

/// The bytes of words that have so many, with a space between each two.
fn sentence_bytes(words: &[usize]) -> Result<usize, AllocError>
    ensures { IfOk result (λ bytes. bytes ≡ views.sentence_bytes words.now) }
{
    let mut bytes = words.len().saturating_sub(1);
    for word in words {
        bytes = sum(bytes, *word)?;
    }
    Ok(bytes)
}

/// Appends a sentence of words with these bytes, or each of its words if it is too large.
fn push_sentence(units: &mut Vec<Unit>, words: &[usize], most: usize) -> Result<(), AllocError>
    ensures { OnOk result
        (units.new.items ≡ units.old.items ++ views.sentence_units most words.now) }
{
    let bytes = sentence_bytes(words)?;
    if bytes <= most {
        let count = words.len();
        units.push(Unit { count, bytes })?;
        return Ok(());
    }
    for word in words {
        units.push(Unit {
            count: 1,
            bytes: *word,
        })?;
    }
    Ok(())
}

/// The sentences of these words, and the words of those that are too large.
fn word_units(
    alloc: Global,
    bounds: &Bounds,
    margin: Margin,
    words: &[Word],
) -> Result<Vec<Unit>, AllocError>
    ensures { IfOk result (λ units. units.items
        ≡ map (views.unit_of_words bounds.now.options margin)
        (flat_map (spec.units_of bounds.now margin) (spec.sentences_from [] (words_in words.now)))) }
{
    let mut units = Vec::new(alloc);
    let mut sentence = Vec::new(alloc);
    for (i, word) in words.iter().enumerate() {
        sentence.push(word_cost(alloc, &bounds.options, margin, word)?)?;
        if i + 1 == words.len() || ends_sentence(word) {
            push_sentence(&mut units, &sentence, bounds.most)?;
            sentence.clear();
        }
    }
    Ok(units)
}

// ---- parts

/// Puts a text behind inlines.
fn push_text(alloc: Global, line: &mut Vec<Inline>, text: &str) -> Result<(), AllocError>
    ensures { OnOk result (map inline_of line.new.items
        ≡ map inline_of line.old.items ++ value.text text.now ∷ []) }
{
    line.push(Inline::Text(String::from_str(alloc, text)?))?;
    Ok(())
}

/// The same, together with the text that ends them.
fn push_behind(alloc: Global, line: &mut Vec<Inline>, text: &str) -> Result<(), AllocError>
    ensures { OnOk result (map inline_of line.new.items
        ≡ spec.with_text_behind (map inline_of line.old.items) text.now) }
{
    let Some(last) = line.pop() else {
        return push_text(alloc, line, text);
    };
    match last {
        Inline::Text(mut last) => {
            last.push_str(text)?;
            line.push(Inline::Text(last))?;
            Ok(())
        }
        _ => {
            line.push(last)?;
            push_text(alloc, line, text)
        }
    }
}

/// Puts an inline behind others, a text together with the text that ends them.
fn push_inline(alloc: Global, line: &mut Vec<Inline>, x: Inline) -> Result<(), AllocError>
    ensures { OnOk result (map inline_of line.new.items
        ≡ spec.with_inline (map inline_of line.old.items) (inline_of x)) }
{
    match x {
        Inline::Text(text) => push_behind(alloc, line, &text),
        _ => {
            line.push(x)?;
            Ok(())
        }
    }
}

/// Puts a word behind others, after a space.
fn push_word(alloc: Global, line: &mut Vec<Inline>, word: Word) -> Result<(), AllocError>
    ensures { OnOk result (map inline_of line.new.items
        ≡ spec.with_word (map inline_of line.old.items) (map inline_of word.items)) }
{
    push_behind(alloc, line, " ")?;
    let mut rest = word.into_iter();
    if let Some(x) = rest.next() {
        push_inline(alloc, line, x)?;
    }
    for x in rest {
        line.push(x)?;
    }
    Ok(())
}

/// So many of the next words, with a space between each two.
fn next_line(
    alloc: Global,
    words: &mut IntoIter<Word, Global>,
    count: usize,
) -> Result<Vec<Inline>, AllocError>
    ensures line { IfOk result (λ line. map inline_of line.items
        ≡ spec.put_together (take count (words_in (into_iter_items words.old)))) }
    ensures words { OnOk result (into_iter_items words.new ≡ drop count (into_iter_items words.old)) }
{
    let mut line = Vec::new(alloc);
    for i in 0..count {
        if let Some(word) = words.next() {
            if i == 0 {
                line = word;
            } else {
                push_word(alloc, &mut line, word)?;
            }
        }
    }
    Ok(line)
}

/// The parts of a paragraph, of which the first may have so many bytes. `Err` means out of memory.
pub(crate) fn paragraph_parts(
    alloc: Global,
    bounds: &Bounds,
    margin: Margin,
    first: usize,
    content: &[Inline],
) -> Result<Vec<Block>, AllocError>
    ensures { IfOk result (λ parts. map block_of parts.items
        ≡ map (λ xs. value.paragraph (value.inlines_of xs))
        (spec.paragraph_parts bounds.now margin first (inlines_of content.now))) }
{
    let words = words_of(alloc, content)?;
    let units = word_units(alloc, bounds, margin, &words)?;
    let room = Room {
        first,
        most: bounds.most,
        always: 0,
        between: 1,
    };
    let counts = run_counts(alloc, &units, room)?;
    let mut parts = Vec::with_capacity(alloc, counts.len())?;
    let mut words = words.into_iter();
    for count in &counts {
        parts.push(Block::Paragraph(next_line(alloc, &mut words, *count)?))?;
    }
    Ok(parts)
}

/// The bytes of the least part of a paragraph. `Err` means out of memory.
pub(crate) fn least_words(
    alloc: Global,
    bounds: &Bounds,
    margin: Margin,
    content: &[Inline],
) -> Result<usize, AllocError>
    ensures { IfOk result
        (λ bytes. bytes ≡ spec.least_words bounds.now margin (inlines_of content.now)) }
{
    let words = words_of(alloc, content)?;
    let units = word_units(alloc, bounds, margin, &words)?;
    match units.first() {
        Some(unit) => Ok(unit.bytes),
        None => Ok(0),
    }
}
