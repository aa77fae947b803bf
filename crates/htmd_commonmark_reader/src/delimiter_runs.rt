//! Delimiter runs: what each may do (CommonMark 0.31.2, 6.2; GFM 0.29, 6.5).
ghost use Rattle.std.specs.Prelude.{◌≡◌, reverse};
ghost use Rattle.htmd_commonmark_reading.specs.Characters.{first_character, last_character};
ghost use Rattle.htmd_commonmark_reading.specs.DelimiterRuns as spec;
ghost use Rattle.htmd_commonmark_reader.specs.Runs.{run_of, used_of};

use crate::characters::{is_unicode_punctuation, is_unicode_white, stripped_end};
use htmd_scanning::{ByteClass, split_run};

// ---- the characters beside a run

fn first_character(text: &str) -> Option<char>
    ensures { result ≡ first_character text.now }
{
    text.chars().next()
}

fn last_character(text: &str) -> Option<char>
    ensures { result ≡ last_character (reverse text.now) }
{
    text.chars().next_back()
}

fn is_white_beside(beside: Option<char>) -> bool
    ensures { result ≡ spec.is_white_beside beside }
{
    match beside {
        Some(c) => is_unicode_white(c),
        None => true,
    }
}

fn is_punctuation_beside(beside: Option<char>) -> bool
    ensures { result ≡ spec.is_punctuation_beside beside }
{
    match beside {
        Some(c) => is_unicode_punctuation(c),
        None => false,
    }
}

/// Asterisks and underscores look past tildes.
#[derive(Clone, Copy)]
struct Tilde;

impl ByteClass for Tilde {
    ghost use Rattle.htmd_commonmark_reading.specs.DelimiterRuns.{is_tilde};

    ghost bytes = { λ _. is_tilde };

    #[inline(always)]
    fn has(self, byte: u8) -> bool {
        byte == b'~'
    }
}

fn character_before(sign: u8, text: &str) -> Option<char>
    ensures { result ≡ last_character (spec.past_tildes sign (reverse text.now)) }
{
    if sign == b'~' {
        last_character(text)
    } else {
        last_character(stripped_end(text, Tilde))
    }
}

fn character_after(sign: u8, text: &str) -> Option<char>
    ensures { result ≡ first_character (spec.past_tildes sign text.now) }
{
    if sign == b'~' {
        first_character(text)
    } else {
        first_character(split_run(text, Tilde).1)
    }
}

// ---- what a run may do

fn is_left_flanking(before: Option<char>, after: Option<char>) -> bool
    ensures { result ≡ spec.is_left_flanking before after }
{
    !is_white_beside(after)
        && (!is_punctuation_beside(after)
            || is_white_beside(before)
            || is_punctuation_beside(before))
}

/// Whether a run of this sign may open emphasis. It may close it if it may open from the other side.
fn may_open(sign: u8, before: Option<char>, after: Option<char>) -> bool
    ensures { result ≡ spec.may_open sign before after }
{
    is_left_flanking(before, after)
        && (sign != b'_' || !is_left_flanking(after, before) || is_punctuation_beside(before))
}

/// A run, of which some signs are used.
#[derive(Clone, Copy, Drop)]
pub(crate) struct Run {
    pub(crate) sign: u8,
    pub(crate) unused: usize,
    pub(crate) count: usize,
    pub(crate) opens: bool,
    pub(crate) closes: bool,
}

/// A run of so many of a sign, between these texts.
pub(crate) fn run_of(sign: u8, count: usize, before: &str, after: &str) -> Run
    ensures { run_of result ≡ spec.run_of sign count (reverse before.now) after.now }
{
    let character_before = character_before(sign, before);
    let character_after = character_after(sign, after);
    Run {
        sign,
        unused: count,
        count,
        opens: may_open(sign, character_before, character_after),
        closes: may_open(sign, character_after, character_before),
    }
}

// ---- what a run closes

fn fits_by_three(opened: &Run, closing: &Run) -> bool
    ensures { result ≡ spec.fits_by_three (run_of opened.now) (run_of closing.now) }
{
    !(opened.closes || closing.opens)
        || closing.count % 3 == 0
        || (opened.count % 3 + closing.count % 3) % 3 != 0
}

pub(crate) fn is_closed_by(opened: &Run, closing: &Run) -> bool
    ensures { result ≡ spec.is_closed_by (run_of opened.now) (run_of closing.now) }
{
    opened.sign == closing.sign && fits_by_three(opened, closing)
}

/// How many signs a match uses: tildes all, others one or two.
pub(crate) fn used(closing: &Run, opened: &Run) -> usize
    ensures { result ≡ used_of (run_of closing.now) (run_of opened.now) }
{
    if closing.sign == b'~' {
        closing.unused
    } else {
        opened.unused.min(closing.unused).min(2)
    }
}
