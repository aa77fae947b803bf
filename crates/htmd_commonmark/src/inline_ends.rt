//! The first and the last character of what is written of an inline, as far as what is beside it asks.
ghost use Rattle.std.specs.Prelude.{◌≡◌};
ghost use Rattle.htmd_document.specs.DocumentViews.{inline_of, inlines_of};
ghost use Rattle.htmd_commonmark.specs.InlineEnds as spec;
ghost use Rattle.htmd_commonmark.specs.WrittenText as written;

use crate::character_kind::{first_character, last_character};
use crate::line::LineKind;
use htmd_document::Inline;
use htmd_text::repeats::trailing_len;

/// What follows an inline: the first character, none at the end of a block, and whether it closes what the inline is
/// in.
#[derive(Clone, Copy)]
pub struct Following {
    pub after: Option<char>,
    pub is_last: bool,
}

/// What is in the line before what is written next.
pub(crate) fn character_before(text: &str) -> Option<char>
    ensures { result ≡ written.character_before text.now }
{
    match last_character(text) {
        Some('\n') => None,
        last => last,
    }
}

/// Whether a backslash escapes the last sign.
pub(crate) fn is_last_escaped(text: &str) -> bool
    ensures { result ≡ written.is_last_escaped text.now }
{
    let bytes = text.as_bytes();
    trailing_len(&bytes[..bytes.len().saturating_sub(1)], b'\\') % 2 == 1
}

/// A text's first character, or its backslash.
fn escaped_first(first: Option<char>) -> Option<char>
    ensures { result ≡ spec.escaped_first first }
{
    match first {
        Some('`' | '*' | '[' | '~') => Some('\\'),
        _ => first,
    }
}

/// The first character of a break.
fn first_of_break(kind: LineKind) -> char
    ensures { result ≡ spec.first_of_break kind }
{
    if kind.is_one_line() { '<' } else { '\n' }
}

/// The first character that is written of the inline; of a format it is mostly a mark.
#[tactic(auto, using(crate::proofs::InlineEndsLemmas::first_steps))]
fn first_of(x: &Inline, kind: LineKind) -> Option<char>
    ensures { result ≡ spec.first_of kind (inline_of x.now) }
{
    match x {
        Inline::Text(text) => escaped_first(first_character(text)),
        Inline::Code(_) => Some('`'),
        Inline::Formatted(..) => Some('*'),
        Inline::Element(..) | Inline::Abbreviation { .. } | Inline::Anchor(_) => Some('<'),
        Inline::Link { .. } | Inline::Task(_) => Some('['),
        Inline::Image { .. } => Some('!'),
        Inline::LineBreak => Some(first_of_break(kind)),
    }
}

/// The last character that is written of the inline.
#[tactic(auto, using(crate::proofs::InlineEndsLemmas::last_steps))]
fn last_of(x: &Inline) -> Option<char>
    ensures { result ≡ spec.last_of (inline_of x.now) }
{
    match x {
        Inline::Text(text) => last_character(text),
        Inline::Code(_) => Some('`'),
        Inline::Formatted(..) => Some('*'),
        Inline::Element(..) | Inline::Abbreviation { .. } | Inline::Anchor(_) => Some('>'),
        Inline::Link { .. } | Inline::Image { .. } => Some(')'),
        Inline::LineBreak => Some('\n'),
        Inline::Task(_) => Some(']'),
    }
}

/// The first character that is written of these inlines.
pub(crate) fn first_of_all(xs: &[Inline], kind: LineKind) -> Option<char>
    ensures { result ≡ spec.first_of_all kind (inlines_of xs.now) }
{
    match xs {
        [x, ..] => first_of(x, kind),
        [] => None,
    }
}

/// The last character that is written of these inlines.
pub(crate) fn last_of_all(xs: &[Inline]) -> Option<char>
    ensures { result ≡ spec.last_of_all (inlines_of xs.now) }
{
    match xs {
        [.., x] => last_of(x),
        [] => None,
    }
}

/// What follows an inline, before the rest of those that `closing` closes.
pub(crate) fn follows(rest: &[Inline], kind: LineKind, closing: Option<char>) -> Following
    ensures { result ≡ spec.follows kind closing (inlines_of rest.now) }
{
    match rest {
        [x, ..] => Following {
            after: first_of(x, kind),
            is_last: false,
        },
        [] => Following {
            after: closing,
            is_last: true,
        },
    }
}
