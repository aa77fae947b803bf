//! The marks of formats, and where each is written (CommonMark 0.31.2, 6.2, and GitHub's strikethrough).
ghost use Rattle.std.specs.Prelude.{◌≡◌, ◌==◌, option_map};
ghost use Rattle.htmd_document.specs.Formats.{of_format, of_element};
ghost use Rattle.htmd_commonmark.specs.Marks as spec;
ghost use Rattle.htmd_commonmark.specs.MarkViews.{mark_of};

use crate::character_kind::{is_apart, is_space, is_word};
use htmd_document::{Format, InlineElement, end_of_inline, inline_tag};

/// What is written before a format's content and after it, and the first character of both.
#[derive(Clone, Copy)]
pub struct Mark {
    pub sign: char,
    pub opener: &'static str,
    pub closer: &'static str,
}

/// What is beside a format, none at the ends of a line, and what is at the ends of its content.
#[derive(Clone, Copy)]
pub struct Sides {
    pub before: Option<char>,
    /// A backslash escapes what comes before.
    pub is_escaped: bool,
    pub first: Option<char>,
    pub last: Option<char>,
    pub after: Option<char>,
    /// What comes after closes what the format is in.
    pub is_last: bool,
}

/// Whether the character is there, and stands beside marks as white space and punctuation do; also where there is none.
fn is_apart_there(c: Option<char>) -> bool
    ensures { result ≡ spec.is_apart_there c }
{
    match c {
        Some(c) => is_apart(c),
        None => true,
    }
}

/// Whether one of the three signs is there.
fn is_sign_there(c: Option<char>) -> bool
    ensures { result ≡ spec.is_sign_there c }
{
    matches!(c, Some('*' | '_' | '~'))
}

/// Whether the mark would be one row with an equal sign beside it.
fn meets_equal(sign: char, sides: Sides) -> bool
    ensures { result ≡ spec.meets_equal sign sides }
{
    sides.before == Some(sign) && !sides.is_escaped || sides.is_last && sides.after == Some(sign)
}

/// Whether a mark can stand between these two: white space isn't at its inner side, and where that isn't a word's
/// character, the outer one stands apart.
fn can_stand(inner: Option<char>, outer: Option<char>) -> bool
    ensures { result ≡ spec.can_stand inner outer }
{
    match inner {
        Some(inner) => !is_space(inner) && (is_word(inner) || is_apart_there(outer)),
        None => false,
    }
}

/// Whether readers differ there: tildes beside other signs.
fn is_disputed(sign: char, sides: Sides) -> bool
    ensures { result ≡ spec.is_disputed sign sides }
{
    if sign == '~' {
        is_sign_there(sides.before) || is_sign_there(sides.after)
    } else {
        sides.before == Some('~')
    }
}

/// Whether the sign is an underscore in a word, and so no mark.
fn is_in_word(sign: char, sides: Sides) -> bool
    ensures { result ≡ spec.is_in_word sign sides }
{
    sign == '_' && !(is_apart_there(sides.before) && is_apart_there(sides.after))
}

/// Whether the sign is a mark on both sides for every reader.
fn fits(sign: char, sides: Sides) -> bool
    ensures { result ≡ spec.fits sign sides }
{
    !meets_equal(sign, sides)
        && (can_stand(sides.first, sides.before) && can_stand(sides.last, sides.after))
        && !is_disputed(sign, sides)
        && !is_in_word(sign, sides)
}

/// These signs on both sides.
fn row(sign: char, signs: &'static str) -> Mark
    ensures { mark_of result ≡ spec.row sign signs.now }
{
    Mark {
        sign,
        opener: signs,
        closer: signs,
    }
}

/// A tag and its end tag.
fn tags(opener: &'static str, closer: &'static str) -> Mark
    ensures { mark_of result ≡ spec.tags opener.now closer.now }
{
    Mark {
        sign: '<',
        opener,
        closer,
    }
}

/// What a format is written by: asterisks or tildes where they fit, else underscores where those do, else tags.
pub(crate) fn mark_for(format: Format, sides: Sides) -> Mark
    ensures { mark_of result ≡ spec.mark_for (of_format format) sides }
{
    match format {
        Format::Emphasis if fits('*', sides) => row('*', "*"),
        Format::Emphasis if fits('_', sides) => row('_', "_"),
        Format::Emphasis => tags("<em>", "</em>"),
        Format::Strong if fits('*', sides) => row('*', "**"),
        Format::Strong if fits('_', sides) => row('_', "__"),
        Format::Strong => tags("<strong>", "</strong>"),
        Format::Deleted if fits('~', sides) => row('~', "~~"),
        Format::Deleted => tags("<del>", "</del>"),
    }
}

/// The tags of an element of HTML.
pub(crate) fn tags_of(element: InlineElement) -> Mark
    ensures { mark_of result ≡ spec.tags_of (of_element element) }
{
    tags(inline_tag(element), end_of_inline(element))
}
