//! Letters, and the signs of links to headings.
ghost use Rattle.std.specs.Prelude.{◌≡◌, count_by};
ghost use Rattle.std.specs.Str.{chars};
ghost use Rattle.htmd_article.specs.Facts.{counts_of};
ghost use Rattle.htmd_article.specs.Letters as spec;

use crate::facts::Counts;

/// Whether the character is punctuation, a symbol or private, if it is above ASCII.
fn is_mark(c: char) -> bool
    ensures { result ≡ spec.is_mark c }
{
    matches!(c, '\0'..='¿' | '×' | '÷')
        || matches!(c, '\u{2000}'..='\u{2BFF}' | '\u{3000}'..='\u{3003}' | '\u{E000}'..='\u{F8FF}')
}

/// Whether the character is a letter or a digit of any script.
fn is_letter(c: char) -> bool
    ensures { result ≡ spec.is_letter c }
{
    if c.is_ascii() {
        return c.is_ascii_alphanumeric();
    }
    !is_mark(c)
}

/// Whether the character is one that links to headings show.
fn is_sign(c: char) -> bool
    ensures { result ≡ spec.is_sign c }
{
    matches!(c, '#' | '§' | '¶' | '\u{F0C1}' | '\u{1F517}')
}

fn letters_in(text: &str) -> usize
    ensures { result ≡ count_by spec.is_letter (chars text.now) }
{
    text.chars().filter(|c| is_letter(*c)).count()
}

/// How many characters of the text aren't ASCII white space.
fn characters_in(text: &str) -> usize
    ensures { result ≡ count_by spec.is_seen (chars text.now) }
{
    text.chars().filter(|c| !c.is_ascii_whitespace()).count()
}

fn signs_in(text: &str) -> usize
    ensures { result ≡ count_by spec.is_sign (chars text.now) }
{
    text.chars().filter(|c| is_sign(*c)).count()
}

/// How many characters of the text are letters, are seen, and are signs.
pub(crate) fn counts_of(text: &str) -> Counts
    ensures { result ≡ counts_of text.now }
{
    Counts {
        letters: letters_in(text),
        characters: characters_in(text),
        signs: signs_in(text),
    }
}
