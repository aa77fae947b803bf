//! How many columns a text takes on a screen where all characters have the same width.
ghost use Rattle.std.specs.Prelude.{◌≡◌};
ghost use Rattle.htmd_commonmark.specs.Columns as spec;

use unicode::normal::canonical_combining_class;
use unicode::properties::EastAsianWidth;

/// How many columns the character takes: none above another one, two if it is wide.
fn columns_of(c: char) -> usize
    ensures { result ≡ spec.columns_of c }
{
    if c.is_ascii() {
        return 1;
    }
    if canonical_combining_class(c) != 0 {
        return 0;
    }
    match EastAsianWidth::for_char(c) {
        EastAsianWidth::Wide | EastAsianWidth::Fullwidth => 2,
        _ => 1,
    }
}

/// How many columns the text takes. One of ASCII takes as many as it has bytes.
#[tactic(auto, using(crate::proofs::ColumnsLemmas::ascii_width))]
pub fn width_of(text: &str) -> usize
    ensures { result ≡ spec.width_of text.now }
{
    if text.is_ascii() {
        return text.len();
    }
    width_of_characters(text)
}

/// The same of any text, by its characters.
fn width_of_characters(text: &str) -> usize
    ensures { result ≡ spec.width_of text.now }
{
    let mut width = 0;
    for c in text.chars() {
        width += columns_of(c);
    }
    width
}
