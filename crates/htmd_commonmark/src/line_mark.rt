//! The character that would make a block of the line that a text begins.
ghost use Rattle.std.specs.Prelude.{◌≡◌, ◌≤◌, ◌∷◌, codes, length};
ghost use Rattle.std.specs.Char.{is_ascii_digit};
ghost use Rattle.std.specs.List.{list_all, prefix_len};
ghost use Rattle.htmd_lexical.specs.Characters.{is_one_of};
ghost use Rattle.htmd_commonmark.specs.LineMarks as spec;

use htmd_text::repeats::leading_len;

/// The place of the character that would make a block of a line that begins with this text, if there is one. `after` is
/// the character after the text, none at the line's end.
pub(crate) fn line_mark(text: &[u8], after: Option<char>) -> Option<usize>
    ensures { result ≡ spec.line_mark text.now after }
{
    let [first, rest @ ..] = text else {
        return None;
    };
    if begins_block(text, *first, rest, after) {
        Some(0)
    } else {
        number_mark(text, after)
    }
}

/// Whether the first character begins a block, underlines a heading, or begins a table's line of dashes.
fn begins_block(text: &[u8], first: u8, rest: &[u8], after: Option<char>) -> bool
    requires { text.now ≡ first ∷ rest.now }
    ensures { result ≡ spec.begins_block first rest.now after }
{
    match first {
        b'=' | b'>' | b'|' => true,
        b'+' => ends_marker(rest, after),
        b'-' => ends_marker(rest, after) || is_of_dashes(rest),
        b':' => matches!(rest, [b'-', ..]),
        b'#' => is_heading_marker(text, after),
        _ => false,
    }
}

/// Whether what follows a marker is a space or the line's end.
fn ends_marker(rest: &[u8], after: Option<char>) -> bool
    ensures { result ≡ spec.ends_marker rest.now after }
{
    match rest {
        [] => is_line_end(after),
        [b, ..] => *b == b' ',
    }
}

/// Whether beside a text is no character, or a line feed.
fn is_line_end(beside: Option<char>) -> bool
    ensures { result ≡ spec.is_line_end beside }
{
    matches!(beside, None | Some('\n'))
}

/// Whether the text has no other characters than a table's line of dashes.
fn is_of_dashes(text: &[u8]) -> bool
    ensures { result ≡ list_all (is_one_of (codes "-:| ")) text.now }
{
    text.iter().all(|b| matches!(*b, b'-' | b':' | b'|' | b' '))
}

/// Whether the text begins with the marker of a heading.
fn is_heading_marker(text: &[u8], after: Option<char>) -> bool
    ensures { result ≡ spec.is_heading_marker text.now after }
{
    let signs = leading_len(text, b'#');
    (1..=6).contains(&signs) && ends_marker(&text[signs..], after)
}

/// The place of the `.` or `)` of an ordered list's marker.
fn number_mark(text: &[u8], after: Option<char>) -> Option<usize>
    ensures { result ≡ spec.number_mark text.now after }
{
    let digits = digits_len(text);
    if (1..=9).contains(&digits)
        && matches!(&text[digits..], [b'.' | b')', rest @ ..] if ends_marker(rest, after))
    {
        Some(digits)
    } else {
        None
    }
}

/// How many ASCII digits the text begins with.
fn digits_len(text: &[u8]) -> usize
    ensures bound { result ≤ length text.now }
    ensures value { result ≡ prefix_len is_ascii_digit text.now }
{
    for (len, b) in text.iter().enumerate() {
        if !b.is_ascii_digit() {
            return len;
        }
    }
    text.len()
}
