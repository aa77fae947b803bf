//! What is a character reference to some reader (CommonMark 0.31.2, 2.5).
ghost use Rattle.std.specs.Prelude.{◌≡◌, find, not};
ghost use Rattle.std.specs.Char.{is_ascii_alphanumeric, is_ascii_digit, is_ascii_hexdigit};
ghost use Rattle.htmd_lexical.specs.Characters.{semicolon};
ghost use Rattle.htmd_lexical.specs.CharacterClasses.{first_is};
ghost use Rattle.htmd_commonmark.specs.References as spec;

/// Whether a number, or a letter and letters or digits, and a semicolon follow an `&`.
pub(crate) fn is_reference(rest: &[u8]) -> bool
    ensures { result ≡ spec.is_reference rest.now }
{
    match rest {
        [b'#', b'x' | b'X', number @ ..] => is_hexadecimal(number),
        [b'#', number @ ..] => is_decimal(number),
        [first, name @ ..] => first.is_ascii_alphabetic() && is_name(name),
        [] => false,
    }
}

/// Whether hexadecimal digits and a semicolon begin the text.
fn is_hexadecimal(text: &[u8]) -> bool
    ensures { result ≡ spec.is_run is_ascii_hexdigit text.now }
{
    !begins_with_semicolon(text) && is_semicolon(behind_hexadecimal_digits(text))
}

/// Whether decimal digits and a semicolon begin the text.
fn is_decimal(text: &[u8]) -> bool
    ensures { result ≡ spec.is_run is_ascii_digit text.now }
{
    !begins_with_semicolon(text) && is_semicolon(behind_digits(text))
}

/// Whether letters or digits, or nothing, and a semicolon begin the text.
fn is_name(text: &[u8]) -> bool
    ensures { result ≡ spec.ends_behind is_ascii_alphanumeric text.now }
{
    is_semicolon(behind_alphanumerics(text))
}

fn begins_with_semicolon(text: &[u8]) -> bool
    ensures { result ≡ first_is semicolon text.now }
{
    matches!(text, [b';', ..])
}

fn is_semicolon(byte: Option<u8>) -> bool
    ensures { result ≡ spec.is_semicolon byte }
{
    matches!(byte, Some(b';'))
}

fn behind_hexadecimal_digits(text: &[u8]) -> Option<u8>
    ensures { result ≡ find (λ b. not (is_ascii_hexdigit b)) text.now }
{
    text.iter().copied().find(|b| !b.is_ascii_hexdigit())
}

fn behind_digits(text: &[u8]) -> Option<u8>
    ensures { result ≡ find (λ b. not (is_ascii_digit b)) text.now }
{
    text.iter().copied().find(|b| !b.is_ascii_digit())
}

fn behind_alphanumerics(text: &[u8]) -> Option<u8>
    ensures { result ≡ find (λ b. not (is_ascii_alphanumeric b)) text.now }
{
    text.iter().copied().find(|b| !b.is_ascii_alphanumeric())
}

/// Whether the text has a character reference.
pub(crate) fn holds_reference(text: &[u8]) -> bool
    ensures { result ≡ spec.holds_reference text.now }
{
    for i in 0..text.len() {
        if begins_reference(&text[i..]) {
            return true;
        }
    }
    false
}

/// Whether the text begins with a character reference.
pub(crate) fn begins_reference(text: &[u8]) -> bool
    ensures { result ≡ spec.begins_reference text.now }
{
    match text {
        [b'&', rest @ ..] => is_reference(rest),
        _ => false,
    }
}
