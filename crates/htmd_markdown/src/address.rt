//! The address of a link or image (CommonMark 0.31.2, 6.3), and backslashes before some characters.
ghost use Rattle.std.specs.Prelude.{◌≡◌, [], ◌∷◌, ◌++◌, IsTrue, OnOk, bytes_eq, string_bytes};
ghost use Rattle.std.specs.Char.{is_ascii};
ghost use Rattle.std.specs.List.{list_all};
ghost use Rattle.std.specs.Option.{option_copied};
ghost use Rattle.htmd_lexical.specs.Characters.{is_one_of};
ghost use Rattle.htmd_markdown.specs.Addresses as spec;
ghost use Rattle.htmd_markdown.specs.WrittenBytes.{StandsBehind, written_byte};

use std::alloc::AllocError;

const PARENTHESES: &[u8] = b"()";

/// Appends the address with its parentheses after backslashes.
pub(crate) fn push_address(out: &mut String, address: &str) -> Result<(), AllocError>
    ensures { OnOk result
        (string_bytes out.new ≡ string_bytes out.old ++ spec.escaped_address address.now) }
{
    push_escaped(out, address, PARENTHESES)
}

/// Appends the text with a backslash before each of these ASCII characters.
pub(crate) fn push_escaped(
    out: &mut String,
    text: &str,
    characters: &[u8],
) -> Result<(), AllocError>
    requires ascii { IsTrue (list_all is_ascii characters.now) }
    ensures { OnOk result
        (string_bytes out.new ≡ string_bytes out.old ++ spec.escaped_among characters.now text.now) }
{
    let bytes = text.as_bytes();
    let mut from = 0;
    for i in 0..bytes.len() {
        if is_one_of(bytes[i], characters) {
            out.push_str(&text[from..i])?;
            out.push('\\')?;
            from = i;
        }
    }
    out.push_str(&text[from..])
}

/// Whether the byte is one of these.
fn is_one_of(byte: u8, characters: &[u8]) -> bool
    ensures { result ≡ is_one_of characters.now byte }
{
    characters.contains(&byte)
}

/// Whether a destination is written between `<` and `>`.
pub(crate) fn holds_space(address: &str) -> bool
    ensures { result ≡ spec.holds_space address.now }
{
    address.as_bytes().contains(&b' ')
}

/// Whether the text is the address with its parentheses after backslashes.
pub(crate) fn is_written_address(text: &str, address: &str) -> bool
    ensures { result ≡ bytes_eq text.now (spec.escaped_address address.now) }
{
    let mut rest = text.as_bytes();
    for byte in address.as_bytes() {
        match behind_written(rest, *byte) {
            Some(behind) => rest = behind,
            None => return false,
        }
    }
    rest.is_empty()
}

/// What follows the byte, written as in an address, if the text begins with it.
fn behind_written(text: &[u8], byte: u8) -> Option<&[u8]>
    ensures { StandsBehind text.now (written_byte byte) (option_copied result) }
{
    if is_one_of(byte, PARENTHESES) {
        behind(behind(text, b'\\')?, byte)
    } else {
        behind(text, byte)
    }
}

/// What follows the byte, if the text begins with it.
fn behind(text: &[u8], byte: u8) -> Option<&[u8]>
    ensures { StandsBehind text.now (byte ∷ []) (option_copied result) }
{
    match text {
        [first, rest @ ..] if *first == byte => Some(rest),
        _ => None,
    }
}
