//! Texts and addresses in HTML.
ghost use Rattle.std.specs.Prelude.{◌≡◌, ◌<◌, ◌++◌, OnOk, codes, string_bytes};
ghost use Rattle.htmd_lexical.specs.Characters.{is_one_of};
ghost use Rattle.htmd_commonmark_reading.specs.Rendering as spec;
ghost use Rattle.htmd_parts.specs.EscapedCharacters as steps;

use std::alloc::AllocError;

/// Appends a text.
pub(crate) fn push_text(out: &mut String, text: &str) -> Result<(), AllocError>
    ensures { OnOk result (string_bytes out.new ≡ string_bytes out.old ++ spec.escaped text.now) }
{
    for c in text.chars() {
        push_text_char(out, c)?;
    }
    Ok(())
}

/// Appends a character of a text.
fn push_text_char(out: &mut String, c: char) -> Result<(), AllocError>
    ensures { OnOk result (string_bytes out.new ≡ string_bytes out.old ++ steps.escaped_char c) }
{
    match c {
        '&' => out.push_str("&amp;"),
        '<' => out.push_str("&lt;"),
        '>' => out.push_str("&gt;"),
        '"' => out.push_str("&quot;"),
        _ => out.push(c),
    }
}

/// Appends an address.
pub(crate) fn push_address(out: &mut String, address: &[u8]) -> Result<(), AllocError>
    ensures { OnOk result
        (string_bytes out.new ≡ string_bytes out.old ++ spec.escaped_address address.now) }
{
    for byte in address {
        push_address_byte(out, *byte)?;
    }
    Ok(())
}

/// Appends a byte of an address.
fn push_address_byte(out: &mut String, byte: u8) -> Result<(), AllocError>
    ensures { OnOk result
        (string_bytes out.new ≡ string_bytes out.old ++ spec.address_byte byte) }
{
    if stays_in_address(byte) {
        push_text_char(out, byte as char)
    } else {
        push_percent(out, byte)
    }
}

/// Whether a byte is itself in an address.
fn stays_in_address(byte: u8) -> bool
    ensures { result ≡ spec.stays_in_address byte }
{
    byte.is_ascii_alphanumeric() || is_sign(byte)
}

/// Whether a byte is a sign that is itself in an address.
fn is_sign(byte: u8) -> bool
    ensures { result ≡ is_one_of (codes "!#$%&'()*+,-./:;=?@_~") byte }
{
    b"!#$%&'()*+,-./:;=?@_~".contains(&byte)
}

/// Appends a percent sign and the two hexadecimal digits of a byte.
fn push_percent(out: &mut String, byte: u8) -> Result<(), AllocError>
    ensures { OnOk result
        (string_bytes out.new ≡ string_bytes out.old ++ steps.percent byte) }
{
    out.push('%')?;
    out.push(hexadecimal_digit(byte / 16))?;
    out.push(hexadecimal_digit(byte % 16))
}

fn hexadecimal_digit(n: u8) -> char
    requires { n < 16 }
    ensures value { result ≡ spec.hexadecimal_digit n }
    ensures ascii { result < 128 }
{
    if n < 10 {
        (b'0' + n) as char
    } else {
        (b'A' - 10 + n) as char
    }
}
