//! A field of a row as its bytes, and bytes as a field.
ghost use Rattle.std.specs.Prelude.{◌≡◌, ◌≤◌, ◌<◌, ◌++◌, [], ◌∷◌, length, OnOk, IfSome, MatchOption};
ghost use Rattle.htmd_streams.specs.Fields as spec;

use crate::lines::parted;
use std::alloc::AllocError;

/// The field that stands for no value.
pub const NULL: &[u8] = b"\\N";

/// Appends the bytes that a field stands for to a page. `Err` means out of memory.
pub fn read_field(field: &[u8], page: &mut Vec<u8>) -> Result<(), AllocError>
    ensures { OnOk result (page.new.items ≡ page.old.items ++ spec.read_field field.now) }
{
    let mut rest = field;
    while let Some((front, behind)) = parted(rest, b'\\') {
        page.extend_from_slice(front)?;
        let (byte, count) = escape(behind);
        page.push(byte)?;
        rest = &behind[count..];
    }
    page.extend_from_slice(rest)?;
    Ok(())
}

// The byte that the text after a backslash stands for, and how many bytes that text takes.
fn escape(behind: &[u8]) -> (u8, usize)
    ensures byte { result.0 ≡ spec.escaped behind.now }
    ensures count { result.1 ≡ spec.escape_length behind.now }
    ensures within { result.1 ≤ length behind.now }
{
    let Some((first, more)) = behind.split_first() else {
        return (b'\\', 0);
    };
    if digit_value(*first) < 8 {
        return number(behind, 8, 3);
    }
    let (byte, count) = number(more, 16, 2);
    if *first != b'x' {
        (named(*first), 1)
    } else if count == 0 {
        (b'x', 1)
    } else {
        (byte, count + 1)
    }
}

// The byte that a letter after a backslash stands for, or else itself.
fn named(byte: u8) -> u8
    ensures { result ≡ spec.named byte }
{
    match byte {
        b'b' => 8,
        b'f' => 12,
        b'n' => b'\n',
        b'r' => b'\r',
        b't' => b'\t',
        b'v' => 11,
        other => other,
    }
}

// What a byte is worth as a hexadecimal digit, or 16.
fn digit_value(byte: u8) -> u8
    ensures { result ≡ spec.digit_value byte }
{
    match byte {
        b'0'..=b'9' => byte - b'0',
        b'a'..=b'f' => byte - b'a' + 10,
        b'A'..=b'F' => byte - b'A' + 10,
        _ => 16,
    }
}

// The number that digits at the front of the bytes write, modulo 256, and how many digits it has.
fn number(bytes: &[u8], base: u8, most: usize) -> (u8, usize)
    requires base { base ≤ 16 }
    requires most { most < 4 }
    ensures value { result.0 ≡ spec.number_behind 0 base most bytes.now }
    ensures count { result.1 ≡ spec.digits base most bytes.now }
{
    let mut value = 0;
    let mut count = 0;
    while count < most && count < bytes.len() {
        let digit = digit_value(bytes[count]);
        if digit >= base {
            break;
        }
        value = (value * u32::from(base) + u32::from(digit)) % 256;
        count += 1;
    }
    (value as u8, count)
}

/// Appends bytes as a field to a row. `Err` means out of memory.
pub fn write_field(text: &[u8], row: &mut Vec<u8>) -> Result<(), AllocError>
    ensures { OnOk result (row.new.items ≡ row.old.items ++ spec.written_field text.now) }
{
    let mut rest = text;
    while let Some((plain, escape, behind)) = next_escape(rest) {
        row.extend_from_slice(plain)?;
        row.extend_from_slice(escape)?;
        rest = behind;
    }
    row.extend_from_slice(rest)?;
    Ok(())
}

// What comes before the first byte that is escaped, that byte's escape, and what follows it.
fn next_escape(text: &[u8]) -> Option<(&[u8], &[u8], &[u8])>
    ensures parts { MatchOption result (spec.written_field text.now ≡ text.now)
        (λ parts. spec.written_field text.now
        ≡ parts.0.now ++ (parts.1.now ++ spec.written_field parts.2.now)) }
    ensures shorter { IfSome result (λ parts. length parts.2.now < length text.now) }
{
    let mut place = 0;
    while place < text.len() {
        if let Some(escape) = escape_of(text[place]) {
            return Some((&text[..place], escape, &text[place + 1..]));
        }
        place += 1;
    }
    None
}

// How a byte is escaped in a field, if it is.
fn escape_of(byte: u8) -> Option<&'static [u8]>
    ensures { MatchOption result (spec.written_byte byte ≡ byte ∷ [])
        (λ escape. spec.written_byte byte ≡ escape.now) }
{
    match byte {
        b'\\' => Some(b"\\\\".as_slice()),
        b'\n' => Some(b"\\n".as_slice()),
        b'\r' => Some(b"\\r".as_slice()),
        b'\t' => Some(b"\\t".as_slice()),
        _ => None,
    }
}
