//! What single bytes, digits and short words of a selector mean.
ghost use Rattle.std.specs.Prelude.{◌≡◌};
ghost use Rattle.std.specs.Option.{option_map};
ghost use Rattle.htmd_selectors.specs.Reading as spec;
ghost use Rattle.htmd_selectors.specs.Views.{condition_of};

use crate::matching::is_same_name;
use crate::reader::Group;
use crate::selectors::{Condition, Operator, Peers, Row, Side};
use htmd_scanning::number;

/// Whether a name may hold this byte; all bytes of a character that isn't ASCII are.
pub(crate) fn is_name_byte(b: u8) -> bool
    ensures { result ≡ spec.is_name_byte b }
{
    b.is_ascii_alphanumeric() || b == b'-' || b == b'_' || b >= 0x80
}

/// Whether a name goes on with this byte, which may begin an escape.
pub(crate) fn extends_name(b: u8) -> bool
    ensures { result ≡ spec.extends_name b }
{
    is_name_byte(b) || b == b'\\'
}

/// Whether what was read is no name: nothing, or a hyphen that no escape stands for.
pub(crate) fn is_no_name(escaped: bool, word: &[u8]) -> bool
    ensures { result ≡ spec.is_no_name escaped word.now }
{
    match word {
        [] => true,
        [b] => *b == b'-' && !escaped,
        _ => false,
    }
}

pub(crate) fn is_line_end(b: u8) -> bool
    ensures { result ≡ spec.is_line_end b }
{
    b == b'\n' || b == b'\r' || b == 0x0C
}

/// The character that hexadecimal digits stand for, U+FFFD where there is none.
pub(crate) fn escaped_character(digits: &[u8]) -> char
    ensures { result ≡ spec.escaped_character digits.now }
{
    let code = number(digits, 16);
    if code == 0 {
        return char::REPLACEMENT_CHARACTER;
    }
    match char::from_u32(code) {
        Some(character) => character,
        None => char::REPLACEMENT_CHARACTER,
    }
}

/// The pseudo-class with parentheses that has this name.
pub(crate) fn group_named(name: &[u8]) -> Group
    ensures { result ≡ spec.group_named name.now }
{
    if is_same_name(name, b"not") {
        return Group::Not;
    }
    if is_same_name(name, b"is") || is_same_name(name, b"where") {
        return Group::Is;
    }
    Group::Outside
}

fn row_by(peers: Peers, side: Side) -> Row
    ensures { result ≡ spec.row_by peers side }
{
    Row { peers, side }
}

/// The elements of which the pseudo-class of this name counts the places in its parentheses.
pub(crate) fn row_named(name: &[u8]) -> Option<Row>
    ensures { result ≡ spec.row_named name.now }
{
    if is_same_name(name, b"nth-child") {
        return Some(row_by(Peers::All, Side::First));
    }
    if is_same_name(name, b"nth-last-child") {
        return Some(row_by(Peers::All, Side::Last));
    }
    if is_same_name(name, b"nth-of-type") {
        return Some(row_by(Peers::SameName, Side::First));
    }
    if is_same_name(name, b"nth-last-of-type") {
        return Some(row_by(Peers::SameName, Side::Last));
    }
    None
}

/// Whether this byte relates a compound to the one before it.
pub(crate) fn begins_relation(b: u8) -> bool
    ensures { result ≡ spec.begins_relation b }
{
    b == b'>' || b == b'+' || b == b'~'
}

/// The condition on its peers that a pseudo-class without parentheses stands for.
fn peer_class(name: &[u8]) -> Option<Condition>
    ensures { option_map condition_of result ≡ spec.peer_class name.now }
{
    if is_same_name(name, b"first-child") {
        return Some(Condition::First(Peers::All));
    }
    if is_same_name(name, b"last-child") {
        return Some(Condition::Last(Peers::All));
    }
    if is_same_name(name, b"only-child") {
        return Some(Condition::Only(Peers::All));
    }
    if is_same_name(name, b"first-of-type") {
        return Some(Condition::First(Peers::SameName));
    }
    if is_same_name(name, b"last-of-type") {
        return Some(Condition::Last(Peers::SameName));
    }
    if is_same_name(name, b"only-of-type") {
        return Some(Condition::Only(Peers::SameName));
    }
    None
}

/// The condition that a pseudo-class without parentheses stands for.
pub(crate) fn pseudo_class(name: &[u8]) -> Option<Condition>
    ensures { option_map condition_of result ≡ spec.pseudo_class name.now }
{
    if is_same_name(name, b"empty") {
        return Some(Condition::Empty);
    }
    if is_same_name(name, b"root") {
        return Some(Condition::Root);
    }
    peer_class(name)
}

/// Whether a compound in parentheses ends before this byte.
pub(crate) fn ends_part(b: u8) -> bool
    ensures { result ≡ spec.ends_part b }
{
    b == b')' || b == b',' || b.is_ascii_whitespace()
}

/// The operator with this sign before its `=`.
pub(crate) fn operator_of(b: u8) -> Option<Operator>
    ensures { result ≡ spec.operator_of b }
{
    match b {
        b'~' => Some(Operator::Includes),
        b'|' => Some(Operator::Dash),
        b'^' => Some(Operator::Prefix),
        b'$' => Some(Operator::Suffix),
        b'*' => Some(Operator::Substring),
        _ => None,
    }
}
