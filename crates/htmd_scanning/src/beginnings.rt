//! How a text begins. Each character that the readers look for is ASCII, and so one byte.
ghost use Rattle.std.specs.Prelude.{◌≡◌, ◌<◌, true, false, length, drop, MatchOption, nat_lt};
ghost use Rattle.std.specs.List.{list_all};
ghost use Rattle.htmd_lexical.specs.ByteOrderMarks as marks;
ghost use Rattle.htmd_lexical.specs.CharacterClasses as classes;

/// The text without a byte order mark at its beginning.
pub fn behind_mark(text: &str) -> &str
    ensures { result.now ≡ marks.behind_mark text.now }
{
    match text.strip_prefix("\u{feff}") {
        Some(rest) => rest,
        None => text,
    }
}

/// Whether the text begins with this byte.
pub fn first_is(bytes: &[u8], byte: u8) -> bool
    ensures { result ≡ classes.first_is byte bytes.now }
{
    matches!(bytes, [first, ..] if *first == byte)
}

/// Whether the text begins with these characters.
#[inline(always)]
pub fn begins_with(bytes: &[u8], characters: &[u8]) -> bool
    ensures { result ≡ classes.begins_with characters.now bytes.now }
{
    let mut rest = bytes;
    for character in characters {
        match rest {
            [first, after @ ..] if *first == *character => rest = after,
            _ => return false,
        }
    }
    true
}

/// Whether the text begins with these characters, given in lower case, in any ASCII case.
pub fn begins_in_any_case(bytes: &[u8], characters: &[u8]) -> bool
    ensures { result ≡ classes.begins_in_any_case characters.now bytes.now }
{
    let mut rest = bytes;
    for character in characters {
        match rest {
            [first, after @ ..] if first.to_ascii_lowercase() == *character => rest = after,
            _ => return false,
        }
    }
    true
}

/// The text after this ASCII character, if it begins with it.
#[inline(always)]
pub fn strip_byte(text: &str, byte: u8) -> Option<&str>
    requires { byte < 128 }
    ensures { MatchOption result (classes.first_is byte text.now ≡ false)
        (λ rest. (classes.first_is byte text.now ≡ true) × (rest.now ≡ drop 1 text.now)) }
{
    match text.as_bytes() {
        [first, ..] if *first == byte => Some(&text[1..]),
        _ => None,
    }
}

/// The text after these ASCII characters, if it begins with them.
#[inline(always)]
pub fn strip<'a>(text: &'a str, characters: &str) -> Option<&'a str>
    requires { list_all (λ c. nat_lt c 128) characters.now ≡ true }
    ensures { MatchOption result (classes.begins_with characters.now text.now ≡ false)
        (λ rest. (classes.begins_with characters.now text.now ≡ true)
        × (rest.now ≡ drop (length characters.now) text.now)) }
{
    if !begins_with(text.as_bytes(), characters.as_bytes()) {
        return None;
    }
    Some(&text[characters.len()..])
}

/// The text after these ASCII characters, given in lower case, if it begins with them in any ASCII case.
pub fn strip_in_any_case<'a>(text: &'a str, characters: &str) -> Option<&'a str>
    requires ascii { list_all (λ c. nat_lt c 128) characters.now ≡ true }
    requires filled { 0 < length characters.now }
    ensures { MatchOption result (classes.begins_in_any_case characters.now text.now ≡ false)
        (λ rest. (classes.begins_in_any_case characters.now text.now ≡ true)
        × (rest.now ≡ drop (length characters.now) text.now)) }
{
    if !begins_in_any_case(text.as_bytes(), characters.as_bytes()) {
        return None;
    }
    Some(&text[characters.len()..])
}
