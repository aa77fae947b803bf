//! Where raw content ends: at the end tag of its own element.
ghost use Rattle.std.specs.Prelude.{◌≡◌, ◌≤◌, [], length};
ghost use Rattle.htmd_lexical.specs.CharacterClasses.{up_to};
ghost use Rattle.htmd_lexical.specs.EndTags as raw;

/// Whether a tag's name ends here: white space, `/` or `>`.
fn ends_name(bytes: &[u8]) -> bool
    ensures { result ≡ raw.goes_on_with_name [] bytes.now }
{
    match bytes {
        [first, ..] => first.is_ascii_whitespace() || *first == b'/' || *first == b'>',
        [] => false,
    }
}

/// Whether the text begins with this name, given in lower case, in any ASCII case, and it ends there.
pub fn goes_on_with_name(bytes: &[u8], name: &[u8]) -> bool
    ensures { result ≡ raw.goes_on_with_name name.now bytes.now }
{
    let mut rest = bytes;
    for character in name {
        match rest {
            [first, after @ ..] if first.to_ascii_lowercase() == *character => rest = after,
            _ => return false,
        }
    }
    ends_name(rest)
}

/// Whether the end tag of an element with this name begins here.
pub fn begins_own_end(bytes: &[u8], name: &[u8]) -> bool
    ensures { result ≡ raw.begins_own_end name.now bytes.now }
{
    match bytes {
        [b'<', b'/', after @ ..] => goes_on_with_name(after, name),
        _ => false,
    }
}

/// How many bytes are before the end tag of an element with this name.
pub fn raw_content_len(bytes: &[u8], name: &[u8]) -> usize
    ensures bound { result ≤ length bytes.now }
    ensures value { result ≡ length (up_to (raw.begins_own_end name.now) bytes.now) }
{
    let mut len = 0;
    while len < bytes.len() && !begins_own_end(&bytes[len..], name) {
        len += 1;
    }
    len
}
