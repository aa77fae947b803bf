//! Doctypes, and which of them mean quirks mode.
ghost use Rattle.std.specs.Prelude.{◌≡◌, ◌<◌, map, bytes_eq};
ghost use Rattle.std.specs.Char.{to_ascii_lowercase};
ghost use Rattle.htmd_lexical.specs.CharacterClasses.{is_among};
ghost use Rattle.htmd_html5_tokens.specs.Doctypes as spec;
ghost use Rattle.htmd_html5_tokens.specs.Readings.{read_of, quoted_of};

use crate::classes::{Class, split_run};
use crate::comments::split_at_sign;
use crate::tokens::Token;
use htmd_scanning::{begins_in_any_case, strip_byte, strip_in_any_case};

/// Public identifiers that mean quirks mode, in lower case.
static QUIRKY_IDENTIFIERS: [&str; 3] = [
    "-//w3o//dtd w3 html strict 3.0//en//",
    "-/w3c/dtd html 4.0 transitional/en",
    "html",
];

/// Beginnings of such identifiers.
static QUIRKY_BEGINNINGS: [&str; 55] = [
    "+//silmaril//dtd html pro v0r11 19970101//",
    "-//advasoft ltd//dtd html 3.0 aswedit + extensions//",
    "-//as//dtd html 3.0 aswedit + extensions//",
    "-//ietf//dtd html 2.0 level 1//",
    "-//ietf//dtd html 2.0 level 2//",
    "-//ietf//dtd html 2.0 strict level 1//",
    "-//ietf//dtd html 2.0 strict level 2//",
    "-//ietf//dtd html 2.0 strict//",
    "-//ietf//dtd html 2.0//",
    "-//ietf//dtd html 2.1e//",
    "-//ietf//dtd html 3.0//",
    "-//ietf//dtd html 3.2 final//",
    "-//ietf//dtd html 3.2//",
    "-//ietf//dtd html 3//",
    "-//ietf//dtd html level 0//",
    "-//ietf//dtd html level 1//",
    "-//ietf//dtd html level 2//",
    "-//ietf//dtd html level 3//",
    "-//ietf//dtd html strict level 0//",
    "-//ietf//dtd html strict level 1//",
    "-//ietf//dtd html strict level 2//",
    "-//ietf//dtd html strict level 3//",
    "-//ietf//dtd html strict//",
    "-//ietf//dtd html//",
    "-//metrius//dtd metrius presentational//",
    "-//microsoft//dtd internet explorer 2.0 html strict//",
    "-//microsoft//dtd internet explorer 2.0 html//",
    "-//microsoft//dtd internet explorer 2.0 tables//",
    "-//microsoft//dtd internet explorer 3.0 html strict//",
    "-//microsoft//dtd internet explorer 3.0 html//",
    "-//microsoft//dtd internet explorer 3.0 tables//",
    "-//netscape comm. corp.//dtd html//",
    "-//netscape comm. corp.//dtd strict html//",
    "-//o'reilly and associates//dtd html 2.0//",
    "-//o'reilly and associates//dtd html extended 1.0//",
    "-//o'reilly and associates//dtd html extended relaxed 1.0//",
    "-//softquad software//dtd hotmetal pro 6.0::19990601::extensions to html 4.0//",
    "-//softquad//dtd hotmetal pro 4.0::19971010::extensions to html 4.0//",
    "-//spyglass//dtd html 2.0 extended//",
    "-//sq//dtd html 2.0 hotmetal + extensions//",
    "-//sun microsystems corp.//dtd hotjava html//",
    "-//sun microsystems corp.//dtd hotjava strict html//",
    "-//w3c//dtd html 3 1995-03-24//",
    "-//w3c//dtd html 3.2 draft//",
    "-//w3c//dtd html 3.2 final//",
    "-//w3c//dtd html 3.2//",
    "-//w3c//dtd html 3.2s draft//",
    "-//w3c//dtd html 4.0 frameset//",
    "-//w3c//dtd html 4.0 transitional//",
    "-//w3c//dtd html experimental 19960712//",
    "-//w3c//dtd html experimental 970421//",
    "-//w3c//dtd w3 html//",
    "-//w3o//dtd w3 html 3.0//",
    "-//webtechs//dtd mozilla html 2.0//",
    "-//webtechs//dtd mozilla html//",
];

/// The same, if there is no system identifier.
static LOOSE_BEGINNINGS: [&str; 2] = [
    "-//w3c//dtd html 4.01 frameset//",
    "-//w3c//dtd html 4.01 transitional//",
];

/// A system identifier that means quirks mode.
const QUIRKY_SYSTEM_IDENTIFIER: &str = "http://www.ibm.com/data/dtd/v11/ibmxhtml1-transitional.dtd";

/// Whether the text is this, which is given in lower case, in any ASCII case.
fn is_in_any_case(text: &str, other: &str) -> bool
    ensures { result ≡ bytes_eq (map to_ascii_lowercase text.now) other.now }
{
    text.len() == other.len() && begins_in_any_case(text.as_bytes(), other.as_bytes())
}

/// Whether the text is one of these, in any case.
fn is_one(text: &str, others: &[&str]) -> bool
    ensures { result ≡ is_among (map (λ other. other.now) others.now) (map to_ascii_lowercase text.now) }
{
    for other in others {
        if is_in_any_case(text, other) {
            return true;
        }
    }
    false
}

/// Whether the text begins with one of these, in any case.
fn begins_with_one(text: &str, beginnings: &[&str]) -> bool
    ensures { result ≡ spec.begins_with_one (map (λ other. other.now) beginnings.now) text.now }
{
    for beginning in beginnings {
        if begins_in_any_case(text.as_bytes(), beginning.as_bytes()) {
            return true;
        }
    }
    false
}

/// Whether a public identifier is one that means quirks mode.
#[tactic(auto, unfolding(crate::specs::Doctypes::quirky_identifiers))]
fn is_quirky_identifier(public: &str) -> bool
    ensures { result ≡ is_among spec.quirky_identifiers (map to_ascii_lowercase public.now) }
{
    is_one(public, &QUIRKY_IDENTIFIERS)
}

/// Whether a public identifier begins like those that mean quirks mode.
#[tactic(auto, unfolding(crate::specs::Doctypes::quirky_beginnings))]
fn has_quirky_beginning(public: &str) -> bool
    ensures { result ≡ spec.begins_with_one spec.quirky_beginnings public.now }
{
    begins_with_one(public, &QUIRKY_BEGINNINGS)
}

/// Whether a public identifier means quirks mode.
fn is_quirky(public: &str) -> bool
    ensures { result ≡ spec.is_quirky public.now }
{
    is_quirky_identifier(public) || has_quirky_beginning(public)
}

/// Whether a public identifier means quirks mode if there is no system identifier.
#[tactic(auto, unfolding(crate::specs::Doctypes::loose_beginnings))]
fn is_loose(public: &str) -> bool
    ensures { result ≡ spec.is_loose public.now }
{
    begins_with_one(public, &LOOSE_BEGINNINGS)
}

/// Whether a system identifier means quirks mode.
#[tactic(auto, unfolding(crate::specs::Doctypes::quirky_system_identifier))]
fn is_quirky_system(system: &str) -> bool
    ensures { result ≡ spec.is_quirky_system system.now }
{
    is_in_any_case(system, QUIRKY_SYSTEM_IDENTIFIER)
}

/// What quotes hold, when the first one comes before the text, and what follows them.
fn quoted_by(text: &str, quote: u8) -> Option<(&str, &str)>
    requires { quote < 128 }
    ensures { quoted_of result ≡ spec.quoted_by quote text.now }
{
    let (held, after) = split_run(text, Class::Other(quote));
    match strip_byte(after, quote) {
        Some(rest) => Some((held, rest)),
        None => None,
    }
}

/// What quotes hold at the beginning, and what follows them.
fn quoted(text: &str) -> Option<(&str, &str)>
    ensures { quoted_of result ≡ spec.quoted text.now }
{
    if let Some(after) = strip_byte(text, b'"') {
        return quoted_by(after, b'"');
    }
    match strip_byte(text, b'\'') {
        Some(after) => quoted_by(after, b'\''),
        None => None,
    }
}

fn after_white(text: &str) -> &str
    ensures { result.now ≡ spec.after_white text.now }
{
    let (_, after) = split_run(text, Class::White);
    after
}

/// Whether a public identifier and what follows it mean quirks mode.
fn means_quirks_after_public(public: &str, after: &str) -> bool
    ensures { result ≡ spec.means_quirks_after_public public.now after.now }
{
    if after.is_empty() {
        return is_quirky(public) || is_loose(public);
    }
    match quoted(after) {
        Some((system, _)) => is_quirky_system(system) || is_quirky(public),
        None => true,
    }
}

/// Whether what follows the word `public` means quirks mode.
fn means_quirks_by_public(text: &str) -> bool
    ensures { result ≡ spec.means_quirks_by_public (spec.quoted (spec.after_white text.now)) }
{
    match quoted(after_white(text)) {
        Some((public, after)) => means_quirks_after_public(public, after_white(after)),
        None => true,
    }
}

/// Whether what follows the word `system` means quirks mode.
fn means_quirks_by_system(text: &str) -> bool
    ensures { result ≡ spec.means_quirks_by_system (spec.quoted (spec.after_white text.now)) }
{
    match quoted(after_white(text)) {
        Some((system, _)) => is_quirky_system(system),
        None => true,
    }
}

/// Whether what follows the name means quirks mode.
fn means_quirks_by_identifiers(text: &str) -> bool
    ensures { result ≡ spec.means_quirks_by_identifiers text.now }
{
    if text.is_empty() {
        return false;
    }
    if let Some(after) = strip_in_any_case(text, "public") {
        return means_quirks_by_public(after);
    }
    match strip_in_any_case(text, "system") {
        Some(after) => means_quirks_by_system(after),
        None => true,
    }
}

/// Whether a doctype that holds this means quirks mode.
fn means_quirks(text: &str) -> bool
    ensures { result ≡ spec.means_quirks text.now }
{
    let (name, after) = split_run(after_white(text), Class::Black);
    !is_in_any_case(name, "html") || means_quirks_by_identifiers(after_white(after))
}

/// A doctype from just after its `<!DOCTYPE`, and what follows it.
pub(crate) fn read_doctype(text: &str) -> (Token<'_>, &str)
    ensures { read_of result ≡ spec.read_doctype text.now }
{
    let (held, rest) = split_at_sign(text);
    let quirks = means_quirks(held);
    (Token::Doctype { quirks }, rest)
}
