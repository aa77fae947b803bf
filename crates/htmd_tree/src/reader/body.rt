//! The part of a page that is converted: what is between the tags of its body.
ghost use Rattle.std.specs.Prelude.{◌≡◌, suc, length, option_map};
ghost use Rattle.htmd_lexical.specs.TagReading.{form_within};
ghost use Rattle.htmd_tree.specs.Bodies as spec;

use crate::reader::attributes::next_part;
use crate::reader::pieces::is_tag_name;
use crate::reader::scan::{Class, split_run};
use htmd_scanning::{Part, strip_byte};

/// What follows a start tag, given what follows its name.
fn behind_form(text: &str) -> Option<&str>
    ensures { option_map (λ rest. rest.now) result
        ≡ spec.behind_form (form_within (suc (length text.now)) text.now) }
{
    let mut behind = text;
    loop {
        match next_part(behind) {
            Part::Malformed => return None,
            Part::End { rest, .. } => return Some(rest),
            Part::Attribute { rest, .. } => behind = rest,
        }
    }
}

/// What follows a start tag named `body`, given what follows `<`.
fn behind_start_tag(text: &str) -> Option<&str>
    ensures { option_map (λ rest. rest.now) result ≡ spec.behind_name text.now }
{
    if !is_tag_name(text.as_bytes(), b"body") {
        return None;
    }
    let (_, behind) = split_run(text, Class::TagName);
    behind_form(behind)
}

/// What follows the first start tag named `body`.
fn behind_first_start_tag(html: &str) -> Option<&str>
    ensures { option_map (λ rest. rest.now) result ≡ spec.behind_first_start_tag html.now }
{
    let mut rest = html;
    loop {
        let (_, tag) = split_run(rest, Class::Other(b'<'));
        let Some(behind) = strip_byte(tag, b'<') else {
            return None;
        };
        if let Some(content) = behind_start_tag(behind) {
            return Some(content);
        }
        rest = behind;
    }
}

/// Whether an end tag named `body` begins here.
fn begins_end_tag(text: &str) -> bool
    ensures { result ≡ spec.begins_end_tag text.now }
{
    let Some(name) = text.strip_prefix("</") else {
        return false;
    };
    if !is_tag_name(name.as_bytes(), b"body") {
        return false;
    }
    let (_, behind) = split_run(name, Class::TagName);
    let (_, end) = split_run(behind, Class::WhiteSpace);
    strip_byte(end, b'>').is_some()
}

/// What comes before the last end tag named `body`, or all if there is none.
fn before_last_end_tag(text: &str) -> &str
    ensures { result.now ≡ spec.before_last_end_tag text.now }
{
    let mut front = text;
    while let Some(place) = front.rfind('<') {
        if begins_end_tag(&text[place..]) {
            return &text[..place];
        }
        front = &text[..place];
    }
    text
}

/// What is between the tags of a page's body, and the byte place where that begins: from after the first start tag of
/// the grammar's form named `body`, in any case and with any attributes, to the last end tag named `body` after it, or
/// to the end if there is none. What comes before is skipped: an XML declaration, a doctype of any kind, `html`,
/// `head`. Without such a start tag, it is the whole text, at place 0.
///
/// A tag counts wherever it is, even in a comment or a script of the head. A part that begins at such a tag is refused
/// by the grammar if the right start tag is in it, unless that is hidden in a comment or a raw text; a part that ends
/// before the right start tag, at an end tag that goes with the wrong one, is not refused.
///
/// It goes over the text once and takes no memory. The form of a tag is that of the HTML Standard, 13.1.2.1 and
/// 13.1.2.2, apart from its references, the names of its attributes and its `/`.
pub fn body_of(html: &str) -> (&str, usize)
    ensures part { result.0.now ≡ spec.body_part html.now }
    ensures place { result.1 ≡ spec.body_place html.now }
    ensures stands { spec.StandsAt result.0.now result.1 html.now }
{
    match behind_first_start_tag(html) {
        Some(behind) => (before_last_end_tag(behind), html.len() - behind.len()),
        None => (html, 0),
    }
}
