//! What attributes say of an element.
ghost use Rattle.std.specs.Prelude.{◌≡◌};
ghost use Rattle.std.specs.List.{list_any};
ghost use Rattle.htmd_lexical.specs.Attributes.{pairs_of};
ghost use Rattle.htmd_article.specs.Sayings as spec;

use htmd_nodes::{Attribute, Name, value_of};

/// Words that the classes of a page's frame have.
const FRAME_WORDS: [&str; 32] = [
    "advert",
    "advertisement",
    "banner",
    "breadcrumb",
    "breadcrumbs",
    "comments",
    "consent",
    "cookie",
    "cookies",
    "footer",
    "gdpr",
    "nav",
    "navbar",
    "navfooter",
    "navheader",
    "navigation",
    "navpath",
    "newsletter",
    "pager",
    "pagination",
    "promo",
    "recommended",
    "related",
    "share",
    "sharing",
    "sidebar",
    "skip",
    "social",
    "sponsored",
    "sphinxsidebar",
    "subscribe",
    "toolbar",
];

/// Whether two words are the same, ASCII letters in either case.
fn is_same_word(text: &[u8], word: &[u8]) -> bool
    ensures { result ≡ spec.same_word word.now text.now }
{
    text.eq_ignore_ascii_case(word)
}

/// Whether the word is between ASCII white space.
fn has_word(text: &[u8], word: &[u8]) -> bool
    ensures { result ≡ spec.has_word word.now text.now }
{
    text.split(|b| b.is_ascii_whitespace())
        .any(|part| is_same_word(part, word))
}

/// Whether the text is one of these words.
fn is_one_of(text: &[u8], words: &[&str]) -> bool
    ensures { result ≡ list_any (λ word. spec.same_word word.now text.now) words.now }
{
    words.iter().any(|word| is_same_word(text, word.as_bytes()))
}

fn is_frame_word(text: &[u8]) -> bool
    ensures { result ≡ spec.is_frame_word text.now }
{
    is_one_of(text, &FRAME_WORDS)
}

/// Whether one of the text's runs of ASCII letters is a word of a page's frame.
fn has_frame_word(text: &[u8]) -> bool
    ensures { result ≡ spec.has_frame_word text.now }
{
    text.split(|b| !b.is_ascii_alphabetic())
        .any(|part| is_frame_word(part))
}

/// Whether one of the text's runs of ASCII letters is *code*.
fn has_code_word(text: &[u8]) -> bool
    ensures { result ≡ spec.has_code_word text.now }
{
    text.split(|b| !b.is_ascii_alphabetic())
        .any(|part| is_same_word(part, b"code"))
}

/// Whether a class is one of a page's frame, and not around code.
fn is_frame_class(text: &[u8]) -> bool
    ensures { result ≡ spec.is_frame_class text.now }
{
    has_frame_word(text) && !has_code_word(text)
}

pub(crate) fn has_role(attrs: &[Attribute], role: &str) -> bool
    ensures { result ≡ spec.has_role role.now (pairs_of attrs.now) }
{
    match value_of(attrs, "role") {
        Some(value) => has_word(value.as_bytes(), role.as_bytes()),
        None => false,
    }
}

pub(crate) fn has_frame_role(attrs: &[Attribute]) -> bool
    ensures { result ≡ spec.has_frame_role (pairs_of attrs.now) }
{
    has_role(attrs, "navigation")
        || has_role(attrs, "contentinfo")
        || has_role(attrs, "search")
        || has_role(attrs, "dialog")
        || has_role(attrs, "alertdialog")
}

pub(crate) fn has_frame_class(attrs: &[Attribute]) -> bool
    ensures { result ≡ spec.has_frame_class (pairs_of attrs.now) }
{
    match value_of(attrs, "class") {
        Some(value) => is_frame_class(value.as_bytes()),
        None => false,
    }
}

pub(crate) fn has_frame_id(attrs: &[Attribute]) -> bool
    ensures { result ≡ spec.has_frame_id (pairs_of attrs.now) }
{
    match value_of(attrs, "id") {
        Some(value) => is_frame_word(value.as_bytes()),
        None => false,
    }
}

/// Whether it is an `a` that leads somewhere.
pub(crate) fn is_link(name: &Name, attrs: &[Attribute]) -> bool
    ensures { result ≡ spec.is_link name.now (pairs_of attrs.now) }
{
    name.as_str() == "a" && value_of(attrs, "href").is_some()
}

pub(crate) fn is_main(name: &Name, attrs: &[Attribute]) -> bool
    ensures { result ≡ spec.is_main name.now (pairs_of attrs.now) }
{
    name.as_str() == "main" || has_role(attrs, "main")
}

pub(crate) fn is_article(name: &Name, attrs: &[Attribute]) -> bool
    ensures { result ≡ spec.is_article name.now (pairs_of attrs.now) }
{
    name.as_str() == "article" || has_role(attrs, "article")
}

pub(crate) fn is_article_body(attrs: &[Attribute]) -> bool
    ensures { result ≡ spec.is_article_body (pairs_of attrs.now) }
{
    match value_of(attrs, "itemprop") {
        Some(value) => has_word(value.as_bytes(), b"articlebody"),
        None => false,
    }
}
