//! Elements that are hidden by their own attributes.
ghost use Rattle.std.specs.Prelude.{◌≡◌};
ghost use Rattle.std.specs.Option.{option_copied};
ghost use Rattle.std.specs.Str.{bytes_eq};
ghost use Rattle.htmd_lexical.specs.Attributes.{pairs_of};
ghost use Rattle.htmd_trimming.specs.Hidden as spec;

use htmd_nodes::{Attribute, value_of};
use htmd_shown::attributes::text_of;

/// Whether `hidden` hides an element: `until-found` shows when it is searched for.
fn hides(hidden: Option<&str>) -> bool
    ensures { result ≡ spec.hides (option_copied hidden.entry) }
{
    match hidden {
        Some(value) => !value.eq_ignore_ascii_case("until-found"),
        None => false,
    }
}

/// Whether a text is `wanted`, without ASCII white space and in small letters.
fn is_bare(text: &[u8], wanted: &[u8]) -> bool
    ensures { result ≡ bytes_eq (spec.bare text.now) wanted.now }
{
    let mut rest = wanted;
    for b in text {
        if !b.is_ascii_whitespace() {
            if rest.is_empty() || rest[0] != b.to_ascii_lowercase() {
                return false;
            }
            rest = &rest[1..];
        }
    }
    rest.is_empty()
}

/// Whether a declaration hides an element.
fn is_hiding(declaration: &[u8]) -> bool
    ensures { result ≡ spec.is_hiding declaration.now }
{
    is_bare(declaration, b"display:none")
        || is_bare(declaration, b"display:none!important")
        || is_bare(declaration, b"visibility:hidden")
        || is_bare(declaration, b"visibility:hidden!important")
}

/// Whether a declaration of a style hides an element.
fn style_hides(style: &str) -> bool
    ensures { result ≡ spec.style_hides style.now }
{
    for declaration in style.split(';') {
        if is_hiding(declaration.as_bytes()) {
            return true;
        }
    }
    false
}

/// Whether an element with these attributes is hidden.
pub(crate) fn is_hidden(attrs: &[Attribute]) -> bool
    ensures { result ≡ spec.is_hidden (pairs_of attrs.now) }
{
    hides(value_of(attrs, "hidden"))
        || text_of(attrs, "aria-hidden").eq_ignore_ascii_case("true")
        || style_hides(text_of(attrs, "style"))
}
