//! What the attributes of a link or an image say.

ghost use Rattle.std.specs.Prelude.{◌≡◌, map};
ghost use Rattle.std.specs.Option.{option_copied};
ghost use Rattle.htmd_lexical.specs.Attributes.{pairs_of};
ghost use Rattle.htmd_walk.specs.LinkAttributes as spec;
ghost use Rattle.htmd_walk.specs.Views.{element_view};

use super::Element;
use super::plans::is_markdown_alone;
use htmd_nodes::Attribute;

/// Whether the name is one of these.
pub(crate) fn is_among(name: &str, names: &[&str]) -> bool
    ensures { result ≡ spec.is_among (map (λ n. n.now) names.now) name.now }
{
    names.contains(&name)
}

/// The value of the last attribute that has one of these names.
pub(crate) fn last_value<'a>(attrs: &'a [Attribute], names: &[&str]) -> Option<&'a str>
    ensures { option_copied result ≡ spec.last_value (map (λ n. n.now) names.now) (pairs_of attrs.now) }
{
    let mut last = None;
    for attribute in attrs {
        if is_among(attribute.name.as_str(), names) {
            last = Some(attribute.value.as_str());
        }
    }
    last
}

/// Whether some attribute has none of these names.
fn has_others(attrs: &[Attribute], names: &[&str]) -> bool
    ensures { result ≡ spec.has_others (map (λ n. n.now) names.now) (pairs_of attrs.now) }
{
    for attribute in attrs {
        if !is_among(attribute.name.as_str(), names) {
            return true;
        }
    }
    false
}

/// Whether the element has an attribute that Markdown has no form for, if that matters.
pub(crate) fn is_raw_unless_among(element: &Element, names: &[&str]) -> bool
    ensures { result ≡ spec.is_raw_unless_among (map (λ n. n.now) names.now) (element_view element.now) }
{
    !is_markdown_alone(element.options) && has_others(element.attrs, names)
}
