//! The value of an attribute, by its name.
ghost use Rattle.std.specs.Prelude.{◌≡◌};
ghost use Rattle.std.specs.Option.{option_copied};
ghost use Rattle.htmd_lexical.specs.Attributes.{pairs_of};
ghost use Rattle.htmd_nodes.specs.AttributeValues as spec;

use htmd_lexical::Attribute;

/// The value of the first attribute with this name.
#[tactic(auto)]
pub fn value_of<'a>(attrs: &'a [Attribute], name: &str) -> Option<&'a str>
    ensures { option_copied result ≡ spec.value_of name.now (pairs_of attrs.now) }
{
    for attribute in attrs {
        if attribute.name.as_str() == name {
            return Some(attribute.value.as_str());
        }
    }
    None
}
