//! What a node says of itself.
ghost use Rattle.std.specs.Prelude.{◌≡◌};
ghost use Rattle.htmd_lexical.specs.Attributes.{pairs_of};
ghost use Rattle.htmd_shown.specs.Kinds.{has, holds};
ghost use Rattle.htmd_shown.specs.Roles as roles;
ghost use Rattle.htmd_shown.specs.SimpleViews.{simple_of};
ghost use Rattle.htmd_flow.specs.Flows as spec;

use htmd_nodes::Attribute;
use htmd_shown::{Role, Simple};

/// The attributes of an element.
pub(crate) fn attributes_of<'t>(node: &Simple<'t>) -> &'t [Attribute]
    ensures { pairs_of result.now ≡ spec.attributes_of (simple_of node.now) }
{
    match node {
        Simple::Element { attrs, .. } => *attrs,
        Simple::Text(_) => &[],
        Simple::Image { .. } => &[],
        Simple::Formula { .. } => &[],
        Simple::Embedded(_) => &[],
        Simple::Anchor(_) => &[],
    }
}

/// Whether a table is in an element.
pub(crate) fn holds_table(node: &Simple) -> bool
    ensures { result ≡ holds (λ f. f.holds_table) (simple_of node.now) }
{
    match node {
        Simple::Element { facts, .. } => facts.holds_table,
        Simple::Text(_) => false,
        Simple::Image { .. } => false,
        Simple::Formula { .. } => false,
        Simple::Embedded(_) => false,
        Simple::Anchor(_) => false,
    }
}

/// Whether a header cell is in an element.
pub(crate) fn holds_header(node: &Simple) -> bool
    ensures { result ≡ holds (λ f. f.holds_header) (simple_of node.now) }
{
    match node {
        Simple::Element { facts, .. } => facts.holds_header,
        Simple::Text(_) => false,
        Simple::Image { .. } => false,
        Simple::Formula { .. } => false,
        Simple::Embedded(_) => false,
        Simple::Anchor(_) => false,
    }
}

/// Whether a node is a `div`.
pub(crate) fn is_division(node: &Simple) -> bool
    ensures { result ≡ has roles.is_division (simple_of node.now) }
{
    match node {
        Simple::Element { role, .. } => matches!(role, Role::Division),
        Simple::Text(_) => false,
        Simple::Image { .. } => false,
        Simple::Formula { .. } => false,
        Simple::Embedded(_) => false,
        Simple::Anchor(_) => false,
    }
}
