//! The handlers of `html`, `head` and `body`.

ghost use Rattle.std.specs.Prelude.{◌≡◌};
ghost use Rattle.htmd_walk.specs.Pages as spec;
ghost use Rattle.htmd_nodes.specs.Items.{parent_at};
ghost use Rattle.htmd_walk.specs.Views.{plan_view, element_view};

use super::plans::{parent_tag, plan_if};
use super::{Element, Plan};
use htmd_nodes::NodeData;

/// Whether the parent is the Document.
fn is_under_document(element: &Element) -> bool
    ensures { result
        ≡ spec.is_document_at element.now.tree.now (parent_at element.now.tree.now element.now.node) }
{
    let Some(parent) = element.tree.parent(element.node) else {
        return false;
    };
    matches!(element.tree.data(parent), NodeData::Document)
}

/// In Faithful, `html` is allowed only under the Document.
pub(crate) fn plan(element: &Element) -> Plan
    ensures { plan_view result ≡ spec.pages.plan (element_view element.now) }
{
    plan_if(is_under_document(element), element)
}

/// In Faithful, `head` and `body` are allowed only under `html` or the Document.
pub(crate) fn plan_of_part(element: &Element) -> Plan
    ensures { plan_view result ≡ spec.parts_of_page.plan (element_view element.now) }
{
    plan_if(parent_tag(element) == Some("html"), element)
}
