//! The handler of `td` and `th`.

ghost use Rattle.std.specs.Prelude.{◌≡◌};
ghost use Rattle.std.specs.List.{list_any};
ghost use Rattle.htmd_nodes.specs.Items.{children_of};
ghost use Rattle.htmd_walk.specs.TableCells as spec;
ghost use Rattle.htmd_walk.specs.Views.{plan_view, element_view};

use super::plans::{is_markdown_alone, parent_tag, plan_if};
use super::{Element, Plan};
use crate::node_util::is_block;

/// Whether a block element is among the children.
fn has_blocks(element: &Element) -> bool
    ensures { let view = element_view element.now in
        result ≡ list_any (spec.is_block_node view.items) (children_of view.items view.node) }
{
    for child in element.tree.children(element.node) {
        if is_block(element.tree, *child) {
            return true;
        }
    }
    false
}

/// In Faithful, a cell without attributes and block elements, under `tr`.
pub(crate) fn plan(element: &Element) -> Plan
    ensures { plan_view result ≡ spec.cell_plan (element_view element.now) }
{
    if is_markdown_alone(element.options) {
        return Plan::Children;
    }
    if !element.attrs.is_empty() || has_blocks(element) {
        return Plan::RawHtml;
    }
    plan_if(parent_tag(element) == Some("tr"), element)
}
