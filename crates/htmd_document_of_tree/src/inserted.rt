//! Elements that no page has, around leaves and anchors.
ghost use Rattle.std.specs.Prelude.{◌≡◌, []};
ghost use Rattle.htmd_shown.specs.Facts.{inserted_facts};
ghost use Rattle.htmd_shown.specs.SimpleTrees as tree;
ghost use Rattle.htmd_shown.specs.SimpleViews.{simple_of, simples_of};

use htmd_nodes::NodeId;
use htmd_shown::{Facts, Role, Simple};

/// What is known of the content of such an element.
const INSERTED: Facts = Facts {
    is_blank: false,
    pres: 0,
    holds_table: false,
    holds_header: false,
    shows_sign: false,
    leaves: 0,
};

/// An element that no page has, with this content.
pub(crate) fn inserted<'t>(root: NodeId, role: Role, content: Vec<Simple<'t>>) -> Simple<'t>
    ensures { simple_of result ≡ tree.element root role inserted_facts [] (simples_of content.entry.items) }
{
    Simple::Element {
        node: root,
        role,
        facts: INSERTED,
        attrs: &[],
        content,
    }
}
