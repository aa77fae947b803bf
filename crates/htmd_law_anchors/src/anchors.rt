//! Which anchors a document has, and where.
ghost use Rattle.htmd_nodes.specs.NumberedTrees.{tree_of};
ghost use Rattle.htmd_shown.specs.SightViews.{sight_with};
ghost use Rattle.htmd_law_anchors.specs.AnchorLaws.{LinksLeadThere, NoneStand, LinkedAreLedTo, EachValueHasTarget};
ghost use Rattle.htmd_law_anchors.specs.AnchorLaws.{AnchorsOfTree, LinksCount, LinksOfTree, LinksReach};

use htmd_document_of_tree::Anchors;
use htmd_nodes::Tree;

/// The document of a tree has the anchors that its links lead to, or all, each once, and each where the page has it.
pub fn links_lead_there()
    ensures { LinksLeadThere }
{}

/// With none the document has no anchor.
pub fn none_stand()
    ensures { NoneStand }
{}

/// The anchors that its links lead to are those of all that a link leads to, and not only from its own heading.
pub fn linked_targets()
    ensures { LinkedAreLedTo }
{}

/// Each id of an element and each name of an `a` is the value of one of all anchors.
pub fn each_value()
    ensures { EachValueHasTarget }
{}

/// The first law for every `Tree`, whether scripts run or not, whatever names are skipped, and rich or not.
pub fn links_lead_there_in(
    tree: &Tree,
    which: Anchors,
    scripting: bool,
    skip: &[&str],
    is_rich: bool,
)
    ensures { AnchorsOfTree which (sight_with scripting skip.now is_rich)
        (tree_of tree.now 0) }
{
    let _root = tree.root();
}

/// Each link of the document of a tree to a part of its page is one of those that count.
pub fn links_count()
    ensures { LinksCount }
{}

/// By `Linked` each link to a part of the page leads to an anchor of the document, if the page has a place for it that
/// stands in no heading with a link to it.
pub fn links_reach()
    ensures { LinksReach }
{}

/// That each link counts, for every `Tree`, whether scripts run or not, whatever names are skipped, and rich or not.
pub fn links_count_in(tree: &Tree, which: Anchors, scripting: bool, skip: &[&str], is_rich: bool)
    ensures { LinksOfTree which (sight_with scripting skip.now is_rich)
        (tree_of tree.now 0) }
{
    let _root = tree.root();
}
