//! What a document keeps of the texts of its tree.
ghost use Rattle.htmd_nodes.specs.NumberedTrees.{tree_of};
ghost use Rattle.htmd_shown.specs.SightViews.{sight_with};
ghost use Rattle.htmd_law_documents.specs.TextLaws.{TextOfDocument, TextOfTree, KeepsTextOfTree, ShowsAll};

use htmd_document_of_tree::Anchors;
use htmd_nodes::Tree;

/// Every visible character of simpler trees is in their document, in order, and no other: of texts, of the descriptions
/// of images, of formulas, and of the titles of what is embedded.
pub fn text_of_document()
    ensures { TextOfDocument }
{}

/// Every visible character of what shows of a tree is in its document, in order, and no other, with whatever anchors.
pub fn text_of_tree()
    ensures { TextOfTree }
{}

/// Every visible character of a page shows where no rule takes something away.
pub fn shows_all()
    ensures { ShowsAll }
{}

/// The text of its document is that of every `Tree`, whether scripts run or not, whatever names are skipped, and
/// whether it is rich or not.
pub fn text_of_this_tree(tree: &Tree, which: Anchors, scripting: bool, skip: &[&str], is_rich: bool)
    ensures { KeepsTextOfTree which (sight_with scripting skip.now is_rich) (tree_of tree.now 0) }
{
    let _root = tree.root();
}
