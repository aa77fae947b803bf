//! The normal form of the document of a tree.
ghost use Rattle.htmd_nodes.specs.NumberedTrees.{tree_of};
ghost use Rattle.htmd_document.specs.NormalDocuments.{IsNormal};
ghost use Rattle.htmd_shown.specs.SightViews.{sight_with};
ghost use Rattle.htmd_document_of_tree.specs.TreeDocuments.{document_of_tree};
ghost use Rattle.htmd_law_documents.specs.NormalLaws.{DocumentsAreNormal, TablesHaveRightLength, LoneAnchorsStand};

use htmd_document_of_tree::Anchors;
use htmd_nodes::Tree;

/// The document of a tree is in normal form, with whatever anchors.
pub fn documents_are_normal()
    ensures { DocumentsAreNormal }
{}

/// No table of it has columns that it doesn't need.
pub fn tables_have_right_length()
    ensures { TablesHaveRightLength }
{}

/// A paragraph of anchors alone stands in it right before a code block, or at its end.
pub fn lone_anchors_stand()
    ensures { LoneAnchorsStand }
{}

/// The document of every `Tree` is in normal form, whether scripts run or not, whatever names are skipped, and whether
/// it is rich or not.
pub fn this_document_is_normal(
    tree: &Tree,
    which: Anchors,
    scripting: bool,
    skip: &[&str],
    is_rich: bool,
)
    ensures { IsNormal (document_of_tree which (sight_with scripting skip.now is_rich) (tree_of tree.now 0)) }
{
    let _root = tree.root();
}
