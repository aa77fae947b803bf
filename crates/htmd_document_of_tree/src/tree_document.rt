//! The document of a tree.
ghost use Rattle.std.specs.Prelude.{◌≡◌, IfOk};
ghost use Rattle.htmd_nodes.specs.NumberedTrees.{tree_of};
ghost use Rattle.htmd_document.specs.DocumentViews.{document_of};
ghost use Rattle.htmd_shown.specs.SightViews.{sight_with};
ghost use Rattle.htmd_document_of_tree.specs.TreeDocuments.{document_of_tree};

use crate::anchors::{Anchors, put_anchors};
use crate::first_pieces::piece;
use crate::limits::limit;
use htmd_document::Document;
use htmd_nodes::Tree;
use std::alloc::{AllocError, Global};

/// What makes a document of a tree.
pub trait OfTree: Sized {
    /// What a reader sees of a tree. `skip` names elements that give nothing, with all in them; where scripts run,
    /// `noscript` gives nothing either. Of the places that links can lead to the document has those that `anchors`
    /// says. A rich document keeps elements that Markdown has no form for. `Err` means out of memory.
    fn of_tree(
        alloc: Global,
        tree: &Tree,
        scripting: bool,
        skip: &[&str],
        anchors: Anchors,
        rich: bool,
    ) -> Result<Self, AllocError>;
}

impl OfTree for Document {
    /// What a reader sees of a tree. `skip` names elements that give nothing, with all in them; where scripts run,
    /// `noscript` gives nothing either. Of the places that links can lead to the document has those that `anchors`
    /// says. A rich document keeps elements that Markdown has no form for. `Err` means out of memory.
    fn of_tree(
        alloc: Global,
        tree: &Tree,
        scripting: bool,
        skip: &[&str],
        anchors: Anchors,
        rich: bool,
    ) -> Result<Document, AllocError>
        ensures ok { IfOk result (λ d. document_of d
            ≡ document_of_tree anchors (sight_with scripting skip.now rich) (tree_of tree.now 0)) }
    {
        let mut trees = htmd_shown::shown(alloc, tree, scripting, skip, rich)?;
        limit(alloc, &mut trees)?;
        put_anchors(alloc, tree.root(), anchors, rich, &mut trees)?;
        piece(alloc, tree.root(), &mut trees)?;
        let blocks = htmd_flow::document_of(alloc, rich, &trees)?;
        Ok(Document { blocks })
    }
}
