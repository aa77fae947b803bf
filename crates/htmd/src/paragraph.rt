//! The tree of a text that is one paragraph.

ghost use Rattle.std.specs.Prelude.{◌≡◌, ◌≢◌, IfOk, IfErr};
ghost use Rattle.htmd.specs.PageOutputs.{paragraph};

use htmd_nodes::{Tree, TreeError};
use std::alloc::{AllocError, Global};

/// The tree of the paragraph that has this text.
fn tree_of(alloc: Global, text: &str) -> Result<Tree, TreeError>
    ensures ok { IfOk result (λ tree. tree ≡ paragraph text.now) }
    ensures err { IfErr result (λ error. error ≢ TreeError.TooDeep) }
{
    let mut tree = Tree::new(alloc)?;
    let root = tree.root();
    let element = tree.add_element(root, "p", Vec::new(alloc))?;
    if !text.is_empty() {
        tree.add_text(element, text)?;
    }
    Ok(tree)
}

/// The tree of a text that is one paragraph: a `p` with this text. `Err` means out of memory.
pub fn paragraph_of(alloc: Global, text: &str) -> Result<Tree, AllocError>
    ensures { IfOk result (λ tree. tree ≡ paragraph text.now) }
{
    match tree_of(alloc, text) {
        Ok(tree) => Ok(tree),
        Err(TreeError::Memory) => Err(AllocError),
        Err(TreeError::TooDeep) => unreachable!(),
    }
}
