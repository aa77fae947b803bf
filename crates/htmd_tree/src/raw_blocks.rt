//! Blocks of raw HTML that read back.
ghost use Rattle.std.specs.Prelude.{◌≡◌, ◌<◌, false, length, string_bytes, IfOk};
ghost use Rattle.htmd_nodes.specs.NumberedTrees.{tree_of, value_tree};
ghost use Rattle.htmd_tree.specs.NodeValues.{IsReadBack};
ghost use Rattle.htmd_values.specs.Serialisation as spec;
ghost use Rattle.htmd_values.specs.RawBlocks as blocks;

use htmd_grammar::laws::raw_html_reads_back;
use htmd_nodes::{NodeId, Tree};
use std::alloc::{AllocError, Global};

/// The serialisation of a node as a block of raw HTML (CommonMark 0.31.2, 4.6): between blank lines, with references in
/// place of the line ends that would make one. For an element below `body` of a tree that was read, the block reads
/// back as that element if it holds no carriage return, comment, `pre`, `textarea` or raw text element. The tree must
/// contain the node. `Err` means out of memory.
pub fn raw_block(alloc: Global, tree: &Tree, node: NodeId) -> Result<String, AllocError>
    requires { node < length tree.now }
    ensures text { IfOk result (λ text. string_bytes text
        ≡ blocks.raw_block (spec.serialisation (value_tree (tree_of tree.now node)))) }
    ensures raw { let s = spec.serialisation (value_tree (tree_of tree.now node)) in IfOk result
        (λ text. blocks.has_carriage_return s ≡ false → blocks.IsRawBlock s (string_bytes text)) }
    ensures reads_back { IfOk result (λ text. IsReadBack tree.now node (string_bytes text)) }
{
    raw_html_reads_back();
    htmd_nodes::raw_block(alloc, tree, node)
}
