//! A node that the walk comes to.

use crate::text_node::Context;
use htmd_nodes::NodeId;

/// A node that the walk comes to, and what is known of where it stands.
#[derive(Drop)]
pub(crate) struct Visit<'v> {
    pub(crate) node: NodeId,
    /// The joined text of the group that begins at the node.
    pub(crate) joined: Option<&'v str>,
    pub(crate) context: Context,
    /// The language that the parent names, if it is `pre`.
    pub(crate) pre_language: Option<&'v str>,
}
