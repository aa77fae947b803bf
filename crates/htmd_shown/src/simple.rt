//! The simpler tree: what shows of a page, of which its document is made.
ghost use Rattle.std.specs.Prelude.{◌≡◌};
ghost use Rattle.htmd_lexical.specs.Attributes.{pairs_of};
ghost use Rattle.htmd_shown.specs.Kinds as kinds;
ghost use Rattle.htmd_shown.specs.Roles as roles;
ghost use Rattle.htmd_shown.specs.SimpleTrees as spec;
ghost use Rattle.htmd_shown.specs.SimpleViews.{simple_of, simples_of};

use crate::facts::Facts;
use crate::role::Role;
use crate::shown_text::is_blank_when_shown;
use htmd_nodes::{Attribute, NodeId};

/// A node of the simpler tree.
#[derive(Drop)]
pub enum Simple<'t> {
    Text(&'t str),
    /// An image, by the address that counts.
    Image {
        address: Option<&'t str>,
        attrs: &'t [Attribute],
    },
    /// A formula, by its TeX.
    Formula {
        tex: String,
        is_alone: bool,
        attrs: &'t [Attribute],
    },
    Embedded(Box<Embedded<'t>>),
    /// An id that links lead to.
    Anchor(String),
    Element {
        node: NodeId,
        role: Role,
        facts: Facts,
        attrs: &'t [Attribute],
        content: Vec<Simple<'t>>,
    },
}

/// What is embedded: where it is, and the text of the link that leads there.
#[derive(Drop)]
pub struct Embedded<'t> {
    pub node: NodeId,
    pub address: String,
    pub title: String,
    pub attrs: &'t [Attribute],
    /// The ids that links lead to it by.
    pub anchors: Vec<String>,
}

/// Whether a node is an image.
pub fn is_image(node: &Simple) -> bool
    ensures { result ≡ spec.is_image (simple_of node.now) }
{
    matches!(node, Simple::Image { .. })
}

/// Whether a node is a text.
pub fn is_text(node: &Simple) -> bool
    ensures { result ≡ spec.is_text (simple_of node.now) }
{
    matches!(node, Simple::Text(_))
}

/// What a node is, if it is an element.
pub fn role_in(node: &Simple) -> Option<Role>
    ensures { result ≡ kinds.role_in (simple_of node.now) }
{
    match node {
        Simple::Element { role, .. } => Some(*role),
        Simple::Text(_) => None,
        Simple::Image { .. } => None,
        Simple::Formula { .. } => None,
        Simple::Embedded(_) => None,
        Simple::Anchor(_) => None,
    }
}

/// What is in a node; in one that is no element nothing is.
pub fn content_of<'a, 't>(node: &'a Simple<'t>) -> &'a [Simple<'t>]
    ensures { simples_of result.now ≡ kinds.content_of (simple_of node.now) }
{
    match node {
        Simple::Element { content, .. } => content.as_slice(),
        Simple::Text(_) => &[],
        Simple::Image { .. } => &[],
        Simple::Formula { .. } => &[],
        Simple::Embedded(_) => &[],
        Simple::Anchor(_) => &[],
    }
}

/// Whether nothing shows of a node.
pub fn is_blank(node: &Simple) -> bool
    ensures { result ≡ kinds.is_blank (simple_of node.now) }
{
    match node {
        Simple::Text(text) => is_blank_when_shown(text),
        Simple::Anchor(_) => true,
        Simple::Element { role, facts, .. } => !role.is_void() && facts.is_blank,
        Simple::Image { .. } => false,
        Simple::Formula { .. } => false,
        Simple::Embedded(_) => false,
    }
}

/// Whether nothing shows of nodes.
pub fn are_blank(nodes: &[Simple]) -> bool
    ensures { result ≡ kinds.are_blank (simples_of nodes.now) }
{
    for node in nodes {
        if !is_blank(node) {
            return false;
        }
    }
    true
}

/// Whether a node is a table, or has one in it.
pub fn has_table(node: &Simple) -> bool
    ensures { result ≡ kinds.has_table (simple_of node.now) }
{
    match node {
        Simple::Element { role, facts, .. } => role.is_table() || facts.holds_table,
        Simple::Text(_) => false,
        Simple::Image { .. } => false,
        Simple::Formula { .. } => false,
        Simple::Embedded(_) => false,
        Simple::Anchor(_) => false,
    }
}

/// Whether a node is a header cell, or has one in it.
pub fn has_header(node: &Simple) -> bool
    ensures { result ≡ kinds.has_header (simple_of node.now) }
{
    match node {
        Simple::Element { role, facts, .. } => role.is_header_cell() || facts.holds_header,
        Simple::Text(_) => false,
        Simple::Image { .. } => false,
        Simple::Formula { .. } => false,
        Simple::Embedded(_) => false,
        Simple::Anchor(_) => false,
    }
}

/// Whether a node is an item of a list.
pub fn is_item(node: &Simple) -> bool
    ensures { result ≡ kinds.has roles.is_item (simple_of node.now) }
{
    match role_in(node) {
        Some(role) => role.is_item(),
        None => false,
    }
}

/// Whether a node is a paragraph.
pub fn is_paragraph(node: &Simple) -> bool
    ensures { result ≡ kinds.has roles.is_paragraph (simple_of node.now) }
{
    match role_in(node) {
        Some(role) => role.is_paragraph(),
        None => false,
    }
}

/// Whether a node is a term.
pub fn is_term(node: &Simple) -> bool
    ensures { result ≡ kinds.has roles.is_term (simple_of node.now) }
{
    match role_in(node) {
        Some(role) => role.is_term(),
        None => false,
    }
}

/// Whether a node is what a term means.
pub fn is_meaning(node: &Simple) -> bool
    ensures { result ≡ kinds.has roles.is_meaning (simple_of node.now) }
{
    match role_in(node) {
        Some(role) => role.is_meaning(),
        None => false,
    }
}

/// Whether a node is the caption of a figure.
pub fn is_figure_caption(node: &Simple) -> bool
    ensures { result ≡ kinds.has roles.is_figure_caption (simple_of node.now) }
{
    match role_in(node) {
        Some(role) => role.is_figure_caption(),
        None => false,
    }
}

/// Whether a node is the summary of `details`.
pub fn is_summary(node: &Simple) -> bool
    ensures { result ≡ kinds.has roles.is_summary (simple_of node.now) }
{
    match role_in(node) {
        Some(role) => role.is_summary(),
        None => false,
    }
}

/// Whether a node is a term, a caption or a summary.
pub fn is_title(node: &Simple) -> bool
    ensures { result ≡ kinds.has roles.is_title (simple_of node.now) }
{
    match role_in(node) {
        Some(role) => role.is_title(),
        None => false,
    }
}

/// Whether a node is a caption.
pub fn is_caption(node: &Simple) -> bool
    ensures { result ≡ kinds.has roles.is_caption (simple_of node.now) }
{
    match role_in(node) {
        Some(role) => role.is_caption(),
        None => false,
    }
}

/// Whether a node is the head of a table.
pub fn is_head(node: &Simple) -> bool
    ensures { result ≡ kinds.has roles.is_head (simple_of node.now) }
{
    match role_in(node) {
        Some(role) => role.is_head(),
        None => false,
    }
}

/// Whether a node is a part of a table that holds rows.
pub fn is_part(node: &Simple) -> bool
    ensures { result ≡ kinds.has roles.is_part (simple_of node.now) }
{
    match role_in(node) {
        Some(role) => role.is_part(),
        None => false,
    }
}

/// Whether a node is a row.
pub fn is_row(node: &Simple) -> bool
    ensures { result ≡ kinds.has roles.is_row (simple_of node.now) }
{
    match role_in(node) {
        Some(role) => role.is_row(),
        None => false,
    }
}

/// Whether a node is a row, or a part of a table that holds rows.
pub fn is_row_or_part(node: &Simple) -> bool
    ensures { result ≡ kinds.has roles.is_row_or_part (simple_of node.now) }
{
    match role_in(node) {
        Some(role) => role.is_row_or_part(),
        None => false,
    }
}

/// Whether a node is a cell.
pub fn is_cell(node: &Simple) -> bool
    ensures { result ≡ kinds.has roles.is_cell (simple_of node.now) }
{
    match role_in(node) {
        Some(role) => role.is_cell(),
        None => false,
    }
}

/// Whether a node is a header cell.
pub fn is_header_cell(node: &Simple) -> bool
    ensures { result ≡ kinds.has roles.is_header_cell (simple_of node.now) }
{
    match role_in(node) {
        Some(role) => role.is_header_cell(),
        None => false,
    }
}
