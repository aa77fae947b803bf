//! Elements of the page, and numbers of lines among them.
ghost use Rattle.std.specs.Prelude.{◌≡◌, ◌<◌, All, IfSome, MatchOption, false, length};
ghost use Rattle.htmd_lexical.specs.Attributes.{pairs_of};
ghost use Rattle.htmd_nodes.specs.Items.{children_of};
ghost use Rattle.htmd_nodes.specs.NumberedTrees.{element, text, tree_of, forest_of};
ghost use Rattle.htmd_shown.specs.LineNumbers as spec;
ghost use Rattle.htmd_shown.specs.Roles as roles;
ghost use Rattle.htmd_shown.specs.Shown.{is_img};
ghost use Rattle.htmd_shown.specs.PageViews.{element_in, is_element, is_text};

use crate::classes::is_of_numbers;
use htmd_nodes::{Attribute, Name, NodeData, NodeId, Tag, Tree};

/// An element of a page.
#[derive(Clone, Copy)]
pub(crate) struct Element<'t> {
    pub(crate) node: NodeId,
    pub(crate) name: &'t Name,
    pub(crate) attrs: &'t [Attribute],
    pub(crate) children: &'t [NodeId],
}

/// A node, if it is an element.
pub(crate) fn element_at<'t>(tree: &'t Tree, node: NodeId) -> Option<Element<'t>>
    requires { node < length tree.now }
    ensures value { MatchOption result (is_element (tree_of tree.now node) ≡ false)
        (λ e. tree_of tree.now node ≡ element_in tree.now e) }
    ensures within { IfSome result (λ e. All (λ child. child < length tree.now) e.children.now) }
{
    match tree.data(node) {
        NodeData::Element { name, attrs } => Some(Element {
            node,
            name,
            attrs: attrs.as_slice(),
            children: tree.children(node),
        }),
        NodeData::Document => None,
        NodeData::Doctype => None,
        NodeData::Text(_) => None,
        NodeData::Comment(_) => None,
    }
}

/// The name and the attributes of a node, if it is an element.
pub(crate) fn tag_at<'t>(tree: &'t Tree, node: NodeId) -> Option<(&'t Name, &'t [Attribute])>
    requires { node < length tree.now }
    ensures { MatchOption result (is_element (tree_of tree.now node) ≡ false)
        (λ t. tree_of tree.now node ≡ element node t.0.now (pairs_of t.1.now)
        (forest_of (tree_of tree.now) (children_of tree.now node))) }
{
    match tree.data(node) {
        NodeData::Element { name, attrs } => Some((name, attrs.as_slice())),
        NodeData::Document => None,
        NodeData::Doctype => None,
        NodeData::Text(_) => None,
        NodeData::Comment(_) => None,
    }
}

/// The text of a node that is one.
pub(crate) fn text_at<'t>(tree: &'t Tree, node: NodeId) -> Option<&'t str>
    requires { node < length tree.now }
    ensures { MatchOption result (is_text (tree_of tree.now node) ≡ false)
        (λ s. tree_of tree.now node ≡ text node s.now) }
{
    match tree.data(node) {
        NodeData::Text(text) => Some(text.as_str()),
        NodeData::Document => None,
        NodeData::Doctype => None,
        NodeData::Comment(_) => None,
        NodeData::Element { .. } => None,
    }
}

/// Whether a node is an `img`.
pub(crate) fn is_img(tree: &Tree, node: NodeId) -> bool
    requires { node < length tree.now }
    ensures { result ≡ is_img (tree_of tree.now node) }
{
    match element_at(tree, node) {
        Some(found) => found.name.is(Tag::Img),
        None => false,
    }
}

/// Whether an element is a cell of line numbers.
pub(crate) fn is_number_cell(name: &Name, attrs: &[Attribute]) -> bool
    ensures { result ≡ spec.is_number_cell name.now (pairs_of attrs.now) }
{
    is_cell_name(name) && is_of_numbers(attrs)
}

/// Whether a cell has this name.
fn is_cell_name(name: &Name) -> bool
    ensures { result ≡ spec.is_cell_name name.now }
{
    name.is(Tag::Td) || name.is(Tag::Th)
}

/// Whether an element isn't code in a `pre`: line numbers.
pub(crate) fn is_number_in_code(name: &Name, attrs: &[Attribute]) -> bool
    ensures { result ≡ spec.is_number_in_code name.now (pairs_of attrs.now) }
{
    is_numbered_name(name) && is_of_numbers(attrs)
}

/// Whether line numbers can stand in an element with this name.
fn is_numbered_name(name: &Name) -> bool
    ensures { result ≡ roles.is_among spec.numbered_names name.now }
{
    is_cell_name(name)
        || name.is(Tag::Pre)
        || name.is(Tag::Span)
        || name.is(Tag::Div)
        || name.is(Tag::A)
}

/// Whether a `pre` is among nodes, or below them.
#[cycle(holds_pre)]
fn hold_pre(tree: &Tree, nodes: &[NodeId]) -> bool
    requires { All (λ node. node < length tree.now) nodes.now }
    ensures { result ≡ spec.hold_pre (forest_of (tree_of tree.now) nodes.now) }
{
    for node in nodes {
        if holds_pre(tree, *node) {
            return true;
        }
    }
    false
}

/// Whether a node is a `pre`, or holds one.
#[cycle(holds_pre)]
fn holds_pre(tree: &Tree, node: NodeId) -> bool
    requires { node < length tree.now }
    ensures { result ≡ spec.holds_pre (tree_of tree.now node) }
{
    match element_at(tree, node) {
        Some(found) => found.name.is(Tag::Pre) || hold_pre(tree, found.children),
        None => false,
    }
}

/// Whether a node is a cell of line numbers.
fn is_cell_of_numbers(tree: &Tree, node: NodeId) -> bool
    requires { node < length tree.now }
    ensures { result ≡ spec.is_of_numbers (tree_of tree.now node) }
{
    match element_at(tree, node) {
        Some(found) => is_number_cell(found.name, found.attrs),
        None => false,
    }
}

/// Whether a node is a cell of code: one that holds a `pre`, and not of line numbers.
fn is_code_cell(tree: &Tree, node: NodeId) -> bool
    requires { node < length tree.now }
    ensures { result ≡ spec.is_code_cell (tree_of tree.now node) }
{
    match element_at(tree, node) {
        Some(found) => {
            is_cell_name(found.name)
                && !is_of_numbers(found.attrs)
                && hold_pre(tree, found.children)
        }
        None => false,
    }
}

/// Whether a cell of line numbers is among nodes.
fn has_number_cell(tree: &Tree, nodes: &[NodeId]) -> bool
    requires { All (λ node. node < length tree.now) nodes.now }
    ensures { result ≡ spec.has_number_cell (forest_of (tree_of tree.now) nodes.now) }
{
    for node in nodes {
        if is_cell_of_numbers(tree, *node) {
            return true;
        }
    }
    false
}

/// Whether a cell of code is among nodes.
fn has_code_cell(tree: &Tree, nodes: &[NodeId]) -> bool
    requires { All (λ node. node < length tree.now) nodes.now }
    ensures { result ≡ spec.has_code_cell (forest_of (tree_of tree.now) nodes.now) }
{
    for node in nodes {
        if is_code_cell(tree, *node) {
            return true;
        }
    }
    false
}

/// Whether an element is a row with line numbers beside code.
pub(crate) fn is_numbered_row(tree: &Tree, name: &Name, children: &[NodeId]) -> bool
    requires { All (λ node. node < length tree.now) children.now }
    ensures { result ≡ spec.is_numbered_row name.now (forest_of (tree_of tree.now) children.now) }
{
    name.is(Tag::Tr) && has_number_cell(tree, children) && has_code_cell(tree, children)
}

/// Whether a node is a row with line numbers.
fn is_numbered(tree: &Tree, node: NodeId) -> bool
    requires { node < length tree.now }
    ensures { result ≡ spec.is_numbered (tree_of tree.now node) }
{
    match element_at(tree, node) {
        Some(found) => is_numbered_row(tree, found.name, found.children),
        None => false,
    }
}

/// Whether a row with line numbers is among nodes.
fn has_numbered(tree: &Tree, nodes: &[NodeId]) -> bool
    requires { All (λ node. node < length tree.now) nodes.now }
    ensures { result ≡ spec.has_numbered (forest_of (tree_of tree.now) nodes.now) }
{
    for node in nodes {
        if is_numbered(tree, *node) {
            return true;
        }
    }
    false
}

/// Whether parts of tables that hold rows have this name.
fn is_part_name(name: &Name) -> bool
    ensures { result ≡ spec.is_part_name name.now }
{
    name.is(Tag::Thead) || name.is(Tag::Tbody) || name.is(Tag::Tfoot)
}

/// Whether a child of a table is a row with line numbers, or a part that has one.
fn holds_numbered(tree: &Tree, node: NodeId) -> bool
    requires { node < length tree.now }
    ensures { result ≡ spec.holds_numbered (tree_of tree.now node) }
{
    match element_at(tree, node) {
        Some(found) => {
            is_numbered_row(tree, found.name, found.children)
                || is_part_name(found.name) && has_numbered(tree, found.children)
        }
        None => false,
    }
}

/// Whether a table with these children has a row with line numbers.
pub(crate) fn has_numbered_rows(tree: &Tree, nodes: &[NodeId]) -> bool
    requires { All (λ node. node < length tree.now) nodes.now }
    ensures { result ≡ spec.has_numbered_rows (forest_of (tree_of tree.now) nodes.now) }
{
    for node in nodes {
        if holds_numbered(tree, *node) {
            return true;
        }
    }
    false
}
