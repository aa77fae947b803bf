//! Items among nodes.
ghost use Rattle.std.specs.Prelude.{◌≡◌, ◌≤◌, length, map};
ghost use Rattle.std.specs.List.{list_all, list_any, prefix_len};
ghost use Rattle.std.specs.Str.{chars};
ghost use Rattle.htmd_shown.specs.Kinds.{has};
ghost use Rattle.htmd_shown.specs.Roles as roles;
ghost use Rattle.htmd_shown.specs.SimpleViews.{simple_of};
ghost use Rattle.htmd_flow.specs.ItemViews as views;

use htmd_shown::{Simple, is_item, is_paragraph};

/// Whether a character of the page is ASCII white space, or doesn't show.
fn is_space_or_unseen(c: char) -> bool
    ensures { result ≡ views.is_space_or_unseen c }
{
    c.is_ascii_whitespace() || matches!(c, '\0' | '\u{feff}')
}

/// Whether a text of the page is ASCII white space alone.
fn are_spaces(text: &str) -> bool
    ensures { result ≡ list_all views.is_space_or_unseen (chars text.now) }
{
    text.chars().all(is_space_or_unseen)
}

/// Whether a node is in a row of items: an item, or white space.
fn goes_on(node: &Simple) -> bool
    ensures { result ≡ views.goes_on (simple_of node.now) }
{
    match node {
        Simple::Text(text) => are_spaces(text),
        _ => is_item(node),
    }
}

/// How many nodes go on a row of items.
fn items_len(nodes: &[Simple]) -> usize
    ensures bound { result ≤ length nodes.now }
    ensures value { result ≡ prefix_len views.goes_on (map simple_of nodes.now) }
{
    for (len, node) in nodes.iter().enumerate() {
        if !goes_on(node) {
            return len;
        }
    }
    nodes.len()
}

/// How many nodes are a row of items at the beginning of these.
pub(crate) fn row_len(nodes: &[Simple]) -> usize
    ensures bound { result ≤ length nodes.now }
    ensures value { result ≡ views.row_len (map simple_of nodes.now) }
{
    match nodes {
        [first, after @ ..] if is_item(first) => 1 + items_len(after),
        _ => 0,
    }
}

/// How many nodes come before the first item.
pub(crate) fn before_item_len(nodes: &[Simple]) -> usize
    ensures bound { result ≤ length nodes.now }
    ensures value { result ≡ prefix_len views.is_no_item (map simple_of nodes.now) }
{
    for (len, node) in nodes.iter().enumerate() {
        if is_item(node) {
            return len;
        }
    }
    nodes.len()
}

/// Whether a paragraph is among these.
pub(crate) fn has_paragraph(content: &[Simple]) -> bool
    ensures { result ≡ list_any (has roles.is_paragraph) (map simple_of content.now) }
{
    for node in content {
        if is_paragraph(node) {
            return true;
        }
    }
    false
}
