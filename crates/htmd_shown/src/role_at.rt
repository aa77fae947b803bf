//! What an element is to the document by its attributes and its content.
ghost use Rattle.std.specs.Prelude.{◌≡◌, ◌<◌, All, length};
ghost use Rattle.htmd_lexical.specs.Attributes.{pairs_of};
ghost use Rattle.htmd_nodes.specs.NumberedTrees.{tree_of, forest_of};
ghost use Rattle.htmd_shown.specs.Shown as spec;

use crate::attributes::{first_word, text_of};
use crate::page::{Element, has_numbered_rows};
use crate::role::{Role, role_of};
use htmd_document::InlineElement;
use htmd_nodes::{Attribute, Tree, value_of};

/// Whether a table says that it is for the layout of the page.
fn is_for_layout(attrs: &[Attribute]) -> bool
    ensures { result ≡ spec.is_for_layout (pairs_of attrs.now) }
{
    match first_word(text_of(attrs, "role")) {
        Some(found) => {
            found.word.eq_ignore_ascii_case("presentation")
                || found.word.eq_ignore_ascii_case("none")
        }
        None => false,
    }
}

/// What an element is in a document that isn't rich: what is typed is code.
fn plain_element(element: InlineElement) -> Role
    ensures { result ≡ spec.plain_element element }
{
    match element {
        InlineElement::Superscript | InlineElement::Subscript => Role::Element(element),
        InlineElement::Keyboard => Role::Typed,
        _ => Role::Plain,
    }
}

/// What an element is: an `a` without an address is no link, and a table for layout or with line numbers is none of
/// rows and columns.
pub(crate) fn role_at(is_rich: bool, tree: &Tree, found: &Element) -> Role
    requires { All (λ node. node < length tree.now) found.now.children.now }
    ensures { result ≡ spec.role_at is_rich found.now.name.now (pairs_of found.now.attrs.now)
        (forest_of (tree_of tree.now) found.now.children.now) }
{
    match role_of(found.name) {
        Role::Link => {
            if value_of(found.attrs, "href").is_some() {
                Role::Link
            } else {
                Role::Target
            }
        }
        Role::Table => {
            if is_for_layout(found.attrs) || has_numbered_rows(tree, found.children) {
                Role::LayoutTable
            } else {
                Role::Table
            }
        }
        Role::Element(element) => {
            if is_rich {
                Role::Element(element)
            } else {
                plain_element(element)
            }
        }
        Role::Abbreviation => {
            if is_rich {
                Role::Abbreviation
            } else {
                Role::Plain
            }
        }
        role => role,
    }
}
