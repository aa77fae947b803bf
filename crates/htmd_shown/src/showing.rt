//! Whether there is something to see in nodes.
ghost use Rattle.std.specs.Prelude.{◌≡◌, false, option_map};
ghost use Rattle.std.specs.List.{list_any};
ghost use Rattle.htmd_lexical.specs.Attributes.{pairs_of};
ghost use Rattle.htmd_shown.specs.Attributes.{is_filled};
ghost use Rattle.htmd_shown.specs.Marks as marks;
ghost use Rattle.htmd_shown.specs.Showings as spec;
ghost use Rattle.htmd_shown.specs.ShownTexts.{shown_text};
ghost use Rattle.htmd_shown.specs.SimpleViews.{simple_of, simples_of};

use crate::attributes::text_of;
use crate::role::Role;
use crate::shown_text::is_blank_when_shown;
use crate::sign::is_usual_sign;
use crate::simple::Simple;
use htmd_nodes::Attribute;

/// Whether an image shows: by its address, or by what it says.
pub fn image_shows(address: Option<&str>, attrs: &[Attribute]) -> bool
    ensures { result ≡ spec.image_shows (option_map (λ s. s.now) address.entry) (pairs_of attrs.now) }
{
    address.is_some() || !is_blank_when_shown(text_of(attrs, "alt"))
}

// ---- all text

/// Whether something of a text is no white space.
fn has_letters(text: &str) -> bool
    ensures whole { result ≡ is_filled (marks.letters text.now) }
    ensures shown { result ≡ is_filled (marks.letters (shown_text text.now)) }
{
    !is_blank_when_shown(text)
}

/// Whether something of the text of a node is no white space.
#[cycle(letters)]
fn has_letter(tree: &Simple) -> bool
    ensures { result ≡ is_filled (marks.letters_of (simple_of tree.now)) }
{
    match tree {
        Simple::Text(text) => has_letters(text),
        Simple::Image { attrs, .. } => has_letters(text_of(attrs, "alt")),
        Simple::Formula { .. } => true,
        Simple::Embedded(found) => has_letters(found.title.as_str()),
        Simple::Anchor(_) => false,
        Simple::Element { content, .. } => code_shows(content),
    }
}

/// Whether something of the text of nodes is no white space.
#[cycle(letters)]
pub fn code_shows(trees: &[Simple]) -> bool
    ensures { result ≡ spec.code_shows (simples_of trees.now) }
{
    for tree in trees {
        if has_letter(tree) {
            return true;
        }
    }
    false
}

// ---- usual signs

/// Whether a text shows a usual sign.
fn has_sign(text: &str) -> bool
    ensures whole { result ≡ list_any marks.is_usual_sign (marks.letters text.now) }
    ensures shown { result ≡ list_any marks.is_usual_sign (marks.letters (shown_text text.now)) }
{
    text.chars().any(is_usual_sign)
}

/// Whether a node shows a usual sign.
#[cycle(signs)]
fn shows_usual_sign(tree: &Simple) -> bool
    ensures { result ≡ list_any marks.is_usual_sign (marks.letters_of (simple_of tree.now)) }
{
    match tree {
        Simple::Text(text) => has_sign(text),
        Simple::Image { attrs, .. } => has_sign(text_of(attrs, "alt")),
        Simple::Formula { tex, .. } => has_sign(tex.as_str()),
        Simple::Embedded(found) => has_sign(found.title.as_str()),
        Simple::Anchor(_) => false,
        Simple::Element { content, .. } => show_usual_sign(content),
    }
}

/// Whether nodes show a usual sign.
#[cycle(signs)]
pub fn show_usual_sign(trees: &[Simple]) -> bool
    ensures { result ≡ spec.show_usual_sign (simples_of trees.now) }
{
    for tree in trees {
        if shows_usual_sign(tree) {
            return true;
        }
    }
    false
}

// ---- all that shows

/// Whether there is something to see in a node, which is in a heading or not.
#[cycle(shows)]
fn shows_in(in_heading: bool, tree: &Simple) -> bool
    ensures { result ≡ spec.shows in_heading (simple_of tree.now) }
{
    match tree {
        Simple::Text(text) => !is_blank_when_shown(text),
        Simple::Image { address, attrs } => image_shows(*address, attrs),
        Simple::Formula { .. } => true,
        Simple::Embedded(_) => true,
        Simple::Anchor(_) => false,
        Simple::Element { role, content, .. } => element_shows(in_heading, *role, content),
    }
}

/// Whether there is something to see in an element, which is in a heading or not: there a thematic break is none.
#[cycle(shows)]
fn element_shows(in_heading: bool, role: Role, content: &[Simple]) -> bool
    ensures { result ≡ spec.element_shows in_heading role (simples_of content.now) }
{
    if role.is_verbatim() {
        code_shows(content)
    } else if role.is_thematic_break() {
        !in_heading
    } else {
        show_in(in_heading || role.is_heading(), content)
    }
}

/// Whether there is something to see in nodes, which are in a heading or not.
#[cycle(shows)]
fn show_in(in_heading: bool, trees: &[Simple]) -> bool
    ensures { result ≡ spec.show in_heading (simples_of trees.now) }
{
    for tree in trees {
        if shows_in(in_heading, tree) {
            return true;
        }
    }
    false
}

/// Whether there is something to see in a node that is in no heading.
pub fn shows(tree: &Simple) -> bool
    ensures { result ≡ spec.shows false (simple_of tree.now) }
{
    shows_in(false, tree)
}

/// Whether there is something to see in nodes that are in no heading.
pub fn show(trees: &[Simple]) -> bool
    ensures { result ≡ spec.show false (simples_of trees.now) }
{
    show_in(false, trees)
}
