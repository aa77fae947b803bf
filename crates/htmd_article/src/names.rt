//! What elements are by their names.
ghost use Rattle.std.specs.Prelude.{◌≡◌};
ghost use Rattle.htmd_lexical.specs.CharacterClasses.{is_among};
ghost use Rattle.htmd_nodes.specs.Tags.{tag_text};
ghost use Rattle.htmd_article.specs.Names as spec;

use htmd_nodes::{Name, Tag};

/// Whether the element never shows.
pub(crate) fn is_unseen(name: &Name) -> bool
    ensures { result ≡ spec.is_unseen name.now }
{
    match name.tag() {
        Some(tag) => is_unseen_tag(tag),
        None => false,
    }
}

fn is_unseen_tag(tag: Tag) -> bool
    ensures { result ≡ spec.is_unseen (tag_text tag) }
{
    matches!(
        tag,
        Tag::Script
            | Tag::Style
            | Tag::Title
            | Tag::Iframe
            | Tag::Noframes
            | Tag::Noembed
            | Tag::Template
            | Tag::Datalist
            | Tag::Noscript
            | Tag::Head
    )
}

pub(crate) fn is_heading(name: &Name) -> bool
    ensures { result ≡ spec.is_heading name.now }
{
    match name.tag() {
        Some(tag) => is_heading_tag(tag),
        None => false,
    }
}

fn is_heading_tag(tag: Tag) -> bool
    ensures { result ≡ spec.is_heading (tag_text tag) }
{
    matches!(
        tag,
        Tag::H1 | Tag::H2 | Tag::H3 | Tag::H4 | Tag::H5 | Tag::H6
    )
}

/// Whether the element is a heading or the term of a list.
pub(crate) fn is_title(name: &Name) -> bool
    ensures { result ≡ spec.is_title name.now }
{
    is_heading(name) || name.as_str() == "dt"
}

pub(crate) fn is_block(name: &Name) -> bool
    ensures { result ≡ spec.is_block name.now }
{
    is_heading(name) || is_list_part(name) || is_section(name) || is_other_block(name)
}

/// Whether the element is a list, a table or part of one.
fn is_list_part(name: &Name) -> bool
    ensures { result ≡ is_among spec.list_names name.now }
{
    match name.tag() {
        Some(tag) => is_list_part_tag(tag),
        None => false,
    }
}

fn is_list_part_tag(tag: Tag) -> bool
    ensures { result ≡ is_among spec.list_names (tag_text tag) }
{
    matches!(
        tag,
        Tag::Caption
            | Tag::Dd
            | Tag::Dir
            | Tag::Dl
            | Tag::Dt
            | Tag::Li
            | Tag::Menu
            | Tag::Ol
            | Tag::Table
            | Tag::Tbody
            | Tag::Td
            | Tag::Tfoot
            | Tag::Th
            | Tag::Thead
            | Tag::Tr
            | Tag::Ul
    )
}

/// Whether the element is a part of a page.
fn is_section(name: &Name) -> bool
    ensures { result ≡ is_among spec.section_names name.now }
{
    match name.tag() {
        Some(tag) => is_section_tag(tag),
        None => false,
    }
}

fn is_section_tag(tag: Tag) -> bool
    ensures { result ≡ is_among spec.section_names (tag_text tag) }
{
    matches!(
        tag,
        Tag::Address
            | Tag::Article
            | Tag::Aside
            | Tag::Body
            | Tag::Dialog
            | Tag::Footer
            | Tag::Frameset
            | Tag::Header
            | Tag::Hgroup
            | Tag::Html
            | Tag::Main
            | Tag::Nav
            | Tag::Search
            | Tag::Section
    )
}

/// Whether the element is another block, but no heading.
fn is_other_block(name: &Name) -> bool
    ensures { result ≡ is_among spec.block_names name.now }
{
    match name.tag() {
        Some(tag) => is_other_block_tag(tag),
        None => false,
    }
}

fn is_other_block_tag(tag: Tag) -> bool
    ensures { result ≡ is_among spec.block_names (tag_text tag) }
{
    matches!(
        tag,
        Tag::Blockquote
            | Tag::Center
            | Tag::Details
            | Tag::Div
            | Tag::Fieldset
            | Tag::Figcaption
            | Tag::Figure
            | Tag::Form
            | Tag::Legend
            | Tag::Listing
            | Tag::P
            | Tag::Plaintext
            | Tag::Pre
            | Tag::Summary
            | Tag::Xmp
    )
}

/// Whether density may choose the element.
pub(crate) fn is_container(name: &Name) -> bool
    ensures { result ≡ spec.is_container name.now }
{
    match name.tag() {
        Some(tag) => is_container_tag(tag),
        None => false,
    }
}

fn is_container_tag(tag: Tag) -> bool
    ensures { result ≡ spec.is_container (tag_text tag) }
{
    matches!(
        tag,
        Tag::Article | Tag::Center | Tag::Div | Tag::Form | Tag::Section | Tag::Td
    )
}

/// Whether the element is part of a page's frame wherever it is.
pub(crate) fn is_frame_name(name: &Name) -> bool
    ensures { result ≡ is_among spec.frame_names name.now }
{
    match name.tag() {
        Some(tag) => is_frame_name_tag(tag),
        None => false,
    }
}

fn is_frame_name_tag(tag: Tag) -> bool
    ensures { result ≡ is_among spec.frame_names (tag_text tag) }
{
    matches!(tag, Tag::Nav | Tag::Footer | Tag::Search | Tag::Dialog)
}

pub(crate) fn is_body(name: &Name) -> bool
    ensures { result ≡ spec.is_body name.now }
{
    match name.tag() {
        Some(tag) => is_body_tag(tag),
        None => false,
    }
}

fn is_body_tag(tag: Tag) -> bool
    ensures { result ≡ spec.is_body (tag_text tag) }
{
    matches!(tag, Tag::Body | Tag::Frameset)
}
