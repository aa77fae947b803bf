//! Block elements, by their tags.
ghost use Rattle.std.specs.Prelude.{◌≡◌};
ghost use Rattle.htmd_nodes.specs.Tags.{tag_text};
ghost use Rattle.htmd_text.specs.Blocks as spec;

use htmd_nodes::{Name, Tag};

/// Whether an element with this name is a block.
#[tactic(auto, using(crate::proofs::BlockTagsLemmas::no_block))]
pub(crate) fn is_block_name(name: &Name) -> bool
    ensures { result ≡ spec.is_block name.now }
{
    match name.tag() {
        Some(tag) => is_block_tag(tag),
        None => false,
    }
}

/// Whether an element with this tag is a block (CommonMark 0.31.2, 4.6).
#[tactic(auto, unfolding(htmd_text::specs::Blocks::is_block))]
fn is_block_tag(tag: Tag) -> bool
    ensures { result ≡ spec.is_block (tag_text tag) }
{
    match tag {
        Tag::Pre | Tag::Script | Tag::Style | Tag::Textarea => true,
        Tag::Html | Tag::Head | Tag::Body | Tag::Base | Tag::Basefont | Tag::Link => true,
        Tag::Title | Tag::Frame | Tag::Frameset | Tag::Iframe | Tag::Noframes => true,
        Tag::Param | Tag::Track | Tag::Search | Tag::Section | Tag::Main | Tag::Nav => true,
        Tag::Address | Tag::Article | Tag::Aside | Tag::Footer | Tag::Header => true,
        Tag::Blockquote | Tag::Center | Tag::Div | Tag::P | Tag::Hr => true,
        Tag::H1 | Tag::H2 | Tag::H3 | Tag::H4 | Tag::H5 | Tag::H6 => true,
        Tag::Dd | Tag::Dl | Tag::Dt | Tag::Li | Tag::Ol | Tag::Ul => true,
        Tag::Dir | Tag::Menu | Tag::Menuitem => true,
        Tag::Table | Tag::Caption | Tag::Col | Tag::Colgroup | Tag::Thead | Tag::Tbody => true,
        Tag::Tfoot | Tag::Tr | Tag::Td | Tag::Th => true,
        Tag::Details | Tag::Dialog | Tag::Figcaption | Tag::Figure | Tag::Summary => true,
        Tag::Fieldset | Tag::Form | Tag::Legend | Tag::Optgroup | Tag::Option => true,
        _ => false,
    }
}
