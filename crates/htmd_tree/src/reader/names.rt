//! The names that the rules of nesting tell apart, as numbers: a name is looked up once, and each question of the rules
//! compares numbers.
ghost use Rattle.std.specs.Prelude.{◌≡◌, ◌<◌};
ghost use Rattle.htmd_lexical.specs.CharacterClasses.{is_among};
ghost use Rattle.htmd_nodes.specs.Tags.{tag_text};
ghost use Rattle.htmd_tree.specs.KnownNames as spec;

use htmd_nodes::Tag;

/// What the rules of nesting know of a name. Names that they don't tell apart are one kind.
#[derive(Clone, Copy, Drop)]
pub(crate) enum KnownName {
    /// A tag with this name has no place at all.
    Outside,
    /// It holds text without references.
    RawText,
    /// `xmp`.
    Xmp,
    /// `noscript`.
    NoScript,
    /// It holds text with references: `title` or `textarea`.
    Text,
    /// It isn't allowed under an open `p`, and is no other kind.
    Block,
    /// `h1` to `h6`.
    Heading,
    /// `p`.
    P,
    /// `a`.
    A,
    /// `button`.
    Button,
    /// `form`.
    Form,
    /// `nobr`.
    NoBr,
    /// `li`.
    Li,
    /// A list of items: `ul`, `ol`, `menu` or `dir`.
    ItemList,
    /// `dd` or `dt`.
    Description,
    /// `dl`.
    Dl,
    /// `select`.
    Select,
    /// `optgroup`.
    OptGroup,
    /// `option`.
    OptionTag,
    /// `table`.
    Table,
    /// `caption`.
    Caption,
    /// `colgroup`.
    ColGroup,
    /// `thead`, `tbody` or `tfoot`.
    Rows,
    /// `tr`.
    Row,
    /// `td` or `th`.
    Cell,
    /// `col`.
    Col,
    /// A name that no rule of nesting has.
    Other,
}

/// What the rules of nesting know of a name.
#[tactic(auto, using(crate::proofs::KnownNamesLemmas::unknown_name))]
pub(crate) fn known_name(name: &str) -> KnownName
    ensures { result ≡ spec.known_name name.now }
{
    match Tag::with_text(name) {
        Some(tag) => known_tag(tag),
        None => KnownName::Other,
    }
}

/// The same of a tag.
#[tactic(auto, unfolding(crate::specs::KnownNames::known_name))]
fn known_tag(tag: Tag) -> KnownName
    ensures { result ≡ spec.known_name (tag_text tag) }
{
    match tag {
        Tag::Html | Tag::Head | Tag::Body | Tag::Frameset | Tag::Frame => KnownName::Outside,
        Tag::Template | Tag::Plaintext | Tag::Listing | Tag::Image => KnownName::Outside,
        Tag::Script | Tag::Style | Tag::Iframe | Tag::Noembed | Tag::Noframes => KnownName::RawText,
        Tag::Xmp => KnownName::Xmp,
        Tag::Noscript => KnownName::NoScript,
        Tag::Title | Tag::Textarea => KnownName::Text,
        _ => known_in_table(tag),
    }
}

/// The same of a tag that is none of those above.
#[tactic(auto, unfolding(crate::specs::KnownNames::known_in_table))]
fn known_in_table(tag: Tag) -> KnownName
    ensures { result ≡ spec.known_in_table (tag_text tag) }
{
    match tag {
        Tag::Table => KnownName::Table,
        Tag::Caption => KnownName::Caption,
        Tag::Colgroup => KnownName::ColGroup,
        Tag::Thead | Tag::Tbody | Tag::Tfoot => KnownName::Rows,
        Tag::Tr => KnownName::Row,
        Tag::Td | Tag::Th => KnownName::Cell,
        Tag::Col => KnownName::Col,
        _ => known_by_itself(tag),
    }
}

/// The same of a tag that is none of those above.
#[tactic(auto, unfolding(crate::specs::KnownNames::known_by_itself))]
fn known_by_itself(tag: Tag) -> KnownName
    ensures { result ≡ spec.known_by_itself (tag_text tag) }
{
    match tag {
        Tag::H1 | Tag::H2 | Tag::H3 | Tag::H4 | Tag::H5 | Tag::H6 => KnownName::Heading,
        Tag::P => KnownName::P,
        Tag::A => KnownName::A,
        Tag::Button => KnownName::Button,
        Tag::Form => KnownName::Form,
        Tag::Nobr => KnownName::NoBr,
        Tag::Li => KnownName::Li,
        Tag::Ul | Tag::Ol | Tag::Menu | Tag::Dir => KnownName::ItemList,
        Tag::Dd | Tag::Dt => KnownName::Description,
        Tag::Dl => KnownName::Dl,
        Tag::Select => KnownName::Select,
        Tag::Optgroup => KnownName::OptGroup,
        Tag::Option => KnownName::OptionTag,
        _ if is_block(tag) => KnownName::Block,
        _ => KnownName::Other,
    }
}

/// Whether it is the tag of a block that no rule tells from other blocks.
fn is_block(tag: Tag) -> bool
    ensures { result ≡ is_among spec.block_names (tag_text tag) }
{
    matches!(
        tag,
        Tag::Address
            | Tag::Article
            | Tag::Aside
            | Tag::Blockquote
            | Tag::Center
            | Tag::Details
            | Tag::Dialog
            | Tag::Div
            | Tag::Fieldset
            | Tag::Figcaption
            | Tag::Figure
            | Tag::Footer
            | Tag::Header
            | Tag::Hgroup
            | Tag::Hr
            | Tag::Main
            | Tag::Nav
            | Tag::Pre
            | Tag::Search
            | Tag::Section
            | Tag::Summary
    )
}

impl KnownName {
    /// Its number.
    #[inline(always)]
    fn number(self) -> u8
        ensures value { result ≡ spec.number self }
    {
        self as u8
    }

    /// Whether the names are of the same kind.
    #[inline(always)]
    pub(crate) fn is(self, other: KnownName) -> bool
        ensures { result ≡ spec.is other self }
    {
        self.number() == other.number()
    }

    /// Whether it holds text without references, with scripting on or off.
    pub(crate) fn holds_raw_text(self) -> bool
        ensures { result ≡ spec.holds_raw_text self }
    {
        matches!(self, KnownName::RawText | KnownName::Xmp)
    }

    /// Whether it isn't allowed under an open `p`.
    pub(crate) fn closes_paragraph(self) -> bool
        ensures { result ≡ spec.closes_paragraph self }
    {
        matches!(
            self,
            KnownName::Xmp
                | KnownName::Block
                | KnownName::Heading
                | KnownName::P
                | KnownName::Form
                | KnownName::Li
                | KnownName::ItemList
                | KnownName::Description
                | KnownName::Dl
                | KnownName::Table
        )
    }

    /// Whether it may only stand in a `table`.
    pub(crate) fn is_table_part(self) -> bool
        ensures { result ≡ spec.is_table_part self }
    {
        matches!(
            self,
            KnownName::Caption | KnownName::ColGroup | KnownName::Rows
        )
    }

    /// Whether it holds only parts of a table, comments and white space.
    pub(crate) fn holds_parts(self) -> bool
        ensures { result ≡ spec.holds_parts self }
    {
        matches!(
            self,
            KnownName::Table | KnownName::ColGroup | KnownName::Rows | KnownName::Row
        )
    }

    /// Whether it is an `optgroup` or an `option`.
    pub(crate) fn is_part_of_select(self) -> bool
        ensures { result ≡ spec.is_part_of_select self }
    {
        matches!(self, KnownName::OptGroup | KnownName::OptionTag)
    }
}
