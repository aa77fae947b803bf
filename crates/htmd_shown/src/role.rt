//! What an element is to the document.
ghost use Rattle.std.specs.Prelude.{◌≡◌, map};
ghost use Rattle.htmd_shown.specs.Roles as spec;
ghost use Rattle.htmd_nodes.specs.Tags.{tag_text};

use htmd_document::{Format, InlineElement};
use htmd_nodes::{Name, Tag};

/// What an element is to the document.
#[derive(Clone, Copy, PartialEq, Eq)]
pub enum Role {
    Format(Format),
    /// What stays an element: `sup` and `sub`, and in rich documents others.
    Element(InlineElement),
    /// `abbr`.
    Abbreviation,
    /// `code`.
    Code,
    /// `samp` and `tt`, which are code too.
    Typed,
    /// An `a` with an address.
    Link,
    /// An `a` without an address.
    Target,
    /// What is beside its neighbours with a space between.
    Apart,
    LineBreak,
    Input,
    Heading(u8),
    Paragraph,
    /// `pre`.
    Preformatted,
    /// `listing`, `xmp` and `plaintext`.
    Verbatim,
    BlockQuote,
    ThematicBreak,
    BulletList,
    NumberedList,
    Item,
    /// `dl`.
    Terms,
    /// `dt`.
    Term,
    /// `dd`.
    Meaning,
    Table,
    /// A table for the layout of the page.
    LayoutTable,
    Caption,
    TableHead,
    /// `tbody` and `tfoot`.
    TableBody,
    Row,
    Cell,
    HeaderCell,
    /// `div`.
    Division,
    Figure,
    FigureCaption,
    Details,
    Summary,
    Legend,
    /// A block that is nothing else.
    Block,
    /// An element that says nothing of what is in it.
    Plain,
    /// Anchors in a paragraph of their own.
    Anchors,
    /// What isn't in the link around it.
    Unlinked,
}

/// What an element with this name is.
#[tactic(auto, using(crate::proofs::RolesLemmas::plain_name))]
pub fn role_of(name: &Name) -> Role
    ensures { result ≡ spec.role_of name.now }
{
    match name.tag() {
        Some(tag) => role_of_tag(tag),
        None => Role::Plain,
    }
}

/// What an element with this tag is.
#[tactic(auto, unfolding(crate::specs::Roles::role_of))]
fn role_of_tag(tag: Tag) -> Role
    ensures { result ≡ spec.role_of (tag_text tag) }
{
    match tag {
        Tag::P => Role::Paragraph,
        Tag::Li => Role::Item,
        Tag::Ul | Tag::Menu | Tag::Dir => Role::BulletList,
        Tag::Ol => Role::NumberedList,
        Tag::Pre => Role::Preformatted,
        Tag::Listing | Tag::Xmp | Tag::Plaintext => Role::Verbatim,
        Tag::Blockquote => Role::BlockQuote,
        Tag::Hr => Role::ThematicBreak,
        _ => table_role(tag),
    }
}

/// The same of a tag that is none of those above.
#[tactic(auto, unfolding(crate::specs::Roles::table_role))]
fn table_role(tag: Tag) -> Role
    ensures { result ≡ spec.table_role (tag_text tag) }
{
    match tag {
        Tag::Table => Role::Table,
        Tag::Caption => Role::Caption,
        Tag::Thead => Role::TableHead,
        Tag::Tbody | Tag::Tfoot => Role::TableBody,
        Tag::Tr => Role::Row,
        Tag::Td => Role::Cell,
        Tag::Th => Role::HeaderCell,
        _ => heading_or_block(tag),
    }
}

/// The same of a tag that is none of those above.
#[tactic(auto, unfolding(crate::specs::Roles::heading_or_block))]
fn heading_or_block(tag: Tag) -> Role
    ensures { result ≡ spec.heading_or_block (tag_text tag) }
{
    match tag {
        Tag::H1 => Role::Heading(1),
        Tag::H2 => Role::Heading(2),
        Tag::H3 => Role::Heading(3),
        Tag::H4 => Role::Heading(4),
        Tag::H5 => Role::Heading(5),
        Tag::H6 => Role::Heading(6),
        _ => block_role(tag),
    }
}

/// The same of a tag that is none of those above.
#[tactic(auto, unfolding(crate::specs::Roles::block_role))]
fn block_role(tag: Tag) -> Role
    ensures { result ≡ spec.block_role (tag_text tag) }
{
    match tag {
        Tag::Dl => Role::Terms,
        Tag::Dt => Role::Term,
        Tag::Dd => Role::Meaning,
        Tag::Div => Role::Division,
        Tag::Figure => Role::Figure,
        Tag::Figcaption => Role::FigureCaption,
        Tag::Details => Role::Details,
        Tag::Summary => Role::Summary,
        Tag::Legend => Role::Legend,
        _ if is_block(tag) => Role::Block,
        _ => inline_role(tag),
    }
}

/// Whether it is the tag of a block that is nothing else.
fn is_block(tag: Tag) -> bool
    ensures { result ≡ spec.is_among spec.block_names (tag_text tag) }
{
    matches!(
        tag,
        Tag::Address
            | Tag::Article
            | Tag::Aside
            | Tag::Body
            | Tag::Center
            | Tag::Dialog
            | Tag::Fieldset
            | Tag::Footer
            | Tag::Form
            | Tag::Frameset
            | Tag::Header
            | Tag::Hgroup
            | Tag::Html
            | Tag::Main
            | Tag::Nav
            | Tag::Search
            | Tag::Section
    )
}

/// What an element with this tag is, if it stands in lines.
#[tactic(auto, unfolding(crate::specs::Roles::inline_role))]
fn inline_role(tag: Tag) -> Role
    ensures { result ≡ spec.inline_role (tag_text tag) }
{
    match tag {
        Tag::Em | Tag::I | Tag::Cite | Tag::Dfn | Tag::Var => Role::Format(Format::Emphasis),
        Tag::Strong | Tag::B => Role::Format(Format::Strong),
        Tag::Del | Tag::S | Tag::Strike => Role::Format(Format::Deleted),
        Tag::Code => Role::Code,
        Tag::Tt | Tag::Samp => Role::Typed,
        Tag::A => Role::Link,
        Tag::Button | Tag::Select | Tag::Option | Tag::Optgroup | Tag::Textarea => Role::Apart,
        Tag::Br => Role::LineBreak,
        Tag::Input => Role::Input,
        _ => element_role(tag),
    }
}

/// The same of a tag that is none of those above.
#[tactic(auto, unfolding(crate::specs::Roles::element_role))]
fn element_role(tag: Tag) -> Role
    ensures { result ≡ spec.element_role (tag_text tag) }
{
    match tag {
        Tag::Sup => Role::Element(InlineElement::Superscript),
        Tag::Sub => Role::Element(InlineElement::Subscript),
        Tag::Ins => Role::Element(InlineElement::Inserted),
        Tag::U => Role::Element(InlineElement::Underlined),
        Tag::Mark => Role::Element(InlineElement::Marked),
        Tag::Small => Role::Element(InlineElement::Small),
        Tag::Kbd => Role::Element(InlineElement::Keyboard),
        Tag::Abbr => Role::Abbreviation,
        _ => Role::Plain,
    }
}

/// Whether a browser never shows elements with this name.
pub(crate) fn is_never_shown(name: &Name) -> bool
    ensures { result ≡ spec.is_among spec.hidden_names name.now }
{
    match name.tag() {
        Some(tag) => is_hidden_tag(tag),
        None => false,
    }
}

/// Whether a browser never shows elements with this tag.
fn is_hidden_tag(tag: Tag) -> bool
    ensures { result ≡ spec.is_among spec.hidden_names (tag_text tag) }
{
    matches!(
        tag,
        Tag::Script
            | Tag::Style
            | Tag::Title
            | Tag::Noframes
            | Tag::Noembed
            | Tag::Template
            | Tag::Datalist
            | Tag::Annotation
            | Tag::AnnotationXml
    )
}

/// Whether the name is one of these.
pub fn is_among(name: &str, names: &[&str]) -> bool
    ensures { result ≡ spec.is_among (map (λ n. n.now) names.now) name.now }
{
    names.contains(&name)
}

impl Role {
    /// Whether the content of such an element counts for nothing, and something shows of it.
    pub fn is_void(self) -> bool
        ensures { result ≡ spec.is_void self }
    {
        matches!(self, Role::LineBreak | Role::ThematicBreak)
    }

    /// Whether it is an `a` with an address.
    pub fn is_link(self) -> bool
        ensures { result ≡ spec.is_link self }
    {
        matches!(self, Role::Link)
    }

    /// Whether it is an `abbr`.
    pub fn is_abbreviation(self) -> bool
        ensures { result ≡ spec.is_abbreviation self }
    {
        matches!(self, Role::Abbreviation)
    }

    /// Whether it is an `a`.
    pub fn is_anchor(self) -> bool
        ensures { result ≡ spec.is_anchor self }
    {
        matches!(self, Role::Link | Role::Target)
    }

    pub fn is_item(self) -> bool
        ensures { result ≡ spec.is_item self }
    {
        matches!(self, Role::Item)
    }

    pub fn is_paragraph(self) -> bool
        ensures { result ≡ spec.is_paragraph self }
    {
        matches!(self, Role::Paragraph)
    }

    pub fn is_term(self) -> bool
        ensures { result ≡ spec.is_term self }
    {
        matches!(self, Role::Term)
    }

    pub fn is_meaning(self) -> bool
        ensures { result ≡ spec.is_meaning self }
    {
        matches!(self, Role::Meaning)
    }

    pub fn is_division(self) -> bool
        ensures { result ≡ spec.is_division self }
    {
        matches!(self, Role::Division)
    }

    pub fn is_figure_caption(self) -> bool
        ensures { result ≡ spec.is_figure_caption self }
    {
        matches!(self, Role::FigureCaption)
    }

    pub fn is_summary(self) -> bool
        ensures { result ≡ spec.is_summary self }
    {
        matches!(self, Role::Summary)
    }

    pub fn is_table(self) -> bool
        ensures { result ≡ spec.is_table self }
    {
        matches!(self, Role::Table | Role::LayoutTable)
    }

    pub fn is_caption(self) -> bool
        ensures { result ≡ spec.is_caption self }
    {
        matches!(self, Role::Caption)
    }

    /// Whether it is the head of a table.
    pub fn is_head(self) -> bool
        ensures { result ≡ spec.is_head self }
    {
        matches!(self, Role::TableHead)
    }

    /// Whether it is a part of a table that holds rows.
    pub fn is_part(self) -> bool
        ensures { result ≡ spec.is_part self }
    {
        matches!(self, Role::TableHead | Role::TableBody)
    }

    pub fn is_row(self) -> bool
        ensures { result ≡ spec.is_row self }
    {
        matches!(self, Role::Row)
    }

    pub fn is_row_or_part(self) -> bool
        ensures { result ≡ spec.is_row_or_part self }
    {
        matches!(self, Role::Row | Role::TableHead | Role::TableBody)
    }

    pub fn is_cell(self) -> bool
        ensures { result ≡ spec.is_cell self }
    {
        matches!(self, Role::Cell | Role::HeaderCell)
    }

    pub fn is_header_cell(self) -> bool
        ensures { result ≡ spec.is_header_cell self }
    {
        matches!(self, Role::HeaderCell)
    }

    pub fn is_line_break(self) -> bool
        ensures { result ≡ spec.is_line_break self }
    {
        matches!(self, Role::LineBreak)
    }

    pub fn is_thematic_break(self) -> bool
        ensures { result ≡ spec.is_thematic_break self }
    {
        matches!(self, Role::ThematicBreak)
    }

    /// Whether it is a `pre`.
    pub fn is_preformatted(self) -> bool
        ensures { result ≡ spec.is_preformatted self }
    {
        matches!(self, Role::Preformatted)
    }

    /// Whether white space in such an element stays.
    pub fn is_verbatim(self) -> bool
        ensures { result ≡ spec.is_verbatim self }
    {
        matches!(self, Role::Preformatted | Role::Verbatim)
    }

    pub fn is_heading(self) -> bool
        ensures { result ≡ spec.is_heading self }
    {
        matches!(self, Role::Heading(_))
    }

    /// Whether it heads something that isn't the page.
    pub fn is_title(self) -> bool
        ensures { result ≡ spec.is_title self }
    {
        matches!(
            self,
            Role::Term | Role::Caption | Role::FigureCaption | Role::Summary
        )
    }

    /// Whether it is a heading, or heads something else.
    pub fn is_headed(self) -> bool
        ensures { result ≡ spec.is_headed self }
    {
        matches!(
            self,
            Role::Heading(_)
                | Role::Term
                | Role::Caption
                | Role::FigureCaption
                | Role::Summary
                | Role::Legend
        )
    }

    /// Whether such an element stands in a line, and is no block.
    pub fn is_inline(self) -> bool
        ensures { result ≡ spec.is_inline self }
    {
        matches!(
            self,
            Role::Format(_)
                | Role::Element(_)
                | Role::Abbreviation
                | Role::Code
                | Role::Typed
                | Role::Link
                | Role::Target
                | Role::Apart
                | Role::LineBreak
                | Role::Input
                | Role::Plain
                | Role::Anchors
                | Role::Unlinked
        )
    }

    /// Whether such an element has edges, or is a block.
    pub fn is_edged(self) -> bool
        ensures { result ≡ spec.is_edged self }
    {
        !self.is_inline()
    }
}
