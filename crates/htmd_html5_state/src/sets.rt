//! Sets of names, and what bounds a scope.
ghost use Rattle.std.specs.Prelude.{◌≡◌, map};
ghost use Rattle.htmd_lexical.specs.CharacterClasses as classes;
ghost use Rattle.htmd_html5_state.specs.Names.{element_name_of};
ghost use Rattle.htmd_html5_state.specs.SetMembers.{members};
ghost use Rattle.htmd_html5_state.specs.Sets as spec;

use crate::names::{ElementName, HtmlName, TagName};

/// A set of names of HTML.
#[derive(Clone, Copy)]
pub enum NameSet {
    Only(TagName),
    Headings,
    /// `dd` and `dt`.
    DescriptionParts,
    /// `td` and `th`.
    Cells,
    /// `tbody`, `tfoot` and `thead`.
    TableSections,
    /// `option` and `optgroup`.
    Options,
    /// What ends by implication.
    ImpliedEnd,
    /// What a start tag of `rp` or `rt` ends by implication.
    ImpliedEndInRuby,
    /// Elements in which a node goes to a foster parent.
    Fostering,
    TableContext,
    TableBodyContext,
    TableRowContext,
}

/// What a search in the stack of open elements doesn't leave.
#[derive(Clone, Copy)]
pub enum Scope {
    Default,
    ListItem,
    Button,
    Table,
    Select,
    /// What is in the innermost `template`.
    Template,
    /// What any other end tag may close.
    Special,
    /// What a start tag of `li`, `dd` or `dt` may close.
    Items,
}

fn is_heading(tag: TagName) -> bool
    ensures { result ≡ spec.is_heading tag }
{
    matches!(
        tag,
        TagName::H1 | TagName::H2 | TagName::H3 | TagName::H4 | TagName::H5 | TagName::H6
    )
}

fn ends_by_implication(tag: TagName) -> bool
    ensures { result ≡ spec.ends_by_implication tag }
{
    matches!(
        tag,
        TagName::Dd
            | TagName::Dt
            | TagName::Li
            | TagName::OptGroup
            | TagName::OptionTag
            | TagName::P
            | TagName::Rb
            | TagName::Rp
            | TagName::Rt
            | TagName::Rtc
    )
}

fn is_fostering(tag: TagName) -> bool
    ensures { result ≡ spec.is_fostering tag }
{
    matches!(
        tag,
        TagName::Table | TagName::TBody | TagName::TFoot | TagName::THead | TagName::Tr
    )
}

fn is_special(tag: TagName) -> bool
    ensures { result ≡ spec.is_special tag }
{
    matches!(
        tag,
        TagName::Address
            | TagName::Applet
            | TagName::Area
            | TagName::Article
            | TagName::Aside
            | TagName::Base
            | TagName::BaseFont
            | TagName::BgSound
            | TagName::BlockQuote
            | TagName::Body
            | TagName::Br
            | TagName::Button
            | TagName::Caption
            | TagName::Center
            | TagName::Col
            | TagName::ColGroup
            | TagName::Dd
            | TagName::Details
            | TagName::Dir
            | TagName::Div
            | TagName::Dl
            | TagName::Dt
            | TagName::Embed
            | TagName::FieldSet
            | TagName::FigCaption
            | TagName::Figure
            | TagName::Footer
            | TagName::Form
            | TagName::Frame
            | TagName::FrameSet
            | TagName::H1
            | TagName::H2
            | TagName::H3
            | TagName::H4
            | TagName::H5
            | TagName::H6
            | TagName::Head
            | TagName::Header
            | TagName::HGroup
            | TagName::Hr
            | TagName::Html
            | TagName::Iframe
            | TagName::Img
            | TagName::Input
            | TagName::KeyGen
            | TagName::Li
            | TagName::Link
            | TagName::Listing
            | TagName::Main
            | TagName::Marquee
            | TagName::Menu
            | TagName::Meta
            | TagName::Nav
            | TagName::NoEmbed
            | TagName::NoFrames
            | TagName::NoScript
            | TagName::Object
            | TagName::Ol
            | TagName::P
            | TagName::Param
            | TagName::PlainText
            | TagName::Pre
            | TagName::Script
            | TagName::Search
            | TagName::Section
            | TagName::Select
            | TagName::Source
            | TagName::Style
            | TagName::Summary
            | TagName::Table
            | TagName::TBody
            | TagName::Td
            | TagName::Template
            | TagName::TextArea
            | TagName::TFoot
            | TagName::Th
            | TagName::THead
            | TagName::Title
            | TagName::Tr
            | TagName::Track
            | TagName::Ul
            | TagName::Wbr
            | TagName::Xmp
    )
}

fn bounds_scope(tag: TagName) -> bool
    ensures { result ≡ spec.bounds_scope tag }
{
    matches!(
        tag,
        TagName::Applet
            | TagName::Caption
            | TagName::Html
            | TagName::Marquee
            | TagName::Object
            | TagName::Table
            | TagName::Td
            | TagName::Template
            | TagName::Th
    )
}

fn is_description_part(tag: TagName) -> bool
    ensures { result ≡ spec.is_description_part tag }
{
    matches!(tag, TagName::Dd | TagName::Dt)
}

fn is_cell(tag: TagName) -> bool
    ensures { result ≡ spec.is_cell tag }
{
    matches!(tag, TagName::Td | TagName::Th)
}

fn is_table_section(tag: TagName) -> bool
    ensures { result ≡ spec.is_table_section tag }
{
    matches!(tag, TagName::TBody | TagName::TFoot | TagName::THead)
}

fn is_option(tag: TagName) -> bool
    ensures { result ≡ spec.is_option tag }
{
    matches!(tag, TagName::OptGroup | TagName::OptionTag)
}

fn is_table_context(tag: TagName) -> bool
    ensures { result ≡ spec.is_table_context tag }
{
    matches!(tag, TagName::Html | TagName::Table | TagName::Template)
}

fn is_table_body_context(tag: TagName) -> bool
    ensures { result ≡ spec.is_table_body_context tag }
{
    matches!(
        tag,
        TagName::Html | TagName::TBody | TagName::Template | TagName::TFoot | TagName::THead
    )
}

fn is_table_row_context(tag: TagName) -> bool
    ensures { result ≡ spec.is_table_row_context tag }
{
    matches!(tag, TagName::Html | TagName::Template | TagName::Tr)
}

fn ends_in_ruby(tag: TagName) -> bool
    ensures { result ≡ spec.ends_in_ruby tag }
{
    match tag {
        TagName::Rtc => false,
        _ => ends_by_implication(tag),
    }
}

static HEADINGS: [TagName; 6] = [
    TagName::H1,
    TagName::H2,
    TagName::H3,
    TagName::H4,
    TagName::H5,
    TagName::H6,
];

static DESCRIPTION_PARTS: [TagName; 2] = [TagName::Dd, TagName::Dt];

static CELLS: [TagName; 2] = [TagName::Td, TagName::Th];

static TABLE_SECTIONS: [TagName; 3] = [TagName::TBody, TagName::TFoot, TagName::THead];

static OPTIONS: [TagName; 2] = [TagName::OptGroup, TagName::OptionTag];

static IMPLIED_END: [TagName; 10] = [
    TagName::Dd,
    TagName::Dt,
    TagName::Li,
    TagName::OptGroup,
    TagName::OptionTag,
    TagName::P,
    TagName::Rb,
    TagName::Rp,
    TagName::Rt,
    TagName::Rtc,
];

static IMPLIED_END_IN_RUBY: [TagName; 9] = [
    TagName::Dd,
    TagName::Dt,
    TagName::Li,
    TagName::OptGroup,
    TagName::OptionTag,
    TagName::P,
    TagName::Rb,
    TagName::Rp,
    TagName::Rt,
];

static FOSTERING: [TagName; 5] = [
    TagName::Table,
    TagName::TBody,
    TagName::TFoot,
    TagName::THead,
    TagName::Tr,
];

static TABLE_CONTEXT: [TagName; 3] = [TagName::Html, TagName::Table, TagName::Template];

static TABLE_BODY_CONTEXT: [TagName; 5] = [
    TagName::Html,
    TagName::TBody,
    TagName::Template,
    TagName::TFoot,
    TagName::THead,
];

static TABLE_ROW_CONTEXT: [TagName; 3] = [TagName::Html, TagName::Template, TagName::Tr];

impl NameSet {
    fn has(self, tag: TagName) -> bool
        ensures { result ≡ spec.has self tag }
    {
        match self {
            NameSet::Only(name) => name.is(tag),
            NameSet::Headings => is_heading(tag),
            NameSet::DescriptionParts => is_description_part(tag),
            NameSet::Cells => is_cell(tag),
            NameSet::TableSections => is_table_section(tag),
            NameSet::Options => is_option(tag),
            NameSet::ImpliedEnd => ends_by_implication(tag),
            NameSet::ImpliedEndInRuby => ends_in_ruby(tag),
            NameSet::Fostering => is_fostering(tag),
            NameSet::TableContext => is_table_context(tag),
            NameSet::TableBodyContext => is_table_body_context(tag),
            NameSet::TableRowContext => is_table_row_context(tag),
        }
    }

    /// The names of a set of several.
    pub(crate) fn members(self) -> &'static [TagName]
        ensures { result.now ≡ members self }
    {
        match self {
            NameSet::Only(_) => &[],
            NameSet::Headings => &HEADINGS,
            NameSet::DescriptionParts => &DESCRIPTION_PARTS,
            NameSet::Cells => &CELLS,
            NameSet::TableSections => &TABLE_SECTIONS,
            NameSet::Options => &OPTIONS,
            NameSet::ImpliedEnd => &IMPLIED_END,
            NameSet::ImpliedEndInRuby => &IMPLIED_END_IN_RUBY,
            NameSet::Fostering => &FOSTERING,
            NameSet::TableContext => &TABLE_CONTEXT,
            NameSet::TableBodyContext => &TABLE_BODY_CONTEXT,
            NameSet::TableRowContext => &TABLE_ROW_CONTEXT,
        }
    }

    /// Whether the name is in the set. No name of foreign content is.
    pub(crate) fn holds(self, name: &ElementName) -> bool
        ensures { result ≡ spec.is_of self (element_name_of name.now) }
    {
        match name {
            ElementName::Html(HtmlName::Known(tag)) => self.has(*tag),
            _ => false,
        }
    }
}

fn bounds_list_item(tag: TagName) -> bool
    ensures { result ≡ spec.bounds_list_item tag }
{
    match tag {
        TagName::Ol | TagName::Ul => true,
        _ => bounds_scope(tag),
    }
}

fn bounds_button(tag: TagName) -> bool
    ensures { result ≡ spec.bounds_button tag }
{
    match tag {
        TagName::Button => true,
        _ => bounds_scope(tag),
    }
}

fn stops_items(tag: TagName) -> bool
    ensures { result ≡ spec.stops_items tag }
{
    match tag {
        TagName::Address | TagName::Div | TagName::P => false,
        _ => is_special(tag),
    }
}

fn is_template(tag: TagName) -> bool
    ensures { result ≡ spec.is_template tag }
{
    matches!(tag, TagName::Template)
}

/// Whether a text is one of these.
fn is_among(texts: &[&str], text: &str) -> bool
    ensures { result ≡ classes.is_among (map (λ t. t.now) texts.now) text.now }
{
    for known in texts {
        if text == *known {
            return true;
        }
    }
    false
}

/// Whether it is the name of a MathML text integration point.
pub(crate) fn is_math_text(text: &str) -> bool
    ensures { result ≡ spec.is_math_text text.now }
{
    is_among(&["mi", "mo", "mn", "ms", "mtext"], text)
}

/// Whether it is the name of an HTML integration point of SVG.
pub(crate) fn is_svg_point(text: &str) -> bool
    ensures { result ≡ spec.is_svg_point text.now }
{
    is_among(&["foreignObject", "desc", "title"], text)
}

/// Whether an element of MathML with this name bounds most scopes.
pub(crate) fn is_math_bound(text: &str) -> bool
    ensures { result ≡ spec.is_math_bound text.now }
{
    is_math_text(text) || text == "annotation-xml"
}

impl Scope {
    pub(crate) fn bounds_known(self, tag: TagName) -> bool
        ensures { result ≡ spec.bounds_known self tag }
    {
        match self {
            Scope::Default => bounds_scope(tag),
            Scope::ListItem => bounds_list_item(tag),
            Scope::Button => bounds_button(tag),
            Scope::Table => is_table_context(tag),
            Scope::Select => !is_option(tag),
            Scope::Template => is_template(tag),
            Scope::Special => is_special(tag),
            Scope::Items => stops_items(tag),
        }
    }

    fn has_foreign_bounds(self) -> bool
        ensures { result ≡ spec.has_foreign_bounds self }
    {
        !matches!(self, Scope::Table | Scope::Template)
    }

    fn is_select(self) -> bool
        ensures { result ≡ spec.is_select self }
    {
        matches!(self, Scope::Select)
    }

    /// Whether an element with this name bounds the scope.
    pub(crate) fn is_bound(self, name: &ElementName) -> bool
        ensures { result ≡ spec.bounds self (element_name_of name.now) }
    {
        match name {
            ElementName::Html(HtmlName::Known(tag)) => self.bounds_known(*tag),
            ElementName::Html(HtmlName::Other(_)) => self.is_select(),
            ElementName::Svg(text) => {
                self.is_select() || (self.has_foreign_bounds() && is_svg_point(text.as_str()))
            }
            ElementName::Math(text) => {
                self.is_select() || (self.has_foreign_bounds() && is_math_bound(text.as_str()))
            }
        }
    }
}
