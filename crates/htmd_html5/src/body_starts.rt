//! Start tags in the mode "in body".
ghost use Rattle.std.specs.Prelude.{◌≡◌, option_copied, if◌then◌else◌, OnOk};
ghost use Rattle.htmd_html5_state.specs.Names.{name_of};
ghost use Rattle.htmd_html5_state.specs.State.{on_stack};
ghost use Rattle.htmd_html5.specs.BodyStarts as spec;
ghost use Rattle.htmd_html5.specs.Tokens.{tag_of};
ghost use Rattle.htmd_lexical.specs.Attributes.{pairs_of};

use crate::shared_rules::{
    add_to_root, close_paragraph, insert_foreign_tag, insert_head_element, insert_raw_tag,
    insert_tag, insert_void_tag,
};
use crate::tokens::StartTag;
use htmd_html5_state::{HtmlName, HtmlState, InsertionMode, NameSet, Namespace, Scope, TagName};
use htmd_html5_tokens::RawElement;
use htmd_nodes::{Attribute, value_of};
use std::alloc::AllocError;

/// What a start tag does.
#[derive(Clone, Copy)]
enum StartRule {
    /// `html`.
    Root,
    /// Elements of the head.
    InHead,
    Body,
    FrameSet,
    /// Tags that are allowed only elsewhere.
    Ignored,
    Block,
    Heading,
    /// `pre` and `listing`.
    Preformatted,
    Form,
    /// `li`, and `dd` and `dt`; what ends those that are alike.
    Item(NameSet),
    PlainText,
    Button,
    /// `a`.
    Anchor,
    Formatting,
    /// `nobr`.
    NoBreak,
    /// `applet`, `marquee` and `object`.
    Embedded,
    Table,
    Void,
    Input,
    /// `param`, `source` and `track`.
    Part,
    /// `hr`.
    Separator,
    /// `image`.
    Image,
    TextArea,
    /// `xmp`.
    Example,
    /// `iframe`.
    InlineFrame,
    NoEmbed,
    NoScript,
    Select,
    /// `option` and `optgroup`.
    Option,
    /// Parts of `ruby`; what ends before one.
    Ruby(NameSet),
    /// `math` and `svg`.
    Foreign(Namespace),
    Ordinary,
}

// ---- which rule a name has

fn start_rule(tag: TagName) -> StartRule
    ensures { result ≡ spec.start_rule tag }
{
    match tag {
        TagName::Html => StartRule::Root,
        TagName::Base
        | TagName::BaseFont
        | TagName::BgSound
        | TagName::Link
        | TagName::Meta
        | TagName::NoFrames
        | TagName::Script
        | TagName::Style
        | TagName::Template
        | TagName::Title => StartRule::InHead,
        TagName::Body => StartRule::Body,
        TagName::FrameSet => StartRule::FrameSet,
        TagName::Caption
        | TagName::Col
        | TagName::ColGroup
        | TagName::Frame
        | TagName::Head
        | TagName::TBody
        | TagName::Td
        | TagName::TFoot
        | TagName::Th
        | TagName::THead
        | TagName::Tr => StartRule::Ignored,
        _ => block_rule(tag),
    }
}

#[tactic(auto, unfolding(crate::specs::BodyStarts::block_rule))]
fn block_rule(tag: TagName) -> StartRule
    ensures { result ≡ spec.block_rule tag }
{
    match tag {
        TagName::Address
        | TagName::Article
        | TagName::Aside
        | TagName::BlockQuote
        | TagName::Center
        | TagName::Details
        | TagName::Dialog
        | TagName::Dir
        | TagName::Div
        | TagName::Dl
        | TagName::FieldSet
        | TagName::FigCaption
        | TagName::Figure
        | TagName::Footer
        | TagName::Header
        | TagName::HGroup
        | TagName::Main
        | TagName::Menu
        | TagName::Nav
        | TagName::Ol
        | TagName::P
        | TagName::Search
        | TagName::Section
        | TagName::Summary
        | TagName::Ul => StartRule::Block,
        TagName::H1 | TagName::H2 | TagName::H3 | TagName::H4 | TagName::H5 | TagName::H6 =>
            StartRule::Heading,
        TagName::Pre | TagName::Listing => StartRule::Preformatted,
        TagName::Form => StartRule::Form,
        TagName::Li => StartRule::Item(NameSet::Only(TagName::Li)),
        TagName::Dd | TagName::Dt => StartRule::Item(NameSet::DescriptionParts),
        TagName::PlainText => StartRule::PlainText,
        TagName::Table => StartRule::Table,
        TagName::Hr => StartRule::Separator,
        _ => formatting_rule(tag),
    }
}

#[tactic(auto, unfolding(crate::specs::BodyStarts::formatting_rule))]
fn formatting_rule(tag: TagName) -> StartRule
    ensures { result ≡ spec.formatting_rule tag }
{
    match tag {
        TagName::A => StartRule::Anchor,
        TagName::B
        | TagName::Big
        | TagName::Code
        | TagName::Em
        | TagName::Font
        | TagName::I
        | TagName::S
        | TagName::Small
        | TagName::Strike
        | TagName::Strong
        | TagName::Tt
        | TagName::U => StartRule::Formatting,
        TagName::NoBr => StartRule::NoBreak,
        TagName::Area
        | TagName::Br
        | TagName::Embed
        | TagName::Img
        | TagName::KeyGen
        | TagName::Wbr => StartRule::Void,
        TagName::Input => StartRule::Input,
        TagName::Param | TagName::Source | TagName::Track => StartRule::Part,
        TagName::Image => StartRule::Image,
        TagName::Button => StartRule::Button,
        TagName::Applet | TagName::Marquee | TagName::Object => StartRule::Embedded,
        _ => phrasing_rule(tag),
    }
}

#[tactic(auto, unfolding(crate::specs::BodyStarts::phrasing_rule))]
fn phrasing_rule(tag: TagName) -> StartRule
    ensures { result ≡ spec.phrasing_rule tag }
{
    match tag {
        TagName::TextArea => StartRule::TextArea,
        TagName::Xmp => StartRule::Example,
        TagName::Iframe => StartRule::InlineFrame,
        TagName::NoEmbed => StartRule::NoEmbed,
        TagName::NoScript => StartRule::NoScript,
        TagName::Select => StartRule::Select,
        TagName::OptGroup | TagName::OptionTag => StartRule::Option,
        TagName::Rb | TagName::Rtc => StartRule::Ruby(NameSet::ImpliedEnd),
        TagName::Rp | TagName::Rt => StartRule::Ruby(NameSet::ImpliedEndInRuby),
        TagName::Math => StartRule::Foreign(Namespace::MathMl),
        TagName::Svg => StartRule::Foreign(Namespace::Svg),
        _ => StartRule::Ordinary,
    }
}

fn rule_of_start(name: &HtmlName) -> StartRule
    ensures { result ≡ spec.rule_of_start (name_of name.now) }
{
    match name {
        HtmlName::Known(tag) => start_rule(*tag),
        HtmlName::Other(_) => StartRule::Ordinary,
    }
}

// ---- the structure of the page

/// Gives the body the attributes that it doesn't have yet.
fn add_to_body(state: &mut HtmlState, tag: StartTag) -> Result<(), AllocError>
    ensures { OnOk result (state.new ≡ spec.add_to_body (tag_of tag) state.old) }
{
    let Some(body) = state.second_open(NameSet::Only(TagName::Body)) else {
        return Ok(());
    };
    if state.is_open(NameSet::Only(TagName::Template)) {
        return Ok(());
    }
    state.add_missing(body, tag.attributes)?;
    state.set_frameset_ok(false);
    Ok(())
}

/// A `frameset` in place of the body.
fn replace_body(state: &mut HtmlState, tag: StartTag) -> Result<(), AllocError>
    ensures { OnOk result (state.new ≡ spec.replace_body (tag_of tag) state.old) }
{
    let Some(body) = state.second_open(NameSet::Only(TagName::Body)) else {
        return Ok(());
    };
    if !state.frameset_ok() {
        return Ok(());
    }
    state.detach(body);
    state.keep_outermost();
    insert_tag(state, tag)?;
    state.set_mode(InsertionMode::InFrameset);
    Ok(())
}

// ---- blocks

fn start_block(state: &mut HtmlState, tag: StartTag) -> Result<(), AllocError>
    ensures { OnOk result (state.new ≡ spec.start_block (tag_of tag) state.old) }
{
    close_paragraph(state);
    insert_tag(state, tag)
}

fn start_heading(state: &mut HtmlState, tag: StartTag) -> Result<(), AllocError>
    ensures { OnOk result (state.new ≡ spec.start_heading (tag_of tag) state.old) }
{
    close_paragraph(state);
    if state.current_is(NameSet::Headings) {
        state.pop();
    }
    insert_tag(state, tag)
}

fn start_preformatted(state: &mut HtmlState, tag: StartTag) -> Result<(), AllocError>
    ensures { OnOk result (state.new ≡ spec.start_preformatted (tag_of tag) state.old) }
{
    start_block(state, tag)?;
    state.set_skips_line_feed(true);
    state.set_frameset_ok(false);
    Ok(())
}

fn start_form(state: &mut HtmlState, tag: StartTag) -> Result<(), AllocError>
    ensures { OnOk result (state.new ≡ spec.start_form (tag_of tag) state.old) }
{
    if state.is_open(NameSet::Only(TagName::Template)) {
        return start_block(state, tag);
    }
    if state.form().is_some() {
        return Ok(());
    }
    start_block(state, tag)?;
    let form = state.current_node();
    state.set_form(Some(form));
    Ok(())
}

fn start_item(state: &mut HtmlState, alike: NameSet, tag: StartTag) -> Result<(), AllocError>
    ensures { OnOk result (state.new ≡ spec.start_item alike (tag_of tag) state.old) }
{
    state.set_frameset_ok(false);
    state.close(alike, Scope::Items);
    start_block(state, tag)
}

fn start_plain_text(state: &mut HtmlState, tag: StartTag) -> Result<(), AllocError>
    ensures { OnOk result (state.new ≡ spec.start_plain_text (tag_of tag) state.old) }
{
    close_paragraph(state);
    insert_raw_tag(state, RawElement::Plaintext, tag)
}

/// In quirks mode a `p` may hold tables.
fn start_table(state: &mut HtmlState, tag: StartTag) -> Result<(), AllocError>
    ensures { OnOk result (state.new ≡ spec.start_table (tag_of tag) state.old) }
{
    if !state.quirks() {
        close_paragraph(state);
    }
    insert_tag(state, tag)?;
    state.set_frameset_ok(false);
    state.set_mode(InsertionMode::InTable);
    Ok(())
}

fn start_separator(state: &mut HtmlState, tag: StartTag) -> Result<(), AllocError>
    ensures { OnOk result (state.new ≡ spec.start_separator (tag_of tag) state.old) }
{
    close_paragraph(state);
    insert_void_tag(state, tag)?;
    state.set_frameset_ok(false);
    Ok(())
}

// ---- formatting

fn start_formatting(state: &mut HtmlState, tag: StartTag) -> Result<(), AllocError>
    ensures { OnOk result (state.new ≡ spec.start_formatting (tag_of tag) state.old) }
{
    state.reconstruct()?;
    state.insert_formatting(tag.name, tag.attributes)
}

/// An `a` ends another.
fn start_anchor(state: &mut HtmlState, tag: StartTag) -> Result<(), AllocError>
    ensures { OnOk result (state.new ≡ spec.start_anchor (tag_of tag) state.old) }
{
    if let Some(anchor) = state.formatting_element(TagName::A) {
        state.adoption_agency(TagName::A)?;
        state.remove_formatting(anchor);
        state.remove_open(anchor);
    }
    start_formatting(state, tag)
}

/// Closes the `nobr` that is in scope.
fn close_no_break(state: &mut HtmlState) -> Result<(), AllocError>
    ensures { OnOk result (state.new ≡ spec.close_no_break state.old) }
{
    if state.is_in_scope(NameSet::Only(TagName::NoBr), Scope::Default) {
        state.adoption_agency(TagName::NoBr)?;
    }
    Ok(())
}

fn start_no_break(state: &mut HtmlState, tag: StartTag) -> Result<(), AllocError>
    ensures { OnOk result (state.new ≡ spec.start_no_break (tag_of tag) state.old) }
{
    state.reconstruct()?;
    close_no_break(state)?;
    start_formatting(state, tag)
}

// ---- what is in text

fn start_ordinary(state: &mut HtmlState, tag: StartTag) -> Result<(), AllocError>
    ensures { OnOk result (state.new ≡ spec.start_ordinary (tag_of tag) state.old) }
{
    state.reconstruct()?;
    insert_tag(state, tag)
}

fn start_button(state: &mut HtmlState, tag: StartTag) -> Result<(), AllocError>
    ensures { OnOk result (state.new ≡ spec.start_button (tag_of tag) state.old) }
{
    state.close(NameSet::Only(TagName::Button), Scope::Default);
    start_ordinary(state, tag)?;
    state.set_frameset_ok(false);
    Ok(())
}

fn start_embedded(state: &mut HtmlState, tag: StartTag) -> Result<(), AllocError>
    ensures { OnOk result (state.new ≡ spec.start_embedded (tag_of tag) state.old) }
{
    start_ordinary(state, tag)?;
    state.push_marker()?;
    state.set_frameset_ok(false);
    Ok(())
}

fn start_void(state: &mut HtmlState, tag: StartTag) -> Result<(), AllocError>
    ensures { OnOk result (state.new ≡ spec.start_void (tag_of tag) state.old) }
{
    state.reconstruct()?;
    insert_void_tag(state, tag)?;
    state.set_frameset_ok(false);
    Ok(())
}

fn is_hidden_value(value: &str) -> bool
    ensures { result ≡ spec.is_hidden_value value.now }
{
    value.eq_ignore_ascii_case("hidden")
}

/// Whether an `input` is hidden.
pub(crate) fn is_hidden(attributes: &[Attribute]) -> bool
    ensures { result ≡ spec.has_hidden_type (pairs_of attributes.now) }
{
    match value_of(attributes, "type") {
        Some(value) => is_hidden_value(value),
        None => false,
    }
}

fn start_input(state: &mut HtmlState, tag: StartTag) -> Result<(), AllocError>
    ensures { OnOk result (state.new ≡ spec.start_input (tag_of tag) state.old) }
{
    if is_hidden(tag.attributes.as_slice()) {
        state.reconstruct()?;
        return insert_void_tag(state, tag);
    }
    start_void(state, tag)
}

/// `image` means `img`.
fn start_image(state: &mut HtmlState, tag: StartTag) -> Result<(), AllocError>
    ensures { OnOk result (state.new ≡ spec.start_image (tag_of tag) state.old) }
{
    start_void(
        state,
        StartTag {
            name: HtmlName::Known(TagName::Img),
            ..tag
        },
    )
}

/// The mode in a `select`; there is one for a `select` in a table.
fn mode_of_select(mode: InsertionMode) -> InsertionMode
    ensures { result ≡ spec.mode_of_select mode }
{
    match mode {
        InsertionMode::InTable
        | InsertionMode::InCaption
        | InsertionMode::InTableBody
        | InsertionMode::InRow
        | InsertionMode::InCell => InsertionMode::InSelectInTable,
        _ => InsertionMode::InSelect,
    }
}

fn start_select(state: &mut HtmlState, tag: StartTag) -> Result<(), AllocError>
    ensures { OnOk result (state.new ≡ spec.start_select (tag_of tag) state.old) }
{
    let mode = mode_of_select(state.mode());
    start_ordinary(state, tag)?;
    state.set_frameset_ok(false);
    state.set_mode(mode);
    Ok(())
}

pub(crate) fn close_option(state: &mut HtmlState)
    ensures { state.new ≡ on_stack spec.close_option state.old }
{
    if state.current_is(NameSet::Only(TagName::OptionTag)) {
        state.pop();
    }
}

fn start_option(state: &mut HtmlState, tag: StartTag) -> Result<(), AllocError>
    ensures { OnOk result (state.new ≡ spec.start_option (tag_of tag) state.old) }
{
    close_option(state);
    start_ordinary(state, tag)
}

fn start_ruby(state: &mut HtmlState, implied: NameSet, tag: StartTag) -> Result<(), AllocError>
    ensures { OnOk result (state.new ≡ spec.start_ruby implied (tag_of tag) state.old) }
{
    if state.is_in_scope(NameSet::Only(TagName::Ruby), Scope::Default) {
        state.pop_while(implied);
    }
    insert_tag(state, tag)
}

fn start_foreign(state: &mut HtmlState, space: Namespace, tag: StartTag) -> Result<(), AllocError>
    ensures { OnOk result (state.new ≡ spec.start_foreign space (tag_of tag) state.old) }
{
    state.reconstruct()?;
    insert_foreign_tag(state, space, tag)
}

// ---- only text

fn start_text_area(state: &mut HtmlState, tag: StartTag) -> Result<(), AllocError>
    ensures { OnOk result (state.new ≡ spec.start_text_area (tag_of tag) state.old) }
{
    insert_raw_tag(state, RawElement::Textarea, tag)?;
    state.set_skips_line_feed(true);
    state.set_frameset_ok(false);
    Ok(())
}

fn start_example(state: &mut HtmlState, tag: StartTag) -> Result<(), AllocError>
    ensures { OnOk result (state.new ≡ spec.start_example (tag_of tag) state.old) }
{
    close_paragraph(state);
    state.reconstruct()?;
    insert_raw_tag(state, RawElement::Xmp, tag)?;
    state.set_frameset_ok(false);
    Ok(())
}

fn start_inline_frame(state: &mut HtmlState, tag: StartTag) -> Result<(), AllocError>
    ensures { OnOk result (state.new ≡ spec.start_inline_frame (tag_of tag) state.old) }
{
    state.set_frameset_ok(false);
    insert_raw_tag(state, RawElement::Iframe, tag)
}

/// With scripting on, `noscript` holds only text.
fn start_no_script(state: &mut HtmlState, tag: StartTag) -> Result<(), AllocError>
    ensures { OnOk result (state.new ≡ spec.start_no_script (tag_of tag) state.old) }
{
    if state.scripting() {
        return insert_raw_tag(state, RawElement::Noscript, tag);
    }
    start_ordinary(state, tag)
}

// ---- the rules

/// Rules on the structure of a page, and on blocks.
fn start_by(state: &mut HtmlState, rule: StartRule, tag: StartTag) -> Result<(), AllocError>
    ensures { OnOk result (state.new ≡ spec.start_by rule (tag_of tag) state.old) }
{
    match rule {
        StartRule::Root => add_to_root(state, tag),
        StartRule::InHead => insert_head_element(state, tag),
        StartRule::Body => add_to_body(state, tag),
        StartRule::FrameSet => replace_body(state, tag),
        StartRule::Ignored => Ok(()),
        StartRule::Block => start_block(state, tag),
        StartRule::Heading => start_heading(state, tag),
        StartRule::Preformatted => start_preformatted(state, tag),
        StartRule::Form => start_form(state, tag),
        StartRule::Item(alike) => start_item(state, alike, tag),
        StartRule::PlainText => start_plain_text(state, tag),
        StartRule::Table => start_table(state, tag),
        StartRule::Separator => start_separator(state, tag),
        _ => start_in_text(state, rule, tag),
    }
}

/// Rules on what is in text.
fn start_in_text(state: &mut HtmlState, rule: StartRule, tag: StartTag) -> Result<(), AllocError>
    ensures { OnOk result (state.new ≡ spec.start_in_text rule (tag_of tag) state.old) }
{
    match rule {
        StartRule::Button => start_button(state, tag),
        StartRule::Anchor => start_anchor(state, tag),
        StartRule::Formatting => start_formatting(state, tag),
        StartRule::NoBreak => start_no_break(state, tag),
        StartRule::Embedded => start_embedded(state, tag),
        StartRule::Void => start_void(state, tag),
        StartRule::Input => start_input(state, tag),
        StartRule::Part => insert_void_tag(state, tag),
        StartRule::Image => start_image(state, tag),
        StartRule::TextArea => start_text_area(state, tag),
        StartRule::Example => start_example(state, tag),
        StartRule::InlineFrame => start_inline_frame(state, tag),
        StartRule::NoEmbed => insert_raw_tag(state, RawElement::Noembed, tag),
        StartRule::NoScript => start_no_script(state, tag),
        StartRule::Select => start_select(state, tag),
        StartRule::Option => start_option(state, tag),
        StartRule::Ruby(implied) => start_ruby(state, implied, tag),
        StartRule::Foreign(space) => start_foreign(state, space, tag),
        _ => start_ordinary(state, tag),
    }
}

/// A start tag in the body.
pub(crate) fn start_in_body(state: &mut HtmlState, tag: StartTag) -> Result<(), AllocError>
    ensures { OnOk result (state.new ≡ spec.start_in_body (tag_of tag) state.old) }
{
    start_by(state, rule_of_start(&tag.name), tag)
}
