//! Each public item of `htmd`, by its path: if one is missing or has moved, the tests don't build.
ghost use Rattle.std.specs.Prelude.{None};
ghost use Rattle.htmd.specs.Handling.{nothing};

use htmd::element_handler::{HandlerRule, is_raw_html_due};
use htmd::options::{
    BrStyle, BulletListMarker, CodeBlockFence, CodeBlockStyle, HeadingStyle, HrStyle,
    LinkReferenceStyle, LinkStyle, Options, TranslationMode,
};
use htmd_test_expected::{expect_number, expect_text, expect_that};
use std::alloc::{AllocError, Global};
use std::test::Fail;

/// Nothing.
#[derive(Drop)]
struct Nothing;

impl HandlerRule for Nothing {
    ghost rule_plan = { λ _ _. nothing };

    ghost rule_finish = { λ _ _ _. None };
}

// The types at the root, with those of the tree.
#[test]
fn has_types(rt: HostRuntime) -> Result<(), Fail> {
    let _: Option<htmd::HtmlToMarkdown> = None;
    let _: Option<htmd::HtmlToMarkdownBuilder> = None;
    let _: Option<htmd::SkipRefused> = None;
    let _: Option<htmd::AddRefused> = None;
    let _: Option<htmd::AddFnRefused<u8, u8>> = None;
    let _: Option<htmd::ConvertError> = None;
    let _: Option<htmd::Element> = None;
    let _: Option<htmd::Tree> = None;
    let _: Option<htmd::parts::Part> = None;
    let _: Option<htmd::parts::Tag> = None;
    let _: Option<htmd::parts::TagEnd> = None;
    let _: Option<htmd::TreeError> = None;
    let _: Option<htmd::ReadError> = None;
    let _: Option<htmd::FaultKind> = None;
    let _: Option<htmd::NodeData> = None;
    let _: Option<htmd::NodeId> = None;
    let _: Option<htmd::Attribute> = None;
    let html = htmd::markdown_to_html(rt.alloc(), "*a*")?;
    expect_text("HTML", html.as_str(), "<p><em>a</em></p>\n")?;
    let parts = htmd::parts::read_markdown(rt.alloc(), "*a*")?;
    let html = htmd::parts::to_html(rt.alloc(), &parts)?;
    expect_text("HTML of parts", html.as_str(), "<p><em>a</em></p>\n")?;
    let markdown = htmd::convert(rt.alloc(), "<b>a</b>")?;
    expect_text("markdown", markdown.as_str(), "**a**")
}

// The types of handlers.
#[test]
fn has_types_of_handlers(rt: HostRuntime) -> Result<(), Fail> {
    let _: Option<Box<dyn htmd::element_handler::ElementHandler>> = None;
    let _: Option<htmd::element_handler::ElementHandlers> = None;
    let _: Option<htmd::element_handler::HandlerRefused> = None;
    let _: Option<htmd::element_handler::Plan> = None;
    let _: Option<htmd::element_handler::FnHandler<Nothing, u8, u8>> = None;
    let links = htmd::element_handler::Links::new(rt.alloc());
    expect_number("lines", links.lines().len(), 0)?;
    let result = htmd::element_handler::HandlerResult::from_text(rt.alloc(), "a")?;
    expect_text("result", result.content.as_str(), "a")
}

// What a closure is shown, and how it is added.
#[test]
fn has_closures(rt: HostRuntime) -> Result<(), Fail> {
    let handler = htmd::element_handler::FnHandler::new(
        Nothing,
        |_alloc: Global, element: &htmd::Element| -> Result<
            htmd::element_handler::Plan,
            AllocError,
        > {
            let _ = element.node;
            let _ = element.tag;
            let _ = element.attrs;
            let _ = element.tree();
            let _ = element.text();
            let _ = element.markdown_translated;
            let _ = is_raw_html_due(element.options(), element, 0);
            Ok(htmd::element_handler::Plan::Skip)
        },
        |_alloc: Global, _element: &htmd::Element, _content: htmd::element_handler::HandlerResult| -> Result<
            Option<htmd::element_handler::HandlerResult>,
            AllocError,
        > { Ok(None) },
    );
    let builder = htmd::HtmlToMarkdownBuilder::new(rt.alloc())?;
    let builder = builder.options(Options::default()).scripting_enabled(true);
    let Ok(builder) = builder.add_fn_handler(&["b"], handler) else {
        return Err(Fail::from("there is memory"));
    };
    let answer = builder.build().convert(rt.alloc(), "a<b>c</b>")?;
    expect_text("markdown", answer.as_str(), "a")
}

// Each option has its values.
#[test]
fn has_options() -> Result<(), Fail> {
    let _ = [HeadingStyle::Atx, HeadingStyle::Setex];
    let _ = [HrStyle::Dashes, HrStyle::Asterisks, HrStyle::Underscores];
    let _ = [BrStyle::TwoSpaces, BrStyle::Backslash];
    let _ = [
        LinkStyle::Inlined,
        LinkStyle::InlinedPreferAutolinks,
        LinkStyle::Referenced,
    ];
    let _ = [
        LinkReferenceStyle::Full,
        LinkReferenceStyle::Collapsed,
        LinkReferenceStyle::Shortcut,
    ];
    let _ = [CodeBlockStyle::Indented, CodeBlockStyle::Fenced];
    let _ = [CodeBlockFence::Tildes, CodeBlockFence::Backticks];
    let _ = [BulletListMarker::Asterisk, BulletListMarker::Dash];
    let _ = [TranslationMode::Pure, TranslationMode::Faithful];
    let Options {
        heading_style: _,
        hr_style: _,
        br_style: _,
        link_style: _,
        link_reference_style: _,
        code_block_style: _,
        code_block_fence: _,
        bullet_list_marker: _,
        ul_bullet_spacing,
        ol_number_spacing,
        preformatted_code,
        translation_mode: _,
    } = Options::default();
    expect_that("bullets", ul_bullet_spacing == 3)?;
    expect_that("numbers", ol_number_spacing == 2)?;
    expect_that("code", !preformatted_code)
}

// The writers of pieces of code.
#[test]
fn has_writers_of_code(rt: HostRuntime) -> Result<(), Fail> {
    let span = htmd::laws::write_span(rt.alloc(), "a", false)?;
    expect_text("span", span.as_str(), "`a`")?;
    let fence = htmd::laws::write_fence(rt.alloc(), "a", None, CodeBlockFence::Tildes)?;
    expect_text("fence", fence.as_str(), "~~~\na\n~~~")
}

// The writers of pieces of tables.
#[test]
fn has_writers_of_tables(rt: HostRuntime) -> Result<(), Fail> {
    let row = htmd::laws::write_row(rt.alloc(), &[], &[])?;
    expect_text("row", row.as_str(), "|\n")?;
    let table = htmd::laws::write_table(rt.alloc(), &[], &[])?;
    expect_text("table", table.as_str(), "")
}
