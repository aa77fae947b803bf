//! Pages by settings, in one call.
use htmd::options::Options;
use htmd::page_values::{are_names, parse_url, push_names, push_selectors};
use htmd::{
    Document, HtmlToMarkdown, OfMarkdown, PageConverter, PageError, PageInRun, PageSettings,
    convert_page, document_options, to_markdown,
};
use htmd_test_expected::{expect_text, expect_that};
use std::alloc::Global;
use std::test::Fail;

/// The settings for any page.
fn any_page<'a>(alloc: Global) -> PageSettings<'a> {
    let mut settings = PageSettings::new(alloc);
    settings.html5 = true;
    settings
}

#[test]
fn decodes_pages(rt: HostRuntime) -> Result<(), Fail> {
    let settings = any_page(rt.alloc());
    let page = b"<meta charset=koi8-r><p>\xf0\xd2\xc9\xd7\xc5\xd4";
    let markdown = convert_page(rt.alloc(), page, &settings)?;
    expect_text("koi8-r", markdown.as_str(), "Привет")
}

#[test]
fn decodes_pairs_of_bytes(rt: HostRuntime) -> Result<(), Fail> {
    let settings = any_page(rt.alloc());
    let page = b"<meta charset=big5><p>\xa7A\xa6n";
    let markdown = convert_page(rt.alloc(), page, &settings)?;
    expect_text("big5", markdown.as_str(), "你好")
}

const PAGE: &[u8] = b"<title>T</title><nav>n</nav><main><p>a <a href=b>b</a><p class=note>c</main>";

#[test]
fn selects_parts(rt: HostRuntime) -> Result<(), Fail> {
    let alloc = rt.alloc();
    let mut settings = any_page(alloc);
    push_selectors(alloc, &mut settings.selected, "main")?;
    push_selectors(alloc, &mut settings.dropped, ".note")?;
    let markdown = convert_page(alloc, PAGE, &settings)?;
    expect_text("selected", markdown.as_str(), "a [b](b)")?;

    push_selectors(alloc, &mut settings.dropped, "main")?;
    expect_that(
        "nothing is selected",
        convert_page(alloc, PAGE, &settings) == Err(PageError::NothingSelected),
    )
}

#[test]
fn resolves_addresses(rt: HostRuntime) -> Result<(), Fail> {
    let alloc = rt.alloc();
    let mut settings = any_page(alloc);
    push_selectors(alloc, &mut settings.selected, "main")?;
    push_selectors(alloc, &mut settings.dropped, ".note")?;
    settings.front_matter = true;
    settings.base = parse_url(alloc, "https://example.org/docs/")?;
    let converter = PageConverter::new(HtmlToMarkdown::builder(alloc)?, &settings)?;
    let markdown = converter.convert(alloc, PAGE, &PageInRun::alone())?;
    let whole = "---\ntitle: \"T\"\n---\n\na [b](https://example.org/docs/b)";
    expect_text("absolute", markdown.as_str(), whole)
}

#[test]
fn skips_elements(rt: HostRuntime) -> Result<(), Fail> {
    let alloc = rt.alloc();
    let names = "a,aside";
    expect_that("names", are_names(names) && !are_names("a,,b"))?;
    let mut settings = any_page(alloc);
    push_names(&mut settings.skipped, names)?;
    let selected = htmd::parse_selectors(alloc, "main,nav")?;
    settings.selected.append(selected)?;
    push_selectors(alloc, &mut settings.dropped, ".note")?;
    let markdown = convert_page(alloc, PAGE, &settings)?;
    expect_text("skipped", markdown.as_str(), "n\n\na")
}

const TEA: &[u8] = b"<html lang=en><title>Tea</title><h1>Tea</h1><p>One two three";

const TEA_IN_PIECES: &str = "\
{\"page\":\"a/tea.html\",\"front\":{\"title\":\"Tea\",\"lang\":\"en\"},\"n\":0,\"path\":[],\"start\":0,\
\"continues\":[],\"markdown\":\"# Tea\\n\\nOne\"}\n\
{\"page\":\"a/tea.html\",\"front\":{\"title\":\"Tea\",\"lang\":\"en\"},\"n\":1,\"path\":[\"Tea\"],\"start\":1,\
\"continues\":[\"paragraph\"],\"markdown\":\"two three\"}\n";

#[test]
fn writes_pieces(rt: HostRuntime) -> Result<(), Fail> {
    let alloc = rt.alloc();
    let mut settings = any_page(alloc);
    settings.chunks = Some(12);
    settings.front_matter = true;
    let converter = PageConverter::new(HtmlToMarkdown::builder(alloc)?, &settings)?;
    let in_run = PageInRun {
        url: None,
        name: Some("a/tea.html"),
        run_page: None,
    };
    let lines = converter.convert(alloc, TEA, &in_run)?;
    expect_text("pieces", lines.as_str(), TEA_IN_PIECES)?;

    let silent = converter.convert_alone(alloc, b"<p>a")?;
    let line =
        "{\"front\":{},\"n\":0,\"path\":[],\"start\":0,\"continues\":[],\"markdown\":\"a\"}\n";
    expect_text("nothing said", silent.as_str(), line)?;
    let empty = converter.convert_alone(alloc, b"<title>T</title>")?;
    expect_text("no piece", empty.as_str(), "")
}

#[test]
fn writes_pieces_of_a_text(rt: HostRuntime) -> Result<(), Fail> {
    let alloc = rt.alloc();
    let mut settings = any_page(alloc);
    settings.text = true;
    settings.mdast = true;
    settings.front_matter = true;
    settings.chunks = Some(7);
    let lines = convert_page(alloc, b"One two three", &settings)?;
    expect_text(
        "text",
        lines.as_str(),
        "{\"n\":0,\"path\":[],\"start\":0,\"continues\":[],\"markdown\":\"One two\"}\n\
        {\"n\":1,\"path\":[],\"start\":0,\"continues\":[\"paragraph\"],\"markdown\":\"three\"}\n",
    )
}

#[test]
fn converts_markdown(rt: HostRuntime) -> Result<(), Fail> {
    let alloc = rt.alloc();
    let mut settings = any_page(alloc);
    settings.from_markdown = true;
    settings.guarded = true;
    let markdown = convert_page(alloc, b"a\n=\n\n+ *b*", &settings)?;
    expect_text("Markdown", markdown.as_str(), "# a\n\n*   *b*")?;
    let behind_mark = convert_page(alloc, b"\xef\xbb\xbf- a", &settings)?;
    expect_text("behind a byte order mark", behind_mark.as_str(), "*   a")?;
    settings.as_html = true;
    let html = convert_page(alloc, b"a\n=\n\n+ *b*", &settings)?;
    expect_text(
        "HTML",
        html.as_str(),
        "<h1>a</h1>\n<ul>\n<li><em>b</em></li>\n</ul>\n",
    )?;
    expect_that(
        "not UTF-8",
        convert_page(alloc, b"a\xff", &settings) == Err(PageError::NotUtf8),
    )
}

#[test]
fn makes_documents_of_markdown(rt: HostRuntime) -> Result<(), Fail> {
    let alloc = rt.alloc();
    let options = document_options(&Options::default());
    for (markdown, written) in [
        ("", ""),
        ("One\n===\n+ _two_", "# One\n\n*   *two*"),
        ("a <b>c\n\nd", "a **c**\n\n**d**"),
        (
            "<a name=x></a>x<sub>2</sub> <kbd>y</kbd>\n\n[z](#x)",
            "<a id=\"x\"></a>x<sub>2</sub> <kbd>y</kbd>\n\n[z](#x)",
        ),
        ("|a|\n|-|\n|`b`|", "| a   |\n| --- |\n| `b` |"),
    ] {
        let document = Document::of_markdown(alloc, markdown)?;
        expect_text(
            markdown,
            to_markdown(alloc, &document, &options)?.as_str(),
            written,
        )?;
    }
    Ok(())
}
