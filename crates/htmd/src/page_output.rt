//! What the bytes of a page become by settings.

ghost use Rattle.std.specs.Prelude.{◌≡◌, [], ℕ, true, false, Err, IfErr, IfOk, None};
ghost use Rattle.std.specs.Prelude.{option_copied, string_bytes};
ghost use Rattle.std.specs.Cow.{cow_str_bytes};
ghost use Rattle.htmd_walk.specs.BuiltIn.{built_in};
ghost use Rattle.htmd.specs.Converters.{handlers_built, skipped_built};
ghost use Rattle.htmd_document.specs.DocumentViews.{document_of};
ghost use Rattle.htmd_walk.specs.Defaults.{default_options};
ghost use Rattle.htmd_grammar.specs.declared.fault.FaultKind.{FaultKind};
ghost use Rattle.htmd.specs.PageChanges.{AreLines};
ghost use Rattle.htmd.specs.PageOutputs.{GoesBy, IsFaultOf, IsMainContent, IsOutputOf, IsReadable, IsRefusedBy};
ghost use Rattle.htmd.specs.PageOutputs.{IsTreeBy, text_in};
ghost use Rattle.htmd.specs.PageOutputs as spec;
ghost use Rattle.htmd.specs.PageSights.{IsSeen, IsSeenAfter, IsSeenBy, sight_in};
ghost use Rattle.htmd.specs.PageSettings.{page_in, settings_for, settings_in};
ghost use Rattle.htmd_law_reading.specs.ReadingLaws.{IsSeenIn};

use crate::convert_error::ConvertError;
use crate::converter::{HtmlToMarkdown, HtmlToMarkdownBuilder};
use crate::documents::document_options;
use crate::page_changes::{head_of, part_of, visible_part};
use crate::page_error::PageError;
use crate::page_settings::{PageInRun, PageSettings};
use crate::paragraph::paragraph_of;
use htmd_article::{Article, article_of};
use htmd_chunks::{chunks, to_json_lines};
use htmd_commonmark::to_markdown;
use htmd_commonmark_reader::markdown_to_html;
use htmd_document::Document;
use htmd_encodings::page_text;
use htmd_html5::parse_html5;
use htmd_nodes::Tree;
use htmd_scanning::behind_mark;
use htmd_walk::element_handler::{Registrar, Registry};
use htmd_walk::options::Options;
use std::alloc::{AllocError, Global};
use std::borrow::CowStr;

/// The converter with these settings, from a builder with the default options. `Err` means out of memory.
pub(crate) fn converter_by<H: Registrar + Drop>(
    builder: HtmlToMarkdownBuilder<H>,
    settings: &PageSettings<'_>,
) -> Result<HtmlToMarkdown<H>, AllocError>
    requires ready { H.ready (handlers_built builder) }
    requires default { H.config (handlers_built builder) ≡ built_in default_options }
    requires none_skipped { skipped_built builder ≡ [] }
    ensures { IfOk result (λ converter. GoesBy H.ready H.config converter (settings_in settings.now)) }
{
    let options = Options { ..settings.options };
    let mut builder = builder
        .options(options)
        .scripting_enabled(settings.scripting)
        .anchors(settings.anchors)
        .rich(settings.rich);
    let skipped = settings.skipped.as_slice();
    if !skipped.is_empty() {
        builder = match builder.skip_tags(skipped) {
            Ok(builder) => builder,
            Err(_) => return Err(AllocError),
        };
    }
    let converter = builder.build();
    Ok(converter)
}

/// Whether the bytes of an input are read as browsers read them.
fn reads_any(settings: &PageSettings<'_>) -> bool
    ensures { result ≡ spec.reads_any (settings_in settings.now) }
{
    !settings.from_markdown && settings.html5 && !settings.text
}

/// The HTML of Markdown, without a byte order mark at its beginning.
#[tactic(auto, unfolding(crate::specs::PageOutputs::html_of_markdown))]
fn html_of(alloc: Global, markdown: &str) -> Result<String, AllocError>
    ensures { IfOk result (λ html. string_bytes html ≡ spec.html_of_markdown markdown.now) }
{
    markdown_to_html(alloc, behind_mark(markdown))
}

/// The text of the page that the bytes of an input hold: in their encoding if any page is read, else only in UTF-8; of
/// Markdown its HTML.
#[tactic(auto, using(crate::proofs::PageOutputsLemmas::readable_steps))]
fn text_of<'a>(
    alloc: Global,
    settings: &PageSettings<'_>,
    input: &'a [u8],
) -> Result<CowStr<'a>, PageError>
    ensures ok { IfOk result (λ text. IsReadable (settings_in settings.now) input.now
        × (cow_str_bytes text ≡ text_in (settings_in settings.now) input.now)) }
    ensures fault { IfErr result (IsFaultOf (settings_in settings.now) input.now) }
{
    if reads_any(settings) {
        return Ok(page_text(alloc, settings.encoding, input)?);
    }
    let Ok(text) = str::from_utf8(input) else {
        return Err(PageError::NotUtf8);
    };
    if settings.is_markdown() {
        return Ok(CowStr::Owned(html_of(alloc, text)?));
    }
    Ok(CowStr::Borrowed(text))
}

/// The tree of an input, by the reader that the settings name.
#[tactic(auto, using(crate::proofs::PageOutputsLemmas::no_markdown, crate::proofs::PageOutputsLemmas::no_html5))]
fn tree_by<H: Registry>(
    alloc: Global,
    converter: &HtmlToMarkdown<H>,
    settings: &PageSettings<'_>,
    input: &str,
) -> Result<Tree, ConvertError>
    requires goes_by { GoesBy H.ready H.config converter.now (settings_in settings.now) }
    ensures ok { IfOk result (λ tree. IsTreeBy (settings_in settings.now) input.now tree) }
    ensures refused_html { (place : ℕ) (kind : FaultKind) → result ≡ Err (ConvertError.Refused place kind)
        → settings.now.text ≡ false }
    ensures refused_strict { (place : ℕ) (kind : FaultKind) → result ≡ Err (ConvertError.Refused place kind)
        → settings.now.html5 ≡ false }
    ensures refused_page { (place : ℕ) (kind : FaultKind) → result ≡ Err (ConvertError.Refused place kind)
        → settings.now.from_markdown ≡ false }
    ensures refused { (place : ℕ) (kind : FaultKind) → result ≡ Err (ConvertError.Refused place kind)
        → IsRefusedBy (settings_in settings.now) input.now place kind }
{
    if settings.text {
        return Ok(paragraph_of(alloc, input)?);
    }
    if settings.is_any_page() {
        let page = parse_html5(alloc, input, settings.scripting)?;
        // Its contract says that the page is a tree, and that its texts are UTF-8.
        let _root = page.root();
        return Ok(page);
    }
    if settings.body {
        return converter.page_to_tree(alloc, input);
    }
    converter.html_to_tree(alloc, input)
}

/// A document as it is written in JSON, after what the head of its page says.
#[tactic(auto, using(crate::proofs::PageChangesLemmas::no_end, crate::proofs::PageChangesLemmas::without_end))]
fn mdast_after(alloc: Global, head: &str, document: &Document) -> Result<String, AllocError>
    requires { AreLines head.now }
    ensures { IfOk result
        (λ text. string_bytes text ≡ spec.mdast_after head.now (document_of document.now)) }
{
    match head.strip_suffix("\n") {
        Some(yaml) => document.to_mdast_with_front_matter(alloc, yaml),
        None => document.to_mdast(alloc),
    }
}

/// Markdown, after what the head of its page says.
fn after_head(alloc: Global, head: &str, markdown: String) -> Result<String, AllocError>
    ensures { IfOk result (λ text. string_bytes text ≡ spec.after_head head.now (string_bytes markdown)) }
{
    if head.is_empty() {
        return Ok(markdown);
    }
    let size = head.len().saturating_add(markdown.len());
    let mut text = String::with_capacity(alloc, size.saturating_add(9))?;
    text.push_str("---\n")?;
    text.push_str(head)?;
    text.push_str("---\n\n")?;
    text.push_str(markdown.as_str())?;
    Ok(text)
}

/// The Markdown of a tree, by a converter with these settings.
#[tactic(auto, unfolding(crate::specs::PageOutputs::tree_markdown))]
fn tree_markdown<H: Registry>(
    alloc: Global,
    converter: &HtmlToMarkdown<H>,
    settings: &PageSettings<'_>,
    tree: &Tree,
) -> Result<String, AllocError>
    requires goes_by { GoesBy H.ready H.config converter.now (settings_in settings.now) }
    ensures ok { IfOk result
        (λ markdown. string_bytes markdown ≡ spec.tree_markdown (settings_in settings.now) tree.now) }
    ensures seen { settings.now.guarded ≡ true → IfOk result
        (λ markdown. IsSeenIn (settings_in settings.now).anchors (sight_in (settings_in settings.now)) tree.now
        (string_bytes markdown)) }
{
    if settings.guarded {
        let document = converter.tree_to_document(alloc, tree)?;
        let markdown = to_markdown(alloc, &document, &document_options(&settings.options))?;
        // The tree's texts are UTF-8, and the Markdown fits a text: so it is seen.
        let (_root, _size) = (tree.root(), markdown.len());
        return Ok(markdown);
    }
    converter.tree_to_markdown(alloc, tree, tree.root())
}

/// What is written of a tree in one text, after what the head of its page says.
fn whole_output<H: Registry>(
    alloc: Global,
    converter: &HtmlToMarkdown<H>,
    settings: &PageSettings<'_>,
    head: &str,
    tree: &Tree,
) -> Result<String, AllocError>
    requires goes_by { GoesBy H.ready H.config converter.now (settings_in settings.now) }
    requires head { AreLines head.now }
    ensures ok { IfOk result (λ output. string_bytes output
        ≡ spec.whole_output (settings_in settings.now) head.now tree.now) }
    ensures seen { IfOk result (λ output.
        IsSeenAfter (settings_in settings.now) head.now tree.now (string_bytes output)) }
{
    if settings.mdast {
        let document = converter.tree_to_document(alloc, tree)?;
        return mdast_after(alloc, head, &document);
    }
    let markdown = tree_markdown(alloc, converter, settings, tree)?;
    after_head(alloc, head, markdown)
}

/// What the head of a page says, if that is written.
fn front_in(head: &str) -> Option<&str>
    ensures { option_copied result ≡ spec.front_in head.now }
{
    if head.is_empty() { None } else { Some(head) }
}

/// What a reader sees of a tree in pieces of at most so many bytes, as lines of JSON.
#[tactic(auto, unfolding(crate::specs::PageOutputs::pieces_output), using(crate::proofs::PageOutputsLemmas::named))]
fn pieces_output<H: Registry>(
    alloc: Global,
    converter: &HtmlToMarkdown<H>,
    settings: &PageSettings<'_>,
    in_run: &PageInRun<'_>,
    most: usize,
    head: &str,
    tree: &Tree,
) -> Result<String, AllocError>
    requires goes_by { GoesBy H.ready H.config converter.now (settings_in settings.now) }
    ensures { IfOk result (λ lines. string_bytes lines ≡ spec.pieces_output
        (settings_for (page_in in_run.now) (settings_in settings.now)) most head.now tree.now) }
{
    let document = converter.tree_to_document(alloc, tree)?;
    let options = document_options(&settings.options);
    let pieces = chunks(alloc, document, most, &options)?;
    to_json_lines(alloc, &pieces, &options, in_run.name, front_in(head))
}

/// What is written of a tree by a converter with these settings, with what the head of its page says.
#[tactic(auto, unfolding(crate::specs::PageOutputs::tree_output, crate::specs::PageOutputs::tree_markdown))]
fn tree_output<H: Registry>(
    alloc: Global,
    converter: &HtmlToMarkdown<H>,
    settings: &PageSettings<'_>,
    in_run: &PageInRun<'_>,
    head: &str,
    tree: &Tree,
) -> Result<String, AllocError>
    requires goes_by { GoesBy H.ready H.config converter.now (settings_in settings.now) }
    requires head { settings.now.chunks ≡ None → AreLines head.now }
    ensures ok { IfOk result (λ output. string_bytes output ≡ spec.tree_output
        (settings_for (page_in in_run.now) (settings_in settings.now)) head.now tree.now) }
    ensures seen { IfOk result (λ output. IsSeenBy settings.now.chunks
        (settings_for (page_in in_run.now) (settings_in settings.now)) head.now tree.now (string_bytes output)) }
{
    match settings.chunks {
        Some(most) => {
            let lines = pieces_output(alloc, converter, settings, in_run, most, head, tree)?;
            // The tree's texts are UTF-8: so its document is normal, and its pieces are seen.
            let _root = tree.root();
            Ok(lines)
        }
        None => whole_output(alloc, converter, settings, head, tree),
    }
}

/// The main content of a page, and the rule by which it was chosen, whether or not only that is converted.
pub(crate) fn main_content_of<H: Registry>(
    alloc: Global,
    converter: &HtmlToMarkdown<H>,
    settings: &PageSettings<'_>,
    input: &[u8],
) -> Result<Article, PageError>
    requires goes_by { GoesBy H.ready H.config converter.now (settings_in settings.now) }
    ensures { IfOk result (λ article. IsMainContent (settings_in settings.now)
        (text_in (settings_in settings.now) input.now) article.chosen article.tree) }
{
    let text = text_of(alloc, settings, input)?;
    let page = tree_by(alloc, converter, settings, &text)?;
    let visible = visible_part(alloc, settings, page)?;
    Ok(article_of(alloc, &visible)?)
}

/// What the bytes of an input become, by a converter with these settings. In Markdown of what a person sees, a reader
/// of CommonMark sees the same; pieces together are the same document.
pub(crate) fn output_of<H: Registry>(
    alloc: Global,
    converter: &HtmlToMarkdown<H>,
    settings: &PageSettings<'_>,
    in_run: &PageInRun<'_>,
    input: &[u8],
) -> Result<String, PageError>
    requires goes_by { GoesBy H.ready H.config converter.now (settings_in settings.now) }
    ensures ok { IfOk result (λ output. IsOutputOf
        (settings_for (page_in in_run.now) (settings_in settings.now)) input.now (string_bytes output)) }
    ensures seen { IfOk result (λ output. IsSeen
        (settings_for (page_in in_run.now) (settings_in settings.now)) input.now (string_bytes output)) }
    ensures fault { IfErr result (IsFaultOf
        (settings_for (page_in in_run.now) (settings_in settings.now)) input.now) }
{
    let text = text_of(alloc, settings, input)?;
    if settings.writes_html() {
        return Ok(text.into_owned(alloc)?);
    }
    let page = tree_by(alloc, converter, settings, &text)?;
    let head = head_of(alloc, settings, &page)?;
    let Some(part) = part_of(alloc, settings, in_run, page)? else {
        return Err(PageError::NothingSelected);
    };
    Ok(tree_output(alloc, converter, settings, in_run, &head, &part)?)
}
