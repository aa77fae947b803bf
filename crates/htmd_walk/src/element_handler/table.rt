//! The handler of `table`.

ghost use Rattle.std.specs.Prelude.{◌≡◌, ◌<◌, ◌++◌, IfOk, OnOk, map, length, string_bytes};
ghost use Rattle.std.specs.List.{flat_map};
ghost use Rattle.htmd_nodes.specs.NumberedTrees.{tree_of};
ghost use Rattle.htmd_walk.specs.Groups.{children_at};
ghost use Rattle.htmd_walk.specs.Handling.{IsProper};
ghost use Rattle.htmd_walk.specs.TableLayouts as layouts;
ghost use Rattle.htmd_walk.specs.Tables as spec;
ghost use Rattle.htmd_walk.specs.TableElements as handler;
ghost use Rattle.htmd_walk.specs.TableViews.{parts_view, texts_view};
ghost use Rattle.htmd_walk.specs.Views.{element_view, result_view, results_view, optional_result};
ghost use Rattle.htmd_walk.specs.Walking.{request_view, outcome_view};

use super::plans::{are_markdown, is_markdown_alone, is_written_as_markdown, raw_block_result};
use super::registry::{Descendants, Outcome, Request};
use super::table_layout::{Part, PartKind, has_tag, layout_of, nodes_of};
use super::{Element, HandlerResult, Plan};
use crate::node_util::has_ancestor_of;
use htmd_markdown::write_table;
use htmd_nodes::{NodeId, Tree};
use htmd_text::{TrimDocumentWhitespace, surround_with_blank_lines, trim_newlines};
use std::alloc::{AllocError, Global};

/// The texts of a table's parts, and whether all of its cells are Markdown.
#[derive(Drop)]
pub(crate) struct TableTexts {
    captions: Vec<String>,
    headers: Vec<String>,
    rows: Vec<Vec<String>>,
    markdown_translated: bool,
}

/// Whether a node is `th` or `thead`.
fn is_header(tree: &Tree, node: NodeId) -> bool
    requires { node < length tree.now }
    ensures { result ≡ layouts.has_tag spec.header_tags tree.now node }
{
    matches!(tree.tag_name(node), Some("th" | "thead"))
}

/// Whether `th` or `thead` is below a node; no table is looked into.
fn has_header_below(tree: &Tree, node: NodeId) -> bool
    requires { node < length tree.now }
    ensures { result ≡ spec.has_header_below (tree_of tree.now node) }
{
    for child in tree.children(node) {
        if is_header(tree, *child) {
            return true;
        }
        if has_tag(tree, *child, "table") {
            continue;
        }
        if has_header_below(tree, *child) {
            return true;
        }
    }
    false
}

/// Whether `th` or `thead` is below a table; only tables among its own children are looked into.
fn has_explicit_headers(tree: &Tree, table: NodeId) -> bool
    requires { table < length tree.now }
    ensures { result ≡ spec.has_explicit_headers (children_at tree.now table) }
{
    for child in tree.children(table) {
        if is_header(tree, *child) {
            return true;
        }
        if has_header_below(tree, *child) {
            return true;
        }
    }
    false
}

/// Whether a table has explicit headers and is in no cell of another table.
fn has_table_form(tree: &Tree, table: NodeId) -> bool
    requires { table < length tree.now }
    ensures { result ≡ spec.has_table_form tree.now table }
{
    has_explicit_headers(tree, table) && !has_ancestor_of(tree, table, "td", "th")
}

/// Whether the next handler is asked.
fn is_left_out(element: &Element) -> bool
    ensures { result ≡ handler.is_left_out (element_view element.now) }
{
    is_markdown_alone(element.options) && !has_table_form(element.tree, element.node)
}

/// The captions and cells of a table, each by itself.
pub(crate) fn plan(alloc: Global, element: &Element) -> Result<Request, AllocError>
    ensures plan { IfOk result (λ p. request_view p ≡ handler.table_plan (element_view element.now)) }
    ensures proper { IfOk result (λ p. IsProper element.now.tree.now element.now.node (request_view p)) }
{
    if !is_written_as_markdown(element) {
        return Ok(Request::OfPlan(Plan::RawHtml));
    }
    if is_left_out(element) {
        return Ok(Request::OfPlan(Plan::Fallback));
    }
    let layout = layout_of(alloc, element.tree, element.node)?;
    Ok(Request::Each(Descendants {
        nodes: nodes_of(alloc, &layout.parts)?,
        may_ask_children: !layout.has_lines(),
    }))
}

/// The content without document white space at its ends.
fn cell_text(alloc: Global, content: &HandlerResult) -> Result<String, AllocError>
    ensures { IfOk result (λ text. string_bytes text ≡ spec.text_of_cell (result_view content.now)) }
{
    String::from_str(alloc, content.content.trim_document_whitespace())
}

/// The contents without document white space at their ends.
fn texts_of(alloc: Global, contents: &[HandlerResult]) -> Result<Vec<String>, AllocError>
    ensures { IfOk result (λ texts. map (λ text. string_bytes text) texts.items
        ≡ map spec.text_of_cell (results_view contents.now)) }
{
    let mut texts = Vec::with_capacity(alloc, contents.len())?;
    for content in contents {
        texts.push(cell_text(alloc, content)?)?;
    }
    Ok(texts)
}

impl TableTexts {
    /// The contents of one more part.
    fn push(
        &mut self,
        alloc: Global,
        kind: PartKind,
        contents: &[HandlerResult],
    ) -> Result<(), AllocError>
        ensures { OnOk result
            (texts_view self.new ≡ spec.with_part (texts_view self.old) kind (results_view contents.now)) }
    {
        let mut texts = texts_of(alloc, contents)?;
        match kind {
            PartKind::Caption => self.captions.append(&mut texts)?,
            PartKind::Headers => {
                self.headers = texts;
                self.markdown_translated = self.markdown_translated && are_markdown(contents);
            }
            PartKind::Row => {
                self.rows.push(texts)?;
                self.markdown_translated = self.markdown_translated && are_markdown(contents);
            }
        }
        Ok(())
    }
}

/// The contents of the parts, in order.
fn texts_of_parts(
    alloc: Global,
    parts: &[Part],
    contents: &[HandlerResult],
) -> Result<TableTexts, AllocError>
    ensures { IfOk result (λ texts. texts_view texts
        ≡ spec.with_parts spec.no_texts (parts_view parts.now) (results_view contents.now)) }
{
    let mut texts = TableTexts {
        captions: Vec::new(alloc),
        headers: Vec::new(alloc),
        rows: Vec::new(alloc),
        markdown_translated: true,
    };
    let mut rest = contents;
    for part in parts {
        let (own, behind) = rest.split_at(part.nodes.len().min(rest.len()));
        texts.push(alloc, part.kind, own)?;
        rest = behind;
    }
    Ok(texts)
}

/// Appends a line to a text.
fn push_line(out: &mut String, line: &str) -> Result<(), AllocError>
    ensures { OnOk result (string_bytes out.new ≡ string_bytes out.old ++ spec.with_line_end line.now) }
{
    out.push_str(line)?;
    out.push_str("\n")?;
    Ok(())
}

/// Appends each caption in a line of its own.
fn push_captions(out: &mut String, captions: &[String]) -> Result<(), AllocError>
    ensures { OnOk result (string_bytes out.new
        ≡ string_bytes out.old ++ flat_map spec.with_line_end (map (λ text. string_bytes text) captions.now)) }
{
    for caption in captions {
        push_line(out, caption.as_str())?;
    }
    Ok(())
}

/// The captions, and then the headers and rows.
fn write_texts(alloc: Global, texts: &TableTexts) -> Result<String, AllocError>
    ensures { IfOk result (λ text. string_bytes text ≡ spec.table_text (texts_view texts.now)) }
{
    let lines = write_table(alloc, &texts.headers, &texts.rows)?;
    let mut text = String::with_capacity(alloc, lines.len().saturating_add(3))?;
    text.push_str("\n\n")?;
    push_captions(&mut text, &texts.captions)?;
    push_line(&mut text, lines.as_str())?;
    Ok(text)
}

/// What the next handler gave, as it is; or the children's content with blank lines around.
pub(crate) fn finish(
    element: &Element,
    content: HandlerResult,
) -> Result<Option<HandlerResult>, AllocError>
    ensures { IfOk result (λ r. optional_result r
        ≡ handler.table_result (element_view element.now) (result_view content)) }
{
    if is_left_out(element) {
        return Ok(Some(content));
    }
    let mut text = content.content;
    trim_newlines(&mut text);
    if text.is_empty() {
        return Ok(None);
    }
    surround_with_blank_lines(&mut text)?;
    Ok(Some(HandlerResult::from_string(text)))
}

/// The table, or its raw HTML if a cell isn't Markdown. Without headers and rows the children's content is needed.
pub(crate) fn finish_each(
    alloc: Global,
    element: &Element,
    contents: &[HandlerResult],
) -> Result<Outcome, AllocError>
    ensures { IfOk result (λ outcome. outcome_view outcome
        ≡ handler.table_outcome (element_view element.now) (results_view contents.now)) }
{
    let layout = layout_of(alloc, element.tree, element.node)?;
    let texts = texts_of_parts(alloc, &layout.parts, contents)?;
    if !is_markdown_alone(element.options) && !texts.markdown_translated {
        let raw = raw_block_result(alloc, element)?;
        return Ok(Outcome::Final(Some(raw)));
    }
    if !layout.has_lines() {
        return Ok(Outcome::ChildrenToo);
    }
    let text = write_texts(alloc, &texts)?;
    Ok(Outcome::Final(Some(HandlerResult::from_string(text))))
}
