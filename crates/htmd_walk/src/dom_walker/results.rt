//! What an element gives, and how it is appended to what is written so far.

ghost use Rattle.std.specs.Prelude.{◌≡◌, ◌<◌, ℕ, List, true, IfOk, IfSome, IsSome, OnOk};
ghost use Rattle.std.specs.Prelude.{◌++◌, nat_lt, if◌then◌else◌, length, string_bytes, []};
ghost use Rattle.std.specs.Option.{option_copied};
ghost use Rattle.htmd_text.specs.Trims.{trimmed_end, is_space};
ghost use Rattle.htmd_lexical.specs.Attributes.{pairs_of};
ghost use Rattle.htmd_values.specs.Serialisation.{start_tag, comment_of};
ghost use Rattle.htmd_walk.specs.Groups.{only_text, group_children, children_at};
ghost use Rattle.htmd_walk.specs.Elements.{raw_result, end_of_element};
ghost use Rattle.htmd_walk.specs.Passing.{passed_text};
ghost use Rattle.htmd_walk.specs.Outputs.{empty_output};
ghost use Rattle.htmd_walk.specs.Rendering.{with_result};
ghost use Rattle.htmd_walk.specs.Spans.{is_span};
ghost use Rattle.htmd_walk.specs.Views.{optional_text, optional_result, output_view, result_view};

use crate::element_handler::{Element, HandlerResult};
use crate::node_util::only_text;
use crate::seam::append_normalized_content;
use crate::spare_texts::SpareTexts;
use htmd_nodes::{Attribute, NodeId, Tree, is_void, push_end_tag, push_start_tag};
use htmd_text::{trim_end_spaces, trim_newlines};
use std::alloc::{AllocError, Global};

/// Cuts the spaces at the end of the text before a block element.
pub(crate) fn cut_before_child(out: &mut HandlerResult, is_block: bool)
    ensures text { string_bytes out.new.content
        ≡ (if is_block then trimmed_end is_space (string_bytes out.old.content) else string_bytes out.old.content) }
    ensures markdown_translated { out.new.markdown_translated ≡ out.old.markdown_translated }
{
    if is_block {
        trim_end_spaces(&mut out.content);
    }
}

/// A child that made the text longer sets the trim flag if it is a block element, else clears it.
pub(crate) fn trim_after(before: usize, after: usize, is_block: bool, trim: bool) -> bool
    ensures { result ≡ (if nat_lt before after then is_block else trim) }
{
    if before < after { is_block } else { trim }
}

/// A borrowed text, if there is one.
pub(crate) fn lent(text: &Option<String>) -> Option<&str>
    ensures { option_copied result ≡ optional_text text.now }
{
    match text {
        Some(text) => Some(text.as_str()),
        None => None,
    }
}

/// The result when nothing is written yet, with a text of its own.
pub(crate) fn empty_result(spare: &SpareTexts) -> HandlerResult
    ensures content { string_bytes result.content ≡ [] }
    ensures markdown_translated { result.markdown_translated ≡ true }
{
    HandlerResult {
        content: spare.take(),
        markdown_translated: true,
    }
}

/// The joined text of a group, else the text of the only child.
pub(crate) fn text_shown<'t>(
    tree: &'t Tree,
    node: NodeId,
    joined: Option<&'t str>,
) -> Option<&'t str>
    requires within { node < length tree.now }
    requires group { IfSome joined (λ _. IsSome (only_text (children_at tree.now node))) }
    ensures children { group_children (option_copied result) (children_at tree.now node)
        ≡ group_children (option_copied joined.entry) (children_at tree.now node) }
    ensures text { option_copied result
        ≡ only_text (group_children (option_copied joined.entry) (children_at tree.now node)) }
    ensures shows { option_copied result
        ≡ only_text (group_children (option_copied result) (children_at tree.now node)) }
{
    match joined {
        Some(text) => Some(text),
        None => only_text(tree, node),
    }
}

/// What an element that the walk goes past passes on: its content; that of a `span` without line feeds at its ends,
/// unless it is preformatted.
pub(crate) fn passed_on(element: &Element, mut content: HandlerResult) -> HandlerResult
    ensures content { string_bytes result.content
        ≡ passed_text (is_span element.now.tag.now) element.now.preformatted (string_bytes content.content) }
    ensures markdown_translated { result.markdown_translated ≡ content.markdown_translated }
{
    if element.tag == "span" && !element.preformatted {
        trim_newlines(&mut content.content);
    }
    content
}

/// A text that isn't Markdown.
pub(crate) fn raw_result(content: String) -> HandlerResult
    ensures { result_view result ≡ raw_result (string_bytes content) }
{
    HandlerResult {
        content,
        markdown_translated: false,
    }
}

/// A content between the tags of its element.
pub(crate) fn between_tags(
    alloc: Global,
    tag: &str,
    attrs: &[Attribute],
    content: &str,
) -> Result<String, AllocError>
    ensures { IfOk result (λ s. string_bytes s
        ≡ (start_tag tag.now (pairs_of attrs.now) ++ content.now) ++ end_of_element tag.now) }
{
    let mut out = String::new(alloc);
    push_start_tag(&mut out, tag, attrs)?;
    out.push_str(content)?;
    if !is_void(tag) {
        push_end_tag(&mut out, tag)?;
    }
    Ok(out)
}

/// A copy of a result.
pub(crate) fn copied(
    alloc: Global,
    given: &Option<HandlerResult>,
) -> Result<Option<HandlerResult>, AllocError>
    ensures { IfOk result (λ r. optional_result r ≡ optional_result given.now) }
{
    match given {
        None => Ok(None),
        Some(given) => Ok(Some(HandlerResult {
            content: String::from_str(alloc, given.content.as_str())?,
            markdown_translated: given.markdown_translated,
        })),
    }
}

/// Appends what an element gives to what is written so far.
pub(crate) fn append_result(
    out: &mut HandlerResult,
    given: Option<HandlerResult>,
    whole: bool,
    spare: &SpareTexts,
) -> Result<(), AllocError>
    ensures { OnOk result ((definitions : List (List ℕ)) → output_view out.new definitions
        ≡ with_result (output_view out.old definitions) whole (optional_result given) definitions) }
{
    match given {
        None => Ok(()),
        Some(given) => {
            let mut content = given.content;
            append_normalized_content(&mut out.content, &mut content, whole)?;
            out.markdown_translated = out.markdown_translated && given.markdown_translated;
            spare.keep(content);
            Ok(())
        }
    }
}

/// Appends a copy of what an element gives to what is written so far.
pub(crate) fn append_copy(
    out: &mut HandlerResult,
    given: &Option<HandlerResult>,
    whole: bool,
    spare: &SpareTexts,
) -> Result<(), AllocError>
    ensures { OnOk result ((definitions : List (List ℕ)) → output_view out.new definitions
        ≡ with_result (output_view out.old definitions) whole (optional_result given.now) definitions) }
{
    let given = copied(spare.alloc, given)?;
    append_result(out, given, whole, spare)
}

/// What an element gives, as the content of the element by itself.
pub(crate) fn result_alone(
    given: Option<HandlerResult>,
    whole: bool,
    spare: &SpareTexts,
) -> Result<HandlerResult, AllocError>
    ensures { IfOk result (λ r. (definitions : List (List ℕ)) → output_view r definitions
        ≡ with_result (empty_output definitions) whole (optional_result given) definitions) }
{
    let mut out = empty_result(spare);
    append_result(&mut out, given, whole, spare)?;
    Ok(out)
}

/// Appends a comment to a text.
pub(crate) fn push_comment(out: &mut String, text: &str) -> Result<(), AllocError>
    ensures { OnOk result (string_bytes out.new ≡ string_bytes out.old ++ comment_of text.now) }
{
    out.push_str("<!--")?;
    out.push_str(text)?;
    out.push_str("-->")?;
    Ok(())
}
