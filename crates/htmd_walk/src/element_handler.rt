//! Handlers of elements, what they are shown, and what they give.

ghost use Rattle.std.specs.Prelude.{◌≡◌, ◌<◌, [], ℕ, List, Option, IfOk, map, length, string_bytes};
ghost use Rattle.std.specs.Option.{option_copied};
ghost use Rattle.htmd_nodes.specs.Items.{data_at, element_node, parent_at};
ghost use Rattle.htmd_lexical.specs.Attributes.{pairs_of};
ghost use Rattle.htmd_walk.specs.Handling.{ElementView, ResultView, PlanView, IsProper};
ghost use Rattle.htmd_walk.specs.Groups.{only_text, group_children, children_at};
ghost use Rattle.htmd_walk.specs.Code.{language_of_pre};

use crate::options::Options;
use htmd_nodes::{Attribute, NodeId, Tree, value_of};
use std::alloc::{AllocError, Global};
use std::marker::Model;

mod anchor;
mod block_quote;
mod built_in;
pub(crate) mod code;
mod element_handlers;
mod emphasis;
pub(crate) mod fn_handler;
mod heading;
mod image;
pub(crate) mod layered;
mod line_break;
mod link_attributes;
mod list;
mod list_item;
mod other_block;
mod page;
pub(crate) mod plans;
mod preformatted;
pub(crate) mod registrar;
mod registrations;
pub(crate) mod registry;
pub(crate) mod span;
mod table;
mod table_cell;
mod table_layout;
mod table_part;
mod thematic_break;

pub use element_handlers::{ElementHandlers, HandlerRefused};
pub use fn_handler::{Answering, FnHandler, HandlerRule};
pub use layered::Layered;
pub use plans::is_raw_html_due;
pub use registrar::Registrar;
pub use registry::Registry;

/// What a handler is shown of an element.
#[derive(Drop)]
pub struct Element<'a> {
    pub node: NodeId,
    pub tag: &'a str,
    pub attrs: &'a [Attribute],
    pub markdown_translated: bool,
    pub(crate) tree: &'a Tree,
    pub(crate) options: &'a Options,
    pub(crate) text: Option<&'a str>,
    /// Whether it or an ancestor is `pre` or `code`.
    pub(crate) preformatted: bool,
    /// The language that the parent names, if it is `pre`.
    pub(crate) pre_language: Option<&'a str>,
    ghost within: { node < length tree.now },
    ghost is_element: { data_at tree.now node ≡ element_node tag.now (pairs_of attrs.now) },
    ghost language: { option_copied pre_language ≡ language_of_pre tree.now (parent_at tree.now node) },
    ghost shows: { option_copied text ≡ only_text (group_children (option_copied text) (children_at tree.now node)) },
}

impl<'a> Element<'a> {
    ghost use Rattle.htmd_walk.specs.Views.{element_view};
    ghost use Rattle.htmd_walk.specs.ElementPlans.{attributes_of, value_of};

    /// The tree as it was handed in.
    pub fn tree(&self) -> &Tree
        ensures { result.now ≡ (element_view self.now).items }
    {
        self.tree
    }

    /// The options of the conversion.
    pub fn options(&self) -> &Options
        ensures { result.now ≡ (element_view self.now).options }
    {
        self.options
    }

    /// The text of the only child, joined for a group; nothing unless the element has exactly one child and that is a
    /// text.
    pub fn text(&self) -> Option<&str>
        ensures { option_copied result ≡ (element_view self.now).text }
    {
        self.text
    }

    /// The value of the first attribute with this name, if there is one. The reader gives names in lower case.
    pub fn attribute(&self, name: &str) -> Option<&str>
        ensures { option_copied result ≡ value_of name.now (attributes_of (element_view self.now)) }
    {
        value_of(self.attrs, name)
    }
}

/// A text, and whether all of it is Markdown.
#[derive(Drop)]
pub struct HandlerResult {
    pub content: String,
    pub markdown_translated: bool,
}

impl HandlerResult {
    ghost use Rattle.std.specs.Prelude.{true};

    /// This text, as Markdown.
    pub fn from_string(content: String) -> HandlerResult
        ensures content { result.content ≡ content }
        ensures markdown_translated { result.markdown_translated ≡ true }
    {
        HandlerResult {
            content,
            markdown_translated: true,
        }
    }

    /// A copy of this text, as Markdown. `Err` means out of memory.
    pub fn from_text(alloc: Global, content: &str) -> Result<HandlerResult, AllocError>
        ensures content { IfOk result (λ r. string_bytes r.content ≡ content.now) }
        ensures markdown_translated { IfOk result (λ r. r.markdown_translated ≡ true) }
    {
        Ok(HandlerResult::from_string(String::from_str(alloc, content)?))
    }
}

/// What a handler needs.
#[derive(Drop)]
pub enum Plan {
    /// Nothing: the element gives nothing.
    Skip,
    /// Nothing: this is the result.
    Text(HandlerResult),
    /// Nothing: the result is the element's raw HTML, which isn't Markdown.
    RawHtml,
    /// The content of the children.
    Children,
    /// The content of a proper descendant, handed over by itself.
    Descendant(NodeId),
    /// What the handler before this one gives.
    Fallback,
}

/// A copy of these texts.
fn copied_texts(alloc: Global, texts: &[String]) -> Result<Vec<String>, AllocError>
    ensures { IfOk result (λ copy. map (λ s. string_bytes s) copy.items ≡ map (λ s. string_bytes s) texts.now) }
{
    let mut copy = Vec::with_capacity(alloc, texts.len())?;
    for text in texts {
        copy.push(String::from_str(alloc, text.as_str())?)?;
    }
    Ok(copy)
}

/// The link definitions of a conversion, one on each line.
#[derive(Drop)]
pub struct Links {
    pub(crate) lines: Vec<String>,
}

impl Model for Links {
    ghost use Rattle.std.specs.Prelude.{ℕ, List, map, string_bytes};

    ghost Value = { List (List ℕ) };

    ghost view = { λ l. map string_bytes l.lines.items };
}

impl Links {
    /// No definitions yet.
    pub fn new(alloc: Global) -> Links
        ensures { result ≡ [] }
    {
        Links {
            lines: Vec::new(alloc),
        }
    }

    /// The definitions so far, in order.
    pub fn lines(&self) -> &[String]
        ensures { map string_bytes result.now ≡ self.now }
    {
        self.lines.as_slice()
    }

    /// A copy of these definitions.
    pub(crate) fn copied(&self, alloc: Global) -> Result<Links, AllocError>
        ensures { IfOk result (λ copy. copy ≡ self.now) }
    {
        let lines = copied_texts(alloc, self.lines())?;
        Ok(Links { lines })
    }
}

/// Converts the elements of the tags that it is registered for. What it returns is a function of its value and of what
/// it is shown, `Err` means out of memory, and a `Plan::Descendant` is a proper descendant of `element.node`.
pub trait ElementHandler: Drop {
    ghost use Rattle.htmd_walk.specs.Views.{plan_view, optional_result, result_view, element_view, optional_text};

    /// What it needs.
    ghost plan_of: { Self → ElementView → PlanView };

    /// What it makes of the content that it needs.
    ghost finish_of: { Self → ElementView → ResultView → Option ResultView };

    /// What it puts after a conversion.
    ghost append_of: { Self → Option (List ℕ) };

    /// What it puts after a conversion, if anything. `Err` means out of memory.
    fn append(&self, alloc: Global) -> Result<Option<String>, AllocError>
        ensures { IfOk result (λ r. optional_text r ≡ append_of self.now) };

    /// What it needs. A plan that needs no content gives its result at once; for content `finish` is called. `Err`
    /// means out of memory.
    fn plan(&self, alloc: Global, element: &Element) -> Result<Plan, AllocError>
        ensures plan { IfOk result (λ p. plan_view p ≡ plan_of self.now (element_view element.now)) }
        ensures proper { IfOk result (λ p. IsProper (element_view element.now).items element.now.node (plan_view p)) };

    /// The result from the content that the plan needs, or nothing. `Err` means out of memory.
    fn finish(
        &self,
        alloc: Global,
        element: &Element,
        content: HandlerResult,
    ) -> Result<Option<HandlerResult>, AllocError>
        ensures { IfOk result
            (λ r. optional_result r ≡ finish_of self.now (element_view element.now) (result_view content)) };
}
