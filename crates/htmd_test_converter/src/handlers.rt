//! Handlers of your own, of each kind.
ghost use Rattle.std.specs.Prelude.{◌≡◌, ◌<◌, ◌&&◌, Some, None, if◌then◌else◌, length, not, true};
ghost use Rattle.std.specs.Prelude.{codes, string_bytes};
ghost use Rattle.htmd_nodes.specs.Items.{children_of};
ghost use Rattle.htmd.specs.ElementPlans.{attributes_of, is_more_than};
ghost use Rattle.htmd.specs.Handling.{this_result, raw_html, content_of_children, content_of_fallback};
ghost use Rattle.htmd.specs.Outputs.{is_markdown_alone};
ghost use Rattle.htmd.specs.Views.{optional_text};
ghost use Rattle.htmd_test_converter.specs.Plans.{plan_of_text, plan_of_first, plan_of_below, first_or, down};
ghost use Rattle.htmd_test_converter.specs.Plans.{plan_with_id};

use htmd::element_handler::{Element, ElementHandler, HandlerResult, Plan, is_raw_html_due};
use htmd::{NodeId, Tree};
use std::alloc::{AllocError, Global};

/// Gives this text with this flag.
#[derive(Drop)]
pub(crate) struct Says {
    pub(crate) text: String,
    pub(crate) markdown_translated: bool,
}

impl ElementHandler for Says {
    ghost plan_of = { λ h _. this_result (record {
      content = string_bytes h.text;
      markdown_translated = h.markdown_translated;
    }) };

    ghost finish_of = { λ _ _ _. None };

    ghost append_of = { λ _. None };

    fn append(&self, _alloc: Global) -> Result<Option<String>, AllocError> {
        Ok(None)
    }

    fn plan(&self, alloc: Global, _element: &Element) -> Result<Plan, AllocError> {
        Ok(Plan::Text(HandlerResult {
            content: String::from_str(alloc, self.text.as_str())?,
            markdown_translated: self.markdown_translated,
        }))
    }

    fn finish(
        &self,
        _alloc: Global,
        _element: &Element,
        _content: HandlerResult,
    ) -> Result<Option<HandlerResult>, AllocError> {
        Ok(None)
    }
}

/// Gives the raw HTML.
#[derive(Drop)]
pub(crate) struct AsRawHtml;

impl ElementHandler for AsRawHtml {
    ghost plan_of = { λ _ _. raw_html };

    ghost finish_of = { λ _ _ _. None };

    ghost append_of = { λ _. None };

    fn append(&self, _alloc: Global) -> Result<Option<String>, AllocError> {
        Ok(None)
    }

    fn plan(&self, _alloc: Global, _element: &Element) -> Result<Plan, AllocError> {
        Ok(Plan::RawHtml)
    }

    fn finish(
        &self,
        _alloc: Global,
        _element: &Element,
        _content: HandlerResult,
    ) -> Result<Option<HandlerResult>, AllocError> {
        Ok(None)
    }
}

/// Gives what the handler before gives, and puts this text after a conversion.
#[derive(Drop)]
pub(crate) struct PassesOn {
    pub(crate) appended: Option<String>,
}

impl ElementHandler for PassesOn {
    ghost plan_of = { λ _ _. content_of_fallback };

    ghost finish_of = { λ _ _ given. Some given };

    ghost append_of = { λ h. optional_text h.appended };

    fn append(&self, alloc: Global) -> Result<Option<String>, AllocError> {
        match &self.appended {
            Some(text) => Ok(Some(String::from_str(alloc, text.as_str())?)),
            None => Ok(None),
        }
    }

    fn plan(&self, _alloc: Global, _element: &Element) -> Result<Plan, AllocError> {
        Ok(Plan::Fallback)
    }

    fn finish(
        &self,
        _alloc: Global,
        _element: &Element,
        content: HandlerResult,
    ) -> Result<Option<HandlerResult>, AllocError> {
        Ok(Some(content))
    }
}

/// Gives the text of the only child, or nothing.
#[derive(Drop)]
pub(crate) struct TextAlone;

impl ElementHandler for TextAlone {
    ghost plan_of = { λ _ view. plan_of_text view.text };

    ghost finish_of = { λ _ _ _. None };

    ghost append_of = { λ _. None };

    fn append(&self, _alloc: Global) -> Result<Option<String>, AllocError> {
        Ok(None)
    }

    fn plan(&self, alloc: Global, element: &Element) -> Result<Plan, AllocError> {
        match element.text() {
            Some(text) => Ok(Plan::Text(HandlerResult::from_text(alloc, text)?)),
            None => Ok(Plan::Skip),
        }
    }

    fn finish(
        &self,
        _alloc: Global,
        _element: &Element,
        _content: HandlerResult,
    ) -> Result<Option<HandlerResult>, AllocError> {
        Ok(None)
    }
}

/// Needs the content, and gives nothing.
#[derive(Drop)]
pub(crate) struct GivesNothing;

impl ElementHandler for GivesNothing {
    ghost plan_of = { λ _ _. content_of_children };

    ghost finish_of = { λ _ _ _. None };

    ghost append_of = { λ _. None };

    fn append(&self, _alloc: Global) -> Result<Option<String>, AllocError> {
        Ok(None)
    }

    fn plan(&self, _alloc: Global, _element: &Element) -> Result<Plan, AllocError> {
        Ok(Plan::Children)
    }

    fn finish(
        &self,
        _alloc: Global,
        _element: &Element,
        _content: HandlerResult,
    ) -> Result<Option<HandlerResult>, AllocError> {
        Ok(None)
    }
}

/// Gives `T` if the content is Markdown, else `F`.
#[derive(Drop)]
pub(crate) struct TellsFlag;

impl ElementHandler for TellsFlag {
    ghost plan_of = { λ _ _. content_of_children };

    ghost finish_of = { λ _ _ given. Some (record {
      content = if given.markdown_translated then codes "T" else codes "F";
      markdown_translated = true;
    }) };

    ghost append_of = { λ _. None };

    fn append(&self, _alloc: Global) -> Result<Option<String>, AllocError> {
        Ok(None)
    }

    fn plan(&self, _alloc: Global, _element: &Element) -> Result<Plan, AllocError> {
        Ok(Plan::Children)
    }

    fn finish(
        &self,
        alloc: Global,
        _element: &Element,
        content: HandlerResult,
    ) -> Result<Option<HandlerResult>, AllocError> {
        let flag = if content.markdown_translated {
            "T"
        } else {
            "F"
        };
        Ok(Some(HandlerResult::from_text(alloc, flag)?))
    }
}

/// Gives the content of the first child, which is converted by itself.
#[derive(Drop)]
pub(crate) struct FirstChild;

impl ElementHandler for FirstChild {
    ghost plan_of = { λ _ view. plan_of_first (children_of view.items view.node) };

    ghost finish_of = { λ _ _ given. Some given };

    ghost append_of = { λ _. None };

    fn append(&self, _alloc: Global) -> Result<Option<String>, AllocError> {
        Ok(None)
    }

    fn plan(&self, _alloc: Global, element: &Element) -> Result<Plan, AllocError> {
        match element.tree().children(element.node).first() {
            Some(child) => Ok(Plan::Descendant(*child)),
            None => Ok(Plan::Skip),
        }
    }

    fn finish(
        &self,
        _alloc: Global,
        _element: &Element,
        content: HandlerResult,
    ) -> Result<Option<HandlerResult>, AllocError> {
        Ok(Some(content))
    }
}

// The first child of a node, or the node itself if it has none.
fn first_child_or(tree: &Tree, node: NodeId) -> NodeId
    requires { node < length tree.now }
    ensures first { result ≡ first_or (children_of tree.now node) node }
    ensures within { result < length tree.now }
{
    match tree.children(node).first() {
        Some(child) => *child,
        None => node,
    }
}

// Where this many steps to a first child lead.
fn node_below(tree: &Tree, node: NodeId, levels: usize) -> NodeId
    requires { node < length tree.now }
    ensures { result ≡ down tree.now levels node }
{
    let mut below = node;
    for _ in 0..levels {
        below = first_child_or(tree, below);
    }
    below
}

/// Gives the content of the node that this many steps to a first child lead to, which is converted by itself.
#[derive(Drop)]
pub(crate) struct FirstBelow {
    pub(crate) levels: usize,
}

impl ElementHandler for FirstBelow {
    ghost plan_of = { λ h view. plan_of_below view.node (down view.items h.levels view.node) };

    ghost finish_of = { λ _ _ given. Some given };

    ghost append_of = { λ _. None };

    fn append(&self, _alloc: Global) -> Result<Option<String>, AllocError> {
        Ok(None)
    }

    fn plan(&self, _alloc: Global, element: &Element) -> Result<Plan, AllocError> {
        let below = node_below(element.tree(), element.node, self.levels);
        if below == element.node {
            return Ok(Plan::Skip);
        }
        Ok(Plan::Descendant(below))
    }

    fn finish(
        &self,
        _alloc: Global,
        _element: &Element,
        content: HandlerResult,
    ) -> Result<Option<HandlerResult>, AllocError> {
        Ok(Some(content))
    }
}

/// Gives what the handler before gives, if the element has the attribute `id`.
#[derive(Drop)]
pub(crate) struct NeedsId;

impl ElementHandler for NeedsId {
    ghost plan_of = { λ _ view. plan_with_id view };

    ghost finish_of = { λ _ _ given. Some given };

    ghost append_of = { λ _. None };

    fn append(&self, _alloc: Global) -> Result<Option<String>, AllocError> {
        Ok(None)
    }

    fn plan(&self, _alloc: Global, element: &Element) -> Result<Plan, AllocError> {
        match element.attribute("id") {
            Some(_) => Ok(Plan::Fallback),
            None => Ok(Plan::Skip),
        }
    }

    fn finish(
        &self,
        _alloc: Global,
        _element: &Element,
        content: HandlerResult,
    ) -> Result<Option<HandlerResult>, AllocError> {
        Ok(Some(content))
    }
}

/// Gives `T` if raw HTML is due for more attributes than these, else `F`.
#[derive(Drop)]
pub(crate) struct TellsDue {
    pub(crate) allowed: i64,
}

impl ElementHandler for TellsDue {
    ghost plan_of = { λ h view. this_result (record {
      content = if not (is_markdown_alone view.options) && is_more_than h.allowed (length (attributes_of view))
          then codes "T" else codes "F";
      markdown_translated = true;
    }) };

    ghost finish_of = { λ _ _ _. None };

    ghost append_of = { λ _. None };

    fn append(&self, _alloc: Global) -> Result<Option<String>, AllocError> {
        Ok(None)
    }

    fn plan(&self, alloc: Global, element: &Element) -> Result<Plan, AllocError> {
        let is_due = is_raw_html_due(element.options(), element, self.allowed);
        let answer = if is_due { "T" } else { "F" };
        Ok(Plan::Text(HandlerResult::from_text(alloc, answer)?))
    }

    fn finish(
        &self,
        _alloc: Global,
        _element: &Element,
        _content: HandlerResult,
    ) -> Result<Option<HandlerResult>, AllocError> {
        Ok(None)
    }
}
