//! What a walk depends on: the handlers, as a registry has them.

ghost use Rattle.std.specs.Prelude.{◌≡◌, ◌+◌, ◌^◌, ◌<◌, IfOk, IfSome, IsTrue};
ghost use Rattle.std.specs.Prelude.{length, slice_get, string_bytes};
ghost use Rattle.htmd_walk.specs.Handling.{IsProper};
ghost use Rattle.htmd_walk.specs.Choice.{Config, handler_at, indexes};
ghost use Rattle.htmd_walk.specs.Elements.{finish_answer};
ghost use Rattle.htmd_walk.specs.Markdown.{append_texts};
ghost use Rattle.htmd_walk.specs.Spans.{spans};
ghost use Rattle.htmd_walk.specs.Staying.{HandlersStay};
ghost use Rattle.htmd_walk.specs.Views.{result_view, results_view, answer_view, element_view};
ghost use Rattle.htmd_walk.specs.Walking.{request_view, outcome_view};

use super::{Element, HandlerResult, Links, Plan};
use crate::options::Options;
use htmd_nodes::NodeId;
use std::alloc::{AllocError, Global};

/// What a handler needs; a built-in one may need more.
#[derive(Drop)]
pub enum Request {
    OfPlan(Plan),
    Each(Descendants),
}

/// Each of these nodes by itself, in order; the children's content may be needed afterwards.
#[derive(Drop)]
pub struct Descendants {
    pub(crate) nodes: Vec<NodeId>,
    pub(crate) may_ask_children: bool,
}

/// What a handler makes of the contents of nodes.
#[derive(Drop)]
pub enum Outcome {
    Final(Option<HandlerResult>),
    /// The children's content is needed too, and then finished.
    ChildrenToo,
}

/// The handlers of a walk: the trait bound for code that takes a converter with any handlers. Only the types of this
/// crate implement it: a handler of your own is an `ElementHandler` or an `FnHandler`.
pub trait Registry {
    /// The options, the handlers and the tags that they are registered for.
    ghost config: { Self → Config };

    /// What is handed in keeps its interface.
    ghost ready: { Self → Type 0 };

    /// The options. What a handler makes of a content without adding a definition doesn't depend on those so far.
    fn options(&self) -> &Options
        ensures value { result.now ≡ (config self.now).options }
        ensures stay { HandlersStay (config self.now) };

    /// The index of the handler that is called for a tag after this many newer ones.
    fn find(&self, tag: &str, skipped: usize) -> Option<usize>
        ensures value { result ≡ slice_get (indexes tag.now (config self.now).registered) skipped }
        ensures few { IfSome result (λ _. skipped < length (config self.now).registered) }
        ensures fits { IfSome result (λ _. skipped + 1 < 2 ^ 64) }
        ensures within { IfSome result (λ index. index < length (config self.now).handlers) };

    /// Whether the handler at an index is the built-in one of `span`.
    fn is_span_handler_at(&self, index: usize) -> bool
        requires { index < length (config self.now).handlers }
        ensures { IsTrue result → handler_at (config self.now).handlers index ≡ spans };

    /// What the handler at an index needs. `Err` means out of memory.
    fn plan(&self, alloc: Global, index: usize, element: &Element) -> Result<Request, AllocError>
        requires within { index < length (config self.now).handlers }
        requires ready { ready self.now }
        ensures plan { IfOk result (λ p. request_view p
            ≡ (handler_at (config self.now).handlers index).plan (element_view element.now)) }
        ensures proper { IfOk result (λ p. IsProper element.now.tree.now element.now.node (request_view p)) };

    /// What the handler at an index makes of the content that it needs. `Err` means out of memory.
    fn finish(
        &self,
        alloc: Global,
        index: usize,
        element: &Element,
        content: HandlerResult,
        links: &mut Links,
    ) -> Result<Option<HandlerResult>, AllocError>
        requires within { index < length (config self.now).handlers }
        requires ready { ready self.now }
        ensures { let handler = handler_at (config self.now).handlers index in
            IfOk result (λ r. answer_view r links.new
            ≡ finish_answer (handler.finish (element_view element.now) (result_view content) links.old) links.old) };

    /// What the handler at an index makes of the contents of the nodes that it needs. `Err` means out of memory.
    fn finish_each(
        &self,
        alloc: Global,
        index: usize,
        element: &Element,
        contents: Vec<HandlerResult>,
    ) -> Result<Outcome, AllocError>
        requires within { index < length (config self.now).handlers }
        requires ready { ready self.now }
        ensures { IfOk result (λ outcome. outcome_view outcome
            ≡ (handler_at (config self.now).handlers index).finish_each (element_view element.now)
            (results_view contents.items)) };

    /// What the handlers put after a conversion with these links, in order of registration. `Err` means out of memory.
    fn append(&self, alloc: Global, links: &Links) -> Result<String, AllocError>
        requires ready { ready self.now }
        ensures { IfOk result (λ text. string_bytes text ≡ append_texts (config self.now).handlers links.now) };
}
