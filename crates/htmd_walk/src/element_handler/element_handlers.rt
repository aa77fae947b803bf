//! The registry of handlers.

ghost use Rattle.std.specs.Prelude.{◌≡◌, ◌+◌, ◌<◌, IfOk, IfErr, OnOk, OnErr, All, map, length, slice_get, ◌++◌};
ghost use Rattle.std.specs.Prelude.{string_bytes, IsTrue};
ghost use Rattle.htmd_nodes.specs.Tags.{tag_text};
ghost use Rattle.htmd_walk.specs.Choice.{with_handler};
ghost use Rattle.htmd_walk.specs.Handling.{of_functions, IsProper};
ghost use Rattle.htmd_walk.specs.Views.{plan_view, element_view, result_view, optional_result, optional_text};
ghost use Rattle.htmd_walk.specs.TagIndexes.{tag_index};
ghost use Rattle.htmd_walk.specs.Markdown.{append_text};
ghost use Rattle.htmd_walk.specs.RegisteredHandlers.{handler_meaning};
ghost use Rattle.htmd_walk.specs.Spans.{spans};

use super::built_in::{BuiltIn, HANDLERS_AND_TAGS};
use super::registrations::Registrations;
use super::registry::{Outcome, Registry, Request};
use super::{Element, ElementHandler, HandlerResult, Links, Plan};
use crate::dom_walker::{HandlerCall, handle_element};
use crate::options::Options;
use htmd_nodes::{NodeId, Tag, Tree};
use std::alloc::{AllocError, Global};

/// A handler, as it is registered.
#[derive(Drop)]
pub(crate) enum Handler {
    BuiltIn(BuiltIn),
    Skipping,
    Custom(Box<dyn ElementHandler>),
}

/// The handlers in order of registration. A tag's newest handler is asked first.
#[derive(Drop)]
pub struct ElementHandlers {
    pub(crate) handlers: Vec<Handler>,
    pub(crate) registered: Registrations,
    pub(crate) options: Options,
    alloc: Global,
    ghost within: { All (λ r. r.index < length handlers.items) (map tag_index registered.all.items) },
}

/// Out of memory, with the handler. The registry is as it was.
#[derive(Drop)]
pub struct HandlerRefused {
    pub handler: Box<dyn ElementHandler>,
}

/// The texts of these tags.
fn texts_of(alloc: Global, tags: &[Tag]) -> Result<Vec<&'static str>, AllocError>
    ensures { IfOk result (λ texts. map (λ t. t.now) texts.items ≡ map tag_text tags.now) }
{
    let mut texts = Vec::with_capacity(alloc, tags.len())?;
    for tag in tags {
        texts.push(tag.text())?;
    }
    Ok(texts)
}

/// What a handler of your own needs.
fn plan_of_custom(
    handler: &Box<dyn ElementHandler>,
    alloc: Global,
    element: &Element,
) -> Result<Plan, AllocError>
    ensures plan { IfOk result (λ p. plan_view p ≡ plan_of handler.now (element_view element.now)) }
    ensures proper { IfOk result (λ p. IsProper element.now.tree.now element.now.node (plan_view p)) }
{
    handler.plan(alloc, element)
}

/// What a handler of your own makes of the content that it needs.
fn finish_of_custom(
    handler: &Box<dyn ElementHandler>,
    alloc: Global,
    element: &Element,
    content: HandlerResult,
) -> Result<Option<HandlerResult>, AllocError>
    ensures { IfOk result
        (λ r. optional_result r ≡ finish_of handler.now (element_view element.now) (result_view content)) }
{
    handler.finish(alloc, element, content)
}

/// What a handler of your own puts after a conversion.
fn append_of_custom(
    handler: &Box<dyn ElementHandler>,
    alloc: Global,
) -> Result<Option<String>, AllocError>
    ensures { IfOk result (λ r. optional_text r ≡ append_of handler.now) }
{
    handler.append(alloc)
}

/// Whether it is the built-in handler of `span`.
fn is_span_handler(handler: &Handler) -> bool
    ensures { let meaning = handler_meaning (λ b. of_functions (plan_of b) (finish_of b) (append_of b)) handler.now in
        IsTrue result → meaning ≡ spans }
{
    match handler {
        Handler::BuiltIn(handler) => matches!(handler, BuiltIn::Span),
        _ => false,
    }
}

/// Appends to a text what a handler puts after a conversion.
fn push_appended(
    handler: &Handler,
    alloc: Global,
    links: &Links,
    out: &mut String,
) -> Result<(), AllocError>
    ensures { let meaning = handler_meaning (λ b. of_functions (plan_of b) (finish_of b) (append_of b)) handler.now in
        OnOk result (string_bytes out.new ≡ string_bytes out.old ++ append_text (meaning.append links.now)) }
{
    match handler {
        Handler::BuiltIn(handler) => handler.push_appended(links, out),
        Handler::Skipping => Ok(()),
        Handler::Custom(handler) => {
            if let Some(text) = append_of_custom(handler, alloc)? {
                out.push_str(text.as_str())?;
            }
            Ok(())
        }
    }
}

impl ElementHandlers {
    ghost use Rattle.htmd_walk.specs.Choice.{indexes, no_handler};
    ghost use Rattle.htmd_walk.specs.BuiltIn.{built_in, meaning_of, with_rows, row_of};

    /// The built-in handlers, with these options. `Err` means out of memory.
    pub fn new(alloc: Global, options: Options) -> Result<ElementHandlers, AllocError>
        ensures { let config = ⟦<ElementHandlers as Registry>⟧.config in
            IfOk result (λ handlers. config handlers ≡ built_in options) }
    {
        ElementHandlers::beside(alloc, options, Vec::new(alloc))
    }

    /// The same, for a crate that passes the registry on: beside handlers of its own, of which there are none. A value
    /// that may hold such handlers is passed on only by a call that was given some, so that none can hide in it.
    pub fn beside(
        alloc: Global,
        options: Options,
        own: Vec<Box<dyn ElementHandler>>,
    ) -> Result<ElementHandlers, AllocError>
        requires none { length own.items ≡ 0 }
        ensures { let config = ⟦<ElementHandlers as Registry>⟧.config in
            IfOk result (λ handlers. config handlers ≡ built_in options) }
    {
        drop(own);
        let mut handlers = ElementHandlers {
            handlers: Vec::new(alloc),
            registered: Registrations::new(alloc),
            options,
            alloc,
        };
        handlers.add_rows(HANDLERS_AND_TAGS)?;
        Ok(handlers)
    }

    /// Registers these handlers in order, each for its tags.
    fn add_rows(&mut self, rows: &[(BuiltIn, &[Tag])]) -> Result<(), AllocError>
        ensures { let config = ⟦<ElementHandlers as Registry>⟧.config in
            OnOk result (config self.new ≡ with_rows (map row_of rows.now) (config self.old)) }
    {
        for (handler, tags) in rows {
            self.add_built_in(tags, *handler)?;
        }
        Ok(())
    }

    /// Calls a built-in handler first for these tags from now on.
    fn add_built_in(&mut self, tags: &[Tag], handler: BuiltIn) -> Result<(), AllocError>
        ensures ok { let config = ⟦<ElementHandlers as Registry>⟧.config in
            OnOk result (config self.new
            ≡ with_handler (config self.old) (map tag_text tags.now) (meaning_of handler)) }
        ensures err { let config = ⟦<ElementHandlers as Registry>⟧.config in
            OnErr result (config self.new ≡ config self.old) }
    {
        let texts = texts_of(self.alloc, tags)?;
        self.handlers.reserve(1)?;
        self.registered
            .add(self.alloc, texts.as_slice(), self.handlers.len())?;
        self.handlers.push(Handler::BuiltIn(handler))?;
        Ok(())
    }

    /// Passes over the elements of these tags from now on. `Err` means out of memory.
    pub(crate) fn skip_tags(&mut self, tags: &[&str]) -> Result<(), AllocError>
        ensures ok { let config = ⟦<ElementHandlers as Registry>⟧.config in
            OnOk result (config self.new ≡ with_handler (config self.old) (map (λ t. t.now) tags.now) no_handler) }
        ensures err { let config = ⟦<ElementHandlers as Registry>⟧.config in
            OnErr result (config self.new ≡ config self.old) }
    {
        self.handlers.reserve(1)?;
        self.registered.add(self.alloc, tags, self.handlers.len())?;
        self.handlers.push(Handler::Skipping)?;
        Ok(())
    }

    /// Calls a handler first for these tags from now on; a tag that is named twice is registered twice. `Err` means out
    /// of memory and hands the handler back.
    pub fn add_handler(
        &mut self,
        tags: &[&str],
        handler: Box<dyn ElementHandler>,
    ) -> Result<(), HandlerRefused>
        requires tags { 0 < length tags.now }
        ensures ok { let config = ⟦<ElementHandlers as Registry>⟧.config in
            OnOk result (config self.new ≡ with_handler (config self.old) (map (λ t. t.now) tags.now)
            (of_functions (plan_of handler) (finish_of handler) (append_of handler))) }
        ensures handler { IfErr result (λ refused. refused.handler ≡ handler) }
        ensures err { let config = ⟦<ElementHandlers as Registry>⟧.config in
            OnErr result (config self.new ≡ config self.old) }
    {
        if self.handlers.reserve(1).is_err() {
            return Err(HandlerRefused { handler });
        }
        let index = self.handlers.len();
        if self.registered.add(self.alloc, tags, index).is_err() {
            return Err(HandlerRefused { handler });
        }
        match self.handlers.push(Handler::Custom(handler)) {
            Ok(()) => Ok(()),
            Err(_) => unreachable!(),
        }
    }

    /// The index, in order of registration from 0, of the handler that is called for a tag after this many newer ones.
    pub fn find_handler(&self, tag: &str, skipped: usize) -> Option<usize>
        ensures { let config = ⟦<ElementHandlers as Registry>⟧.config self.now in
            result ≡ slice_get (indexes tag.now config.registered) skipped }
    {
        self.find(tag, skipped)
    }
}

impl ElementHandlers {
    ghost use Rattle.htmd_nodes.specs.Items.{data_at};
    ghost use Rattle.htmd_walk.specs.HandlerAnswers.{IsElement, handled};
    ghost use Rattle.htmd_walk.specs.Views.{answer_view};

    /// What the handlers of an element's tag make of it, from the one after this many newer ones on: a result or
    /// nothing. The definitions that they add are at the end of the links. `Err` means out of memory; the links are
    /// then as they were. The walk goes over a copy of them.
    pub fn handle(
        &self,
        alloc: Global,
        tree: &Tree,
        node: NodeId,
        markdown_translated: bool,
        skipped_handlers: usize,
        links: &mut Links,
    ) -> Result<Option<HandlerResult>, AllocError>
        requires within { node < length tree.now }
        requires element { IsElement (data_at tree.now node) }
        ensures ok { let config = ⟦<ElementHandlers as Registry>⟧.config self.now in
            let answer = handled config tree.now node markdown_translated skipped_handlers links.old in
            IfOk result (λ r. answer_view r links.new ≡ answer) }
        ensures err { OnErr result (links.new ≡ links.old) }
    {
        let mut walked = links.copied(alloc)?;
        let call = HandlerCall {
            node,
            markdown_translated,
            skipped: skipped_handlers,
        };
        let result = handle_element(self, alloc, tree, call, &mut walked)?;
        *links = walked;
        Ok(result)
    }
}

impl ElementHandlers {
    ghost use Rattle.htmd_walk.specs.Choice.{with_options};

    /// The same handlers with other options.
    pub(crate) fn set_options(&mut self, options: Options)
        ensures { let config = ⟦<ElementHandlers as Registry>⟧.config in
            config self.new ≡ with_options (config self.old) options }
    {
        self.options = options;
    }
}

impl Registry for ElementHandlers {
    ghost use Rattle.htmd_walk.specs.Registries.{config_of};

    ghost config = { config_of (λ b. of_functions ((ElementHandler-box b).plan_of b.value)
        ((ElementHandler-box b).finish_of b.value) ((ElementHandler-box b).append_of b.value)) };

    ghost ready = { λ _. Unit {0} };

    fn options(&self) -> &Options {
        &self.options
    }

    fn find(&self, tag: &str, skipped: usize) -> Option<usize> {
        self.registered.find(tag, skipped)
    }

    fn is_span_handler_at(&self, index: usize) -> bool {
        is_span_handler(&self.handlers[index])
    }

    fn plan(&self, alloc: Global, index: usize, element: &Element) -> Result<Request, AllocError> {
        match &self.handlers[index] {
            Handler::BuiltIn(handler) => handler.plan(alloc, element),
            Handler::Skipping => Ok(Request::OfPlan(Plan::Skip)),
            Handler::Custom(handler) => {
                Ok(Request::OfPlan(plan_of_custom(handler, alloc, element)?))
            }
        }
    }

    fn finish(
        &self,
        alloc: Global,
        index: usize,
        element: &Element,
        content: HandlerResult,
        links: &mut Links,
    ) -> Result<Option<HandlerResult>, AllocError> {
        match &self.handlers[index] {
            Handler::BuiltIn(handler) => handler.finish(alloc, element, content, links),
            Handler::Skipping => Ok(None),
            Handler::Custom(handler) => finish_of_custom(handler, alloc, element, content),
        }
    }

    fn finish_each(
        &self,
        alloc: Global,
        index: usize,
        element: &Element,
        contents: Vec<HandlerResult>,
    ) -> Result<Outcome, AllocError> {
        match &self.handlers[index] {
            Handler::BuiltIn(handler) => handler.finish_each(alloc, element, contents),
            Handler::Skipping => Ok(Outcome::Final(None)),
            Handler::Custom(_) => Ok(Outcome::Final(None)),
        }
    }

    fn append(&self, alloc: Global, links: &Links) -> Result<String, AllocError> {
        let mut all = String::new(alloc);
        for handler in &self.handlers {
            push_appended(handler, alloc, links, &mut all)?;
        }
        Ok(all)
    }
}
