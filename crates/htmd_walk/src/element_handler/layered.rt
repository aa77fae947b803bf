//! A layer over a registry.

ghost use Rattle.std.specs.Prelude.{◌≡◌, ◌<◌, length};
ghost use Rattle.htmd_walk.specs.Layers.{put_at};

use super::fn_handler::Answering;
use super::registrar::Registrar;
use super::registry::{Outcome, Registry, Request};
use super::{Element, HandlerResult, Links};
use crate::options::Options;
use std::alloc::{AllocError, Global};

/// A registry in which a handler that isn't boxed answers in place of one that gives nothing.
#[derive(Drop)]
pub struct Layered<R, H> {
    rest: R,
    index: usize,
    handler: H,
}

impl<R: Registry, H: Answering> Layered<R, H> {
    /// The registry, with this handler in place of the one at this index.
    pub fn new(rest: R, index: usize, handler: H) -> Self
        ensures config { let config = ⟦<Layered<R, H> as Registry>⟧.config in
            config result ≡ put_at (R.config rest) index (H.plan_named handler) (H.finish_named handler) }
        ensures ready { let ready = ⟦<Layered<R, H> as Registry>⟧.ready in
            R.ready rest → H.keeps handler → index < length (R.config rest).handlers → ready result }
    {
        Layered {
            rest,
            index,
            handler,
        }
    }
}

impl<R: Registry, H: Answering> Registry for Layered<R, H> {
    ghost config = { λ l. put_at (R.config l.rest) l.index (H.plan_named l.handler) (H.finish_named l.handler) };

    ghost ready = { λ l. R.ready l.rest × H.keeps l.handler × (l.index < length (R.config l.rest).handlers) };

    fn options(&self) -> &Options {
        self.rest.options()
    }

    fn find(&self, tag: &str, skipped: usize) -> Option<usize> {
        self.rest.find(tag, skipped)
    }

    fn is_span_handler_at(&self, index: usize) -> bool {
        index != self.index && self.rest.is_span_handler_at(index)
    }

    fn plan(&self, alloc: Global, index: usize, element: &Element) -> Result<Request, AllocError> {
        if index == self.index {
            return Ok(Request::OfPlan(self.handler.plan(alloc, element)?));
        }
        self.rest.plan(alloc, index, element)
    }

    fn finish(
        &self,
        alloc: Global,
        index: usize,
        element: &Element,
        content: HandlerResult,
        links: &mut Links,
    ) -> Result<Option<HandlerResult>, AllocError> {
        if index == self.index {
            return self.handler.finish(alloc, element, content);
        }
        self.rest.finish(alloc, index, element, content, links)
    }

    fn finish_each(
        &self,
        alloc: Global,
        index: usize,
        element: &Element,
        contents: Vec<HandlerResult>,
    ) -> Result<Outcome, AllocError> {
        if index == self.index {
            return Ok(Outcome::Final(None));
        }
        self.rest.finish_each(alloc, index, element, contents)
    }

    fn append(&self, alloc: Global, links: &Links) -> Result<String, AllocError> {
        self.rest.append(alloc, links)
    }
}

impl<R: Registrar, H: Answering> Registrar for Layered<R, H> {
    fn take_options(&mut self, options: Options) {
        self.rest.take_options(options);
    }

    fn take_skipping(&mut self, tags: &[&str]) -> Result<usize, AllocError> {
        self.rest.take_skipping(tags)
    }
}
