//! The walk over a tree.

mod results;
mod visit;

ghost use Rattle.std.specs.Prelude.{◌≡◌, ◌<◌, ℕ, List, None, true, false, IfOk, IfSome, IsTrue, OnOk};
ghost use Rattle.std.specs.Prelude.{◌∷◌, ◌++◌, [], codes, length, string_bytes};
ghost use Rattle.std.specs.Option.{option_copied};
ghost use Rattle.htmd_nodes.specs.Items.{data_at, element_node, IsTree};
ghost use Rattle.htmd_nodes.specs.NumberedTrees.{tree_of};
ghost use Rattle.htmd_nodes.specs.Ancestors.{ancestors_of};
ghost use Rattle.htmd_lexical.specs.Attributes.{pairs_of};
ghost use Rattle.htmd_walk.specs.Handling.{IsProper, contents_of_each};
ghost use Rattle.htmd_walk.specs.Choice.{indexes, handler_at, handlers_at};
ghost use Rattle.htmd_walk.specs.OrdinaryText.{in_pre_or_code, parent_is_pre, written_text};
ghost use Rattle.htmd_walk.specs.Groups.{group_tree, children_at};
ghost use Rattle.htmd_walk.specs.Outputs.{conversion_of, context_of, empty_output};
ghost use Rattle.htmd_walk.specs.Children.{write_groups, content_alone};
ghost use Rattle.htmd_walk.specs.Elements.{content_of, contents_alone, answer_after, raw_answer};
ghost use Rattle.htmd_walk.specs.Elements.{without_handler, each_answer};
ghost use Rattle.htmd_walk.specs.Passing.{IsPassed};
ghost use Rattle.htmd_walk.specs.Spans.{spans};
ghost use Rattle.htmd_walk.specs.Rendering.{is_text, inside_of, with_result};
ghost use Rattle.htmd_walk.specs.Markdown.{markdown};
ghost use Rattle.htmd_walk.specs.ParagraphLaws.{ParagraphsReadBack};
ghost use Rattle.htmd_walk.specs.Staying.{HandlersStay};
ghost use Rattle.htmd_walk.specs.HandlerAnswers.{IsElement, handled};
ghost use Rattle.htmd_walk.specs.Views.{optional_result, output_view, answer_view, contents_view};
ghost use Rattle.htmd_walk.specs.Walking.{IsVisit, IsElementOf, shown_children, shown_occurrence, occurrence_of};
ghost use Rattle.htmd_walk.specs.Walking.{AtNode, InNode, ElementGives, NodeGives};
ghost use Rattle.htmd_walk.specs.Walking.{AlwaysGives, AreRemembered, content_below};

use crate::element_handler::code::{language_above, language_inside};
use crate::element_handler::plans::is_markdown_alone;
use crate::element_handler::registry::{Descendants, Outcome, Registry, Request};
use crate::element_handler::span::formula_mark;
use crate::element_handler::{Element, HandlerResult, Links, Plan};
use crate::group::{group_length, joined_text};
use crate::node_util::{
    is_block, is_parent_pre, is_preformatted_alone, preformatted_inside, trims_first,
};
use crate::spare_texts::SpareTexts;
use crate::text_node::{Context, append_text};
use htmd_nodes::{Attribute, NodeData, NodeId, Tree, number_of, raw_block};
use htmd_text::{
    is_block_element, trim_end_document_white_space, trim_end_line_feeds, trim_newlines,
};
use results::{
    append_copy, append_result, between_tags, copied, cut_before_child, empty_result, lent,
    passed_on, push_comment, raw_result, result_alone, text_shown, trim_after,
};
use std::alloc::{AllocError, Global};
use visit::Visit;

/// What an element gave without adding a definition: it gives the same wherever else it is reached.
#[derive(Drop)]
pub(crate) struct Remembered {
    node: NodeId,
    result: Option<HandlerResult>,
}

/// What is remembered so far, and whether more is to be.
#[derive(Drop)]
pub(crate) struct Notes {
    remembered: Vec<Remembered>,
    are_taken: bool,
}

/// A call of the handlers of an element, from the one after this many newer ones on.
#[derive(Clone, Copy)]
pub(crate) struct HandlerCall {
    pub(crate) node: NodeId,
    pub(crate) markdown_translated: bool,
    pub(crate) skipped: usize,
}

/// A walk over a tree, and what is remembered of nodes on the way.
#[derive(Drop)]
pub(crate) struct Walk<'a, R: Registry> {
    registry: &'a R,
    alloc: Global,
    tree: &'a Tree,
    remembered: &'a [Remembered],
    spare: &'a SpareTexts,
    ghost is_tree: { IsTree tree.now },
    ghost are_right: { AreRemembered (R.config registry.now) tree.now remembered.now },
}

impl<'a, R: Registry> Walk<'a, R> {
    /// A walk over a tree, by these handlers.
    pub(crate) fn new(registry: &'a R, tree: &'a Tree, spare: &'a SpareTexts) -> Self
        ensures registry { result.registry.now ≡ registry.now }
        ensures tree { result.tree.now ≡ tree.now }
    {
        let _root = tree.root();
        Walk {
            registry,
            alloc: spare.alloc,
            tree,
            remembered: &[],
            spare,
        }
    }

    /// A node that is handed over by itself. A text is then ordinary.
    fn alone(&self, node: NodeId) -> Visit<'a>
        requires { node < length self.now.tree.now }
        ensures here { IsVisit self.now.tree.now result }
        ensures node { result.node ≡ node }
        ensures joined { option_copied result.joined ≡ None }
        ensures text { is_text (data_at self.now.tree.now node) ≡ true → result.context.preformatted ≡ false }
        ensures trim { result.context.trim ≡ true }
    {
        Visit {
            node,
            joined: None,
            context: Context {
                preformatted: is_preformatted_alone(self.tree, node),
                trim: true,
            },
            pre_language: language_above(self.tree, node),
        }
    }

    /// The element that is visited, as its handlers are shown it.
    fn element<'e>(
        &'e self,
        visit: &'e Visit,
        name: &'e str,
        attrs: &'e [Attribute],
        markdown_translated: bool,
    ) -> Element<'e>
        requires visit { IsVisit self.now.tree.now visit.now }
        requires element { data_at self.now.tree.now visit.now.node ≡ element_node name.now (pairs_of attrs.now) }
        ensures here { IsElementOf (R.config self.now.registry.now).options self.now.tree.now result }
        ensures stay { HandlersStay (R.config self.now.registry.now) }
        ensures node { result.node ≡ visit.now.node }
        ensures tag { result.tag.now ≡ name.now }
        ensures occurrence { let conversion = conversion_of (R.config self.now.registry.now) self.now.tree.now in
            let shown = shown_children self.now.tree.now visit.now in
            (n : ℕ) → occurrence_of n conversion result
            ≡ shown_occurrence n conversion visit.now.node markdown_translated shown }
    {
        Element {
            node: visit.node,
            tag: name,
            attrs,
            markdown_translated,
            tree: self.tree,
            options: self.registry.options(),
            text: text_shown(self.tree, visit.node, visit.joined),
            preformatted: preformatted_inside(self.tree, visit.node, visit.context.preformatted),
            pre_language: visit.pre_language,
        }
    }

    /// What is remembered of a node, unless it stands for a group.
    fn recall(&self, node: NodeId, joined: Option<&str>) -> Option<&Remembered>
        ensures { IfSome result (λ known. (option_copied joined.entry ≡ None)
            × AlwaysGives (conversion_of (R.config self.now.registry.now) self.now.tree.now) node
            (optional_result known.now.result)) }
    {
        if joined.is_some() {
            return None;
        }
        let Ok(at) = self
            .remembered
            .binary_search_by_key(&number_of(node), |known| number_of(known.node))
        else {
            return None;
        };
        let known = &self.remembered[at];
        if known.node != node {
            return None;
        }
        Some(known)
    }

    /// Remembers what an element gives, if that added no definition.
    fn keep(
        &self,
        node: NodeId,
        given: &Option<HandlerResult>,
        adds_none: bool,
        notes: &mut Notes,
    ) -> Result<(), AllocError>
        requires right { IsTrue adds_none
            → AlwaysGives (conversion_of (R.config self.now.registry.now) self.now.tree.now) node
            (optional_result given.now) }
        requires remembered { AreRemembered (R.config self.now.registry.now) self.now.tree.now
            notes.old.remembered.items }
        ensures { OnOk result
            (AreRemembered (R.config self.now.registry.now) self.now.tree.now notes.new.remembered.items) }
    {
        if adds_none {
            let result = copied(self.alloc, given)?;
            notes.remembered.push(Remembered { node, result })?;
        }
        Ok(())
    }

    /// Whether `span` has the built-in handler alone.
    fn has_span_handler_alone(&self) -> bool
        ensures { let config = R.config self.now.registry.now in
            IsTrue result
            → handlers_at config.handlers (indexes (codes "span") config.registered) ≡ spans ∷ [] }
    {
        let Some(index) = self.registry.find("span", 0) else {
            return false;
        };
        if self.registry.find("span", 1).is_some() {
            return false;
        }
        self.registry.is_span_handler_at(index)
    }

    /// Whether the walk goes past an element without calling its handlers: unless the mode is Faithful, past a tag
    /// without registrations, and past a `span` that is no formula and has the built-in handler alone.
    fn goes_past(&self, tree: &Tree, node: NodeId) -> bool
        requires { node < length tree.now }
        ensures { IsTrue result → IsPassed (R.config self.now.registry.now) (data_at tree.now node) }
    {
        let NodeData::Element { name, attrs } = tree.data(node) else {
            return false;
        };
        if !is_markdown_alone(self.registry.options()) {
            return false;
        }
        let tag = name.as_str();
        if tag != "span" {
            return self.registry.find(tag, 0).is_none();
        }
        if !self.has_span_handler_alone() {
            return false;
        }
        formula_mark(attrs.as_slice()).is_none()
    }

    /// What the handlers of an element's tag make of it, from the one after this many newer ones on.
    #[cycle(walk)]
    pub(crate) fn handle(
        &self,
        element: &Element,
        skipped: usize,
        links: &mut Links,
    ) -> Result<Option<HandlerResult>, AllocError>
        requires ready { R.ready self.now.registry.now }
        requires here { IsElementOf (R.config self.now.registry.now).options self.now.tree.now element.now }
        ensures { ElementGives (R.config self.now.registry.now) self.now.tree.now element.now
            (λ at. answer_after skipped element.now.tag.now at links.old) (λ r. answer_view r links.new) result }
    {
        let Some(index) = self.registry.find(element.tag, skipped) else {
            return self.without_handler(element, links);
        };
        match self.registry.plan(self.alloc, index, element)? {
            // A pattern in a pattern gets no proof here.
            Request::OfPlan(plan) => match plan {
                Plan::Skip => Ok(None),
                Plan::Text(result) => Ok(Some(result)),
                Plan::RawHtml => self.raw_html(element, links),
                Plan::Children => {
                    let content = self.content(element, links)?;
                    self.registry
                        .finish(self.alloc, index, element, content, links)
                }
                Plan::Descendant(below) => {
                    let content = self.walk_descendant(element, below, links)?;
                    self.registry
                        .finish(self.alloc, index, element, content, links)
                }
                Plan::Fallback => {
                    let older = skipped + 1;
                    match self.handle(element, older, links)? {
                        None => Ok(None),
                        Some(content) => self
                            .registry
                            .finish(self.alloc, index, element, content, links),
                    }
                }
            },
            Request::Each(descendants) => self.handle_each(element, index, &descendants, links),
        }
    }

    /// What an element gives when no handler is left: its content, or its raw HTML in Faithful.
    #[cycle(walk)]
    fn without_handler(
        &self,
        element: &Element,
        links: &mut Links,
    ) -> Result<Option<HandlerResult>, AllocError>
        requires ready { R.ready self.now.registry.now }
        requires here { IsElementOf (R.config self.now.registry.now).options self.now.tree.now element.now }
        ensures { ElementGives (R.config self.now.registry.now) self.now.tree.now element.now
            (λ at. without_handler at links.old) (λ r. answer_view r links.new) result }
    {
        if is_markdown_alone(self.registry.options()) {
            return Ok(Some(self.content(element, links)?));
        }
        self.raw_html(element, links)
    }

    /// What the handler at an index makes of the contents of these nodes, for which it asked.
    #[cycle(walk)]
    fn handle_each(
        &self,
        element: &Element,
        index: usize,
        descendants: &Descendants,
        links: &mut Links,
    ) -> Result<Option<HandlerResult>, AllocError>
        requires ready { R.ready self.now.registry.now }
        requires here { IsElementOf (R.config self.now.registry.now).options self.now.tree.now element.now }
        requires index { index < length (R.config self.now.registry.now).handlers }
        requires proper { IsProper self.now.tree.now element.now.node (contents_of_each descendants.now.nodes.items) }
        ensures { ElementGives (R.config self.now.registry.now) self.now.tree.now element.now
            (λ at. each_answer (handler_at at.conversion.config.handlers index) at
            (contents_alone at descendants.now.nodes.items links.old)) (λ r. answer_view r links.new) result }
    {
        let mut notes = Notes {
            remembered: Vec::new(self.alloc),
            are_taken: descendants.may_ask_children,
        };
        let contents = self.walk_each(element, &descendants.nodes, &mut notes, links)?;
        match self
            .registry
            .finish_each(self.alloc, index, element, contents)?
        {
            Outcome::Final(result) => Ok(result),
            Outcome::ChildrenToo => {
                let knowing = Walk {
                    registry: self.registry,
                    alloc: self.alloc,
                    tree: self.tree,
                    remembered: notes.remembered.as_slice(),
                    spare: self.spare,
                };
                let content = knowing.content(element, links)?;
                self.registry
                    .finish(self.alloc, index, element, content, links)
            }
        }
    }

    /// What an element gives: what its handlers make of it, or its content if the walk goes past them.
    #[cycle(walk)]
    fn walk_element(
        &self,
        element: &Element,
        links: &mut Links,
    ) -> Result<Option<HandlerResult>, AllocError>
        requires ready { R.ready self.now.registry.now }
        requires here { IsElementOf (R.config self.now.registry.now).options self.now.tree.now element.now }
        ensures { ElementGives (R.config self.now.registry.now) self.now.tree.now element.now
            (λ at. answer_after 0 element.now.tag.now at links.old) (λ r. answer_view r links.new) result }
    {
        if !self.goes_past(self.tree, element.node) {
            return self.handle(element, 0, links);
        }
        let content = self.content(element, links)?;
        Ok(Some(passed_on(element, content)))
    }

    /// The raw HTML of an element.
    #[inline(never)]
    #[cycle(walk)]
    fn raw_html(
        &self,
        element: &Element,
        links: &mut Links,
    ) -> Result<Option<HandlerResult>, AllocError>
        requires ready { R.ready self.now.registry.now }
        requires here { IsElementOf (R.config self.now.registry.now).options self.now.tree.now element.now }
        ensures { ElementGives (R.config self.now.registry.now) self.now.tree.now element.now
            (λ at. raw_answer at links.old) (λ r. answer_view r links.new) result }
    {
        if is_block_element(element.tag) {
            return Ok(Some(raw_result(raw_block(self.alloc, self.tree, element.node)?)));
        }
        let content = self.content(element, links)?;
        let raw = between_tags(
            self.alloc,
            element.tag,
            element.attrs,
            content.content.as_str(),
        )?;
        Ok(Some(raw_result(raw)))
    }

    /// The contents of proper descendants, each converted by itself; what they give is remembered, if it may be.
    #[inline(never)]
    #[cycle(walk)]
    fn walk_each(
        &self,
        element: &Element,
        nodes: &[NodeId],
        notes: &mut Notes,
        links: &mut Links,
    ) -> Result<Vec<HandlerResult>, AllocError>
        requires ready { R.ready self.now.registry.now }
        requires here { IsElementOf (R.config self.now.registry.now).options self.now.tree.now element.now }
        requires proper { IsProper self.now.tree.now element.now.node (contents_of_each nodes.now) }
        requires remembered { AreRemembered (R.config self.now.registry.now) self.now.tree.now
            notes.old.remembered.items }
        ensures ok { ElementGives (R.config self.now.registry.now) self.now.tree.now element.now
            (λ at. contents_alone at nodes.now links.old) (λ r. contents_view r.items links.new) result }
        ensures remembered { OnOk result
            (AreRemembered (R.config self.now.registry.now) self.now.tree.now notes.new.remembered.items) }
    {
        let mut results = Vec::with_capacity(self.alloc, nodes.len())?;
        for node in nodes {
            let result = self.walk_kept(element, *node, notes, links)?;
            results.push(result)?;
        }
        Ok(results)
    }

    /// The content of an element's children, or of the one text that it shows.
    #[cycle(walk)]
    fn content(&self, element: &Element, links: &mut Links) -> Result<HandlerResult, AllocError>
        requires ready { R.ready self.now.registry.now }
        requires here { IsElementOf (R.config self.now.registry.now).options self.now.tree.now element.now }
        ensures { ElementGives (R.config self.now.registry.now) self.now.tree.now element.now
            (λ at. content_of at links.old) (λ r. output_view r links.new) result }
    {
        let mut out = empty_result(self.spare);
        if let Some(text) = element.text {
            let context = Context {
                preformatted: element.preformatted,
                trim: trims_first(self.tree, element.node, element.preformatted),
            };
            let in_pre = element.tag == "pre";
            append_text(text, in_pre, context, self.spare, &mut out.content)?;
            return Ok(out);
        }
        self.walk_children(element.node, element.preformatted, &mut out, links)?;
        Ok(out)
    }

    /// Writes the children of a node after what is written so far.
    #[cycle(walk)]
    fn walk_children(
        &self,
        node: NodeId,
        preformatted: bool,
        out: &mut HandlerResult,
        links: &mut Links,
    ) -> Result<(), AllocError>
        requires ready { R.ready self.now.registry.now }
        requires within { node < length self.now.tree.now }
        requires inside { preformatted ≡ in_pre_or_code (inside_of self.now.tree.now node) }
        ensures { OnOk result
            (InNode (conversion_of (R.config self.now.registry.now) self.now.tree.now) node
            (λ write. output_view out.new links.new ≡ write_groups write (inside_of self.now.tree.now node)
            (children_at self.now.tree.now node) (output_view out.old links.old))) }
    {
        let mut trim = trims_first(self.tree, node, preformatted);
        let mut rest = self.tree.children(node);
        let pre_language = language_inside(self.tree, node);
        while !rest.is_empty() {
            let child = rest[0];
            let (group, behind) = rest.split_at(group_length(self.tree, rest));
            let joined = joined_text(self.alloc, self.tree, group)?;
            let is_block = is_block(self.tree, child);
            cut_before_child(out, is_block);
            let before = out.content.as_str().len();
            let visit = Visit {
                node: child,
                joined: lent(&joined),
                context: Context { preformatted, trim },
                pre_language,
            };
            self.walk_node(&visit, out, links)?;
            trim = trim_after(before, out.content.as_str().len(), is_block, trim);
            rest = behind;
        }
        Ok(())
    }

    /// A proper descendant of an element, handed over by itself: the one text that it shows, if it shows one.
    #[inline(never)]
    #[cycle(walk)]
    fn walk_descendant(
        &self,
        element: &Element,
        below: NodeId,
        links: &mut Links,
    ) -> Result<HandlerResult, AllocError>
        requires ready { R.ready self.now.registry.now }
        requires behind { element.now.node < below }
        requires within { below < length self.now.tree.now }
        ensures { NodeGives (R.config self.now.registry.now) self.now.tree.now below
            (content_below (R.config self.now.registry.now) self.now.tree.now
            (option_copied element.now.text) below links.old)
            (λ r. output_view r links.new) result }
    {
        let Some(text) = element.text else {
            return self.walk_alone(below, links);
        };
        let mut out = empty_result(self.spare);
        let context = Context {
            preformatted: false,
            trim: true,
        };
        append_text(text, false, context, self.spare, &mut out.content)?;
        Ok(out)
    }

    /// The same; what an element gives is remembered, if it may be.
    #[inline(never)]
    #[cycle(walk)]
    fn walk_kept(
        &self,
        element: &Element,
        below: NodeId,
        notes: &mut Notes,
        links: &mut Links,
    ) -> Result<HandlerResult, AllocError>
        requires ready { R.ready self.now.registry.now }
        requires behind { element.now.node < below }
        requires within { below < length self.now.tree.now }
        requires remembered { AreRemembered (R.config self.now.registry.now) self.now.tree.now
            notes.old.remembered.items }
        ensures ok { NodeGives (R.config self.now.registry.now) self.now.tree.now below
            (content_below (R.config self.now.registry.now) self.now.tree.now
            (option_copied element.now.text) below links.old)
            (λ r. output_view r links.new) result }
        ensures remembered { OnOk result
            (AreRemembered (R.config self.now.registry.now) self.now.tree.now notes.new.remembered.items) }
    {
        if !notes.are_taken || element.text.is_some() {
            return self.walk_descendant(element, below, links);
        }
        let NodeData::Element { name, attrs } = self.tree.data(below) else {
            return self.walk_descendant(element, below, links);
        };
        let visit = self.alone(below);
        let child = (&*self).element(&visit, name.as_str(), attrs.as_slice(), true);
        let before = links.lines.len();
        let given = self.walk_element(&child, links)?;
        let adds_none = links.lines.len() == before;
        self.keep(below, &given, adds_none, notes)?;
        result_alone(given, visit.context.preformatted, self.spare)
    }

    /// The content of a node that is converted by itself.
    #[cycle(walk)]
    pub(crate) fn walk_alone(
        &self,
        node: NodeId,
        links: &mut Links,
    ) -> Result<HandlerResult, AllocError>
        requires ready { R.ready self.now.registry.now }
        requires within { node < length self.now.tree.now }
        ensures { NodeGives (R.config self.now.registry.now) self.now.tree.now node
            (λ write. content_alone write (conversion_of (R.config self.now.registry.now) self.now.tree.now)
            (tree_of self.now.tree.now node) node links.old) (λ r. output_view r links.new) result }
    {
        let visit = self.alone(node);
        let mut out = empty_result(self.spare);
        self.walk_node(&visit, &mut out, links)?;
        Ok(out)
    }

    /// Writes the text of a node after what is written so far.
    fn write_text(&self, visit: &Visit, text: &str, out: &mut String) -> Result<(), AllocError>
        requires { visit.now.node < length self.now.tree.now }
        ensures { let context = visit.now.context in
            let in_pre = parent_is_pre (ancestors_of self.now.tree.now visit.now.node) in
            OnOk result (string_bytes out.new ≡ string_bytes out.old
            ++ written_text context.preformatted in_pre context.trim (string_bytes out.old) text.now) }
    {
        let in_pre = is_parent_pre(self.tree, visit.node);
        append_text(text, in_pre, visit.context, self.spare, out)
    }

    /// Writes a node, or the group that begins at it, after what is written so far.
    #[cycle(walk)]
    fn walk_node(
        &self,
        visit: &Visit,
        out: &mut HandlerResult,
        links: &mut Links,
    ) -> Result<(), AllocError>
        requires ready { R.ready self.now.registry.now }
        requires here { IsVisit self.now.tree.now visit.now }
        ensures { let node = visit.now.node in
            let tree = group_tree (option_copied visit.now.joined) (tree_of self.now.tree.now node) in
            let context = visit.now.context in
            let context = context_of (ancestors_of self.now.tree.now node) context.preformatted context.trim in
            OnOk result (AtNode (conversion_of (R.config self.now.registry.now) self.now.tree.now) node (λ write.
            output_view out.new links.new ≡ write tree context (output_view out.old links.old))) }
    {
        let node = visit.node;
        let context = visit.context;
        match self.tree.data(node) {
            NodeData::Document => {
                let markdown_translated = out.markdown_translated;
                self.walk_children(node, context.preformatted, out, links)?;
                trim_end_document_white_space(&mut out.content);
                out.markdown_translated = markdown_translated;
                Ok(())
            }
            NodeData::Doctype => Ok(()),
            NodeData::Comment(text) => {
                if is_markdown_alone(self.registry.options()) {
                    return Ok(());
                }
                push_comment(&mut out.content, text.as_str())
            }
            NodeData::Text(text) => self.write_text(visit, text.as_str(), &mut out.content),
            NodeData::Element { name, attrs } => {
                if let Some(known) = self.recall(node, visit.joined) {
                    return append_copy(out, &known.result, context.preformatted, self.spare);
                }
                // In a cycle of calls the check asks that both are lent again.
                let element = (&*self).element(&*visit, name.as_str(), attrs.as_slice(), true);
                let given = self.walk_element(&element, links)?;
                append_result(out, given, context.preformatted, self.spare)
            }
        }
    }
}

/// The Markdown of a node that is converted by itself, by the handlers of this registry. `Err` means out of memory. The
/// registry and the tree are never changed.
pub fn tree_to_markdown<R: Registry>(
    registry: &R,
    alloc: Global,
    tree: &Tree,
    node: NodeId,
) -> Result<String, AllocError>
    requires ready { R.ready registry.now }
    requires within { node < length tree.now }
    ensures markdown { IfOk result (λ text. string_bytes text ≡ markdown (R.config registry.now) tree.now node) }
    ensures paragraphs { IfOk result
        (λ text. ParagraphsReadBack (R.config registry.now) tree.now node (string_bytes text)) }
{
    let spare = SpareTexts::new(alloc);
    let walk = Walk::new(registry, tree, &spare);
    let mut links = Links::new(alloc);
    let mut markdown = walk.walk_alone(node, &mut links)?.content;
    trim_newlines(&mut markdown);
    let mut appended = registry.append(alloc, &links)?;
    trim_end_line_feeds(&mut appended);
    markdown.push_str(appended.as_str())?;
    Ok(markdown)
}

/// What the handlers that are called make of an element.
pub(crate) fn handle_element<R: Registry>(
    registry: &R,
    alloc: Global,
    tree: &Tree,
    call: HandlerCall,
    links: &mut Links,
) -> Result<Option<HandlerResult>, AllocError>
    requires ready { R.ready registry.now }
    requires within { call.node < length tree.now }
    requires element { IsElement (data_at tree.now call.node) }
    ensures { let config = R.config registry.now in
        let answer = handled config tree.now call.node call.markdown_translated call.skipped links.old in
        IfOk result (λ r. answer_view r links.new ≡ answer) }
{
    let NodeData::Element { name, attrs } = tree.data(call.node) else {
        unreachable!();
    };
    let spare = SpareTexts::new(alloc);
    let walk = Walk::new(registry, tree, &spare);
    let visit = walk.alone(call.node);
    let element = walk.element(
        &visit,
        name.as_str(),
        attrs.as_slice(),
        call.markdown_translated,
    );
    walk.handle(&element, call.skipped, links)
}
