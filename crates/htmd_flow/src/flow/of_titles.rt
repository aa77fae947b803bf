//! Elements of rich documents with titles: `details` and figures; and titles elsewhere.
#![tactic(auto, using(crate::proofs::NodesLemmas::content_lower, crate::proofs::LevelsLemmas::highest_steps))]

ghost use Rattle.std.specs.Prelude.{◌≡◌, false, IfOk, OnOk};
ghost use Rattle.htmd_document.specs.DocumentViews.{blocks_of};
ghost use Rattle.htmd_lexical.specs.Attributes.{pairs_of};
ghost use Rattle.htmd_shown.specs.SimpleViews.{simple_of, simples_of};
ghost use Rattle.htmd_flow.specs.Contexts as contexts;
ghost use Rattle.htmd_flow.specs.Flows as spec;
ghost use Rattle.htmd_flow.specs.FlowViews as views;
ghost use Rattle.htmd_flow.specs.ParagraphViews.{writing_in};
ghost use Rattle.htmd_flow.specs.Paragraphs.{fed_all};

use crate::around::Around;
use crate::blocks::{open_attribute, push_element};
use crate::flow::{Element, Flow};
use crate::paragraphs::Paragraphs;
use crate::place::{Place, is_title_unlinked};
use crate::titles::{before_title_len, is_title_of, show_title};
use htmd_document::{Block, BlockElement};
use htmd_shown::{Simple, content_of, is_title};
use std::alloc::AllocError;

impl Flow {
    /// A `details`: an element where blocks can be elements, else its content.
    #[cycle(flow)]
    pub(crate) fn details<'t>(
        &self,
        element: &Element<'_, 't>,
        place: &Place<'t>,
        around: &mut Vec<Around>,
        out: &mut Paragraphs,
    ) -> Result<(), AllocError>
        ensures out { OnOk result (writing_in out.new ≡ fed_all (writing_in out.old)
            (spec.details_parts (pairs_of element.now.attrs.now) (views.nodes_at element.now.content.now)
            (views.context_in place.now around.old.items))) }
        ensures around { OnOk result (around.new.items ≡ around.old.items) }
    {
        if !place.has_elements() {
            return self.apart(element.content, place, around, out);
        }
        out.edge()?;
        let attributes = open_attribute(self.alloc, element.attrs)?;
        let content = self.titled_blocks(BlockElement::Summary, element.content, place, around)?;
        push_element(out, BlockElement::Details, attributes, content)?;
        out.edge()
    }

    /// A figure: an element where blocks can be elements and its caption shows something, else its content.
    #[cycle(flow)]
    pub(crate) fn figure<'t>(
        &self,
        element: &Element<'_, 't>,
        place: &Place<'t>,
        around: &mut Vec<Around>,
        out: &mut Paragraphs,
    ) -> Result<(), AllocError>
        ensures out { OnOk result (writing_in out.new ≡ fed_all (writing_in out.old)
            (spec.figure_at (views.element_in element.now) (views.context_in place.now around.old.items))) }
        ensures around { OnOk result (around.new.items ≡ around.old.items) }
    {
        let inner = place.beside_code(element.facts.pres, element.attrs);
        if !inner.has_elements() {
            return self.apart(element.content, &inner, around, out);
        }
        out.edge()?;
        self.captioned(element.content, &inner, around, out)?;
        out.edge()
    }

    /// What a figure gives where blocks can be elements.
    #[cycle(flow)]
    fn captioned<'t>(
        &self,
        nodes: &[Simple<'t>],
        place: &Place<'t>,
        around: &mut Vec<Around>,
        out: &mut Paragraphs,
    ) -> Result<(), AllocError>
        ensures out { OnOk result (writing_in out.new ≡ fed_all (writing_in out.old)
            (spec.captioned (views.nodes_at nodes.now) (views.context_in place.now around.old.items))) }
        ensures around { OnOk result (around.new.items ≡ around.old.items) }
    {
        if !show_title(BlockElement::FigureCaption, nodes) {
            return self.titled(BlockElement::FigureCaption, nodes, place, around, out);
        }
        let content = self.titled_blocks(BlockElement::FigureCaption, nodes, place, around)?;
        push_element(out, BlockElement::Figure, Vec::new(self.alloc), content)
    }

    /// The blocks of nodes whose titles are elements.
    #[cycle(flow)]
    fn titled_blocks<'t>(
        &self,
        title: BlockElement,
        nodes: &[Simple<'t>],
        place: &Place<'t>,
        around: &mut Vec<Around>,
    ) -> Result<Vec<Block>, AllocError>
        ensures blocks { IfOk result (λ blocks. blocks_of blocks.items ≡ spec.blocks_of false
            (spec.titled title (views.nodes_at nodes.now) (views.context_in place.now around.old.items))) }
        ensures around { OnOk result (around.new.items ≡ around.old.items) }
    {
        let mut content = Paragraphs::new(self.alloc, false, false);
        self.titled(title, nodes, place, around, &mut content)?;
        content.finish()
    }

    /// What nodes give whose titles are elements.
    #[cycle(flow)]
    fn titled<'t>(
        &self,
        title: BlockElement,
        nodes: &[Simple<'t>],
        place: &Place<'t>,
        around: &mut Vec<Around>,
        out: &mut Paragraphs,
    ) -> Result<(), AllocError>
        ensures out { OnOk result (writing_in out.new ≡ fed_all (writing_in out.old)
            (spec.titled title (views.nodes_at nodes.now) (views.context_in place.now around.old.items))) }
        ensures around { OnOk result (around.new.items ≡ around.old.items) }
    {
        let mut at = 0;
        while at < nodes.len() {
            let node = &nodes[at];
            if is_title_of(title, node) {
                self.title_element(title, node, place, around, out)?;
                at += 1;
                continue;
            }
            let len = before_title_len(title, &nodes[at..]);
            self.among(&nodes[at..at + len], place, around, out)?;
            at += len;
        }
        Ok(())
    }

    /// A title as an element, if something is in it.
    #[cycle(flow)]
    fn title_element<'t>(
        &self,
        title: BlockElement,
        node: &Simple<'t>,
        place: &Place<'t>,
        around: &mut Vec<Around>,
        out: &mut Paragraphs,
    ) -> Result<(), AllocError>
        ensures out { OnOk result (writing_in out.new ≡ fed_all (writing_in out.old)
            (spec.title_element title (views.node_at node.now) (views.context_in place.now around.old.items))) }
        ensures around { OnOk result (around.new.items ≡ around.old.items) }
    {
        out.edge()?;
        let content = self.blocks_within(node, place, around)?;
        push_element(out, title, Vec::new(self.alloc), content)?;
        out.edge()
    }

    /// The blocks of what is in a node, which may be a title.
    #[cycle(flow)]
    pub(crate) fn blocks_within<'t>(
        &self,
        node: &Simple<'t>,
        place: &Place<'t>,
        around: &mut Vec<Around>,
    ) -> Result<Vec<Block>, AllocError>
        ensures blocks { IfOk result (λ blocks. blocks_of blocks.items
            ≡ spec.blocks_within (views.node_at node.now) (views.context_in place.now around.old.items)) }
        ensures around { OnOk result (around.new.items ≡ around.old.items) }
    {
        let mut content = Paragraphs::new(self.alloc, false, false);
        self.within(node, place, around, &mut content)?;
        content.finish()
    }

    /// What is in a node gives, which may be a title.
    #[cycle(flow)]
    pub(crate) fn within<'t>(
        &self,
        node: &Simple<'t>,
        place: &Place<'t>,
        around: &mut Vec<Around>,
        out: &mut Paragraphs,
    ) -> Result<(), AllocError>
        ensures out { OnOk result (writing_in out.new ≡ fed_all (writing_in out.old)
            (spec.within (views.node_at node.now) (views.context_in place.now around.old.items))) }
        ensures around { OnOk result (around.new.items ≡ around.old.items) }
    {
        if is_title(node) {
            return self.title_content(content_of(node), place, around, out);
        }
        self.among(content_of(node), place, around, out)
    }

    /// What is in a title gives: a usual sign isn't linked to a part of the page.
    #[cycle(flow)]
    fn title_content<'t>(
        &self,
        nodes: &[Simple<'t>],
        place: &Place<'t>,
        around: &mut Vec<Around>,
        out: &mut Paragraphs,
    ) -> Result<(), AllocError>
        ensures out { OnOk result (writing_in out.new ≡ fed_all (writing_in out.old)
            (spec.flow_all (views.nodes_at nodes.now)
            (spec.around_title (simples_of nodes.now) (views.context_in place.now around.old.items)))) }
        ensures around { OnOk result (around.new.items ≡ around.old.items) }
    {
        if is_title_unlinked(nodes, place, around) {
            return self.unlinked(nodes, place, around, out);
        }
        self.among(nodes, place, around, out)
    }

    /// A title that stands in nothing that it heads, as a block.
    #[cycle(flow)]
    pub(crate) fn title<'t>(
        &self,
        nodes: &[Simple<'t>],
        place: &Place<'t>,
        around: &mut Vec<Around>,
        out: &mut Paragraphs,
    ) -> Result<(), AllocError>
        ensures out { OnOk result (writing_in out.new ≡ fed_all (writing_in out.old)
            (contexts.apart (spec.flow_all (views.nodes_at nodes.now)
            (spec.around_title (simples_of nodes.now) (views.context_in place.now around.old.items))))) }
        ensures around { OnOk result (around.new.items ≡ around.old.items) }
    {
        out.edge()?;
        self.title_content(nodes, place, around, out)?;
        out.edge()
    }
}
