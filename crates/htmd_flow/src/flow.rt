//! What nodes give: leaves with what is around each, edges of blocks, and blocks, in order.
#![tactic(auto, using(crate::proofs::NodesLemmas::content_lower, crate::proofs::LevelsLemmas::highest_steps))]

mod of_descriptions;
mod of_lists;
mod of_rich_tables;
mod of_tables;
mod of_titles;

ghost use Rattle.std.specs.Prelude.{◌≡◌, IfOk, OnOk};
ghost use Rattle.htmd_document.specs.DocumentViews.{blocks_of, inlines_of};
ghost use Rattle.htmd_shown.specs.SimpleViews.{simples_of};
ghost use Rattle.htmd_flow.specs.Contexts as contexts;
ghost use Rattle.htmd_flow.specs.Flows as spec;
ghost use Rattle.htmd_flow.specs.FlowViews as views;
ghost use Rattle.htmd_flow.specs.ParagraphViews.{writing_in};
ghost use Rattle.htmd_flow.specs.Paragraphs.{fed_all};

use crate::around::Around;
use crate::blocks::{push_heading, push_quote};
use crate::items::row_len;
use crate::leaves::{push_box, push_embedded, push_formula, push_image, push_verbatim};
use crate::paragraphs::Paragraphs;
use crate::place::{
    Place, is_unlinked, new_abbreviation, new_element, new_format, new_link, put_back, take_link,
};
use htmd_document::{Block, Inline};
use htmd_nodes::{Attribute, NodeId};
use htmd_shown::attributes::number_at;
use htmd_shown::{Facts, Role, Simple, is_item};
use std::alloc::{AllocError, Global};

/// The blocks of nodes in a document that is rich or not. `Err` means out of memory.
pub fn document_of(alloc: Global, is_rich: bool, trees: &[Simple]) -> Result<Vec<Block>, AllocError>
    ensures { IfOk result (λ blocks. blocks_of blocks.items ≡ spec.document_of is_rich (simples_of trees.now)) }
{
    let flow = Flow { alloc };
    let mut around = Vec::new(alloc);
    let mut out = Paragraphs::new(alloc, false, false);
    flow.among(trees, &Place::bare(is_rich), &mut around, &mut out)?;
    out.finish()
}

/// Whether a table of this content is one of rows and columns. `Err` means out of memory.
pub fn is_grid(alloc: Global, content: &[Simple]) -> Result<bool, AllocError>
    ensures { IfOk result (λ b. b ≡ spec.is_grid_of (simples_of content.now)) }
{
    let flow = Flow { alloc };
    flow.is_grid(content)
}

/// What gives the parts of a document.
#[derive(Clone, Copy)]
struct Flow {
    alloc: Global,
}

/// An element.
#[derive(Clone, Copy)]
struct Element<'a, 't> {
    node: NodeId,
    facts: Facts,
    attrs: &'t [Attribute],
    content: &'a [Simple<'t>],
}

impl Flow {
    // ---- nodes

    /// What a node gives.
    #[cycle(flow)]
    fn whole<'t>(
        &self,
        node: &Simple<'t>,
        place: &Place<'t>,
        around: &mut Vec<Around>,
        out: &mut Paragraphs,
    ) -> Result<(), AllocError>
        ensures out { OnOk result (writing_in out.new ≡ fed_all (writing_in out.old)
            ((views.node_at node.now).whole (views.context_in place.now around.old.items))) }
        ensures around { OnOk result (around.new.items ≡ around.old.items) }
    {
        match node {
            Simple::Text(text) => out.text(text, around, place.is_code),
            Simple::Image { address, attrs } => {
                push_image(self.alloc, *address, attrs, place, around, out)
            }
            Simple::Formula { tex, is_alone, .. } => {
                push_formula(self.alloc, tex.as_str(), *is_alone, place, around, out)
            }
            Simple::Embedded(found) => push_embedded(self.alloc, found, place, around, out),
            Simple::Anchor(id) => out.anchor(id.as_str()),
            Simple::Element {
                node,
                role,
                facts,
                attrs,
                content,
            } => {
                let element = Element {
                    node: *node,
                    facts: *facts,
                    attrs: *attrs,
                    content: content.as_slice(),
                };
                self.element(*role, &element, place, around, out)
            }
        }
    }

    /// What an element gives, by its role.
    #[cycle(flow)]
    fn element<'t>(
        &self,
        role: Role,
        element: &Element<'_, 't>,
        place: &Place<'t>,
        around: &mut Vec<Around>,
        out: &mut Paragraphs,
    ) -> Result<(), AllocError>
        ensures out { OnOk result (writing_in out.new ≡ fed_all (writing_in out.old)
            (spec.parts_of role (views.element_in element.now) (views.context_in place.now around.old.items))) }
        ensures around { OnOk result (around.new.items ≡ around.old.items) }
    {
        let content = element.content;
        match role {
            Role::Plain => self.among(content, place, around, out),
            Role::Target => self.among(content, place, around, out),
            Role::Format(format) => {
                let format = new_format(around, format);
                self.inside(content, format, place, around, out)
            }
            Role::Element(kind) => {
                let kind = new_element(around, kind);
                self.inside(content, kind, place, around, out)
            }
            Role::Abbreviation => {
                let title = new_abbreviation(self.alloc, element.attrs, around)?;
                self.inside(content, title, place, around, out)
            }
            Role::Link => {
                let link = new_link(self.alloc, element.node, element.attrs, around)?;
                self.inside(content, link, place, around, out)
            }
            Role::Unlinked => self.unlinked(content, place, around, out),
            Role::Code => self.among(content, &place.in_code(), around, out),
            Role::Typed => self.among(content, &place.in_code(), around, out),
            Role::Apart => self.between(" ", content, place, around, out),
            Role::LineBreak => {
                out.line_break();
                Ok(())
            }
            Role::Input => {
                push_box(element.attrs, out)?;
                self.among(content, place, around, out)
            }
            Role::Anchors => self.anchors(content, place, around, out),
            _ => self.block(role, element, place, around, out),
        }
    }

    /// What a block gives, by its role.
    #[cycle(flow)]
    fn block<'t>(
        &self,
        role: Role,
        element: &Element<'_, 't>,
        place: &Place<'t>,
        around: &mut Vec<Around>,
        out: &mut Paragraphs,
    ) -> Result<(), AllocError>
        ensures out { OnOk result (writing_in out.new ≡ fed_all (writing_in out.old)
            (spec.block_parts role (views.element_in element.now)
            (views.context_in place.now around.old.items))) }
        ensures around { OnOk result (around.new.items ≡ around.old.items) }
    {
        let content = element.content;
        match role {
            Role::Heading(level) => {
                self.heading(level, element.facts, content, place, around, out)
            }
            Role::Preformatted => {
                push_verbatim(self.alloc, element.attrs, content, place, around, out)
            }
            Role::Verbatim => {
                push_verbatim(self.alloc, element.attrs, content, place, around, out)
            }
            Role::BlockQuote => self.quote(content, place, around, out),
            Role::ThematicBreak => out.block(Block::ThematicBreak),
            Role::BulletList => self.list(content, None, place, around, out),
            Role::NumberedList => {
                let start = number_at(element.attrs, "start").unwrap_or(1);
                self.list(content, Some(start), place, around, out)
            }
            Role::Terms => self.terms_at(content, place, around, out),
            Role::Table => self.table_at(element, place, around, out),
            Role::Details => self.details(element, place, around, out),
            Role::Figure => self.figure(element, place, around, out),
            Role::Term => self.title(content, place, around, out),
            Role::Caption => self.title(content, place, around, out),
            Role::FigureCaption => self.title(content, place, around, out),
            Role::Summary => self.title(content, place, around, out),
            Role::Division => self.near(element, place, around, out),
            Role::Cell => self.near(element, place, around, out),
            _ => self.apart(content, place, around, out),
        }
    }

    /// A list of terms: an element where blocks can be elements.
    #[cycle(flow)]
    fn terms_at<'t>(
        &self,
        content: &[Simple<'t>],
        place: &Place<'t>,
        around: &mut Vec<Around>,
        out: &mut Paragraphs,
    ) -> Result<(), AllocError>
        ensures out { OnOk result (writing_in out.new ≡ fed_all (writing_in out.old)
            (spec.terms_by (spec.terms_of (simples_of content.now)) (views.nodes_at content.now)
            (views.context_in place.now around.old.items))) }
        ensures around { OnOk result (around.new.items ≡ around.old.items) }
    {
        if place.has_elements() {
            return self.described(content, place, around, out);
        }
        self.terms(content, place, around, out)
    }

    /// A table, which is rich where blocks can be elements.
    #[cycle(flow)]
    fn table_at<'t>(
        &self,
        element: &Element<'_, 't>,
        place: &Place<'t>,
        around: &mut Vec<Around>,
        out: &mut Paragraphs,
    ) -> Result<(), AllocError>
        ensures out { OnOk result (writing_in out.new ≡ fed_all (writing_in out.old)
            (spec.table_at (views.element_in element.now) (views.context_in place.now around.old.items))) }
        ensures around { OnOk result (around.new.items ≡ around.old.items) }
    {
        if place.has_elements() {
            return self.rich_table(element, place, around, out);
        }
        self.table(element.content, place, around, out)
    }

    /// What a block gives that can say the language of the code in it.
    #[cycle(flow)]
    fn near<'t>(
        &self,
        element: &Element<'_, 't>,
        place: &Place<'t>,
        around: &mut Vec<Around>,
        out: &mut Paragraphs,
    ) -> Result<(), AllocError>
        ensures out { OnOk result (writing_in out.new ≡ fed_all (writing_in out.old)
            (spec.near_parts (views.element_in element.now) (views.context_in place.now around.old.items))) }
        ensures around { OnOk result (around.new.items ≡ around.old.items) }
    {
        let inner = place.beside_code(element.facts.pres, element.attrs);
        self.apart(element.content, &inner, around, out)
    }

    /// What these nodes give. Items outside any list, with white space between, are a list.
    #[cycle(flow)]
    fn among<'t>(
        &self,
        nodes: &[Simple<'t>],
        place: &Place<'t>,
        around: &mut Vec<Around>,
        out: &mut Paragraphs,
    ) -> Result<(), AllocError>
        ensures out { OnOk result (writing_in out.new ≡ fed_all (writing_in out.old)
            (spec.flow_all (views.nodes_at nodes.now) (views.context_in place.now around.old.items))) }
        ensures around { OnOk result (around.new.items ≡ around.old.items) }
    {
        let mut at = 0;
        while at < nodes.len() {
            let node = &nodes[at];
            if !is_item(node) {
                self.whole(node, place, around, out)?;
                at += 1;
                continue;
            }
            let len = row_len(&nodes[at..]);
            self.list(&nodes[at..at + len], None, place, around, out)?;
            at += len;
        }
        Ok(())
    }

    /// All of each of these nodes; an item is a block.
    #[cycle(flow)]
    fn each<'t>(
        &self,
        nodes: &[Simple<'t>],
        place: &Place<'t>,
        around: &mut Vec<Around>,
        out: &mut Paragraphs,
    ) -> Result<(), AllocError>
        ensures out { OnOk result (writing_in out.new ≡ fed_all (writing_in out.old)
            (spec.each_whole (views.nodes_at nodes.now) (views.context_in place.now around.old.items))) }
        ensures around { OnOk result (around.new.items ≡ around.old.items) }
    {
        for node in nodes {
            self.whole(node, place, around, out)?;
        }
        Ok(())
    }

    /// What these nodes give, as a block.
    #[cycle(flow)]
    fn apart<'t>(
        &self,
        nodes: &[Simple<'t>],
        place: &Place<'t>,
        around: &mut Vec<Around>,
        out: &mut Paragraphs,
    ) -> Result<(), AllocError>
        ensures out { OnOk result (writing_in out.new ≡ fed_all (writing_in out.old)
            (contexts.apart (spec.flow_all (views.nodes_at nodes.now)
            (views.context_in place.now around.old.items)))) }
        ensures around { OnOk result (around.new.items ≡ around.old.items) }
    {
        out.edge()?;
        self.among(nodes, place, around, out)?;
        out.edge()
    }

    // ---- what is around

    /// What these nodes give with one more format or link around them.
    #[cycle(flow)]
    fn inside<'t>(
        &self,
        nodes: &[Simple<'t>],
        format: Option<Around>,
        place: &Place<'t>,
        around: &mut Vec<Around>,
        out: &mut Paragraphs,
    ) -> Result<(), AllocError>
        ensures out { OnOk result (writing_in out.new ≡ fed_all (writing_in out.old)
            (spec.flow_all (views.nodes_at nodes.now)
            (views.with_option (views.context_in place.now around.old.items) format))) }
        ensures around { OnOk result (around.new.items ≡ around.old.items) }
    {
        let Some(format) = format else {
            return self.among(nodes, place, around, out);
        };
        around.push(format)?;
        self.among(nodes, place, around, out)?;
        around.pop();
        Ok(())
    }

    /// What these nodes give without the link around them.
    #[cycle(flow)]
    fn unlinked<'t>(
        &self,
        nodes: &[Simple<'t>],
        place: &Place<'t>,
        around: &mut Vec<Around>,
        out: &mut Paragraphs,
    ) -> Result<(), AllocError>
        ensures out { OnOk result (writing_in out.new ≡ fed_all (writing_in out.old)
            (spec.flow_all (views.nodes_at nodes.now)
            (contexts.unlinked (views.context_in place.now around.old.items)))) }
        ensures around { OnOk result (around.new.items ≡ around.old.items) }
    {
        let taken = take_link(around);
        self.among(nodes, place, around, out)?;
        put_back(around, taken)
    }

    /// What these nodes give between two texts.
    #[cycle(flow)]
    fn between<'t>(
        &self,
        text: &str,
        nodes: &[Simple<'t>],
        place: &Place<'t>,
        around: &mut Vec<Around>,
        out: &mut Paragraphs,
    ) -> Result<(), AllocError>
        ensures out { OnOk result (writing_in out.new ≡ fed_all (writing_in out.old)
            (spec.between text.now (views.nodes_at nodes.now) (views.context_in place.now around.old.items))) }
        ensures around { OnOk result (around.new.items ≡ around.old.items) }
    {
        out.run(text, around, place.is_code)?;
        self.among(nodes, place, around, out)?;
        out.run(text, around, place.is_code)
    }

    /// Anchors, in a paragraph of their own.
    #[cycle(flow)]
    fn anchors<'t>(
        &self,
        nodes: &[Simple<'t>],
        place: &Place<'t>,
        around: &mut Vec<Around>,
        out: &mut Paragraphs,
    ) -> Result<(), AllocError>
        ensures out { OnOk result (writing_in out.new ≡ fed_all (writing_in out.old)
            (spec.anchors_apart (views.nodes_at nodes.now) (views.context_in place.now around.old.items))) }
        ensures around { OnOk result (around.new.items ≡ around.old.items) }
    {
        if place.is_flat {
            return self.among(nodes, place, around, out);
        }
        self.apart(nodes, place, around, out)
    }

    // ---- blocks

    /// What these nodes give in one line.
    #[cycle(flow)]
    fn line<'t>(
        &self,
        nodes: &[Simple<'t>],
        place: &Place<'t>,
        around: &mut Vec<Around>,
    ) -> Result<Vec<Inline>, AllocError>
        ensures content { IfOk result (λ line. inlines_of line.items
            ≡ spec.line_of (spec.flow_all (views.nodes_at nodes.now)
            (contexts.in_one_line (views.context_in place.now around.old.items)))) }
        ensures around { OnOk result (around.new.items ≡ around.old.items) }
    {
        let mut line = Paragraphs::new(self.alloc, false, true);
        self.among(nodes, &place.in_one_line(), around, &mut line)?;
        line.finish_line()
    }

    /// The same without the link around them.
    #[cycle(flow)]
    fn unlinked_line<'t>(
        &self,
        nodes: &[Simple<'t>],
        place: &Place<'t>,
        around: &mut Vec<Around>,
    ) -> Result<Vec<Inline>, AllocError>
        ensures content { IfOk result (λ line. inlines_of line.items
            ≡ spec.line_of (spec.flow_all (views.nodes_at nodes.now)
            (contexts.in_one_line (contexts.unlinked (views.context_in place.now around.old.items))))) }
        ensures around { OnOk result (around.new.items ≡ around.old.items) }
    {
        let taken = take_link(around);
        let line = self.line(nodes, place, around)?;
        put_back(around, taken)?;
        Ok(line)
    }

    /// The line of a heading: one sign isn't linked to a part of the page.
    #[cycle(flow)]
    fn headed_line<'t>(
        &self,
        facts: Facts,
        nodes: &[Simple<'t>],
        place: &Place<'t>,
        around: &mut Vec<Around>,
    ) -> Result<Vec<Inline>, AllocError>
        ensures content { IfOk result (λ line. inlines_of line.items
            ≡ spec.line_of (spec.flow_all (views.nodes_at nodes.now) (contexts.in_one_line
            (spec.around_heading facts (views.context_in place.now around.old.items))))) }
        ensures around { OnOk result (around.new.items ≡ around.old.items) }
    {
        if is_unlinked(facts, around) {
            return self.unlinked_line(nodes, place, around);
        }
        self.line(nodes, place, around)
    }

    /// A heading, if something is in it.
    #[cycle(flow)]
    fn heading<'t>(
        &self,
        level: u8,
        facts: Facts,
        nodes: &[Simple<'t>],
        place: &Place<'t>,
        around: &mut Vec<Around>,
        out: &mut Paragraphs,
    ) -> Result<(), AllocError>
        ensures out { OnOk result (writing_in out.new ≡ fed_all (writing_in out.old)
            (spec.heading_parts level facts (views.nodes_at nodes.now)
            (views.context_in place.now around.old.items))) }
        ensures around { OnOk result (around.new.items ≡ around.old.items) }
    {
        if place.is_flat {
            return self.apart(nodes, place, around, out);
        }
        out.edge()?;
        let content = self.headed_line(facts, nodes, place, around)?;
        push_heading(out, level, content)?;
        out.edge()
    }

    /// A quote, if something is in it.
    #[cycle(flow)]
    fn quote<'t>(
        &self,
        nodes: &[Simple<'t>],
        place: &Place<'t>,
        around: &mut Vec<Around>,
        out: &mut Paragraphs,
    ) -> Result<(), AllocError>
        ensures out { OnOk result (writing_in out.new ≡ fed_all (writing_in out.old)
            (spec.quote_parts (views.nodes_at nodes.now) (views.context_in place.now around.old.items))) }
        ensures around { OnOk result (around.new.items ≡ around.old.items) }
    {
        if place.is_lined() {
            return self.apart(nodes, place, around, out);
        }
        out.edge()?;
        let mut content = Paragraphs::new(self.alloc, false, false);
        self.among(nodes, &place.deeper(), around, &mut content)?;
        push_quote(out, content.finish()?)?;
        out.edge()
    }
}
