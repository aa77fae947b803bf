//! The built-in handlers, and the tags that they are registered for.

ghost use Rattle.std.specs.Prelude.{◌≡◌, ◌++◌, IfOk, OnOk, string_bytes};
ghost use Rattle.htmd_walk.specs.Handling.{IsProper};
ghost use Rattle.htmd_walk.specs.Elements.{finish_answer};
ghost use Rattle.htmd_walk.specs.BuiltIn.{meaning_of};
ghost use Rattle.htmd_walk.specs.Markdown.{append_text};
ghost use Rattle.htmd_walk.specs.Views.{result_view, results_view, answer_view, element_view};
ghost use Rattle.htmd_walk.specs.Walking.{request_view, outcome_view};

use super::other_block::TAGS;
use super::registry::{Outcome, Request};
use super::{
    Element, HandlerResult, Links, Plan, anchor, block_quote, code, emphasis, heading, image,
    line_break, list, list_item, page, plans, preformatted, span, table, table_cell, table_part,
    thematic_break,
};
use htmd_markdown::Emphasis;
use htmd_nodes::Tag;
use std::alloc::{AllocError, Global};

/// A built-in handler.
#[derive(Clone, Copy)]
pub(crate) enum BuiltIn {
    Image,
    Anchor,
    ListElement,
    ListItem,
    BlockQuote,
    Code,
    Strong,
    Emphasis,
    Heading,
    LineBreak,
    ThematicBreak,
    Table,
    TableCell,
    TableRow,
    TablePart,
    Paragraph,
    Preformatted,
    PagePart,
    Page,
    Span,
    OtherBlock,
}

/// The built-in handlers in order of registration, each with the tags that it is registered for.
pub(crate) const HANDLERS_AND_TAGS: &[(BuiltIn, &[Tag])] = &[
    (BuiltIn::Image, &[Tag::Img]),
    (BuiltIn::Anchor, &[Tag::A]),
    (BuiltIn::ListElement, &[Tag::Ol, Tag::Ul]),
    (BuiltIn::ListItem, &[Tag::Li]),
    (BuiltIn::BlockQuote, &[Tag::Blockquote]),
    (BuiltIn::Code, &[Tag::Code]),
    (BuiltIn::Strong, &[Tag::Strong, Tag::B]),
    (BuiltIn::Emphasis, &[Tag::I, Tag::Em]),
    (
        BuiltIn::Heading,
        &[Tag::H1, Tag::H2, Tag::H3, Tag::H4, Tag::H5, Tag::H6],
    ),
    (BuiltIn::LineBreak, &[Tag::Br]),
    (BuiltIn::ThematicBreak, &[Tag::Hr]),
    (BuiltIn::Table, &[Tag::Table]),
    (BuiltIn::TableCell, &[Tag::Td, Tag::Th]),
    (BuiltIn::TableRow, &[Tag::Tr]),
    (BuiltIn::TablePart, &[Tag::Tbody]),
    (BuiltIn::TablePart, &[Tag::Thead]),
    (BuiltIn::TablePart, &[Tag::Caption]),
    (BuiltIn::Paragraph, &[Tag::P]),
    (BuiltIn::Preformatted, &[Tag::Pre]),
    (BuiltIn::PagePart, &[Tag::Head, Tag::Body]),
    (BuiltIn::Page, &[Tag::Html]),
    (BuiltIn::Span, &[Tag::Span]),
    (BuiltIn::OtherBlock, &TAGS),
];

impl BuiltIn {
    /// What the handler needs.
    pub(crate) fn plan(self, alloc: Global, element: &Element) -> Result<Request, AllocError>
        ensures plan { IfOk result (λ p. request_view p ≡ (meaning_of self).plan (element_view element.now)) }
        ensures proper { IfOk result (λ p. IsProper element.now.tree.now element.now.node (request_view p)) }
    {
        match self {
            BuiltIn::Image => Ok(Request::OfPlan(image::plan(alloc, element)?)),
            BuiltIn::Anchor => Ok(Request::OfPlan(anchor::plan(element))),
            BuiltIn::ListElement => list::plan(alloc, element),
            BuiltIn::ListItem => Ok(Request::OfPlan(plans::children_plan(element))),
            BuiltIn::BlockQuote => Ok(Request::OfPlan(plans::children_plan(element))),
            BuiltIn::Code => Ok(Request::OfPlan(code::plan(element))),
            BuiltIn::Strong => Ok(Request::OfPlan(plans::children_plan(element))),
            BuiltIn::Emphasis => Ok(Request::OfPlan(plans::children_plan(element))),
            BuiltIn::Heading => Ok(Request::OfPlan(plans::children_plan(element))),
            BuiltIn::LineBreak => Ok(Request::OfPlan(line_break::plan(alloc, element)?)),
            BuiltIn::ThematicBreak => Ok(Request::OfPlan(thematic_break::plan(alloc, element)?)),
            BuiltIn::Table => table::plan(alloc, element),
            BuiltIn::TableCell => Ok(Request::OfPlan(table_cell::plan(element))),
            BuiltIn::TableRow => Ok(Request::OfPlan(table_part::plan_of_row(element))),
            BuiltIn::TablePart => Ok(Request::OfPlan(table_part::plan_of_part(element))),
            BuiltIn::Paragraph => Ok(Request::OfPlan(plans::children_plan(element))),
            BuiltIn::Preformatted => Ok(Request::OfPlan(preformatted::plan(element))),
            BuiltIn::PagePart => Ok(Request::OfPlan(page::plan_of_part(element))),
            BuiltIn::Page => Ok(Request::OfPlan(page::plan(element))),
            BuiltIn::Span => Ok(Request::OfPlan(span::plan(alloc, element)?)),
            BuiltIn::OtherBlock => Ok(Request::OfPlan(plans::unless_faithful(element))),
        }
    }

    /// What it makes of the content that it needs.
    pub(crate) fn finish(
        self,
        alloc: Global,
        element: &Element,
        content: HandlerResult,
        links: &mut Links,
    ) -> Result<Option<HandlerResult>, AllocError>
        ensures { IfOk result (λ r. answer_view r links.new ≡ finish_answer
            ((meaning_of self).finish (element_view element.now) (result_view content) links.old) links.old) }
    {
        match self {
            BuiltIn::Image => Ok(None),
            BuiltIn::Anchor => anchor::finish(alloc, element, content, links),
            BuiltIn::ListElement => list::finish(alloc, element, content),
            BuiltIn::ListItem => list_item::finish(alloc, element, content),
            BuiltIn::BlockQuote => block_quote::finish(alloc, content),
            BuiltIn::Code => code::finish(alloc, element, content),
            BuiltIn::Strong => emphasis::finish(Emphasis::Strong, content),
            BuiltIn::Emphasis => emphasis::finish(Emphasis::Regular, content),
            BuiltIn::Heading => heading::finish(alloc, element, content),
            BuiltIn::LineBreak => Ok(None),
            BuiltIn::ThematicBreak => Ok(None),
            BuiltIn::Table => table::finish(element, content),
            BuiltIn::TableCell => plans::wrap(alloc, element, content),
            BuiltIn::TableRow => table_part::finish(alloc, element, content),
            BuiltIn::TablePart => table_part::finish(alloc, element, content),
            BuiltIn::Paragraph => plans::wrap(alloc, element, content),
            BuiltIn::Preformatted => preformatted::finish(alloc, element, content),
            BuiltIn::PagePart => plans::wrap(alloc, element, content),
            BuiltIn::Page => plans::wrap(alloc, element, content),
            BuiltIn::Span => span::finish(alloc, element, content),
            BuiltIn::OtherBlock => plans::wrap(alloc, element, content),
        }
    }

    /// What it makes of the contents of the nodes that it needs.
    pub(crate) fn finish_each(
        self,
        alloc: Global,
        element: &Element,
        contents: Vec<HandlerResult>,
    ) -> Result<Outcome, AllocError>
        ensures { IfOk result (λ outcome. outcome_view outcome
            ≡ (meaning_of self).finish_each (element_view element.now) (results_view contents.items)) }
    {
        match self {
            BuiltIn::ListElement => Ok(Outcome::Final(list::finish_ordered(
                alloc, element, contents,
            )?)),
            BuiltIn::Table => table::finish_each(alloc, element, contents.as_slice()),
            _ => Ok(Outcome::Final(None)),
        }
    }

    /// Appends to a text what the handler puts after a conversion with these definitions.
    pub(crate) fn push_appended(self, links: &Links, out: &mut String) -> Result<(), AllocError>
        ensures { OnOk result (string_bytes out.new
            ≡ string_bytes out.old ++ append_text ((meaning_of self).append links.now)) }
    {
        match self {
            BuiltIn::Anchor => anchor::push_definitions(links, out),
            _ => Ok(()),
        }
    }
}
