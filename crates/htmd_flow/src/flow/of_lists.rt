//! Lists, and lists of terms and what they mean.
#![tactic(auto, using(crate::proofs::NodesLemmas::content_lower, crate::proofs::LevelsLemmas::highest_steps))]

ghost use Rattle.std.specs.Prelude.{◌≡◌, ◌<◌, ◌++◌, ◌∷◌, [], true, IfOk, OnOk, map};
ghost use Rattle.std.specs.List.{list_all, prefix_len};
ghost use Rattle.htmd_document.specs.DocumentLimits as limits;
ghost use Rattle.htmd_shown.specs.SimpleViews.{simple_of, simples_of};
ghost use Rattle.htmd_flow.specs.Flows as spec;
ghost use Rattle.htmd_flow.specs.FlowViews as views;
ghost use Rattle.htmd_flow.specs.ItemViews as items;
ghost use Rattle.htmd_flow.specs.ListViews as lists;
ghost use Rattle.htmd_flow.specs.ParagraphViews.{writing_in};
ghost use Rattle.htmd_flow.specs.Paragraphs.{fed_all};
ghost use Rattle.htmd_flow.specs.TermViews as terms;

use crate::around::Around;
use crate::flow::Flow;
use crate::items::{before_item_len, has_paragraph};
use crate::list::{ListItem, push_lists};
use crate::node::attributes_of;
use crate::paragraphs::Paragraphs;
use crate::place::Place;
use crate::terms::{TermItems, TermKinds, is_group};
use htmd_shown::attributes::number_at;
use htmd_shown::{Simple, content_of, is_item, is_meaning, is_term};
use std::alloc::AllocError;

impl Flow {
    /// A list of these nodes, with bullets where it has no start.
    #[cycle(flow)]
    pub(crate) fn list<'t>(
        &self,
        nodes: &[Simple<'t>],
        start: Option<i64>,
        place: &Place<'t>,
        around: &mut Vec<Around>,
        out: &mut Paragraphs,
    ) -> Result<(), AllocError>
        ensures out { OnOk result (writing_in out.new ≡ fed_all (writing_in out.old)
            (spec.list_parts start (views.nodes_at nodes.now) (views.context_in place.now around.old.items))) }
        ensures around { OnOk result (around.new.items ≡ around.old.items) }
    {
        out.edge()?;
        if place.is_lined() {
            self.each(nodes, place, around, out)?;
            return out.edge();
        }
        let len = before_item_len(nodes);
        self.each(&nodes[..len], place, around, out)?;
        out.edge()?;
        let items = self.items(&nodes[len..], &place.deeper(), around)?;
        push_lists(self.alloc, out, place.nested, start, items)?;
        out.edge()
    }

    /// The items among these nodes, the first of which is one.
    #[cycle(flow)]
    fn items<'t>(
        &self,
        nodes: &[Simple<'t>],
        place: &Place<'t>,
        around: &mut Vec<Around>,
    ) -> Result<Vec<ListItem>, AllocError>
        requires first { prefix_len items.is_no_item (map simple_of nodes.now) ≡ 0 }
        ensures items { IfOk result (λ made. map lists.item_of made.items
            ≡ spec.items_of (views.nodes_at nodes.now) (views.context_in place.now around.old.items)) }
        ensures around { OnOk result (around.new.items ≡ around.old.items) }
    {
        let mut items = Vec::new(self.alloc);
        let mut at = 0;
        while at < nodes.len() {
            let len = before_item_len(&nodes[at + 1..]);
            let item = self.item(&nodes[at], &nodes[at + 1..at + 1 + len], place, around)?;
            items.push(item)?;
            at += 1 + len;
        }
        Ok(items)
    }

    /// An item, and what is between it and the next one.
    #[cycle(flow)]
    fn item<'t>(
        &self,
        item: &Simple<'t>,
        behind: &[Simple<'t>],
        place: &Place<'t>,
        around: &mut Vec<Around>,
    ) -> Result<ListItem, AllocError>
        requires no_items { list_all items.is_no_item (map simple_of behind.now) ≡ true }
        ensures item { IfOk result (λ i. lists.item_of i ≡ spec.item_of (views.node_at item.now)
            ((views.node_at item.now).content (views.context_in place.now around.old.items)
            ++ spec.behind_item (views.nodes_at behind.now) (views.context_in place.now around.old.items))) }
        ensures around { OnOk result (around.new.items ≡ around.old.items) }
    {
        let mut content = Paragraphs::new(self.alloc, true, false);
        self.among(content_of(item), place, around, &mut content)?;
        for node in behind {
            content.edge()?;
            self.whole(node, place, around, &mut content)?;
        }
        Ok(ListItem {
            value: number_at(attributes_of(item), "value"),
            has_paragraph: has_paragraph(content_of(item)),
            blocks: content.finish()?,
        })
    }

    // ---- terms

    /// A list of terms and what they mean; without a term, or where no list is allowed, its content.
    #[cycle(flow)]
    pub(crate) fn terms<'t>(
        &self,
        nodes: &[Simple<'t>],
        place: &Place<'t>,
        around: &mut Vec<Around>,
        out: &mut Paragraphs,
    ) -> Result<(), AllocError>
        ensures out { OnOk result (writing_in out.new ≡ fed_all (writing_in out.old)
            (spec.term_parts (spec.terms_of (simples_of nodes.now)) (views.nodes_at nodes.now)
            (views.context_in place.now around.old.items))) }
        ensures around { OnOk result (around.new.items ≡ around.old.items) }
    {
        if place.is_lined() {
            return self.apart(nodes, place, around, out);
        }
        let kinds = TermKinds::of(nodes);
        if !kinds.has_terms {
            return self.apart(nodes, place, around, out);
        }
        out.edge()?;
        let mut items = TermItems::new(self.alloc, kinds.has_meanings);
        self.term_parts(nodes, place, around, &mut items, out)?;
        out.edge()?;
        let items = items.finish(self.alloc)?;
        push_lists(self.alloc, out, place.nested, None, items)?;
        out.edge()
    }

    /// Adds the parts of a list of terms that these nodes are.
    #[cycle(flow)]
    fn term_parts<'t>(
        &self,
        nodes: &[Simple<'t>],
        place: &Place<'t>,
        around: &mut Vec<Around>,
        items: &mut TermItems,
        out: &mut Paragraphs,
    ) -> Result<(), AllocError>
        requires { place.now.nested < limits.most_nested }
        ensures terms { OnOk result (terms.AreAdded (views.context_in place.now around.old.items)
            (spec.terms_of (simples_of nodes.now)) (writing_in out.old) items.old (writing_in out.new) items.new) }
        ensures around { OnOk result (around.new.items ≡ around.old.items) }
    {
        for node in nodes {
            self.term_part(node, place, around, items, out)?;
        }
        Ok(())
    }

    /// Adds the parts of a list of terms that a node is: of a group the nodes in it, between gaps.
    #[cycle(flow)]
    fn term_part<'t>(
        &self,
        node: &Simple<'t>,
        place: &Place<'t>,
        around: &mut Vec<Around>,
        items: &mut TermItems,
        out: &mut Paragraphs,
    ) -> Result<(), AllocError>
        requires { place.now.nested < limits.most_nested }
        ensures terms { OnOk result (terms.AreAdded (views.context_in place.now around.old.items)
            (terms.parts_at (simple_of node.now)) (writing_in out.old) items.old (writing_in out.new) items.new) }
        ensures around { OnOk result (around.new.items ≡ around.old.items) }
    {
        if !is_group(node) {
            return self.term_node(node, place, around, items, out);
        }
        items.goes_on = false;
        self.term_nodes(content_of(node), place, around, items, out)?;
        items.goes_on = false;
        Ok(())
    }

    /// Adds nodes of a list of terms.
    #[cycle(flow)]
    fn term_nodes<'t>(
        &self,
        nodes: &[Simple<'t>],
        place: &Place<'t>,
        around: &mut Vec<Around>,
        items: &mut TermItems,
        out: &mut Paragraphs,
    ) -> Result<(), AllocError>
        requires { place.now.nested < limits.most_nested }
        ensures terms { OnOk result (terms.AreAdded (views.context_in place.now around.old.items)
            (map spec.of_node (views.nodes_at nodes.now)) (writing_in out.old) items.old
            (writing_in out.new) items.new) }
        ensures around { OnOk result (around.new.items ≡ around.old.items) }
    {
        for node in nodes {
            self.term_node(node, place, around, items, out)?;
        }
        Ok(())
    }

    /// Adds a node of a list of terms: to the last item, or before the first.
    #[cycle(flow)]
    fn term_node<'t>(
        &self,
        node: &Simple<'t>,
        place: &Place<'t>,
        around: &mut Vec<Around>,
        items: &mut TermItems,
        out: &mut Paragraphs,
    ) -> Result<(), AllocError>
        requires { place.now.nested < limits.most_nested }
        ensures terms { OnOk result (terms.AreAdded (views.context_in place.now around.old.items)
            (spec.of_node (views.node_at node.now) ∷ []) (writing_in out.old) items.old
            (writing_in out.new) items.new) }
        ensures around { OnOk result (around.new.items ≡ around.old.items) }
    {
        if is_term(node) {
            let mut item = items.take_for_term(self.alloc);
            self.apart(content_of(node), &place.deeper(), around, &mut item)?;
            return items.put(item);
        }
        let Some(mut item) = items.take_for_node(node) else {
            return self.beside_terms(node, place, around, out);
        };
        self.within_item(node, &place.deeper(), around, &mut item)?;
        items.put(item)
    }

    /// What a node gives in an item of a list of terms.
    #[cycle(flow)]
    fn within_item<'t>(
        &self,
        node: &Simple<'t>,
        place: &Place<'t>,
        around: &mut Vec<Around>,
        out: &mut Paragraphs,
    ) -> Result<(), AllocError>
        ensures out { OnOk result (writing_in out.new ≡ fed_all (writing_in out.old)
            (spec.within_item (views.node_at node.now) (views.context_in place.now around.old.items))) }
        ensures around { OnOk result (around.new.items ≡ around.old.items) }
    {
        if is_meaning(node) {
            return self.beside_terms(node, place, around, out);
        }
        out.edge()?;
        self.beside_terms(node, place, around, out)
    }

    /// What a node gives in a list of terms that is no term.
    #[cycle(flow)]
    fn beside_terms<'t>(
        &self,
        node: &Simple<'t>,
        place: &Place<'t>,
        around: &mut Vec<Around>,
        out: &mut Paragraphs,
    ) -> Result<(), AllocError>
        ensures out { OnOk result (writing_in out.new ≡ fed_all (writing_in out.old)
            (spec.beside_terms (views.node_at node.now) (views.context_in place.now around.old.items))) }
        ensures around { OnOk result (around.new.items ≡ around.old.items) }
    {
        if is_meaning(node) {
            return self.apart(content_of(node), place, around, out);
        }
        if is_item(node) {
            return self.among(content_of(node), place, around, out);
        }
        self.whole(node, place, around, out)
    }
}
