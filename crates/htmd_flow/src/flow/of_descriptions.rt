//! Lists of terms and what they mean in rich documents.
#![tactic(auto, using(crate::proofs::NodesLemmas::content_lower, crate::proofs::LevelsLemmas::highest_steps))]

ghost use Rattle.std.specs.Prelude.{◌≡◌, OnOk, length, map};
ghost use Rattle.htmd_shown.specs.SimpleViews.{simples_of};
ghost use Rattle.htmd_flow.specs.DescriptionViews as descriptions;
ghost use Rattle.htmd_flow.specs.Flows as spec;
ghost use Rattle.htmd_flow.specs.FlowViews as views;
ghost use Rattle.htmd_flow.specs.ParagraphViews.{writing_in};
ghost use Rattle.htmd_flow.specs.Paragraphs.{fed_all};

use crate::around::Around;
use crate::descriptions::{Description, Descriptions};
use crate::flow::Flow;
use crate::paragraphs::Paragraphs;
use crate::place::Place;
use crate::terms::{is_group, is_term_or_meaning};
use htmd_shown::{Simple, content_of, is_term};
use std::alloc::AllocError;

impl Flow {
    /// A list of terms and what they mean, as an element.
    #[cycle(flow)]
    pub(crate) fn described<'t>(
        &self,
        nodes: &[Simple<'t>],
        place: &Place<'t>,
        around: &mut Vec<Around>,
        out: &mut Paragraphs,
    ) -> Result<(), AllocError>
        ensures out { OnOk result (writing_in out.new ≡ fed_all (writing_in out.old)
            (spec.described_parts (spec.terms_of (simples_of nodes.now))
            (views.context_in place.now around.old.items))) }
        ensures around { OnOk result (around.new.items ≡ around.old.items) }
    {
        out.edge()?;
        let mut begun = Descriptions::new(self.alloc);
        self.descriptions(nodes, place, around, &mut begun, out)?;
        out.edge()?;
        begun.finish(out)?;
        out.edge()
    }

    /// Adds the parts of a list of terms that these nodes are.
    #[cycle(flow)]
    fn descriptions<'t>(
        &self,
        nodes: &[Simple<'t>],
        place: &Place<'t>,
        around: &mut Vec<Around>,
        begun: &mut Descriptions,
        out: &mut Paragraphs,
    ) -> Result<(), AllocError>
        ensures begun { OnOk result (descriptions.AreDescribed (views.context_in place.now around.old.items)
            (spec.terms_of (simples_of nodes.now)) (writing_in out.old) begun.old (writing_in out.new) begun.new) }
        ensures around { OnOk result (around.new.items ≡ around.old.items) }
    {
        let mut at = 0;
        while at < nodes.len() {
            self.description_part(&nodes[at..at + 1], place, around, begun, out)?;
            at += 1;
        }
        Ok(())
    }

    /// Adds the parts that a node alone is: of a group the nodes in it.
    #[cycle(flow)]
    fn description_part<'t>(
        &self,
        alone: &[Simple<'t>],
        place: &Place<'t>,
        around: &mut Vec<Around>,
        begun: &mut Descriptions,
        out: &mut Paragraphs,
    ) -> Result<(), AllocError>
        requires { length alone.now ≡ 1 }
        ensures begun { OnOk result (descriptions.AreDescribed (views.context_in place.now around.old.items)
            (spec.terms_of (simples_of alone.now)) (writing_in out.old) begun.old (writing_in out.new) begun.new) }
        ensures around { OnOk result (around.new.items ≡ around.old.items) }
    {
        let node = &alone[0];
        if is_group(node) {
            return self.described_nodes(content_of(node), place, around, begun, out);
        }
        self.description(alone, place, around, begun, out)
    }

    /// Adds nodes of a list of terms.
    #[cycle(flow)]
    fn described_nodes<'t>(
        &self,
        nodes: &[Simple<'t>],
        place: &Place<'t>,
        around: &mut Vec<Around>,
        begun: &mut Descriptions,
        out: &mut Paragraphs,
    ) -> Result<(), AllocError>
        ensures begun { OnOk result (descriptions.AreDescribed (views.context_in place.now around.old.items)
            (map spec.of_node (views.nodes_at nodes.now)) (writing_in out.old) begun.old
            (writing_in out.new) begun.new) }
        ensures around { OnOk result (around.new.items ≡ around.old.items) }
    {
        let mut at = 0;
        while at < nodes.len() {
            self.description(&nodes[at..at + 1], place, around, begun, out)?;
            at += 1;
        }
        Ok(())
    }

    /// Adds a node alone: a term, what one means, or what belongs to the one before.
    #[cycle(flow)]
    fn description<'t>(
        &self,
        alone: &[Simple<'t>],
        place: &Place<'t>,
        around: &mut Vec<Around>,
        begun: &mut Descriptions,
        out: &mut Paragraphs,
    ) -> Result<(), AllocError>
        requires { length alone.now ≡ 1 }
        ensures begun { OnOk result (descriptions.AreDescribed (views.context_in place.now around.old.items)
            (map spec.of_node (views.nodes_at alone.now)) (writing_in out.old) begun.old
            (writing_in out.new) begun.new) }
        ensures around { OnOk result (around.new.items ≡ around.old.items) }
    {
        let node = &alone[0];
        if is_term_or_meaning(node) {
            let mut content = Paragraphs::new(self.alloc, false, false);
            self.within(node, place, around, &mut content)?;
            let is_term = is_term(node);
            return begun.push(Description { is_term, content });
        }
        let Some(mut last) = begun.take_for(node)? else {
            return self.among(alone, place, around, out);
        };
        last.content.edge()?;
        self.among(alone, place, around, &mut last.content)?;
        begun.push(last)
    }
}
