//! Formatting elements are inserted, and reconstructed.
ghost use Rattle.std.specs.Prelude.{◌≡◌, OnOk};
ghost use Rattle.htmd_html5_state.specs.Formatting as spec;
ghost use Rattle.htmd_html5_state.specs.Names.{name_of};
ghost use Rattle.htmd_lexical.specs.Attributes.{pairs_of};

use crate::names::HtmlName;
use crate::state::HtmlState;
use htmd_lexical::Attribute;
use std::alloc::AllocError;

impl HtmlState {
    /// Inserts a formatting element, which is then open and on the list. `Err` means out of memory.
    pub fn insert_formatting(
        &mut self,
        name: HtmlName,
        attributes: Vec<Attribute>,
    ) -> Result<(), AllocError>
        ensures { OnOk result (self.new
            ≡ spec.insert_formatting (name_of name) (pairs_of attributes.items) self.old) }
    {
        let node = self.insert_element(name, attributes)?;
        self.formatting.add(&self.document, node)
    }

    /// Inserts an element like this one, which is then open.
    fn insert_like(&mut self, node: usize) -> Result<(), AllocError>
        ensures { OnOk result (self.new ≡ spec.insert_copy node self.old) }
    {
        if let Some(element) = self.document.element_copy(node)? {
            self.insert_named(element.name, element.attributes)?;
        }
        Ok(())
    }

    /// Inserts an element like this one, which is then open and on the list.
    fn reopen(&mut self, node: usize) -> Result<(), AllocError>
        ensures { OnOk result (self.new ≡ spec.reopen node self.old) }
    {
        let new = self.document.len();
        self.insert_like(node)?;
        self.formatting.push(new)
    }

    /// Reconstructs the active formatting elements: opens those again that were closed. `Err` means out of memory.
    #[tactic(auto, using(crate::proofs::AppendedTextsLemmas::none_reopened))]
    pub fn reconstruct(&mut self) -> Result<(), AllocError>
        ensures { OnOk result (self.new ≡ spec.reconstruct self.old) }
    {
        if self.formatting.is_reconstructed(&self.stack) {
            return Ok(());
        }
        let mut closed = self.formatting.take_closed(self.alloc, &self.stack)?;
        while let Some(node) = closed.pop() {
            self.reopen(node)?;
        }
        Ok(())
    }
}
