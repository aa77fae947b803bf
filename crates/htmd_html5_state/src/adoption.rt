//! The adoption agency algorithm.
ghost use Rattle.std.specs.Prelude.{◌≡◌, IfOk, OnOk, true, length};
ghost use Rattle.htmd_html5_state.specs.Adoption as spec;
ghost use Rattle.htmd_html5_state.specs.AdoptionViews.{chain_of, closes_newest, round_of_answer, IsCopyAdded};
ghost use Rattle.htmd_html5_state.specs.Names.{element_name_of};
ghost use Rattle.htmd_html5_state.specs.OpenElements.{is_open_node};
ghost use Rattle.htmd_html5_state.specs.OpenViews.{open_of, stack_of, furthest_of};
ghost use Rattle.htmd_html5_state.specs.State.{on_nodes, on_formatting};

use crate::document::last_in;
use crate::formatting_list::is_element;
use crate::names::{ElementName, HtmlName, TagName};
use crate::open_elements::{Furthest, OpenElement, furthest_block};
use crate::sets::NameSet;
use crate::state::HtmlState;
use std::alloc::AllocError;

/// The algorithm has at most this many rounds.
const ROUNDS: usize = 8;

/// At most this many of the elements between are copied.
const COPIED: usize = 3;

/// What has been made of the elements between the furthest block and the formatting element.
#[derive(Drop)]
struct Chain {
    /// Innermost first.
    copies: Vec<OpenElement>,
    last: usize,
    /// The first copy, after which the bookmark is.
    bookmark: Option<usize>,
}

impl HtmlState {
    /// Whether the current node has this name and isn't on the list.
    fn closes_at_once(&self, tag: TagName) -> bool
        ensures { result ≡ spec.closes_at_once tag self.now }
    {
        self.stack.current_is(NameSet::Only(tag))
            && !self.formatting.is_listed(self.stack.current_node())
    }

    /// Whether the current node is the newest on the list and has this name, as where elements are closed in order.
    fn closes_newest(&self, tag: TagName) -> bool
        ensures { result ≡ closes_newest tag self.now }
    {
        let node = self.stack.current_node();
        !self.stack.is_empty()
            && self.formatting.is_newest(node)
            && is_element(self.document.kind(node), tag)
    }

    /// The newest formatting element with this name since the last marker.
    pub fn formatting_element(&self, tag: TagName) -> Option<usize>
        ensures { result ≡ spec.formatting_element tag self.now }
    {
        self.formatting.newest(&self.document, tag)
    }

    /// Puts a copy in place of an element on the list, and moves what was made last into it. Gives the copy.
    fn copy_into(&mut self, node: usize, last: usize) -> Result<usize, AllocError>
        ensures number { IfOk result (λ n. n ≡ length self.old.nodes) }
        ensures ok { OnOk result (self.new ≡ spec.copy_into node last self.old) }
    {
        let copy = self.document.push_copy(node)?;
        self.document.attach(last, last_in(copy))?;
        self.formatting.replace(node, copy);
        Ok(copy)
    }

    /// Copies an element between the furthest block and the formatting element, or lets it go.
    fn chain_next(
        &mut self,
        left: usize,
        element: OpenElement,
        chain: &mut Chain,
    ) -> Result<(), AllocError>
        ensures { OnOk result (chain_of chain.new self.new
            ≡ spec.with_next left (open_of element) (chain_of chain.old self.old)) }
    {
        let OpenElement { node, name } = element;
        if left > 0 && self.formatting.is_listed(node) {
            let copy = self.copy_into(node, chain.last)?;
            return chain.add(copy, name);
        }
        self.formatting.remove(node);
        Ok(())
    }

    /// Copies the elements between, or lets them go.
    fn chain(&mut self, block: usize, mut between: Vec<OpenElement>) -> Result<Chain, AllocError>
        ensures { IfOk result (λ c. chain_of c self.new
            ≡ spec.chain 3 (stack_of between.items) (spec.begin_chain block self.old)) }
    {
        let mut chain = Chain {
            copies: Vec::new(self.alloc),
            last: block,
            bookmark: None,
        };
        let mut left = COPIED;
        while let Some(element) = between.pop() {
            self.chain_next(left, element, &mut chain)?;
            left = left.saturating_sub(1);
        }
        Ok(chain)
    }

    /// Moves what was made last to the common ancestor.
    #[tactic(auto, unfolding(crate::specs::Adoption::move_last))]
    fn move_last(&mut self, last: usize) -> Result<(), AllocError>
        ensures { OnOk result (self.new ≡ spec.move_last last self.old) }
    {
        self.document.detach(last);
        let place = self.place();
        self.document.put(last, place)
    }

    /// Puts a copy of the formatting element between the furthest block and its children. Gives the copy.
    #[tactic(auto, unfolding(crate::specs::Adoption::wrap_children))]
    fn wrap_children(&mut self, formatting: usize, block: usize) -> Result<usize, AllocError>
        ensures number { IfOk result (λ n. n ≡ length self.old.nodes) }
        ensures ok { OnOk result (self.new ≡ on_nodes (spec.wrap_children formatting block) self.old) }
    {
        let copy = self.document.push_copy(formatting)?;
        self.document.move_children(block, copy)?;
        self.document.put(copy, last_in(block))?;
        Ok(copy)
    }

    /// Puts the copy on the list in place of the formatting element, or after the bookmark.
    fn replace_formatting(
        &mut self,
        formatting: usize,
        copy: usize,
        bookmark: Option<usize>,
    ) -> Result<(), AllocError>
        ensures { OnOk result (self.new
            ≡ on_formatting (spec.with_bookmark formatting copy bookmark) self.old) }
    {
        match bookmark {
            Some(first) => {
                self.formatting.insert_after(first, copy)?;
                self.formatting.remove(formatting);
            }
            None => self.formatting.replace(formatting, copy),
        }
        Ok(())
    }

    /// Rearranges what is between a formatting element, which isn't open any more, and the furthest block in it.
    fn adopt(
        &mut self,
        formatting: usize,
        tag: TagName,
        furthest: Furthest,
    ) -> Result<(), AllocError>
        ensures { OnOk result (self.new
            ≡ spec.adopt formatting tag (furthest_of furthest) self.old) }
    {
        let Furthest {
            inner,
            block,
            between,
        } = furthest;
        let block_node = block.node;
        let chain = self.chain(block_node, between)?;
        let Chain {
            copies,
            last,
            bookmark,
        } = chain;
        self.move_last(last)?;
        let copy = self.wrap_children(formatting, block_node)?;
        self.replace_formatting(formatting, copy, bookmark)?;
        self.stack.push_inside_out(copies)?;
        self.stack.push_element(block)?;
        self.stack
            .push(copy, ElementName::Html(HtmlName::Known(tag)))?;
        self.stack.append(inner)
    }

    /// A round with a formatting element that is open, and in scope. Gives whether the next one follows.
    fn round_open(&mut self, tag: TagName, formatting: usize) -> Result<bool, AllocError>
        requires { is_open_node formatting self.old.stack ≡ true }
        ensures { IfOk result (λ more. round_of_answer more self.new
            ≡ spec.round_open tag formatting self.old) }
    {
        let inside = self.stack.take_inside(self.alloc, formatting)?;
        match furthest_block(inside)? {
            Some(furthest) => {
                self.adopt(formatting, tag, furthest)?;
                Ok(true)
            }
            None => {
                self.formatting.remove(formatting);
                Ok(false)
            }
        }
    }

    /// A round. Gives whether the next one follows.
    fn round(&mut self, tag: TagName) -> Result<bool, AllocError>
        ensures { IfOk result (λ more. round_of_answer more self.new ≡ spec.round tag self.old) }
    {
        let Some(formatting) = self.formatting_element(tag) else {
            self.stack.close_name(&HtmlName::Known(tag));
            return Ok(false);
        };
        if !self.stack.is_open_node(formatting) {
            self.formatting.remove(formatting);
            return Ok(false);
        }
        if self.stack.is_bounded_inside(formatting) {
            return Ok(false);
        }
        self.round_open(tag, formatting)
    }

    /// What an end tag of a formatting element does. `Err` means out of memory.
    #[tactic(auto, using(crate::proofs::AdoptionLemmas::newest_closed))]
    pub fn adoption_agency(&mut self, tag: TagName) -> Result<(), AllocError>
        ensures { OnOk result (self.new ≡ spec.adoption_agency tag self.old) }
    {
        if self.closes_newest(tag) {
            self.formatting.remove(self.stack.current_node());
            self.stack.pop();
            return Ok(());
        }
        if self.closes_at_once(tag) {
            self.stack.pop();
            return Ok(());
        }
        let mut left = ROUNDS;
        while left > 0 && self.round(tag)? {
            left -= 1;
        }
        Ok(())
    }
}

impl Chain {
    /// Adds a copy.
    fn add(&mut self, node: usize, name: ElementName) -> Result<(), AllocError>
        ensures { OnOk result (IsCopyAdded self.old self.new node (element_name_of name)) }
    {
        self.copies.push(OpenElement { node, name })?;
        self.last = node;
        self.bookmark = Some(self.bookmark.unwrap_or(node));
        Ok(())
    }
}
