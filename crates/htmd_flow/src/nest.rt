//! Leaves with what is around them, as inlines in each other.
ghost use Rattle.std.specs.Prelude.{◌≡◌, ◌≤◌, ◌-◌, ◌++◌, ◌∷◌, [], true, IfOk, length, take, drop, map};
ghost use Rattle.std.specs.List.{prefix_len};
ghost use Rattle.htmd_document.specs.DocumentViews.{inline_of, inlines_of};
ghost use Rattle.htmd_document.specs.Documents as value;
ghost use Rattle.htmd_document.specs.Documents.{no_inlines};
ghost use Rattle.htmd_flow.specs.Nesting as spec;
ghost use Rattle.htmd_flow.specs.NestViews as view;
ghost use Rattle.htmd_flow.specs.PartViews.{around_of};

use crate::around::Around;
use crate::place::is_link;
use htmd_document::Inline;
use std::alloc::{AllocError, Global};
use std::mem;

/// Inlines, of which the last is open as deep as there are frames.
#[derive(Drop)]
pub(crate) struct Nest {
    alloc: Global,
    frames: Vec<Frame>,
    /// What is in the innermost frame.
    content: Vec<Inline>,
}

/// A format or a link that is open, and the inlines before it in what is around it.
#[derive(Drop)]
struct Frame {
    before: Vec<Inline>,
    around: Around,
}

impl Nest {
    /// Nothing yet.
    pub(crate) fn new(alloc: Global) -> Nest
        ensures inlines { view.inlines_in result ≡ no_inlines }
        ensures wrappers { view.wrappers_in result ≡ [] }
    {
        Nest {
            alloc,
            frames: Vec::new(alloc),
            content: Vec::new(alloc),
        }
    }

    /// Nothing any more; the room that there is stays.
    pub(crate) fn clear(&mut self)
        ensures inlines { view.inlines_in self.new ≡ no_inlines }
        ensures wrappers { view.wrappers_in self.new ≡ [] }
    {
        self.frames.clear();
        self.content.clear();
    }

    /// How many wrappers the place where it is open shares with these, from the outermost in.
    pub(crate) fn shared(&self, around: &[Around]) -> usize
        ensures value { result ≡ spec.shared (view.wrappers_in self.now) (view.wrappers_of around.now) }
        ensures bound { result ≤ length (view.wrappers_in self.now) }
        ensures other { result ≤ length around.now }
    {
        let mut count = 0;
        while count < self.frames.len()
            && count < around.len()
            && self.frames[count].around.is_same(&around[count])
        {
            count += 1;
        }
        count
    }

    /// How deep it is open.
    pub(crate) fn depth(&self) -> usize
        ensures { result ≡ length (view.wrappers_in self.now) }
    {
        self.frames.len()
    }

    /// Appends a text, or code, to what there is. `Err` means out of memory.
    pub(crate) fn push_text(
        &mut self,
        shared: usize,
        around: &[Around],
        text: &str,
        is_code: bool,
    ) -> Result<(), AllocError>
        requires open { shared ≤ length (view.wrappers_in self.old) }
        requires named { shared ≤ length around.now }
        ensures inlines { IfOk result (λ _. view.inlines_in self.new ≡ spec.behind shared (view.inlines_in self.old)
            (map around_of around.now) (spec.text_or_code is_code text.now)) }
        ensures wrappers { IfOk result (λ _. view.wrappers_in self.new
            ≡ take shared (view.wrappers_in self.old) ++ drop shared (view.wrappers_of around.now)) }
    {
        self.reach(shared, around)?;
        join(self.alloc, &mut self.content, text, is_code)
    }

    /// Appends a leaf that isn't a text to what there is. `Err` means out of memory.
    pub(crate) fn push_leaf(
        &mut self,
        shared: usize,
        around: &[Around],
        leaf: Inline,
    ) -> Result<(), AllocError>
        requires open { shared ≤ length (view.wrappers_in self.old) }
        requires named { shared ≤ length around.now }
        requires apart { spec.is_apart (inline_of leaf) ≡ true }
        ensures inlines { IfOk result (λ _. view.inlines_in self.new
            ≡ spec.behind shared (view.inlines_in self.old) (map around_of around.now) (inline_of leaf)) }
        ensures wrappers { IfOk result (λ _. view.wrappers_in self.new
            ≡ take shared (view.wrappers_in self.old) ++ drop shared (view.wrappers_of around.now)) }
    {
        self.reach(shared, around)?;
        self.content.push(leaf)?;
        Ok(())
    }

    /// All inlines, and nothing is open any more. `Err` means out of memory.
    pub(crate) fn take(&mut self) -> Result<Vec<Inline>, AllocError>
        ensures inlines { IfOk result (λ xs. inlines_of xs.items ≡ view.inlines_in self.old) }
        ensures nothing { IfOk result (λ _. view.inlines_in self.new ≡ no_inlines) }
        ensures wrappers { IfOk result (λ _. view.wrappers_in self.new ≡ []) }
    {
        self.close(0)?;
        // Most have one inline in them, and a list that grows by itself has room for four.
        let mut content = Vec::with_capacity(self.alloc, self.content.len())?;
        content.append(&mut self.content)?;
        Ok(content)
    }

    /// Closes what isn't shared, and opens the rest.
    fn reach(&mut self, shared: usize, around: &[Around]) -> Result<(), AllocError>
        requires open { shared ≤ length (view.wrappers_in self.old) }
        requires named { shared ≤ length around.now }
        ensures place { IfOk result (λ _. (x : value.Inline) → view.put_in self.new x
            ≡ spec.behind shared (view.inlines_in self.old) (map around_of around.now) x) }
        ensures wrappers { IfOk result (λ _. view.wrappers_in self.new
            ≡ take shared (view.wrappers_in self.old) ++ drop shared (view.wrappers_of around.now)) }
    {
        self.close(shared)?;
        for frame in &around[shared..] {
            self.open(frame)?;
        }
        Ok(())
    }

    /// Closes the link that is open, if there is one, and what is open in it. `Err` means out of memory.
    pub(crate) fn close_link(&mut self) -> Result<(), AllocError>
        ensures inlines { IfOk result (λ _. view.inlines_in self.new ≡ view.inlines_in self.old) }
        ensures wrappers { IfOk result (λ _. view.wrappers_in self.new
            ≡ spec.before_link (view.wrappers_in self.old)) }
    {
        let len = before_link_len(&self.frames);
        self.close(len)
    }

    /// Closes what is open deeper than this.
    fn close(&mut self, depth: usize) -> Result<(), AllocError>
        ensures inlines { IfOk result (λ _. view.inlines_in self.new ≡ view.inlines_in self.old) }
        ensures frames { IfOk result (λ _. view.frames_of self.new ≡ take depth (view.frames_of self.old)) }
    {
        while self.frames.len() > depth {
            self.close_last()?;
        }
        Ok(())
    }

    /// Closes the innermost frame.
    fn close_last(&mut self) -> Result<(), AllocError>
        ensures inlines { IfOk result (λ _. view.inlines_in self.new ≡ view.inlines_in self.old) }
        ensures frames { IfOk result (λ _. view.frames_of self.new
            ≡ take (length (view.frames_of self.old) - 1) (view.frames_of self.old)) }
    {
        let Some(frame) = self.frames.pop() else {
            return Ok(());
        };
        let content = mem::replace(&mut self.content, frame.before);
        self.content.push(frame.around.wrap(content))?;
        Ok(())
    }

    /// Opens one more frame.
    fn open(&mut self, around: &Around) -> Result<(), AllocError>
        ensures frames { IfOk result (λ _. view.frames_of self.new
            ≡ view.frames_of self.old ++ view.frame_after (view.content_of self.old) (around_of around.now) ∷ []) }
        ensures content { IfOk result (λ _. view.content_of self.new ≡ no_inlines) }
    {
        let around = around.clone()?;
        // Most have one inline in them, and a list that grows by itself has room for four.
        let content = Vec::with_capacity(self.alloc, 1)?;
        let before = mem::replace(&mut self.content, content);
        self.frames.push(Frame { before, around })?;
        Ok(())
    }
}

/// How many formats are open around a link that is open, or in all.
fn before_link_len(frames: &[Frame]) -> usize
    ensures { result ≡ prefix_len view.is_format_frame frames.now }
{
    for (len, frame) in frames.iter().enumerate() {
        if is_link(&frame.around) {
            return len;
        }
    }
    frames.len()
}

/// Appends a text, or code, to inlines; two texts that meet are one, and two codes. `Err` means out of memory.
fn join(
    alloc: Global,
    content: &mut Vec<Inline>,
    text: &str,
    is_code: bool,
) -> Result<(), AllocError>
    ensures { IfOk result (λ _. inlines_of content.new.items
        ≡ spec.joined (inlines_of content.old.items) (spec.text_or_code is_code text.now)) }
{
    if is_code {
        join_code(alloc, content, text)
    } else {
        join_text(alloc, content, text)
    }
}

fn join_text(alloc: Global, content: &mut Vec<Inline>, text: &str) -> Result<(), AllocError>
    ensures { IfOk result (λ _. inlines_of content.new.items
        ≡ spec.joined (inlines_of content.old.items) (value.text text.now)) }
{
    let Some(last) = content.len().checked_sub(1) else {
        return push_text(alloc, content, text);
    };
    match &mut content[last] {
        Inline::Text(last) => last.push_str(text),
        _ => push_text(alloc, content, text),
    }
}

fn join_code(alloc: Global, content: &mut Vec<Inline>, text: &str) -> Result<(), AllocError>
    ensures { IfOk result (λ _. inlines_of content.new.items
        ≡ spec.joined (inlines_of content.old.items) (value.code text.now)) }
{
    let Some(last) = content.len().checked_sub(1) else {
        return push_code(alloc, content, text);
    };
    match &mut content[last] {
        Inline::Code(last) => last.push_str(text),
        _ => push_code(alloc, content, text),
    }
}

/// Room for a short text, which others often follow, is made at once; an allocation of less takes as much.
const LEAST_ROOM: usize = 24;

fn push_text(alloc: Global, content: &mut Vec<Inline>, text: &str) -> Result<(), AllocError>
    ensures { IfOk result (λ _. inlines_of content.new.items
        ≡ view.followed (inlines_of content.old.items) (spec.one_inline (value.text text.now))) }
{
    let mut copy = String::with_capacity(alloc, text.len().saturating_add(1).max(LEAST_ROOM))?;
    copy.push_str(text)?;
    content.push(Inline::Text(copy))?;
    Ok(())
}

fn push_code(alloc: Global, content: &mut Vec<Inline>, text: &str) -> Result<(), AllocError>
    ensures { IfOk result (λ _. inlines_of content.new.items
        ≡ view.followed (inlines_of content.old.items) (spec.one_inline (value.code text.now))) }
{
    content.push(Inline::Code(String::from_str(alloc, text)?))?;
    Ok(())
}
