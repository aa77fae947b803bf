//! Filling a piece with blocks, as long as something fits.
ghost use Rattle.std.specs.Prelude.{◌≡◌, ◌-◌, ◌∷◌, [], IfOk, OnOk, map};
ghost use Rattle.htmd_document.specs.DocumentViews.{block_of};
ghost use Rattle.htmd_chunks.specs.ChunkViews.{filling_of, part_of, block_part_of};
ghost use Rattle.htmd_chunks.specs.Fillings as spec;

use crate::joint::Joint;
use crate::numbers::sum;
use htmd_document::Block;
use std::alloc::{AllocError, Global};
use std::mem;

/// Blocks of a piece, and how they go on with those before it: how two blocks are one, from the outermost.
#[derive(Drop)]
pub(crate) struct Part {
    pub(crate) blocks: Vec<Block>,
    pub(crate) continues: Vec<Joint>,
}

/// A part of one block.
#[derive(Drop)]
pub(crate) struct BlockPart {
    pub(crate) block: Block,
    pub(crate) continues: Vec<Joint>,
}

/// How many bytes each part but the first may have, and how many are between what is in it.
#[derive(Clone, Copy)]
pub(crate) struct Limits {
    pub(crate) most: usize,
    pub(crate) gap: usize,
}

/// The parts so far, and what is in the next one.
#[derive(Drop)]
pub(crate) struct Filling {
    alloc: Global,
    done: Vec<Part>,
    next: Vec<Block>,
    /// The bytes of what is in it.
    used: usize,
    /// How many it may have.
    free: usize,
    continues: Vec<Joint>,
    limits: Limits,
}

impl Filling {
    /// Nothing yet; the first part may have so many bytes.
    pub(crate) fn new(alloc: Global, first: usize, limits: Limits) -> Filling
        ensures filling { filling_of result ≡ spec.filling first }
        ensures limits { result.limits ≡ limits }
    {
        Filling {
            alloc,
            done: Vec::new(alloc),
            next: Vec::new(alloc),
            used: 0,
            free: first,
            continues: Vec::new(alloc),
            limits,
        }
    }

    /// How many bytes the next part still has room for.
    pub(crate) fn room(&self) -> usize
        ensures { result ≡ self.now.free - self.now.used }
    {
        self.free.saturating_sub(self.used)
    }

    /// All parts.
    pub(crate) fn into_parts(self) -> Result<Vec<Part>, AllocError>
        ensures { IfOk result
            (λ parts. map part_of parts.items ≡ spec.parts_in (filling_of self)) }
    {
        let mut parts = self.done;
        parts.push(Part {
            blocks: self.next,
            continues: self.continues,
        })?;
        Ok(parts)
    }

    /// Ends the part.
    fn flush(&mut self) -> Result<(), AllocError>
        ensures filling { OnOk result
            (filling_of self.new ≡ spec.flushed self.old.limits.most (filling_of self.old)) }
        ensures limits { self.new.limits ≡ self.old.limits }
    {
        self.done.push(Part {
            blocks: mem::replace(&mut self.next, Vec::new(self.alloc)),
            continues: mem::replace(&mut self.continues, Vec::new(self.alloc)),
        })?;
        self.used = 0;
        self.free = self.limits.most;
        Ok(())
    }

    /// The bytes before what comes next.
    fn gap_before(&self) -> usize
        ensures { result ≡ spec.gap_in self.now.limits.gap (filling_of self.now) }
    {
        if self.next.is_empty() {
            0
        } else {
            self.limits.gap
        }
    }

    /// Ends the part if something is in it and this many bytes don't fit.
    fn make_room(&mut self, bytes: usize) -> Result<(), AllocError>
        ensures filling { OnOk result (filling_of self.new
            ≡ spec.with_room self.old.limits.most self.old.limits.gap (filling_of self.old) bytes) }
        ensures limits { self.new.limits ≡ self.old.limits }
    {
        if self.next.is_empty() || sum(sum(self.used, self.gap_before())?, bytes)? <= self.free {
            return Ok(());
        }
        self.flush()
    }

    /// Puts blocks of this many bytes behind.
    fn push_blocks(&mut self, blocks: Vec<Block>, bytes: usize) -> Result<(), AllocError>
        ensures filling { OnOk result (filling_of self.new ≡ spec.with_blocks self.old.limits.gap
            (filling_of self.old) (map block_of blocks.items) bytes) }
        ensures limits { self.new.limits ≡ self.old.limits }
    {
        self.used = sum(sum(self.used, self.gap_before())?, bytes)?;
        for block in blocks {
            self.next.push(block)?;
        }
        Ok(())
    }

    /// Puts blocks that stay together behind, where they have room.
    pub(crate) fn push_whole(&mut self, blocks: Vec<Block>, bytes: usize) -> Result<(), AllocError>
        ensures filling { OnOk result (filling_of self.new ≡ spec.with_whole self.old.limits.most self.old.limits.gap
            (filling_of self.old) (map block_of blocks.items) bytes) }
        ensures limits { self.new.limits ≡ self.old.limits }
    {
        self.make_room(bytes)?;
        self.push_blocks(blocks, bytes)
    }

    /// Puts headings behind, before a block that is cut: where the least of it has no room, they are a part of their
    /// own. `bytes`: what they take with the gaps.
    pub(crate) fn push_heads(
        &mut self,
        heads: Vec<Block>,
        bytes: usize,
        least: usize,
    ) -> Result<(), AllocError>
        ensures filling { OnOk result (filling_of self.new ≡ spec.with_heads self.old.limits.most self.old.limits.gap
            (filling_of self.old) (map block_of heads.items) bytes least) }
        ensures limits { self.new.limits ≡ self.old.limits }
    {
        self.make_room(least)?;
        let is_apart = self.next.is_empty() && !heads.is_empty() && least > self.free;
        self.push_blocks(heads, bytes)?;
        if is_apart {
            return self.flush();
        }
        Ok(())
    }

    /// Puts the parts of a block behind, of which the last has this many bytes.
    pub(crate) fn push_parts(
        &mut self,
        parts: Vec<BlockPart>,
        last: usize,
    ) -> Result<(), AllocError>
        ensures filling { OnOk result (filling_of self.new ≡ spec.with_parts self.old.limits.most
            (filling_of self.old) (map block_part_of parts.items) last) }
        ensures limits { self.new.limits ≡ self.old.limits }
    {
        let mut parts = parts.into_iter();
        let mut before = self.used;
        if let Some(part) = parts.next() {
            self.next.push(part.block)?;
        }
        for part in parts {
            self.begin(part)?;
            before = 0;
        }
        self.used = sum(before, last)?;
        Ok(())
    }

    /// Ends the part, and begins the next one with a part of a block.
    fn begin(&mut self, part: BlockPart) -> Result<(), AllocError>
        ensures filling { OnOk result (filling_of self.new
            ≡ spec.with_further self.old.limits.most (filling_of self.old) (block_part_of part ∷ [])) }
        ensures limits { self.new.limits ≡ self.old.limits }
    {
        self.flush()?;
        self.continues = part.continues;
        self.next.push(part.block)?;
        Ok(())
    }
}
