//! Texts one after another.
ghost use Rattle.std.specs.Prelude.{◌≡◌, IfOk, OnOk, length, map, min, string_bytes, sum_by};
ghost use Rattle.std.specs.List.{flat_map};
ghost use Rattle.std.specs.Iterator.{IsFinite};
ghost use Rattle.std.specs.Iterator.Runs.{WholeRun};
ghost use Rattle.htmd_text.specs.Joins as spec;

use crate::repeats::{leading_len, trailing_len};
use std::alloc::{AllocError, Global};
use std::convert::AsStr;

/// The items of an iterator as one text.
pub trait JoinOnStringIterator: Iterator {
    /// The items that are left, with the separator between each two. The iterator must end. `Err` means out of memory;
    /// the items that were taken are then gone.
    final fn join(&mut self, alloc: Global, separator: &str) -> Result<String, AllocError>
    where
        Self: Sized,
        Self::Item: AsStr + Drop,
        requires can { Self.can_next self.old }
        requires finite { IsFinite (Self.remaining self.old) }
        ensures { IfOk result (λ s.
            WholeRun Self.next_gives self.old (λ p.
            string_bytes s ≡ spec.joined_texts separator.now (map Self.Item.text p.items))) }
    {
        let mut joined = String::new(alloc);
        let Some(first) = self.next() else {
            return Ok(joined);
        };
        joined.push_str(first.as_str())?;
        while let Some(item) = self.next() {
            joined.push_str(separator)?;
            joined.push_str(item.as_str())?;
        }
        Ok(joined)
    }
}

impl<I: Iterator> JoinOnStringIterator for I {}

/// The texts one after another, in a `String` that is reserved at once. `Err` means out of memory.
pub fn concat(alloc: Global, texts: &[&str]) -> Result<String, AllocError>
    ensures { IfOk result (λ s. string_bytes s ≡ flat_map (λ text. text.now) texts.now) }
{
    let mut all = String::with_capacity(alloc, total_len(texts))?;
    for text in texts {
        all.push_str(text)?;
    }
    Ok(all)
}

/// How many bytes the texts take together, at most as many as a `usize` can count.
fn total_len(texts: &[&str]) -> usize
    ensures { result ≡ min (sum_by (λ text. length text.now) texts.now) usize.MAX }
{
    let mut total: usize = 0;
    for text in texts {
        total = total.saturating_add(text.len());
    }
    total
}

/// The blocks one after another, without the empty ones. If a text ends with `a` line feeds and the next begins with
/// `b`, the greater number of line feeds is between them, but at most two. `Err` means out of memory.
pub fn join_blocks(alloc: Global, blocks: &[String]) -> Result<String, AllocError>
    ensures { IfOk result
        (λ text. string_bytes text
        ≡ spec.joined_blocks (map (λ block. string_bytes block) blocks.now)) }
{
    let mut joined = String::new(alloc);
    for block in blocks {
        join_block(&mut joined, block.as_str())?;
    }
    Ok(joined)
}

/// Appends one more block to the others.
fn join_block(joined: &mut String, block: &str) -> Result<(), AllocError>
    ensures { OnOk result
        (string_bytes joined.new ≡ spec.join_block (string_bytes joined.old) block.now) }
{
    if block.is_empty() {
        return Ok(());
    }
    let before = trailing_len(joined.as_bytes(), b'\n');
    let behind = leading_len(block.as_bytes(), b'\n');
    joined.truncate(joined.len() - before);
    joined.push_str(&"\n\n"[..before.max(behind).min(2)])?;
    joined.push_str(&block[behind..])?;
    Ok(())
}
