//! Where a document is cut: before headings, the highest first.
ghost use Rattle.std.specs.Prelude.{◌≡◌, ◌∷◌, ◌++◌, ◌&&◌, [], IfOk, List, OnOk, map, not};
ghost use Rattle.htmd_document.specs.Documents as value;
ghost use Rattle.htmd_document.specs.DocumentViews.{block_of};
ghost use Rattle.htmd_chunks.specs.Least as least;
ghost use Rattle.htmd_chunks.specs.Sections as spec;

use crate::bounds::Bounds;
use crate::kinds::is_heading;
use crate::measures::block_cost;
use crate::numbers::sum;
use crate::size::Margin;
use htmd_document::Block;
use std::alloc::{AllocError, Global};

/// So many blocks, which fit in a piece or have to be cut.
#[derive(Clone, Copy)]
pub struct Section {
    pub count: usize,
    pub fits: bool,
}

/// The levels of headings.
const LEVELS: [u8; 6] = [1, 2, 3, 4, 5, 6];

/// The bytes between two blocks.
const GAP: usize = 2;

/// So many blocks, and what they take.
#[derive(Clone, Copy)]
struct Gathered {
    count: usize,
    used: usize,
}

/// The sections of a document. `Err` means out of memory.
pub(crate) fn sections(
    alloc: Global,
    bounds: &Bounds,
    blocks: &[Block],
) -> Result<Vec<Section>, AllocError>
    ensures { IfOk result (λ found. found.items
        ≡ spec.sections bounds.now spec.all_levels (map block_of blocks.now)) }
{
    let costs = block_costs(alloc, bounds, blocks)?;
    let mut done = Vec::new(alloc);
    push_sections(bounds, &mut done, blocks, &costs, &LEVELS)?;
    Ok(done)
}

/// The bytes of each block.
fn block_costs(alloc: Global, bounds: &Bounds, blocks: &[Block]) -> Result<Vec<usize>, AllocError>
    ensures { IfOk result (λ costs. costs.items ≡ spec.block_costs bounds.now (map block_of blocks.now)) }
{
    let mut costs = Vec::with_capacity(alloc, blocks.len())?;
    for block in blocks {
        costs.push(block_cost(alloc, &bounds.options, Margin::NONE, block)?)?;
    }
    Ok(costs)
}

/// Whether a document can be cut before a block, as a heading of this level after a block that is none.
fn begins_part(before: &Block, block: &Block, level: u8) -> bool
    ensures { result
        ≡ (spec.is_of_level level (block_of block.now) && not (least.is_heading (block_of before.now))) }
{
    match block {
        Block::Heading { level: here, .. } => *here == level && !is_heading(before),
        _ => false,
    }
}

/// What blocks of these bytes take.
fn total(costs: &[usize]) -> Result<usize, AllocError>
    ensures { IfOk result (λ bytes. bytes ≡ spec.total costs.now) }
{
    let mut bytes: usize = 0;
    for cost in costs {
        bytes = sum(bytes, sum(*cost, GAP)?)?;
    }
    Ok(bytes.saturating_sub(GAP))
}

/// Adds a section of so many blocks that fit, if there are some.
fn push_fitting(done: &mut Vec<Section>, count: usize) -> Result<(), AllocError>
    ensures { OnOk result (done.new.items ≡ done.old.items ++ spec.fitting count) }
{
    if count > 0 {
        done.push(Section { count, fits: true })?;
    }
    Ok(())
}

/// Adds the sections of blocks of these bytes, cut before headings of the first level and then of the others.
#[cycle(sections)]
fn push_sections(
    bounds: &Bounds,
    done: &mut Vec<Section>,
    blocks: &[Block],
    costs: &[usize],
    levels: &[u8],
) -> Result<(), AllocError>
    requires { costs.now ≡ spec.block_costs bounds.now (map block_of blocks.now) }
    ensures { OnOk result (done.new.items
        ≡ done.old.items ++ spec.sections bounds.now levels.now (map block_of blocks.now)) }
{
    match levels {
        [level, lower @ ..] => push_level(bounds, done, blocks, costs, *level, lower),
        [] => {
            done.push(Section {
                count: blocks.len(),
                fits: false,
            })?;
            Ok(())
        }
    }
}

/// Adds the sections between headings of this level, which are cut further before lower ones.
#[cycle(sections)]
fn push_level(
    bounds: &Bounds,
    done: &mut Vec<Section>,
    blocks: &[Block],
    costs: &[usize],
    level: u8,
    lower: &[u8],
) -> Result<(), AllocError>
    requires { costs.now ≡ spec.block_costs bounds.now (map block_of blocks.now) }
    ensures { OnOk result (done.new.items ≡ done.old.items
        ++ spec.gathered bounds.now (λ part. spec.sections bounds.now lower.now part) 0 0
        (spec.level_parts level [] (map block_of blocks.now))) }
{
    let mut gathered = Gathered { count: 0, used: 0 };
    let mut from = 0;
    for i in 0..blocks.len() {
        if i > from && begins_part(&blocks[i - 1], &blocks[i], level) {
            let part = &blocks[from..i];
            gathered = push_part(bounds, done, gathered, part, &costs[from..i], lower)?;
            from = i;
        }
    }
    gathered = push_part(
        bounds,
        done,
        gathered,
        &blocks[from..],
        &costs[from..],
        lower,
    )?;
    push_fitting(done, gathered.count)
}

/// Adds a part to the blocks that are gathered, where both fit together, else the section of these.
#[cycle(sections)]
fn push_part(
    bounds: &Bounds,
    done: &mut Vec<Section>,
    gathered: Gathered,
    blocks: &[Block],
    costs: &[usize],
    lower: &[u8],
) -> Result<Gathered, AllocError>
    requires { costs.now ≡ spec.block_costs bounds.now (map block_of blocks.now) }
    ensures { IfOk result (λ after. (parts : List (List value.Block))
        → done.old.items ++ spec.gathered bounds.now (λ part. spec.sections bounds.now lower.now part)
        gathered.count gathered.used (map block_of blocks.now ∷ parts)
        ≡ done.new.items ++ spec.gathered bounds.now (λ part. spec.sections bounds.now lower.now part)
        after.count after.used parts) }
{
    let bytes = total(costs)?;
    let together = sum(sum(gathered.used, GAP)?, bytes)?;
    if gathered.count > 0 && together <= bounds.most {
        return Ok(Gathered {
            count: sum(gathered.count, blocks.len())?,
            used: together,
        });
    }
    push_fitting(done, gathered.count)?;
    if bytes <= bounds.most {
        return Ok(Gathered {
            count: blocks.len(),
            used: bytes,
        });
    }
    push_sections(bounds, done, blocks, costs, lower)?;
    Ok(Gathered { count: 0, used: 0 })
}
