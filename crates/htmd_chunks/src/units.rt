//! Runs of units, each with as many as fit and one at least.
ghost use Rattle.std.specs.Prelude.{◌≡◌, ◌+◌, ◌*◌, ◌-◌, IfOk, length, map};
ghost use Rattle.std.specs.List.{sum_by};
ghost use Rattle.htmd_chunks.specs.Runs as spec;

use crate::numbers::sum;
use std::alloc::{AllocError, Global};

/// Words or lines that stay together: how many, and their bytes.
#[derive(Clone, Copy)]
pub struct Unit {
    pub count: usize,
    pub bytes: usize,
}

/// What a run of units may have: the first one and each other, what is always in it, and what is between two units.
#[derive(Clone, Copy)]
pub(crate) struct Room {
    pub(crate) first: usize,
    pub(crate) most: usize,
    pub(crate) always: usize,
    pub(crate) between: usize,
}

/// How many words or lines there are in each run. `Err` means out of memory.
pub(crate) fn run_counts(
    alloc: Global,
    units: &[Unit],
    room: Room,
) -> Result<Vec<usize>, AllocError>
    ensures { IfOk result (λ counts. counts.items ≡ map (sum_by (λ u. u.count))
        (spec.runs (λ run. room.always + sum_by (λ u. u.bytes) run + room.between * (length run - 1))
        room.most room.first units.now)) }
{
    let mut counts = Vec::new(alloc);
    let mut count: usize = 0;
    let mut bytes = room.always;
    let mut free = room.first;
    for (i, unit) in units.iter().enumerate() {
        let with_gap = sum(unit.bytes, room.between)?;
        if i == 0 {
            count = unit.count;
            bytes = sum(room.always, unit.bytes)?;
        } else if sum(bytes, with_gap)? <= free {
            count = sum(count, unit.count)?;
            bytes = sum(bytes, with_gap)?;
        } else {
            counts.push(count)?;
            count = unit.count;
            bytes = sum(room.always, unit.bytes)?;
            free = room.most;
        }
    }
    counts.push(count)?;
    Ok(counts)
}
