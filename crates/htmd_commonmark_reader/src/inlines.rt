//! All inlines of a text (CommonMark 0.31.2, 6, and appendix, phase 2).
ghost use Rattle.std.specs.Prelude.{◌≡◌, ◌++◌, [], List, IfOk, OnOk};
ghost use Rattle.htmd_commonmark_reading.specs.Brackets as spec;
ghost use Rattle.htmd_commonmark_reading.specs.DelimiterRuns.{Token, processed};
ghost use Rattle.htmd_commonmark_reader.specs.ReadingRuns.{AreTokens};
ghost use Rattle.htmd_commonmark_reader.specs.References.{references_of};
ghost use Rattle.htmd_commonmark_reader.specs.Scans.{IsScan};
ghost use Rattle.htmd_commonmark_reader.specs.Slots.{slots_parts};
ghost use Rattle.htmd_parts.specs.PartViews.{all_parts_of};
ghost use Rattle.htmd_parts.specs.Parts.{inlines_parts};

use crate::brackets::Scan;
use crate::emphasis::{Delimiter, process};
use crate::raw_tags::Missing;
use crate::references::References;
use crate::slot_parts::push_slots;
use crate::slots::Slot;
use crate::steps::step;
use htmd_parts::Part;
use std::alloc::{AllocError, Global};

/// What is read of a text, before formats are found.
fn scanned<'a>(
    alloc: Global,
    text: &'a str,
    references: &'a References,
) -> Result<Scan<'a>, AllocError>
    ensures { IfOk result (IsScan (spec.scanned (references_of references.now) text.now 0 [] (spec.outermost []))) }
{
    let mut scan = Scan {
        slots: Vec::new(alloc),
        runs: Vec::new(alloc),
        brackets: Vec::new(alloc),
        active: 0,
    };
    let mut known = Vec::new(alloc);
    let mut missing = Missing {
        comment: 0,
        instruction: 0,
        declaration: 0,
        section: 0,
    };
    let mut here = text;
    while !here.is_empty() {
        here = step(
            alloc,
            references,
            &mut scan,
            &mut known,
            &mut missing,
            text,
            here,
        )?;
    }
    Ok(scan)
}

/// Finds the formats among all slots.
fn process_all(
    alloc: Global,
    slots: &mut Vec<Slot<'_>>,
    runs: &[Delimiter],
) -> Result<(), AllocError>
    requires { (ts : List Token) × AreTokens ts runs.now 0 slots.old.items }
    ensures { OnOk result ((ts : List Token) → AreTokens ts runs.now 0 slots.old.items
        → slots_parts slots.new.items ≡ inlines_parts (processed ts) []) }
{
    process(alloc, slots, runs, 0)
}

/// The slots of a text.
fn slots<'a>(
    alloc: Global,
    text: &'a str,
    references: &'a References,
) -> Result<Vec<Slot<'a>>, AllocError>
    ensures { IfOk result (λ slots. slots_parts slots.items
        ≡ inlines_parts (spec.inlines (references_of references.now) text.now) []) }
{
    let scan = scanned(alloc, text, references)?;
    let mut slots = scan.slots;
    process_all(alloc, &mut slots, &scan.runs)?;
    Ok(slots)
}

/// Appends the inlines of a text. `Err` means out of memory.
pub(crate) fn inlines(
    alloc: Global,
    text: &str,
    references: &References,
    parts: &mut Vec<Part>,
) -> Result<(), AllocError>
    ensures { OnOk result (all_parts_of parts.new.items ≡ all_parts_of parts.old.items
        ++ inlines_parts (spec.inlines (references_of references.now) text.now) []) }
{
    let slots = slots(alloc, text, references)?;
    push_slots(alloc, &slots, parts)
}
