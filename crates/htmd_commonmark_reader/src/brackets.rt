//! Links and images (CommonMark 0.31.2, 6.3 and 6.4) in a flat list: the stack of brackets.
ghost use Rattle.std.specs.Prelude.{◌≡◌, ◌∷◌, ◌++◌, ℕ, Bool, true, [], List, OnOk, length, take, drop, set, min};
ghost use Rattle.std.specs.Prelude.{◌<◌, ◌+◌, if◌then◌else◌};
ghost use Rattle.htmd_commonmark_reading.specs.Markup.{Inlines};
ghost use Rattle.htmd_commonmark_reading.specs.Brackets as spec;
ghost use Rattle.htmd_commonmark_reading.specs.Brackets.{Brackets, and_tokens};
ghost use Rattle.htmd_commonmark_reading.specs.DelimiterRuns.{Token, finished};
ghost use Rattle.htmd_commonmark_reading.specs.DelimiterRuns as token;
ghost use Rattle.htmd_parts.specs.Parts.{inlines_parts};
ghost use Rattle.htmd_commonmark_reader.specs.Openers.{is_sign};
ghost use Rattle.htmd_commonmark_reader.specs.ReadingRuns.{AreTokens};
ghost use Rattle.htmd_commonmark_reader.specs.Runs.{run_of};
ghost use Rattle.htmd_commonmark_reader.specs.Scans.{AreAlike, IsScan, link_inlines, linked_of};
ghost use Rattle.htmd_commonmark_reader.specs.declared.slots.Slot.{Slot};
ghost use Rattle.htmd_commonmark_reader.specs.Slots.{slots_parts};

use crate::delimiter_runs::Run;
use crate::emphasis::{Delimiter, process};
use crate::slots::Slot;
use crate::targets::Target;
use std::alloc::{AllocError, Global};

/// A bracket that is open.
#[derive(Clone, Copy, Drop)]
pub(crate) struct Bracket<'a> {
    pub(crate) is_image: bool,
    /// The text behind it.
    pub(crate) text: &'a str,
    /// Its slot, and how many runs are in front of it.
    slot: usize,
    runs: usize,
}

/// What was read of a line: the slots, the runs among them that aren't processed, and the brackets that are open.
#[derive(Drop)]
pub(crate) struct Scan<'a> {
    pub(crate) slots: Vec<Slot<'a>>,
    pub(crate) runs: Vec<Delimiter>,
    pub(crate) brackets: Vec<Bracket<'a>>,
    /// In front of this bracket none begins a link.
    pub(crate) active: usize,
}

/// Appends something that was read.
pub(crate) fn push_slot<'a>(scan: &mut Scan<'a>, slot: Slot<'a>) -> Result<(), AllocError>
    ensures { OnOk result ((b : Brackets) (us : List Token) (x : Inlines) → IsScan b scan.old
        → AreAlike us (finished x ∷ []) → slots_parts (slot.entry ∷ []) ≡ inlines_parts x []
        → IsScan (and_tokens b us) scan.new) }
{
    Ok(scan.slots.push(slot)?)
}

/// Opens a bracket, behind which a text begins.
pub(crate) fn open<'a>(scan: &mut Scan<'a>, is_image: bool, text: &'a str) -> Result<(), AllocError>
    ensures { OnOk result ((b : Brackets) → IsScan b scan.old
        → IsScan (spec.bracket is_image true text.now [] b) scan.new) }
{
    let bracket = Bracket {
        is_image,
        text,
        slot: scan.slots.len(),
        runs: scan.runs.len(),
    };
    scan.slots.push(Slot::Opening(is_image))?;
    scan.brackets.push(bracket)?;
    Ok(())
}

/// Appends a run of signs.
pub(crate) fn push_run(scan: &mut Scan<'_>, run: Run) -> Result<(), AllocError>
    requires { is_sign run.sign ≡ true }
    ensures { OnOk result ((b : Brackets) → IsScan b scan.old
        → IsScan (and_tokens b (token.run (run_of run) ∷ [])) scan.new) }
{
    let from = scan.slots.len();
    for _ in 0..run.unused {
        scan.slots.push(Slot::Sign(run.sign))?;
    }
    scan.runs.push(Delimiter { run, from })?;
    Ok(())
}

/// Takes the last bracket as text, and the one that closes it too.
pub(crate) fn close_as_text(scan: &mut Scan<'_>) -> Result<(), AllocError>
    ensures { OnOk result ((is_image is_active : Bool) (text : List ℕ) (ts : List Token) (below : Brackets)
        → IsScan (spec.bracket is_image is_active text ts below) scan.old
        → IsScan (spec.as_text is_image ts below).brackets scan.new) }
{
    scan.slots.push(Slot::Sign(b']'))?;
    let _bracket = scan.brackets.pop();
    scan.active = scan.active.min(scan.brackets.len());
    Ok(())
}

/// What begins and what ends an image or a link.
fn link_slots(is_image: bool, target: Target<'_>) -> (Slot<'_>, Slot<'_>)
    ensures { (xs : Inlines) (inner : List Slot) → slots_parts inner ≡ inlines_parts xs []
        → slots_parts (result.0 ∷ (inner ++ (result.1 ∷ [])))
        ≡ inlines_parts (link_inlines is_image target.entry xs) [] }
{
    if is_image {
        (Slot::BeginImage(target), Slot::EndImage(target))
    } else {
        (Slot::BeginLink(target), Slot::EndLink)
    }
}

/// In front of which bracket none begins a link, once one begins an image or a link.
fn active_after(is_image: bool, active: usize, count: usize) -> usize
    ensures { result ≡ (if is_image then min active count else count) }
{
    if is_image { active.min(count) } else { count }
}

/// Finds the formats behind a bracket, whose runs these are, and lets it begin something.
fn begin_at<'a>(
    alloc: Global,
    slots: &mut [Slot<'a>],
    runs: &[Delimiter],
    at: usize,
    begin: Slot<'a>,
) -> Result<(), AllocError>
    requires within { at < length slots.old }
    requires tokens { (ts : List Token) × AreTokens ts runs.now (at + 1) (drop (at + 1) slots.old) }
    ensures slots { OnOk result (slots.new
        ≡ set (take (at + 1) slots.old ++ drop (at + 1) slots.new) at begin.entry) }
    ensures parts { OnOk result ((ts : List Token) → AreTokens ts runs.now (at + 1) (drop (at + 1) slots.old)
        → slots_parts (drop (at + 1) slots.new) ≡ inlines_parts (token.processed ts) []) }
{
    process(alloc, &mut slots[at + 1..], runs, at + 1)?;
    slots[at] = begin;
    Ok(())
}

/// The same in a vector.
fn begin_in<'a>(
    alloc: Global,
    slots: &mut Vec<Slot<'a>>,
    runs: &[Delimiter],
    at: usize,
    begin: Slot<'a>,
) -> Result<(), AllocError>
    requires within { at < length slots.old.items }
    requires tokens { (ts : List Token) × AreTokens ts runs.now (at + 1) (drop (at + 1) slots.old.items) }
    ensures slots { OnOk result (slots.new.items
        ≡ set (take (at + 1) slots.old.items ++ drop (at + 1) slots.new.items) at begin.entry) }
    ensures parts { OnOk result ((ts : List Token) → AreTokens ts runs.now (at + 1) (drop (at + 1) slots.old.items)
        → slots_parts (drop (at + 1) slots.new.items) ≡ inlines_parts (token.processed ts) []) }
{
    begin_at(alloc, slots, runs, at, begin)
}

/// Lets the last bracket begin an image or a link to this target.
pub(crate) fn close_link<'a>(
    alloc: Global,
    scan: &mut Scan<'a>,
    target: Target<'a>,
) -> Result<(), AllocError>
    requires { (is_image : Bool) × (is_active : Bool) × (text : List ℕ) × (ts : List Token)
        × (below : Brackets) × IsScan (spec.bracket is_image is_active text ts below) scan.old }
    ensures { OnOk result ((is_image is_active : Bool) (text : List ℕ) (ts : List Token) (below : Brackets)
        → IsScan (spec.bracket is_image is_active text ts below) scan.old
        → IsScan (linked_of is_image target.entry ts below) scan.new) }
{
    let Some(bracket) = scan.brackets.pop() else {
        return Ok(());
    };
    let (begin, end) = link_slots(bracket.is_image, target);
    let runs = &scan.runs[bracket.runs..];
    begin_in(alloc, &mut scan.slots, runs, bracket.slot, begin)?;
    scan.slots.push(end)?;
    scan.runs.truncate(bracket.runs);
    scan.active = active_after(bracket.is_image, scan.active, scan.brackets.len());
    Ok(())
}
