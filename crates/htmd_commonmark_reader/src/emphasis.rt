//! Emphasis and strikethrough (CommonMark 0.31.2, 6.2 and appendix, "process emphasis"; GFM 0.29, 6.5), in a flat list.
ghost use Rattle.std.specs.Prelude.{◌≡◌, ◌-◌, ◌+◌, ◌++◌, [], List, OnOk, true, length, take, MatchOption};
ghost use Rattle.std.specs.Prelude.{nat_lt, slice_index_or};
ghost use Rattle.std.specs.List.{AllWithin};
ghost use Rattle.htmd_document.specs.Formats.{of_format};
ghost use Rattle.htmd_commonmark_reading.specs.DelimiterRuns as spec;
ghost use Rattle.htmd_commonmark_reading.specs.DelimiterRuns.{Stack, Token};
ghost use Rattle.htmd_commonmark_reader.specs.Runs.{run_of};
ghost use Rattle.htmd_commonmark_reader.specs.Openers.{IsUnfit, AreOrdered, IsSearched, IsNearest, IsClosable};
ghost use Rattle.htmd_commonmark_reader.specs.Openers.{sign_number, kind, closes, is_sign, AreSearched, IsPartner};
ghost use Rattle.htmd_commonmark_reader.specs.Openers.{put_at, format_for, kept, opener_less, closing_less};
ghost use Rattle.htmd_parts.specs.Parts.{inlines_parts};
ghost use Rattle.htmd_commonmark_reader.specs.ReadingRuns.{IsReading, AreTokens};
ghost use Rattle.htmd_commonmark_reader.specs.Slots.{slots_parts};
ghost use Rattle.htmd_commonmark_reader.specs.declared.slots.Slot.{Slot};
ghost use Rattle.htmd_commonmark_reader.specs.declared.slots.Slot.TheVariants as slot;

use crate::delimiter_runs::{Run, is_closed_by, used};
use crate::slots::{Slot, put};
use htmd_document::Format;
use std::alloc::{AllocError, Global};

/// A run whose unused signs are the slots from a place on.
#[derive(Clone, Copy, Drop)]
pub(crate) struct Delimiter {
    pub(crate) run: Run,
    pub(crate) from: usize,
}

/// What a search among openers has found: from this index on, no opener in front of this place fits.
#[derive(Clone, Copy, Drop)]
struct Searched {
    index: usize,
    place: usize,
}

const UNSEARCHED: Searched = Searched { index: 0, place: 0 };

/// How many kinds of closing runs there are: what a run fits depends on its kind alone.
const KIND_COUNT: usize = 18;

fn sign_number(sign: u8) -> usize
    ensures { result ≡ sign_number sign }
{
    match sign {
        b'*' => 0,
        b'_' => 1,
        _ => 2,
    }
}

/// The kind of a closing run: its sign, whether it opens too, and its length modulo 3.
fn kind_of(closing: &Run) -> usize
    ensures { result ≡ kind (run_of closing.now) }
{
    let opens = if closing.opens { 1 } else { 0 };
    sign_number(closing.sign) * 6 + opens * 3 + closing.count % 3
}

/// The openers, each of which may still be closed, and what was searched for among them.
#[derive(Drop)]
struct Openers {
    items: Vec<Delimiter>,
    searched: [Searched; KIND_COUNT],
}

/// The index of the nearest opener that the run may close. What an earlier search has passed is left out.
fn nearest(openers: &[Delimiter], searched: Searched, closing: &Run) -> Option<usize>
    requires ordered { AreOrdered openers.now }
    requires searched { IsSearched (run_of closing.now) openers.now searched.index searched.place }
    ensures { MatchOption result (AllWithin (IsUnfit (run_of closing.now)) openers.now 0 (length openers.now))
        (λ i. IsNearest (run_of closing.now) openers.now i) }
{
    let mut count = openers.len();
    while count > 0 {
        let opener = &openers[count - 1];
        if opener.from < searched.place && searched.index < count {
            count = searched.index;
        } else if is_closed_by(&opener.run, closing) {
            return Some(count - 1);
        } else {
            count -= 1;
        }
    }
    None
}

/// Whether a run closes an opener that it fits: tildes close as many.
fn closes(closing: &Run, opened: &Run) -> bool
    ensures { result ≡ closes (run_of closing.now) (run_of opened.now) }
{
    closing.sign != b'~' || opened.unused == closing.unused
}

/// The index of the opener that the run closes.
fn partner(openers: &mut Openers, closing: &Delimiter) -> Option<usize>
    requires sign { is_sign closing.now.run.sign ≡ true }
    requires ordered { AreOrdered openers.old.items.items }
    requires searched { AreSearched openers.old.items.items openers.old.searched closing.now.from }
    ensures items { openers.new.items ≡ openers.old.items }
    ensures searched { AreSearched openers.new.items.items openers.new.searched closing.now.from }
    ensures partner { IsPartner (run_of closing.now.run) openers.old.items.items result }
{
    if !closing.run.closes {
        return None;
    }
    let kind = kind_of(&closing.run);
    let found = nearest(&openers.items, openers.searched[kind], &closing.run);
    let index = match found {
        Some(index) if closes(&closing.run, &openers.items[index].run) => return Some(index),
        Some(index) => index + 1,
        None => 0,
    };
    openers.searched[kind] = Searched {
        index,
        place: closing.from,
    };
    None
}

fn format_of(sign: u8, count: usize) -> Format
    ensures value { result ≡ format_for sign count }
    ensures format { of_format result ≡ spec.format_of sign count }
{
    if sign == b'~' {
        Format::Deleted
    } else if count == 1 {
        Format::Emphasis
    } else {
        Format::Strong
    }
}

/// Closes an opener by so many signs of both: those of the opener begin a format, and those of the run end it.
fn close(
    slots: &mut [Slot<'_>],
    openers: &mut Vec<Delimiter>,
    index: usize,
    closing: &mut Delimiter,
    count: usize,
)
    requires { IsClosable openers.old.items index closing.old slots.old count }
    ensures slots { let opened = slice_index_or openers.old.items index closing.old in
        let format = format_for closing.old.run.sign count in
        slots.new ≡ put_at closing.old.from count (slot.End format)
        (put_at (opened.from + (opened.run.unused - count)) count (slot.Begin format) slots.old) }
    ensures openers { let opened = slice_index_or openers.old.items index closing.old in
        openers.new.items ≡ take index openers.old.items
        ++ kept (nat_lt count opened.run.unused) (opener_less opened count) [] }
    ensures closing { closing.new ≡ closing_less closing.old count }
{
    let mut opened = openers[index];
    let format = format_of(closing.run.sign, count);
    opened.run.unused -= count;
    put(
        slots,
        opened.from + opened.run.unused,
        count,
        Slot::Begin(format),
    );
    put(slots, closing.from, count, Slot::End(format));
    closing.from += count;
    closing.run.unused -= count;
    if opened.run.unused > 0 {
        openers[index] = opened;
        openers.truncate(index + 1);
    } else {
        openers.truncate(index);
    }
}

/// Lets a run close what it can; then it opens, or else it is text.
fn add_run(slots: &mut [Slot<'_>], openers: &mut Openers, run: Delimiter) -> Result<(), AllocError>
    requires sign { is_sign run.run.sign ≡ true }
    requires state { (s : Stack) × (tail : List Slot)
        × IsReading s openers.old run.from run.run.unused run.run.sign slots.old tail }
    ensures { OnOk result ((s : Stack) (tail : List Slot)
        → IsReading s openers.old run.from run.run.unused run.run.sign slots.old tail
        → IsReading (spec.with_run run.run.unused (run_of run.run) s) openers.new (run.from + run.run.unused) 0
        run.run.sign slots.new tail) }
{
    let mut rest = run;
    while rest.run.unused > 0 {
        match partner(openers, &rest) {
            Some(index) => {
                let count = used(&rest.run, &openers.items[index].run);
                close(slots, &mut openers.items, index, &mut rest, count);
            }
            None => {
                if rest.run.opens {
                    openers.items.push(rest)?;
                }
                return Ok(());
            }
        }
    }
    Ok(())
}

/// Finds the formats among some slots, whose runs these are, in order. The slots stand behind so many others, which the
/// places of the runs count too. `Err` means out of memory.
pub(crate) fn process(
    alloc: Global,
    slots: &mut [Slot<'_>],
    runs: &[Delimiter],
    offset: usize,
) -> Result<(), AllocError>
    requires { (ts : List Token) × AreTokens ts runs.now offset slots.old }
    ensures { OnOk result ((ts : List Token) → AreTokens ts runs.now offset slots.old
        → slots_parts slots.new ≡ inlines_parts (spec.processed ts) []) }
{
    let mut openers = Openers {
        items: Vec::new(alloc),
        searched: [UNSEARCHED; KIND_COUNT],
    };
    for run in runs {
        let from = run.from - offset;
        add_run(slots, &mut openers, Delimiter { run: run.run, from })?;
    }
    Ok(())
}
