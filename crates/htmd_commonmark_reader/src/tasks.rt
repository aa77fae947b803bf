//! The text that an item begins with, which may be a task (GFM 0.29, 5.3).
ghost use Rattle.std.specs.Prelude.{◌≡◌, ◌++◌, [], true, false, drop, OnOk, MatchOption};
ghost use Rattle.htmd_lexical.specs.CharacterClasses.{behind_run};
ghost use Rattle.htmd_commonmark_reading.specs.Characters.{is_white};
ghost use Rattle.htmd_commonmark_reading.specs.Lists as spec;
ghost use Rattle.htmd_commonmark_reader.specs.References.{references_of};
ghost use Rattle.htmd_parts.specs.PartViews.{all_parts_of};
ghost use Rattle.htmd_parts.specs.Parts.{inlines_parts};

use crate::inlines::inlines;
use crate::link_definitions::past_white;
use crate::parts::push_part;
use crate::references::References;
use htmd_parts::Part;
use std::alloc::{AllocError, Global};

/// The box of a task, and what follows it.
#[derive(Clone, Copy, Drop)]
struct Task<'a> {
    is_checked: bool,
    rest: &'a str,
}

/// Whether a text begins with the box of a task, and white space.
fn is_task(bytes: &[u8]) -> bool
    ensures { result ≡ spec.is_task bytes.now }
{
    matches!(bytes, [b'[', b' ' | b'x' | b'X', b']', b' ' | b'\t', ..])
}

/// The task that a text is.
fn task_of(text: &str) -> Option<Task<'_>>
    ensures { MatchOption result (spec.is_task text.now ≡ false) (λ t. (spec.is_task text.now ≡ true)
        × (t.is_checked ≡ spec.is_checked text.now) × (t.rest.now ≡ behind_run is_white (drop 3 text.now))) }
{
    if !is_task(text.as_bytes()) {
        return None;
    }
    Some(Task {
        is_checked: text.as_bytes()[1] != b' ',
        rest: past_white(&text[3..]),
    })
}

/// Appends the inlines of a text that an item begins with. `Err` means out of memory.
pub(crate) fn item_text(
    alloc: Global,
    text: &str,
    references: &References,
    parts: &mut Vec<Part>,
) -> Result<(), AllocError>
    ensures { OnOk result (all_parts_of parts.new.items ≡ all_parts_of parts.old.items
        ++ inlines_parts (spec.item_text (references_of references.now) text.now) []) }
{
    match task_of(text) {
        Some(task) => {
            push_part(parts, Part::Task(task.is_checked))?;
            inlines(alloc, task.rest, references, parts)
        }
        None => inlines(alloc, text, references, parts),
    }
}
