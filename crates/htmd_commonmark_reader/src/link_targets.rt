//! The target of a link: what stands behind its text, or a definition (CommonMark 0.31.2, 6.3).
ghost use Rattle.std.specs.Prelude.{◌≡◌, IfOk, option_map};
ghost use Rattle.htmd_commonmark_reading.specs.Brackets as spec;
ghost use Rattle.htmd_commonmark_reading.specs.LinkDefinitions.{label, label_key};
ghost use Rattle.htmd_commonmark_reader.specs.Destinations.{AreKnown};
ghost use Rattle.htmd_commonmark_reader.specs.References.{references_of, found_of};

use crate::labels::label_key;
use crate::link_definitions::label;
use crate::references::References;
use crate::targets::{Found, Target, inline_target};
use std::alloc::{AllocError, Global};

/// The target that the content of a link refers to.
fn content_target<'a>(
    alloc: Global,
    references: &'a References,
    content: &str,
    rest: &'a str,
) -> Result<Option<Found<'a>>, AllocError>
    ensures { IfOk result (λ found. option_map found_of found
        ≡ spec.target_of (references_of references.now) (label_key content.now) rest.now) }
{
    let key = label_key(alloc, content)?;
    Ok(references.target_of(key.as_str(), rest))
}

/// The target of a reference with this content, by what stands behind its `]`.
fn reference_target<'a>(
    alloc: Global,
    references: &'a References,
    content: &str,
    after: &'a str,
) -> Result<Option<Found<'a>>, AllocError>
    ensures { IfOk result (λ found. option_map found_of found
        ≡ spec.reference_target (references_of references.now) content.now after.now (label after.now)) }
{
    let Some(label) = label(after) else {
        return content_target(alloc, references, content, after);
    };
    let key = label_key(alloc, label.front)?;
    let text = key.as_str();
    if !text.is_empty() {
        return Ok(references.target_of(text, label.rest));
    }
    if label.front.is_empty() {
        content_target(alloc, references, content, label.rest)
    } else {
        content_target(alloc, references, content, after)
    }
}

/// The target of a link with this content, by what stands behind its `]`.
pub(crate) fn target<'a>(
    alloc: Global,
    references: &'a References,
    content: &str,
    after: &'a str,
    known: &[Option<usize>],
) -> Result<Option<Found<'a>>, AllocError>
    requires { AreKnown known.now after.now }
    ensures { IfOk result (λ found. option_map found_of found
        ≡ spec.target (references_of references.now) content.now after.now) }
{
    match inline_target(after, known) {
        Some(raw) => Ok(Some(Found {
            target: Target::Written {
                address: raw.address,
                title: raw.title,
            },
            rest: raw.rest,
        })),
        None => reference_target(alloc, references, content, after),
    }
}
