//! Slots as parts: texts beside each other are one part.
ghost use Rattle.std.specs.Prelude.{◌≡◌, ◌++◌, [], IfOk, OnOk, option_map, string_bytes};
ghost use Rattle.htmd_commonmark_reading.specs.Brackets.{sign_of};
ghost use Rattle.htmd_commonmark_reader.specs.SlotParts.{written};
ghost use Rattle.htmd_commonmark_reader.specs.Slots.{link_parts, slot_parts, slots_parts};
ghost use Rattle.htmd_commonmark_reader.specs.Targets.{address_of, title_of};
ghost use Rattle.htmd_commonmark_reader.specs.declared.slots.Slot.TheVariants as slot;
ghost use Rattle.htmd_parts.specs.PartViews.{all_parts_of, part_of};

use crate::characters::{dereferenced, push_meaning, unescaped};
use crate::definitions::unescaped_title;
use crate::inline_tokens::code_text;
use crate::slots::Slot;
use crate::targets::Target;
use htmd_parts::{Part, Tag, TagEnd};
use std::alloc::{AllocError, Global};

fn address(alloc: Global, target: Target<'_>) -> Result<String, AllocError>
    ensures { IfOk result (λ s. string_bytes s ≡ address_of target.entry) }
{
    match target {
        Target::Written { address, .. } => unescaped(alloc, address),
        Target::Defined(definition) => Ok(definition.address.clone()?),
    }
}

fn copied(title: &Option<String>) -> Result<Option<String>, AllocError>
    ensures { IfOk result (λ t. option_map (λ s. string_bytes s) t ≡ option_map (λ s. string_bytes s) title.now) }
{
    match title {
        Some(title) => {
            let text = title.clone()?;
            Ok(Some(text))
        }
        None => Ok(None),
    }
}

fn title(alloc: Global, target: Target<'_>) -> Result<Option<String>, AllocError>
    ensures { IfOk result (λ t. option_map (λ s. string_bytes s) t ≡ title_of target.entry) }
{
    match target {
        Target::Written { title, .. } => unescaped_title(alloc, title),
        Target::Defined(definition) => copied(&definition.title),
    }
}

/// Appends a text that was held back.
fn push_held(alloc: Global, parts: &mut Vec<Part>, held: &mut String) -> Result<(), AllocError>
    ensures parts { OnOk result (all_parts_of parts.new.items ≡ written parts.old.items (string_bytes held.old)) }
    ensures empty { OnOk result (string_bytes held.new ≡ []) }
{
    if held.is_empty() {
        return Ok(());
    }
    let text = std::mem::replace(held, String::new(alloc));
    parts.push(Part::Text(text))?;
    Ok(())
}

/// Appends a part behind a text.
fn push_part(
    alloc: Global,
    parts: &mut Vec<Part>,
    held: &mut String,
    part: Part,
) -> Result<(), AllocError>
    ensures { OnOk result (written parts.new.items (string_bytes held.new)
        ≡ written parts.old.items (string_bytes held.old) ++ part_of part) }
{
    push_held(alloc, parts, held)?;
    Ok(parts.push(part)?)
}

fn push_code(
    alloc: Global,
    parts: &mut Vec<Part>,
    held: &mut String,
    content: &str,
) -> Result<(), AllocError>
    ensures { OnOk result (written parts.new.items (string_bytes held.new)
        ≡ written parts.old.items (string_bytes held.old) ++ slot_parts (slot.Code content.entry)) }
{
    let code = code_text(alloc, content)?;
    push_part(alloc, parts, held, Part::Code(code))
}

fn push_raw(
    alloc: Global,
    parts: &mut Vec<Part>,
    held: &mut String,
    tag: &str,
) -> Result<(), AllocError>
    ensures { OnOk result (written parts.new.items (string_bytes held.new)
        ≡ written parts.old.items (string_bytes held.old) ++ slot_parts (slot.Raw tag.entry)) }
{
    let tag = String::from_str(alloc, tag)?;
    push_part(alloc, parts, held, Part::Html(tag))
}

/// Appends a link to an address with this text.
fn push_link(
    alloc: Global,
    parts: &mut Vec<Part>,
    held: &mut String,
    address: String,
    text: &str,
) -> Result<(), AllocError>
    ensures { OnOk result (written parts.new.items (string_bytes held.new)
        ≡ written parts.old.items (string_bytes held.old) ++ link_parts (string_bytes address) text.now) }
{
    let title = None;
    push_part(
        alloc,
        parts,
        held,
        Part::Start(Tag::Link { address, title }),
    )?;
    held.push_str(text)?;
    push_part(alloc, parts, held, Part::End(TagEnd::Link))
}

fn push_uri(
    alloc: Global,
    parts: &mut Vec<Part>,
    held: &mut String,
    uri: &str,
) -> Result<(), AllocError>
    ensures { OnOk result (written parts.new.items (string_bytes held.new)
        ≡ written parts.old.items (string_bytes held.old) ++ slot_parts (slot.Uri uri.entry)) }
{
    let text = dereferenced(alloc, uri)?;
    let address = text.clone()?;
    push_link(alloc, parts, held, address, text.as_str())
}

fn push_email(
    alloc: Global,
    parts: &mut Vec<Part>,
    held: &mut String,
    email: &str,
) -> Result<(), AllocError>
    ensures { OnOk result (written parts.new.items (string_bytes held.new)
        ≡ written parts.old.items (string_bytes held.old) ++ slot_parts (slot.Email email.entry)) }
{
    let mut address = String::from_str(alloc, "mailto:")?;
    address.push_str(email)?;
    push_link(alloc, parts, held, address, email)
}

fn begin_link(
    alloc: Global,
    parts: &mut Vec<Part>,
    held: &mut String,
    target: Target<'_>,
) -> Result<(), AllocError>
    ensures { OnOk result (written parts.new.items (string_bytes held.new)
        ≡ written parts.old.items (string_bytes held.old) ++ slot_parts (slot.BeginLink target.entry)) }
{
    let address = address(alloc, target)?;
    let title = title(alloc, target)?;
    push_part(
        alloc,
        parts,
        held,
        Part::Start(Tag::Link { address, title }),
    )
}

fn begin_image(
    alloc: Global,
    parts: &mut Vec<Part>,
    held: &mut String,
    target: Target<'_>,
) -> Result<(), AllocError>
    ensures { OnOk result (written parts.new.items (string_bytes held.new)
        ≡ written parts.old.items (string_bytes held.old) ++ slot_parts (slot.BeginImage target.entry)) }
{
    let address = address(alloc, target)?;
    push_part(alloc, parts, held, Part::Start(Tag::Image { address }))
}

fn end_image(
    alloc: Global,
    parts: &mut Vec<Part>,
    held: &mut String,
    target: Target<'_>,
) -> Result<(), AllocError>
    ensures { OnOk result (written parts.new.items (string_bytes held.new)
        ≡ written parts.old.items (string_bytes held.old) ++ slot_parts (slot.EndImage target.entry)) }
{
    let title = title(alloc, target)?;
    push_part(alloc, parts, held, Part::End(TagEnd::Image { title }))
}

/// The sign of a bracket that begins nothing.
fn opening(is_image: bool) -> &'static str
    ensures { result.now ≡ sign_of is_image }
{
    if is_image { "![" } else { "[" }
}

/// Appends a slot. Of text, more may follow: it is held back.
fn push_slot(
    alloc: Global,
    parts: &mut Vec<Part>,
    held: &mut String,
    slot: Slot<'_>,
) -> Result<(), AllocError>
    ensures { OnOk result (written parts.new.items (string_bytes held.new)
        ≡ written parts.old.items (string_bytes held.old) ++ slot_parts slot.entry) }
{
    match slot {
        Slot::Nothing => Ok(()),
        Slot::Sign(sign) => held.push(char::from(sign)),
        Slot::Text(text) => held.push_str(text),
        Slot::Reference(meaning) => push_meaning(held, meaning),
        Slot::Opening(is_image) => held.push_str(opening(is_image)),
        Slot::Code(content) => push_code(alloc, parts, held, content),
        Slot::Uri(uri) => push_uri(alloc, parts, held, uri),
        Slot::Email(email) => push_email(alloc, parts, held, email),
        Slot::Raw(tag) => push_raw(alloc, parts, held, tag),
        Slot::LineBreak => push_part(alloc, parts, held, Part::LineBreak),
        Slot::Begin(format) => {
            push_part(alloc, parts, held, Part::Start(Tag::Formatted(format)))
        }
        Slot::End(format) => push_part(alloc, parts, held, Part::End(TagEnd::Formatted(format))),
        Slot::BeginLink(target) => begin_link(alloc, parts, held, target),
        Slot::EndLink => push_part(alloc, parts, held, Part::End(TagEnd::Link)),
        Slot::BeginImage(target) => begin_image(alloc, parts, held, target),
        Slot::EndImage(target) => end_image(alloc, parts, held, target),
    }
}

/// Appends the parts of slots. `Err` means out of memory.
pub(crate) fn push_slots(
    alloc: Global,
    slots: &[Slot<'_>],
    parts: &mut Vec<Part>,
) -> Result<(), AllocError>
    ensures { OnOk result (all_parts_of parts.new.items ≡ all_parts_of parts.old.items ++ slots_parts slots.now) }
{
    let mut held = String::new(alloc);
    for slot in slots {
        push_slot(alloc, parts, &mut held, *slot)?;
    }
    push_held(alloc, parts, &mut held)
}
