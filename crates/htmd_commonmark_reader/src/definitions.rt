//! The link reference definitions that a paragraph begins with (CommonMark 0.31.2, 4.7).
ghost use Rattle.std.specs.Prelude.{◌≡◌, ◌++◌, None, map, option_map, string_bytes, IfOk, IfSome, OnOk};
ghost use Rattle.htmd_commonmark_reading.specs.Characters.{unescaped};
ghost use Rattle.htmd_commonmark_reading.specs.LinkDefinitions as spec;
ghost use Rattle.htmd_commonmark_reader.specs.Definitions.{defined_of, unkeyed, held_of, encoded};

use crate::characters::{White, stripped_end, unescaped};
use crate::labels::label_key;
use crate::link_definitions::{destination, label, past_line, past_white, title_after};
use htmd_scanning::strip_byte;
use std::alloc::{AllocError, Global};

/// A definition as it is spelled, and what follows it.
#[derive(Clone, Copy, Drop)]
pub(crate) struct RawDefinition<'a> {
    pub(crate) label: &'a str,
    pub(crate) address: &'a str,
    pub(crate) title: Option<&'a str>,
    pub(crate) rest: &'a str,
}

/// A definition with a title, whose destination ends before this rest.
fn with_title<'a>(label: &'a str, address: &'a str, rest: &'a str) -> Option<RawDefinition<'a>>
    ensures value { option_map defined_of result
        ≡ spec.with_title (spec.label_key label.now) address.now (spec.title_after rest.now) }
    ensures label { IfSome result (λ raw. raw.label.now ≡ label.now) }
{
    let Some(title) = title_after(rest) else {
        return None;
    };
    let Some(after) = past_line(title.rest) else {
        return None;
    };
    Some(RawDefinition {
        label,
        address,
        title: Some(title.front),
        rest: after,
    })
}

/// A definition without a title, whose destination ends before this rest.
fn without_title<'a>(label: &'a str, address: &'a str, rest: &'a str) -> Option<RawDefinition<'a>>
    ensures value { option_map defined_of result
        ≡ spec.defined_with (spec.label_key label.now) address.now None (spec.past_line rest.now) }
    ensures label { IfSome result (λ raw. raw.label.now ≡ label.now) }
{
    let Some(after) = past_line(rest) else {
        return None;
    };
    Some(RawDefinition {
        label,
        address,
        title: None,
        rest: after,
    })
}

/// A definition, from its destination on: a title, unless something follows it in its line; else the line must end.
fn after_label<'a>(label: &'a str, text: &'a str) -> Option<RawDefinition<'a>>
    ensures value { option_map defined_of result
        ≡ spec.after_destination (spec.label_key label.now) (spec.destination text.now) }
    ensures label { IfSome result (λ raw. raw.label.now ≡ label.now) }
{
    let Some(found) = destination(text) else {
        return None;
    };
    match with_title(label, found.front, found.rest) {
        Some(raw) => Some(raw),
        None => without_title(label, found.front, found.rest),
    }
}

/// The definition that a text begins with, whatever its label is.
pub(crate) fn raw_definition(text: &str) -> Option<RawDefinition<'_>>
    ensures { option_map defined_of result ≡ unkeyed (spec.label text.now) }
{
    let Some(found) = label(text) else {
        return None;
    };
    match strip_byte(found.rest, b':') {
        Some(rest) => after_label(found.front, past_white(rest)),
        None => None,
    }
}

/// A link reference definition.
#[derive(Drop)]
pub(crate) struct Definition {
    /// Its label, as it is compared.
    pub(crate) key: String,
    pub(crate) address: String,
    pub(crate) title: Option<String>,
}

/// A title with its escapes and references resolved, if there is one.
pub(crate) fn unescaped_title(
    alloc: Global,
    title: Option<&str>,
) -> Result<Option<String>, AllocError>
    ensures { IfOk result (λ t. option_map (λ s. string_bytes s) t
        ≡ option_map (λ s. unescaped s.now) title.entry) }
{
    match title {
        Some(raw) => {
            let text = unescaped(alloc, raw)?;
            Ok(Some(text))
        }
        None => Ok(None),
    }
}

/// Appends the definitions that a text begins with, and returns the rest without white space at its end. `Err` means
/// out of memory.
pub(crate) fn definitions<'a>(
    alloc: Global,
    text: &'a str,
    found: &mut Vec<Definition>,
) -> Result<&'a str, AllocError>
    ensures rest { IfOk result (λ rest. rest.now ≡ (spec.definitions text.now).rest) }
    ensures found { OnOk result (map held_of found.new.items
        ≡ map held_of found.old.items ++ map encoded (spec.definitions text.now).found) }
{
    let mut rest = text;
    while let Some(raw) = raw_definition(rest) {
        let key = label_key(alloc, raw.label)?;
        if key.as_str().is_empty() {
            return Ok(stripped_end(rest, White));
        }
        let address = unescaped(alloc, raw.address)?;
        let title = unescaped_title(alloc, raw.title)?;
        found.push(Definition {
            key,
            address,
            title,
        })?;
        rest = raw.rest;
    }
    Ok(stripped_end(rest, White))
}
