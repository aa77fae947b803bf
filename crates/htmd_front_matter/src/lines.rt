//! The front matter of a page, line by line.
ghost use Rattle.std.specs.Prelude.{◌≡◌, ◌++◌, IfOk, OnOk, string_bytes};
ghost use Rattle.json.specs.Print.{quoted};
ghost use Rattle.htmd_nodes.specs.NumberedTrees.{value_at};
ghost use Rattle.htmd_front_matter.specs.Values.{value_in};
ghost use Rattle.htmd_front_matter.specs.Lines as spec;

use crate::values::{Key, name_of, value_in};
use htmd_nodes::Tree;
use htmd_text::{TrimDocumentWhitespace, compress_whitespace};
use serde_json::{Value, json};
use std::alloc::{AllocError, Global};

/// The keys, in the order in which they are written.
pub(crate) const KEYS: [Key; 7] = [
    Key::Title,
    Key::Lang,
    Key::Description,
    Key::Author,
    Key::Date,
    Key::Canonical,
    Key::Keywords,
];

/// A text as a JSON string, which YAML reads.
fn quoted_text(alloc: Global, text: &str) -> Result<String, AllocError>
    ensures { IfOk result (λ s. string_bytes s ≡ quoted text.now) }
{
    let value: Value = json!(in alloc; text)?;
    value.to_string(alloc)
}

/// The value with single spaces, and none at its ends.
pub(crate) fn tidied(alloc: Global, value: &str) -> Result<String, AllocError>
    ensures { IfOk result (λ s. string_bytes s ≡ spec.tidied value.now) }
{
    let squeezed = compress_whitespace(alloc, value)?;
    String::from_str(alloc, squeezed.as_str().trim_document_whitespace())
}

/// A value as it is written: as a JSON string.
pub(crate) fn written(alloc: Global, value: &str) -> Result<String, AllocError>
    ensures { IfOk result (λ s. string_bytes s ≡ spec.written value.now) }
{
    let value = tidied(alloc, value)?;
    quoted_text(alloc, value.as_str())
}

fn push_line(alloc: Global, lines: &mut String, key: Key, value: &str) -> Result<(), AllocError>
    ensures { OnOk result (string_bytes lines.new ≡ string_bytes lines.old ++ spec.line key value.now) }
{
    let value = written(alloc, value)?;
    lines.push_str(name_of(key))?;
    lines.push_str(": ")?;
    lines.push_str(value.as_str())?;
    lines.push_str("\n")
}

/// What is said under a key, if it is said.
fn push_value(alloc: Global, lines: &mut String, tree: &Tree, key: Key) -> Result<(), AllocError>
    ensures { OnOk result (string_bytes lines.new
        ≡ string_bytes lines.old ++ spec.line_if key (value_in key (value_at tree.now 0))) }
{
    match value_in(key, tree) {
        Some(value) => push_line(alloc, lines, key, value),
        None => Ok(()),
    }
}

/// What the head of a page says about it, each as a line of YAML whose value is a JSON string: `title`, `lang`,
/// `description`, `author`, `date`, `canonical` and `keywords`, where they are there. `Err` means out of memory.
pub fn front_matter(alloc: Global, tree: &Tree) -> Result<String, AllocError>
    ensures { IfOk result (λ s. string_bytes s ≡ spec.front_matter tree.now) }
{
    let mut lines = String::new(alloc);
    for key in &KEYS {
        push_value(alloc, &mut lines, tree, *key)?;
    }
    Ok(lines)
}
