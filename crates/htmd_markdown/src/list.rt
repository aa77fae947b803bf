//! List items and lists (CommonMark 0.31.2, 5.2 and 5.3).
ghost use Rattle.std.specs.Prelude.{◌≡◌, ◌-◌, ◌<◌, ◌≤◌, true, ◌++◌, IfOk, OnOk, length, map, replicate, string_bytes};
ghost use Rattle.htmd_lexical.specs.Characters.{line_feed};
ghost use Rattle.std.specs.Option.{option_copied, option_map};
ghost use Rattle.htmd_text.specs.Indents.{indented_text};
ghost use Rattle.htmd_text.specs.Trims.{trimmed_start, is_line_feed};
ghost use Rattle.htmd_markdown.specs.ListItems as items;
ghost use Rattle.htmd_markdown.specs.ListColumns.{HasEqualColumns};
ghost use Rattle.htmd_markdown.specs.Lists as spec;

use htmd_text::repeats::leading_len;
use htmd_text::{
    TrimDocumentWhitespace, digits, join_blocks, push_indented, push_repeated, trim_end_line_feeds,
};
use std::alloc::{AllocError, Global};

/// What comes before the items of a bullet list.
#[derive(Debug, Clone, Copy, PartialEq)]
pub enum BulletListMarker {
    Asterisk,
    Dash,
}

/// What a child of an ordered list gives.
#[derive(Drop)]
pub enum ListBlock {
    /// The content of an item, which gets a number.
    Item(String),
    /// The text of another child.
    Other(String),
}

/// The number of the first item of an ordered list, by its attribute `start`, read as Rust reads an `i32`: a sign is
/// allowed, a number below 1 counts as 1, and so does what is not a number.
pub fn first_number(start: Option<&str>) -> u32
    ensures { result ≡ spec.first_number (option_copied start.entry) }
{
    let Some(text) = start else { return 1 };
    match text.parse::<i32>() {
        Ok(number) if number > 0 => number.unsigned_abs(),
        Ok(_) => 1,
        Err(_) => 1,
    }
}

/// An item of a bullet list, in a line of its own: the marker, this many spaces, and the content without document white
/// space at its start. The content's further lines are indented to its first character, without document white space at
/// their ends. `Err` means out of memory.
pub fn write_bullet_item(
    alloc: Global,
    marker: BulletListMarker,
    spacing: u8,
    content: &str,
) -> Result<String, AllocError>
    ensures { IfOk result (λ t. string_bytes t ≡ items.bullet_item marker spacing content.now) }
{
    let content = content.trim_start_document_whitespace();
    let mut item = String::with_capacity(alloc, content.len() + spacing as usize + 2)?;
    item.push('\n')?;
    item.push(bullet(marker))?;
    push_repeated(&mut item, ' ', spacing as usize)?;
    push_content(&mut item, content)?;
    Ok(item)
}

fn bullet(marker: BulletListMarker) -> char
    ensures value { result ≡ items.bullet marker }
    ensures ascii { result < 128 }
{
    match marker {
        BulletListMarker::Asterisk => '*',
        BulletListMarker::Dash => '-',
    }
}

/// The content of an item of an ordered list, between line feeds and without document white space at its start: the
/// list puts the number before it. `Err` means out of memory.
pub fn write_unnumbered_item(alloc: Global, content: &str) -> Result<String, AllocError>
    ensures { IfOk result (λ t. string_bytes t ≡ items.unnumbered_item content.now) }
{
    let content = content.trim_start_document_whitespace();
    let mut item = String::with_capacity(alloc, content.len() + 2)?;
    item.push('\n')?;
    item.push_str(content)?;
    item.push('\n')?;
    Ok(item)
}

/// The blocks of an ordered list: each item after its number, and the other texts as they are. The contents of all
/// items begin in the same column, after the highest number and this many spaces. `Err` means out of memory.
pub fn write_ordered_list(
    alloc: Global,
    first: u32,
    spacing: u8,
    blocks: Vec<ListBlock>,
) -> Result<String, AllocError>
    ensures text { IfOk result
        (λ t. string_bytes t ≡ spec.ordered_list first spacing (map spec.block_of blocks.items)) }
    ensures columns { IfOk result
        (λ t. HasEqualColumns first spacing (map spec.block_of blocks.items) (string_bytes t)) }
{
    let mut number = first as usize;
    let highest = (number + item_count(&blocks)).saturating_sub(1);
    let mut texts = Vec::with_capacity(alloc, blocks.len())?;
    for block in blocks {
        match block {
            ListBlock::Item(content) => {
                texts.push(write_numbered_item(alloc, spacing, highest, number, &content)?)?;
                number += 1;
            }
            ListBlock::Other(text) => texts.push(text)?,
        }
    }
    join_blocks(alloc, &texts)
}

fn item_count(blocks: &[ListBlock]) -> usize
    ensures { result ≡ spec.item_count (map spec.block_of blocks.now) }
{
    let mut count = 0;
    for block in blocks {
        match block {
            ListBlock::Item(_) => count += 1,
            ListBlock::Other(_) => {}
        }
    }
    count
}

/// The spaces after the dot of a number: as many as the option says, and one for each digit more that the highest
/// number has.
pub fn aligned_spaces(spacing: u8, highest: usize, number: usize) -> usize
    ensures bound { result ≤ 275 }
    ensures value { result ≡ items.aligned_spaces spacing highest number }
{
    spacing as usize + digits(highest).saturating_sub(digits(number))
}

/// An item in a line of its own: the number, a dot, the spaces after it, and the content without line feeds at its
/// start.
fn write_numbered_item(
    alloc: Global,
    spacing: u8,
    highest: usize,
    number: usize,
    content: &str,
) -> Result<String, AllocError>
    ensures { IfOk result (λ t. string_bytes t ≡ items.numbered_item spacing highest number content.now) }
{
    let content = without_line_feeds_before(content);
    let spaces = aligned_spaces(spacing, highest, number);
    let mut item = String::with_capacity(alloc, content.len() + spaces + 22)?;
    item.push('\n')?;
    write!(item, "{number}")?;
    item.push('.')?;
    push_repeated(&mut item, ' ', spaces)?;
    push_content(&mut item, content)?;
    Ok(item)
}

/// Appends the content of an item after its marker, which comes after a line feed: further lines stand after as many
/// spaces as the marker takes characters.
fn push_content(item: &mut String, content: &str) -> Result<(), AllocError>
    requires { 0 < length (string_bytes item.old) }
    ensures { OnOk result (string_bytes item.new
        ≡ string_bytes item.old ++ indented_text content.now (length (string_bytes item.old) - 1) true) }
{
    let indent = item.len() - 1;
    push_indented(item, content, indent, true)
}

/// The text without line feeds at its start.
fn without_line_feeds_before(text: &str) -> &str
    ensures { result.now ≡ trimmed_start is_line_feed text.now }
{
    &text[leading_len(text.as_bytes(), b'\n')..]
}

/// A list among the blocks around it, without line feeds at its own ends: in an item it begins and ends a line,
/// elsewhere it has blank lines around it. Nothing if the list is empty. `Err` means out of memory.
pub fn write_list_block(mut list: String, is_in_item: bool) -> Result<Option<String>, AllocError>
    ensures { IfOk result (λ block. option_map string_bytes block
        ≡ spec.list_block is_in_item (string_bytes list)) }
{
    let line_feeds = if is_in_item { 1 } else { 2 };
    begin_with_line_feeds(&mut list, line_feeds)?;
    trim_end_line_feeds(&mut list);
    if list.is_empty() {
        return Ok(None);
    }
    push_repeated(&mut list, '\n', line_feeds)?;
    Ok(Some(list))
}

/// Puts this many line feeds in place of those at the start. A text that begins with as many isn't moved: lists in one
/// another are long.
fn begin_with_line_feeds(text: &mut String, count: usize) -> Result<(), AllocError>
    requires { count ≤ 2 }
    ensures { OnOk result (string_bytes text.new
        ≡ replicate count line_feed ++ trimmed_start is_line_feed (string_bytes text.old)) }
{
    let start = leading_len(text.as_bytes(), b'\n');
    if start == count {
        return Ok(());
    }
    text.replace_range(..start, &"\n\n"[..count])?;
    Ok(())
}
