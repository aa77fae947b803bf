//! Tables as parts (GFM 0.29, 4.10).
ghost use Rattle.std.specs.Prelude.{◌≡◌, ◌++◌, [], drop, map, OnOk};
ghost use Rattle.htmd_commonmark_reading.specs.Lists.{cell_inlines, row_inlines};
ghost use Rattle.htmd_commonmark_reading.specs.Rendering.{first_alignment};
ghost use Rattle.htmd_commonmark_reader.specs.References.{references_of};
ghost use Rattle.htmd_commonmark_reader.specs.Rows.{strings};
ghost use Rattle.htmd_commonmark_reader.specs.TableCells.{cell_begin, cell_end};
ghost use Rattle.htmd_parts.specs.PartViews.{tag_of, end_of, all_parts_of};
ghost use Rattle.htmd_parts.specs.Parts as spec;

use crate::inlines::inlines;
use crate::parts::push_part;
use crate::references::References;
use htmd_document::Alignment;
use htmd_parts::{Part, Tag, TagEnd};
use std::alloc::{AllocError, Global};

fn begin_of_cell(is_header: bool, alignment: Alignment) -> Tag
    ensures { tag_of result ≡ cell_begin is_header alignment }
{
    if is_header {
        Tag::HeaderCell(alignment)
    } else {
        Tag::Cell(alignment)
    }
}

fn end_of_cell(is_header: bool) -> TagEnd
    ensures { end_of result ≡ cell_end is_header }
{
    if is_header {
        TagEnd::HeaderCell
    } else {
        TagEnd::Cell
    }
}

/// The alignment of a column.
fn alignment_at(alignments: &[Alignment], column: usize) -> Alignment
    ensures { result ≡ first_alignment (drop column alignments.now) }
{
    if column < alignments.len() {
        alignments[column]
    } else {
        Alignment::None
    }
}

/// Appends a row of cells. `Err` means out of memory.
fn push_row(
    alloc: Global,
    is_header: bool,
    alignments: &[Alignment],
    cells: &[String],
    references: &References,
    parts: &mut Vec<Part>,
) -> Result<(), AllocError>
    ensures { OnOk result (all_parts_of parts.new.items ≡ all_parts_of parts.old.items
        ++ spec.row_parts (cell_begin is_header) (cell_end is_header) alignments.now
        (cell_inlines (references_of references.now) (strings cells.now)) []) }
{
    push_part(parts, Part::Start(Tag::Row))?;
    for (column, cell) in cells.iter().enumerate() {
        let begin = begin_of_cell(is_header, alignment_at(alignments, column));
        push_part(parts, Part::Start(begin))?;
        inlines(alloc, cell.as_str(), references, parts)?;
        push_part(parts, Part::End(end_of_cell(is_header)))?;
    }
    push_part(parts, Part::End(TagEnd::Row))
}

/// Appends the rows below the header, if there are any.
fn push_body(
    alloc: Global,
    alignments: &[Alignment],
    rows: &[Vec<String>],
    references: &References,
    parts: &mut Vec<Part>,
) -> Result<(), AllocError>
    ensures { OnOk result (all_parts_of parts.new.items ≡ all_parts_of parts.old.items
        ++ spec.body_parts alignments.now
        (row_inlines (references_of references.now) (map (λ row. strings row.items) rows.now)) []) }
{
    if rows.is_empty() {
        return Ok(());
    }
    push_part(parts, Part::Start(Tag::Body))?;
    for row in rows {
        push_row(alloc, false, alignments, row, references, parts)?;
    }
    push_part(parts, Part::End(TagEnd::Body))
}

/// Appends a table. `Err` means out of memory.
pub(crate) fn push_table(
    alloc: Global,
    alignments: &[Alignment],
    header: &[String],
    rows: &[Vec<String>],
    references: &References,
    parts: &mut Vec<Part>,
) -> Result<(), AllocError>
    ensures { OnOk result (all_parts_of parts.new.items ≡ all_parts_of parts.old.items
        ++ spec.table_parts alignments.now (cell_inlines (references_of references.now) (strings header.now))
        (row_inlines (references_of references.now) (map (λ row. strings row.items) rows.now)) []) }
{
    push_part(parts, Part::Start(Tag::Table))?;
    push_part(parts, Part::Start(Tag::Head))?;
    push_row(alloc, true, alignments, header, references, parts)?;
    push_part(parts, Part::End(TagEnd::Head))?;
    push_body(alloc, alignments, rows, references, parts)?;
    push_part(parts, Part::End(TagEnd::Table))
}
