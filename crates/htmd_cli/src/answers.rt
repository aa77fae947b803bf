//! What is written for a row.
ghost use Rattle.std.specs.Prelude.{◌≡◌, ◌++◌, [], List, ℕ, OnOk};
ghost use Rattle.htmd_cli.specs.Rows.{IsFieldAnswer, IsPageAnswer, IsRowAnswer};
ghost use Rattle.htmd.specs.PageConverters.{IsReady, settings_of};

use htmd::element_handler::Registry;
use htmd::{PageConverter, PageError};
use htmd_streams::{NULL, fields_of, read_field, write_field};
use std::alloc::{AllocError, Global};

/// Appends what is written for a row to an answer, and the page of its last field to an empty page. The result is
/// `Some` if that page is refused.
pub(crate) fn answer_row<H: Registry>(
    alloc: Global,
    converter: &PageConverter<'_, '_, H>,
    row: &[u8],
    page: &mut Vec<u8>,
    answer: &mut Vec<u8>,
) -> Result<Option<PageError>, AllocError>
    requires ready { IsReady H.ready H.config converter.now }
    requires page { page.old.items ≡ [] }
    requires answer { answer.old.items ≡ [] }
    ensures { OnOk result (IsRowAnswer (settings_of converter.now) row.now answer.new.items) }
{
    let (others, last) = fields_of(row);
    answer.extend_from_slice(others)?;
    let refused = answer_field(alloc, converter, last, page, answer)?;
    answer.push(b'\n')?;
    Ok(refused)
}

// The same for a field.
fn answer_field<H: Registry>(
    alloc: Global,
    converter: &PageConverter<'_, '_, H>,
    field: &[u8],
    page: &mut Vec<u8>,
    answer: &mut Vec<u8>,
) -> Result<Option<PageError>, AllocError>
    requires ready { IsReady H.ready H.config converter.now }
    requires page { page.old.items ≡ [] }
    ensures { OnOk result ((written : List ℕ) × IsFieldAnswer (settings_of converter.now) field.now written
        × (answer.new.items ≡ answer.old.items ++ written)) }
{
    if field == NULL {
        answer.extend_from_slice(NULL)?;
        return Ok(None);
    }
    read_field(field, page)?;
    answer_page(alloc, converter, page.as_slice(), answer)
}

// The same for a page.
#[tactic(auto, using(crate::proofs::RowsLemmas::refused_answer))]
fn answer_page<H: Registry>(
    alloc: Global,
    converter: &PageConverter<'_, '_, H>,
    page: &[u8],
    answer: &mut Vec<u8>,
) -> Result<Option<PageError>, AllocError>
    requires ready { IsReady H.ready H.config converter.now }
    ensures { OnOk result ((written : List ℕ) × IsPageAnswer (settings_of converter.now) page.now written
        × (answer.new.items ≡ answer.old.items ++ written)) }
{
    match converter.convert_alone(alloc, page) {
        Ok(output) => {
            write_field(output.as_bytes(), answer)?;
            Ok(None)
        }
        Err(PageError::Memory) => Err(AllocError),
        Err(error) => {
            answer.extend_from_slice(NULL)?;
            Ok(Some(error))
        }
    }
}
