//! The Markdown of an input by a mode.
ghost use Rattle.std.specs.Prelude.{◌≡◌, ℕ, true, false, Err, IfOk, string_bytes};
ghost use Rattle.htmd.specs.Conversions.{IsRefused};
ghost use Rattle.htmd.specs.FaultKind.{FaultKind};
ghost use Rattle.htmd_cli.specs.ModeRuns.{IsMarkdownBy};

use crate::mode::Mode;
use htmd::{ConvertError, HtmlToMarkdown, paragraph_of};
use std::alloc::Global;

/// The Markdown of an input by a mode: of its one paragraph, or of its HTML. `Refused` if that is outside the grammar,
/// `Memory` when out of memory.
#[tactic(auto, unfolding(htmd::specs::PageOutputs::paragraph_markdown))]
pub(crate) fn markdown_by(alloc: Global, mode: Mode, input: &str) -> Result<String, ConvertError>
    ensures ok { IfOk result (λ markdown. IsMarkdownBy mode.text mode.faithful input.now (string_bytes markdown)) }
    ensures refused_html { (place : ℕ) (kind : FaultKind) → result ≡ Err (ConvertError.Refused place kind)
        → mode.text ≡ false }
    ensures refused { (place : ℕ) (kind : FaultKind) → result ≡ Err (ConvertError.Refused place kind)
        → IsRefused true input.now place kind }
{
    let converter = HtmlToMarkdown::builder(alloc)?
        .options(mode.options())
        .build();
    if mode.text {
        let tree = paragraph_of(alloc, input)?;
        return Ok(converter.tree_to_markdown(alloc, &tree, tree.root())?);
    }
    converter.convert(alloc, input)
}
