//! What bytes become by a struct of options.
ghost use Rattle.std.specs.Prelude.{◌≡◌, ◌↔◌, IfOk, IfErr, IsErrOf, IsUtf8, false, string_bytes};
ghost use Rattle.htmd_c.specs.CallResults.{IsFailureOf, IsPageFailureOf, IsPageOutputOf};
ghost use Rattle.htmd_c.specs.Options.{is_good, settings_of};
ghost use Rattle.htmd.specs.PageOutputs.{IsOutputOf};

use crate::failures::Failure;
use crate::options::{HtmdOptions, is_good, settings_of};
use crate::page_options::{HtmdPageOptions, page_settings};
use htmd::{PageError, convert_page};
use std::alloc::Global;

/// What bytes in UTF-8 become. The options are checked first, and then whether the bytes are UTF-8.
#[tactic(auto, using(crate::proofs::CallLemmas::text_fault))]
pub(crate) fn output_of(
    alloc: Global,
    html: &[u8],
    options: &HtmdOptions,
) -> Result<String, Failure>
    ensures ok { IfOk result (λ text. IsOutputOf (settings_of options.now) html.now (string_bytes text)) }
    ensures good { IfOk result (λ _. IsUtf8 html.now) }
    ensures options { IsErrOf result Failure.BadOptions ↔ (is_good options.now ≡ false) }
    ensures fault { IfErr result (IsFailureOf options.now html.now) }
{
    if !is_good(options) {
        return Err(Failure::BadOptions);
    }
    if str::from_utf8(html).is_err() {
        return Err(Failure::Page(PageError::NotUtf8));
    }
    let settings = settings_of(alloc, options);
    Ok(convert_page(alloc, html, &settings)?)
}

/// What the bytes of a page become. The options are checked first.
#[tactic(auto, using(crate::proofs::CallLemmas::page_fault))]
pub(crate) fn page_output_of(
    alloc: Global,
    page: &[u8],
    options: &HtmdPageOptions<'_>,
) -> Result<String, Failure>
    ensures ok { IfOk result (λ text. IsPageOutputOf options.now page.now (string_bytes text)) }
    ensures options { IsErrOf result Failure.BadOptions ↔ (is_good options.now.options ≡ false) }
    ensures fault { IfErr result (IsPageFailureOf options.now page.now) }
{
    let settings = page_settings(alloc, options)?;
    Ok(convert_page(alloc, page, &settings)?)
}
