//! The struct for pages: the texts that it holds, and the settings that it stands for.
ghost use Rattle.std.specs.Prelude.{◌≡◌, ◌↔◌, [], None, false, map, MatchBool, IfOk, IfErr, IsErrOf};
ghost use Rattle.htmd.specs.PageSettings.{settings_in};
ghost use Rattle.htmd_selectors.specs.Views.{steps_in};
ghost use Rattle.htmd_c.specs.Options as options;
ghost use Rattle.htmd_c.specs.PageOptions as spec;

use crate::failures::Failure;
use crate::options::{HtmdOptions, default_struct, is_good, settings_of};
use htmd::PageSettings;
use htmd::page_values::{are_names, parse_url, push_names, push_selectors};
use htmd_encodings::{Encoding, encoding_named};
use htmd_selectors::{SelectorError, Selectors};
use std::alloc::{AllocError, Global};
use url::Url;

/// The options of a page: those of any text, and texts. One without bytes says nothing.
#[repr(C)]
#[derive(Debug, Clone, Copy)]
pub struct HtmdPageOptions<'a> {
    pub options: HtmdOptions,
    /// Selectors of what is converted, with commas between them.
    pub select: &'a [u8],
    /// Selectors of what is left out, with commas between them.
    pub drop: &'a [u8],
    /// Names of elements that give nothing, with commas between them.
    pub skip: &'a [u8],
    /// The URL of the page, by which addresses are made absolute.
    pub base: &'a [u8],
    /// The label of the encoding of a page whose bytes have no mark.
    pub encoding: &'a [u8],
}

/// The struct without texts.
pub(crate) fn default_page_struct<'a>() -> HtmdPageOptions<'a>
    ensures options { result.options ≡ options.default_struct }
    ensures select { result.select.now ≡ [] }
    ensures drop { result.drop.now ≡ [] }
    ensures skip { result.skip.now ≡ [] }
    ensures base { result.base.now ≡ [] }
    ensures encoding { result.encoding.now ≡ [] }
{
    HtmdPageOptions {
        options: default_struct(),
        select: b"",
        drop: b"",
        skip: b"",
        base: b"",
        encoding: b"",
    }
}

/// Adds the selectors of a text. It is false if they are none.
#[tactic(auto, using(crate::proofs::CallLemmas::selectors_untold, crate::proofs::CallLemmas::selectors_told))]
fn read_selectors(alloc: Global, selectors: &mut Selectors, text: &[u8]) -> Result<bool, AllocError>
    requires { steps_in selectors.old ≡ [] }
    ensures { IfOk result (λ is_read. MatchBool is_read
        (spec.AreSelectors text.now (steps_in selectors.new)) (spec.AreNoSelectors text.now)) }
{
    if text.is_empty() {
        return Ok(true);
    }
    let Ok(text) = str::from_utf8(text) else {
        return Ok(false);
    };
    match push_selectors(alloc, selectors, text) {
        Ok(()) => Ok(true),
        Err(SelectorError::Memory) => Err(AllocError),
        Err(_) => Ok(false),
    }
}

/// Adds the names of a text. It is false if one is empty.
#[tactic(auto, using(crate::proofs::CallLemmas::names_untold, crate::proofs::CallLemmas::names_told))]
fn read_names<'a>(names: &mut Vec<&'a str>, text: &'a [u8]) -> Result<bool, AllocError>
    requires { names.old.items ≡ [] }
    ensures { IfOk result (λ is_read. MatchBool is_read
        (spec.AreNames text.now (map (λ name. name.now) names.new.items)) (spec.AreNoNames text.now)) }
{
    if text.is_empty() {
        return Ok(true);
    }
    let Ok(text) = str::from_utf8(text) else {
        return Ok(false);
    };
    if !are_names(text) {
        return Ok(false);
    }
    push_names(names, text)?;
    Ok(true)
}

/// Sets the URL that a text is. It is false if the text is none.
#[tactic(auto, using(crate::proofs::CallLemmas::base_untold, crate::proofs::CallLemmas::base_told))]
fn read_base(alloc: Global, base: &mut Option<Url>, text: &[u8]) -> Result<bool, AllocError>
    requires { base.old ≡ None }
    ensures { IfOk result (λ is_read. MatchBool is_read
        (spec.IsBase text.now base.new) (spec.IsNoBase text.now)) }
{
    if text.is_empty() {
        return Ok(true);
    }
    let Ok(text) = str::from_utf8(text) else {
        return Ok(false);
    };
    let Some(url) = parse_url(alloc, text)? else {
        return Ok(false);
    };
    *base = Some(url);
    Ok(true)
}

/// Sets the encoding that a text names. It is false if that isn't supported.
#[tactic(auto, using(crate::proofs::CallLemmas::encoding_untold, crate::proofs::CallLemmas::encoding_told))]
fn read_encoding(encoding: &mut Option<Encoding>, text: &[u8]) -> bool
    requires { encoding.old ≡ None }
    ensures { MatchBool result (spec.IsEncoding text.now encoding.new) (spec.IsNoEncoding text.now) }
{
    if text.is_empty() {
        return true;
    }
    let Some(named) = encoding_named(text) else {
        return false;
    };
    *encoding = Some(named);
    true
}

/// The settings that the struct stands for.
pub(crate) fn page_settings<'a>(
    alloc: Global,
    given: &HtmdPageOptions<'a>,
) -> Result<PageSettings<'a>, Failure>
    ensures ok { IfOk result (λ settings. spec.IsSettingsOf given.now (settings_in settings)) }
    ensures options { IsErrOf result Failure.BadOptions ↔ (options.is_good given.now.options ≡ false) }
    ensures fault { IfErr result (spec.IsSettingsFault given.now) }
{
    if !is_good(&given.options) {
        return Err(Failure::BadOptions);
    }
    let mut settings = settings_of(alloc, &given.options);
    settings.encoding = None;
    if !read_selectors(alloc, &mut settings.selected, given.select)? {
        return Err(Failure::BadSelect);
    }
    if !read_selectors(alloc, &mut settings.dropped, given.drop)? {
        return Err(Failure::BadDrop);
    }
    if !read_names(&mut settings.skipped, given.skip)? {
        return Err(Failure::BadSkip);
    }
    if !read_base(alloc, &mut settings.base, given.base)? {
        return Err(Failure::BadBase);
    }
    if !read_encoding(&mut settings.encoding, given.encoding) {
        return Err(Failure::BadEncoding);
    }
    Ok(settings)
}
