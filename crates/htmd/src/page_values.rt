//! Values of settings that are told by a text: names between commas, selectors and URLs.

ghost use Rattle.std.specs.Prelude.{◌≡◌, ◌++◌, map, OnOk, IfOk, IfErr, None, Some};
ghost use Rattle.std.specs.List.{list_all};
ghost use Rattle.htmd_selectors.specs.Views.{steps_in};
ghost use Rattle.htmd.specs.PageValues as spec;
ghost use Rattle.htmd.specs.PageValues.{AddsSelectors, IsSelectorFault};

use htmd_selectors::{SelectorError, Selectors, parse_selectors};
use std::alloc::{AllocError, Global};
use url::{ParseError, Url};

/// Whether there are names between the commas of a text, none of them empty.
pub fn are_names(text: &str) -> bool
    ensures { result ≡ list_all spec.is_filled (spec.parts text.now) }
{
    let mut is_filled = false;
    for byte in text.as_bytes() {
        if *byte != b',' {
            is_filled = true;
        } else if is_filled {
            is_filled = false;
        } else {
            return false;
        }
    }
    is_filled
}

/// Adds the parts between the commas of a text.
pub fn push_names<'a>(names: &mut Vec<&'a str>, text: &'a str) -> Result<(), AllocError>
    ensures { OnOk result (map (λ name. name.now) names.new.items
        ≡ map (λ name. name.now) names.old.items ++ spec.parts text.now) }
{
    let mut rest = text;
    while let Some((name, behind)) = rest.split_once(',') {
        names.push(name)?;
        rest = behind;
    }
    names.push(rest)?;
    Ok(())
}

/// Adds the selectors of a text.
pub fn push_selectors(
    alloc: Global,
    selectors: &mut Selectors,
    text: &str,
) -> Result<(), SelectorError>
    ensures ok { OnOk result (AddsSelectors (steps_in selectors.old) (steps_in selectors.new) text.now) }
    ensures err { IfErr result (IsSelectorFault text.now) }
{
    let more = parse_selectors(alloc, text)?;
    selectors.append(more)?;
    Ok(())
}

/// The absolute URL that a text is. `Err` means out of memory, or a URL of 4 GB.
pub fn parse_url(alloc: Global, text: &str) -> Result<Option<Url>, AllocError>
    ensures { IfOk result (λ url. url ≡ spec.url text.now) }
{
    match Url::parse(alloc, text) {
        Ok(url) => Ok(Some(url)),
        Err(ParseError::OutOfMemory) => Err(AllocError),
        Err(ParseError::Overflow) => Err(AllocError),
        Err(_) => Ok(None),
    }
}
