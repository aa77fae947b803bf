//! Attributes whose values HTML compares with ASCII letters in either case (HTML standard, 'Case-sensitivity of
//! selectors').
ghost use Rattle.std.specs.Prelude.{◌≡◌};
ghost use Rattle.std.specs.List.{list_any};
ghost use Rattle.htmd_selectors.specs.Matching.{same_name};
ghost use Rattle.htmd_selectors.specs.Reading as spec;

use crate::matching::is_same_name;

/// The attributes whose values are the same with ASCII letters in either case, where no flag says otherwise.
const CASELESS: [&str; 46] = [
    "accept",
    "accept-charset",
    "align",
    "alink",
    "axis",
    "bgcolor",
    "charset",
    "checked",
    "clear",
    "codetype",
    "color",
    "compact",
    "declare",
    "defer",
    "dir",
    "direction",
    "disabled",
    "enctype",
    "face",
    "frame",
    "hreflang",
    "http-equiv",
    "lang",
    "language",
    "link",
    "media",
    "method",
    "multiple",
    "nohref",
    "noresize",
    "noshade",
    "nowrap",
    "readonly",
    "rel",
    "rev",
    "rules",
    "scope",
    "scrolling",
    "selected",
    "shape",
    "target",
    "text",
    "type",
    "valign",
    "valuetype",
    "vlink",
];

/// Whether a name is one of these, ASCII letters in either case.
fn is_among(name: &[u8], names: &[&str]) -> bool
    ensures { result ≡ list_any (λ known. same_name known.now name.now) names.now }
{
    names
        .iter()
        .any(|known| is_same_name(known.as_bytes(), name))
}

/// Whether HTML compares the values of attributes with this name so.
pub(crate) fn is_caseless_name(name: &[u8]) -> bool
    ensures { result ≡ spec.is_caseless_name name.now }
{
    is_among(name, &CASELESS)
}
