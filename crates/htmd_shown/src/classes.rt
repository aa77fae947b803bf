//! Words of classes by which makers of pages say what an element is.
ghost use Rattle.std.specs.Prelude.{◌≡◌, map};
ghost use Rattle.htmd_lexical.specs.Attributes.{pairs_of};
ghost use Rattle.htmd_shown.specs.ClassWords as spec;
ghost use Rattle.htmd_shown.specs.Repeats as repeats;

use crate::attributes::{first_word, text_of};
use crate::role::is_among;
use htmd_nodes::Attribute;

/// Links to their own place, beside a heading or a block.
pub(crate) const PERMALINKS: &[&str] = &[
    "headerlink",
    "anchor",
    "anchorjs-link",
    "permalink",
    "header-anchor",
    "heading-link",
    "hash-link",
    "anchor-link",
    "direct-link",
];

/// Numbers of lines beside code.
pub(crate) const NUMBERS: &[&str] = &[
    "linenos",
    "lineno",
    "linenodiv",
    "lineNumbers",
    "line-numbers-rows",
    "gutter",
    "rouge-gutter",
    "hljs-ln-numbers",
    "blob-num",
    "ln-num",
    "listing_lines",
];

/// What MathJax shows of the formula in the script after it.
pub(crate) const MATHJAX: &[&str] = &[
    "MathJax",
    "MathJax_Display",
    "MathJax_Preview",
    "MathJax_SVG",
    "MathJax_SVG_Display",
    "MathJax_CHTML",
    "MJXc-display",
    "MJX_Assistive_MathML",
];

/// What KaTeX shows of a formula.
pub(crate) const KATEX: &[&str] = &["katex-html"];

/// The formula of KaTeX.
pub(crate) const KATEX_SOURCE: &[&str] = &["katex-mathml"];

/// What MediaWiki shows of a formula.
pub(crate) const WIKI: &[&str] = &[
    "mwe-math-fallback-image-inline",
    "mwe-math-fallback-image-display",
];

/// The formula of MediaWiki.
pub(crate) const WIKI_SOURCE: &[&str] = &[
    "mwe-math-mathml-inline",
    "mwe-math-mathml-display",
    "mwe-math-mathml-a11y",
];

/// Whether a word of the class is one of these.
pub(crate) fn has_class(attrs: &[Attribute], names: &[&str]) -> bool
    ensures { result ≡ spec.has_class (map (λ n. n.now) names.now) (pairs_of attrs.now) }
{
    let mut rest = text_of(attrs, "class");
    while let Some(found) = first_word(rest) {
        if is_among(found.word, names) {
            return true;
        }
        rest = found.after;
    }
    false
}

/// Whether a class is one of line numbers.
pub(crate) fn is_of_numbers(attrs: &[Attribute]) -> bool
    ensures { result ≡ spec.has_class spec.number_words (pairs_of attrs.now) }
{
    has_class(attrs, NUMBERS)
}

/// Whether a class is one of permalinks.
pub(crate) fn is_of_permalink(attrs: &[Attribute]) -> bool
    ensures { result ≡ spec.has_class spec.permalink_words (pairs_of attrs.now) }
{
    has_class(attrs, PERMALINKS)
}

/// Whether a class is one that MathJax writes.
pub(crate) fn is_of_mathjax(attrs: &[Attribute]) -> bool
    ensures { result ≡ spec.has_class spec.mathjax_words (pairs_of attrs.now) }
{
    has_class(attrs, MATHJAX)
}

/// Whether a class is one of MediaWiki's images of formulas.
pub fn is_of_wiki(attrs: &[Attribute]) -> bool
    ensures { result ≡ spec.has_class spec.wiki_words (pairs_of attrs.now) }
{
    has_class(attrs, WIKI)
}

/// Whether an element shows again what the element before it shows: KaTeX's and MediaWiki's after the MathML.
pub(crate) fn is_copy(before: &[Attribute], attrs: &[Attribute]) -> bool
    ensures { result ≡ repeats.is_copy_of (pairs_of before.now) (pairs_of attrs.now) }
{
    if attrs.is_empty() {
        return false;
    }
    has_class(attrs, KATEX) && has_class(before, KATEX_SOURCE)
        || has_class(attrs, WIKI) && has_class(before, WIKI_SOURCE)
}
