//! The names of block elements.
ghost use Rattle.std.specs.Prelude.{◌≡◌, bytes_eq};
ghost use Rattle.std.specs.List.{list_any};
ghost use Rattle.htmd_text.specs.Blocks as spec;

const OF_TWO: [&str; 16] = [
    "dd", "dl", "dt", "h1", "h2", "h3", "h4", "h5", "h6", "hr", "li", "ol", "td", "th", "tr", "ul",
];

const OF_THREE: [&str; 5] = ["col", "dir", "div", "nav", "pre"];

const OF_FOUR: [&str; 8] = [
    "base", "body", "form", "head", "html", "link", "main", "menu",
];

const OF_FIVE: [&str; 10] = [
    "aside", "frame", "param", "style", "table", "tbody", "tfoot", "thead", "title", "track",
];

const OF_SIX: [&str; 10] = [
    "center", "dialog", "figure", "footer", "header", "iframe", "legend", "option", "script",
    "search",
];

const OF_SEVEN: [&str; 6] = [
    "address", "article", "caption", "details", "section", "summary",
];

const OF_EIGHT: [&str; 8] = [
    "basefont", "colgroup", "fieldset", "frameset", "menuitem", "noframes", "optgroup", "textarea",
];

const OF_TEN: [&str; 2] = ["blockquote", "figcaption"];

/// Whether the name is a block element's, in lower case (CommonMark 0.31.2, 4.6). It is only compared with names of its
/// own length.
pub fn is_block_element(name: &str) -> bool
    ensures { result ≡ spec.is_block name.now }
{
    match name.len() {
        1 => is_among(name, &["p"]),
        2 => is_among(name, &OF_TWO),
        3 => is_among(name, &OF_THREE),
        4 => is_among(name, &OF_FOUR),
        5 => is_among(name, &OF_FIVE),
        6 => is_among(name, &OF_SIX),
        7 => is_among(name, &OF_SEVEN),
        8 => is_among(name, &OF_EIGHT),
        10 => is_among(name, &OF_TEN),
        _ => false,
    }
}

/// Whether the name is one of these.
fn is_among(name: &str, names: &[&str]) -> bool
    ensures { result ≡ list_any (λ other. bytes_eq other.now name.now) names.now }
{
    names.iter().any(|other| is_same(other, name))
}

/// Whether the two texts are the same. Most that differ do so in their first byte.
fn is_same(a: &str, b: &str) -> bool
    ensures { result ≡ bytes_eq a.now b.now }
{
    a.as_bytes().first() == b.as_bytes().first() && a == b
}
