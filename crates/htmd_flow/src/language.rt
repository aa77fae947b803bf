//! The language of a code block.
ghost use Rattle.std.specs.Prelude.{◌≡◌, [], ◌∷◌, ◌++◌, map, filter, flat_map, Some};
ghost use Rattle.std.specs.List.{list_all};
ghost use Rattle.std.specs.Option.{option_copied, option_or};
ghost use Rattle.htmd_document.specs.LanguageNames as names;
ghost use Rattle.htmd_lexical.specs.Attributes.{pairs_of};
ghost use Rattle.htmd_shown.specs.Attributes as attributes;
ghost use Rattle.htmd_shown.specs.Roles as roles;
ghost use Rattle.htmd_shown.specs.SimpleViews.{simple_of};
ghost use Rattle.htmd_flow.specs.LanguageViews as views;
ghost use Rattle.htmd_flow.specs.Languages as spec;

use crate::place::Near;
use htmd_nodes::Attribute;
use htmd_shown::attributes::{first_word, is_space_or_control, text_of};
use htmd_shown::{Role, Simple, is_among, is_text};

/// The language of a code block, if it has one.
pub(crate) fn language_of_block<'t>(
    attrs: &'t [Attribute],
    content: &[Simple<'t>],
    near: Near<'t>,
) -> Option<&'t str>
    ensures { option_copied result ≡ spec.language_of_block (pairs_of attrs.now) (map simple_of content.now)
        (views.near_in near.entry) }
{
    match found_language(attrs, content, near) {
        Some(name) => unless_none(name),
        None => None,
    }
}

/// The first name that there is: of the code block itself, else of what is around it.
fn found_language<'t>(
    attrs: &'t [Attribute],
    content: &[Simple<'t>],
    near: Near<'t>,
) -> Option<&'t str>
    ensures { option_copied result ≡ spec.first_name (spec.found_languages
        (spec.only_code (map simple_of content.now) ++ pairs_of attrs.now ∷ []) (views.near_in near.entry)) }
{
    either(own_language(attrs, content), near_language(near))
}

/// The name, unless it says that there is no language.
fn unless_none(name: &str) -> Option<&str>
    ensures { option_copied result ≡ spec.language_named (Some name.now) }
{
    if is_no_language(name) {
        return None;
    }
    Some(name)
}

/// Whether a name says that a code block has no language.
fn is_no_language(name: &str) -> bool
    ensures { result ≡ spec.is_none name.now }
{
    name.eq_ignore_ascii_case("text")
        || name.eq_ignore_ascii_case("none")
        || name.eq_ignore_ascii_case("plaintext")
        || name.eq_ignore_ascii_case("default")
        || name.eq_ignore_ascii_case("nohighlight")
        || name.eq_ignore_ascii_case("notranslate")
}

/// Whether a byte isn't allowed in the language of a fence.
fn is_mark(b: u8) -> bool
    ensures { result ≡ names.is_mark b }
{
    matches!(b, b'`' | b'~' | b'&' | b'\\')
}

/// Whether a byte can stand in the name of a language: no mark, no space and no control.
fn is_in_name(b: u8) -> bool
    ensures { result ≡ attributes.is_in_name b }
{
    !(is_mark(b) || is_space_or_control(b) || b == 0x7F)
}

/// Whether all of these bytes can.
fn are_in_name(word: &[u8]) -> bool
    ensures { result ≡ list_all attributes.is_in_name word.now }
{
    word.iter().all(|b| is_in_name(*b))
}

/// How many bytes the name of a language has at most.
const LONGEST_NAME: usize = 64;

/// The name of a language, if it can be one: it isn't empty, has 64 bytes at most, and no mark, space or control.
fn name_if(text: &str) -> Option<&str>
    ensures { option_copied result ≡ spec.name_if text.now }
{
    if text.is_empty() || text.len() > LONGEST_NAME || !are_in_name(text.as_bytes()) {
        return None;
    }
    Some(text)
}

// ---- of the code itself

/// The attributes of a node, if it is code; else none.
fn attributes_if_code<'t>(node: &Simple<'t>) -> &'t [Attribute]
    ensures { pairs_of result.now ≡ views.attributes_if_code (simple_of node.now) }
{
    match node {
        Simple::Element {
            role: Role::Code,
            attrs,
            ..
        } => *attrs,
        _ => &[],
    }
}

/// The attributes of the only node in a code block, texts aside, if that is `code`; else none.
fn attributes_of_code<'t>(content: &[Simple<'t>]) -> &'t [Attribute]
    ensures { pairs_of result.now ≡ views.code_attributes (map simple_of content.now) }
{
    let mut found: &'t [Attribute] = &[];
    let mut is_first = true;
    for node in content {
        if is_text(node) {
            continue;
        }
        if !is_first {
            return &[];
        }
        is_first = false;
        found = attributes_if_code(node);
    }
    found
}

/// The name of a language that a code block itself says.
#[tactic(auto, using(crate::proofs::LanguagesLemmas::own_first))]
fn own_language<'t>(attrs: &'t [Attribute], content: &[Simple<'t>]) -> Option<&'t str>
    ensures { option_copied result ≡ spec.first_name (spec.own_languages
        (spec.only_code (map simple_of content.now) ++ pairs_of attrs.now ∷ [])) }
{
    let code = attributes_of_code(content);
    let by_prefix = either(prefixed_own(code), prefixed_own(attrs));
    let by_word = either(named(code), named(attrs));
    let by_data = either(given(code), given(attrs));
    either(by_prefix, either(by_word, by_data))
}

/// The first of both that there is.
fn either<'t>(first: Option<&'t str>, second: Option<&'t str>) -> Option<&'t str>
    ensures { option_copied result ≡ option_or (option_copied first.entry) (option_copied second.entry) }
{
    match first {
        Some(name) => Some(name),
        None => second,
    }
}

/// What follows this beginning of a word; nothing if the word begins otherwise.
fn rest_of<'a>(word: &'a str, beginning: &str) -> &'a str
    ensures { result.now ≡ spec.rest_of beginning.now word.now }
{
    match word.strip_prefix(beginning) {
        Some(rest) => rest,
        None => "",
    }
}

/// What follows the first of these beginnings that a word has, if something follows.
fn after_beginning<'a>(word: &'a str, beginnings: &[&str]) -> &'a str
    ensures { spec.name_if result.now
        ≡ spec.first_name (spec.after_beginning (map (λ b. b.now) beginnings.now) word.now) }
{
    for beginning in beginnings {
        let rest = rest_of(word, *beginning);
        if !rest.is_empty() {
            return rest;
        }
    }
    ""
}

/// The name that a word of the class has after one of these beginnings.
#[tactic(auto, using(crate::proofs::LanguagesLemmas::first_of_two))]
fn prefixed<'a>(attrs: &'a [Attribute], beginnings: &[&str]) -> Option<&'a str>
    ensures { option_copied result
        ≡ spec.first_name (spec.prefixed (map (λ b. b.now) beginnings.now) (pairs_of attrs.now)) }
{
    let mut rest = text_of(attrs, "class");
    while let Some(found) = first_word(rest) {
        if let Some(name) = name_if(after_beginning(found.word, beginnings)) {
            return Some(name);
        }
        rest = found.after;
    }
    None
}

/// The name after a beginning that the code's own elements have.
fn prefixed_own(attrs: &[Attribute]) -> Option<&str>
    ensures { option_copied result ≡ spec.first_name (spec.prefixed spec.own_beginnings (pairs_of attrs.now)) }
{
    prefixed(attrs, &["language-", "lang-"])
}

/// The name after a beginning that elements around the code have.
fn prefixed_around(attrs: &[Attribute]) -> Option<&str>
    ensures { option_copied result ≡ spec.first_name (spec.prefixed spec.near_beginnings (pairs_of attrs.now)) }
{
    prefixed(
        attrs,
        &[
            "highlight-source-",
            "mw-highlight-lang-",
            "language-",
            "highlight-",
            "lang-",
        ],
    )
}

/// The name that this attribute gives.
fn given_by<'a>(attrs: &'a [Attribute], name: &str) -> Option<&'a str>
    ensures { option_copied result ≡ spec.first_name (spec.said name.now (pairs_of attrs.now)) }
{
    name_if(text_of(attrs, name))
}

/// The name that the attributes for it give.
#[tactic(auto, using(crate::proofs::LanguagesLemmas::first_of_three))]
fn given(attrs: &[Attribute]) -> Option<&str>
    ensures { option_copied result ≡ spec.first_name (spec.data_of (pairs_of attrs.now)) }
{
    let lang = given_by(attrs, "data-lang");
    let language = given_by(attrs, "data-language");
    either(
        either(lang, language),
        given_by(attrs, "data-code-language"),
    )
}

// ---- names of highlighters

/// What a word of a class says about the word after it.
#[derive(Clone, Copy, PartialEq, Eq)]
pub enum Next {
    Nothing,
    /// After `brush:`: it is a language.
    Brush,
    /// After `sourceCode` or `hljs`: it is a language, unless it is a word of these highlighters.
    Language,
}

/// The name of a language that the highlighters SyntaxHighlighter, pandoc and highlight.js write, else a word of the
/// class that is one.
#[tactic(auto, using(crate::proofs::LanguagesLemmas::first_of_two))]
fn named(attrs: &[Attribute]) -> Option<&str>
    ensures { option_copied result ≡ spec.first_name (spec.named (pairs_of attrs.now)) }
{
    let class = text_of(attrs, "class");
    either(named_by_highlighter(class), known_language(class))
}

/// The first word that is the name of a language.
#[tactic(auto, using(crate::proofs::LanguagesLemmas::known_name, crate::proofs::LanguagesLemmas::known_other))]
fn known_language(class: &str) -> Option<&str>
    ensures { option_copied result
        ≡ spec.first_name (filter (roles.is_among spec.languages) (attributes.words class.now)) }
{
    let mut rest = class;
    while let Some(found) = first_word(rest) {
        if is_known(found.word) {
            return Some(found.word);
        }
        rest = found.after;
    }
    None
}

/// The name of a language that a highlighter writes.
#[tactic(auto, using(crate::proofs::LanguagesLemmas::named_step))]
fn named_by_highlighter(class: &str) -> Option<&str>
    ensures { option_copied result ≡ spec.first_name (spec.named_words (attributes.words class.now)) }
{
    let mut rest = class;
    let mut next = Next::Nothing;
    while let Some(found) = first_word(rest) {
        if let Some(name) = either(expected(next, found.word), brushed(found.word)) {
            return Some(name);
        }
        next = next_after(next, found.word);
        rest = found.after;
    }
    None
}

/// The name that a word is because of what came before it.
#[tactic(auto, using(crate::proofs::LanguagesLemmas::first_of_one))]
fn expected(next: Next, word: &str) -> Option<&str>
    ensures { option_copied result ≡ spec.first_name (views.expected next word.now) }
{
    match next {
        Next::Nothing => None,
        Next::Brush => name_if(before_semicolon(word)),
        Next::Language => {
            if is_of_highlighter(word) {
                None
            } else {
                name_if(word)
            }
        }
    }
}

/// The name after `brush:` in a word.
#[tactic(auto, using(crate::proofs::LanguagesLemmas::first_of_one))]
fn brushed(word: &str) -> Option<&str>
    ensures { option_copied result ≡ spec.first_name (views.brushed word.now) }
{
    name_if(before_semicolon(rest_of(word, "brush:")))
}

/// What a word, and what came before it, say about the next one.
fn next_after(next: Next, word: &str) -> Next
    ensures { result ≡ views.next_after next word.now }
{
    if word == "brush:" {
        Next::Brush
    } else if is_among(word, &["sourceCode", "hljs"]) {
        Next::Language
    } else if next == Next::Language && is_of_highlighter(word) {
        Next::Language
    } else {
        Next::Nothing
    }
}

fn before_semicolon(text: &str) -> &str
    ensures { result.now ≡ spec.up_to_semicolon text.now }
{
    match text.split_once(';') {
        Some((front, _)) => front,
        None => text,
    }
}

/// Whether a word is one of a highlighter's, and no name of a language.
fn is_of_highlighter(word: &str) -> bool
    ensures { result ≡ spec.no_language word.now }
{
    is_among(
        word,
        &[
            "numberSource",
            "numberLines",
            "literate",
            "hljs",
            "sourceCode",
        ],
    )
}

/// Whether a word of a class is the name of a language.
fn is_known(word: &str) -> bool
    ensures { result ≡ roles.is_among spec.languages word.now }
{
    is_among(
        word,
        &[
            "bash",
            "c++",
            "cpp",
            "csharp",
            "css",
            "go",
            "haskell",
            "html",
            "java",
            "javascript",
            "js",
            "json",
            "kotlin",
            "lua",
            "perl",
            "php",
            "python",
            "qml",
            "ruby",
            "rust",
            "scala",
            "sh",
            "sql",
            "toml",
            "typescript",
            "xml",
            "yaml",
        ],
    )
}

// ---- of what is around

/// The name of a language that an element near to the code says, the innermost first.
#[tactic(auto, using(crate::proofs::LanguagesLemmas::near_steps))]
fn near_language<'t>(near: Near<'t>) -> Option<&'t str>
    ensures { option_copied result ≡ spec.first_name (flat_map spec.near_languages (views.near_in near.entry)) }
{
    match near {
        Near::None => None,
        Near::One(first) => language_around(first),
        Near::Two(first, second) => either(language_around(first), language_around(second)),
        Near::Three(first, second, third) => either(
            either(language_around(first), language_around(second)),
            language_around(third),
        ),
    }
}

/// The name of a language that an element around the code says.
#[tactic(auto, using(crate::proofs::LanguagesLemmas::first_of_two))]
fn language_around(attrs: &[Attribute]) -> Option<&str>
    ensures { option_copied result ≡ spec.first_name (spec.near_languages (pairs_of attrs.now)) }
{
    either(prefixed_around(attrs), given(attrs))
}
