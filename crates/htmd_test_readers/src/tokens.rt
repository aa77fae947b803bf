//! Tokens of texts, written by hand from the HTML Standard. `checks/refused_memory`, a part of the gate, refuses each
//! request of the first test in turn.
use htmd_html5_tokens::*;
use htmd_test_expected::{expect_number, expect_text, expect_that};
use htmd_tree::Attribute;
use std::alloc::{AllocError, Global};
use std::borrow::CowStr;
use std::test::Fail;

/// What a token should be; a start tag has names and values, and says whether it ends in `/>`.
#[derive(Debug, Clone, Copy)]
enum Want {
    Start(&'static str, &'static [(&'static str, &'static str)], bool),
    End(&'static str),
    Text(&'static str),
    Comment(&'static str),
    Doctype(bool),
    EndOfFile,
}

fn has_pairs(attributes: &[Attribute], pairs: &[(&'static str, &'static str)]) -> bool {
    if attributes.len() != pairs.len() {
        return false;
    }
    for (attribute, (name, value)) in attributes.iter().zip(pairs.iter()) {
        if attribute.name.as_str() != *name || attribute.value.as_str() != *value {
            return false;
        }
    }
    true
}

fn is_wanted(token: &Token<'_>, want: Want) -> bool {
    match (token, want) {
        (Token::StartTag(tag), Want::Start(name, pairs, self_closing)) => {
            tag.name.as_str() == name
                && has_pairs(tag.attributes.as_slice(), pairs)
                && tag.self_closing == self_closing
        }
        (Token::EndTag(tag), Want::End(name)) => tag.name.as_str() == name,
        (Token::Text(text), Want::Text(want)) => text.as_str() == want,
        (Token::Comment(text), Want::Comment(want)) => text.as_str() == want,
        (Token::Doctype { quirks }, Want::Doctype(want)) => *quirks == want,
        (Token::EndOfFile, Want::EndOfFile) => true,
        _ => false,
    }
}

fn expect_token(row: &str, token: &Token, want: Want) -> Result<(), Fail> {
    if is_wanted(token, want) {
        return Ok(());
    }
    Err(Fail::new(format_args!("at {row:?}: {token:?}, not {want:?}")))
}

/// The first token of a text.
fn expect_first(
    alloc: Global,
    content: ContentModel,
    foreign: bool,
    text: &str,
    want: Want,
) -> Result<(), Fail> {
    let token = Tokenizer::new(text).next(alloc, content, foreign)?;
    expect_token(text, &token, want)
}

/// The next token, at a second try if need be.
fn next<'a>(tokenizer: &mut Tokenizer<'a>, alloc: Global) -> Result<Token<'a>, AllocError> {
    match tokenizer.next(alloc, ContentModel::Normal, false) {
        Ok(token) => Ok(token),
        Err(_) => tokenizer.next(alloc, ContentModel::Normal, false),
    }
}

/// The text as it is read, at a second try if need be.
fn read(alloc: Global, text: &str) -> Result<CowStr<'_>, AllocError> {
    match preprocess(alloc, text) {
        Ok(read) => Ok(read),
        Err(_) => preprocess(alloc, text),
    }
}

#[test]
fn takes_each_kind(rt: HostRuntime) -> Result<(), Fail> {
    let alloc = rt.alloc();
    let page =
        "\u{feff}<!DOCTYPE html>\r\n<!--c-->\r<P Id='&lt;' ID=2 class>a&amp;b&copy</p><br/></>&notit;</>\0";
    let text = read(alloc, page)?;
    let mut tokenizer = Tokenizer::new(&text);
    const ROWS: &[Want] = &[
        Want::Doctype(false),
        Want::Text("\n"),
        Want::Comment("c"),
        Want::Text("\n"),
        Want::Start("p", &[("id", "<"), ("class", "")], false),
        Want::Text("a&b\u{a9}"),
        Want::End("p"),
        Want::Start("br", &[], true),
        Want::Text("\u{ac}it;\0"),
        Want::EndOfFile,
        Want::EndOfFile,
    ];
    for &want in ROWS {
        let token = next(&mut tokenizer, alloc)?;
        expect_token(page, &token, want)?;
    }
    expect_number("left", tokenizer.left(), 0)
}

#[test]
fn takes_what_is_wrong(rt: HostRuntime) -> Result<(), Fail> {
    const ROWS: &[(&str, Want)] = &[
        (
            "<a\0B \0c=\0>",
            Want::Start("a\u{fffd}b", &[("\u{fffd}c", "\u{fffd}")], false),
        ),
        (
            "<a =b c=d/ e='&amp=1&amp;=&amp'f>",
            Want::Start(
                "a",
                &[("=b", ""), ("c", "d/"), ("e", "&amp=1&=&"), ("f", "")],
                false,
            ),
        ),
        (
            "&#0;&#xD800;&#x110000;&#99999999999;&#x80;&#",
            Want::Text("\u{fffd}\u{fffd}\u{fffd}\u{fffd}\u{20ac}&#"),
        ),
        ("<", Want::Text("<")),
        ("</", Want::Text("</")),
        ("<a", Want::EndOfFile),
        ("<a b", Want::EndOfFile),
        ("<a b=", Want::EndOfFile),
        ("<a b='c>d", Want::EndOfFile),
        ("</a ", Want::EndOfFile),
        ("<!", Want::Comment("")),
        ("<!-", Want::Comment("-")),
        ("<!--", Want::Comment("")),
        ("<!-->-->", Want::Comment("")),
        ("<!--a--!>", Want::Comment("a")),
        ("<!--a\0--", Want::Comment("a\u{fffd}")),
        ("<?a>", Want::Comment("?a")),
        ("</ a>", Want::Comment(" a")),
        ("<![CDATA[a]]>", Want::Comment("[CDATA[a]]")),
        ("<!doctypehtml>", Want::Doctype(false)),
        ("<!DOCTYPE>", Want::Doctype(true)),
        (
            "<!DOCTYPE html PUBLIC \"-//W3C//DTD HTML 4.01 Transitional//EN\">",
            Want::Doctype(true),
        ),
        (
            "<!DOCTYPE html PUBLIC '-//W3C//DTD HTML 4.01 Transitional//EN' ''>",
            Want::Doctype(false),
        ),
    ];
    for &(text, want) in ROWS {
        expect_first(rt.alloc(), ContentModel::Normal, false, text, want)?;
    }
    Ok(())
}

#[test]
fn takes_raw_texts_and_sections(rt: HostRuntime) -> Result<(), Fail> {
    const ROWS: &[(ContentModel, bool, &str, Want)] = &[
        (
            ContentModel::Raw(RawElement::Title),
            false,
            "a&lt;\0</b></TITLE>",
            Want::Text("a<\u{fffd}</b>"),
        ),
        (
            ContentModel::Raw(RawElement::Style),
            false,
            "a&lt;\0</styles></style",
            Want::Text("a&lt;\u{fffd}</styles></style"),
        ),
        (
            ContentModel::Raw(RawElement::Script),
            false,
            "<!--<script></script></script>--></script>",
            Want::Text("<!--<script></script>"),
        ),
        (
            ContentModel::Raw(RawElement::Script),
            false,
            "<!--<script>--></script>",
            Want::Text("<!--<script>-->"),
        ),
        (
            ContentModel::Raw(RawElement::Script),
            false,
            "</script/>",
            Want::End("script"),
        ),
        (
            ContentModel::Raw(RawElement::Plaintext),
            false,
            "</plaintext>",
            Want::Text("</plaintext>"),
        ),
        (
            ContentModel::Raw(RawElement::Xmp),
            false,
            "",
            Want::EndOfFile,
        ),
        (
            ContentModel::Normal,
            true,
            "<![CDATA[]]><![CDATA[a]]&lt;\0]]>b",
            Want::Text("a]]&lt;\0"),
        ),
        (
            ContentModel::Normal,
            true,
            "<![CDATA[a]]",
            Want::Text("a]]"),
        ),
    ];
    for &(content, foreign, text, want) in ROWS {
        expect_first(rt.alloc(), content, foreign, text, want)?;
    }
    Ok(())
}

/// A start tag with a thousand attributes, twice.
fn with_many_attributes(alloc: Global) -> Result<String, Fail> {
    let mut html = String::from_str(alloc, "<p")?;
    for i in 0..2000_u32 {
        let attribute = format!(in alloc; " a{}={i}", i % 1000)?;
        html.push_str(attribute.as_str())?;
    }
    html.push('>')?;
    Ok(html)
}

/// A start tag with a thousand attributes, whose values are their numbers.
fn expect_many_attributes(alloc: Global, token: &Token) -> Result<(), Fail> {
    let Token::StartTag(tag) = token else {
        return Err(Fail::from("it is a start tag"));
    };
    expect_number("attributes", tag.attributes.len(), 1000)?;
    for (i, attribute) in tag.attributes.iter().enumerate() {
        let number = format!(in alloc; "{i}")?;
        expect_text("attribute", attribute.value.as_str(), number.as_str())?;
    }
    Ok(())
}

#[test]
fn takes_a_thousand_attributes(rt: HostRuntime) -> Result<(), Fail> {
    let html = with_many_attributes(rt.alloc())?;
    let token = Tokenizer::new(html.as_str()).next(rt.alloc(), ContentModel::Normal, false)?;
    expect_many_attributes(rt.alloc(), &token)
}

/// This reference, a hundred thousand times.
fn many_references(alloc: Global) -> Result<String, AllocError> {
    let mut text = String::new(alloc);
    for _ in 0..100_000 {
        text.push_str("&amp")?;
    }
    Ok(text)
}

/// A text of a hundred thousand of this byte.
fn expect_many(token: &Token) -> Result<(), Fail> {
    let Token::Text(text) = token else {
        return Err(Fail::from("it is a text"));
    };
    expect_number("bytes", text.len(), 100_000)?;
    expect_that("each", text.as_bytes().iter().all(|byte| *byte == b'&'))
}

#[test]
fn takes_many_references(rt: HostRuntime) -> Result<(), Fail> {
    let text = many_references(rt.alloc())?;
    let token = Tokenizer::new(text.as_str()).next(rt.alloc(), ContentModel::Normal, false)?;
    expect_many(&token)
}
