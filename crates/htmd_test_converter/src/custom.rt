//! Handlers of your own: what they are shown, what they may need, and in what order they are called.
use crate::builders::{faithful, referenced, with_handler};
use crate::handlers::{
    AsRawHtml, FirstBelow, FirstChild, GivesNothing, NeedsId, PassesOn, Says, TellsDue, TellsFlag,
    TextAlone,
};
use crate::pages::{expect_pages_by, page_by};
use htmd::HtmlToMarkdown;
use htmd::element_handler::ElementHandler;
use htmd::options::Options;
use htmd_test_expected::expect_text;
use std::alloc::Global;
use std::test::Fail;

// The Markdown of a page with one handler, for a tag.
fn with_one(
    alloc: Global,
    tag: &str,
    handler: Box<dyn ElementHandler>,
    html: &str,
) -> Result<String, Fail> {
    let builder = with_handler(HtmlToMarkdown::builder(alloc)?, &[tag], handler)?;
    page_by(alloc, &builder.build(), html)
}

// Fails at the first of these pages whose Markdown, with one handler for these tags, isn't the text beside it.
fn expect_pages_of(
    alloc: Global,
    tags: &[&str],
    handler: Box<dyn ElementHandler>,
    table: &[(&str, &str)],
) -> Result<(), Fail> {
    let builder = with_handler(HtmlToMarkdown::builder(alloc)?, tags, handler)?;
    expect_pages_by(alloc, &builder.build(), table)
}

fn says(alloc: Global, text: &str, markdown_translated: bool) -> Result<Says, Fail> {
    let text = String::from_str(alloc, text)?;
    Ok(Says {
        text,
        markdown_translated,
    })
}

// A text stands for the element as it is, even one that is empty, of only line feeds, or with a lone carriage return;
// the seam adds the blank lines of a block.
#[test]
fn takes_texts(rt: HostRuntime) -> Result<(), Fail> {
    const PAGE: &str = "<p>a <x>gone</x> b</p>";
    const ROWS: &[(&str, &str, &str, &str)] = &[
        ("x", "[Svg Image]", PAGE, "a [Svg Image] b"),
        ("x", "", PAGE, "a b"),
        ("x", "\n\n\n", PAGE, "a \n\n b"),
        ("x", "\r", PAGE, "a \r b"),
        ("x", "\n- c\n", PAGE, "a \n- c\n b"),
        ("x", " ", PAGE, "a b"),
        ("svg", "[Svg Image]", "<svg></svg>", "[Svg Image]"),
        ("span", "[s]", "<p><span>x</span></p>", "[s]"),
    ];
    for &(tag, text, html, markdown) in ROWS {
        let handler: Box<dyn ElementHandler> = Box::new(rt.alloc(), says(rt.alloc(), text, true)?)?;
        let answer = with_one(rt.alloc(), tag, handler, html)?;
        expect_text(text, answer.as_str(), markdown)?;
    }
    Ok(())
}

// The Markdown of a page with one handler for `x`, and one that tells the flag for a tag.
fn flagged(
    alloc: Global,
    handler: Box<dyn ElementHandler>,
    flag: Box<dyn ElementHandler>,
    (tag, html): (&str, &str),
) -> Result<String, Fail> {
    let builder = with_handler(HtmlToMarkdown::builder(alloc)?, &["x"], handler)?;
    let builder = with_handler(builder, &[tag], flag)?;
    page_by(alloc, &builder.build(), html)
}

// The flag of a result is passed to those above, even in Pure, and even past elements without handlers; a list hides
// it.
#[test]
fn tells_flags(rt: HostRuntime) -> Result<(), Fail> {
    const ROWS: &[(&str, &str, &str)] = &[
        ("p", "<p><span><x></x></span></p>", "F"),
        ("p", "<p><mark><x></x></mark></p>", "F"),
        ("p", "<p><span>a</span></p>", "T"),
        ("div", "<div><ul><x></x></ul></div>", "T"),
        ("section", "<section><div><x></x></div></section>", "T"),
    ];
    for &(tag, html, markdown) in ROWS {
        let raw: Box<dyn ElementHandler> = Box::new(rt.alloc(), AsRawHtml)?;
        let flag: Box<dyn ElementHandler> = Box::new(rt.alloc(), TellsFlag)?;
        let answer = flagged(rt.alloc(), raw, flag, (tag, html))?;
        expect_text(html, answer.as_str(), markdown)?;
    }
    Ok(())
}

#[test]
fn tells_flags_of_texts(rt: HostRuntime) -> Result<(), Fail> {
    let unsure: Box<dyn ElementHandler> = Box::new(rt.alloc(), says(rt.alloc(), "x", false)?)?;
    let flag: Box<dyn ElementHandler> = Box::new(rt.alloc(), TellsFlag)?;
    let answer = flagged(rt.alloc(), unsure, flag, ("p", "<p><x></x></p>"))?;
    expect_text("p", answer.as_str(), "F")
}

// Raw HTML of an element without a block name shows its content, and a group its joined text.
#[test]
fn gives_raw_html(rt: HostRuntime) -> Result<(), Fail> {
    let table: &[(&str, &str)] = &[
        ("<x><b>y</b></x>", "<x>**y**</x>"),
        ("<x a=1>y</x><x a=1>z</x>", "<x a=\"1\">yz</x>"),
        (
            "<x a=1>y</x><x a=2>z</x>",
            "<x a=\"1\">y</x><x a=\"2\">z</x>",
        ),
    ];
    let raw: Box<dyn ElementHandler> = Box::new(rt.alloc(), AsRawHtml)?;
    expect_pages_of(rt.alloc(), &["x"], raw, table)
}

// A group shows its joined text, and an element with other children none.
#[test]
fn shows_texts(rt: HostRuntime) -> Result<(), Fail> {
    const ROWS: &[(&str, &str)] = &[
        ("<i>a</i><em>b</em>", "ab"),
        ("<i> * </i>", " *"),
        ("<i>a<b>b</b></i>", ""),
        ("<i></i>", ""),
    ];
    let handler: Box<dyn ElementHandler> = Box::new(rt.alloc(), TextAlone)?;
    expect_pages_of(rt.alloc(), &["i"], handler, ROWS)
}

// A descendant is converted by itself: below `pre` its white space is kept, and a text is ordinary.
#[test]
fn asks_for_descendants(rt: HostRuntime) -> Result<(), Fail> {
    let table: &[(&str, &str)] = &[
        (
            "<pre><delegate><mark>  *literal*  \nsecond</mark></delegate></pre>",
            "  *literal*  \nsecond",
        ),
        ("<p>a<delegate>  *b*</delegate></p>", "a\\*b\\*"),
        ("<p>a<delegate></delegate></p>", "a"),
    ];
    let handler: Box<dyn ElementHandler> = Box::new(rt.alloc(), FirstChild)?;
    expect_pages_of(rt.alloc(), &["delegate"], handler, table)
}

// A text this many elements below another.
fn nested(alloc: Global, levels: usize) -> Result<String, Fail> {
    let mut html = String::from_str(alloc, "a <delegate>")?;
    for _ in 0..levels {
        html.push_str("<i>")?;
    }
    html.push_str("*b*")?;
    for _ in 0..levels {
        html.push_str("</i>")?;
    }
    html.push_str("</delegate> c")?;
    Ok(html)
}

// The deepest node that a tree has, a text at level 1,024, is 1,021 levels below a child of the body.
#[test]
fn asks_for_the_deepest_node(rt: HostRuntime) -> Result<(), Fail> {
    let html = nested(rt.alloc(), 1020)?;
    const ROWS: &[(usize, &str)] = &[
        (1021, "a \\*b\\* c"),
        (2000, "a \\*b\\* c"),
        (1020, "a *\\*b\\** c"),
        (0, "a c"),
    ];
    for &(levels, markdown) in ROWS {
        let handler: Box<dyn ElementHandler> = Box::new(rt.alloc(), FirstBelow { levels })?;
        let answer = with_one(rt.alloc(), "delegate", handler, html.as_str())?;
        expect_text(markdown, answer.as_str(), markdown)?;
    }
    Ok(())
}

// What a handler finishes with may be nothing.
#[test]
fn finishes(rt: HostRuntime) -> Result<(), Fail> {
    let nothing: Box<dyn ElementHandler> = Box::new(rt.alloc(), GivesNothing)?;
    expect_pages_of(rt.alloc(), &["p"], nothing, &[("<p>a</p>b", "b")])
}

// A fallback goes to the handler before; past the last one it is the content.
#[test]
fn falls_back(rt: HostRuntime) -> Result<(), Fail> {
    let tags: &[&str] = &["img", "b", "u", "x-y", "br"];
    let table: &[(&str, &str)] = &[
        ("<img src=\"/x\" id=\"i\"/>", "![](/x)"),
        ("<img src=\"/x\"/>", ""),
        ("<b id=i>x</b>", "**x**"),
        ("<b>x</b>", ""),
        ("<u id=i>x*</u>", "x\\*"),
        ("<x-y id=i><p>x</p></x-y>", "x"),
        ("a<br id=i>b", "a  \nb"),
    ];
    let handler: Box<dyn ElementHandler> = Box::new(rt.alloc(), NeedsId)?;
    expect_pages_of(rt.alloc(), tags, handler, table)
}

#[test]
fn falls_back_on_texts(rt: HostRuntime) -> Result<(), Fail> {
    let joined: &[(&str, &str)] = &[(
        "<pre><code><span>sudo apt update\n</span><span>sudo apt install curl\n</span></code></pre>",
        "```\nsudo apt update\nsudo apt install curl\n```",
    )];
    let handler: Box<dyn ElementHandler> = Box::new(rt.alloc(), PassesOn { appended: None })?;
    expect_pages_of(rt.alloc(), &["span"], handler, joined)
}

fn passes_on(alloc: Global, appended: &str) -> Result<PassesOn, Fail> {
    let appended = Some(String::from_str(alloc, appended)?);
    Ok(PassesOn { appended })
}

// The Markdown of a page with two handlers, each of which puts a text after a conversion.
fn with_texts(alloc: Global, first: &str, second: &str, html: &str) -> Result<String, Fail> {
    let builder = HtmlToMarkdown::builder(alloc)?.options(referenced());
    let handler: Box<dyn ElementHandler> = Box::new(alloc, passes_on(alloc, first)?)?;
    let builder = with_handler(builder, &["q"], handler)?;
    let handler: Box<dyn ElementHandler> = Box::new(alloc, passes_on(alloc, second)?)?;
    let builder = with_handler(builder, &["r"], handler)?;
    page_by(alloc, &builder.build(), html)
}

// The texts after a conversion come in order of registration, the final line feeds cut only once, and those of
// definitions before all others.
#[test]
fn puts_texts_after_a_conversion(rt: HostRuntime) -> Result<(), Fail> {
    const LINK: &str = "<a href=\"/x\">t</a>";
    const ROWS: &[(&str, &str, &str, &str)] = &[
        ("\n\nA\n", "\n\nB\n\n", "<p>t</p>", "t\n\nA\n\n\nB"),
        ("", "", "<p>t</p>", "t"),
        ("\n\n", "\n", "<p>t</p>", "t"),
        ("", "\n\nB", "<p>t</p>", "t\n\nB"),
        ("\n\nA\n", "\n\n", "<p>t</p>", "t\n\nA"),
        (
            "\n\nA\n",
            "\n\nB\n\n",
            LINK,
            "[t][1]\n\n[1]: /x\n\n\n\nA\n\n\nB",
        ),
    ];
    for &(first, second, html, markdown) in ROWS {
        let answer = with_texts(rt.alloc(), first, second, html)?;
        expect_text(first, answer.as_str(), markdown)?;
    }
    Ok(())
}

// A tag that is named twice is registered twice: the handler is called twice, and then the built-in one.
#[test]
fn registers_twice(rt: HostRuntime) -> Result<(), Fail> {
    let handler: Box<dyn ElementHandler> = Box::new(rt.alloc(), PassesOn { appended: None })?;
    expect_pages_of(rt.alloc(), &["b", "b"], handler, &[("<b>x</b>", "**x**")])
}

// What is reported for a page with these options.
fn due(alloc: Global, options: Options, allowed: i64, html: &str) -> Result<String, Fail> {
    let handler: Box<dyn ElementHandler> = Box::new(alloc, TellsDue { allowed })?;
    let builder = HtmlToMarkdown::builder(alloc)?.options(options);
    let converter = with_handler(builder, &["x"], handler)?.build();
    page_by(alloc, &converter, html)
}

// Raw HTML is due only in Faithful, if there are more attributes than are allowed, which may be fewer than none.
#[test]
fn asks_whether_raw_html_is_due(rt: HostRuntime) -> Result<(), Fail> {
    const ROWS: &[(i64, &str, &str)] = &[
        (-1, "<x></x>", "T"),
        (0, "<x></x>", "F"),
        (0, "<x a></x>", "T"),
        (1, "<x a></x>", "F"),
        (1, "<x a b></x>", "T"),
        (i64::MIN, "<x></x>", "T"),
    ];
    for &(allowed, html, markdown) in ROWS {
        let answer = due(rt.alloc(), faithful(), allowed, html)?;
        expect_text(html, answer.as_str(), markdown)?;
        let answer = due(rt.alloc(), Options::default(), allowed, html)?;
        expect_text(html, answer.as_str(), "F")?;
    }
    Ok(())
}
