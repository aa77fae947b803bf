//! Texts of the greatest depth, and a page cut short and without each of its characters. What small texts denote, and
//! where they are refused, is a family of `htmd_test_cases`.
use htmd_test_expected::{expect_text, expect_that};
use htmd_tree::{FaultKind, ReadError, read_html};
use std::alloc::Global;
use std::test::Fail;

/// The page that is read cut short, and without one of its bytes.
const PAGE: &str = "\
<!DOCTYPE html>\n\
<title>Notes &amp; more</title>\n\
<style>p > a { color: red }</style>\n\
<script>if (a < b && c) { x = \"<p>\"; }</script>\n\
<h1 id=top class=\"a b\">Title with <em>emphasis</em></h1>\n\
<!-- a comment -- with dashes -->\n\
<p title='it&#39;s' lang=en>Some text, <a href=\"/x?a=1&amp;b=2\">a link</a>,\n\
<strong>bold</strong>, <code>x &lt; y</code> and AT&T.<br>Second line &copy; 2020 &#x2014; &hellip;</p>\n\
<ul><li>one<ul><li>inner</li></ul></li><li>two</li></ul>\n\
<ol start=\"3\"><li><p>three</p></li></ol>\n\
<table class=t><caption>Cap</caption><tr><th>A</th><th>B</th></tr><tr><td>1</td><td>2</td></tr>\n\
<tfoot><tr><td colspan=\"2\">end</td></tr></tfoot></table>\n\
<pre>\n\
line one\n\
  line two</pre>\n\
<blockquote><p>quoted <i>text</i></p></blockquote>\n\
<dl><dt>term</dt><dd>meaning</dd></dl>\n\
<form action=\"/go\"><input type=\"text\" name='q'/><textarea>\n\
kept</textarea><select><optgroup label=\"g\"><option value=1>1</option></optgroup></select>\n\
<button>Go</button></form><hr>\n\
<noscript><p>no</p></noscript><img src=/i.png alt=\"\">\n\
<p>More <b>bold</b> and <i class=\"k\">slanted</i> text.</p>\n\
<p>More <b>bold</b> and <i class=\"k\">slanted</i> text.</p>\n\
<p>More <b>bold</b> and <i class=\"k\">slanted</i> text.</p>\n\
<p>More <b>bold</b> and <i class=\"k\">slanted</i> text.</p>\n\
<p>More <b>bold</b> and <i class=\"k\">slanted</i> text.</p>\n\
<p>More <b>bold</b> and <i class=\"k\">slanted</i> text.</p>\n\
<p>More <b>bold</b> and <i class=\"k\">slanted</i> text.</p>\n\
<p>More <b>bold</b> and <i class=\"k\">slanted</i> text.</p>\n\
<p>More <b>bold</b> and <i class=\"k\">slanted</i> text.</p>\n\
<p>More <b>bold</b> and <i class=\"k\">slanted</i> text.</p>\n\
<p>More <b>bold</b> and <i class=\"k\">slanted</i> text.</p>\n\
<p>More <b>bold</b> and <i class=\"k\">slanted</i> text.</p>\n\
<p>More <b>bold</b> and <i class=\"k\">slanted</i> text.</p>\n\
<p>More <b>bold</b> and <i class=\"k\">slanted</i> text.</p>\n\
<p>More <b>bold</b> and <i class=\"k\">slanted</i> text.</p>\n\
<p>More <b>bold</b> and <i class=\"k\">slanted</i> text.</p>\n\
<p>More <b>bold</b> and <i class=\"k\">slanted</i> text.</p>\n\
";

/// This many start tags, and if they are wanted, their end tags.
fn nested(alloc: Global, count: usize, closed: bool) -> Result<String, Fail> {
    let mut html = String::new(alloc);
    for _ in 0..count {
        html.push_str("<div>")?;
    }
    if closed {
        for _ in 0..count {
            html.push_str("</div>")?;
        }
    }
    Ok(html)
}

/// A text that is refused, being too deep at this place.
fn expect_too_deep(alloc: Global, html: &str, place: usize) -> Result<(), Fail> {
    let kind = FaultKind::TooDeep;
    let refusal = ReadError::Refused { place, kind };
    expect_that(
        "too deep",
        read_html(alloc, html, true).err() == Some(refusal),
    )
}

#[test]
fn depths(rt: HostRuntime) -> Result<(), Fail> {
    let deepest = nested(rt.alloc(), 1022, true)?;
    expect_that(
        "deepest",
        read_html(rt.alloc(), deepest.as_str(), true).is_ok(),
    )?;
    let deeper = nested(rt.alloc(), 1023, true)?;
    expect_too_deep(rt.alloc(), deeper.as_str(), 5110)?;
    let mut table = nested(rt.alloc(), 1020, false)?;
    table.push_str("<table><tr>")?;
    expect_too_deep(rt.alloc(), table.as_str(), 5107)
}

/// Whether a text is read, or refused at a place of it.
fn is_answered(alloc: Global, html: &str) -> bool {
    match read_html(alloc, html, true) {
        Ok(_) => true,
        Err(ReadError::Refused { place, .. }) => place <= html.len(),
        Err(ReadError::Memory) => false,
    }
}

#[test]
fn reads_the_page(rt: HostRuntime) -> Result<(), Fail> {
    expect_that("page", read_html(rt.alloc(), PAGE, true).is_ok())
}

#[test]
fn beginnings_and_lacks(rt: HostRuntime) -> Result<(), Fail> {
    let alloc = rt.alloc();
    let mut beginning = String::new(alloc);
    let mut rest = PAGE.chars();
    while let Some(c) = rest.next() {
        expect_that(beginning.as_str(), is_answered(alloc, beginning.as_str()))?;
        let less = format!(in alloc; "{beginning}{}", rest.as_str())?;
        expect_that(less.as_str(), is_answered(alloc, less.as_str()))?;
        beginning.push(c)?;
    }
    Ok(())
}

#[test]
fn refusal_texts(rt: HostRuntime) -> Result<(), Fail> {
    let kind = FaultKind::StrayText;
    for (error, want) in [
        (
            ReadError::Refused { place: 26, kind },
            "refused at byte 26: StrayText",
        ),
        (ReadError::Memory, "out of memory"),
    ] {
        let text = format!(in rt.alloc(); "{error}")?;
        expect_text(want, text.as_str(), want)?;
    }
    Ok(())
}
