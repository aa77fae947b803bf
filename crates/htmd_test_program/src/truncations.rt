//! Pages that are cut short, or lack a character or a byte.
use htmd::options::{LinkStyle, Options, TranslationMode};
use htmd::{ConvertError, HtmlToMarkdown};
use htmd_cli::{Input, Mode, Output, RunError, run};
use htmd_test_expected::expect_that;
use std::alloc::Global;
use std::test::Fail;

// The page that is converted cut short, and without one of its characters.
const PAGE: &str = "\
<!DOCTYPE html>\n\
<!-- The plan -- of one summer -->\n\
<title>Été &amp; mer &mdash; plan</title>\n\
<style>h1 > em { color: #c00; }</style>\n\
<script>if (days < 7 && n > 0) { say(\"<p>\"); }</script>\n\
<h1 id=top>Un été à la <em>mer</em></h1>\n\
<h2 class=\"sub title\">1. What to take</h2>\n\
<p title='it&#39;s long' lang=en>Some <b>bold </b>and <i>slanted</i><em> words</em>,\n\
a <a href=\"/x?a=1&amp;b=2\" title=\"the &quot;way&quot;\">link (there)</a>,<br/>\n\
<code>x &lt; y `z`</code>, AT&T, 5 &pound; &#x2014; &hellip; &frac12; &copy; 漢字.</p>\n\
<ul><li>one<ul><li>inner *star*</li></ul></li><li><p>two</p><p>more</p></li></ul>\n\
<ol start=\"9\"><li>nine</li><li>ten<br>and more</li></ol>\n\
<table class=t><caption>Days | weeks</caption>\n\
<thead><tr><th>A</th><th>B</th></tr></thead>\n\
<tbody><tr><td>1|2</td><td>漢</td></tr><tr><td>3</td></tr></tbody>\n\
<tfoot><tr><td colspan=2>end</td></tr></tfoot></table>\n\
<table><tr><td><table><tr><th>in</th></tr></table></td></tr></table>\n\
<pre><code class=\"language-c-sharp\">\n\
if (a < b) {\r\n\
  ```\n\
}</code></pre>\n\
<pre>\n\
~ line one\n\
  line two</pre>\n\
<blockquote><p>quoted <i>text</i></p><hr><p>- second</p></blockquote>\n\
<dl><dt>term</dt><dd>meaning</dd></dl>\n\
<form action=\"/go\"><input type=\"text\" name='q' disabled><textarea>\n\
kept &gt;</textarea><select><optgroup label=\"g\"><option value=1>1</option></optgroup></select>\n\
<button>Go</button></form>\n\
<details><summary>Why\n\n?</summary>Because</details>\n\
<noscript><p>no &amp; no</p></noscript><img src=/i.png alt=\"a\n\nb\" width=1>\n\
<p><span class=\"math math-inline\">a_b</span>, <span class=\"math math-display\">c*d</span>,\n\
<span lang=de>Grüße</span> and <mark>é</mark> <u>1. x</u> <kbd>Ctrl</kbd></p>\n\
<section><article><h3>Last <a href=#top>up</a></h3><p>\\ and _ and &nbsp; #</p></article></section>\n\
<p>2. Trains &lt;b> and # ships</p><p>+ planes</p><p>&gt; roads = 1</p>\n\
<p><a href=https://example.com>https://example.com</a> <a>no</a> <img alt=none></p>";

// Whether a page is converted, or refused at a place of it.
fn is_answered(alloc: Global, converter: &HtmlToMarkdown, html: &str) -> bool {
    match converter.convert(alloc, html) {
        Ok(_) => true,
        Err(ConvertError::Refused { place, .. }) => place <= html.len(),
        Err(ConvertError::Memory) => false,
    }
}

#[test]
fn answers_beginnings(rt: HostRuntime) -> Result<(), Fail> {
    let converter = HtmlToMarkdown::new(rt.alloc())?;
    let mut beginning = String::new(rt.alloc());
    for c in PAGE.chars() {
        expect_that(
            beginning.as_str(),
            is_answered(rt.alloc(), &converter, beginning.as_str()),
        )?;
        beginning.push(c)?;
    }
    expect_that(
        "whole",
        converter.convert(rt.alloc(), beginning.as_str()).is_ok(),
    )
}

// The page without each of its characters.
#[test]
fn answers_lacks(rt: HostRuntime) -> Result<(), Fail> {
    let options = Options {
        link_style: LinkStyle::Referenced,
        translation_mode: TranslationMode::Faithful,
        ..Options::default()
    };
    let builder = HtmlToMarkdown::builder(rt.alloc())?.options(options);
    let converter = builder.scripting_enabled(false).build();
    let mut beginning = String::new(rt.alloc());
    let mut rest = PAGE.chars();
    while let Some(c) = rest.next() {
        let mut less = String::from_str(rt.alloc(), beginning.as_str())?;
        less.push_str(rest.as_str())?;
        expect_that(
            less.as_str(),
            is_answered(rt.alloc(), &converter, less.as_str()),
        )?;
        beginning.push(c)?;
    }
    expect_that("whole", converter.convert(rt.alloc(), PAGE).is_ok())
}

// Whether a run over these bytes writes an answer, or refuses them at one of their places and writes nothing: as not
// UTF-8 exactly if they aren't.
fn is_run(alloc: Global, bytes: &[u8]) -> bool {
    let mut written = Vec::new(alloc);
    let mut source = Input::new(bytes);
    let mut sink = Output::new(&mut written);
    let mode = Mode {
        text: false,
        faithful: false,
    };
    let answer = run(alloc, &mut source, &mut sink, mode);
    match answer {
        Ok(()) => str::from_utf8(bytes).is_ok() && !written.is_empty(),
        Err(RunError::Refused { place, .. }) => {
            str::from_utf8(bytes).is_ok() && place <= bytes.len() && written.is_empty()
        }
        Err(RunError::NotUtf8) => str::from_utf8(bytes).is_err() && written.is_empty(),
        Err(_) => false,
    }
}

// The page cut after each of its bytes.
#[test]
fn runs_over_beginnings(rt: HostRuntime) -> Result<(), Fail> {
    let mut beginning = Vec::new(rt.alloc());
    for byte in PAGE.as_bytes() {
        expect_that("beginning", is_run(rt.alloc(), beginning.as_slice()))?;
        beginning.push(*byte)?;
    }
    expect_that("beginning", is_run(rt.alloc(), beginning.as_slice()))
}

// The page without each of its bytes.
#[test]
fn runs_over_lacks(rt: HostRuntime) -> Result<(), Fail> {
    let bytes = PAGE.as_bytes();
    for (place, _) in bytes.iter().enumerate() {
        let mut less = Vec::new(rt.alloc());
        for (other, byte) in bytes.iter().enumerate() {
            if other != place {
                less.push(*byte)?;
            }
        }
        expect_that("less", is_run(rt.alloc(), less.as_slice()))?;
    }
    Ok(())
}
