//! What no clause says: that texts are read if there is memory.

use htmd_commonmark_reader::read_markdown;
use htmd_parts::to_html;
use htmd_test_expected::{expect_number, expect_text};
use std::alloc::{AllocError, Global};
use std::test::Fail;

struct Row {
    text: &'static str,
    html: &'static str,
}

/// Each block: 4.1 to 4.6, 5.1 and 5.2 of CommonMark.
const BLOCKS: &[Row] = &[
    Row {
        text: "# foo\n***\nfoo\n---\n",
        html: "<h1>foo</h1>\n<hr />\n<h2>foo</h2>\n",
    },
    Row {
        text: "    a simple\n      indented code block\n",
        html: "<pre><code>a simple\n  indented code block\n</code></pre>\n",
    },
    Row {
        text: "~~~~    ruby startline=3 $%@#$\ndef foo(x)\n  return 3\nend\n~~~~~~~\n",
        html: "<pre><code class=\"language-ruby\">def foo(x)\n  return 3\nend\n</code></pre>\n",
    },
    Row {
        text: "<div>\n*foo*\n\n*bar*\n",
        html: "<div>\n*foo*\n<p><em>bar</em></p>\n",
    },
    Row {
        text: "> 1. > Blockquote\n",
        html: "<blockquote>\n<ol>\n<li>\n<blockquote>\n<p>Blockquote</p>\n</blockquote>\n</li>\n</ol>\n</blockquote>\n",
    },
];

/// 5.3 of CommonMark, and 4.10 and 5.3 of GitHub's.
const LISTS: &[Row] = &[
    Row {
        text: "- foo\n- bar\n+ baz\n",
        html: "<ul>\n<li>foo</li>\n<li>bar</li>\n</ul>\n<ul>\n<li>baz</li>\n</ul>\n",
    },
    Row {
        text: "- a\n- b\n\n- c\n",
        html: "<ul>\n<li>\n<p>a</p>\n</li>\n<li>\n<p>b</p>\n</li>\n<li>\n<p>c</p>\n</li>\n</ul>\n",
    },
    Row {
        text: "- a\n  - b\n\n    c\n- d\n",
        html: "<ul>\n<li>a\n<ul>\n<li>\n<p>b</p>\n<p>c</p>\n</li>\n</ul>\n</li>\n<li>d</li>\n</ul>\n",
    },
    Row {
        text: "- a\n- b\n\n  [ref]: /url\n- d\n",
        html: "<ul>\n<li>\n<p>a</p>\n</li>\n<li>\n<p>b</p>\n</li>\n<li>\n<p>d</p>\n</li>\n</ul>\n",
    },
    Row {
        text: "- [ ] foo\n- [x] bar\n",
        html: "<ul>\n<li><input disabled=\"\" type=\"checkbox\"> foo</li>\n\
             <li><input checked=\"\" disabled=\"\" type=\"checkbox\"> bar</li>\n</ul>\n",
    },
    Row {
        text: "| foo | bar |\n| --- | --- |\n| baz | bim |\n",
        html: "<table>\n<thead>\n<tr>\n<th>foo</th>\n<th>bar</th>\n</tr>\n</thead>\n\
             <tbody>\n<tr>\n<td>baz</td>\n<td>bim</td>\n</tr>\n</tbody>\n</table>\n",
    },
];

/// 2.4, 2.5, 4.7 and 6.1 to 6.7 of CommonMark, and 6.5 of GitHub's.
const INLINES: &[Row] = &[
    Row {
        text: "`` foo ` bar ``\n",
        html: "<p><code>foo ` bar</code></p>\n",
    },
    Row {
        text: "*foo **bar** baz* ~~Hi~~ \\*not&copy;\n",
        html: "<p><em>foo <strong>bar</strong> baz</em> <del>Hi</del> *not©</p>\n",
    },
    Row {
        text: "[foo]: /url \"title\"\n\n[foo] ![foo][] [link](/uri) <https://foo.bar.baz>\n",
        html: "<p><a href=\"/url\" title=\"title\">foo</a> <img src=\"/url\" alt=\"foo\" title=\"title\" /> \
             <a href=\"/uri\">link</a> <a href=\"https://foo.bar.baz\">https://foo.bar.baz</a></p>\n",
    },
    Row {
        text: "<a><bab>foo  \nbaz\n",
        html: "<p><a><bab>foo<br />\nbaz</p>\n",
    },
    Row {
        text: "[link](foo(and(bar))\n",
        html: "<p>[link](foo(and(bar))</p>\n",
    },
];

fn html_of(alloc: Global, text: &str) -> Result<String, AllocError> {
    let parts = read_markdown(alloc, text)?;
    to_html(alloc, &parts)
}

fn expect_rows(alloc: Global, rows: &[Row]) -> Result<(), Fail> {
    for row in rows {
        let html = html_of(alloc, row.text)?;
        expect_text(row.text, &html, row.html)?;
    }
    Ok(())
}

#[test]
fn reads_examples(rt: HostRuntime) -> Result<(), Fail> {
    expect_rows(rt.alloc(), BLOCKS)?;
    expect_rows(rt.alloc(), LISTS)?;
    expect_rows(rt.alloc(), INLINES)
}

/// Whether the HTML is as it should be, or out of memory.
fn expect_html(alloc: Global, row: &Row) -> Result<(), Fail> {
    match html_of(alloc, row.text) {
        Ok(html) => expect_text(row.text, &html, row.html),
        Err(AllocError) => Ok(()),
    }
}

#[test]
fn passes_or_ends_out_of_memory(rt: HostRuntime) -> Result<(), Fail> {
    for row in BLOCKS {
        expect_html(rt.alloc(), row)?;
    }
    for row in LISTS {
        expect_html(rt.alloc(), row)?;
    }
    for row in INLINES {
        expect_html(rt.alloc(), row)?;
    }
    Ok(())
}

/// Quotes of so many levels have a beginning and an end each, around the three parts of a paragraph.
#[test]
fn reads_deep_quotes(rt: HostRuntime) -> Result<(), Fail> {
    let mut text = String::new(rt.alloc());
    for _ in 0..1000 {
        text.push('>')?;
    }
    text.push('a')?;
    let parts = read_markdown(rt.alloc(), text.as_str())?;
    expect_number("parts", parts.len(), 2003)
}
