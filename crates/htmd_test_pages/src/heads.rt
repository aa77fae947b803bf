//! Absolute addresses of a small page, and what it says of itself.
use htmd_addresses::{base_of, make_absolute, page_url};
use htmd_front_matter::{front_matter, front_object};
use htmd_test_expected::expect_text;
use htmd_tree::{read_html, serialize};
use std::alloc::Global;
use std::test::Fail;
use url::Url;

/// The body of a page at an address, with absolute addresses.
fn absolute(alloc: Global, html: &str) -> Result<String, Fail> {
    let page = read_html(alloc, html, false)?;
    let url = Url::parse(alloc, "https://a.example/b/c")?;
    let part = match base_of(&page, &url)? {
        Some(base) => make_absolute(alloc, &page, &base)?,
        None => make_absolute(alloc, &page, &url)?,
    };
    Ok(serialize(alloc, &part, part.root())?)
}

#[test]
fn addresses_are_absolute(rt: HostRuntime) -> Result<(), Fail> {
    let html = absolute(
        rt.alloc(),
        "<p><a href=x?y#z title=x>a</a><img src=//i.example/j><a href='http://['>b</a>\
        <a href=#y>c</a></p>",
    )?;
    expect_text(
        "no base",
        html.as_str(),
        "<html><head></head><body><p><a href=\"https://a.example/b/x?y#z\" title=\"x\">a</a>\
        <img src=\"https://i.example/j\"><a href=\"http://[\">b</a><a href=\"#y\">c</a></p></body></html>",
    )
}

/// Elements, and what they become.
const ELEMENTS: &[(&str, &str)] = &[
    (
        "<img src=\"\" data-src=\"d\">",
        "<img src=\"\" data-src=\"https://a.example/b/d\">",
    ),
    (
        "<input data-original=\"/d\" data-lazy-src=\"?e\">",
        "<input data-original=\"https://a.example/d\" data-lazy-src=\"https://a.example/b/c?e\">",
    ),
    (
        "<object data=\"d\"></object>",
        "<object data=\"https://a.example/b/d\"></object>",
    ),
    (
        "<video src=\"d\" poster=\"e\"></video>",
        "<video src=\"https://a.example/b/d\" poster=\"e\"></video>",
    ),
    (
        "<p data-src=\"d\" data=\"d\" srcset=\"d\"></p>",
        "<p data-src=\"d\" data=\"d\" srcset=\"d\"></p>",
    ),
    (
        "<a href=\"\"></a>",
        "<a href=\"https://a.example/b/c\"></a>",
    ),
];

/// Sets of addresses, as they stand in `srcset`, and what they become.
const SETS: &[(&str, &str)] = &[
    ("", ""),
    (" ,\n", " ,\n"),
    ("d", "https://a.example/b/d"),
    (
        "d 1x, e 2x",
        "https://a.example/b/d 1x, https://a.example/b/e 2x",
    ),
    (
        " ,d,e 1x (,) ,f,, g\t",
        " ,https://a.example/b/d,e 1x (,) ,https://a.example/b/f,, https://a.example/b/g\t",
    ),
    ("d (1x, e", "https://a.example/b/d (1x, e"),
    (
        "d )(,)(,),e",
        "https://a.example/b/d )(,)(,),https://a.example/b/e",
    ),
    (
        "é (ü), http://[ 1x, #f",
        "https://a.example/b/%C3%A9 (ü), http://[ 1x, #f",
    ),
    (
        "data:image/gif;base64,R0 1x,d",
        "data:image/gif;base64,R0 1x,https://a.example/b/d",
    ),
];

#[test]
fn addresses_of_what_is_shown_are_absolute(rt: HostRuntime) -> Result<(), Fail> {
    for (element, want) in ELEMENTS {
        let want = format!(in rt.alloc(); "<html><head></head><body>{want}</body></html>")?;
        let html = absolute(rt.alloc(), element)?;
        expect_text(element, html.as_str(), want.as_str())?;
    }
    Ok(())
}

#[test]
fn addresses_of_sets_are_absolute(rt: HostRuntime) -> Result<(), Fail> {
    for (set, want) in SETS {
        let html = format!(in rt.alloc(); "<img srcset=\"{set}\"><source data-srcset=\"{set}\">")?;
        let want = format!(in rt.alloc();
            "<html><head></head><body>\
            <img srcset=\"{want}\"><source data-srcset=\"{want}\"></body></html>"
        )?;
        let html = absolute(rt.alloc(), html.as_str())?;
        expect_text(set, html.as_str(), want.as_str())?;
    }
    Ok(())
}

#[test]
fn a_page_names_its_base(rt: HostRuntime) -> Result<(), Fail> {
    let html = absolute(
        rt.alloc(),
        "<base><base href=/d/><base href=/e/><a href=x>a</a>",
    )?;
    expect_text(
        "base",
        html.as_str(),
        "<html><head></head><body><base><base href=\"/d/\"><base href=\"/e/\">\
        <a href=\"https://a.example/d/x\">a</a></body></html>",
    )
}

/// URLs of folders, paths of pages in them, and the URLs of these pages.
const PAGE_URLS: &[(&str, &str, &str)] = &[
    ("https://a.example/", "b.html", "https://a.example/b.html"),
    (
        "https://a.example/b/?x#y",
        "c/d.html",
        "https://a.example/b/c/d.html",
    ),
    ("https://a.example/b", "c.html", "https://a.example/c.html"),
    (
        "https://a.example/",
        "é f/100%.html",
        "https://a.example/%C3%A9%20f/100%25.html",
    ),
    (
        "https://a.example/",
        "c:\\d?e#f.html",
        "https://a.example/c%3A%5Cd%3Fe%23f.html",
    ),
    ("file:///a/", "b.html", "file:///a/b.html"),
    ("mailto:x", "b.html", "none"),
];

#[test]
fn pages_of_folders_have_urls(rt: HostRuntime) -> Result<(), Fail> {
    for (folder, path, want) in PAGE_URLS {
        let url = Url::parse(rt.alloc(), folder)?;
        let found = page_url(rt.alloc(), &url, path)?;
        let found = found.as_ref().map_or("none", Url::as_str);
        expect_text(path, found, want)?;
    }
    Ok(())
}

const HEAD: &str =
    "<title> A \"b\"\n c </title><meta name=Description content=d><meta name=keywords>\
<link rel=canonical href=/x><meta name=description content=e>";

#[test]
fn a_page_says_something(rt: HostRuntime) -> Result<(), Fail> {
    let page = read_html(rt.alloc(), HEAD, false)?;
    let lines = front_matter(rt.alloc(), &page)?;
    expect_text(
        "front matter",
        lines.as_str(),
        "title: \"A \\\"b\\\" c\"\ndescription: \"d\"\ncanonical: \"/x\"\n",
    )
}

/// Heads, and what they say is the date.
const DATES: &[(&str, &str)] = &[
    (
        "<meta property=article:published_time content=2024-05-06T07:08:09Z>",
        "date: \"2024-05-06T07:08:09Z\"\n",
    ),
    (
        "<meta name=dc.date content=1><meta name=DCTERMS.date content=2>",
        "date: \"2\"\n",
    ),
    (
        "<meta name=dcterms.date content=1><meta itemprop=datePublished content=2>",
        "date: \"2\"\n",
    ),
    (
        "<meta itemprop=datePublished content=1><meta property=article:published_time content=2>",
        "date: \"2\"\n",
    ),
    (
        "<meta property=article:published_time content=1><meta name=date content=2>",
        "date: \"2\"\n",
    ),
    ("<meta name=dc.date content=1>", "date: \"1\"\n"),
    (
        "<meta name=article:published_time content=1><meta property=date content=2>",
        "",
    ),
];

#[test]
fn a_page_says_its_date(rt: HostRuntime) -> Result<(), Fail> {
    for (head, want) in DATES {
        let page = read_html(rt.alloc(), head, false)?;
        expect_text(head, front_matter(rt.alloc(), &page)?.as_str(), want)?;
    }
    Ok(())
}

#[test]
fn a_page_says_something_in_json(rt: HostRuntime) -> Result<(), Fail> {
    let alloc = rt.alloc();
    let page = read_html(alloc, HEAD, false)?;
    expect_text(
        "object",
        front_object(alloc, &page)?.as_str(),
        "{\"title\":\"A \\\"b\\\" c\",\"description\":\"d\",\"canonical\":\"/x\"}",
    )?;
    let silent = read_html(alloc, "<p>a</p>", false)?;
    expect_text("nothing", front_object(alloc, &silent)?.as_str(), "{}")
}
