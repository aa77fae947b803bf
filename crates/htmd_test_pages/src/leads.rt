//! Addresses of pages of a run.
use htmd_addresses::{Page, Pages, RunPage, base_address, lead_to_pages};
use htmd_test_expected::expect_text;
use htmd_tree::{read_html, serialize};
use std::alloc::{AllocError, Global};
use std::test::Fail;
use url::Url;

/// The inputs of a run and their outputs.
const PAGES: &[(&str, &str)] = &[
    ("site/a.html", "out/a.md"),
    ("./site/sub/b c.html", "out/sub/b c.md"),
    ("site/100%.html", "out/100%.md"),
    ("site/sub/../a.html", "out/later.md"),
    ("site/é:.htm", "out/é:.md"),
    ("site/sub/index.html", "out/sub/index.md"),
];

fn pages(alloc: Global) -> Result<Pages, AllocError> {
    let mut pages = Vec::new(alloc);
    for (input, output) in PAGES {
        pages.push(Page {
            input: String::from_str(alloc, input)?,
            output: String::from_str(alloc, output)?,
        })?;
    }
    Pages::new(alloc, pages)
}

fn led(alloc: Global, own: (&str, &str), html: &str) -> Result<String, Fail> {
    let page = read_html(alloc, html, false)?;
    let pages = pages(alloc)?;
    let own = RunPage {
        pages: &pages,
        input: own.0,
        output: own.1,
        path_in_folder: own.0.strip_prefix("site/"),
    };
    let led = lead_to_pages(alloc, &page, own, None, base_address(&page))?;
    Ok(serialize(alloc, &led, led.root())?)
}

/// Addresses in `site/a.html`, and what they become.
const ADDRESSES: &[(&str, &str)] = &[
    ("a.html", "a.md"),
    (" ./sub/b%20c.html?x#y&\n", "sub/b%20c.md?x#y&amp;"),
    ("sub\\b c.html", "sub/b%20c.md"),
    ("SUB/b c.html", "SUB/b c.html"),
    ("../site/100%.html", "100%25.md"),
    ("100%25.html", "100%25.md"),
    ("%C3%A9:.htm#", "%C3%A9%3A.md#"),
    ("é:.htm", "%C3%A9%3A.md"),
    ("sub/b%20c.html/", "sub/b%20c.html/"),
    ("sub/?x#y", "sub/index.md?x#y"),
    ("sub/.", "sub/index.md"),
    ("sub/index.html/..", "sub/index.md"),
    ("sub", "sub/index.md"),
    ("../site/sub?x#y", "sub/index.md?x#y"),
    ("sub/./../sub#", "sub/index.md#"),
    ("su", "su"),
    ("./", "./"),
    ("a.htm", "a.htm"),
    ("../a.html", "../a.html"),
    ("/a.html", "a.md"),
    ("\\sub\\b c.html?x", "sub/b%20c.md?x"),
    ("/sub#y", "sub/index.md#y"),
    ("/../sub/../a.html", "a.md"),
    ("/", "/"),
    ("/site/a.html", "/site/a.html"),
    ("//a.html", "//a.html"),
    ("//site/a.html", "//site/a.html"),
    ("file:a.html", "file:a.html"),
    ("#a.html", "#a.html"),
    ("?a.html", "?a.html"),
    ("", ""),
];

#[test]
fn addresses_lead_to_outputs(rt: HostRuntime) -> Result<(), Fail> {
    for (address, want) in ADDRESSES {
        let html = format!(in rt.alloc(); "<a href=\"{address}\">t</a>")?;
        let want = format!(in rt.alloc();
            "<html><head></head><body><a href=\"{want}\">t</a></body></html>"
        )?;
        let html = led(rt.alloc(), PAGES[0], html.as_str())?;
        expect_text(address, html.as_str(), want.as_str())?;
    }
    Ok(())
}

/// Bases that `site/a.html` names, addresses in it, and what these become.
const BASES: &[(&str, &str, &str)] = &[
    ("sub/", "b c.html", "sub/b%20c.md"),
    (" sub/x.html?y ", "b%20c.html#z", "sub/b%20c.md#z"),
    ("sub", "a.html", "a.md"),
    ("..", "site/sub", "sub/index.md"),
    ("../", "site/a.html?x", "a.md?x"),
    ("../", "a.html", "a.html"),
    ("sub/", "../a.html", "a.md"),
    ("sub/", "#x", "#x"),
    ("", "a.html", "a.md"),
    ("#x", "a.html", "a.md"),
    ("?x", "sub/", "sub/index.md"),
    ("/", "a.html", "a.md"),
    ("/sub/x", "b c.html", "sub/b%20c.md"),
    ("sub/", "/a.html", "a.md"),
    ("//a.example", "a.html", "a.html"),
    ("//a.example", "/a.html", "/a.html"),
    ("http://a.example/", "a.html", "a.html"),
    ("http://a.example/", "/a.html", "/a.html"),
];

#[test]
fn addresses_are_read_by_the_base(rt: HostRuntime) -> Result<(), Fail> {
    for (base, address, want) in BASES {
        let bases = format!(in rt.alloc(); "<base><base href=\"{base}\"><base href=\"x/\">")?;
        let html = format!(in rt.alloc(); "{bases}<a href=\"{address}\">t</a>")?;
        let want = format!(in rt.alloc();
            "<html><head></head><body>{bases}<a href=\"{want}\">t</a></body></html>"
        )?;
        let html = led(rt.alloc(), PAGES[0], html.as_str())?;
        expect_text(base, html.as_str(), want.as_str())?;
    }
    Ok(())
}

// A page that wasn't found below a folder has no root, and where a URL is known it isn't a folder of the run.
#[test]
fn addresses_from_the_root_stay(rt: HostRuntime) -> Result<(), Fail> {
    let alloc = rt.alloc();
    let html = "<a href=\"/a.html\">t</a>";
    let named = led(alloc, PAGES[1], html)?;
    expect_text(
        "no root",
        named.as_str(),
        "<html><head></head><body><a href=\"/a.html\">t</a></body></html>",
    )?;
    let page = read_html(alloc, html, false)?;
    let pages = pages(alloc)?;
    let own = RunPage {
        pages: &pages,
        input: "site/a.html",
        output: "out/a.md",
        path_in_folder: Some("a.html"),
    };
    let url = Url::parse(alloc, "https://a.example/b/")?;
    let led = lead_to_pages(alloc, &page, own, Some(&url), None)?;
    expect_text(
        "a URL",
        serialize(alloc, &led, led.root())?.as_str(),
        "<html><head></head><body><a href=\"https://a.example/a.html\">t</a></body></html>",
    )
}

#[test]
fn addresses_of_what_is_shown_lead_to_outputs(rt: HostRuntime) -> Result<(), Fail> {
    let html = led(
        rt.alloc(),
        PAGES[1],
        "<iframe src=\"../a.html\"></iframe><img data-src=\"../a.html\" srcset=\"../100%25.html, b 2x\">",
    )?;
    expect_text(
        "what is shown",
        html.as_str(),
        "<html><head></head><body><iframe src=\"../a.md\"></iframe>\
        <img data-src=\"../a.md\" srcset=\"../100%25.md, b 2x\"></body></html>",
    )
}

#[test]
fn other_attributes_stay(rt: HostRuntime) -> Result<(), Fail> {
    let html = led(
        rt.alloc(),
        PAGES[1],
        "<p data-src=\"../a.html\"><a name=\"../a.html\" href=\"../a.html\">t</a></p><img alt=\"../a.html\">",
    )?;
    expect_text(
        "other attributes",
        html.as_str(),
        "<html><head></head><body><p data-src=\"../a.html\"><a name=\"../a.html\" href=\"../a.md\">t</a></p>\
        <img alt=\"../a.html\"></body></html>",
    )
}
