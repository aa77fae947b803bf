//! A small page without what is hidden, with other images and links, and with a title.
use htmd_front_matter::title_of;
use htmd_test_expected::expect_text;
use htmd_tree::{read_html, serialize};
use htmd_trimming::{Images, plainer_page, titled_page, visible_page};
use std::alloc::Global;
use std::test::Fail;

const HIDDEN: &str =
    "<p hidden>a</p><p hidden=Until-Found>b</p><p aria-hidden=TRUE>c</p><p aria-hidden>d</p>\
<p style='color: red; Display : NONE ! important'>e</p><p style='display:inline'>f</p>\
<div style=';visibility:\thidden'><p>g</p></div>\
<i hidden> <!--h--><math>h</math></i><i hidden><math>i</math>i</i>";

#[test]
fn hidden_elements_go(rt: HostRuntime) -> Result<(), Fail> {
    let page = read_html(rt.alloc(), HIDDEN, false)?;
    let page = visible_page(rt.alloc(), &page)?;
    let html = serialize(rt.alloc(), &page, page.root())?;
    expect_text(
        "hidden",
        html.as_str(),
        "<html><head></head><body><p hidden=\"Until-Found\">b</p><p aria-hidden=\"\">d</p>\
        <p style=\"display:inline\">f</p><i hidden=\"\"> <!--h--><math>h</math></i></body></html>",
    )
}

const IMAGES: &str =
    "<img src=a alt=A><input type=Image alt=I><img src=' data:,' alt=B data-src=b><img src=' data:,' alt=C>\
<img src='DATA:,'><picture><source srcset='d 2x'><img src='data:,' alt=D><img src='data:,' alt=E></picture>\
<img class='a mwe-math-fallback-image-inline' src='data:,' alt=F>";

/// How images are kept, and the body.
const KEPT: &[(Images, &str)] = &[
    (
        Images::Keep,
        "<img src=\"a\" alt=\"A\"><input type=\"Image\" alt=\"I\"><img src=\" data:,\" alt=\"B\" data-src=\"b\">\
        <img src=\" data:,\" alt=\"C\"><img src=\"DATA:,\"><picture><source srcset=\"d 2x\">\
        <img src=\"data:,\" alt=\"D\"><img src=\"data:,\" alt=\"E\"></picture>\
        <img class=\"a mwe-math-fallback-image-inline\" src=\"data:,\" alt=\"F\">",
    ),
    (
        Images::Linked,
        "<img src=\"a\" alt=\"A\"><input type=\"Image\" alt=\"I\"><img src=\" data:,\" alt=\"B\" data-src=\"b\">C\
        <picture><source srcset=\"d 2x\"><img src=\"data:,\" alt=\"D\">E</picture>\
        <img class=\"a mwe-math-fallback-image-inline\" src=\"data:,\" alt=\"F\">",
    ),
    (
        Images::Alt,
        "AIBC<picture><source srcset=\"d 2x\">DE</picture>\
        <img class=\"a mwe-math-fallback-image-inline\" src=\"data:,\" alt=\"F\">",
    ),
    (
        Images::Drop,
        "<picture><source srcset=\"d 2x\"></picture>\
        <img class=\"a mwe-math-fallback-image-inline\" src=\"data:,\" alt=\"F\">",
    ),
];

/// The page of a text with these images.
fn plainer(alloc: Global, html: &str, images: Images, links_as_text: bool) -> Result<String, Fail> {
    let page = read_html(alloc, html, false)?;
    let page = plainer_page(alloc, &page, images, links_as_text)?;
    Ok(serialize(alloc, &page, page.root())?)
}

#[test]
fn images_are_kept_or_not(rt: HostRuntime) -> Result<(), Fail> {
    for (images, body) in KEPT {
        let want = format!(in rt.alloc(); "<html><head></head><body>{body}</body></html>")?;
        let html = plainer(rt.alloc(), IMAGES, *images, false)?;
        expect_text(body, html.as_str(), want.as_str())?;
    }
    Ok(())
}

#[test]
fn links_are_text(rt: HostRuntime) -> Result<(), Fail> {
    let html = plainer(
        rt.alloc(),
        "<a href=x id=y>a</a><video src=v title=V></video><iframe src=w title=W hidden></iframe>\
        <object data=o></object><img src=i><q cite=z>b</q><a href=#c class=d>#</a><a href=#c>+</a>",
        Images::Keep,
        true,
    )?;
    expect_text(
        "links",
        html.as_str(),
        "<html><head></head><body><a id=\"y\">a</a>V<object></object><img src=\"i\"><q cite=\"z\">b</q>\
        <a class=\"headerlink\">#</a><a>+</a></body></html>",
    )
}

/// The page of a text, with its title as a heading.
fn titled(alloc: Global, html: &str) -> Result<String, Fail> {
    let page = read_html(alloc, html, false)?;
    let page = match title_of(alloc, &page)? {
        Some(title) => titled_page(alloc, page, title.as_str())?,
        None => page,
    };
    Ok(serialize(alloc, &page, page.root())?)
}

/// Texts, and their pages with a title.
const TITLES: &[(&str, &str)] = &[
    (
        "<title> A\n b </title><p>c</p>",
        "<h1>A b</h1><html><head></head><body><p>c</p></body></html>",
    ),
    (
        "<title>A</title><div><h1>B</h1></div>",
        "<html><head></head><body><title>A</title><div><h1>B</h1></div></body></html>",
    ),
    (
        "<title>A</title><h1><a>\n</a></h1>",
        "<h1>A</h1><html><head></head><body><h1><a>\n</a></h1></body></html>",
    ),
    (
        "<title> </title><p>c</p>",
        "<html><head></head><body><title> </title><p>c</p></body></html>",
    ),
    (
        "<p>c</p>",
        "<html><head></head><body><p>c</p></body></html>",
    ),
];

#[test]
fn a_page_says_its_title(rt: HostRuntime) -> Result<(), Fail> {
    for (text, want) in TITLES {
        let html = titled(rt.alloc(), text)?;
        expect_text(text, html.as_str(), want)?;
    }
    Ok(())
}
