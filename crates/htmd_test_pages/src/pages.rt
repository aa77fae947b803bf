//! Parts of a small page, and what is written of a text that is no selector.
use htmd_selectors::{drop_elements, parse_selectors, select_elements};
use htmd_test_expected::expect_text;
use htmd_tree::{read_html, serialize};
use std::alloc::Global;
use std::test::Fail;

const PAGE: &str =
    "<nav class=\"a\tb\">N</nav><main id=m><div class='aa  x' lang>P<a class=headerlink href=#>#</a></div>\
<div>Q<div>R</div></div></main>";

const P: &str = "<div class=\"aa  x\" lang=\"\">P<a class=\"headerlink\" href=\"#\">#</a></div>";

/// A page with several elements of one name below a parent.
const ROW: &str = "<h2>A</h2>-<p>1</p><p>2</p><ul>L<p>3</p></ul><p>4</p><h2>B</h2>";

fn matches_of(alloc: Global, page: &str, selectors: &str) -> Result<String, Fail> {
    let page = read_html(alloc, page, false)?;
    let selectors = parse_selectors(alloc, selectors)?;
    match select_elements(alloc, &page, &selectors)? {
        Some(part) => Ok(serialize(alloc, &part, part.root())?),
        None => Ok(String::from_str(alloc, "none")?),
    }
}

/// The matches, without the empty paragraphs after them.
fn selected_of(alloc: Global, page: &str, selectors: &str) -> Result<String, Fail> {
    let html = matches_of(alloc, page, selectors)?;
    Ok(html.replace(alloc, "<p></p>", "")?)
}

fn selected(alloc: Global, selectors: &str) -> Result<String, Fail> {
    selected_of(alloc, PAGE, selectors)
}

fn dropped(alloc: Global, selectors: &str) -> Result<String, Fail> {
    let page = read_html(alloc, PAGE, false)?;
    let selectors = parse_selectors(alloc, selectors)?;
    let part = drop_elements(alloc, &page, &selectors)?;
    Ok(serialize(alloc, &part, part.root())?)
}

/// Selectors, and what they select.
const SELECTED: &[(&str, &str)] = &[
    ("nav", "<nav class=\"a\tb\">N</nav>"),
    ("NAV.a.b", "<nav class=\"a\tb\">N</nav>"),
    (".A", "none"),
    (
        "div",
        "<div class=\"aa  x\" lang=\"\">P<a class=\"headerlink\" href=\"#\">#</a></div><div>Q<div>R</div></div>",
    ),
    (
        "main div > div,\n nav",
        "<nav class=\"a\tb\">N</nav><div>R</div>",
    ),
    ("main > a", "none"),
    (
        "body>main div>a[href='#']",
        "<a class=\"headerlink\" href=\"#\">#</a>",
    ),
    ("#m > div.x[LANG]", P),
    ("[ class = \"aa  x\" ]", P),
    ("[class=a]", "none"),
    ("main > *[class]", P),
    ("main>*[lang] *", "<a class=\"headerlink\" href=\"#\">#</a>"),
    ("[class~=x]", P),
    ("[class~='']", "none"),
    ("[class~=\"aa  x\"]", "none"),
    ("[class^=aa]", P),
    ("[class^='AA' i]", P),
    ("[class^='AA'S]", "none"),
    ("[class$=\" x\"]", P),
    ("[class$=x][class*='a  X' I ]", P),
    ("[class$='']", "none"),
    ("nav[class|=a]", "none"),
    ("[href|='#']", "<a class=\"headerlink\" href=\"#\">#</a>"),
    ("[lang=''], #\\6d.x", P),
    ("main#\\00006d > .\\61 a.x", P),
    ("[cl\\61ss='\\61\\000061   \\78 ']", P),
    ("n\\41v.\\a", "none"),
    ("[class='aa  \\\nx']", P),
    ("main > :not(div)", "none"),
    ("main > :not( .y , [lang=x] )[class]", P),
    (
        "a:is(a, b):Where(.headerlink)",
        "<a class=\"headerlink\" href=\"#\">#</a>",
    ),
    ("body>:not(main)", "<nav class=\"a\tb\">N</nav>"),
    (":not(.aa):not(nav) > div:not(*)", "none"),
    ("div + div", "<div>Q<div>R</div></div>"),
    ("nav ~ main > div + div > :only-child", "<div>R</div>"),
    ("main > :first-child", P),
    ("main>:last-child>:empty, div ~ nav, a + *", "none"),
    ("head:EMPTY", "<head></head>"),
    ("main > :nth-child(2)", "<div>Q<div>R</div></div>"),
    ("main>div:nth-last-child( 2N )", P),
    ("main > *:Nth-Child(-n + 1)", P),
    (
        ":nth-child(n+3), body>:nth-child(even):not(:nth-last-child(odd))",
        "none",
    ),
    ("nav+main>div~div", "<div>Q<div>R</div></div>"),
    ("nav + div", "none"),
    (
        ":only-child:not(:root)",
        "<a class=\"headerlink\" href=\"#\">#</a><div>R</div>",
    ),
    (
        ":root:not(body) > body > nav:FIRST-child",
        "<nav class=\"a\tb\">N</nav>",
    ),
    (
        "body > main:not(:first-child, :root) > div:not(:last-child)",
        P,
    ),
];

#[test]
fn elements_are_selected(rt: HostRuntime) -> Result<(), Fail> {
    for (selectors, want) in SELECTED {
        let html = selected(rt.alloc(), selectors)?;
        expect_text(selectors, html.as_str(), want)?;
    }
    Ok(())
}

#[test]
fn matches_stand_by_themselves(rt: HostRuntime) -> Result<(), Fail> {
    let page = "<ul><li>a</li></ul><pre class=x><b>b</b></pre><i>c</i>";
    let html = matches_of(rt.alloc(), page, "li, b, i")?;
    expect_text(
        "matches",
        html.as_str(),
        "<li>a</li><pre class=\"x\"><b>b</b></pre><p></p><i>c</i><p></p>",
    )
}

#[test]
fn elements_are_dropped(rt: HostRuntime) -> Result<(), Fail> {
    let html = dropped(rt.alloc(), "nav, div div, .headerlink")?;
    expect_text(
        "dropped",
        html.as_str(),
        "<html><head></head><body><main id=\"m\"><div class=\"aa  x\" lang=\"\">P</div><div>Q</div></main>\
        </body></html>",
    )
}

/// Selectors by places among elements of one name, and what they select of `ROW`.
const OF_TYPE: &[(&str, &str)] = &[
    (
        "body > :first-of-type",
        "<h2>A</h2><p>1</p><ul>L<p>3</p></ul>",
    ),
    (
        "body > :last-of-type",
        "<ul>L<p>3</p></ul><p>4</p><h2>B</h2>",
    ),
    ("body > :Only-Of-Type", "<ul>L<p>3</p></ul>"),
    ("p:nth-of-type(2)", "<p>2</p>"),
    ("p:nth-of-type(odd)", "<p>1</p><p>3</p><p>4</p>"),
    ("p:nth-last-of-type(-n+2)", "<p>2</p><p>3</p><p>4</p>"),
    ("h2:nth-last-of-type(2)", "<h2>A</h2>"),
    ("p:only-of-type, h2 + p:first-of-type", "<p>1</p><p>3</p>"),
    ("p:nth-of-type(4)", "none"),
    ("p:not(:first-of-type):not(:last-of-type)", "<p>2</p>"),
    (
        "body > :is(:first-child, p:last-of-type)",
        "<h2>A</h2><p>4</p>",
    ),
    ("p:first-of-type ~ p:last-of-type", "<p>4</p>"),
    ("body:first-of-type > h2:last-of-type", "<h2>B</h2>"),
];

#[test]
fn elements_are_selected_by_type(rt: HostRuntime) -> Result<(), Fail> {
    for (selectors, want) in OF_TYPE {
        let part = selected_of(rt.alloc(), ROW, selectors)?;
        expect_text(selectors, part.as_str(), want)?;
    }
    Ok(())
}

/// Texts that are no selectors, and what is written of them.
const FAULTS: &[(&str, &str)] = &[
    ("", "a selector is missing at byte 0"),
    ("a > > b", "a selector is missing at byte 4"),
    ("a, ", "a selector is missing at byte 3"),
    ("a:x", "the sign at byte 1 isn't supported"),
    ("a + > b", "a selector is missing at byte 4"),
    ("~ b", "a selector is missing at byte 0"),
    ("a +", "a selector is missing at byte 3"),
    ("a:not(+ b)", "a selector is missing at byte 6"),
    ("a:not(b ~ c)", "the sign at byte 8 isn't supported"),
    ("a:first-child(2)", "the sign at byte 1 isn't supported"),
    ("a:nth-child", "the sign at byte 1 isn't supported"),
    ("a:nth-of-type", "the sign at byte 1 isn't supported"),
    ("a:first-of-type(2)", "the sign at byte 1 isn't supported"),
    (
        "a:nth-last-of-type(2 of b)",
        "the sign at byte 19 isn't supported",
    ),
    ("a:nth-child()", "the sign at byte 12 isn't supported"),
    ("a:nth-child(2 of b)", "the sign at byte 12 isn't supported"),
    (
        "a:nth-child(1",
        "`]`, `)` or a quotation mark is missing at byte 13",
    ),
    ("b a:has(b)", "the sign at byte 3 isn't supported"),
    ("a:not(:is(b))", "the sign at byte 6 isn't supported"),
    ("a:not(b > c)", "the sign at byte 8 isn't supported"),
    (
        "a:not(b",
        "`]`, `)` or a quotation mark is missing at byte 7",
    ),
    ("a:not(b,)", "the sign at byte 8 isn't supported"),
    ("a::before", "a name is missing at byte 2"),
    ("#-1 x", "a name is missing at byte 1"),
    ("[a~b]", "the sign at byte 3 isn't supported"),
    (
        "[a=b x]",
        "`]`, `)` or a quotation mark is missing at byte 5",
    ),
    (
        "[a=b i s]",
        "`]`, `)` or a quotation mark is missing at byte 7",
    ),
    ("[a='b\n']", "the sign at byte 5 isn't supported"),
    ("a\\\nb", "the sign at byte 2 isn't supported"),
    ("a\\", "`]`, `)` or a quotation mark is missing at byte 2"),
    ("a*", "the sign at byte 1 isn't supported"),
    ("#-", "a name is missing at byte 1"),
    (
        "[a='b]",
        "`]`, `)` or a quotation mark is missing at byte 6",
    ),
];

fn fault(alloc: Global, selectors: &str) -> Result<String, Fail> {
    match parse_selectors(alloc, selectors) {
        Ok(_) => Ok(String::from_str(alloc, "none")?),
        Err(e) => Ok(format!(in alloc; "{e}")?),
    }
}

#[test]
fn other_texts_are_refused(rt: HostRuntime) -> Result<(), Fail> {
    for (selectors, want) in FAULTS {
        let message = fault(rt.alloc(), selectors)?;
        expect_text(selectors, message.as_str(), want)?;
    }
    Ok(())
}
