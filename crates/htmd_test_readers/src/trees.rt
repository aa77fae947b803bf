//! What no clause says: that calls succeed if there is memory, and small serialisations, written by hand.
ghost use Rattle.std.specs.Prelude.{◌<◌, length, IsTrue};
ghost use Rattle.htmd_nodes.specs.Items.{data_at, holds_children};

use htmd_test_expected::{expect_number, expect_text, expect_that};
use htmd_tree::*;
use std::alloc::{AllocError, Global};
use std::test::Fail;

/// A node that is not added.
fn expect_too_deep(added: Result<NodeId, TreeError>) -> Result<(), Fail> {
    match added {
        Err(TreeError::TooDeep) => Ok(()),
        _ => Err(Fail::from("the node is too deep")),
    }
}

/// Adds nothing below the deepest node.
fn expect_nothing_below(alloc: Global, tree: &mut Tree, last: NodeId) -> Result<(), Fail>
    requires inside { last < length tree.old }
    requires holds { IsTrue (holds_children (data_at tree.old last)) }
    ensures inside { last < length tree.new }
{
    let owned = String::from_str(alloc, "x")?;
    expect_too_deep(tree.add_element(last, "b", Vec::new(alloc)))?;
    expect_too_deep(tree.add_text(last, "x"))?;
    expect_too_deep(tree.add_owned_text(last, owned))?;
    expect_number("children", tree.children(last).len(), 0)
}

#[test]
fn greatest_depth(rt: HostRuntime) -> Result<(), Fail> {
    let mut tree = Tree::new(rt.alloc())?;
    let mut last = tree.root();
    for _ in 0..1024 {
        last = tree.add_element(last, "b", Vec::new(rt.alloc()))?;
    }
    expect_number("depth", tree.depth(last), 1024)?;
    expect_nothing_below(rt.alloc(), &mut tree, last)?;
    let html = serialize(rt.alloc(), &tree, tree.root())?;
    expect_number("bytes", html.len(), 1024 * "<b></b>".len())
}

/// A node: the number of its parent in the rows, from 1 (the Document is 0), its name, and its text. A text has no
/// name, a text in memory of its own is `+`, a comment `!` and a doctype `!DOCTYPE`.
type Row = (usize, &'static str, &'static str);

/// Adds the node of a row.
fn added(
    alloc: Global,
    tree: &mut Tree,
    parent: NodeId,
    name: &str,
    text: &str,
) -> Result<NodeId, Fail> {
    if !tree.contains(parent) {
        return Err(Fail::from("a parent is in the tree"));
    }
    match tree.data(parent) {
        NodeData::Document => {}
        NodeData::Element { .. } => {}
        _ => return Err(Fail::from("a parent holds children")),
    }
    let node = if name.is_empty() {
        tree.add_text(parent, text)?
    } else if name == "+" {
        tree.add_owned_text(parent, String::from_str(alloc, text)?)?
    } else if name == "!" {
        tree.add_comment(parent, text)?
    } else if name == "!DOCTYPE" {
        tree.add_doctype(parent)?
    } else {
        tree.add_element(parent, name, Vec::new(alloc))?
    };
    Ok(node)
}

/// The tree of rows, and its nodes, of which the Document is the first.
fn built(alloc: Global, rows: &[Row]) -> Result<(Tree, Vec<NodeId>), Fail> {
    let mut tree = Tree::new(alloc)?;
    let mut nodes = Vec::new(alloc);
    nodes.push(tree.root())?;
    for &(above, name, text) in rows {
        let parent = *nodes.get(above).ok_or("a parent comes first")?;
        nodes.push(added(alloc, &mut tree, parent, name, text)?)?;
    }
    Ok((tree, nodes))
}

/// The children of a node, by their numbers.
fn expect_children(
    tree: &Tree,
    nodes: &[NodeId],
    above: usize,
    children: &[usize],
) -> Result<(), Fail> {
    let parent = *nodes.get(above).ok_or("there is such a node")?;
    if !tree.contains(parent) {
        return Err(Fail::from("the node is in the tree"));
    }
    let found = tree.children(parent);
    expect_number("children", found.len(), children.len())?;
    for (child, place) in found.iter().zip(children.iter()) {
        expect_that("child", nodes.get(*place) == Some(child))?;
    }
    Ok(())
}

#[test]
fn keeps_children(rt: HostRuntime) -> Result<(), Fail> {
    const ROWS: &[Row] = &[
        (0, "!DOCTYPE", ""),
        (0, "p", ""),
        (0, "!", "c"),
        (2, "", "Hi"),
        (2, "+", "!"),
    ];
    let (tree, nodes) = built(rt.alloc(), ROWS)?;
    expect_children(&tree, nodes.as_slice(), 0, &[1, 2, 3])?;
    expect_children(&tree, nodes.as_slice(), 2, &[4, 5])
}

/// One attribute.
fn attribute(alloc: Global, name: &str, value: &str) -> Result<Vec<Attribute>, AllocError> {
    let name = String::from_str(alloc, name)?;
    let value = String::from_str(alloc, value)?;
    let mut attrs = Vec::new(alloc);
    attrs.push(Attribute { name, value })?;
    Ok(attrs)
}

#[test]
fn tells_of_nodes(rt: HostRuntime) -> Result<(), Fail> {
    let mut tree = Tree::new(rt.alloc())?;
    let document = tree.root();
    let paragraph = tree.add_element(document, "p", attribute(rt.alloc(), "id", "a")?)?;
    let text = tree.add_text(paragraph, "Hi")?;
    expect_that("new", !Tree::new(rt.alloc())?.contains(text))?;
    expect_that(
        "with capacity",
        !Tree::with_capacity(rt.alloc(), 9)?.contains(text),
    )?;
    expect_that("parent", tree.parent(text) == Some(paragraph))?;
    expect_number("depth", tree.depth(text), 2)?;
    expect_that("tag name", tree.tag_name(paragraph) == Some("p"))?;
    expect_that("document", tree.tag_name(document) == Some("html"))
}

/// The text of a node.
fn expect_node(tree: &Tree, node: NodeId, want: &str) -> Result<(), Fail>
    requires inside { node < length tree.now }
{
    match tree.data(node) {
        NodeData::Text(text) => expect_text("node", text.as_str(), want),
        _ => Err(Fail::from("it is a text")),
    }
}

#[test]
fn keeps_texts(rt: HostRuntime) -> Result<(), Fail> {
    let mut tree = Tree::new(rt.alloc())?;
    let document = tree.root();
    let text = tree.add_text(document, "Hi")?;
    let owned = tree.add_owned_text(document, String::from_str(rt.alloc(), "!")?)?;
    expect_node(&tree, text, "Hi")?;
    expect_node(&tree, owned, "!")
}

/// The tree of an element with these attributes and a text, and the element.
fn tree_of(
    alloc: Global,
    name: &str,
    attrs: Vec<Attribute>,
    text: &str,
) -> Result<(Tree, NodeId), Fail> {
    let mut tree = Tree::new(alloc)?;
    let document = tree.root();
    let element = tree.add_element(document, name, attrs)?;
    tree.add_text(element, text)?;
    Ok((tree, element))
}

/// The HTML from a node of the tree on.
fn expect_html(alloc: Global, tree: &Tree, node: NodeId, want: &str) -> Result<(), Fail> {
    if !tree.contains(node) {
        return Err(Fail::from("the tree has the node"));
    }
    let html = serialize(alloc, tree, node)?;
    expect_text("node", html.as_str(), want)
}

#[test]
fn elements(rt: HostRuntime) -> Result<(), Fail> {
    const ROWS: &[(&str, &str, &str, &str)] = &[
        ("b", "", "y", "<b x=\"\">y</b>"),
        ("b", "\"&<", "x", "<b x=\"&quot;&amp;<\">x</b>"),
        (
            "p",
            "a\u{a0}>",
            "1 < 2\u{a0}& \u{a9} > \"",
            "<p x=\"a&nbsp;>\">1 &lt; 2&nbsp;&amp; \u{a9} &gt; \"</p>",
        ),
        (
            "style",
            "",
            "a<b\u{a0}&",
            "<style x=\"\">a<b\u{a0}&</style>",
        ),
        ("noscript", "", "<p>", "<noscript x=\"\"><p></noscript>"),
        ("pre", "", "\nTest", "<pre x=\"\">\nTest</pre>"),
        ("hr", "", "z", "<hr x=\"\">"),
    ];
    for &(name, value, text, want) in ROWS {
        let attrs = attribute(rt.alloc(), "x", value)?;
        let (tree, element) = tree_of(rt.alloc(), name, attrs, text)?;
        expect_html(rt.alloc(), &tree, element, want)?;
    }
    Ok(())
}

#[test]
fn starts(rt: HostRuntime) -> Result<(), Fail> {
    const ROWS: &[Row] = &[
        (0, "!DOCTYPE", ""),
        (0, "div", ""),
        (2, "i", ""),
        (0, "style", ""),
        (4, "", "a<b"),
        (0, "!", "<&"),
        (2, "br", ""),
        (3, "", "a"),
    ];
    const STARTS: &[(usize, &str)] = &[
        (
            0,
            "<!DOCTYPE html><div><i>a</i><br></div><style>a<b</style><!--<&-->",
        ),
        (1, "<!DOCTYPE html>"),
        (2, "<div><i>a</i><br></div>"),
        (4, "<style>a<b</style>"),
        (5, "a&lt;b"),
        (6, "<!--<&-->"),
    ];
    let (tree, nodes) = built(rt.alloc(), ROWS)?;
    for &(start, want) in STARTS {
        let node = *nodes.get(start).ok_or("there is such a node")?;
        expect_html(rt.alloc(), &tree, node, want)?;
    }
    Ok(())
}

/// The raw block of an element of the tree.
fn expect_raw_block(alloc: Global, tree: &Tree, element: NodeId, want: &str) -> Result<(), Fail> {
    if !tree.contains(element) {
        return Err(Fail::from("the tree has the element"));
    }
    let block = raw_block(alloc, tree, element)?;
    expect_text("element", block.as_str(), want)
}

#[test]
fn raw_blocks(rt: HostRuntime) -> Result<(), Fail> {
    const ROWS: &[(&str, &str, &str)] = &[
        ("div", "a\nb", "\n\n<div>a\nb</div>\n\n"),
        ("div", "a\n\n\nb", "\n\n<div>a\n&#10;\nb</div>\n\n"),
        ("div", "a\r\n\r\nb", "\n\n<div>a\r\n&#13;&#10;b</div>\n\n"),
        ("div", "a\n\rb", "\n\n<div>a\n\rb</div>\n\n"),
        (
            "div",
            "\r\n \r\n\r\r\n",
            "\n\n<div>\r\n &#13;&#10;\r\r\n</div>\n\n",
        ),
        (
            "details",
            "a\n \n\n b",
            "\n\n<details>a\n &#10;\n b</details>\n\n",
        ),
        (
            "p",
            "\n\u{2003}\n\u{2003}\n",
            "\n\n<p>\n\u{2003}&#10;\u{2003}\n</p>\n\n",
        ),
    ];
    for &(name, text, want) in ROWS {
        let (tree, element) = tree_of(rt.alloc(), name, Vec::new(rt.alloc()), text)?;
        expect_raw_block(rt.alloc(), &tree, element, want)?;
    }
    Ok(())
}

#[test]
fn error_texts(rt: HostRuntime) -> Result<(), Fail> {
    for (error, want) in [
        (TreeError::Memory, "out of memory"),
        (TreeError::TooDeep, "too deep"),
    ] {
        let text = format!(in rt.alloc(); "{error}")?;
        expect_text(want, text.as_str(), want)?;
    }
    Ok(())
}
