//! The trees of pages, node by node.
use htmd::{Attribute, HtmlToMarkdown, NodeData, NodeId, Tree};
use htmd_test_expected::expect_text;
use std::alloc::Global;
use std::test::Fail;

// The nodes of a tree of at most 100 nodes in document order.
fn nodes(alloc: Global, tree: &Tree) -> Result<Vec<NodeId>, Fail> {
    let mut all = Vec::new(alloc);
    let mut waiting = Vec::new(alloc);
    waiting.push(tree.root())?;
    for _ in 0..100 {
        let Some(node) = waiting.pop() else {
            break;
        };
        if !tree.contains(node) {
            return Err(Fail::from("a child is in the tree"));
        }
        for child in tree.children(node).iter().rev() {
            waiting.push(*child)?;
        }
        all.push(node)?;
    }
    Ok(all)
}

// The first node with this name; `#text` is a text's.
fn first_of(alloc: Global, tree: &Tree, name: &str) -> Result<NodeId, Fail> {
    for node in nodes(alloc, tree)? {
        if !tree.contains(node) {
            return Err(Fail::from("a node is in the tree"));
        }
        let is_found = match tree.data(node) {
            NodeData::Element { name: tag, .. } => tag.as_str() == name,
            NodeData::Text(_) => name == "#text",
            _ => false,
        };
        if is_found {
            return Ok(node);
        }
    }
    Err(Fail::from("there is such a node"))
}

// A mark of what a node is, and its text or name.
fn parts_of(data: &NodeData) -> (&str, &str) {
    match data {
        NodeData::Document => ("", "document"),
        NodeData::Doctype => ("", "doctype"),
        NodeData::Text(text) => ("\"", text.as_str()),
        NodeData::Comment(text) => ("!", text.as_str()),
        NodeData::Element { name, .. } => ("", name.as_str()),
    }
}

// A line for each node in document order: a full stop for each node above it, and what it is.
fn outline(alloc: Global, tree: &Tree) -> Result<String, Fail> {
    let mut lines = String::new(alloc);
    for node in nodes(alloc, tree)? {
        if !tree.contains(node) {
            return Err(Fail::from("a node is in the tree"));
        }
        for _ in 0..tree.depth(node) {
            lines.push('.')?;
        }
        let (mark, text) = parts_of(tree.data(node));
        lines.push_str(mark)?;
        lines.push_str(text)?;
        lines.push('\n')?;
    }
    Ok(lines)
}

#[test]
fn reads_trees(rt: HostRuntime) -> Result<(), Fail> {
    let table: [(&str, &str); 3] = [
        (
            " <!--c--><title>t</title><script>s</script>x",
            "document\n.html\n..head\n..body\n...\" \n...!c\n...title\n....\"t\n...script\n....\"s\n...\"x\n",
        ),
        ("a&amp;b", "document\n.html\n..head\n..body\n...\"a&b\n"),
        (
            "<!DOCTYPE html><p>a</p>",
            "document\n.doctype\n.html\n..head\n..body\n...p\n....\"a\n",
        ),
    ];
    let converter = HtmlToMarkdown::new(rt.alloc())?;
    for (html, lines) in table {
        let tree = converter.html_to_tree(rt.alloc(), html)?;
        expect_text(html, outline(rt.alloc(), &tree)?.as_str(), lines)?;
    }
    Ok(())
}

// What a node is.
fn data_of(tree: &Tree, node: NodeId) -> Result<&NodeData, Fail> {
    if !tree.contains(node) {
        return Err(Fail::from("a node is in the tree"));
    }
    Ok(tree.data(node))
}

// The text of a text node, as its tree has it.
fn owned_text(data: &NodeData) -> Option<&String> {
    match data {
        NodeData::Text(text) => Some(text),
        _ => None,
    }
}

// The attributes of an element, as its tree has them.
fn owned_attributes(data: &NodeData) -> Option<&Vec<Attribute>> {
    match data {
        NodeData::Element { attrs, .. } => Some(attrs),
        _ => None,
    }
}

#[test]
fn lends_what_it_has(rt: HostRuntime) -> Result<(), Fail> {
    let converter = HtmlToMarkdown::new(rt.alloc())?;
    let tree = converter.html_to_tree(rt.alloc(), "<a href=u>t</a>")?;
    let link = first_of(rt.alloc(), &tree, "a")?;
    let below = first_of(rt.alloc(), &tree, "#text")?;
    let Some(attributes) = owned_attributes(data_of(&tree, link)?) else {
        return Err(Fail::from("there is an element"));
    };
    let Some(text) = owned_text(data_of(&tree, below)?) else {
        return Err(Fail::from("there is a text"));
    };
    expect_text("text", text.as_str(), "t")?;
    let [attribute] = attributes.as_slice() else {
        return Err(Fail::from("there is one attribute"));
    };
    expect_text("name", attribute.name.as_str(), "href")?;
    expect_text("value", attribute.value.as_str(), "u")
}

// Fails unless this is the Markdown of a page's tree from the first node with this name on.
fn expect_from(
    alloc: Global,
    converter: &HtmlToMarkdown,
    html: &str,
    start: &str,
    markdown: &str,
) -> Result<(), Fail> {
    let tree = converter.html_to_tree(alloc, html)?;
    let node = first_of(alloc, &tree, start)?;
    if !tree.contains(node) {
        return Err(Fail::from("a node is in the tree"));
    }
    let answer = converter.tree_to_markdown(alloc, &tree, node)?;
    expect_text(start, answer.as_str(), markdown)
}

// A subtree that starts below `pre` keeps its white space; a text that is converted by itself is ordinary.
#[test]
fn starts_anywhere(rt: HostRuntime) -> Result<(), Fail> {
    const LITERAL: &str = "<pre><span>  *literal*  \nsecond</span></pre>";
    const MARKED: &str = "<pre><mark>  *l*</mark></pre>";
    const ROWS: &[(&str, &str, &str)] = &[
        (LITERAL, "span", "  *literal*  \nsecond"),
        (LITERAL, "#text", "\\*literal\\* second"),
        (MARKED, "mark", "  *l*"),
        (MARKED, "#text", "\\*l\\*"),
    ];
    let converter = HtmlToMarkdown::new(rt.alloc())?;
    for &(html, start, markdown) in ROWS {
        expect_from(rt.alloc(), &converter, html, start, markdown)?;
    }
    Ok(())
}
