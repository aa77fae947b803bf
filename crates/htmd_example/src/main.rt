//! Uses of the library: texts of HTML and trees that are built by calls are converted, and their Markdown is printed.
#![tactic(auto)]

mod abbreviations;
mod clauses;
mod closures;
mod documents;
mod either;
mod markdown;
mod pages;
mod parts;
mod settings;
mod skipping;

use abbreviations::spelled_out_page;
use clauses::{as_file, is_html, of_any_page, the_markdown};
use closures::shouted;
use documents::{what_shows, with_note};
use either::site_heading;
use htmd::{ConvertError, HtmlToMarkdown, Tree, TreeError, convert, parse_selectors};
use markdown::{answered, in_one_form, without_raw_html};
use pages::three_pages;
use parts::selected_parts;
use settings::{faithful, underlined};
use skipping::without_asides;
use std::alloc::Global;
use std::io;

fn greeting(alloc: Global) -> Result<String, ConvertError> {
    convert(alloc, "<h1>Hello, <i>world</i></h1>")
}

fn table(alloc: Global) -> Result<String, ConvertError> {
    convert(
        alloc,
        "<table><thead><tr><th>Language</th></tr></thead><tbody><tr><td>Rust</td></tr></tbody></table>",
    )
}

fn built(alloc: Global) -> Result<String, TreeError> {
    let mut tree = Tree::new(alloc)?;
    let heading = tree.add_element(tree.root(), "h1", Vec::new(alloc))?;
    tree.add_text(heading, "Hello, *world*")?;
    let converter = HtmlToMarkdown::new(alloc)?;
    Ok(converter.tree_to_markdown(alloc, &tree, tree.root())?)
}

fn main(rt: HostRuntime) -> io::Result<()> {
    let alloc = rt.alloc();
    for answer in [
        greeting(alloc),
        table(alloc),
        underlined(alloc),
        faithful(alloc),
        without_asides(alloc),
        shouted(alloc),
        as_file(alloc, "<p>A file</p>"),
        the_markdown(alloc, "<p>No other</p>"),
        three_pages(alloc),
        spelled_out_page(alloc),
        site_heading(alloc),
    ] {
        match answer {
            Ok(markdown) => println!(rt; "{markdown}")?,
            Err(error) => eprintln!(rt; "{error}")?,
        }
    }
    match built(alloc) {
        Ok(markdown) => println!(rt; "{markdown}")?,
        Err(error) => eprintln!(rt; "{error}")?,
    }
    match of_any_page(alloc, "<ul><li>left<li>open") {
        Ok(markdown) => println!(rt; "{markdown}")?,
        Err(error) => eprintln!(rt; "{error}")?,
    }
    for answer in [
        what_shows(alloc, "<ul><li>one</ul><ul><li>x<sup>2</sup></ul>"),
        with_note(alloc, "<hr><h2>Two</h2>", "1. From *htmd*"),
        answered(alloc, "- **42**"),
        without_raw_html(alloc, "*one* <b>two\n\n<hr>"),
        in_one_form(alloc, "One\n===\n+ _two_"),
    ] {
        match answer {
            Ok(markdown) => println!(rt; "{markdown}")?,
            Err(error) => eprintln!(rt; "{error}")?,
        }
    }
    for html in ["<p>closed</p>", "<p>open"] {
        match is_html(alloc, html) {
            Ok(is_html) => println!(rt; "{html} {is_html}")?,
            Err(error) => eprintln!(rt; "{error}")?,
        }
    }
    let page = b"<nav>Menu</nav><main><h1>Caf\xe9</h1></main>";
    match parse_selectors(alloc, "main") {
        Ok(selected) => match selected_parts(alloc, page, selected) {
            Ok(markdown) => println!(rt; "{markdown}")?,
            Err(error) => eprintln!(rt; "{error}")?,
        },
        Err(error) => eprintln!(rt; "{error}")?,
    }
    Ok(())
}
