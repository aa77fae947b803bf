//! Converts the page on standard input, any page, with a handler for `mark`.
#![tactic(auto)]

mod highlight;

use highlight::Highlight;
use htmd::HtmlToMarkdown;
use htmd::element_handler::ElementHandler;
use std::alloc::{AllocError, Global};
use std::io;

fn converted(alloc: Global, html: &str) -> Result<String, AllocError> {
    let handler: Box<dyn ElementHandler> = Box::new(alloc, Highlight)?;
    let Ok(builder) = HtmlToMarkdown::builder(alloc)?.add_handler(&["mark"], handler) else {
        return Err(AllocError);
    };
    builder.build().convert_html5(alloc, html)
}

fn main(rt: HostRuntime) -> io::Result<()> {
    let html = io::read_to_string(rt.alloc(), rt.stdin())?;
    match converted(rt.alloc(), &html) {
        Ok(markdown) => println!(rt; "{markdown}"),
        Err(error) => eprintln!(rt; "{error}"),
    }
}
