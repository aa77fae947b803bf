//! Writes the HTML of the Markdown on standard input.
#![tactic(auto)]

use htmd_commonmark_reader::markdown_to_html;
use std::io;

fn main(rt: HostRuntime) -> io::Result<()> {
    let text = io::read_to_string(rt.alloc(), rt.stdin())?;
    let html = markdown_to_html(rt.alloc(), &text)?;
    print!(rt; "{html}")
}
