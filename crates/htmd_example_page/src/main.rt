//! Converts the page on standard input by the strict reader.
#![tactic(auto)]

use htmd::convert;
use std::io;

fn main(rt: HostRuntime) -> io::Result<()> {
    let html = io::read_to_string(rt.alloc(), rt.stdin())?;
    match convert(rt.alloc(), &html) {
        Ok(markdown) => println!(rt; "{markdown}"),
        Err(error) => eprintln!(rt; "{error}"),
    }
}
