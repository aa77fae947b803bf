//! Pages, their Markdown, and the Markdown of the HTML of that: that the call succeeds if there is memory.
#![tactic(auto)]

#[cfg(test)]
mod rounds;
