//! The reader of any page.
ghost use Rattle.std.specs.Prelude.{◌≡◌, IfOk, OnOk};
ghost use Rattle.std.specs.Cow.{cow_str_bytes};
ghost use Rattle.htmd_html5.specs.Html5Documents as spec;
ghost use Rattle.htmd_html5_state.specs.State.{initial_state};
ghost use Rattle.htmd_html5_tokens.specs.Tokens.{value_of};
ghost use Rattle.htmd_html5_state.specs.Views.{nodes_of};

use crate::feeding::{feed, feed_end_of_file};
use crate::layout::lay_out;
use htmd_html5_state::{HtmlState, Node};
use htmd_html5_tokens::{Token, Tokenizer, preprocess};
use htmd_nodes::Tree;
use std::alloc::{AllocError, Global};
use std::borrow::CowStr;

/// Few pages have more nodes than one for so many bytes. Memory for these is allocated at once, since a list that grows
/// is copied each time.
const BYTES_PER_NODE: usize = 14;

fn is_end(token: &Token<'_>) -> bool
    ensures { result ≡ spec.is_end (value_of token.now) }
{
    matches!(token, Token::EndOfFile)
}

/// Feeds all tokens of a text to a state. Each token has at least one character.
fn read_all(alloc: Global, state: &mut HtmlState, text: &str) -> Result<(), AllocError>
    ensures { OnOk result (state.new ≡ spec.read_all text.now state.old) }
{
    let mut tokenizer = Tokenizer::new(text);
    for _token in 0..text.len() {
        let token = tokenizer.next(alloc, state.content(), !state.current_is_html())?;
        let ends = is_end(&token);
        feed(state, token)?;
        if ends {
            return Ok(());
        }
    }
    feed_end_of_file(state)
}

fn read_text(alloc: Global, text: &str, scripting: bool) -> Result<Vec<Node>, AllocError>
    ensures { IfOk result (λ nodes. nodes_of nodes.items
        ≡ (spec.read_all text.now (initial_state scripting)).nodes) }
{
    let mut state = HtmlState::with_capacity(alloc, scripting, text.len() / BYTES_PER_NODE)?;
    read_all(alloc, &mut state, text)?;
    Ok(state.into_nodes())
}

fn text_of<'a>(text: &'a CowStr<'_>) -> &'a str
    ensures { result.now ≡ cow_str_bytes text.now }
{
    match text {
        CowStr::Borrowed(text) => *text,
        CowStr::Owned(text) => text.as_str(),
    }
}

/// The tree of a page, as the HTML Standard reads it. No text is refused; `Err` means out of memory. An element at
/// level 1,024 keeps no children: they come right after it.
pub fn parse_html5(alloc: Global, html: &str, scripting: bool) -> Result<Tree, AllocError>
    ensures ok { IfOk result (λ tree. tree ≡ spec.html5_document scripting html.now) }
{
    let text = preprocess(alloc, html)?;
    let nodes = read_text(alloc, text_of(&text), scripting)?;
    lay_out(alloc, nodes)
}
