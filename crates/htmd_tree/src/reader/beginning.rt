//! A document before its content: a byte order mark and a Doctype if they are there (HTML Standard, 13.1.1), `html`
//! with its `head`, and `body`, which is open.
ghost use Rattle.std.specs.Prelude.{◌≡◌, length, option_map, ◌≢◌, ◌∷◌, [], IfOk, IfErr, is_some};
ghost use Rattle.htmd_lexical.specs.WhiteSpace.{is_ascii_white_space};
ghost use Rattle.htmd_lexical.specs.ByteOrderMarks.{behind_mark};
ghost use Rattle.htmd_grammar.specs.HtmlDocuments.{body_text};
ghost use Rattle.htmd_grammar.specs.ReaderSteps.{body};
ghost use Rattle.htmd_tree.specs.OpenItems.{stack_items};
ghost use Rattle.htmd_tree.specs.OpenNodes.{Holds};
ghost use Rattle.htmd_lexical.specs.CharacterClasses as classes;
ghost use Rattle.htmd_grammar.specs.Comments as comments;

use crate::reader::scan::{Class, split_run};
use crate::reader::surroundings::Surroundings;
use crate::reader::{OpenNode, Reader};
use htmd_nodes::{NodeId, Tree, TreeError};
use htmd_scanning::{behind_mark, strip_byte, strip_in_any_case};
use std::alloc::Global;

/// What follows the end of a doctype.
fn behind_doctype_end(text: &str) -> Option<&str>
    ensures { option_map (λ rest. rest.now) result
        ≡ comments.doctype_end (classes.behind_run is_ascii_white_space text.now) }
{
    let (_, end) = split_run(text, Class::WhiteSpace);
    strip_byte(end, b'>')
}

/// What follows the name of a doctype and its end.
fn behind_doctype_name(text: &str) -> Option<&str>
    ensures { option_map (λ rest. rest.now) result ≡ comments.doctype_name text.now }
{
    match strip_in_any_case(text, "html") {
        Some(behind) => behind_doctype_end(behind),
        None => None,
    }
}

/// What follows the doctype with which the text begins.
pub(crate) fn behind_doctype(text: &str) -> Option<&str>
    ensures { option_map (λ rest. rest.now) result ≡ comments.behind_doctype text.now }
{
    let Some(behind) = strip_in_any_case(text, "<!doctype") else {
        return None;
    };
    let (white, name) = split_run(behind, Class::WhiteSpace);
    if white.is_empty() {
        return None;
    }
    behind_doctype_name(name)
}

/// A tree of a document with an empty `body`, and its `body`.
fn empty_document(alloc: Global, has_doctype: bool) -> Result<(Tree, NodeId), TreeError>
    ensures ok { IfOk result (λ made. (made.0 ≡ stack_items has_doctype (body ∷ []))
        × (made.1 ≡ length (stack_items has_doctype []))) }
    ensures err { IfErr result (λ error. error ≢ TreeError.TooDeep) }
{
    let mut tree = Tree::new(alloc)?;
    let root = tree.root();
    if has_doctype {
        tree.add_doctype(root)?;
    }
    let html = tree.add_element(root, "html", Vec::new(alloc))?;
    tree.add_element(html, "head", Vec::new(alloc))?;
    let body = tree.add_element(html, "body", Vec::new(alloc))?;
    Ok((tree, body))
}

impl<'a> Reader<'a> {
    /// A reader before the content of a document. `Memory` when out of memory; there is no other error.
    pub(super) fn new(
        alloc: Global,
        text: &'a str,
        scripting: bool,
    ) -> Result<Reader<'a>, TreeError>
        ensures ok { IfOk result (λ reader.
            Holds reader (is_some (comments.behind_doctype (behind_mark text.now))) (body ∷ [])
            × (reader.rest.now ≡ body_text text.now) × (reader.scripting ≡ scripting)) }
        ensures err { IfErr result (λ error. error ≢ TreeError.TooDeep) }
    {
        let marked = behind_mark(text);
        let content = behind_doctype(marked);
        let (tree, body) = empty_document(alloc, content.is_some())?;
        let mut stack = Vec::new(alloc);
        stack.push(OpenNode {
            id: body,
            implied: false,
            surroundings: Surroundings::of_body(scripting),
        })?;
        Ok(Reader {
            alloc,
            tree,
            stack,
            rest: content.unwrap_or(marked),
            scripting,
        })
    }
}
