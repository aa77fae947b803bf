//! Content of elements that hold only text (HTML Standard, 13.1.2): text without references, up to the element's own
//! end tag.
ghost use Rattle.std.specs.Prelude.{◌≡◌, codes, OnOk, true};
ghost use Rattle.std.specs.Prelude.{false};
ghost use Rattle.htmd_lexical.specs.CharacterClasses.{begins_with, up_to, is_empty, onward};
ghost use Rattle.htmd_grammar.specs.HtmlDocuments.{above_body};
ghost use Rattle.htmd_grammar.specs.RawContent.{ends_text, holds_raw_text, text_of};
ghost use Rattle.htmd_grammar.specs.ReaderSteps.{raw_text_step};
ghost use Rattle.htmd_tree.specs.OpenNodes.{IsReading, innermost_name, WhateverIsOpen};
ghost use Rattle.htmd_tree.specs.Advances.{Follows, rules_of};
ghost use Rattle.htmd_grammar.specs.RawContent as spec;

use crate::reader::{NewNode, Reader, Stop};
use htmd_grammar::FaultKind;
use htmd_scanning::{begins_in_any_case, raw_content_len, with_line_feeds};

/// Whether the text begins with `<!--`.
fn begins_comment(bytes: &[u8]) -> bool
    ensures { result ≡ begins_with (codes "<!--") bytes.now }
{
    matches!(bytes, [b'<', b'!', b'-', b'-', ..])
}

/// Whether the text has `<!--`, and later `<script` in any case.
pub(crate) fn has_script_escape(bytes: &[u8]) -> bool
    ensures { result ≡ spec.has_script_escape bytes.now }
{
    let mut escaped = false;
    for i in 0..bytes.len() {
        let rest = &bytes[i..];
        if !escaped {
            escaped = begins_comment(rest);
        } else if begins_in_any_case(rest, b"<script") {
            return true;
        }
    }
    false
}

impl<'a> Reader<'a> {
    /// Reads text without references, up to what ends it.
    pub(super) fn read_raw_text(&mut self) -> Result<(), Stop>
        requires reading { IsReading self.old }
        requires more { is_empty self.old.rest.now ≡ false }
        ensures follows { WhateverIsOpen self.old (λ has_doctype fs.
            holds_raw_text self.old.scripting (innermost_name fs) ≡ true
            → Follows self.old self.new has_doctype result (raw_text_step (rules_of self.old) above_body fs
            (text_of (rules_of self.old) (innermost_name fs)
            (up_to (ends_text self.old.scripting (innermost_name fs)) self.old.rest.now))
            (onward (ends_text self.old.scripting (innermost_name fs)) self.old.rest.now))) }
        ensures reading { OnOk result (IsReading self.new) }
    {
        let name = self.innermost_name();
        let len = raw_content_len(self.rest.as_bytes(), name.as_bytes());
        let (content, rest) = self.rest.split_at(len);
        if name == "script" && has_script_escape(content.as_bytes()) {
            return Err(self.refused(FaultKind::ScriptEscape));
        }
        let text = with_line_feeds(self.alloc, content)?;
        self.add_leaf(NewNode::OwnedText(text), rest)
    }
}
