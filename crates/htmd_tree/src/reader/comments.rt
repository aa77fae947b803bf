//! Comments and other declarations (HTML Standard, 13.1.6).
ghost use Rattle.std.specs.Prelude.{◌≡◌, ◌≤◌, length, option_map, codes, ◌<◌, OnOk};
ghost use Rattle.htmd_lexical.specs.CharacterClasses.{up_to, begins_with, holds};
ghost use Rattle.htmd_grammar.specs.HtmlDocuments.{above_body};
ghost use Rattle.htmd_grammar.specs.ReaderSteps.{declaration_step};
ghost use Rattle.htmd_tree.specs.OpenNodes.{IsReading};
ghost use Rattle.htmd_tree.specs.Advances.{rules_of, Steps};
ghost use Rattle.htmd_grammar.specs.Comments as spec;

use crate::reader::{NewNode, Reader, Stop};
use htmd_grammar::FaultKind;
use htmd_scanning::with_line_feeds;

/// Whether `-->` begins here.
fn begins_end(bytes: &[u8]) -> bool
    ensures { result ≡ begins_with (codes "-->") bytes.now }
{
    matches!(bytes, [b'-', b'-', b'>', ..])
}

/// Whether the text begins with `--`.
pub(crate) fn begins_dashes(bytes: &[u8]) -> bool
    ensures { result ≡ begins_with (codes "--") bytes.now }
{
    matches!(bytes, [b'-', b'-', ..])
}

/// How many bytes are before the first `-->`.
fn comment_len(bytes: &[u8]) -> usize
    ensures bound { result ≤ length bytes.now }
    ensures value { result ≡ length (up_to (begins_with (codes "-->")) bytes.now) }
{
    let mut len = 0;
    while len < bytes.len() && !begins_end(&bytes[len..]) {
        len += 1;
    }
    len
}

/// What comes before the first `-->`, and what follows it.
pub(crate) fn split_comment(text: &str) -> Option<(&str, &str)>
    ensures { option_map (λ p. (p.0.now, p.1.now)) result ≡ spec.before_comment_end text.now }
{
    let len = comment_len(text.as_bytes());
    if len == text.len() {
        return None;
    }
    Some((&text[..len], &text[len + 3..]))
}

/// Whether the text has `--!>`.
fn holds_other_end(bytes: &[u8]) -> bool
    ensures { result ≡ holds (codes "--!>") bytes.now }
{
    let mut rest = bytes;
    while let [_, behind @ ..] = rest {
        if matches!(rest, [b'-', b'-', b'!', b'>', ..]) {
            return true;
        }
        rest = behind;
    }
    false
}

/// Whether this may be the text of a comment: it neither begins with `>` or `->` nor holds `--!>`.
pub(crate) fn is_comment_text(bytes: &[u8]) -> bool
    ensures { result ≡ spec.is_comment_text bytes.now }
{
    !matches!(bytes, [b'>', ..] | [b'-', b'>', ..]) && !holds_other_end(bytes)
}

impl<'a> Reader<'a> {
    /// Reads a declaration, given what follows `<!`.
    pub(super) fn read_declaration(&mut self, behind: &'a str) -> Result<(), Stop>
        requires reading { IsReading self.old }
        requires behind { length behind.now < length self.old.rest.now }
        ensures follows { Steps self.old self.new result
            (λ fs. declaration_step (rules_of self.old) above_body fs behind.now) }
        ensures reading { OnOk result (IsReading self.new) }
        ensures shorter { OnOk result (length self.new.rest.now < length self.old.rest.now) }
    {
        if !begins_dashes(behind.as_bytes()) {
            return Err(self.refused(FaultKind::MalformedDeclaration));
        }
        match split_comment(&behind[2..]) {
            Some((body, rest)) if is_comment_text(body.as_bytes()) => {
                let text = with_line_feeds(self.alloc, body)?;
                self.add_leaf(NewNode::Comment(text.as_str()), rest)
            }
            _ => Err(self.refused(FaultKind::MalformedComment)),
        }
    }
}
