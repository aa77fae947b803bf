//! Start tags and end tags, their names, and where the content of an element begins. A fault of a tag is at its `<`,
//! where the text that is left begins.
ghost use Rattle.std.specs.Prelude.{◌≡◌, ◌==◌, true, false, map, MatchOption, IfOk, [], ◌<◌, ◌&&◌, length, drop};
ghost use Rattle.std.specs.Prelude.{OnOk, codes, ℕ, List};
ghost use Rattle.std.specs.Char.{to_ascii_lowercase};
ghost use Rattle.std.specs.Cow.{cow_str_bytes};
ghost use Rattle.std.specs.List.{list_all};
ghost use Rattle.htmd_lexical.specs.CharacterClasses.{leading_run, behind_run, is_tag_name, is_tag_name_byte};
ghost use Rattle.htmd_lexical.specs.CharacterClasses.{first_is};
ghost use Rattle.htmd_grammar.specs.References.{after_line_feed};
ghost use Rattle.std.specs.Str.{bytes_eq};
ghost use Rattle.htmd_lexical.specs.Characters.{less_than_sign};
ghost use Rattle.htmd_grammar.specs.HtmlDocuments.{above_body};
ghost use Rattle.htmd_grammar.specs.Nesting.{is_allowed, is_row};
ghost use Rattle.htmd_grammar.specs.ReaderSteps.{names_of, start_tag_step, place_step, open_step, end_tag_step};
ghost use Rattle.htmd_grammar.specs.ReaderSteps.{close_step};
ghost use Rattle.htmd_grammar.specs.ReaderSteps.{markup_step};
ghost use Rattle.htmd_lexical.specs.Attributes.{pairs_of};
ghost use Rattle.htmd_tree.specs.TagParts.{fault_of_name};
ghost use Rattle.htmd_tree.specs.OpenNodes.{IsReading, innermost_name, WhateverIsOpen};
ghost use Rattle.htmd_tree.specs.Advances.{rules_of, Steps};
ghost use Rattle.htmd_grammar.specs.RawContent as spec;
ghost use Rattle.htmd_tree.specs.KnownNames.{known_name};

use crate::reader::attributes::{attributes_of, tag_form};
use crate::reader::names::{KnownName, known_name};
use crate::reader::references::character_at;
use crate::reader::scan::{Class, behind_first, split_run};
use crate::reader::surroundings::is_outside;
use crate::reader::{NewNode, Reader, Stop};
use htmd_grammar::FaultKind;
use htmd_lexical::Attribute;
use htmd_nodes::is_void;
use htmd_scanning::strip_byte;
use std::alloc::{AllocError, Global};
use std::borrow::CowStr;

#[tactic(auto, using(crate::proofs::TagPartsLemmas::name_begins))]
/// The name at the beginning of a text, as it is spelled, and what follows it. None if no letter comes first.
pub(crate) fn split_name(text: &str) -> Option<(&str, &str)>
    ensures { MatchOption result (is_tag_name (leading_run is_tag_name_byte text.now) ≡ false)
        (λ p. (is_tag_name (leading_run is_tag_name_byte text.now) ≡ true)
        × (p.0.now ≡ leading_run is_tag_name_byte text.now)
        × (p.1.now ≡ behind_run is_tag_name_byte text.now)) }
{
    match text.as_bytes() {
        [first, ..] if first.is_ascii_alphabetic() => Some(split_run(text, Class::TagName)),
        _ => None,
    }
}

/// Whether lower case changes nothing in the name.
fn is_lower_case(name: &[u8]) -> bool
    ensures { result ≡ list_all (λ b. to_ascii_lowercase b == b) name.now }
{
    for byte in name {
        if byte.to_ascii_lowercase() != *byte {
            return false;
        }
    }
    true
}

#[tactic(auto, using(crate::proofs::TagPartsLemmas::lower_case_stays))]
/// A name in lower case, borrowed if it is so already.
pub(crate) fn in_lower_case(alloc: Global, name: &str) -> Result<CowStr<'_>, AllocError>
    ensures { IfOk result (λ lowered. cow_str_bytes lowered ≡ map to_ascii_lowercase name.now) }
{
    if is_lower_case(name.as_bytes()) {
        return Ok(CowStr::Borrowed(name));
    }
    Ok(CowStr::Owned(name.to_ascii_lowercase(alloc)?))
}

fn drops_line_feed(name: &str) -> bool
    ensures { result ≡ spec.drops_line_feed name.now }
{
    matches!(name, "pre" | "textarea")
}

/// The text without a line feed at its beginning, written as it is or by a reference.
fn without_line_feed(text: &str) -> &str
    ensures { result.now ≡ after_line_feed [] text.now }
{
    match text.as_bytes() {
        [first, behind @ ..] if first.is_ascii() => match character_at(*first, behind) {
            Ok(character) if character.value == '\n' => &behind_first(text)[character.behind..],
            _ => text,
        },
        _ => text,
    }
}

/// The content of an element with this name, without the line feed that `pre` and `textarea` drop.
pub(crate) fn content_of<'a>(name: &str, text: &'a str) -> &'a str
    ensures { result.now ≡ spec.content_of name.now text.now }
{
    if drops_line_feed(name) {
        without_line_feed(text)
    } else {
        text
    }
}

/// What is wrong with a start tag of this name: it has a `/` and isn't void, or it has no place at all.
fn fault_of_name(name: &str, known: KnownName, slash: bool) -> Option<FaultKind>
    requires known { known ≡ known_name name.now }
    ensures { result ≡ fault_of_name name.now slash }
{
    if slash && !is_void(name) {
        return Some(FaultKind::SelfClosing);
    }
    if is_outside(known) {
        return Some(FaultKind::TagOutside);
    }
    None
}

impl<'a> Reader<'a> {
    /// Whether an element of this kind is allowed here.
    fn allows(&self, known: KnownName) -> bool
        requires reading { IsReading self.now }
        ensures { (n : List ℕ) → known ≡ known_name n → WhateverIsOpen self.now (λ has_doctype fs.
            result ≡ is_allowed self.now.scripting (names_of above_body fs) n) }
    {
        self.top().surroundings.allows(known)
    }

    /// Opens the element of a start tag, or adds a void one.
    fn open_tag(
        &mut self,
        name: &str,
        known: KnownName,
        attrs: Vec<Attribute>,
        rest: &'a str,
    ) -> Result<(), Stop>
        requires reading { IsReading self.old }
        requires known { known ≡ known_name name.now }
        ensures follows { Steps self.old self.new result
            (λ fs. open_step (rules_of self.old) above_body fs name.now (pairs_of attrs.items) rest.now) }
        ensures reading { OnOk result (IsReading self.new) }
    {
        if !self.allows(known) {
            return Err(self.refused(FaultKind::NotAllowedHere));
        }
        if is_void(name) {
            return self.add_leaf(NewNode::Element { name, attrs }, rest);
        }
        let content = content_of(name, rest);
        self.open_element(name, known, attrs, content)
    }

    /// Whether an element with this name implies a `tbody` here: a row in a table.
    fn implies_body(&self, name: &str) -> bool
        requires reading { IsReading self.now }
        ensures { WhateverIsOpen self.now (λ has_doctype fs.
            result ≡ (is_row name.now && bytes_eq (innermost_name fs) (codes "table"))) }
    {
        name == "tr" && self.innermost_name() == "table"
    }

    /// Gives the element of a start tag its place, in an implied `tbody` if it implies one.
    fn place_tag(
        &mut self,
        name: &str,
        known: KnownName,
        attrs: Vec<Attribute>,
        rest: &'a str,
    ) -> Result<(), Stop>
        requires reading { IsReading self.old }
        requires known { known ≡ known_name name.now }
        ensures follows { Steps self.old self.new result
            (λ fs. place_step (rules_of self.old) above_body fs name.now (pairs_of attrs.items) rest.now) }
        ensures reading { OnOk result (IsReading self.new) }
    {
        if self.implies_body(name) {
            self.open_implied_body()?;
            return self.open_tag(name, known, attrs, rest);
        }
        self.open_tag(name, known, attrs, rest)
    }

    /// Reads a start tag, given what follows `<`.
    pub(super) fn read_start_tag(&mut self, behind: &'a str) -> Result<(), Stop>
        requires reading { IsReading self.old }
        requires behind { length behind.now < length self.old.rest.now }
        ensures follows { Steps self.old self.new result
            (λ fs. start_tag_step (rules_of self.old) above_body fs behind.now) }
        ensures reading { OnOk result (IsReading self.new) }
        ensures shorter { OnOk result (length self.new.rest.now < length self.old.rest.now) }
    {
        let Some((spelled, behind_name)) = split_name(behind) else {
            return Err(self.refused(FaultKind::MalformedTag));
        };
        let Some(form) = tag_form(self.alloc, behind_name)? else {
            return Err(self.refused(FaultKind::MalformedTag));
        };
        let attrs = match attributes_of(self.alloc, form.attributes.as_slice())? {
            Ok(attrs) => attrs,
            Err(kind) => return Err(self.refused(kind)),
        };
        let lowered = in_lower_case(self.alloc, spelled)?;
        let name = lowered.as_str();
        let known = known_name(name);
        match fault_of_name(name, known, form.slash) {
            Some(kind) => Err(self.refused(kind)),
            None => self.place_tag(name, known, attrs, form.rest),
        }
    }

    /// Closes the innermost open element, which must have this name.
    fn close_tag(&mut self, name: &str, rest: &'a str) -> Result<(), Stop>
        requires reading { IsReading self.old }
        ensures follows { Steps self.old self.new result
            (λ fs. close_step (rules_of self.old) above_body fs name.now rest.now) }
        ensures reading { OnOk result (IsReading self.new) }
    {
        if self.stack.len() < 2 {
            return Err(self.refused(FaultKind::StrayEndTag));
        }
        if self.innermost_name() != name {
            return Err(self.refused(FaultKind::StrayEndTag));
        }
        self.close_element(rest);
        Ok(())
    }

    /// Reads an end tag, given what follows `</`.
    pub(super) fn read_end_tag(&mut self, behind: &'a str) -> Result<(), Stop>
        requires reading { IsReading self.old }
        requires behind { length behind.now < length self.old.rest.now }
        ensures follows { Steps self.old self.new result
            (λ fs. end_tag_step (rules_of self.old) above_body fs behind.now) }
        ensures reading { OnOk result (IsReading self.new) }
        ensures shorter { OnOk result (length self.new.rest.now < length self.old.rest.now) }
    {
        let Some((spelled, behind_name)) = split_name(behind) else {
            return Err(self.refused(FaultKind::MalformedTag));
        };
        let (_, end) = split_run(behind_name, Class::WhiteSpace);
        let Some(rest) = strip_byte(end, b'>') else {
            return Err(self.refused(FaultKind::MalformedTag));
        };
        let name = in_lower_case(self.alloc, spelled)?;
        if is_outside(known_name(name.as_str())) {
            return Err(self.refused(FaultKind::TagOutside));
        }
        self.close_tag(name.as_str(), rest)
    }

    /// Reads markup, which begins with `<`.
    pub(super) fn read_markup(&mut self) -> Result<(), Stop>
        requires reading { IsReading self.old }
        requires markup { first_is less_than_sign self.old.rest.now ≡ true }
        ensures follows { Steps self.old self.new result
            (λ fs. markup_step (rules_of self.old) above_body fs (drop 1 self.old.rest.now)) }
        ensures reading { OnOk result (IsReading self.new) }
        ensures shorter { OnOk result (length self.new.rest.now < length self.old.rest.now) }
    {
        let behind = behind_first(self.rest);
        if let Some(name) = strip_byte(behind, b'/') {
            return self.read_end_tag(name);
        }
        if let Some(declaration) = strip_byte(behind, b'!') {
            return self.read_declaration(declaration);
        }
        if strip_byte(behind, b'?').is_some() {
            return Err(self.refused(FaultKind::MalformedDeclaration));
        }
        self.read_start_tag(behind)
    }
}
