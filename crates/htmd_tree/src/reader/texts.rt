//! Texts: runs of characters and references.
ghost use Rattle.std.specs.Prelude.{◌≡◌, ◌<◌, ◌≤◌, Bool, List, [], ℕ, false, length, slice_index, string_bytes, IfOk};
ghost use Rattle.std.specs.Prelude.{OnOk, MatchResult};
ghost use Rattle.std.specs.Str.{IsUtf8};
ghost use Rattle.htmd_lexical.specs.CharacterClasses.{leading_run, is_empty};
ghost use Rattle.htmd_grammar.specs.ReaderSteps.{OpenElement};
ghost use Rattle.htmd_tree.specs.declared.reader.Stop.TheVariants.{Refused};
ghost use Rattle.htmd_tree.specs.TextRuns.{is_literal, is_run_end, TellsOfText, Pushes, ReadsRun, IsCharacterIn};
ghost use Rattle.htmd_tree.specs.TextRuns.{IsFaultIn};
ghost use Rattle.htmd_tree.specs.OpenNodes.{IsReading, innermost_name, WhateverIsOpen};
ghost use Rattle.htmd_tree.specs.Advances.{Advances, IsAtText};

use crate::reader::references::{Character, character_at};
use crate::reader::scan::begins_markup;
use crate::reader::{NewNode, Reader, Stop};
use htmd_grammar::FaultKind;
use htmd_scanning::begins_own_end;

/// What is kept of the open elements for a text in them.
#[derive(Clone, Copy, Drop)]
pub(crate) struct TextSurroundings {
    /// Its element's own end tag ends it; elsewhere markup does.
    pub(crate) alone: bool,
    /// The text is between the parts of a table, and is white space.
    pub(crate) parts: bool,
    /// A text there would be too deep.
    pub(crate) too_deep: bool,
}

/// Whether a character stands for itself and may be there, as its first byte tells.
fn is_literal(byte: u8, parts: bool) -> bool
    ensures { result ≡ is_literal parts byte }
{
    if parts {
        byte.is_ascii_whitespace() && byte != b'\r'
    } else {
        // Most bytes are letters, which are greater than each of the marks.
        byte > b'<' || byte != b'<' && byte != b'&' && byte != b'\r'
    }
}

/// How many bytes at the beginning are literal.
fn literal_len(bytes: &[u8], parts: bool) -> usize
    ensures bound { result ≤ length bytes.now }
    ensures value { result ≡ length (leading_run (is_literal parts) bytes.now) }
{
    let mut len = 0;
    while len < bytes.len() && is_literal(bytes[len], parts) {
        len += 1;
    }
    len
}

/// Whether a run ends here, in an element with this name.
fn is_run_end(bytes: &[u8], name: &[u8], alone: bool) -> bool
    ensures { result ≡ is_run_end alone name.now bytes.now }
{
    if bytes.is_empty() {
        return true;
    }
    if alone {
        begins_own_end(bytes, name)
    } else {
        begins_markup(bytes)
    }
}

/// The character where the text begins, if it may be there.
fn character_in(bytes: &[u8], parts: bool) -> Result<Character, FaultKind>
    requires more { 0 < length bytes.now }
    requires special { is_literal parts (slice_index bytes.now 0) ≡ false }
    ensures { MatchResult result (IsCharacterIn parts bytes.now) (IsFaultIn parts bytes.now) }
{
    let (first, behind) = (bytes[0], &bytes[1..]);
    if !first.is_ascii() {
        return Err(FaultKind::StrayText);
    }
    let character = character_at(first, behind)?;
    if parts && !character.value.is_ascii_whitespace() {
        return Err(FaultKind::StrayText);
    }
    Ok(character)
}

/// The stop for a fault where the text begins.
fn refused(text: &str, kind: FaultKind) -> Stop
    ensures { result ≡ Refused (length text.now) kind }
{
    Stop::Refused {
        left: text.len(),
        kind,
    }
}

/// Appends the literal characters with which the text begins to a run. Returns what is left.
fn push_literals<'a>(
    run: &mut String,
    around: TextSurroundings,
    text: &'a str,
    len: usize,
) -> Result<&'a str, Stop>
    requires some { 0 < len }
    requires plain { len ≡ length (leading_run (is_literal around.parts) text.now) }
    ensures steps { (scripting : Bool) (n : List ℕ) (fs : List OpenElement)
        → TellsOfText scripting around n fs
        → Pushes scripting fs (string_bytes run.old) text.now (string_bytes run.new) result }
    ensures shorter { IfOk result (λ rest. length rest.now < length text.now) }
    ensures text { IfOk result (λ rest. IsUtf8 rest.now) }
    ensures longer { OnOk result (0 < length (string_bytes run.new)) }
    ensures deep { OnOk result (around.too_deep ≡ false) }
{
    if around.too_deep {
        return Err(refused(text, FaultKind::TooDeep));
    }
    let (front, rest) = text.split_at(len);
    run.push_str(front)?;
    Ok(rest)
}

/// Appends the character with which the text begins, which isn't literal, to a run. Returns what is left.
fn push_special<'a>(
    run: &mut String,
    around: TextSurroundings,
    text: &'a str,
) -> Result<&'a str, Stop>
    requires more { 0 < length text.now }
    requires special { is_literal around.parts (slice_index text.now 0) ≡ false }
    ensures steps { (scripting : Bool) (n : List ℕ) (fs : List OpenElement)
        → TellsOfText scripting around n fs → is_run_end around.alone n text.now ≡ false
        → Pushes scripting fs (string_bytes run.old) text.now (string_bytes run.new) result }
    ensures shorter { IfOk result (λ rest. length rest.now < length text.now) }
    ensures text { IfOk result (λ rest. IsUtf8 rest.now) }
    ensures longer { OnOk result (0 < length (string_bytes run.new)) }
    ensures deep { OnOk result (around.too_deep ≡ false) }
{
    match character_in(text.as_bytes(), around.parts) {
        Ok(character) => {
            if around.too_deep {
                return Err(refused(text, FaultKind::TooDeep));
            }
            run.push(character.value)?;
            Ok(&text[1 + character.behind..])
        }
        Err(kind) => Err(refused(text, kind)),
    }
}

/// Appends what comes next in a text to a run: literal characters, or one other. Returns what is left.
fn push_next<'a>(run: &mut String, around: TextSurroundings, text: &'a str) -> Result<&'a str, Stop>
    requires more { 0 < length text.now }
    ensures steps { (scripting : Bool) (n : List ℕ) (fs : List OpenElement)
        → TellsOfText scripting around n fs → is_run_end around.alone n text.now ≡ false
        → Pushes scripting fs (string_bytes run.old) text.now (string_bytes run.new) result }
    ensures shorter { IfOk result (λ rest. length rest.now < length text.now) }
    ensures text { IfOk result (λ rest. IsUtf8 rest.now) }
    ensures longer { OnOk result (0 < length (string_bytes run.new)) }
    ensures deep { OnOk result (around.too_deep ≡ false) }
{
    let len = literal_len(text.as_bytes(), around.parts);
    if len == 0 {
        push_special(run, around, text)
    } else {
        push_literals(run, around, text, len)
    }
}

/// Appends what the characters and references denote, up to what ends them, to an empty run. Returns what is left.
pub(crate) fn read_run<'a>(
    run: &mut String,
    text: &'a str,
    name: &[u8],
    around: TextSurroundings,
) -> Result<&'a str, Stop>
    requires empty { string_bytes run.old ≡ [] }
    requires more { 0 < length text.now }
    ensures steps { (scripting : Bool) (fs : List OpenElement) → TellsOfText scripting around name.now fs
        → is_run_end around.alone name.now text.now ≡ false
        → ReadsRun scripting fs around name.now text.now (string_bytes run.new) result }
    ensures shorter { IfOk result (λ rest. length rest.now < length text.now) }
    ensures longer { OnOk result (0 < length (string_bytes run.new)) }
    ensures deep { OnOk result (around.too_deep ≡ false) }
{
    let mut rest = push_next(run, around, text)?;
    while !is_run_end(rest.as_bytes(), name, around.alone) {
        rest = push_next(run, around, rest)?;
    }
    Ok(rest)
}

impl<'a> Reader<'a> {
    /// What the innermost open element requires of its texts.
    fn text_surroundings(&self) -> TextSurroundings
        requires reading { IsReading self.now }
        ensures { WhateverIsOpen self.now (λ has_doctype fs. IsAtText self.now fs
            → TellsOfText self.now.scripting result (innermost_name fs) fs) }
    {
        let around = self.top().surroundings;
        TextSurroundings {
            alone: around.text_alone,
            parts: around.parts,
            too_deep: self.is_too_deep(),
        }
    }

    /// Reads a text with references, up to what ends it. It is made in `run`, whose memory serves one text after
    /// another.
    pub(super) fn read_text(&mut self, run: &mut String) -> Result<(), Stop>
        requires reading { IsReading self.old }
        requires more { is_empty self.old.rest.now ≡ false }
        ensures advances { WhateverIsOpen self.old (λ has_doctype fs.
            IsAtText self.old fs → Advances self.old self.new has_doctype fs result) }
        ensures reading { OnOk result (IsReading self.new) }
        ensures shorter { OnOk result (length self.new.rest.now < length self.old.rest.now) }
    {
        let around = self.text_surroundings();
        let name = self.innermost_name().as_bytes();
        run.clear();
        let rest = read_run(run, self.rest, name, around)?;
        self.add_leaf(NewNode::Text(run.as_str()), rest)
    }
}
