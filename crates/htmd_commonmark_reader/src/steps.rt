//! What each character of a text begins (CommonMark 0.31.2, 6): one step of the scan.
ghost use Rattle.std.specs.Prelude.{◌≡◌, ◌∷◌, ◌<◌, [], false, true, IfOk, MatchOption, codes, drop};
ghost use Rattle.std.specs.Prelude.{◌&&◌, ◌||◌, ◌==◌, length, nat_le, nat_lt, reverse, slice_index};
ghost use Rattle.htmd_lexical.specs.Characters.{ampersand, grave_accent, less_than_sign, right_square_bracket, tilde};
ghost use Rattle.htmd_lexical.specs.CharacterClasses.{begins_with, first_is};
ghost use Rattle.htmd_commonmark_reading.specs.Brackets as spec;
ghost use Rattle.htmd_commonmark_reading.specs.Brackets.{Brackets};
ghost use Rattle.htmd_commonmark_reading.specs.Characters.{is_space_or_tab, referenced};
ghost use Rattle.htmd_commonmark_reading.specs.InlineTokens as token;
ghost use Rattle.htmd_commonmark_reader.specs.Destinations.{AreKnown};
ghost use Rattle.htmd_commonmark_reader.specs.Missing.{AreMissing};
ghost use Rattle.htmd_commonmark_reader.specs.Openers.{is_sign};
ghost use Rattle.htmd_commonmark_reader.specs.References.{references_of};
ghost use Rattle.htmd_commonmark_reader.specs.Scans.{IsScan};
ghost use Rattle.htmd_commonmark_reader.specs.Slots.{slots_parts};
ghost use Rattle.htmd_commonmark_reader.specs.Steps.{is_other, break_inlines, IsEnd, EndIn, IsLastOf, IsStep, Goes};
ghost use Rattle.htmd_commonmark_reader.specs.Steps.{GoesOn};
ghost use Rattle.htmd_parts.specs.Parts.{inlines_parts};

use crate::brackets::{Bracket, Scan, close_as_text, close_link, open, push_run, push_slot};
use crate::characters::{
    SpaceOrTab, begins_with_punctuation, is_space_or_tab, past_blanks, reference,
};
use crate::delimiter_runs::run_of;
use crate::destinations::note_lefts;
use crate::inline_tokens::{AngleToken, angle, before_graves};
use crate::link_targets::target;
use crate::raw_tags::Missing;
use crate::references::References;
use crate::slots::Slot;
use htmd_scanning::{ByteClass, first_is, split_run, strip_byte};
use std::alloc::{AllocError, Global};

/// Bytes that begin nothing.
#[derive(Clone, Copy)]
struct Other;

impl ByteClass for Other {
    ghost use Rattle.htmd_commonmark_reader.specs.Steps.{is_other};

    ghost bytes = { λ _. is_other };

    #[inline(always)]
    fn has(self, byte: u8) -> bool {
        !matches!(
            byte,
            b' ' | b'\t'
                | b'\n'
                | b'\\'
                | b'`'
                | b'*'
                | b'_'
                | b'~'
                | b'<'
                | b'&'
                | b'!'
                | b'['
                | b']'
        )
    }
}

#[derive(Clone, Copy)]
struct Same(u8);

impl ByteClass for Same {
    ghost use Rattle.htmd_commonmark_reading.specs.BlockStarts.{is_same};

    ghost bytes = { λ class. is_same class.0 };

    #[inline(always)]
    fn has(self, byte: u8) -> bool {
        byte == self.0
    }
}

/// The text in front of its end.
fn before_end<'a>(text: &'a str, end: &str) -> &'a str
    requires { IsEnd text.now end.now }
    ensures { result.now ≡ spec.before_end text.now end.now }
{
    &text[..text.len() - end.len()]
}

/// Characters that begin nothing.
fn letter_steps<'a>(scan: &mut Scan<'a>, here: &'a str) -> Result<&'a str, AllocError>
    requires some { 0 < length here.now }
    requires other { is_other (slice_index here.now 0) ≡ true }
    ensures { IfOk result (λ rest. (refs : spec.References) → Goes refs here.now scan.old rest.now scan.new) }
{
    let (letters, rest) = split_run(here, Other);
    push_slot(scan, Slot::Text(letters))?;
    Ok(rest)
}

/// Spaces and tabs, which go before a line's end.
fn blank_steps<'a>(scan: &mut Scan<'a>, here: &'a str) -> Result<&'a str, AllocError>
    requires some { 0 < length here.now }
    requires blank { is_space_or_tab (slice_index here.now 0) ≡ true }
    ensures { IfOk result (λ rest. (refs : spec.References) → Goes refs here.now scan.old rest.now scan.new) }
{
    let (blanks, rest) = split_run(here, SpaceOrTab);
    if first_is(rest.as_bytes(), b'\n') {
        return Ok(rest);
    }
    push_slot(scan, Slot::Text(blanks))?;
    Ok(rest)
}

fn ends_with_two_spaces(text: &[u8]) -> bool
    ensures { result ≡ begins_with (codes "  ") (reverse text.now) }
{
    matches!(text, [.., b' ', b' '])
}

/// A break is hard after two spaces; a soft one is a space.
fn break_slot(before: &[u8]) -> Slot<'static>
    ensures { slots_parts (result ∷ []) ≡ inlines_parts (break_inlines (reverse before.now)) [] }
{
    if ends_with_two_spaces(before) {
        Slot::LineBreak
    } else {
        Slot::Text(" ")
    }
}

/// A line's end: two spaces before it make it hard.
fn break_step<'a>(scan: &mut Scan<'a>, before: &str, after: &'a str) -> Result<&'a str, AllocError>
    ensures { IfOk result (λ rest. (b : Brackets) → IsScan b scan.old
        → IsStep (spec.break_step b (reverse before.now) after.now) after.now rest.now scan.new) }
{
    push_slot(scan, break_slot(before.as_bytes()))?;
    Ok(past_blanks(after))
}

/// A backslash before a line's end makes that hard, before punctuation it is an escape.
fn backslash_step<'a>(scan: &mut Scan<'a>, after: &'a str) -> Result<&'a str, AllocError>
    ensures { IfOk result (λ rest. (b : Brackets) → IsScan b scan.old
        → IsStep (spec.backslash_step b after.now) after.now rest.now scan.new) }
{
    if first_is(after.as_bytes(), b'\n') {
        push_slot(scan, Slot::LineBreak)?;
        return Ok(past_blanks(&after[1..]));
    }
    if begins_with_punctuation(after.as_bytes()) {
        let (escaped, rest) = after.split_at(1);
        push_slot(scan, Slot::Text(escaped))?;
        return Ok(rest);
    }
    push_slot(scan, Slot::Text("\\"))?;
    Ok(after)
}

/// A row of grave accents begins a code span, if another one of them ends it.
fn code_step<'a>(scan: &mut Scan<'a>, here: &'a str) -> Result<&'a str, AllocError>
    requires { first_is grave_accent here.now ≡ true }
    ensures { IfOk result (λ rest. (b : Brackets) → IsScan b scan.old
        → IsStep (spec.code_step b (drop 1 here.now)) (drop 1 here.now) rest.now scan.new) }
{
    let (row, behind) = split_run(here, Same(b'`'));
    match before_graves(behind.as_bytes(), row.len()) {
        Some(len) => {
            push_slot(scan, Slot::Code(&behind[..len]))?;
            Ok(&behind[len + row.len()..])
        }
        None => {
            push_slot(scan, Slot::Text(row))?;
            Ok(behind)
        }
    }
}

/// Three tildes and more are text.
fn is_text(sign: u8, count: usize) -> bool
    ensures { result ≡ ((sign == tilde) && nat_le 3 count) }
{
    sign == b'~' && 3 <= count
}

/// A run of a sign that may begin or end emphasis.
fn run_step<'a>(
    scan: &mut Scan<'a>,
    sign: u8,
    before: &str,
    here: &'a str,
) -> Result<&'a str, AllocError>
    requires sign { is_sign sign ≡ true }
    requires first { first_is sign here.now ≡ true }
    ensures { IfOk result (λ rest. (b : Brackets) → IsScan b scan.old
        → IsStep (spec.run_step b sign (reverse before.now) (drop 1 here.now)) (drop 1 here.now) rest.now scan.new) }
{
    let (run, after) = split_run(here, Same(sign));
    if is_text(sign, run.len()) {
        push_slot(scan, Slot::Text(run))?;
        return Ok(after);
    }
    push_run(scan, run_of(sign, run.len(), before, after))?;
    Ok(after)
}

/// What `<` begins.
fn angle_step<'a>(
    scan: &mut Scan<'a>,
    missing: &mut Missing,
    here: &'a str,
    after: &'a str,
) -> Result<&'a str, AllocError>
    requires first { here.now ≡ less_than_sign ∷ after.now }
    requires missing { AreMissing after.now missing.old }
    ensures missing { AreMissing after.now missing.new }
    ensures step { IfOk result (λ rest. (b : Brackets) → IsScan b scan.old
        → IsStep (spec.angle_step b (token.angle after.now)) after.now rest.now scan.new) }
{
    match angle(after.as_bytes(), missing) {
        AngleToken::Uri(len) => {
            push_slot(scan, Slot::Uri(&after[..len]))?;
            Ok(&after[len + 1..])
        }
        AngleToken::Email(len) => {
            push_slot(scan, Slot::Email(&after[..len]))?;
            Ok(&after[len + 1..])
        }
        AngleToken::Tag(len) => {
            push_slot(scan, Slot::Raw(&here[..len + 1]))?;
            Ok(&after[len..])
        }
        AngleToken::Sign => {
            push_slot(scan, Slot::Text("<"))?;
            Ok(after)
        }
    }
}

/// What `&` begins.
fn reference_step<'a>(scan: &mut Scan<'a>, after: &'a str) -> Result<&'a str, AllocError>
    ensures { IfOk result (λ rest. (b : Brackets) → IsScan b scan.old
        → IsStep (spec.piece_step b (referenced ampersand after.now)) after.now rest.now scan.new) }
{
    match reference(after.as_bytes()) {
        Some(piece) => {
            push_slot(scan, Slot::Reference(piece.meaning))?;
            Ok(&after[piece.following..])
        }
        None => {
            push_slot(scan, Slot::Text("&"))?;
            Ok(after)
        }
    }
}

fn exclamation_step<'a>(scan: &mut Scan<'a>, after: &'a str) -> Result<&'a str, AllocError>
    ensures { IfOk result (λ rest. (b : Brackets) → IsScan b scan.old
        → IsStep (spec.exclamation_step b after.now) after.now rest.now scan.new) }
{
    match strip_byte(after, b'[') {
        Some(text) => {
            open(scan, true, text)?;
            Ok(text)
        }
        None => {
            push_slot(scan, Slot::Text("!"))?;
            Ok(after)
        }
    }
}

fn opening_step<'a>(scan: &mut Scan<'a>, after: &'a str) -> Result<&'a str, AllocError>
    ensures { IfOk result (λ rest. (b : Brackets) → IsScan b scan.old
        → IsStep (spec.opening_step b false after.now 0) after.now rest.now scan.new) }
{
    open(scan, false, after)?;
    Ok(after)
}

/// The last bracket that is open.
fn last_bracket<'a>(brackets: &[Bracket<'a>]) -> Option<Bracket<'a>>
    ensures { MatchOption result (brackets.now ≡ []) (IsLastOf brackets.now) }
{
    match brackets {
        [.., last] => Some(*last),
        [] => None,
    }
}

/// Whether the last bracket may still begin something.
fn is_active(scan: &Scan<'_>, is_image: bool) -> bool
    ensures { result ≡ (is_image || nat_lt scan.now.active (length scan.now.brackets.items)) }
{
    is_image || scan.active < scan.brackets.len()
}

/// A closing bracket.
fn closing_step<'a>(
    alloc: Global,
    references: &'a References,
    scan: &mut Scan<'a>,
    known: &mut Vec<Option<usize>>,
    here: &'a str,
    after: &'a str,
) -> Result<&'a str, AllocError>
    requires first { here.now ≡ right_square_bracket ∷ after.now }
    requires state { (b : Brackets) × IsScan b scan.old × EndIn here.now b }
    requires known { AreKnown known.old.items after.now }
    ensures known { AreKnown known.new.items after.now }
    ensures step { IfOk result (λ rest. (b : Brackets) → IsScan b scan.old → EndIn here.now b
        → IsStep (spec.closing_step (references_of references.now) b after.now) after.now rest.now scan.new) }
{
    let Some(bracket) = last_bracket(&scan.brackets) else {
        push_slot(scan, Slot::Text("]"))?;
        return Ok(after);
    };
    if !is_active(scan, bracket.is_image) {
        close_as_text(scan)?;
        return Ok(after);
    }
    let content = before_end(bracket.text, here);
    let found = target(alloc, references, content, after, known)?;
    match found {
        Some(link) => {
            close_link(alloc, scan, link.target)?;
            Ok(link.rest)
        }
        None => {
            note_lefts(alloc, after.as_bytes(), known)?;
            close_as_text(scan)?;
            Ok(after)
        }
    }
}

/// What a character begins that isn't blank, `<` or a closing bracket.
fn one_step<'a>(scan: &mut Scan<'a>, before: &str, here: &'a str) -> Result<&'a str, AllocError>
    requires some { 0 < length here.now }
    requires other { is_other (slice_index here.now 0) ≡ false }
    requires blank { is_space_or_tab (slice_index here.now 0) ≡ false }
    requires angle { (slice_index here.now 0 == less_than_sign) ≡ false }
    requires closing { (slice_index here.now 0 == right_square_bracket) ≡ false }
    ensures { IfOk result (λ rest. (b : Brackets) → IsScan b scan.old
        → (refs : spec.References) → let c = slice_index here.now 0 in
        IsStep (spec.step_of (spec.kind c) refs b (reverse before.now) c (drop 1 here.now))
        (drop 1 here.now) rest.now scan.new) }
{
    let sign = here.as_bytes()[0];
    let after = &here[1..];
    match sign {
        b'\n' => break_step(scan, before, after),
        b'\\' => backslash_step(scan, after),
        b'`' => code_step(scan, here),
        b'&' => reference_step(scan, after),
        b'!' => exclamation_step(scan, after),
        b'[' => opening_step(scan, after),
        _ => run_step(scan, sign, before, here),
    }
}

/// Reads what begins at a place of a text, and returns what follows that. What becomes known of bare destinations, and
/// of what is missing, is kept.
pub(crate) fn step<'a>(
    alloc: Global,
    references: &'a References,
    scan: &mut Scan<'a>,
    known: &mut Vec<Option<usize>>,
    missing: &mut Missing,
    text: &'a str,
    here: &'a str,
) -> Result<&'a str, AllocError>
    requires some { 0 < length here.now }
    requires end { IsEnd text.now here.now }
    requires state { (b : Brackets) × IsScan b scan.old × EndIn here.now b }
    requires known { AreKnown known.old.items here.now }
    requires missing { AreMissing here.now missing.old }
    ensures known { AreKnown known.new.items (drop 1 here.now) }
    ensures missing { AreMissing (drop 1 here.now) missing.new }
    ensures goes { IfOk result (λ rest. (b : Brackets) → IsScan b scan.old → EndIn here.now b
        → GoesOn (references_of references.now) text.now here.now b rest.now scan.new) }
{
    let sign = here.as_bytes()[0];
    if Other.has(sign) {
        letter_steps(scan, here)
    } else if is_space_or_tab(sign) {
        blank_steps(scan, here)
    } else if sign == b'<' {
        angle_step(scan, missing, here, &here[1..])
    } else if sign == b']' {
        closing_step(alloc, references, scan, known, here, &here[1..])
    } else {
        one_step(scan, before_end(text, here), here)
    }
}
