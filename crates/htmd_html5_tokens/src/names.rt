//! The names that references may have (HTML Standard, 13.5).
ghost use Rattle.std.specs.Prelude.{◌≡◌, ◌∷◌, [], map, option_map};
ghost use Rattle.htmd_html5_tokens.specs.NamedReferences as spec;
ghost use Rattle.htmd_html5_tokens.specs.NamedReferences.{loan_rows, old_loan_row, old_loan_rows};

mod capital_names;
mod names_a_to_k;
mod names_l_to_r;
mod names_s_to_z;
mod old_names;

use crate::names::capital_names::{
    CAPITAL_A, CAPITAL_B, CAPITAL_C, CAPITAL_D, CAPITAL_E, CAPITAL_F, CAPITAL_G, CAPITAL_H,
    CAPITAL_I, CAPITAL_J, CAPITAL_K, CAPITAL_L, CAPITAL_M, CAPITAL_N, CAPITAL_O, CAPITAL_P,
    CAPITAL_Q, CAPITAL_R, CAPITAL_S, CAPITAL_T, CAPITAL_U, CAPITAL_V, CAPITAL_W, CAPITAL_X,
    CAPITAL_Y, CAPITAL_Z,
};
use crate::names::names_a_to_k::{
    SMALL_A, SMALL_B, SMALL_C, SMALL_D, SMALL_E, SMALL_F, SMALL_G, SMALL_H, SMALL_I, SMALL_J,
    SMALL_K,
};
use crate::names::names_l_to_r::{SMALL_L, SMALL_M, SMALL_N, SMALL_O, SMALL_P, SMALL_Q, SMALL_R};
use crate::names::names_s_to_z::{
    SMALL_S, SMALL_T, SMALL_U, SMALL_V, SMALL_W, SMALL_X, SMALL_Y, SMALL_Z,
};
use crate::names::old_names::OLD_NAMES;
use htmd_scanning::begins_with;

/// The names that begin with this capital letter.
#[tactic(auto, unfolding(crate::specs::NamedReferences::capital_names))]
fn capital_rows(first: u8) -> &'static [&'static str]
    ensures { loan_rows result.now ≡ spec.capital_names first }
{
    match first {
        b'A' => &CAPITAL_A,
        b'B' => &CAPITAL_B,
        b'C' => &CAPITAL_C,
        b'D' => &CAPITAL_D,
        b'E' => &CAPITAL_E,
        b'F' => &CAPITAL_F,
        b'G' => &CAPITAL_G,
        b'H' => &CAPITAL_H,
        b'I' => &CAPITAL_I,
        b'J' => &CAPITAL_J,
        b'K' => &CAPITAL_K,
        b'L' => &CAPITAL_L,
        b'M' => &CAPITAL_M,
        b'N' => &CAPITAL_N,
        b'O' => &CAPITAL_O,
        b'P' => &CAPITAL_P,
        b'Q' => &CAPITAL_Q,
        b'R' => &CAPITAL_R,
        b'S' => &CAPITAL_S,
        b'T' => &CAPITAL_T,
        b'U' => &CAPITAL_U,
        b'V' => &CAPITAL_V,
        b'W' => &CAPITAL_W,
        b'X' => &CAPITAL_X,
        b'Y' => &CAPITAL_Y,
        b'Z' => &CAPITAL_Z,
        _ => &[],
    }
}

/// The names that begin with this small letter.
#[tactic(auto, unfolding(crate::specs::NamedReferences::small_names))]
fn small_rows(first: u8) -> &'static [&'static str]
    ensures { loan_rows result.now ≡ spec.small_names first }
{
    match first {
        b'a' => &SMALL_A,
        b'b' => &SMALL_B,
        b'c' => &SMALL_C,
        b'd' => &SMALL_D,
        b'e' => &SMALL_E,
        b'f' => &SMALL_F,
        b'g' => &SMALL_G,
        b'h' => &SMALL_H,
        b'i' => &SMALL_I,
        b'j' => &SMALL_J,
        b'k' => &SMALL_K,
        b'l' => &SMALL_L,
        b'm' => &SMALL_M,
        b'n' => &SMALL_N,
        b'o' => &SMALL_O,
        b'p' => &SMALL_P,
        b'q' => &SMALL_Q,
        b'r' => &SMALL_R,
        b's' => &SMALL_S,
        b't' => &SMALL_T,
        b'u' => &SMALL_U,
        b'v' => &SMALL_V,
        b'w' => &SMALL_W,
        b'x' => &SMALL_X,
        b'y' => &SMALL_Y,
        b'z' => &SMALL_Z,
        _ => &[],
    }
}

/// What this row says that the name stands for, if it is the row's.
fn named_by(row: &'static str, name: &[u8]) -> Option<&'static str>
    ensures { option_map (λ t. t.now) result ≡ spec.named_in (spec.row_of row.now ∷ []) name.now }
{
    if !begins_with(row.as_bytes(), name) {
        return None;
    }
    let (known, characters) = row.split_once(';').unwrap_or((row, ""));
    if name == known.as_bytes() {
        Some(characters)
    } else {
        None
    }
}

/// What the reference with this name stands for, if it is among these.
fn named_in(rows: &[&'static str], name: &[u8]) -> Option<&'static str>
    ensures { option_map (λ t. t.now) result ≡ spec.named_in (loan_rows rows.now) name.now }
{
    for row in rows {
        if let Some(characters) = named_by(*row, name) {
            return Some(characters);
        }
    }
    None
}

/// What the reference with this name stands for, if a `;` follows it.
pub fn named(name: &[u8]) -> Option<&'static str>
    ensures { option_map (λ t. t.now) result ≡ spec.named name.now }
{
    match name {
        [first, ..] if first.is_ascii_uppercase() => named_in(capital_rows(*first), name),
        [first, ..] => named_in(small_rows(*first), name),
        [] => None,
    }
}

/// The first of these names that the text begins with, and what it stands for.
fn first_in(
    rows: &'static [(&'static str, &'static str)],
    text: &[u8],
) -> Option<(&'static str, &'static str)>
    ensures { option_map old_loan_row result ≡ spec.first_in (old_loan_rows rows.now) text.now }
{
    for row in rows {
        if begins_with(text, row.0.as_bytes()) {
            return Some(*row);
        }
    }
    None
}

/// The name at the beginning of the text that is allowed without `;`, and what it stands for. There is at most one.
#[tactic(auto, unfolding(crate::specs::NamedReferences::old_names))]
pub(crate) fn longest_old(text: &[u8]) -> Option<(&'static str, &'static str)>
    ensures { option_map old_loan_row result ≡ spec.longest_old text.now }
{
    first_in(&OLD_NAMES, text)
}
