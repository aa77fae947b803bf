//! Beginnings of a text of bytes, and what follows them.
ghost use Rattle.std.specs.Prelude.{◌≡◌, ◌∷◌, false, MatchOption};
ghost use Rattle.htmd_lexical.specs.CharacterClasses.{first_is, leading_run, behind_run};

use htmd_scanning::{ByteClass, run_len};

/// What follows this byte, if the text begins with it.
pub(crate) fn strip(bytes: &[u8], byte: u8) -> Option<&[u8]>
    ensures { MatchOption result (first_is byte bytes.now ≡ false) (λ rest. bytes.now ≡ byte ∷ rest.now) }
{
    match bytes {
        [first, rest @ ..] if *first == byte => Some(rest),
        _ => None,
    }
}

/// The run of the class at the beginning, and what follows it.
#[tactic(auto, using(htmd_lexical::proofs::RunsLemmas::take_run, htmd_lexical::proofs::RunsLemmas::drop_run))]
#[inline(always)]
pub(crate) fn split_bytes<C: ByteClass>(bytes: &[u8], class: C) -> (&[u8], &[u8])
    ensures run { result.0.now ≡ leading_run (C.bytes class) bytes.now }
    ensures rest { result.1.now ≡ behind_run (C.bytes class) bytes.now }
{
    bytes.split_at(run_len(bytes, class))
}
