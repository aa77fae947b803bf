//! A character, repeated.
ghost use Rattle.std.specs.Prelude.{◌≡◌, ◌<◌, ◌++◌, OnErr, OnOk, replicate, string_bytes};

use std::alloc::AllocError;

/// Appends an ASCII character this many times to the text, with one growth at most. `Err` means out of memory; the text
/// is then as it was.
pub fn push_repeated(text: &mut String, character: char, count: usize) -> Result<(), AllocError>
    requires { character < 128 }
    ensures ok { OnOk result
        (string_bytes text.new ≡ string_bytes text.old ++ replicate count character) }
    ensures err { OnErr result (string_bytes text.new ≡ string_bytes text.old) }
{
    text.reserve(count)?;
    for _ in 0..count {
        text.push(character)?;
    }
    Ok(())
}
