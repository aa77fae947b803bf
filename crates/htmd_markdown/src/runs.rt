//! Runs of one character in a text.
ghost use Rattle.std.specs.Prelude.{◌≡◌, ◌≤◌, ◌==◌, length};
ghost use Rattle.std.specs.List.{list_any};
ghost use Rattle.htmd_markdown.specs.Runs as spec;

/// The length of the longest run of the character, 0 if the text doesn't have it.
pub(crate) fn longest_run(text: &str, character: u8) -> usize
    ensures bound { result ≤ length text.now }
    ensures value { result ≡ spec.longest_run character text.now }
{
    if !holds(text.as_bytes(), character) {
        return 0;
    }
    longest_of(text, character)
}

/// Whether the character is among the bytes. All are looked at, so that a processor can compare many at once.
fn holds(bytes: &[u8], character: u8) -> bool
    ensures { result ≡ list_any (λ b. b == character) bytes.now }
{
    // A number, since of a bool LLVM makes branches where this is inlined.
    let mut found = 0;
    for b in bytes {
        found = found.max((*b == character) as u8);
    }
    found == 1
}

/// The length of the longest run of a character that the text has.
fn longest_of(text: &str, character: u8) -> usize
    ensures bound { result ≤ length text.now }
    ensures value { result ≡ spec.longest_run character text.now }
{
    let mut longest: usize = 0;
    let mut run: usize = 0;
    for b in text.as_bytes() {
        if *b == character {
            run += 1;
            longest = longest.max(run);
        } else {
            run = 0;
        }
    }
    longest
}

/// Whether some run of the character has exactly this length.
pub(crate) fn has_run(text: &str, character: u8, len: usize) -> bool
    ensures { result ≡ spec.has_run character len text.now }
{
    let bytes = text.as_bytes();
    bytes.split(|b| *b != character).any(|run| run.len() == len)
}
