//! The parts of a line: what comes before a byte, and the last field.
ghost use Rattle.std.specs.Prelude.{◌≡◌, ◌∷◌, ◌++◌, true, MatchOption};
ghost use Rattle.htmd_streams.specs.Lines.{lacks, last_field, other_fields};

/// What comes before the first such byte, and what follows it. `None` if there is no such byte.
pub fn parted(bytes: &[u8], byte: u8) -> Option<(&[u8], &[u8])>
    ensures { MatchOption result (lacks byte bytes.now ≡ true)
        (λ parts. (lacks byte parts.0.now ≡ true) × (bytes.now ≡ parts.0.now ++ byte ∷ parts.1.now)) }
{
    let Some(place) = bytes.iter().position(|&b| b == byte) else {
        return None;
    };
    Some((&bytes[..place], &bytes[place + 1..]))
}

/// All fields of a row but the last one, each with the tab after it, and the last one.
pub fn fields_of(row: &[u8]) -> (&[u8], &[u8])
    ensures others { result.0.now ≡ other_fields row.now }
    ensures last { result.1.now ≡ last_field row.now }
{
    match row.iter().rposition(|&b| b == b'\t') {
        Some(place) => (&row[..place + 1], &row[place + 1..]),
        None => (&[], row),
    }
}
