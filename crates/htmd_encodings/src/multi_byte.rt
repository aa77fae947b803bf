//! The text in an encoding with characters of one byte and of several.
ghost use Rattle.std.specs.Prelude.{◌≡◌, IfOk, string_bytes};
ghost use Rattle.htmd_encodings.specs.MultiByte as spec;

use crate::encodings::MultiByte;
use crate::sequences::{Sequence, after, push_characters, room_for};
use crate::{big5, euc_jp, euc_kr, gb18030, shift_jis};
use std::alloc::{AllocError, Global};

/// The text in an encoding.
pub(crate) fn multi_byte_text(
    alloc: Global,
    encoding: MultiByte,
    bytes: &[u8],
) -> Result<String, AllocError>
    ensures { IfOk result (λ text. string_bytes text ≡ spec.multi_byte_text encoding bytes.now) }
{
    let mut text = String::with_capacity(alloc, room_for(bytes))?;
    let mut rest = bytes;
    while let [first, further @ ..] = rest {
        let sequence = sequence_of(encoding, *first, further);
        push_characters(&mut text, sequence.characters)?;
        rest = after(further, sequence.further);
    }
    Ok(text)
}

// What the encoding's decoder makes of a byte and of those after it.
fn sequence_of(encoding: MultiByte, first: u8, rest: &[u8]) -> Sequence
    ensures { result ≡ spec.sequence_of encoding first rest.now }
{
    match encoding {
        MultiByte::Gbk | MultiByte::Gb18030 => gb18030::sequence_of(first, rest),
        MultiByte::Big5 => big5::sequence_of(first, rest),
        MultiByte::EucJp => euc_jp::sequence_of(first, rest),
        MultiByte::ShiftJis => shift_jis::sequence_of(first, rest),
        MultiByte::EucKr => euc_kr::sequence_of(first, rest),
    }
}
