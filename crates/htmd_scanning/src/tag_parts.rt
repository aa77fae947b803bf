//! What is in a tag after its name, as it is spelled.
ghost use Rattle.std.specs.Prelude.{◌≡◌, ◌<◌};
ghost use Rattle.htmd_lexical.specs.TagReading as reading;
ghost use Rattle.htmd_scanning.specs.TagParts.{part_of};

use crate::beginnings::strip_byte;
use crate::runs::{ByteClass, split_run};

/// An attribute as it is spelled.
#[derive(Clone, Copy, Drop)]
pub struct SpelledAttribute<'a> {
    pub name: &'a str,
    pub value: &'a str,
}

/// What comes next in a tag after its name.
#[derive(Drop)]
pub enum Part<'a> {
    /// Nothing that may stand in a tag, or the text ends in it.
    Malformed,
    End {
        slash: bool,
        rest: &'a str,
    },
    Attribute {
        spelled: SpelledAttribute<'a>,
        rest: &'a str,
    },
}

/// What follows the name of a tag, and what follows the tag.
#[derive(Drop)]
pub struct TagForm<'a> {
    pub attributes: Vec<SpelledAttribute<'a>>,
    pub slash: bool,
    pub rest: &'a str,
}

/// Any byte but this one.
#[derive(Clone, Copy)]
struct OtherThan {
    byte: u8,
}

impl ByteClass for OtherThan {
    ghost use Rattle.htmd_lexical.specs.TagReading.{is_other};

    ghost bytes = { λ class. is_other class.byte };

    #[inline(always)]
    fn has(self, byte: u8) -> bool {
        byte != self.byte
    }
}

/// An attribute from its value on, which is between quotes; the first one comes before the text.
#[tactic(auto)]
#[inline(always)]
pub fn quoted_value<'a>(name: &'a str, text: &'a str, quote: u8) -> Part<'a>
    requires { quote < 128 }
    ensures { part_of result ≡ reading.quoted_value quote name.now text.now }
{
    let (value, after) = split_run(text, OtherThan { byte: quote });
    match strip_byte(after, quote) {
        Some(rest) => Part::Attribute {
            spelled: SpelledAttribute { name, value },
            rest,
        },
        None => Part::Malformed,
    }
}
