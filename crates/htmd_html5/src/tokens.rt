//! The tokens of tree construction.
ghost use Rattle.std.specs.Prelude.{◌≡◌, IfOk};
ghost use Rattle.std.specs.Str.{IsUtf8};
ghost use Rattle.htmd_html5.specs.Runs as runs;
ghost use Rattle.htmd_html5.specs.Tokens.{tag_of};
ghost use Rattle.htmd_html5.specs.Feeding.{named};
ghost use Rattle.htmd_html5_tokens.specs.Tokens as tokens;

use htmd_html5_state::HtmlName;
use htmd_html5_tokens::Tag;
use htmd_nodes::Attribute;
use htmd_scanning::{ByteClass, run_len};
use std::alloc::{AllocError, Global};

/// A start tag, with its name found.
#[derive(Drop)]
pub(crate) struct StartTag {
    pub(crate) name: HtmlName,
    pub(crate) attributes: Vec<Attribute>,
    pub(crate) self_closing: bool,
}

/// What the characters of a run have in common.
#[derive(Clone, Copy)]
pub(crate) enum RunKind {
    White,
    Nulls,
    Characters,
}

/// A run at the front of a text, and what follows it.
#[derive(Clone, Copy)]
pub(crate) struct Split<'a> {
    pub(crate) kind: RunKind,
    pub(crate) run: &'a str,
    pub(crate) rest: &'a str,
}

impl StartTag {
    /// With the name of a tag found.
    pub(crate) fn of(alloc: Global, tag: Tag<'_>) -> Result<StartTag, AllocError>
        ensures { IfOk result (λ named_tag. tag_of named_tag ≡ named (tokens.tag_of tag.entry)) }
    {
        Ok(StartTag {
            name: HtmlName::from_text(alloc, tag.name)?,
            attributes: tag.attributes,
            self_closing: tag.self_closing,
        })
    }
}

impl RunKind {
    fn of(byte: u8) -> RunKind
        ensures { result ≡ runs.kind_of_byte byte }
    {
        if byte.is_ascii_whitespace() {
            RunKind::White
        } else if byte == 0 {
            RunKind::Nulls
        } else {
            RunKind::Characters
        }
    }
}

impl ByteClass for RunKind {
    ghost use Rattle.htmd_html5.specs.Runs.{is_of_kind};

    ghost bytes = { is_of_kind };

    #[inline(always)]
    fn has(self, byte: u8) -> bool {
        match self {
            RunKind::White => byte.is_ascii_whitespace(),
            RunKind::Nulls => byte == 0,
            RunKind::Characters => !byte.is_ascii_whitespace() && byte != 0,
        }
    }
}

/// The kind of the first run.
fn first_kind(bytes: &[u8]) -> RunKind
    ensures { result ≡ runs.first_kind bytes.now }
{
    match bytes {
        [first, ..] => RunKind::of(*first),
        [] => RunKind::Characters,
    }
}

/// The first run of a text, and what follows it.
pub(crate) fn split_run(text: &str) -> Split<'_>
    ensures kind { result.kind ≡ runs.first_kind text.now }
    ensures run { result.run.now ≡ runs.first_run text.now }
    ensures rest { result.rest.now ≡ runs.after_first_run text.now }
    ensures text { IsUtf8 result.rest.now }
{
    let bytes = text.as_bytes();
    let kind = first_kind(bytes);
    let (run, rest) = text.split_at(run_len(bytes, kind));
    Split { kind, run, rest }
}
