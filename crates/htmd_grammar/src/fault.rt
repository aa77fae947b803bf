//! What is wrong at a place of a text.
ghost use Rattle.std.specs.Prelude.{Some};
ghost use Rattle.htmd_grammar.specs.FaultNames.{fault_name};

use std::fmt;

/// The kind of a refusal: what is at its place. If two kinds fit the same piece, it is the one with the lower number.
#[derive(Clone, Copy, Debug, PartialEq, Eq)]
pub enum FaultKind {
    /// The text has U+0000; the place is that of the first one.
    Nul = 1,
    /// `<` and a letter, or `</`, that begins no tag.
    MalformedTag = 2,
    /// `<!--` that begins no comment.
    MalformedComment = 3,
    /// Any other `<!` that isn't a doctype in its place, or `<?`.
    MalformedDeclaration = 4,
    /// A character reference by a name that isn't known; in a tag the place is the tag's `<`.
    UnknownReference = 5,
    /// `&#` that begins no character reference; in a tag the place is the tag's `<`.
    BadNumber = 6,
    /// A start tag with one attribute name twice.
    DuplicateAttribute = 7,
    /// A start tag with `/` of an element that isn't void.
    SelfClosing = 8,
    /// A tag named `html`, `head`, `body`, `frameset`, `frame`, `template`, `plaintext`, `listing` or `image`.
    TagOutside = 9,
    /// A start tag of an element that isn't allowed there.
    NotAllowedHere = 10,
    /// An end tag that closes no element.
    StrayEndTag = 11,
    /// Text other than white space between the parts of a table.
    StrayText = 12,
    /// The text ends while an element is open; the place is the text's length.
    Unclosed = 13,
    /// The content of a `script` that holds `<!--` and later `<script`; the place is its start.
    ScriptEscape = 14,
    /// A node too many levels below the Document.
    TooDeep = 15,
}

impl FaultKind {
    ghost use Rattle.std.specs.Prelude.{◌≡◌};
    ghost use Rattle.htmd_grammar.specs.Faults.{number_of};

    /// The number of the kind, from 1.
    pub fn number(self) -> u8
        ensures { result ≡ number_of self }
    {
        self as u8
    }
}

/// The name of the kind.
impl fmt::Display for FaultKind {
    ghost output = { λ kind. Some (fault_name kind) };

    fn fmt<W: fmt::Write>(&self, f: &mut fmt::Formatter<W>) -> fmt::Result {
        f.write_str(match self {
            FaultKind::Nul => "Nul",
            FaultKind::MalformedTag => "MalformedTag",
            FaultKind::MalformedComment => "MalformedComment",
            FaultKind::MalformedDeclaration => "MalformedDeclaration",
            FaultKind::UnknownReference => "UnknownReference",
            FaultKind::BadNumber => "BadNumber",
            FaultKind::DuplicateAttribute => "DuplicateAttribute",
            FaultKind::SelfClosing => "SelfClosing",
            FaultKind::TagOutside => "TagOutside",
            FaultKind::NotAllowedHere => "NotAllowedHere",
            FaultKind::StrayEndTag => "StrayEndTag",
            FaultKind::StrayText => "StrayText",
            FaultKind::Unclosed => "Unclosed",
            FaultKind::ScriptEscape => "ScriptEscape",
            FaultKind::TooDeep => "TooDeep",
        })
    }
}
