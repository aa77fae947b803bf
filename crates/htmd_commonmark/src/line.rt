//! Where inlines are written.
ghost use Rattle.std.specs.Prelude.{◌≡◌, false, true};
ghost use Rattle.htmd_commonmark.specs.WrittenText as written;
ghost use Rattle.htmd_commonmark.specs.InlineMarkdown.{in_link};

use crate::options::DocumentOptions;
use htmd_markdown::{BrStyle, LinkStyle};

/// Where inlines are written: a heading and a cell are one line.
#[derive(Debug, Clone, Copy, PartialEq)]
pub enum LineKind {
    Paragraph,
    Heading,
    Cell,
}

/// Where inlines are written, and how their breaks and links are.
#[derive(Clone, Copy)]
pub struct Line {
    pub kind: LineKind,
    pub br_style: BrStyle,
    pub link_style: LinkStyle,
    /// In a link's text brackets are escaped.
    pub in_link: bool,
}

impl LineKind {
    pub(crate) fn is_one_line(self) -> bool
        ensures { result ≡ written.is_one_line self }
    {
        self != LineKind::Paragraph
    }
}

impl Line {
    /// A line of this kind, outside of links.
    pub(crate) fn new(options: &DocumentOptions, kind: LineKind) -> Line
        ensures { result ≡ record {
          kind = kind;
          br_style = options.now.br_style;
          link_style = options.now.link_style;
          in_link = false;
        } }
    {
        Line {
            kind,
            br_style: options.br_style,
            link_style: options.link_style,
            in_link: false,
        }
    }

    /// The same in a link's text.
    pub(crate) fn in_link(self) -> Line
        ensures { result ≡ in_link self }
    {
        Line {
            in_link: true,
            ..self
        }
    }
}
