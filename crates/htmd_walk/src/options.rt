//! The options of a conversion.

ghost use Rattle.std.specs.Prelude.{◌≡◌};

pub use htmd_markdown::{
    BrStyle, BulletListMarker, CodeBlockFence, HeadingStyle, HrStyle, LinkReferenceStyle, LinkStyle,
};

/// How a code block is written.
#[derive(Debug, Clone, Copy, PartialEq)]
pub enum CodeBlockStyle {
    /// Four spaces before each line (CommonMark 0.31.2, 4.4).
    Indented,
    /// Between two fences (CommonMark 0.31.2, 4.5).
    Fenced,
}

/// What becomes of an element that Markdown has no form for.
#[derive(Debug, Clone, Copy, PartialEq)]
pub enum TranslationMode {
    /// Only its content is written.
    Pure,
    /// It is written as HTML.
    Faithful,
}

/// What a conversion depends on besides the page.
#[derive(Debug, Drop)]
pub struct Options {
    pub heading_style: HeadingStyle,
    pub hr_style: HrStyle,
    pub br_style: BrStyle,
    pub link_style: LinkStyle,
    pub link_reference_style: LinkReferenceStyle,
    pub code_block_style: CodeBlockStyle,
    pub code_block_fence: CodeBlockFence,
    pub bullet_list_marker: BulletListMarker,
    /// The spaces after the marker of an item of a bullet list.
    pub ul_bullet_spacing: u8,
    /// The spaces after the longest number of an ordered list.
    pub ol_number_spacing: u8,
    /// Whether the white space of a code span is kept.
    pub preformatted_code: bool,
    pub translation_mode: TranslationMode,
}

impl Default for Options {
    ghost use Rattle.htmd_walk.specs.Defaults.{default_options};

    ghost is_default = { λ options. options ≡ default_options };

    fn default() -> Options {
        Options {
            heading_style: HeadingStyle::Atx,
            hr_style: HrStyle::Asterisks,
            br_style: BrStyle::TwoSpaces,
            link_style: LinkStyle::Inlined,
            link_reference_style: LinkReferenceStyle::Full,
            code_block_style: CodeBlockStyle::Fenced,
            code_block_fence: CodeBlockFence::Backticks,
            bullet_list_marker: BulletListMarker::Asterisk,
            ul_bullet_spacing: 3,
            ol_number_spacing: 2,
            preformatted_code: false,
            translation_mode: TranslationMode::Pure,
        }
    }
}
