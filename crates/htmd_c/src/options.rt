//! The struct of options: what its numbers mean, and which are good.
ghost use Rattle.std.specs.Prelude.{◌≡◌, ◌==◌};
ghost use Rattle.std.specs.List.{list_all};
ghost use Rattle.htmd.specs.PageSettings.{settings_in};
ghost use Rattle.htmd_c.specs.Options as spec;

use htmd::options::{
    BrStyle, BulletListMarker, CodeBlockFence, CodeBlockStyle, HeadingStyle, HrStyle,
    LinkReferenceStyle, LinkStyle, Options, TranslationMode,
};
use htmd::{Anchors, Images, PageSettings};
use htmd_encodings::Encoding;
use std::alloc::Global;

/// The version of the struct that this library knows.
const VERSION: u8 = 1;

/// The text is read as it stands.
const STRICT: u8 = 0;

/// What is between the tags of a page's body is read.
const PAGE: u8 = 1;

/// Any page is read, as browsers read it.
const HTML5: u8 = 2;

/// What a reader sees of the text is written, so that a reader of CommonMark reads it back.
const GUARDED: u8 = 2;

/// What a reader sees of the text is written as JSON, in the form of mdast.
const MDAST: u8 = 1;

/// The options of a conversion, as numbers. A new field will take the place of a reserved byte, whose 0 then stands for
/// what is done without it; a new value of a field will be a number that is not good yet.
#[repr(C)]
#[derive(Debug, Clone, Copy)]
pub struct HtmdOptions {
    pub version: u8,
    pub reader: u8,
    pub mode: u8,
    pub scripting: u8,
    pub heading_style: u8,
    pub hr_style: u8,
    pub br_style: u8,
    pub link_style: u8,
    pub link_reference_style: u8,
    pub code_block_style: u8,
    pub code_block_fence: u8,
    pub bullet_list_marker: u8,
    pub ul_bullet_spacing: u8,
    pub ol_number_spacing: u8,
    pub preformatted_code: u8,
    pub output: u8,
    pub front_matter: u8,
    pub anchors: u8,
    pub rich: u8,
    pub article: u8,
    pub visible: u8,
    pub images: u8,
    pub links_as_text: u8,
    pub title: u8,
    /// A number, least byte first, which needs no alignment so.
    pub chunk_bytes: [u8; 4],
    pub reserved: [u8; 4],
}

/// The struct for the options of `convert`.
pub(crate) fn default_struct() -> HtmdOptions
    ensures { result ≡ spec.default_struct }
{
    HtmdOptions {
        version: VERSION,
        reader: STRICT,
        mode: 0,
        scripting: 1,
        heading_style: 0,
        hr_style: 0,
        br_style: 0,
        link_style: 0,
        link_reference_style: 0,
        code_block_style: 0,
        code_block_fence: 0,
        bullet_list_marker: 0,
        ul_bullet_spacing: 3,
        ol_number_spacing: 2,
        preformatted_code: 0,
        output: 0,
        front_matter: 0,
        anchors: 0,
        rich: 0,
        article: 0,
        visible: 0,
        images: 0,
        links_as_text: 0,
        title: 0,
        chunk_bytes: [0; 4],
        reserved: [0; 4],
    }
}

fn is_reading_known(given: &HtmdOptions) -> bool
    ensures { result ≡ spec.is_reading_known given.now }
{
    given.version == VERSION && given.reader < 3 && given.mode < 3 && given.scripting < 2
}

fn are_lines_known(given: &HtmdOptions) -> bool
    ensures { result ≡ spec.are_lines_known given.now }
{
    given.heading_style < 2
        && given.hr_style < 3
        && given.br_style < 2
        && given.link_style < 3
        && given.link_reference_style < 3
}

fn are_blocks_known(given: &HtmdOptions) -> bool
    ensures { result ≡ spec.are_blocks_known given.now }
{
    given.code_block_style < 2
        && given.code_block_fence < 2
        && given.bullet_list_marker < 2
        && given.preformatted_code < 2
        && given.output < 2
        && given.front_matter < 2
        && given.anchors < 3
        && given.rich < 2
}

fn are_changes_known(given: &HtmdOptions) -> bool
    ensures { result ≡ spec.are_changes_known given.now }
{
    given.article < 2
        && given.visible < 2
        && given.images < 4
        && given.links_as_text < 2
        && given.title < 2
}

fn are_zero(bytes: &[u8]) -> bool
    ensures { result ≡ list_all (λ b. b == 0) bytes.now }
{
    bytes.iter().all(|byte| *byte == 0)
}

/// Whether each number is one that its field may have.
pub(crate) fn is_good(given: &HtmdOptions) -> bool
    ensures { result ≡ spec.is_good given.now }
{
    is_reading_known(given)
        && are_lines_known(given)
        && are_blocks_known(given)
        && are_changes_known(given)
        && are_zero(&given.reserved)
}

fn mode(number: u8) -> TranslationMode
    ensures { result ≡ spec.mode number }
{
    match number {
        1 => TranslationMode::Faithful,
        _ => TranslationMode::Pure,
    }
}

fn heading_style(number: u8) -> HeadingStyle
    ensures { result ≡ spec.heading_style number }
{
    match number {
        1 => HeadingStyle::Setex,
        _ => HeadingStyle::Atx,
    }
}

fn hr_style(number: u8) -> HrStyle
    ensures { result ≡ spec.hr_style number }
{
    match number {
        1 => HrStyle::Dashes,
        2 => HrStyle::Underscores,
        _ => HrStyle::Asterisks,
    }
}

fn br_style(number: u8) -> BrStyle
    ensures { result ≡ spec.br_style number }
{
    match number {
        1 => BrStyle::Backslash,
        _ => BrStyle::TwoSpaces,
    }
}

fn link_style(number: u8) -> LinkStyle
    ensures { result ≡ spec.link_style number }
{
    match number {
        1 => LinkStyle::InlinedPreferAutolinks,
        2 => LinkStyle::Referenced,
        _ => LinkStyle::Inlined,
    }
}

fn link_reference_style(number: u8) -> LinkReferenceStyle
    ensures { result ≡ spec.link_reference_style number }
{
    match number {
        1 => LinkReferenceStyle::Collapsed,
        2 => LinkReferenceStyle::Shortcut,
        _ => LinkReferenceStyle::Full,
    }
}

fn code_block_style(number: u8) -> CodeBlockStyle
    ensures { result ≡ spec.code_block_style number }
{
    match number {
        1 => CodeBlockStyle::Indented,
        _ => CodeBlockStyle::Fenced,
    }
}

fn code_block_fence(number: u8) -> CodeBlockFence
    ensures { result ≡ spec.code_block_fence number }
{
    match number {
        1 => CodeBlockFence::Tildes,
        _ => CodeBlockFence::Backticks,
    }
}

fn bullet_list_marker(number: u8) -> BulletListMarker
    ensures { result ≡ spec.bullet_list_marker number }
{
    match number {
        1 => BulletListMarker::Dash,
        _ => BulletListMarker::Asterisk,
    }
}

fn anchors(number: u8) -> Anchors
    ensures { result ≡ spec.anchors number }
{
    match number {
        1 => Anchors::All,
        2 => Anchors::None,
        _ => Anchors::Linked,
    }
}

fn kept_images(number: u8) -> Images
    ensures { result ≡ spec.kept_images number }
{
    match number {
        1 => Images::Linked,
        2 => Images::Alt,
        3 => Images::Drop,
        _ => Images::Keep,
    }
}

fn chunks(bytes: [u8; 4]) -> Option<usize>
    ensures { result ≡ spec.chunks bytes }
{
    match u32::from_le_bytes(bytes) {
        0 => None,
        most => Some(most as usize),
    }
}

/// The options that a good struct stands for.
fn options_of(given: &HtmdOptions) -> Options
    ensures { result ≡ spec.options_of given.now }
{
    Options {
        heading_style: heading_style(given.heading_style),
        hr_style: hr_style(given.hr_style),
        br_style: br_style(given.br_style),
        link_style: link_style(given.link_style),
        link_reference_style: link_reference_style(given.link_reference_style),
        code_block_style: code_block_style(given.code_block_style),
        code_block_fence: code_block_fence(given.code_block_fence),
        bullet_list_marker: bullet_list_marker(given.bullet_list_marker),
        ul_bullet_spacing: given.ul_bullet_spacing,
        ol_number_spacing: given.ol_number_spacing,
        preformatted_code: given.preformatted_code == 1,
        translation_mode: mode(given.mode),
    }
}

/// The settings that a good struct stands for, for bytes in UTF-8.
pub(crate) fn settings_of<'a>(alloc: Global, given: &HtmdOptions) -> PageSettings<'a>
    ensures { settings_in result ≡ spec.settings_of given.now }
{
    let mut settings = PageSettings::new(alloc);
    settings.body = given.reader == PAGE;
    settings.html5 = given.reader == HTML5;
    settings.encoding = Some(Encoding::Utf8);
    settings.guarded = given.mode == GUARDED;
    settings.mdast = given.output == MDAST;
    settings.chunks = chunks(given.chunk_bytes);
    settings.anchors = anchors(given.anchors);
    settings.rich = given.rich == 1;
    settings.scripting = given.scripting == 1;
    settings.options = options_of(given);
    settings.front_matter = given.front_matter == 1;
    settings.visible = given.visible == 1;
    settings.article = given.article == 1;
    settings.images = kept_images(given.images);
    settings.links_as_text = given.links_as_text == 1;
    settings.title = given.title == 1;
    settings
}
