//! How a document is written.

use htmd_markdown::{BrStyle, BulletListMarker, CodeBlockFence, HeadingStyle, HrStyle, LinkStyle};

/// How a document is written. Spacings are taken between 1 and 4.
#[derive(Debug, Drop)]
pub struct DocumentOptions {
    pub heading_style: HeadingStyle,
    pub hr_style: HrStyle,
    pub br_style: BrStyle,
    pub link_style: LinkStyle,
    pub code_block_fence: CodeBlockFence,
    pub bullet_list_marker: BulletListMarker,
    pub ul_bullet_spacing: u8,
    pub ol_number_spacing: u8,
}
