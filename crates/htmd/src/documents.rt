//! The options of documents.

ghost use Rattle.std.specs.Prelude.{◌≡◌};
ghost use Rattle.htmd.specs.PageDocuments as spec;

use htmd_commonmark::DocumentOptions;
use htmd_walk::options::Options;

/// The options that count for a document.
pub fn document_options(options: &Options) -> DocumentOptions
    ensures { result ≡ spec.document_options options.now }
{
    DocumentOptions {
        heading_style: options.heading_style,
        hr_style: options.hr_style,
        br_style: options.br_style,
        link_style: options.link_style,
        code_block_fence: options.code_block_fence,
        bullet_list_marker: options.bullet_list_marker,
        ul_bullet_spacing: options.ul_bullet_spacing,
        ol_number_spacing: options.ol_number_spacing,
    }
}
