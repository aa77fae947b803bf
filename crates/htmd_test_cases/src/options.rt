//! The fields of the options, as a case names them.
use htmd::Anchors;
use htmd::options::{
    BrStyle, BulletListMarker, CodeBlockFence, CodeBlockStyle, HeadingStyle, HrStyle,
    LinkReferenceStyle, LinkStyle, Options, TranslationMode,
};

/// Sets a field of the options, and answers whether there is such a field and it has such a value.
pub(crate) fn set_field(options: &mut Options, field: &str, value: &str) -> bool {
    match field {
        "heading_style" => put(&mut options.heading_style, heading_style(value)),
        "hr_style" => put(&mut options.hr_style, hr_style(value)),
        "br_style" => put(&mut options.br_style, br_style(value)),
        "link_style" => put(&mut options.link_style, link_style(value)),
        "link_reference_style" => put(
            &mut options.link_reference_style,
            link_reference_style(value),
        ),
        "code_block_style" => put(&mut options.code_block_style, code_block_style(value)),
        "code_block_fence" => put(&mut options.code_block_fence, code_block_fence(value)),
        "bullet_list_marker" => put(&mut options.bullet_list_marker, bullet_list_marker(value)),
        "ul_bullet_spacing" => put(&mut options.ul_bullet_spacing, value.parse::<u8>().ok()),
        "ol_number_spacing" => put(&mut options.ol_number_spacing, value.parse::<u8>().ok()),
        "preformatted_code" => put(&mut options.preformatted_code, truth(value)),
        "translation_mode" => put(&mut options.translation_mode, translation_mode(value)),
        _ => false,
    }
}

/// Puts a value if there is one, and answers whether there is.
fn put<T: Copy>(place: &mut T, value: Option<T>) -> bool {
    match value {
        Some(value) => {
            *place = value;
            true
        }
        None => false,
    }
}

/// What `true` and `false` mean.
pub(crate) fn truth(value: &str) -> Option<bool> {
    match value {
        "true" => Some(true),
        "false" => Some(false),
        _ => None,
    }
}

/// What places of links are named by this.
pub(crate) fn anchors(value: &str) -> Option<Anchors> {
    match value {
        "Linked" => Some(Anchors::Linked),
        "All" => Some(Anchors::All),
        "None" => Some(Anchors::None),
        _ => None,
    }
}

fn heading_style(value: &str) -> Option<HeadingStyle> {
    match value {
        "Atx" => Some(HeadingStyle::Atx),
        "Setex" => Some(HeadingStyle::Setex),
        _ => None,
    }
}

fn hr_style(value: &str) -> Option<HrStyle> {
    match value {
        "Dashes" => Some(HrStyle::Dashes),
        "Asterisks" => Some(HrStyle::Asterisks),
        "Underscores" => Some(HrStyle::Underscores),
        _ => None,
    }
}

fn br_style(value: &str) -> Option<BrStyle> {
    match value {
        "TwoSpaces" => Some(BrStyle::TwoSpaces),
        "Backslash" => Some(BrStyle::Backslash),
        _ => None,
    }
}

fn link_style(value: &str) -> Option<LinkStyle> {
    match value {
        "Inlined" => Some(LinkStyle::Inlined),
        "InlinedPreferAutolinks" => Some(LinkStyle::InlinedPreferAutolinks),
        "Referenced" => Some(LinkStyle::Referenced),
        _ => None,
    }
}

fn link_reference_style(value: &str) -> Option<LinkReferenceStyle> {
    match value {
        "Full" => Some(LinkReferenceStyle::Full),
        "Collapsed" => Some(LinkReferenceStyle::Collapsed),
        "Shortcut" => Some(LinkReferenceStyle::Shortcut),
        _ => None,
    }
}

fn code_block_style(value: &str) -> Option<CodeBlockStyle> {
    match value {
        "Indented" => Some(CodeBlockStyle::Indented),
        "Fenced" => Some(CodeBlockStyle::Fenced),
        _ => None,
    }
}

fn code_block_fence(value: &str) -> Option<CodeBlockFence> {
    match value {
        "Tildes" => Some(CodeBlockFence::Tildes),
        "Backticks" => Some(CodeBlockFence::Backticks),
        _ => None,
    }
}

fn bullet_list_marker(value: &str) -> Option<BulletListMarker> {
    match value {
        "Asterisk" => Some(BulletListMarker::Asterisk),
        "Dash" => Some(BulletListMarker::Dash),
        _ => None,
    }
}

fn translation_mode(value: &str) -> Option<TranslationMode> {
    match value {
        "Pure" => Some(TranslationMode::Pure),
        "Faithful" => Some(TranslationMode::Faithful),
        _ => None,
    }
}
