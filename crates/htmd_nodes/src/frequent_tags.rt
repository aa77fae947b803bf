//! The tags with the most frequent texts, found by their bytes at once.
ghost use Rattle.std.specs.Prelude.{◌≡◌, IfSome};
ghost use Rattle.htmd_nodes.specs.Tags.{tag_text};

use crate::tag::Tag;

/// The tags with most frequent texts, by how long they are.
#[inline(always)]
pub(crate) fn frequent(bytes: &[u8]) -> Option<Tag>
    ensures { IfSome result (λ tag. bytes.now ≡ tag_text tag) }
{
    match bytes.len() {
        1 => of_one(bytes),
        2 => of_two(bytes),
        3 => of_three(bytes),
        4 => of_four(bytes),
        _ => None,
    }
}

/// The tag with this text, if it is a frequent one of one letter.
#[inline(always)]
fn of_one(bytes: &[u8]) -> Option<Tag>
    ensures { IfSome result (λ tag. bytes.now ≡ tag_text tag) }
{
    match bytes {
        b"a" => Some(Tag::A),
        b"b" => Some(Tag::B),
        b"i" => Some(Tag::I),
        b"p" => Some(Tag::P),
        _ => None,
    }
}

/// The tag with this text, if it is a frequent one of two letters.
#[inline(always)]
fn of_two(bytes: &[u8]) -> Option<Tag>
    ensures { IfSome result (λ tag. bytes.now ≡ tag_text tag) }
{
    match bytes {
        b"br" => Some(Tag::Br),
        b"dd" => Some(Tag::Dd),
        b"dl" => Some(Tag::Dl),
        b"dt" => Some(Tag::Dt),
        b"em" => Some(Tag::Em),
        b"h1" => Some(Tag::H1),
        b"h2" => Some(Tag::H2),
        b"h3" => Some(Tag::H3),
        b"h4" => Some(Tag::H4),
        b"li" => Some(Tag::Li),
        b"ol" => Some(Tag::Ol),
        b"td" => Some(Tag::Td),
        b"th" => Some(Tag::Th),
        b"tr" => Some(Tag::Tr),
        b"ul" => Some(Tag::Ul),
        _ => None,
    }
}

/// The tag with this text, if it is a frequent one of three letters.
#[inline(always)]
fn of_three(bytes: &[u8]) -> Option<Tag>
    ensures { IfSome result (λ tag. bytes.now ≡ tag_text tag) }
{
    match bytes {
        b"div" => Some(Tag::Div),
        b"img" => Some(Tag::Img),
        b"pre" => Some(Tag::Pre),
        b"sup" => Some(Tag::Sup),
        _ => None,
    }
}

/// The tag with this text, if it is a frequent one of four letters.
#[inline(always)]
fn of_four(bytes: &[u8]) -> Option<Tag>
    ensures { IfSome result (λ tag. bytes.now ≡ tag_text tag) }
{
    match bytes {
        b"code" => Some(Tag::Code),
        b"span" => Some(Tag::Span),
        _ => None,
    }
}
