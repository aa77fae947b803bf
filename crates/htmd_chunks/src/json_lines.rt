//! Pieces as lines of JSON.
ghost use Rattle.std.specs.Prelude.{◌≡◌, ◌++◌, IfOk, OnOk, map, string_bytes, option_copied};
ghost use Rattle.json.specs.Print.{quoted};
ghost use Rattle.htmd_chunks.specs.ChunkLines as spec;
ghost use Rattle.htmd_chunks.specs.ChunkViews.{piece_of};
ghost use Rattle.htmd_chunks.specs.JointNames.{name_of};

use crate::joint::Joint;
use crate::pieces::{Piece, piece_options};
use htmd_commonmark::{DocumentOptions, blocks_to_markdown};
use serde_json::Value;
use std::alloc::{AllocError, Global};

/// Pieces as lines of JSON, in order. Each line is an object with these members: `page` and `front` where they are
/// given, `n`, which counts from 0, `path`, `start`, `continues` and `markdown`. The page is a text, and what is given
/// as `front` is JSON already. The options say how Markdown is written; links are inline. `Err` means out of memory.
pub fn to_json_lines(
    alloc: Global,
    pieces: &[Piece],
    options: &DocumentOptions,
    page: Option<&str>,
    front: Option<&str>,
) -> Result<String, AllocError>
    ensures { IfOk result (λ s. string_bytes s ≡ spec.json_lines options.now
        (option_copied page.entry) (option_copied front.entry) (map piece_of pieces.now)) }
{
    let options = piece_options(options);
    let begin = beginning(alloc, page, front)?;
    let mut lines = String::new(alloc);
    push_lines(alloc, &mut lines, &begin, pieces, &options)?;
    Ok(lines)
}

/// What each line begins with.
fn beginning(alloc: Global, page: Option<&str>, front: Option<&str>) -> Result<String, AllocError>
    ensures { IfOk result (λ s. string_bytes s
        ≡ spec.beginning (option_copied page.entry) (option_copied front.entry)) }
{
    let mut begin = String::new(alloc);
    begin.push_str("{")?;
    push_page(alloc, &mut begin, page)?;
    push_front(&mut begin, front)?;
    Ok(begin)
}

/// Appends the name of the page, if it is given.
fn push_page(alloc: Global, out: &mut String, page: Option<&str>) -> Result<(), AllocError>
    ensures { OnOk result (string_bytes out.new
        ≡ string_bytes out.old ++ spec.page_member (option_copied page.entry)) }
{
    match page {
        Some(page) => {
            out.push_str("\"page\":")?;
            push_text(alloc, out, page)?;
            out.push_str(",")
        }
        None => Ok(()),
    }
}

/// Appends the front matter, if it is given.
fn push_front(out: &mut String, front: Option<&str>) -> Result<(), AllocError>
    ensures { OnOk result (string_bytes out.new
        ≡ string_bytes out.old ++ spec.front_member (option_copied front.entry)) }
{
    match front {
        Some(front) => {
            out.push_str("\"front\":")?;
            out.push_str(front)?;
            out.push_str(",")
        }
        None => Ok(()),
    }
}

/// Appends the lines of all pieces.
fn push_lines(
    alloc: Global,
    out: &mut String,
    begin: &str,
    pieces: &[Piece],
    options: &DocumentOptions,
) -> Result<(), AllocError>
    ensures { OnOk result (string_bytes out.new ≡ string_bytes out.old
        ++ spec.lines_from options.now begin.now 0 (map piece_of pieces.now)) }
{
    for (n, piece) in pieces.iter().enumerate() {
        push_line(alloc, out, begin, n, piece, options)?;
    }
    Ok(())
}

/// Appends the line of the piece with this number.
fn push_line(
    alloc: Global,
    out: &mut String,
    begin: &str,
    n: usize,
    piece: &Piece,
    options: &DocumentOptions,
) -> Result<(), AllocError>
    ensures { OnOk result (string_bytes out.new ≡ string_bytes out.old
        ++ spec.line options.now begin.now n (piece_of piece.now)) }
{
    out.push_str(begin)?;
    push_number_and_path(alloc, out, n, piece)?;
    push_start_and_joints(alloc, out, piece)?;
    push_markdown(alloc, out, piece, options)?;
    out.push_str("}\n")
}

/// Appends the number of a piece and what it stands under.
fn push_number_and_path(
    alloc: Global,
    out: &mut String,
    n: usize,
    piece: &Piece,
) -> Result<(), AllocError>
    ensures { OnOk result (string_bytes out.new
        ≡ string_bytes out.old ++ spec.number_and_path n (piece_of piece.now)) }
{
    write!(out, "\"n\":{n},\"path\":")?;
    push_texts(alloc, out, &piece.path)
}

/// Appends where a piece begins and how it goes on.
fn push_start_and_joints(alloc: Global, out: &mut String, piece: &Piece) -> Result<(), AllocError>
    ensures { OnOk result (string_bytes out.new
        ≡ string_bytes out.old ++ spec.start_and_joints (piece_of piece.now)) }
{
    let start = piece.start;
    write!(out, ",\"start\":{start},\"continues\":")?;
    push_joints(alloc, out, &piece.continues)
}

/// Appends the Markdown of a piece.
fn push_markdown(
    alloc: Global,
    out: &mut String,
    piece: &Piece,
    options: &DocumentOptions,
) -> Result<(), AllocError>
    ensures { OnOk result (string_bytes out.new
        ≡ string_bytes out.old ++ spec.markdown_member options.now (piece_of piece.now)) }
{
    out.push_str(",\"markdown\":")?;
    let markdown = blocks_to_markdown(alloc, &piece.document.blocks, options)?;
    push_string(alloc, out, markdown)
}

// ---- values

/// Appends a text as a JSON string.
fn push_string(alloc: Global, out: &mut String, text: String) -> Result<(), AllocError>
    ensures { OnOk result (string_bytes out.new ≡ string_bytes out.old ++ quoted (string_bytes text)) }
{
    let json = Value::String(text).to_string(alloc)?;
    out.push_str(&json)
}

/// Appends a text as a JSON string.
fn push_text(alloc: Global, out: &mut String, text: &str) -> Result<(), AllocError>
    ensures { OnOk result (string_bytes out.new ≡ string_bytes out.old ++ quoted text.now) }
{
    push_string(alloc, out, String::from_str(alloc, text)?)
}

/// Appends texts as an array.
fn push_texts(alloc: Global, out: &mut String, texts: &[String]) -> Result<(), AllocError>
    ensures { OnOk result (string_bytes out.new
        ≡ string_bytes out.old ++ spec.texts (map string_bytes texts.now)) }
{
    let [first, rest @ ..] = texts else {
        return out.push_str("[]");
    };
    out.push_str("[")?;
    push_text(alloc, out, first)?;
    push_more_texts(alloc, out, rest)?;
    out.push_str("]")
}

/// Appends texts behind others in an array.
fn push_more_texts(alloc: Global, out: &mut String, texts: &[String]) -> Result<(), AllocError>
    ensures { OnOk result (string_bytes out.new
        ≡ string_bytes out.old ++ spec.more_texts (map string_bytes texts.now)) }
{
    for text in texts {
        out.push_str(",")?;
        push_text(alloc, out, text)?;
    }
    Ok(())
}

/// Appends the names of joints as an array.
fn push_joints(alloc: Global, out: &mut String, joints: &[Joint]) -> Result<(), AllocError>
    ensures { OnOk result (string_bytes out.new
        ≡ string_bytes out.old ++ spec.texts (map name_of joints.now)) }
{
    let [first, rest @ ..] = joints else {
        return out.push_str("[]");
    };
    out.push_str("[")?;
    push_text(alloc, out, first.name())?;
    push_more_joints(alloc, out, rest)?;
    out.push_str("]")
}

/// Appends the names of joints behind others in an array.
fn push_more_joints(alloc: Global, out: &mut String, joints: &[Joint]) -> Result<(), AllocError>
    ensures { OnOk result (string_bytes out.new
        ≡ string_bytes out.old ++ spec.more_texts (map name_of joints.now)) }
{
    for joint in joints {
        out.push_str(",")?;
        push_text(alloc, out, joint.name())?;
    }
    Ok(())
}
