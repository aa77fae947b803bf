//! The text of pages in each encoding, by the Encoding Standard and the HTML Standard. `checks/refused_memory`, a part
//! of the gate, lets each allocation of the first two tests fail in turn, which then end out of memory, and all
//! allocations of the third, which passes.
use crate::indexes::INDEXES;
use htmd_encodings::{encoding_named, page_text};
use htmd_test_expected::{expect_text, expect_that};
use std::alloc::AllocError;
use std::borrow::CowStr;
use std::test::Fail;

#[test]
fn reads_windows_1252(rt: HostRuntime) -> Result<(), Fail> {
    let text = page_text(rt.alloc(), None, b"caf\xE9 \x80\xFF")?;
    expect_text("text", text.as_str(), "caf\u{e9} \u{20ac}\u{ff}")
}

#[test]
fn reads_utf16(rt: HostRuntime) -> Result<(), Fail> {
    let text = page_text(
        rt.alloc(),
        None,
        b"\xFE\xFF\x20\xAC\x20\xAC\x20\xAC\xD8\x3D\xDE\x00",
    )?;
    expect_text("text", text.as_str(), "\u{20ac}\u{20ac}\u{20ac}\u{1f600}")
}

#[test]
fn borrows_utf8(rt: HostRuntime) -> Result<(), Fail> {
    for bytes in [b"".as_slice(), b"a\0\x7F", b"\xC3\xA9", b"\xEF\xBB\xBFa"] {
        let CowStr::Borrowed(text) = page_text(rt.alloc(), None, bytes)? else {
            return Err(Fail::from("the text is copied"));
        };
        expect_that(text, text.as_bytes() == bytes)?;
    }
    Ok(())
}

// The bytes 80 to FF in each encoding.
#[test]
fn knows_each_index(rt: HostRuntime) -> Result<(), Fail> {
    let mut bytes = Vec::new(rt.alloc());
    for byte in 0x80..=0xFF {
        bytes.push(byte)?;
    }
    for &(label, characters) in INDEXES {
        let encoding = encoding_named(label.as_bytes());
        expect_that(label, encoding.is_some())?;
        let text = page_text(rt.alloc(), encoding, bytes.as_slice())?;
        expect_text(label, text.as_str(), characters)?;
    }
    Ok(())
}

// Pairs in both orders, surrogates without partners, an odd byte, and such a byte after a surrogate, which are one
// error. Only the first mark is left out. After the mark of UTF-8, what isn't UTF-8 is U+FFFD, part by part.
#[test]
fn reads_units(rt: HostRuntime) -> Result<(), Fail> {
    const ROWS: &[(&[u8], &str)] = &[
        (b"\xFE\xFF", ""),
        (b"\xFF\xFE", ""),
        (b"\xFE\xFF\0a\0b", "ab"),
        (b"\xFF\xFEa\0b\0", "ab"),
        (b"\xFF\xFE\x3D\xD8\x00\xDE", "\u{1f600}"),
        (b"\xFE\xFF\xDB\xFF\xDF\xFF", "\u{10ffff}"),
        (b"\xFE\xFF\xD8\x00\0a", "\u{fffd}a"),
        (b"\xFE\xFF\xDC\x00\0a", "\u{fffd}a"),
        (b"\xFE\xFF\xDE\x00\xD8\x3D", "\u{fffd}\u{fffd}"),
        (b"\xFE\xFF\xD8\x3D\xD8\x3D\xDE\x00", "\u{fffd}\u{1f600}"),
        (b"\xFE\xFF\0a\0", "a\u{fffd}"),
        (b"\xFF\xFE\0", "\u{fffd}"),
        (b"\xFE\xFF\xD8\x00a", "\u{fffd}"),
        (b"\xFE\xFF\xFE\xFF\0a", "\u{feff}a"),
        (b"\xFE", "\u{fe}"),
        (b"\xEF\xBB\xBF\xFF", "\u{feff}\u{fffd}"),
        (
            b"\xEF\xBB\xBFa\xE2\x82b\xF0\x9F\x98\xC0\xAF",
            "\u{feff}a\u{fffd}b\u{fffd}\u{fffd}\u{fffd}",
        ),
    ];
    for &(bytes, text) in ROWS {
        expect_text(text, page_text(rt.alloc(), None, bytes)?.as_str(), text)?;
    }
    Ok(())
}

// A page's own declaration counts, if its bytes aren't UTF-8: here the last byte is C1.
#[test]
fn searches_pages(rt: HostRuntime) -> Result<(), Fail> {
    const ROWS: &[(&[u8], &str)] = &[
        (b"<meta charset=koi8-r>\xC1", "\u{430}"),
        (b"<META\n/Charset = ' KOI8-R\n'>\xC1", "\u{430}"),
        (
            b"<!doctype html><html lang='>'><meta name=x charset=koi8-r charset=latin1>\xC1",
            "\u{430}",
        ),
        (
            b"<meta http-equiv=Content-Type content=\"text/html; charset=koi8-r\">\xC1",
            "\u{430}",
        ),
        (
            b"<meta content='charset charset = koi8-r;x' http-equiv=content-type>\xC1",
            "\u{430}",
        ),
        (b"<meta content='text/html; charset=koi8-r'>\xC1", "\u{c1}"),
        (
            b"<meta charset=x content='charset=koi8-r' http-equiv=content-type>\xC1",
            "\u{c1}",
        ),
        (b"<meta charset=x><meta charset=koi8-r>\xC1", "\u{430}"),
        (
            b"<!--<meta charset=latin1>--><meta charset=koi8-r>\xC1",
            "\u{430}",
        ),
        (b"<!--><meta charset=koi8-r>\xC1", "\u{430}"),
        (b"<!-- <meta charset=koi8-r>\xC1", "\u{c1}"),
        (
            b"</p title='<meta charset=latin1>'><?x?><meta charset=koi8-r>\xC1",
            "\u{430}",
        ),
        (b"<metadata charset=koi8-r>\xC1", "\u{c1}"),
        (b"<meta charset=koi8-r \xC1", "\u{c1}"),
        (b"<?xml version='1.0' encoding='koi8-r'?>\xC1", "\u{430}"),
        (
            b"<?xml encoding='koi8-r'?><meta charset=latin2>\xC1",
            "\u{c1}",
        ),
        (b"<?xml encoding=' koi8-r'?>\xC1", "\u{c1}"),
        (b"<meta charset=utf-16>\xC1", "\u{fffd}"),
        (b"<meta charset=x-user-defined>\xC1", "\u{c1}"),
    ];
    for &(page, end) in ROWS {
        let text = page_text(rt.alloc(), None, page)?;
        expect_that(end, text.as_str().ends_with(end))?;
    }
    Ok(())
}

// A page that begins with these bytes, up to this many, and goes on with those.
fn page_of(rt: HostRuntime, front: &[u8], len: usize, rest: &[u8]) -> Result<Vec<u8>, AllocError> {
    let mut page = Vec::new(rt.alloc());
    page.extend_from_slice(front)?;
    for _ in front.len()..len {
        page.push(b'x')?;
    }
    page.extend_from_slice(rest)?;
    Ok(page)
}

// A `meta` counts after the first 1,024 bytes too, unless they say an encoding: here the last byte is C1. What is cut
// at their end goes on.
#[test]
fn searches_the_rest(rt: HostRuntime) -> Result<(), Fail> {
    const ROWS: &[(&[u8], usize, &[u8], &str)] = &[
        (b"", 1003, b"<meta charset=koi8-r>\xC1", "\u{430}"),
        (b"", 1004, b"<meta charset=koi8-r>\xC1", "\u{430}"),
        (
            b"",
            5000,
            b"<meta charset=x><meta charset=koi8-r>\xC1",
            "\u{430}",
        ),
        (
            b"<meta charset=koi8-r>",
            2000,
            b"<meta charset=latin1>\xC1",
            "\u{430}",
        ),
        (
            b"<meta charset=latin1>",
            1024,
            b"<meta charset=koi8-r>\xC1",
            "\u{c1}",
        ),
        (
            b"<?xml encoding='koi8-r'?>",
            2000,
            b"<meta charset=latin1>\xC1",
            "\u{430}",
        ),
        (
            b"<!--",
            2000,
            b"<meta charset=latin1>--><meta charset=koi8-r>\xC1",
            "\u{430}",
        ),
        (
            b"<p title='",
            2000,
            b"<meta charset=koi8-r>'>\xC1",
            "\u{c1}",
        ),
        (b"", 2000, b"<?xml encoding='koi8-r'?>\xC1", "\u{c1}"),
        (b"", 2000, b"<meta charset=utf-8>\xC1", "\u{fffd}"),
    ];
    for &(front, len, rest, end) in ROWS {
        let page = page_of(rt, front, len, rest)?;
        let text = page_text(rt.alloc(), None, page.as_slice())?;
        expect_that(end, text.as_str().ends_with(end))?;
    }
    Ok(())
}

// So does one of an encoding with characters of several bytes, but bytes that are UTF-8 are so whatever is said there.
#[test]
fn reads_late_encodings(rt: HostRuntime) -> Result<(), Fail> {
    const ROWS: &[(&[u8], &str)] = &[
        (b"<meta charset=x-sjis>\xB1", "\u{ff71}"),
        (b"<meta charset=gb2312>\xB0\xA1", "\u{554a}"),
        (
            b"<meta charset=iso-2022-jp>\xC1\x1B$B0!",
            "\u{fffd}\u{4e9c}",
        ),
        (b"<meta charset=iso-2022-jp>\x1B$B0!", "\x1B$B0!"),
    ];
    for &(rest, end) in ROWS {
        let page = page_of(rt, b"", 1024, rest)?;
        let text = page_text(rt.alloc(), None, page.as_slice())?;
        expect_that(end, text.as_str().ends_with(end))?;
    }
    Ok(())
}

// What a page says of its encoding counts unless the bytes are UTF-8; ISO-2022-JP even then. A page that says
// `replacement`, or the label of an encoding for which that stands, is one error.
#[test]
fn believes_pages(rt: HostRuntime) -> Result<(), Fail> {
    const ROWS: &[(&[u8], &str)] = &[
        (
            b"<meta charset=x-sjis>\x88\x9F",
            "<meta charset=x-sjis>\u{4e9c}",
        ),
        (
            b"<meta charset=gb2312>\xB0\xA1",
            "<meta charset=gb2312>\u{554a}",
        ),
        (b"<meta charset=hz-gb-2312>\xC1", "\u{fffd}"),
        (b"<meta charset=replacement>\xC1", "\u{fffd}"),
        (
            b"<meta charset=iso-2022-jp>\x1B$B0!",
            "<meta charset=iso-2022-jp>\u{4e9c}",
        ),
        (b"<meta charset=x-sjis>", "<meta charset=x-sjis>"),
    ];
    for &(page, expected) in ROWS {
        expect_text(
            expected,
            page_text(rt.alloc(), None, page)?.as_str(),
            expected,
        )?;
    }
    Ok(())
}
