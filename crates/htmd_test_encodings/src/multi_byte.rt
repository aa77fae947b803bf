//! The text in encodings with characters of several bytes, by the Encoding Standard: the ends of each range of bytes
//! and of pointers, each error with what is given back, and bytes that end in the midst of a character.
use htmd_encodings::{encoding_named, page_text};
use htmd_test_expected::{expect_text, expect_that};
use std::test::Fail;

/// Bytes and their text.
type Row = (&'static [u8], &'static str);

fn expect_rows(rt: HostRuntime, label: &str, rows: &[Row]) -> Result<(), Fail> {
    let encoding = encoding_named(label.as_bytes());
    expect_that(label, encoding.is_some())?;
    for &(bytes, text) in rows {
        expect_text(
            label,
            page_text(rt.alloc(), encoding, bytes)?.as_str(),
            text,
        )?;
    }
    Ok(())
}

#[test]
fn reads_gb18030(rt: HostRuntime) -> Result<(), Fail> {
    const ROWS: &[Row] = &[
        (b"", ""),
        (b"a\x7F\x80\xFFb", "a\x7F\u{20ac}\u{fffd}b"),
        (
            b"\x81\x40\x81\x7E\x81\x80\x81\xFE",
            "\u{4e02}\u{4e8a}\u{4e90}\u{4fa2}",
        ),
        (b"\xFE\x40\xFE\xFE\xA3\xA0", "\u{fa0c}\u{e4c5}\u{3000}"),
        (
            b"\xA6\xD9\xA6\xDF\xA6\xEC\xA6\xF3\xFE\x59\xFE\xA0",
            "\u{fe10}\u{fe16}\u{fe17}\u{fe19}\u{9fb4}\u{9fbb}",
        ),
        (b"\xB0\xA1\xA8\xBC", "\u{554a}\u{1e3f}"),
        (b"\x81\x7F\x81\xFFa", "\u{fffd}\x7F\u{fffd}a"),
        (b"\x81<\x81", "\u{fffd}<\u{fffd}"),
    ];
    expect_rows(rt, "gb18030", ROWS)?;
    expect_rows(rt, "gbk", ROWS)
}

#[test]
fn reads_four_bytes(rt: HostRuntime) -> Result<(), Fail> {
    const ROWS: &[Row] = &[
        (
            b"\x81\x30\x81\x30\x81\x30\x84\x36\x81\x30\x84\x37",
            "\u{80}\u{a5}\u{a6}",
        ),
        (b"\x81\x35\xF4\x37\x81\x35\xF4\x36", "\u{e7c7}\u{1e3e}"),
        (b"\x83\x36\xC7\x38\x83\x36\xC7\x39", "\u{d7ff}\u{e76c}"),
        (b"\x84\x31\xA4\x39\x84\x31\xA5\x30", "\u{ffff}\u{fffd}"),
        (b"\x8F\x39\xFE\x39a", "\u{fffd}a"),
        (b"\x90\x30\x81\x30\xE3\x32\x9A\x35", "\u{10000}\u{10ffff}"),
        (b"\xE3\x32\x9A\x36\xFE\x39\xFE\x39a", "\u{fffd}\u{fffd}a"),
        (b"\x81\x30\x81", "\u{fffd}"),
        (b"\x81\x30", "\u{fffd}"),
        (b"\x81\x30a", "\u{fffd}0a"),
        (
            b"\x81\x30\x80\x81\x30\xFF",
            "\u{fffd}0\u{20ac}\u{fffd}0\u{fffd}",
        ),
        (b"\x81\x30\x81a", "\u{fffd}0\u{4e64}"),
        (
            b"\x81\x30\x81<\x81\x30\x81\x81\x30",
            "\u{fffd}0\u{fffd}<\u{fffd}0\u{4e96}0",
        ),
    ];
    expect_rows(rt, "gb18030", ROWS)
}

#[test]
fn reads_big5(rt: HostRuntime) -> Result<(), Fail> {
    const ROWS: &[Row] = &[
        (b"a\x80\xFFb", "a\u{fffd}\u{fffd}b"),
        (b"\xA1\x40\xA4\x40\xFE\xFE", "\u{3000}\u{4e00}\u{79d4}"),
        (b"\x87\x40\xF9\xD5\xFE\x40", "\u{43f0}\u{9f98}\u{9442}"),
        (
            b"\x88\x62\x88\x64\x88\xA3\x88\xA5",
            "\u{ca}\u{304}\u{ca}\u{30c}\u{ea}\u{304}\u{ea}\u{30c}",
        ),
        (b"\x88\x63\x88\xA4", "\u{1ebe}\u{1ebf}"),
        (
            b"\x81\x40\x81\x7E\x81\x7F\x81\xA1",
            "\u{fffd}@\u{fffd}~\u{fffd}\x7F\u{fffd}",
        ),
        (
            b"\x81\x80\x81\xA0\x81\xFFa\x81",
            "\u{fffd}\u{fffd}\u{fffd}a\u{fffd}",
        ),
    ];
    expect_rows(rt, "big5", ROWS)
}

#[test]
fn reads_euc_jp(rt: HostRuntime) -> Result<(), Fail> {
    const ROWS: &[Row] = &[
        (b"a\\~\x80\xA0\xFFb", "a\\~\u{fffd}\u{fffd}\u{fffd}b"),
        (
            b"\xA1\xA1\xB0\xA1\xF4\xA6\xFC\xFE\xA9\xA1",
            "\u{3000}\u{4e9c}\u{7199}\u{ff02}\u{fffd}",
        ),
        (
            b"\x8E\xA1\x8E\xDF\x8E\xE0\x8E\xA0",
            "\u{ff61}\u{ff9f}\u{fffd}\u{fffd}",
        ),
        (b"\x8Ea\x8E", "\u{fffd}a\u{fffd}"),
        (
            b"\x8F\xA2\xAF\x8F\xED\xE3\x8F\xB0\xA1",
            "\u{2d8}\u{9fa5}\u{4e02}",
        ),
        (b"\x8F\xA1\xA1\x8F\xFE\xFE", "\u{fffd}\u{fffd}"),
        (
            b"\x8Fa\x8F\x80b\x8F\xA1c\x8F\xA1\x80d",
            "\u{fffd}a\u{fffd}b\u{fffd}c\u{fffd}d",
        ),
        (b"\x8F\xA1", "\u{fffd}"),
        (b"\x8F", "\u{fffd}"),
        (
            b"\xA1a\xA1\x80b\xA1\xFF\xA1",
            "\u{fffd}a\u{fffd}b\u{fffd}\u{fffd}",
        ),
    ];
    expect_rows(rt, "euc-jp", ROWS)
}

#[test]
fn reads_shift_jis(rt: HostRuntime) -> Result<(), Fail> {
    const ROWS: &[Row] = &[
        (
            b"a\\~\x80\xA0\xFD\xFFb",
            "a\\~\u{80}\u{fffd}\u{fffd}\u{fffd}b",
        ),
        (b"\xA1\xB1\xDF", "\u{ff61}\u{ff71}\u{ff9f}"),
        (
            b"\x81\x40\x88\x9F\x9F\xFC\xE0\x40\xEA\xA4",
            "\u{3000}\u{4e9c}\u{6ecc}\u{6f3e}\u{7199}",
        ),
        (
            b"\xF0\x40\xF9\xFC\xFA\x40\xFC\x4B",
            "\u{e000}\u{e757}\u{2170}\u{9ed1}",
        ),
        (
            b"\x81\x3F\x81\x7F\x81\xFD\x81\xADa",
            "\u{fffd}?\u{fffd}\x7F\u{fffd}\u{fffd}a",
        ),
        (
            b"\x87\x93\x85\x40\xFC\xFC\xFC\x4C\x81",
            "\u{222e}\u{fffd}@\u{fffd}\u{fffd}L\u{fffd}",
        ),
    ];
    expect_rows(rt, "shift_jis", ROWS)
}

#[test]
fn reads_euc_kr(rt: HostRuntime) -> Result<(), Fail> {
    const ROWS: &[Row] = &[
        (b"a\x80\xFFb", "a\u{fffd}\u{fffd}b"),
        (
            b"\x81\x41\x81\x5A\x81\x61\x81\xFE",
            "\u{ac02}\u{ac34}\u{ac35}\u{ad13}",
        ),
        (b"\xB0\xA1\xC8\xFE\xFD\xFE", "\u{ac00}\u{d79d}\u{8a70}"),
        (
            b"\x81\x40\x81\x5B\x81\x80\x81\xFFc",
            "\u{fffd}@\u{fffd}[\u{fffd}\u{fffd}c",
        ),
        (b"\xFE\xFE\xFE\x41\xFE", "\u{fffd}\u{fffd}A\u{fffd}"),
    ];
    expect_rows(rt, "euc-kr", ROWS)
}

#[test]
fn reads_iso_2022_jp(rt: HostRuntime) -> Result<(), Fail> {
    const ROWS: &[Row] = &[
        (b"a\\~\x0E\x0F\x80\x7F", "a\\~\u{fffd}\u{fffd}\u{fffd}\x7F"),
        (b"\x1B(Ja\\~\x0E\x80", "a\u{a5}\u{203e}\u{fffd}\u{fffd}"),
        (
            b"\x1B(I\x21\x5F\x20\x60\xA1",
            "\u{ff61}\u{ff9f}\u{fffd}\u{fffd}\u{fffd}",
        ),
        (
            b"\x1B$B!!0!\x7F\x20t&\x1B(Ba",
            "\u{3000}\u{4e9c}\u{fffd}\u{fffd}\u{7199}a",
        ),
        (
            b"\x1B$@0!0\x200\n0\xA1~~",
            "\u{4e9c}\u{fffd}\u{fffd}\u{fffd}\u{fffd}",
        ),
        (b"\x1B$B0", "\u{fffd}"),
        (b"\x1B$B0\x1B(Ba", "\u{fffd}a"),
        (b"\x1B$B\x1B(Ba", "\u{fffd}a"),
        (b"\x1B(J\x1B(Ja\x1B(Bb\x1B(B", "\u{fffd}ab"),
        (b"\x1B", "\u{fffd}"),
        (b"\x1Ba\x1B(", "\u{fffd}a\u{fffd}("),
        (b"\x1B(a\x1B$(", "\u{fffd}(a\u{fffd}$("),
        (b"\x1B$B\x1B(0!", "\u{fffd}\u{251b}\u{fffd}"),
    ];
    expect_rows(rt, "iso-2022-jp", ROWS)
}

#[test]
fn replaces_all(rt: HostRuntime) -> Result<(), Fail> {
    const ROWS: &[Row] = &[(b"", ""), (b"a", "\u{fffd}"), (b"\xC1\xC1", "\u{fffd}")];
    expect_rows(rt, "replacement", ROWS)?;
    expect_rows(rt, "iso-2022-kr", ROWS)
}
