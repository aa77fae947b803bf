//! Lines and columns of a text.
ghost use Rattle.std.specs.Prelude.{◌≡◌, ◌+◌};
ghost use Rattle.htmd_tree.specs.Lines as spec;

/// Whether a line ends with the first of these bytes: a line feed, or a carriage return that no line feed follows.
fn ends_line(bytes: &[u8]) -> bool
    ensures { result ≡ spec.ends_line bytes.now }
{
    match bytes {
        [b'\r', b'\n', ..] => false,
        [b'\n' | b'\r', ..] => true,
        _ => false,
    }
}

/// Whether a character begins with this byte (RFC 3629, 3).
fn begins_character(byte: u8) -> bool
    ensures { result ≡ spec.begins_character byte }
{
    !(0x80 <= byte && byte < 0xC0)
}

/// The line and the column of a byte place in a text, both from 1. A line ends with a line feed, a carriage return and
/// a line feed, or a carriage return; columns are characters. A place after the end counts as the end. A place within a
/// character or a line end counts as after the part of it that comes before the place.
pub fn line_and_column(html: &str, place: usize) -> (usize, usize)
    ensures line { result.0 ≡ 1 + spec.lines_ended place html.now }
    ensures column { result.1 ≡ 1 + spec.characters (spec.line_front place html.now) }
{
    let bytes = html.as_bytes();
    let end = place.min(bytes.len());
    let mut line = 1;
    let mut column = 1;
    let mut at = 0;
    while at < end {
        if ends_line(&bytes[at..]) {
            line += 1;
            column = 1;
        } else if begins_character(bytes[at]) {
            column += 1;
        }
        at += 1;
    }
    (line, column)
}
