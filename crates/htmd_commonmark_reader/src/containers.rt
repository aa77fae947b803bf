//! What containers take of a line (CommonMark 0.31.2, 5.1 and 5.2).
ghost use Rattle.std.specs.Prelude.{◌≡◌, ◌≤◌, ◌==◌, ◌∷◌, ◌&&◌, [], not, map, length, option_map, IfSome};
ghost use Rattle.htmd_lexical.specs.CharacterClasses as classes;
ghost use Rattle.htmd_commonmark_reading.specs.Containers as spec;
ghost use Rattle.htmd_commonmark_reader.specs.ClosedParts.{kind_of};
ghost use Rattle.htmd_commonmark_reader.specs.LineViews.{line_of, IsLine};
ghost use Rattle.htmd_commonmark_reader.specs.OpenBlocks.{passed, is_last, no_quote};
ghost use Rattle.htmd_commonmark_reader.specs.Quotes.{quote_count};

use crate::closed::Container;
use crate::lines::Line;
use htmd_scanning::first_is;

/// What follows the marker of a quote that a line begins with.
fn quoted(line: Line<'_>) -> Option<Line<'_>>
    requires { IsLine line }
    ensures rest { option_map line_of result ≡ spec.quoted (line_of line.entry) }
    ensures held { IfSome result (λ rest. IsLine rest) }
{
    if line.spaces > 0 || !first_is(line.text.as_bytes(), b'>') {
        return None;
    }
    Some(line.after_marker(1).cut(1))
}

/// Whether a line goes on with an item.
fn goes_with_item(is_empty: bool, columns: usize, line: Line<'_>) -> bool
    requires { IsLine line }
    ensures { result ≡ spec.goes_with_item is_empty columns (line_of line.entry) }
{
    if line.is_blank() {
        !is_empty
    } else {
        columns <= line.indent
    }
}

impl Container {
    pub(crate) fn is_quote(self) -> bool
        ensures { result ≡ not (no_quote (kind_of self ∷ [])) }
    {
        matches!(self, Container::Quote)
    }

    /// How many quotes it is.
    pub(crate) fn quotes(self) -> usize
        ensures { result ≡ quote_count (kind_of self ∷ []) }
    {
        match self {
            Container::Quote => 1,
            Container::Item { .. } => 0,
        }
    }

    /// What is left of a line that goes on with a container, which may hold nothing.
    fn rest_of<'a>(self, is_empty: bool, line: Line<'a>) -> Option<Line<'a>>
        requires { IsLine line }
        ensures rest { option_map line_of result ≡ spec.taken (kind_of self) is_empty (line_of line.entry) }
        ensures held { IfSome result (λ rest. IsLine rest) }
    {
        match self {
            Container::Quote => quoted(line.cut(3)),
            Container::Item { columns, .. } => {
                if goes_with_item(is_empty, columns, line) {
                    Some(line.cut(columns))
                } else {
                    None
                }
            }
        }
    }
}

/// Whether a container with these in it holds nothing; the flag says it of the innermost one.
#[tactic(auto, using(crate::proofs::ContainersLemmas::last_box))]
fn holds_nothing(inner: &[Container], is_empty: bool) -> bool
    ensures { result ≡ (is_last (map kind_of inner.now) && is_empty) }
{
    inner.is_empty() && is_empty
}

/// How many containers take a line, and what they leave of it.
#[derive(Clone, Copy, Drop)]
pub(crate) struct Taken<'a> {
    pub(crate) depth: usize,
    pub(crate) line: Line<'a>,
}

/// Whether so many quotes and any items take what is left of a line, if the innermost one holds something.
fn all_take(quotes: usize, is_empty: bool, line: Line<'_>) -> bool
    ensures { result ≡ (quotes == 0 && not is_empty && classes.is_empty (line_of line.entry).text) }
{
    quotes == 0 && !is_empty && line.is_used_up()
}

/// What containers take of a line; the flag: the innermost one holds nothing. So many of them are quotes: behind the
/// last of these, items that an empty line goes on with aren't looked at.
pub(crate) fn take_line<'a>(
    boxes: &[Container],
    quotes: usize,
    is_empty: bool,
    line: Line<'a>,
) -> Taken<'a>
    requires line { IsLine line }
    requires quotes { quotes ≡ quote_count (map kind_of boxes.now) }
    ensures depth { result.depth ≡ (passed (map kind_of boxes.now) is_empty (line_of line.entry)).count }
    ensures rest { line_of result.line ≡ (passed (map kind_of boxes.now) is_empty (line_of line.entry)).rest }
    ensures held { IsLine result.line }
    ensures bound { result.depth ≤ length boxes.now }
{
    let mut rest = line;
    let mut left = quotes;
    for depth in 0..boxes.len() {
        if all_take(left, is_empty, rest) {
            return Taken {
                depth: boxes.len(),
                line: rest,
            };
        }
        let holds_nothing = holds_nothing(&boxes[depth + 1..], is_empty);
        match boxes[depth].rest_of(holds_nothing, rest) {
            Some(next) => rest = next,
            None => return Taken { depth, line: rest },
        }
        left -= boxes[depth].quotes();
    }
    Taken {
        depth: boxes.len(),
        line: rest,
    }
}
