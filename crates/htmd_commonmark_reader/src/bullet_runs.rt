//! Bullets one behind another in a line (CommonMark 0.31.2, 4.1 and 5.2): each could begin a thematic break, so the
//! line is looked through once for all of them.
ghost use Rattle.std.specs.Prelude.{◌≡◌, ◌<◌, ◌-◌, true};
ghost use Rattle.htmd_commonmark_reading.specs.BlockStarts as spec;
ghost use Rattle.htmd_commonmark_reading.specs.Lines.{marks};
ghost use Rattle.htmd_commonmark_reader.specs.BulletRuns.{other_behind, is_mixed, IsBehind};
ghost use Rattle.htmd_commonmark_reader.specs.LineStarts.{start_of, IsHeld};
ghost use Rattle.htmd_commonmark_reader.specs.LineViews.{line_of, IsLine};

use crate::block_starts::After;
use crate::characters::is_space_or_tab;
use crate::lines::Line;
use crate::starts::{LineStart, bullet_start, line_start};

/// How often a sign stands before the first other one, or 0 if there is none.
fn sign_run(sign: u8, bytes: &[u8]) -> usize
    ensures { 0 < result → other_behind sign result (marks bytes.now) ≡ true }
{
    let mut count: usize = 0;
    for byte in bytes {
        if is_space_or_tab(*byte) {
            continue;
        }
        if *byte != sign {
            return count;
        }
        count += 1;
    }
    0
}

/// How many bullets of one sign a text begins with that are no rule, or 0.
fn bullet_run(bytes: &[u8]) -> usize
    ensures { 0 < result → is_mixed result (marks bytes.now) ≡ true }
{
    match bytes {
        [b'-', ..] => sign_run(b'-', bytes),
        [b'*', ..] => sign_run(b'*', bytes),
        _ => 0,
    }
}

/// How many bullets of one sign a line begins with that are no rule, or 0, by how many the line around it does.
pub(crate) fn bullets_left(bullets: usize, line: Line<'_>) -> usize
    requires line { IsLine line }
    requires known { 1 < bullets → is_mixed (bullets - 1) (marks (line_of line).text) ≡ true }
    ensures { 0 < result → is_mixed result (marks (line_of line.entry).text) ≡ true }
{
    if bullets > 1 {
        return bullets - 1;
    }
    bullet_run(line.content.as_bytes())
}

/// What a line starts, which begins with so many bullets that are no rule.
pub(crate) fn nested_start(bullets: usize, line: Line<'_>) -> LineStart<'_>
    requires line { IsLine line }
    requires known { 0 < bullets → is_mixed bullets (marks (line_of line).text) ≡ true }
    ensures start { start_of (line_of line.entry) result ≡ spec.started spec.alone (line_of line.entry) }
    ensures held { IsHeld result }
    ensures behind { 0 < bullets → IsBehind (marks (line_of line.entry).text) result }
{
    if bullets > 0 {
        bullet_start(line)
    } else {
        line_start(After::Alone, line)
    }
}
