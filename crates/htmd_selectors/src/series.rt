//! Places in a row, as `2n+1` names them (CSS Syntax Level 3, 6).
ghost use Rattle.std.specs.Prelude.{◌≡◌, ◌+◌};
ghost use Rattle.htmd_selectors.specs.Series.{is_multiple, has};
ghost use Rattle.htmd_selectors.specs.SeriesReading as spec;

use crate::matching::is_same_name;

/// The places `offset`, `offset` + `step`, `offset` + 2 `step` and so on, which count from 1.
#[derive(Clone, Copy)]
pub(crate) struct Series {
    step: u64,
    /// The places fall, as those of `-n+3`.
    falls: bool,
    offset: u64,
    /// The offset is that many below 0.
    is_below: bool,
}

/// Every second place.
fn by_two(offset: u64) -> Series
    ensures { result ≡ spec.by_two offset }
{
    Series {
        step: 2,
        falls: false,
        offset,
        is_below: false,
    }
}

fn is_multiple(step: u128, number: u128) -> bool
    ensures { result ≡ is_multiple step number }
{
    if step == 0 {
        return number == 0;
    }
    number % step == 0
}

impl Series {
    /// Whether the place after so many others is one of these.
    pub(crate) fn has(self, before: usize) -> bool
        ensures { result ≡ has self (before + 1) }
    {
        let place = before as u128 + 1;
        let step = u128::from(self.step);
        let offset = u128::from(self.offset);
        match (self.falls, self.is_below) {
            (false, false) => offset <= place && is_multiple(step, place - offset),
            (false, true) => is_multiple(step, place + offset),
            (true, false) => place <= offset && is_multiple(step, offset - place),
            (true, true) => false,
        }
    }
}

/// Where in such a text the reader is.
#[derive(Clone, Copy)]
pub(crate) enum Stage {
    Begun,
    /// After the first sign.
    Signed,
    InFirst,
    AfterLetter,
    /// After the second sign.
    AfterSign,
    InSecond,
}

/// What was read of such a text: two numbers, and whether each is below 0.
#[derive(Clone, Copy)]
pub(crate) struct Notation {
    stage: Stage,
    falls: bool,
    first: u64,
    is_below: bool,
    second: u64,
}

const NOTHING_READ: Notation = Notation {
    stage: Stage::Begun,
    falls: false,
    first: 0,
    is_below: false,
    second: 0,
};

/// A greater number counts as this one.
const GREATEST: u64 = 0x7FFF_FFFF;

fn with_digit(number: u64, digit: u8) -> u64
    ensures { result ≡ spec.with_digit number digit }
{
    let value = u64::from(digit.saturating_sub(b'0'));
    number
        .saturating_mul(10)
        .saturating_add(value)
        .min(GREATEST)
}

fn is_letter(b: u8) -> bool
    ensures { result ≡ spec.is_letter b }
{
    b.to_ascii_lowercase() == b'n'
}

impl Notation {
    fn in_stage(self, stage: Stage) -> Notation
        ensures { result ≡ spec.in_stage stage self }
    {
        Notation { stage, ..self }
    }

    fn begin(self, b: u8) -> Option<Notation>
        ensures { result ≡ spec.begin b self }
    {
        match b {
            b'+' => Some(self.in_stage(Stage::Signed)),
            b'-' => {
                Some(Notation {
                    stage: Stage::Signed,
                    falls: true,
                    ..self
                })
            }
            _ => self.begin_first(b),
        }
    }

    fn begin_first(self, b: u8) -> Option<Notation>
        ensures { result ≡ spec.begin_first b self }
    {
        if is_letter(b) {
            return Some(Notation {
                stage: Stage::AfterLetter,
                first: 1,
                ..self
            });
        }
        self.extend_first(b)
    }

    fn extend_first(self, b: u8) -> Option<Notation>
        ensures { result ≡ spec.extend_first b self }
    {
        if !b.is_ascii_digit() {
            return None;
        }
        Some(Notation {
            stage: Stage::InFirst,
            first: with_digit(self.first, b),
            ..self
        })
    }

    fn in_first(self, b: u8) -> Option<Notation>
        ensures { result ≡ spec.in_first b self }
    {
        if is_letter(b) {
            return Some(self.in_stage(Stage::AfterLetter));
        }
        self.extend_first(b)
    }

    fn after_letter(self, b: u8) -> Option<Notation>
        ensures { result ≡ spec.after_letter b self }
    {
        match b {
            b'+' => Some(self.in_stage(Stage::AfterSign)),
            b'-' => {
                Some(Notation {
                    stage: Stage::AfterSign,
                    is_below: true,
                    ..self
                })
            }
            _ => {
                if b.is_ascii_whitespace() {
                    Some(self)
                } else {
                    None
                }
            }
        }
    }

    fn in_second(self, b: u8) -> Option<Notation>
        ensures { result ≡ spec.in_second b self }
    {
        if !b.is_ascii_digit() {
            return None;
        }
        Some(Notation {
            stage: Stage::InSecond,
            second: with_digit(self.second, b),
            ..self
        })
    }

    fn after_sign(self, b: u8) -> Option<Notation>
        ensures { result ≡ spec.after_sign b self }
    {
        if b.is_ascii_whitespace() {
            return Some(self);
        }
        self.in_second(b)
    }

    /// After one more byte; none if the text can't go on so.
    fn read(self, b: u8) -> Option<Notation>
        ensures { result ≡ spec.read_by self.stage b self }
    {
        match self.stage {
            Stage::Begun => self.begin(b),
            Stage::Signed => self.begin_first(b),
            Stage::InFirst => self.in_first(b),
            Stage::AfterLetter => self.after_letter(b),
            Stage::AfterSign => self.after_sign(b),
            Stage::InSecond => self.in_second(b),
        }
    }

    /// The places, if the text may end here.
    fn finish(self) -> Option<Series>
        ensures { result ≡ spec.finished self.stage self }
    {
        match self.stage {
            Stage::Begun | Stage::Signed | Stage::AfterSign => None,
            Stage::InFirst => {
                Some(Series {
                    step: 0,
                    falls: false,
                    offset: self.first,
                    is_below: self.falls,
                })
            }
            Stage::AfterLetter | Stage::InSecond => {
                Some(Series {
                    step: self.first,
                    falls: self.falls,
                    offset: self.second,
                    is_below: self.is_below,
                })
            }
        }
    }
}

fn read_next(b: u8, notation: Option<Notation>) -> Option<Notation>
    ensures { result ≡ spec.read_next b notation }
{
    match notation {
        Some(notation) => notation.read(b),
        None => None,
    }
}

fn numbered(text: &[u8]) -> Option<Series>
    ensures { result ≡ spec.numbered text.now }
{
    let mut notation = Some(NOTHING_READ);
    for b in text {
        notation = read_next(*b, notation);
    }
    match notation {
        Some(notation) => notation.finish(),
        None => None,
    }
}

fn named_series(text: &[u8]) -> Option<Series>
    ensures { result ≡ spec.named_series text.now }
{
    if is_same_name(text, b"odd") {
        return Some(by_two(1));
    }
    if is_same_name(text, b"even") {
        return Some(by_two(0));
    }
    numbered(text)
}

/// The places that a text names, if it does: `odd`, `even`, a number, or one before `n` and one after it, with white
/// space around it.
pub(crate) fn series_of(text: &[u8]) -> Option<Series>
    ensures { result ≡ spec.series_of text.now }
{
    named_series(text.trim_ascii())
}
