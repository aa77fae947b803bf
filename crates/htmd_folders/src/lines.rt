//! Lines on the sink for errors.
ghost use Rattle.std.specs.Prelude.{◌≡◌};

use htmd_streams::{Sink, write_all};
use std::fmt;
use std::fmt::Write;

/// A sink as a formatter's writer.
#[derive(Drop)]
pub struct Lines<'a, E> {
    pub sink: &'a mut E,
}

impl<E: Sink> Write for Lines<'_, E> {
    ghost write_str_gives = { λ s _ t. t.sink.ghost_name ≡ s.sink.ghost_name };

    fn write_str(&mut self, text: &str) -> fmt::Result {
        match write_all(self.sink, text.as_bytes()) {
            Ok(()) => Ok(()),
            Err(_) => Err(fmt::Error),
        }
    }
}

/// A name as it is shown in a line: U+FFFD stands for each control.
#[derive(Clone, Copy, Drop)]
pub struct ShownName<'a>(pub &'a str);

impl fmt::Display for ShownName<'_> {
    fn fmt<W: fmt::Write>(&self, f: &mut fmt::Formatter<W>) -> fmt::Result {
        for character in self.0.chars() {
            f.write_char(if character.is_control() {
                '\u{fffd}'
            } else {
                character
            })?;
        }
        Ok(())
    }
}

/// A number with a comma at each thousand.
#[derive(Clone, Copy, Drop)]
pub(crate) struct Grouped(pub(crate) u64);

impl fmt::Display for Grouped {
    fn fmt<W: fmt::Write>(&self, f: &mut fmt::Formatter<W>) -> fmt::Result {
        let mut unit = 1_000_000_000_000_000_000;
        let mut is_begun = false;
        while unit > 0 {
            let group = self.0 / unit % 1000;
            if is_begun {
                write!(f, ",{group:03}")?;
            } else if group > 0 || unit == 1 {
                write!(f, "{group}")?;
                is_begun = true;
            }
            unit /= 1000;
        }
        Ok(())
    }
}
