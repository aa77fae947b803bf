//! Times beside the length of what was worked on.

use std::fmt;
use std::time::Duration;

/// How long a work took, and how many bytes it worked on.
#[derive(Drop)]
pub(crate) struct Speed {
    bytes: usize,
    microseconds: u64,
}

impl Speed {
    pub(crate) fn new(bytes: usize, took: Duration) -> Speed {
        Speed {
            bytes,
            microseconds: u64::try_from(took.as_micros()).unwrap_or(u64::MAX),
        }
    }
}

impl fmt::Display for Speed {
    fn fmt<W: fmt::Write>(&self, f: &mut fmt::Formatter<W>) -> fmt::Result {
        let bytes = (self.bytes as u128).max(1);
        let microseconds = u128::from(self.microseconds).max(1);
        let hundredths = microseconds * 100_000 / bytes;
        let (whole, part) = (hundredths / 100, hundredths % 100);
        let a_second = bytes / microseconds;
        write!(f, "{whole}.{part:02} ms/MB, {a_second} MB/s")
    }
}
