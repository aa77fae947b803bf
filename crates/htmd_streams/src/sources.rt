//! Where a run reads from.
ghost use Rattle.std.specs.Prelude.{◌≡◌, ℕ, List, Bool, Option, None, false};
ghost use Rattle.std.specs.Io.{ReadsAtMost};
ghost use Rattle.std.specs.Io.KnownBytes.{ReadConsumes};
ghost use Rattle.htmd_streams.specs.Ends.{FailsAtErr};

use crate::failed::Failed;
use std::io::{ErrorKind, Read};

/// What a run reads from.
pub trait Source {
    // The bytes that reads will give from here on, if they are known.
    ghost remaining: { Self → Option (List ℕ) } = { λ _. None };

    // Whether a read has failed.
    ghost has_failed: { Self → Bool };

    /// Puts bytes at the front of the buffer and returns how many. No bytes in a buffer that isn't empty mean the end.
    /// `Err` means a failed read.
    fn read(&mut self, buffer: &mut [u8]) -> Result<usize, Failed>
        ensures bound { ReadsAtMost result buffer.new }
        ensures bytes { ReadConsumes (remaining self.old) (remaining self.new) result buffer.new }
        ensures failure { FailsAtErr result (has_failed self.old) (has_failed self.new) };

    /// Whether a read has failed so far.
    fn failed(&self) -> bool
        ensures { result ≡ has_failed self.now };
}

/// A std reader as a source. A read that is interrupted is tried again, and any other error is a
/// failure.
#[derive(Drop)]
pub struct Input<R> {
    reader: R,
    has_failed: bool,
}

impl<R: Read> Input<R> {
    /// A source of what the reader gives, which has not failed.
    pub fn new(reader: R) -> Input<R>
        ensures remaining { ⟦<Input<R> as Source>⟧.remaining result ≡ R.remaining reader }
        ensures unfailed { ⟦<Input<R> as Source>⟧.has_failed result ≡ false }
    {
        Input {
            reader,
            has_failed: false,
        }
    }
}

impl<R: Read> Source for Input<R> {
    ghost remaining = { λ s. R.remaining s.reader };

    ghost has_failed = { λ s. s.has_failed };

    fn read(&mut self, buffer: &mut [u8]) -> Result<usize, Failed> {
        let outcome = read_uninterrupted(&mut self.reader, buffer);
        if outcome.is_err() {
            self.has_failed = true;
        }
        outcome
    }

    fn failed(&self) -> bool {
        self.has_failed
    }
}

// One read, tried again as long as it is interrupted.
fn read_uninterrupted<R: Read>(reader: &mut R, buffer: &mut [u8]) -> Result<usize, Failed>
    ensures bound { ReadsAtMost result buffer.new }
    ensures bytes { ReadConsumes (R.remaining reader.old) (R.remaining reader.new) result buffer.new }
{
    for _ in 0..u64::MAX {
        match reader.read(buffer) {
            Ok(count) => return Ok(count),
            Err(error) if error.kind() == ErrorKind::Interrupted => {}
            Err(_) => return Err(Failed),
        }
    }
    Err(Failed)
}
