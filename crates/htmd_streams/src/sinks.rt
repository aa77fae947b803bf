//! Where a run writes to.
ghost use Rattle.std.specs.Prelude.{◌≡◌, ℕ, List, Bool, Option, None, false, ◌<◌, length, IfOk, OnOk, OnErr};
ghost use Rattle.std.specs.Io.{WritesAtMost};
ghost use Rattle.std.specs.Io.KnownBytes.{Appends, Keeps, WriteAppends};
ghost use Rattle.htmd_streams.specs.Ends.{AppendsSome, FailsAtErr};

use crate::failed::Failed;
use std::io::{ErrorKind, Write};

/// What a run writes to.
pub trait Sink {
    // The bytes that the sink holds, if they are known.
    ghost contents: { Self → Option (List ℕ) } = { λ _. None };

    // Whether a write or a flush has failed.
    ghost has_failed: { Self → Bool };

    /// Takes bytes from the front and returns how many: at least one if there are bytes. `Err` means a failed write.
    fn write(&mut self, bytes: &[u8]) -> Result<usize, Failed>
        ensures bound { WritesAtMost result bytes.now }
        ensures progress { IfOk result (λ count. 0 < length bytes.now → 0 < count) }
        ensures bytes { WriteAppends (contents self.old) (contents self.new) result bytes.now }
        ensures failure { FailsAtErr result (has_failed self.old) (has_failed self.new) };

    /// Passes on what the sink still holds back. `Err` means a failed flush.
    fn flush(&mut self) -> Result<(), Failed>
        ensures bytes { Keeps (contents self.old) (contents self.new) }
        ensures failure { FailsAtErr result (has_failed self.old) (has_failed self.new) };

    /// Whether a write or a flush has failed so far.
    fn failed(&self) -> bool
        ensures { result ≡ has_failed self.now };
}

/// A std writer as a sink. A write that is interrupted is tried again. Any other error is a failure,
/// and so is a write that takes no byte of a text that has some.
#[derive(Drop)]
pub struct Output<W> {
    writer: W,
    has_failed: bool,
}

impl<W: Write> Output<W> {
    /// A sink into the writer, which has not failed.
    pub fn new(writer: W) -> Output<W>
        ensures contents { ⟦<Output<W> as Sink>⟧.contents result ≡ W.contents writer }
        ensures unfailed { ⟦<Output<W> as Sink>⟧.has_failed result ≡ false }
    {
        Output {
            writer,
            has_failed: false,
        }
    }

    /// The writer, with what was written.
    pub fn into_inner(self) -> W
        ensures { W.contents result ≡ ⟦<Output<W> as Sink>⟧.contents self }
    {
        self.writer
    }
}

impl<W: Write> Sink for Output<W> {
    ghost contents = { λ s. W.contents s.writer };

    ghost has_failed = { λ s. s.has_failed };

    fn write(&mut self, bytes: &[u8]) -> Result<usize, Failed> {
        let outcome = write_uninterrupted(&mut self.writer, bytes);
        if outcome.is_err() {
            self.has_failed = true;
        }
        outcome
    }

    fn flush(&mut self) -> Result<(), Failed> {
        if self.writer.flush().is_err() {
            self.has_failed = true;
            return Err(Failed);
        }
        Ok(())
    }

    fn failed(&self) -> bool {
        self.has_failed
    }
}

// One write, tried again as long as it is interrupted.
fn write_uninterrupted<W: Write>(writer: &mut W, bytes: &[u8]) -> Result<usize, Failed>
    ensures bound { WritesAtMost result bytes.now }
    ensures progress { IfOk result (λ count. 0 < length bytes.now → 0 < count) }
    ensures bytes { WriteAppends (W.contents writer.old) (W.contents writer.new) result bytes.now }
{
    for _ in 0..u64::MAX {
        match writer.write(bytes) {
            Ok(0) if !bytes.is_empty() => return Err(Failed),
            Ok(count) => return Ok(count),
            Err(error) if error.kind() == ErrorKind::Interrupted => {}
            Err(_) => return Err(Failed),
        }
    }
    Err(Failed)
}

/// Writes all the bytes. `Err` means a failed write; the sink may then have taken a beginning of them.
pub fn write_all<W: Sink>(sink: &mut W, bytes: &[u8]) -> Result<(), Failed>
    ensures bytes { OnOk result (Appends (W.contents sink.old) (W.contents sink.new) bytes.now) }
    ensures part { OnErr result (AppendsSome (W.contents sink.old) (W.contents sink.new) bytes.now) }
    ensures failure { FailsAtErr result (W.has_failed sink.old) (W.has_failed sink.new) }
{
    let mut rest = bytes;
    while !rest.is_empty() {
        let count = sink.write(rest)?;
        rest = &rest[count..];
    }
    Ok(())
}
