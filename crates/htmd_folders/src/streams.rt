//! A file of a store in memory, as it is written.
ghost use Rattle.std.specs.Prelude.{◌≡◌, [], Some, false};

use htmd_streams::{Failed, Sink};
use std::alloc::Global;

/// A file in memory that is written. A write fails if memory runs out.
#[derive(Drop)]
pub struct MemoryWriter {
    bytes: Vec<u8>,
    has_failed: bool,
}

impl MemoryWriter {
    /// An empty file.
    pub fn new(alloc: Global) -> MemoryWriter
        ensures contents { ⟦<MemoryWriter as Sink>⟧.contents result ≡ Some [] }
        ensures unfailed { ⟦<MemoryWriter as Sink>⟧.has_failed result ≡ false }
    {
        MemoryWriter {
            bytes: Vec::new(alloc),
            has_failed: false,
        }
    }

    /// What was written.
    pub fn into_bytes(self) -> Vec<u8>
        ensures { ⟦<MemoryWriter as Sink>⟧.contents self ≡ Some result.items }
    {
        self.bytes
    }
}

impl Sink for MemoryWriter {
    ghost contents = { λ s. Some s.bytes.items };

    ghost has_failed = { λ s. s.has_failed };

    fn write(&mut self, bytes: &[u8]) -> Result<usize, Failed> {
        if self.bytes.extend_from_slice(bytes).is_err() {
            self.has_failed = true;
            return Err(Failed);
        }
        Ok(bytes.len())
    }

    fn flush(&mut self) -> Result<(), Failed> {
        Ok(())
    }

    fn failed(&self) -> bool {
        self.has_failed
    }
}
