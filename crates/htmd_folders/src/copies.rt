//! Files that are copied as they are.
ghost use Rattle.std.specs.Prelude.{◌≡◌, Ok, OnOk};
ghost use Rattle.htmd_folders.specs.Pages.{Copies};

use crate::faults::CopyFault;
use htmd_streams::{Failed, Sink, Source, write_all};

/// How many bytes are read at once.
const BUFFER_SIZE: usize = 32768;

/// Writes all that a source gives to a sink.
pub(crate) fn copy<R: Source, W: Sink>(source: &mut R, sink: &mut W) -> Result<(), CopyFault>
    ensures { OnOk result (Copies (R.remaining source.old) (W.contents sink.old) (W.contents sink.new)) }
{
    let mut buffer = [0u8; BUFFER_SIZE];
    for _ in 0..u64::MAX {
        let Ok(count) = source.read(&mut buffer) else {
            return Err(CopyFault::Read);
        };
        if count == 0 {
            return written(sink.flush());
        }
        written(write_all(sink, &buffer[..count]))?;
    }
    Err(CopyFault::Read)
}

fn written(outcome: Result<(), Failed>) -> Result<(), CopyFault>
    ensures { OnOk result (outcome ≡ Ok tt) }
{
    match outcome {
        Ok(()) => Ok(()),
        Err(Failed) => Err(CopyFault::Write),
    }
}
