//! The files of the operating system.
use crate::faults::StoreFault;
use crate::listing::Listing;
use crate::store::Store;
use crate::walk::list_below;
use htmd_files::PageKind;
use htmd_streams::{Input, Output};
use std::alloc::Global;
use std::collections::BTreeSet;
use std::fs::{File, Metadata, OpenFile};
use std::io::{ErrorKind, Read};
use std::os::unix::fs::MetadataExt;
use std::rt::Files;
use std::{fs, io};

/// The name of the standard input.
const STANDARD_INPUT: &str = "-";

/// The bits of a device's number that tell its driver.
const DRIVER: u64 = 0xffff_f000_000f_ff00;

/// Where the standard input is among the files.
const STANDARD_INPUT_PATH: &str = "/dev/stdin";

/// The files that a runtime reaches, and as the file `-` the standard input. Nothing is known of what they hold.
#[derive(Drop)]
pub struct HostStore<'a, R> {
    runtime: &'a R,
    protected: BTreeSet<FileNumber>,
    // Memory ran out before a file was protected.
    lacks_protected: bool,
}

/// A file, by whatever name: the device that it is on, and its number there.
#[derive(Clone, Copy, PartialEq, Eq, PartialOrd, Ord, Drop)]
struct FileNumber {
    device: u64,
    number: u64,
}

/// A file that is read, or the standard input.
#[derive(Drop)]
pub enum HostReader<F, I> {
    File(F),
    Standard(I),
}

impl<F: Read, I: Read> Read for HostReader<F, I> {
    fn read(&mut self, buf: &mut [u8]) -> io::Result<usize> {
        match self {
            HostReader::File(file) => file.read(buf),
            HostReader::Standard(input) => input.read(buf),
        }
    }
}

impl<'a, R: Files> HostStore<'a, R> {
    /// The files of a runtime.
    pub fn new(alloc: Global, runtime: &'a R) -> HostStore<'a, R> {
        HostStore {
            runtime,
            protected: BTreeSet::new(alloc),
            lacks_protected: false,
        }
    }

    fn add_protected(&mut self, file: FileNumber) {
        if self.protected.insert(file).is_err() {
            self.lacks_protected = true;
        }
    }

    // Passes if a file may come under a name: nothing is there, or a file that isn't protected.
    fn check_target(&self, path: &str) -> Result<(), StoreFault> {
        if self.lacks_protected {
            return Err(StoreFault::Failed(ErrorKind::OutOfMemory));
        }
        let metadata = match fs::symlink_metadata(self.runtime, path) {
            Ok(metadata) => metadata,
            Err(error) if error.kind() == ErrorKind::NotFound => return Ok(()),
            Err(error) => return Err(fault_of(&error)),
        };
        if metadata.is_symlink() {
            Err(StoreFault::Link)
        } else if !metadata.is_file() {
            Err(StoreFault::NotAFile)
        } else if self.protected.contains(&number_of(&metadata)) {
            Err(StoreFault::Protected)
        } else {
            Ok(())
        }
    }
}

impl<R: Files + std::io::Input> Store for HostStore<'_, R> {
    type Reader = Input<HostReader<R::File, R::Reader>>;

    type Writer = Output<R::File>;

    fn open(&mut self, path: &str) -> Result<Self::Reader, StoreFault> {
        if path == STANDARD_INPUT {
            return Ok(Input::new(HostReader::Standard(self.runtime.reader())));
        }
        match fs::open(self.runtime, path) {
            Ok(file) => Ok(Input::new(HostReader::File(file))),
            Err(error) => Err(fault_of(&error)),
        }
    }

    fn protect(&mut self, path: &str) {
        let path = if path == STANDARD_INPUT {
            STANDARD_INPUT_PATH
        } else {
            path
        };
        if let Ok(metadata) = fs::metadata(self.runtime, path) {
            self.add_protected(number_of(&metadata));
        }
    }

    fn create(&mut self, path: &str) -> Result<Self::Writer, StoreFault> {
        match File::create_new(self.runtime, path) {
            Ok(file) => Ok(Output::new(file)),
            Err(error) if error.kind() == ErrorKind::AlreadyExists => Err(StoreFault::Taken),
            Err(error) => Err(fault_of(&error)),
        }
    }

    fn publish(&mut self, writer: Self::Writer, from: &str, to: &str) -> Result<(), StoreFault> {
        let outcome = self.bring(writer.into_inner(), from, to);
        if outcome.is_err() {
            let _ = fs::remove_file(self.runtime, from);
        }
        outcome
    }

    fn discard(&mut self, writer: Self::Writer, path: &str) {
        drop(writer);
        let _ = fs::remove_file(self.runtime, path);
    }

    fn make_folder(&mut self, path: &str) -> Result<(), StoreFault> {
        done(fs::create_dir_all(self.runtime, path))
    }

    fn is_folder(&mut self, path: &str) -> Result<bool, StoreFault> {
        match fs::metadata(self.runtime, path) {
            Ok(metadata) => Ok(metadata.is_dir()),
            Err(error) => Err(fault_of(&error)),
        }
    }

    fn is_newer(&mut self, path: &str, other: &str) -> bool {
        if other == STANDARD_INPUT {
            return false;
        }
        let (Ok(file), Ok(other)) = (
            fs::symlink_metadata(self.runtime, path),
            fs::metadata(self.runtime, other),
        ) else {
            return false;
        };
        file.is_file() && written_at(&file) > written_at(&other)
    }

    fn list(
        &mut self,
        alloc: Global,
        folder: &str,
        kind: PageKind,
        all: bool,
    ) -> Result<Listing, StoreFault> {
        match list_below(alloc, self.runtime, folder, kind, all) {
            Ok(listing) => Ok(listing),
            Err(error) => Err(fault_of(&error)),
        }
    }
}

impl<R: Files> HostStore<'_, R> {
    // Closes a file that was written, and brings it from the first name under the second. What is under that may become
    // another thing after the look at it; even then a renaming replaces it, and follows no link.
    fn bring(&mut self, file: R::File, from: &str, to: &str) -> Result<(), StoreFault> {
        let written = match settled(&file) {
            Ok(metadata) => number_of(&metadata),
            Err(error) => return Err(fault_of(&error)),
        };
        drop(file);
        self.check_target(to)?;
        done(fs::rename(self.runtime, from, to))?;
        self.add_protected(written);
        Ok(())
    }
}

fn number_of(metadata: &Metadata) -> FileNumber {
    FileNumber {
        device: metadata.dev(),
        number: metadata.ino(),
    }
}

// The seconds and nanoseconds at which a file was last written.
fn written_at(metadata: &Metadata) -> (i64, i64) {
    (metadata.mtime(), metadata.mtime_nsec())
}

// What is known of a file that is to be closed. Network file systems may say only at its closing that a write failed,
// and std doesn't pass that on; so there the file is synced, which says it before.
fn settled<F: OpenFile>(file: &F) -> io::Result<Metadata> {
    let metadata = file.metadata()?;
    if !is_disk(metadata.dev()) {
        file.sync_data()?;
    }
    Ok(metadata)
}

// Whether a device has a driver, which is its number but for the bits of the disk: those of network file systems have
// none.
fn is_disk(device: u64) -> bool {
    device & DRIVER != 0
}

fn fault_of(error: &io::Error) -> StoreFault {
    StoreFault::Failed(error.kind())
}

fn done(outcome: io::Result<()>) -> Result<(), StoreFault> {
    match outcome {
        Ok(()) => Ok(()),
        Err(error) => Err(fault_of(&error)),
    }
}
