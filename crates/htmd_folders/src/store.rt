//! The files that pages are read from and written to.
ghost use Rattle.std.specs.Prelude.{◌≡◌, ◌⊎◌, List, [], ◌∷◌, Option, None, false, IfOk, IfErr, IfSome, OnOk, OnErr};
ghost use Rattle.htmd_files.specs.WordViews.{texts_of};
ghost use Rattle.htmd_folders.specs.Changes.{Change, created, Makes, IsFree, IsLeft, IsOpenTo, IsOpened, IsNew};
ghost use Rattle.htmd_folders.specs.Changes.{IsMoved};
ghost use Rattle.htmd_folders.specs.Listings.{is_file, Lists, TellsFolder};

use crate::faults::StoreFault;
use crate::listing::Listing;
use htmd_files::PageKind;
use htmd_streams::{Sink, Source};
use std::alloc::Global;
use std::io::ErrorKind;

/// Files under names, which are paths with `/` between their parts. A name is the bytes of its path: that two names may
/// stand for one file is unknown to the clauses.
pub trait Store {
    /// A file that is read.
    type Reader: Source + Drop;

    /// A file that is written. It can't be let go: `publish` or `discard` ends it.
    type Writer: Sink;

    // The changes that were made to the files so far, the last one first, if they are known.
    ghost changes: { Self → Option (List Change) } = { λ _. None };

    /// Opens the file under a name to be read.
    fn open(&mut self, path: &str) -> Result<Self::Reader, StoreFault>
        ensures bytes { IfOk result (λ reader. IsOpened (changes self.old) path.now (Self.Reader.remaining reader)) }
        ensures unfailed { IfOk result (λ reader. Self.Reader.has_failed reader ≡ false) }
        ensures missing { IfErr result (λ fault. IfSome (changes self.old) (λ past.
            (is_file past path.now ≡ false) ⊎ (fault ≡ StoreFault.Failed ErrorKind.OutOfMemory))) }
        ensures same { Makes (changes self.old) (changes self.new) [] };

    /// From now on the file under a name keeps its place, whatever other name leads to it: `publish` fails there. Out
    /// of memory, `publish` fails everywhere.
    fn protect(&mut self, path: &str)
        ensures same { changes self.new ≡ changes self.old };

    /// Makes an empty file under a name where nothing is, to be written. `StoreFault::Taken` means that something is
    /// there.
    fn create(&mut self, path: &str) -> Result<Self::Writer, StoreFault>
        ensures empty { IfOk result (λ writer. IsNew (changes self.old) (Self.Writer.contents writer)) }
        ensures unfailed { IfOk result (λ writer. Self.Writer.has_failed writer ≡ false) }
        ensures free { OnOk result (IsFree (changes self.old) path.now) }
        ensures ok { OnOk result (Makes (changes self.old) (changes self.new) (created path.now ∷ [])) }
        ensures err { OnErr result (Makes (changes self.old) (changes self.new) []) };

    /// Closes the file that was created under the first name, and brings it under the second name at once, where
    /// nothing is or another file, which it replaces. A link is no file, and isn't followed. If that fails, the file is
    /// taken away, if that can be done.
    fn publish(&mut self, writer: Self::Writer, from: &str, to: &str) -> Result<(), StoreFault>
        ensures place { OnOk result (IsOpenTo (changes self.old) to.now) }
        ensures ok { OnOk result (IsMoved (changes self.old) (changes self.new) from.now to.now
            (Self.Writer.contents writer)) }
        ensures err { OnErr result (IsLeft from.now (changes self.old) (changes self.new)) };

    /// Closes the file that was created under a name, and takes it away, if that can be done.
    fn discard(&mut self, writer: Self::Writer, path: &str)
        ensures { IsLeft path.now (changes self.old) (changes self.new) };

    /// Makes a folder and those above it, as far as they are missing.
    fn make_folder(&mut self, path: &str) -> Result<(), StoreFault>
        ensures { Makes (changes self.old) (changes self.new) [] };

    /// Whether there is a folder under a name. `Err` means that there is nothing, or that it can't be looked at.
    fn is_folder(&mut self, path: &str) -> Result<bool, StoreFault>
        ensures folder { TellsFolder (changes self.old) path.now result }
        ensures same { Makes (changes self.old) (changes self.new) [] };

    /// Whether the file under the first name was written later than the one under the second. What is no file was not,
    /// nor what can't be looked at; and two that bear one time neither.
    fn is_newer(&mut self, path: &str, other: &str) -> bool
        ensures same { Makes (changes self.old) (changes self.new) [] };

    /// All files below a folder. Links to folders are not followed. A name that isn't UTF-8 is told with `all`, and
    /// else if it may be that of a page of this kind or of a folder.
    fn list(
        &mut self,
        alloc: Global,
        folder: &str,
        kind: PageKind,
        all: bool,
    ) -> Result<Listing, StoreFault>
        ensures files { IfOk result (λ listing.
            Lists (changes self.old) folder.now (texts_of listing.files.items)) }
        ensures readable { IfOk result (λ listing.
            IfSome (changes self.old) (λ _. listing.unread.items ≡ [])) }
        ensures err { IfErr result (λ fault.
            IfSome (changes self.old) (λ _. fault ≡ StoreFault.Failed ErrorKind.OutOfMemory)) }
        ensures same { Makes (changes self.old) (changes self.new) [] };
}
