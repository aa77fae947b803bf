//! Files in memory.
ghost use Rattle.std.specs.Prelude.{◌≡◌, ◌≢◌, ◌↔◌, ℕ, List, [], ◌∷◌, map, Some, false, true, IfOk, OnOk, OnErr};
ghost use Rattle.std.specs.Prelude.{MatchOption};
ghost use Rattle.htmd_files.specs.Paths.{below};
ghost use Rattle.htmd_files.specs.WordViews.{texts_of};
ghost use Rattle.htmd_folders.specs.Changes.{held, nothing, moved, obstructed, placed, IsLeft, IsReplaceable};
ghost use Rattle.htmd_folders.specs.Listings.{times, IsFolder, IsListing};
ghost use Rattle.htmd_folders.specs.MemoryViews.{change_in, changes_in, held_in, name_of, Holds, IsFileBelow, Leaves};

use crate::faults::StoreFault;
use crate::listing::Listing;
use crate::store::Store;
use crate::streams::MemoryWriter;
use htmd_files::PageKind;
use htmd_streams::Input;
use std::alloc::{AllocError, Global};
use std::io::{Cursor, ErrorKind};

/// A change that was made to the files.
#[derive(Drop)]
pub(crate) enum MemoryChange {
    Placed {
        path: String,
        bytes: Vec<u8>,
    },
    Created {
        path: String,
    },
    Moved {
        from: String,
        to: String,
        bytes: Vec<u8>,
    },
    Removed {
        path: String,
    },
    Obstructed {
        path: String,
    },
}

/// A store in memory: it keeps all changes that were made to it, so what is under a name is known. A folder is there if
/// a file is below it.
#[derive(Drop)]
pub struct MemoryStore {
    alloc: Global,
    // The last one comes first.
    pub(crate) changes: Vec<MemoryChange>,
}

impl MemoryStore {
    /// A store without files.
    pub fn new(alloc: Global) -> MemoryStore
        ensures { map change_in result.changes.items ≡ [] }
    {
        MemoryStore {
            alloc,
            changes: Vec::new(alloc),
        }
    }

    /// Puts a file with these bytes under a name.
    pub fn place(&mut self, path: &str, bytes: &[u8]) -> Result<(), AllocError>
        ensures ok { OnOk result (map change_in self.new.changes.items
            ≡ placed path.now bytes.now ∷ map change_in self.old.changes.items) }
        ensures err { OnErr result (self.new.changes.items ≡ self.old.changes.items) }
    {
        let path = String::from_str(self.alloc, path)?;
        let bytes = bytes.to_vec(self.alloc)?;
        self.add(MemoryChange::Placed { path, bytes })
    }

    /// Puts what is no file under a name, such as a folder, a link or a device.
    pub fn obstruct(&mut self, path: &str) -> Result<(), AllocError>
        ensures ok { OnOk result (map change_in self.new.changes.items
            ≡ obstructed path.now ∷ map change_in self.old.changes.items) }
        ensures err { OnErr result (self.new.changes.items ≡ self.old.changes.items) }
    {
        let path = String::from_str(self.alloc, path)?;
        self.add(MemoryChange::Obstructed { path })
    }

    /// The bytes of the whole file under a name, if there is one.
    pub fn bytes(&self, path: &str) -> Option<&[u8]>
        ensures { Holds (held path.now (map change_in self.now.changes.items)) result }
    {
        match self.held(path) {
            Held::Whole(bytes) => Some(bytes),
            _ => None,
        }
    }

    /// Whether nothing is under a name.
    pub fn is_free(&self, path: &str) -> bool
        ensures { result ≡ true → held path.now (map change_in self.now.changes.items) ≡ nothing }
    {
        matches!(self.held(path), Held::Nothing)
    }

    // What is under a name.
    fn held(&self, path: &str) -> Held<'_>
        ensures { held path.now (map change_in self.now.changes.items) ≡ held_in result }
    {
        for change in &self.changes {
            if let Some(held) = change.leaves(path) {
                return held;
            }
        }
        Held::Nothing
    }

    /// How many changes were made.
    pub fn count(&self) -> usize {
        self.changes.len()
    }

    // Adds a change.
    fn add(&mut self, change: MemoryChange) -> Result<(), AllocError>
        ensures ok { OnOk result (map change_in self.new.changes.items
            ≡ change_in change ∷ map change_in self.old.changes.items) }
        ensures err { OnErr result (self.new.changes.items ≡ self.old.changes.items) }
    {
        self.changes.insert(0, change)?;
        Ok(())
    }
}

/// What is under a name.
#[derive(Clone, Copy)]
pub(crate) enum Held<'a> {
    Nothing,
    Unfinished,
    Whole(&'a [u8]),
    Obstacle,
}

impl MemoryChange {
    // What a change leaves under a name, if it changes that.
    fn leaves(&self, path: &str) -> Option<Held<'_>>
        ensures { Leaves (change_in self.now) path.now result }
    {
        match self {
            MemoryChange::Placed { path: other, bytes } if other.as_str() == path => {
                Some(Held::Whole(bytes))
            }
            MemoryChange::Created { path: other } if other.as_str() == path => {
                Some(Held::Unfinished)
            }
            MemoryChange::Moved { to, bytes, .. } if to.as_str() == path => {
                Some(Held::Whole(bytes))
            }
            MemoryChange::Moved { from, .. } if from.as_str() == path => Some(Held::Nothing),
            MemoryChange::Removed { path: other } if other.as_str() == path => Some(Held::Nothing),
            MemoryChange::Obstructed { path: other } if other.as_str() == path => {
                Some(Held::Obstacle)
            }
            _ => None,
        }
    }
}

impl Store for MemoryStore {
    type Reader = Input<Cursor<Vec<u8>>>;

    type Writer = MemoryWriter;

    ghost changes = { λ s. Some (map change_in s.changes.items) };

    fn open(&mut self, path: &str) -> Result<Input<Cursor<Vec<u8>>>, StoreFault> {
        let Some(bytes) = self.bytes(path) else {
            return Err(StoreFault::Failed(ErrorKind::NotFound));
        };
        let Ok(bytes) = bytes.to_vec(self.alloc) else {
            return Err(StoreFault::Failed(ErrorKind::OutOfMemory));
        };
        Ok(Input::new(Cursor::new(bytes)))
    }

    // No file has two names here.
    fn protect(&mut self, _path: &str) {}

    fn create(&mut self, path: &str) -> Result<MemoryWriter, StoreFault> {
        let Held::Nothing = self.held(path) else {
            return Err(StoreFault::Taken);
        };
        let path = String::from_str(self.alloc, path)?;
        self.add(MemoryChange::Created { path })?;
        Ok(MemoryWriter::new(self.alloc))
    }

    fn publish(&mut self, writer: MemoryWriter, from: &str, to: &str) -> Result<(), StoreFault> {
        let outcome = self.bring(writer.into_bytes(), from, to);
        if outcome.is_err() {
            self.take_away(from);
        }
        outcome
    }

    fn discard(&mut self, _writer: MemoryWriter, path: &str) {
        self.take_away(path);
    }

    fn make_folder(&mut self, _path: &str) -> Result<(), StoreFault> {
        Ok(())
    }

    fn is_folder(&mut self, path: &str) -> Result<bool, StoreFault> {
        Ok(self.has_below(path))
    }

    // Files have no times here.
    fn is_newer(&mut self, _path: &str, _other: &str) -> bool {
        false
    }

    fn list(
        &mut self,
        alloc: Global,
        folder: &str,
        _kind: PageKind,
        _all: bool,
    ) -> Result<Listing, StoreFault> {
        let Ok(files) = self.files_below(alloc, folder) else {
            return Err(StoreFault::Failed(ErrorKind::OutOfMemory));
        };
        let unread = Vec::new(alloc);
        Ok(Listing { files, unread })
    }
}

impl MemoryStore {
    // Brings a file with these bytes from the first name under the second.
    fn bring(&mut self, bytes: Vec<u8>, from: &str, to: &str) -> Result<(), StoreFault>
        ensures place { OnOk result (IsReplaceable (held to.now (map change_in self.old.changes.items))) }
        ensures ok { OnOk result (map change_in self.new.changes.items
            ≡ moved from.now to.now bytes.items ∷ map change_in self.old.changes.items) }
        ensures err { OnErr result (self.new.changes.items ≡ self.old.changes.items) }
    {
        match self.held(to) {
            Held::Nothing | Held::Whole(_) => {}
            Held::Unfinished | Held::Obstacle => return Err(StoreFault::NotAFile),
        }
        let from = String::from_str(self.alloc, from)?;
        let to = String::from_str(self.alloc, to)?;
        self.add(MemoryChange::Moved { from, to, bytes })?;
        Ok(())
    }

    // Takes the file under a name away, if there is memory for that.
    fn take_away(&mut self, path: &str)
        ensures { IsLeft path.now (Some (map change_in self.old.changes.items))
            (Some (map change_in self.new.changes.items)) }
    {
        if let Ok(path) = String::from_str(self.alloc, path) {
            let _ = self.add(MemoryChange::Removed { path });
        }
    }

    // Whether a whole file is below a folder.
    fn has_below(&self, folder: &str) -> bool
        ensures { (result ≡ true) ↔ IsFolder (changes_in self.now) folder.now }
    {
        for change in &self.changes {
            if self.file_below(change, folder).is_some() {
                return true;
            }
        }
        false
    }

    // The whole files below a folder, by their paths from it on.
    fn files_below(&self, alloc: Global, folder: &str) -> Result<Vec<String>, AllocError>
        ensures { IfOk result (λ files. IsListing (changes_in self.now) folder.now (texts_of files.items)) }
    {
        let mut files = Vec::new(alloc);
        for change in &self.changes {
            let Some(path) = self.file_below(change, folder) else {
                continue;
            };
            if is_among(&files, path) {
                continue;
            }
            files.push(String::from_str(alloc, path)?)?;
        }
        Ok(files)
    }

    // The path from a folder on of the file that has the name of a change, if that is a whole one below the folder.
    fn file_below<'a>(&self, change: &'a MemoryChange, folder: &str) -> Option<&'a str>
        ensures { IsFileBelow (changes_in self.now) folder.now (name_of (change_in change.now)) result }
    {
        let name = change.name();
        if self.bytes(name).is_none() {
            return None;
        }
        path_below(name, folder)
    }
}

// The path from a folder on of a name below it.
fn path_below<'a>(name: &'a str, folder: &str) -> Option<&'a str>
    ensures { MatchOption result ((path : List ℕ) → name.now ≢ below folder.now path)
        (λ path. name.now ≡ below folder.now path.now) }
{
    let rest = name.strip_prefix(folder)?;
    if folder.ends_with("/") {
        Some(rest)
    } else {
        rest.strip_prefix("/")
    }
}

fn is_among(files: &[String], path: &str) -> bool
    ensures no { result ≡ false → times path.now (texts_of files.now) ≡ 0 }
    ensures yes { result ≡ true → times path.now (texts_of files.now) ≢ 0 }
{
    for file in files {
        if file.as_str() == path {
            return true;
        }
    }
    false
}

impl MemoryChange {
    // The name that a change leaves something or nothing under.
    fn name(&self) -> &str
        ensures { result.now ≡ name_of (change_in self.now) }
    {
        match self {
            MemoryChange::Placed { path, .. } => path,
            MemoryChange::Created { path } => path,
            MemoryChange::Moved { to, .. } => to,
            MemoryChange::Removed { path } => path,
            MemoryChange::Obstructed { path } => path,
        }
    }
}
