//! What is below a folder of the operating system.
use crate::faults::StoreFault;
use crate::listing::{Listing, Unread};
use htmd_files::PageKind;
use std::alloc::{AllocError, Global};
use std::io::{ErrorKind, Read};
use std::rt::Files;
use std::{fs, io};

/// How many bytes of the names of a folder are read at once.
const BUFFER_SIZE: usize = 32768;

/// The endings of the names of pages that are HTML.
const HTML_ENDINGS: &[&[u8]] = &[b".html", b".htm", b".xhtml"];

/// Those of pages that are Markdown.
const MARKDOWN_ENDINGS: &[&[u8]] = &[b".md", b".markdown"];

/// All files below a folder, by their paths from it on. Links to folders are not followed, and links to files count as
/// files. A name that isn't UTF-8 is told with `all`, and else if it may be that of a page of this kind or of a folder.
/// `Err` means that the folder itself can't be read, or out of memory.
pub(crate) fn list_below<R: Files>(
    alloc: Global,
    files: &R,
    folder: &str,
    kind: PageKind,
    all: bool,
) -> io::Result<Listing> {
    let mut walk = Walk {
        alloc,
        files,
        folder,
        kind,
        all,
        open: Vec::new(alloc),
        listing: Listing {
            files: Vec::new(alloc),
            unread: Vec::new(alloc),
        },
    };
    walk.read_folder("")?;
    for _ in 0..u64::MAX {
        let Some(below) = walk.open.pop() else {
            break;
        };
        walk.read_below(&below)?;
    }
    let Walk { listing, .. } = walk;
    Ok(listing)
}

#[derive(Drop)]
struct Walk<'a, 'b, R> {
    alloc: Global,
    files: &'a R,
    folder: &'b str,
    kind: PageKind,
    all: bool,
    // The folders that are still to be read, by their paths from the given one on.
    open: Vec<String>,
    listing: Listing,
}

#[derive(Clone, Copy, Drop)]
enum Kind {
    Folder,
    File,
    Other,
}

impl<R: Files> Walk<'_, '_, R> {
    // Adds what is in a folder below the given one, or that it can't be read. `Err` means out of memory.
    fn read_below(&mut self, below: &str) -> Result<(), AllocError> {
        match self.read_folder(below) {
            Ok(()) => Ok(()),
            Err(error) if error.kind() == ErrorKind::OutOfMemory => Err(AllocError),
            Err(error) => self.push_unread(below, error.kind()),
        }
    }

    fn push_unread(&mut self, path: &str, kind: ErrorKind) -> Result<(), AllocError> {
        self.listing.unread.push(Unread {
            path: String::from_str(self.alloc, path)?,
            fault: StoreFault::Failed(kind),
        })?;
        Ok(())
    }

    // Adds what is in a folder.
    fn read_folder(&mut self, below: &str) -> io::Result<()> {
        let path = joined(self.alloc, self.folder, below)?;
        let names = names_in(self.alloc, self.files, &path)?;
        for name in names.as_slice().split(|byte| *byte == 0) {
            self.add_name(below, name)?;
        }
        Ok(())
    }

    // Adds what has this name in a folder.
    fn add_name(&mut self, below: &str, name: &[u8]) -> Result<(), AllocError> {
        let Ok(text) = str::from_utf8(name) else {
            return self.add_unreadable(below, name);
        };
        if text.is_empty() || text == "." || text == ".." {
            return Ok(());
        }
        let path = joined(self.alloc, below, text)?;
        let kind = kind_of(self.files, &joined(self.alloc, self.folder, &path)?);
        match kind {
            Kind::Folder => self.open.push(path)?,
            Kind::File => self.listing.files.push(path)?,
            Kind::Other => {}
        }
        Ok(())
    }

    // The same for a name that isn't UTF-8.
    fn add_unreadable(&mut self, below: &str, name: &[u8]) -> Result<(), AllocError> {
        if !self.all && !may_be_page(self.kind, name) {
            return Ok(());
        }
        let shown = String::from_utf8_lossy(self.alloc, name)?;
        let path = joined(self.alloc, below, &shown)?;
        self.push_unread(&path, ErrorKind::InvalidFilename)
    }
}

// The names in a folder, with a NUL after each.
fn names_in<R: Files>(alloc: Global, files: &R, path: &str) -> io::Result<Vec<u8>> {
    let mut dir = files.open_dir(path)?;
    let mut names = Vec::new(alloc);
    let mut buffer = [0u8; BUFFER_SIZE];
    for _ in 0..u64::MAX {
        let count = dir.read(&mut buffer)?;
        if count == 0 {
            break;
        }
        names.extend_from_slice(&buffer[..count])?;
    }
    Ok(names)
}

// A link to a file is a file, and one to a folder is neither.
fn kind_of<R: Files>(files: &R, path: &str) -> Kind {
    let Ok(metadata) = fs::symlink_metadata(files, path) else {
        return Kind::Other;
    };
    if metadata.is_dir() {
        return Kind::Folder;
    }
    if metadata.is_file() {
        return Kind::File;
    }
    match fs::metadata(files, path) {
        Ok(metadata) if metadata.is_file() => Kind::File,
        _ => Kind::Other,
    }
}

// A name that ends as a page's does, or one without an ending, which may be a folder's.
fn may_be_page(kind: PageKind, name: &[u8]) -> bool {
    !name.contains(&b'.') || endings(kind).iter().any(|ending| ends_with(name, ending))
}

fn endings(kind: PageKind) -> &'static [&'static [u8]] {
    match kind {
        PageKind::Html => HTML_ENDINGS,
        PageKind::Markdown => MARKDOWN_ENDINGS,
    }
}

// In any case of ASCII letters.
fn ends_with(name: &[u8], ending: &[u8]) -> bool {
    if name.len() < ending.len() {
        return false;
    }
    name[name.len() - ending.len()..].eq_ignore_ascii_case(ending)
}

// A path, and what is below it.
fn joined(alloc: Global, path: &str, below: &str) -> Result<String, AllocError> {
    let mut joined = String::from_str(alloc, path)?;
    if !path.is_empty() && !below.is_empty() && !path.ends_with('/') {
        joined.push('/')?;
    }
    joined.push_str(below)?;
    Ok(joined)
}
