//! What a store has where the operands lead.
ghost use Rattle.std.specs.Prelude.{◌≡◌, ◌↔◌, ◌++◌, ◌∷◌, [], true, false, map, IfOk, OnOk, IfSome};
ghost use Rattle.std.specs.List.{list_any};
ghost use Rattle.htmd_files.specs.FilePlans.{path_of};
ghost use Rattle.htmd_files.specs.Names.{is_page as is_page_name};
ghost use Rattle.htmd_files.specs.NameViews.{kind_of};
ghost use Rattle.htmd_files.specs.PlanViews.{operand_of};
ghost use Rattle.htmd_files.specs.WordViews.{text_of, texts_of};
ghost use Rattle.htmd_folders.specs.Changes.{Makes};
ghost use Rattle.htmd_folders.specs.Listings.{IsFolder};
ghost use Rattle.htmd_folders.specs.Plans.{LeadTo, missed_in as missed_folder};
ghost use Rattle.htmd_folders.specs.PlanViews.{missed_in, Finds, FindsFiles};

use crate::faults::StoreFault;
use crate::listing::{Listing, Unread};
use crate::store::Store;
use htmd_files::{Operand, PageKind, is_page};
use std::alloc::{AllocError, Global};
use std::fmt;
use std::io::ErrorKind;

/// The operands, and of what nothing is converted.
#[derive(Drop)]
pub(crate) struct Found {
    pub(crate) operands: Vec<Operand>,
    pub(crate) missed: Vec<Missed>,
}

/// A path of which nothing is converted, and why.
#[derive(Drop)]
pub struct Missed {
    pub path: String,
    pub cause: Cause,
}

/// Why nothing is converted of a path.
#[derive(Drop)]
pub enum Cause {
    /// It can't be read.
    Unread(StoreFault),
    /// It is a folder without a page of this kind.
    NoPage(PageKind),
}

impl fmt::Display for Cause {
    fn fmt<W: fmt::Write>(&self, f: &mut fmt::Formatter<W>) -> fmt::Result {
        match self {
            Cause::Unread(fault) => write!(f, "{fault}"),
            Cause::NoPage(PageKind::Html) => {
                f.write_str("no file below it ends in .html, .htm or .xhtml")
            }
            Cause::NoPage(PageKind::Markdown) => {
                f.write_str("no file below it ends in .md or .markdown")
            }
        }
    }
}

/// Looks for operands in a store. What is below folders is listed only if requested, and files that are no pages and
/// can't be read are told only with `copies`.
pub(crate) fn find_operands<S: Store>(
    alloc: Global,
    store: &mut S,
    names: &[&str],
    kind: PageKind,
    lists: bool,
    copies: bool,
) -> Result<Found, AllocError>
    ensures names { IfOk result (λ found. map path_of (map operand_of found.operands.items)
        ≡ map text_of names.now) }
    ensures found { IfOk result (λ found. IfSome (S.changes store.old) (λ past. LeadTo past (kind_of kind) lists
        (map text_of names.now) (map operand_of found.operands.items) (missed_in found.missed.items))) }
    ensures same { Makes (S.changes store.old) (S.changes store.new) [] }
{
    let mut operands = Vec::new(alloc);
    let mut missed = Vec::new(alloc);
    for name in names {
        let operand = find_operand(alloc, store, name, kind, lists, copies, &mut missed)?;
        operands.push(operand)?;
    }
    Ok(Found { operands, missed })
}

// What a name leads to; the name is missed if nothing can be converted of it.
fn find_operand<S: Store>(
    alloc: Global,
    store: &mut S,
    name: &str,
    kind: PageKind,
    lists: bool,
    copies: bool,
    missed: &mut Vec<Missed>,
) -> Result<Operand, AllocError>
    ensures name { IfOk result (λ operand. path_of (operand_of operand) ≡ name.now) }
    ensures found { IfOk result (λ operand. Finds (S.changes store.old) (kind_of kind) lists name.now operand
        (missed_in missed.old.items) (missed_in missed.new.items)) }
    ensures same { Makes (S.changes store.old) (S.changes store.new) [] }
{
    if name == "-" {
        return Ok(Operand::StandardInput);
    }
    if is_folder(store, name) {
        let files = files_of(alloc, store, name, kind, lists, copies, missed)?;
        let path = String::from_str(alloc, name)?;
        return Ok(Operand::Folder { path, files });
    }
    let path = String::from_str(alloc, name)?;
    Ok(Operand::File(path))
}

// The files below a folder; none if they aren't to be listed.
fn files_of<S: Store>(
    alloc: Global,
    store: &mut S,
    name: &str,
    kind: PageKind,
    lists: bool,
    copies: bool,
    missed: &mut Vec<Missed>,
) -> Result<Vec<String>, AllocError>
    ensures files { IfOk result (λ files. lists ≡ true → FindsFiles (S.changes store.old) (kind_of kind) name.now
        (texts_of files.items) (missed_in missed.old.items) (missed_in missed.new.items)) }
    ensures unlisted { OnOk result (lists ≡ false → missed.new.items ≡ missed.old.items) }
    ensures same { Makes (S.changes store.old) (S.changes store.new) [] }
{
    if !lists {
        return Ok(Vec::new(alloc));
    }
    files_below(alloc, store, name, kind, copies, missed)
}

/// Whether a folder is under a name. What can't be looked at is none.
pub(crate) fn is_folder<S: Store>(store: &mut S, name: &str) -> bool
    ensures folder { IfSome (S.changes store.old) (λ past. (result ≡ true) ↔ IsFolder past name.now) }
    ensures same { Makes (S.changes store.old) (S.changes store.new) [] }
{
    store.is_folder(name).unwrap_or(false)
}

// The files below a folder; none, and the folder is missed, if it can't be read.
fn files_below<S: Store>(
    alloc: Global,
    store: &mut S,
    name: &str,
    kind: PageKind,
    copies: bool,
    missed: &mut Vec<Missed>,
) -> Result<Vec<String>, AllocError>
    ensures files { IfOk result (λ files. FindsFiles (S.changes store.old) (kind_of kind) name.now
        (texts_of files.items) (missed_in missed.old.items) (missed_in missed.new.items)) }
    ensures same { Makes (S.changes store.old) (S.changes store.new) [] }
{
    match store.list(alloc, name, kind, copies) {
        Ok(listing) => take_listing(alloc, name, kind, listing, missed),
        Err(StoreFault::Failed(ErrorKind::OutOfMemory)) => Err(AllocError),
        Err(fault) => {
            push_missed(alloc, missed, name, Cause::Unread(fault))?;
            Ok(Vec::new(alloc))
        }
    }
}

// Gives the files. The folder is missed if it has no page, and so is what can't be read.
fn take_listing(
    alloc: Global,
    name: &str,
    kind: PageKind,
    listing: Listing,
    missed: &mut Vec<Missed>,
) -> Result<Vec<String>, AllocError>
    ensures files { IfOk result (λ files. files.items ≡ listing.files.items) }
    ensures missed { OnOk result (listing.unread.items ≡ [] → missed_in missed.new.items
        ≡ missed_in missed.old.items ++ missed_folder (kind_of kind) name.now (texts_of listing.files.items)) }
{
    let Listing { files, unread } = listing;
    if !unread.is_empty() {
        push_unread(alloc, missed, name, unread)?;
    } else if !holds_page(kind, &files) {
        push_missed(alloc, missed, name, Cause::NoPage(kind))?;
    }
    Ok(files)
}

fn holds_page(kind: PageKind, files: &[String]) -> bool
    ensures { result ≡ list_any (is_page_name (kind_of kind)) (texts_of files.now) }
{
    for file in files {
        if is_page(kind, file.as_str()) {
            return true;
        }
    }
    false
}

fn push_missed(
    alloc: Global,
    missed: &mut Vec<Missed>,
    path: &str,
    cause: Cause,
) -> Result<(), AllocError>
    ensures { OnOk result (missed_in missed.new.items ≡ missed_in missed.old.items ++ path.now ∷ []) }
{
    let path = String::from_str(alloc, path)?;
    missed.push(Missed { path, cause })?;
    Ok(())
}

// Adds what can't be read, with the folder's name before its path.
fn push_unread(
    alloc: Global,
    missed: &mut Vec<Missed>,
    name: &str,
    unread: Vec<Unread>,
) -> Result<(), AllocError> {
    for item in unread {
        let Unread { path, fault } = item;
        let mut whole = String::from_str(alloc, name)?;
        if !name.ends_with('/') {
            whole.push('/')?;
        }
        whole.push_str(&path)?;
        missed.push(Missed {
            path: whole,
            cause: Cause::Unread(fault),
        })?;
    }
    Ok(())
}
