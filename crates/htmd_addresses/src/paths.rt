//! Paths of files: the folder that a path leads to, and the name after it.
ghost use Rattle.std.specs.Prelude.{◌≡◌, ◌≤◌, ◌==◌, not, length, IfOk, OnOk};
ghost use Rattle.std.specs.List.{common_prefix_len, suffix_len};
ghost use Rattle.std.specs.Str.{bytes_eq};
ghost use Rattle.htmd_lexical.specs.Characters.{slash};
ghost use Rattle.htmd_addresses.specs.Paths as spec;
ghost use Rattle.htmd_addresses.specs.PageViews.{names_of};

use std::alloc::{AllocError, Global};

/// Goes up from a folder.
fn go_up(folder: &mut Vec<&[u8]>) -> Result<(), AllocError>
    ensures { OnOk result (names_of folder.new.items ≡ spec.up (names_of folder.old.items)) }
{
    let Some(name) = folder.last() else {
        folder.push(b"..")?;
        return Ok(());
    };
    if name.is_empty() {
        return Ok(());
    }
    if *name == b"..".as_slice() {
        folder.push(b"..")?;
        return Ok(());
    }
    folder.pop();
    Ok(())
}

/// Goes by one name further.
fn enter<'a>(folder: &mut Vec<&'a [u8]>, name: &'a [u8]) -> Result<(), AllocError>
    ensures { OnOk result (names_of folder.new.items ≡ spec.enter (names_of folder.old.items) name.now) }
{
    if name.is_empty() || name == b".".as_slice() {
        return Ok(());
    }
    if name == b"..".as_slice() {
        return go_up(folder);
    }
    folder.push(name)?;
    Ok(())
}

/// How long the name after the last slash of a path is.
fn name_len(path: &[u8]) -> usize
    ensures bound { result ≤ length path.now }
    ensures value { result ≡ spec.name_len path.now }
{
    let mut end = path.len();
    while end > 0 && path[end - 1] != b'/' {
        end -= 1;
    }
    path.len() - end
}

/// The name after the last slash of a path.
pub(crate) fn name_of(path: &[u8]) -> &[u8]
    ensures { result.now ≡ spec.name_of path.now }
{
    &path[path.len() - name_len(path)..]
}

/// Goes from a folder to that of a path.
fn enter_folder<'a>(folder: &mut Vec<&'a [u8]>, path: &'a [u8]) -> Result<(), AllocError>
    ensures { OnOk result (names_of folder.new.items ≡ spec.folder_in (names_of folder.old.items) path.now) }
{
    let before = &path[..path.len() - name_len(path)];
    for name in before.split(|b| *b == b'/') {
        enter(folder, name)?;
    }
    Ok(())
}

/// The folder of a path.
pub(crate) fn folder_of(alloc: Global, path: &[u8]) -> Result<Vec<&[u8]>, AllocError>
    ensures { IfOk result (λ folder. names_of folder.items ≡ spec.folder_of path.now) }
{
    let mut folder = Vec::new(alloc);
    if path.first() == Some(&b'/') {
        folder.push(&path[..0])?;
    }
    enter_folder(&mut folder, path)?;
    Ok(folder)
}

/// The path of a name in a folder.
pub(crate) fn path_of(alloc: Global, folder: &[&[u8]], name: &[u8]) -> Result<Vec<u8>, AllocError>
    ensures { IfOk result (λ path. path.items ≡ spec.path_of (names_of folder.now) name.now) }
{
    let mut path = Vec::new(alloc);
    for above in folder {
        path.extend_from_slice(above)?;
        path.push(b'/')?;
    }
    path.extend_from_slice(name)?;
    Ok(path)
}

/// Whether a name leads to a folder: none after a slash, `.` or `..`.
fn is_of_folder(name: &[u8]) -> bool
    ensures { result ≡ spec.is_of_folder name.now }
{
    name.is_empty() || name == b".".as_slice() || name == b"..".as_slice()
}

/// Goes from a folder to that of the page with a name in it.
fn enter_named<'a>(folder: &mut Vec<&'a [u8]>, name: &'a [u8]) -> Result<(), AllocError>
    ensures { OnOk result (names_of folder.new.items ≡ spec.folder_named (names_of folder.old.items) name.now) }
{
    if is_of_folder(name) {
        return enter(folder, name);
    }
    Ok(())
}

/// The name of the page that a name leads to; that of a folder is its index.
fn page_name(name: &[u8]) -> &[u8]
    ensures { result.now ≡ spec.page_name name.now }
{
    if is_of_folder(name) {
        return b"index.html";
    }
    name
}

/// Goes from a folder to that of the page that a path leads to.
fn enter_page_folder<'a>(folder: &mut Vec<&'a [u8]>, path: &'a [u8]) -> Result<(), AllocError>
    ensures { OnOk result (names_of folder.new.items ≡ spec.page_folder (names_of folder.old.items) path.now) }
{
    enter_folder(folder, path)?;
    enter_named(folder, name_of(path))
}

/// The folder of the page that a path leads to which is read in a folder.
pub(crate) fn page_folder<'x>(
    alloc: Global,
    folder: &[&'x [u8]],
    path: &'x [u8],
) -> Result<Vec<&'x [u8]>, AllocError>
    ensures { IfOk result (λ found. names_of found.items ≡ spec.page_folder (names_of folder.now) path.now) }
{
    let mut names = Vec::from_slice(alloc, folder)?;
    enter_page_folder(&mut names, path)?;
    Ok(names)
}

/// The folder of the page that a path leads to which is read at the root of a site; nothing is above that.
pub(crate) fn page_folder_below<'x>(
    alloc: Global,
    root: &[&'x [u8]],
    path: &'x [u8],
) -> Result<Vec<&'x [u8]>, AllocError>
    ensures { IfOk result (λ found. names_of found.items
        ≡ spec.page_folder_below (names_of root.now) path.now) }
{
    let mut below = Vec::new(alloc);
    below.push(&path[..0])?;
    enter_page_folder(&mut below, path)?;
    let mut names = Vec::from_slice(alloc, root)?;
    if let [_, below @ ..] = below.as_slice() {
        names.extend_from_slice(below)?;
    }
    Ok(names)
}

/// The path of the page that a path leads to, whose folder this is.
pub(crate) fn page_at(alloc: Global, path: &[u8], folder: &[&[u8]]) -> Result<Vec<u8>, AllocError>
    ensures { IfOk result (λ page. page.items ≡ spec.page_at path.now (names_of folder.now)) }
{
    path_of(alloc, folder, page_name(name_of(path)))
}

/// Goes up from a folder by as many names as a folder below it has.
#[tactic(auto, using(crate::proofs::PathsLemmas::above_taken))]
pub(crate) fn go_above(below: &[&[u8]], folder: &mut Vec<&[u8]>)
    ensures { names_of folder.new.items ≡ spec.above (names_of below.now) (names_of folder.old.items) }
{
    folder.truncate(folder.len().saturating_sub(below.len()));
}

/// How many names two folders begin with alike.
pub(crate) fn same_names(from: &[&[u8]], to: &[&[u8]]) -> usize
    ensures within_from { result ≤ length from.now }
    ensures within_to { result ≤ length to.now }
    ensures value { result ≡ common_prefix_len bytes_eq (names_of from.now) (names_of to.now) }
{
    let mut same = 0;
    while same < from.len() && same < to.len() && from[same] == to[same] {
        same += 1;
    }
    same
}
