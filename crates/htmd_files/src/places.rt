//! Paths by their names: which two are the same, what is below a folder, and how one file leads to another.
ghost use Rattle.std.specs.Prelude.{◌≡◌, ◌≤◌, ◌++◌, length, true, option_copied, option_map, IfOk, OnOk, string_bytes};
ghost use Rattle.std.specs.List.{common_prefix_len};
ghost use Rattle.std.specs.Str.{bytes_eq};
ghost use Rattle.htmd_files.specs.Paths as spec;
ghost use Rattle.htmd_files.specs.PlaceViews.{texts, place_in, names_back};
ghost use Rattle.htmd_files.specs.Relative as relative_spec;

use std::alloc::{AllocError, Global};

/// A path without the names that lead nowhere: no empty one, no `.`, and `..` only at the beginning of a path that
/// isn't absolute.
#[derive(Drop)]
pub(crate) struct Place<'a> {
    pub(crate) is_absolute: bool,
    pub(crate) names: Vec<&'a str>,
}

impl<'a> Place<'a> {
    /// One level up, by this name.
    fn leave(&mut self, name: &'a str) -> Result<(), AllocError>
        requires { spec.is_up name.now ≡ true }
        ensures ok { OnOk result (names_back self.new ≡ spec.above self.old.is_absolute (names_back self.old)) }
        ensures start { self.new.is_absolute ≡ self.old.is_absolute }
    {
        match self.names.as_slice().last() {
            Some(&last) => {
                if last == ".." {
                    self.names.push(name)?;
                } else {
                    let _ = self.names.pop();
                }
            }
            None => {
                if !self.is_absolute {
                    self.names.push(name)?;
                }
            }
        }
        Ok(())
    }

    /// One name further.
    fn enter(&mut self, name: &'a str) -> Result<(), AllocError>
        ensures ok { OnOk result (names_back self.new
            ≡ spec.further self.old.is_absolute (names_back self.old) name.now) }
        ensures start { self.new.is_absolute ≡ self.old.is_absolute }
    {
        if name.is_empty() || name == "." {
            return Ok(());
        }
        if name == ".." {
            return self.leave(name);
        }
        self.names.push(name)?;
        Ok(())
    }

    /// The place as a path.
    fn path(&self, alloc: Global) -> Result<String, AllocError>
        ensures { IfOk result (λ path. string_bytes path ≡ spec.path_to (place_in self.now)) }
    {
        let mut path = String::new(alloc);
        if self.is_absolute {
            path.push('/')?;
        }
        push_joined(&mut path, self.names.as_slice())?;
        Ok(path)
    }

    /// Whether it is below a folder.
    pub(crate) fn is_below(&self, folder: &Place<'_>) -> bool
        ensures { result ≡ spec.is_below (place_in folder.now) (place_in self.now) }
    {
        if self.is_absolute != folder.is_absolute {
            return false;
        }
        match self.names.as_slice().strip_prefix(folder.names.as_slice()) {
            Some(names) => lead_down(names),
            None => false,
        }
    }

    /// The last name, if it is that of a file or a folder.
    pub(crate) fn file_name(&self) -> Option<&'a str>
        ensures { option_copied result ≡ spec.file_name (place_in self.now) }
    {
        match self.names.as_slice().last() {
            Some(&name) => { if name == ".." { None } else { Some(name) } }
            None => None,
        }
    }
}

/// Whether names lead down: there are some, of which the first isn't `..`.
fn lead_down(names: &[&str]) -> bool
    ensures { result ≡ spec.lead_down (texts names.now) }
{
    match names {
        [first, ..] => *first != "..",
        [] => false,
    }
}

/// Adds names with a slash before each.
fn push_with_slashes(path: &mut String, names: &[&str]) -> Result<(), AllocError>
    ensures { OnOk result (string_bytes path.new ≡ string_bytes path.old ++ spec.with_slashes (texts names.now)) }
{
    for name in names {
        path.push('/')?;
        path.push_str(name)?;
    }
    Ok(())
}

/// Adds names with slashes between them.
fn push_joined(path: &mut String, names: &[&str]) -> Result<(), AllocError>
    ensures { OnOk result (string_bytes path.new ≡ string_bytes path.old ++ spec.joined (texts names.now)) }
{
    let [first, others @ ..] = names else {
        return Ok(());
    };
    path.push_str(first)?;
    push_with_slashes(path, others)
}

/// Where a path leads, by its names alone.
pub(crate) fn place_of(alloc: Global, path: &str) -> Result<Place<'_>, AllocError>
    ensures { IfOk result (λ place. place_in place ≡ spec.place path.now) }
{
    let mut place = Place {
        is_absolute: path.starts_with("/"),
        names: Vec::new(alloc),
    };
    for name in path.split('/') {
        place.enter(name)?;
    }
    Ok(place)
}

/// A path without the names that lead nowhere: `a//./b/../c` is `a/c`. Two paths are the same if these are. `Err` means
/// out of memory.
pub fn normal_path(alloc: Global, path: &str) -> Result<String, AllocError>
    ensures { IfOk result (λ normal. string_bytes normal ≡ spec.normal path.now) }
{
    let place = place_of(alloc, path)?;
    place.path(alloc)
}

/// Whether a path is that of a folder, or below it.
pub(crate) fn is_within(alloc: Global, folder: &str, path: &str) -> Result<bool, AllocError>
    ensures { IfOk result (λ is. is ≡ spec.is_within folder.now path.now) }
{
    let place = place_of(alloc, path)?;
    if place.is_below(&place_of(alloc, folder)?) {
        return Ok(true);
    }
    Ok(normal_path(alloc, folder)? == normal_path(alloc, path)?)
}

/// How many names two lists begin with in common.
fn shared_len(a: &[&str], b: &[&str]) -> usize
    ensures value { result ≡ common_prefix_len bytes_eq (texts a.now) (texts b.now) }
    ensures in_a { result ≤ length a.now }
    ensures in_b { result ≤ length b.now }
{
    let mut len = 0;
    while len < a.len() && len < b.len() && a[len] == b[len] {
        len += 1;
    }
    len
}

/// All names but the last.
fn folder_of<'a, 'b>(names: &'b [&'a str]) -> &'b [&'a str]
    ensures value { texts result.now ≡ relative_spec.folder_of (texts names.now) }
    ensures len { length result.now ≤ length names.now }
{
    match names {
        [folder @ .., _] => folder,
        [] => names,
    }
}

/// Adds one level up for each name.
fn push_ups(path: &mut String, names: &[&str]) -> Result<(), AllocError>
    ensures { OnOk result (string_bytes path.new ≡ string_bytes path.old ++ relative_spec.ups (texts names.now)) }
{
    for _ in names {
        path.push_str("../")?;
    }
    Ok(())
}

/// Up from each of these, and down by those, if names say what is above.
fn up_and_down(alloc: Global, left: &[&str], names: &[&str]) -> Result<Option<String>, AllocError>
    ensures { IfOk result (λ way. option_map (λ path. string_bytes path) way
        ≡ relative_spec.up_and_down (texts left.now) (texts names.now)) }
{
    if left.contains(&"..") {
        return Ok(None);
    }
    let mut path = String::new(alloc);
    push_ups(&mut path, left)?;
    push_joined(&mut path, names)?;
    Ok(Some(path))
}

/// The way from a folder to a file, past the folders that both have.
fn way(alloc: Global, folder: &[&str], names: &[&str]) -> Result<Option<String>, AllocError>
    ensures { IfOk result (λ way. option_map (λ path. string_bytes path) way
        ≡ relative_spec.way (texts folder.now) (texts names.now)) }
{
    let shared = shared_len(folder, folder_of(names));
    let (_, left) = folder.split_at(shared);
    let (_, further) = names.split_at(shared);
    up_and_down(alloc, left, further)
}

/// The way from the folder of a file to a file, by their names.
fn way_between(alloc: Global, from: &[&str], to: &[&str]) -> Result<Option<String>, AllocError>
    ensures { IfOk result (λ way. option_map (λ path. string_bytes path) way
        ≡ relative_spec.way_between (texts from.now) (texts to.now)) }
{
    if from.is_empty() || to.is_empty() {
        return Ok(None);
    }
    way(alloc, folder_of(from), to)
}

/// The relative path that leads from the folder of one file to another file, if names alone say it: from `a/b.md` to
/// `c/d.md` it is `../c/d.md`. `Err` means out of memory.
pub fn relative(alloc: Global, from: &str, to: &str) -> Result<Option<String>, AllocError>
    ensures { IfOk result (λ way. option_map (λ path. string_bytes path) way
        ≡ relative_spec.relative from.now to.now) }
{
    let from = place_of(alloc, from)?;
    let to = place_of(alloc, to)?;
    if from.is_absolute != to.is_absolute {
        return Ok(None);
    }
    way_between(alloc, from.names.as_slice(), to.names.as_slice())
}
