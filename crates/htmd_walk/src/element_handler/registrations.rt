//! The registrations of handlers for tags, with the position of each tag's newest one at hand.

ghost use Rattle.std.specs.Prelude.{◌≡◌, ◌<◌, ◌+◌, ◌^◌, ◌++◌, ◌∷◌, [], ℕ, List, All, IfOk, IfSome, OnOk, OnErr, length};
ghost use Rattle.std.specs.Prelude.{map, reverse, slice_get, string_bytes, vec_len, vec_capacity, ◌≤◌};
ghost use Rattle.std.specs.HashMap.{get_by_text, spare};
ghost use Rattle.htmd_walk.specs.Choice.{tag_at, tags_at, indexes};
ghost use Rattle.htmd_walk.specs.TagIndexes.{tag_index};
ghost use Rattle.htmd_walk.specs.Latest.{latest, IsChained};

use std::alloc::{AllocError, Global};
use std::collections::HashMap;

/// A tag, and the index of a handler that is registered for it.
#[derive(Drop)]
pub(crate) struct Registration {
    tag: String,
    index: usize,
    /// The position of the registration for this tag before this one.
    older: Option<usize>,
}

/// The registrations in order. A look-up goes only over the registrations of its tag.
#[derive(Drop)]
pub(crate) struct Registrations {
    all: Vec<Registration>,
    /// The position of the newest registration for each tag.
    newest: HashMap<String, usize>,
    ghost newest_is: { (tag : List ℕ) → get_by_text newest tag ≡ latest tag (map tag_index all.items) },
    ghost older_is: { IsChained all.items },
}

/// Each of these tags twice, as a key and as the tag of a registration.
fn names(alloc: Global, tags: &[&str]) -> Result<Vec<(String, String)>, AllocError>
    ensures names { IfOk result (λ v. map (λ p. string_bytes p.1) v.items ≡ map (λ t. t.now) tags.now) }
    ensures same { IfOk result (λ v. All (λ p. string_bytes p.0 ≡ string_bytes p.1) v.items) }
{
    let mut names = Vec::with_capacity(alloc, tags.len())?;
    for tag in tags {
        let key = String::from_str(alloc, *tag)?;
        let tag = String::from_str(alloc, *tag)?;
        names.push((key, tag))?;
    }
    Ok(names)
}

impl Registrations {
    /// No registrations yet.
    pub(crate) fn new(alloc: Global) -> Registrations
        ensures { result.all.items ≡ [] }
    {
        Registrations {
            all: Vec::new(alloc),
            newest: HashMap::new(alloc),
        }
    }

    /// Registers a handler for each of these tags, in order. `Err` means out of memory; nothing is changed then.
    pub(crate) fn add(
        &mut self,
        alloc: Global,
        tags: &[&str],
        index: usize,
    ) -> Result<(), AllocError>
        ensures ok { OnOk result (map tag_index self.new.all.items
            ≡ map tag_index self.old.all.items ++ tags_at index (map (λ t. t.now) tags.now)) }
        ensures err { OnErr result (map tag_index self.new.all.items ≡ map tag_index self.old.all.items) }
    {
        let mut names = names(alloc, tags)?;
        self.newest.reserve(names.len())?;
        self.all.reserve(names.len())?;
        names.reverse();
        self.push_all(names, index);
        Ok(())
    }

    /// One more registration for each name, from the last name to the first. The room for them is made before.
    fn push_all(&mut self, mut names: Vec<(String, String)>, index: usize)
        requires same { All (λ p. string_bytes p.0 ≡ string_bytes p.1) names.items }
        requires positions { vec_len names ≤ spare self.old.newest }
        requires room { vec_len self.old.all + vec_len names ≤ vec_capacity self.old.all }
        ensures { map tag_index self.new.all.items ≡ map tag_index self.old.all.items
            ++ tags_at index (map (λ p. string_bytes p.1) (reverse names.items)) }
    {
        while let Some((key, tag)) = names.pop() {
            self.push(key, tag, index);
        }
    }

    /// One more registration. The room for it is made before.
    fn push(&mut self, key: String, tag: String, index: usize)
        requires same { string_bytes key ≡ string_bytes tag }
        requires position { 0 < spare self.old.newest }
        requires room { vec_len self.old.all < vec_capacity self.old.all }
        ensures all { map tag_index self.new.all.items
            ≡ map tag_index self.old.all.items ++ tag_at index (string_bytes tag) ∷ [] }
        ensures position { spare self.old.newest ≤ spare self.new.newest + 1 }
        ensures len { vec_len self.new.all ≡ vec_len self.old.all + 1 }
        ensures room { vec_capacity self.new.all ≡ vec_capacity self.old.all }
    {
        let position = self.all.len();
        let Ok(older) = self.newest.insert(key, position) else {
            unreachable!();
        };
        self.all.push_reserved(Registration { tag, index, older });
    }

    /// The index of the handler that is called for a tag after this many newer ones.
    pub(crate) fn find(&self, tag: &str, skipped: usize) -> Option<usize>
        ensures value { result ≡ slice_get (indexes tag.now (map tag_index self.now.all.items)) skipped }
        ensures few { IfSome result (λ _. skipped < length self.now.all.items) }
        ensures fits { IfSome result (λ _. skipped + 1 < 2 ^ 64) }
        ensures within { (n : ℕ) → All (λ r. r.index < n) (map tag_index self.now.all.items)
            → IfSome result (λ index. index < n) }
    {
        let mut position = self.newest.get(tag).copied();
        let mut left = skipped;
        while let Some(at) = position {
            let registration = &self.all[at];
            if left == 0 {
                return Some(registration.index);
            }
            left -= 1;
            position = registration.older;
        }
        None
    }
}
