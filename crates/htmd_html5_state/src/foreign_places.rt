//! The places of open elements of foreign content. An end tag closes one of them in any case of its letters, so that
//! spellings that are alike in any case share a place.
ghost use Rattle.std.specs.Prelude.{◌≡◌, ◌<◌, List, ℕ, OnOk, IfOk, IfSome, Some, None, cond, true, string_bytes};
ghost use Rattle.std.specs.Prelude.{option_map, get_or, is_some};
ghost use Rattle.htmd_html5_state.specs.Foreign.{is_in_any_case};
ghost use Rattle.htmd_html5_state.specs.ForeignPlaces as spec;

use crate::places::place_at;
use std::alloc::{AllocError, Global};
use std::collections::HashMap;
use std::mem;

/// The place of the innermost foreign element of each spelling.
#[derive(Drop)]
pub(crate) struct ForeignPlaces {
    /// Of each spelling of an element that was open, and of the same in lower case.
    numbers: HashMap<String, usize>,
    /// By number.
    places: Vec<usize>,
}

/// Whether lower case changes nothing in the name.
fn is_lower_case(name: &[u8]) -> bool
    ensures { result ≡ spec.is_lower_case name.now }
{
    name.iter().all(|byte| byte.to_ascii_lowercase() == *byte)
}

impl ForeignPlaces {
    /// No name is held.
    pub(crate) fn new(alloc: Global) -> ForeignPlaces
        ensures numbered { spec.AreNumbered result }
        ensures places { (s : List ℕ) → spec.spelling_place result s ≡ 0 }
    {
        ForeignPlaces {
            numbers: HashMap::new(alloc),
            places: Vec::new(alloc),
        }
    }

    /// The place of a spelling that is held.
    fn held(&self, text: &str) -> Option<usize>
        ensures { result ≡ option_map (λ n. get_or self.now.places.items n 0) (spec.number_of self.now text.now) }
    {
        match self.numbers.get(text) {
            Some(number) => Some(place_at(&self.places, *number)),
            None => None,
        }
    }

    /// The place of the innermost element that is spelled so in any case. None if that isn't known, since a name that
    /// no element was written with has capitals.
    pub(crate) fn find(&self, text: &str) -> Option<usize>
        ensures known { is_some result ≡ spec.is_known self.now text.now }
        ensures place { spec.AreNumbered self.now
            → IfSome result (λ place. place ≡ spec.spelling_place self.now text.now) }
    {
        match self.held(text) {
            Some(place) => Some(place),
            None if is_lower_case(text.as_bytes()) => Some(0),
            None => None,
        }
    }

    /// Writes the place of a spelling that is held. Gives the one before.
    pub(crate) fn replace(&mut self, text: &str, place: usize) -> usize
        requires { spec.has_spelling self.old text.now ≡ true }
        ensures before { spec.AreNumbered self.old → result ≡ spec.spelling_place self.old text.now }
        ensures places { spec.AreNumbered self.old → (s : List ℕ) → spec.spelling_place self.new s
            ≡ cond (is_in_any_case text.now s) place (spec.spelling_place self.old s) }
        ensures numbered { spec.AreNumbered self.old → spec.AreNumbered self.new }
        ensures room { (s : List ℕ) → spec.has_spelling self.new s ≡ spec.has_spelling self.old s }
    {
        let Some(number) = self.numbers.get(text) else {
            return 0;
        };
        match self.places.get_mut(*number) {
            Some(held) => mem::replace(held, place),
            None => 0,
        }
    }

    /// Holds a spelling in lower case that is new. Gives its number.
    fn add(&mut self, lower: String) -> Result<usize, AllocError>
        requires lower { spec.lower (string_bytes lower) ≡ string_bytes lower }
        requires new { spec.number_of self.old (string_bytes lower) ≡ None }
        ensures number { IfOk result (λ n. spec.number_of self.new (string_bytes lower) ≡ Some n) }
        ensures numbered { spec.AreNumbered self.old → spec.AreNumbered self.new }
        ensures places { spec.AreNumbered self.old → (s : List ℕ) → spec.spelling_place self.new s
            ≡ spec.spelling_place self.old s }
        ensures kept { (s : List ℕ) → spec.has_spelling self.old s ≡ true
            → spec.has_spelling self.new s ≡ true }
    {
        let number = self.places.len();
        self.places.push(0)?;
        self.numbers.insert(lower, number)?;
        Ok(number)
    }

    /// The number of a spelling in lower case, which is held then.
    fn number(&mut self, text: &String) -> Result<usize, AllocError>
        ensures number { IfOk result (λ n. spec.number_of self.new (spec.lower (string_bytes text.now)) ≡ Some n) }
        ensures numbered { spec.AreNumbered self.old → spec.AreNumbered self.new }
        ensures places { spec.AreNumbered self.old → (s : List ℕ) → spec.spelling_place self.new s
            ≡ spec.spelling_place self.old s }
        ensures kept { (s : List ℕ) → spec.has_spelling self.old s ≡ true
            → spec.has_spelling self.new s ≡ true }
    {
        let mut lower = text.clone()?;
        lower.make_ascii_lowercase();
        if let Some(number) = self.numbers.get(lower.as_str()) {
            return Ok(*number);
        }
        self.add(lower)
    }

    /// Makes room for the place of a name.
    pub(crate) fn make_room(&mut self, text: &String) -> Result<(), AllocError>
        ensures numbered { spec.AreNumbered self.old → spec.AreNumbered self.new }
        ensures places { spec.AreNumbered self.old → (s : List ℕ) → spec.spelling_place self.new s
            ≡ spec.spelling_place self.old s }
        ensures kept { (s : List ℕ) → spec.has_spelling self.old s ≡ true
            → spec.has_spelling self.new s ≡ true }
        ensures room { OnOk result (spec.has_spelling self.new (string_bytes text.now) ≡ true) }
    {
        if self.numbers.contains_key(text.as_str()) {
            return Ok(());
        }
        let number = self.number(text)?;
        self.numbers.insert(text.clone()?, number)?;
        Ok(())
    }
}
