//! The places of open elements on the stack, so that no question about it needs a walk. A place is counted from 1 at
//! the outermost element; 0 is nowhere.
ghost use Rattle.std.specs.Prelude.{◌≡◌, ◌∷◌, [], ◌<◌, ◌≤◌, List, OnOk, IfSome, cond, true, false, length, ◌||◌};
ghost use Rattle.std.specs.Prelude.{get_or, vec_len, ◌&&◌, string_bytes, ℕ, ◌==◌, if◌then◌else◌};
ghost use Rattle.std.specs.List.{list_any};
ghost use Rattle.htmd_html5_state.specs.Foreign.{is_html, is_html_name, is_spelled_so};
ghost use Rattle.htmd_html5_state.specs.ForeignPlaces.{AreNumbered, is_spelled, spelling_place};
ghost use Rattle.htmd_html5_state.specs.Names.{NameValue, ElementNameValue, element_name_of, name_of};
ghost use Rattle.htmd_html5_state.specs.Names.{same_element_name, html, known, other};
ghost use Rattle.htmd_html5_state.specs.OpenElements as spec;
ghost use Rattle.htmd_html5_state.specs.OpenElements.{OpenValue};
ghost use Rattle.htmd_html5_state.specs.OpenViews.{open_of};
ghost use Rattle.htmd_html5_state.specs.Places as places;
ghost use Rattle.htmd_html5_state.specs.Sets.{bounds, has_foreign_bounds, is_select};
ghost use Rattle.htmd_html5_state.specs.declared.sets.Scope.{Scope};

use crate::foreign_places::ForeignPlaces;
use crate::names::{ElementName, HtmlName, TAGS, TagName};
use crate::open_elements::OpenElement;
use crate::sets::{NameSet, Scope, is_math_bound, is_svg_point};
use std::alloc::{AllocError, Global};
use std::collections::HashMap;
use std::mem;

/// The place of the innermost bound of each scope.
#[derive(Clone, Copy)]
struct Bounds {
    general: usize,
    list_item: usize,
    button: usize,
    table: usize,
    select: usize,
    template: usize,
    special: usize,
    items: usize,
}

/// What is known of an open element: the places of the elements around it that have the same name and the same node,
/// and of the innermost element of HTML and the bounds among it and the elements around it.
#[derive(Clone, Copy)]
struct Around {
    name: usize,
    node: usize,
    html: usize,
    bounds: Bounds,
}

/// The place of the innermost element of each name.
#[derive(Drop)]
struct NamePlaces {
    tags: [usize; TAGS],
    /// For the names of HTML that no rule mentions.
    others: HashMap<String, usize>,
    foreign: ForeignPlaces,
}

/// Where the open elements are.
#[derive(Drop)]
pub(crate) struct Places {
    names: NamePlaces,
    /// The place of the innermost element of each node.
    nodes: Vec<usize>,
    /// For each open element from the outermost on; what follows has no meaning.
    around: Vec<Around>,
}

const NO_BOUNDS: Bounds = Bounds {
    general: 0,
    list_item: 0,
    button: 0,
    table: 0,
    select: 0,
    template: 0,
    special: 0,
    items: 0,
};

impl Bounds {
    fn of(self, scope: Scope) -> usize
        ensures { result ≡ places.bound_of self scope }
    {
        match scope {
            Scope::Default => self.general,
            Scope::ListItem => self.list_item,
            Scope::Button => self.button,
            Scope::Table => self.table,
            Scope::Select => self.select,
            Scope::Template => self.template,
            Scope::Special => self.special,
            Scope::Items => self.items,
        }
    }

    /// The bound of a scope with one more element, whose name a rule mentions.
    fn of_tag(self, scope: Scope, tag: TagName, place: usize) -> usize
        ensures { result ≡ cond (bounds scope (html (known tag))) place (places.bound_of self scope) }
    {
        if scope.bounds_known(tag) {
            place
        } else {
            self.of(scope)
        }
    }

    /// The bounds with one more element, whose name may bound any scope.
    fn with_any_tag(self, tag: TagName, place: usize) -> Bounds
        ensures { (scope : Scope) → places.bound_of result scope
            ≡ cond (bounds scope (html (known tag))) place (places.bound_of self scope) }
    {
        Bounds {
            general: self.of_tag(Scope::Default, tag, place),
            list_item: self.of_tag(Scope::ListItem, tag, place),
            button: self.of_tag(Scope::Button, tag, place),
            table: self.of_tag(Scope::Table, tag, place),
            select: self.of_tag(Scope::Select, tag, place),
            template: self.of_tag(Scope::Template, tag, place),
            special: self.of_tag(Scope::Special, tag, place),
            items: self.of_tag(Scope::Items, tag, place),
        }
    }

    /// The bounds with one more element, whose name a rule mentions. Most names bound at most three scopes, and those
    /// that aren't special at most one.
    #[tactic(auto, using(crate::proofs::PlacesLemmas::few_bounds, crate::proofs::PlacesLemmas::plain_bounds))]
    fn with_tag(self, tag: TagName, place: usize) -> Bounds
        ensures { (scope : Scope) → places.bound_of result scope
            ≡ cond (bounds scope (html (known tag))) place (places.bound_of self scope) }
    {
        if !Scope::Special.bounds_known(tag) {
            return Bounds {
                select: self.of_tag(Scope::Select, tag, place),
                ..self
            };
        }
        if Scope::ListItem.bounds_known(tag) || Scope::Button.bounds_known(tag) {
            return self.with_any_tag(tag, place);
        }
        Bounds {
            select: self.of_tag(Scope::Select, tag, place),
            special: self.of_tag(Scope::Special, tag, place),
            items: self.of_tag(Scope::Items, tag, place),
            ..self
        }
    }

    /// The bounds with one more element of foreign content, which may be one of those that bound most scopes.
    fn with_foreign(self, bounds_most: bool, place: usize) -> Bounds
        ensures { (scope : Scope) → places.bound_of result scope
            ≡ cond (is_select scope || (has_foreign_bounds scope && bounds_most)) place (places.bound_of self scope) }
    {
        if bounds_most {
            return Bounds {
                general: place,
                list_item: place,
                button: place,
                select: place,
                special: place,
                items: place,
                ..self
            };
        }
        Bounds {
            select: place,
            ..self
        }
    }

    /// The bounds with one more element.
    fn with(self, name: &ElementName, place: usize) -> Bounds
        ensures { (scope : Scope) → places.bound_of result scope
            ≡ cond (bounds scope (element_name_of name.now)) place (places.bound_of self scope) }
    {
        match name {
            ElementName::Html(HtmlName::Known(tag)) => self.with_tag(*tag, place),
            ElementName::Html(HtmlName::Other(_)) => self.with_foreign(false, place),
            ElementName::Svg(text) => self.with_foreign(is_svg_point(text.as_str()), place),
            ElementName::Math(text) => self.with_foreign(is_math_bound(text.as_str()), place),
        }
    }
}

impl NamePlaces {
    fn new(alloc: Global) -> NamePlaces
        ensures places { (name : NameValue) → places.name_place result name ≡ 0 }
        ensures spellings { (s : List ℕ) → spelling_place result.foreign s ≡ 0 }
        ensures numbered { AreNumbered result.foreign }
    {
        NamePlaces {
            tags: [0; TAGS],
            others: HashMap::new(alloc),
            foreign: ForeignPlaces::new(alloc),
        }
    }

    fn tag_place(&self, tag: TagName) -> usize
        ensures { result ≡ places.name_place self.now (known tag) }
    {
        self.tags[tag.number()]
    }

    fn other_place(&self, text: &str) -> usize
        ensures { result ≡ places.name_place self.now (other text.now) }
    {
        self.others.get(text).copied().unwrap_or(0)
    }

    fn name_place(&self, name: &HtmlName) -> usize
        ensures { result ≡ places.name_place self.now (name_of name.now) }
    {
        match name {
            HtmlName::Known(tag) => self.tag_place(*tag),
            HtmlName::Other(text) => self.other_place(text.as_str()),
        }
    }

    fn replace_tag(&mut self, tag: TagName, place: usize) -> usize
        ensures before { result ≡ places.name_place self.old (known tag) }
        ensures places { (m : NameValue) → places.name_place self.new m
            ≡ cond (same_element_name (html (known tag)) (html m)) place (places.name_place self.old m) }
        ensures room { (m : ElementNameValue) → places.has_room self.new m ≡ places.has_room self.old m }
        ensures foreign { self.new.foreign ≡ self.old.foreign }
    {
        replace_place(&mut self.tags, tag.number(), place)
    }

    fn replace_other(&mut self, text: &str, place: usize) -> usize
        requires { places.has_room self.old (html (other text.now)) ≡ true }
        ensures before { result ≡ places.name_place self.old (other text.now) }
        ensures places { (m : NameValue) → places.name_place self.new m
            ≡ cond (same_element_name (html (other text.now)) (html m)) place (places.name_place self.old m) }
        ensures room { (m : ElementNameValue) → places.has_room self.new m ≡ places.has_room self.old m }
        ensures foreign { self.new.foreign ≡ self.old.foreign }
    {
        match self.others.get_mut(text) {
            Some(held) => mem::replace(held, place),
            None => 0,
        }
    }

    /// Writes the place of a name. Gives the one before.
    fn replace(&mut self, name: &ElementName, place: usize) -> usize
        requires { places.has_room self.old (element_name_of name.now) ≡ true }
        ensures before { AreNumbered self.old.foreign
            → result ≡ places.place_of_name self.old (element_name_of name.now) }
        ensures places { (m : NameValue) → places.name_place self.new m
            ≡ cond (same_element_name (element_name_of name.now) (html m)) place (places.name_place self.old m) }
        ensures spellings { AreNumbered self.old.foreign → (s : List ℕ) → spelling_place self.new.foreign s
            ≡ cond (is_spelled_so s (element_name_of name.now)) place (spelling_place self.old.foreign s) }
        ensures numbered { AreNumbered self.old.foreign → AreNumbered self.new.foreign }
        ensures room { (m : ElementNameValue) → places.has_room self.new m ≡ places.has_room self.old m }
    {
        match name {
            ElementName::Html(HtmlName::Known(tag)) => self.replace_tag(*tag, place),
            ElementName::Html(HtmlName::Other(text)) => self.replace_other(text.as_str(), place),
            ElementName::Svg(text) | ElementName::Math(text) => self
                .foreign
                .replace(text.as_str(), place),
        }
    }

    fn has_room(&self, text: &str) -> bool
        ensures { result ≡ places.has_room self.now (html (other text.now)) }
    {
        self.others.contains_key(text)
    }

    fn add(&mut self, text: String) -> Result<(), AllocError>
        requires { places.has_room self.old (html (other (string_bytes text))) ≡ false }
        ensures places { (m : NameValue) → places.name_place self.new m ≡ places.name_place self.old m }
        ensures kept { (m : ElementNameValue) → places.has_room self.old m ≡ true
            → places.has_room self.new m ≡ true }
        ensures room { OnOk result (places.has_room self.new (html (other (string_bytes text))) ≡ true) }
        ensures foreign { self.new.foreign ≡ self.old.foreign }
    {
        self.others.insert(text, 0)?;
        Ok(())
    }

    fn make_room_for(&mut self, text: &String) -> Result<(), AllocError>
        ensures places { (m : NameValue) → places.name_place self.new m ≡ places.name_place self.old m }
        ensures kept { (m : ElementNameValue) → places.has_room self.old m ≡ true
            → places.has_room self.new m ≡ true }
        ensures room { OnOk result (places.has_room self.new (html (other (string_bytes text.now))) ≡ true) }
        ensures foreign { self.new.foreign ≡ self.old.foreign }
    {
        if self.has_room(text.as_str()) {
            return Ok(());
        }
        let text = text.clone()?;
        self.add(text)
    }

    /// Makes room for the place of a name.
    fn make_room(&mut self, name: &ElementName) -> Result<(), AllocError>
        ensures places { (m : NameValue) → places.name_place self.new m ≡ places.name_place self.old m }
        ensures kept { (m : ElementNameValue) → places.has_room self.old m ≡ true
            → places.has_room self.new m ≡ true }
        ensures room { OnOk result (places.has_room self.new (element_name_of name.now) ≡ true) }
        ensures spellings { AreNumbered self.old.foreign → (s : List ℕ) → spelling_place self.new.foreign s
            ≡ spelling_place self.old.foreign s }
        ensures numbered { AreNumbered self.old.foreign → AreNumbered self.new.foreign }
    {
        match name {
            ElementName::Html(HtmlName::Known(_)) => Ok(()),
            ElementName::Html(HtmlName::Other(text)) => self.make_room_for(text),
            ElementName::Svg(text) | ElementName::Math(text) => self.foreign.make_room(text),
        }
    }
}

/// Whether a place is somewhere, and no further out than this one.
pub(crate) fn is_from(bound: usize, place: usize) -> bool
    ensures { result ≡ places.is_from bound place }
{
    0 < place && bound <= place
}

pub(crate) fn place_at(held: &[usize], number: usize) -> usize
    ensures { result ≡ get_or held.now number 0 }
{
    match held.get(number) {
        Some(place) => *place,
        None => 0,
    }
}

fn make_room_for_node(nodes: &mut Vec<usize>, node: usize) -> Result<(), AllocError>
    ensures places { (n : ℕ) → get_or nodes.new.items n 0 ≡ get_or nodes.old.items n 0 }
    ensures longer { vec_len nodes.old ≤ vec_len nodes.new }
    ensures room { OnOk result (node < vec_len nodes.new) }
{
    while nodes.len() <= node {
        nodes.reserve(1)?;
        nodes.push_reserved(0);
    }
    Ok(())
}

fn make_room_around(around: &mut Vec<Around>, depth: usize) -> Result<(), AllocError>
    ensures kept { (es : List OpenValue) → places.IsLinked around.old.items es
        → places.IsLinked around.new.items es }
    ensures longer { vec_len around.old ≤ vec_len around.new }
    ensures room { OnOk result (depth < vec_len around.new) }
{
    while around.len() <= depth {
        around.push(Around {
            name: 0,
            node: 0,
            html: 0,
            bounds: NO_BOUNDS,
        })?;
    }
    Ok(())
}

/// Writes a place. Gives the one before.
pub(crate) fn replace_place(held: &mut [usize], number: usize, place: usize) -> usize
    requires { number < length held.old }
    ensures before { result ≡ get_or held.old number 0 }
    ensures places { (n : ℕ) → get_or held.new n 0 ≡ (if number == n then place else get_or held.old n 0) }
    ensures len { length held.new ≡ length held.old }
{
    mem::replace(&mut held[number], place)
}

impl Places {
    /// Nothing is open.
    pub(crate) fn new(alloc: Global) -> Places
        ensures { places.IsPlaced result [] }
    {
        Places {
            names: NamePlaces::new(alloc),
            nodes: Vec::new(alloc),
            around: Vec::new(alloc),
        }
    }

    /// Makes room for an element that is opened inside this many.
    pub(crate) fn make_room(
        &mut self,
        depth: usize,
        element: &OpenElement,
    ) -> Result<(), AllocError>
        ensures kept { (stack : List OpenValue) → places.IsPlaced self.old stack → places.IsPlaced self.new stack }
        ensures room { OnOk result (places.HasRoom self.new (open_of element.now)) }
        ensures within { OnOk result (depth < vec_len self.new.around) }
    {
        self.names.make_room(&element.name)?;
        make_room_for_node(&mut self.nodes, element.node)?;
        make_room_around(&mut self.around, depth)
    }

    /// The bounds among this many outermost elements.
    fn bounds(&self, depth: usize) -> Bounds
        requires { depth ≤ vec_len self.now.around }
        ensures { (es : List OpenValue) → length es ≡ depth → places.IsLinked self.now.around.items es
            → (scope : Scope) → places.bound_of result scope ≡ places.innermost (places.bounds_in scope) es }
    {
        if depth == 0 {
            return NO_BOUNDS;
        }
        self.around[depth - 1].bounds
    }

    /// The place of the innermost element of HTML among this many outermost elements.
    pub(crate) fn html_place(&self, depth: usize) -> usize
        requires { depth ≤ vec_len self.now.around }
        ensures { (es : List OpenValue) → length es ≡ depth → places.IsLinked self.now.around.items es
            → result ≡ places.innermost is_html es }
    {
        if depth == 0 {
            return 0;
        }
        self.around[depth - 1].html
    }

    /// The same with one more element.
    fn html_place_with(&self, depth: usize, name: &ElementName, place: usize) -> usize
        requires { depth ≤ vec_len self.now.around }
        ensures { (es : List OpenValue) → length es ≡ depth → places.IsLinked self.now.around.items es
            → result ≡ cond (is_html_name (element_name_of name.now)) place (places.innermost is_html es) }
    {
        match name {
            ElementName::Html(_) => place,
            _ => self.html_place(depth),
        }
    }

    /// An element is opened inside this many.
    pub(crate) fn enter(&mut self, depth: usize, element: &OpenElement)
        requires room { places.HasRoom self.old (open_of element.now) }
        requires within { depth < vec_len self.old.around }
        ensures placed { (es : List OpenValue) → length es ≡ depth → places.IsPlaced self.old es
            → places.IsPlaced self.new (open_of element.now ∷ es) }
        ensures room { (e : OpenValue) → places.HasRoom self.old e → places.HasRoom self.new e }
        ensures len { vec_len self.new.around ≡ vec_len self.old.around }
    {
        let place = depth + 1;
        self.around[depth] = Around {
            name: self.names.replace(&element.name, place),
            node: replace_place(&mut self.nodes, element.node, place),
            html: self.html_place_with(depth, &element.name, place),
            bounds: self.bounds(depth).with(&element.name, place),
        };
    }

    /// The innermost element, which is inside this many, is closed.
    pub(crate) fn leave(&mut self, depth: usize, element: &OpenElement)
        requires room { places.HasRoom self.old (open_of element.now) }
        requires within { depth < vec_len self.old.around }
        ensures placed { (es : List OpenValue) → length es ≡ depth
            → places.IsPlaced self.old (open_of element.now ∷ es) → places.IsPlaced self.new es }
        ensures room { (e : OpenValue) → places.HasRoom self.old e → places.HasRoom self.new e }
        ensures len { vec_len self.new.around ≡ vec_len self.old.around }
    {
        let around = self.around[depth];
        self.names.replace(&element.name, around.name);
        replace_place(&mut self.nodes, element.node, around.node);
    }

    /// The place of the innermost element of a node.
    pub(crate) fn node_place(&self, node: usize) -> usize
        ensures { (stack : List OpenValue) → places.IsPlaced self.now stack
            → result ≡ places.innermost (spec.is_node node) stack }
    {
        place_at(&self.nodes, node)
    }

    /// The place of the innermost bound of a scope, of this many open elements.
    pub(crate) fn bound(&self, depth: usize, scope: Scope) -> usize
        requires { depth ≤ vec_len self.now.around }
        ensures { (stack : List OpenValue) → length stack ≡ depth → places.IsPlaced self.now stack
            → result ≡ places.innermost (places.bounds_in scope) stack }
    {
        self.bounds(depth).of(scope)
    }

    /// The place of the innermost element of a name.
    pub(crate) fn name_place(&self, name: &HtmlName) -> usize
        ensures { (stack : List OpenValue) → places.IsPlaced self.now stack
            → result ≡ places.innermost (spec.has_name (html (name_of name.now))) stack }
    {
        self.names.name_place(name)
    }

    /// The place of the innermost foreign element that is spelled so in any case, where that is known.
    pub(crate) fn find_foreign(&self, text: &str) -> Option<usize>
        ensures { (stack : List OpenValue) → places.IsPlaced self.now stack
            → IfSome result (λ place. place ≡ places.innermost (is_spelled text.now) stack) }
    {
        self.names.foreign.find(text)
    }

    fn tag_is_from(&self, tag: TagName, bound: usize) -> bool
        ensures { result ≡ places.is_from bound (places.name_place self.now.names (known tag)) }
    {
        is_from(bound, self.names.tag_place(tag))
    }

    fn one_is_from(&self, tags: &[TagName], bound: usize) -> bool
        ensures { result
            ≡ list_any (λ t. places.is_from bound (places.name_place self.now.names (known t))) tags.now }
    {
        for tag in tags {
            if self.tag_is_from(*tag, bound) {
                return true;
            }
        }
        false
    }

    /// The place of the innermost element that has one of these names.
    pub(crate) fn place_of_any(&self, tags: &[TagName]) -> usize
        ensures { (stack : List OpenValue) → places.IsPlaced self.now stack
            → result ≡ places.innermost (places.has_one tags.now) stack }
    {
        let mut place = 0;
        for tag in tags {
            place = self.names.tag_place(*tag).max(place);
        }
        place
    }

    /// Whether one of these is no further out than this place.
    pub(crate) fn has_from(&self, set: NameSet, bound: usize) -> bool
        ensures { (stack : List OpenValue) → places.IsPlaced self.now stack
            → result ≡ places.is_from bound (places.innermost (spec.is_in set) stack) }
    {
        match set {
            NameSet::Only(tag) => self.tag_is_from(tag, bound),
            _ => self.one_is_from(set.members(), bound),
        }
    }
}
