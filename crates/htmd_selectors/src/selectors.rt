//! Selectors, as they are kept.
ghost use Rattle.std.specs.Prelude.{◌≡◌, ◌++◌, ◌==◌, [], length, OnOk, OnErr};
ghost use Rattle.htmd_selectors.specs.declared.selectors.SelectorError.TheVariants.{Memory};

use crate::series::Series;
use std::alloc::{AllocError, AllocFailed, Global};
use thiserror::Error;

/// What a simple selector requires of an element.
#[derive(Drop)]
pub(crate) enum Condition {
    /// `*`: nothing.
    Any,
    /// `main`: this name.
    Tag(Vec<u8>),
    /// `.note`: this word in its `class`.
    Class(Vec<u8>),
    /// `#top`: this `id`.
    Id(Vec<u8>),
    /// `[href]`: an attribute with this name.
    Attribute(Vec<u8>),
    /// `[rel~=nofollow]`: an attribute with this name whose value compares so to this one.
    Value {
        name: Vec<u8>,
        comparison: Comparison,
        value: Vec<u8>,
    },
    /// `:first-child`, `:first-of-type`: none of these elements of its parent is before it.
    First(Peers),
    /// `:last-child`, `:last-of-type`: none is after it.
    Last(Peers),
    /// `:only-child`, `:only-of-type`: its parent has no other of them.
    Only(Peers),
    /// `:empty`: it holds neither an element nor a text.
    Empty,
    /// `:root`: no element is around it.
    Root,
    /// `:nth-child(2n+1)`: its place in the row is one of these.
    Nth {
        row: Row,
        series: Series,
    },
}

/// Which elements of its parent count for an element.
#[derive(Clone, Copy)]
pub(crate) enum Peers {
    /// All, as for `:nth-child()`.
    All,
    /// Those with its name, as for `:nth-of-type()`.
    SameName,
}

/// From which side places are counted.
#[derive(Clone, Copy)]
pub(crate) enum Side {
    /// As by `:nth-child()`.
    First,
    /// As by `:nth-last-child()`.
    Last,
}

/// Elements of a parent, counted from one side.
#[derive(Clone, Copy)]
pub(crate) struct Row {
    pub(crate) peers: Peers,
    pub(crate) side: Side,
}

/// What a value is to the one that is written.
#[derive(Clone, Copy, PartialEq, Eq)]
pub(crate) enum Operator {
    /// `=`: the same.
    Equals,
    /// `~=`: one of its words, between ASCII white space, is the same.
    Includes,
    /// `|=`: the same, or it goes on with a hyphen.
    Dash,
    /// `^=`: it begins with it.
    Prefix,
    /// `$=`: it ends with it.
    Suffix,
    /// `*=`: it has it somewhere.
    Substring,
}

/// How values are compared.
#[derive(Clone, Copy)]
pub(crate) struct Comparison {
    pub(crate) operator: Operator,
    /// ASCII letters are the same in either case.
    pub(crate) caseless: bool,
}

/// How a simple selector relates to the one before it.
#[derive(Clone, Copy, PartialEq, Eq)]
pub(crate) enum Relation {
    /// Another selector begins.
    Start,
    /// It is about the same element.
    Same,
    /// It is about a child of that element.
    Child,
    /// It is about an element below that element.
    Below,
    /// It is about the next element of the same parent.
    Next,
    /// It is about a later element of the same parent.
    After,
}

/// Conditions that all have to be met.
#[derive(Drop)]
pub(crate) struct Compound {
    pub(crate) conditions: Vec<Condition>,
}

/// What a step asks of an element.
#[derive(Drop)]
pub(crate) enum Test {
    Asks(Condition),
    /// `:is(a, .b)`: one of these matches; negated as by `:not(a, .b)`: none does.
    Among {
        negated: bool,
        compounds: Vec<Compound>,
    },
}

/// A simple selector, and how it relates to the one before it.
#[derive(Drop)]
pub(crate) struct Step {
    pub(crate) relation: Relation,
    pub(crate) test: Test,
}

/// Selectors, by their simple selectors in order. `parse_selectors` reads them from a text.
#[derive(Drop)]
pub struct Selectors {
    pub(crate) steps: Vec<Step>,
}

impl Selectors {
    ghost use Rattle.htmd_selectors.specs.Views.{steps_in};

    /// No selectors, which name no element.
    pub fn new(alloc: Global) -> Selectors
        ensures { steps_in result ≡ [] }
    {
        Selectors {
            steps: Vec::new(alloc),
        }
    }

    /// Whether there are none.
    pub fn is_empty(&self) -> bool
        ensures { result ≡ (length (steps_in self.now) == 0) }
    {
        self.steps.is_empty()
    }

    /// Adds others, as if a comma stood between them. `Err` means out of memory: these are then as they were.
    pub fn append(&mut self, others: Selectors) -> Result<(), AllocError>
        ensures ok { OnOk result (steps_in self.new ≡ steps_in self.old ++ steps_in others) }
        ensures err { OnErr result (steps_in self.new ≡ steps_in self.old) }
    {
        let mut steps = others.steps;
        self.steps.append(&mut steps)
    }
}

/// Why a text isn't a selector, and the place in it, in bytes from 0.
#[derive(Debug, PartialEq, Eq, Drop, Error)]
pub enum SelectorError {
    /// Out of memory.
    #[error("out of memory")]
    Memory,
    /// There is no selector before a comma, after `>`, `+` or `~`, or at the end.
    #[error("a selector is missing at byte {place}")]
    NoSelector { place: usize },
    /// There is no name after `.`, `#`, `[` or `=`, or a name begins with a digit.
    #[error("a name is missing at byte {place}")]
    NoName { place: usize },
    /// A bracket, a parenthesis or a quotation mark isn't closed, or nothing follows a backslash.
    #[error("`]`, `)` or a quotation mark is missing at byte {place}")]
    Unclosed { place: usize },
    /// A sign that means nothing there.
    #[error("the sign at byte {place} isn't supported")]
    Unsupported { place: usize },
}

impl SelectorError {
    ghost use Rattle.htmd_selectors.specs.ReaderViews.{place_of};

    /// The place, in bytes from 0; none if memory ran out.
    pub fn place(&self) -> Option<usize>
        ensures { result ≡ place_of self.now }
    {
        match self {
            SelectorError::Memory => None,
            SelectorError::NoSelector { place }
            | SelectorError::NoName { place }
            | SelectorError::Unclosed { place }
            | SelectorError::Unsupported { place } => Some(*place),
        }
    }
}

impl From<AllocError> for SelectorError {
    ghost from_gives = { λ _ e. e ≡ Memory };

    fn from(_e: AllocError) -> SelectorError {
        SelectorError::Memory
    }
}

impl<T: Drop> From<AllocFailed<T>> for SelectorError {
    ghost from_gives = { λ _ e. e ≡ Memory };

    fn from(_e: AllocFailed<T>) -> SelectorError {
        SelectorError::Memory
    }
}
