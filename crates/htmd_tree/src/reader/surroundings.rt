//! What is kept of an open element and its ancestors, so that looking up what is allowed there costs the same at any
//! depth.
ghost use Rattle.std.specs.Prelude.{◌≡◌, ◌∷◌, ℕ, Bool, List};
ghost use Rattle.htmd_grammar.specs.HtmlDocuments.{below_body};
ghost use Rattle.htmd_grammar.specs.Nesting as spec;
ghost use Rattle.htmd_tree.specs.Surroundings.{surroundings_of};
ghost use Rattle.htmd_tree.specs.Surroundings as flags;
ghost use Rattle.htmd_tree.specs.KnownNames.{known_name};

use crate::reader::names::KnownName;

/// What is kept of an open element and its ancestors.
#[derive(Clone, Copy, Drop)]
pub(crate) struct Surroundings {
    /// It holds only text, with references or without.
    pub(crate) text_alone: bool,
    /// It holds text without references.
    pub(crate) raw_text: bool,
    /// It holds parts of a table, comments and white space.
    pub(crate) parts: bool,
    /// It is a `table`.
    pub(crate) table: bool,
    /// It is a `thead`, `tbody` or `tfoot`.
    pub(crate) rows: bool,
    /// It is a `tr`.
    pub(crate) row: bool,
    /// It is a `colgroup`.
    pub(crate) columns: bool,
    /// It is a `select`.
    pub(crate) select: bool,
    /// It is an `optgroup`.
    pub(crate) option_group: bool,
    /// It is an `option`.
    pub(crate) option: bool,
    /// It is a heading.
    pub(crate) heading: bool,
    /// A `p` is open.
    pub(crate) open_p: bool,
    /// An `a` is open.
    pub(crate) open_a: bool,
    /// A `button` is open.
    pub(crate) open_button: bool,
    /// A `form` is open.
    pub(crate) open_form: bool,
    /// A `nobr` is open.
    pub(crate) open_nobr: bool,
    /// A `select` is open.
    pub(crate) open_select: bool,
    /// An `option` is open.
    pub(crate) open_option: bool,
    /// An `optgroup` or an `option` is open.
    pub(crate) open_options: bool,
    /// An `li` is open, in no list inside it.
    pub(crate) item: bool,
    /// A `dd` or `dt` is open, in no `dl` inside it.
    pub(crate) description: bool,
}

/// Whether a tag of this kind has no place at all.
pub(crate) fn is_outside(known: KnownName) -> bool
    ensures { (n : List ℕ) → known ≡ known_name n → result ≡ spec.is_outside n }
{
    known.is(KnownName::Outside)
}

impl Surroundings {
    /// What is kept of `body`.
    pub(crate) fn of_body(scripting: bool) -> Surroundings
        ensures { result ≡ surroundings_of scripting below_body }
    {
        let _scripting = scripting;
        Surroundings {
            text_alone: false,
            raw_text: false,
            parts: false,
            table: false,
            rows: false,
            row: false,
            columns: false,
            select: false,
            option_group: false,
            option: false,
            heading: false,
            open_p: false,
            open_a: false,
            open_button: false,
            open_form: false,
            open_nobr: false,
            open_select: false,
            open_option: false,
            open_options: false,
            item: false,
            description: false,
        }
    }

    /// What is kept of an element of this kind inside an element with these surroundings.
    fn inside(self, known: KnownName, scripting: bool) -> Surroundings
        ensures { result ≡ flags.flags_inside scripting known self }
    {
        let raw_text = known.holds_raw_text() | (scripting & known.is(KnownName::NoScript));
        Surroundings {
            text_alone: known.is(KnownName::Text) | raw_text,
            raw_text,
            parts: known.holds_parts(),
            table: known.is(KnownName::Table),
            rows: known.is(KnownName::Rows),
            row: known.is(KnownName::Row),
            columns: known.is(KnownName::ColGroup),
            select: known.is(KnownName::Select),
            option_group: known.is(KnownName::OptGroup),
            option: known.is(KnownName::OptionTag),
            heading: known.is(KnownName::Heading),
            open_p: known.is(KnownName::P) | self.open_p,
            open_a: known.is(KnownName::A) | self.open_a,
            open_button: known.is(KnownName::Button) | self.open_button,
            open_form: known.is(KnownName::Form) | self.open_form,
            open_nobr: known.is(KnownName::NoBr) | self.open_nobr,
            open_select: known.is(KnownName::Select) | self.open_select,
            open_option: known.is(KnownName::OptionTag) | self.open_option,
            open_options: known.is_part_of_select() | self.open_options,
            item: known.is(KnownName::Li) | (!known.is(KnownName::ItemList) & self.item),
            description: known.is(KnownName::Description)
                | (!known.is(KnownName::Dl) & self.description),
        }
    }

    /// What is kept of an element of this kind inside an element with these surroundings.
    pub(crate) fn inner(self, known: KnownName, scripting: bool) -> Surroundings
        ensures { (n : List ℕ) (c : spec.Context) → known ≡ known_name n → self ≡ surroundings_of scripting c
            → result ≡ surroundings_of scripting (n ∷ c) }
    {
        self.inside(known, scripting)
    }

    /// Whether a part of a table of this kind, or another element, may stand here, as far as tables decide.
    fn fits_table(self, known: KnownName) -> bool
        ensures { result ≡ flags.flags_fit_table self known }
    {
        match known {
            KnownName::Caption | KnownName::ColGroup | KnownName::Rows => self.table,
            KnownName::Row => self.rows,
            KnownName::Cell => self.row,
            KnownName::Col => self.columns,
            _ => !self.parts,
        }
    }

    /// Whether an element of this kind may stand here, as far as `select` decides.
    fn fits_select(self, known: KnownName) -> bool
        ensures { result ≡ flags.flags_fit_select self known }
    {
        if self.select {
            return matches!(known, KnownName::OptionTag | KnownName::OptGroup);
        }
        if self.option_group {
            return known.is(KnownName::OptionTag);
        }
        !self.option
    }

    /// Whether an element of this kind, which isn't allowed in itself, is open.
    fn is_open(self, known: KnownName) -> bool
        ensures { result ≡ flags.own_flag self known }
    {
        match known {
            KnownName::A => self.open_a,
            KnownName::Button => self.open_button,
            KnownName::Form => self.open_form,
            KnownName::NoBr => self.open_nobr,
            KnownName::Select => self.open_select,
            KnownName::OptionTag => self.open_option,
            _ => false,
        }
    }

    #[tactic(auto, using(htmd_lexical::proofs::BooleanLemmas::and_false))]
    /// Whether an element of this kind may stand here, as far as the open elements decide.
    fn fits_open_elements(self, known: KnownName) -> bool
        ensures { result ≡ flags.flags_fit_open_elements self known }
    {
        !(self.open_p && known.closes_paragraph())
            && !self.is_open(known)
            && !(self.open_options && known.is(KnownName::OptGroup))
            && !(self.heading && known.is(KnownName::Heading))
    }

    #[tactic(auto, using(htmd_lexical::proofs::BooleanLemmas::and_false))]
    /// Whether an element of this kind may stand here, as far as lists decide.
    fn fits_lists(self, known: KnownName) -> bool
        ensures { result ≡ flags.flags_fit_lists self known }
    {
        !(self.item && known.is(KnownName::Li))
            && !(self.description && known.is(KnownName::Description))
    }

    /// Whether all that is kept lets an element of this kind stand here.
    fn fits(self, known: KnownName) -> bool
        ensures { result ≡ flags.flags_allow self known }
    {
        !known.is(KnownName::Outside)
            && !self.text_alone
            && self.fits_table(known)
            && self.fits_select(known)
            && self.fits_open_elements(known)
            && self.fits_lists(known)
    }

    /// Whether an element of this kind is allowed here.
    pub(crate) fn allows(self, known: KnownName) -> bool
        ensures { (n : List ℕ) (scripting : Bool) (c : spec.Context) → known ≡ known_name n
            → self ≡ surroundings_of scripting c → result ≡ spec.is_allowed scripting c n }
    {
        self.fits(known)
    }
}
