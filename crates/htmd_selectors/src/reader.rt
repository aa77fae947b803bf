//! Selectors that are read from a text, byte by byte.
ghost use Rattle.std.specs.Prelude.{◌≡◌, ◌-◌, ◌==◌, [], true, false, length, if◌then◌else◌, IfOk, IfErr, OnOk, OnErr};
ghost use Rattle.htmd_selectors.specs.Reading as spec;
ghost use Rattle.htmd_selectors.specs.ReaderViews.{reading_of, IsFault};
ghost use Rattle.htmd_selectors.specs.Views.{condition_of, test_of, steps_in, steps_of};

use crate::caseless_names::is_caseless_name;
use crate::selectors::{
    Comparison, Compound, Condition, Operator, Relation, Row, SelectorError, Selectors, Step, Test,
};
use crate::series::series_of;
use crate::signs::{
    begins_relation, ends_part, escaped_character, extends_name, group_named, is_line_end,
    is_no_name, operator_of, pseudo_class, row_named,
};
use std::alloc::Global;
use std::mem;

/// What a word in a compound names.
#[derive(Clone, Copy)]
pub(crate) enum WordKind {
    Tag,
    Class,
    Id,
}

/// Where in a selector the reader is.
#[derive(Clone, Copy)]
pub(crate) enum Position {
    BeforeCompound,
    InWord(WordKind),
    InPseudo,
    InSeries(Row),
    AfterSimple,
    AfterCompound,
    BeforeName,
    InName,
    AfterName,
    BeforeEquals,
    BeforeValue,
    InValue,
    InQuotes(u8),
    AfterValue,
    /// After `i` or `s`: whether the case of ASCII letters doesn't count.
    AfterFlag(bool),
}

/// Where in an escape the reader is.
#[derive(Clone, Copy)]
pub(crate) enum Escape {
    Outside,
    /// After the backslash.
    Begun,
    /// After hexadecimal digits.
    Digits,
}

/// The pseudo-class whose parentheses are open, if they are; `Is` stands for `:where()` too.
#[derive(Clone, Copy, PartialEq, Eq)]
pub(crate) enum Group {
    Outside,
    Is,
    Not,
}

/// What was read so far.
#[derive(Drop)]
pub(crate) struct Reader {
    steps: Vec<Step>,
    relation: Relation,
    name: Vec<u8>,
    operator: Operator,
    word: Vec<u8>,
    // The word has an escape.
    escaped: bool,
    escape: Escape,
    digits: Vec<u8>,
    group: Group,
    compounds: Vec<Compound>,
    compound: Vec<Condition>,
    position: Position,
    alloc: Global,
}

impl Reader {
    /// A word begins.
    fn begin(&mut self, position: Position)
        ensures { reading_of self.new ≡ spec.begin position (reading_of self.old) }
    {
        self.word.clear();
        self.escaped = false;
        self.position = position;
    }

    fn push(&mut self, b: u8) -> Result<(), SelectorError>
        ensures ok { OnOk result (reading_of self.new ≡ spec.push b (reading_of self.old)) }
        ensures memory { IfErr result (λ e. e ≡ SelectorError.Memory) }
    {
        self.word.push(b)?;
        Ok(())
    }

    /// An escape begins.
    fn begin_escape(&mut self)
        ensures { reading_of self.new ≡ spec.begin_escape (reading_of self.old) }
    {
        self.escape = Escape::Begun;
        self.escaped = true;
    }

    /// No name was read up to this place.
    fn no_name(&self, place: usize) -> SelectorError
        ensures { result ≡ SelectorError.NoName (place - length self.now.word.items) }
    {
        let place = place.saturating_sub(self.word.len());
        SelectorError::NoName { place }
    }

    /// A name goes on.
    fn extend(&mut self, place: usize, b: u8) -> Result<(), SelectorError>
        ensures ok { OnOk result (spec.extend place b (reading_of self.old) ≡ Ok (reading_of self.new)) }
        ensures err { IfErr result (IsFault (spec.extend place b (reading_of self.old))) }
    {
        if b == b'\\' {
            self.begin_escape();
            return Ok(());
        }
        if b.is_ascii_digit() && is_no_name(self.escaped, self.word.as_slice()) {
            return Err(self.no_name(place));
        }
        self.push(b)
    }

    /// The word that was read, which has to be a name.
    fn take_name(&mut self, place: usize) -> Result<Vec<u8>, SelectorError>
        ensures name { IfOk result (λ name. name.items ≡ self.old.word.items) }
        ensures ok { OnOk result (reading_of self.new ≡ record (reading_of self.old) { word = [] }) }
        ensures good { OnOk result (spec.is_no_name self.old.escaped self.old.word.items ≡ false) }
        ensures err { IfErr result (λ e. e ≡ SelectorError.NoName (place - length self.old.word.items)) }
        ensures bad { OnErr result (spec.is_no_name self.old.escaped self.old.word.items ≡ true) }
    {
        if is_no_name(self.escaped, self.word.as_slice()) {
            return Err(self.no_name(place));
        }
        Ok(mem::replace(&mut self.word, Vec::new(self.alloc)))
    }

    fn add_step(&mut self, test: Test) -> Result<(), SelectorError>
        ensures ok { OnOk result (reading_of self.new ≡ spec.add_step (test_of test) (reading_of self.old)) }
        ensures memory { IfErr result (λ e. e ≡ SelectorError.Memory) }
    {
        let relation = self.relation;
        self.steps.push(Step { relation, test })?;
        self.relation = Relation::Same;
        self.position = Position::AfterSimple;
        Ok(())
    }

    fn add(&mut self, condition: Condition) -> Result<(), SelectorError>
        ensures ok { OnOk result (reading_of self.new ≡ spec.add (condition_of condition) (reading_of self.old)) }
        ensures memory { IfErr result (λ e. e ≡ SelectorError.Memory) }
    {
        match self.group {
            Group::Outside => self.add_step(Test::Asks(condition)),
            Group::Is | Group::Not => {
                self.compound.push(condition)?;
                self.position = Position::AfterSimple;
                Ok(())
            }
        }
    }

    /// A part of a compound begins with this byte.
    fn begin_simple(&mut self, place: usize, b: u8) -> Result<(), SelectorError>
        ensures ok { OnOk result (spec.begin_simple place b (reading_of self.old) ≡ Ok (reading_of self.new)) }
        ensures err { IfErr result (IsFault (spec.begin_simple place b (reading_of self.old))) }
    {
        match b {
            b'.' => self.begin(Position::InWord(WordKind::Class)),
            b'#' => self.begin(Position::InWord(WordKind::Id)),
            b'[' => self.begin(Position::BeforeName),
            b':' => self.begin(Position::InPseudo),
            b'>' | b'+' | b'~' | b',' => return Err(SelectorError::NoSelector { place }),
            _ => return Err(SelectorError::Unsupported { place }),
        }
        Ok(())
    }

    /// A compound begins with this byte.
    fn begin_compound(&mut self, place: usize, b: u8) -> Result<(), SelectorError>
        ensures ok { OnOk result (spec.begin_compound place b (reading_of self.old) ≡ Ok (reading_of self.new)) }
        ensures err { IfErr result (IsFault (spec.begin_compound place b (reading_of self.old))) }
    {
        if b == b'*' {
            return self.add(Condition::Any);
        }
        if !extends_name(b) {
            return self.begin_simple(place, b);
        }
        self.begin(Position::InWord(WordKind::Tag));
        self.extend(place, b)
    }

    /// A compound ends before this byte, if that is white space, `>`, `+`, `~` or a comma.
    fn end_compound(&mut self, b: u8) -> bool
        ensures value { result ≡ spec.ends_compound b }
        ensures reading { reading_of self.new
            ≡ (if result then spec.end_compound b (reading_of self.old) else reading_of self.old) }
    {
        match b {
            b'>' => {
                self.relation = Relation::Child;
                self.position = Position::BeforeCompound;
            }
            b'+' => {
                self.relation = Relation::Next;
                self.position = Position::BeforeCompound;
            }
            b'~' => {
                self.relation = Relation::After;
                self.position = Position::BeforeCompound;
            }
            b',' => {
                self.relation = Relation::Start;
                self.position = Position::BeforeCompound;
            }
            _ => {
                if !b.is_ascii_whitespace() {
                    return false;
                }
                self.position = Position::AfterCompound;
            }
        }
        true
    }

    fn before_compound(&mut self, place: usize, b: u8) -> Result<(), SelectorError>
        ensures ok { OnOk result (spec.before_compound place b (reading_of self.old) ≡ Ok (reading_of self.new)) }
        ensures err { IfErr result (IsFault (spec.before_compound place b (reading_of self.old))) }
    {
        if b.is_ascii_whitespace() {
            return Ok(());
        }
        self.begin_compound(place, b)
    }

    /// The compound that was read in parentheses.
    fn end_part(&mut self) -> Result<(), SelectorError>
        ensures ok { OnOk result (reading_of self.new ≡ spec.end_part (reading_of self.old)) }
        ensures memory { IfErr result (λ e. e ≡ SelectorError.Memory) }
    {
        let conditions = mem::replace(&mut self.compound, Vec::new(self.alloc));
        self.compounds.push(Compound { conditions })?;
        Ok(())
    }

    /// What stands in parentheses, as one step.
    fn close(&mut self, negated: bool) -> Result<(), SelectorError>
        ensures ok { OnOk result (reading_of self.new ≡ spec.close negated (reading_of self.old)) }
        ensures memory { IfErr result (λ e. e ≡ SelectorError.Memory) }
    {
        let compounds = mem::replace(&mut self.compounds, Vec::new(self.alloc));
        self.group = Group::Outside;
        self.add_step(Test::Among { negated, compounds })
    }

    /// A compound in parentheses ends before this byte.
    fn end_part_by(&mut self, negated: bool, b: u8) -> Result<(), SelectorError>
        ensures ok { OnOk result (reading_of self.new ≡ spec.end_part_by negated b (reading_of self.old)) }
        ensures memory { IfErr result (λ e. e ≡ SelectorError.Memory) }
    {
        match b {
            b')' => {
                self.end_part()?;
                self.close(negated)
            }
            b',' => {
                self.end_part()?;
                self.position = Position::BeforeCompound;
                Ok(())
            }
            _ => {
                self.position = Position::AfterCompound;
                Ok(())
            }
        }
    }

    fn after_simple_part(&mut self, negated: bool, place: usize, b: u8) -> Result<(), SelectorError>
        ensures ok { OnOk result
            (spec.after_simple_part negated place b (reading_of self.old) ≡ Ok (reading_of self.new)) }
        ensures err { IfErr result (IsFault (spec.after_simple_part negated place b (reading_of self.old))) }
    {
        if ends_part(b) {
            return self.end_part_by(negated, b);
        }
        if begins_relation(b) {
            return Err(SelectorError::Unsupported { place });
        }
        self.begin_simple(place, b)
    }

    fn after_simple_outside(&mut self, place: usize, b: u8) -> Result<(), SelectorError>
        ensures ok { OnOk result
            (spec.after_simple_in Group.Outside place b (reading_of self.old) ≡ Ok (reading_of self.new)) }
        ensures err { IfErr result (IsFault (spec.after_simple_in Group.Outside place b (reading_of self.old))) }
    {
        if self.end_compound(b) {
            return Ok(());
        }
        self.begin_simple(place, b)
    }

    fn after_simple(&mut self, place: usize, b: u8) -> Result<(), SelectorError>
        ensures ok { OnOk result (spec.after_simple place b (reading_of self.old) ≡ Ok (reading_of self.new)) }
        ensures err { IfErr result (IsFault (spec.after_simple place b (reading_of self.old))) }
    {
        match self.group {
            Group::Outside => self.after_simple_outside(place, b),
            Group::Is => self.after_simple_part(false, place, b),
            Group::Not => self.after_simple_part(true, place, b),
        }
    }

    fn after_part(&mut self, negated: bool, place: usize, b: u8) -> Result<(), SelectorError>
        ensures ok { OnOk result
            (spec.after_part negated place b (reading_of self.old) ≡ Ok (reading_of self.new)) }
        ensures err { IfErr result (IsFault (spec.after_part negated place b (reading_of self.old))) }
    {
        if !ends_part(b) {
            return Err(SelectorError::Unsupported { place });
        }
        self.end_part_by(negated, b)
    }

    fn after_compound_outside(&mut self, place: usize, b: u8) -> Result<(), SelectorError>
        ensures ok { OnOk result
            (spec.after_compound_in Group.Outside place b (reading_of self.old) ≡ Ok (reading_of self.new)) }
        ensures err { IfErr result (IsFault (spec.after_compound_in Group.Outside place b (reading_of self.old))) }
    {
        if self.end_compound(b) {
            return Ok(());
        }
        self.relation = Relation::Below;
        self.begin_compound(place, b)
    }

    fn after_compound(&mut self, place: usize, b: u8) -> Result<(), SelectorError>
        ensures ok { OnOk result (spec.after_compound place b (reading_of self.old) ≡ Ok (reading_of self.new)) }
        ensures err { IfErr result (IsFault (spec.after_compound place b (reading_of self.old))) }
    {
        match self.group {
            Group::Outside => self.after_compound_outside(place, b),
            Group::Is => self.after_part(false, place, b),
            Group::Not => self.after_part(true, place, b),
        }
    }

    /// Parentheses after the name of a pseudo-class that begins here.
    fn open_group(&mut self, start: usize, inner: Group) -> Result<(), SelectorError>
        ensures ok { OnOk result
            (spec.open_group start self.old.group inner (reading_of self.old) ≡ Ok (reading_of self.new)) }
        ensures err { IfErr result (IsFault (spec.open_group start self.old.group inner (reading_of self.old))) }
    {
        if self.group != Group::Outside || inner == Group::Outside {
            return Err(SelectorError::Unsupported { place: start });
        }
        self.group = inner;
        self.position = Position::BeforeCompound;
        Ok(())
    }

    fn open_parentheses(&mut self, start: usize) -> Result<(), SelectorError>
        ensures ok { OnOk result (spec.open_by (spec.row_named self.old.word.items) start (reading_of self.old)
            ≡ Ok (reading_of self.new)) }
        ensures err { IfErr result
            (IsFault (spec.open_by (spec.row_named self.old.word.items) start (reading_of self.old))) }
    {
        if let Some(row) = row_named(self.word.as_slice()) {
            self.begin(Position::InSeries(row));
            return Ok(());
        }
        let inner = group_named(self.word.as_slice());
        self.open_group(start, inner)
    }

    /// All up to `)` says which places.
    fn in_series(&mut self, row: Row, place: usize, b: u8) -> Result<(), SelectorError>
        ensures ok { OnOk result (spec.in_series row place b (reading_of self.old) ≡ Ok (reading_of self.new)) }
        ensures err { IfErr result (IsFault (spec.in_series row place b (reading_of self.old))) }
    {
        if b != b')' {
            return self.push(b);
        }
        let Some(series) = series_of(self.word.as_slice()) else {
            let place = place.saturating_sub(self.word.len());
            return Err(SelectorError::Unsupported { place });
        };
        self.add(Condition::Nth { row, series })
    }

    /// After the name of a pseudo-class.
    fn after_pseudo(&mut self, place: usize, b: u8) -> Result<(), SelectorError>
        ensures ok { OnOk result (spec.after_pseudo place b (reading_of self.old) ≡ Ok (reading_of self.new)) }
        ensures err { IfErr result (IsFault (spec.after_pseudo place b (reading_of self.old))) }
    {
        let start = place.saturating_sub(self.word.len()).saturating_sub(1);
        if b == b'(' {
            return self.open_parentheses(start);
        }
        let Some(condition) = pseudo_class(self.word.as_slice()) else {
            return Err(SelectorError::Unsupported { place: start });
        };
        self.add(condition)?;
        self.after_simple(place, b)
    }

    fn in_pseudo(&mut self, place: usize, b: u8) -> Result<(), SelectorError>
        ensures ok { OnOk result (spec.in_pseudo place b (reading_of self.old) ≡ Ok (reading_of self.new)) }
        ensures err { IfErr result (IsFault (spec.in_pseudo place b (reading_of self.old))) }
    {
        if extends_name(b) {
            return self.extend(place, b);
        }
        if is_no_name(self.escaped, self.word.as_slice()) {
            return Err(self.no_name(place));
        }
        self.after_pseudo(place, b)
    }

    fn in_word(&mut self, part: WordKind, place: usize, b: u8) -> Result<(), SelectorError>
        ensures ok { OnOk result (spec.in_word part place b (reading_of self.old) ≡ Ok (reading_of self.new)) }
        ensures err { IfErr result (IsFault (spec.in_word part place b (reading_of self.old))) }
    {
        if extends_name(b) {
            return self.extend(place, b);
        }
        let name = self.take_name(place)?;
        let condition = match part {
            WordKind::Tag => Condition::Tag(name),
            WordKind::Class => Condition::Class(name),
            WordKind::Id => Condition::Id(name),
        };
        self.add(condition)?;
        self.after_simple(place, b)
    }

    /// The sign of an operator, before its `=`.
    fn before_equals(&mut self, place: usize, b: u8) -> Result<(), SelectorError>
        ensures ok { OnOk result
            (spec.before_equals place (spec.operator_of b) (reading_of self.old) ≡ Ok (reading_of self.new)) }
        ensures err { IfErr result
            (IsFault (spec.before_equals place (spec.operator_of b) (reading_of self.old))) }
    {
        let Some(operator) = operator_of(b) else {
            return Err(SelectorError::Unclosed { place });
        };
        self.operator = operator;
        self.position = Position::BeforeEquals;
        Ok(())
    }

    /// After the name of an attribute.
    fn after_name(&mut self, place: usize, b: u8) -> Result<(), SelectorError>
        ensures ok { OnOk result (spec.after_name place b (reading_of self.old) ≡ Ok (reading_of self.new)) }
        ensures err { IfErr result (IsFault (spec.after_name place b (reading_of self.old))) }
    {
        match b {
            b'=' => {
                self.operator = Operator::Equals;
                self.begin(Position::BeforeValue);
            }
            b']' => {
                let name = mem::replace(&mut self.name, Vec::new(self.alloc));
                return self.add(Condition::Attribute(name));
            }
            _ => {
                if !b.is_ascii_whitespace() {
                    return self.before_equals(place, b);
                }
                self.position = Position::AfterName;
            }
        }
        Ok(())
    }

    fn in_name(&mut self, place: usize, b: u8) -> Result<(), SelectorError>
        ensures ok { OnOk result (spec.in_name place b (reading_of self.old) ≡ Ok (reading_of self.new)) }
        ensures err { IfErr result (IsFault (spec.in_name place b (reading_of self.old))) }
    {
        if extends_name(b) {
            self.position = Position::InName;
            return self.extend(place, b);
        }
        self.name = self.take_name(place)?;
        self.after_name(place, b)
    }

    fn before_name(&mut self, place: usize, b: u8) -> Result<(), SelectorError>
        ensures ok { OnOk result (spec.before_name place b (reading_of self.old) ≡ Ok (reading_of self.new)) }
        ensures err { IfErr result (IsFault (spec.before_name place b (reading_of self.old))) }
    {
        if b.is_ascii_whitespace() {
            return Ok(());
        }
        self.in_name(place, b)
    }

    /// `=` after the sign of an operator.
    fn at_equals(&mut self, place: usize, b: u8) -> Result<(), SelectorError>
        ensures ok { OnOk result (spec.at_equals place b (reading_of self.old) ≡ Ok (reading_of self.new)) }
        ensures err { IfErr result (IsFault (spec.at_equals place b (reading_of self.old))) }
    {
        if b != b'=' {
            return Err(SelectorError::Unsupported { place });
        }
        self.begin(Position::BeforeValue);
        Ok(())
    }

    /// An attribute with a value.
    fn add_value(&mut self, caseless: bool) -> Result<(), SelectorError>
        ensures ok { OnOk result (reading_of self.new ≡ spec.add_value caseless (reading_of self.old)) }
        ensures memory { IfErr result (λ e. e ≡ SelectorError.Memory) }
    {
        let name = mem::replace(&mut self.name, Vec::new(self.alloc));
        let value = mem::replace(&mut self.word, Vec::new(self.alloc));
        let comparison = Comparison {
            operator: self.operator,
            caseless,
        };
        self.add(Condition::Value {
            name,
            comparison,
            value,
        })
    }

    /// After the value of an attribute.
    fn after_value(&mut self, place: usize, b: u8) -> Result<(), SelectorError>
        ensures ok { OnOk result (spec.after_value place b (reading_of self.old) ≡ Ok (reading_of self.new)) }
        ensures err { IfErr result (IsFault (spec.after_value place b (reading_of self.old))) }
    {
        if b == b']' {
            let caseless = is_caseless_name(self.name.as_slice());
            return self.add_value(caseless);
        }
        if b.is_ascii_whitespace() {
            self.position = Position::AfterValue;
            return Ok(());
        }
        match b.to_ascii_lowercase() {
            b'i' => self.position = Position::AfterFlag(true),
            b's' => self.position = Position::AfterFlag(false),
            _ => return Err(SelectorError::Unclosed { place }),
        }
        Ok(())
    }

    fn after_flag(&mut self, caseless: bool, place: usize, b: u8) -> Result<(), SelectorError>
        ensures ok { OnOk result
            (spec.after_flag caseless place b (reading_of self.old) ≡ Ok (reading_of self.new)) }
        ensures err { IfErr result (IsFault (spec.after_flag caseless place b (reading_of self.old))) }
    {
        if b == b']' {
            return self.add_value(caseless);
        }
        if !b.is_ascii_whitespace() {
            return Err(SelectorError::Unclosed { place });
        }
        Ok(())
    }

    fn in_value(&mut self, place: usize, b: u8) -> Result<(), SelectorError>
        ensures ok { OnOk result (spec.in_value place b (reading_of self.old) ≡ Ok (reading_of self.new)) }
        ensures err { IfErr result (IsFault (spec.in_value place b (reading_of self.old))) }
    {
        if extends_name(b) {
            self.position = Position::InValue;
            return self.extend(place, b);
        }
        self.word = self.take_name(place)?;
        self.after_value(place, b)
    }

    fn before_value(&mut self, place: usize, b: u8) -> Result<(), SelectorError>
        ensures ok { OnOk result (spec.before_value place b (reading_of self.old) ≡ Ok (reading_of self.new)) }
        ensures err { IfErr result (IsFault (spec.before_value place b (reading_of self.old))) }
    {
        if b == b'"' || b == b'\'' {
            self.position = Position::InQuotes(b);
            return Ok(());
        }
        if b.is_ascii_whitespace() {
            return Ok(());
        }
        self.in_value(place, b)
    }

    fn in_quotes(&mut self, mark: u8, place: usize, b: u8) -> Result<(), SelectorError>
        ensures ok { OnOk result (spec.in_quotes mark place b (reading_of self.old) ≡ Ok (reading_of self.new)) }
        ensures err { IfErr result (IsFault (spec.in_quotes mark place b (reading_of self.old))) }
    {
        if b == mark {
            self.position = Position::AfterValue;
            return Ok(());
        }
        if b == b'\\' {
            self.begin_escape();
            return Ok(());
        }
        if is_line_end(b) {
            return Err(SelectorError::Unsupported { place });
        }
        self.push(b)
    }

    /// Reads the byte at this place, outside of escapes.
    fn read_by(&mut self, place: usize, b: u8) -> Result<(), SelectorError>
        ensures ok { OnOk result
            (spec.read_by self.old.position place b (reading_of self.old) ≡ Ok (reading_of self.new)) }
        ensures err { IfErr result (IsFault (spec.read_by self.old.position place b (reading_of self.old))) }
    {
        match self.position {
            Position::BeforeCompound => self.before_compound(place, b),
            Position::InWord(part) => self.in_word(part, place, b),
            Position::InPseudo => self.in_pseudo(place, b),
            Position::InSeries(row) => self.in_series(row, place, b),
            Position::AfterSimple => self.after_simple(place, b),
            Position::AfterCompound => self.after_compound(place, b),
            Position::BeforeName => self.before_name(place, b),
            Position::InName => self.in_name(place, b),
            Position::AfterName => self.after_name(place, b),
            Position::BeforeEquals => self.at_equals(place, b),
            Position::BeforeValue => self.before_value(place, b),
            Position::InValue => self.in_value(place, b),
            Position::InQuotes(mark) => self.in_quotes(mark, place, b),
            Position::AfterValue => self.after_value(place, b),
            Position::AfterFlag(caseless) => self.after_flag(caseless, place, b),
        }
    }

    /// The line goes on in the next one in quotation marks.
    fn in_next_line(&mut self, place: usize) -> Result<(), SelectorError>
        ensures ok { OnOk result
            (spec.in_next_line self.old.position place (reading_of self.old) ≡ Ok (reading_of self.new)) }
        ensures err { IfErr result (IsFault (spec.in_next_line self.old.position place (reading_of self.old))) }
    {
        match self.position {
            Position::InQuotes(_) => {
                self.escape = Escape::Outside;
                Ok(())
            }
            _ => Err(SelectorError::Unsupported { place }),
        }
    }

    fn after_backslash(&mut self, place: usize, b: u8) -> Result<(), SelectorError>
        ensures ok { OnOk result (spec.after_backslash place b (reading_of self.old) ≡ Ok (reading_of self.new)) }
        ensures err { IfErr result (IsFault (spec.after_backslash place b (reading_of self.old))) }
    {
        if b.is_ascii_hexdigit() {
            self.digits.clear();
            self.digits.push(b)?;
            self.escape = Escape::Digits;
            return Ok(());
        }
        if is_line_end(b) {
            return self.in_next_line(place);
        }
        self.escape = Escape::Outside;
        self.push(b)
    }

    /// The digits of an escape stand for their character.
    fn end_digits(&mut self) -> Result<(), SelectorError>
        ensures ok { OnOk result (reading_of self.new ≡ spec.end_digits (reading_of self.old)) }
        ensures memory { IfErr result (λ e. e ≡ SelectorError.Memory) }
    {
        let mut buffer = [0; 4];
        let character = escaped_character(self.digits.as_slice()).encode_utf8(&mut buffer);
        self.word.extend_from_slice(character.as_bytes())?;
        self.digits.clear();
        self.escape = Escape::Outside;
        Ok(())
    }

    /// Six digits at most, and white space that belongs to them.
    fn in_digits(&mut self, place: usize, b: u8) -> Result<(), SelectorError>
        ensures ok { OnOk result (spec.in_digits place b (reading_of self.old) ≡ Ok (reading_of self.new)) }
        ensures err { IfErr result (IsFault (spec.in_digits place b (reading_of self.old))) }
    {
        if b.is_ascii_hexdigit() && self.digits.len() < 6 {
            self.digits.push(b)?;
            return Ok(());
        }
        self.end_digits()?;
        if b.is_ascii_whitespace() {
            return Ok(());
        }
        self.read_by(place, b)
    }

    /// Reads the byte at this place.
    #[tactic(auto, unfolding(crate::specs::Reading::read))]
    fn read(&mut self, place: usize, b: u8) -> Result<(), SelectorError>
        ensures ok { OnOk result (spec.read place b (reading_of self.old) ≡ Ok (reading_of self.new)) }
        ensures err { IfErr result (IsFault (spec.read place b (reading_of self.old))) }
    {
        match self.escape {
            Escape::Outside => self.read_by(place, b),
            Escape::Begun => self.after_backslash(place, b),
            Escape::Digits => self.in_digits(place, b),
        }
    }

    /// What was read, if the text may end here.
    fn finish(self, place: usize) -> Result<Selectors, SelectorError>
        ensures ok { IfOk result (λ s. spec.finished_in self.group self.position place (steps_of self.steps.items)
            ≡ Ok (steps_in s)) }
        ensures err { IfErr result
            (IsFault (spec.finished_in self.group self.position place (steps_of self.steps.items))) }
    {
        if self.group != Group::Outside {
            return Err(SelectorError::Unclosed { place });
        }
        match self.position {
            Position::BeforeCompound => Ok(Selectors { steps: self.steps }),
            _ => Err(SelectorError::Unclosed { place }),
        }
    }
}

fn new_reader(alloc: Global) -> Reader
    ensures { reading_of result ≡ spec.nothing_read }
{
    Reader {
        steps: Vec::new(alloc),
        relation: Relation::Start,
        name: Vec::new(alloc),
        operator: Operator::Equals,
        word: Vec::new(alloc),
        escaped: false,
        escape: Escape::Outside,
        digits: Vec::new(alloc),
        group: Group::Outside,
        compounds: Vec::new(alloc),
        compound: Vec::new(alloc),
        position: Position::BeforeCompound,
        alloc,
    }
}

/// The selectors of a text: alternatives with commas between them, each read as if a comma stood after it.
pub fn parse_selectors(alloc: Global, text: &str) -> Result<Selectors, SelectorError>
    ensures ok { IfOk result (λ s. spec.steps_of_text text.now ≡ Ok (steps_in s)) }
    ensures err { IfErr result (IsFault (spec.steps_of_text text.now)) }
{
    let mut reader = new_reader(alloc);
    for (place, b) in text.as_bytes().iter().enumerate() {
        reader.read(place, *b)?;
    }
    reader.read(text.len(), b',')?;
    reader.finish(text.len())
}
