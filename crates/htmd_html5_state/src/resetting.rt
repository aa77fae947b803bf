//! How the insertion mode is reset.
ghost use Rattle.std.specs.Prelude.{◌≡◌, List};
ghost use Rattle.htmd_html5_state.specs.Names.{element_name_of};
ghost use Rattle.htmd_html5_state.specs.OpenElements.{OpenValue, is_empty};
ghost use Rattle.htmd_html5_state.specs.Resetting as spec;
ghost use Rattle.htmd_html5_state.specs.ResettingViews as views;

use crate::modes::InsertionMode;
use crate::names::{ElementName, HtmlName, TagName};
use crate::open_elements::split_innermost;
use crate::sets::{NameSet, Scope};
use crate::state::HtmlState;

/// The elements that may have a mode.
static DECIDING: [TagName; 15] = [
    TagName::Select,
    TagName::Td,
    TagName::Th,
    TagName::Tr,
    TagName::TBody,
    TagName::THead,
    TagName::TFoot,
    TagName::Caption,
    TagName::ColGroup,
    TagName::Table,
    TagName::Template,
    TagName::Head,
    TagName::Body,
    TagName::FrameSet,
    TagName::Html,
];

fn deciding() -> &'static [TagName]
    ensures { result.now ≡ views.deciding }
{
    &DECIDING
}

fn unless_outermost(mode: InsertionMode, is_outermost: bool) -> Option<InsertionMode>
    ensures { (outer : List OpenValue) → is_outermost ≡ is_empty outer
        → result ≡ spec.unless_outermost mode outer }
{
    if is_outermost { None } else { Some(mode) }
}

impl HtmlState {
    fn select_mode(&self) -> InsertionMode
        ensures { result ≡ spec.select_mode self.now.stack }
    {
        if self.is_in_scope(NameSet::Only(TagName::Table), Scope::Template) {
            InsertionMode::InSelectInTable
        } else {
            InsertionMode::InSelect
        }
    }

    fn html_mode(&self) -> InsertionMode
        ensures { result ≡ spec.html_mode self.now }
    {
        if self.head().is_some() {
            InsertionMode::AfterHead
        } else {
            InsertionMode::BeforeHead
        }
    }

    /// The mode for the innermost element that may have one, by its name.
    fn mode_for(&self, tag: TagName, is_outermost: bool) -> Option<InsertionMode>
        ensures { (outer : List OpenValue) → is_outermost ≡ is_empty outer
            → views.IsSelectMode tag outer self.now.stack
            → result ≡ spec.mode_for tag outer self.now }
    {
        match tag {
            TagName::Select => Some(self.select_mode()),
            TagName::Td | TagName::Th => unless_outermost(InsertionMode::InCell, is_outermost),
            TagName::Tr => Some(InsertionMode::InRow),
            TagName::TBody | TagName::THead | TagName::TFoot => Some(InsertionMode::InTableBody),
            TagName::Caption => Some(InsertionMode::InCaption),
            TagName::ColGroup => Some(InsertionMode::InColumnGroup),
            TagName::Table => Some(InsertionMode::InTable),
            TagName::Template => Some(self.template_mode()),
            TagName::Head => unless_outermost(InsertionMode::InHead, is_outermost),
            TagName::Body => Some(InsertionMode::InBody),
            TagName::FrameSet => Some(InsertionMode::InFrameset),
            TagName::Html => Some(self.html_mode()),
            _ => None,
        }
    }

    fn mode_for_name(&self, name: &ElementName, is_outermost: bool) -> Option<InsertionMode>
        ensures { (outer : List OpenValue) → is_outermost ≡ is_empty outer
            → views.IsSelectModeOf (element_name_of name.now) outer self.now.stack
            → result ≡ spec.mode_for_name (element_name_of name.now) outer self.now }
    {
        match name {
            ElementName::Html(HtmlName::Known(tag)) => self.mode_for(*tag, is_outermost),
            _ => None,
        }
    }

    /// The mode for what is open.
    fn mode_of(&self) -> InsertionMode
        ensures { result ≡ spec.mode_of self.now.stack self.now }
    {
        match split_innermost(self.stack.up_to_any(deciding())) {
            Some((outer, element)) => self
                .mode_for_name(&element.name, outer.is_empty())
                .unwrap_or(InsertionMode::InBody),
            None => InsertionMode::InBody,
        }
    }

    /// Resets the insertion mode appropriately.
    pub fn reset_insertion_mode(&mut self)
        ensures { self.new ≡ spec.reset_insertion_mode self.old }
    {
        let mode = self.mode_of();
        self.set_mode(mode);
    }
}
