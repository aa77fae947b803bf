//! The mode "initial".
ghost use Rattle.std.specs.Prelude.{◌≡◌, true, OnOk};
ghost use Rattle.htmd_html5_state.specs.Insertion.{insert_doctype};
ghost use Rattle.htmd_html5_state.specs.declared.modes.InsertionMode.TheVariants.{BeforeHtml};

use htmd_html5_state::{HtmlState, InsertionMode};
use std::alloc::AllocError;

/// A page without a doctype is in quirks mode.
pub(crate) fn leave_initial(state: &mut HtmlState)
    ensures { state.new ≡ record state.old { mode = BeforeHtml; quirks = true } }
{
    state.set_mode(InsertionMode::BeforeHtml);
    state.set_quirks(true);
}

pub(crate) fn put_doctype(state: &mut HtmlState, quirks: bool) -> Result<(), AllocError>
    ensures { OnOk result (state.new
        ≡ record (insert_doctype state.old) { mode = BeforeHtml; quirks = quirks }) }
{
    state.insert_doctype()?;
    state.set_mode(InsertionMode::BeforeHtml);
    state.set_quirks(quirks);
    Ok(())
}
