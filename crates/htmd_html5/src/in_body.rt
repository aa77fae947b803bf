//! The mode "in body".
ghost use Rattle.std.specs.Prelude.{◌≡◌, OnOk};
ghost use Rattle.htmd_html5.specs.Outcomes.{outcome};
ghost use Rattle.htmd_html5.specs.InBody as spec;

use crate::shared_rules::leave_template;
use crate::tokens::RunKind;
use htmd_html5_state::{HtmlState, NameSet, TagName};
use std::alloc::AllocError;

/// The end of the file ends the templates that are open.
pub(crate) fn end_of_file_in_template(state: &mut HtmlState) -> bool
    ensures { outcome state.new result ≡ spec.end_of_file_in_template state.old }
{
    let open = state.is_open(NameSet::Only(TagName::Template));
    if open {
        leave_template(state);
    }
    open
}

pub(crate) fn end_of_file_in_body(state: &mut HtmlState) -> bool
    ensures { outcome state.new result ≡ spec.end_of_file_in_body state.old }
{
    state.has_template_modes() && end_of_file_in_template(state)
}

pub(crate) fn put_run_in_body(
    state: &mut HtmlState,
    kind: RunKind,
    text: &str,
) -> Result<(), AllocError>
    ensures { OnOk result (state.new ≡ spec.run_in_body kind text.now state.old) }
{
    match kind {
        RunKind::Nulls => Ok(()),
        RunKind::White => {
            state.reconstruct()?;
            state.insert_text(text)
        }
        RunKind::Characters => {
            state.reconstruct()?;
            state.insert_text(text)?;
            state.set_frameset_ok(false);
            Ok(())
        }
    }
}
