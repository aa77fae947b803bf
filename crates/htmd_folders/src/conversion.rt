//! What pages become.
ghost use Rattle.std.specs.Prelude.{◌≡◌, false, OnOk};
ghost use Rattle.htmd_folders.specs.Pages as spec;

use htmd_files::Page;
use htmd_streams::{Sink, Source};

/// A conversion of what a source gives into what a sink takes.
pub trait Conversion {
    /// Why a conversion did not succeed.
    type Fault: Drop;

    // The page whose input holds the first bytes becomes the second ones.
    ghost becomes: { Self → spec.Conversion };

    /// Reads the whole source, which is the input of the page, and writes what it becomes to the sink. What is to be
    /// said of parts of the source goes to the sink for errors.
    fn convert<R: Source, W: Sink, E: Sink>(
        &self,
        page: &Page,
        source: &mut R,
        sink: &mut W,
        errors: &mut E,
    ) -> Result<(), Self::Fault>
        requires source { R.has_failed source.old ≡ false }
        requires sink { W.has_failed sink.old ≡ false }
        ensures { OnOk result (spec.Becomes (becomes self.now page.now)
            (R.remaining source.old) (W.contents sink.old) (W.contents sink.new)) };

    /// Says on the sink for errors why the page of this name was not converted.
    fn report<E: Sink>(&self, page: &str, fault: &Self::Fault, errors: &mut E);
}
