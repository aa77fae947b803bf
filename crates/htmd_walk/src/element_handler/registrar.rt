//! A registry that takes more handlers.

ghost use Rattle.std.specs.Prelude.{◌≡◌, ◌≤◌, IfOk, OnOk, OnErr, map, length};
ghost use Rattle.htmd_walk.specs.Choice.{no_handler, with_handler, with_options};

use super::ElementHandlers;
use super::registry::Registry;
use crate::options::Options;
use std::alloc::AllocError;

/// A registry that takes more handlers, if what was handed in before keeps its interface.
pub trait Registrar: Registry {
    /// The same handlers with other options.
    fn take_options(&mut self, options: Options)
        requires ready { Self.ready self.old }
        ensures config { Self.config self.new ≡ with_options (Self.config self.old) options }
        ensures ready { Self.ready self.new };

    /// Skips the elements of these tags from now on, and returns the index of the handler that does so. `Err` means out
    /// of memory.
    fn take_skipping(&mut self, tags: &[&str]) -> Result<usize, AllocError>
        requires ready { Self.ready self.old }
        ensures ok { OnOk result
            (Self.config self.new ≡ with_handler (Self.config self.old) (map (λ t. t.now) tags.now) no_handler) }
        ensures index { IfOk result (λ index. index ≡ length (Self.config self.old).handlers) }
        ensures err { OnErr result (Self.config self.new ≡ Self.config self.old) }
        ensures grown { length (Self.config self.old).handlers ≤ length (Self.config self.new).handlers }
        ensures ready { Self.ready self.new };
}

impl Registrar for ElementHandlers {
    fn take_options(&mut self, options: Options) {
        self.set_options(options);
    }

    fn take_skipping(&mut self, tags: &[&str]) -> Result<usize, AllocError> {
        let index = self.handlers.len();
        self.skip_tags(tags)?;
        Ok(index)
    }
}
