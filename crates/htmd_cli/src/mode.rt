//! How a run by a mode reads and writes.
ghost use Rattle.std.specs.Prelude.{◌≡◌};
ghost use Rattle.htmd_cli.specs.ModeRuns.{options_of};

use htmd::options::{Options, TranslationMode};

/// How a run reads its input, and how it writes what Markdown can't express.
#[derive(Debug, Clone, Copy, PartialEq, Eq)]
pub struct Mode {
    /// The input is the text of one paragraph, and not HTML.
    pub text: bool,
    /// What has no Markdown is written as HTML. A text has nothing of that kind.
    pub faithful: bool,
}

impl Mode {
    /// The options by which its Markdown is written: the default ones, but Faithful if that is asked for.
    pub(crate) fn options(self) -> Options
        ensures { result ≡ options_of self.faithful }
    {
        let translation_mode = if self.faithful {
            TranslationMode::Faithful
        } else {
            TranslationMode::Pure
        };
        Options {
            translation_mode,
            ..Options::default()
        }
    }
}
