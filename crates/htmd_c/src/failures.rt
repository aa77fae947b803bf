//! Why a call has nothing to write.
ghost use Rattle.std.specs.Prelude.{◌≡◌};
ghost use Rattle.htmd.specs.declared.page_error.PageError.TheVariants.{Memory};
ghost use Rattle.htmd_c.specs.declared.failures.Failure.TheVariants.{Page};

use htmd::PageError;
use std::alloc::AllocError;

/// Why bytes become nothing.
#[derive(Drop)]
pub(crate) enum Failure {
    /// A number of the struct is none that its field may have.
    BadOptions,
    /// What is to be converted isn't told by selectors.
    BadSelect,
    /// What is to be left out isn't told by selectors.
    BadDrop,
    /// What gives nothing isn't told by names.
    BadSkip,
    /// The base isn't an absolute URL.
    BadBase,
    /// The encoding isn't one that is supported.
    BadEncoding,
    /// The page becomes nothing.
    Page(PageError),
}

impl From<PageError> for Failure {
    ghost from_gives = { λ e failure. failure ≡ Page e };

    fn from(e: PageError) -> Failure {
        Failure::Page(e)
    }
}

impl From<AllocError> for Failure {
    ghost from_gives = { λ _ failure. failure ≡ Page Memory };

    fn from(_error: AllocError) -> Failure {
        Failure::Page(PageError::Memory)
    }
}
