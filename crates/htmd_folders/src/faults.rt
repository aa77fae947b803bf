//! Why a call of a store or the conversion of a page did not succeed.
ghost use Rattle.std.specs.Prelude.{◌≡◌};
ghost use Rattle.std.specs.Char.{is_ascii_digit};
ghost use Rattle.std.specs.List.{list_all};
ghost use Rattle.htmd_folders.specs.Hints as spec;

use crate::lines::ShownName;
use std::alloc::AllocError;
use std::fmt;
use std::io::ErrorKind;

/// Why a call of a store did not succeed.
#[derive(Debug, Clone, Copy, PartialEq, Eq, Drop)]
pub enum StoreFault {
    /// Reading, writing, closing or renaming failed, or memory ran out.
    Failed(ErrorKind),
    /// Something is under the name of a file that should be new.
    Taken,
    /// A link is where a file should come.
    Link,
    /// What is there is neither a file nor a link.
    NotAFile,
    /// The file that is there is protected.
    Protected,
}

impl From<AllocError> for StoreFault {
    fn from(_error: AllocError) -> StoreFault {
        StoreFault::Failed(ErrorKind::OutOfMemory)
    }
}

impl fmt::Display for StoreFault {
    fn fmt<W: fmt::Write>(&self, f: &mut fmt::Formatter<W>) -> fmt::Result {
        match self {
            StoreFault::Failed(ErrorKind::NotFound) => f.write_str("no such file or folder"),
            StoreFault::Failed(ErrorKind::InvalidFilename) => {
                f.write_str("a name that can't be used")
            }
            StoreFault::Failed(ErrorKind::AlreadyExists) => {
                f.write_str("a file is where a folder should come")
            }
            StoreFault::Failed(ErrorKind::NotADirectory) => {
                f.write_str("not a folder (the name of a link to one needs / behind it)")
            }
            StoreFault::Failed(kind) => write!(f, "{kind}"),
            StoreFault::Taken => f.write_str("too many unfinished outputs are beside it"),
            StoreFault::Link => f.write_str("it is a link"),
            StoreFault::NotAFile => f.write_str("not a file"),
            StoreFault::Protected => f.write_str(
                "the run reads or writes this file under another name",
            ),
        }
    }
}

fn is_address(name: &str) -> bool
    ensures { result ≡ spec.is_address name.now }
{
    name.starts_with("http://") || name.starts_with("https://")
}

fn are_digits(bytes: &[u8]) -> bool
    ensures { result ≡ list_all is_ascii_digit bytes.now }
{
    bytes.iter().all(|byte| byte.is_ascii_digit())
}

fn is_number(name: &str) -> bool
    ensures { result ≡ spec.is_number name.now }
{
    !name.is_empty() && are_digits(name.as_bytes())
}

/// An input that can't be opened, and why. Where nothing has its name, and that is an address or a number, what was
/// probably meant is said too.
#[derive(Clone, Copy, Drop)]
pub struct Unopened<'a> {
    pub input: &'a str,
    pub fault: StoreFault,
}

impl fmt::Display for Unopened<'_> {
    fn fmt<W: fmt::Write>(&self, f: &mut fmt::Formatter<W>) -> fmt::Result {
        let input = ShownName(self.input);
        write!(f, "{input}: {}", self.fault)?;
        if self.fault != StoreFault::Failed(ErrorKind::NotFound) {
            return Ok(());
        }
        if is_address(self.input) {
            return f.write_str(" (addresses aren't fetched: curl -sL URL | htmd --web --base=URL)");
        }
        if is_number(self.input) {
            return write!(
                f,
                " (values of options come after =, as in --chunks={input})"
            );
        }
        Ok(())
    }
}

/// Why a file was not copied.
#[derive(Debug, Clone, Copy, PartialEq, Eq, Drop)]
pub enum CopyFault {
    Read,
    Write,
}

impl fmt::Display for CopyFault {
    fn fmt<W: fmt::Write>(&self, f: &mut fmt::Formatter<W>) -> fmt::Result {
        f.write_str(match self {
            CopyFault::Read => "read failed",
            CopyFault::Write => "write failed",
        })
    }
}

/// Why a page was not converted, or a file not copied.
#[derive(Drop)]
pub enum PageFault<F> {
    /// The input can't be opened.
    Input(StoreFault),
    /// The output can't be made, or not be brought to its name.
    Output(StoreFault),
    /// The file can't be copied.
    Copy(CopyFault),
    /// The conversion did not succeed.
    Conversion(F),
}
