//! The program `htmd`: converts files, or standard input, into Markdown.
#![tactic(auto)]

use htmd_command::{HostStore, Input, Output, RunError, run_program};
use std::alloc::AllocError;
use std::env;
use std::env::{Env, FillError};
use std::io::IsTerminal;
use std::process::ExitCode;

fn main(rt: HostRuntime) -> ExitCode {
    match words(&rt) {
        Ok(words) => {
            let mut source = Input::new(rt.stdin());
            let mut sink = Output::new(rt.stdout());
            let mut errors = Output::new(rt.stderr());
            let status = run_program(
                rt.alloc(),
                words.as_slice(),
                &mut HostStore::new(rt.alloc(), &rt),
                &mut source,
                &mut sink,
                &mut errors,
                rt.stderr().is_terminal(),
            );
            ExitCode::from(status)
        }
        Err(AllocError) => {
            let error = RunError::Memory;
            let _ = eprintln!(rt; "htmd: {error}");
            ExitCode::FAILURE
        }
    }
}

// The words after the program's name.
fn words(rt: &HostRuntime) -> Result<Vec<String>, AllocError> {
    let readable = ReadableWords { runtime: rt };
    match env::args(&(readable, rt.alloc())) {
        Ok(all) => all.skip(1).collect(rt.alloc()),
        // Each word is read: only memory can be missing.
        Err(_) => Err(AllocError),
    }
}

/// The words of the command line, of which one that can't be read as text is the empty text.
#[derive(Drop)]
struct ReadableWords<'a> {
    runtime: &'a HostRuntime,
}

impl Env for ReadableWords<'_> {
    fn arg(&self, index: usize, buffer: &mut [u8]) -> Result<usize, FillError> {
        let len = self.runtime.arg(index, buffer)?;
        match str::from_utf8(&buffer[..len]) {
            Ok(_) => Ok(len),
            Err(_) => Ok(0),
        }
    }

    fn var(&self, name: &str, buffer: &mut [u8]) -> Result<usize, FillError> {
        self.runtime.var(name, buffer)
    }

    fn var_at(&self, index: usize, buffer: &mut [u8]) -> Result<usize, FillError> {
        self.runtime.var_at(index, buffer)
    }
}
