//! Standard input as a source.
ghost use Rattle.std.specs.Prelude.{◌≡◌, ◌≤◌, [], length, IfOk, false};
ghost use Rattle.site_disk.specs.Causes.{HasCause};

use crate::file_site::counted;
use crate::source::{Failed, Source};
use std::io::{self, ErrorKind, Read, Stdin};

/// Standard input. It tells nothing of the bytes that are left.
#[derive(Drop)]
pub struct StdSource {
    input: Stdin,
    faults: u64,
    last: Option<io::Error>,
}

impl StdSource {
    pub fn new(rt: &HostRuntime) -> StdSource
        ensures { result.faults ≡ 0 }
    {
        StdSource {
            input: rt.stdin(),
            faults: 0,
            last: None,
        }
    }

    /// Why the last call that failed did so.
    pub fn last_error(&self) -> Option<io::Error> {
        self.last
    }
}

/// Reads once, again where a signal cut in.
fn read_some(input: &mut Stdin, into: &mut [u8]) -> io::Result<usize>
    ensures { IfOk result (λ n. n ≤ length into.new) }
{
    for _ in 0..u64::MAX {
        match input.read(into) {
            Err(error) if error.kind() == ErrorKind::Interrupted => {}
            answer => return answer,
        }
    }
    Err(ErrorKind::TimedOut.into())
}

impl Source for StdSource {
    ghost tells = { false };

    ghost left = { λ _. [] };

    ghost faults = { λ s. s.faults };

    fn take(&mut self, into: &mut [u8]) -> Result<usize, Failed> {
        let answer = read_some(&mut self.input, into);
        counted(answer, &mut self.faults, &mut self.last)
    }
}
