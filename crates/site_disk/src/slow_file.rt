//! A file in memory that takes and gives one byte a call, and is cut in on before each.
ghost use Rattle.std.specs.Prelude.{◌≡◌, true};

use crate::file_bytes::put_in;
use crate::parts::{GivesParts, TakesParts};
use std::alloc::Global;
use std::io::{self, ErrorKind};

/// It tells its bytes.
#[derive(Drop)]
pub(crate) struct SlowFile {
    bytes: Vec<u8>,
    is_ready: bool,
}

impl SlowFile {
    pub(crate) fn new(alloc: Global) -> SlowFile {
        SlowFile {
            bytes: Vec::new(alloc),
            is_ready: false,
        }
    }

    pub(crate) fn bytes(&self) -> &[u8] {
        &self.bytes
    }

    /// Cuts in on every other call.
    fn cut_in(&mut self) -> io::Result<()>
        ensures { self.new.bytes ≡ self.old.bytes }
    {
        self.is_ready = !self.is_ready;
        if self.is_ready {
            return Err(ErrorKind::Interrupted.into());
        }
        Ok(())
    }
}

impl TakesParts for SlowFile {
    ghost tells = { true };

    ghost held = { λ f. f.bytes.items };

    fn write_part(&mut self, at: u64, bytes: &[u8]) -> io::Result<usize> {
        self.cut_in()?;
        let part = &bytes[..bytes.len().min(1)];
        put_in(&mut self.bytes, at, part)?;
        Ok(part.len())
    }
}

impl GivesParts for SlowFile {
    ghost tells = { true };

    ghost held = { λ f. f.bytes.items };

    fn read_part(&mut self, at: u64, into: &mut [u8]) -> io::Result<usize> {
        self.cut_in()?;
        let at = at as usize;
        if into.is_empty() || at >= self.bytes.len() {
            return Ok(0);
        }
        into[0] = self.bytes[at];
        Ok(1)
    }
}
