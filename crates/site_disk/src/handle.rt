//! Open files, none of which stands in the place of a standard stream.
ghost use Rattle.std.specs.Prelude.{◌≤◌, ◌-◌, ◌^◌, ◌<ℤ◌, pos, [], IfOk, false};
ghost use Rattle.std.specs.Fd.{file_raw_fd};

use crate::parts::{GivesParts, TakesParts};
use std::fs::{File, OpenOptions, TryLockError};
use std::io::{self, ErrorKind};
use std::os::fd::AsRawFd;
use std::os::unix::fs::FileExt;

/// The greatest length that a file may have.
pub(crate) const MAX_LEN: u64 = 9_223_372_036_854_775_807;

/// The descriptor of standard error, the last of the three.
const STANDARD_ERROR: i32 = 2;

/// An open file whose descriptor is none of 0, 1 and 2. So what is meant for a standard stream
/// that was closed never reaches it, and nothing of it is read as input.
#[derive(Drop)]
pub(crate) struct Handle {
    file: File,
    ghost above: { pos 2 <ℤ file_raw_fd file },
}

/// Moves a file that has just been opened above the standard descriptors, where a closed one was
/// free.
fn moved_above(file: File) -> io::Result<Handle> {
    if file.as_raw_fd() > STANDARD_ERROR {
        return Ok(Handle { file });
    }
    let moved = file.try_clone()?;
    if moved.as_raw_fd() > STANDARD_ERROR {
        return Ok(Handle { file: moved });
    }
    Err(ErrorKind::Unsupported.into())
}

impl Handle {
    /// Opens a file.
    pub(crate) fn open(rt: &HostRuntime, how: &OpenOptions, name: &str) -> io::Result<Handle> {
        moved_above(how.open(rt, name)?)
    }

    /// Takes the advisory lock, where the file system has one. Where another program holds it, the
    /// error is `WouldBlock`.
    pub(crate) fn lock(&self) -> io::Result<()> {
        match self.file.try_lock() {
            Err(TryLockError::WouldBlock) => Err(ErrorKind::WouldBlock.into()),
            _ => Ok(()),
        }
    }

    /// The length of the file.
    pub(crate) fn length(&self) -> io::Result<u64>
        ensures { IfOk result (λ n. n ≤ 2 ^ 63 - 1) }
    {
        let len = self.file.metadata()?.len();
        if len > MAX_LEN {
            return Err(ErrorKind::InvalidData.into());
        }
        Ok(len)
    }

    /// Reaches the disk with the data and the length of the file.
    pub(crate) fn sync(&self) -> io::Result<()> {
        self.file.sync_all()
    }
}

impl TakesParts for Handle {
    ghost tells = { false };

    ghost held = { λ _. [] };

    fn write_part(&mut self, at: u64, bytes: &[u8]) -> io::Result<usize> {
        self.file.write_at(bytes, at)
    }
}

impl GivesParts for Handle {
    ghost tells = { false };

    ghost held = { λ _. [] };

    fn read_part(&mut self, at: u64, into: &mut [u8]) -> io::Result<usize> {
        if at > MAX_LEN {
            return Ok(0);
        }
        self.file.read_at(into, at)
    }
}
