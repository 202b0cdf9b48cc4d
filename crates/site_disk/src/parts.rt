//! Whole pieces through calls that each take or give a part, as those of the system do.
ghost use Rattle.std.specs.Prelude.{◌≡◌, ◌≤◌, ◌+◌, ◌-◌, ◌^◌, ℕ, List, Bool, length, IsTrue, IfOk};
ghost use Rattle.site_disk.specs.Calls.{Reads};
ghost use Rattle.site_disk.specs.inside.Parts.{PutsPart, Puts, IsPart};

use std::io::{self, ErrorKind};

/// What takes bytes at an offset, a part of them at each call.
pub(crate) trait TakesParts {
    /// Whether things of this type tell what they hold.
    ghost tells: { Bool };

    /// The bytes that it holds, where they are told.
    ghost held: { Self → List ℕ };

    /// Takes the first bytes, and gives how many.
    fn write_part(&mut self, at: u64, bytes: &[u8]) -> io::Result<usize>
        requires { at + length bytes.now ≤ 2 ^ 63 - 1 }
        ensures bound { IfOk result (λ n. n ≤ length bytes.now) }
        ensures told { IsTrue tells
            → PutsPart at bytes.now result (held self.old) (held self.new) };
}

/// What gives bytes from an offset on, a part of them at each call.
pub(crate) trait GivesParts {
    /// Whether things of this type tell what they hold.
    ghost tells: { Bool };

    /// The bytes that it holds, where they are told.
    ghost held: { Self → List ℕ };

    /// Fills the start of `into`, and gives how many bytes: none only at the end or into no room.
    fn read_part(&mut self, at: u64, into: &mut [u8]) -> io::Result<usize>
        ensures bound { IfOk result (λ n. n ≤ length into.new) }
        ensures stays { IsTrue tells → held self.new ≡ held self.old }
        ensures told { IsTrue tells → IfOk result (λ n. IsPart at n into.new (held self.old)) };
}

/// Writes all of a piece. A call that a signal cut off is made again, and one that takes nothing
/// is an error.
pub(crate) fn write_whole<D: TakesParts>(device: &mut D, at: u64, bytes: &[u8]) -> io::Result<()>
    requires { at + length bytes.now ≤ 2 ^ 63 - 1 }
    ensures told { IsTrue D.tells
        → Puts at bytes.now result (D.held device.old) (D.held device.new) }
{
    let mut taken = 0;
    'parts: for _ in 0..u64::MAX {
        if taken >= bytes.len() {
            return Ok(());
        }
        match device.write_part(at + taken as u64, &bytes[taken..]) {
            Ok(0) => return Err(ErrorKind::WriteZero.into()),
            Ok(amount) => taken += amount,
            Err(error) if error.kind() == ErrorKind::Interrupted => {}
            Err(error) => return Err(error),
        }
    }
    Err(ErrorKind::TimedOut.into())
}

/// Fills a piece, with zeros past the end. A call that a signal cut off is made again.
pub(crate) fn read_whole<D: GivesParts>(device: &mut D, at: u64, into: &mut [u8]) -> io::Result<()>
    requires { at ≤ 2 ^ 63 - 1 }
    ensures stays { IsTrue D.tells → D.held device.new ≡ D.held device.old }
    ensures told { IsTrue D.tells → Reads at result into.new (D.held device.old) }
{
    let mut filled = 0;
    'parts: for _ in 0..u64::MAX {
        if filled >= into.len() {
            return Ok(());
        }
        match device.read_part(at + filled as u64, &mut into[filled..]) {
            Ok(0) => {
                into[filled..].fill(0);
                return Ok(());
            }
            Ok(amount) => filled += amount,
            Err(error) if error.kind() == ErrorKind::Interrupted => {}
            Err(error) => return Err(error),
        }
    }
    Err(ErrorKind::TimedOut.into())
}
