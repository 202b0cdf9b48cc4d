//! The whole input of a source, within the limit.

ghost use Rattle.std.specs.Prelude.{◌≡◌, ◌≤◌, ◌<◌, ◌+◌, ◌++◌, [], ℕ, List, IsTrue, OnOk, IfOk};
ghost use Rattle.std.specs.Prelude.{IsErrOf, length, vec_len};
ghost use Rattle.site_disk.specs.Causes.{Rose};
ghost use Rattle.session_desk.specs.Reading.{IsTaken};

use site_disk::{Failed, Source};
use std::alloc::{AllocError, Global};

/// The most bytes of an input: 64 MiB.
pub const INPUT_LIMIT: usize = 67_108_864;

/// Why an input was not read to its end.
#[derive(Clone, Copy, Debug, PartialEq, Eq)]
pub enum ReadFault {
    Source,
    TooMuch,
    Memory,
}

/// Reads the whole input, piece by piece, and asks for at most one byte past the limit.
pub fn read_all<S: Source>(alloc: Global, source: &mut S) -> Result<Vec<u8>, ReadFault>
    ensures whole { IsTrue S.tells → IfOk result (λ input. S.left source.old ≡ input.items) }
    ensures ended { IsTrue S.tells → OnOk result (S.left source.new ≡ []) }
    ensures few { IfOk result (λ input. length input.items ≤ INPUT_LIMIT) }
    ensures too_much { IsTrue S.tells → IsErrOf result ReadFault.TooMuch → INPUT_LIMIT
        < length (S.left source.old) }
    ensures taken { IsTrue S.tells
        → IsTaken (INPUT_LIMIT + 1) (S.left source.old) (S.left source.new) }
    ensures failed { IsErrOf result ReadFault.Source
        → Rose (S.faults source.old) (S.faults source.new) }
    ensures later { S.faults source.old ≤ S.faults source.new }
{
    let mut input = Vec::new(alloc);
    let mut piece = [0u8; 4096];
    'pieces: while input.len() <= INPUT_LIMIT {
        let room = (INPUT_LIMIT + 1 - input.len()).min(4096);
        let count = match source.take(&mut piece[..room]) {
            Ok(count) => count,
            Err(Failed) => return Err(ReadFault::Source),
        };
        if count == 0 {
            return Ok(input);
        }
        if append(&mut input, &piece[..count]).is_err() {
            return Err(ReadFault::Memory);
        }
    }
    Err(ReadFault::TooMuch)
}

fn append(input: &mut Vec<u8>, bytes: &[u8]) -> Result<(), AllocError>
    ensures { OnOk result (input.new.items ≡ input.old.items ++ bytes.now) }
{
    input.extend_from_slice(bytes)
}
