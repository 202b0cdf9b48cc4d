//! What page 0 says: the two gates, and where redo items lie.

ghost use Rattle.std.specs.Prelude.{◌≡◌, ◌<◌, ◌≤◌, ◌+◌, ◌*◌, length, MatchOption};
ghost use Rattle.page_gate.specs.Gate.{blank_by, is_signed, first_set, is_open, fits, gate_of};
ghost use Rattle.page_gate.specs.Gate.{number_4, number_8};

use crate::fault::OpenFault;

/// The redo gate of a file, or why the file isn't opened.
#[derive(Clone, Copy, Drop)]
pub(crate) enum Gate {
    Bad(OpenFault),
    Closed,
    /// The place of the redo items and their number.
    Open(u64, u32),
}

/// The number in 4 bytes, the least byte first.
pub(crate) fn number_4(bytes: &[u8], at: usize) -> u32
    requires { at + 4 ≤ length bytes.now }
    ensures { result ≡ number_4 at bytes.now }
{
    let mut word = [0; 4];
    word.copy_from_slice(&bytes[at..at + 4]);
    u32::from_le_bytes(word)
}

/// The number in 8 bytes, the least byte first.
pub(crate) fn number_8(bytes: &[u8], at: usize) -> u64
    requires { at + 8 ≤ length bytes.now }
    ensures { result ≡ number_8 at bytes.now }
{
    let mut word = [0; 8];
    word.copy_from_slice(&bytes[at..at + 8]);
    u64::from_le_bytes(word)
}

/// Whether no store has begun in a file of this length with this byte 0.
pub(crate) fn is_blank_by(len: u64, gate: u8) -> bool
    ensures { result ≡ blank_by len gate }
{
    len <= 1 || (len <= 32768 && gate != 1)
}

/// Whether the birth gate is open and the letters are there.
#[tactic(auto, unfolding(crate::specs::Gate::is_signed, crate::specs::Gate::part))]
fn is_signed(first: &[u8]) -> bool
    requires { 16384 ≤ length first.now }
    ensures { result ≡ is_signed first.now }
{
    first[0] == 1 && &first[2..8] == b"denswh".as_slice()
}

/// The place of the first byte that isn't zero, behind the fields.
#[tactic(auto, unfolding(crate::specs::Gate::first_set, crate::specs::Gate::part))]
fn first_set(first: &[u8]) -> Option<usize>
    requires { length first.now ≡ 16384 }
    ensures place { result ≡ first_set first.now }
    ensures bound { MatchOption result (Unit {0}) (λ i. i < 16384) }
{
    first[20..16384].iter().position(|b| *b != 0)
}

/// Whether the redo items may lie there.
#[tactic(auto, unfolding(crate::specs::Gate::fits))]
fn fits(len: u64, start: u64, count: u32) -> bool
    ensures { result ≡ fits len start count }
{
    start % 16384 == 0
        && start >= 32768
        && count >= 1
        && start <= len
        && 16392 * u64::from(count) <= len - start
}

/// What page 0 of a file of this length says.
pub(crate) fn gate_of(len: u64, first: &[u8]) -> Gate
    requires { length first.now ≡ 16384 }
    ensures { result ≡ gate_of len first.now }
{
    if is_blank_by(len, first[0]) {
        return Gate::Bad(OpenFault::Blank);
    }
    if len < 32768 {
        return Gate::Bad(OpenFault::Foreign);
    }
    if !is_signed(first) {
        return Gate::Bad(OpenFault::Foreign);
    }
    if let Some(i) = first_set(first) {
        let offset = 20 + i as u32;
        return Gate::Bad(OpenFault::Damaged { page: 0, offset });
    }
    if first[1] != 1 {
        return Gate::Closed;
    }
    let start = number_8(first, 8);
    let count = number_4(first, 16);
    if fits(len, start, count) {
        Gate::Open(start, count)
    } else {
        Gate::Bad(OpenFault::Damaged { page: 0, offset: 8 })
    }
}
