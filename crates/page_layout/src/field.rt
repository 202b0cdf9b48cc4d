//! The fields of a page: numbers of 4 bytes, bounds and zeros.

ghost use Rattle.std.specs.Prelude.{◌≡◌, ◌≤◌, ◌<◌, ◌+◌, ◌-◌, ◌*◌, ◌^◌, ◌++◌, length, take, drop};
ghost use Rattle.std.specs.List.{flat_map};
ghost use Rattle.vec_record.specs.Limits.{is_between};
ghost use Rattle.page_gate.specs.Gate.{number_4};
ghost use Rattle.page_layout.specs.Fields.{word, zero_fields, first_bad};

use page_gate::Page;

/// The number in 4 bytes, the least byte first.
pub(crate) fn word_at(bytes: &[u8], at: usize) -> u32
    requires { at + 4 ≤ length bytes.now }
    ensures { result ≡ number_4 at bytes.now }
{
    let mut word = [0; 4];
    word.copy_from_slice(&bytes[at..at + 4]);
    u32::from_le_bytes(word)
}

/// Writes numbers one behind the other.
pub(crate) fn put_words(out: &mut Page, at: usize, words: &[u32])
    requires { at + 4 * length words.now ≤ 16384 }
    ensures page { length out.old ≡ 16384 }
    ensures written { out.new ≡ take at out.old ++ flat_map word words.now ++ drop
        (at + 4 * length words.now) out.old }
{
    // Seen as a slice, a page is known to have its length.
    let _page = out.as_slice();
    for k in 0..words.len() {
        out.put(at + 4 * k, &words[k].to_le_bytes());
    }
}

/// Whether a number is at least `low` and at most `high`.
pub(crate) fn is_between(low: u32, high: u32, number: u32) -> bool
    ensures { result ≡ is_between low high number }
{
    low <= number && number <= high
}

/// The offset of the first field that isn't lawful, of fields by rising offset.
pub(crate) fn first_bad(fields: &[(u32, bool)]) -> Option<u32>
    ensures { result ≡ first_bad fields.now }
{
    for (offset, lawful) in fields {
        if !*lawful {
            return Some(*offset);
        }
    }
    None
}

/// The offset of the first byte from `at` on and before `end` that isn't zero.
pub(crate) fn first_set(bytes: &[u8], at: usize, end: usize) -> Option<u32>
    requires order { at ≤ end }
    requires within { end ≤ length bytes.now }
    requires small { length bytes.now < 2 ^ 32 }
    ensures { result ≡ first_bad (zero_fields at (end - at) bytes.now) }
{
    for i in at..end {
        if bytes[i] != 0 {
            return Some(i as u32);
        }
    }
    None
}
