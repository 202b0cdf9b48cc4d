//! Numbers of one to ten digits.

ghost use Rattle.std.specs.Prelude.{◌≡◌, ◌≤◌, ◌<◌, ◌+◌, length};
ghost use Rattle.batch_text.specs.Numbers.{digits_from, number_of, within};

/// The number that digits make.
fn digits(text: &[u8]) -> Option<u64>
    requires { length text.now ≤ 10 }
    ensures { result ≡ digits_from 0 text.now }
{
    let mut value = 0u64;
    for byte in text {
        if !(48 <= *byte && *byte <= 57) {
            return None;
        }
        value = 10 * value + u64::from(*byte - 48);
    }
    Some(value)
}

/// The number that one to ten digits make.
fn number(text: &[u8]) -> Option<u64>
    ensures { result ≡ number_of text.now }
{
    if 1 <= text.len() && text.len() <= 10 {
        digits(text)
    } else {
        None
    }
}

/// A number of one to ten digits, from `low` to `high`.
pub fn number_within(text: &[u8], low: u32, high: u32) -> Option<u32>
    ensures { result ≡ within low high (number_of text.now) }
{
    match number(text) {
        None => None,
        Some(n) => {
            if u64::from(low) <= n && n <= u64::from(high) {
                Some(n as u32)
            } else {
                None
            }
        }
    }
}
