//! Numbers in decimal without a leading zero. The main calls are `read_number` and `push_number`.
ghost use Rattle.std.specs.Prelude.{◌≡◌, ℕ, ◌+◌, ◌^◌, ◌<◌, ◌≤◌, List, ◌++◌, IfSome, IfNone, OnOk, OnErr, length, decimal, option_map};
ghost use Rattle.std.specs.List.{prefix_len};
ghost use Rattle.std.specs.Str.Parse.{AllDigits, digits_value};
ghost use Rattle.text_grammar.specs.Numerals.{IsNumeral, number_at, is_digit, is_plain};

use itoa::Buffer;
use std::alloc::AllocError;

/// The number at the front of `bytes`, in decimal and with all of its digits, and the bytes behind
/// it. `None` where no digit stands there, a 0 in front of another digit, or a number above `limit`.
pub fn read_number(bytes: &[u8], limit: u64) -> Option<(u64, &[u8])>
    requires { limit < 2 ^ 63 }
    ensures value { option_map (λ x. (x.0, x.1.now)) result ≡ number_at limit bytes.now }
    ensures found { IfSome result (λ x. IsNumeral limit x.0 bytes.now x.1.now) }
    ensures none { IfNone result ((n : ℕ) (rest : List ℕ) → IsNumeral limit n bytes.now rest → ⊥) }
{
    let (digits, rest) = bytes.split_at(count_digits(bytes));
    if !spells_plainly(digits) {
        return None;
    }
    let value = value_up_to(digits, limit)?;
    Some((value, rest))
}

/// Writes `n` in decimal at the end. The error is want of memory, and changes nothing.
pub fn push_number(out: &mut Vec<u8>, n: u64) -> Result<(), AllocError>
    ensures ok { OnOk result (out.new.items ≡ out.old.items ++ decimal n) }
    ensures err { OnErr result (out.new.items ≡ out.old.items) }
{
    let mut buffer = Buffer::new();
    out.extend_from_slice(buffer.format(n).as_bytes())
}

// How many digits stand at the front.
fn count_digits(bytes: &[u8]) -> usize
    ensures within { result ≤ length bytes.now }
    ensures count { result ≡ prefix_len is_digit bytes.now }
{
    for (i, byte) in bytes.iter().enumerate() {
        if !byte.is_ascii_digit() {
            return i;
        }
    }
    bytes.len()
}

// Whether there is a digit, and no 0 in front of another one.
fn spells_plainly(digits: &[u8]) -> bool
    ensures { result ≡ is_plain digits.now }
{
    if digits.is_empty() {
        return false;
    }
    digits.len() == 1 || digits[0] != b'0'
}

// The number that the digits spell, where it is at most `limit`.
fn value_up_to(digits: &[u8], limit: u64) -> Option<u64>
    requires small { limit < 2 ^ 63 }
    requires digits { AllDigits 10 digits.now }
    ensures value { IfSome result (λ n. (n ≡ digits_value 10 digits.now) × (n ≤ limit)) }
    ensures none { IfNone result (limit < digits_value 10 digits.now) }
{
    let mut value: u64 = 0;
    for digit in digits {
        if value > limit / 10 {
            return None;
        }
        value = value * 10 + u64::from(*digit - b'0');
    }
    if value > limit {
        return None;
    }
    Some(value)
}
