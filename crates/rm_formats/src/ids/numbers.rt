ghost use Rattle.std.specs.Prelude.{◌≡◌, ◌+◌, ◌≤◌, ◌<◌, ◌∷◌, [], ◌++◌, length, take, SomeIff};
ghost use Rattle.rm_formats.specs.ids.Digits.{value_of, CanBeginNumber};

use crate::ids::parts::Part;

/// The number that the digits and one more byte write, where the text of some such number can begin with
/// them.
fn with_digit(part: Part, digits: &[u8], number: u64, byte: u8) -> Option<u64>
    requires begin { CanBeginNumber part digits.now }
    requires number { number ≡ value_of digits.now }
    ensures { SomeIff result (CanBeginNumber part (digits.now ++ byte ∷ [])) (value_of (digits.now ++ byte ∷ [])) }
{
    if !byte.is_ascii_digit() {
        return None;
    }
    let digit = u64::from(byte - b'0');
    if number > (part.greatest() - digit) / 10 {
        return None;
    }
    let next = number * 10 + digit;
    let count = digits.len() + 1;
    if count == part.least_digits() && next == 0 {
        return None;
    }
    if count > part.least_digits() && digits[0] == b'0' {
        return None;
    }
    Some(next)
}

/// The longest front of the bytes with which the text of some such number can begin: the number that its
/// digits write, and how many they are.
pub(crate) fn longest_front(part: Part, bytes: &[u8]) -> (u64, usize)
    ensures within { result.1 ≤ length bytes.now }
    ensures begin { CanBeginNumber part (take result.1 bytes.now) }
    ensures number { result.0 ≡ value_of (take result.1 bytes.now) }
    ensures longest { result.1 < length bytes.now → CanBeginNumber part (take (result.1 + 1) bytes.now) → ⊥ }
{
    let mut number = 0;
    for (count, byte) in bytes.iter().enumerate() {
        match with_digit(part, &bytes[..count], number, *byte) {
            Some(next) => number = next,
            None => return (number, count),
        }
    }
    (number, bytes.len())
}
