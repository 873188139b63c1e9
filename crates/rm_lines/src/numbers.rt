ghost use Rattle.std.specs.Prelude.{◌≡◌};
ghost use Rattle.std.specs.Fmt.{decimal};
ghost use Rattle.rm_types.specs.Ranges.{IsWithin};
ghost use Rattle.rm_lines.specs.Numbers.{digit_after, number_after, number_of, number_within, number_between};
ghost use Rattle.rm_lines.specs.Results.{Finds, IsOf};

use crate::errors::LineError;
use crate::faults::{Excerpt, LineFault, Part};

/// The number that decimal digits write: at least one, with no zero before them. `None` where the text is
/// no such digits, or they write 2^64 or more.
fn number_of(text: &[u8]) -> Option<u64>
    ensures { result ≡ number_of text.now }
{
    match text {
        [] => None,
        [b'0', _, ..] => None,
        _ => digits_value(text),
    }
}

/// The number with one digit more. `None` where the byte is no digit, or the number leaves 64 bits.
fn digit_after(number: u64, digit: u8) -> Option<u64>
    ensures { result ≡ digit_after number digit }
{
    if digit.is_ascii_digit() {
        number.checked_mul(10)?.checked_add(u64::from(digit - b'0'))
    } else {
        None
    }
}

/// The number that the digits write, zeros before it or not; 0 where there is no digit.
fn digits_value(digits: &[u8]) -> Option<u64>
    ensures { result ≡ number_after 0 digits.now }
{
    let mut number: u64 = 0;
    'digits: for digit in digits {
        number = digit_after(number, *digit)?;
    }
    Some(number)
}

/// The number, where it is neither below the least nor above the greatest.
fn number_within(number: u64, least: u64, greatest: u64) -> Option<u64>
    ensures { result ≡ number_within least greatest number }
{
    if least <= number && number <= greatest {
        Some(number)
    } else {
        None
    }
}

/// The number that the text writes in decimal digits, with no zero before them, where it is neither below the least nor above the
/// greatest; `None` where it writes no such number.
pub fn number_in(text: &[u8], least: u64, greatest: u64) -> Option<u64>
    ensures { result ≡ number_between least greatest text.now }
{
    let number = number_of(text)?;
    number_within(number, least, greatest)
}

/// The number that the part is, neither below the least nor above the greatest.
pub fn long_number(word: &[u8], part: Part, least: u64, greatest: u64) -> Result<u64, LineError>
    ensures { Finds result (IsOf decimal (IsWithin least greatest) word.now) }
{
    match number_in(word, least, greatest) {
        Some(number) => Ok(number),
        None => Err(LineError::Refused(LineFault::Number {
            part,
            least,
            greatest,
            found: Excerpt::of(word),
        })),
    }
}

/// The same of a number of 32 bits.
pub fn number(word: &[u8], part: Part, least: u32, greatest: u32) -> Result<u32, LineError>
    ensures { Finds result (IsOf decimal (IsWithin least greatest) word.now) }
{
    let number = long_number(word, part, u64::from(least), u64::from(greatest))?;
    Ok(number as u32)
}
