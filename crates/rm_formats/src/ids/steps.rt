ghost use Rattle.std.specs.Prelude.{◌≡◌, ◌-◌, ◌≤◌, ◌∷◌, [], ◌++◌, length, IfOk, IfErr, MatchResult};
ghost use Rattle.rm_types.specs.Ranges.{IsWithin};
ghost use Rattle.rm_formats.specs.IdTexts.{padded};
ghost use Rattle.rm_formats.specs.ids.Parts.{least_digits, greatest};
ghost use Rattle.rm_formats.specs.ids.Steps.{AreFields, Refuses, LeavesWord, Passes, StopsSpelling, NumberPasses, NumberStops};

use crate::ids::numbers::longest_front;
use crate::ids::parts::Part;
use thiserror::Error;

/// Bytes that are no text of an id, with how many of them are left behind the longest front with which one
/// begins.
#[derive(Clone, Copy, Debug, PartialEq, Eq, Error)]
#[error("no text of an id: {left} bytes are left behind its front")]
pub(crate) struct Stop {
    pub left: usize,
}

impl Stop {
    /// How long that front of the bytes is.
    pub fn place_in(self, bytes: &[u8]) -> usize
        requires { self.left ≤ length bytes.now }
        ensures { result ≡ length bytes.now - self.left }
    {
        bytes.len() - self.left
    }
}

/// What stands behind a word that the bytes begin with.
pub(crate) fn after_word<'a>(bytes: &'a [u8], word: &[u8]) -> Result<&'a [u8], Stop>
    ensures read { IfOk result (λ rest. bytes.now ≡ word.now ++ rest.now) }
    ensures stop { IfErr result (λ stop. LeavesWord word.now bytes.now stop.left) }
{
    let mut rest = bytes;
    for byte in word {
        match rest {
            [first, others @ ..] if first == byte => rest = others,
            _ => return Err(Stop { left: rest.len() }),
        }
    }
    Ok(rest)
}

/// A number, and what stands behind it.
pub(crate) fn number_at(bytes: &[u8], part: Part) -> Result<(u64, &[u8]), Stop>
    ensures within { IfOk result (λ read. IsWithin 1 (greatest part) read.0) }
    ensures read { IfOk result (λ read. bytes.now ≡ padded (least_digits part) read.0 ++ read.1.now) }
    ensures passes { IfOk result (λ read. NumberPasses part bytes.now read.1.now) }
    ensures stop { IfErr result (λ stop. NumberStops part bytes.now stop.left) }
{
    let (number, count) = longest_front(part, bytes);
    let (digits, rest) = bytes.split_at(count);
    if digits.len() < part.least_digits() {
        Err(Stop { left: rest.len() })
    } else {
        Ok((number, rest))
    }
}

/// A number behind a `_`, and what stands behind it.
pub(crate) fn field_at(bytes: &[u8], part: Part) -> Result<(u64, &[u8]), Stop>
    ensures within { IfOk result (λ read. IsWithin 1 (greatest part) read.0) }
    ensures read { IfOk result (λ read. bytes.now ≡ 95 ∷ (padded (least_digits part) read.0 ++ read.1.now)) }
    ensures passes { IfOk result (λ read. Passes (part ∷ []) bytes.now read.1.now) }
    ensures stop { IfErr result (λ stop. StopsSpelling (part ∷ []) bytes.now stop.left) }
{
    number_at(after_word(bytes, b"_")?, part)
}

/// Nothing stands here.
pub(crate) fn end_at(bytes: &[u8]) -> Result<(), Stop>
    ensures { MatchResult result (λ _. bytes.now ≡ []) (λ stop. Refuses (AreFields []) bytes.now stop.left) }
{
    if bytes.is_empty() {
        Ok(())
    } else {
        Err(Stop { left: bytes.len() })
    }
}
