ghost use Rattle.std.specs.Prelude.{◌≡◌, ℕ, List, ◌++◌, ◌==◌, true, None, IfOk, IfErr, IfSome, position};
ghost use Rattle.std.specs.Option.{option_copied};
ghost use Rattle.rm_page.proofs.Bytes.{lacks};
ghost use Rattle.rm_lines.specs.Cuts.{IsFirstCut, after_label, before_end};

use crate::errors::LineError;
use crate::faults::LineFault;

/// Where a byte stands first.
fn place_of(text: &[u8], byte: u8) -> Option<usize>
    ensures { result ≡ position (λ one. one == byte) text.now }
{
    text.iter().position(|one| *one == byte)
}

/// What stands before the first such byte of a text, and what behind it.
pub fn halves(text: &[u8], byte: u8) -> Option<(&[u8], &[u8])>
    ensures halves { IfSome result (λ halves. IsFirstCut byte text.now halves.0.now halves.1.now) }
    ensures none { result ≡ None → lacks byte text.now ≡ true }
{
    match place_of(text, byte) {
        Some(place) => Some((&text[..place], &text[place + 1..])),
        None => None,
    }
}

/// What stands behind a name with which a text begins, where it does.
fn after_name<'a>(text: &'a [u8], name: &[u8]) -> Option<&'a [u8]>
    ensures { option_copied result ≡ after_label name.now text.now }
{
    text.strip_prefix(name)
}

/// What stands behind a name with which a text begins; a text that doesn't begin so is refused.
pub fn text_behind<'a>(text: &'a [u8], name: &[u8]) -> Result<&'a [u8], LineError>
    ensures behind { IfOk result (λ rest. text.now ≡ name.now ++ rest.now) }
    ensures none { IfErr result (λ error. (rest : List ℕ) → text.now ≡ name.now ++ rest → ⊥) }
{
    match after_name(text, name) {
        Some(rest) => Ok(rest),
        None => Err(LineError::Refused(LineFault::Form)),
    }
}

/// What stands before an end of a text, where it has that end.
fn before_end<'a>(text: &'a [u8], end: &[u8]) -> Option<&'a [u8]>
    ensures { option_copied result ≡ before_end end.now text.now }
{
    text.strip_suffix(end)
}

/// What stands before an end of a text; a text that doesn't end so is refused.
pub fn text_before<'a>(text: &'a [u8], end: &[u8]) -> Result<&'a [u8], LineError>
    ensures before { IfOk result (λ rest. text.now ≡ rest.now ++ end.now) }
    ensures none { IfErr result (λ error. (rest : List ℕ) → text.now ≡ rest ++ end.now → ⊥) }
{
    match before_end(text, end) {
        Some(rest) => Ok(rest),
        None => Err(LineError::Refused(LineFault::Form)),
    }
}
