ghost use Rattle.std.specs.Prelude.{◌≡◌, ◌+◌, ◌<◌, ◌∷◌, ◌⊎◌, length};
ghost use Rattle.rm_lines.specs.Cuts.{IsFirstLine};
ghost use Rattle.rm_lines.specs.Lines.{lines_of, is_skipped};

use crate::cuts::halves;

/// The first line without its line feed, and what stands behind that.
pub fn cut_line(bytes: &[u8]) -> (&[u8], &[u8])
    ensures cut { IsFirstLine bytes.now result.0.now result.1.now }
    ensures lines { 0 < length bytes.now → lines_of bytes.now ≡ result.0.now ∷ lines_of result.1.now }
    ensures shorter { 0 < length bytes.now → length result.1.now < length bytes.now }
    ensures sizes { (length bytes.now ≡ length result.0.now + (1 + length result.1.now)) ⊎ ((length bytes.now ≡ length result.0.now) × (length result.1.now ≡ 0)) }
{
    match halves(bytes, b'\n') {
        Some(halves) => halves,
        None => (bytes, &[]),
    }
}

/// Whether a line says nothing: it is empty, or begins with `#`.
pub fn is_skipped(line: &[u8]) -> bool
    ensures { result ≡ is_skipped line.now }
{
    match line {
        [] => true,
        [first, ..] => *first == b'#',
    }
}
