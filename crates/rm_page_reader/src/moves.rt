ghost use Rattle.std.specs.Prelude.{◌≡◌, ◌∷◌, ◌++◌, [], ℕ, List, not, true, false, All, IfOk, IfErr, IfSome, None, IsTrue, drop, length, ◌+◌, codes};
ghost use Rattle.rm_types.specs.Lanes.{lane_of_entry};
ghost use Rattle.rm_formats.specs.Page.{lane_letter, letters};
ghost use Rattle.rm_page.specs.Ranges.{IsEntry};
ghost use Rattle.rm_page.specs.Shown.{is_silent};
ghost use Rattle.rm_page_reader.specs.Answers.{Fit, IsLogOf, IsSilentLetter, IsToldEntry};

use rm_lines::{LineError, LineFault};
use rm_page::page;
use rm_types::{Entry, Items, Lane};
use std::alloc::Global;

/// How the last line of a page with moves begins.
const MOVES: &[u8] = b"moves ";

/// The letters of a line of moves, if it is one.
pub(crate) fn letters_in(line: &[u8]) -> Option<&[u8]>
    ensures moves { IfSome result (λ letters. line.now ≡ codes "moves " ++ letters.now) }
    ensures none { result ≡ None → (letters : List ℕ) → line.now ≡ codes "moves " ++ letters → ⊥ }
{
    line.strip_prefix(MOVES)
}

/// The log of which these entries have lines, and whose moves have these letters: it has a silent entry for each letter that
/// is none of a line's.
///
/// A letter is taken for the next line's wherever it may be. Where the letters fit any such log, they fit this one.
pub(crate) fn with_moves(
    alloc: Global,
    heard: Items<Entry>,
    moves: &[u8],
) -> Result<Items<Entry>, LineError>
    requires { All IsToldEntry heard }
    ensures log { IfOk result (IsLogOf heard moves.now) }
    ensures only { IfErr result (λ error. Fit moves.now (letters heard) → error ≡ LineError.Memory) }
{
    let text = page(alloc, &heard, true)?;
    let own = letters_at_end(text.as_slice(), heard.len());
    let mut log = Items::new(alloc);
    let mut place = 0;
    let mut left = heard.into_vec().into_iter();
    'letters: for letter in moves {
        if is_at(own, place, *letter) {
            log.push(left.next().ok_or(LineError::Refused(LineFault::Form))?)?;
            place += 1;
        } else {
            log.push(silent(*letter)?)?;
        }
    }
    match left.next() {
        Some(_) => Err(LineError::Refused(LineFault::Form)),
        None => Ok(log),
    }
}

/// The last letters of a page with moves, as many as there are.
fn letters_at_end(page: &[u8], count: usize) -> &[u8]
    ensures none { page.now ≡ [] → result.now ≡ [] }
    ensures own { (front own : List ℕ) → page.now ≡ front ++ (own ++ codes "\n") → count ≡ length own → result.now ≡ own }
{
    if count < page.len() {
        &page[page.len() - 1 - count..page.len() - 1]
    } else {
        &[]
    }
}

/// Whether the letter stands at the place.
fn is_at(letters: &[u8], place: usize, letter: u8) -> bool
    ensures there { result ≡ true → drop place letters.now ≡ letter ∷ drop (place + 1) letters.now }
    ensures not_there { result ≡ false → (rest : List ℕ) → drop place letters.now ≡ letter ∷ rest → ⊥ }
{
    place < letters.len() && letters[place] == letter
}

/// The silent entry with a letter: an operation is handed, or an event of a dispatcher had nothing to do.
fn silent(letter: u8) -> Result<Entry, LineError>
    ensures entry { IfOk result (λ entry. IsEntry entry × (is_silent entry ≡ true) × (lane_letter (lane_of_entry entry) ≡ letter ∷ [])) }
    ensures only { IfErr result (λ error. IsSilentLetter letter → ⊥) }
{
    match letter {
        b'h' => Ok(Entry::Handed),
        b'd' => Ok(Entry::Quiet { lane: Lane::Main }),
        b's' => Ok(Entry::Quiet { lane: Lane::Sched }),
        _ => Err(LineError::Refused(LineFault::Form)),
    }
}

/// Whether the entry has a line.
pub(crate) fn is_heard(entry: &Entry) -> bool
    ensures { result ≡ not (is_silent entry.now) }
{
    !matches!(entry, Entry::Handed | Entry::Quiet { .. })
}
