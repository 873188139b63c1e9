ghost use Rattle.std.specs.Prelude.{◌≡◌, ◌↔◌, Some, IfSome, not, position};
ghost use Rattle.std.specs.Option.{option_map};
ghost use Rattle.rm_types.specs.Texts.{is_printable};
ghost use Rattle.rm_lines.specs.Lines.{size_of_first};
ghost use Rattle.rm_script.specs.Faults.{line_at, limit_at, unprintable, broken_limit, IsOtherFault};

use crate::faults::{Form, Limit, ScriptFault};
use crate::forms::form_of;
use crate::limits::{MOST_BYTES, MOST_LINE_BYTES};
use crate::lines::{Line, is_printable, line_of};
use rm_lines::{LineError, cut_line, is_skipped};
use rm_types::MOST_LINES;
use std::alloc::Global;

/// A line of a script, and where it stands.
#[derive(Drop)]
struct Place<'a> {
    /// The bytes before it.
    before: &'a [u8],
    /// Its bytes, without the line feed.
    text: &'a [u8],
    /// How many bytes there are with it, its line feed counted.
    size: usize,
}

/// The line of this number, counted from 1.
fn place_of(bytes: &[u8], line: u32) -> Option<Place<'_>>
    ensures text { option_map (λ place. place.text.now) result ≡ line_at line bytes.now }
    ensures size { IfSome result (λ place. place.size ≡ size_of_first line bytes.now) }
{
    if line == 0 {
        return None;
    }
    let before = line - 1;
    let mut rest = bytes;
    'lines: for passed in 0..before {
        if rest.is_empty() {
            return None;
        }
        rest = cut_line(rest).1;
    }
    if rest.is_empty() {
        return None;
    }
    let (text, after) = cut_line(rest);
    Some(Place {
        before: &bytes[..bytes.len() - rest.len()],
        text,
        size: bytes.len() - after.len(),
    })
}

/// Where the first byte stands that isn't printable.
fn unprintable_place(text: &[u8]) -> Option<usize>
    ensures { result ≡ position (λ byte. not (is_printable byte)) text.now }
{
    text.iter().position(|byte| !is_printable(*byte))
}

/// The first byte that isn't printable.
fn unprintable(text: &[u8]) -> Option<Limit>
    ensures { result ≡ unprintable text.now }
{
    match unprintable_place(text) {
        Some(place) => Some(Limit::Printable {
            column: place + 1,
            byte: text[place],
        }),
        None => None,
    }
}

/// The first limit that a line breaks, by its number, the bytes with it and its text.
fn limit_at(line: u32, size: usize, text: &[u8]) -> Option<Limit>
    ensures { result ≡ limit_at line size text.now }
{
    if line > MOST_LINES {
        Some(Limit::Lines)
    } else if size > MOST_BYTES {
        Some(Limit::Bytes)
    } else if text.len() > MOST_LINE_BYTES {
        Some(Limit::LineBytes { length: text.len() })
    } else {
        unprintable(text)
    }
}

/// How the lines so far leave a script.
#[derive(Clone, Copy, PartialEq, Eq)]
enum Standing {
    /// No life goes on.
    Between,
    /// A life goes on, and no message waits for the end of its segment.
    Closed,
    /// One goes on, and some do.
    Sending,
}

impl Standing {
    /// The same after one more line, which may stand there.
    fn after(self, text: &[u8]) -> Standing {
        match form_of(text) {
            _ if is_skipped(text) => self,
            Form::Start | Form::Settle => Standing::Closed,
            Form::Crash => Standing::Between,
            _ => Standing::Sending,
        }
    }
}

/// How the lines of the bytes leave a script, where each may stand there.
fn standing_after(bytes: &[u8]) -> Standing {
    let mut standing = Standing::Between;
    let mut rest = bytes;
    'lines: while !rest.is_empty() {
        let (text, after) = cut_line(rest);
        standing = standing.after(text);
        rest = after;
    }
    standing
}

/// What is wrong with the place of a line that is one by itself, where something is.
fn place_fault(before: &[u8], form: Form, line: &Line) -> ScriptFault
    ensures { IsOtherFault result }
{
    let lives = standing_after(before) != Standing::Between;
    match line {
        Line::Start(_) if lives => ScriptFault::LifeGoesOn,
        Line::Skipped | Line::Start(_) => ScriptFault::Untold { form },
        _ if lives => ScriptFault::Untold { form },
        _ => ScriptFault::NoLife { form },
    }
}

/// Why a line that breaks no limit is refused.
fn line_fault(alloc: Global, before: &[u8], text: &[u8]) -> ScriptFault
    ensures { IsOtherFault result }
{
    let form = form_of(text);
    match line_of(alloc, text) {
        Ok(line) => place_fault(before, form, &line),
        Err(LineError::Refused(fault)) => ScriptFault::Line { form, fault },
        Err(LineError::Memory) => ScriptFault::Untold { form },
    }
}

/// Why the line after the last is refused.
fn end_fault(bytes: &[u8]) -> ScriptFault
    ensures { IsOtherFault result }
{
    match standing_after(bytes) {
        Standing::Sending => ScriptFault::Unclosed,
        _ => ScriptFault::Untold {
            form: Form::Unknown,
        },
    }
}

/// Why the bytes are refused at this line, as `read_script` tells it. A limit is told exactly where the line breaks it. For what else
/// is wrong with the line it is read once more; where no memory is found for that, and of bytes and a line that no reading refused, the
/// form of such lines is told.
pub fn why(alloc: Global, bytes: &[u8], line: u32) -> ScriptFault
    ensures { (limit : Limit) → (result ≡ ScriptFault.Limit limit) ↔ (broken_limit line bytes.now ≡ Some limit) }
{
    let Some(place) = place_of(bytes, line) else {
        return end_fault(bytes);
    };
    match limit_at(line, place.size, place.text) {
        Some(limit) => ScriptFault::Limit(limit),
        None => line_fault(alloc, place.before, place.text),
    }
}
