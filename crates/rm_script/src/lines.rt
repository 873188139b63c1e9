ghost use Rattle.std.specs.Prelude.{◌≡◌, ◌≤◌, ◌&&◌, ◌∷◌, nat_le, length, codes};
ghost use Rattle.std.specs.List.{list_all};
ghost use Rattle.rm_types.specs.Texts.{is_printable};
ghost use Rattle.rm_lines.specs.Results.{Finds, IsOf};
ghost use Rattle.rm_script.specs.Messages.{IsScriptMessage};
ghost use Rattle.rm_script.specs.Pieces.{said_pieces};
ghost use Rattle.rm_script.specs.Limits.{most_line_bytes};
ghost use Rattle.rm_script.specs.Reading.{line_pieces, IsLine, IsLineAs};
ghost use Rattle.rm_script.specs.Scripts.{IsLineOfMessage};

use crate::clients::client_message;
use crate::clocks::clock_message;
use crate::limits::{GREATEST_CALLS, GREATEST_IMAGE, MOST_LINE_BYTES};
use crate::masters::master_message;
use crate::nodes::node_message;
use rm_lines::{LineError, LineFault, Part, Words, is_skipped, long_number, number};
use rm_types::{GREATEST_STAMP, Message};
use std::alloc::Global;

/// A line of a script by itself.
#[derive(Drop)]
pub enum Line {
    /// The line says nothing.
    Skipped,
    /// A life starts, with its stamp.
    Start(u64),
    /// The segment settles.
    Settle,
    /// The life crashes after so many device calls, and the device falls to this image.
    Crash { calls: u32, image: u32 },
    /// A message is delivered.
    Deliver(Message),
    /// A message is lost on its way.
    Lose(Message),
}

/// A line that starts a life, by the words after `start`.
fn start_line(mut words: Words<'_>) -> Result<Line, LineError>
    ensures { Finds result (IsOf line_pieces IsLine (codes "start" ∷ words.entry)) }
{
    let stamp = long_number(words.word()?, Part::Stamp, 1, GREATEST_STAMP)?;
    words.end()?;
    Ok(Line::Start(stamp))
}

/// A line that settles a segment.
fn settle_line(words: Words<'_>) -> Result<Line, LineError>
    ensures { Finds result (IsOf line_pieces IsLine (codes "settle" ∷ words.entry)) }
{
    words.end()?;
    Ok(Line::Settle)
}

/// A line that crashes a life, by the words after `crash`.
fn crash_line(mut words: Words<'_>) -> Result<Line, LineError>
    ensures { Finds result (IsOf line_pieces IsLine (codes "crash" ∷ words.entry)) }
{
    let calls = number(words.word()?, Part::Calls, 0, GREATEST_CALLS)?;
    let image = number(words.word()?, Part::Image, 0, GREATEST_IMAGE)?;
    words.end()?;
    Ok(Line::Crash { calls, image })
}

/// The message of a sender, by the words after it.
fn message_from(alloc: Global, sender: &[u8], words: Words<'_>) -> Result<Message, LineError>
    ensures { Finds result (IsOf said_pieces IsScriptMessage (sender.now ∷ words.entry)) }
{
    if sender == "client".as_bytes() {
        client_message(alloc, words)
    } else if sender == "master".as_bytes() {
        master_message(alloc, words)
    } else if sender == "node".as_bytes() {
        node_message(alloc, words)
    } else if sender == "clock".as_bytes() {
        clock_message(alloc, words)
    } else {
        Err(LineError::Refused(LineFault::Form))
    }
}

/// A message, by its words.
fn message_said(alloc: Global, mut words: Words<'_>) -> Result<Message, LineError>
    ensures { Finds result (IsOf said_pieces IsScriptMessage words.entry) }
{
    let sender = words.word()?;
    message_from(alloc, sender, words)
}

/// A line with a message that is lost, by the words after `lose`.
fn lose_line(alloc: Global, words: Words<'_>) -> Result<Line, LineError>
    ensures { Finds result (IsOf line_pieces IsLine (codes "lose" ∷ words.entry)) }
{
    Ok(Line::Lose(message_said(alloc, words)?))
}

/// A line by its first word and the words after that.
fn line_from(alloc: Global, word: &[u8], words: Words<'_>) -> Result<Line, LineError>
    ensures { Finds result (IsOf line_pieces IsLine (word.now ∷ words.entry)) }
{
    if word == "start".as_bytes() {
        start_line(words)
    } else if word == "settle".as_bytes() {
        settle_line(words)
    } else if word == "crash".as_bytes() {
        crash_line(words)
    } else if word == "lose".as_bytes() {
        lose_line(alloc, words)
    } else {
        Ok(Line::Deliver(message_from(alloc, word, words)?))
    }
}

/// A line by its words.
fn line_said(alloc: Global, mut words: Words<'_>) -> Result<Line, LineError>
    ensures { Finds result (IsOf line_pieces IsLine words.entry) }
{
    let word = words.word()?;
    line_from(alloc, word, words)
}

/// Whether a byte is printable.
pub(crate) fn is_printable(byte: u8) -> bool
    ensures { result ≡ is_printable byte }
{
    byte >= 0x20 && byte <= 0x7e
}

/// Whether each byte is.
fn all_printable(text: &[u8]) -> bool
    ensures { result ≡ list_all is_printable text.now }
{
    text.iter().all(|byte| is_printable(*byte))
}

/// Whether the text may stand in a script, whatever it says.
fn is_line_text(text: &[u8]) -> bool
    ensures { result ≡ (nat_le (length text.now) most_line_bytes && list_all is_printable text.now) }
{
    text.len() <= MOST_LINE_BYTES && all_printable(text)
}

/// A line by itself.
pub(crate) fn line_of(alloc: Global, text: &[u8]) -> Result<Line, LineError>
    ensures { Finds result (IsLineAs text.now) }
{
    if !is_line_text(text) {
        return Err(LineError::Refused(LineFault::Limit));
    }
    if is_skipped(text) {
        return Ok(Line::Skipped);
    }
    line_said(alloc, Words::of(text))
}

/// Reads one message, by its line without the line feed: what a client, a master, a node or the clock says. `Refused` tells what
/// is at fault, where the line is no message. `Memory` may come of any line.
pub fn read_message(alloc: Global, line: &[u8]) -> Result<Message, LineError>
    ensures { Finds result (IsLineOfMessage line.now) }
{
    if !is_line_text(line) {
        return Err(LineError::Refused(LineFault::Limit));
    }
    message_said(alloc, Words::of(line))
}
