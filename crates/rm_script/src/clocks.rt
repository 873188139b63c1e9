ghost use Rattle.std.specs.Prelude.{◌∷◌, codes};
ghost use Rattle.rm_formats.specs.Wording.{clock_words};
ghost use Rattle.rm_lines.specs.Results.{Finds, IsOf};
ghost use Rattle.rm_script.specs.Messages.{IsScriptClockAsk, IsScriptMessage};
ghost use Rattle.rm_script.specs.Pieces.{said_pieces};

use crate::limits::GREATEST_TICK;
use rm_lines::{LineError, LineFault, Part, Words, attempt_id, long_number, text};
use rm_types::{ClockAsk, Message, TextKind};
use std::alloc::Global;

/// The message of the clock, by the words after `clock`.
pub(crate) fn clock_message(alloc: Global, words: Words<'_>) -> Result<Message, LineError>
    ensures { Finds result (IsOf said_pieces IsScriptMessage (codes "clock" ∷ words.entry)) }
{
    Ok(Message::Clock(clock_ask(alloc, words)?))
}

/// What the clock says.
fn clock_ask(alloc: Global, mut words: Words<'_>) -> Result<ClockAsk, LineError>
    ensures { Finds result (IsOf clock_words IsScriptClockAsk words.entry) }
{
    let verb = words.word()?;
    ask_by(alloc, verb, words)
}

/// The same by the word that says it and the words after that.
fn ask_by(alloc: Global, verb: &[u8], words: Words<'_>) -> Result<ClockAsk, LineError>
    ensures { Finds result (IsOf clock_words IsScriptClockAsk (verb.now ∷ words.entry)) }
{
    if verb == "tick".as_bytes() {
        tick(words)
    } else if verb == "expire".as_bytes() {
        expiry(alloc, words)
    } else {
        Err(LineError::Refused(LineFault::Form))
    }
}

/// So many milliseconds go by.
fn tick(mut words: Words<'_>) -> Result<ClockAsk, LineError>
    ensures { Finds result (IsOf clock_words IsScriptClockAsk (codes "tick" ∷ words.entry)) }
{
    let time = long_number(words.word()?, Part::Time, 1, GREATEST_TICK)?;
    words.end()?;
    Ok(ClockAsk::Tick(time))
}

/// A lease runs out.
fn expiry(alloc: Global, mut words: Words<'_>) -> Result<ClockAsk, LineError>
    ensures { Finds result (IsOf clock_words IsScriptClockAsk (codes "expire" ∷ words.entry)) }
{
    let whose = words.word()?;
    lease(alloc, whose, words)
}

/// The lease of a node or a master runs out, by the words after that.
fn lease(alloc: Global, whose: &[u8], words: Words<'_>) -> Result<ClockAsk, LineError>
    ensures { Finds result (IsOf clock_words IsScriptClockAsk (codes "expire" ∷ whose.now ∷ words.entry)) }
{
    if whose == "node".as_bytes() {
        node_lease(alloc, words)
    } else if whose == "master".as_bytes() {
        master_lease(words)
    } else {
        Err(LineError::Refused(LineFault::Form))
    }
}

fn node_lease(alloc: Global, mut words: Words<'_>) -> Result<ClockAsk, LineError>
    ensures { Finds result (IsOf clock_words IsScriptClockAsk (codes "expire" ∷ codes "node" ∷ words.entry)) }
{
    let node = text(alloc, words.word()?, Part::Node, TextKind::Node)?;
    words.end()?;
    Ok(ClockAsk::ExpireNode(node))
}

fn master_lease(mut words: Words<'_>) -> Result<ClockAsk, LineError>
    ensures { Finds result (IsOf clock_words IsScriptClockAsk (codes "expire" ∷ codes "master" ∷ words.entry)) }
{
    let attempt = attempt_id(words.word()?)?;
    words.end()?;
    Ok(ClockAsk::ExpireMaster(attempt))
}
