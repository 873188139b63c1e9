ghost use Rattle.std.specs.Prelude.{◌∷◌, codes};
ghost use Rattle.rm_lines.specs.Results.{Finds, IsOf};
ghost use Rattle.rm_script.specs.Messages.{IsScriptMasterAsk, IsScriptMessage};
ghost use Rattle.rm_script.specs.Pieces.{master_pieces, said_pieces};

use crate::limits::GREATEST_RESPONSE;
use crate::lists::{Said, two_lists};
use rm_lines::{Excerpt, LineError, LineFault, Part, Words, attempt_id, number};
use rm_types::{Ask, ContainerId, MasterAsk, Message, TextKind};
use std::alloc::Global;

/// The message of a master, by the words after `master`.
pub(crate) fn master_message(alloc: Global, mut words: Words<'_>) -> Result<Message, LineError>
    ensures { Finds result (IsOf said_pieces IsScriptMessage (codes "master" ∷ words.entry)) }
{
    let attempt = attempt_id(words.word()?)?;
    let ask = master_ask(alloc, words)?;
    Ok(Message::Master(attempt, ask))
}

/// What a master asks.
fn master_ask(alloc: Global, mut words: Words<'_>) -> Result<MasterAsk, LineError>
    ensures { Finds result (IsOf master_pieces IsScriptMasterAsk words.entry) }
{
    let verb = words.word()?;
    ask_by(alloc, verb, words)
}

/// The same by the word that says it and the words after that.
fn ask_by(alloc: Global, verb: &[u8], words: Words<'_>) -> Result<MasterAsk, LineError>
    ensures { Finds result (IsOf master_pieces IsScriptMasterAsk (verb.now ∷ words.entry)) }
{
    if verb == "register".as_bytes() {
        register_ask(words)
    } else if verb == "allocate".as_bytes() {
        allocate_ask(alloc, words)
    } else if verb == "finish".as_bytes() {
        finish_ask(alloc, words)
    } else {
        Err(LineError::Refused(LineFault::Form))
    }
}

fn register_ask(words: Words<'_>) -> Result<MasterAsk, LineError>
    ensures { Finds result (IsOf master_pieces IsScriptMasterAsk (codes "register" ∷ words.entry)) }
{
    words.end()?;
    Ok(MasterAsk::Register)
}

/// What a master asks for and releases.
fn allocate_ask(alloc: Global, mut words: Words<'_>) -> Result<MasterAsk, LineError>
    ensures { Finds result (IsOf master_pieces IsScriptMasterAsk (codes "allocate" ∷ words.entry)) }
{
    let id = number(words.word()?, Part::Response, 0, GREATEST_RESPONSE)?;
    let (asks, release) = two_lists::<Said, Said, Ask, ContainerId>(
        alloc,
        words,
        b"ask=",
        b"release=",
    )?;
    Ok(MasterAsk::Allocate { id, asks, release })
}

/// What a master asks that ends: it says one byte at least.
fn finish_ask(alloc: Global, mut words: Words<'_>) -> Result<MasterAsk, LineError>
    ensures { Finds result (IsOf master_pieces IsScriptMasterAsk (codes "finish" ∷ words.entry)) }
{
    let text = words.last_text(alloc, b"", Part::Note, TextKind::Note)?;
    if text.bytes().is_empty() {
        return Err(LineError::Refused(LineFault::Text {
            part: Part::Note,
            kind: TextKind::Note,
            found: Excerpt::of(b""),
        }));
    }
    Ok(MasterAsk::Finish { text })
}
