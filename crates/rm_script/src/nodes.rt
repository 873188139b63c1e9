ghost use Rattle.std.specs.Prelude.{◌∷◌, codes};
ghost use Rattle.rm_formats.specs.Wording.{node_words};
ghost use Rattle.rm_lines.specs.Results.{Finds, IsOf};
ghost use Rattle.rm_script.specs.Messages.{IsScriptNodeAsk, IsScriptMessage};
ghost use Rattle.rm_script.specs.Pieces.{said_pieces};

use crate::limits::{GREATEST_RESPONSE, GREATEST_TURN};
use crate::lists::{Said, one_list, two_lists};
use rm_lines::{LineError, LineFault, Part, Words, number, text};
use rm_types::{
    ContainerId, GREATEST_MEMORY_MB, GREATEST_VCORES, Held, Message, NodeAsk, Resource, TextKind,
};
use std::alloc::Global;

/// The message of a node, by the words after `node`.
pub(crate) fn node_message(alloc: Global, mut words: Words<'_>) -> Result<Message, LineError>
    ensures { Finds result (IsOf said_pieces IsScriptMessage (codes "node" ∷ words.entry)) }
{
    let node = text(alloc, words.word()?, Part::Node, TextKind::Node)?;
    let ask = node_ask(alloc, words)?;
    Ok(Message::Node(node, ask))
}

/// What a node says.
fn node_ask(alloc: Global, mut words: Words<'_>) -> Result<NodeAsk, LineError>
    ensures { Finds result (IsOf node_words IsScriptNodeAsk words.entry) }
{
    let verb = words.word()?;
    ask_by(alloc, verb, words)
}

/// The same by the word that says it and the words after that.
fn ask_by(alloc: Global, verb: &[u8], words: Words<'_>) -> Result<NodeAsk, LineError>
    ensures { Finds result (IsOf node_words IsScriptNodeAsk (verb.now ∷ words.entry)) }
{
    if verb == "register".as_bytes() {
        register_ask(alloc, words)
    } else if verb == "beat".as_bytes() {
        beat_ask(alloc, words)
    } else {
        Err(LineError::Refused(LineFault::Form))
    }
}

/// What a node says that registers: its turn, its capability and what runs on it.
fn register_ask(alloc: Global, mut words: Words<'_>) -> Result<NodeAsk, LineError>
    ensures { Finds result (IsOf node_words IsScriptNodeAsk (codes "register" ∷ words.entry)) }
{
    let turn = number(words.word()?, Part::Turn, 1, GREATEST_TURN)?;
    let memory_mb = number(
        words.field(b"memory=")?,
        Part::Memory,
        1,
        GREATEST_MEMORY_MB,
    )?;
    let vcores = number(words.field(b"vcores=")?, Part::Cores, 1, GREATEST_VCORES)?;
    let running = one_list::<Said, Held>(alloc, words, b"running=")?;
    Ok(NodeAsk::Register {
        turn,
        capability: Resource { memory_mb, vcores },
        running,
    })
}

/// What a node says in a beat: its id, what runs on it and what is done.
fn beat_ask(alloc: Global, mut words: Words<'_>) -> Result<NodeAsk, LineError>
    ensures { Finds result (IsOf node_words IsScriptNodeAsk (codes "beat" ∷ words.entry)) }
{
    let id = number(words.word()?, Part::Response, 0, GREATEST_RESPONSE)?;
    let (running, done) = two_lists::<Said, Said, Held, ContainerId>(
        alloc,
        words,
        b"running=",
        b"done=",
    )?;
    Ok(NodeAsk::Beat { id, running, done })
}
